//! What the two lists of a media set hold.
ghost use Rattle.std.specs.Prelude.{◌≡◌, ◌⊎◌, ◌↔◌, IsTrue, IfOk, IfErr};
ghost use Rattle.field_grammar.specs.Grammar.{Fault};
ghost use Rattle.field_grammar.specs.Answers.{AnswersAs};
ghost use Rattle.media_lists.specs.Files.{files_list, files_list_view, FilesListView, FilesSpells};
ghost use Rattle.media_lists.specs.Files.{IsFilesList};
ghost use Rattle.media_lists.specs.Loads.{loads_list, loads_list_view, LoadsListView, LoadsSpells};
ghost use Rattle.media_lists.specs.Loads.{IsLoadsList};
ghost use Rattle.media_lists.specs.declared.fault.ListFault.{ListFault};
ghost use Rattle.media_lists.specs.declared.fault.ListFault.TheVariants.{Memory};

use crate::fault::ListFault;
use crate::reading_files::files_of;
use crate::reading_loads::loads_of;
use crate::{encoding, fitting};
use load_base::{Bytes, List, Name, NoMemory, Text};
use part_number::PartNumber;
use std::alloc::Global;

/// The version in the head of a list of loads (this project's layout, docs/FORMATS.md).
pub const LOADS_VERSION: u16 = 0x9004;

/// The version in the head of a list of files (this project's layout, docs/FORMATS.md).
pub const FILES_VERSION: u16 = 0xA004;

/// A file of a media set.
#[derive(Drop)]
pub struct ListedFile {
    pub name: Name,
    /// Its folder within the member: a `\` and 0 to 4 names, each followed by `\`, at most 64
    /// bytes.
    pub path: Text,
    /// The member of the set that has it, from 1.
    pub member: u16,
    /// The CRC-16 of its bytes.
    pub crc16: u16,
}

/// The list of a media set's files, `FILES.LUM`.
#[derive(Drop)]
pub struct FilesList {
    /// The part number of the set.
    pub set: PartNumber,
    /// The member that has this list, from 1.
    pub member: u8,
    /// How many members the set has.
    pub members: u8,
    pub files: List<ListedFile>,
    pub user: Bytes,
}

impl FilesList {
    /// Reads a whole list (this project's layout, docs/FORMATS.md). [`ListFault::TooLong`] is
    /// tested first of the length. Then the fields are read in order, and each is tested as soon as
    /// it was read; but a pointer is tested when its section begins, a distance when its entry
    /// ended, then that its name is new, and last, `Rest` and then `Crc`.
    pub fn decode(alloc: Global, bytes: &[u8]) -> Result<FilesList, ListFault>
        // What is read is spelled so.
        ensures found { IfOk result (λ l. FilesSpells (files_list_view l) bytes.now) }
        // What is spelled so is read, unless it is out of memory.
        ensures only { (v : FilesListView) → FilesSpells v bytes.now
            → AnswersAs Memory files_list_view result (Ok v) }
        // A refusal is the first fault,
        ensures refused { IfErr result (λ fault. (fault ≡ Memory) ⊎ Fault files_list bytes.now
            fault) }
        // and where there is a fault, it is refused so.
        ensures faulty { (fault : ListFault) → Fault files_list bytes.now fault
            → AnswersAs Memory files_list_view result (Err fault) }
    {
        files_of(alloc, bytes)
    }

    /// Whether the list meets the limits of the format (this project's layout, docs/FORMATS.md), so
    /// that it has a spelling: at most 1,024 files, each with a path and the number of a member; no
    /// name twice; a member's number from 1 to `members`; an even number of at most 131,070 bytes
    /// of user data; and at most 1,048,576 bytes in all. It takes no memory.
    pub fn fits(&self) -> bool
        ensures { IsTrue result ↔ IsFilesList (files_list_view self.now) }
    {
        fitting::files_fit(self)
    }

    /// The one spelling of a list that meets the limits. Lengths, pointers, distances and the check
    /// sum are computed.
    pub fn encode(&self, alloc: Global) -> Result<Bytes, NoMemory>
        requires { IsFilesList (files_list_view self.now) }
        ensures { IfOk result (λ bytes. FilesSpells (files_list_view self.now) bytes.items) }
    {
        encoding::files_bytes(alloc, self)
    }
}

/// A load of a media set.
#[derive(Drop)]
pub struct LoadEntry {
    pub part: PartNumber,
    /// The name of its header's file.
    pub header_name: Name,
    /// The member of the set that has its header, from 1.
    pub member: u16,
    /// The hardware that the load is for.
    pub hardware: List<Text>,
}

/// The list of a media set's loads, `LOADS.LUM`.
#[derive(Drop)]
pub struct LoadsList {
    /// The part number of the set.
    pub set: PartNumber,
    /// The member that has this list, from 1.
    pub member: u8,
    /// How many members the set has.
    pub members: u8,
    pub loads: List<LoadEntry>,
    pub user: Bytes,
}

impl LoadsList {
    /// Reads a whole list (this project's layout, docs/FORMATS.md). The tests come as in
    /// [`FilesList::decode`]; the names that may not stand twice are those of the headers.
    pub fn decode(alloc: Global, bytes: &[u8]) -> Result<LoadsList, ListFault>
        // What is read is spelled so.
        ensures found { IfOk result (λ l. LoadsSpells (loads_list_view l) bytes.now) }
        // What is spelled so is read, unless it is out of memory.
        ensures only { (v : LoadsListView) → LoadsSpells v bytes.now
            → AnswersAs Memory loads_list_view result (Ok v) }
        // A refusal is the first fault,
        ensures refused { IfErr result (λ fault. (fault ≡ Memory) ⊎ Fault loads_list bytes.now
            fault) }
        // and where there is a fault, it is refused so.
        ensures faulty { (fault : ListFault) → Fault loads_list bytes.now fault
            → AnswersAs Memory loads_list_view result (Err fault) }
    {
        loads_of(alloc, bytes)
    }

    /// Whether the list meets the limits of the format (this project's layout, docs/FORMATS.md), so
    /// that it has a spelling: at most 1,024 loads, each for at most 1,024 kinds of hardware and
    /// with the number of a member; at most 131,070 bytes of each entry but the last; no header's
    /// name twice; a member's number from 1 to `members`; an even number of at most 131,070 bytes
    /// of user data; and at most 1,048,576 bytes in all. It takes no memory.
    pub fn fits(&self) -> bool
        ensures { IsTrue result ↔ IsLoadsList (loads_list_view self.now) }
    {
        fitting::loads_fit(self)
    }

    /// The one spelling of a list that meets the limits. Lengths, pointers, distances and the check
    /// sum are computed.
    pub fn encode(&self, alloc: Global) -> Result<Bytes, NoMemory>
        requires { IsLoadsList (loads_list_view self.now) }
        ensures { IfOk result (λ bytes. LoadsSpells (loads_list_view self.now) bytes.items) }
    {
        encoding::loads_bytes(alloc, self)
    }
}
