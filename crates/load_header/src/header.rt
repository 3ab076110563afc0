//! What a load header holds.
ghost use Rattle.std.specs.Prelude.{◌≡◌, ◌⊎◌, ◌↔◌, IsTrue, IfOk, IfErr};
ghost use Rattle.field_grammar.specs.Grammar.{Fault};
ghost use Rattle.field_grammar.specs.Answers.{AnswersAs};
ghost use Rattle.load_header.specs.Header.{header, header_view, HeaderView};
ghost use Rattle.load_header.specs.HeaderFields.{IsHeader, HeaderSpells};
ghost use Rattle.load_header.specs.declared.fault.HeaderFault.{HeaderFault};
ghost use Rattle.load_header.specs.declared.fault.HeaderFault.TheVariants.{Memory};

use crate::fault::HeaderFault;
use crate::reading::header_of;
use crate::{encoding, measuring};
use load_base::{Bytes, List, Name, NoMemory, Text};
use part_number::PartNumber;
use std::alloc::Global;

/// A file of a load.
#[derive(Drop)]
pub struct FileEntry {
    pub name: Name,
    pub part: Text,
    /// Its length in bytes, at most 16,777,215 in a header that was read.
    pub length: u32,
    /// The CRC-16 of its bytes.
    pub crc16: u16,
}

/// The positions that a load is for, of one kind of hardware.
#[derive(Drop)]
pub struct HardwareAt {
    pub hardware: Text,
    pub positions: List<Text>,
}

/// A load header.
#[derive(Drop)]
pub struct LoadHeader {
    pub flags: u16,
    pub part: PartNumber,
    pub type_name: Text,
    pub type_id: u16,
    pub hardware: List<Text>,
    pub positions: List<HardwareAt>,
    pub data_files: List<FileEntry>,
    pub support_files: List<FileEntry>,
    pub user: Bytes,
    /// The CRC-32 of the header but its last 4 bytes, of the data files and of the support files,
    /// back to back. It is not compared when a header is read.
    pub load_crc: u32,
}

impl LoadHeader {
    /// Reads a whole header (this project's layout, docs/FORMATS.md). [`HeaderFault::TooLong`] is
    /// tested first. Then the fields are read in order, and each is tested as soon as it was read;
    /// but a pointer is tested when its section begins, a distance when its entry ended, and last,
    /// `Rest` and then `HeaderCrc`.
    pub fn decode(alloc: Global, bytes: &[u8]) -> Result<LoadHeader, HeaderFault>
        // What is read is spelled so.
        ensures found { IfOk result (λ h. HeaderSpells (header_view h) bytes.now) }
        // What is spelled so is read, unless it is out of memory.
        ensures only { (v : HeaderView) → HeaderSpells v bytes.now
            → AnswersAs Memory header_view result (Ok v) }
        // A refusal is the first fault,
        ensures refused { IfErr result (λ fault. (fault ≡ Memory) ⊎ Fault header bytes.now fault) }
        // and where there is a fault, it is refused so.
        ensures faulty { (fault : HeaderFault) → Fault header bytes.now fault
            → AnswersAs Memory header_view result (Err fault) }
    {
        header_of(alloc, bytes)
    }

    /// Whether the header meets the limits of the format (this project's layout, docs/FORMATS.md),
    /// so that it has a spelling: at most 65,536 bytes in all; at most 255 data and support files
    /// together, each of at most 16,777,215 bytes; at most 65,535 members of each other list; and
    /// an even number of bytes of user data. It takes no memory.
    pub fn fits(&self) -> bool
        ensures { IsTrue result ↔ IsHeader (header_view self.now) }
    {
        measuring::fits(self)
    }

    /// The one spelling of a header that meets the limits. Lengths, pointers, distances and the
    /// check sum of the header are computed; the check sum of the load is the field `load_crc`.
    pub fn encode(&self, alloc: Global) -> Result<Bytes, NoMemory>
        requires { IsHeader (header_view self.now) }
        ensures { IfOk result (λ bytes. HeaderSpells (header_view self.now) bytes.items) }
    {
        encoding::header_bytes(alloc, self)
    }
}
