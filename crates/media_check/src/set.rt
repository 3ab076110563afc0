//! Media sets in memory.
ghost use Rattle.std.specs.Prelude.{◌≡◌, ◌≤◌, length, option_map, IfSome, All};
ghost use Rattle.std.specs.HashMap.{values};
ghost use Rattle.load_base.specs.Host.{longest_file};
ghost use Rattle.field_grammar.specs.Grammar.{IsBytes};
ghost use Rattle.batch_lists.specs.Batches.{batches_list_view};
ghost use Rattle.media_check.specs.Batches.{AreKeptBatches, HaveFirst};
ghost use Rattle.media_check.specs.Kept.{IsBytesFile, IsShortFile, entries_of, files_view};
ghost use Rattle.media_check.specs.Kept.{found_view};

use crate::batches::KeptBatches;
use crate::found::Found;
use batch_lists::{Batch, BatchesFault, BatchesList};
use indexmap::IndexMap;
use load_base::{Bytes, List, Name, PartText};
use media_lists::{FilesList, ListFault, LoadsList};

/// The lists of a member, as they were found.
#[derive(Drop)]
pub struct MemberLists {
    pub loads: Found<LoadsList, ListFault>,
    pub files: Found<FilesList, ListFault>,
    pub batches: Found<BatchesList, BatchesFault>,
}

/// A file that `FILES.LUM` of member 1 lists.
#[derive(Drop)]
pub struct KeptFile {
    /// The member that its entry names.
    pub member: u16,
    /// Its bytes; `None` where it is absent.
    pub bytes: Option<Bytes>,
}

/// A media set: the lists of its members as they were found, the files that member 1's `FILES.LUM`
/// lists, and the batches that its `BATCHES.LUM` lists.
#[derive(Drop)]
pub struct MediaSet {
    pub(crate) first: MemberLists,
    // Those of the members from 2 on.
    pub(crate) further: List<MemberLists>,
    // In the order of the list.
    pub(crate) files: IndexMap<Name, KeptFile>,
    pub(crate) batches: KeptBatches,
    ghost few: { length further.items ≤ 254 },
    ghost short: { All IsShortFile (values files) },
    ghost kept: { AreKeptBatches (files_view files.entries)
        (entries_of (found_view batches_list_view first.batches)) batches.kept.items },
    ghost known: { HaveFirst batches.first.entries
        (entries_of (found_view batches_list_view first.batches)) },
}

impl MediaSet {
    ghost use Rattle.batch_lists.specs.Batch.{batch_view};
    ghost use Rattle.media_lists.specs.Files.{files_list_view};
    ghost use Rattle.media_lists.specs.Loads.{loads_list_view};
    ghost use Rattle.media_check.specs.Sets.{set_view, list_of, bytes_of, batch_of};
    ghost use Rattle.media_check.specs.Sets.{AreFilesBytes};

    /// Member 1's `LOADS.LUM`; `None` exactly where it is absent or refused.
    pub fn loads(&self) -> Option<&LoadsList>
        ensures { option_map (λ list. loads_list_view list.now) result
            ≡ list_of (set_view self.now).first.loads }
    {
        match &self.first.loads {
            Found::Read(list) => Some(list),
            _ => None,
        }
    }

    /// Member 1's `FILES.LUM`; `None` exactly where it is absent or refused.
    pub fn files(&self) -> Option<&FilesList>
        ensures { option_map (λ list. files_list_view list.now) result
            ≡ list_of (set_view self.now).first.files }
    {
        match &self.first.files {
            Found::Read(list) => Some(list),
            _ => None,
        }
    }

    /// The bytes of the file of this name, which is looked up in a map. `None` exactly where it
    /// isn't listed, and where it is absent. It takes no memory.
    pub fn file(&self, name: &Name) -> Option<&Bytes>
        ensures bytes { option_map (λ bytes. bytes.now.items) result
            ≡ bytes_of (set_view self.now) name.now }
        ensures short { IfSome result (λ bytes. length bytes.now.items ≤ longest_file) }
    {
        match self.files.get(name) {
            Some(file) => match &file.bytes {
                Some(bytes) => Some(bytes),
                None => None,
            },
            None => None,
        }
    }

    /// The batch with this part number, which is looked up in a map: that of the first entry of
    /// member 1's `BATCHES.LUM` with it. `None` exactly where no entry has it, and where that
    /// entry's file isn't listed, is absent or is refused. It takes no memory.
    pub fn batch(&self, part: &PartText) -> Option<&Batch>
        ensures { option_map (λ b. batch_view b.now) result ≡ batch_of
            (set_view self.now) part.now }
    {
        self.batches.find(part)
    }

    /// Each file that is there is bytes, and not too long: of all names, where [`MediaSet::file`]
    /// says it of one. It changes nothing, takes no memory, and looks at each file once.
    pub fn files_are_bytes(&self)
        ensures { AreFilesBytes (set_view self.now) }
    {
        for file in self.files.values() {
            is_bytes(file);
        }
    }
}

// For the proof: does nothing.
fn is_bytes(file: &KeptFile)
    ensures { IsBytesFile file.now }
{
    if let Some(bytes) = &file.bytes {
        are_bytes(bytes.as_slice());
    }
}

// For the proof: does nothing.
fn are_bytes(bytes: &[u8])
    ensures { IsBytes bytes.now }
{}
