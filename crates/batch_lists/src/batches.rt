//! The list of a media set's batches.
ghost use Rattle.std.specs.Prelude.{◌≡◌, ◌⊎◌, ◌↔◌, IsTrue, IfOk, IfErr};
ghost use Rattle.field_grammar.specs.Grammar.{Fault};
ghost use Rattle.field_grammar.specs.Answers.{AnswersAs};
ghost use Rattle.batch_lists.specs.Batches.{batches_list, batches_list_view, BatchesListView};
ghost use Rattle.batch_lists.specs.Batches.{IsBatchesList, BatchesSpells};
ghost use Rattle.batch_lists.specs.declared.fault.BatchesFault.{BatchesFault};
ghost use Rattle.batch_lists.specs.declared.fault.BatchesFault.TheVariants.{Memory};

use crate::batches_reading::batches_of;
use crate::batches_writing::{batches_bytes, batches_fit};
use crate::fault::BatchesFault;
use load_base::{Bytes, List, Name, NoMemory};
use part_number::PartNumber;
use std::alloc::Global;

/// The version in the head of a list of batches (this project's layout, docs/FORMATS.md).
pub const BATCHES_VERSION: u16 = 0xB004;

/// A batch of a media set.
#[derive(Drop)]
pub struct BatchEntry {
    pub part: PartNumber,
    /// The name of its file.
    pub file: Name,
    /// The member of the set that has its file, from 1.
    pub member: u16,
}

/// The list of a media set's batches, `BATCHES.LUM`.
#[derive(Drop)]
pub struct BatchesList {
    /// The part number of the set.
    pub set: PartNumber,
    /// The member that has this list, from 1.
    pub member: u8,
    /// How many members the set has.
    pub members: u8,
    pub batches: List<BatchEntry>,
    pub user: Bytes,
}

impl BatchesList {
    /// Reads a whole list (this project's layout, docs/FORMATS.md). The tests come as in
    /// [`FilesList::decode`](media_lists::FilesList::decode); the names that may not stand twice
    /// are those of the batches' files.
    pub fn decode(alloc: Global, bytes: &[u8]) -> Result<BatchesList, BatchesFault>
        // What is read is spelled so.
        ensures found { IfOk result (λ l. BatchesSpells (batches_list_view l) bytes.now) }
        // What is spelled so is read, unless it is out of memory.
        ensures only { (v : BatchesListView) → BatchesSpells v bytes.now
            → AnswersAs Memory batches_list_view result (Ok v) }
        // A refusal is the first fault,
        ensures refused { IfErr result (λ fault. (fault ≡ Memory) ⊎ Fault batches_list bytes.now
            fault) }
        // and where there is a fault, it is refused so.
        ensures faulty { (fault : BatchesFault) → Fault batches_list bytes.now fault
            → AnswersAs Memory batches_list_view result (Err fault) }
    {
        batches_of(alloc, bytes)
    }

    /// Whether the list meets the limits of the format (this project's layout, docs/FORMATS.md), so
    /// that it has a spelling: at most 1,024 batches, each with the number of a member; no file's
    /// name twice; a member's number from 1 to `members`; an even number of at most 131,070 bytes
    /// of user data; and at most 1,048,576 bytes in all. It takes no memory.
    pub fn fits(&self) -> bool
        ensures { IsTrue result ↔ IsBatchesList (batches_list_view self.now) }
    {
        batches_fit(self)
    }

    /// The one spelling of a list that meets the limits. Lengths, pointers, distances and the check
    /// sum are computed.
    pub fn encode(&self, alloc: Global) -> Result<Bytes, NoMemory>
        requires { IsBatchesList (batches_list_view self.now) }
        ensures { IfOk result (λ bytes. BatchesSpells (batches_list_view self.now) bytes.items) }
    {
        batches_bytes(alloc, self)
    }
}
