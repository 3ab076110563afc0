//! A batch.
ghost use Rattle.std.specs.Prelude.{◌≡◌, ◌⊎◌, ◌↔◌, IsTrue, IfOk, IfErr};
ghost use Rattle.field_grammar.specs.Grammar.{Fault};
ghost use Rattle.field_grammar.specs.Answers.{AnswersAs};
ghost use Rattle.batch_lists.specs.Batch.{batch, batch_view, BatchView};
ghost use Rattle.batch_lists.specs.BatchFields.{IsBatch, BatchSpells};
ghost use Rattle.batch_lists.specs.declared.fault.BatchFault.{BatchFault};
ghost use Rattle.batch_lists.specs.declared.fault.BatchFault.TheVariants.{Memory};

use crate::batch_reading::batch_of;
use crate::batch_writing::batch_bytes;
use crate::fault::BatchFault;
use crate::fitting::batch_fits;
use load_base::{Bytes, Ident, List, NoMemory};
use part_number::PartNumber;
use std::alloc::Global;

/// The version in the head of a batch (this project's layout, docs/FORMATS.md).
pub const BATCH_VERSION: u16 = 0xC004;

/// A target of a batch.
#[derive(Drop)]
pub struct BatchTarget {
    /// The name of its hardware.
    pub hw: Ident,
    /// Its position.
    pub pos: Ident,
    /// The part numbers of the loads that it gets, 1 to 32.
    pub parts: List<PartNumber>,
}

/// A batch, the contents of a `.LUB` file: which loads are uploaded to which targets, in order.
#[derive(Drop)]
pub struct Batch {
    /// The part number of the batch.
    pub part: PartNumber,
    /// Its targets, 1 to 64.
    pub targets: List<BatchTarget>,
}

impl Batch {
    /// Reads a whole batch (this project's layout, docs/FORMATS.md). [`BatchFault::TooLong`] is
    /// tested first of the length. Then the fields are read in order, and each is tested as soon as
    /// it was read, the bytes of a text before its pad; and last, `Rest` and then `Crc`.
    pub fn decode(alloc: Global, bytes: &[u8]) -> Result<Batch, BatchFault>
        // What is read is spelled so.
        ensures found { IfOk result (λ b. BatchSpells (batch_view b) bytes.now) }
        // What is spelled so is read, unless it is out of memory.
        ensures only { (v : BatchView) → BatchSpells v bytes.now
            → AnswersAs Memory batch_view result (Ok v) }
        // A refusal is the first fault,
        ensures refused { IfErr result (λ fault. (fault ≡ Memory) ⊎ Fault batch bytes.now fault) }
        // and where there is a fault, it is refused so.
        ensures faulty { (fault : BatchFault) → Fault batch bytes.now fault
            → AnswersAs Memory batch_view result (Err fault) }
    {
        batch_of(alloc, bytes)
    }

    /// Whether the batch meets the limits of the format (this project's layout, docs/FORMATS.md),
    /// so that it has a spelling: 1 to 64 targets, each with 1 to 32 parts. Such a batch has at
    /// most 39,838 bytes. It takes no memory.
    pub fn fits(&self) -> bool
        ensures { IsTrue result ↔ IsBatch (batch_view self.now) }
    {
        batch_fits(self)
    }

    /// The one spelling of a batch that meets the limits. Its length and the check sum are
    /// computed.
    pub fn encode(&self, alloc: Global) -> Result<Bytes, NoMemory>
        requires { IsBatch (batch_view self.now) }
        ensures { IfOk result (λ bytes. BatchSpells (batch_view self.now) bytes.items) }
    {
        batch_bytes(alloc, self)
    }
}
