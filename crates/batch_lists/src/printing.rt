//! The texts of the faults of a list of batches and of a batch.
ghost use Rattle.batch_lists.specs.FaultTexts.{batch_word_fault_text, batches_fault_text};
ghost use Rattle.batch_lists.specs.FaultTexts.{batch_fault_text};

use crate::fault::{BatchFault, BatchWordFault, BatchesFault};
use load_base::{NoMemory, Text};
use printed_text::{Printed, coded, nested};
use std::alloc::Global;

impl Printed for BatchWordFault {
    ghost printed = { batch_word_fault_text };

    ghost longest = { 44 };

    /// That of the name's, part number's or Ident's fault.
    fn text(&self, alloc: Global) -> Result<Text, NoMemory> {
        match *self {
            BatchWordFault::Name(fault) => fault.text(alloc),
            BatchWordFault::Part(fault) => fault.text(alloc),
            BatchWordFault::Ident(fault) => fault.text(alloc),
        }
    }
}

impl Printed for BatchesFault {
    ghost printed = { batches_fault_text };

    ghost longest = { 68 };

    /// L1 to L13 and the fields, as in `L5 2 21 20`, and a nested fault in its place, as in `L7 42
    /// P3 0`.
    fn text(&self, alloc: Global) -> Result<Text, NoMemory> {
        match *self {
            BatchesFault::Short(offset) => coded(alloc, b"L1", &[offset]),
            BatchesFault::Length { said, found } => coded(alloc, b"L2", &[said, found]),
            BatchesFault::Version(found) => coded(alloc, b"L3", &[found]),
            BatchesFault::Spare(found) => coded(alloc, b"L4", &[found]),
            BatchesFault::Pointer {
                which,
                said,
                expected,
            } => coded(alloc, b"L5", &[which, said, expected]),
            BatchesFault::Pad(offset) => coded(alloc, b"L6", &[offset]),
            BatchesFault::Word { place, fault } => nested(alloc, b"L7", &[place], &fault),
            BatchesFault::Distance(entry) => coded(alloc, b"L8", &[entry]),
            BatchesFault::Member(offset) => coded(alloc, b"L9", &[offset]),
            BatchesFault::Repeated(entry) => coded(alloc, b"L10", &[entry]),
            BatchesFault::TooLong => coded(alloc, b"L11", &[]),
            BatchesFault::Rest(offset) => coded(alloc, b"L12", &[offset]),
            BatchesFault::Crc { said, found } => coded(alloc, b"L13", &[said, found]),
            BatchesFault::Memory => Ok(Text::empty(alloc)),
        }
    }
}

impl Printed for BatchFault {
    ghost printed = { batch_fault_text };

    ghost longest = { 68 };

    /// J1 to J10 and the fields, as in `J2 45 26`, and a nested fault in its place, as in `J6 10 P3
    /// 0`.
    fn text(&self, alloc: Global) -> Result<Text, NoMemory> {
        match *self {
            BatchFault::Short(offset) => coded(alloc, b"J1", &[offset]),
            BatchFault::Length { said, found } => coded(alloc, b"J2", &[said, found]),
            BatchFault::Version(found) => coded(alloc, b"J3", &[found]),
            BatchFault::Spare(found) => coded(alloc, b"J4", &[found]),
            BatchFault::Pad(offset) => coded(alloc, b"J5", &[offset]),
            BatchFault::Word { place, fault } => nested(alloc, b"J6", &[place], &fault),
            BatchFault::Count(offset) => coded(alloc, b"J7", &[offset]),
            BatchFault::Rest(offset) => coded(alloc, b"J8", &[offset]),
            BatchFault::Crc { said, found } => coded(alloc, b"J9", &[said, found]),
            BatchFault::TooLong => coded(alloc, b"J10", &[]),
            BatchFault::Memory => Ok(Text::empty(alloc)),
        }
    }
}
