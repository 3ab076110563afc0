//! The texts of a part number's faults.
ghost use Rattle.part_number.specs.FaultText.{part_fault_text};

use crate::PartFault;
use load_base::{NoMemory, Text};
use printed_text::{Printed, coded};
use std::alloc::Global;

impl Printed for PartFault {
    ghost printed = { part_fault_text };

    ghost longest = { 44 };

    /// `P1 FOUND`, `P2 OFFSET`, `P3 OFFSET` or `P4 WRITTEN COMPUTED`.
    fn text(&self, alloc: Global) -> Result<Text, NoMemory> {
        match *self {
            PartFault::Length(found) => coded(alloc, b"P1", &[found]),
            PartFault::Hyphen(offset) => coded(alloc, b"P2", &[offset]),
            PartFault::Character(offset) => coded(alloc, b"P3", &[offset]),
            PartFault::Check { written, computed } => {
                coded(alloc, b"P4", &[u64::from(written), u64::from(computed)])
            }
        }
    }
}
