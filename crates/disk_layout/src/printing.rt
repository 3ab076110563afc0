//! The text of a fault of recovery (docs/FORMATS.md, "Printed text").
use crate::RecoverFault;
use load_base::{NoMemory, Text};
use printed_text::{Printed, coded};
use std::alloc::Global;

impl Printed for RecoverFault {
    ghost use Rattle.disk_layout.specs.Faults.{recover_fault_text};

    ghost printed = { recover_fault_text };

    ghost longest = { 23 };

    /// `V1 OFFSET`, `V2`, `V3 OFFSET` or `V4 OFFSET`. A failure of the disk is told otherwise, and
    /// has no text here.
    fn text(&self, alloc: Global) -> Result<Text, NoMemory> {
        match *self {
            RecoverFault::NotFormatted(offset) => coded(alloc, b"V1", &[offset]),
            RecoverFault::NoOpenSlot => coded(alloc, b"V2", &[]),
            RecoverFault::BadSlot(offset) => coded(alloc, b"V3", &[offset]),
            RecoverFault::BadManifest(offset) => coded(alloc, b"V4", &[offset]),
            RecoverFault::DiskFailed | RecoverFault::Memory => Ok(Text::empty(alloc)),
        }
    }
}
