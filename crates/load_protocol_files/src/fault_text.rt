//! The texts of the faults of protocol files.
ghost use Rattle.load_protocol_files.specs.FaultTexts.{file_fault_text};

use crate::FileFault;
use load_base::{NoMemory, Text};
use printed_text::{Printed, coded, nested};
use std::alloc::Global;

impl Printed for FileFault {
    ghost printed = { file_fault_text };

    ghost longest = { 68 };

    /// U1 to U8 and the fields, and a nested fault in its place, as in `U7 10 P1 14`.
    fn text(&self, alloc: Global) -> Result<Text, NoMemory> {
        match *self {
            FileFault::Short(offset) => coded(alloc, b"U1", &[offset]),
            FileFault::Length { said, found } => coded(alloc, b"U2", &[said, found]),
            FileFault::Version(found) => coded(alloc, b"U3", &[u64::from(found)]),
            FileFault::Digits(offset) => coded(alloc, b"U4", &[offset]),
            FileFault::Rest(offset) => coded(alloc, b"U5", &[offset]),
            FileFault::Name { place, fault } => nested(alloc, b"U6", &[place], &fault),
            FileFault::Part { place, fault } => nested(alloc, b"U7", &[place], &fault),
            FileFault::Text { place, fault } => nested(alloc, b"U8", &[place], &fault),
            FileFault::Memory => Ok(Text::empty(alloc)),
        }
    }
}
