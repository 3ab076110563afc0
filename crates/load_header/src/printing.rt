//! The texts of a header's faults.
ghost use Rattle.load_header.specs.HeaderFaultText.{header_fault_text};

use crate::fault::HeaderFault;
use load_base::{NoMemory, Text};
use printed_text::{Printed, coded, nested};
use std::alloc::Global;

impl Printed for HeaderFault {
    ghost printed = { header_fault_text };

    ghost longest = { 65 };

    /// H1 to H15 and the fields, as in `H4 5 39 38`, and a nested fault in its place, as in `H12 50
    /// N3 2`.
    fn text(&self, alloc: Global) -> Result<Text, NoMemory> {
        match *self {
            HeaderFault::Short(offset) => coded(alloc, b"H1", &[offset]),
            HeaderFault::Length { said, found } => coded(alloc, b"H2", &[said, found]),
            HeaderFault::Version(found) => coded(alloc, b"H3", &[found]),
            HeaderFault::Pointer {
                which,
                said,
                expected,
            } => coded(alloc, b"H4", &[which, said, expected]),
            HeaderFault::Pad(offset) => coded(alloc, b"H5", &[offset]),
            HeaderFault::Part(fault) => nested(alloc, b"H6", &[], &fault),
            HeaderFault::CheckValuePresent => coded(alloc, b"H7", &[]),
            HeaderFault::Distance(file) => coded(alloc, b"H8", &[file]),
            HeaderFault::Sizes(file) => coded(alloc, b"H9", &[file]),
            HeaderFault::HeaderCrc { said, found } => coded(alloc, b"H10", &[said, found]),
            HeaderFault::TooLong => coded(alloc, b"H11", &[]),
            HeaderFault::Name { place, fault } => nested(alloc, b"H12", &[place], &fault),
            HeaderFault::Text { place, fault } => nested(alloc, b"H13", &[place], &fault),
            HeaderFault::TooMany(found) => coded(alloc, b"H14", &[found]),
            HeaderFault::Rest(offset) => coded(alloc, b"H15", &[offset]),
            HeaderFault::Memory => Ok(Text::empty(alloc)),
        }
    }
}
