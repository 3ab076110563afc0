//! The texts of a media list's faults.
ghost use Rattle.media_lists.specs.ListFaultText.{list_fault_text, word_fault_text};
ghost use Rattle.media_lists.specs.ListFaultText.{path_fault_text};

use crate::fault::{ListFault, PathFault, WordFault};
use load_base::{NoMemory, Text};
use printed_text::{Printed, coded, nested};
use std::alloc::Global;

impl Printed for PathFault {
    ghost printed = { path_fault_text };

    ghost longest = { 23 };

    /// `Q1 OFFSET`.
    fn text(&self, alloc: Global) -> Result<Text, NoMemory> {
        match *self {
            PathFault::Path(end) => coded(alloc, b"Q1", &[end]),
        }
    }
}

impl Printed for WordFault {
    ghost printed = { word_fault_text };

    ghost longest = { 44 };

    /// That of the name's, part number's, text's or path's fault.
    fn text(&self, alloc: Global) -> Result<Text, NoMemory> {
        match *self {
            WordFault::Name(fault) => fault.text(alloc),
            WordFault::Part(fault) => fault.text(alloc),
            WordFault::Text(fault) => fault.text(alloc),
            WordFault::Path(fault) => fault.text(alloc),
        }
    }
}

impl Printed for ListFault {
    ghost printed = { list_fault_text };

    ghost longest = { 68 };

    /// L1 to L13 and the fields, as in `L5 2 21 20`, and a nested fault in its place, as in `L7 58
    /// Q1 3`.
    fn text(&self, alloc: Global) -> Result<Text, NoMemory> {
        match *self {
            ListFault::Short(offset) => coded(alloc, b"L1", &[offset]),
            ListFault::Length { said, found } => coded(alloc, b"L2", &[said, found]),
            ListFault::Version(found) => coded(alloc, b"L3", &[found]),
            ListFault::Spare(found) => coded(alloc, b"L4", &[found]),
            ListFault::Pointer {
                which,
                said,
                expected,
            } => coded(alloc, b"L5", &[which, said, expected]),
            ListFault::Pad(offset) => coded(alloc, b"L6", &[offset]),
            ListFault::Word { place, fault } => nested(alloc, b"L7", &[place], &fault),
            ListFault::Distance(entry) => coded(alloc, b"L8", &[entry]),
            ListFault::Member(offset) => coded(alloc, b"L9", &[offset]),
            ListFault::Repeated(entry) => coded(alloc, b"L10", &[entry]),
            ListFault::TooLong => coded(alloc, b"L11", &[]),
            ListFault::Rest(offset) => coded(alloc, b"L12", &[offset]),
            ListFault::Crc { said, found } => coded(alloc, b"L13", &[said, found]),
            ListFault::Memory => Ok(Text::empty(alloc)),
        }
    }
}
