//! The text of a fault of a script (docs/FORMATS.md, "Printed text").
use crate::ScriptFault;
use load_base::{NoMemory, Text};
use printed_text::{Printed, coded};
use std::alloc::Global;

impl Printed for ScriptFault {
    ghost use Rattle.exchange_trace.specs.FaultTexts.{script_fault_text};

    ghost printed = { script_fault_text };

    ghost longest = { 23 };

    /// `S1 LINE` to `S4 LINE`, `S5`, or `S6 LINE`.
    fn text(&self, alloc: Global) -> Result<Text, NoMemory> {
        match *self {
            ScriptFault::Word(line) => coded(alloc, b"S1", &[line]),
            ScriptFault::Number(line) => coded(alloc, b"S2", &[line]),
            ScriptFault::Hex(line) => coded(alloc, b"S3", &[line]),
            ScriptFault::Name(line) => coded(alloc, b"S4", &[line]),
            ScriptFault::TooLong => coded(alloc, b"S5", &[]),
            ScriptFault::Unit(line) => coded(alloc, b"S6", &[line]),
            ScriptFault::Memory => Ok(Text::empty(alloc)),
        }
    }
}
