//! Reasons, as they are printed and told.
ghost use Rattle.std.specs.Prelude.{◌≡◌, IfOk};
ghost use Rattle.session_rules.specs.Reports.{reason_text as text_of, request_fault_text};

use load_base::{NoMemory, Text};
use printed_text::{Printed, coded, nested};
use session_rules::{Reason, RequestFault};
use std::alloc::Global;

/// Why a request is refused, as it is printed.
#[derive(Drop)]
struct Refused {
    fault: RequestFault,
}

impl Printed for Refused {
    ghost printed = { λ r. request_fault_text r.fault };

    ghost longest = { 68 };

    /// The file's fault, `L COUNT` or `T`.
    #[tactic(auto, unfolding(printed_text::specs::FaultTexts::coded))]
    fn text(&self, alloc: Global) -> Result<Text, NoMemory> {
        match self.fault {
            RequestFault::Spelling(fault) => fault.text(alloc),
            RequestFault::Loads(count) => coded(alloc, b"L", &[u64::from(count)]),
            RequestFault::TooLong => coded(alloc, b"T", &[]),
        }
    }
}

/// A1 to A14 and the fields of the reason, and a fault within it in its place, as in `A11 U1 5`
/// (docs/FORMATS.md, "Printed text").
#[tactic(auto, unfolding(printed_text::specs::FaultTexts::coded))]
pub fn reason_text(alloc: Global, reason: &Reason) -> Result<Text, NoMemory>
    ensures { IfOk result (λ text. text ≡ text_of reason.now) }
{
    match *reason {
        Reason::FileNotServed { code } => coded(alloc, b"A1", &[u64::from(code)]),
        Reason::HeaderRefused { fault } => nested(alloc, b"A2", &[], &fault),
        Reason::PartDiffers => coded(alloc, b"A3", &[]),
        Reason::NotThisHardware => coded(alloc, b"A4", &[]),
        Reason::RuleRefused => coded(alloc, b"A5", &[]),
        Reason::FileLength { file, said, found } => coded(
            alloc,
            b"A6",
            &[u64::from(file), u64::from(said), u64::from(found)],
        ),
        Reason::FileCrc { file, said, found } => coded(
            alloc,
            b"A7",
            &[u64::from(file), u64::from(said), u64::from(found)],
        ),
        Reason::LoadCrc { said, found } => coded(
            alloc,
            b"A8",
            &[u64::from(said), u64::from(found)],
        ),
        Reason::BankFull { need, have } => coded(alloc, b"A9", &[need, u64::from(have)]),
        Reason::SequenceSpent => coded(alloc, b"A10", &[]),
        Reason::RequestRefused { fault } => nested(alloc, b"A11", &[], &Refused { fault }),
        Reason::GaveUp => coded(alloc, b"A12", &[]),
        Reason::PortsSpent => coded(alloc, b"A13", &[]),
        Reason::TooManyLoads { loads } => coded(alloc, b"A14", &[u64::from(loads)]),
    }
}
