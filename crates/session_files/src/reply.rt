//! What a target answers to the start of an operation, and how an information operation stands.
ghost use Rattle.std.specs.Prelude.{◌≡◌, ◌≤◌, length, IfOk};
ghost use Rattle.load_base.specs.Host.{longest_file};
ghost use Rattle.session_rules.specs.Reports.{accepting_lui as accepting, denying_lui as denying};
ghost use Rattle.session_rules.specs.Reports.{lci_file as lci_bytes, lcs_file as lcs_bytes};

use crate::reason::reason_text;
use crate::status::{ACCEPTED, DENIED, IN_PROGRESS};
use load_base::{Bytes, NoMemory, Text};
use load_protocol_files::{Lci, Lcs, Lui};
use session_rules::Reason;
use std::alloc::Global;

/// The LCI: an information operation may begin.
pub fn lci_file(alloc: Global) -> Result<Bytes, NoMemory>
    ensures is { IfOk result (λ bytes. bytes.items ≡ lci_bytes) }
    ensures short { IfOk result (λ bytes. length bytes.items ≤ longest_file) }
{
    let file = Lci {
        status: ACCEPTED,
        description: Text::empty(alloc),
    };
    file.encode(alloc)
}

/// The LCS: the operation is in progress.
pub fn lcs_file(alloc: Global) -> Result<Bytes, NoMemory>
    ensures is { IfOk result (λ bytes. bytes.items ≡ lcs_bytes) }
    ensures short { IfOk result (λ bytes. length bytes.items ≤ longest_file) }
{
    let file = Lcs {
        counter: 1,
        status: IN_PROGRESS,
        exception: 0,
        estimated: 0,
        description: Text::empty(alloc),
    };
    file.encode(alloc)
}

/// The LUI: an upload may begin.
pub fn accepting_lui(alloc: Global) -> Result<Bytes, NoMemory>
    ensures is { IfOk result (λ bytes. bytes.items ≡ accepting) }
    ensures short { IfOk result (λ bytes. length bytes.items ≤ longest_file) }
{
    let file = Lui {
        status: ACCEPTED,
        description: Text::empty(alloc),
    };
    file.encode(alloc)
}

/// The LUI where none may, since no sequence number is left.
pub fn denying_lui(alloc: Global) -> Result<Bytes, NoMemory>
    ensures is { IfOk result (λ bytes. bytes.items ≡ denying) }
    ensures short { IfOk result (λ bytes. length bytes.items ≤ longest_file) }
{
    let file = Lui {
        status: DENIED,
        description: reason_text(alloc, &Reason::SequenceSpent)?,
    };
    file.encode(alloc)
}
