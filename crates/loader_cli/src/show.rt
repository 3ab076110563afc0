//! The command `show`.
ghost use Rattle.std.specs.Prelude.{◌≡◌, IfOk};
ghost use Rattle.loader_cli.specs.Answers.{HidesNoFault, status_of, text_of};
ghost use Rattle.loader_cli.specs.Runs.{Shows, ShowsBytes};

use crate::answer::Answer;
use load_base::{Host, NoMemory, ReadFault};
use shown_files::{Shown, ShownKind};
use std::alloc::Global;

/// What is shown of a file of this kind.
pub(crate) fn show<'w, H: Host>(
    alloc: Global,
    host: &mut H,
    kind: ShownKind,
    file: &'w str,
) -> Result<Answer<'w>, NoMemory>
    ensures shows { IfOk result (λ answer.
        Shows kind (H.files host.old) (H.faults host.old) (H.faults host.new) file.now
        (status_of answer) (text_of answer)) }
    ensures faults { HidesNoFault status_of (H.faults host.old) (H.faults host.new) result }
    ensures kept { H.files host.new ≡ H.files host.old }
{
    let name = file.as_bytes();
    match host.read(alloc, name) {
        Ok(bytes) => show_bytes(alloc, kind, name, bytes.as_slice()),
        Err(ReadFault::Absent) => Ok(Answer::Absent(name)),
        Err(ReadFault::TooLong) => Ok(Answer::TooLong(name)),
        Err(ReadFault::Failed) => Ok(Answer::HostFault),
        Err(ReadFault::Memory) => Err(NoMemory),
    }
}

fn show_bytes<'w>(
    alloc: Global,
    kind: ShownKind,
    name: &'w [u8],
    bytes: &[u8],
) -> Result<Answer<'w>, NoMemory>
    ensures { IfOk result (λ answer.
        ShowsBytes kind name.now bytes.now (status_of answer) (text_of answer)) }
{
    match shown_files::show(alloc, kind, bytes)? {
        Shown::Fields(text) => Ok(Answer::Done(text)),
        Shown::Fault(fault) => Ok(Answer::RefusedInput { name, fault }),
    }
}
