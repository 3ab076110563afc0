//! The command `rollback`.
ghost use Rattle.std.specs.Prelude.{◌≡◌, false, IfOk, OnErr};
ghost use Rattle.disk_model.specs.State.{KeepsPower};
ghost use Rattle.disk_layout.specs.Holds.{standing_view};
ghost use Rattle.listing.specs.Listing.{listing};
ghost use Rattle.replay_turns.specs.Turns.{RunsOut};
ghost use Rattle.loader_cli.specs.Answers.{refusal_of, status_of, text_of};
ghost use Rattle.loader_cli.specs.Rollbacks.{LeavesRollback, RollsBackAs};

use crate::answer::Answer;
use bank_rollback::RollbackFault;
use disk_layout::Standing;
use disk_model::Disk;
use listing::listing_text;
use load_base::NoMemory;
use recovery::FormerFault;
use std::alloc::Global;

/// Makes the former configuration of this disk active again.
pub(crate) fn rollback<'w, K: Disk>(alloc: Global, disk: &mut K) -> Result<Answer<'w>, NoMemory>
    requires { (K.state disk.old).stopped ≡ false }
    ensures says { IfOk result (λ answer. RollsBackAs (K.state disk.old) (K.state disk.new)
        (status_of answer) (text_of answer)) }
    ensures leaves { LeavesRollback (K.state disk.old) (K.state disk.new) }
    ensures power { KeepsPower (K.state disk.old) (K.state disk.new) }
    ensures memory { OnErr result (RunsOut (K.state disk.old) (K.state disk.new)) }
{
    match bank_rollback::rollback(alloc, disk) {
        Ok(standing) => {
            let answer = listed(alloc, &standing);
            // For the proof: dropped by a call, not by scope.
            drop(standing);
            answer
        }
        Err(fault) => refusal(fault),
    }
}

/// What the disk holds then, as `list` prints it.
fn listed<'w>(alloc: Global, standing: &Standing) -> Result<Answer<'w>, NoMemory>
    ensures status { IfOk result (λ answer. status_of answer ≡ 0) }
    ensures text { IfOk result (λ answer.
        text_of answer ≡ listing (standing_view standing.now)) }
{
    let text = listing_text(alloc, standing)?;
    Ok(Answer::Done(text))
}

/// What is answered where nothing was rolled back.
fn refusal<'w>(fault: RollbackFault) -> Result<Answer<'w>, NoMemory>
    ensures { result ≡ refusal_of fault }
{
    match fault {
        RollbackFault::Memory => Err(NoMemory),
        RollbackFault::DiskFailed => Ok(Answer::DiskFault),
        RollbackFault::Former(FormerFault::Recover(reason)) => Ok(Answer::NoConfiguration(reason)),
        reason => Ok(Answer::NoFormer(reason)),
    }
}
