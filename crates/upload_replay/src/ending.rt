//! What the disk holds at the end of a run.
ghost use Rattle.std.specs.Prelude.{◌≡◌, ◌⊎◌, ◌≤◌, ℕ, None, false, true, IfErr, IfOk, OnOk};
ghost use Rattle.bank_store.specs.DiskWrites.{IsRunning};
ghost use Rattle.disk_model.specs.State.{IsSettled, KeepsPower, OnlyReads};
ghost use Rattle.replay_turns.specs.Powers.{RoseBy};
ghost use Rattle.replay_turns.specs.StepsOnDisks.{Reboots};
ghost use Rattle.upload_replay.specs.Endings.{FailedIfUnknown, HoldsStanding, IsLastFault};
ghost use Rattle.upload_replay.specs.Endings.{LeavesUnit, last_refusal_of};

use crate::outcome::DriveFault;
use disk_layout::{RecoverFault, Standing};
use disk_model::{Disk, DiskFault};
use recovery::recover;
use std::alloc::Global;

/// What the disk holds at the end. Where the target is down the disk is restarted first.
pub(crate) fn standing_at_end<K: Disk>(
    alloc: Global,
    disk: &mut K,
    up: bool,
) -> Result<Option<Standing>, DriveFault>
    requires { up ≡ true → IsRunning (K.state disk.old) }
    ensures unknown { (began stops : ℕ) → RoseBy stops began (K.state disk.old).faults
        → IfOk result (λ standing. FailedIfUnknown standing began stops (K.state disk.new)) }
    ensures standing { IfOk result (λ standing. HoldsStanding standing (K.state disk.new)) }
    ensures refused { IfErr result (λ fault. IsLastFault fault (K.state disk.old)
        (K.state disk.new)) }
    ensures leaves { LeavesUnit (K.state disk.old) (K.state disk.new) }
    ensures same { up ≡ true → OnOk result ((K.state disk.new).reads ≡ (K.state disk.old).reads)
        ⊎ IfOk result (λ standing. standing ≡ None) }
    ensures settled { up ≡ false → OnOk result (IsSettled (K.state disk.new))
        ⊎ IfOk result (λ standing. standing ≡ None) }
    ensures reboots { up ≡ false → Reboots (K.state disk.old) (K.state disk.new) }
{
    if !up {
        match disk.restart() {
            Ok(()) => {}
            Err(DiskFault::Failed) => return Ok(None),
            Err(DiskFault::Memory) => return Err(DriveFault::Memory),
        }
    }
    recovered(alloc, disk)
}

/// What a disk that runs holds.
fn recovered<K: Disk>(alloc: Global, disk: &mut K) -> Result<Option<Standing>, DriveFault>
    requires { IsRunning (K.state disk.old) }
    ensures unknown { (began stops : ℕ) → RoseBy stops began (K.state disk.old).faults
        → IfOk result (λ standing. FailedIfUnknown standing began stops (K.state disk.new)) }
    ensures faults { (K.state disk.old).faults ≤ (K.state disk.new).faults }
    ensures standing { IfOk result (λ standing. HoldsStanding standing (K.state disk.new)) }
    ensures refused { IfErr result (λ fault. IsLastFault fault (K.state disk.old)
        (K.state disk.new)) }
    ensures power { KeepsPower (K.state disk.old) (K.state disk.new) }
    ensures reads { OnlyReads (K.state disk.old) (K.state disk.new) }
    ensures same { OnOk result ((K.state disk.new).reads ≡ (K.state disk.old).reads)
        ⊎ IfOk result (λ standing. standing ≡ None) }
{
    match recover(alloc, disk) {
        Ok(standing) => Ok(Some(standing)),
        Err(fault) => last_refusal(fault),
    }
}

/// What a refusal of the last recovery comes to: where the disk failed nothing is known of what it
/// holds.
fn last_refusal(fault: RecoverFault) -> Result<Option<Standing>, DriveFault>
    ensures { result ≡ last_refusal_of fault }
{
    match fault {
        RecoverFault::DiskFailed => Ok(None),
        RecoverFault::Memory => Err(DriveFault::Memory),
        fault => Err(DriveFault::NoConfig(fault)),
    }
}
