//! What becomes of the target's power.
ghost use Rattle.std.specs.Prelude.{◌≡◌, ℕ, [], None, Option, Some};
ghost use Rattle.std.specs.Prelude.{IfOk, Ok, OnErr, OnOk};
ghost use Rattle.accept_rules.specs.Interlocks.{FollowsAccepts};
ghost use Rattle.accept_rules.specs.Permissions.{Accepts};
ghost use Rattle.bank_store.specs.DiskWrites.{IsRunning};
ghost use Rattle.disk_layout.specs.Holds.{StandingView};
ghost use Rattle.disk_model.specs.State.{IsSettled, KeepsPower, OnlyReads};
ghost use Rattle.exchange_trace.specs.Happenings.{Power_cut};
ghost use Rattle.replay_rules.specs.BothEnds.{Is_down, Setting, TargetStanding, noted};
ghost use Rattle.replay_turns.specs.Ends.{BootsTarget, TurnsTarget};
ghost use Rattle.replay_turns.specs.Targets.{TargetLives, TargetTurns};
ghost use Rattle.replay_turns.specs.StepsOnDisks.{BeginsStep, HasBooted, HoldsRun, Reboots};
ghost use Rattle.replay_turns.specs.StepsOnDisks.{StepsOn};
ghost use Rattle.replay_turns.specs.Powers.{ArmsBy};
ghost use Rattle.replay_turns.specs.Turns.{RuleFollows, RunsOut, RunsWhileUp, notes_of};
ghost use Rattle.replay_turns.specs.Turns.{target_kept};
ghost use Rattle.load_base.specs.declared.list.NoMemory.{NoMemory as OutOfMemory};

use accept_rules::{Interlock, Rule};
use bank_store::{a_power_loss_takes_only_work, a_store_goes_on_fitting};
use disk_layout::{RecoverFault, an_image_holds_one_configuration};
use disk_model::{DiskFault, Power};
use load_base::NoMemory;
use std::alloc::Global;
use target_machine::{BootFault, Target};

/// What is noted of the target's power in a turn.
#[derive(Clone, Copy)]
pub(crate) enum PowerNote {
    /// It went down.
    Down,
    /// It came up.
    Up { first_port: u32, sequence: u32 },
    /// It stays down, and why.
    Refused(RecoverFault),
}

/// Arms a loss of power this many calls ahead. For 0 power is lost at once, and a target that is up
/// goes down.
pub(crate) fn cut_power<K: Power, R: Rule>(
    slot: &mut Option<Target<'_, R>>,
    disk: &mut K,
    calls: u32,
    pick: u32,
) -> Option<PowerNote>
    requires { RunsWhileUp slot.old (K.state disk.old) }
    ensures turns { (set : Setting) (state : TargetStanding) → TargetTurns set None state
        (target_kept slot.old) (target_kept slot.new) [] (notes_of result) }
    ensures lives { (accepts : Accepts) → TargetLives accepts None
        (target_kept slot.old) (target_kept slot.new) [] (notes_of result) }
    ensures noted { (first_port : ℕ) → TurnsTarget (Power_cut calls pick) first_port []
        (notes_of result) slot.old slot.new (K.state disk.old) (K.state disk.new) }
    ensures rule { (accepts : Accepts) → RuleFollows R.may_say accepts slot.old
        → RuleFollows R.may_say accepts slot.new }
    ensures arms { ArmsBy (Power_cut calls pick) (K.state disk.old) (K.state disk.new) }
    ensures steps { (set : Setting) (state : TargetStanding)
        → BeginsStep R.may_say set state slot.old (K.state disk.old)
        → StepsOn {E = OutOfMemory} set None state slot.new notes_of (K.state disk.old)
        (K.state disk.new) (Ok result) }
{
    // For the proof: does nothing.
    a_store_goes_on_fitting::<K>();
    disk.arm(calls, pick);
    if calls > 0 || slot.is_none() {
        return None;
    }
    drop(slot.take());
    Some(PowerNote::Down)
}

/// Switches the target off and on: its disk is restarted, and it comes up with this first port, or
/// stays down.
pub(crate) fn boot_again<'i, K: Power, R: Rule>(
    alloc: Global,
    interlock: &'i Interlock<R>,
    slot: &mut Option<Target<'i, R>>,
    disk: &mut K,
    first_port: u32,
) -> Result<PowerNote, NoMemory>
    ensures boots { IfOk result (λ note. BootsTarget first_port (notes_of (Some note)) slot.new
        (K.state disk.old) (K.state disk.new)) }
    ensures rule { (accepts : Accepts) → FollowsAccepts R.may_say interlock.now accepts
        → OnOk result (RuleFollows R.may_say accepts slot.new) }
    ensures power { KeepsPower (K.state disk.old) (K.state disk.new) }
    ensures memory { OnErr result (RunsOut (K.state disk.old) (K.state disk.new)) }
    ensures reboots { Reboots (K.state disk.old) (K.state disk.new) }
    ensures steps { (set : Setting) (state : TargetStanding)
        → BeginsStep R.may_say set state slot.old (K.state disk.old)
        → StepsOn set None state slot.new (λ note. notes_of (Some note)) (K.state disk.old)
        (K.state disk.new) result }
{
    drop(slot.take());
    match disk.restart() {
        Ok(()) => come_up(alloc, interlock, slot, disk, first_port),
        Err(DiskFault::Failed) => Ok(PowerNote::Refused(RecoverFault::DiskFailed)),
        Err(DiskFault::Memory) => Err(NoMemory),
    }
}

/// The target comes up on a disk that runs, or stays down.
fn come_up<'i, K: Power, R: Rule>(
    alloc: Global,
    interlock: &'i Interlock<R>,
    slot: &mut Option<Target<'i, R>>,
    disk: &mut K,
    first_port: u32,
) -> Result<PowerNote, NoMemory>
    requires down { slot.old ≡ None }
    requires running { IsRunning (K.state disk.old) }
    ensures boots { IfOk result (λ note. BootsTarget first_port (notes_of (Some note)) slot.new
        (K.state disk.old) (K.state disk.new)) }
    ensures rule { (accepts : Accepts) → FollowsAccepts R.may_say interlock.now accepts
        → OnOk result (RuleFollows R.may_say accepts slot.new) }
    ensures power { KeepsPower (K.state disk.old) (K.state disk.new) }
    ensures memory { OnErr result (RunsOut (K.state disk.old) (K.state disk.new)) }
    ensures reads { OnlyReads (K.state disk.old) (K.state disk.new) }
    ensures holds { (set : Setting) (active : StandingView) (interrupted : Option StandingView)
        → IsSettled (K.state disk.old)
        → HoldsRun set (Is_down active interrupted) slot.old (K.state disk.old)
        → IfOk result (λ note. HasBooted set (noted (notes_of (Some note))
        (Is_down active interrupted) (Is_down active interrupted)) (notes_of (Some note))
        slot.new (K.state disk.new)) }
{
    // For the proof: these do nothing.
    an_image_holds_one_configuration();
    a_power_loss_takes_only_work::<K>();
    match Target::boot(alloc, disk, interlock, first_port) {
        Ok(target) => {
            let sequence = target.sequence();
            // For the proof: what stood there is dropped by a call.
            drop(slot.replace(target));
            Ok(PowerNote::Up {
                first_port,
                sequence,
            })
        }
        Err(BootFault::Recover(RecoverFault::Memory)) => Err(NoMemory),
        Err(BootFault::Recover(fault)) => Ok(PowerNote::Refused(fault)),
        Err(BootFault::Memory) => Err(NoMemory),
    }
}
