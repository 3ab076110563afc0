//! A whole run.
ghost use Rattle.std.specs.Prelude.{◌≡◌, [], IfOk, Some};
ghost use Rattle.accept_rules.specs.Interlocks.{FollowsAccepts};
ghost use Rattle.accept_rules.specs.Permissions.{Accepts};
ghost use Rattle.bank_store.specs.DiskWrites.{IsRunning};
ghost use Rattle.bank_store.specs.Fits.{LosesOnlyWork};
ghost use Rattle.disk_model.specs.Image.{Image};
ghost use Rattle.exchange_trace.specs.Steps.{steps_of};
ghost use Rattle.loader_machine.specs.Machine.{media_of};
ghost use Rattle.media_check.specs.Sets.{set_view};
ghost use Rattle.replay_rules.specs.BothEnds.{Setting};
ghost use Rattle.upload_replay.specs.Armings.{ArmsAsGiven};
ghost use Rattle.upload_replay.specs.Drives.{IsSet};
ghost use Rattle.upload_replay.specs.Endings.{EndsOnSetting, EndsRun, IsRefused};
ghost use Rattle.upload_replay.specs.Leaves.{LeavesOfRun};
ghost use Rattle.upload_replay.specs.Lives.{LivesThrough};

use crate::driver::Driver;
use crate::outcome::{Drive, DriveFault};
use crate::running::run_to_end;
use accept_rules::{Interlock, Rule};
use bank_store::a_power_loss_takes_only_work;
use disk_model::Power;
use link_net::Link;
use media_check::MediaSet;
use replay_rules::laws::the_configuration_changes_by_good_verdicts;
use std::alloc::Global;

/// Runs a loader that serves this media set, and the target of this disk, until the link gives the
/// end: a [`Driver`] over a link. Nothing was posted to the link before.
pub fn drive<L: Link, K: Power, R: Rule>(
    alloc: Global,
    link: &mut L,
    disk: &mut K,
    media: &MediaSet,
    interlock: &Interlock<R>,
) -> Result<Drive, DriveFault>
    requires nothing_posted { (L.state link.old).posted ≡ [] }
    requires running { IsRunning (K.state disk.old) }
    // With Ok.
    ensures ended { IfOk result (λ drive. EndsRun (media_of (set_view media.now))
        (L.state link.old) (L.state link.new) drive (K.state disk.old) (K.state disk.new)) }
    // Both ends posted what was due, in each of the target's lives.
    ensures lives { (accepts : Accepts) → FollowsAccepts R.may_say interlock.now accepts
        → IfOk result (λ drive. LivesThrough (media_of (set_view media.now)) accepts
        (steps_of drive.trace.items)) }
    // The same on a disk that tells its content.
    ensures on_setting { (set : Setting) (image : Image) → IsSet R.may_say set interlock.now
        (set_view media.now) image → (K.state disk.old).reads ≡ Some image
        → IfOk result (λ drive. EndsOnSetting set (L.state link.old) (L.state link.new) drive
        (K.state disk.old) (K.state disk.new)) }
    // Refusals.
    ensures refused { IsRefused (L.faults link.old) (L.faults link.new) (K.state disk.old)
        (K.state disk.new) (L.state link.old) (L.state link.new) result }
    // Whatever it answers.
    ensures arms { ArmsAsGiven (L.state link.old).given (L.state link.new).given
        (K.state disk.old) (K.state disk.new) }
    ensures leaves { (set : Setting) (image : Image) → IsSet R.may_say set interlock.now
        (set_view media.now) image → (K.state disk.old).reads ≡ Some image
        → LosesOnlyWork (K.state disk.old) → LeavesOfRun set (L.state link.old)
        (L.state link.new) (K.state disk.old).clock (K.state disk.new) result }
{
    // For the proof: these do nothing.
    a_power_loss_takes_only_work::<K>();
    the_configuration_changes_by_good_verdicts();
    let mut driver = match Driver::boot(alloc, disk, media, interlock) {
        Ok(driver) => driver,
        Err(fault) => return Err(fault),
    };
    match run_to_end(link, disk, &mut driver) {
        Ok(()) => driver.end(disk),
        Err(fault) => {
            // For the proof: dropped by a call, not by scope.
            drop(driver);
            Err(fault)
        }
    }
}
