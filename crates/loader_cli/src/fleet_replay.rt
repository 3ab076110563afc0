//! The command `fleet`.
ghost use Rattle.std.specs.Prelude.{◌≡◌, ◌≤◌, ◌↔◌, All, IsSome, IsTrue, IfOk, None, OnErr, length};
ghost use Rattle.std.specs.Prelude.{option_map};
ghost use Rattle.bank_store.specs.DiskWrites.{IsRunning};
ghost use Rattle.media_check.specs.Sets.{set_view};
ghost use Rattle.target_fleet.specs.Units.{AllDisks};
ghost use Rattle.loader_cli.specs.Answers.{HidesNoFault, answered_status, status_of, text_of};
ghost use Rattle.loader_cli.specs.FleetReplays.{FleetRunsText, ReplaysFleet, RunsFleet, TellsFleet};
ghost use Rattle.loader_cli.specs.FleetReplays.{HasCompletedAll, IsBatchCompleted, fleet_seen};
ghost use Rattle.loader_cli.specs.FleetRuns.{FleetRunsOut, LeavesFleet};

use crate::answer::{Answer, Answered};
use crate::inputs::{Inputs, read_inputs, refused_script};
use crate::replay::are_completed;
use accept_rules::{Interlock, PermitsAll};
use bank_store::a_power_loss_takes_only_work;
use disk_model::Power;
use fleet_link::{FleetLink, FleetScript};
use load_base::{Host, NoMemory};
use media_check::MediaSet;
use run_promises::can_be_told;
use run_promises::laws::what_a_disk_holds_can_be_listed;
use session_completion::laws::a_last_finish_is_left;
use std::alloc::Global;
use target_fleet::laws::a_fleets_last_finish_completes;
use target_fleet::{BatchEnd, BatchOutcome, FleetDrive, FleetFault, UnitEnd, fleet, fleet_text};

/// Runs a script on the media set in a folder and the targets of these disks, unit 1 on the first.
pub(crate) fn replay_fleet<'w, H: Host, K: Power>(
    alloc: Global,
    host: &mut H,
    disks: &mut [K],
    folder: &'w str,
    script: &'w str,
) -> Result<Answered<'w>, NoMemory>
    requires few { length disks.old ≤ 8 }
    requires running { AllDisks (λ (k : K). IsRunning (K.state k)) disks.old }
    ensures replays { IfOk result (λ said. ReplaysFleet K.state folder.now script.now
        (H.files host.old) (H.faults host.old) (H.faults host.new) disks.old disks.new
        (option_map fleet_seen said.fleet) (status_of said.answer) (text_of said.answer)) }
    ensures faults { HidesNoFault answered_status (H.faults host.old) (H.faults host.new)
        result }
    ensures kept { H.files host.new ≡ H.files host.old }
    ensures left { LeavesFleet K.state disks.old disks.new }
    ensures memory { OnErr result (FleetRunsOut K.state disks.old disks.new) }
    ensures no_drive { IfOk result (λ said. said.drive ≡ None) }
{
    // For the proof: does nothing.
    a_power_loss_takes_only_work::<K>();
    match read_inputs(alloc, host, folder.as_bytes(), script.as_bytes())? {
        Inputs::Ready { set, text } => {
            let said = run_fleet_text(alloc, disks, &set, script.as_bytes(), text.as_slice());
            // For the proof: dropped by a call, not by scope.
            drop((set, text));
            said
        }
        Inputs::Refused(answer) => Ok(Answered::of(answer)),
    }
}

/// Runs the script of this name and text, with as many units as there are disks.
fn run_fleet_text<'w, K: Power>(
    alloc: Global,
    disks: &mut [K],
    set: &MediaSet,
    name: &'w [u8],
    text: &[u8],
) -> Result<Answered<'w>, NoMemory>
    requires few { length disks.old ≤ 8 }
    requires running { AllDisks (λ (k : K). IsRunning (K.state k)) disks.old }
    ensures runs { IfOk result (λ said. FleetRunsText K.state name.now text.now (set_view set.now)
        disks.old disks.new (option_map fleet_seen said.fleet) (status_of said.answer)
        (text_of said.answer)) }
    ensures left { LeavesFleet K.state disks.old disks.new }
    ensures memory { OnErr result (FleetRunsOut K.state disks.old disks.new) }
    ensures no_drive { IfOk result (λ said. said.drive ≡ None) }
{
    // For the proof: does nothing.
    a_power_loss_takes_only_work::<K>();
    match FleetScript::read(alloc, text, disks.len() as u8) {
        Ok(script) => run_fleet(alloc, disks, set, script),
        Err(fault) => Ok(Answered::of(refused_script(alloc, name, fault)?)),
    }
}

/// Runs a script on a media set and the targets of these disks.
fn run_fleet<'w, K: Power>(
    alloc: Global,
    disks: &mut [K],
    set: &MediaSet,
    script: FleetScript,
) -> Result<Answered<'w>, NoMemory>
    requires few { length disks.old ≤ 8 }
    requires units { script.units ≡ length disks.old }
    requires running { AllDisks (λ (k : K). IsRunning (K.state k)) disks.old }
    ensures runs { IfOk result (λ said. RunsFleet K.state (set_view set.now) script.lines disks.old
        disks.new (option_map fleet_seen said.fleet) (status_of said.answer)
        (text_of said.answer)) }
    ensures left { LeavesFleet K.state disks.old disks.new }
    ensures memory { OnErr result (FleetRunsOut K.state disks.old disks.new) }
    ensures no_drive { IfOk result (λ said. said.drive ≡ None) }
{
    // For the proof: these change nothing.
    what_a_disk_holds_can_be_listed();
    a_last_finish_is_left();
    a_fleets_last_finish_completes();
    can_be_told(set);
    let mut link = FleetLink::new(alloc, script);
    let interlock = Interlock::new(PermitsAll);
    match fleet(alloc, &mut link, disks, set, &interlock) {
        Ok(run) => {
            let answer = tell_fleet(alloc, &run)?;
            Ok(Answered {
                answer,
                drive: None,
                fleet: Some(run),
            })
        }
        Err(FleetFault::Disk(_)) => Ok(Answered::of(Answer::DiskFault)),
        Err(FleetFault::NoConfig { fault, .. }) => {
            Ok(Answered::of(Answer::NoConfiguration(fault)))
        }
        Err(FleetFault::Memory) => Err(NoMemory),
    }
}

/// What is told of a run.
fn tell_fleet<'w>(alloc: Global, run: &FleetDrive) -> Result<Answer<'w>, NoMemory>
    ensures { IfOk result (λ answer. TellsFleet (fleet_seen run.now) (status_of answer)
        (text_of answer)) }
{
    if !are_known(run.units.as_slice()) {
        return Ok(Answer::DiskFault);
    }
    let text = fleet_text(alloc, run)?;
    if is_complete(run) {
        Ok(Answer::Done(text))
    } else {
        Ok(Answer::Unfinished(text))
    }
}

/// Whether it is known of each unit what stands on its disk.
fn are_known(units: &[UnitEnd]) -> bool
    ensures { IsTrue result ↔ All (λ unit. IsSome unit.standing) units.now }
{
    units.iter().all(|unit| is_known(unit))
}

fn is_known(unit: &UnitEnd) -> bool
    ensures { IsTrue result ↔ IsSome unit.now.standing }
{
    unit.standing.is_some()
}

/// Whether each session and each batch was completed.
fn is_complete(run: &FleetDrive) -> bool
    ensures { IsTrue result ↔ (All HasCompletedAll run.now.units.items
        × All IsBatchCompleted run.now.batches.items) }
{
    have_completed(run.units.as_slice()) && are_batches_completed(run.batches.as_slice())
}

/// Whether each batch was completed.
fn are_batches_completed(batches: &[BatchEnd]) -> bool
    ensures { IsTrue result ↔ All IsBatchCompleted batches.now }
{
    batches.iter().all(|batch| is_batch_completed(batch))
}

fn is_batch_completed(batch: &BatchEnd) -> bool
    ensures { IsTrue result ↔ IsBatchCompleted batch.now }
{
    matches!(batch.end, BatchOutcome::Completed)
}

/// Whether each session with each unit was completed.
fn have_completed(units: &[UnitEnd]) -> bool
    ensures { IsTrue result ↔ All HasCompletedAll units.now }
{
    units.iter().all(|unit| has_completed(unit))
}

fn has_completed(unit: &UnitEnd) -> bool
    ensures { IsTrue result ↔ HasCompletedAll unit.now }
{
    are_completed(unit.sessions.as_slice())
}
