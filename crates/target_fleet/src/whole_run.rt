//! A whole run of a fleet.
ghost use Rattle.std.specs.Prelude.{ℕ, IfErr, IfOk};
ghost use Rattle.media_check.specs.Sets.{set_view};
ghost use Rattle.replay_rules.specs.BothEnds.{Setting};
ghost use Rattle.target_fleet.specs.Fleets.{AllEndInFleet, AsksInBatches, EndsFleet};
ghost use Rattle.target_fleet.specs.Fleets.{FleetCanBegin, IsFleetRefusal, LeavesFleet};
ghost use Rattle.target_fleet.specs.Runs.{AllStandOn, FollowsOnEach};

use crate::batches::FleetBatches;
use crate::booting::boot_all;
use crate::ending::{Ends, end_all};
use crate::outcome::{FleetDrive, FleetFault};
use crate::posting::posted_counts;
use crate::running::{Units, run_to_end};
use crate::stepped::SteppingOrder;
use crate::trace::FleetTrace;
use accept_rules::{Interlock, Rule};
use bank_store::a_power_loss_takes_only_work;
use batch_lists::batch_laws;
use disk_model::Power;
use fleet_link::FleetLink;
use load_base::{List, NoMemory};
use media_check::MediaSet;
use replay_rules::laws::the_configuration_changes_by_good_verdicts;
use std::alloc::Global;

/// Runs a loader that serves this media set, and the targets of these disks, unit 1 on the first,
/// until the link gives the end. Each unit has a loader of its own, and what is said of a run with
/// one target ([`upload_replay::drive`]) is said of each unit by its part of the trace. A target's
/// disk is touched in the steps of its own unit alone. Where the link asks for an upload, that to
/// the next target of the running batch starts, at the least unit that is there (docs/EXCHANGE.md,
/// "Batches").
///
/// Nothing was posted to the link before, and its script was read for as many units as there are
/// disks.
pub fn fleet<K: Power, R: Rule>(
    alloc: Global,
    link: &mut FleetLink,
    disks: &mut [K],
    media: &MediaSet,
    interlock: &Interlock<R>,
) -> Result<FleetDrive, FleetFault>
    requires { FleetCanBegin K.state link.old disks.old }
    // With Ok.
    ensures ended { IfOk result (λ drive. EndsFleet link.old link.new drive) }
    ensures units { IfOk result (λ drive. AllEndInFleet K.state R.may_say interlock.now
        (set_view media.now) drive disks.old disks.new) }
    ensures follows { (sets : ℕ → Setting) → AllStandOn K.state R.may_say interlock.now
        (set_view media.now) sets disks.old → IfOk result (λ drive. FollowsOnEach link.old
        (set_view media.now) sets drive.trace) }
    ensures batches { IfOk result (λ drive. AsksInBatches K.state R.may_say interlock.now
        (set_view media.now) drive disks.old) }
    // Refusals.
    ensures refused { IfErr result (λ fault. IsFleetRefusal K.state fault link.old link.new
        disks.old disks.new) }
    // Whatever it answers.
    ensures leaves { LeavesFleet K.state R.may_say interlock.now (set_view media.now) link.old
        link.new disks.old disks.new }
{
    // For the proof: these do nothing.
    a_power_loss_takes_only_work::<K>();
    the_configuration_changes_by_good_verdicts();
    // For the proof: there are eight units at most, and batches have few targets.
    link.units();
    // For the proof: does nothing.
    media.files_are_bytes();
    batch_laws();
    let drivers = match boot_all(alloc, disks, media, interlock) {
        Ok(drivers) => drivers,
        Err(fault) => return Err(fault),
    };
    let mut units = Units {
        alloc,
        drivers,
        order: SteppingOrder::new(alloc),
        batches: FleetBatches::new(alloc),
    };
    match run_to_end(link, disks, media, &mut units) {
        Ok(()) => {}
        Err(NoMemory) => {
            // For the proof: dropped by a call, not by scope.
            drop(units);
            return Err(FleetFault::Memory);
        }
    }
    let Units {
        drivers,
        order,
        mut batches,
        ..
    } = units;
    match batches.end(media, &drivers) {
        Ok(()) => {}
        Err(NoMemory) => {
            drop((drivers, batches));
            return Err(FleetFault::Memory);
        }
    }
    let posted = posted_counts(link);
    match end_all(alloc, disks, drivers) {
        Ok(ends) => {
            let Ends { units, traces } = ends;
            Ok(FleetDrive {
                trace: FleetTrace::of_units(order, traces, posted),
                units: List::from(units),
                batches: batches.into_ended(),
            })
        }
        Err(fault) => {
            drop(batches);
            Err(fault)
        }
    }
}
