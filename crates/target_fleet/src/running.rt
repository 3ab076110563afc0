//! A fleet over its link, turn by turn to its end.
ghost use Rattle.std.specs.Prelude.{◌≡◌, ◌-◌, ◌<◌, ◌≤◌, List, IfOk, IfSome, OnErr, OnOk, Some};
ghost use Rattle.std.specs.Prelude.{false, length, slice_get, true};
ghost use Rattle.exchange_trace.specs.Happenings.{happening_view};
ghost use Rattle.fleet_link.specs.FleetLinks.{FleetLinkState};
ghost use Rattle.fleet_trace.specs.FleetTraces.{fleet_happening_view};
ghost use Rattle.loader_machine.specs.Machine.{all_sessions};
ghost use Rattle.media_check.specs.Sets.{set_view};
ghost use Rattle.target_fleet.specs.AskedTurns.{AreBatchesReady, AsksUnit, BeginsBatch};
ghost use Rattle.target_fleet.specs.AskedTurns.{LeavesAsked, LeavesStep, StepsFleet};
ghost use Rattle.target_fleet.specs.AskedTurns.{batch_begun, upload_of};
ghost use Rattle.target_fleet.specs.Leaves.{AllLeave};
ghost use Rattle.target_fleet.specs.Runs.{AreAsMany, FleetGoesOn, IsFleetReady};
ghost use Rattle.upload_replay.specs.Drivers.{DriverState};
ghost use Rattle.upload_replay.specs.DriverSteps.{CanStep};

use crate::asking::{Asked, next_upload, start_of};
use crate::batches::FleetBatches;
use crate::stepped::SteppingOrder;
use crate::stepping::step_and_post;
use crate::waiting::waits_of;
use accept_rules::Rule;
use batch_lists::BatchTarget;
use disk_model::Power;
use exchange_trace::Happening;
use fleet_link::FleetLink;
use fleet_trace::FleetHappening;
use load_base::{NoMemory, PartText};
use media_check::MediaSet;
use std::alloc::Global;
use std::marker::Model;
use upload_replay::Driver;

/// The units of a fleet that runs.
#[derive(Drop)]
pub(crate) struct Units<'m, R: Rule> {
    pub(crate) alloc: Global,
    /// From unit 1 on.
    pub(crate) drivers: Vec<Driver<'m, R>>,
    /// What each step was of, in their order.
    pub(crate) order: SteppingOrder,
    pub(crate) batches: FleetBatches,
}

impl<'m, R: Rule> Model for Units<'m, R> {
    ghost use Rattle.target_fleet.specs.Runs.{FleetState};

    ghost Value = { FleetState R };

    ghost view = { λ units. record {
      drivers = units.drivers.items;
      order = units.order;
      running = units.batches.running;
      ended = units.batches.ended.items;
    } };
}

/// All turns to the end. What [`turn`] says of one it says of all, clause by clause.
pub(crate) fn run_to_end<K: Power, R: Rule>(
    link: &mut FleetLink,
    disks: &mut [K],
    media: &MediaSet,
    units: &mut Units<'_, R>,
) -> Result<(), NoMemory>
    requires few { link.old.units ≤ 8 }
    requires ready { IsFleetReady K.state link.old units.old disks.old }
    requires batches { AreBatchesReady (set_view media.now) units.old }
    // With Ok.
    ensures ready { OnOk result (IsFleetReady K.state link.new units.new disks.new) }
    ensures batches { OnOk result (AreBatchesReady (set_view media.now) units.new) }
    ensures goes_on { (rule : R) (began : FleetLinkState) (first : List K)
        → FleetGoesOn K.state R.may_say rule (set_view media.now) false began link.old units.old
        first disks.old
        → OnOk result (FleetGoesOn K.state R.may_say rule (set_view media.now) true began link.new
        units.new first disks.new) }
    // Whatever it answers.
    ensures same { length disks.new ≡ length disks.old }
    ensures leaves { (rule : R) (began : FleetLinkState) (first : List K)
        → FleetGoesOn K.state R.may_say rule (set_view media.now) false began link.old units.old
        first disks.old
        → OnErr result (AllLeave K.state R.may_say rule (set_view media.now) began link.new first
        disks.new) }
{
    // Memory for the trace is spent long before that many turns.
    'turns: for _ in 0..u64::MAX {
        match turn(link, disks, media, units) {
            Ok(ended) => {
                if ended {
                    return Ok(());
                }
            }
            Err(NoMemory) => return Err(NoMemory),
        }
    }
    Err(NoMemory)
}

/// A turn: what the link gives comes to both ends of its unit, and what they post goes to the link.
/// Whether it was the end. In most a `finish` delivers a datagram, whatever waits.
fn turn<K: Power, R: Rule>(
    link: &mut FleetLink,
    disks: &mut [K],
    media: &MediaSet,
    units: &mut Units<'_, R>,
) -> Result<bool, NoMemory>
    requires few { link.old.units ≤ 8 }
    requires ready { IsFleetReady K.state link.old units.old disks.old }
    requires batches { AreBatchesReady (set_view media.now) units.old }
    // With Ok.
    ensures ready { OnOk result (IsFleetReady K.state link.new units.new disks.new) }
    ensures batches { OnOk result (AreBatchesReady (set_view media.now) units.new) }
    ensures goes_on { (rule : R) (began : FleetLinkState) (first : List K)
        → FleetGoesOn K.state R.may_say rule (set_view media.now) false began link.old units.old
        first disks.old
        → IfOk result (λ ended. FleetGoesOn K.state R.may_say rule (set_view media.now) ended began
        link.new units.new first disks.new) }
    // Whatever it answers.
    ensures as_many { AreAsMany link.old link.new disks.old disks.new }
    ensures leaves { (rule : R) (began : FleetLinkState) (first : List K)
        → FleetGoesOn K.state R.may_say rule (set_view media.now) false began link.old units.old
        first disks.old
        → OnErr result (AllLeave K.state R.may_say rule (set_view media.now) began link.new first
        disks.new) }
{
    match link.next_of_finish() {
        Some((unit, happening)) => {
            step_unit(link, disks, units, unit, false, happening)?;
            Ok(false)
        }
        None => waiting_turn(link, disks, media, units),
    }
}

/// A turn for which it is looked up which sides wait, and which upload may be asked.
fn waiting_turn<K: Power, R: Rule>(
    link: &mut FleetLink,
    disks: &mut [K],
    media: &MediaSet,
    units: &mut Units<'_, R>,
) -> Result<bool, NoMemory>
    requires few { link.old.units ≤ 8 }
    requires ready { IsFleetReady K.state link.old units.old disks.old }
    requires batches { AreBatchesReady (set_view media.now) units.old }
    // With Ok.
    ensures ready { OnOk result (IsFleetReady K.state link.new units.new disks.new) }
    ensures batches { OnOk result (AreBatchesReady (set_view media.now) units.new) }
    ensures goes_on { (rule : R) (began : FleetLinkState) (first : List K)
        → FleetGoesOn K.state R.may_say rule (set_view media.now) false began link.old units.old
        first disks.old
        → IfOk result (λ ended. FleetGoesOn K.state R.may_say rule (set_view media.now) ended began
        link.new units.new first disks.new) }
    // Whatever it answers.
    ensures as_many { AreAsMany link.old link.new disks.old disks.new }
    ensures leaves { (rule : R) (began : FleetLinkState) (first : List K)
        → FleetGoesOn K.state R.may_say rule (set_view media.now) false began link.old units.old
        first disks.old
        → OnErr result (AllLeave K.state R.may_say rule (set_view media.now) began link.new first
        disks.new) }
{
    let waits = waits_of(&units.drivers);
    let next = next_upload(media, units.batches.running, &units.drivers);
    match link.next(&waits[..units.drivers.len()], next.is_some()) {
        Ok(FleetHappening::At { unit, happening }) => {
            step_unit(link, disks, units, unit, false, happening)?;
            Ok(false)
        }
        Ok(FleetHappening::AskNext) => match next {
            Some((index, target)) => {
                ask(link, disks, units, index as u8 + 1, target)?;
                Ok(false)
            }
            // The link gives it only where a unit has a target to ask for.
            None => unreachable!(),
        },
        Ok(FleetHappening::End) => Ok(true),
        Ok(given) => {
            let begun = batch_in(&given);
            // For the proof: dropped by a call, not by scope.
            drop(given);
            match begun {
                Some(part) => {
                    begin_batch(media, units, part)?;
                    Ok(false)
                }
                // Nothing else is left that a link gives.
                None => unreachable!(),
            }
        }
        Err(NoMemory) => Err(NoMemory),
    }
}

/// The batch that begins with what the link gives, if one does.
fn batch_in(given: &FleetHappening) -> Option<PartText>
    ensures { result ≡ batch_begun (fleet_happening_view given.now) }
{
    match given {
        FleetHappening::Batch(part) => Some(*part),
        FleetHappening::At { .. } | FleetHappening::AskNext | FleetHappening::End => None,
    }
}

/// This batch becomes the running one.
fn begin_batch<R: Rule>(
    media: &MediaSet,
    units: &mut Units<'_, R>,
    part: PartText,
) -> Result<(), NoMemory>
    requires { AreBatchesReady (set_view media.now) units.old }
    ensures { OnOk result (BeginsBatch (set_view media.now) part units.old units.new) }
{
    units.batches.begin(media, &units.drivers, part)?;
    units.order.push_batch(part)
}

/// The upload that was asked starts at this unit: that to this target of the running batch.
fn ask<K: Power, R: Rule>(
    link: &mut FleetLink,
    disks: &mut [K],
    units: &mut Units<'_, R>,
    unit: u8,
    target: &BatchTarget,
) -> Result<(), NoMemory>
    requires unit { (1 ≤ unit) × (unit ≤ link.old.units) }
    requires drivers { unit ≤ length units.old.drivers }
    requires many { length disks.old ≡ length units.old.drivers }
    requires counted { IfSome units.old.running (λ r. r.asked < 64) }
    requires can { (d : DriverState R) (k : K) → slice_get units.old.drivers (unit - 1) ≡ Some d
        → slice_get disks.old (unit - 1) ≡ Some k
        → CanStep (upload_of target.now) d (K.state k) }
    ensures asked { OnOk result (AsksUnit K.state R.may_say unit (upload_of target.now) units.old
        units.new link.old link.new disks.old disks.new) }
    ensures left { OnErr result (LeavesAsked K.state R.may_say unit (upload_of target.now)
        units.old link.old link.new disks.old disks.new) }
    ensures same { length disks.new ≡ length disks.old }
{
    let start = start_of(units.alloc, target)?;
    link.started(unit, &start);
    let index = unit as usize - 1;
    let session = session_count(&units.drivers[index]);
    step_unit(link, disks, units, unit, true, start)?;
    units.batches.ask(Asked { index, session });
    Ok(())
}

/// How many sessions a unit has so far.
fn session_count<R: Rule>(driver: &Driver<'_, R>) -> usize
    ensures { result ≡ length (all_sessions driver.now.loader.view) }
{
    driver.sessions().len()
}

/// The unit steps, and it is noted that this step was its.
fn step_unit<K: Power, R: Rule>(
    link: &mut FleetLink,
    disks: &mut [K],
    units: &mut Units<'_, R>,
    unit: u8,
    asked: bool,
    happening: Happening,
) -> Result<(), NoMemory>
    requires unit { (1 ≤ unit) × (unit ≤ link.old.units) }
    requires drivers { unit ≤ length units.old.drivers }
    requires many { length disks.old ≡ length units.old.drivers }
    requires can { (d : DriverState R) (k : K) → slice_get units.old.drivers (unit - 1) ≡ Some d
        → slice_get disks.old (unit - 1) ≡ Some k
        → CanStep (happening_view happening) d (K.state k) }
    ensures steps { OnOk result (StepsFleet K.state R.may_say asked unit
        (happening_view happening) units.old units.new link.old link.new disks.old
        disks.new) }
    ensures left { OnErr result (LeavesStep K.state R.may_say unit (happening_view happening)
        units.old.drivers link.old link.new disks.old disks.new) }
    ensures same { length disks.new ≡ length disks.old }
{
    step_and_post(link, &mut units.drivers, disks, unit, happening)?;
    units.order.push_unit(unit, asked)
}
