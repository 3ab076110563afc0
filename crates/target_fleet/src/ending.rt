//! The ends of a fleet's units.
ghost use Rattle.std.specs.Prelude.{◌≡◌, ◌<◌, ◌≤◌, ℕ, IfErr, IfOk, OnOk, Some, length, slice_get};
ghost use Rattle.target_fleet.specs.Ends.{AllEnd, AllLeaveNoMore, EndsNext, FailsInEnds};
ghost use Rattle.target_fleet.specs.Ends.{FailsToEnd, LeavesAt, LeavesOlder, NoneEnded};
ghost use Rattle.target_fleet.specs.Units.{AllUnits};
ghost use Rattle.upload_replay.specs.Drivers.{CanEnd, DriverState};

use crate::booting::fault_of;
use crate::outcome::{FleetFault, UnitEnd};
use accept_rules::Rule;
use disk_model::Power;
use exchange_trace::TraceStep;
use load_base::List;
use std::alloc::Global;
use upload_replay::{Drive, Driver};

/// What each unit came to, from unit 1 on, and its trace, without its end.
#[derive(Drop)]
pub(crate) struct Ends {
    pub(crate) units: Vec<UnitEnd>,
    pub(crate) traces: Vec<List<TraceStep>>,
}

/// All units come to their ends, each on its disk, in their order. The first that is refused ends
/// it.
pub(crate) fn end_all<K: Power, R: Rule>(
    alloc: Global,
    disks: &mut [K],
    mut drivers: Vec<Driver<'_, R>>,
) -> Result<Ends, FleetFault>
    requires few { length disks.old ≤ 8 }
    requires many { length disks.old ≡ length drivers.items }
    requires can { AllUnits (λ (i : ℕ) (d : DriverState R) (k : K). CanEnd d (K.state k))
        drivers.items disks.old }
    // With Ok.
    ensures counts { IfOk result (λ ends. (length ends.units.items ≡ length disks.old)
        × (length ends.traces.items ≡ length disks.old)) }
    ensures ended { IfOk result (λ ends. AllEnd K.state R.may_say drivers.entry.items
        ends.units.items ends.traces.items disks.old disks.new) }
    // Refusals, and whatever it answers.
    ensures refused { IfErr result (λ fault. FailsInEnds K.state R.may_say fault
        drivers.entry.items disks.old disks.new) }
    ensures same { length disks.new ≡ length disks.old }
    ensures leaves { AllLeaveNoMore K.state disks.old disks.new }
{
    let mut ends = Ends {
        units: Vec::new(alloc),
        traces: Vec::new(alloc),
    };
    match end_each(disks, &mut drivers, &mut ends) {
        Ok(()) => {
            // For the proof: dropped by a call, not by scope.
            drop(drivers);
            Ok(ends)
        }
        Err(fault) => {
            drop((drivers, ends));
            Err(fault)
        }
    }
}

/// All units that haven't ended yet do, in their order.
fn end_each<K: Power, R: Rule>(
    disks: &mut [K],
    drivers: &mut Vec<Driver<'_, R>>,
    ends: &mut Ends,
) -> Result<(), FleetFault>
    requires none { NoneEnded drivers.old.items ends.old.units.items ends.old.traces.items
        disks.old }
    requires can { AllUnits (λ (i : ℕ) (d : DriverState R) (k : K). CanEnd d (K.state k))
        drivers.old.items disks.old }
    ensures counts { OnOk result ((length ends.new.units.items ≡ length disks.old)
        × (length ends.new.traces.items ≡ length disks.old)) }
    ensures ended { OnOk result (AllEnd K.state R.may_say drivers.old.items ends.new.units.items
        ends.new.traces.items disks.old disks.new) }
    ensures refused { IfErr result (λ fault. FailsInEnds K.state R.may_say fault
        drivers.old.items disks.old disks.new) }
    ensures same { length disks.new ≡ length disks.old }
    ensures leaves { AllLeaveNoMore K.state disks.old disks.new }
{
    'units: for index in 0..disks.len() {
        match end_next(disks, drivers, ends, index) {
            Ok(()) => {}
            Err(fault) => return Err(fault),
        }
    }
    Ok(())
}

/// The next unit comes to its end on its disk.
fn end_next<K: Power, R: Rule>(
    disks: &mut [K],
    drivers: &mut Vec<Driver<'_, R>>,
    ends: &mut Ends,
    index: usize,
) -> Result<(), FleetFault>
    requires within { index < length disks.old }
    requires few { length disks.old ≤ 8 }
    requires some { 1 ≤ length drivers.old.items }
    requires can { (d : DriverState R) (k : K) → slice_get drivers.old.items 0 ≡ Some d
        → slice_get disks.old index ≡ Some k → CanEnd d (K.state k) }
    ensures ended { OnOk result (EndsNext K.state R.may_say index drivers.old.items
        drivers.new.items ends.old.units.items ends.new.units.items ends.old.traces.items
        ends.new.traces.items disks.old disks.new) }
    ensures refused { IfErr result (λ fault. FailsToEnd K.state index fault disks.new) }
    ensures leaves { LeavesAt K.state index disks.old disks.new }
{
    match ends.units.reserve(1) {
        Ok(()) => {}
        Err(_) => return Err(FleetFault::Memory),
    }
    match ends.traces.reserve(1) {
        Ok(()) => {}
        Err(_) => return Err(FleetFault::Memory),
    }
    let driver = drivers.remove(0);
    match driver.end(&mut disks[index]) {
        Ok(drive) => {
            let Drive {
                trace,
                sessions,
                standing,
            } = drive;
            ends.traces.push_reserved(without_end(trace));
            ends.units.push_reserved(UnitEnd { sessions, standing });
            Ok(())
        }
        Err(fault) => Err(fault_of(fault, index as u8 + 1)),
    }
}

/// A unit's trace without its end, which is its last line.
fn without_end(mut trace: List<TraceStep>) -> List<TraceStep>
    ensures { LeavesOlder trace.items result.items }
{
    drop(trace.pop());
    trace
}
