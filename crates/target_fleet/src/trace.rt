//! A fleet's trace.
ghost use Rattle.std.specs.Prelude.{◌≡◌, IfOk, map};
ghost use Rattle.fleet_trace.specs.FleetTraces.{fleet_steps_of};
ghost use Rattle.target_fleet.specs.FleetTexts.{posted_at as posts_at};
ghost use Rattle.target_fleet.specs.Merges.{CountsPosts, KeepsSteps, steps_to_end};
ghost use Rattle.target_fleet.specs.Orders.{IsFleetInOrder};

use crate::merging::merge;
use crate::stepped::SteppingOrder;
use exchange_trace::TraceStep;
use fleet_link::MOST_UNITS;
use fleet_trace::FleetStep;
use load_base::{List, NoMemory};
use std::alloc::Global;
use std::marker::Model;

/// The trace of a fleet that came to its end. It is kept as the traces of its units, so that no
/// line is moved before someone asks for the lines in their order.
///
/// A contract sees it as its steps, the newest first.
#[derive(Drop)]
pub struct FleetTrace {
    /// What each step was of, in their order.
    order: SteppingOrder,
    /// The trace of each unit, from unit 1 on, without its end.
    units: Vec<List<TraceStep>>,
    /// How many datagrams both sides of each unit posted.
    posted: [u64; MOST_UNITS],
}

impl Model for FleetTrace {
    ghost use Rattle.std.specs.Prelude.{List, map};
    ghost use Rattle.fleet_trace.specs.FleetTraces.{StepOfFleet};
    ghost use Rattle.target_fleet.specs.Merges.{CountsPosts, KeepsSteps, steps_to_end};

    ghost Value = { List StepOfFleet };

    ghost view = { λ trace. steps_to_end trace.order trace.units.items };

    ghost invariant = { λ trace. KeepsSteps trace.order trace.units.items
        × CountsPosts trace.units.items trace.posted };
}

impl FleetTrace {
    /// The trace of units that stepped in this order, each of which posted so many datagrams.
    pub(crate) fn of_units(
        order: SteppingOrder,
        units: Vec<List<TraceStep>>,
        posted: [u64; MOST_UNITS],
    ) -> FleetTrace
        requires steps { KeepsSteps order units.items }
        requires posted { CountsPosts units.items posted }
        ensures { result ≡ steps_to_end order units.items }
    {
        FleetTrace {
            order,
            units,
            posted,
        }
    }

    /// How many datagrams both sides of this unit, counted from 1, posted; 0 where there is none.
    pub fn posted_at(&self, unit: usize) -> u64
        ensures { result ≡ posts_at unit self.now }
    {
        if unit == 0 || unit > self.units.len() {
            return 0;
        }
        self.posted[unit - 1]
    }

    /// Its lines: those of each step of its unit's trace, in the order in which the units stepped,
    /// and at last the end.
    pub fn into_lines(self, alloc: Global) -> Result<List<FleetStep>, NoMemory>
        ensures steps { IfOk result (λ lines. fleet_steps_of lines.items ≡ self) }
        ensures ordered { IfOk result (λ lines. IsFleetInOrder lines.items) }
    {
        let FleetTrace {
            mut order,
            mut units,
            ..
        } = self;
        let lines = merge(alloc, &mut order, &mut units);
        // For the proof: dropped by a call, not by scope.
        drop((order, units));
        lines
    }
}
