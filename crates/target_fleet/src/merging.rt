//! A fleet's trace, made of those of its units.
ghost use Rattle.std.specs.Prelude.{◌≡◌, IfOk, OnOk, length};
ghost use Rattle.target_fleet.specs.Merges.{begins_step as begins};
ghost use Rattle.target_fleet.specs.Merges.{AreUnits, IsUnitOf, MergesAll, TakesAll};
ghost use Rattle.target_fleet.specs.Merges.{TakesNewest, TakesOff};
ghost use Rattle.target_fleet.specs.SteppingOrders.{stepped_view};

use crate::stepped::{Stepped, SteppingOrder};
use exchange_trace::TraceStep;
use fleet_trace::FleetStep;
use load_base::{List, NoMemory};
use std::alloc::Global;

/// The fleet's trace: the lines of each step of its unit's trace, in the order in which the units
/// stepped, and at last the end. The units' traces are without their ends.
pub(crate) fn merge(
    alloc: Global,
    order: &mut SteppingOrder,
    traces: &mut [List<TraceStep>],
) -> Result<List<FleetStep>, NoMemory>
    requires { AreUnits (length traces.old) order.old }
    ensures { IfOk result (λ trace. MergesAll order.old traces.old trace.items) }
{
    // The newest first.
    let mut lines = Vec::new(alloc);
    lines.reserve(count_of(traces))?;
    lines.push(FleetStep::End)?;
    match take_steps(order, traces, &mut lines) {
        Ok(()) => {
            lines.reverse();
            Ok(List::from(lines))
        }
        Err(NoMemory) => {
            // For the proof: dropped by a call, not by scope.
            drop(lines);
            Err(NoMemory)
        }
    }
}

/// How many lines the fleet's trace has, with its end; room for so many spares copying them as it
/// grows.
fn count_of(traces: &[List<TraceStep>]) -> usize {
    let mut lines: usize = 1;
    'units: for trace in traces {
        lines = lines.saturating_add(trace.len());
    }
    lines
}

/// All steps of this order are taken off the units' traces, the newest first.
fn take_steps(
    order: &mut SteppingOrder,
    traces: &mut [List<TraceStep>],
    lines: &mut Vec<FleetStep>,
) -> Result<(), NoMemory>
    requires { AreUnits (length traces.old) order.old }
    ensures { OnOk result (TakesAll order.old traces.old lines.old.items lines.new.items) }
{
    'steps: for _ in 0..order.len() {
        let Some(stepped) = order.pop() else {
            return Ok(());
        };
        take_newest(stepped, traces, lines)?;
    }
    Ok(())
}

/// The lines of the newest step, which was of this, the newest line first.
fn take_newest(
    stepped: Stepped,
    traces: &mut [List<TraceStep>],
    lines: &mut Vec<FleetStep>,
) -> Result<(), NoMemory>
    requires { IsUnitOf (length traces.old) (stepped_view stepped) }
    ensures { OnOk result (TakesOff (stepped_view stepped) traces.old traces.new lines.old.items
        lines.new.items) }
{
    match stepped {
        Stepped::Unit { unit, asked } => {
            take_step(unit, &mut traces[unit as usize - 1], lines)?;
            if asked {
                lines.push(FleetStep::AskNext)?;
            }
            Ok(())
        }
        Stepped::Batch(part) => {
            lines.push(FleetStep::Batch(part))?;
            Ok(())
        }
    }
}

/// The lines of a unit's newest step are taken off its trace, the newest line first.
fn take_step(
    unit: u8,
    trace: &mut List<TraceStep>,
    lines: &mut Vec<FleetStep>,
) -> Result<(), NoMemory>
    ensures { OnOk result (TakesNewest unit trace.old.items trace.new.items lines.old.items
        lines.new.items) }
{
    'lines: for _ in 0..trace.len() {
        let Some(step) = trace.pop() else {
            return Ok(());
        };
        let begins = begins_step(&step);
        lines.push(FleetStep::At { unit, step })?;
        if begins {
            return Ok(());
        }
    }
    Ok(())
}

fn begins_step(line: &TraceStep) -> bool
    ensures { result ≡ begins line.now }
{
    matches!(line, TraceStep::Given(_))
}
