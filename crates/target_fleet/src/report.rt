//! The report of a fleet.
ghost use Rattle.std.specs.Prelude.{◌≡◌, ◌++◌, ◌∷◌, [], All, IfOk, IsSome, OnOk, map};
ghost use Rattle.std.specs.List.{flat_map};
ghost use Rattle.target_fleet.specs.FleetTexts.{batch_line, batch_word, fleet_report, unit_line};
ghost use Rattle.target_fleet.specs.FleetTexts.{unit_lines, unit_seen, units_report};

use crate::outcome::{BatchEnd, BatchOutcome, FleetDrive, UnitEnd};
use load_base::{Bytes, NoMemory};
use printed_text::put_number;
use std::alloc::Global;
use upload_replay::put_report;

/// The report of a fleet whose configurations at the end are known: for each unit, from unit 1 on,
/// its number, and the report of its own run; and then a line for each batch.
pub fn fleet_text(alloc: Global, drive: &FleetDrive) -> Result<Bytes, NoMemory>
    requires { All (λ end. IsSome end.standing) drive.now.units.items }
    ensures { IfOk result (λ text. text.items
        ≡ fleet_report drive.now.trace (map unit_seen drive.now.units.items)
        drive.now.batches.items) }
{
    let mut out = units_text(alloc, drive)?;
    put_batches(alloc, &mut out, drive.batches.as_slice())?;
    Ok(out)
}

/// What it says of units.
fn units_text(alloc: Global, drive: &FleetDrive) -> Result<Bytes, NoMemory>
    requires { All (λ end. IsSome end.standing) drive.now.units.items }
    ensures { IfOk result (λ text. text.items
        ≡ units_report drive.now.trace (map unit_seen drive.now.units.items)) }
{
    let mut out = Bytes::new(alloc);
    let mut left = drive.units.as_slice();
    let mut index = 0;
    'units: while let Some((end, later)) = left.split_first() {
        index += 1;
        put_unit(
            alloc,
            &mut out,
            index as u64,
            drive.trace.posted_at(index),
            end,
        )?;
        left = later;
    }
    Ok(out)
}

/// A line for each batch.
fn put_batches(alloc: Global, out: &mut Bytes, batches: &[BatchEnd]) -> Result<(), NoMemory>
    ensures { OnOk result (out.new.items ≡ out.old.items ++ flat_map batch_line batches.now) }
{
    for batch in batches {
        put_batch(alloc, out, batch)?;
    }
    Ok(())
}

#[tactic(auto, unfolding(crate::specs::FleetTexts::batch_line))]
fn put_batch(alloc: Global, out: &mut Bytes, batch: &BatchEnd) -> Result<(), NoMemory>
    ensures { OnOk result (out.new.items ≡ out.old.items ++ batch_line batch.now) }
{
    out.extend(b"batch ")?;
    out.extend(batch.part.as_slice())?;
    out.extend(b" asked ")?;
    put_number(alloc, out, u64::from(batch.asked))?;
    out.extend(b" of ")?;
    put_number(alloc, out, u64::from(batch.of))?;
    out.extend(outcome_word(batch.end))
}

/// The outcome of a batch, with the space before it, and the end of its line.
fn outcome_word(end: BatchOutcome) -> &'static [u8]
    ensures { result.now ≡ 32 ∷ batch_word end ++ 10 ∷ [] }
{
    match end {
        BatchOutcome::NotOnMedia => b" notonmedia\n",
        BatchOutcome::NoUnit => b" nounit\n",
        BatchOutcome::Completed => b" completed\n",
        BatchOutcome::Stopped => b" stopped\n",
        BatchOutcome::Open => b" open\n",
    }
}

/// The number of a unit at which so many datagrams were posted, and its report.
#[tactic(auto, unfolding(crate::specs::FleetTexts::unit_lines))]
fn put_unit(
    alloc: Global,
    out: &mut Bytes,
    number: u64,
    posted: u64,
    end: &UnitEnd,
) -> Result<(), NoMemory>
    requires { IsSome end.now.standing }
    ensures { OnOk result
        (out.new.items ≡ out.old.items ++ unit_lines number posted (unit_seen end.now)) }
{
    put_number_line(alloc, out, number)?;
    match &end.standing {
        Some(standing) => put_report(alloc, out, end.sessions.as_slice(), posted, standing),
        // A fleet that has ended stands somewhere at each unit.
        None => unreachable!(),
    }
}

#[tactic(auto, unfolding(crate::specs::FleetTexts::unit_line))]
fn put_number_line(alloc: Global, out: &mut Bytes, number: u64) -> Result<(), NoMemory>
    ensures { OnOk result (out.new.items ≡ out.old.items ++ unit_line number) }
{
    out.extend(b"unit ")?;
    put_number(alloc, out, number)?;
    out.extend(b"\n")
}
