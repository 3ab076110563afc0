//! What a fleet's script gives next (docs/FORMATS.md, "Script of a fleet").
ghost use Rattle.std.specs.Prelude.{◌≡◌, ◌+◌, ◌<◌, ◌≤◌, Bool, List, length, drop, option_map};
ghost use Rattle.std.specs.Prelude.{IfOk, IfSome, OnErr};
ghost use Rattle.exchange_trace.specs.Happenings.{Ticked};
ghost use Rattle.exchange_trace.specs.declared.trace.Side.TheVariants as sides;
ghost use Rattle.fleet_trace.specs.FleetFollowing as following;
ghost use Rattle.fleet_trace.specs.FleetTraces.{At_unit, fleet_happening_view};
ghost use Rattle.link_net.specs.Lines.{line_view};
ghost use Rattle.link_net.specs.declared.link.Waits.{Waits};
ghost use Rattle.fleet_link.specs.FleetMail.{FleetMailView, NamesPlaced};
ghost use Rattle.fleet_link.specs.FleetPlans.{FleetLineTakesMemory, FleetTakesMemory, IsFleetTurn};
ghost use Rattle.fleet_link.specs.FleetPlans.{IsOfUnits, finishes_of, fleet_plan_at};
ghost use Rattle.fleet_link.specs.FleetPlans.{fleet_rest_view, fleet_turn_view, gives_at_unit};
ghost use Rattle.fleet_link.specs.FleetPlans.{gives_of_finish, seen_with, tick_view, turns_in};
ghost use Rattle.fleet_link.specs.FleetPlans.{waits_in};
ghost use Rattle.fleet_link.specs.Lines.{IsAtUnit, fleet_line_view, fleet_line_views};
ghost use Rattle.fleet_link.specs.declared.fleet_turn.FleetRest.TheVariants as rests;

use crate::fleet_line::FleetLine;
use crate::fleet_mail::{FleetMail, MOST_UNITS};
use exchange_trace::{Happening, Side};
use fleet_trace::FleetHappening;
use link_net::Waits;
use link_net::line::Line;
use link_net::turn::{Turn, Waiting, begins, tick, ticked_side};
use load_base::NoMemory;
use std::alloc::Global;

/// What is left of the line that is being followed.
#[derive(Clone, Copy)]
pub enum FleetRest {
    Nothing,
    /// Of `next`: this many deliveries more.
    Deliveries(u32),
    /// Of `finish`: for each unit whose turn it is to be ticked.
    Finishing([Side; MOST_UNITS]),
    /// Of `finishbatch`, whose `finish` goes on: the same.
    BatchFinishing([Side; MOST_UNITS]),
}

/// What happens, and what is left of its line then.
#[derive(Drop)]
pub struct FleetTurn {
    pub given: FleetHappening,
    pub rest: FleetRest,
}

/// Whose `finish` it is: that of a line by itself, or of a `finishbatch`.
#[derive(Clone, Copy)]
pub enum FinishOf {
    Line,
    Batch,
}

/// A side of a unit that is ticked; the unit by its index, from 0.
#[derive(Clone, Copy)]
pub struct FleetTick {
    pub index: usize,
    pub side: Side,
}

/// What happens next, and the offset of the line that comes after it. What a line says by itself is
/// copied.
pub fn next_turn(
    alloc: Global,
    lines: &[FleetLine],
    mail: &FleetMail,
    next: usize,
    rest: FleetRest,
    waits: &[Waits],
    may_ask: bool,
) -> Result<(FleetTurn, usize), NoMemory>
    requires { IsOfUnits lines.now next waits.now }
    ensures turn { IfOk result (λ found. fleet_turn_view (fleet_line_views (drop found.1 lines.now))
        found.0 ≡ following.next_fleet_turn (seen_with mail.now waits.now may_ask)
        (fleet_plan_at rest lines.now next)) }
    ensures named { IfOk result (λ found.
        NamesPlaced mail.now (fleet_happening_view found.0.given)) }
    ensures within { IfOk result (λ found. found.1 ≤ length lines.now) }
    ensures memory { OnErr result (FleetTakesMemory (following.next_fleet_turn
        (seen_with mail.now waits.now may_ask) (fleet_plan_at rest lines.now next)).given) }
{
    match goes_on(mail, rest, waits, may_ask) {
        Some(turn) => Ok((turn, next)),
        None => from_lines(alloc, lines, mail, next, waits, may_ask),
    }
}

/// The first that the lines from this one on give; some give nothing. After the last comes the end.
fn from_lines(
    alloc: Global,
    lines: &[FleetLine],
    mail: &FleetMail,
    next: usize,
    waits: &[Waits],
    may_ask: bool,
) -> Result<(FleetTurn, usize), NoMemory>
    requires { IsOfUnits lines.now next waits.now }
    ensures turn { IfOk result (λ found. fleet_turn_view (fleet_line_views (drop found.1 lines.now))
        found.0 ≡ following.from_fleet_lines (seen_with mail.now waits.now may_ask)
        (fleet_line_views (drop next lines.now))) }
    ensures named { IfOk result (λ found.
        NamesPlaced mail.now (fleet_happening_view found.0.given)) }
    ensures within { IfOk result (λ found. found.1 ≤ length lines.now) }
    ensures memory { OnErr result (FleetTakesMemory (following.from_fleet_lines
        (seen_with mail.now waits.now may_ask) (fleet_line_views (drop next lines.now))).given) }
{
    let mut at = next;
    while at < lines.len() {
        let begun = line_begins(alloc, mail, &lines[at], waits, may_ask)?;
        at += 1;
        if let Some(turn) = begun {
            return Ok((turn, at));
        }
    }
    let end = FleetTurn {
        given: FleetHappening::End,
        rest: FleetRest::Nothing,
    };
    Ok((end, at))
}

/// The first that a line gives, if it gives anything.
fn line_begins(
    alloc: Global,
    mail: &FleetMail,
    line: &FleetLine,
    waits: &[Waits],
    may_ask: bool,
) -> Result<Option<FleetTurn>, NoMemory>
    requires units { length waits.now ≤ 8 }
    requires unit { IsAtUnit (length waits.now) (fleet_line_view line.now) }
    ensures turn { IfOk result (λ found. IsFleetTurn mail.now found (following.fleet_begins
        (seen_with mail.now waits.now may_ask) (fleet_line_view line.now))) }
    ensures memory { OnErr result (FleetLineTakesMemory (following.fleet_begins
        (seen_with mail.now waits.now may_ask) (fleet_line_view line.now))) }
{
    match line {
        FleetLine::At { unit, line } => unit_begins(alloc, mail, *unit, line, waits),
        FleetLine::Give(number) => Ok(once(mail.delivery(u64::from(*number)))),
        FleetLine::Lose(number) => Ok(once(mail.loss(u64::from(*number)))),
        FleetLine::Next(count) => Ok(goes_on(mail, FleetRest::Deliveries(*count), waits, may_ask)),
        FleetLine::Finish => Ok(goes_on(mail, loaders_first(), waits, may_ask)),
        FleetLine::Batch(part) => Ok(once(Some(FleetHappening::Batch(*part)))),
        FleetLine::AskNext => Ok(asking(may_ask)),
        FleetLine::FinishBatch => Ok(batch_asking(may_ask)),
    }
}

/// The first that a line of a target gives at this unit.
fn unit_begins(
    alloc: Global,
    mail: &FleetMail,
    unit: u8,
    line: &Line,
    waits: &[Waits],
) -> Result<Option<FleetTurn>, NoMemory>
    requires { (1 ≤ unit) × (unit ≤ 8) }
    ensures turn { (may_ask : Bool) → IfOk result (λ found. IsFleetTurn mail.now found
        (gives_at_unit (seen_with mail.now waits.now may_ask) unit (line_view line.now))) }
    ensures memory { (may_ask : Bool) → OnErr result (FleetLineTakesMemory (gives_at_unit
        (seen_with mail.now waits.now may_ask) unit (line_view line.now))) }
{
    match begins(alloc, mail.mail_at(unit), line, waiting_at(waits, unit))? {
        Some(Turn { given, rest: _ }) => Ok(once(Some(FleetHappening::At {
            unit,
            happening: given,
        }))),
        None => Ok(None),
    }
}

/// A line that gives one happening, if any.
fn once(given: Option<FleetHappening>) -> Option<FleetTurn>
    ensures { result ≡ option_map (λ g. record { given = g; rest = rests.Nothing }) given }
{
    match given {
        Some(given) => Some(FleetTurn {
            given,
            rest: FleetRest::Nothing,
        }),
        None => None,
    }
}

/// A `finish` begins with the loader's turn at each unit.
fn loaders_first() -> FleetRest
    ensures { fleet_rest_view result ≡ following.Finish_goes_on following.loaders_first }
{
    FleetRest::Finishing([Side::Loader; MOST_UNITS])
}

/// What is left of a line gives something, or the line is done.
fn goes_on(mail: &FleetMail, rest: FleetRest, waits: &[Waits], may_ask: bool) -> Option<FleetTurn>
    requires { length waits.now ≤ 8 }
    ensures { IsFleetTurn mail.now result (following.fleet_goes_on
        (seen_with mail.now waits.now may_ask) (fleet_rest_view rest)) }
{
    match rest {
        FleetRest::Nothing | FleetRest::Deliveries(0) => None,
        FleetRest::Deliveries(left) => {
            let given = mail.least_delivery()?;
            Some(FleetTurn {
                given,
                rest: FleetRest::Deliveries(left - 1),
            })
        }
        FleetRest::Finishing(firsts) => finishing(mail, FinishOf::Line, firsts, waits),
        FleetRest::BatchFinishing(firsts) => batch_finishes(mail, firsts, waits, may_ask),
    }
}

/// The `finish` after an upload was asked. Once it gives nothing, the next one is asked.
fn batch_finishes(
    mail: &FleetMail,
    firsts: [Side; MOST_UNITS],
    waits: &[Waits],
    may_ask: bool,
) -> Option<FleetTurn>
    requires { length waits.now ≤ 8 }
    ensures { IsFleetTurn mail.now result (following.fleet_goes_on
        (seen_with mail.now waits.now may_ask) (following.Batch_finishes (turns_in firsts))) }
{
    match finishing(mail, FinishOf::Batch, firsts, waits) {
        Some(turn) => Some(turn),
        None => batch_asking(may_ask),
    }
}

/// The upload to the next target of a batch is asked, if it may be.
fn asking(may_ask: bool) -> Option<FleetTurn>
    ensures { (mail : FleetMailView) (waits : List Waits) → IsFleetTurn mail result
        (following.asking (seen_with mail waits may_ask) following.Line_is_done) }
{
    if may_ask {
        once(Some(FleetHappening::AskNext))
    } else {
        None
    }
}

/// The same of `finishbatch`, and then its `finish` begins.
fn batch_asking(may_ask: bool) -> Option<FleetTurn>
    ensures { (mail : FleetMailView) (waits : List Waits) → IsFleetTurn mail result
        (following.batch_asking (seen_with mail waits may_ask)) }
{
    if may_ask {
        Some(FleetTurn {
            given: FleetHappening::AskNext,
            rest: FleetRest::BatchFinishing([Side::Loader; MOST_UNITS]),
        })
    } else {
        None
    }
}

/// A unit is ticked only where nothing is undelivered at any.
fn finishing(
    mail: &FleetMail,
    of: FinishOf,
    firsts: [Side; MOST_UNITS],
    waits: &[Waits],
) -> Option<FleetTurn>
    requires { length waits.now ≤ 8 }
    ensures { (may_ask : Bool) → IsFleetTurn mail.now result
        (gives_of_finish (seen_with mail.now waits.now may_ask) of (turns_in firsts)) }
{
    if let Some(given) = mail.least_delivery() {
        return Some(FleetTurn {
            given,
            rest: rest_of(of, firsts),
        });
    }
    let ticked = first_tick(firsts, waits)?;
    Some(tick_turn(of, firsts, ticked))
}

/// What is left of a `finish`.
fn rest_of(of: FinishOf, firsts: [Side; MOST_UNITS]) -> FleetRest
    ensures { fleet_rest_view result ≡ finishes_of of (turns_in firsts) }
{
    match of {
        FinishOf::Line => FleetRest::Finishing(firsts),
        FinishOf::Batch => FleetRest::BatchFinishing(firsts),
    }
}

/// The turn that ticks; it passes to the side that isn't ticked, at that unit alone.
fn tick_turn(of: FinishOf, firsts: [Side; MOST_UNITS], ticked: FleetTick) -> FleetTurn
    requires { ticked.index < 8 }
    ensures given { fleet_happening_view result.given
        ≡ At_unit (ticked.index + 1) (Ticked ticked.side) }
    ensures rest { fleet_rest_view result.rest ≡ finishes_of of
        (following.turn_passed (turns_in firsts) (tick_view ticked)) }
{
    let turns = turns_passed(firsts, ticked);
    FleetTurn {
        given: FleetHappening::At {
            unit: ticked.index as u8 + 1,
            happening: tick(ticked.side),
        },
        rest: rest_of(of, turns),
    }
}

/// Whose turn it is after a tick.
fn turns_passed(firsts: [Side; MOST_UNITS], ticked: FleetTick) -> [Side; MOST_UNITS]
    requires { ticked.index < 8 }
    ensures { turns_in result ≡ following.turn_passed (turns_in firsts) (tick_view ticked) }
{
    let mut firsts = firsts;
    firsts[ticked.index] = ticked.side.other();
    firsts
}

/// The least unit that has a side that waits, and its side that is ticked, by its own turn.
fn first_tick(firsts: [Side; MOST_UNITS], waits: &[Waits]) -> Option<FleetTick>
    requires { length waits.now ≤ 8 }
    ensures side { (mail : FleetMailView) (may_ask : Bool) → option_map tick_view result
        ≡ following.fleet_tick (seen_with mail waits.now may_ask) (turns_in firsts) }
    ensures within { IfSome result (λ ticked. ticked.index < length waits.now) }
{
    let mut at = 0;
    while at < waits.len() {
        if let Some(side) = ticked_side(firsts[at], waiting(waits[at])) {
            return Some(FleetTick { index: at, side });
        }
        at += 1;
    }
    None
}

/// Which sides of this unit have a live session.
fn waiting_at(waits: &[Waits], unit: u8) -> Waiting
    requires { 1 ≤ unit }
    ensures { result ≡ record {
      loader = waits_in waits.now unit sides.Loader;
      target = waits_in waits.now unit sides.Target;
    } }
{
    match waits.get(unit as usize - 1) {
        Some(waits) => waiting(*waits),
        None => Waiting {
            loader: false,
            target: false,
        },
    }
}

/// Which sides have a live session.
fn waiting(waits: Waits) -> Waiting
    ensures { result ≡ record { loader = waits.loader; target = waits.target } }
{
    Waiting {
        loader: waits.loader,
        target: waits.target,
    }
}
