//! What a script gives next (docs/FORMATS.md, "Script").
ghost use Rattle.std.specs.Prelude.{◌≡◌, ◌≤◌, length, drop, option_map};
ghost use Rattle.std.specs.Prelude.{IfOk, OnErr};
ghost use Rattle.exchange_trace.specs.Following as following;
ghost use Rattle.exchange_trace.specs.Happenings.{Ticked, happening_view};
ghost use Rattle.link_net.specs.Lines.{line_view, line_views};
ghost use Rattle.link_net.specs.Mail.{MailView, NamesPosted, scene_in};
ghost use Rattle.link_net.specs.Plans.{IsTurn, LineTakesMemory, TakesMemory};
ghost use Rattle.link_net.specs.Plans.{plan_at, rest_view, turn_view};

use crate::line::Line;
use crate::mail::Mail;
use exchange_trace::{Happening, Side};
use load_base::{List, NoMemory, PartText};
use std::alloc::Global;

/// What is left of the line that is being followed.
#[derive(Clone, Copy)]
pub enum Rest {
    Nothing,
    /// Of `next`: this many deliveries more.
    Deliveries(u32),
    /// Of `finish`: whose turn it is to be ticked.
    Finishing(Side),
}

/// Which sides have a live session.
#[derive(Clone, Copy)]
pub struct Waiting {
    pub loader: bool,
    pub target: bool,
}

/// What happens, and what is left of its line then.
#[derive(Drop)]
pub struct Turn {
    pub given: Happening,
    pub rest: Rest,
}

/// What happens next, and the offset of the line that comes after it. What a line says by itself is
/// copied.
pub fn next_turn(
    alloc: Global,
    lines: &[Line],
    mail: &Mail,
    next: usize,
    rest: Rest,
    waiting: Waiting,
) -> Result<(Turn, usize), NoMemory>
    requires { next ≤ length lines.now }
    ensures turn { IfOk result (λ found. turn_view (line_views (drop found.1 lines.now)) found.0
        ≡ following.next_turn (scene_in mail.now waiting.loader waiting.target)
        (plan_at rest lines.now next)) }
    ensures named { IfOk result (λ found.
        NamesPosted (length mail.now.posted) (happening_view found.0.given)) }
    ensures within { IfOk result (λ found. found.1 ≤ length lines.now) }
    ensures memory { OnErr result (TakesMemory (following.next_turn
        (scene_in mail.now waiting.loader waiting.target) (plan_at rest lines.now next)).given) }
{
    match goes_on(mail, rest, waiting) {
        Some(turn) => Ok((turn, next)),
        None => from_lines(alloc, lines, mail, next, waiting),
    }
}

/// The first that the lines from this one on give; some give nothing. After the last comes the end.
fn from_lines(
    alloc: Global,
    lines: &[Line],
    mail: &Mail,
    next: usize,
    waiting: Waiting,
) -> Result<(Turn, usize), NoMemory>
    requires { next ≤ length lines.now }
    ensures turn { IfOk result (λ found. turn_view (line_views (drop found.1 lines.now)) found.0
        ≡ following.from_lines (scene_in mail.now waiting.loader waiting.target)
        (line_views (drop next lines.now))) }
    ensures named { IfOk result (λ found.
        NamesPosted (length mail.now.posted) (happening_view found.0.given)) }
    ensures within { IfOk result (λ found. found.1 ≤ length lines.now) }
    ensures memory { OnErr result (TakesMemory (following.from_lines (scene_in mail.now
        waiting.loader waiting.target) (line_views (drop next lines.now))).given) }
{
    let mut at = next;
    while at < lines.len() {
        let begun = begins(alloc, mail, &lines[at], waiting)?;
        at += 1;
        if let Some(turn) = begun {
            return Ok((turn, at));
        }
    }
    let end = Turn {
        given: Happening::End,
        rest: Rest::Nothing,
    };
    Ok((end, at))
}

/// The first that a line gives, if it gives anything.
pub fn begins(
    alloc: Global,
    mail: &Mail,
    line: &Line,
    waiting: Waiting,
) -> Result<Option<Turn>, NoMemory>
    ensures turn { IfOk result (λ found. IsTurn mail.now found
        (following.begins (scene_in mail.now waiting.loader waiting.target) (line_view line.now))) }
    ensures memory { OnErr result (LineTakesMemory
        (following.begins (scene_in mail.now waiting.loader waiting.target) (line_view line.now))) }
{
    match line {
        Line::Info { hw, pos } => Ok(once(Some(Happening::StartInfo { hw: *hw, pos: *pos }))),
        Line::Upload { hw, pos, parts } => Ok(once(Some(Happening::StartUpload {
            hw: *hw,
            pos: *pos,
            parts: copy_of(alloc, parts.as_slice())?,
        }))),
        Line::Tick(side) => Ok(once(Some(tick(*side)))),
        Line::Inject(datagram) => Ok(once(Some(Happening::Injected(datagram.copy(alloc)?)))),
        Line::Power { calls, pick } => Ok(once(Some(Happening::Power {
            calls: *calls,
            pick: *pick,
        }))),
        Line::Boot => Ok(once(Some(Happening::Boot))),
        Line::Blksize(size) => Ok(once(Some(Happening::BlockSize(*size)))),
        Line::Give(number) => Ok(once(mail.delivery(u64::from(*number)))),
        Line::Lose(number) => Ok(once(mail.loss(u64::from(*number)))),
        Line::Next(count) => Ok(goes_on(mail, Rest::Deliveries(*count), waiting)),
        Line::Finish => Ok(goes_on(mail, Rest::Finishing(Side::Loader), waiting)),
    }
}

fn copy_of(alloc: Global, parts: &[PartText]) -> Result<List<PartText>, NoMemory>
    ensures { IfOk result (λ copy. copy.items ≡ parts.now) }
{
    let mut copy = List::new(alloc);
    copy.reserve(parts.len())?;
    for part in parts {
        copy.push(*part)?;
    }
    Ok(copy)
}

/// The timer of this side expires.
pub fn tick(side: Side) -> Happening
    ensures { happening_view result ≡ Ticked side }
{
    match side {
        Side::Loader => Happening::TickLoader,
        Side::Target => Happening::TickTarget,
    }
}

/// A line that gives one happening, if any.
fn once(given: Option<Happening>) -> Option<Turn>
    ensures { result ≡ option_map (λ g. record { given = g; rest = Rest.Nothing }) given }
{
    match given {
        Some(given) => Some(Turn {
            given,
            rest: Rest::Nothing,
        }),
        None => None,
    }
}

/// What is left of a line gives something, or the line is done.
fn goes_on(mail: &Mail, rest: Rest, waiting: Waiting) -> Option<Turn>
    ensures { IsTurn mail.now result
        (following.goes_on (scene_in mail.now waiting.loader waiting.target) (rest_view rest)) }
{
    match rest {
        Rest::Nothing | Rest::Deliveries(0) => None,
        Rest::Deliveries(left) => {
            let given = mail.least_delivery()?;
            Some(Turn {
                given,
                rest: Rest::Deliveries(left - 1),
            })
        }
        Rest::Finishing(first) => finishing(mail, first, waiting),
    }
}

fn finishing(mail: &Mail, first: Side, waiting: Waiting) -> Option<Turn>
    ensures { IsTurn mail.now result
        (following.goes_on (scene_in mail.now waiting.loader waiting.target)
        (following.Finishing first)) }
{
    if let Some(given) = mail.least_delivery() {
        return Some(Turn {
            given,
            rest: Rest::Finishing(first),
        });
    }
    let side = ticked_side(first, waiting)?;
    Some(Turn {
        given: tick(side),
        rest: Rest::Finishing(side.other()),
    })
}

/// The side that is ticked: the one whose turn it is, or else the other, if it waits.
pub fn ticked_side(first: Side, waiting: Waiting) -> Option<Side>
    ensures { (mail : MailView)
        → result ≡ following.ticked_side (scene_in mail waiting.loader waiting.target) first }
{
    if waits(first, waiting) {
        Some(first)
    } else if waits(first.other(), waiting) {
        Some(first.other())
    } else {
        None
    }
}

fn waits(side: Side, waiting: Waiting) -> bool
    ensures { (mail : MailView)
        → result ≡ following.waits (scene_in mail waiting.loader waiting.target) side }
{
    match side {
        Side::Loader => waiting.loader,
        Side::Target => waiting.target,
    }
}
