//! Which upload of the running batch is asked next, and what a batch came to (docs/EXCHANGE.md,
//! "Batches").
ghost use Rattle.std.specs.Prelude.{◌≡◌, ◌+◌, ◌<◌, ◌≤◌, IfOk, IfSome, Some, length};
ghost use Rattle.std.specs.Prelude.{option_map, slice_get};
ghost use Rattle.batch_lists.specs.Batch.{batch_view};
ghost use Rattle.exchange_trace.specs.Happenings.{Upload_started, happening_view};
ghost use Rattle.loader_machine.specs.Machine.{all_sessions, session_view};
ghost use Rattle.media_check.specs.Sets.{set_view};
ghost use Rattle.target_fleet.specs.Asking as spec;
ghost use Rattle.target_fleet.specs.Asking.{end_in, end_of_running, least_unit_from};
ghost use Rattle.target_fleet.specs.Asking.{next_in_batch, next_of_running, outcome_in, place_of};
ghost use Rattle.target_fleet.specs.Asking.{session_came_to};
ghost use Rattle.target_fleet.specs.AskingCalls.{HaveFewTargets, IsAskedIn, IsAskedWithin};
ghost use Rattle.target_fleet.specs.AskingCalls.{asked_view, last_view, places_in, running_view};
ghost use Rattle.target_fleet.specs.AskingCalls.{sessions_in, upload_at};

use crate::outcome::{BatchEnd, BatchOutcome};
use accept_rules::Rule;
use batch_lists::{Batch, BatchTarget};
use exchange_trace::Happening;
use load_base::{Ident, List, NoMemory, PartText};
use loader_machine::Session;
use media_check::MediaSet;
use part_number::PartNumber;
use session_rules::Outcome;
use std::alloc::Global;
use upload_replay::Driver;

/// The session of an upload that was asked: its unit, by its index, and which of the unit's
/// sessions it is, from 0.
#[derive(Clone, Copy)]
pub(crate) struct Asked {
    pub(crate) index: usize,
    pub(crate) session: usize,
}

/// The running batch: how many of its uploads were asked, and the session of the last of these.
#[derive(Clone, Copy)]
pub(crate) struct Running {
    pub(crate) part: PartText,
    pub(crate) asked: usize,
    pub(crate) last: Option<Asked>,
}

/// What became of the session asked last.
#[derive(Clone, Copy)]
pub(crate) enum LastAsked {
    NoneAsked,
    Completed,
    Open,
    Otherwise,
}

/// The upload that is asked next, if one may be: the index of its unit, and the target of the
/// batch.
pub(crate) fn next_upload<'m, R: Rule>(
    media: &'m MediaSet,
    running: Option<Running>,
    drivers: &[Driver<'_, R>],
) -> Option<(usize, &'m BatchTarget)>
    requires { IfSome running (λ r. IsAskedIn (length drivers.now) r.last) }
    ensures next { option_map (λ next. upload_at next.0 next.1.now) result
        ≡ next_of_running (set_view media.now) (places_in drivers.now) (sessions_in drivers.now)
        (option_map running_view running) }
    ensures within { IfSome result (λ next. next.0 < length drivers.now) }
{
    match running {
        Some(running) => match media.batch(&running.part) {
            Some(batch) => {
                let last = became_of(running.last, drivers);
                next_in(batch, running.asked, last, drivers)
            }
            None => None,
        },
        None => None,
    }
}

/// The same of a batch of which so many uploads were asked.
fn next_in<'m, R: Rule>(
    batch: &'m Batch,
    asked: usize,
    last: LastAsked,
    drivers: &[Driver<'_, R>],
) -> Option<(usize, &'m BatchTarget)>
    ensures next { option_map (λ next. upload_at next.0 next.1.now) result
        ≡ next_in_batch (places_in drivers.now) asked (last_view last)
        (Some (batch_view batch.now)) }
    ensures within { IfSome result (λ next. next.0 < length drivers.now) }
{
    if !may_go_on(asked, batch.targets.len(), last) {
        return None;
    }
    let target = &batch.targets.as_slice()[asked];
    match unit_at(&target.hw, &target.pos, drivers) {
        Some(index) => Some((index, target)),
        None => None,
    }
}

/// Whether a target is left, and either none was asked or the session asked last is completed.
fn may_go_on(asked: usize, targets: usize, last: LastAsked) -> bool
    ensures { result ≡ spec.may_go_on asked targets (last_view last) }
{
    match last {
        LastAsked::NoneAsked | LastAsked::Completed => asked < targets,
        LastAsked::Open | LastAsked::Otherwise => false,
    }
}

/// The index of the first unit that is of this hardware and has this position.
fn unit_at<R: Rule>(hw: &Ident, pos: &Ident, drivers: &[Driver<'_, R>]) -> Option<usize>
    ensures unit { option_map (λ index. index + 1) result
        ≡ least_unit_from 1 hw.now pos.now (places_in drivers.now) }
    ensures within { IfSome result (λ index. index < length drivers.now) }
{
    let mut index = 0;
    while index < drivers.len() {
        if is_at(hw, pos, &drivers[index]) {
            return Some(index);
        }
        index += 1;
    }
    None
}

fn is_at<R: Rule>(hw: &Ident, pos: &Ident, driver: &Driver<'_, R>) -> bool
    ensures { result ≡ spec.is_at hw.now pos.now (place_of driver.now.identity) }
{
    let identity = driver.identity();
    identity.hw == *hw && identity.pos == *pos
}

/// What became of the session that was asked last.
fn became_of<R: Rule>(last: Option<Asked>, drivers: &[Driver<'_, R>]) -> LastAsked
    requires { IsAskedIn (length drivers.now) last }
    ensures { last_view result
        ≡ spec.became_of (sessions_in drivers.now) (option_map asked_view last) }
{
    match last {
        Some(asked) => outcome_of(session_at(&drivers[asked.index], asked.session)),
        None => LastAsked::NoneAsked,
    }
}

/// The session of this number, from 0.
fn session_at<'d, R: Rule>(driver: &'d Driver<'_, R>, number: usize) -> Option<&'d Session>
    ensures { option_map (λ session. session_view session.now) result
        ≡ slice_get (all_sessions driver.now.loader.view) number }
{
    driver.sessions().as_slice().get(number)
}

fn outcome_of(session: Option<&Session>) -> LastAsked
    ensures { last_view result
        ≡ session_came_to (option_map (λ session. session_view session.now) session.entry) }
{
    match session {
        Some(session) => came_to(&session.outcome),
        None => LastAsked::Otherwise,
    }
}

fn came_to(outcome: &Outcome) -> LastAsked
    ensures { last_view result ≡ spec.came_to outcome.now }
{
    match outcome {
        Outcome::Completed => LastAsked::Completed,
        Outcome::Open => LastAsked::Open,
        Outcome::Denied(_)
        | Outcome::TargetStopped(_)
        | Outcome::GaveUp
        | Outcome::PeerError(_)
        | Outcome::BadFile { .. }
        | Outcome::NotOnMedia(_)
        | Outcome::TooMany
        | Outcome::Replaced
        | Outcome::PortsSpent => LastAsked::Otherwise,
    }
}

/// What the running batch came to so far.
pub(crate) fn end_of<R: Rule>(
    media: &MediaSet,
    running: Running,
    drivers: &[Driver<'_, R>],
) -> BatchEnd
    requires last { IsAskedIn (length drivers.now) running.last }
    requires within { IsAskedWithin (set_view media.now) (running_view running) }
    requires few { HaveFewTargets (set_view media.now) }
    ensures { result ≡ end_of_running (set_view media.now) (places_in drivers.now)
        (sessions_in drivers.now) (running_view running) }
{
    match media.batch(&running.part) {
        Some(batch) => end_in_batch(running, batch, drivers),
        None => BatchEnd {
            part: running.part,
            asked: 0,
            of: 0,
            end: BatchOutcome::NotOnMedia,
        },
    }
}

fn end_in_batch<R: Rule>(running: Running, batch: &Batch, drivers: &[Driver<'_, R>]) -> BatchEnd
    requires last { IsAskedIn (length drivers.now) running.last }
    requires within { running.asked ≤ length batch.now.targets.items }
    requires few { length batch.now.targets.items ≤ 64 }
    ensures { result ≡ end_in (places_in drivers.now) (running_view running)
        (spec.became_of (sessions_in drivers.now) (option_map asked_view running.last))
        (Some (batch_view batch.now)) }
{
    let last = became_of(running.last, drivers);
    BatchEnd {
        part: running.part,
        asked: running.asked as u16,
        of: batch.targets.len() as u16,
        end: outcome(batch, running.asked, last, drivers),
    }
}

fn outcome<R: Rule>(
    batch: &Batch,
    asked: usize,
    last: LastAsked,
    drivers: &[Driver<'_, R>],
) -> BatchOutcome
    ensures { result
        ≡ outcome_in (places_in drivers.now) asked (last_view last) (batch_view batch.now) }
{
    if !may_go_on(asked, batch.targets.len(), last) {
        return ended_by(last);
    }
    match next_in(batch, asked, last, drivers) {
        Some(_) => BatchOutcome::Open,
        None => BatchOutcome::NoUnit,
    }
}

/// What a batch came to that may not go on.
fn ended_by(last: LastAsked) -> BatchOutcome
    ensures { result ≡ spec.ended_by (last_view last) }
{
    match last {
        LastAsked::NoneAsked | LastAsked::Completed => BatchOutcome::Completed,
        LastAsked::Open => BatchOutcome::Open,
        LastAsked::Otherwise => BatchOutcome::Stopped,
    }
}

/// The start of the upload to a target of a batch.
pub(crate) fn start_of(alloc: Global, target: &BatchTarget) -> Result<Happening, NoMemory>
    ensures { IfOk result (λ start. happening_view start
        ≡ Upload_started target.now.hw target.now.pos target.now.parts.items) }
{
    Ok(Happening::StartUpload {
        hw: target.hw,
        pos: target.pos,
        parts: texts_of(alloc, target.parts.as_slice())?,
    })
}

/// The texts of part numbers.
fn texts_of(alloc: Global, parts: &[PartNumber]) -> Result<List<PartText>, NoMemory>
    ensures { IfOk result (λ texts. texts.items ≡ parts.now) }
{
    let mut texts = List::new(alloc);
    texts.reserve(parts.len())?;
    for part in parts {
        texts.push(part.text())?;
    }
    Ok(texts)
}
