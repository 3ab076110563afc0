//! The report of a run.
ghost use Rattle.std.specs.Prelude.{◌≡◌, ◌∷◌, ◌++◌, [], map, option_map, IfOk, OnOk};
ghost use Rattle.std.specs.Option.{ForSome};
ghost use Rattle.std.specs.Prelude.{IsSome};
ghost use Rattle.std.specs.List.{count_by, flat_map};
ghost use Rattle.disk_layout.specs.Holds.{standing_view};
ghost use Rattle.load_protocol_files.specs.Lcl.{hardware_view, lcl_view};
ghost use Rattle.loader_machine.specs.Machine.{session_view};
ghost use Rattle.upload_replay.specs.Texts.{datagrams_line, file_kind_text, hardware_lines};
ghost use Rattle.upload_replay.specs.Texts.{is_post};
ghost use Rattle.upload_replay.specs.Texts.{kind_text, listed_lines, outcome_text, part_line};
ghost use Rattle.upload_replay.specs.Texts.{report};
ghost use Rattle.upload_replay.specs.Texts.{report_lines, session_line, session_lines};
ghost use Rattle.upload_replay.specs.Texts.{sessions_from};

use crate::outcome::Drive;
use disk_layout::Standing;
use exchange_trace::TraceStep;
use listing::listing_text;
use load_base::{Bytes, NoMemory};
use load_protocol_files::{Hardware, Lcl, Part};
use loader_machine::Session;
use printed_text::put_number;
use session_rules::{FileKind, Outcome, SessionKind};
use std::alloc::Global;

/// The report of a run whose configuration at the end is known: a line for each session, and after
/// a completed information session what it listed; how many datagrams were posted; and the
/// configuration.
pub fn report_text(alloc: Global, drive: &Drive) -> Result<Bytes, NoMemory>
    requires { IsSome drive.now.standing }
    ensures { ForSome drive.now.standing (λ standing. IfOk result (λ text. text.items
        ≡ report (map session_view drive.now.sessions.items) drive.now.trace.items
        (standing_view standing))) }
{
    let mut out = Bytes::new(alloc);
    let posted = count_posts(drive.trace.as_slice());
    match &drive.standing {
        Some(standing) => {
            put_report(alloc, &mut out, drive.sessions.as_slice(), posted, standing)?;
            Ok(out)
        }
        // A run that has ended stands somewhere.
        None => unreachable!(),
    }
}

/// The report of a run with these sessions, in which so many datagrams were posted, and after which
/// this configuration stands.
pub fn put_report(
    alloc: Global,
    out: &mut Bytes,
    sessions: &[Session],
    posted: u64,
    standing: &Standing,
) -> Result<(), NoMemory>
    ensures { OnOk result (out.new.items ≡ out.old.items
        ++ report_lines (map session_view sessions.now) posted (standing_view standing.now)) }
{
    put_sessions(alloc, out, sessions)?;
    put_count(alloc, out, posted)?;
    let listing = listing_text(alloc, standing)?;
    out.extend(listing.as_slice())
}

/// The number of datagrams that were posted.
fn put_count(alloc: Global, out: &mut Bytes, posted: u64) -> Result<(), NoMemory>
    ensures { OnOk result (out.new.items ≡ out.old.items ++ datagrams_line posted) }
{
    out.extend(b"datagrams ")?;
    put_number(alloc, out, posted)?;
    out.extend(b"\n")
}

/// How many datagrams were posted in this trace.
pub fn count_posts(trace: &[TraceStep]) -> u64
    ensures { result ≡ count_by is_post trace.now }
{
    trace.iter().filter(|step| is_posted(step)).count() as u64
}

fn is_posted(step: &TraceStep) -> bool
    ensures { result ≡ is_post step.now }
{
    matches!(step, TraceStep::Posted(_))
}

/// Sessions, numbered from 1.
fn put_sessions(alloc: Global, out: &mut Bytes, sessions: &[Session]) -> Result<(), NoMemory>
    ensures { OnOk result
        (out.new.items ≡ out.old.items ++ sessions_from 1 (map session_view sessions.now)) }
{
    let mut left = sessions;
    let mut number = 1;
    while let Some((session, later)) = left.split_first() {
        put_session(alloc, out, number, session)?;
        number += 1;
        left = later;
    }
    Ok(())
}

#[tactic(auto, unfolding(crate::specs::Texts::session_lines))]
fn put_session(
    alloc: Global,
    out: &mut Bytes,
    number: u64,
    session: &Session,
) -> Result<(), NoMemory>
    ensures { OnOk result
        (out.new.items ≡ out.old.items ++ session_lines number (session_view session.now)) }
{
    put_session_line(alloc, out, number, session)?;
    put_listed(out, &session.listed)
}

#[tactic(auto, unfolding(crate::specs::Texts::session_line))]
fn put_session_line(
    alloc: Global,
    out: &mut Bytes,
    number: u64,
    session: &Session,
) -> Result<(), NoMemory>
    ensures { OnOk result (out.new.items
        ≡ out.old.items ++ session_line number session.now.kind session.now.outcome) }
{
    out.extend(b"session ")?;
    put_number(alloc, out, number)?;
    out.extend(kind_word(session.kind))?;
    put_outcome(alloc, out, &session.outcome)?;
    out.extend(b"\n")
}

/// The kind of a session, with the spaces around it.
fn kind_word(kind: SessionKind) -> &'static [u8]
    ensures { result.now ≡ 32 ∷ kind_text kind ++ 32 ∷ [] }
{
    match kind {
        SessionKind::Info => b" info ",
        SessionKind::Upload => b" upload ",
    }
}

fn put_outcome(alloc: Global, out: &mut Bytes, outcome: &Outcome) -> Result<(), NoMemory>
    ensures { OnOk result (out.new.items ≡ out.old.items ++ outcome_text outcome.now) }
{
    match outcome {
        Outcome::Completed => out.extend(b"completed"),
        Outcome::Denied(text) => put_told(out, b"denied ", text.as_slice()),
        Outcome::TargetStopped(text) => put_told(out, b"stopped ", text.as_slice()),
        Outcome::GaveUp => out.extend(b"gaveup"),
        Outcome::PeerError(code) => {
            out.extend(b"peererror ")?;
            put_number(alloc, out, u64::from(*code))
        }
        Outcome::BadFile { kind, offset } => put_bad_file(alloc, out, *kind, *offset),
        Outcome::NotOnMedia(part) => put_told(out, b"notonmedia ", part.as_slice()),
        Outcome::TooMany => out.extend(b"toomany"),
        Outcome::Replaced => out.extend(b"replaced"),
        Outcome::PortsSpent => out.extend(b"portsspent"),
        Outcome::Open => out.extend(b"open"),
    }
}

/// A word with a space after it, and what is told.
fn put_told(out: &mut Bytes, word: &[u8], told: &[u8]) -> Result<(), NoMemory>
    ensures { OnOk result (out.new.items ≡ out.old.items ++ (word.now ++ told.now)) }
{
    out.extend(word)?;
    out.extend(told)
}

fn put_bad_file(alloc: Global, out: &mut Bytes, kind: FileKind, offset: u64) -> Result<(), NoMemory>
    ensures { OnOk result
        (out.new.items ≡ out.old.items ++ outcome_text (Outcome.BadFile kind offset)) }
{
    out.extend(b"badfile ")?;
    out.extend(file_kind_word(kind))?;
    out.extend(b" ")?;
    put_number(alloc, out, offset)
}

fn file_kind_word(kind: FileKind) -> &'static [u8]
    ensures { result.now ≡ file_kind_text kind }
{
    match kind {
        FileKind::Lci => b"LCI",
        FileKind::Lcl => b"LCL",
        FileKind::Lcs => b"LCS",
        FileKind::Lui => b"LUI",
        FileKind::Lur => b"LUR",
        FileKind::Lus => b"LUS",
    }
}

/// What is installed, if it was listed.
fn put_listed(out: &mut Bytes, listed: &Option<Lcl>) -> Result<(), NoMemory>
    ensures { OnOk result
        (out.new.items ≡ out.old.items ++ listed_lines (option_map lcl_view listed.now)) }
{
    match listed {
        Some(list) => put_each_hardware(out, list.hardware.as_slice()),
        None => Ok(()),
    }
}

fn put_each_hardware(out: &mut Bytes, list: &[Hardware]) -> Result<(), NoMemory>
    ensures { OnOk result
        (out.new.items ≡ out.old.items ++ flat_map hardware_lines (map hardware_view list.now)) }
{
    for hardware in list {
        put_hardware(out, hardware)?;
    }
    Ok(())
}

#[tactic(auto, unfolding(crate::specs::Texts::hardware_lines))]
fn put_hardware(out: &mut Bytes, hardware: &Hardware) -> Result<(), NoMemory>
    ensures { OnOk result
        (out.new.items ≡ out.old.items ++ hardware_lines (hardware_view hardware.now)) }
{
    out.extend(b"hardware ")?;
    out.extend(hardware.name.as_slice())?;
    out.extend(b" ")?;
    out.extend(hardware.serial.as_slice())?;
    out.extend(b"\n")?;
    put_parts(out, hardware.parts.as_slice())
}

fn put_parts(out: &mut Bytes, parts: &[Part]) -> Result<(), NoMemory>
    ensures { OnOk result (out.new.items ≡ out.old.items ++ flat_map part_line parts.now) }
{
    for part in parts {
        put_part(out, part)?;
    }
    Ok(())
}

#[tactic(auto, unfolding(crate::specs::Texts::part_line))]
fn put_part(out: &mut Bytes, part: &Part) -> Result<(), NoMemory>
    ensures { OnOk result (out.new.items ≡ out.old.items ++ part_line part.now) }
{
    out.extend(b"part ")?;
    out.extend(part.number.as_slice())?;
    out.extend(b",")?;
    out.extend(part.amendment.as_slice())?;
    out.extend(b",")?;
    out.extend(part.designation.as_slice())?;
    out.extend(b"\n")
}
