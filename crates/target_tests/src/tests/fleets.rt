//! What fleets of two units come to, over one link.
ghost use Rattle.std.specs.Prelude.{◌≡◌, ◌↔◌, [], All, IfOk, IsSome, IsTrue};
ghost use Rattle.bank_store.specs.DiskWrites.{IsRunning};
ghost use Rattle.disk_model.specs.MemDisk.{state_of};
ghost use Rattle.disk_model.specs.Fused.{state_of as fused_in};
ghost use Rattle.target_fleet.specs.Units.{AllDisks};

use super::link_refusals::{HW1, ONE_LOAD, WITH_BATCH, disk_of, opened};
use accept_rules::{Interlock, PermitsAll};
use disk_model::{Fused, MemDisk};
use exchange_trace::{Happening, Side, TraceStep};
use fleet_link::{FleetLink, FleetScript};
use load_base::{Bytes, NoMemory};
use media_check::MediaSet;
use session_rules::Outcome;
use std::alloc::Global;
use std::test::Fail;
use target_fleet::{FleetDrive, FleetFault, FleetStep, FleetTrace, UnitEnd, fleet, fleet_text};

/// A link that begins the script of these lines, of two units.
fn link_of(alloc: Global, asks: &[u8], rest: &[u8]) -> Result<FleetLink, Fail>
    ensures posted { IfOk result (λ link. link.posted ≡ []) }
    ensures units { IfOk result (λ link. link.units ≡ 2) }
{
    let mut lines = Bytes::new(alloc);
    lines.extend(asks)?;
    lines.extend(rest)?;
    let script = FleetScript::read(alloc, lines.as_slice(), 2)?;
    Ok(FleetLink::new(alloc, script))
}

/// A letter for what became of the unit's first session, and how many loads stand there.
fn end_of(unit: &UnitEnd) -> [u8; 2] {
    let letter = match unit.sessions.as_slice().first() {
        Some(session) => match &session.outcome {
            Outcome::Completed => b'c',
            Outcome::GaveUp => b'g',
            Outcome::Open => b'o',
            _ => b'?',
        },
        None => b'0',
    };
    let loads = match &unit.standing {
        Some(standing) => u8::try_from(standing.config.loads.len()).unwrap_or(b'?'),
        None => b'?',
    };
    [letter, loads]
}

/// How many datagrams were posted at this unit.
fn posts_of(run: &FleetDrive, unit: usize) -> u8 {
    u8::try_from(run.trace.posted_at(unit)).unwrap_or(b'?')
}

/// The same of both units, each with its datagrams.
fn ends_of(run: &FleetDrive) -> Option<[u8; 6]> {
    match run.units.as_slice() {
        [first, second] => {
            let [one, loads] = end_of(first);
            let [other, others] = end_of(second);
            let posts = posts_of(run, 1);
            Some([one, posts, loads, other, posts_of(run, 2), others])
        }
        _ => None,
    }
}

fn came_to(run: &Result<FleetDrive, FleetFault>) -> Option<[u8; 6]> {
    match run {
        Ok(run) => ends_of(run),
        Err(_) => None,
    }
}

/// Two targets of hardware HW1, without loads.
fn two_disks(alloc: Global) -> Result<[Fused<MemDisk>; 2], NoMemory>
    ensures { IfOk result (λ disks. AllDisks (λ disk. IsRunning (fused_in state_of disk)) disks) }
{
    let first = disk_of(alloc, HW1.identity)?;
    match disk_of(alloc, HW1.identity) {
        Ok(second) => Ok([first, second]),
        Err(NoMemory) => {
            drop(first);
            Err(NoMemory)
        }
    }
}

/// What this script makes of them, where the loader serves the set of one load.
fn run(alloc: Global, media: &MediaSet, asks: &[u8], rest: &[u8]) -> Result<Option<[u8; 6]>, Fail> {
    let mut link = link_of(alloc, asks, rest)?;
    let found = run_on(alloc, media, &mut link);
    drop(link);
    Ok(found?)
}

fn run_on(
    alloc: Global,
    media: &MediaSet,
    link: &mut FleetLink,
) -> Result<Option<[u8; 6]>, NoMemory>
    requires posted { link.old.posted ≡ [] }
    requires units { link.old.units ≡ 2 }
{
    let mut disks = two_disks(alloc)?;
    let interlock = Interlock::new(PermitsAll);
    let run = fleet(alloc, link, &mut disks, media, &interlock);
    let found = came_to(&run);
    drop(run);
    drop(disks);
    Ok(found)
}

/// An upload to each unit, and one to the second alone.
const BOTH: &[u8] = b"at 1 upload HW1 L ABC41-0000-0001\nat 2 upload HW1 L ABC41-0000-0001\n";

const SECOND: &[u8] = b"at 2 upload HW1 L ABC41-0000-0001\n";

/// What each of these scripts makes of them.
fn all_of(alloc: Global, media: &MediaSet) -> Result<[Option<[u8; 6]>; 5], Fail> {
    Ok([
        run(alloc, media, BOTH, b"finish\n")?,
        run(alloc, media, BOTH, b"lose 1\nfinish\n")?,
        run(alloc, media, BOTH, b"lose 1\nnext 5\nlose 7\nfinish\n")?,
        run(alloc, media, BOTH, b"at 2 power 0 0\nfinish\n")?,
        run(alloc, media, SECOND, b"finish\n")?,
    ])
}

#[test]
fn each_unit_comes_to_what_it_would_alone(rt: HostRuntime) -> Result<(), Fail> {
    let media = opened(rt.alloc(), &ONE_LOAD)?;
    let ends = all_of(rt.alloc(), &media);
    drop(media);
    let [both, one_lost, later_lost, power_lost, one_asked] = ends?;
    assert_eq!(rt; both, Some([b'c', 21, 1, b'c', 21, 1]));
    assert_eq!(rt; one_lost, Some([b'c', 22, 1, b'c', 21, 1]));
    assert_eq!(rt; later_lost, Some([b'c', 22, 1, b'c', 23, 1]));
    assert_eq!(rt; power_lost, Some([b'c', 21, 1, b'g', 6, 0]));
    assert_eq!(rt; one_asked, Some([b'0', 0, 0, b'c', 21, 1]));
    Ok(())
}

/// Whether it is known of each unit what stands on its disk.
fn are_known(units: &[UnitEnd]) -> bool
    ensures { IsTrue result ↔ All (λ end. IsSome end.standing) units.now }
{
    units.iter().all(|end| is_known(end))
}

fn is_known(end: &UnitEnd) -> bool
    ensures { IsTrue result ↔ IsSome end.now.standing }
{
    end.standing.is_some()
}

fn report_of(alloc: Global, run: &FleetDrive) -> Result<Bytes, Fail> {
    if !are_known(run.units.as_slice()) {
        return Err(Fail::new("an end that isn't known"));
    }
    Ok(fleet_text(alloc, run)?)
}

/// A line of a trace as three characters: the unit's number, and then `p` and who posts a datagram,
/// `l` or `t`; `l` or `t` and the unit's own number of the datagram that goes there, as a letter
/// from `A` on; `si` or `su` for a session that starts, and `--` for what else happens. Or `bat` for
/// a batch, `ask` for an upload that is asked, and `...` for the end.
fn shown(line: &FleetStep) -> [u8; 3] {
    match line {
        FleetStep::At { unit, step } => {
            let [first, second] = shown_at(step);
            [unit.saturating_add(b'0'), first, second]
        }
        FleetStep::Batch(_) => *b"bat",
        FleetStep::AskNext => *b"ask",
        FleetStep::End => *b"...",
    }
}

fn shown_at(step: &TraceStep) -> [u8; 2] {
    match step {
        TraceStep::Posted(datagram) => match datagram.from_side {
            Side::Loader => *b"pl",
            Side::Target => *b"pt",
        },
        TraceStep::Given(happening) => shown_given(happening),
        TraceStep::Down | TraceStep::Up { .. } | TraceStep::BootRefused(_) => *b"--",
    }
}

fn shown_given(happening: &Happening) -> [u8; 2] {
    match happening {
        Happening::ToLoader(number) => [b'l', letter(*number)],
        Happening::ToTarget(number) => [b't', letter(*number)],
        Happening::StartInfo { .. } => *b"si",
        Happening::StartUpload { .. } => *b"su",
        _ => *b"--",
    }
}

fn letter(number: u64) -> u8 {
    match u8::try_from(number) {
        Ok(number) => number.saturating_add(b'@'),
        Err(_) => b'?',
    }
}

fn shown_all(alloc: Global, lines: &[FleetStep]) -> Result<Bytes, NoMemory> {
    let mut text = Bytes::new(alloc);
    for line in lines {
        text.extend(&shown(line))?;
    }
    Ok(text)
}

fn lines_of(alloc: Global, trace: FleetTrace) -> Result<Bytes, NoMemory> {
    let lines = trace.into_lines(alloc)?;
    let shown = shown_all(alloc, lines.as_slice());
    drop(lines);
    shown
}

/// The report of a run, and the lines of its trace.
fn told(alloc: Global, run: FleetDrive) -> Result<(Bytes, Bytes), Fail> {
    let report = report_of(alloc, &run)?;
    let FleetDrive {
        trace,
        units,
        batches,
    } = run;
    drop((units, batches));
    let lines = lines_of(alloc, trace)?;
    Ok((report, lines))
}

fn told_on(alloc: Global, media: &MediaSet, link: &mut FleetLink) -> Result<(Bytes, Bytes), Fail>
    requires posted { link.old.posted ≡ [] }
    requires units { link.old.units ≡ 2 }
{
    let mut disks = two_disks(alloc)?;
    let interlock = Interlock::new(PermitsAll);
    let run = fleet(alloc, link, &mut disks, media, &interlock);
    drop(disks);
    match run {
        Ok(run) => told(alloc, run),
        Err(_) => Err(Fail::new("no run")),
    }
}

/// The batch's first target is unit 1, and no unit is its second one.
const ASKS: &[u8] = b"at 2 info HW1 L\nbatch ABC43-0000-0003\nasknext\n";

/// As another program printed it.
const REPORT: &[u8] = b"unit 1
session 1 upload completed
datagrams 21
target HW1 L SN1
bank 1 sequence 2
loads 1
load ABC41-0000-0001 APP.LUH 2
file APP.LUH 122 248A
file APP.BIN 9 29B1
unit 2
session 1 info completed
hardware HW1 SN1
datagrams 11
target HW1 L SN1
bank 0 sequence 1
loads 0
batch ABC43-0000-0003 asked 1 of 2 nounit
";

/// The traces of that program of either session alone, merged by the numbers over both units.
const LINES: &[u8] = b"2si2plbatask1su1pl2tA2pt1tA1pt2lB2pl1lB1pl2tC2pt1tC1pt2lD2pl1lD1pl2tE2pt1tE\
    1pt2lF2pl1lF1pl1pl2tG2pt1tG1tH1pt2lH2pl1lI1pl2tI2pt1tJ1pt1pt2lJ2pl1lK1lL1pl2tK1tM1pt1pt1lN1lO\
    1pl1tP1pt1pt1lQ1lR1pl1tS1pt1lT1pl1tU...";

#[test]
fn a_fleet_is_told_unit_by_unit_and_line_by_line(rt: HostRuntime) -> Result<(), Fail> {
    let media = opened(rt.alloc(), &WITH_BATCH)?;
    let mut link = link_of(rt.alloc(), ASKS, b"finish\n")?;
    let told = told_on(rt.alloc(), &media, &mut link);
    drop((media, link));
    let (report, lines) = told?;
    assert_eq!(rt; report.as_slice(), REPORT);
    assert_eq!(rt; lines.as_slice(), LINES);
    Ok(())
}
