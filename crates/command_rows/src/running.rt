//! How a case is run.
ghost use Rattle.std.specs.Prelude.{◌≡◌, ◌+◌, ◌≤◌, All, length, true, false};
ghost use Rattle.disk_model.specs.declared.disk.TheConstants.{SIZE};

use crate::case::{Case, Command, Failing, Known, Side, Turns, UNITS};
use crate::telling::{tell_bytes, tell_file, tell_output};
use disk_model::{Disk, Fused, MemDisk, Power, SIZE};
use load_base::{Bytes, Host, MemHost, MemSink, NoMemory, ReadFault};
use loader_cli::run;
use std::alloc::Global;

/// What was run so far.
#[derive(Clone, Copy)]
pub(crate) struct Tally {
    pub(crate) cases: u32,
    pub(crate) runs: u32,
    /// Runs that ended as out of memory.
    pub(crate) memory: u32,
}

/// What a case runs over.
#[derive(Drop)]
struct Fixture {
    host: MemHost,
    sink: MemSink,
    disks: Vec<Fused<MemDisk>>,
}

/// Runs a case, and adds what is told of it.
pub(crate) fn run_case(
    alloc: Global,
    case: &Case,
    tally: &mut Tally,
    told: &mut Bytes,
) -> Result<(), NoMemory> {
    tally.cases = tally.cases.saturating_add(1);
    let line = format!(in alloc; "case {}\n", case.name)?;
    told.extend(line.as_bytes())?;
    match case.turns {
        Some(turns) => run_in_turn(alloc, case, turns, tally, told),
        None => run_once(alloc, case, case.failing, tally, told),
    }
}

/// Runs a case once for each call that fails, and tells the same outcomes together.
fn run_in_turn(
    alloc: Global,
    case: &Case,
    turns: Turns,
    tally: &mut Tally,
    told: &mut Bytes,
) -> Result<(), NoMemory> {
    let mut first = 1;
    let mut last = Bytes::new(alloc);
    for number in 1..=turns.count {
        let mut outcome = Bytes::new(alloc);
        let failing = with_turn(case.failing, turns.side, number);
        run_once(alloc, case, failing, tally, &mut outcome)?;
        if number > 1 && outcome != last {
            tell_turns(
                alloc,
                turns.side,
                first,
                number.saturating_sub(1),
                &last,
                told,
            )?;
            first = number;
        }
        last = outcome;
    }
    tell_turns(alloc, turns.side, first, turns.count, &last, told)
}

/// Adds what is told of calls that came to the same.
fn tell_turns(
    alloc: Global,
    side: Side,
    first: u32,
    last: u32,
    outcome: &Bytes,
    told: &mut Bytes,
) -> Result<(), NoMemory> {
    let name = match side {
        Side::Host => "host",
        Side::Sink => "sink",
        Side::Disk => "disk",
        Side::Power => "power",
        Side::Script => "script",
    };
    let line = format!(in alloc; "{name} {first} to {last}\n")?;
    told.extend(line.as_bytes())?;
    told.extend(outcome.as_slice())
}

/// The calls that fail where it is the turn of this one.
fn with_turn(failing: Failing, side: Side, number: u32) -> Failing {
    let mut failing = failing;
    match side {
        Side::Host => failing.host = number,
        Side::Sink => failing.sink = number,
        Side::Disk => failing.disk = number,
        Side::Power => failing.power = number,
        Side::Script => failing.script = number,
    }
    failing
}

/// Runs a case once over a host, a sink and disks of its own.
fn run_once(
    alloc: Global,
    case: &Case,
    failing: Failing,
    tally: &mut Tally,
    told: &mut Bytes,
) -> Result<(), NoMemory> {
    let mut fixture = Fixture {
        host: MemHost::new(alloc),
        sink: MemSink::new(alloc),
        disks: Vec::new(alloc),
    };
    let ended = match add_disks(alloc, case, failing, &mut fixture.disks) {
        Ok(()) => run_over(alloc, case, failing, &mut fixture, tally, told),
        Err(fault) => Err(fault),
    };
    drop(fixture);
    ended
}

/// Adds the disks of all units; one of them has a call that is set to fail, or to lose power.
fn add_disks(
    alloc: Global,
    case: &Case,
    failing: Failing,
    disks: &mut Vec<Fused<MemDisk>>,
) -> Result<(), NoMemory> {
    for (unit, bytes) in case.disks.iter().enumerate() {
        let bytes = &bytes[..bytes.len().min(SIZE as usize)];
        let mut disk = MemDisk::new(alloc, bytes)?;
        if unit == failing.unit {
            disk.fail_at(counted_after(failing.disk, RESTART))?;
        }
        let mut disk = Fused::new(disk);
        if unit == failing.unit && failing.power != 0 {
            disk.arm(failing.power, failing.pick);
        }
        disks.push(disk)?;
    }
    Ok(())
}

/// The call of the disk that comes before a run.
const RESTART: usize = 1;

/// The number of a call, counted from an object's first on, of which this many come before the
/// runs.
fn counted_after(call: u32, before: usize) -> u32 {
    if call == 0 {
        return 0;
    }
    match u32::try_from(before) {
        Ok(before) => call.saturating_add(before),
        Err(_) => 0,
    }
}

/// Writes the case's files, sets the calls that fail, runs, and tells what is there after that.
fn run_over(
    alloc: Global,
    case: &Case,
    failing: Failing,
    fixture: &mut Fixture,
    tally: &mut Tally,
    told: &mut Bytes,
) -> Result<(), NoMemory> {
    let before = case.files.len();
    fixture.host.fail_at(counted_after(failing.host, before))?;
    fixture.sink.fail_at(failing.sink)?;
    write_files(alloc, case, failing, &mut fixture.host)?;
    for command in &case.commands {
        tally.runs = tally.runs.saturating_add(1);
        run_command(alloc, case, command, fixture, tally, told)?;
    }
    for name in &case.told {
        tell_host_file(alloc, name.as_str(), &mut fixture.host, told)?;
    }
    for range in &case.ranges {
        match fixture.disks.get_mut(range.unit) {
            Some(disk) => tell_range(alloc, range.at, range.count, disk, told)?,
            None => told.extend(b"no such unit\n")?,
        }
    }
    Ok(())
}

/// Gives the host the case's files; the script that loses power gets a first line for that.
fn write_files(
    alloc: Global,
    case: &Case,
    failing: Failing,
    host: &mut MemHost,
) -> Result<(), NoMemory> {
    for file in &case.files {
        if failing.script != 0 && file.name.as_str() == case.script.as_str() {
            let line = format!(in alloc; "power {} {}\n", failing.script, failing.pick)?;
            let mut bytes = Bytes::new(alloc);
            bytes.extend(line.as_bytes())?;
            bytes.extend(file.bytes.as_slice())?;
            write_file(file.name.as_str(), bytes.as_slice(), host)?;
        } else {
            write_file(file.name.as_str(), file.bytes.as_slice(), host)?;
        }
    }
    Ok(())
}

/// No call of the host before the runs is set to fail.
fn write_file(name: &str, bytes: &[u8], host: &mut MemHost) -> Result<(), NoMemory> {
    match host.write(name.as_bytes(), bytes) {
        Ok(()) => Ok(()),
        Err(_) => Err(NoMemory),
    }
}

/// Runs one command and tells its words, its status and its output.
fn run_command(
    alloc: Global,
    case: &Case,
    command: &Command,
    fixture: &mut Fixture,
    tally: &mut Tally,
    told: &mut Bytes,
) -> Result<(), NoMemory> {
    tell_command(command, told)?;
    if fixture.disks.len() != UNITS || !are_restarted(&mut fixture.disks) {
        return told.extend(b"the disks don't restart\n");
    }
    let before = fixture.sink.as_slice().len();
    let ended = run(
        alloc,
        &command.words,
        &mut fixture.host,
        &mut fixture.sink,
        &mut fixture.disks,
    );
    let status = ended.status;
    drop(ended);
    if status == OUT_OF_MEMORY {
        tally.memory = tally.memory.saturating_add(1);
    }
    let all = fixture.sink.as_slice();
    let output = &all[before.min(all.len())..];
    match known_of(alloc, &case.known, status, output)? {
        Some(known) => {
            let line = format!(in alloc; "known {}\n", known.name)?;
            told.extend(line.as_bytes())
        }
        None => {
            let line = format!(in alloc; "status {status}\n")?;
            told.extend(line.as_bytes())?;
            tell_output(output, told)
        }
    }
}

/// Restarts all disks.
fn are_restarted(disks: &mut [Fused<MemDisk>]) -> bool
    ensures many { length disks.new ≡ length disks.old }
    ensures running { result ≡ true → All (λ disk. disk.stopped ≡ false) disks.new }
{
    for unit in 0..disks.len() {
        if !is_restarted(&mut disks[unit]) {
            return false;
        }
    }
    true
}

/// Restarts a disk. A call that is set to fail may be the first, but not the second.
fn is_restarted(disk: &mut Fused<MemDisk>) -> bool
    ensures { result ≡ true → disk.new.stopped ≡ false }
{
    disk.restart().is_ok() || disk.restart().is_ok()
}

/// Tells the line that a command was read from.
fn tell_command(command: &Command, told: &mut Bytes) -> Result<(), NoMemory> {
    told.extend(b"run")?;
    if !command.words.is_empty() {
        told.extend(b" ")?;
        told.extend(command.line.as_bytes())?;
    }
    told.extend(b"\n")
}

const OUT_OF_MEMORY: u8 = 6;

/// The first known text that an output is, after its status and a space, or that it ends with.
fn known_of<'c>(
    alloc: Global,
    known: &'c [Known],
    status: u8,
    output: &[u8],
) -> Result<Option<&'c Known>, NoMemory> {
    let line = format!(in alloc; "{status} ")?;
    let mut whole = Bytes::new(alloc);
    whole.extend(line.as_bytes())?;
    whole.extend(output)?;
    for text in known {
        let same = if text.whole {
            text.text == whole
        } else {
            whole.as_slice().ends_with(text.text.as_slice())
        };
        if same {
            return Ok(Some(text));
        }
    }
    Ok(None)
}

/// Tells the length and the check sum of a file of the host. A call that is set to fail may be the
/// first, but not the second.
fn tell_host_file(
    alloc: Global,
    name: &str,
    host: &mut MemHost,
    told: &mut Bytes,
) -> Result<(), NoMemory> {
    let mut read = host.read(alloc, name.as_bytes());
    if let Err(ReadFault::Failed) = read {
        read = host.read(alloc, name.as_bytes());
    }
    match read {
        Ok(bytes) => tell_file(alloc, name, bytes.as_slice(), told),
        Err(ReadFault::Absent) => {
            let line = format!(in alloc; "file {name} absent\n")?;
            told.extend(line.as_bytes())
        }
        Err(ReadFault::TooLong) => {
            let line = format!(in alloc; "file {name} too long\n")?;
            told.extend(line.as_bytes())
        }
        Err(ReadFault::Failed) => {
            let line = format!(in alloc; "file {name} fails twice\n")?;
            told.extend(line.as_bytes())
        }
        Err(ReadFault::Memory) => Err(NoMemory),
    }
}

/// The most bytes of the disk that are told.
const MOST: usize = 256;

/// Tells bytes of the disk.
fn tell_range(
    alloc: Global,
    at: u32,
    count: u32,
    disk: &mut Fused<MemDisk>,
    told: &mut Bytes,
) -> Result<(), NoMemory> {
    let mut bytes = [0; MOST];
    let count = MOST.min(count as usize);
    if at >= SIZE - MOST as u32 {
        return told.extend(b"past the end of the disk\n");
    }
    if !is_read(disk, at, &mut bytes[..count]) {
        return told.extend(b"the disk fails\n");
    }
    tell_bytes(alloc, at, &bytes[..count], told)
}

/// Reads from a disk that is restarted first. Only one call of the two is set to fail.
fn is_read(disk: &mut Fused<MemDisk>, at: u32, buf: &mut [u8]) -> bool
    requires { at + length buf.old ≤ SIZE }
{
    (is_restarted(disk) && disk.read(at, buf).is_ok())
        || (is_restarted(disk) && disk.read(at, buf).is_ok())
}
