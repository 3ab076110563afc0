//! Runs rows of commands: reads cases from its data, runs the words of each over a host, a sink and
//! eight disks in memory, and prints what came. What it has to print, in `stdout`, comes from worked
//! rows, never from a run. It ends with status 0; where a line of its data can't be read it prints
//! the file, the line and why, and ends with status 1.
//!
//! The file `INDEX` names the files with the cases, one a line. In these an empty line, or one that
//! begins with `#`, says nothing. The first word of each other line tells what it says:
//!
//! | line | what it says |
//! |---|---|
//! | `case NAME` | a case begins; one without a `run` is only what others begin with |
//! | `from NAME` | it has the files, the disks and the known outputs of this earlier case |
//! | `file NAME` | the host has this file, with the bytes that come next |
//! | `unit N` | the disk that the lines from here on speak of is that of unit N, not the first |
//! | `disk OFFSET` | the bytes that come next stand on the disk from here on |
//! | `is NAME` | a known output: a status, a space and a text, which come next |
//! | `ends NAME` | a known output: one that ends with the bytes that come next |
//! | `\|TEXT` | the bytes of this text and a line feed |
//! | `+TEXT` | the bytes of this text |
//! | `hex DIGITS` | these bytes |
//! | `fill COUNT BYTE` | this byte, a decimal number, so often |
//! | `times COUNT TEXT` | this text and a line feed, so often |
//! | `run WORD ..` | a run on these words; `%HH` is the byte HH, and `%` the empty word |
//! | `tell NAME` | length and CRC-32 of this file of the host are told after the last run |
//! | `range OFFSET COUNT` | and so many bytes of the disk, at most 256 |
//! | `fail host N` | the N-th call of the host fails; so for `sink` and `disk` |
//! | `fail power N PICK` | the disk loses power at its N-th call, as PICK says (docs/DISK.md) |
//! | `each host N` | N times, with call 1, 2, .. N of the host failing; so for `sink` and `disk` |
//! | `each power N PICK` | N times with a loss of power at the call 1, 2, .. N of the disk |
//! | `each script N PICK FILE` | the same by a line `power CALL PICK` put first into this file |
//!
//! What a case doesn't say of its disks is zero. Calls count from the first run on, over all runs of
//! a case. All disks are restarted before each run; of these calls that before the first isn't
//! counted. Of each run its words and its status are printed, and its output line by line after
//! `|`, or after `+` what has no line feed; of a known output its name. Where calls fail in turn,
//! those that come to the same are printed once. The last line counts the cases, their runs, and
//! those that ended as out of memory, of which there is none.
#![tactic(auto)]

mod case;
mod reading;
mod running;
mod telling;

use case::Case;
use load_base::{Bytes, NoMemory};
use reading::{Place, take_line};
use running::{Tally, run_case};
use std::fs;
use std::process::ExitCode;
use std::rt::Files;

/// The file that names those with the cases, one a line.
const INDEX: &str = "INDEX";

const STOPPED: u8 = 1;

/// The rows end early; why was printed.
#[derive(Clone, Copy)]
struct Stopped;

fn main(rt: HostRuntime) -> ExitCode {
    let mut cases = Vec::new(rt.alloc());
    let ended = match read_all(&rt, &mut cases) {
        Ok(()) => run_all(&rt, &cases),
        Err(Stopped) => Err(Stopped),
    };
    drop(cases);
    match ended {
        Ok(()) => ExitCode::SUCCESS,
        Err(Stopped) => ExitCode::from(STOPPED),
    }
}

/// Reads the cases of all files that the index names.
fn read_all<R: Files + Print + AllocGlobal>(rt: &R, cases: &mut Vec<Case>) -> Result<(), Stopped> {
    let index = read_file(rt, INDEX)?;
    for name in index.as_str().lines() {
        read_cases(rt, name, cases)?;
    }
    Ok(())
}

/// The text of a file.
fn read_file<R: Files + Print + AllocGlobal>(rt: &R, name: &str) -> Result<String, Stopped> {
    match fs::read_to_string(rt, name) {
        Ok(text) => Ok(text),
        Err(fault) => {
            let _ = println!(rt; "{name}: {fault}");
            Err(Stopped)
        }
    }
}

/// Reads the cases of one file, up to the first line that is refused.
fn read_cases<R: Files + Print + AllocGlobal>(
    rt: &R,
    name: &str,
    cases: &mut Vec<Case>,
) -> Result<(), Stopped> {
    let text = read_file(rt, name)?;
    let mut place = Place::Nowhere;
    let mut number = 0u64;
    for line in text.as_str().lines() {
        number = number.saturating_add(1);
        if let Err(refusal) = take_line(rt.alloc(), cases, &mut place, line) {
            let why = refusal.text();
            let _ = println!(rt; "{name}:{number}: {why}");
            return Err(Stopped);
        }
    }
    Ok(())
}

/// Runs the cases one after the other; one without a run is only what others begin as.
fn run_all<R: Print + AllocGlobal>(rt: &R, cases: &[Case]) -> Result<(), Stopped> {
    let mut tally = Tally {
        cases: 0,
        runs: 0,
        memory: 0,
    };
    for case in cases {
        if !case.commands.is_empty() {
            print_case(rt, case, &mut tally)?;
        }
    }
    let (all, runs, memory) = (tally.cases, tally.runs, tally.memory);
    match println!(rt; "{all} cases, {runs} runs, {memory} out of memory") {
        Ok(()) => Ok(()),
        Err(_) => Err(Stopped),
    }
}

/// Runs a case and prints what is told of it.
fn print_case<R: Print + AllocGlobal>(
    rt: &R,
    case: &Case,
    tally: &mut Tally,
) -> Result<(), Stopped> {
    let mut told = Bytes::new(rt.alloc());
    if let Err(NoMemory) = run_case(rt.alloc(), case, tally, &mut told) {
        let _ = println!(rt; "{}: out of memory", case.name);
        return Err(Stopped);
    }
    match rt.write_all(told.as_slice()) {
        Ok(()) => Ok(()),
        Err(_) => Err(Stopped),
    }
}
