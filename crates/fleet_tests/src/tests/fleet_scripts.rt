//! Scripts of fleets that are read and refused (docs/FORMATS.md, "Script of a fleet").
use exchange_trace::ScriptFault;
use fleet_link::FleetScript;
use load_base::{Bytes, NoMemory};
use printed_text::Printed;
use std::alloc::Global;

/// For how many units a text was read and how many lines say something, or why it is no script.
fn read(alloc: Global, text: &[u8], units: u8) -> Result<(u8, usize), ScriptFault> {
    let script = FleetScript::read(alloc, text, units)?;
    let found = (script.unit_count(), script.line_count());
    drop(script);
    Ok(found)
}

const READ: [(&[u8], u8, usize); 8] = [
    (b"", 2, 0),
    (b"# at 9 boot\n\nfinish", 2, 1),
    (
        b"at 1 upload HW1 L ABC41-0000-0001\nat 2 upload HW1 R ABC41-0000-0001\nfinish\n",
        2,
        3,
    ),
    (b"lose 1\ngive 4294967295\nnext 1\nfinish\nfinish", 2, 5),
    (b"at 2 power 0 0\nat 2 boot\nfinish", 2, 3),
    (b"at 1 info HW1 L\nat 8 info HW1 R", 8, 2),
    (b"at 1 tick loader\nat 2 blksize 1024\nat 1 blksize 0", 2, 3),
    (b"at 2 inject target 40000 59 00fF", 2, 1),
];

#[test]
fn fleet_scripts_are_read(rt: HostRuntime) {
    for &(text, units, lines) in &READ {
        assert_eq!(rt; read(rt.alloc(), text, units), Ok((units, lines)));
    }
}

/// What a text is refused for, as it is printed; of two units.
fn is_refused(alloc: Global, text: &[u8], printed: &[u8]) -> bool {
    let Err(fault) = read(alloc, text, 2) else {
        return false;
    };
    match fault.text(alloc) {
        Ok(found) => found.as_slice() == printed,
        Err(_) => false,
    }
}

const REFUSED: [(&[u8], &[u8]); 29] = [
    // The worked rows.
    (b"at 1\n", b"S1 1"),
    (b"at 2 inject loader 1 2 0g\n", b"S3 1"),
    (b"at 2 upload HW1 R ABC\n", b"S4 1"),
    (b"at 2 tick moon\n", b"S1 1"),
    (
        b"at 1 upload HW1 L ABC41-0000-0001\nat 2 upload HW1 R ABC41-0000-0001\nat 3 boot\n",
        b"S6 3",
    ),
    (b"at 9 frob\n", b"S1 1"),
    (b"at 1 finish\n", b"S1 1"),
    (b"at 1 give 1\n", b"S1 1"),
    (b"info HW1 L\n", b"S1 1"),
    (b"at 01 boot\n", b"S6 1"),
    (b"# a note\n\nat 9 tick moon\n", b"S6 3"),
    (b"at 9 boot x\n", b"S1 1"),
    // Lines and words that are none here.
    (b"at", b"S1 1"),
    (b"at 9", b"S1 1"),
    (b"at  boot", b"S6 1"),
    (b"boot", b"S1 1"),
    (b"finish\nAt 1 boot", b"S1 2"),
    (b"at 1 at 2 boot", b"S1 1"),
    (b"finish 1", b"S1 1"),
    (b"give", b"S1 1"),
    (b"give 1 2", b"S1 1"),
    // The unit's word comes before the words of its line.
    (b"at 0 blksize 7", b"S6 1"),
    (b"at +1 boot", b"S6 1"),
    (b"at 257 boot", b"S6 1"),
    (b"at  tick loader", b"S6 1"),
    // The words of a line say the line's own number.
    (b"\nat 1 blksize 7", b"S2 2"),
    (b"\n\nat 2 power 0 4294967296", b"S2 3"),
    (b"finish\ngive 0", b"S2 2"),
    (b"finish\nat 1 info hw1 L", b"S4 2"),
];

#[test]
fn the_first_fault_is_told(rt: HostRuntime) {
    for &(text, printed) in &REFUSED {
        assert_eq!(rt; is_refused(rt.alloc(), text, printed), true);
    }
}

/// A line of this many bytes that is passed over.
fn comment(alloc: Global, length: usize) -> Result<Bytes, NoMemory> {
    let mut text = Bytes::new(alloc);
    for _ in 0..length {
        text.push(b'#')?;
    }
    Ok(text)
}

fn comment_is(alloc: Global, length: usize) -> Option<Result<(u8, usize), ScriptFault>> {
    match comment(alloc, length) {
        Ok(text) => Some(read(alloc, text.as_slice(), 2)),
        Err(_) => None,
    }
}

#[test]
fn a_fleet_script_has_a_million_bytes_at_most(rt: HostRuntime) {
    let long = Err(ScriptFault::TooLong);
    for (length, outcome) in [(1000000, Ok((2, 0))), (1000001, long)] {
        assert_eq!(rt; comment_is(rt.alloc(), length), Some(outcome));
    }
}

/// A line with this many copies of a piece at its end.
fn line_of(alloc: Global, start: &[u8], piece: &[u8], count: usize) -> Result<Bytes, NoMemory> {
    let mut text = Bytes::new(alloc);
    text.extend(start)?;
    for _ in 0..count {
        text.extend(piece)?;
    }
    Ok(text)
}

fn upload_is(alloc: Global, count: usize) -> Option<Result<(u8, usize), ScriptFault>> {
    match line_of(alloc, b"at 1 upload HW1 L", b" ABC41-0000-0001", count) {
        Ok(text) => Some(read(alloc, text.as_slice(), 2)),
        Err(_) => None,
    }
}

#[test]
fn an_upload_has_1_to_64_parts(rt: HostRuntime) {
    let wrong = Err(ScriptFault::Word(1));
    for (count, outcome) in [(0, wrong), (1, Ok((2, 1))), (64, Ok((2, 1))), (65, wrong)] {
        assert_eq!(rt; upload_is(rt.alloc(), count), Some(outcome));
    }
}
