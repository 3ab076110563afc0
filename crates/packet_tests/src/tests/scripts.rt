//! Scripts that are read and refused (docs/FORMATS.md, "Script").
use link_net::{
    Datagram, FailLink, Happening, Link, LinkFault, Script, ScriptFault, ScriptLink, Side,
};
use load_base::{Bytes, NoMemory};
use std::alloc::Global;

/// How many lines say something, or why the text is no script.
fn lines_in(alloc: Global, text: &[u8]) -> Result<usize, ScriptFault> {
    let script = Script::read(alloc, text)?;
    let count = script.line_count();
    drop(script);
    Ok(count)
}

const READ: [(&[u8], usize); 7] = [
    (b"", 0),
    (b"\n\n", 0),
    (b"# \xff is passed over\n\nfinish", 1),
    (
        b"info HW1 L\ntick loader\ntick target\ngive 1\nlose 4294967295\nnext 1\nfinish\n",
        7,
    ),
    (
        b"upload HW1 L ABC41-0000-0001\ninject loader 0 65535 00\ninject target 65535 0 fF",
        3,
    ),
    (b"blksize 0\nblksize 8\nblksize 65464\n", 3),
    (b"power 0 4294967295\npower 4294967295 0\nboot", 3),
];

#[test]
fn scripts_are_read(rt: HostRuntime) {
    for &(text, lines) in &READ {
        assert_eq!(rt; lines_in(rt.alloc(), text), Ok(lines));
    }
}

const REFUSED: [(&[u8], ScriptFault); 51] = [
    // The first word, and how many follow.
    (b"tick moon", ScriptFault::Word(1)),
    (b"finish\n\n# late\nfrob 0\ngive 0\n", ScriptFault::Word(4)),
    (b"Finish", ScriptFault::Word(1)),
    (b" finish", ScriptFault::Word(1)),
    (b"finish ", ScriptFault::Word(1)),
    (b"finish\r\n", ScriptFault::Word(1)),
    (b"info HW1", ScriptFault::Word(1)),
    (b"info  HW1 L", ScriptFault::Word(1)),
    (b"info HW1 L 3", ScriptFault::Word(1)),
    (b"give", ScriptFault::Word(1)),
    (b"give 1 2", ScriptFault::Word(1)),
    (b"tick", ScriptFault::Word(1)),
    // Numbers.
    (b"\ngive ", ScriptFault::Number(2)),
    (b"give 0", ScriptFault::Number(1)),
    (b"lose 01", ScriptFault::Number(1)),
    (b"next +1", ScriptFault::Number(1)),
    (b"next 1x", ScriptFault::Number(1)),
    (b"next 4294967296", ScriptFault::Number(1)),
    (b"next 18446744073709551617", ScriptFault::Number(1)),
    // Names: the hardware is tested before the position.
    (b"finish\ninfo hw1 L", ScriptFault::Name(2)),
    (b"info HW1 ", ScriptFault::Name(1)),
    (b"info AAAAAAAAAAAAAAAAAAAAA L", ScriptFault::Name(1)),
    // Uploads: parts are 15 bytes, and an empty piece is a word.
    (b"upload HW1", ScriptFault::Word(1)),
    (b"upload hw1 L", ScriptFault::Word(1)),
    (b"upload hw1 L ABC41-0000-0001", ScriptFault::Name(1)),
    (b"upload HW1 l ABC41-0000-0001", ScriptFault::Name(1)),
    (b"upload HW1 L ABC41-0000-000", ScriptFault::Name(1)),
    (b"upload HW1 L ABC41-0000-0001 ", ScriptFault::Name(1)),
    // Injected datagrams, word by word.
    (b"inject target 40000 59", ScriptFault::Word(1)),
    (b"inject target 40000 59 00 00", ScriptFault::Word(1)),
    (b"inject moon 65536 59 0", ScriptFault::Word(1)),
    (b"inject Loader 40000 59 00", ScriptFault::Word(1)),
    (b"inject target 65536 59 0", ScriptFault::Number(1)),
    (b"inject target 40000 65536 0", ScriptFault::Number(1)),
    (b"inject target 40000 059 00", ScriptFault::Number(1)),
    (b"\ninject target 40000 59 ", ScriptFault::Hex(2)),
    (b"inject target 40000 59 000", ScriptFault::Hex(1)),
    (b"inject target 40000 59 0g", ScriptFault::Hex(1)),
    // Block sizes.
    (b"blksize", ScriptFault::Word(1)),
    (b"blksize 8 8", ScriptFault::Word(1)),
    (b"blksize 7", ScriptFault::Number(1)),
    (b"blksize 65465", ScriptFault::Number(1)),
    (b"blksize 00", ScriptFault::Number(1)),
    (b"blksize ", ScriptFault::Number(1)),
    // Power losses and boots.
    (b"power 0", ScriptFault::Word(1)),
    (b"power 0 3 4", ScriptFault::Word(1)),
    (b"power 4294967296 0", ScriptFault::Number(1)),
    (b"power 0 4294967296", ScriptFault::Number(1)),
    (b"power -1 0", ScriptFault::Number(1)),
    (b"boot ", ScriptFault::Word(1)),
    (b"boot 1", ScriptFault::Word(1)),
];

#[test]
fn the_first_fault_is_told(rt: HostRuntime) {
    for &(text, fault) in &REFUSED {
        assert_eq!(rt; lines_in(rt.alloc(), text), Err(fault));
    }
}

/// A line of this many bytes that is passed over.
fn comment(alloc: Global, length: usize) -> Result<Bytes, NoMemory> {
    let mut text = Bytes::new(alloc);
    for _ in 0..length {
        text.push(b'#')?;
    }
    Ok(text)
}

fn comment_is(alloc: Global, length: usize) -> Option<Result<usize, ScriptFault>> {
    match comment(alloc, length) {
        Ok(text) => Some(lines_in(alloc, text.as_slice())),
        Err(_) => None,
    }
}

#[test]
fn a_script_has_a_million_bytes_at_most(rt: HostRuntime) {
    for (length, outcome) in [(1000000, Ok(0)), (1000001, Err(ScriptFault::TooLong))] {
        assert_eq!(rt; comment_is(rt.alloc(), length), Some(outcome));
    }
}

/// A line with this many copies of a piece at its end.
fn line_of(alloc: Global, start: &[u8], piece: &[u8], count: usize) -> Result<Bytes, NoMemory> {
    let mut text = Bytes::new(alloc);
    text.extend(start)?;
    for _ in 0..count {
        text.extend(piece)?;
    }
    Ok(text)
}

fn line_is(
    alloc: Global,
    start: &[u8],
    piece: &[u8],
    count: usize,
) -> Option<Result<usize, ScriptFault>> {
    match line_of(alloc, start, piece, count) {
        Ok(text) => Some(lines_in(alloc, text.as_slice())),
        Err(_) => None,
    }
}

#[test]
fn an_upload_has_64_parts_at_most(rt: HostRuntime) {
    for (count, outcome) in [(64, Ok(1)), (65, Err(ScriptFault::Word(1)))] {
        let found = line_is(rt.alloc(), b"upload HW1 L", b" ABC41-0000-0001", count);
        assert_eq!(rt; found, Some(outcome));
    }
}

#[test]
fn a_datagram_has_65468_bytes_at_most(rt: HostRuntime) {
    for (count, outcome) in [(65468, Ok(1)), (65469, Err(ScriptFault::Hex(1)))] {
        let found = line_is(rt.alloc(), b"inject loader 59 1024 ", b"5a", count);
        assert_eq!(rt; found, Some(outcome));
    }
}

/// What a script gives first.
fn first_of(alloc: Global, script: &[u8]) -> Option<Happening> {
    let script = Script::read(alloc, script).ok()?;
    let mut link = ScriptLink::new(alloc, script);
    let happening = link.next(false, false).ok();
    drop(link);
    happening
}

fn injects(alloc: Global, script: &[u8], side: Side, ports: (u16, u16), bytes: &[u8]) -> bool {
    let first = first_of(alloc, script);
    let injects = match &first {
        Some(Happening::Injected(found)) => {
            (found.from_side, found.from, found.to) == (side, ports.0, ports.1)
                && found.bytes.as_slice() == bytes
        }
        _ => false,
    };
    drop(first);
    injects
}

const INJECTED: [(&[u8], Side, (u16, u16), &[u8]); 3] = [
    (
        b"inject target 40000 59 00014857315f4c2e4c5549006f6374657400",
        Side::Loader,
        (40000, 59),
        b"\0\x01HW1_L.LUI\0octet\0",
    ),
    (
        b"inject loader 40000 1024 0005000300",
        Side::Target,
        (40000, 1024),
        b"\0\x05\0\x03\0",
    ),
    (
        b"inject loader 0 65535 fF",
        Side::Target,
        (0, 65535),
        b"\xff",
    ),
];

#[test]
fn datagrams_are_injected(rt: HostRuntime) {
    for &(script, side, ports, bytes) in &INJECTED {
        assert_eq!(rt; injects(rt.alloc(), script, side, ports, bytes), true);
    }
}

/// What is told of an upload: its hardware, its position and its parts, with a space between two.
fn uploaded(alloc: Global, script: &[u8]) -> Result<Bytes, NoMemory> {
    let mut told = Bytes::new(alloc);
    let first = first_of(alloc, script);
    let put = put_upload(&mut told, &first);
    drop(first);
    put?;
    Ok(told)
}

fn put_upload(told: &mut Bytes, first: &Option<Happening>) -> Result<(), NoMemory> {
    if let Some(Happening::StartUpload { hw, pos, parts }) = first {
        told.extend(hw.as_slice())?;
        told.extend(b" ")?;
        told.extend(pos.as_slice())?;
        for part in parts.as_slice() {
            told.extend(b" ")?;
            told.extend(part.as_slice())?;
        }
    }
    Ok(())
}

fn uploads(alloc: Global, script: &[u8], told: &[u8]) -> bool {
    match uploaded(alloc, script) {
        Ok(found) => found.as_slice() == told,
        Err(_) => false,
    }
}

const UPLOADS: [(&[u8], &[u8]); 2] = [
    (
        b"upload HW1 L ABC41-0000-0001\nfinish",
        b"HW1 L ABC41-0000-0001",
    ),
    (
        b"upload FMC-1 R ABC42-0000-0002 ABC41-0000-0001 ABC42-0000-0002",
        b"FMC-1 R ABC42-0000-0002 ABC41-0000-0001 ABC42-0000-0002",
    ),
];

#[test]
fn uploads_are_started(rt: HostRuntime) {
    for &(script, told) in &UPLOADS {
        assert_eq!(rt; uploads(rt.alloc(), script, told), true);
    }
}

fn sizes(alloc: Global, script: &[u8]) -> Option<Option<u16>> {
    let first = first_of(alloc, script);
    let size = match &first {
        Some(Happening::BlockSize(size)) => Some(*size),
        _ => None,
    };
    drop(first);
    size
}

const SIZES: [(&[u8], Option<u16>); 3] = [
    (b"blksize 0", None),
    (b"blksize 8", Some(8)),
    (b"blksize 65464", Some(65464)),
];

#[test]
fn block_sizes_are_told(rt: HostRuntime) {
    for &(script, size) in &SIZES {
        assert_eq!(rt; sizes(rt.alloc(), script), Some(size));
    }
}

fn loses_power(alloc: Global, script: &[u8]) -> Option<(u32, u32)> {
    let first = first_of(alloc, script);
    let numbers = match &first {
        Some(Happening::Power { calls, pick }) => Some((*calls, *pick)),
        _ => None,
    };
    drop(first);
    numbers
}

const LOSSES: [(&[u8], (u32, u32)); 2] = [
    (b"power 0 3", (0, 3)),
    (b"power 4294967295 0", (4294967295, 0)),
];

#[test]
fn power_is_lost(rt: HostRuntime) {
    for &(script, numbers) in &LOSSES {
        assert_eq!(rt; loses_power(rt.alloc(), script), Some(numbers));
    }
}

/// What a link is asked, a letter each: `l` and `t`, the loader or the target posts a datagram;
/// `n`, `L`, `T` and `B`, what happens next, where no side waits, the loader, the target or both.
fn asked<L: Link>(alloc: Global, link: &mut L, asked: &[u8]) -> Result<Bytes, LinkFault> {
    let mut given = Bytes::new(alloc);
    for letter in asked {
        match *letter {
            b'l' => link.post(datagram(alloc, Side::Loader))?,
            b't' => link.post(datagram(alloc, Side::Target))?,
            letter => {
                if given.extend(&next(link, letter)?).is_err() {
                    return Err(LinkFault::Memory);
                }
            }
        }
    }
    Ok(given)
}

fn next<L: Link>(link: &mut L, letter: u8) -> Result<[u8; 2], LinkFault> {
    let loader_waits = letter == b'L' || letter == b'B';
    let target_waits = letter == b'T' || letter == b'B';
    let happening = link.next(loader_waits, target_waits)?;
    let shown = shown(&happening);
    drop(happening);
    Ok(shown)
}

fn datagram(alloc: Global, from_side: Side) -> Datagram {
    Datagram {
        from_side,
        from: 1024,
        to: 59,
        bytes: Bytes::new(alloc),
    }
}

/// A happening as two characters: `l` or `t` and the number of the datagram that goes there, `x`
/// and that of one that is lost, `tl` and `tt` for ticks; `si` and `su` start sessions, `in`
/// injects a datagram, `bs` tells a block size, `pw` loses power and `bt` boots.
fn shown(happening: &Happening) -> [u8; 2] {
    match happening {
        Happening::ToLoader(number) => [b'l', digit(*number)],
        Happening::ToTarget(number) => [b't', digit(*number)],
        Happening::Lost(number) => [b'x', digit(*number)],
        Happening::TickLoader => *b"tl",
        Happening::TickTarget => *b"tt",
        Happening::StartInfo { .. } => *b"si",
        Happening::StartUpload { .. } => *b"su",
        Happening::Injected(_) => *b"in",
        Happening::BlockSize(_) => *b"bs",
        Happening::Power { .. } => *b"pw",
        Happening::Boot => *b"bt",
        Happening::End => *b"..",
    }
}

/// A digit; after 9 come `:` and `;`.
fn digit(number: u64) -> u8 {
    match u8::try_from(number) {
        Ok(number) => number.saturating_add(b'0'),
        Err(_) => b'?',
    }
}

fn followed_is(alloc: Global, script: &[u8], steps: &[u8], given: &[u8]) -> bool {
    let Some(script) = Script::read(alloc, script).ok() else {
        return false;
    };
    let mut link = ScriptLink::new(alloc, script);
    let found = asked(alloc, &mut link, steps);
    drop(link);
    match found {
        Ok(found) => found.as_slice() == given,
        Err(_) => false,
    }
}

const FOLLOWED: [(&[u8], &[u8], &[u8]); 14] = [
    // An information session without a fault: 11 datagrams, each delivered once.
    (
        b"info HW1 L\nfinish\n",
        b"BlBtBlBtBlBtBlBtBlBtBlBn",
        b"sit1l2t3l4t5l6t7l8t9l:t;..",
    ),
    // A datagram is delivered a second time, after it was lost too, but not lost once it was
    // delivered.
    (
        b"lose 1\ngive 1\ngive 1\nlose 1\ngive 2\n",
        b"lnnnnn",
        b"x1t1t1....",
    ),
    (b"lose 1\nlose 1\nfinish\n", b"lnnn", b"x1x1.."),
    // The least numbers first, those too that are posted on the way.
    (b"give 2\nnext 5\n", b"ltlnnnn", b"l2t1t3.."),
    (b"next 2\nnext 1\n", b"lntnnn", b"t1l2...."),
    (b"next 3\n", b"ltlltnnnn", b"t1l2t3.."),
    // Both sides are ticked in turn, the loader first.
    (b"finish\n", b"BBBn", b"tltttl.."),
    (b"finish\n", b"TBBn", b"tttltt.."),
    (b"finish\n", b"LLLn", b"tltltl.."),
    (b"finish\n", b"BlBBn", b"tlt1tt.."),
    (b"finish\ntick target\nfinish\n", b"BnBn", b"tltttl.."),
    (b"tick loader\n\n# late\ntick target", b"nnnn", b"tltt...."),
    // What a line says by itself, between what depends on the datagrams; an injected datagram
    // has no number.
    (
        b"blksize 512\nupload HW1 L ABC41-0000-0001\nnext 1\ninject target 40000 59 00\nfinish\n",
        b"nlnnntnn",
        b"bssut1inl2..",
    ),
    (
        b"power 0 3\ninfo HW1 L\nnext 1\nboot\nfinish\n",
        b"nnlnntnn",
        b"pwsit1btl2..",
    ),
];

#[test]
fn scripts_are_followed(rt: HostRuntime) {
    for &(script, steps, given) in &FOLLOWED {
        assert_eq!(rt; followed_is(rt.alloc(), script, steps, given), true);
    }
}

/// A link that fails at these two calls.
fn failing(alloc: Global, script: &[u8], calls: (u32, u32)) -> Option<FailLink> {
    let script = Script::read(alloc, script).ok()?;
    let mut link = FailLink::new(alloc, ScriptLink::new(alloc, script));
    if link.fail_at(calls.0).is_err() || link.fail_at(calls.1).is_err() {
        drop(link);
        return None;
    }
    Some(link)
}

fn is_answered(alloc: Global, link: &mut FailLink, steps: &[u8]) -> bool {
    let given = asked(alloc, link, steps);
    let is_answered = given.is_ok();
    drop(given);
    is_answered
}

fn gives(alloc: Global, link: &mut FailLink, steps: &[u8], wanted: &[u8]) -> bool {
    match asked(alloc, link, steps).ok() {
        Some(given) => given.as_slice() == wanted,
        None => false,
    }
}

/// Whether a second post fails, and then a first turn.
fn fails_twice(alloc: Global, link: &mut FailLink) -> bool {
    !is_answered(alloc, link, b"ll")
        && is_answered(alloc, link, b"l")
        && !is_answered(alloc, link, b"n")
        && gives(alloc, link, b"nn", b"t1tl")
}

#[test]
fn a_call_that_fails_changes_nothing(rt: HostRuntime) {
    let mut link = failing(rt.alloc(), b"next 1\ntick loader\n", (2, 4)).expect(&rt, "memory");
    let fails_twice = fails_twice(rt.alloc(), &mut link);
    drop(link);
    assert!(rt; fails_twice);
}
