//! How cases are read, line by line.
use crate::case::{Case, Command, Range, Side, Turns, UNITS};
use disk_model::SIZE;
use load_base::{Bytes, NoMemory};
use percent_encoding::percent_decode;
use std::alloc::{AllocError, AllocFailed, Global};

/// Why a line isn't read.
#[derive(Clone, Copy)]
pub(crate) enum Refusal {
    /// Out of memory.
    Memory,
    /// The first word is none of those that begin a line.
    Word,
    /// No case was begun before it.
    NoCase,
    /// No earlier case has this name.
    Unknown,
    /// Nothing was named that takes bytes.
    NoPlace,
    /// A number that is none, or that is too large.
    Number,
    /// Bytes that aren't in hexadecimal.
    Hexadecimal,
    /// A word that isn't text.
    Text,
    /// Bytes past the end of the disk.
    PastEnd,
}

impl Refusal {
    /// What is printed of it.
    pub(crate) fn text(self) -> &'static str {
        match self {
            Refusal::Memory => "out of memory",
            Refusal::Word => "no line begins with this word",
            Refusal::NoCase => "no case was begun",
            Refusal::Unknown => "no earlier case has this name",
            Refusal::NoPlace => "nothing was named that takes bytes",
            Refusal::Number => "not a number of this line",
            Refusal::Hexadecimal => "not in hexadecimal",
            Refusal::Text => "not a text",
            Refusal::PastEnd => "past the end of the disk",
        }
    }
}

impl From<NoMemory> for Refusal {
    fn from(_: NoMemory) -> Refusal {
        Refusal::Memory
    }
}

impl From<AllocError> for Refusal {
    fn from(_: AllocError) -> Refusal {
        Refusal::Memory
    }
}

impl<T: Drop> From<AllocFailed<T>> for Refusal {
    fn from(_: AllocFailed<T>) -> Refusal {
        Refusal::Memory
    }
}

/// What takes the bytes of the lines that come next.
#[derive(Clone, Copy)]
pub(crate) enum Place {
    Nowhere,
    File,
    Known,
    /// The disk of the unit at this place, from this offset on.
    Disk { unit: usize, at: usize },
}

/// Bytes that are filled in at once.
const PIECE: usize = 4096;

/// Takes what one line says.
pub(crate) fn take_line(
    alloc: Global,
    cases: &mut Vec<Case>,
    place: &mut Place,
    line: &str,
) -> Result<(), Refusal> {
    if line.is_empty() || line.starts_with('#') {
        return Ok(());
    }
    if let Some(text) = line.strip_prefix('|') {
        add(cases, place, text.as_bytes())?;
        return add(cases, place, b"\n");
    }
    if let Some(text) = line.strip_prefix('+') {
        return add(cases, place, text.as_bytes());
    }
    let (word, rest) = match line.split_once(' ') {
        Some(parts) => parts,
        None => (line, ""),
    };
    match word.as_bytes() {
        b"case" => {
            *place = Place::Nowhere;
            cases.push(Case::new(alloc, rest)?)?;
            Ok(())
        }
        b"from" => begin_as(alloc, cases, rest),
        b"hex" => add_hex(alloc, cases, place, rest),
        b"fill" => fill(cases, place, rest),
        b"times" => repeat(cases, place, rest),
        word => match cases.last_mut() {
            Some(case) => take_word(alloc, case, place, word, rest),
            None => Err(Refusal::NoCase),
        },
    }
}

/// Takes what a line says of the case that was begun last.
fn take_word(
    alloc: Global,
    case: &mut Case,
    place: &mut Place,
    word: &[u8],
    rest: &str,
) -> Result<(), Refusal> {
    match word {
        b"file" => {
            *place = Place::File;
            case.add_file(alloc, rest, b"")?;
        }
        b"unit" => case.unit = unit_of(rest)?,
        b"disk" => {
            let at = number(rest)? as usize;
            *place = Place::Disk {
                unit: case.unit,
                at,
            };
        }
        b"is" => {
            *place = Place::Known;
            case.add_known(alloc, rest, true, b"")?;
        }
        b"ends" => {
            *place = Place::Known;
            case.add_known(alloc, rest, false, b"")?;
        }
        b"run" => case.commands.push(Command {
            line: String::from_str(alloc, rest)?,
            words: words_of(alloc, rest)?,
        })?,
        b"tell" => case.told.push(String::from_str(alloc, rest)?)?,
        b"range" => {
            let (at, count) = two_numbers(rest)?;
            case.ranges.push(Range {
                unit: case.unit,
                at,
                count,
            })?;
        }
        b"fail" => return fail(case, rest),
        b"each" => return each(alloc, case, rest),
        _ => return Err(Refusal::Word),
    }
    Ok(())
}

/// The case that was begun last begins as an earlier one does.
fn begin_as(alloc: Global, cases: &mut Vec<Case>, name: &str) -> Result<(), Refusal> {
    let Some((case, earlier)) = cases.split_last_mut() else {
        return Err(Refusal::NoCase);
    };
    for other in &*earlier {
        if other.name.as_str() == name {
            case.begin_as(alloc, other)?;
            return Ok(());
        }
    }
    Err(Refusal::Unknown)
}

/// Adds bytes to what was named last.
fn add(cases: &mut Vec<Case>, place: &mut Place, bytes: &[u8]) -> Result<(), Refusal> {
    let Some(case) = cases.last_mut() else {
        return Err(Refusal::NoCase);
    };
    match *place {
        Place::Nowhere => Err(Refusal::NoPlace),
        Place::File => match case.files.last_mut() {
            Some(file) => extend(&mut file.bytes, bytes),
            None => Err(Refusal::NoPlace),
        },
        Place::Known => match case.known.last_mut() {
            Some(known) => extend(&mut known.text, bytes),
            None => Err(Refusal::NoPlace),
        },
        Place::Disk { unit, at } => {
            let end = end_of(at, bytes.len())?;
            match case.disks.get_mut(unit) {
                Some(disk) => paste(disk, at, end, bytes)?,
                None => return Err(Refusal::NoPlace),
            }
            *place = Place::Disk { unit, at: end };
            Ok(())
        }
    }
}

fn extend(to: &mut Bytes, bytes: &[u8]) -> Result<(), Refusal> {
    to.extend(bytes)?;
    Ok(())
}

/// Where bytes from an offset of the disk on end.
fn end_of(at: usize, count: usize) -> Result<usize, Refusal> {
    match at.checked_add(count) {
        Some(end) if end <= SIZE as usize => Ok(end),
        _ => Err(Refusal::PastEnd),
    }
}

/// Puts bytes from an offset up to an end.
fn paste(disk: &mut Vec<u8>, at: usize, end: usize, bytes: &[u8]) -> Result<(), Refusal> {
    if disk.len() < end {
        disk.resize(end, 0)?;
    }
    if at > end || end > disk.len() || end - at != bytes.len() {
        return Err(Refusal::PastEnd);
    }
    disk[at..end].copy_from_slice(bytes);
    Ok(())
}

fn add_hex(
    alloc: Global,
    cases: &mut Vec<Case>,
    place: &mut Place,
    digits: &str,
) -> Result<(), Refusal> {
    let Ok(bytes) = hex::decode(alloc, digits) else {
        return Err(Refusal::Hexadecimal);
    };
    add(cases, place, &bytes)
}

/// Adds a byte as often as the line says.
fn fill(cases: &mut Vec<Case>, place: &mut Place, text: &str) -> Result<(), Refusal> {
    let (count, value) = two_numbers(text)?;
    let Ok(value) = u8::try_from(value) else {
        return Err(Refusal::Number);
    };
    let piece = [value; PIECE];
    for _ in 0..count / PIECE as u32 {
        add(cases, place, &piece)?;
    }
    for _ in 0..count % PIECE as u32 {
        add(cases, place, &[value])?;
    }
    Ok(())
}

/// Adds a line of text as often as the line says.
fn repeat(cases: &mut Vec<Case>, place: &mut Place, text: &str) -> Result<(), Refusal> {
    let Some((count, line)) = text.split_once(' ') else {
        return Err(Refusal::Number);
    };
    for _ in 0..number(count)? {
        add(cases, place, line.as_bytes())?;
        add(cases, place, b"\n")?;
    }
    Ok(())
}

/// The place of the unit of this number, from 0.
fn unit_of(text: &str) -> Result<usize, Refusal> {
    match number(text)? as usize {
        number if 1 <= number && number <= UNITS => Ok(number - 1),
        _ => Err(Refusal::Number),
    }
}

/// One call of the host, the sink or the disk fails, or loses power.
fn fail(case: &mut Case, text: &str) -> Result<(), Refusal> {
    let (side, rest) = side_in(text)?;
    case.failing.unit = case.unit;
    match side {
        Side::Host => case.failing.host = number(rest)?,
        Side::Sink => case.failing.sink = number(rest)?,
        Side::Disk => case.failing.disk = number(rest)?,
        Side::Power => {
            let (call, pick) = two_numbers(rest)?;
            case.failing.power = call;
            case.failing.pick = pick;
        }
        Side::Script => return Err(Refusal::Word),
    }
    Ok(())
}

/// Each of the first calls fails in turn.
fn each(alloc: Global, case: &mut Case, text: &str) -> Result<(), Refusal> {
    let (side, rest) = side_in(text)?;
    case.failing.unit = case.unit;
    let count = match side {
        Side::Host | Side::Sink | Side::Disk => number(rest)?,
        Side::Power => {
            let (count, pick) = two_numbers(rest)?;
            case.failing.pick = pick;
            count
        }
        Side::Script => {
            let Some((numbers, name)) = rest.rsplit_once(' ') else {
                return Err(Refusal::Number);
            };
            let (count, pick) = two_numbers(numbers)?;
            case.script = String::from_str(alloc, name)?;
            case.failing.pick = pick;
            count
        }
    };
    case.turns = Some(Turns { side, count });
    Ok(())
}

/// Whose calls a line names, and what comes after that.
fn side_in(text: &str) -> Result<(Side, &str), Refusal> {
    let Some((word, rest)) = text.split_once(' ') else {
        return Err(Refusal::Number);
    };
    match word.as_bytes() {
        b"host" => Ok((Side::Host, rest)),
        b"sink" => Ok((Side::Sink, rest)),
        b"disk" => Ok((Side::Disk, rest)),
        b"power" => Ok((Side::Power, rest)),
        b"script" => Ok((Side::Script, rest)),
        _ => Err(Refusal::Word),
    }
}

fn number(text: &str) -> Result<u32, Refusal> {
    match text.parse::<u32>() {
        Ok(number) => Ok(number),
        Err(_) => Err(Refusal::Number),
    }
}

fn two_numbers(text: &str) -> Result<(u32, u32), Refusal> {
    let Some((one, other)) = text.split_once(' ') else {
        return Err(Refusal::Number);
    };
    Ok((number(one)?, number(other)?))
}

/// The words of a run. A line without any has none.
fn words_of(alloc: Global, text: &str) -> Result<Vec<String>, Refusal> {
    let mut words = Vec::new(alloc);
    if text.is_empty() {
        return Ok(words);
    }
    for word in text.split(' ') {
        words.push(word_of(alloc, word)?)?;
    }
    Ok(words)
}

/// One word, where `%` is the empty one.
fn word_of(alloc: Global, word: &str) -> Result<String, Refusal> {
    if word == "%" {
        return Ok(String::new(alloc));
    }
    match percent_decode(word.as_bytes()).decode_utf8(alloc) {
        Ok(text) => Ok(text.into_owned(alloc)?),
        Err(_) => Err(Refusal::Text),
    }
}
