//! What each proper prefix of a file is refused with.
use super::protocol_files::{FIRST_LUS, LAST_LUS, LUR};
use load_base::NoMemory;
use shown_files::{Shown, ShownKind, show};
use std::alloc::{AllocError, Global};
use worked_files::{APP_FILES, APP_HEADER, APP_LOADS};

/// The kind of each file, its bytes, the letter of its faults, and the length that its first four
/// bytes say.
const FILES: [(ShownKind, &[u8], char, u32); 6] = [
    (ShownKind::Header, &APP_HEADER, 'H', 61),
    (ShownKind::LoadsList, &APP_LOADS, 'L', 43),
    (ShownKind::FilesList, &APP_FILES, 'L', 43),
    (ShownKind::Lur, &LUR, 'U', 32),
    (ShownKind::Lus, &FIRST_LUS, 'U', 20),
    (ShownKind::Lus, &LAST_LUS, 'U', 50),
];

/// The text of the fault of a prefix of so many bytes.
fn fault_of(alloc: Global, letter: char, said: u32, size: usize) -> Result<String, AllocError> {
    if size < 4 {
        format!(in alloc; "{letter}1 0")
    } else {
        format!(in alloc; "{letter}2 {said} {size}")
    }
}

fn is_fault(shown: &Shown, text: &[u8]) -> bool {
    match shown {
        Shown::Fault(fault) => fault.as_slice() == text,
        Shown::Fields(_) => false,
    }
}

/// Whether these bytes are refused with this fault.
fn is_refused(
    alloc: Global,
    kind: ShownKind,
    bytes: &[u8],
    fault: &[u8],
) -> Result<bool, NoMemory> {
    let shown = show(alloc, kind, bytes)?;
    let same = is_fault(&shown, fault);
    drop(shown);
    Ok(same)
}

/// The first N bytes.
fn prefix(bytes: &[u8], size: usize) -> &[u8] {
    if size <= bytes.len() {
        &bytes[..size]
    } else {
        bytes
    }
}

/// The size of the first proper prefix that isn't refused so, or that of the whole.
fn first_other(
    alloc: Global,
    kind: ShownKind,
    bytes: &[u8],
    letter: char,
    said: u32,
) -> Result<usize, NoMemory> {
    for size in 0..bytes.len() {
        let fault = fault_of(alloc, letter, said, size)?;
        let refused = is_refused(alloc, kind, prefix(bytes, size), fault.as_bytes());
        drop(fault);
        if !refused? {
            return Ok(size);
        }
    }
    Ok(bytes.len())
}

#[test]
fn each_proper_prefix_is_refused_for_its_length(rt: HostRuntime) -> Result<(), NoMemory> {
    let mut prefixes = 0usize;
    for &(kind, bytes, letter, said) in &FILES {
        let refused = first_other(rt.alloc(), kind, bytes, letter, said)?;
        assert_eq!(rt; refused, bytes.len(), "{letter}2 {said}");
        prefixes = prefixes.saturating_add(refused);
    }
    assert_eq!(rt; prefixes, 396);
    Ok(())
}
