//! What bytes are refused with, each byte changed and each list from outside of this project.
use super::list_vectors::{DEEP_FILE, EIGHT_FILES, THREE_LOADS};
use crc_fields::crc16;
use load_base::{Bytes, NoMemory, Text};
use media_lists::{FilesList, ListFault, LoadsList, files_list_laws, loads_list_laws, path_laws};
use printed_text::Printed;
use std::alloc::Global;
use worked_files::{APP_FILES, APP_LOADS};

/// What these bytes are refused with as a list of files, or nothing.
fn files_outcome(alloc: Global, bytes: &[u8]) -> Result<Text, NoMemory> {
    match FilesList::decode(alloc, bytes).err() {
        Some(fault) => fault.text(alloc),
        None => Ok(Text::empty(alloc)),
    }
}

/// What these bytes are refused with as a list of loads, or nothing.
fn loads_outcome(alloc: Global, bytes: &[u8]) -> Result<Text, NoMemory> {
    match LoadsList::decode(alloc, bytes).err() {
        Some(fault) => fault.text(alloc),
        None => Ok(Text::empty(alloc)),
    }
}

/// Puts a byte at an offset, and perhaps makes the check sum right again.
pub(super) fn change(bytes: &mut [u8], offset: usize, byte: u8, mended: bool) {
    if offset < bytes.len() {
        bytes[offset] = byte;
    }
    if mended {
        mend(bytes);
    }
}

/// Makes the check sum of a list right.
fn mend(bytes: &mut [u8]) {
    if bytes.len() >= 2 {
        let end = bytes.len() - 2;
        let sum = crc16(&bytes[..end]).to_be_bytes();
        bytes[end..].copy_from_slice(&sum);
    }
}

#[test]
fn the_formats_keep_their_laws() {
    files_list_laws();
    loads_list_laws();
    path_laws();
}

/// What a list of files is refused with where a byte is put at an offset, and perhaps the check sum
/// made right again; a line for each such change.
fn files_refusals(alloc: Global, changes: &[(usize, u8, bool)]) -> Result<Bytes, NoMemory> {
    let mut text = Bytes::new(alloc);
    for (offset, byte, mended) in changes {
        let mut bytes = EIGHT_FILES;
        change(&mut bytes, *offset, *byte, *mended);
        text.extend(files_outcome(alloc, &bytes)?.as_slice())?;
        text.extend(b"\n")?;
    }
    Ok(text)
}

const FILES_CHANGES: [(usize, u8, bool); 50] = [
    (0, 0x01, false),
    (3, 0xFF, true),
    (4, 0x00, false),
    (5, 0xFF, true),
    (6, 0x01, false),
    (7, 0xFF, true),
    (11, 0x0B, false),
    (12, 0x01, false),
    (16, 0x01, true),
    (20, 0x01, false),
    (21, 0x00, false),
    (21, 0x20, true),
    (22, 0x00, false),
    (22, 0x59, false),
    (27, 0x00, false),
    (32, 0xFF, true),
    (36, 0x32, true),
    (36, 0xFF, true),
    (37, 0x01, false),
    (38, 0x00, false),
    (38, 0x02, false),
    (38, 0x02, true),
    (40, 0x01, false),
    (40, 0x20, false),
    (40, 0xFF, true),
    (41, 0x00, true),
    (45, 0x00, false),
    (45, 0x08, false),
    (55, 0x00, false),
    (69, 0x32, false),
    (82, 0x20, false),
    (96, 0x20, false),
    (97, 0xFF, true),
    (98, 0xFF, false),
    (111, 0xFF, false),
    (123, 0xF5, true),
    (124, 0xFF, false),
    (131, 0x56, true),
    (153, 0xFF, false),
    (155, 0x02, true),
    (158, 0x20, true),
    (183, 0xFF, true),
    (185, 0x00, true),
    (192, 0xFF, true),
    (196, 0xFF, true),
    (197, 0xFF, true),
    (199, 0xFF, true),
    (203, 0xFF, true),
    (205, 0xFF, false),
    (205, 0xFF, true),
];

#[test]
fn each_changed_byte_of_the_files_has_its_refusal(rt: HostRuntime) -> Result<(), NoMemory> {
    let refusals = files_refusals(rt.alloc(), &FILES_CHANGES)?;
    let wanted = b"L2 16777319 206
L2 255 206
L3 4
L3 41215
L4 256
L4 255
L5 1 11 10
L5 2 16777236 20
L5 3 16777317 101
L1 22
L7 22 P1 0
L7 22 P1 32
L7 22 P3 0
L7 22 P4 90 91
L7 22 P2 5
L7 22 P2 10
L7 22 P4 90 89
L7 22 P3 14
L6 37
L9 38
L13 28595 10237

L8 8
L11
L11
L5 3 101 21
L7 46 N1
L7 46 N3 7
L7 56 Q1 0
L10 3
L8 3
L7 96 Q1 0
L6 97
L9 98
L7 106 N3 5
L8 5
L1 126

L6 153
L7 156 Q1 1
L9 158
L8 8
L7 186 N1
L7 186 N3 6
L7 196 Q1 0
L6 197
L9 198
L1 204
L13 28671 28595

";
    assert_eq!(rt; refusals.as_slice(), wanted.as_slice());
    Ok(())
}

/// The same of the list of loads.
fn loads_refusals(alloc: Global, changes: &[(usize, u8, bool)]) -> Result<Bytes, NoMemory> {
    let mut text = Bytes::new(alloc);
    for (offset, byte, mended) in changes {
        let mut bytes = THREE_LOADS;
        change(&mut bytes, *offset, *byte, *mended);
        text.extend(loads_outcome(alloc, &bytes)?.as_slice())?;
        text.extend(b"\n")?;
    }
    Ok(text)
}

const LOADS_CHANGES: [(usize, u8, bool); 50] = [
    (0, 0x01, false),
    (3, 0xFF, true),
    (4, 0x00, false),
    (5, 0xFF, true),
    (6, 0x01, false),
    (7, 0xFF, true),
    (8, 0x01, false),
    (12, 0x20, false),
    (16, 0xFF, true),
    (20, 0x01, false),
    (21, 0x00, false),
    (22, 0x00, false),
    (22, 0x59, false),
    (27, 0x00, false),
    (37, 0x01, false),
    (38, 0x00, false),
    (38, 0x01, false),
    (38, 0x01, true),
    (40, 0x01, false),
    (40, 0x20, false),
    (43, 0x16, true),
    (63, 0x00, false),
    (63, 0x08, false),
    (73, 0x00, false),
    (74, 0x01, false),
    (74, 0x20, true),
    (83, 0x20, false),
    (85, 0x20, false),
    (88, 0x42, false),
    (115, 0x20, true),
    (116, 0xFF, false),
    (118, 0x20, false),
    (121, 0x00, false),
    (121, 0x4E, true),
    (125, 0x20, true),
    (127, 0xFF, true),
    (129, 0x20, true),
    (140, 0xFF, true),
    (144, 0x34, true),
    (144, 0xFF, true),
    (147, 0x00, true),
    (154, 0xFF, true),
    (157, 0xFF, true),
    (158, 0xFF, true),
    (161, 0x00, true),
    (166, 0xFF, true),
    (167, 0xFF, true),
    (169, 0xFF, true),
    (171, 0xFF, false),
    (171, 0xFF, true),
];

#[test]
fn each_changed_byte_of_the_loads_has_its_refusal(rt: HostRuntime) -> Result<(), NoMemory> {
    let refusals = loads_refusals(rt.alloc(), &LOADS_CHANGES)?;
    let wanted = b"L2 16777302 172
L2 255 172
L3 4
L3 37119
L4 256
L4 255
L5 1 16777226 10
L5 2 536870932 20
L5 3 4278190164 84
L1 22
L7 22 P1 0
L7 22 P3 0
L7 22 P4 90 91
L7 22 P2 5
L6 37
L9 38
L13 27136 45667

L8 3
L11
L8 1
L7 64 N1
L7 64 N3 7
L9 72
L7 86 X2 0
L11
L6 83
L8 2
L7 88 P4 66 65
L9 114
L11
L1 120
L7 120 X2 1

L6 125
L8 3
L7 130 P1 32
L7 130 P2 10
L7 130 P4 67 68
L7 130 P3 14
L7 148 N1
L7 148 N3 6
L9 156
L11
L5 3 84 81
L7 162 X2 4
L6 167
L1 170
L13 27391 27136

";
    assert_eq!(rt; refusals.as_slice(), wanted.as_slice());
    Ok(())
}

/// A name twice, with a wrong distance and with a right one.
#[test]
fn a_name_may_not_stand_twice(rt: HostRuntime) -> Result<(), NoMemory> {
    let mut files = APP_FILES;
    files[63] = 9;
    files[66..73].copy_from_slice(b"APP.LUH");
    let mut loads = THREE_LOADS;
    loads[148..151].copy_from_slice(b"NAV");
    let farther = files_outcome(rt.alloc(), &files)?;
    let twice = loads_outcome(rt.alloc(), &loads)?;
    assert_eq!(rt; farther.as_slice(), b"L8 2".as_slice());
    assert_eq!(rt; twice.as_slice(), b"L10 3".as_slice());
    Ok(())
}

/// Each path of a list with one file, whose check sum is right, and what the list is refused with.
const PATHS: [(&[u8; 6], &[u8]); 7] = [
    (b"\\A\\BC\\", b""),
    (b"\\A\\BCD", b"L7 54 Q1 6"),
    (b"\\A\\\\C\\", b"L7 54 Q1 3"),
    (b"\\A\\.C\\", b"L7 54 Q1 3"),
    (b"\\A/BC\\", b"L7 54 Q1 2"),
    (b"A\\BCD\\", b"L7 54 Q1 0"),
    (b"\\A.BC\\", b""),
];

#[test]
fn each_path_has_its_refusal(rt: HostRuntime) -> Result<(), NoMemory> {
    for &(path, text) in &PATHS {
        let mut bytes = DEEP_FILE;
        bytes[54..60].copy_from_slice(path);
        mend(&mut bytes);
        assert_eq!(rt; files_outcome(rt.alloc(), &bytes)?.as_slice(), text);
    }
    Ok(())
}

#[test]
fn lengths_are_tested_first_and_the_rest_before_the_check_sum(
    rt: HostRuntime,
) -> Result<(), NoMemory> {
    let mut longer = [0; 88];
    longer[..86].copy_from_slice(&APP_LOADS);
    longer[3] = 44;
    let mut many = APP_LOADS;
    many[74] = 4;
    many[75] = 1;
    for (bytes, text) in [
        (APP_FILES.as_slice(), &b"L3 40964"[..]),
        (&longer, b"L12 86"),
        (&many, b"L11"),
    ] {
        assert_eq!(rt; loads_outcome(rt.alloc(), bytes)?.as_slice(), text);
    }
    Ok(())
}
