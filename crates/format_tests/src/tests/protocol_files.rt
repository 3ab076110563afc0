//! The files of docs/FORMATS.md, and files with one byte changed.

use load_base::{Bytes, NoMemory, Text};
use load_protocol_files::{FileFault, Lci, Lcl, Lcs, Lui, Lur, Lus, protocol_file_laws};
use printed_text::Printed;
use std::alloc::Global;

const LUI: [u8; 9] = *b"\x00\x00\x00\x09\x41\x33\x00\x01\x00";

const LCS: [u8; 15] = *b"\x00\x00\x00\x0f\x41\x33\x00\x01\x00\x02\x00\x00\x00\x00\x00";

pub(crate) const LUR: [u8; 32] = *b"\x00\x00\x00\x20\x41\x33\x00\x01\x07APP.LUH\x0fABC41-0000-0001";

pub(crate) const FIRST_LUS: [u8; 20] =
    *b"\x00\x00\x00\x14\x41\x33\x00\x01\x00\x00\x01\x00\x00\x00\x00\x30\x30\x30\x00\x00";

pub(crate) const LAST_LUS: [u8; 50] =
    *b"\x00\x00\x00\x32\x41\x33\x00\x03\x00\x00\x02\x00\x00\x00\x00\x31\x30\x30\x00\x01\x07APP.LUH\x0fABC41-0000-0001\x31\x30\x30\x00\x03\x00";

const LCL: [u8; 47] =
    *b"\x00\x00\x00\x2f\x41\x33\x00\x01\x03HW1\x03SN1\x00\x01\x0fABC41-0000-0001\x00\x0bAPP.LUH-123";

/// What is read is written again; what the fields of each are stands in the tests of what is shown.
#[test]
fn files_are_written_as_they_were_read(rt: HostRuntime) -> Result<(), FileFault> {
    let alloc = rt.alloc();
    let mut same = lui_again(alloc, &LUI)?.as_slice() == LUI.as_slice();
    same = same && lci_again(alloc, &LUI)?.as_slice() == LUI.as_slice();
    same = same && lcs_again(alloc, &LCS)?.as_slice() == LCS.as_slice();
    same = same && lur_again(alloc, &LUR)?.as_slice() == LUR.as_slice();
    same = same && lus_again(alloc, &FIRST_LUS)?.as_slice() == FIRST_LUS.as_slice();
    same = same && lus_again(alloc, &LAST_LUS)?.as_slice() == LAST_LUS.as_slice();
    same = same && lcl_again(alloc, &LCL)?.as_slice() == LCL.as_slice();
    assert!(rt; same);
    protocol_file_laws();
    Ok(())
}

fn lui_again(alloc: Global, bytes: &[u8]) -> Result<Bytes, FileFault> {
    let file = Lui::decode(alloc, bytes)?;
    let again = file.encode(alloc);
    drop(file);
    Ok(again?)
}

fn lci_again(alloc: Global, bytes: &[u8]) -> Result<Bytes, FileFault> {
    let file = Lci::decode(alloc, bytes)?;
    let again = file.encode(alloc);
    drop(file);
    Ok(again?)
}

fn lcs_again(alloc: Global, bytes: &[u8]) -> Result<Bytes, FileFault> {
    let file = Lcs::decode(alloc, bytes)?;
    let again = file.encode(alloc);
    drop(file);
    Ok(again?)
}

fn lur_again(alloc: Global, bytes: &[u8]) -> Result<Bytes, FileFault> {
    let file = Lur::decode(alloc, bytes)?;
    let again = file.encode(alloc);
    drop(file);
    Ok(again?)
}

fn lus_again(alloc: Global, bytes: &[u8]) -> Result<Bytes, FileFault> {
    let file = Lus::decode(alloc, bytes)?;
    let again = file.encode(alloc);
    drop(file);
    Ok(again?)
}

/// The list written again, or no bytes where it doesn't fit.
fn lcl_again(alloc: Global, bytes: &[u8]) -> Result<Bytes, FileFault> {
    let file = Lcl::decode(alloc, bytes)?;
    let again = lcl_written(alloc, &file);
    drop(file);
    Ok(again?)
}

fn lcl_written(alloc: Global, file: &Lcl) -> Result<Bytes, NoMemory> {
    if !file.fits() {
        return Ok(Bytes::new(alloc));
    }
    file.encode(alloc)
}

/// The text of a refusal, and else no bytes.
fn told<T: Drop>(alloc: Global, read: Result<T, FileFault>) -> Result<Text, NoMemory> {
    match read.err() {
        Some(fault) => fault.text(alloc),
        None => Ok(Text::empty(alloc)),
    }
}

#[test]
fn a_length_of_eight_is_told_with_the_nine_bytes(rt: HostRuntime) -> Result<(), NoMemory> {
    let mut bytes = LUI;
    bytes[3] = 8;
    let fault = told(rt.alloc(), Lui::decode(rt.alloc(), &bytes))?;
    assert_eq!(rt; fault.as_slice(), b"U2 8 9".as_slice());
    let cut = told(rt.alloc(), Lcs::decode(rt.alloc(), &LCS[..14]))?;
    assert_eq!(rt; cut.as_slice(), b"U2 15 14".as_slice());
    let none = told(rt.alloc(), Lci::decode(rt.alloc(), &LUI[..2]))?;
    assert_eq!(rt; none.as_slice(), b"U1 0".as_slice());
    Ok(())
}

const REQUESTS: [(usize, u8, &[u8]); 6] = [
    (3, 0x21, b"U2 33 32"),
    (5, 0x34, b"U3 16692"),
    (7, 0x00, b"U5 8"),
    (8, 0xff, b"U1 9"),
    (13, 0x00, b"U6 9 N3 4"),
    (25, 0x20, b"U7 17 P3 8"),
];

#[test]
fn the_first_fault_of_a_changed_request_is_told(rt: HostRuntime) -> Result<(), NoMemory> {
    for &(offset, byte, text) in &REQUESTS {
        let mut bytes = LUR;
        if offset < bytes.len() {
            bytes[offset] = byte;
        }
        let fault = told(rt.alloc(), Lur::decode(rt.alloc(), &bytes))?;
        assert_eq!(rt; fault.as_slice(), text);
    }
    Ok(())
}

const STATUSES: [(usize, u8, &[u8]); 5] = [
    (8, 0x01, b"U8 9 X2 0"),
    (16, 0x31, b"U4 15"),
    (19, 0x00, b"U5 20"),
    (44, 0xff, b"U4 44"),
    (49, 0x01, b"U1 50"),
];

#[test]
fn the_first_fault_of_a_changed_status_is_told(rt: HostRuntime) -> Result<(), NoMemory> {
    for &(offset, byte, text) in &STATUSES {
        let mut bytes = LAST_LUS;
        if offset < bytes.len() {
            bytes[offset] = byte;
        }
        let fault = told(rt.alloc(), Lus::decode(rt.alloc(), &bytes))?;
        assert_eq!(rt; fault.as_slice(), text);
    }
    Ok(())
}

const LISTS: [(usize, u8, &[u8]); 3] = [
    (18, 0x20, b"U1 19"),
    (35, 0x01, b"U5 37"),
    (45, 0xcd, b"U8 36 X2 9"),
];

#[test]
fn the_first_fault_of_a_changed_list_is_told(rt: HostRuntime) -> Result<(), NoMemory> {
    for &(offset, byte, text) in &LISTS {
        let mut bytes = LCL;
        if offset < bytes.len() {
            bytes[offset] = byte;
        }
        let fault = told(rt.alloc(), Lcl::decode(rt.alloc(), &bytes))?;
        assert_eq!(rt; fault.as_slice(), text);
    }
    Ok(())
}
