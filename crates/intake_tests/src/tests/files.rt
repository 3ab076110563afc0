//! The files of docs/FORMATS.md as a target writes them, and the texts of reasons.
use disk_layout::Identity;
use load_base::{Bytes, Ident, Name};
use load_protocol_files::{FileFault, Wanted};
use part_number::PartNumber;
use session_files::{
    accepting_lui, completed_lus, denying_lui, lci_file, lcl_file, lcs_file, progress_lus,
    ready_lus, reason_text, stopped_lus,
};
use session_rules::{Reason, RequestFault};
use std::alloc::Global;
use std::test::Fail;

fn ident(bytes: &[u8]) -> Result<Ident, Fail> {
    match Ident::read(bytes) {
        Ok(ident) => Ok(ident),
        Err(_) => Err(Fail::new("no Ident")),
    }
}

fn wanted() -> Result<Wanted, Fail> {
    match (Name::read(b"APP.LUH"), PartNumber::read(b"ABC41-0000-0001")) {
        (Ok(header), Ok(part)) => Ok(Wanted { header, part }),
        _ => Err(Fail::new("no load")),
    }
}

fn empty_list(alloc: Global) -> Result<Bytes, Fail> {
    let identity = Identity {
        hw: ident(b"HW1")?,
        pos: ident(b"L")?,
        serial: ident(b"SN1")?,
        bank: 4096,
    };
    Ok(lcl_file(alloc, &identity, &[])?)
}

/// The files of a target with no loads, and of an upload of one load to it.
fn written(alloc: Global, row: usize) -> Result<Bytes, Fail> {
    let request = [wanted()?];
    Ok(match row {
        0 => lci_file(alloc)?,
        1 => lcs_file(alloc)?,
        2 => empty_list(alloc)?,
        3 => accepting_lui(alloc)?,
        4 => denying_lui(alloc)?,
        5 => ready_lus(alloc)?,
        6 => progress_lus(alloc, &request, 1, 2)?,
        7 => completed_lus(alloc, &request, 2)?,
        _ => stopped_lus(alloc, &request, 0, 2, &Reason::NotThisHardware)?,
    })
}

const FILES: [&[u8]; 9] = [
    b"\0\0\0\x09\x41\x33\0\x01\0",
    b"\0\0\0\x0F\x41\x33\0\x01\0\x02\0\0\0\0\0",
    b"\0\0\0\x12\x41\x33\0\x01\x03HW1\x03SN1\0\0",
    b"\0\0\0\x09\x41\x33\0\x01\0",
    b"\0\0\0\x0C\x41\x33\x10\0\x03A10",
    b"\0\0\0\x14\x41\x33\0\x01\0\0\x01\0\0\0\0000\0\0",
    b"\0\0\0\x32\x41\x33\0\x02\0\0\x02\0\0\0\0100\0\x01\x07APP.LUH\x0FABC41-0000-0001100\0\x02\0",
    b"\0\0\0\x32\x41\x33\0\x03\0\0\x02\0\0\0\0100\0\x01\x07APP.LUH\x0FABC41-0000-0001100\0\x03\0",
    b"\0\0\0\x34\x41\x33\x10\x03\x02A4\0\x02\0\0\0\0000\0\x01\x07APP.LUH\x0FABC41-0000-0001000\x10\x03\0",
];

#[test]
fn files_are_written(rt: HostRuntime) -> Result<(), Fail> {
    for (row, file) in FILES.iter().enumerate() {
        let bytes = written(rt.alloc(), row)?;
        assert_eq!(rt; bytes.as_slice(), *file);
    }
    Ok(())
}

fn is_reason(alloc: Global, fault: RequestFault, text: &[u8]) -> bool {
    match reason_text(alloc, &Reason::RequestRefused { fault }) {
        Ok(found) => found.as_slice() == text,
        Err(_) => false,
    }
}

const REFUSALS: [(RequestFault, &[u8]); 3] = [
    (RequestFault::Spelling(FileFault::Short(5)), b"A11 U1 5"),
    (RequestFault::Loads(0), b"A11 L 0"),
    (RequestFault::TooLong, b"A11 T"),
];

#[test]
fn refusals_of_a_request_have_their_texts(rt: HostRuntime) -> Result<(), Fail> {
    for &(fault, text) in &REFUSALS {
        assert_eq!(rt; is_reason(rt.alloc(), fault, text), true);
    }
    Ok(())
}
