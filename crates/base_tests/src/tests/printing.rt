use load_base::{Bytes, IdentFault, NameFault, NoMemory, TextFault};
use printed_text::{
    Printed, nested, put_field, put_hex, put_hex_16, put_line, put_number, put_number_field,
};
use std::alloc::Global;
use std::test::Fail;

fn is_printed<F: Printed>(alloc: Global, fault: &F, text: &[u8]) -> bool {
    match fault.text(alloc) {
        Ok(found) => found.as_slice() == text,
        Err(NoMemory) => false,
    }
}

const NAME_FAULTS: [(NameFault, &[u8]); 3] = [
    (NameFault::Empty, b"N1"),
    (NameFault::TooLong, b"N2"),
    (NameFault::BadByte(63), b"N3 63"),
];

const TEXT_FAULTS: [(TextFault, &[u8]); 3] = [
    (TextFault::TooLong(256), b"X1 256"),
    (TextFault::BadByte(u64::MAX), b"X2 18446744073709551615"),
    (TextFault::Memory, b""),
];

const IDENT_FAULTS: [(IdentFault, &[u8]); 2] = [
    (IdentFault::Length(21), b"I1 21"),
    (IdentFault::BadByte(0), b"I2 0"),
];

#[test]
fn each_fault_has_its_text(rt: HostRuntime) -> Result<(), Fail> {
    for &(fault, text) in &NAME_FAULTS {
        assert_eq!(rt; is_printed(rt.alloc(), &fault, text), true);
    }
    for &(fault, text) in &TEXT_FAULTS {
        assert_eq!(rt; is_printed(rt.alloc(), &fault, text), true);
    }
    for &(fault, text) in &IDENT_FAULTS {
        assert_eq!(rt; is_printed(rt.alloc(), &fault, text), true);
    }
    Ok(())
}

#[test]
fn a_fault_within_another(rt: HostRuntime) -> Result<(), Fail> {
    let text = nested(rt.alloc(), b"H12", &[50], &NameFault::BadByte(2))?;
    assert_eq!(rt; text.as_slice(), b"H12 50 N3 2".as_slice());
    Ok(())
}

fn put_lines(alloc: Global) -> Result<Bytes, NoMemory> {
    let mut out = Bytes::new(alloc);
    put_line(&mut out, b"part ", b"NAV")?;
    put_field(&mut out, b"name", b"NAV1.BIN")?;
    put_number_field(alloc, &mut out, b"bytes", 10)?;
    put_number(alloc, &mut out, 0)?;
    put_hex_16(&mut out, 0x0A1F)?;
    put_hex(&mut out, b"\x00\xFE")?;
    Ok(out)
}

#[test]
fn lines_are_put(rt: HostRuntime) -> Result<(), Fail> {
    let lines = put_lines(rt.alloc())?;
    let text = b"part NAV\nname NAV1.BIN\nbytes 10\n00A1F00FE".as_slice();
    assert_eq!(rt; lines.as_slice(), text);
    Ok(())
}
