//! What lists of batches and batches are refused with, each byte changed, and the limits of what is
//! written. The bytes come from outside of this project.
use super::lists::change;
use batch_lists::{
    Batch, BatchFault, BatchTarget, BatchWordFault, BatchesFault, BatchesList, batch_laws,
    batches_list_laws,
};
use load_base::{Bytes, Ident, List, NoMemory, Text};
use part_number::PartNumber;
use printed_text::Printed;
use std::alloc::Global;

/// The list of one batch, on the one member of its set.
pub(super) const ONE_BATCH: [u8; 78] = [
    0x00, 0x00, 0x00, 0x27, 0xB0, 0x04, 0x00, 0x00, 0x00, 0x00, 0x00, 0x0A, 0x00, 0x00, 0x00, 0x14,
    0x00, 0x00, 0x00, 0x25, 0x00, 0x0F, 0x58, 0x59, 0x5A, 0x35, 0x41, 0x2D, 0x30, 0x30, 0x30, 0x30,
    0x2D, 0x30, 0x30, 0x30, 0x31, 0x00, 0x01, 0x01, 0x00, 0x01, 0x00, 0x00, 0x00, 0x0F, 0x41, 0x42,
    0x43, 0x34, 0x33, 0x2D, 0x30, 0x30, 0x30, 0x30, 0x2D, 0x30, 0x30, 0x30, 0x33, 0x00, 0x00, 0x07,
    0x54, 0x57, 0x4F, 0x2E, 0x4C, 0x55, 0x42, 0x00, 0x00, 0x01, 0x00, 0x00, 0x32, 0xAB,
];

/// A batch of three targets, the first of which gets two loads.
const THREE_TARGETS: [u8; 138] = [
    0x00, 0x00, 0x00, 0x45, 0xC0, 0x04, 0x00, 0x00, 0x00, 0x0F, 0x41, 0x42, 0x43, 0x34, 0x33, 0x2D,
    0x30, 0x30, 0x30, 0x30, 0x2D, 0x30, 0x30, 0x30, 0x33, 0x00, 0x00, 0x03, 0x00, 0x03, 0x48, 0x57,
    0x31, 0x00, 0x00, 0x01, 0x4C, 0x00, 0x00, 0x02, 0x00, 0x0F, 0x41, 0x42, 0x43, 0x34, 0x31, 0x2D,
    0x30, 0x30, 0x30, 0x30, 0x2D, 0x30, 0x30, 0x30, 0x31, 0x00, 0x00, 0x0F, 0x41, 0x42, 0x43, 0x34,
    0x32, 0x2D, 0x30, 0x30, 0x30, 0x30, 0x2D, 0x30, 0x30, 0x30, 0x32, 0x00, 0x00, 0x03, 0x48, 0x57,
    0x31, 0x00, 0x00, 0x01, 0x52, 0x00, 0x00, 0x01, 0x00, 0x0F, 0x41, 0x42, 0x43, 0x34, 0x32, 0x2D,
    0x30, 0x30, 0x30, 0x30, 0x2D, 0x30, 0x30, 0x30, 0x32, 0x00, 0x00, 0x03, 0x48, 0x57, 0x31, 0x00,
    0x00, 0x01, 0x4C, 0x00, 0x00, 0x01, 0x00, 0x0F, 0x41, 0x42, 0x43, 0x34, 0x32, 0x2D, 0x30, 0x30,
    0x30, 0x30, 0x2D, 0x30, 0x30, 0x30, 0x32, 0x00, 0xE3, 0xBE,
];

#[test]
fn the_formats_keep_their_laws() {
    batches_list_laws();
    batch_laws();
}

// ---- what is refused

/// What these bytes are refused with as a list of batches, or nothing.
fn list_outcome(alloc: Global, bytes: &[u8]) -> Result<Text, NoMemory> {
    match BatchesList::decode(alloc, bytes).err() {
        Some(fault) => fault.text(alloc),
        None => Ok(Text::empty(alloc)),
    }
}

/// What these bytes are refused with as a batch, or nothing.
fn batch_outcome(alloc: Global, bytes: &[u8]) -> Result<Text, NoMemory> {
    match Batch::decode(alloc, bytes).err() {
        Some(fault) => fault.text(alloc),
        None => Ok(Text::empty(alloc)),
    }
}

/// What the list is refused with where a byte is put at an offset, and perhaps the check sum made
/// right again; a line for each such change.
fn list_refusals(alloc: Global, changes: &[(usize, u8, bool)]) -> Result<Bytes, NoMemory> {
    let mut text = Bytes::new(alloc);
    for (offset, byte, mended) in changes {
        let mut bytes = ONE_BATCH;
        change(&mut bytes, *offset, *byte, *mended);
        text.extend(list_outcome(alloc, &bytes)?.as_slice())?;
        text.extend(b"\n")?;
    }
    Ok(text)
}

const LIST_CHANGES: [(usize, u8, bool); 22] = [
    (0, 0x01, false),
    (4, 0x00, false),
    (6, 0x01, false),
    (8, 0x01, false),
    (12, 0x01, false),
    (16, 0x01, true),
    (20, 0x01, false),
    (21, 0x00, false),
    (37, 0x01, false),
    (38, 0x00, true),
    (39, 0x00, true),
    (39, 0x02, false),
    (39, 0x02, true),
    (40, 0x01, false),
    (40, 0x20, false),
    (44, 0x01, true),
    (46, 0x42, true),
    (63, 0x00, true),
    (63, 0x08, true),
    (72, 0x01, true),
    (74, 0x01, true),
    (75, 0x01, true),
];

#[test]
fn each_changed_byte_of_the_list_has_its_refusal(rt: HostRuntime) -> Result<(), NoMemory> {
    let refusals = list_refusals(rt.alloc(), &LIST_CHANGES)?;
    let wanted = b"L2 16777255 78
L3 4
L4 256
L5 1 16777226 10
L5 2 16777236 20
L5 3 16777253 37
L1 22
L7 22 P1 0
L6 37
L9 38
L9 39
L13 12971 15959

L8 1
L11
L1 46
L7 46 P4 67 64
L7 64 N1
L7 64 N3 7
L9 72
L1 76
L1 78
";
    assert_eq!(rt; refusals.as_slice(), wanted.as_slice());
    Ok(())
}

/// The same of the batch.
fn batch_refusals(alloc: Global, changes: &[(usize, u8, bool)]) -> Result<Bytes, NoMemory> {
    let mut text = Bytes::new(alloc);
    for (offset, byte, mended) in changes {
        let mut bytes = THREE_TARGETS;
        change(&mut bytes, *offset, *byte, *mended);
        text.extend(batch_outcome(alloc, &bytes)?.as_slice())?;
        text.extend(b"\n")?;
    }
    Ok(text)
}

const BATCH_CHANGES: [(usize, u8, bool); 21] = [
    (0, 0x01, false),
    (4, 0x00, false),
    (6, 0x01, false),
    (8, 0x01, false),
    (9, 0x00, true),
    (10, 0x42, true),
    (25, 0x01, false),
    (26, 0x01, false),
    (27, 0x01, true),
    (27, 0x04, true),
    (29, 0x00, true),
    (29, 0x04, true),
    (30, 0x49, false),
    (30, 0x49, true),
    (33, 0x01, true),
    (35, 0x02, true),
    (38, 0x01, true),
    (39, 0x03, true),
    (42, 0x00, true),
    (86, 0x01, true),
    (135, 0x01, true),
];

#[test]
fn each_changed_byte_of_the_batch_has_its_refusal(rt: HostRuntime) -> Result<(), NoMemory> {
    let refusals = batch_refusals(rt.alloc(), &BATCH_CHANGES)?;
    let wanted = b"J2 16777285 138
J3 4
J4 256
J1 10
J6 10 P1 0
J6 10 P4 67 64
J5 25
J7 26
J8 78
J1 138
J6 30 I1 0
J6 30 I2 3
J9 58302 43813

J5 33
J6 36 I2 1
J7 38
J6 78 P1 3
J6 42 P3 0
J7 86
J5 135
";
    assert_eq!(rt; refusals.as_slice(), wanted.as_slice());
    Ok(())
}

/// The file of the one batch twice, and a list with two bytes more.
#[test]
fn a_file_may_not_stand_twice_and_nothing_after_the_check_sum(
    rt: HostRuntime,
) -> Result<(), NoMemory> {
    let mut twice = [0; 110];
    twice[..74].copy_from_slice(&ONE_BATCH[..74]);
    twice[74..106].copy_from_slice(&ONE_BATCH[42..74]);
    twice[3] = 55;
    twice[19] = 53;
    twice[41] = 2;
    twice[43] = 16;
    let mut longer = [0; 80];
    longer[..78].copy_from_slice(&ONE_BATCH);
    longer[3] = 40;
    let repeated = list_outcome(rt.alloc(), &twice)?;
    let more = list_outcome(rt.alloc(), &longer)?;
    assert_eq!(rt; repeated.as_slice(), b"L10 2".as_slice());
    assert_eq!(rt; more.as_slice(), b"L12 78".as_slice());
    Ok(())
}

/// The refusal of N zeros as a batch.
fn zeros_refused(alloc: Global, size: usize) -> Result<Text, NoMemory> {
    let mut zeros = Bytes::new(alloc);
    for _ in 0..size {
        zeros.push(0)?;
    }
    batch_outcome(alloc, zeros.as_slice())
}

#[test]
fn more_bytes_than_a_batch_may_have_are_refused_first(rt: HostRuntime) -> Result<(), NoMemory> {
    for (size, text) in [(131_072, &b"J2 0 131072"[..]), (131_073, b"J10")] {
        assert_eq!(rt; zeros_refused(rt.alloc(), size)?.as_slice(), text);
    }
    Ok(())
}

// ---- what is written

/// What is written of a list that was read of these bytes; nothing where it doesn't fit.
fn list_again(alloc: Global, bytes: &[u8]) -> Result<Bytes, BatchesFault> {
    let list = BatchesList::decode(alloc, bytes)?;
    if !list.fits() {
        return Ok(Bytes::new(alloc));
    }
    let again = list.encode(alloc);
    drop(list);
    match again {
        Ok(again) => Ok(again),
        Err(NoMemory) => Err(BatchesFault::Memory),
    }
}

/// The same of a batch.
fn batch_again(alloc: Global, bytes: &[u8]) -> Result<Bytes, BatchFault> {
    let batch = Batch::decode(alloc, bytes)?;
    let again = written(alloc, &batch);
    drop(batch);
    again
}

/// The bytes of a batch that fits; nothing where it doesn't.
fn written(alloc: Global, batch: &Batch) -> Result<Bytes, BatchFault> {
    if !batch.fits() {
        return Ok(Bytes::new(alloc));
    }
    let bytes = batch.encode(alloc)?;
    Ok(bytes)
}

#[test]
fn a_list_is_written_as_it_was_read(rt: HostRuntime) -> Result<(), BatchesFault> {
    let again = list_again(rt.alloc(), &ONE_BATCH)?;
    assert_eq!(rt; again.as_slice(), ONE_BATCH.as_slice());
    Ok(())
}

#[test]
fn a_batch_is_written_as_it_was_read(rt: HostRuntime) -> Result<(), BatchFault> {
    let again = batch_again(rt.alloc(), &THREE_TARGETS)?;
    assert_eq!(rt; again.as_slice(), THREE_TARGETS.as_slice());
    Ok(())
}

fn part() -> Result<PartNumber, BatchFault> {
    match PartNumber::read(b"ABC41-0000-0001") {
        Ok(part) => Ok(part),
        Err(fault) => Err(BatchFault::Word {
            place: 0,
            fault: BatchWordFault::Part(fault),
        }),
    }
}

/// An Ident of 20 bytes.
fn longest_ident() -> Result<Ident, BatchFault> {
    match Ident::read(b"ABCDEFGHIJKLMNOPQRST") {
        Ok(ident) => Ok(ident),
        Err(fault) => Err(BatchFault::Word {
            place: 0,
            fault: BatchWordFault::Ident(fault),
        }),
    }
}

/// A target with this many parts.
fn target_of(alloc: Global, parts: usize) -> Result<BatchTarget, BatchFault> {
    let (part, hw, pos) = (part()?, longest_ident()?, longest_ident()?);
    let mut all = List::new(alloc);
    for _ in 0..parts {
        all.push(part)?;
    }
    Ok(BatchTarget {
        hw,
        pos,
        parts: all,
    })
}

/// How many bytes a batch of this many targets has, each with this many parts; 0 where it doesn't
/// fit.
fn batch_length(alloc: Global, targets: usize, parts: usize) -> Result<usize, BatchFault> {
    let part = part()?;
    let mut all = List::new(alloc);
    for _ in 0..targets {
        all.push(target_of(alloc, parts)?)?;
    }
    let batch = Batch { part, targets: all };
    let bytes = written(alloc, &batch);
    drop(batch);
    Ok(bytes?.len())
}

/// It takes 30, and for each target 46 and 18 for each part.
#[test]
fn a_batch_keeps_its_limits(rt: HostRuntime) -> Result<(), BatchFault> {
    for (targets, parts, bytes) in [
        (64, 32, 39_838),
        (65, 1, 0),
        (0, 1, 0),
        (1, 33, 0),
        (1, 0, 0),
        (1, 1, 94),
    ] {
        let length = batch_length(rt.alloc(), targets, parts)?;
        assert_eq!(rt; length, bytes, "{targets} targets, {parts} parts");
    }
    Ok(())
}
