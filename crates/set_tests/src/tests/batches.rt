//! Batches of a set, found by their part numbers. The bytes come from outside of this project.
ghost use Rattle.std.specs.Prelude.{All, IfOk};
ghost use Rattle.media_check.specs.BuiltSets.{IsShortBody};

use super::checking::{found_in, list_of, name_of, placed};
use load_base::{Bytes, List, PartText};
use media_check::{Built, MediaSet, Placed};
use printed_text::{put_line, put_number};
use std::alloc::Global;
use std::test::Fail;
use worked_files::{APP_HEADER, APP_LOADS, BATCH, BATCH_FILES, BATCH_LIST};

/// `BATCH_LIST` after an entry with its part number and the file `ONE.LUB`, which isn't listed.
const REPEATED: [u8; 110] = [
    0x00, 0x00, 0x00, 0x37, 0xB0, 0x04, 0x00, 0x00, 0x00, 0x00, 0x00, 0x0A, 0x00, 0x00, 0x00, 0x14,
    0x00, 0x00, 0x00, 0x35, 0x00, 0x0F, 0x58, 0x59, 0x5A, 0x35, 0x41, 0x2D, 0x30, 0x30, 0x30, 0x30,
    0x2D, 0x30, 0x30, 0x30, 0x31, 0x00, 0x01, 0x01, 0x00, 0x02, 0x00, 0x10, 0x00, 0x0F, 0x41, 0x42,
    0x43, 0x34, 0x33, 0x2D, 0x30, 0x30, 0x30, 0x30, 0x2D, 0x30, 0x30, 0x30, 0x33, 0x00, 0x00, 0x07,
    0x4F, 0x4E, 0x45, 0x2E, 0x4C, 0x55, 0x42, 0x00, 0x00, 0x01, 0x00, 0x00, 0x00, 0x0F, 0x41, 0x42,
    0x43, 0x34, 0x33, 0x2D, 0x30, 0x30, 0x30, 0x30, 0x2D, 0x30, 0x30, 0x30, 0x33, 0x00, 0x00, 0x07,
    0x54, 0x57, 0x4F, 0x2E, 0x4C, 0x55, 0x42, 0x00, 0x00, 0x01, 0x00, 0x00, 0x1D, 0x2B,
];

fn bodies(alloc: Global) -> Result<List<Placed>, Fail>
    ensures { IfOk result (λ bodies. All IsShortBody bodies.items) }
{
    let (header, file, batch) = (
        name_of(b"APP.LUH")?,
        name_of(b"APP.BIN")?,
        name_of(b"TWO.LUB")?,
    );
    let mut bodies = List::new(alloc);
    bodies.push(placed(alloc, header, &APP_HEADER)?)?;
    bodies.push(placed(alloc, file, b"123456789")?)?;
    bodies.push(placed(alloc, batch, &BATCH)?)?;
    Ok(bodies)
}

/// The set with this list of batches.
fn set_with(alloc: Global, batches: &[u8]) -> Result<MediaSet, Fail> {
    let bodies = bodies(alloc)?;
    let loads = list_of(alloc, &APP_LOADS)?;
    let files = list_of(alloc, &BATCH_FILES)?;
    let batches = list_of(alloc, batches)?;
    let built = Built {
        loads,
        files,
        batches,
        bodies,
    };
    Ok(MediaSet::from_parts(alloc, built)?)
}

/// How many targets the batch of a part number has, 0 of none; a line.
fn put_targets(alloc: Global, out: &mut Bytes, set: &MediaSet, part: &[u8]) -> Result<(), Fail> {
    let Ok(part) = PartText::read(part) else {
        return Err(Fail::new("no part number"));
    };
    let count = match set.batch(&part) {
        Some(batch) => batch.targets.len() as u64,
        None => 0,
    };
    put_number(alloc, out, count)?;
    put_line(out, b" targets", b"")?;
    Ok(())
}

/// Of the batch, of a load that is none, and all findings, a line each.
fn told(alloc: Global, set: &MediaSet) -> Result<Bytes, Fail> {
    let mut out = Bytes::new(alloc);
    put_targets(alloc, &mut out, set, b"ABC43-0000-0003")?;
    put_targets(alloc, &mut out, set, b"ABC41-0000-0001")?;
    let found = found_in(alloc, set)?;
    out.extend(found.as_slice())?;
    Ok(out)
}

fn told_of(alloc: Global, batches: &[u8]) -> Result<Bytes, Fail> {
    let set = set_with(alloc, batches)?;
    let told = told(alloc, &set);
    drop(set);
    told
}

#[test]
fn a_batch_is_found_by_its_part_number(rt: HostRuntime) -> Result<(), Fail> {
    let told = told_of(rt.alloc(), &BATCH_LIST)?;
    assert_eq!(rt; told.as_slice(), b"2 targets\n0 targets\n".as_slice());
    Ok(())
}

#[test]
fn the_first_entry_with_a_part_number_counts(rt: HostRuntime) -> Result<(), Fail> {
    let told = told_of(rt.alloc(), &REPEATED)?;
    let wanted = b"0 targets\n0 targets\n16 ONE.LUB\n".as_slice();
    assert_eq!(rt; told.as_slice(), wanted);
    Ok(())
}
