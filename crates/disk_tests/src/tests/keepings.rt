//! Installations that keep loads of the active configuration.
ghost use Rattle.std.specs.Prelude.{◌≡◌, ◌≤◌, false, length, true};
ghost use Rattle.disk_model.specs.MemDisk.{state_of};
ghost use Rattle.bank_store.specs.Store.{IsIdle, IsKeptLoad};
ghost use Rattle.recovery.specs.Surveys.{IsSurveyInRange};

use crate::tests::images::{
    Installation, SEVEN_WRITES, WHOLE, Wanted, failing, is_active, is_load, moments, put, put_file,
};
use crate::tests::places::has_type;
use bank_store::StoreFault;
use disk_model::MemDisk;
use load_base::{Load, Name, PartText};
use recovery::{Standing, Store, Surveyed, survey};
use std::alloc::Global;
use std::test::Fail;

/// A file of 508 bytes.
fn body() -> [u8; 508] {
    let mut bytes = [b'.'; 508];
    put(&mut bytes, 0, b"first");
    put(&mut bytes, 503, b"last!");
    bytes
}

/// A disk with three loads of types 7, 0xA002 and 9 in bank 1. Their files have 3 bytes, 5 and 508,
/// and none, and the manifest, which has layout 2, 103.
fn three_loads() -> [u8; WHOLE] {
    let mut disk = [0; WHOLE];
    put(
        &mut disk,
        0,
        b"A615\x00\x01\x00\x00\x10\x00\x03HW1\x01L\x03SN1\xB4\x3C",
    );
    put(&mut disk, 4096, &[0xA5]);
    put(&mut disk, 4112, &[0, 0, 0, 1, 0, 0, 0, 0, 0, 0, 0, 0, 4]);
    put(&mut disk, 4608, &[0xA5]);
    put(&mut disk, 4624, &[0, 0, 0, 2, 1, 0, 0, 2, 4, 0, 0, 0, 103]);
    put(&mut disk, 8192, &[0xA0, 2, 0, 0]);
    put(&mut disk, 12_288, b"oldhelp.");
    put(&mut disk, 12_296, &body());
    put(&mut disk, 12_804, b"\xA0\x02\x00\x03");
    put(
        &mut disk,
        12_808,
        b"MMM12-0001-ABCD\x00\x07\x00\x01\x07OLD.LUH\x00\x00\x00\x03",
    );
    put(
        &mut disk,
        12_839,
        b"ABC42-0000-0002\xA0\x02\x00\x02\x05B.LUH\x00\x00\x00\x05\x05B.BIN\x00\x00\x01\xFC",
    );
    put(
        &mut disk,
        12_878,
        b"ABC43-0000-0003\x00\x09\x00\x01\x05C.LUH\x00\x00\x00\x00",
    );
    disk
}

/// Whether a survey says a type id of the second load and of the third.
fn can_be_kept(surveyed: &Surveyed) -> bool
    ensures { result ≡ true → IsSurveyInRange surveyed.now
        → IsKeptLoad surveyed.now.store 2 × IsKeptLoad surveyed.now.store 3 }
{
    has_type(&surveyed.manifest, 1) && has_type(&surveyed.manifest, 2)
}

/// An installation of one load that keeps the second load and the third. What it writes before the
/// gate is two pieces of the new load, two of the second load, and the manifest and the slot in
/// three writes; of the third load it writes none.
struct KeepsTwo;

impl Installation for KeepsTwo {
    fn before() -> [u8; WHOLE] {
        three_loads()
    }

    fn install(alloc: Global, disk: &mut MemDisk) -> Result<Result<(), StoreFault>, Fail> {
        let part = PartText::read(b"ABC41-0000-0001")?;
        let names = [Name::read(b"A.LUH")?, Name::read(b"A.BIN")?];
        let mut surveyed = survey(alloc, disk)?;
        let answer = if can_be_kept(&surveyed) {
            Some(install_keeping(&mut surveyed.store, disk, part, names))
        } else {
            None
        };
        drop(surveyed);
        match answer {
            Some(answer) => Ok(answer),
            None => Err(Fail::new("no type ids")),
        }
    }

    fn is_old(standing: &Standing) -> bool {
        let loads = standing.config.loads.as_slice();
        is_active(standing, 1, 2)
            && loads.len() == 3
            && is_load(
                &loads[0],
                Some(7),
                b"MMM12-0001-ABCD",
                &[(b"OLD.LUH", b"old")],
            )
            && is_second(&loads[1])
            && is_third(&loads[2])
    }

    fn is_new(standing: &Standing) -> bool {
        let loads = standing.config.loads.as_slice();
        let first: [Wanted; 2] = [(b"A.LUH", b"header"), (b"A.BIN", b"")];
        is_active(standing, 0, 3)
            && loads.len() == 3
            && is_load(&loads[0], Some(7), b"ABC41-0000-0001", &first)
            && is_second(&loads[1])
            && is_third(&loads[2])
    }
}

fn is_second(load: &Load) -> bool {
    let files: [Wanted; 2] = [(b"B.LUH", b"help."), (b"B.BIN", &body())];
    is_load(load, Some(0xA002), b"ABC42-0000-0002", &files)
}

fn is_third(load: &Load) -> bool {
    is_load(load, Some(9), b"ABC43-0000-0003", &[(b"C.LUH", b"")])
}

/// Installs one load of two files, and keeps the second load and the third.
fn install_keeping(
    store: &mut Store,
    disk: &mut MemDisk,
    part: PartText,
    names: [Name; 2],
) -> Result<(), StoreFault>
    requires idle { IsIdle store.old }
    requires running { (state_of disk.old).stopped ≡ false }
    requires second { IsKeptLoad store.old 2 }
    requires third { IsKeptLoad store.old 3 }
{
    store.prepare()?;
    store.begin(disk)?;
    store.start_load(part, 7, 2)?;
    put_file(store, disk, names[0], b"hea", b"der")?;
    put_file(store, disk, names[1], b"", b"")?;
    store.keep(disk, 2)?;
    store.keep(disk, 3)?;
    store.seal(disk)?;
    store.activate(disk)
}

/// Shutting the other slot makes two calls; the contents, of which each piece that is kept is read
/// first, the manifest, the slot and their sync ten; opening the other slot two.
#[test]
fn one_that_keeps_loads_and_fails_leaves_the_old_configuration(
    rt: HostRuntime,
) -> Result<(), Fail> {
    for call in 1..=14u32 {
        let (answer, (is_old, is_new)) = failing::<KeepsTwo>(rt.alloc(), call)?;
        let failed = answer == Err(StoreFault::DiskFailed);
        assert!(rt; failed && (is_old || call > 12 && is_new), "at call {call}");
    }
    Ok(())
}

#[test]
fn each_image_of_one_that_keeps_loads_is_old_or_new(rt: HostRuntime) -> Result<(), Fail> {
    let found = moments::<KeepsTwo>(rt.alloc(), &SEVEN_WRITES)?;
    assert_eq!(rt; found, (12, (13, 3289)));
    Ok(())
}

const ZEROS: [u8; 4096] = [0; 4096];

/// What the store answers that is to keep the second load, of 513 bytes, after so many bytes of a
/// new one, and how many writes it makes then.
type Kept = (Result<(), StoreFault>, usize);

fn kept_after(alloc: Global, bytes: usize) -> Result<Kept, Fail>
    requires { bytes ≤ 4096 }
{
    let mut disk = MemDisk::new(alloc, &three_loads())?;
    let kept = kept_on(alloc, &mut disk, bytes);
    drop(disk);
    kept
}

fn kept_on(alloc: Global, disk: &mut MemDisk, bytes: usize) -> Result<Kept, Fail>
    requires running { (state_of disk.old).stopped ≡ false }
    requires bytes { bytes ≤ 4096 }
{
    let (part, name) = (PartText::read(b"ABC41-0000-0001")?, Name::read(b"A.LUH")?);
    let mut surveyed = survey(alloc, disk)?;
    let answer = if can_be_kept(&surveyed) {
        Some(keep_after(&mut surveyed.store, disk, part, name, &ZEROS[..bytes]))
    } else {
        None
    };
    drop(surveyed);
    match answer {
        Some(answer) => Ok(answer?),
        None => Err(Fail::new("no type ids")),
    }
}

fn keep_after(
    store: &mut Store,
    disk: &mut MemDisk,
    part: PartText,
    name: Name,
    bytes: &[u8],
) -> Result<Kept, StoreFault>
    requires idle { IsIdle store.old }
    requires running { (state_of disk.old).stopped ≡ false }
    requires second { IsKeptLoad store.old 2 }
    requires short { length bytes.now ≤ 4096 }
{
    store.prepare()?;
    store.begin(disk)?;
    store.start_load(part, 7, 1)?;
    put_file(store, disk, name, bytes, b"")?;
    let before = disk.notes().len();
    let answer = store.keep(disk, 2);
    Ok((answer, disk.notes().len().saturating_sub(before)))
}

/// Where the bank is full, nothing is written.
#[test]
fn a_load_that_passes_the_bank_is_not_kept(rt: HostRuntime) -> Result<(), Fail> {
    for (bytes, need) in [(0, 0), (3583, 0), (3584, 4097), (4096, 4609)] {
        let wanted = if need == 0 {
            (Ok(()), 2)
        } else {
            (Err(StoreFault::BankFull { need, have: 4096 }), 0)
        };
        assert!(rt; kept_after(rt.alloc(), bytes)? == wanted, "after {bytes}");
    }
    Ok(())
}
