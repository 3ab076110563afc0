//! Rollbacks to the former configuration.
ghost use Rattle.std.specs.Prelude.{◌≡◌, false};
ghost use Rattle.disk_model.specs.MemDisk.{state_of};

use crate::tests::images::{Installation, WHOLE, is_active, is_load, moments, put};
use bank_rollback::{RollbackFault, rollback};
use bank_store::StoreFault;
use disk_model::{Disk, MemDisk};
use printed_text::Printed;
use recovery::{Standing, recover};
use std::alloc::Global;
use std::test::Fail;

/// A disk for target HW1, position L, serial number SN1 with banks of 4096 bytes. Slot B names bank
/// 1 with sequence 8, which has no loads; slot A bank 0 with sequence 7, which has one load of one
/// file of three bytes.
fn two_slots() -> [u8; WHOLE] {
    let mut disk = [0; WHOLE];
    put(
        &mut disk,
        0,
        b"A615\x00\x01\x00\x00\x10\x00\x03HW1\x01L\x03SN1\xB4\x3C",
    );
    put(&mut disk, 4096, &[0xA5]);
    put(&mut disk, 4112, &[0, 0, 0, 7, 0, 0, 0, 0, 3, 0, 0, 0, 31]);
    put(&mut disk, 4608, &[0xA5]);
    put(&mut disk, 4624, &[0, 0, 0, 8, 1, 0, 0, 0, 0, 0, 0, 0, 4]);
    put(
        &mut disk,
        8192,
        b"abc\xA0\x02\x00\x01ABC41-0000-0001\x00\x07\x00\x01\x03A.B\x00\x00\x00\x03",
    );
    put(&mut disk, 12_288, &[0xA0, 2, 0, 0]);
    disk
}

/// It has no loads, in bank 1, with this sequence number.
fn is_empty(standing: &Standing, sequence: u32) -> bool {
    is_active(standing, 1, sequence) && standing.config.loads.len() == 0
}

/// It has the one load, in bank 0, with this sequence number.
fn is_loaded(standing: &Standing, sequence: u32) -> bool {
    let [load] = standing.config.loads.as_slice() else {
        return false;
    };
    is_active(standing, 0, sequence)
        && is_load(load, Some(7), b"ABC41-0000-0001", &[(b"A.B", b"abc")])
}

/// What a rollback answers, and whether it gives the configuration without loads or with one, with
/// these sequence numbers.
type Given = (Result<(), RollbackFault>, (bool, bool));

fn roll_back(alloc: Global, disk: &mut MemDisk, empty: u32, loaded: u32) -> Given
    requires { (state_of disk.old).stopped ≡ false }
    ensures { result.0 ≡ Ok tt → (state_of disk.new).stopped ≡ false }
{
    match rollback(alloc, disk) {
        Ok(standing) => {
            let found = (is_empty(&standing, empty), is_loaded(&standing, loaded));
            drop(standing);
            (Ok(()), found)
        }
        Err(fault) => (Err(fault), (false, false)),
    }
}

struct RollingBack;

impl Installation for RollingBack {
    fn before() -> [u8; WHOLE] {
        two_slots()
    }

    fn install(alloc: Global, disk: &mut MemDisk) -> Result<Result<(), StoreFault>, Fail> {
        match roll_back(alloc, disk, 0, 9) {
            (Ok(()), (false, true)) => Ok(Ok(())),
            _ => Err(Fail::new("no rollback")),
        }
    }

    fn is_old(standing: &Standing) -> bool {
        is_empty(standing, 8)
    }

    fn is_new(standing: &Standing) -> bool {
        is_loaded(standing, 9)
    }
}

/// The gate of slot A is shut, its body written, and the gate opened, each with a sync.
#[test]
fn each_image_of_a_rollback_is_active_or_former(rt: HostRuntime) -> Result<(), Fail> {
    let wanted = [(1, 0), (3, 0), (1, 0), (3, 0), (1, 0), (3, 1), (1, 1)];
    assert_eq!(rt; moments::<RollingBack>(rt.alloc(), &wanted)?, (6, (7, 13)));
    Ok(())
}

/// What two rollbacks give, the second on the disk that the first leaves.
fn there_and_back(alloc: Global) -> Result<(Given, Given), Fail> {
    let mut disk = MemDisk::new(alloc, &two_slots())?;
    let found = roll_twice(alloc, &mut disk);
    drop(disk);
    found
}

fn roll_twice(alloc: Global, disk: &mut MemDisk) -> Result<(Given, Given), Fail>
    requires { (state_of disk.old).stopped ≡ false }
{
    let first = roll_back(alloc, disk, 0, 9);
    if first.0.is_err() {
        return Err(Fail::new("no rollback"));
    }
    Ok((first, roll_back(alloc, disk, 10, 0)))
}

#[test]
fn a_second_rollback_brings_back_what_was_active(rt: HostRuntime) -> Result<(), Fail> {
    let (first, second) = there_and_back(rt.alloc())?;
    assert!(rt; first == (Ok(()), (false, true)));
    assert!(rt; second == (Ok(()), (true, false)));
    Ok(())
}

/// Whether a rollback of that disk with these bytes in it is refused with this text, and makes no
/// call that changes the disk.
fn is_refused(alloc: Global, at: usize, bytes: &[u8], text: &[u8]) -> Result<bool, Fail> {
    let mut image = two_slots();
    put(&mut image, at, bytes);
    let mut disk = MemDisk::new(alloc, &image)?;
    let (answer, _) = roll_back(alloc, &mut disk, 0, 0);
    let changes = disk.notes().len();
    drop(disk);
    match answer {
        Ok(()) => Ok(false),
        Err(fault) => Ok(changes == 0 && fault.text(alloc)?.as_slice() == text),
    }
}

/// At which offset which bytes are put, and the refusal.
const REFUSALS: [(usize, &[u8], &[u8]); 13] = [
    (4096, &[0], b"G1"),
    (4112, &[0, 0, 0, 8], b"G2 4624"),
    (4116, &[1], b"G2 4116"),
    (4116, &[2], b"G2 4116"),
    (4121, &[0, 8, 0xA2, 0x65], b"G2 4121"),
    (4117, &[0, 0, 0x0F, 0xE2], b"G2 4117"),
    (8195, &[0xA0, 3], b"G3 8195"),
    (8218, &[0], b"G3 8218"),
    (8225, &[2], b"G3 8195"),
    (4624, &[0xFF, 0xFF, 0xFF, 0xFF], b"K2"),
    (0, b"B", b"V1 0"),
    (4628, &[2], b"V3 4628"),
    (12_288, &[0xA0, 3], b"V4 12288"),
];

#[test]
fn a_rollback_is_refused_with_its_offset(rt: HostRuntime) -> Result<(), Fail> {
    for (at, bytes, text) in REFUSALS {
        assert!(rt; is_refused(rt.alloc(), at, bytes, text)?, "at {at}");
    }
    Ok(())
}

/// What a rollback answers whose n-th call of the disk fails, and whether a restart leaves the
/// configuration that was active then, and whether the former one.
type Left = (Result<(), RollbackFault>, (bool, bool));

fn failing_at(alloc: Global, call: u32) -> Result<Left, Fail> {
    let mut disk = MemDisk::new(alloc, &two_slots())?;
    let left = fail_and_restart(alloc, &mut disk, call);
    drop(disk);
    left
}

fn fail_and_restart(alloc: Global, disk: &mut MemDisk, call: u32) -> Result<Left, Fail>
    requires { (state_of disk.old).stopped ≡ false }
{
    disk.fail_at(call)?;
    let (answer, _) = roll_back(alloc, disk, 0, 9);
    disk.restart()?;
    let standing = recover(alloc, disk)?;
    let found = (is_empty(&standing, 8), is_loaded(&standing, 9));
    drop(standing);
    Ok((answer, found))
}

/// Eleven reads find both configurations, two calls shut the gate, four name the manifest, two open
/// the gate, and five read what is active then.
#[test]
fn a_rollback_that_fails_leaves_active_or_former(rt: HostRuntime) -> Result<(), Fail> {
    for call in 1..=24u32 {
        let (answer, (is_old, is_new)) = failing_at(rt.alloc(), call)?;
        let failed = answer == Err(RollbackFault::DiskFailed);
        let stands = if call < 18 {
            is_old
        } else {
            is_new || (is_old && call < 20)
        };
        assert!(rt; failed && stands, "at call {call}");
    }
    Ok(())
}
