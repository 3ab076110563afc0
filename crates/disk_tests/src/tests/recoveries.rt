ghost use Rattle.std.specs.Prelude.{◌≡◌, false};
ghost use Rattle.disk_model.specs.MemDisk.{state_of};
ghost use Rattle.bank_store.specs.Store.{IsIdle};

use crate::tests::images::{
    Installation, SEVEN_WRITES, WHOLE, Wanted, failing, is_active, is_load, moments, put, put_file,
};
use bank_store::StoreFault;
use disk_model::{Call, FileDisk, MemDisk, Note, OpenedFiles};
use load_base::{Name, PartText};
use recovery::{RecoverFault, Standing, Store, recover, survey};
use std::alloc::Global;
use std::fs;
use std::test::Fail;

/// A disk for target HW1, position L, serial number SN1 with banks of 4096 bytes, of which bank 0
/// has one load of one file of three bytes, and bank 1 none, both in manifests of layout 1. Slot A
/// names bank 0 with sequence 7, slot B bank 1 with sequence 8.
fn two_slots() -> [u8; 12_290] {
    let mut disk = [0; 12_290];
    put(
        &mut disk,
        0,
        b"A615\x00\x01\x00\x00\x10\x00\x03HW1\x01L\x03SN1\xB4\x3C",
    );
    put(&mut disk, 4096, &[0xA5]);
    put(&mut disk, 4112, &[0, 0, 0, 7, 0, 0, 0, 0, 3, 0, 0, 0, 27]);
    put(&mut disk, 4608, &[0xA5]);
    put(&mut disk, 4624, &[0, 0, 0, 8, 1, 0, 0, 0, 0, 0, 0, 0, 2]);
    put(
        &mut disk,
        8192,
        b"abc\x00\x01ABC41-0000-0001\x00\x01\x03A.B\x00\x00\x00\x03",
    );
    disk
}

/// Where the first and the last write of these calls begin.
fn first_and_last(notes: &[Note]) -> (u32, u32) {
    let mut offsets = (0, 0);
    for note in notes {
        if let Call::Write { at, .. } = note.call {
            if offsets.0 == 0 {
                offsets.0 = at;
            }
            offsets.1 = at;
        }
    }
    offsets
}

/// What a survey of these bytes tells: how many loads, the active bank and its sequence number; how
/// many calls changed the disk; and where the first and the last write of an installation without
/// loads begin then.
type Told = (usize, u8, u32, usize, (u32, u32));

fn surveyed(alloc: Global, bytes: &[u8; 12_290]) -> Result<Told, Fail> {
    let mut disk = MemDisk::new(alloc, bytes)?;
    let told = tell(alloc, &mut disk);
    drop(disk);
    told
}

fn tell(alloc: Global, disk: &mut MemDisk) -> Result<Told, Fail>
    requires { (state_of disk.old).stopped ≡ false }
{
    let mut surveyed = survey(alloc, disk)?;
    let (loads, calls) = (surveyed.manifest.loads.len(), disk.notes().len());
    let (bank, sequence) = (surveyed.store.bank(), surveyed.store.sequence());
    let answer = install_none(&mut surveyed.store, disk);
    drop(surveyed);
    answer?;
    Ok((loads, bank, sequence, calls, first_and_last(disk.notes())))
}

/// Installs a configuration without loads.
fn install_none(store: &mut Store, disk: &mut MemDisk) -> Result<(), StoreFault>
    requires idle { IsIdle store.old }
    requires running { (state_of disk.old).stopped ≡ false }
{
    store.prepare()?;
    store.begin(disk)?;
    store.seal(disk)?;
    store.activate(disk)
}

/// An installation shuts the other slot first where it is open, and else begins with the other
/// bank; its last write opens the other slot.
#[test]
fn a_survey_tells_what_is_active(rt: HostRuntime) -> Result<(), Fail> {
    for (gate_a, gate_b, sequence_b, wanted) in [
        (0xA5, 0xA5, 8, (0, 1, 8, 0, (4096, 4096))),
        (0x5A, 0xA5, 8, (0, 1, 8, 0, (8192, 4096))),
        (0xA5, 0xA5, 7, (1, 0, 7, 0, (4608, 4608))),
        (0xA5, 0x00, 8, (1, 0, 7, 0, (12_288, 4608))),
    ] {
        let mut bytes = two_slots();
        put(&mut bytes, 4096, &[gate_a]);
        put(&mut bytes, 4608, &[gate_b]);
        put(&mut bytes, 4627, &[sequence_b]);
        assert!(rt;
            surveyed(rt.alloc(), &bytes)? == wanted,
            "{gate_a} {gate_b}"
        );
    }
    Ok(())
}

/// Whether the load of bank 0 is recovered.
fn is_recovered(alloc: Global, disk: &mut MemDisk) -> Result<bool, RecoverFault>
    requires { (state_of disk.old).stopped ≡ false }
{
    let standing = recover(alloc, disk)?;
    let loads = standing.config.loads.as_slice();
    let found = standing.sequence == 7
        && loads.len() == 1
        && is_load(&loads[0], None, b"ABC41-0000-0001", &[(b"A.B", b"abc")]);
    drop(standing);
    Ok(found)
}

#[test]
fn the_contents_come_with_a_recovery(rt: HostRuntime) -> Result<(), Fail> {
    let mut bytes = two_slots();
    put(&mut bytes, 4608, &[0]);
    let mut disk = MemDisk::new(rt.alloc(), &bytes)?;
    let found = is_recovered(rt.alloc(), &mut disk);
    drop(disk);
    assert!(rt; found?);
    Ok(())
}

/// Why a survey of a disk in a file is refused, if it is.
fn survey_refusal(rt: &HostRuntime, alloc: Global, name: &str) -> Option<RecoverFault> {
    survey(alloc, &mut FileDisk::new(rt, &OpenedFiles::new(), name)).err()
}

/// Why its recovery is refused, if it is.
fn recover_refusal(rt: &HostRuntime, alloc: Global, name: &str) -> Option<RecoverFault> {
    recover(alloc, &mut FileDisk::new(rt, &OpenedFiles::new(), name)).err()
}

#[test]
fn a_missing_file_is_not_formatted(rt: HostRuntime) -> Result<(), Fail> {
    let name = "a_missing_file.disk";
    let found = survey_refusal(&rt, rt.alloc(), name);
    assert!(rt; found == Some(RecoverFault::NotFormatted(0)));
    assert!(rt; fs::read(&rt, name).is_err());
    let found = recover_refusal(&rt, rt.alloc(), ".");
    assert!(rt; found == Some(RecoverFault::DiskFailed));
    Ok(())
}

/// An installation of two loads beside one whose manifest has layout 1.
struct TwoLoads;

impl Installation for TwoLoads {
    fn before() -> [u8; WHOLE] {
        let mut disk = [0; WHOLE];
        put(
            &mut disk,
            0,
            b"A615\x00\x01\x00\x00\x10\x00\x03HW1\x01L\x03SN1\xB4\x3C",
        );
        put(&mut disk, 4096, &[0xA5]);
        put(&mut disk, 4112, &[0, 0, 0, 1, 0, 0, 0, 0, 0, 0, 0, 0, 2]);
        put(&mut disk, 4608, &[0xA5]);
        put(&mut disk, 4624, &[0, 0, 0, 2, 1, 0, 0, 0, 3, 0, 0, 0, 31]);
        put(
            &mut disk,
            12_288,
            b"old\x00\x01MMM12-0001-ABCD\x00\x01\x07OLD.LUH\x00\x00\x00\x03",
        );
        disk
    }

    fn install(alloc: Global, disk: &mut MemDisk) -> Result<Result<(), StoreFault>, Fail> {
        let (parts, names) = (new_parts()?, new_names()?);
        let mut surveyed = survey(alloc, disk)?;
        let answer = install_new(&mut surveyed.store, disk, parts, names);
        drop(surveyed);
        Ok(answer)
    }

    fn is_old(standing: &Standing) -> bool {
        let loads = standing.config.loads.as_slice();
        is_active(standing, 1, 2)
            && loads.len() == 1
            && is_load(&loads[0], None, b"MMM12-0001-ABCD", &[(b"OLD.LUH", b"old")])
    }

    fn is_new(standing: &Standing) -> bool {
        let loads = standing.config.loads.as_slice();
        let first: [Wanted; 2] = [(b"A.LUH", b"header"), (b"A.BIN", b"")];
        let second: [Wanted; 3] = [(b"B.LUH", b"two"), (b"B.BIN", b"data"), (b"B.TXT", b"")];
        is_active(standing, 0, 3)
            && loads.len() == 2
            && is_load(&loads[0], Some(7), b"ABC41-0000-0001", &first)
            && is_load(&loads[1], Some(0xA002), b"ABC42-0000-0002", &second)
    }
}

/// Installs the new configuration, whose texts are these, in its order.
fn install_new(
    store: &mut Store,
    disk: &mut MemDisk,
    parts: [PartText; 2],
    names: [Name; 5],
) -> Result<(), StoreFault>
    requires idle { IsIdle store.old }
    requires running { (state_of disk.old).stopped ≡ false }
{
    store.prepare()?;
    store.begin(disk)?;
    store.start_load(parts[0], 7, 2)?;
    put_file(store, disk, names[0], b"hea", b"der")?;
    put_file(store, disk, names[1], b"", b"")?;
    store.start_load(parts[1], 0xA002, 3)?;
    put_file(store, disk, names[2], b"two", b"")?;
    put_file(store, disk, names[3], b"", b"data")?;
    put_file(store, disk, names[4], b"", b"")?;
    store.seal(disk)?;
    store.activate(disk)
}

fn new_parts() -> Result<[PartText; 2], Fail> {
    Ok([
        PartText::read(b"ABC41-0000-0001")?,
        PartText::read(b"ABC42-0000-0002")?,
    ])
}

fn new_names() -> Result<[Name; 5], Fail> {
    Ok([
        Name::read(b"A.LUH")?,
        Name::read(b"A.BIN")?,
        Name::read(b"B.LUH")?,
        Name::read(b"B.BIN")?,
        Name::read(b"B.TXT")?,
    ])
}

/// Shutting the other slot makes two calls; the contents, the manifest, the slot and their sync
/// eight; opening the other slot two, a write and a sync.
#[test]
fn an_installation_that_fails_leaves_the_old_configuration(rt: HostRuntime) -> Result<(), Fail> {
    for call in 1..=12u32 {
        let (answer, (is_old, is_new)) = failing::<TwoLoads>(rt.alloc(), call)?;
        let failed = answer == Err(StoreFault::DiskFailed);
        assert!(rt; failed && (is_old || call > 10 && is_new), "at call {call}");
    }
    Ok(())
}

#[test]
fn each_image_of_an_installation_is_old_or_new(rt: HostRuntime) -> Result<(), Fail> {
    let found = moments::<TwoLoads>(rt.alloc(), &SEVEN_WRITES)?;
    assert_eq!(rt; found, (12, (13, 3289)));
    Ok(())
}
