ghost use Rattle.std.specs.Prelude.{◌≡◌, ◌+◌, ◌≤◌, false, Some, length, is_err, IfOk};
ghost use Rattle.disk_model.specs.Image.{image_of};
ghost use Rattle.disk_model.specs.State.{IsSettled};
ghost use Rattle.disk_model.specs.Fused.{state_of};
ghost use Rattle.disk_model.specs.MemDisk as Mem;
ghost use Rattle.disk_model.specs.FileDisk as File;

use disk_model::{Call, Disk, DiskFault, FileDisk, Fused, MemDisk, Note, OpenedFiles, Power, SIZE};
use load_base::{Bytes, NoMemory};
use std::alloc::Global;
use std::fs;
use std::os::unix::fs::symlink;
use std::test::Fail;

/// The first eight bytes of a disk.
fn prefix<K: Disk>(disk: &mut K) -> Result<[u8; 8], DiskFault>
    requires { (K.state disk.old).stopped ≡ false }
    ensures { (K.state disk.new).stopped ≡ is_err result }
{
    let mut bytes = [0xFF; 8];
    disk.read(0, &mut bytes)?;
    Ok(bytes)
}

/// The notes of a disk: `w`, its offset and its bytes, `s` or `r` for each call, and `!` after one
/// that wasn't done.
fn notes_of(alloc: Global, disk: &MemDisk) -> Result<Bytes, Fail> {
    let mut text = Bytes::new(alloc);
    for note in disk.notes() {
        put_note(&mut text, note)?;
    }
    Ok(text)
}

fn put_note(text: &mut Bytes, note: &Note) -> Result<(), NoMemory> {
    match &note.call {
        Call::Write { at, bytes } => {
            text.extend(b"w")?;
            text.extend(&at.to_be_bytes())?;
            text.extend(bytes.as_slice())?;
        }
        Call::Sync => text.extend(b"s")?,
        Call::Restart => text.extend(b"r")?,
    }
    if !note.done {
        text.extend(b"!")?;
    }
    Ok(())
}

fn five_calls<K: Disk>(disk: &mut K) -> Result<(), DiskFault>
    requires { (K.state disk.old).stopped ≡ false }
    ensures { (K.state disk.new).stopped ≡ is_err result }
{
    disk.write(1, &[7])?;
    disk.write(6, &[])?;
    disk.sync()?;
    disk.write(4, &[8, 9])?;
    prefix(disk)?;
    Ok(())
}

/// The notes after five calls and a restart, of which the call of this number and the next one
/// fail.
fn notes_of_failing(alloc: Global, call: u32) -> Result<Bytes, Fail> {
    let mut disk = MemDisk::new(alloc, &[1, 2, 3])?;
    let notes = fail_twice(alloc, &mut disk, call);
    drop(disk);
    notes
}

fn fail_twice(alloc: Global, disk: &mut MemDisk, call: u32) -> Result<Bytes, Fail>
    requires { (Mem.state_of disk.old).stopped ≡ false }
{
    disk.fail_at(call)?;
    disk.fail_at(call.saturating_add(1))?;
    let _ = five_calls(disk);
    let _ = disk.restart();
    disk.restart()?;
    notes_of(alloc, disk)
}

const NOTES: [(u32, &[u8]); 6] = [
    (1, b"w\0\0\0\x01\x07!r!r"),
    (2, b"w\0\0\0\x01\x07w\0\0\0\x06!r!r"),
    (3, b"w\0\0\0\x01\x07w\0\0\0\x06s!r!r"),
    (4, b"w\0\0\0\x01\x07w\0\0\0\x06sw\0\0\0\x04\x08\x09!r!r"),
    (5, b"w\0\0\0\x01\x07w\0\0\0\x06sw\0\0\0\x04\x08\x09r!r"),
    (9, b"w\0\0\0\x01\x07w\0\0\0\x06sw\0\0\0\x04\x08\x09rr"),
];

#[test]
fn each_call_of_a_disk_in_memory_fails_in_turn(rt: HostRuntime) -> Result<(), Fail> {
    for &(call, notes) in &NOTES {
        let found = notes_of_failing(rt.alloc(), call)?;
        assert_eq!(rt; found.as_slice(), notes, "call {call}");
    }
    Ok(())
}

fn six_calls<K: Disk>(disk: &mut K) -> Result<(), DiskFault>
    requires { (K.state disk.old).stopped ≡ false }
{
    disk.write(1, &[7, 8])?;
    disk.sync()?;
    disk.write(5, &[9])?;
    disk.write(6, &[10])?;
    disk.write(0, &[11])?;
    prefix(disk)?;
    Ok(())
}

/// A disk whose power can be lost, over one in memory: it reads as these bytes, and a power loss
/// leaves nothing else.
fn fused(alloc: Global, bytes: &[u8]) -> Result<Fused<MemDisk>, NoMemory>
    requires { length bytes.now ≤ SIZE }
    ensures running { IfOk result (λ disk. (state_of Mem.state_of disk).stopped ≡ false) }
    ensures reads { IfOk result (λ disk.
        (state_of Mem.state_of disk).reads ≡ Some (image_of bytes.now)) }
    ensures only_image { IfOk result (λ disk. IsSettled (state_of Mem.state_of disk)) }
    ensures counts { IfOk result (λ disk. ((state_of Mem.state_of disk).faults ≡ 0)
        × ((state_of Mem.state_of disk).refusals ≡ 0) × ((state_of Mem.state_of disk).armings ≡ 0)) }
{
    Ok(Fused::new(MemDisk::new(alloc, bytes)?))
}

/// The first bytes after a restart, where power is lost at this one of six calls.
fn after_a_loss(alloc: Global, calls: u32, pick: u32) -> Result<[u8; 8], Fail> {
    let mut disk = fused(alloc, &[1, 2, 3, 4, 5, 6, 7, 8])?;
    disk.arm(calls.max(1), pick);
    let bytes = lose(&mut disk);
    drop(disk);
    Ok(bytes?)
}

fn lose(disk: &mut Fused<MemDisk>) -> Result<[u8; 8], DiskFault>
    requires { (state_of Mem.state_of disk.old).stopped ≡ false }
{
    let _ = six_calls(disk);
    disk.restart()?;
    prefix(disk)
}

const SPOILED: [(u32, u32, [u8; 8]); 19] = [
    (1, 0, [1, 7, 8, 4, 5, 6, 7, 8]),
    (1, 1, [1, 0, 0, 4, 5, 6, 7, 8]),
    (1, 2, [1, 60, 117, 4, 5, 6, 7, 8]),
    (2, 0, [1, 7, 8, 4, 5, 6, 7, 8]),
    (2, 1, [1, 0, 0, 4, 5, 6, 7, 8]),
    (2, 2, [1, 60, 117, 4, 5, 6, 7, 8]),
    (3, 0, [1, 7, 8, 4, 5, 9, 7, 8]),
    (3, 1, [1, 7, 8, 4, 5, 0, 7, 8]),
    (3, 2, [1, 7, 8, 4, 5, 60, 7, 8]),
    (4, 0, [1, 7, 8, 4, 5, 9, 10, 8]),
    (4, 1, [1, 7, 8, 4, 5, 0, 0, 8]),
    (4, 2, [1, 7, 8, 4, 5, 60, 117, 8]),
    (5, 0, [0, 7, 8, 4, 5, 9, 10, 8]),
    (5, 1, [60, 7, 8, 4, 5, 0, 0, 8]),
    (5, 2, [11, 7, 8, 4, 5, 60, 117, 8]),
    (6, 0, [0, 7, 8, 4, 5, 9, 10, 8]),
    (6, 1, [60, 7, 8, 4, 5, 0, 0, 8]),
    (6, 2, [11, 7, 8, 4, 5, 60, 117, 8]),
    (5, u32::MAX, [11, 7, 8, 4, 5, 9, 10, 8]),
];

#[test]
fn a_power_loss_spoils_what_wasnt_synced(rt: HostRuntime) -> Result<(), Fail> {
    for &(calls, pick, bytes) in &SPOILED {
        let found = after_a_loss(rt.alloc(), calls, pick)?;
        assert_eq!(rt; found, bytes, "calls {calls} pick {pick}");
    }
    Ok(())
}

/// Four bytes, each one apart from the last.
fn four_ranges<K: Disk>(disk: &mut K, at: u32) -> Result<(), DiskFault>
    requires running { (K.state disk.old).stopped ≡ false }
    requires within { at ≤ 99 }
    ensures { (K.state disk.new).stopped ≡ is_err result }
{
    disk.write(at, &[9])?;
    disk.write(at + 2, &[9])?;
    disk.write(at + 4, &[9])?;
    disk.write(at + 6, &[9])
}

/// The first of 16 such bytes after a loss, where perhaps one more is written.
fn first_of_ranges(alloc: Global, more: bool) -> Result<u8, Fail> {
    let mut disk = fused(alloc, &[])?;
    let first = first_after(&mut disk, more);
    drop(disk);
    Ok(first?)
}

fn first_after(disk: &mut Fused<MemDisk>, more: bool) -> Result<u8, DiskFault>
    requires { (state_of Mem.state_of disk.old).stopped ≡ false }
{
    four_ranges(disk, 0)?;
    four_ranges(disk, 8)?;
    four_ranges(disk, 16)?;
    four_ranges(disk, 24)?;
    if more {
        disk.write(32, &[9])?;
    }
    disk.arm(0, 1);
    disk.restart()?;
    let bytes = prefix(disk)?;
    Ok(bytes[0])
}

#[test]
fn a_seventeenth_range_is_synced_before(rt: HostRuntime) -> Result<(), Fail> {
    assert_eq!(rt; first_of_ranges(rt.alloc(), false)?, 0);
    assert_eq!(rt; first_of_ranges(rt.alloc(), true)?, 9);
    Ok(())
}

/// Whether power is lost at the second sync after a restart, for which it was armed before, and
/// perhaps lost once more.
fn second_sync_fails(alloc: Global, again: bool) -> Result<bool, Fail> {
    let mut disk = fused(alloc, &[])?;
    disk.arm(0, 0);
    disk.arm(2, 0);
    if again {
        disk.arm(0, 0);
    }
    let fails = fails_later(&mut disk);
    drop(disk);
    Ok(fails?)
}

fn fails_later<K: Disk>(disk: &mut K) -> Result<bool, DiskFault> {
    disk.restart()?;
    disk.sync()?;
    Ok(disk.sync().is_err())
}

#[test]
fn an_arming_outlasts_a_restart(rt: HostRuntime) -> Result<(), Fail> {
    assert!(rt; second_sync_fails(rt.alloc(), false)?);
    assert!(rt; !second_sync_fails(rt.alloc(), true)?);
    Ok(())
}

/// Writes over two openings of a file, the first of which makes it.
fn write_file(rt: &HostRuntime, name: &str) -> Result<[u8; 8], DiskFault> {
    write_twice(&mut FileDisk::new(rt, &OpenedFiles::new(), name))
}

fn write_twice<K: Disk>(disk: &mut K) -> Result<[u8; 8], DiskFault>
    requires { (K.state disk.old).stopped ≡ false }
{
    disk.write(3, &[5, 6])?;
    disk.sync()?;
    disk.restart()?;
    disk.write(0, &[1])?;
    prefix(disk)
}

/// The last bytes of a disk in a file, and those from its end on.
fn ends(rt: &HostRuntime, name: &str) -> Result<[u8; 6], DiskFault> {
    six(&mut FileDisk::new(rt, &OpenedFiles::new(), name))
}

fn six<K: Disk>(disk: &mut K) -> Result<[u8; 6], DiskFault>
    requires { (K.state disk.old).stopped ≡ false }
{
    let mut bytes = [0xFF; 6];
    disk.read(4, &mut bytes[..3])?;
    disk.read(134_225_917, &mut bytes[3..])?;
    Ok(bytes)
}

/// Two bytes of a disk.
fn two<K: Disk>(disk: &mut K, at: u32) -> Result<[u8; 2], DiskFault>
    requires within { at ≤ 8 }
    requires running { (K.state disk.old).stopped ≡ false }
    ensures { (K.state disk.new).stopped ≡ is_err result }
{
    let mut bytes = [0xFF; 2];
    disk.read(at, &mut bytes)?;
    Ok(bytes)
}

/// Writes and reads of which most begin where the call before them ended.
fn back_to_back(rt: &HostRuntime, name: &str) -> Result<[[u8; 2]; 5], DiskFault> {
    write_on(&mut FileDisk::new(rt, &OpenedFiles::new(), name))
}

fn write_on<K: Disk>(disk: &mut K) -> Result<[[u8; 2]; 5], DiskFault>
    requires { (K.state disk.old).stopped ≡ false }
{
    disk.write(2, &[1, 2])?;
    disk.write(4, &[3])?;
    let past_the_end = two(disk, 5)?;
    let first = two(disk, 2)?;
    let second = two(disk, 4)?;
    disk.write(6, &[9])?;
    Ok([past_the_end, first, second, two(disk, 6)?, two(disk, 4)?])
}

fn read_first(rt: &HostRuntime, name: &str) -> Result<[u8; 8], DiskFault> {
    prefix(&mut FileDisk::new(rt, &OpenedFiles::new(), name))
}

fn sync_file(rt: &HostRuntime, name: &str) -> Result<(), DiskFault> {
    FileDisk::new(rt, &OpenedFiles::new(), name).sync()
}

/// What a disk in a file that isn't there reads; whether the file is there after a sync; and what
/// it has after writes over two openings.
fn made_by_a_write(rt: &HostRuntime, name: &str) -> Result<([u8; 8], bool, [u8; 8]), Fail> {
    let read = read_first(rt, name)?;
    sync_file(rt, name)?;
    let is_there = fs::read(rt, name).is_ok();
    Ok((read, is_there, write_file(rt, name)?))
}

#[test]
fn a_disk_in_a_file_reads_what_was_written(rt: HostRuntime) -> Result<(), Fail> {
    let name = "a_disk_in_a_file.disk";
    let wanted = ([0; 8], false, [1, 0, 0, 5, 6, 0, 0, 0]);
    assert!(rt; made_by_a_write(&rt, name)? == wanted);
    assert!(rt; ends(&rt, name)? == [6, 0, 0, 0, 0, 0]);
    assert!(rt; fs::read(&rt, name)?.as_slice() == [1, 0, 0, 5, 6].as_slice());
    fs::remove_file(&rt, name)?;
    Ok(())
}

#[test]
fn a_disk_in_a_file_goes_on_where_it_ended(rt: HostRuntime) -> Result<(), Fail> {
    let name = "back_to_back.disk";
    let wanted = [[0, 0], [1, 2], [3, 0], [9, 0], [3, 0]];
    assert!(rt; back_to_back(&rt, name)? == wanted);
    fs::remove_file(&rt, name)?;
    Ok(())
}

/// A disk whose power can be lost, over one in a file.
fn fused_file<'r>(
    rt: &'r HostRuntime,
    opened: &'r OpenedFiles,
    name: &'r str,
) -> Fused<FileDisk<'r, HostRuntime>>
    ensures running { (state_of File.state_of result).stopped ≡ false }
    ensures counts { ((state_of File.state_of result).faults ≡ 0)
        × ((state_of File.state_of result).refusals ≡ 0)
        × ((state_of File.state_of result).armings ≡ 0) }
{
    Fused::new(FileDisk::new(rt, opened, name))
}

/// Whether a write fails at which power is lost over a file, and the first bytes after another one.
fn lost_over_a_file(rt: &HostRuntime, name: &str) -> Result<(bool, [u8; 8]), Fail> {
    let opened = OpenedFiles::new();
    let mut disk = fused_file(rt, &opened, name);
    disk.arm(1, 1);
    let found = write_at_a_loss(&mut disk);
    drop(disk);
    Ok(found?)
}

fn write_at_a_loss<K: Disk>(disk: &mut K) -> Result<(bool, [u8; 8]), DiskFault>
    requires { (K.state disk.old).stopped ≡ false }
{
    let lost = disk.write(1, &[7, 8]) == Err(DiskFault::Failed);
    disk.restart()?;
    disk.write(4, &[5])?;
    Ok((lost, prefix(disk)?))
}

#[test]
fn power_is_lost_over_a_file(rt: HostRuntime) -> Result<(), Fail> {
    let name = "power_is_lost.disk";
    assert!(rt; lost_over_a_file(&rt, name)? == (true, [0, 0, 0, 0, 5, 0, 0, 0]));
    fs::remove_file(&rt, name)?;
    Ok(())
}

/// Whether the second of two disks of a program fails, while the first has the file.
fn second_fails<'r>(
    rt: &'r HostRuntime,
    first: &'r str,
    second: &'r str,
) -> Result<bool, DiskFault> {
    let opened = OpenedFiles::new();
    let mut disk = fused_file(rt, &opened, first);
    let answer = read_beside(&mut disk, &mut fused_file(rt, &opened, second));
    drop(disk);
    answer
}

fn read_beside<K: Disk>(first: &mut K, second: &mut K) -> Result<bool, DiskFault>
    requires running { (K.state first.old).stopped ≡ false }
    requires beside { (K.state second.old).stopped ≡ false }
{
    first.write(0, &[1])?;
    let failed = second.read(0, &mut [0]) == Err(DiskFault::Failed);
    first.sync()?;
    Ok(failed)
}

/// A link in the file system, by a name of its own or by the other's, and one name for both.
#[test]
fn two_disks_have_no_file_in_common(rt: HostRuntime) -> Result<(), Fail> {
    let (name, other) = ("one_of_two.disk", "other_of_two.disk");
    fs::write(&rt, name, [7].as_slice())?;
    fs::write(&rt, other, [7].as_slice())?;
    fs::hard_link(&rt, name, "hard_link.disk")?;
    symlink(&rt, name, "symbolic_link.disk")?;
    assert!(rt; second_fails(&rt, name, "hard_link.disk")?);
    assert!(rt; second_fails(&rt, "symbolic_link.disk", name)?);
    assert!(rt; second_fails(&rt, name, name)?);
    assert!(rt; !second_fails(&rt, name, other)?);
    for made in [name, other, "hard_link.disk", "symbolic_link.disk"] {
        fs::remove_file(&rt, made)?;
    }
    Ok(())
}

/// Whether a write fails on the disk of each of these files, all of one program.
fn fail_each(rt: &HostRuntime, names: &[&str; 9]) -> [bool; 9] {
    let opened = OpenedFiles::new();
    let mut failed = [false; 9];
    for (failed, name) in failed.iter_mut().zip(names) {
        *failed = fails(&mut fused_file(rt, &opened, name));
    }
    failed
}

fn fails<K: Disk>(disk: &mut K) -> bool
    requires { (K.state disk.old).stopped ≡ false }
{
    disk.write(0, &[1]) == Err(DiskFault::Failed)
}

const NINE: [&str; 9] = [
    "1_of_9.disk",
    "2_of_9.disk",
    "3_of_9.disk",
    "4_of_9.disk",
    "5_of_9.disk",
    "6_of_9.disk",
    "7_of_9.disk",
    "8_of_9.disk",
    "9_of_9.disk",
];

#[test]
fn a_ninth_file_is_refused(rt: HostRuntime) -> Result<(), Fail> {
    let eight_open = [false, false, false, false, false, false, false, false, true];
    assert!(rt; fail_each(&rt, &NINE) == eight_open);
    for name in &NINE {
        fs::remove_file(&rt, *name)?;
    }
    Ok(())
}

#[test]
fn a_folder_is_no_disk(rt: HostRuntime) -> Result<(), Fail> {
    assert!(rt; read_first(&rt, ".") == Err(DiskFault::Failed));
    assert!(rt; write_file(&rt, "no_such_folder/a.disk") == Err(DiskFault::Failed));
    assert!(rt; write_file(&rt, ".") == Err(DiskFault::Failed));
    Ok(())
}
