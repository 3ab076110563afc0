//! The listing of a disk, of whose files no contents are kept.
ghost use Rattle.std.specs.Prelude.{◌≡◌, ◌+◌, ◌≤◌, Ok, false, length, IfOk, IfErr, OnOk};
ghost use Rattle.std.specs.Option.{ForSome};
ghost use Rattle.bank_store.specs.DiskWrites.{IsRunning};
ghost use Rattle.disk_layout.specs.DiskReads.{IsOfDisk, ReadsDisk};
ghost use Rattle.disk_layout.specs.Holds.{Refuses};
ghost use Rattle.disk_layout.specs.Manifest.{entry_view, left_in, entries_length};
ghost use Rattle.recovery.specs.Listings.{IsListing, ListsFile, ListsFiles, ListsLoad, ListsAll};
ghost use Rattle.recovery.specs.Outlines.{AreLoadsAt};
ghost use Rattle.recovery.specs.Parts.{HasAFile};

use crate::manifests::outline_on;
use crate::reading::{PIECE, sum_on};
use disk_layout::{ManifestFault, ManifestFile, ManifestLoad, ManifestReader, RecoverFault};
use disk_model::{Disk, SIZE};
use listing::{put_bank, put_count, put_file_line, put_load_line, put_target};
use load_base::Bytes;
use std::alloc::Global;

/// The listing of the configuration that a disk holds, where the disk tells its content the same
/// text as [`listing::listing_text`] of what [`crate::recover`] gives. Nothing is written. Each
/// file's contents are read, and only their check sum is kept; the manifest is kept as bytes, and
/// read load by load (no clause says how much is kept). The first condition that fails is the
/// refusal. After V1 to V4 the disk runs on, after DiskFailed not until a restart.
pub fn list<K: Disk>(alloc: Global, disk: &mut K) -> Result<Bytes, RecoverFault>
    requires { IsRunning (K.state disk.old) }
    ensures listed { IfOk result (λ text. IsListing (K.state disk.old).reads text.items) }
    ensures refused { IfErr result (λ fault. ForSome (K.state disk.old).reads
        (λ image. Refuses image fault)) }
    ensures reads_disk { ReadsDisk (K.state disk.old) (K.state disk.new) result }
{
    let found = outline_on(alloc, disk)?;
    let start = found.active.bank.offset(found.identity.bank);
    // It was read before, so that it has no fault.
    let Ok(mut loads) = ManifestReader::new(found.manifest.as_slice()) else {
        unreachable!()
    };
    let mut out = Bytes::new(alloc);
    put_target(&mut out, &found.identity)?;
    put_bank(
        alloc,
        &mut out,
        found.active.bank.number(),
        found.active.sequence,
    )?;
    put_count(alloc, &mut out, usize::from(loads.left()))?;
    let mut buffer = [0; PIECE];
    put_loads(alloc, disk, start, &mut loads, &mut buffer, &mut out)?;
    Ok(out)
}

/// The loads that are left, whose files stand back to back from `start` on.
fn put_loads<K: Disk>(
    alloc: Global,
    disk: &mut K,
    start: u32,
    loads: &mut ManifestReader<'_>,
    buffer: &mut [u8],
    out: &mut Bytes,
) -> Result<(), RecoverFault>
    requires running { (K.state disk.old).stopped ≡ false }
    requires loads { AreLoadsAt (left_in loads.old) start SIZE }
    requires buffer { 1 ≤ length buffer.old }
    ensures listed { OnOk result (ListsAll (K.state disk.old).reads start (left_in loads.old)
        out.old.items out.new.items) }
    ensures refused { IfErr result (λ fault. IsOfDisk fault) }
    ensures reads_disk { ReadsDisk (K.state disk.old) (K.state disk.new) result }
{
    let mut at = start;
    let count = loads.left();
    for _ in 0..count {
        let load = match loads.next_load(alloc) {
            Ok(load) => load,
            Err(ManifestFault::Memory) => return Err(RecoverFault::Memory),
            // The premise says that the rest is a manifest's.
            Err(ManifestFault::Wrong(_)) => unreachable!(),
        };
        at = put_load(alloc, disk, at, &load, buffer, out)?;
    }
    match loads.end() {
        Ok(()) => Ok(()),
        // All loads were read, and the manifest ends after them.
        Err(_) => unreachable!(),
    }
}

/// This load, whose files stand from `at` on. The offset after them.
fn put_load<K: Disk>(
    alloc: Global,
    disk: &mut K,
    at: u32,
    entry: &ManifestLoad,
    buffer: &mut [u8],
    out: &mut Bytes,
) -> Result<u32, RecoverFault>
    requires running { (K.state disk.old).stopped ≡ false }
    requires within { at + entries_length entry.now.files.items ≤ SIZE }
    requires files { HasAFile (entry_view entry.now) }
    requires buffer { 1 ≤ length buffer.old }
    ensures end { IfOk result (λ end. end ≡ at + entries_length entry.now.files.items) }
    ensures listed { OnOk result (ListsLoad (K.state disk.old).reads at (entry_view entry.now)
        out.old.items out.new.items) }
    ensures refused { IfErr result (λ fault. IsOfDisk fault) }
    ensures reads_disk { ReadsDisk (K.state disk.old) (K.state disk.new) result }
{
    let files = entry.files.as_slice();
    put_load_line(alloc, out, &entry.part, &files[0].name, files.len())?;
    put_files(alloc, disk, at, files, buffer, out)
}

/// These files, which stand back to back from `start` on. The offset after them.
fn put_files<K: Disk>(
    alloc: Global,
    disk: &mut K,
    start: u32,
    files: &[ManifestFile],
    buffer: &mut [u8],
    out: &mut Bytes,
) -> Result<u32, RecoverFault>
    requires running { (K.state disk.old).stopped ≡ false }
    requires within { start + entries_length files.now ≤ SIZE }
    requires buffer { 1 ≤ length buffer.old }
    ensures end { IfOk result (λ end. end ≡ start + entries_length files.now) }
    ensures listed { OnOk result (ListsFiles (K.state disk.old).reads start files.now
        out.old.items out.new.items) }
    ensures refused { IfErr result (λ fault. IsOfDisk fault) }
    ensures reads_disk { ReadsDisk (K.state disk.old) (K.state disk.new) result }
{
    let mut at = start;
    for file in files {
        put_file(alloc, disk, at, file, buffer, out)?;
        at += file.length;
    }
    Ok(at)
}

/// This file, which stands from `at` on.
fn put_file<K: Disk>(
    alloc: Global,
    disk: &mut K,
    at: u32,
    file: &ManifestFile,
    buffer: &mut [u8],
    out: &mut Bytes,
) -> Result<(), RecoverFault>
    requires running { (K.state disk.old).stopped ≡ false }
    requires within { at + file.now.length ≤ SIZE }
    requires buffer { 1 ≤ length buffer.old }
    ensures listed { OnOk result (ListsFile (K.state disk.old).reads at file.now out.old.items
        out.new.items) }
    ensures refused { IfErr result (λ fault. IsOfDisk fault) }
    ensures reads_disk { ReadsDisk (K.state disk.old) (K.state disk.new) result }
{
    let sum = sum_on(disk, at, file.length, buffer)?;
    put_file_line(alloc, out, &file.name, file.length as usize, sum)?;
    Ok(())
}
