//! The contents of a bank, read from the disk.
ghost use Rattle.std.specs.Prelude.{◌≡◌, ◌+◌, ◌≤◌, false, map, length, IfOk, IfErr};
ghost use Rattle.std.specs.Option.{ForSome};
ghost use Rattle.std.specs.List.{All};
ghost use Rattle.load_base.specs.Config.{file_view, load_view};
ghost use Rattle.disk_model.specs.Image.{range};
ghost use Rattle.disk_layout.specs.Manifest.{entry_view, total_length, entries_length};
ghost use Rattle.disk_layout.specs.Contents.{file_entry_of, entries_of, bytes_of};
ghost use Rattle.disk_layout.specs.Contents.{contents_of_loads, HeadersAreFirst};
ghost use Rattle.disk_layout.specs.DiskReads.{IsOfDisk, ReadsDisk};
ghost use Rattle.recovery.specs.Parts.{HasAFile, IsLoadOfEntry};

use crate::reading::bytes_on;
use disk_layout::{ManifestFile, ManifestLoad, RecoverFault};
use disk_model::{Disk, SIZE};
use load_base::{List, Load, StoredFile};
use std::alloc::Global;

/// These loads, whose files stand back to back from `start` on.
pub(crate) fn loads_on<K: Disk>(
    alloc: Global,
    disk: &mut K,
    start: u32,
    entries: &[ManifestLoad],
) -> Result<List<Load>, RecoverFault>
    requires running { (K.state disk.old).stopped ≡ false }
    requires within { start + total_length (map entry_view entries.now) ≤ SIZE }
    requires files { All (λ entry. HasAFile entry) (map entry_view entries.now) }
    ensures entries { IfOk result
        (λ loads. entries_of (map load_view loads.items) ≡ map entry_view entries.now) }
    ensures headers { IfOk result (λ loads. HeadersAreFirst (map load_view loads.items)) }
    ensures bytes { IfOk result (λ loads. ForSome (K.state disk.old).reads
        (λ image. contents_of_loads (map load_view loads.items)
        ≡ range image start (total_length (map entry_view entries.now)))) }
    ensures refused { IfErr result (λ fault. IsOfDisk fault) }
    ensures reads_disk { ReadsDisk (K.state disk.old) (K.state disk.new) result }
{
    let mut loads = List::new(alloc);
    let mut at = start;
    for entry in entries {
        let (load, end) = load_on(alloc, disk, at, entry)?;
        loads.push(load)?;
        at = end;
    }
    Ok(loads)
}

/// This load, whose files stand from `at` on, and the offset after them.
fn load_on<K: Disk>(
    alloc: Global,
    disk: &mut K,
    at: u32,
    entry: &ManifestLoad,
) -> Result<(Load, u32), RecoverFault>
    requires running { (K.state disk.old).stopped ≡ false }
    requires within { at + entries_length entry.now.files.items ≤ SIZE }
    requires files { HasAFile (entry_view entry.now) }
    ensures of_entry { IfOk result (λ x. IsLoadOfEntry (load_view x.0) (entry_view entry.now)) }
    ensures end { IfOk result (λ x. x.1 ≡ at + entries_length entry.now.files.items) }
    ensures bytes { IfOk result (λ x. ForSome (K.state disk.old).reads
        (λ image. bytes_of (load_view x.0).files
        ≡ range image at (entries_length entry.now.files.items))) }
    ensures refused { IfErr result (λ fault. IsOfDisk fault) }
    ensures reads_disk { ReadsDisk (K.state disk.old) (K.state disk.new) result }
{
    let (files, end) = files_on(alloc, disk, at, entry.files.as_slice())?;
    let load = Load {
        part: entry.part,
        type_id: entry.type_id,
        header_name: entry.files.as_slice()[0].name,
        files,
    };
    Ok((load, end))
}

/// These files, which stand back to back from `start` on, and the offset after them.
fn files_on<K: Disk>(
    alloc: Global,
    disk: &mut K,
    start: u32,
    files: &[ManifestFile],
) -> Result<(List<StoredFile>, u32), RecoverFault>
    requires running { (K.state disk.old).stopped ≡ false }
    requires within { start + entries_length files.now ≤ SIZE }
    ensures entries { IfOk result (λ x. map file_entry_of (map file_view x.0.items) ≡ files.now) }
    ensures end { IfOk result (λ x. x.1 ≡ start + entries_length files.now) }
    ensures bytes { IfOk result (λ x. ForSome (K.state disk.old).reads
        (λ image. bytes_of (map file_view x.0.items) ≡ range image start
        (entries_length files.now))) }
    ensures refused { IfErr result (λ fault. IsOfDisk fault) }
    ensures reads_disk { ReadsDisk (K.state disk.old) (K.state disk.new) result }
{
    let mut stored = List::new(alloc);
    let mut at = start;
    for file in files {
        let bytes = bytes_on(alloc, disk, at, file.length)?;
        stored.push(StoredFile {
            name: file.name,
            bytes,
        })?;
        at += file.length;
    }
    Ok((stored, at))
}
