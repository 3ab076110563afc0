//! Opening a media set in a folder of the host.
ghost use Rattle.std.specs.Prelude.{◌≡◌, ◌≤◌, ◌-◌, ◌∷◌, ◌++◌, All, [], length, map, None, IfOk};
ghost use Rattle.std.specs.Prelude.{OnOk};
ghost use Rattle.std.specs.Option.{ForSome};
ghost use Rattle.std.specs.HashMap.{get, keys, values};
ghost use Rattle.std.specs.List.{range_with_len, flat_map};
ghost use Rattle.load_base.specs.Bytes.{same_bytes};
ghost use Rattle.load_base.specs.Host.{longest_file};
ghost use Rattle.batch_lists.specs.Batches.{batches_list, batches_list_view};
ghost use Rattle.media_lists.specs.Files.{files_list, files_list_view, file_name};
ghost use Rattle.media_lists.specs.ListFields.{AreNew};
ghost use Rattle.media_lists.specs.Loads.{loads_list, loads_list_view};
ghost use Rattle.media_check.specs.HostNames.{loads_name, files_name, batches_name};
ghost use Rattle.media_check.specs.HostNames.{host_media, list_names};
ghost use Rattle.media_check.specs.Kept.{bytes_view, IsShortFile, contents};
ghost use Rattle.media_check.specs.Openings.{Opens, OpensRest, ReadsNames, ReadsList, KeepsNext};
ghost use Rattle.media_check.specs.Openings.{AreKeptInRange, KeepsListed, HasOpenCause};
ghost use Rattle.media_check.specs.Sets.{found_view, lists_view, lists_in, further_members};
ghost use Rattle.media_check.specs.Sets.{entries_of, IsFoundFiles};

use crate::batches::batches_among;
use crate::fault::{LARGEST_SET, OpenFault};
use crate::found::{Found, batches_in, files_in, loads_in};
use crate::names::host_name;
use crate::set::{KeptFile, MediaSet, MemberLists};
use batch_lists::{BatchesFault, BatchesList};
use indexmap::IndexMap;
use load_base::{Bytes, Host, List, Name, NoMemory, ReadFault};
use media_lists::{FilesList, ListFault, ListedFile, LoadsList};
use std::alloc::Global;

/// Opens the set in this folder: reads the three lists of member 1, those of the further members
/// that its `LOADS.LUM` counts, and each file that its `FILES.LUM` lists (docs/FORMATS.md). A list
/// or file that is absent, and a list or batch that is refused, is no fault here.
pub fn open_set<H: Host>(alloc: Global, host: &mut H, folder: &[u8]) -> Result<MediaSet, OpenFault>
    ensures opens { ForSome (H.files host.old) (Opens folder.now result) }
    ensures cause { HasOpenCause (H.faults host.old) (H.faults host.new) result }
    ensures kept { H.files host.new ≡ H.files host.old }
{
    let loads = read_loads_list(alloc, host, folder, 1)?;
    let files = read_files_list(alloc, host, folder, 1)?;
    let batches = read_batches_list(alloc, host, folder, 1)?;
    open_rest(alloc, host, folder, loads, files, batches)
}

/// Reads `LOADS.LUM` of a member, the first part of an opening.
pub fn read_loads_list<H: Host>(
    alloc: Global,
    host: &mut H,
    folder: &[u8],
    member: u16,
) -> Result<Found<LoadsList, ListFault>, OpenFault>
    ensures reads { ForSome (H.files host.old)
        (ReadsList loads_list_view loads_list (loads_name folder.now member) result) }
    ensures cause { HasOpenCause (H.faults host.old) (H.faults host.new) result }
    ensures kept { H.files host.new ≡ H.files host.old }
{
    let name = host_name(alloc, folder, member, b"\\", b"LOADS.LUM")?;
    match read_file(alloc, host, name)? {
        Some(bytes) => Ok(loads_in(alloc, bytes.as_slice())?),
        None => Ok(Found::Missing),
    }
}

/// Reads `FILES.LUM` of a member, after its `LOADS.LUM`.
pub fn read_files_list<H: Host>(
    alloc: Global,
    host: &mut H,
    folder: &[u8],
    member: u16,
) -> Result<Found<FilesList, ListFault>, OpenFault>
    ensures reads { ForSome (H.files host.old)
        (ReadsList files_list_view files_list (files_name folder.now member) result) }
    ensures spelled { IfOk result (λ found. IsFoundFiles (found_view files_list_view found)) }
    ensures cause { HasOpenCause (H.faults host.old) (H.faults host.new) result }
    ensures kept { H.files host.new ≡ H.files host.old }
{
    let name = host_name(alloc, folder, member, b"\\", b"FILES.LUM")?;
    match read_file(alloc, host, name)? {
        Some(bytes) => Ok(files_in(alloc, bytes.as_slice())?),
        None => Ok(Found::Missing),
    }
}

/// Reads `BATCHES.LUM` of a member, after its `FILES.LUM`.
pub fn read_batches_list<H: Host>(
    alloc: Global,
    host: &mut H,
    folder: &[u8],
    member: u16,
) -> Result<Found<BatchesList, BatchesFault>, OpenFault>
    ensures reads { ForSome (H.files host.old)
        (ReadsList batches_list_view batches_list (batches_name folder.now member) result) }
    ensures cause { HasOpenCause (H.faults host.old) (H.faults host.new) result }
    ensures kept { H.files host.new ≡ H.files host.old }
{
    let name = host_name(alloc, folder, member, b"\\", b"BATCHES.LUM")?;
    match read_file(alloc, host, name)? {
        Some(bytes) => Ok(batches_in(alloc, bytes.as_slice())?),
        None => Ok(Found::Missing),
    }
}

/// Opens the rest of a set whose lists of member 1 were read: the lists of the further members, and
/// the listed files. Who stops at a list of member 1 that is absent or refused calls this after a
/// look at it.
pub fn open_rest<H: Host>(
    alloc: Global,
    host: &mut H,
    folder: &[u8],
    loads: Found<LoadsList, ListFault>,
    files: Found<FilesList, ListFault>,
    batches: Found<BatchesList, BatchesFault>,
) -> Result<MediaSet, OpenFault>
    requires { IsFoundFiles (found_view files_list_view files) }
    ensures opens { ForSome (H.files host.old) (OpensRest folder.now
        (record {
          loads = found_view loads_list_view loads;
          files = found_view files_list_view files;
          batches = found_view batches_list_view batches;
        }) result) }
    ensures cause { HasOpenCause (H.faults host.old) (H.faults host.new) result }
    ensures kept { H.files host.new ≡ H.files host.old }
{
    let further = read_further(alloc, host, folder, count_further(&loads))?;
    let kept = read_bodies(alloc, host, folder, &files)?;
    let found = batches_among(alloc, &batches, &kept)?;
    Ok(MediaSet {
        first: MemberLists {
            loads,
            files,
            batches,
        },
        further,
        files: kept,
        batches: found,
    })
}

/// The file of this name; `None` where it is absent.
fn read_file<H: Host>(alloc: Global, host: &mut H, name: Bytes) -> Result<Option<Bytes>, OpenFault>
    ensures reads { ForSome (H.files host.old)
        (ReadsNames (name.items ∷ []) (λ files file. bytes_view file ≡ files name.items) result) }
    ensures short { IfOk result (λ file. length (contents (bytes_view file)) ≤ longest_file) }
    ensures cause { HasOpenCause (H.faults host.old) (H.faults host.new) result }
    ensures kept { H.files host.new ≡ H.files host.old }
{
    match host.read(alloc, name.as_slice()) {
        Ok(bytes) => Ok(Some(bytes)),
        Err(ReadFault::Absent) => Ok(None),
        Err(ReadFault::TooLong) => Err(OpenFault::TooLong(name)),
        Err(ReadFault::Failed) => Err(OpenFault::Failed),
        Err(ReadFault::Memory) => Err(OpenFault::Memory),
    }
}

/// The lists of a member.
fn read_member<H: Host>(
    alloc: Global,
    host: &mut H,
    folder: &[u8],
    member: u16,
) -> Result<MemberLists, OpenFault>
    ensures reads { ForSome (H.files host.old) (ReadsNames (list_names folder.now member)
        (λ files lists. lists_view lists ≡ lists_in (host_media files folder.now) member) result) }
    ensures cause { HasOpenCause (H.faults host.old) (H.faults host.new) result }
    ensures kept { H.files host.new ≡ H.files host.old }
{
    let loads = read_loads_list(alloc, host, folder, member)?;
    let files = read_files_list(alloc, host, folder, member)?;
    let batches = read_batches_list(alloc, host, folder, member)?;
    Ok(MemberLists {
        loads,
        files,
        batches,
    })
}

/// How many members there are beside the first.
pub(crate) fn count_further(loads: &Found<LoadsList, ListFault>) -> u16
    ensures members { range_with_len 2 result
        ≡ further_members (found_view loads_list_view loads.now) }
    ensures few { result ≤ 254 }
{
    match loads {
        Found::Read(list) => u16::from(list.members.saturating_sub(1)),
        _ => 0,
    }
}

/// The lists of this many members from 2 on.
fn read_further<H: Host>(
    alloc: Global,
    host: &mut H,
    folder: &[u8],
    count: u16,
) -> Result<List<MemberLists>, OpenFault>
    requires { count ≤ 254 }
    ensures reads { ForSome (H.files host.old) (ReadsNames (flat_map (list_names folder.now)
        (range_with_len 2 count))
        (λ files further. map lists_view further.items
        ≡ map (lists_in (host_media files folder.now)) (range_with_len 2 count))
        result) }
    ensures few { IfOk result (λ further. length further.items ≤ 254) }
    ensures cause { HasOpenCause (H.faults host.old) (H.faults host.new) result }
    ensures kept { H.files host.new ≡ H.files host.old }
{
    let mut further = List::new(alloc);
    for index in 0..count {
        let lists = read_member(alloc, host, folder, 2 + index)?;
        further.push(lists)?;
    }
    Ok(further)
}

/// Reads what member 1's list of files lists, and keeps it; nothing where it wasn't read.
fn read_bodies<H: Host>(
    alloc: Global,
    host: &mut H,
    folder: &[u8],
    files: &Found<FilesList, ListFault>,
) -> Result<IndexMap<Name, KeptFile>, OpenFault>
    requires { IsFoundFiles (found_view files_list_view files.now) }
    ensures keeps { ForSome (H.files host.old)
        (KeepsListed (λ kept. kept.entries) folder.now (entries_of
        (found_view files_list_view files.now)) result) }
    ensures short { IfOk result (λ kept. All IsShortFile (values kept)) }
    ensures cause { HasOpenCause (H.faults host.old) (H.faults host.new) result }
    ensures kept { H.files host.new ≡ H.files host.old }
{
    match files {
        Found::Read(list) => read_listed(alloc, host, folder, list.files.as_slice()),
        _ => Ok(IndexMap::new(alloc)),
    }
}

/// Reads each listed file, and keeps it.
fn read_listed<H: Host>(
    alloc: Global,
    host: &mut H,
    folder: &[u8],
    entries: &[ListedFile],
) -> Result<IndexMap<Name, KeptFile>, OpenFault>
    requires { AreNew file_name [] entries.now }
    ensures keeps { ForSome (H.files host.old) (KeepsListed
        (λ kept. kept.entries) folder.now entries.now result) }
    ensures short { IfOk result (λ kept. All IsShortFile (values kept)) }
    ensures cause { HasOpenCause (H.faults host.old) (H.faults host.new) result }
    ensures kept { H.files host.new ≡ H.files host.old }
{
    let mut kept = IndexMap::new(alloc);
    let mut total = 0;
    for entry in entries {
        total = keep_next(alloc, host, folder, entry, &mut kept, total)?;
    }
    Ok(kept)
}

/// Reads a listed file and keeps it beside those before it, which have `total` bytes together.
/// Gives the bytes of all.
fn keep_next<H: Host>(
    alloc: Global,
    host: &mut H,
    folder: &[u8],
    entry: &ListedFile,
    kept: &mut IndexMap<Name, KeptFile>,
    total: usize,
) -> Result<usize, OpenFault>
    requires new { get same_bytes kept.old entry.now.name ≡ None }
    requires in_range { AreKeptInRange (values kept.old) total }
    ensures keeps { ForSome (H.files host.old)
        (KeepsNext folder.now entry.now total kept.old.entries kept.new.entries result) }
    ensures keys { OnOk result (keys kept.new ≡ keys kept.old ++ entry.now.name ∷ []) }
    ensures in_range { IfOk result (λ sum. AreKeptInRange (values kept.new) sum) }
    ensures cause { HasOpenCause (H.faults host.old) (H.faults host.new) result }
    ensures kept { H.files host.new ≡ H.files host.old }
{
    let name = host_name(
        alloc,
        folder,
        entry.member,
        entry.path.as_slice(),
        entry.name.as_slice(),
    )?;
    let bytes = read_file(alloc, host, name)?;
    let sum = total + length_of(&bytes);
    if sum > LARGEST_SET {
        return Err(OpenFault::TooLarge);
    }
    let file = KeptFile {
        member: entry.member,
        bytes,
    };
    keep(kept, entry.name, file)?;
    Ok(sum)
}

/// Keeps a file with a new name. It goes last.
pub(crate) fn keep(
    kept: &mut IndexMap<Name, KeptFile>,
    name: Name,
    file: KeptFile,
) -> Result<(), NoMemory>
    requires { get same_bytes kept.old name ≡ None }
    ensures { OnOk result (kept.new.entries ≡ kept.old.entries ++ (name, file) ∷ []) }
{
    kept.insert(name, file)?;
    Ok(())
}

fn length_of(bytes: &Option<Bytes>) -> usize
    ensures { result ≡ length (contents (bytes_view bytes.now)) }
{
    match bytes {
        Some(bytes) => bytes.len(),
        None => 0,
    }
}
