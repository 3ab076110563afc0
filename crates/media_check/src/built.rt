//! A media set that was built, and the set in memory that it is.
ghost use Rattle.std.specs.Prelude.{◌≡◌, ◌≤◌, List as Items, ℕ, [], All, length, map, option_map};
ghost use Rattle.std.specs.Prelude.{IfOk};
ghost use Rattle.std.specs.HashMap.{values};
ghost use Rattle.std.specs.List.{range_with_len};
ghost use Rattle.std.specs.Map.{lookup};
ghost use Rattle.load_base.specs.Bytes.{same_bytes};
ghost use Rattle.media_lists.specs.Files.{files_list_view, file_name};
ghost use Rattle.media_lists.specs.ListFields.{AreNew};
ghost use Rattle.media_check.specs.BuiltSets.{built_media, member_list, body_of, built_lists};
ghost use Rattle.media_check.specs.BuiltSets.{file_with, HasShortBodies, HasShortBytes};
ghost use Rattle.media_check.specs.Kept.{bytes_view, IsShortFile};
ghost use Rattle.media_check.specs.Sets.{set_view, set_in, lists_view, found_view, files_view};
ghost use Rattle.media_check.specs.Sets.{entries_of, IsFoundFiles};

use crate::batches::batches_among;
use crate::found::{Found, batches_in, files_in, loads_in};
use crate::opening::{count_further, keep};
use crate::set::{KeptFile, MediaSet, MemberLists};
use indexmap::IndexMap;
use load_base::{Bytes, List, Name, NoMemory};
use media_lists::{FilesList, ListFault, ListedFile};
use std::alloc::Global;

/// A file of a set that was built.
#[derive(Drop)]
pub struct Placed {
    /// The member that has it, from 1.
    pub member: u16,
    pub name: Name,
    pub bytes: Bytes,
}

/// A set as it is built: the bytes of the lists of each member, from member 1 on, and the files in
/// the order of `FILES.LUM`.
#[derive(Drop)]
pub struct Built {
    /// `LOADS.LUM` of each member.
    pub loads: List<Bytes>,
    /// `FILES.LUM` of each member.
    pub files: List<Bytes>,
    /// `BATCHES.LUM` of each member; none of a set without batches.
    pub batches: List<Bytes>,
    pub bodies: List<Placed>,
}

impl MediaSet {
    /// The set of these lists and files, as opening the folder gives it in which they were written:
    /// each list as its bytes are read, and each file that member 1's `FILES.LUM` lists with the
    /// first body of its name.
    pub fn from_parts(alloc: Global, built: Built) -> Result<MediaSet, NoMemory>
        requires { HasShortBodies built }
        ensures { IfOk result (λ set. set_view set ≡ set_in (built_media built)) }
    {
        let Built {
            loads,
            files,
            batches,
            bodies,
        } = built;
        let (loads, files, batches) = (loads.as_slice(), files.as_slice(), batches.as_slice());
        let first = member_lists(alloc, loads, files, batches, 1)?;
        let count = count_further(&first.loads);
        let further = further_lists(alloc, loads, files, batches, count)?;
        let bodies = by_name(alloc, bodies)?;
        let files = listed_bodies(alloc, &first.files, bodies)?;
        let batches = batches_among(alloc, &first.batches, &files)?;
        Ok(MediaSet {
            first,
            further,
            files,
            batches,
        })
    }
}

/// The list of this member, where there is one.
fn list_of(lists: &[Bytes], member: u16) -> Option<&[u8]>
    requires { 1 ≤ member }
    ensures { option_map (λ list. list.now) result ≡ member_list lists.now member }
{
    match lists.get(usize::from(member) - 1) {
        Some(list) => Some(list.as_slice()),
        None => None,
    }
}

/// The lists of this member, as their bytes are read.
fn member_lists(
    alloc: Global,
    loads: &[Bytes],
    files: &[Bytes],
    batches: &[Bytes],
    member: u16,
) -> Result<MemberLists, NoMemory>
    requires { 1 ≤ member }
    ensures lists { IfOk result (λ lists. lists_view lists
        ≡ built_lists loads.now files.now batches.now member) }
    ensures spelled { IfOk result (λ lists. IsFoundFiles (found_view files_list_view lists.files)) }
{
    let loads = match list_of(loads, member) {
        Some(bytes) => loads_in(alloc, bytes)?,
        None => Found::Missing,
    };
    let files = match list_of(files, member) {
        Some(bytes) => files_in(alloc, bytes)?,
        None => Found::Missing,
    };
    let batches = match list_of(batches, member) {
        Some(bytes) => batches_in(alloc, bytes)?,
        None => Found::Missing,
    };
    Ok(MemberLists {
        loads,
        files,
        batches,
    })
}

/// The lists of this many members from 2 on.
fn further_lists(
    alloc: Global,
    loads: &[Bytes],
    files: &[Bytes],
    batches: &[Bytes],
    count: u16,
) -> Result<List<MemberLists>, NoMemory>
    requires { count ≤ 254 }
    ensures lists { IfOk result (λ further.
        map lists_view further.items
        ≡ map (built_lists loads.now files.now batches.now) (range_with_len 2 count)) }
    ensures few { IfOk result (λ further. length further.items ≤ 254) }
{
    let mut further = List::new(alloc);
    for index in 0..count {
        let lists = member_lists(alloc, loads, files, batches, 2 + index)?;
        further.push(lists)?;
    }
    Ok(further)
}

/// The bodies by their names; the first of a name counts.
fn by_name(alloc: Global, bodies: List<Placed>) -> Result<IndexMap<Name, Bytes>, NoMemory>
    ensures { IfOk result (λ loose. (name : Items ℕ)
        → bytes_view (lookup (same_bytes name) loose.entries) ≡ body_of bodies.items name) }
{
    let mut bodies = bodies;
    let mut loose = IndexMap::new(alloc);
    while let Some(body) = bodies.pop() {
        loose.insert(body.name, body.bytes)?;
    }
    Ok(loose)
}

/// The files that member 1's list of files lists, each with the body of its name; none where it
/// wasn't read.
fn listed_bodies(
    alloc: Global,
    files: &Found<FilesList, ListFault>,
    loose: IndexMap<Name, Bytes>,
) -> Result<IndexMap<Name, KeptFile>, NoMemory>
    requires spelled { IsFoundFiles (found_view files_list_view files.now) }
    requires short { HasShortBytes loose.entries }
    ensures files { IfOk result (λ kept. files_view kept.entries
        ≡ map (file_with loose.entries) (entries_of (found_view files_list_view files.now))) }
    ensures short { IfOk result (λ kept. All IsShortFile (values kept)) }
{
    match files {
        Found::Read(list) => bodies_of(alloc, list.files.as_slice(), loose),
        _ => Ok(IndexMap::new(alloc)),
    }
}

/// These files, each with the body of its name.
fn bodies_of(
    alloc: Global,
    entries: &[ListedFile],
    loose: IndexMap<Name, Bytes>,
) -> Result<IndexMap<Name, KeptFile>, NoMemory>
    requires new { AreNew file_name [] entries.now }
    requires short { HasShortBytes loose.entries }
    ensures files { IfOk result (λ kept. files_view kept.entries
        ≡ map (file_with loose.entries) entries.now) }
    ensures short { IfOk result (λ kept. All IsShortFile (values kept)) }
{
    let mut loose = loose;
    let mut kept = IndexMap::new(alloc);
    for entry in entries {
        let file = KeptFile {
            member: entry.member,
            bytes: loose.swap_remove(&entry.name),
        };
        keep(&mut kept, entry.name, file)?;
    }
    Ok(kept)
}
