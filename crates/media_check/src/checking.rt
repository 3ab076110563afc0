//! All findings of a media set.
ghost use Rattle.std.specs.Prelude.{◌≡◌, ◌++◌, ◌∷◌, [], ℕ, List as Items, map, not, ◌&&◌};
ghost use Rattle.std.specs.Prelude.{true, IfOk, OnOk};
ghost use Rattle.std.specs.List.{flat_map};
ghost use Rattle.load_base.specs.Bytes.{same_bytes};
ghost use Rattle.load_base.specs.Text.{IsText};
ghost use Rattle.indexmap.specs.IndexSet.{contains as has};
ghost use Rattle.media_lists.specs.Entries.{is_listed};
ghost use Rattle.media_lists.specs.Files.{files_list_view};
ghost use Rattle.media_lists.specs.ListFaultText.{list_fault_text};
ghost use Rattle.media_lists.specs.Loads.{loads_list_view, load_entry_view, load_name};
ghost use Rattle.media_check.specs.Findings.{findings_of, contents_findings, of_members};
ghost use Rattle.media_check.specs.Findings.{member_findings, list_findings, entry_findings};
ghost use Rattle.media_check.specs.Findings.{loads_sort, files_sort, detailed};
ghost use Rattle.media_check.specs.Findings.{body_findings, agrees, is_members_list};
ghost use Rattle.media_check.specs.Findings.{is_header_name as is_header, plain, where_it_holds};
ghost use Rattle.media_check.specs.Findings.{same_load, same_file, file_sums};
ghost use Rattle.media_check.specs.Sets.{set_view, lists_view, found_view, bytes_of};

use crate::batch_checking::put_batches;
use crate::comparing::{same_files_list, same_loads_list};
use crate::finding::{Finding, put, put_detailed_of_list, put_of_list, put_where};
use crate::found::Found;
use crate::loads::put_loads;
use crate::set::{MediaSet, MemberLists};
use crate::sums::{summed_file, sums_of};
use indexmap::IndexSet;
use load_base::{List, Name, NoMemory};
use media_lists::{FilesList, ListFault, ListedFile, LoadEntry, LoadsList};
use printed_text::Printed;
use std::alloc::Global;

/// The kinds of findings of lists and of entries of `FILES.LUM` (docs/FORMATS.md).
const LIST_MISSING: u8 = 1;

const LIST_REFUSED: u8 = 2;

const LIST_DIFFERS: u8 = 3;

const FILE_MISSING: u8 = 4;

const FILE_CHANGED: u8 = 6;

const HEADER_WITHOUT_LOAD: u8 = 8;

/// All findings of a set, in the order of docs/FORMATS.md: for each member and list, for each entry
/// of member 1's `FILES.LUM`, for each load of its `LOADS.LUM`, and for the batches.
#[tactic(auto, unfolding(crate::specs::Findings::findings_of))]
pub fn check(alloc: Global, set: &MediaSet) -> Result<List<Finding>, NoMemory>
    ensures { IfOk result (λ findings. findings.items ≡ findings_of (set_view set.now)) }
{
    let mut out = List::new(alloc);
    put_member(alloc, &mut out, &set.first, 1, &set.first)?;
    put_further(alloc, &mut out, set)?;
    put_contents(alloc, &mut out, set)?;
    put_batches(alloc, &mut out, set)?;
    Ok(out)
}

fn put_further(alloc: Global, out: &mut List<Finding>, set: &MediaSet) -> Result<(), NoMemory>
    ensures { OnOk result (out.new.items ≡ out.old.items
        ++ of_members (member_findings (lists_view set.now.first)) 2
        (map lists_view set.now.further.items)) }
{
    for (index, lists) in set.further.as_slice().iter().enumerate() {
        put_member(alloc, out, &set.first, index as u16 + 2, lists)?;
    }
    Ok(())
}

/// What is found of the loads and the files that a member lists.
#[tactic(auto, unfolding(crate::specs::Findings::member_findings))]
fn put_member(
    alloc: Global,
    out: &mut List<Finding>,
    first: &MemberLists,
    member: u16,
    this: &MemberLists,
) -> Result<(), NoMemory>
    ensures { OnOk result (out.new.items ≡ out.old.items
        ++ member_findings (lists_view first.now) member (lists_view this.now)) }
{
    put_loads_list(alloc, out, &first.loads, member, &this.loads)?;
    put_files_list(alloc, out, &first.files, member, &this.files)
}

#[tactic(auto, unfolding(crate::specs::Findings::list_findings))]
fn put_loads_list(
    alloc: Global,
    out: &mut List<Finding>,
    first: &Found<LoadsList, ListFault>,
    member: u16,
    this: &Found<LoadsList, ListFault>,
) -> Result<(), NoMemory>
    ensures { OnOk result (out.new.items ≡ out.old.items
        ++ list_findings loads_sort member (found_view loads_list_view first.now)
        (found_view loads_list_view this.now)) }
{
    match this {
        Found::Missing => put_of_list(alloc, out, true, LIST_MISSING, member, b"LOADS.LUM"),
        Found::Refused(fault) => put_refused_list(alloc, out, member, b"LOADS.LUM", *fault),
        Found::Read(list) => {
            let differs = !is_loads_list_of(member, first, list);
            put_of_list(alloc, out, differs, LIST_DIFFERS, member, b"LOADS.LUM")
        }
    }
}

#[tactic(auto, unfolding(crate::specs::Findings::list_findings))]
fn put_files_list(
    alloc: Global,
    out: &mut List<Finding>,
    first: &Found<FilesList, ListFault>,
    member: u16,
    this: &Found<FilesList, ListFault>,
) -> Result<(), NoMemory>
    ensures { OnOk result (out.new.items ≡ out.old.items
        ++ list_findings files_sort member (found_view files_list_view first.now)
        (found_view files_list_view this.now)) }
{
    match this {
        Found::Missing => put_of_list(alloc, out, true, LIST_MISSING, member, b"FILES.LUM"),
        Found::Refused(fault) => put_refused_list(alloc, out, member, b"FILES.LUM", *fault),
        Found::Read(list) => {
            let differs = !is_files_list_of(member, first, list);
            put_of_list(alloc, out, differs, LIST_DIFFERS, member, b"FILES.LUM")
        }
    }
}

fn put_refused_list(
    alloc: Global,
    out: &mut List<Finding>,
    member: u16,
    name: &[u8],
    fault: ListFault,
) -> Result<(), NoMemory>
    requires { IsText name.now }
    ensures { OnOk result (out.new.items ≡ out.old.items
        ++ detailed 2 member name.now (list_fault_text fault) ∷ []) }
{
    let detail = fault.text(alloc)?;
    put_detailed_of_list(alloc, out, LIST_REFUSED, member, name, detail)
}

/// Whether the list is this member's, and that of member 1 but for the number of the member.
#[tactic(auto, unfolding(crate::specs::Findings::is_members_list))]
fn is_loads_list_of(member: u16, first: &Found<LoadsList, ListFault>, list: &LoadsList) -> bool
    ensures { result ≡ is_members_list same_load member (found_view loads_list_view first.now)
        (loads_list_view list.now) }
{
    u16::from(list.member) == member && agrees_with_loads(first, list)
}

#[tactic(auto, unfolding(crate::specs::Findings::is_members_list))]
fn is_files_list_of(member: u16, first: &Found<FilesList, ListFault>, list: &FilesList) -> bool
    ensures { result ≡ is_members_list same_file member (found_view files_list_view first.now)
        (files_list_view list.now) }
{
    u16::from(list.member) == member && agrees_with_files(first, list)
}

fn agrees_with_loads(first: &Found<LoadsList, ListFault>, list: &LoadsList) -> bool
    ensures { result ≡ agrees same_load (found_view loads_list_view first.now)
        (loads_list_view list.now) }
{
    match first {
        Found::Read(first) => same_loads_list(first, list),
        _ => true,
    }
}

fn agrees_with_files(first: &Found<FilesList, ListFault>, list: &FilesList) -> bool
    ensures { result ≡ agrees same_file (found_view files_list_view first.now)
        (files_list_view list.now) }
{
    match first {
        Found::Read(first) => same_files_list(first, list),
        _ => true,
    }
}

/// What is found of the listed files and the loads, where both lists of member 1 were read.
fn put_contents(alloc: Global, out: &mut List<Finding>, set: &MediaSet) -> Result<(), NoMemory>
    ensures { OnOk result (out.new.items ≡ out.old.items ++ contents_findings (set_view set.now)
        (found_view loads_list_view set.now.first.loads)
        (found_view files_list_view set.now.first.files)) }
{
    let Found::Read(loads) = &set.first.loads else {
        return Ok(());
    };
    let Found::Read(files) = &set.first.files else {
        return Ok(());
    };
    let loads = loads.loads.as_slice();
    let sums = sums_of(alloc, set)?;
    put_entries(
        alloc,
        out,
        set,
        sums.as_slice(),
        loads,
        files.files.as_slice(),
    )?;
    put_loads(alloc, out, set, sums.as_slice(), loads)
}

fn put_entries(
    alloc: Global,
    out: &mut List<Finding>,
    set: &MediaSet,
    sums: &[u16],
    loads: &[LoadEntry],
    files: &[ListedFile],
) -> Result<(), NoMemory>
    requires { sums.now ≡ file_sums (set_view set.now) }
    ensures { OnOk result (out.new.items ≡ out.old.items
        ++ flat_map (entry_findings (set_view set.now) (map load_entry_view loads.now)) files.now) }
{
    let named = header_names(alloc, loads)?;
    for entry in files {
        let is_named = named.contains(&entry.name);
        put_entry(alloc, out, set, sums, is_named, entry)?;
    }
    Ok(())
}

/// The names of the headers of loads.
fn header_names(alloc: Global, loads: &[LoadEntry]) -> Result<IndexSet<Name>, NoMemory>
    ensures { IfOk result (λ names. (name : Items ℕ) → has same_bytes names name
        ≡ is_listed load_name name (map load_entry_view loads.now)) }
{
    let mut names = IndexSet::new(alloc);
    for load in loads {
        names.insert(load.header_name)?;
    }
    Ok(names)
}

/// What is found of an entry of `FILES.LUM`, the name of which loads name or not.
fn put_entry(
    alloc: Global,
    out: &mut List<Finding>,
    set: &MediaSet,
    sums: &[u16],
    is_named: bool,
    entry: &ListedFile,
) -> Result<(), NoMemory>
    requires { sums.now ≡ file_sums (set_view set.now) }
    ensures { OnOk result (out.new.items ≡ out.old.items
        ++ (body_findings entry.now (bytes_of (set_view set.now) entry.now.name)
        ++ where_it_holds (is_header entry.now.name && not is_named)
        (plain 8 entry.now.member entry.now.name))) }
{
    put_body(alloc, out, set, sums, entry)?;
    let is_lost = is_header_name(entry.name.as_slice()) && !is_named;
    put_where(
        alloc,
        out,
        is_lost,
        HEADER_WITHOUT_LOAD,
        entry.member,
        &entry.name,
    )
}

#[tactic(auto, unfolding(crate::specs::Findings::body_findings))]
fn put_body(
    alloc: Global,
    out: &mut List<Finding>,
    set: &MediaSet,
    sums: &[u16],
    entry: &ListedFile,
) -> Result<(), NoMemory>
    requires { sums.now ≡ file_sums (set_view set.now) }
    ensures { OnOk result (out.new.items ≡ out.old.items
        ++ body_findings entry.now (bytes_of (set_view set.now) entry.now.name)) }
{
    match summed_file(set, sums, &entry.name) {
        Some((file, sum)) if file.bytes.is_some() => {
            let is_changed = sum != entry.crc16;
            put_where(
                alloc,
                out,
                is_changed,
                FILE_CHANGED,
                entry.member,
                &entry.name,
            )
        }
        _ => put(alloc, out, FILE_MISSING, entry.member, &entry.name),
    }
}

#[tactic(auto, unfolding(crate::specs::Findings::is_header_name))]
fn is_header_name(name: &[u8]) -> bool
    ensures { result ≡ is_header name.now }
{
    &name[name.len().saturating_sub(4)..] == b".LUH".as_slice()
}
