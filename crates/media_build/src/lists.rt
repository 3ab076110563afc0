//! The lists of a media set, as a recipe and the files of its set give them.
ghost use Rattle.std.specs.Prelude.{◌≡◌, ℕ, ◌≤◌, [], codes, map, Some, IfOk};
ghost use Rattle.std.specs.List.{range_with_len};
ghost use Rattle.batch_lists.specs.Batches.{IsBatchesList, batches_list_view};
ghost use Rattle.media_lists.specs.Files.{IsFilesList, files_list_view};
ghost use Rattle.media_lists.specs.Loads.{IsLoadsList, load_entry_view, loads_list_view};
ghost use Rattle.media_build.specs.Accepted.{IsRecipe};
ghost use Rattle.media_build.specs.Building.{AnswersLoads, batches_bytes, batches_beside};
ghost use Rattle.media_build.specs.Building.{files_bytes, loads_bytes, of_member};
ghost use Rattle.media_build.specs.Building.{start_of as start_said};
ghost use Rattle.media_build.specs.NoFindings.{body_view};
ghost use Rattle.media_build.specs.RecipeSets.{listed_body, load_entry as entry_said, loads_of};
ghost use Rattle.media_build.specs.RecipeSets.{all_where_some, batch_entry as batch_said};
ghost use Rattle.media_build.specs.RecipeSets.{batches_of, recipe_loads};

use crate::batches::{BatchPart, RecipeBatches};
use crate::building_fault::BuildFault;
use crate::gathering::hardware_of;
use crate::loads::{LoadPart, Loads};
use crate::statements::{RecipeLine, Statement};
use batch_lists::{BatchEntry, BatchesList};
use crc_fields::crc16;
use load_base::{Bytes, List, NoMemory, Text};
use media_check::Placed;
use media_lists::{FilesList, ListedFile, LoadEntry, LoadsList};
use part_number::PartNumber;
use std::alloc::Global;

/// `LOADS.LUM` of member 1, if it meets the limits of its format.
pub(crate) fn loads_list(alloc: Global, lines: &[RecipeLine]) -> Result<LoadsList, BuildFault>
    requires { IsRecipe lines.now }
    ensures { AnswersLoads lines.now result }
{
    // A recipe begins with these two lines, so that it isn't refused here.
    let Some(start) = start_of(lines) else {
        return Err(BuildFault::ListTooLong);
    };
    let list = loads_list_with(alloc, lines, start.0, start.1)?;
    if !list.fits() {
        return Err(BuildFault::ListTooLong);
    }
    Ok(list)
}

/// The same of a set of this part number and of this many members, whatever its size.
fn loads_list_with(
    alloc: Global,
    lines: &[RecipeLine],
    set: PartNumber,
    members: u8,
) -> Result<LoadsList, NoMemory>
    requires recipe { IsRecipe lines.now }
    requires start { start_said lines.now ≡ Some (set, members) }
    ensures { IfOk result (λ list. loads_list_view list ≡ recipe_loads lines.now 1) }
{
    Ok(LoadsList {
        set,
        member: 1,
        members,
        loads: load_entries(alloc, lines)?,
        user: Bytes::new(alloc),
    })
}

/// The part number of the set, and how many members it has.
fn start_of(lines: &[RecipeLine]) -> Option<(PartNumber, u8)>
    ensures { result ≡ start_said lines.now }
{
    if lines.len() < 2 {
        return None;
    }
    match (&lines[0].statement, &lines[1].statement) {
        (Statement::Set(set), Statement::Members(members)) => Some((*set, *members)),
        _ => None,
    }
}

fn load_entries(alloc: Global, lines: &[RecipeLine]) -> Result<List<LoadEntry>, NoMemory>
    ensures { IfOk result (λ entries. map load_entry_view entries.items
        ≡ map entry_said (loads_of lines.now)) }
{
    let mut loads = Loads::new(lines);
    let mut entries = List::new(alloc);
    while let Some(load) = loads.next() {
        entries.push(load_entry(alloc, &load)?)?;
    }
    Ok(entries)
}

fn load_entry(alloc: Global, load: &LoadPart) -> Result<LoadEntry, NoMemory>
    ensures { IfOk result (λ entry. load_entry_view entry ≡ entry_said load.now) }
{
    let line = load.line();
    Ok(LoadEntry {
        part: line.part,
        header_name: line.name,
        member: u16::from(line.member),
        hardware: hardware_of(alloc, load.own())?,
    })
}

/// The bytes of `LOADS.LUM` of each member, of which one is given.
pub(crate) fn loads_lists(alloc: Global, list: LoadsList) -> Result<List<Bytes>, NoMemory>
    requires { (member : ℕ) → 1 ≤ member → member ≤ list.members
        → IsLoadsList (of_member (loads_list_view list) member) }
    ensures { IfOk result (λ all. map (λ bytes. bytes.items) all.items
        ≡ map (λ member. loads_bytes (of_member (loads_list_view list) member))
        (range_with_len 1 list.members)) }
{
    let mut list = list;
    let mut all = List::new(alloc);
    for index in 0..list.members {
        list.member = 1 + index;
        all.push(list.encode(alloc)?)?;
    }
    Ok(all)
}

/// `FILES.LUM` of member 1 of the set with this list of loads and these files.
pub(crate) fn files_list(
    alloc: Global,
    loads: &LoadsList,
    bodies: &[Placed],
) -> Result<FilesList, NoMemory>
    ensures { IfOk result (λ list. files_list_view list ≡ record {
      set = loads.now.set;
      member = 1;
      members = loads.now.members;
      entries = map (λ body. listed_body (body_view body)) bodies.now;
      user = [];
    }) }
{
    let mut files = List::new(alloc);
    for body in bodies {
        files.push(listed_file(alloc, body)?)?;
    }
    Ok(FilesList {
        set: loads.set,
        member: 1,
        members: loads.members,
        files,
        user: Bytes::new(alloc),
    })
}

fn listed_file(alloc: Global, body: &Placed) -> Result<ListedFile, NoMemory>
    ensures { IfOk result (λ file. file ≡ listed_body (body_view body.now)) }
{
    Ok(ListedFile {
        name: body.name,
        path: root(alloc)?,
        member: body.member,
        crc16: crc16(body.bytes.as_slice()),
    })
}

/// The path of a member's own folder.
fn root(alloc: Global) -> Result<Text, NoMemory>
    ensures { IfOk result (λ path. path ≡ codes "\\") }
{
    let mut path = Bytes::new(alloc);
    path.extend(b"\\")?;
    Ok(Text::of_printable(path))
}

/// The bytes of `FILES.LUM` of each member, of which one is given.
pub(crate) fn files_lists(alloc: Global, list: FilesList) -> Result<List<Bytes>, NoMemory>
    requires { (member : ℕ) → 1 ≤ member → member ≤ list.members
        → IsFilesList (of_member (files_list_view list) member) }
    ensures { IfOk result (λ all. map (λ bytes. bytes.items) all.items
        ≡ map (λ member. files_bytes (of_member (files_list_view list) member))
        (range_with_len 1 list.members)) }
{
    let mut list = list;
    let mut all = List::new(alloc);
    for index in 0..list.members {
        list.member = 1 + index;
        all.push(list.encode(alloc)?)?;
    }
    Ok(all)
}

/// `BATCHES.LUM` of member 1 of the set with this list of loads, whether it names a batch or not.
pub(crate) fn batches_list(
    alloc: Global,
    loads: &LoadsList,
    lines: &[RecipeLine],
) -> Result<BatchesList, NoMemory>
    ensures { IfOk result (λ list. batches_list_view list
        ≡ batches_beside (loads_list_view loads.now) (batches_of lines.now) 1) }
{
    Ok(BatchesList {
        set: loads.set,
        member: 1,
        members: loads.members,
        batches: batch_entries(alloc, lines)?,
        user: Bytes::new(alloc),
    })
}

fn batch_entries(alloc: Global, lines: &[RecipeLine]) -> Result<List<BatchEntry>, NoMemory>
    ensures { IfOk result (λ entries. entries.items ≡ map batch_said (batches_of lines.now)) }
{
    let mut batches = RecipeBatches::new(lines);
    let mut entries = List::new(alloc);
    while let Some(batch) = batches.next() {
        entries.push(batch_entry(&batch))?;
    }
    Ok(entries)
}

fn batch_entry(batch: &BatchPart) -> BatchEntry
    ensures { result ≡ batch_said batch.now }
{
    let line = batch.line();
    BatchEntry {
        part: line.part,
        file: line.name,
        member: u16::from(line.member),
    }
}

/// The bytes of `BATCHES.LUM` of each member, of which one is given; none where it names no batch.
pub(crate) fn batches_lists(alloc: Global, list: BatchesList) -> Result<List<Bytes>, NoMemory>
    requires { (member : ℕ) → 1 ≤ member → member ≤ list.members
        → IsBatchesList (of_member (batches_list_view list) member) }
    ensures { IfOk result (λ all. map (λ bytes. bytes.items) all.items
        ≡ all_where_some list.batches.items
        (map (λ member. batches_bytes (of_member (batches_list_view list) member))
        (range_with_len 1 list.members))) }
{
    if list.batches.is_empty() {
        return Ok(List::new(alloc));
    }
    each_batches_list(alloc, list)
}

fn each_batches_list(alloc: Global, list: BatchesList) -> Result<List<Bytes>, NoMemory>
    requires { (member : ℕ) → 1 ≤ member → member ≤ list.members
        → IsBatchesList (of_member (batches_list_view list) member) }
    ensures { IfOk result (λ all. map (λ bytes. bytes.items) all.items
        ≡ map (λ member. batches_bytes (of_member (batches_list_view list) member))
        (range_with_len 1 list.members)) }
{
    let mut list = list;
    let mut all = List::new(alloc);
    for index in 0..list.members {
        list.member = 1 + index;
        all.push(list.encode(alloc)?)?;
    }
    Ok(all)
}
