//! What is found of the batches of a set.
ghost use Rattle.std.specs.Prelude.{◌≡◌, ◌++◌, ◌∷◌, [], ℕ, List as Items, map, codes, IfOk};
ghost use Rattle.std.specs.Prelude.{OnOk};
ghost use Rattle.std.specs.List.{flat_map, list_any};
ghost use Rattle.batch_lists.specs.Batch.{batch_target_view, batch_view};
ghost use Rattle.batch_lists.specs.Batches.{batches_list_view};
ghost use Rattle.indexmap.specs.IndexSet.{contains as has};
ghost use Rattle.load_base.specs.Bytes.{same_bytes};
ghost use Rattle.media_lists.specs.Files.{files_list_view};
ghost use Rattle.media_lists.specs.Loads.{loads_list_view, load_entry_view};
ghost use Rattle.media_check.specs.Batches.{AreKeptBatches, kept_view};
ghost use Rattle.media_check.specs.Findings.{all_batches_findings, batches_findings};
ghost use Rattle.media_check.specs.Findings.{batch_findings};
ghost use Rattle.media_check.specs.Findings.{batches_list_findings, of_members, list_findings};
ghost use Rattle.batch_lists.specs.FaultTexts.{batches_fault_text};
ghost use Rattle.media_check.specs.Findings.{batches_sort, is_members_list, agrees, same_batch};
ghost use Rattle.media_check.specs.Findings.{detailed};
ghost use Rattle.media_check.specs.Findings.{found_batch_findings, kept_batch_findings};
ghost use Rattle.media_check.specs.Findings.{read_batch_findings, part_findings};
ghost use Rattle.media_check.specs.Findings.{is_part_of, has_batches};
ghost use Rattle.media_check.specs.Kept.{entries_of, files_view, found_view};
ghost use Rattle.media_check.specs.Sets.{lists_view, set_view};

use crate::batches::KeptBatch;
use crate::comparing::same_batches_list;
use crate::finding::{Finding, put, put_detailed, put_detailed_of_list, put_of_list, put_where};
use crate::found::Found;
use crate::set::{MediaSet, MemberLists};
use batch_lists::{Batch, BatchEntry, BatchTarget, BatchesFault, BatchesList};
use indexmap::IndexSet;
use load_base::{List, Name, NoMemory, Text};
use media_lists::LoadEntry;
use part_number::PartNumber;
use printed_text::Printed;
use std::alloc::Global;

/// The kinds of findings of lists of batches and of batches (docs/FORMATS.md).
const LIST_MISSING: u8 = 13;

const LIST_REFUSED: u8 = 14;

const LIST_DIFFERS: u8 = 15;

const NOT_LISTED: u8 = 16;

const BATCH_REFUSED: u8 = 17;

const OTHER_PART: u8 = 18;

const PART_WITHOUT_LOAD: u8 = 19;

/// Adds what is found of the batches, where `LOADS.LUM` and `FILES.LUM` of member 1 were read and a
/// member has a list of batches.
pub(crate) fn put_batches(
    alloc: Global,
    out: &mut List<Finding>,
    set: &MediaSet,
) -> Result<(), NoMemory>
    ensures { OnOk result (out.new.items ≡ out.old.items ++ batches_findings (set_view set.now)
        (found_view loads_list_view set.now.first.loads)
        (found_view files_list_view set.now.first.files)) }
{
    let Found::Read(loads) = &set.first.loads else {
        return Ok(());
    };
    let Found::Read(_) = &set.first.files else {
        return Ok(());
    };
    if lists_batches(set) {
        put_all(alloc, out, set, loads.loads.as_slice())
    } else {
        Ok(())
    }
}

/// Whether a member has a list of batches.
#[tactic(auto, using(crate::proofs::BatchFindings::any_seen))]
fn lists_batches(set: &MediaSet) -> bool
    ensures { result ≡ list_any has_batches
        (lists_view set.now.first ∷ map lists_view set.now.further.items) }
{
    is_there(&set.first) || any_is_there(set.further.as_slice())
}

fn any_is_there(further: &[MemberLists]) -> bool
    ensures { result ≡ list_any (λ lists. has_batches (lists_view lists)) further.now }
{
    further.iter().any(|lists| is_there(lists))
}

fn is_there(lists: &MemberLists) -> bool
    ensures { result ≡ has_batches (lists_view lists.now) }
{
    !matches!(lists.batches, Found::Missing)
}

#[tactic(auto, unfolding(crate::specs::Findings::all_batches_findings))]
fn put_all(
    alloc: Global,
    out: &mut List<Finding>,
    set: &MediaSet,
    loads: &[LoadEntry],
) -> Result<(), NoMemory>
    ensures { OnOk result (out.new.items ≡ out.old.items
        ++ all_batches_findings (set_view set.now) (map load_entry_view loads.now)) }
{
    let parts = parts_of_loads(alloc, loads)?;
    put_list(alloc, out, &set.first.batches, 1, &set.first.batches)?;
    put_further(alloc, out, set)?;
    put_entries(alloc, out, set, &parts)
}

/// The part numbers of loads.
fn parts_of_loads(alloc: Global, loads: &[LoadEntry]) -> Result<IndexSet<PartNumber>, NoMemory>
    ensures { IfOk result (λ parts. (part : Items ℕ) → has same_bytes parts part
        ≡ is_part_of (map load_entry_view loads.now) part) }
{
    let mut parts = IndexSet::new(alloc);
    for load in loads {
        parts.insert(load.part)?;
    }
    Ok(parts)
}

fn put_further(alloc: Global, out: &mut List<Finding>, set: &MediaSet) -> Result<(), NoMemory>
    ensures { OnOk result (out.new.items ≡ out.old.items
        ++ of_members (batches_list_findings (lists_view set.now.first)) 2
        (map lists_view set.now.further.items)) }
{
    for (index, lists) in set.further.as_slice().iter().enumerate() {
        put_list(
            alloc,
            out,
            &set.first.batches,
            index as u16 + 2,
            &lists.batches,
        )?;
    }
    Ok(())
}

/// What is found of the list of batches of a member.
#[tactic(auto, unfolding(crate::specs::Findings::list_findings))]
fn put_list(
    alloc: Global,
    out: &mut List<Finding>,
    first: &Found<BatchesList, BatchesFault>,
    member: u16,
    this: &Found<BatchesList, BatchesFault>,
) -> Result<(), NoMemory>
    ensures { OnOk result (out.new.items ≡ out.old.items
        ++ list_findings batches_sort member (found_view batches_list_view first.now)
        (found_view batches_list_view this.now)) }
{
    match this {
        Found::Missing => put_of_list(alloc, out, true, LIST_MISSING, member, b"BATCHES.LUM"),
        Found::Refused(fault) => put_refused_list(alloc, out, member, *fault),
        Found::Read(list) => {
            let differs = !is_list_of(member, first, list);
            put_of_list(alloc, out, differs, LIST_DIFFERS, member, b"BATCHES.LUM")
        }
    }
}

fn put_refused_list(
    alloc: Global,
    out: &mut List<Finding>,
    member: u16,
    fault: BatchesFault,
) -> Result<(), NoMemory>
    ensures { OnOk result (out.new.items ≡ out.old.items
        ++ detailed 14 member (codes "BATCHES.LUM") (batches_fault_text fault) ∷ []) }
{
    let detail = fault.text(alloc)?;
    put_detailed_of_list(alloc, out, LIST_REFUSED, member, b"BATCHES.LUM", detail)
}

/// Whether the list is this member's, and that of member 1 but for the number of the member.
#[tactic(auto, unfolding(crate::specs::Findings::is_members_list))]
fn is_list_of(member: u16, first: &Found<BatchesList, BatchesFault>, list: &BatchesList) -> bool
    ensures { result ≡ is_members_list same_batch member (found_view batches_list_view first.now)
        (batches_list_view list.now) }
{
    u16::from(list.member) == member && agrees_with(first, list)
}

fn agrees_with(first: &Found<BatchesList, BatchesFault>, list: &BatchesList) -> bool
    ensures { result ≡ agrees same_batch (found_view batches_list_view first.now)
        (batches_list_view list.now) }
{
    match first {
        Found::Read(first) => same_batches_list(first, list),
        _ => true,
    }
}

/// What is found of the entries of member 1's list, where it was read.
fn put_entries(
    alloc: Global,
    out: &mut List<Finding>,
    set: &MediaSet,
    parts: &IndexSet<PartNumber>,
) -> Result<(), NoMemory>
    ensures { OnOk result (out.new.items ≡ out.old.items
        ++ flat_map (batch_findings (set_view set.now) (has same_bytes parts.now))
        (entries_of (found_view batches_list_view set.now.first.batches))) }
{
    match &set.first.batches {
        Found::Read(list) => put_each(alloc, out, set, parts, list.batches.as_slice()),
        _ => Ok(()),
    }
}

/// The same of these entries, which are those of member 1's list.
fn put_each(
    alloc: Global,
    out: &mut List<Finding>,
    set: &MediaSet,
    parts: &IndexSet<PartNumber>,
    entries: &[BatchEntry],
) -> Result<(), NoMemory>
    requires { AreKeptBatches (files_view set.now.files.entries) entries.now
        set.now.batches.kept.items }
    ensures { OnOk result (out.new.items ≡ out.old.items
        ++ flat_map (batch_findings (set_view set.now) (has same_bytes parts.now)) entries.now) }
{
    let kept = set.batches.kept.as_slice();
    for (index, entry) in entries.iter().enumerate() {
        put_entry(alloc, out, parts, entry, &kept[index])?;
    }
    Ok(())
}

/// What is found of an entry, beside what is kept of its file.
fn put_entry(
    alloc: Global,
    out: &mut List<Finding>,
    parts: &IndexSet<PartNumber>,
    entry: &BatchEntry,
    kept: &Option<KeptBatch>,
) -> Result<(), NoMemory>
    ensures { OnOk result (out.new.items ≡ out.old.items
        ++ kept_batch_findings (has same_bytes parts.now) entry.now (kept_view kept.now)) }
{
    match kept {
        None => put(alloc, out, NOT_LISTED, 0, &entry.file),
        Some(kept) => put_found(alloc, out, parts, entry, kept),
    }
}

fn put_found(
    alloc: Global,
    out: &mut List<Finding>,
    parts: &IndexSet<PartNumber>,
    entry: &BatchEntry,
    kept: &KeptBatch,
) -> Result<(), NoMemory>
    ensures { OnOk result (out.new.items ≡ out.old.items
        ++ found_batch_findings (has same_bytes parts.now) entry.now kept.now.member
        (found_view batch_view kept.now.found)) }
{
    match &kept.found {
        Found::Missing => Ok(()),
        Found::Refused(fault) => {
            let detail = fault.text(alloc)?;
            put_detailed(alloc, out, BATCH_REFUSED, kept.member, &entry.file, detail)
        }
        Found::Read(batch) => put_batch(alloc, out, parts, entry, kept.member, batch),
    }
}

/// What is found of a batch whose file is in this member.
#[tactic(auto, unfolding(crate::specs::Findings::read_batch_findings))]
fn put_batch(
    alloc: Global,
    out: &mut List<Finding>,
    parts: &IndexSet<PartNumber>,
    entry: &BatchEntry,
    member: u16,
    batch: &Batch,
) -> Result<(), NoMemory>
    ensures { OnOk result (out.new.items ≡ out.old.items
        ++ read_batch_findings (has same_bytes parts.now) entry.now member
        (batch_view batch.now)) }
{
    let is_other = batch.part != entry.part;
    put_where(alloc, out, is_other, OTHER_PART, member, &entry.file)?;
    put_targets(
        alloc,
        out,
        parts,
        member,
        &entry.file,
        batch.targets.as_slice(),
    )
}

/// What is found of the parts of these targets.
fn put_targets(
    alloc: Global,
    out: &mut List<Finding>,
    parts: &IndexSet<PartNumber>,
    member: u16,
    file: &Name,
    targets: &[BatchTarget],
) -> Result<(), NoMemory>
    ensures { OnOk result (out.new.items ≡ out.old.items
        ++ flat_map (part_findings (has same_bytes parts.now) member file.now)
        (flat_map (λ target. target.parts) (map batch_target_view targets.now))) }
{
    for target in targets {
        put_parts(alloc, out, parts, member, file, target.parts.as_slice())?;
    }
    Ok(())
}

fn put_parts(
    alloc: Global,
    out: &mut List<Finding>,
    parts: &IndexSet<PartNumber>,
    member: u16,
    file: &Name,
    given: &[PartNumber],
) -> Result<(), NoMemory>
    ensures { OnOk result (out.new.items ≡ out.old.items
        ++ flat_map (part_findings (has same_bytes parts.now) member file.now) given.now) }
{
    for part in given {
        put_part(alloc, out, parts, member, file, part)?;
    }
    Ok(())
}

#[tactic(auto, unfolding(crate::specs::Findings::part_findings))]
fn put_part(
    alloc: Global,
    out: &mut List<Finding>,
    parts: &IndexSet<PartNumber>,
    member: u16,
    file: &Name,
    part: &PartNumber,
) -> Result<(), NoMemory>
    ensures { OnOk result (out.new.items ≡ out.old.items
        ++ part_findings (has same_bytes parts.now) member file.now part.now) }
{
    if parts.contains(part) {
        return Ok(());
    }
    let detail = Text::of_part(alloc, &part.text())?;
    put_detailed(alloc, out, PART_WITHOUT_LOAD, member, file, detail)
}
