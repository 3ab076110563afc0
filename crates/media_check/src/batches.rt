//! The batches of a set.
ghost use Rattle.std.specs.Prelude.{◌≡◌, ℕ, List as Items, option_map, IfOk};
ghost use Rattle.batch_lists.specs.Batch.{batch, batch_view};
ghost use Rattle.batch_lists.specs.Batches.{batches_list_view};
ghost use Rattle.batch_lists.specs.declared.batches.BatchEntry.{BatchEntry as Entry};
ghost use Rattle.media_check.specs.Batches.{AreKeptBatches, HaveFirst, batch_at, batch_of_entry};
ghost use Rattle.media_check.specs.Batches.{batch_found, batch_kept, batch_kept_at, first_batch};
ghost use Rattle.media_check.specs.Batches.{kept_batch_view, kept_view, read_as_batch};
ghost use Rattle.media_check.specs.Kept.{ListedFileView, bytes_view, entries_of};
ghost use Rattle.media_check.specs.Kept.{file_view, files_view, found_in, found_view};

use crate::found::{Found, batch_in};
use crate::set::KeptFile;
use batch_lists::{Batch, BatchEntry, BatchFault, BatchesFault, BatchesList};
use indexmap::IndexMap;
use load_base::{List, Name, NoMemory, PartText};
use std::alloc::Global;

/// A listed file that a batch names.
#[derive(Drop)]
pub struct KeptBatch {
    /// The member that its entry in `FILES.LUM` names.
    pub member: u16,
    /// What is found of it.
    pub found: Found<Batch, BatchFault>,
}

/// The batches that member 1's `BATCHES.LUM` lists.
#[derive(Drop)]
pub(crate) struct KeptBatches {
    // What is found of the file of each entry, in the order of the list; `None` where it isn't
    // listed.
    pub(crate) kept: List<Option<KeptBatch>>,
    // The index of the first entry with each part number.
    pub(crate) first: IndexMap<PartText, usize>,
}

/// The batches of this list among these listed files; none where it wasn't read.
pub(crate) fn batches_among(
    alloc: Global,
    list: &Found<BatchesList, BatchesFault>,
    files: &IndexMap<Name, KeptFile>,
) -> Result<KeptBatches, NoMemory>
    ensures kept { IfOk result (λ batches. AreKeptBatches (files_view files.now.entries)
        (entries_of (found_view batches_list_view list.now)) batches.kept.items) }
    ensures first { IfOk result (λ batches. HaveFirst batches.first.entries
        (entries_of (found_view batches_list_view list.now))) }
{
    match list {
        Found::Read(list) => batches_of(alloc, list.batches.as_slice(), files),
        _ => Ok(KeptBatches {
            kept: List::new(alloc),
            first: IndexMap::new(alloc),
        }),
    }
}

fn batches_of(
    alloc: Global,
    entries: &[BatchEntry],
    files: &IndexMap<Name, KeptFile>,
) -> Result<KeptBatches, NoMemory>
    ensures kept { IfOk result (λ batches. AreKeptBatches (files_view files.now.entries)
        entries.now batches.kept.items) }
    ensures first { IfOk result (λ batches. HaveFirst batches.first.entries entries.now) }
{
    let first = first_entries(alloc, entries)?;
    Ok(KeptBatches {
        kept: kept_batches(alloc, entries, files)?,
        first,
    })
}

/// What is found of the file of each entry.
fn kept_batches(
    alloc: Global,
    entries: &[BatchEntry],
    files: &IndexMap<Name, KeptFile>,
) -> Result<List<Option<KeptBatch>>, NoMemory>
    ensures { IfOk result (λ kept.
        AreKeptBatches (files_view files.now.entries) entries.now kept.items) }
{
    let mut kept = List::new(alloc);
    for entry in entries {
        kept.push(kept_batch(alloc, entry, files)?)?;
    }
    Ok(kept)
}

fn kept_batch(
    alloc: Global,
    entry: &BatchEntry,
    files: &IndexMap<Name, KeptFile>,
) -> Result<Option<KeptBatch>, NoMemory>
    ensures { IfOk result (λ kept.
        kept_view kept ≡ batch_at (files_view files.now.entries) entry.now) }
{
    match files.get(&entry.file) {
        Some(file) => Ok(Some(batch_in_file(alloc, file)?)),
        None => Ok(None),
    }
}

/// A listed file, read as a batch.
fn batch_in_file(alloc: Global, file: &KeptFile) -> Result<KeptBatch, NoMemory>
    ensures { IfOk result (λ kept. kept_batch_view kept ≡ read_as_batch (file_view file.now)) }
{
    let found = found_in_file(alloc, file)?;
    Ok(KeptBatch {
        member: file.member,
        found,
    })
}

fn found_in_file(alloc: Global, file: &KeptFile) -> Result<Found<Batch, BatchFault>, NoMemory>
    ensures { IfOk result (λ found.
        found_view batch_view found ≡ found_in batch (bytes_view file.now.bytes)) }
{
    match &file.bytes {
        Some(bytes) => batch_in(alloc, bytes.as_slice()),
        None => Ok(Found::Missing),
    }
}

/// The index of the first entry with each part number: from the last on, so that an earlier one
/// takes the place of a later one.
fn first_entries(
    alloc: Global,
    entries: &[BatchEntry],
) -> Result<IndexMap<PartText, usize>, NoMemory>
    ensures { IfOk result (λ first. HaveFirst first.entries entries.now) }
{
    let mut first = IndexMap::new(alloc);
    let mut left = entries.len();
    while left > 0 {
        left -= 1;
        first.insert(entries[left].part.text(), left)?;
    }
    Ok(first)
}

impl KeptBatches {
    /// The batch of the first entry with this part number, where its file was read. It takes no
    /// memory.
    pub(crate) fn find(&self, part: &PartText) -> Option<&Batch>
        ensures { (files : Items (Items ℕ × ListedFileView)) (entries : Items Entry)
            → AreKeptBatches files entries self.now.kept.items
            → HaveFirst self.now.first.entries entries
            → option_map (λ b. batch_view b.now) result
            ≡ batch_of_entry files (first_batch part.now entries) }
    {
        match self.first.get(part) {
            Some(index) => read_at(self.kept.as_slice(), *index),
            None => None,
        }
    }
}

/// The batch at this index, where it was read.
fn read_at(kept: &[Option<KeptBatch>], index: usize) -> Option<&Batch>
    ensures { option_map (λ b. batch_view b.now) result ≡ batch_kept_at kept.now index }
{
    match kept.get(index) {
        Some(kept) => read_of(kept),
        None => None,
    }
}

fn read_of(kept: &Option<KeptBatch>) -> Option<&Batch>
    ensures { option_map (λ b. batch_view b.now) result ≡ batch_kept (kept_view kept.now) }
{
    match kept {
        Some(kept) => batch_read(kept),
        None => None,
    }
}

fn batch_read(kept: &KeptBatch) -> Option<&Batch>
    ensures { option_map (λ b. batch_view b.now) result
        ≡ batch_found (found_view batch_view kept.now.found) }
{
    match &kept.found {
        Found::Read(batch) => Some(batch),
        _ => None,
    }
}
