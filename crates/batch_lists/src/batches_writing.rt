//! When a list of batches meets its limits, and its encoder.
ghost use Rattle.std.specs.Prelude.{◌↔◌, IsTrue, IfOk};
ghost use Rattle.std.specs.List.{AllByRecursion};
ghost use Rattle.media_lists.specs.ListFields.{AreEntries};
ghost use Rattle.batch_lists.specs.Batches.{batches_list_view, batch_file, batch_body_fields};
ghost use Rattle.batch_lists.specs.Batches.{IsListedBatch as is_such_batch};
ghost use Rattle.batch_lists.specs.Batches.{IsBatchesList, BatchesSpells};

use crate::batches::{BATCHES_VERSION, BatchEntry, BatchesList};
use field_codec::Writer;
use header_sections::{
    Entry, entries_size, name_size, part_size, put_entries, put_user, with_check_sum,
};
use load_base::{Bytes, NoMemory};
use media_lists::{
    LONGEST_LIST, MOST_ENTRIES, Named, are_new, is_member, is_user_data, list_size, pointers_of,
    put_head, put_identity,
};
use std::alloc::Global;

impl Named for BatchEntry {
    ghost name_of = { λ batch. batch.file };

    fn name(&self) -> &[u8] {
        self.file.as_slice()
    }
}

impl Entry for BatchEntry {
    ghost use Rattle.std.specs.Prelude.{⊤};
    ghost use Rattle.batch_lists.specs.Batches.{batch_body_fields};

    ghost body_fields = { batch_body_fields };

    ghost Fits = { λ _. ⊤ };

    #[tactic(auto, using(crate::proofs::BatchesSizes::size_batch_parts))]
    fn body_size(&self) -> u64 {
        part_size(&self.part) + name_size(&self.file) + 2
    }

    #[tactic(auto, using(part_number::proofs::VerdictLemmas::part_size), unfolding(crate::specs::Batches::batch_body_fields))]
    fn put_body(&self, out: &mut Writer) -> Result<(), NoMemory> {
        out.put_padded(self.part.as_slice())?;
        out.put_padded(self.file.as_slice())?;
        out.put_u16(self.member)?;
        Ok(())
    }
}

// ---- limits

fn is_batch(batch: &BatchEntry, members: u8) -> bool
    ensures { IsTrue result ↔ is_such_batch members batch.now }
{
    // The part number and the name are such by their types.
    let _part = batch.part.as_slice();
    let _file = batch.file.as_slice();
    is_member(members, batch.member)
}

fn are_batches(batches: &[BatchEntry], members: u8) -> bool
    ensures { IsTrue result ↔ AllByRecursion (is_such_batch members) batches.now }
{
    for batch in batches {
        if !is_batch(batch, members) {
            return false;
        }
    }
    true
}

fn batches_meet_limits(batches: &[BatchEntry], members: u8) -> bool
    ensures { IsTrue result ↔ AreEntries (is_such_batch members) batch_file batch_body_fields
        batches.now }
{
    if batches.len() > MOST_ENTRIES {
        return false;
    }
    are_batches(batches, members) && are_new(batches)
}

/// The list meets the limits.
pub(crate) fn batches_fit(list: &BatchesList) -> bool
    ensures { IsTrue result ↔ IsBatchesList (batches_list_view list.now) }
{
    // The part number is such by its type.
    let _set = list.set.as_slice();
    let batches = list.batches.as_slice();
    if !is_member(list.members, u16::from(list.member)) {
        return false;
    }
    if !is_user_data(list.user.as_slice()) {
        return false;
    }
    if !batches_meet_limits(batches, list.members) {
        return false;
    }
    list_size(entries_size(batches), list.user.len()) <= LONGEST_LIST as u64
}

// ---- the bytes

/// The bytes of a list that meets the limits.
pub(crate) fn batches_bytes(alloc: Global, list: &BatchesList) -> Result<Bytes, NoMemory>
    requires { IsBatchesList (batches_list_view list.now) }
    ensures { IfOk result (λ bytes. BatchesSpells (batches_list_view list.now) bytes.items) }
{
    let entries = entries_size(list.batches.as_slice());
    let size = list_size(entries, list.user.len()) as u32;
    let mut out = Writer::new(alloc);
    put_head(&mut out, BATCHES_VERSION, size, pointers_of(entries))?;
    put_identity(&mut out, &list.set, list.member, list.members)?;
    put_entries(&mut out, list.batches.as_slice())?;
    put_user(&mut out, list.user.as_slice())?;
    let whole = with_check_sum(alloc, out.finish())?;
    Ok(whole)
}
