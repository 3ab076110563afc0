//! The decoder of a list of batches, part by part of its format.
ghost use Rattle.std.specs.Prelude.{◌≤◌, ◌<◌, ◌++◌, ◌∷◌, [], length, map, IfOk};
ghost use Rattle.field_grammar.specs.Grammar.{listed};
ghost use Rattle.field_grammar.specs.Answers.{answer, Decodes, AnswersAs};
ghost use Rattle.media_lists.specs.NameOrder.{IsOrder};
ghost use Rattle.media_lists.specs.Lists.{media_list};
ghost use Rattle.media_lists.specs.Entries.{numbered_entry, entry_after};
ghost use Rattle.media_lists.specs.declared.fault.ListFault.TheVariants as lists;
ghost use Rattle.batch_lists.specs.Batches.{batch_body, batch_file, batch_entries};
ghost use Rattle.batch_lists.specs.Batches.{batches_list, batches_list_view};
ghost use Rattle.batch_lists.specs.declared.fault.BatchesFault.TheVariants.{Memory};

use crate::batches::{BATCHES_VERSION, BatchEntry, BatchesList};
use crate::fault::BatchesFault;
use field_codec::Reader;
use header_sections::{is_distance, read_name, read_part, test_section};
use load_base::List;
use media_lists::{
    ListFault, Order, is_new, read_count, read_head, read_identity, read_member_of, read_tail,
    test_limit,
};
use std::alloc::Global;

/// The list that the bytes spell, or their first fault.
pub(crate) fn batches_of(alloc: Global, bytes: &[u8]) -> Result<BatchesList, BatchesFault>
    ensures { AnswersAs Memory batches_list_view result (answer batches_list bytes.now) }
{
    let mut reader = Reader::new(bytes);
    let list = read_list(alloc, &mut reader)?;
    Ok(list)
}

#[tactic(auto, unfolding(media_lists::specs::Lists::media_list))]
fn read_list(alloc: Global, reader: &mut Reader) -> Result<BatchesList, ListFault>
    ensures { Decodes lists.Memory batches_list_view (media_list 0xB004 batch_entries) reader.old
        result reader.new }
{
    test_limit(reader)?;
    let pointers = read_head(reader, BATCHES_VERSION)?;
    let (set, member, members) = read_identity(reader, pointers.set)?;
    let batches = read_batches(alloc, reader, members, pointers.entries)?;
    let user = read_tail(alloc, reader, pointers.user)?;
    Ok(BatchesList {
        set,
        member,
        members,
        batches,
        user,
    })
}

#[tactic(auto, unfolding(media_lists::specs::Entries::entries))]
fn read_batches(
    alloc: Global,
    reader: &mut Reader,
    members: u8,
    said: u32,
) -> Result<List<BatchEntry>, ListFault>
    ensures { Decodes lists.Memory (λ l. l.items) (batch_entries members said) reader.old result
        reader.new }
{
    test_section(reader, 2, said)?;
    let count = read_count(reader)?;
    let batches = read_so_many_batches(alloc, reader, members, count)?;
    Ok(batches)
}

#[tactic(auto, using(field_grammar::proofs::LoopLemmas::list_goes_on, field_grammar::proofs::LoopLemmas::list_ends, field_grammar::proofs::LoopLemmas::list_is_done))]
fn read_so_many_batches(
    alloc: Global,
    reader: &mut Reader,
    members: u8,
    count: usize,
) -> Result<List<BatchEntry>, ListFault>
    requires { count ≤ 1024 }
    ensures { Decodes lists.Memory (λ l. l.items) (listed count
        (entry_after (batch_body members) batch_file count) []) reader.old result reader.new }
{
    let mut batches = List::new(alloc);
    let mut order = Order::new();
    for _ in 0..count {
        let batch = read_new_batch(reader, members, count, &batches, &mut order)?;
        batches.push(batch)?;
    }
    Ok(batches)
}

#[tactic(auto, unfolding(media_lists::specs::Entries::new_entry))]
fn read_new_batch(
    reader: &mut Reader,
    members: u8,
    count: usize,
    batches: &List<BatchEntry>,
    order: &mut Order,
) -> Result<BatchEntry, ListFault>
    requires few { length batches.now.items < 1024 }
    requires order { IsOrder (map batch_file batches.now.items) order.old.items }
    ensures read { Decodes lists.Memory (λ b. b) (entry_after (batch_body members) batch_file count
        batches.now.items) reader.old result reader.new }
    ensures order { IfOk result (λ batch. IsOrder (map batch_file batches.now.items
        ++ batch.file ∷ []) order.new.items) }
{
    let entry = batches.len() + 1;
    let batch = read_batch_entry(reader, members, entry as u64, entry == count)?;
    if is_new(order, batches.as_slice(), batch.file.as_slice()) {
        Ok(batch)
    } else {
        Err(ListFault::Repeated(entry as u64))
    }
}

#[tactic(auto, using(field_grammar::proofs::MoveLemmas::offset_goes_on), unfolding(media_lists::specs::Entries::numbered_entry))]
fn read_batch_entry(
    reader: &mut Reader,
    members: u8,
    entry: u64,
    last: bool,
) -> Result<BatchEntry, ListFault>
    ensures { Decodes lists.Memory (λ b. b) (numbered_entry (batch_body members) entry last)
        reader.old result reader.new }
{
    let start = reader.place();
    let said = reader.take_u16()?;
    let batch = read_batch_body(reader, members)?;
    let size = reader.place() - start;
    if is_distance(said, size, last) {
        Ok(batch)
    } else {
        Err(ListFault::Distance(entry))
    }
}

#[tactic(auto, unfolding(crate::specs::Batches::batch_body))]
fn read_batch_body(reader: &mut Reader, members: u8) -> Result<BatchEntry, ListFault>
    ensures { Decodes lists.Memory (λ b. b) (batch_body members) reader.old result reader.new }
{
    let part = read_part(reader)?;
    let file = read_name(reader)?;
    let member = read_member_of(reader, members)?;
    Ok(BatchEntry { part, file, member })
}
