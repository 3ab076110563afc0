//! The decoder of a list of loads, part by part of its format.
ghost use Rattle.std.specs.Prelude.{◌≤◌, ◌<◌, ◌+◌, ◌++◌, ◌∷◌, ◌==◌, [], length, map, IfOk};
ghost use Rattle.media_lists.specs.NameOrder.{IsOrder};
ghost use Rattle.field_grammar.specs.Grammar.{listed};
ghost use Rattle.field_grammar.specs.Answers.{answer, Decodes, AnswersAs};
ghost use Rattle.media_lists.specs.Entries.{numbered_entry, entry_after};
ghost use Rattle.media_lists.specs.Loads.{counted_texts, load_body, load_name, load_entries};
ghost use Rattle.media_lists.specs.Loads.{loads_list, load_entry_view, loads_list_view};
ghost use Rattle.media_lists.specs.declared.fault.ListFault.TheVariants.{Memory};

use crate::fault::ListFault;
use crate::lists::{LOADS_VERSION, LoadEntry, LoadsList};
use crate::names::{Order, is_new_load};
use crate::reading::{read_count, read_head, read_identity, read_member_of, read_tail, test_limit};
use field_codec::Reader;
use header_sections::{is_distance, read_name, read_part, read_texts, test_section};
use load_base::{List, Text};
use std::alloc::Global;

/// The list that the bytes spell, or their first fault.
#[tactic(auto, unfolding(crate::specs::Lists::media_list))]
pub(crate) fn loads_of(alloc: Global, bytes: &[u8]) -> Result<LoadsList, ListFault>
    ensures { AnswersAs Memory loads_list_view result (answer loads_list bytes.now) }
{
    let mut reader = Reader::new(bytes);
    test_limit(&mut reader)?;
    let pointers = read_head(&mut reader, LOADS_VERSION)?;
    let (set, member, members) = read_identity(&mut reader, pointers.set)?;
    let loads = read_loads(alloc, &mut reader, members, pointers.entries)?;
    let user = read_tail(alloc, &mut reader, pointers.user)?;
    Ok(LoadsList {
        set,
        member,
        members,
        loads,
        user,
    })
}

#[tactic(auto, unfolding(crate::specs::Entries::entries))]
fn read_loads(
    alloc: Global,
    reader: &mut Reader,
    members: u8,
    said: u32,
) -> Result<List<LoadEntry>, ListFault>
    ensures { Decodes Memory (λ l. map load_entry_view l.items) (load_entries members said)
        reader.old result reader.new }
{
    test_section(reader, 2, said)?;
    let count = read_count(reader)?;
    let loads = read_so_many_loads(alloc, reader, members, count)?;
    Ok(loads)
}

#[tactic(auto, using(field_grammar::proofs::LoopLemmas::list_goes_on_seen, field_grammar::proofs::LoopLemmas::list_ends, field_grammar::proofs::LoopLemmas::list_is_done))]
fn read_so_many_loads(
    alloc: Global,
    reader: &mut Reader,
    members: u8,
    count: usize,
) -> Result<List<LoadEntry>, ListFault>
    requires { count ≤ 1024 }
    ensures { Decodes Memory (λ l. map load_entry_view l.items)
        (listed count (entry_after (load_body members) load_name count) []) reader.old result
        reader.new }
{
    let mut loads = List::new(alloc);
    let mut order = Order::new();
    for _ in 0..count {
        let load = read_new_load(alloc, reader, members, count, &loads, &mut order)?;
        loads.push(load)?;
    }
    Ok(loads)
}

#[tactic(auto, unfolding(crate::specs::Entries::new_entry))]
fn read_new_load(
    alloc: Global,
    reader: &mut Reader,
    members: u8,
    count: usize,
    loads: &List<LoadEntry>,
    order: &mut Order,
) -> Result<LoadEntry, ListFault>
    requires few { length loads.now.items < 1024 }
    requires order { IsOrder (map load_name (map load_entry_view loads.now.items)) order.old.items }
    ensures read { Decodes Memory load_entry_view
        (entry_after (load_body members) load_name count (map load_entry_view loads.now.items))
        reader.old result reader.new }
    ensures order { IfOk result (λ load. IsOrder
        (map load_name (map load_entry_view loads.now.items) ++ load.header_name ∷ [])
        order.new.items) }
{
    let entry = loads.len() + 1;
    let load = read_load_entry(alloc, reader, members, entry as u64, entry == count)?;
    if is_new_load(order, loads.as_slice(), load.header_name.as_slice()) {
        Ok(load)
    } else {
        Err(ListFault::Repeated(entry as u64))
    }
}

#[tactic(auto, using(field_grammar::proofs::MoveLemmas::offset_goes_on), unfolding(crate::specs::Entries::numbered_entry))]
fn read_load_entry(
    alloc: Global,
    reader: &mut Reader,
    members: u8,
    entry: u64,
    last: bool,
) -> Result<LoadEntry, ListFault>
    ensures { Decodes Memory load_entry_view (numbered_entry (load_body members) entry last)
        reader.old result reader.new }
{
    let start = reader.place();
    let said = reader.take_u16()?;
    let load = read_load_body(alloc, reader, members)?;
    let size = reader.place() - start;
    if is_distance(said, size, last) {
        Ok(load)
    } else {
        Err(ListFault::Distance(entry))
    }
}

#[tactic(auto, unfolding(crate::specs::Loads::load_body))]
fn read_load_body(alloc: Global, reader: &mut Reader, members: u8) -> Result<LoadEntry, ListFault>
    ensures { Decodes Memory load_entry_view (load_body members) reader.old result reader.new }
{
    let part = read_part(reader)?;
    let header_name = read_name(reader)?;
    let member = read_member_of(reader, members)?;
    let hardware = read_counted_texts(alloc, reader)?;
    Ok(LoadEntry {
        part,
        header_name,
        member,
        hardware,
    })
}

#[tactic(auto, unfolding(crate::specs::Loads::counted_texts))]
fn read_counted_texts(alloc: Global, reader: &mut Reader) -> Result<List<Text>, ListFault>
    ensures { Decodes Memory (λ l. l.items) counted_texts reader.old result reader.new }
{
    let count = read_count(reader)?;
    let texts = read_texts(alloc, reader, count)?;
    Ok(texts)
}
