//! The decoder of a list of files, part by part of its format.
ghost use Rattle.std.specs.Prelude.{◌≤◌, ◌<◌, ◌+◌, ◌++◌, ◌∷◌, ◌==◌, [], length, map, IfOk};
ghost use Rattle.media_lists.specs.NameOrder.{IsOrder};
ghost use Rattle.field_grammar.specs.Grammar.{listed};
ghost use Rattle.field_grammar.specs.Answers.{answer, Decodes, AnswersAs};
ghost use Rattle.media_lists.specs.Entries.{numbered_entry, entry_after};
ghost use Rattle.media_lists.specs.Files.{file_body, file_name, file_entries, files_list};
ghost use Rattle.media_lists.specs.Files.{files_list_view};
ghost use Rattle.media_lists.specs.declared.fault.ListFault.TheVariants.{Memory};

use crate::fault::ListFault;
use crate::lists::{FILES_VERSION, FilesList, ListedFile};
use crate::names::{Order, is_new};
use crate::reading::{
    read_count, read_head, read_identity, read_member_of, read_path, read_tail, test_limit,
};
use field_codec::Reader;
use header_sections::{is_distance, read_name, test_section};
use load_base::List;
use std::alloc::Global;

/// The list that the bytes spell, or their first fault.
#[tactic(auto, unfolding(crate::specs::Lists::media_list))]
pub(crate) fn files_of(alloc: Global, bytes: &[u8]) -> Result<FilesList, ListFault>
    ensures { AnswersAs Memory files_list_view result (answer files_list bytes.now) }
{
    let mut reader = Reader::new(bytes);
    test_limit(&mut reader)?;
    let pointers = read_head(&mut reader, FILES_VERSION)?;
    let (set, member, members) = read_identity(&mut reader, pointers.set)?;
    let files = read_files(alloc, &mut reader, members, pointers.entries)?;
    let user = read_tail(alloc, &mut reader, pointers.user)?;
    Ok(FilesList {
        set,
        member,
        members,
        files,
        user,
    })
}

#[tactic(auto, unfolding(crate::specs::Entries::entries))]
fn read_files(
    alloc: Global,
    reader: &mut Reader,
    members: u8,
    said: u32,
) -> Result<List<ListedFile>, ListFault>
    ensures { Decodes Memory (λ l. l.items) (file_entries members said) reader.old result
        reader.new }
{
    test_section(reader, 2, said)?;
    let count = read_count(reader)?;
    let files = read_so_many_files(alloc, reader, members, count)?;
    Ok(files)
}

#[tactic(auto, using(field_grammar::proofs::LoopLemmas::list_goes_on, field_grammar::proofs::LoopLemmas::list_ends, field_grammar::proofs::LoopLemmas::list_is_done))]
fn read_so_many_files(
    alloc: Global,
    reader: &mut Reader,
    members: u8,
    count: usize,
) -> Result<List<ListedFile>, ListFault>
    requires { count ≤ 1024 }
    ensures { Decodes Memory (λ l. l.items) (listed count
        (entry_after (file_body members) file_name count) []) reader.old result reader.new }
{
    let mut files = List::new(alloc);
    let mut order = Order::new();
    for _ in 0..count {
        let file = read_new_file(alloc, reader, members, count, &files, &mut order)?;
        files.push(file)?;
    }
    Ok(files)
}

#[tactic(auto, unfolding(crate::specs::Entries::new_entry))]
fn read_new_file(
    alloc: Global,
    reader: &mut Reader,
    members: u8,
    count: usize,
    files: &List<ListedFile>,
    order: &mut Order,
) -> Result<ListedFile, ListFault>
    requires few { length files.now.items < 1024 }
    requires order { IsOrder (map file_name files.now.items) order.old.items }
    ensures read { Decodes Memory (λ f. f) (entry_after (file_body members) file_name count
        files.now.items) reader.old result reader.new }
    ensures order { IfOk result (λ file. IsOrder (map file_name files.now.items ++ file.name ∷ [])
        order.new.items) }
{
    let entry = files.len() + 1;
    let file = read_file_entry(alloc, reader, members, entry as u64, entry == count)?;
    if is_new(order, files.as_slice(), file.name.as_slice()) {
        Ok(file)
    } else {
        Err(ListFault::Repeated(entry as u64))
    }
}

#[tactic(auto, using(field_grammar::proofs::MoveLemmas::offset_goes_on), unfolding(crate::specs::Entries::numbered_entry))]
fn read_file_entry(
    alloc: Global,
    reader: &mut Reader,
    members: u8,
    entry: u64,
    last: bool,
) -> Result<ListedFile, ListFault>
    ensures { Decodes Memory (λ f. f) (numbered_entry (file_body members) entry last) reader.old
        result reader.new }
{
    let start = reader.place();
    let said = reader.take_u16()?;
    let file = read_file_body(alloc, reader, members)?;
    let size = reader.place() - start;
    if is_distance(said, size, last) {
        Ok(file)
    } else {
        Err(ListFault::Distance(entry))
    }
}

#[tactic(auto, unfolding(crate::specs::Files::file_body))]
fn read_file_body(alloc: Global, reader: &mut Reader, members: u8) -> Result<ListedFile, ListFault>
    ensures { Decodes Memory (λ f. f) (file_body members) reader.old result reader.new }
{
    let name = read_name(reader)?;
    let path = read_path(alloc, reader)?;
    let member = read_member_of(reader, members)?;
    let crc16 = reader.take_u16()?;
    Ok(ListedFile {
        name,
        path,
        member,
        crc16,
    })
}
