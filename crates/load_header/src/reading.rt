//! The decoder of a load header, part by part of its format.
ghost use Rattle.std.specs.Prelude.{◌≡◌, [], ◌/◌, ◌+◌, ◌==◌, ◌≤◌, ◌<◌, length, map, IfOk};
ghost use Rattle.field_grammar.specs.Grammar.{times, listed};
ghost use Rattle.field_grammar.specs.Answers.{answer, Decodes, AnswersAs};
ghost use Rattle.load_header.specs.Header.{counted_texts, four, pointers, head, identity};
ghost use Rattle.load_header.specs.Header.{hardware_at, positions, targets, file_size, file_body};
ghost use Rattle.load_header.specs.Header.{file_entry, entry_after, files, all_files};
ghost use Rattle.load_header.specs.Header.{no_check_value, check_sums, tail, limit, header};
ghost use Rattle.load_header.specs.Header.{hardware_at_view, header_view};
ghost use Rattle.load_header.specs.declared.fault.HeaderFault.TheVariants.{Memory};

use crate::fault::HeaderFault;
use crate::header::{FileEntry, HardwareAt, LoadHeader};
use crc_fields::crc16;
use field_codec::Reader;
use header_sections::{
    is_distance, read_name, read_part, read_start, read_text, read_texts, read_user_data, test_end,
    test_section,
};
use load_base::{Bytes, List, Text};
use part_number::PartNumber;
use std::alloc::Global;

/// The version of a header.
const VERSION: u16 = 0x8004;

/// The most bytes of a header.
pub(crate) const LONGEST_HEADER: usize = 65_536;

/// The most data and support files of a load, together.
pub(crate) const MOST_FILES: usize = 255;

/// The most bytes of a file.
pub(crate) const LONGEST_FILE: u64 = 16_777_215;

/// The words at which the sections begin, as read from the head.
#[derive(Clone, Copy)]
pub(crate) struct Pointers {
    pub(crate) part: u32,
    pub(crate) type_name: u32,
    pub(crate) hardware: u32,
    pub(crate) positions: u32,
    pub(crate) data_files: u32,
    pub(crate) support_files: u32,
    pub(crate) user: u32,
    pub(crate) check_value: u32,
}

/// The header that the bytes spell, or their first fault.
#[tactic(auto, unfolding(crate::specs::Header::header))]
pub(crate) fn header_of(alloc: Global, bytes: &[u8]) -> Result<LoadHeader, HeaderFault>
    ensures { AnswersAs Memory header_view result (answer header bytes.now) }
{
    let mut reader = Reader::new(bytes);
    test_limit(&mut reader)?;
    let (flags, pointers) = read_head(&mut reader)?;
    let (part, type_name, type_id) = read_identity(alloc, &mut reader, pointers)?;
    let (hardware, positions) = read_targets(alloc, &mut reader, pointers)?;
    let (data_files, support_files) = read_all_files(alloc, &mut reader, pointers)?;
    let (user, load_crc) = read_tail(alloc, &mut reader, pointers)?;
    Ok(LoadHeader {
        flags,
        part,
        type_name,
        type_id,
        hardware,
        positions,
        data_files,
        support_files,
        user,
        load_crc,
    })
}

#[tactic(auto, unfolding(crate::specs::Header::limit))]
fn test_limit(reader: &mut Reader) -> Result<(), HeaderFault>
    ensures { Decodes Memory (λ u. u) limit reader.old result reader.new }
{
    if reader.left() <= LONGEST_HEADER {
        Ok(())
    } else {
        Err(HeaderFault::TooLong)
    }
}

// ---- the head

#[tactic(auto, unfolding(crate::specs::Header::head))]
fn read_head(reader: &mut Reader) -> Result<(u16, Pointers), HeaderFault>
    ensures { Decodes Memory (λ h. h) head reader.old result reader.new }
{
    read_start(reader, VERSION)?;
    let flags = reader.take_u16()?;
    let pointers = read_pointers(reader)?;
    Ok((flags, pointers))
}

#[tactic(auto, unfolding(crate::specs::Header::pointers))]
fn read_pointers(reader: &mut Reader) -> Result<Pointers, HeaderFault>
    ensures { Decodes Memory (λ p. p) pointers reader.old result reader.new }
{
    let (part, type_name, hardware, positions) = read_four(reader)?;
    let (data_files, support_files, user, check_value) = read_four(reader)?;
    Ok(Pointers {
        part,
        type_name,
        hardware,
        positions,
        data_files,
        support_files,
        user,
        check_value,
    })
}

#[tactic(auto, unfolding(crate::specs::Header::four))]
fn read_four(reader: &mut Reader) -> Result<(u32, u32, u32, u32), HeaderFault>
    ensures { Decodes Memory (λ p. p) four reader.old result reader.new }
{
    let a = reader.take_u32()?;
    let b = reader.take_u32()?;
    let c = reader.take_u32()?;
    let d = reader.take_u32()?;
    Ok((a, b, c, d))
}

// ---- texts

#[tactic(auto, unfolding(crate::specs::Header::counted_texts))]
fn read_counted_texts(alloc: Global, reader: &mut Reader) -> Result<List<Text>, HeaderFault>
    ensures { Decodes Memory (λ l. l.items) counted_texts reader.old result reader.new }
{
    let count = reader.take_u16()? as usize;
    let texts = read_texts(alloc, reader, count)?;
    Ok(texts)
}

// ---- what the load is, and what it is for

#[tactic(auto, unfolding(crate::specs::Header::identity))]
fn read_identity(
    alloc: Global,
    reader: &mut Reader,
    pointers: Pointers,
) -> Result<(PartNumber, Text, u16), HeaderFault>
    ensures { Decodes Memory (λ x. x) (identity pointers) reader.old result reader.new }
{
    test_section(reader, 1, pointers.part)?;
    let part = read_part(reader)?;
    test_section(reader, 2, pointers.type_name)?;
    let type_name = read_text(alloc, reader)?;
    let type_id = reader.take_u16()?;
    Ok((part, type_name, type_id))
}

#[tactic(auto, unfolding(crate::specs::Header::targets))]
fn read_targets(
    alloc: Global,
    reader: &mut Reader,
    pointers: Pointers,
) -> Result<(List<Text>, List<HardwareAt>), HeaderFault>
    ensures { Decodes Memory (λ x. (x.0.items, map hardware_at_view x.1.items)) (targets pointers)
        reader.old result reader.new }
{
    test_section(reader, 3, pointers.hardware)?;
    let hardware = read_counted_texts(alloc, reader)?;
    test_section(reader, 4, pointers.positions)?;
    let positions = read_positions(alloc, reader)?;
    Ok((hardware, positions))
}

#[tactic(auto, unfolding(crate::specs::Header::positions))]
fn read_positions(alloc: Global, reader: &mut Reader) -> Result<List<HardwareAt>, HeaderFault>
    ensures { Decodes Memory (λ l. map hardware_at_view l.items) positions reader.old result
        reader.new }
{
    let count = reader.take_u16()?;
    let positions = read_so_many_positions(alloc, reader, count)?;
    Ok(positions)
}

#[tactic(auto, using(field_grammar::proofs::LoopLemmas::goes_on_seen, field_grammar::proofs::LoopLemmas::ends, field_grammar::proofs::LoopLemmas::is_done, field_grammar::proofs::LoopLemmas::begins))]
fn read_so_many_positions(
    alloc: Global,
    reader: &mut Reader,
    count: u16,
) -> Result<List<HardwareAt>, HeaderFault>
    ensures { Decodes Memory (λ l. map hardware_at_view l.items) (times count hardware_at)
        reader.old result reader.new }
{
    let mut positions = List::new(alloc);
    for _ in 0..count {
        positions.push(read_hardware_at(alloc, reader)?)?;
    }
    Ok(positions)
}

#[tactic(auto, unfolding(crate::specs::Header::hardware_at))]
fn read_hardware_at(alloc: Global, reader: &mut Reader) -> Result<HardwareAt, HeaderFault>
    ensures { Decodes Memory hardware_at_view hardware_at reader.old result reader.new }
{
    let hardware = read_text(alloc, reader)?;
    let positions = read_counted_texts(alloc, reader)?;
    Ok(HardwareAt {
        hardware,
        positions,
    })
}

// ---- files

#[tactic(auto, unfolding(crate::specs::Header::all_files))]
fn read_all_files(
    alloc: Global,
    reader: &mut Reader,
    pointers: Pointers,
) -> Result<(List<FileEntry>, List<FileEntry>), HeaderFault>
    ensures { Decodes Memory (λ x. (x.0.items, x.1.items)) (all_files pointers) reader.old result
        reader.new }
{
    let data_files = read_files(alloc, reader, 5, pointers.data_files, 0)?;
    let support_files = read_files(alloc, reader, 6, pointers.support_files, data_files.len())?;
    Ok((data_files, support_files))
}

#[tactic(auto, unfolding(crate::specs::Header::files))]
fn read_files(
    alloc: Global,
    reader: &mut Reader,
    which: u64,
    said: u32,
    others: usize,
) -> Result<List<FileEntry>, HeaderFault>
    requires { others ≤ 65535 }
    ensures files { Decodes Memory (λ l. l.items) (files which said others) reader.old result
        reader.new }
    ensures few { IfOk result (λ l. length l.items ≤ 255) }
{
    test_section(reader, which, said)?;
    let count = reader.take_u16()? as usize;
    if others + count > MOST_FILES {
        return Err(HeaderFault::TooMany((others + count) as u64));
    }
    let files = read_entries(alloc, reader, others, count)?;
    Ok(files)
}

#[tactic(auto, using(field_grammar::proofs::LoopLemmas::list_goes_on, field_grammar::proofs::LoopLemmas::list_ends, field_grammar::proofs::LoopLemmas::list_is_done))]
fn read_entries(
    alloc: Global,
    reader: &mut Reader,
    others: usize,
    count: usize,
) -> Result<List<FileEntry>, HeaderFault>
    requires { others + count ≤ 255 }
    ensures entries { Decodes Memory (λ l. l.items) (listed count (entry_after others count) [])
        reader.old result reader.new }
    ensures all { IfOk result (λ l. length l.items ≡ count) }
{
    let mut files = List::new(alloc);
    for index in 0..count {
        let file = (others + index + 1) as u64;
        files.push(read_entry(alloc, reader, file, index + 1 == count)?)?;
    }
    Ok(files)
}

#[tactic(auto, using(field_grammar::proofs::MoveLemmas::offset_goes_on), unfolding(crate::specs::Header::file_entry))]
fn read_entry(
    alloc: Global,
    reader: &mut Reader,
    file: u64,
    last: bool,
) -> Result<FileEntry, HeaderFault>
    ensures { Decodes Memory (λ f. f) (file_entry file last) reader.old result reader.new }
{
    let start = reader.place();
    let said = reader.take_u16()?;
    let entry = read_file_body(alloc, reader, file)?;
    let size = reader.place() - start;
    if is_distance(said, size, last) {
        Ok(entry)
    } else {
        Err(HeaderFault::Distance(file))
    }
}

#[tactic(auto, unfolding(crate::specs::Header::file_body))]
fn read_file_body(alloc: Global, reader: &mut Reader, file: u64) -> Result<FileEntry, HeaderFault>
    ensures { Decodes Memory (λ f. f) (file_body file) reader.old result reader.new }
{
    let name = read_name(reader)?;
    let part = read_text(alloc, reader)?;
    let length = read_size(reader, file)?;
    let crc16 = reader.take_u16()?;
    Ok(FileEntry {
        name,
        part,
        length,
        crc16,
    })
}

#[tactic(auto, unfolding(crate::specs::Header::file_size))]
fn read_size(reader: &mut Reader, file: u64) -> Result<u32, HeaderFault>
    ensures { Decodes Memory (λ n. n) (file_size file) reader.old result reader.new }
{
    let words = u64::from(reader.take_u32()?);
    let bytes = reader.take_u64()?;
    if bytes <= LONGEST_FILE && words == (bytes + 1) / 2 {
        Ok(bytes as u32)
    } else {
        Err(HeaderFault::Sizes(file))
    }
}

// ---- the end

#[tactic(auto, unfolding(crate::specs::Header::tail))]
fn read_tail(
    alloc: Global,
    reader: &mut Reader,
    pointers: Pointers,
) -> Result<(Bytes, u32), HeaderFault>
    ensures { Decodes Memory (λ x. (x.0.items, x.1)) (tail pointers) reader.old result reader.new }
{
    let user = read_user_data(alloc, reader, 7, pointers.user)?;
    test_check_value(reader, pointers.check_value)?;
    let load_crc = read_check_sums(reader)?;
    Ok((user, load_crc))
}

#[tactic(auto, unfolding(crate::specs::Header::no_check_value))]
fn test_check_value(reader: &mut Reader, said: u32) -> Result<(), HeaderFault>
    ensures { Decodes Memory (λ u. u) (no_check_value said) reader.old result reader.new }
{
    test_section(reader, 8, said)?;
    let size = reader.take_u16()?;
    if size == 0 {
        Ok(())
    } else {
        Err(HeaderFault::CheckValuePresent)
    }
}

#[tactic(auto, unfolding(crate::specs::Header::check_sums))]
fn read_check_sums(reader: &mut Reader) -> Result<u32, HeaderFault>
    ensures { Decodes Memory (λ n. n) check_sums reader.old result reader.new }
{
    let found = crc16(reader.before());
    let said = reader.take_u16()?;
    let load_crc = reader.take_u32()?;
    test_end(reader, said, found)?;
    Ok(load_crc)
}
