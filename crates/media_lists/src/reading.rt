//! What the decoders of the two media lists share, part by part of their formats.
ghost use Rattle.std.specs.Prelude.{◌≡◌, ◌≤◌, IfOk};
ghost use Rattle.field_grammar.specs.Answers.{Decodes};
ghost use Rattle.media_lists.specs.Lists.{path, counted, pointers, head, is_member as has_member};
ghost use Rattle.media_lists.specs.Lists.{membership, member_of, identity, check_sum, tail, limit};
ghost use Rattle.media_lists.specs.declared.fault.ListFault.TheVariants.{Memory};

use crate::fault::ListFault;
use crate::paths::path_of;
use crc_fields::crc16;
use field_codec::Reader;
use header_sections::{read_part, read_start, read_user_data, test_end, test_section};
use load_base::{Bytes, Text};
use part_number::PartNumber;
use std::alloc::Global;

/// The most bytes of a list.
pub const LONGEST_LIST: usize = 1_048_576;

/// The most entries of a list, and the most kinds of hardware of an entry.
pub const MOST_ENTRIES: usize = 1_024;

/// The words at which the sections begin, as read from the head.
#[derive(Clone, Copy)]
pub struct Pointers {
    pub set: u32,
    pub entries: u32,
    pub user: u32,
}

/// Tests that at most 1,048,576 bytes are left, those of the whole list. It reads nothing.
#[tactic(auto, unfolding(crate::specs::Lists::limit))]
pub fn test_limit(reader: &mut Reader) -> Result<(), ListFault>
    ensures { Decodes Memory (λ u. u) limit reader.old result reader.new }
{
    if reader.left() <= LONGEST_LIST {
        Ok(())
    } else {
        Err(ListFault::TooLong)
    }
}

// ---- the head

/// The length in words, the version, the spare word and the pointers.
#[tactic(auto, unfolding(crate::specs::Lists::head))]
pub fn read_head(reader: &mut Reader, version: u16) -> Result<Pointers, ListFault>
    ensures { Decodes Memory (λ p. p) (head version) reader.old result reader.new }
{
    read_start(reader, version)?;
    let spare = reader.take_u16()?;
    if spare != 0 {
        return Err(ListFault::Spare(u64::from(spare)));
    }
    let pointers = read_pointers(reader)?;
    Ok(pointers)
}

#[tactic(auto, unfolding(crate::specs::Lists::pointers))]
fn read_pointers(reader: &mut Reader) -> Result<Pointers, ListFault>
    ensures { Decodes Memory (λ p. p) pointers reader.old result reader.new }
{
    let set = reader.take_u32()?;
    let entries = reader.take_u32()?;
    let user = reader.take_u32()?;
    Ok(Pointers { set, entries, user })
}

// ---- paths and counts

#[tactic(auto, unfolding(crate::specs::Lists::path))]
pub(crate) fn read_path(alloc: Global, reader: &mut Reader) -> Result<Text, ListFault>
    ensures { Decodes Memory (λ t. t) path reader.old result reader.new }
{
    let size = reader.take_u16()? as usize;
    let offset = reader.place() as u64;
    let bytes = reader.take_raw(size)?;
    let path = path_of(alloc, bytes, offset)?;
    reader.take_pad(size)?;
    Ok(path)
}

/// A count, 2 bytes, of at most 1,024.
#[tactic(auto, unfolding(crate::specs::Lists::counted))]
pub fn read_count(reader: &mut Reader) -> Result<usize, ListFault>
    ensures count { Decodes Memory (λ n. n) counted reader.old result reader.new }
    ensures few { IfOk result (λ n. n ≤ 1024) }
{
    let count = reader.take_u16()? as usize;
    if count <= MOST_ENTRIES {
        Ok(count)
    } else {
        Err(ListFault::TooLong)
    }
}

// ---- members

fn is_member(members: u64, member: u64) -> bool
    ensures { result ≡ has_member members member }
{
    1 <= member && member <= members
}

#[tactic(auto, unfolding(crate::specs::Lists::membership))]
fn read_membership(reader: &mut Reader) -> Result<(u8, u8), ListFault>
    ensures { Decodes Memory (λ x. x) membership reader.old result reader.new }
{
    let member_offset = reader.place() as u64;
    let member = reader.take_u8()?;
    let members_offset = reader.place() as u64;
    let members = reader.take_u8()?;
    if members < 1 {
        return Err(ListFault::Member(members_offset));
    }
    if is_member(u64::from(members), u64::from(member)) {
        Ok((member, members))
    } else {
        Err(ListFault::Member(member_offset))
    }
}

/// The number of a member of a set of `members`, 2 bytes.
#[tactic(auto, unfolding(crate::specs::Lists::member_of))]
pub fn read_member_of(reader: &mut Reader, members: u8) -> Result<u16, ListFault>
    ensures { Decodes Memory (λ n. n) (member_of members) reader.old result reader.new }
{
    let offset = reader.place() as u64;
    let member = reader.take_u16()?;
    if is_member(u64::from(members), u64::from(member)) {
        Ok(member)
    } else {
        Err(ListFault::Member(offset))
    }
}

/// The part number of the set, and which member of how many the list belongs to; `said` is the
/// first pointer.
#[tactic(auto, unfolding(crate::specs::Lists::identity))]
pub fn read_identity(reader: &mut Reader, said: u32) -> Result<(PartNumber, u8, u8), ListFault>
    ensures { Decodes Memory (λ x. x) (identity said) reader.old result reader.new }
{
    test_section(reader, 1, said)?;
    let set = read_part(reader)?;
    let (member, members) = read_membership(reader)?;
    Ok((set, member, members))
}

// ---- the end

/// The user data, to which the third pointer, `said`, leads, and the check sum.
#[tactic(auto, unfolding(crate::specs::Lists::tail))]
pub fn read_tail(alloc: Global, reader: &mut Reader, said: u32) -> Result<Bytes, ListFault>
    ensures { Decodes Memory (λ b. b.items) (tail said) reader.old result reader.new }
{
    let user = read_user_data(alloc, reader, 3, said)?;
    test_check_sum(reader)?;
    Ok(user)
}

#[tactic(auto, unfolding(crate::specs::Lists::check_sum))]
fn test_check_sum(reader: &mut Reader) -> Result<(), ListFault>
    ensures { Decodes Memory (λ u. u) check_sum reader.old result reader.new }
{
    let found = crc16(reader.before());
    let said = reader.take_u16()?;
    test_end(reader, said, found)?;
    Ok(())
}
