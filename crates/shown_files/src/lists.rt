//! The fields of the lists of a media set, as they are shown.
ghost use Rattle.std.specs.Prelude.{◌≡◌, ◌∷◌, ◌++◌, [], map, OnOk, IfOk};
ghost use Rattle.std.specs.List.{flat_map};
ghost use Rattle.std.specs.Fmt.{decimal};
ghost use Rattle.media_lists.specs.Files.{files_list_view};
ghost use Rattle.media_lists.specs.Loads.{load_entry_view, loads_list_view};
ghost use Rattle.printed_text.specs.Lines.{hex_16};
ghost use Rattle.shown_files.specs.ListText.{member_line, kind_line, set_lines, crc_line};
ghost use Rattle.shown_files.specs.ListText.{listed_file_line, shown_files_list, listed_load_line};
ghost use Rattle.shown_files.specs.ListText.{load_hardware_line, listed_load_lines};
ghost use Rattle.shown_files.specs.ListText.{shown_loads_list};

use crate::user::put_user;
use load_base::{Bytes, NoMemory, Text};
use media_lists::{FILES_VERSION, FilesList, LOADS_VERSION, ListedFile, LoadEntry, LoadsList};
use part_number::PartNumber;
use printed_text::{put_field, put_hex, put_hex_16, put_number};
use std::alloc::Global;

/// The fields of a list of files that these bytes spell, and the check sum at its end.
#[tactic(auto, unfolding(crate::specs::ListText::shown_files_list))]
pub fn files_list_text(alloc: Global, bytes: &[u8], list: &FilesList) -> Result<Bytes, NoMemory>
    ensures { IfOk result (λ text.
        text.items ≡ shown_files_list bytes.now (files_list_view list.now)) }
{
    let mut out = Bytes::new(alloc);
    put_kind(alloc, &mut out, b"files", bytes.len() / 2, FILES_VERSION)?;
    put_set(alloc, &mut out, &list.set, list.member, list.members)?;
    put_files(alloc, &mut out, list.files.as_slice())?;
    put_user(&mut out, list.user.as_slice())?;
    put_crc(&mut out, bytes)?;
    Ok(out)
}

/// The fields of a list of loads that these bytes spell, and the check sum at its end.
#[tactic(auto, unfolding(crate::specs::ListText::shown_loads_list))]
pub fn loads_list_text(alloc: Global, bytes: &[u8], list: &LoadsList) -> Result<Bytes, NoMemory>
    ensures { IfOk result (λ text.
        text.items ≡ shown_loads_list bytes.now (loads_list_view list.now)) }
{
    let mut out = Bytes::new(alloc);
    put_kind(alloc, &mut out, b"loads", bytes.len() / 2, LOADS_VERSION)?;
    put_set(alloc, &mut out, &list.set, list.member, list.members)?;
    put_loads(alloc, &mut out, list.loads.as_slice())?;
    put_user(&mut out, list.user.as_slice())?;
    put_crc(&mut out, bytes)?;
    Ok(out)
}

/// `loads WORDS VERSION` or what another kind has in place of `loads`.
#[tactic(auto, unfolding(crate::specs::ListText::kind_line))]
pub(crate) fn put_kind(
    alloc: Global,
    out: &mut Bytes,
    kind: &[u8],
    words: usize,
    version: u16,
) -> Result<(), NoMemory>
    ensures { OnOk result (out.new.items ≡ out.old.items ++ kind_line kind.now words version) }
{
    out.extend(kind)?;
    out.extend(b" ")?;
    put_number(alloc, out, words as u64)?;
    out.extend(b" ")?;
    put_hex_16(out, version)?;
    out.extend(b"\n")
}

/// The part number of the set, and which member of how many.
#[tactic(auto, unfolding(crate::specs::ListText::set_lines))]
pub(crate) fn put_set(
    alloc: Global,
    out: &mut Bytes,
    set: &PartNumber,
    member: u8,
    members: u8,
) -> Result<(), NoMemory>
    ensures { OnOk result (out.new.items ≡ out.old.items ++ set_lines set.now member members) }
{
    put_field(out, b"set", set.as_slice())?;
    put_member(alloc, out, member, members)
}

#[tactic(auto, unfolding(crate::specs::ListText::member_line))]
fn put_member(alloc: Global, out: &mut Bytes, member: u8, members: u8) -> Result<(), NoMemory>
    ensures { OnOk result (out.new.items ≡ out.old.items ++ member_line member members) }
{
    out.extend(b"member ")?;
    put_number(alloc, out, u64::from(member))?;
    out.extend(b" of ")?;
    put_number(alloc, out, u64::from(members))?;
    out.extend(b"\n")
}

fn put_files(alloc: Global, out: &mut Bytes, files: &[ListedFile]) -> Result<(), NoMemory>
    ensures { OnOk result (out.new.items ≡ out.old.items ++ flat_map listed_file_line files.now) }
{
    for file in files {
        put_file(alloc, out, file)?;
    }
    Ok(())
}

#[tactic(auto, unfolding(crate::specs::ListText::listed_file_line))]
fn put_file(alloc: Global, out: &mut Bytes, file: &ListedFile) -> Result<(), NoMemory>
    ensures { OnOk result (out.new.items ≡ out.old.items ++ listed_file_line file.now) }
{
    out.extend(b"file ")?;
    out.extend(file.name.as_slice())?;
    out.extend(b" ")?;
    out.extend(file.path.as_slice())?;
    out.extend(b" ")?;
    put_number(alloc, out, u64::from(file.member))?;
    put_file_crc(out, file.crc16)
}

/// The check sum at the end of a file's line.
fn put_file_crc(out: &mut Bytes, sum: u16) -> Result<(), NoMemory>
    ensures { OnOk result (out.new.items ≡ out.old.items ++ (32 ∷ hex_16 sum ++ 10 ∷ [])) }
{
    out.extend(b" ")?;
    put_hex_16(out, sum)?;
    out.extend(b"\n")
}

fn put_loads(alloc: Global, out: &mut Bytes, loads: &[LoadEntry]) -> Result<(), NoMemory>
    ensures { OnOk result (out.new.items
        ≡ out.old.items ++ flat_map listed_load_lines (map load_entry_view loads.now)) }
{
    for load in loads {
        put_load(alloc, out, load)?;
    }
    Ok(())
}

#[tactic(auto, unfolding(crate::specs::ListText::listed_load_lines))]
fn put_load(alloc: Global, out: &mut Bytes, load: &LoadEntry) -> Result<(), NoMemory>
    ensures { OnOk result
        (out.new.items ≡ out.old.items ++ listed_load_lines (load_entry_view load.now)) }
{
    put_load_line(alloc, out, load)?;
    put_hardware(out, load.hardware.as_slice())
}

#[tactic(auto, unfolding(crate::specs::ListText::listed_load_line))]
fn put_load_line(alloc: Global, out: &mut Bytes, load: &LoadEntry) -> Result<(), NoMemory>
    ensures { OnOk result
        (out.new.items ≡ out.old.items ++ listed_load_line (load_entry_view load.now)) }
{
    out.extend(b"load ")?;
    out.extend(load.part.as_slice())?;
    out.extend(b" ")?;
    out.extend(load.header_name.as_slice())?;
    put_two_numbers(
        alloc,
        out,
        u64::from(load.member),
        load.hardware.len() as u64,
    )
}

/// Two numbers at the end of a line, each after a space.
fn put_two_numbers(alloc: Global, out: &mut Bytes, first: u64, second: u64) -> Result<(), NoMemory>
    ensures { OnOk result
        (out.new.items ≡ out.old.items ++ (32 ∷ decimal first ++ 32 ∷ decimal second ++ 10 ∷ [])) }
{
    out.extend(b" ")?;
    put_number(alloc, out, first)?;
    out.extend(b" ")?;
    put_number(alloc, out, second)?;
    out.extend(b"\n")
}

fn put_hardware(out: &mut Bytes, hardware: &[Text]) -> Result<(), NoMemory>
    ensures { OnOk result
        (out.new.items ≡ out.old.items ++ flat_map load_hardware_line hardware.now) }
{
    for id in hardware {
        put_field(out, b"hardware", id.as_slice())?;
    }
    Ok(())
}

/// The sum at the end of these bytes, which their reader has tested.
#[tactic(auto, unfolding(crate::specs::ListText::crc_line, printed_text::specs::Lines::field_line))]
pub(crate) fn put_crc(out: &mut Bytes, bytes: &[u8]) -> Result<(), NoMemory>
    ensures { OnOk result (out.new.items ≡ out.old.items ++ crc_line bytes.now) }
{
    out.extend(b"crc ")?;
    put_hex(out, &bytes[bytes.len().saturating_sub(2)..])?;
    out.extend(b"\n")
}
