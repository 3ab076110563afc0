//! The fields of a load header, as they are shown.
ghost use Rattle.std.specs.Prelude.{◌≡◌, ◌∷◌, ◌++◌, [], codes, length, map, OnOk, IfOk};
ghost use Rattle.std.specs.List.{flat_map};
ghost use Rattle.std.specs.Fmt.{decimal};
ghost use Rattle.load_header.specs.Header.{header_view, hardware_at_view};
ghost use Rattle.shown_files.specs.HeaderText.{shown_header, head_lines, hardware_line};
ghost use Rattle.shown_files.specs.HeaderText.{position_line, position_lines, file_line};
ghost use Rattle.shown_files.specs.HeaderText.{header_crc_line, load_crc_line};
ghost use Rattle.printed_text.specs.Lines.{line, hex_16};

use crate::user::put_user;
use load_base::{Bytes, NoMemory, Text};
use load_header::{FileEntry, HardwareAt, LoadHeader};
use printed_text::{put_hex, put_hex_16, put_line, put_number};
use std::alloc::Global;

/// The fields of a load header that these bytes spell, and their check sums.
#[tactic(auto, unfolding(crate::specs::HeaderText::shown_header))]
pub fn header_text(alloc: Global, bytes: &[u8], header: &LoadHeader) -> Result<Bytes, NoMemory>
    ensures { IfOk result (λ text. text.items ≡ shown_header bytes.now (header_view header.now)) }
{
    let mut out = Bytes::new(alloc);
    put_head(alloc, &mut out, bytes.len() / 2, header)?;
    put_hardware(&mut out, header.hardware.as_slice())?;
    put_positions(&mut out, header.positions.as_slice())?;
    put_files(alloc, &mut out, b"data ", header.data_files.as_slice())?;
    put_files(
        alloc,
        &mut out,
        b"support ",
        header.support_files.as_slice(),
    )?;
    put_user(&mut out, header.user.as_slice())?;
    put_header_crc(&mut out, &bytes[bytes.len().saturating_sub(6)..])?;
    put_load_crc(&mut out, header.load_crc)?;
    Ok(out)
}

#[tactic(auto, unfolding(crate::specs::HeaderText::head_lines))]
fn put_head(
    alloc: Global,
    out: &mut Bytes,
    words: usize,
    header: &LoadHeader,
) -> Result<(), NoMemory>
    ensures { OnOk result
        (out.new.items ≡ out.old.items ++ head_lines words (header_view header.now)) }
{
    put_first_line(alloc, out, words, header.flags)?;
    put_line(out, b"part ", header.part.as_slice())?;
    put_type(alloc, out, header.type_id, &header.type_name)
}

fn put_first_line(alloc: Global, out: &mut Bytes, words: usize, flags: u16) -> Result<(), NoMemory>
    ensures { OnOk result (out.new.items ≡ out.old.items
        ++ line (codes "header" ∷ decimal words ∷ codes "8004" ∷ hex_16 flags ∷ [])) }
{
    out.extend(b"header ")?;
    put_number(alloc, out, words as u64)?;
    out.extend(b" 8004 ")?;
    put_hex_16(out, flags)?;
    out.extend(b"\n")
}

fn put_type(alloc: Global, out: &mut Bytes, id: u16, name: &Text) -> Result<(), NoMemory>
    ensures { OnOk result
        (out.new.items ≡ out.old.items ++ line (codes "type" ∷ decimal id ∷ name.now ∷ [])) }
{
    out.extend(b"type ")?;
    put_number(alloc, out, u64::from(id))?;
    out.extend(b" ")?;
    out.extend(name.as_slice())?;
    out.extend(b"\n")
}

#[tactic(auto, unfolding(crate::specs::HeaderText::hardware_line))]
fn put_hardware_line(out: &mut Bytes, hardware: &Text) -> Result<(), NoMemory>
    ensures { OnOk result (out.new.items ≡ out.old.items ++ hardware_line hardware.now) }
{
    put_line(out, b"hardware ", hardware.as_slice())
}

fn put_hardware(out: &mut Bytes, hardware: &[Text]) -> Result<(), NoMemory>
    ensures { OnOk result (out.new.items ≡ out.old.items ++ flat_map hardware_line hardware.now) }
{
    for id in hardware {
        put_hardware_line(out, id)?;
    }
    Ok(())
}

fn put_positions(out: &mut Bytes, positions: &[HardwareAt]) -> Result<(), NoMemory>
    ensures { OnOk result (out.new.items
        ≡ out.old.items ++ flat_map position_lines (map hardware_at_view positions.now)) }
{
    for at in positions {
        put_entry(out, at)?;
    }
    Ok(())
}

#[tactic(auto, unfolding(crate::specs::HeaderText::position_lines))]
fn put_entry(out: &mut Bytes, at: &HardwareAt) -> Result<(), NoMemory>
    ensures { OnOk result
        (out.new.items ≡ out.old.items ++ position_lines (hardware_at_view at.now)) }
{
    if at.positions.is_empty() {
        return put_line(out, b"position ", at.hardware.as_slice());
    }
    put_each_position(out, &at.hardware, at.positions.as_slice())
}

fn put_each_position(out: &mut Bytes, hardware: &Text, positions: &[Text]) -> Result<(), NoMemory>
    ensures { OnOk result
        (out.new.items ≡ out.old.items ++ flat_map (position_line hardware.now) positions.now) }
{
    for position in positions {
        put_position(out, hardware, position)?;
    }
    Ok(())
}

#[tactic(auto, unfolding(crate::specs::HeaderText::position_line))]
fn put_position(out: &mut Bytes, hardware: &Text, position: &Text) -> Result<(), NoMemory>
    ensures { OnOk result
        (out.new.items ≡ out.old.items ++ position_line hardware.now position.now) }
{
    out.extend(b"position ")?;
    out.extend(hardware.as_slice())?;
    out.extend(b" ")?;
    out.extend(position.as_slice())?;
    out.extend(b"\n")
}

fn put_files(
    alloc: Global,
    out: &mut Bytes,
    kind: &[u8],
    files: &[FileEntry],
) -> Result<(), NoMemory>
    ensures { OnOk result
        (out.new.items ≡ out.old.items ++ flat_map (file_line kind.now) files.now) }
{
    for file in files {
        put_file(alloc, out, kind, file)?;
    }
    Ok(())
}

#[tactic(auto, unfolding(crate::specs::HeaderText::file_line))]
fn put_file(alloc: Global, out: &mut Bytes, kind: &[u8], file: &FileEntry) -> Result<(), NoMemory>
    ensures { OnOk result (out.new.items ≡ out.old.items ++ file_line kind.now file.now) }
{
    out.extend(kind)?;
    out.extend(file.name.as_slice())?;
    out.extend(b" ")?;
    put_number(alloc, out, u64::from(file.length))?;
    out.extend(b" ")?;
    put_hex_16(out, file.crc16)?;
    put_line(out, b" ", file.part.as_slice())
}

/// The sum that the reader of the header has tested.
#[tactic(auto, unfolding(crate::specs::HeaderText::header_crc_line))]
fn put_header_crc(out: &mut Bytes, end: &[u8]) -> Result<(), NoMemory>
    ensures { OnOk result (out.new.items ≡ out.old.items ++ header_crc_line end.now) }
{
    out.extend(b"headercrc ")?;
    put_hex(out, &end[..end.len().saturating_sub(4)])?;
    out.extend(b"\n")
}

#[tactic(auto, unfolding(crate::specs::HeaderText::load_crc_line))]
fn put_load_crc(out: &mut Bytes, sum: u32) -> Result<(), NoMemory>
    ensures { OnOk result (out.new.items ≡ out.old.items ++ load_crc_line sum) }
{
    out.extend(b"loadcrc ")?;
    put_hex_16(out, (sum / 65536) as u16)?;
    put_hex_16(out, (sum % 65536) as u16)?;
    out.extend(b"\n")
}
