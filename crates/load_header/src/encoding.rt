//! The encoder of a load header.
ghost use Rattle.std.specs.Prelude.{◌≡◌, ◌+◌, ◌++◌, ◌/◌, ◌≤◌, IfOk, OnOk};
ghost use Rattle.std.specs.List.{concat};
ghost use Rattle.field_grammar.specs.Fields.{number_bytes as bytes_of_number};
ghost use Rattle.load_header.specs.Header.{header_view};
ghost use Rattle.load_header.specs.HeaderFields.{pointers_fields, head_fields, identity_fields};
ghost use Rattle.load_header.specs.HeaderFields.{sections_fields, covered_fields, IsHeader};
ghost use Rattle.load_header.specs.HeaderFields.{HeaderSpells};
ghost use Rattle.load_header.specs.Encoding.{pointers_by, whole_size};

use crate::header::LoadHeader;
use crate::measuring::{Sizes, header_size, sizes_of};
use crate::reading::Pointers;
use crate::writing::put_positions;
use field_codec::Writer;
use header_sections::{put_entries, put_text, put_texts, put_user, with_check_sum};
use load_base::{Bytes, NoMemory};
use std::alloc::Global;

/// The bytes of a header that meets the limits.
pub(crate) fn header_bytes(alloc: Global, header: &LoadHeader) -> Result<Bytes, NoMemory>
    requires { IsHeader (header_view header.now) }
    ensures { IfOk result (λ bytes. HeaderSpells (header_view header.now) bytes.items) }
{
    let covered = covered_bytes(alloc, header)?;
    let mut whole = with_check_sum(alloc, covered)?;
    let load_crc = number_bytes(alloc, header.load_crc)?;
    whole.extend(load_crc.as_slice())?;
    Ok(whole)
}

fn number_bytes(alloc: Global, value: u32) -> Result<Bytes, NoMemory>
    ensures { IfOk result (λ bytes. bytes.items ≡ bytes_of_number 4 value) }
{
    let mut out = Writer::new(alloc);
    out.put_u32(value)?;
    Ok(out.finish())
}

/// All that the check sum of the header covers.
fn covered_bytes(alloc: Global, header: &LoadHeader) -> Result<Bytes, NoMemory>
    requires { IsHeader (header_view header.now) }
    ensures { IfOk result (λ bytes. bytes.items
        ≡ concat (covered_fields (header_view header.now))) }
{
    let sizes = sizes_of(header);
    let mut out = Writer::new(alloc);
    put_head(
        &mut out,
        header_size(sizes) as u32,
        header.flags,
        pointers_of(sizes),
    )?;
    put_sections(&mut out, header)?;
    Ok(out.finish())
}

/// The words at which the sections begin.
#[tactic(auto, unfolding(crate::specs::Encoding::pointers_by))]
fn pointers_of(sizes: Sizes) -> Pointers
    requires { whole_size sizes ≤ 65536 }
    ensures { result ≡ pointers_by sizes }
{
    let type_name = 40 + sizes.part;
    let hardware = type_name + sizes.type_name;
    let positions = hardware + sizes.hardware;
    let data_files = positions + sizes.positions;
    let support_files = data_files + sizes.data_files;
    let user = support_files + sizes.support_files;
    let check_value = user + sizes.user;
    Pointers {
        part: 20,
        type_name: (type_name / 2) as u32,
        hardware: (hardware / 2) as u32,
        positions: (positions / 2) as u32,
        data_files: (data_files / 2) as u32,
        support_files: (support_files / 2) as u32,
        user: (user / 2) as u32,
        check_value: (check_value / 2) as u32,
    }
}

#[tactic(auto, unfolding(crate::specs::HeaderFields::head_fields))]
fn put_head(out: &mut Writer, size: u32, flags: u16, pointers: Pointers) -> Result<(), NoMemory>
    ensures { OnOk result (out.new ≡ out.old ++ concat (head_fields size flags pointers)) }
{
    out.put_u32(size / 2)?;
    out.put_u16(0x8004)?;
    out.put_u16(flags)?;
    put_pointers(out, pointers)?;
    Ok(())
}

#[tactic(auto, unfolding(crate::specs::HeaderFields::pointers_fields))]
fn put_pointers(out: &mut Writer, pointers: Pointers) -> Result<(), NoMemory>
    ensures { OnOk result (out.new ≡ out.old ++ concat (pointers_fields pointers)) }
{
    put_four(
        out,
        pointers.part,
        pointers.type_name,
        pointers.hardware,
        pointers.positions,
    )?;
    put_four(
        out,
        pointers.data_files,
        pointers.support_files,
        pointers.user,
        pointers.check_value,
    )?;
    Ok(())
}

fn put_four(out: &mut Writer, a: u32, b: u32, c: u32, d: u32) -> Result<(), NoMemory>
    ensures { OnOk result (out.new ≡ out.old ++
        (bytes_of_number 4 a ++ (bytes_of_number 4 b
        ++ (bytes_of_number 4 c ++ bytes_of_number 4 d)))) }
{
    out.put_u32(a)?;
    out.put_u32(b)?;
    out.put_u32(c)?;
    out.put_u32(d)?;
    Ok(())
}

fn put_sections(out: &mut Writer, header: &LoadHeader) -> Result<(), NoMemory>
    requires { IsHeader (header_view header.now) }
    ensures { OnOk result (out.new ≡ out.old ++ concat (sections_fields (header_view header.now))) }
{
    put_identity(out, header)?;
    put_texts(out, header.hardware.as_slice())?;
    put_positions(out, header.positions.as_slice())?;
    put_entries(out, header.data_files.as_slice())?;
    put_entries(out, header.support_files.as_slice())?;
    put_user(out, header.user.as_slice())?;
    out.put_u16(0)?;
    Ok(())
}

#[tactic(auto, using(part_number::proofs::VerdictLemmas::part_size), unfolding(crate::specs::HeaderFields::identity_fields, crate::specs::HeaderFields::type_fields))]
fn put_identity(out: &mut Writer, header: &LoadHeader) -> Result<(), NoMemory>
    ensures { OnOk result (out.new ≡ out.old ++ concat (identity_fields (header_view header.now))) }
{
    out.put_padded(header.part.as_slice())?;
    put_text(out, &header.type_name)?;
    out.put_u16(header.type_id)?;
    Ok(())
}
