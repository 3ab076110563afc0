//! The listing of a target: its identity, its active bank, and its loads with their files, as lines
//! of text.
//!
//! Start from [`listing_text`]. Who has no configuration in memory puts the lines one by one. They
//! are those of docs/FORMATS.md, "Printed text". A call that is out of memory may have put a part
//! of its line; the text isn't used then.
#![tactic(auto)]

ghost use Rattle.std.specs.Prelude.{◌≡◌, ◌++◌, map, OnOk, IfOk};
ghost use Rattle.std.specs.List.{flat_map};
ghost use Rattle.load_base.specs.Config.{file_view, load_view};
ghost use Rattle.disk_layout.specs.Holds.{standing_view};
ghost use Rattle.listing.specs.Listing.{file_line, load_lines, target_line, bank_line};
ghost use Rattle.listing.specs.Listing.{loads_line, load_line_of, file_line_of, listing};

use crc_fields::crc16;
use disk_layout::{Identity, Standing};
use load_base::{Bytes, Load, Name, NoMemory, PartText, StoredFile};
use printed_text::{put_hex_16, put_number};
use std::alloc::Global;

/// The listing of a configuration, in lines that end with a line feed: the target, its active bank
/// with the sequence number, how many loads there are, and each load with its files, of which each
/// has its length in bytes and its CRC-16.
pub fn listing_text(alloc: Global, standing: &Standing) -> Result<Bytes, NoMemory>
    ensures { IfOk result (λ text. text.items ≡ listing (standing_view standing.now)) }
{
    let mut out = Bytes::new(alloc);
    put_target(&mut out, &standing.identity)?;
    put_bank(alloc, &mut out, standing.bank, standing.sequence)?;
    put_count(alloc, &mut out, standing.config.loads.len())?;
    put_loads(alloc, &mut out, standing.config.loads.as_slice())?;
    Ok(out)
}

/// Puts the line of a target: its hardware, position and serial number.
pub fn put_target(out: &mut Bytes, identity: &Identity) -> Result<(), NoMemory>
    ensures { OnOk result (out.new.items ≡ out.old.items ++ target_line identity.now) }
{
    out.extend(b"target ")?;
    out.extend(identity.hw.as_slice())?;
    out.extend(b" ")?;
    out.extend(identity.pos.as_slice())?;
    out.extend(b" ")?;
    out.extend(identity.serial.as_slice())?;
    out.extend(b"\n")
}

/// Puts the line of the active bank and its sequence number.
pub fn put_bank(alloc: Global, out: &mut Bytes, bank: u8, sequence: u32) -> Result<(), NoMemory>
    ensures { OnOk result (out.new.items ≡ out.old.items ++ bank_line bank sequence) }
{
    out.extend(b"bank ")?;
    put_number(alloc, out, u64::from(bank))?;
    out.extend(b" sequence ")?;
    put_number(alloc, out, u64::from(sequence))?;
    out.extend(b"\n")
}

/// Puts the line that says how many loads there are.
pub fn put_count(alloc: Global, out: &mut Bytes, loads: usize) -> Result<(), NoMemory>
    ensures { OnOk result (out.new.items ≡ out.old.items ++ loads_line loads) }
{
    out.extend(b"loads ")?;
    put_number(alloc, out, loads as u64)?;
    out.extend(b"\n")
}

fn put_loads(alloc: Global, out: &mut Bytes, loads: &[Load]) -> Result<(), NoMemory>
    ensures { OnOk result
        (out.new.items ≡ out.old.items ++ flat_map load_lines (map load_view loads.now)) }
{
    for load in loads {
        put_load(alloc, out, load)?;
    }
    Ok(())
}

#[tactic(auto, unfolding(crate::specs::Listing::load_lines, crate::specs::Listing::load_line))]
fn put_load(alloc: Global, out: &mut Bytes, load: &Load) -> Result<(), NoMemory>
    ensures { OnOk result (out.new.items ≡ out.old.items ++ load_lines (load_view load.now)) }
{
    put_load_line(alloc, out, &load.part, &load.header_name, load.files.len())?;
    put_files(alloc, out, load.files.as_slice())
}

/// Puts the line of a load: its part number, the name of its header, and how many files it has.
pub fn put_load_line(
    alloc: Global,
    out: &mut Bytes,
    part: &PartText,
    header_name: &Name,
    files: usize,
) -> Result<(), NoMemory>
    ensures { OnOk result
        (out.new.items ≡ out.old.items ++ load_line_of part.now header_name.now files) }
{
    out.extend(b"load ")?;
    out.extend(part.as_slice())?;
    out.extend(b" ")?;
    out.extend(header_name.as_slice())?;
    out.extend(b" ")?;
    put_number(alloc, out, files as u64)?;
    out.extend(b"\n")
}

fn put_files(alloc: Global, out: &mut Bytes, files: &[StoredFile]) -> Result<(), NoMemory>
    ensures { OnOk result
        (out.new.items ≡ out.old.items ++ flat_map file_line (map file_view files.now)) }
{
    for file in files {
        put_file(alloc, out, file)?;
    }
    Ok(())
}

#[tactic(auto, unfolding(crate::specs::Listing::file_line))]
fn put_file(alloc: Global, out: &mut Bytes, file: &StoredFile) -> Result<(), NoMemory>
    ensures { OnOk result (out.new.items ≡ out.old.items ++ file_line (file_view file.now)) }
{
    let contents = file.bytes.as_slice();
    put_file_line(alloc, out, &file.name, contents.len(), crc16(contents))
}

/// Puts the line of a file: its name, its length in bytes, and the CRC-16 of its contents.
pub fn put_file_line(
    alloc: Global,
    out: &mut Bytes,
    name: &Name,
    length: usize,
    sum: u16,
) -> Result<(), NoMemory>
    ensures { OnOk result (out.new.items ≡ out.old.items ++ file_line_of name.now length sum) }
{
    out.extend(b"file ")?;
    out.extend(name.as_slice())?;
    out.extend(b" ")?;
    put_number(alloc, out, length as u64)?;
    out.extend(b" ")?;
    put_hex_16(out, sum)?;
    out.extend(b"\n")
}
