//! The fields of the protocol files, as they are shown.
ghost use Rattle.std.specs.Prelude.{◌≡◌, ◌++◌, map, OnOk, IfOk};
ghost use Rattle.std.specs.List.{flat_map};
ghost use Rattle.load_protocol_files.specs.Lur.{lur_view};
ghost use Rattle.load_protocol_files.specs.Lus.{lus_view};
ghost use Rattle.load_protocol_files.specs.Lcl.{lcl_view, hardware_view};
ghost use Rattle.shown_files.specs.ProtocolText.{type_line, status_line, state_lines, timer_lines};
ghost use Rattle.shown_files.specs.ProtocolText.{progress_lines, installed_lines, hardware_lines};
ghost use Rattle.shown_files.specs.ProtocolText.{wanted_lines, load_status_lines, shown_lci};
ghost use Rattle.shown_files.specs.ProtocolText.{shown_lcs, shown_lcl, shown_lui, shown_lur};
ghost use Rattle.shown_files.specs.ProtocolText.{shown_lus};

use load_base::{Bytes, NoMemory, Text};
use load_protocol_files::{Hardware, Lci, Lcl, Lcs, LoadStatus, Lui, Lur, Lus, Part, Wanted};
use printed_text::{put_field, put_hex_16, put_number_field};
use std::alloc::Global;

/// The fields of a configuration initialization file.
#[tactic(auto, unfolding(crate::specs::ProtocolText::shown_lci))]
pub fn lci_text(alloc: Global, file: &Lci) -> Result<Bytes, NoMemory>
    ensures { IfOk result (λ text. text.items ≡ shown_lci file.now) }
{
    let mut out = text_of_type(alloc, b"LCI")?;
    put_state(&mut out, file.status, &file.description)?;
    Ok(out)
}

/// The fields of a configuration status file.
#[tactic(auto, unfolding(crate::specs::ProtocolText::shown_lcs))]
pub fn lcs_text(alloc: Global, file: &Lcs) -> Result<Bytes, NoMemory>
    ensures { IfOk result (λ text. text.items ≡ shown_lcs file.now) }
{
    let mut out = text_of_type(alloc, b"LCS")?;
    put_number_field(alloc, &mut out, b"counter", u64::from(file.counter))?;
    put_status(&mut out, file.status)?;
    put_timers(alloc, &mut out, file.exception, file.estimated)?;
    put_field(&mut out, b"description", file.description.as_slice())?;
    Ok(out)
}

/// The fields of a configuration list file.
#[tactic(auto, unfolding(crate::specs::ProtocolText::shown_lcl))]
pub fn lcl_text(alloc: Global, file: &Lcl) -> Result<Bytes, NoMemory>
    ensures { IfOk result (λ text. text.items ≡ shown_lcl (lcl_view file.now)) }
{
    let mut out = text_of_type(alloc, b"LCL")?;
    let hardware = file.hardware.as_slice();
    put_number_field(alloc, &mut out, b"hardware", hardware.len() as u64)?;
    put_each_hardware(alloc, &mut out, hardware)?;
    Ok(out)
}

/// The fields of an upload initialization file.
#[tactic(auto, unfolding(crate::specs::ProtocolText::shown_lui))]
pub fn lui_text(alloc: Global, file: &Lui) -> Result<Bytes, NoMemory>
    ensures { IfOk result (λ text. text.items ≡ shown_lui file.now) }
{
    let mut out = text_of_type(alloc, b"LUI")?;
    put_state(&mut out, file.status, &file.description)?;
    Ok(out)
}

/// The fields of an upload request file.
#[tactic(auto, unfolding(crate::specs::ProtocolText::shown_lur))]
pub fn lur_text(alloc: Global, file: &Lur) -> Result<Bytes, NoMemory>
    ensures { IfOk result (λ text. text.items ≡ shown_lur (lur_view file.now)) }
{
    let mut out = text_of_type(alloc, b"LUR")?;
    let loads = file.loads.as_slice();
    put_number_field(alloc, &mut out, b"loads", loads.len() as u64)?;
    put_each_wanted(&mut out, loads)?;
    Ok(out)
}

/// The fields of an upload status file.
#[tactic(auto, unfolding(crate::specs::ProtocolText::shown_lus))]
pub fn lus_text(alloc: Global, file: &Lus) -> Result<Bytes, NoMemory>
    ensures { IfOk result (λ text. text.items ≡ shown_lus (lus_view file.now)) }
{
    let mut out = text_of_type(alloc, b"LUS")?;
    put_state(&mut out, file.status, &file.description)?;
    put_number_field(alloc, &mut out, b"counter", u64::from(file.counter))?;
    put_timers(alloc, &mut out, file.exception, file.estimated)?;
    put_progress(alloc, &mut out, file)?;
    Ok(out)
}

fn text_of_type(alloc: Global, name: &[u8]) -> Result<Bytes, NoMemory>
    ensures { IfOk result (λ text. text.items ≡ type_line name.now) }
{
    let mut out = Bytes::new(alloc);
    out.extend(name)?;
    out.extend(b"\n")?;
    Ok(out)
}

#[tactic(auto, unfolding(printed_text::specs::Lines::field_line))]
fn put_status(out: &mut Bytes, status: u16) -> Result<(), NoMemory>
    ensures { OnOk result (out.new.items ≡ out.old.items ++ status_line status) }
{
    out.extend(b"status ")?;
    put_hex_16(out, status)?;
    out.extend(b"\n")
}

#[tactic(auto, unfolding(crate::specs::ProtocolText::state_lines))]
fn put_state(out: &mut Bytes, status: u16, description: &Text) -> Result<(), NoMemory>
    ensures { OnOk result (out.new.items ≡ out.old.items ++ state_lines status description.now) }
{
    put_status(out, status)?;
    put_field(out, b"description", description.as_slice())
}

#[tactic(auto, unfolding(crate::specs::ProtocolText::timer_lines))]
fn put_timers(
    alloc: Global,
    out: &mut Bytes,
    exception: u16,
    estimated: u16,
) -> Result<(), NoMemory>
    ensures { OnOk result (out.new.items ≡ out.old.items ++ timer_lines exception estimated) }
{
    put_number_field(alloc, out, b"exception", u64::from(exception))?;
    put_number_field(alloc, out, b"estimated", u64::from(estimated))
}

fn put_each_hardware(alloc: Global, out: &mut Bytes, list: &[Hardware]) -> Result<(), NoMemory>
    ensures { OnOk result
        (out.new.items ≡ out.old.items ++ flat_map hardware_lines (map hardware_view list.now)) }
{
    for hardware in list {
        put_hardware(alloc, out, hardware)?;
    }
    Ok(())
}

#[tactic(auto, unfolding(crate::specs::ProtocolText::hardware_lines))]
fn put_hardware(alloc: Global, out: &mut Bytes, hardware: &Hardware) -> Result<(), NoMemory>
    ensures { OnOk result
        (out.new.items ≡ out.old.items ++ hardware_lines (hardware_view hardware.now)) }
{
    let parts = hardware.parts.as_slice();
    put_field(out, b"name", hardware.name.as_slice())?;
    put_field(out, b"serial", hardware.serial.as_slice())?;
    put_number_field(alloc, out, b"parts", parts.len() as u64)?;
    put_each_part(out, parts)
}

fn put_each_part(out: &mut Bytes, parts: &[Part]) -> Result<(), NoMemory>
    ensures { OnOk result (out.new.items ≡ out.old.items ++ flat_map installed_lines parts.now) }
{
    for part in parts {
        put_part(out, part)?;
    }
    Ok(())
}

#[tactic(auto, unfolding(crate::specs::ProtocolText::installed_lines))]
fn put_part(out: &mut Bytes, part: &Part) -> Result<(), NoMemory>
    ensures { OnOk result (out.new.items ≡ out.old.items ++ installed_lines part.now) }
{
    put_field(out, b"number", part.number.as_slice())?;
    put_field(out, b"amendment", part.amendment.as_slice())?;
    put_field(out, b"designation", part.designation.as_slice())
}

fn put_each_wanted(out: &mut Bytes, loads: &[Wanted]) -> Result<(), NoMemory>
    ensures { OnOk result (out.new.items ≡ out.old.items ++ flat_map wanted_lines loads.now) }
{
    for load in loads {
        put_wanted(out, load)?;
    }
    Ok(())
}

#[tactic(auto, unfolding(crate::specs::ProtocolText::wanted_lines))]
fn put_wanted(out: &mut Bytes, load: &Wanted) -> Result<(), NoMemory>
    ensures { OnOk result (out.new.items ≡ out.old.items ++ wanted_lines load.now) }
{
    put_field(out, b"header", load.header.as_slice())?;
    put_field(out, b"part", load.part.as_slice())
}

#[tactic(auto, unfolding(crate::specs::ProtocolText::progress_lines))]
fn put_progress(alloc: Global, out: &mut Bytes, file: &Lus) -> Result<(), NoMemory>
    ensures { OnOk result (out.new.items ≡ out.old.items ++ progress_lines (lus_view file.now)) }
{
    let loads = file.loads.as_slice();
    put_number_field(alloc, out, b"ratio", u64::from(file.ratio))?;
    put_number_field(alloc, out, b"loads", loads.len() as u64)?;
    put_each_load_status(alloc, out, loads)
}

fn put_each_load_status(
    alloc: Global,
    out: &mut Bytes,
    loads: &[LoadStatus],
) -> Result<(), NoMemory>
    ensures { OnOk result (out.new.items ≡ out.old.items ++ flat_map load_status_lines loads.now) }
{
    for load in loads {
        put_load_status(alloc, out, load)?;
    }
    Ok(())
}

#[tactic(auto, unfolding(crate::specs::ProtocolText::load_status_lines))]
fn put_load_status(alloc: Global, out: &mut Bytes, load: &LoadStatus) -> Result<(), NoMemory>
    ensures { OnOk result (out.new.items ≡ out.old.items ++ load_status_lines load.now) }
{
    put_field(out, b"header", load.header.as_slice())?;
    put_field(out, b"part", load.part.as_slice())?;
    put_number_field(alloc, out, b"ratio", u64::from(load.ratio))?;
    put_state(out, load.status, &load.description)
}
