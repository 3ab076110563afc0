//! The list of an information operation.
ghost use Rattle.std.specs.Prelude.{◌≡◌, ◌≤◌, [], ◌∷◌, length, map, IfOk};
ghost use Rattle.std.specs.List.{All};
ghost use Rattle.disk_layout.specs.Holds.{Outline};
ghost use Rattle.disk_layout.specs.Manifest.{entry_view};
ghost use Rattle.load_base.specs.Host.{longest_file};
ghost use Rattle.load_protocol_files.specs.Lcl.{InstalledFits, lcl_fields};
ghost use Rattle.session_rules.specs.Reports.{file_of, first_name, lcl_file as lcl_bytes};
ghost use Rattle.session_rules.specs.Reports.{listed_part};

use disk_layout::{Identity, ManifestFile, ManifestLoad};
use load_base::{Bytes, List, NoMemory, Text};
use load_protocol_files::{Hardware, Lcl, Part};
use std::alloc::Global;

/// The LCL of a target: its hardware, and each load by its part number and the name of its header,
/// which is its first file. Of the configuration only identity and loads matter.
#[tactic(auto, unfolding(session_rules::specs::Reports::lcl_file))]
pub fn lcl_file(
    alloc: Global,
    identity: &Identity,
    loads: &[ManifestLoad],
) -> Result<Bytes, NoMemory>
    requires { length loads.now ≤ 32 }
    ensures is { (o : Outline) → o.identity ≡ identity.now → o.loads ≡ map entry_view loads.now
        → IfOk result (λ bytes. bytes.items ≡ lcl_bytes o) }
    ensures short { IfOk result (λ bytes. length bytes.items ≤ longest_file) }
{
    let name = Text::of_ident(alloc, &identity.hw)?;
    let serial = Text::of_ident(alloc, &identity.serial)?;
    let parts = listed_parts(alloc, loads)?;
    one_hardware(alloc, name, serial, parts)
}

/// The loads as they are listed.
fn listed_parts(alloc: Global, loads: &[ManifestLoad]) -> Result<List<Part>, NoMemory>
    ensures is { IfOk result (λ parts.
        parts.items ≡ map listed_part (map entry_view loads.now)) }
    ensures fit { IfOk result (λ parts. All (λ part. InstalledFits part) parts.items) }
{
    let mut parts = List::new(alloc);
    for load in loads {
        parts.push(part_of(alloc, load)?)?;
    }
    Ok(parts)
}

fn part_of(alloc: Global, load: &ManifestLoad) -> Result<Part, NoMemory>
    ensures is { IfOk result (λ part. part ≡ listed_part (entry_view load.now)) }
    ensures fits { IfOk result (λ part. InstalledFits part) }
{
    let number = Text::of_part(alloc, &load.part)?;
    let amendment = Text::empty(alloc);
    let designation = header_name(alloc, load.files.as_slice())?;
    // For the proof: each is a text.
    let _number = number.as_slice();
    let _amendment = amendment.as_slice();
    let _designation = designation.as_slice();
    Ok(Part {
        number,
        amendment,
        designation,
    })
}

/// The name of the first of these files.
fn header_name(alloc: Global, files: &[ManifestFile]) -> Result<Text, NoMemory>
    ensures { IfOk result (λ name. name ≡ first_name files.now) }
{
    match files.split_first() {
        Some((file, _)) => Text::of_name(alloc, &file.name),
        None => Ok(Text::empty(alloc)),
    }
}

/// The LCL of one hardware.
fn one_hardware(
    alloc: Global,
    name: Text,
    serial: Text,
    parts: List<Part>,
) -> Result<Bytes, NoMemory>
    requires few { length parts.items ≤ 32 }
    requires fit { All (λ part. InstalledFits part) parts.items }
    ensures is { IfOk result (λ bytes. bytes.items ≡ file_of (lcl_fields (record {
      hardware = record { name = name; serial = serial; parts = parts.items } ∷ [];
    }))) }
    ensures short { IfOk result (λ bytes. length bytes.items ≤ longest_file) }
{
    // For the proof: both are texts.
    let _name = name.as_slice();
    let _serial = serial.as_slice();
    let mut hardware = List::new(alloc);
    hardware.push(Hardware {
        name,
        serial,
        parts,
    })?;
    let list = Lcl { hardware };
    list.encode(alloc)
}
