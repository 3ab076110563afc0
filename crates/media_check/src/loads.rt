//! What is found of the loads of a set.
ghost use Rattle.std.specs.Prelude.{◌≡◌, ◌∷◌, ◌++◌, ◌≤◌, [], ℕ, List as Items, map, length};
ghost use Rattle.std.specs.Prelude.{OnOk};
ghost use Rattle.std.specs.List.{flat_map};
ghost use Rattle.crc_fields.specs.CheckSums.{crc32_of};
ghost use Rattle.field_grammar.specs.Answers.{answer};
ghost use Rattle.load_header.specs.Header.{header, header_view};
ghost use Rattle.load_header.specs.HeaderFaultText.{header_fault_text};
ghost use Rattle.media_lists.specs.Loads.{load_entry_view};
ghost use Rattle.media_check.specs.Findings.{load_findings, read_findings, header_findings};
ghost use Rattle.media_check.specs.Findings.{file_findings, files_of, are_there as all_there};
ghost use Rattle.media_check.specs.Findings.{has_other_crc as other_crc, load_crc_of, file_sums};
ghost use Rattle.media_check.specs.Findings.{detailed};
ghost use Rattle.media_check.specs.Kept.{contents};
ghost use Rattle.media_check.specs.Sets.{set_view, bytes_of};

use crate::finding::{Finding, put, put_detailed, put_where};
use crate::set::MediaSet;
use crate::sums::summed_file;
use load_base::{List, Name, NoMemory};
use load_header::{FileEntry, HeaderFault, LoadCrc, LoadHeader, header_laws};
use media_lists::LoadEntry;
use printed_text::Printed;
use std::alloc::Global;

/// The kinds of findings of loads (docs/FORMATS.md).
const NOT_LISTED: u8 = 5;

const HEADER_REFUSED: u8 = 7;

const OTHER_PART: u8 = 9;

const OTHER_HARDWARE: u8 = 10;

const LOAD_FILE_CHANGED: u8 = 11;

const OTHER_LOAD_CRC: u8 = 12;

/// Adds what is found of each load. `sums` are those of the set's files.
pub(crate) fn put_loads(
    alloc: Global,
    out: &mut List<Finding>,
    set: &MediaSet,
    sums: &[u16],
    loads: &[LoadEntry],
) -> Result<(), NoMemory>
    requires { sums.now ≡ file_sums (set_view set.now) }
    ensures { OnOk result (out.new.items ≡ out.old.items
        ++ flat_map (load_findings (set_view set.now)) (map load_entry_view loads.now)) }
{
    for load in loads {
        put_load(alloc, out, set, sums, load)?;
    }
    Ok(())
}

#[tactic(auto, unfolding(crate::specs::Findings::load_findings))]
fn put_load(
    alloc: Global,
    out: &mut List<Finding>,
    set: &MediaSet,
    sums: &[u16],
    load: &LoadEntry,
) -> Result<(), NoMemory>
    requires { sums.now ≡ file_sums (set_view set.now) }
    ensures { OnOk result (out.new.items ≡ out.old.items
        ++ load_findings (set_view set.now) (load_entry_view load.now)) }
{
    match set.files.get(&load.header_name) {
        None => put(alloc, out, NOT_LISTED, 0, &load.header_name),
        Some(file) => match &file.bytes {
            Some(bytes) => put_read(alloc, out, set, sums, load, file.member, bytes.as_slice()),
            None => Ok(()),
        },
    }
}

/// What is found of a load whose header is in this member and has these bytes.
fn put_read(
    alloc: Global,
    out: &mut List<Finding>,
    set: &MediaSet,
    sums: &[u16],
    load: &LoadEntry,
    member: u16,
    bytes: &[u8],
) -> Result<(), NoMemory>
    requires { sums.now ≡ file_sums (set_view set.now) }
    ensures { OnOk result (out.new.items ≡ out.old.items
        ++ read_findings (set_view set.now) (load_entry_view load.now) member bytes.now
        (answer header bytes.now)) }
{
    // For the proof: does nothing.
    header_laws();
    match LoadHeader::decode(alloc, bytes) {
        Ok(header) => put_header(alloc, out, set, sums, load, member, bytes, &header),
        Err(HeaderFault::Memory) => Err(NoMemory),
        Err(fault) => put_refused(alloc, out, member, &load.header_name, fault),
    }
}

/// That a header has this fault.
fn put_refused(
    alloc: Global,
    out: &mut List<Finding>,
    member: u16,
    name: &Name,
    fault: HeaderFault,
) -> Result<(), NoMemory>
    ensures { OnOk result (out.new.items ≡ out.old.items
        ++ detailed 7 member name.now (header_fault_text fault) ∷ []) }
{
    let detail = fault.text(alloc)?;
    put_detailed(alloc, out, HEADER_REFUSED, member, name, detail)
}

#[tactic(auto, unfolding(crate::specs::Findings::header_findings))]
fn put_header(
    alloc: Global,
    out: &mut List<Finding>,
    set: &MediaSet,
    sums: &[u16],
    load: &LoadEntry,
    member: u16,
    bytes: &[u8],
    header: &LoadHeader,
) -> Result<(), NoMemory>
    requires sums { sums.now ≡ file_sums (set_view set.now) }
    requires long_enough { 4 ≤ length bytes.now }
    ensures { OnOk result (out.new.items ≡ out.old.items
        ++ header_findings (set_view set.now) (load_entry_view load.now) member bytes.now
        (header_view header.now)) }
{
    let name = &load.header_name;
    put_where(
        alloc,
        out,
        header.part != load.part,
        OTHER_PART,
        member,
        name,
    )?;
    let is_for_other = header.hardware != load.hardware;
    put_where(alloc, out, is_for_other, OTHER_HARDWARE, member, name)?;
    put_files(alloc, out, set, sums, header.data_files.as_slice())?;
    put_files(alloc, out, set, sums, header.support_files.as_slice())?;
    let is_changed = has_other_crc(set, bytes, header);
    put_where(alloc, out, is_changed, OTHER_LOAD_CRC, member, name)
}

/// What is found of these files of a load.
fn put_files(
    alloc: Global,
    out: &mut List<Finding>,
    set: &MediaSet,
    sums: &[u16],
    files: &[FileEntry],
) -> Result<(), NoMemory>
    requires { sums.now ≡ file_sums (set_view set.now) }
    ensures { OnOk result (out.new.items ≡ out.old.items
        ++ flat_map (file_findings (set_view set.now)) files.now) }
{
    for file in files {
        put_file(alloc, out, set, sums, file)?;
    }
    Ok(())
}

#[tactic(auto, unfolding(crate::specs::Findings::file_findings, crate::specs::Findings::is_file))]
fn put_file(
    alloc: Global,
    out: &mut List<Finding>,
    set: &MediaSet,
    sums: &[u16],
    file: &FileEntry,
) -> Result<(), NoMemory>
    requires { sums.now ≡ file_sums (set_view set.now) }
    ensures { OnOk result (out.new.items ≡ out.old.items
        ++ file_findings (set_view set.now) file.now) }
{
    match summed_file(set, sums, &file.name) {
        None => put(alloc, out, NOT_LISTED, 0, &file.name),
        Some((kept, sum)) => match &kept.bytes {
            Some(bytes) => {
                let is_changed = bytes.len() != file.length as usize || sum != file.crc16;
                put_where(
                    alloc,
                    out,
                    is_changed,
                    LOAD_FILE_CHANGED,
                    kept.member,
                    &file.name,
                )
            }
            None => Ok(()),
        },
    }
}

/// Whether all files of the load are there, and their load CRC isn't that of the header.
#[tactic(auto, unfolding(crate::specs::Findings::has_other_crc))]
fn has_other_crc(set: &MediaSet, bytes: &[u8], header: &LoadHeader) -> bool
    requires { 4 ≤ length bytes.now }
    ensures { result ≡ other_crc (set_view set.now) bytes.now (header_view header.now) }
{
    files_are_there(set, header) && load_crc(set, bytes, header) != header.load_crc
}

#[tactic(auto, using(crate::proofs::LoadFindings::there_both))]
fn files_are_there(set: &MediaSet, header: &LoadHeader) -> bool
    ensures { result ≡ all_there (set_view set.now) (files_of (header_view header.now)) }
{
    are_there(set, header.data_files.as_slice()) && are_there(set, header.support_files.as_slice())
}

#[tactic(auto, unfolding(crate::specs::Findings::are_there))]
fn are_there(set: &MediaSet, files: &[FileEntry]) -> bool
    ensures { result ≡ all_there (set_view set.now) files.now }
{
    files.iter().all(|file| set.file(&file.name).is_some())
}

#[tactic(auto, unfolding(crate::specs::Findings::load_crc_of))]
fn load_crc(set: &MediaSet, bytes: &[u8], header: &LoadHeader) -> u32
    requires { 4 ≤ length bytes.now }
    ensures { result ≡ load_crc_of (set_view set.now) bytes.now (files_of
        (header_view header.now)) }
{
    let mut sum = LoadCrc::new(bytes);
    sum_files(set, &mut sum, header.data_files.as_slice());
    sum_files(set, &mut sum, header.support_files.as_slice());
    sum.value()
}

fn sum_files(set: &MediaSet, sum: &mut LoadCrc, files: &[FileEntry])
    ensures { (given : Items ℕ) → sum.old ≡ crc32_of given
        → sum.new ≡ crc32_of (given
        ++ flat_map (λ file. contents (bytes_of (set_view set.now) file.name)) files.now) }
{
    for file in files {
        if let Some(bytes) = set.file(&file.name) {
            sum.file(bytes.as_slice());
        }
    }
}
