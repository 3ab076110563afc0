//! How many bytes a header takes, and whether it meets the limits.
ghost use Rattle.std.specs.Prelude.{◌≡◌, ◌↔◌, ◌+◌, ◌*◌, ◌<◌, ◌≤◌, length, map, true, IsTrue};
ghost use Rattle.std.specs.List.{list_all, AllByRecursion};
ghost use Rattle.load_header.specs.Header.{hardware_at_view, header_view};
ghost use Rattle.field_grammar.specs.Spelling.{spelled_length};
ghost use Rattle.load_header.specs.HeaderFields.{hardware_at_fields, positions_fields};
ghost use Rattle.load_header.specs.HeaderFields.{header_size as size_of_header, IsHardwareAt};
ghost use Rattle.load_header.specs.HeaderFields.{IsHeaderFile, IsHeader};
ghost use Rattle.load_header.specs.Encoding.{few_positions, few_members as few_members_of};
ghost use Rattle.load_header.specs.Encoding.{short_enough, AreSizes, AreSmall, HasFiles, HasParts};
ghost use Rattle.load_header.specs.Encoding.{IsKind};

use crate::header::{FileEntry, HardwareAt, LoadHeader};
use crate::reading::{LONGEST_FILE, LONGEST_HEADER, MOST_FILES};
use header_sections::{entries_size, part_size, text_size, texts_size, user_size};

/// The most members of a list whose count has two bytes, and one.
const COUNTS: usize = 65_536;

/// How many bytes each section takes.
#[derive(Clone, Copy)]
pub(crate) struct Sizes {
    pub(crate) part: u64,
    pub(crate) type_name: u64,
    pub(crate) hardware: u64,
    pub(crate) positions: u64,
    pub(crate) data_files: u64,
    pub(crate) support_files: u64,
    pub(crate) user: u64,
}

/// The header meets the limits.
#[tactic(auto, using(crate::proofs::Limits::header_members, crate::proofs::Limits::header_files))]
pub(crate) fn fits(header: &LoadHeader) -> bool
    ensures { IsTrue result ↔ IsHeader (header_view header.now) }
{
    // The flags and the load CRC are such by their types.
    let _flags = header.flags;
    let _load_crc = header.load_crc;
    if !few_members(header) {
        return false;
    }
    if !few_files(header) {
        return false;
    }
    is_short(header)
}

#[tactic(auto, unfolding(crate::specs::Encoding::few_members))]
fn few_members(header: &LoadHeader) -> bool
    ensures { result ≡ few_members_of (header_view header.now) }
{
    if header.hardware.len() >= COUNTS {
        return false;
    }
    if header.positions.len() >= COUNTS {
        return false;
    }
    few_positions_everywhere(header.positions.as_slice())
}

fn few_positions_everywhere(list: &[HardwareAt]) -> bool
    ensures { result ≡ list_all few_positions (map hardware_at_view list.now) }
{
    few_positions_each(list)
}

fn few_positions_each(list: &[HardwareAt]) -> bool
    ensures { result ≡ list_all (λ h. few_positions (hardware_at_view h)) list.now }
{
    list.iter().all(|at| at.positions.len() < COUNTS)
}

fn few_files(header: &LoadHeader) -> bool
    ensures { IsTrue result ↔ HasFiles (header_view header.now) }
{
    let data_files = header.data_files.as_slice();
    let support_files = header.support_files.as_slice();
    if data_files.len() > MOST_FILES {
        return false;
    }
    if support_files.len() > MOST_FILES - data_files.len() {
        return false;
    }
    if !are_files(data_files) {
        return false;
    }
    are_files(support_files)
}

fn are_files(files: &[FileEntry]) -> bool
    ensures { IsTrue result ↔ AllByRecursion IsHeaderFile files.now }
{
    for file in files {
        if !is_file(file) {
            return false;
        }
    }
    true
}

fn is_file(file: &FileEntry) -> bool
    ensures { IsTrue result ↔ IsHeaderFile file.now }
{
    // The name, the part and the CRC are such by their types.
    let _name = file.name.as_slice();
    let _part = file.part.as_slice();
    let _crc16 = file.crc16;
    u64::from(file.length) <= LONGEST_FILE
}

#[tactic(auto, using(crate::proofs::Limits::long_user), unfolding(crate::specs::Encoding::short_enough))]
fn is_short(header: &LoadHeader) -> bool
    requires members { few_members_of (header_view header.now) ≡ true }
    requires files { HasFiles (header_view header.now) }
    ensures short { result ≡ short_enough (header_view header.now) }
    ensures parts { IsTrue result → HasParts (header_view header.now) }
{
    if header.user.len() % 2 != 0 {
        return false;
    }
    if header.user.len() > LONGEST_HEADER {
        return false;
    }
    size_in_all(header) <= LONGEST_HEADER as u64
}

fn size_in_all(header: &LoadHeader) -> u64
    requires members { few_members_of (header_view header.now) ≡ true }
    requires files { HasFiles (header_view header.now) }
    requires user { length header.now.user.items ≤ 65536 }
    ensures size { result ≡ size_of_header (header_view header.now) }
    ensures parts { HasParts (header_view header.now) }
{
    header_size(sizes_of(header))
}

/// The bytes of the whole header.
#[tactic(auto, unfolding(crate::specs::HeaderFields::header_size))]
pub(crate) fn header_size(sizes: Sizes) -> u64
    requires { AreSmall sizes }
    ensures { result ≡ 40 + sizes.part + sizes.type_name + sizes.hardware + sizes.positions +
        sizes.data_files + sizes.support_files + sizes.user + 8 }
{
    40 + sizes.part
        + sizes.type_name
        + sizes.hardware
        + sizes.positions
        + sizes.data_files
        + sizes.support_files
        + sizes.user
        + 8
}

pub(crate) fn sizes_of(header: &LoadHeader) -> Sizes
    requires members { few_members_of (header_view header.now) ≡ true }
    requires files { HasFiles (header_view header.now) }
    requires user { length header.now.user.items ≤ 65536 }
    ensures sizes { AreSizes (header_view header.now) result }
    ensures small { AreSmall result }
    ensures parts { HasParts (header_view header.now) }
{
    // The number of the type is such by its type.
    let _type_id = header.type_id;
    Sizes {
        part: part_size(&header.part),
        type_name: text_size(&header.type_name) + 2,
        hardware: texts_size(header.hardware.as_slice()),
        positions: positions_size(header.positions.as_slice()),
        data_files: entries_size(header.data_files.as_slice()),
        support_files: entries_size(header.support_files.as_slice()),
        user: user_size(header.user.as_slice()),
    }
}

#[tactic(auto, using(crate::proofs::Limits::size_kind, crate::proofs::Limits::positions_few))]
fn kind_size(at: &HardwareAt) -> u64
    requires { few_positions (hardware_at_view at.now) ≡ true }
    ensures size { result ≡ spelled_length (hardware_at_fields (hardware_at_view at.now)) }
    ensures small { result ≤ 17000000 }
    ensures kind { IsKind at.now }
{
    text_size(&at.hardware) + texts_size(at.positions.as_slice())
}

#[tactic(auto, using(crate::proofs::Limits::all_kinds))]
fn positions_size(list: &[HardwareAt]) -> u64
    requires count { length list.now < 65536 }
    requires each { list_all few_positions (map hardware_at_view list.now) ≡ true }
    ensures size { result ≡ spelled_length (positions_fields (map hardware_at_view list.now)) }
    ensures small { result ≤ 2 + 17000000 * length list.now }
    ensures kinds { AllByRecursion IsHardwareAt (map hardware_at_view list.now) }
{
    let mut size = 2;
    for at in list {
        size += kind_size(at);
    }
    size
}
