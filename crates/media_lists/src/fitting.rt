//! Whether a list meets the limits of its format.
ghost use Rattle.std.specs.Prelude.{◌≡◌, ◌↔◌, ◌<◌, ◌≤◌, ◌%◌, [], length, map, false, IsTrue};
ghost use Rattle.std.specs.List.{AllByRecursion};
ghost use Rattle.field_grammar.specs.Grammar.{IsBytes};
ghost use Rattle.media_lists.specs.Paths.{IsPath};
ghost use Rattle.media_lists.specs.ListFields.{IsMember as is_such_member, AreNew, AreEntries};
ghost use Rattle.header_sections.specs.SectionFields.{entry_size, HaveDistances};
ghost use Rattle.media_lists.specs.Files.{files_list_view, file_name, file_body_fields};
ghost use Rattle.media_lists.specs.Files.{IsListedFile as is_such_file, IsFilesList};
ghost use Rattle.media_lists.specs.Loads.{load_entry_view, loads_list_view, load_name};
ghost use Rattle.media_lists.specs.Loads.{load_body_fields, IsListedLoad as is_such_load};
ghost use Rattle.media_lists.specs.Loads.{IsLoadsList};

use crate::lists::{FilesList, ListedFile, LoadEntry, LoadsList};
use crate::measuring::{list_size, load_body_size};
use crate::names::{Named, Order, is_new, is_new_load};
use crate::paths::path_fault;
use crate::reading::{LONGEST_LIST, MOST_ENTRIES};
use header_sections::entries_size;
use load_base::Text;

/// The most bytes of user data and of an entry that isn't the last: 65,535 words.
const MOST_BYTES: usize = 131_070;

/// Whether a member of a set of `members` has this number.
pub fn is_member(members: u8, member: u16) -> bool
    ensures { IsTrue result ↔ is_such_member members member }
{
    1 <= member && member <= u16::from(members)
}

fn is_path(bytes: &[u8]) -> bool
    ensures { IsTrue result ↔ IsPath bytes.now }
{
    match path_fault(bytes) {
        None => true,
        Some(_) => false,
    }
}

/// Whether a list can have this user data.
pub fn is_user_data(user: &[u8]) -> bool
    ensures fits { IsTrue result ↔ ((length user.now % 2 ≡ 0) × (length user.now ≤ 131070)) }
    ensures bytes { IsBytes user.now }
{
    user.len() % 2 == 0 && user.len() <= MOST_BYTES
}

// ---- files

fn is_file(file: &ListedFile, members: u8) -> bool
    ensures { IsTrue result ↔ is_such_file members file.now }
{
    // The name and the sum are such by their types.
    let _name = file.name.as_slice();
    let _sum = file.crc16;
    is_member(members, file.member) && is_path(file.path.as_slice())
}

fn are_files(files: &[ListedFile], members: u8) -> bool
    ensures { IsTrue result ↔ AllByRecursion (is_such_file members) files.now }
{
    for file in files {
        if !is_file(file, members) {
            return false;
        }
    }
    true
}

/// Whether no entry has the name of one before it.
pub fn are_new<E: Named>(entries: &[E]) -> bool
    requires { length entries.now ≤ 1024 }
    ensures { IsTrue result ↔ AreNew E.name_of [] entries.now }
{
    let mut order = Order::new();
    for (index, entry) in entries.iter().enumerate() {
        if !is_new(&mut order, &entries[..index], entry.name()) {
            return false;
        }
    }
    true
}

fn files_meet_limits(files: &[ListedFile], members: u8) -> bool
    ensures { IsTrue result ↔ AreEntries (is_such_file members) file_name file_body_fields
        files.now }
{
    if files.len() > MOST_ENTRIES {
        return false;
    }
    are_files(files, members) && are_new(files)
}

/// The list of files meets the limits.
pub(crate) fn files_fit(list: &FilesList) -> bool
    ensures { IsTrue result ↔ IsFilesList (files_list_view list.now) }
{
    // The part number is such by its type.
    let _set = list.set.as_slice();
    let files = list.files.as_slice();
    if !is_member(list.members, u16::from(list.member)) {
        return false;
    }
    if !is_user_data(list.user.as_slice()) {
        return false;
    }
    if !files_meet_limits(files, list.members) {
        return false;
    }
    list_size(entries_size(files), list.user.len()) <= LONGEST_LIST as u64
}

// ---- loads

/// The entry meets the limits, as the last or another of its list.
fn is_load(load: &LoadEntry, members: u8, last: bool) -> bool
    ensures { IsTrue result ↔ (is_such_load members (load_entry_view load.now)
        × (last ≡ false → entry_size load_body_fields (load_entry_view load.now) ≤ 131070)) }
{
    if load.hardware.len() > MOST_ENTRIES {
        return false;
    }
    let size = 2 + load_body_size(load);
    is_member(members, load.member) && (last || size <= MOST_BYTES as u64)
}

fn are_loads(loads: &[LoadEntry], members: u8) -> bool
    ensures { IsTrue result ↔ (AllByRecursion (is_such_load members) (map load_entry_view loads.now)
        × HaveDistances load_body_fields (map load_entry_view loads.now)) }
{
    for (index, load) in loads.iter().enumerate() {
        if !is_load(load, members, index + 1 == loads.len()) {
            return false;
        }
    }
    true
}

fn are_new_loads(loads: &[LoadEntry]) -> bool
    requires { length loads.now ≤ 1024 }
    ensures { IsTrue result ↔ AreNew load_name [] (map load_entry_view loads.now) }
{
    let mut order = Order::new();
    for (index, load) in loads.iter().enumerate() {
        if !is_new_load(&mut order, &loads[..index], load.header_name.as_slice()) {
            return false;
        }
    }
    true
}

fn loads_meet_limits(loads: &[LoadEntry], members: u8) -> bool
    ensures { IsTrue result ↔ AreEntries (is_such_load members) load_name load_body_fields
        (map load_entry_view loads.now) }
{
    if loads.len() > MOST_ENTRIES {
        return false;
    }
    are_loads(loads, members) && are_new_loads(loads)
}

/// The list of loads meets the limits.
pub(crate) fn loads_fit(list: &LoadsList) -> bool
    ensures { IsTrue result ↔ IsLoadsList (loads_list_view list.now) }
{
    // The part number is such by its type.
    let _set = list.set.as_slice();
    let loads = list.loads.as_slice();
    if !is_member(list.members, u16::from(list.member)) {
        return false;
    }
    if !is_user_data(list.user.as_slice()) {
        return false;
    }
    if !loads_meet_limits(loads, list.members) {
        return false;
    }
    list_size(entries_size(loads), list.user.len()) <= LONGEST_LIST as u64
}
