//! Whether the list of a member is that of member 1.
ghost use Rattle.std.specs.Prelude.{◌≡◌, map};
ghost use Rattle.std.specs.Cmp.Lexicographic.{pointwise};
ghost use Rattle.batch_lists.specs.Batches.{batches_list_view};
ghost use Rattle.media_lists.specs.Files.{files_list_view};
ghost use Rattle.media_lists.specs.Loads.{loads_list_view, load_entry_view};
ghost use Rattle.media_check.specs.Findings.{same_but_member, same_load as same_load_of};
ghost use Rattle.media_check.specs.Findings.{same_file as same_file_of};
ghost use Rattle.media_check.specs.Findings.{same_batch as same_batch_of};

use batch_lists::{BatchEntry, BatchesList};
use media_lists::{FilesList, ListedFile, LoadEntry, LoadsList};

/// Whether the lists differ in nothing but the number of their member.
#[tactic(auto, unfolding(crate::specs::Findings::same_but_member))]
pub(crate) fn same_loads_list(one: &LoadsList, other: &LoadsList) -> bool
    ensures { result ≡ same_but_member same_load_of (loads_list_view one.now)
        (loads_list_view other.now) }
{
    one.set == other.set
        && one.members == other.members
        && same_loads(one.loads.as_slice(), other.loads.as_slice())
        && one.user == other.user
}

/// Whether the lists differ in nothing but the number of their member.
#[tactic(auto, unfolding(crate::specs::Findings::same_but_member))]
pub(crate) fn same_files_list(one: &FilesList, other: &FilesList) -> bool
    ensures { result ≡ same_but_member same_file_of (files_list_view one.now)
        (files_list_view other.now) }
{
    one.set == other.set
        && one.members == other.members
        && same_files(one.files.as_slice(), other.files.as_slice())
        && one.user == other.user
}

/// Whether the lists differ in nothing but the number of their member.
#[tactic(auto, unfolding(crate::specs::Findings::same_but_member))]
pub(crate) fn same_batches_list(one: &BatchesList, other: &BatchesList) -> bool
    ensures { result ≡ same_but_member same_batch_of (batches_list_view one.now)
        (batches_list_view other.now) }
{
    one.set == other.set
        && one.members == other.members
        && same_batches(one.batches.as_slice(), other.batches.as_slice())
        && one.user == other.user
}

fn same_loads(one: &[LoadEntry], other: &[LoadEntry]) -> bool
    ensures { result ≡ pointwise same_load_of (map load_entry_view one.now)
        (map load_entry_view other.now) }
{
    if one.len() != other.len() {
        return false;
    }
    for (index, load) in one.iter().enumerate() {
        if !same_load(load, &other[index]) {
            return false;
        }
    }
    true
}

fn same_files(one: &[ListedFile], other: &[ListedFile]) -> bool
    ensures { result ≡ pointwise same_file_of one.now other.now }
{
    if one.len() != other.len() {
        return false;
    }
    for (index, file) in one.iter().enumerate() {
        if !same_file(file, &other[index]) {
            return false;
        }
    }
    true
}

fn same_batches(one: &[BatchEntry], other: &[BatchEntry]) -> bool
    ensures { result ≡ pointwise same_batch_of one.now other.now }
{
    if one.len() != other.len() {
        return false;
    }
    for (index, batch) in one.iter().enumerate() {
        if !same_batch(batch, &other[index]) {
            return false;
        }
    }
    true
}

fn same_load(one: &LoadEntry, other: &LoadEntry) -> bool
    ensures { result ≡ same_load_of (load_entry_view one.now) (load_entry_view other.now) }
{
    one.part == other.part
        && one.header_name == other.header_name
        && one.member == other.member
        && one.hardware == other.hardware
}

fn same_file(one: &ListedFile, other: &ListedFile) -> bool
    ensures { result ≡ same_file_of one.now other.now }
{
    one.name == other.name
        && one.path == other.path
        && one.member == other.member
        && one.crc16 == other.crc16
}

fn same_batch(one: &BatchEntry, other: &BatchEntry) -> bool
    ensures { result ≡ same_batch_of one.now other.now }
{
    one.part == other.part && one.file == other.file && one.member == other.member
}
