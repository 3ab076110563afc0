//! What the tests say of a file that arrived.
ghost use Rattle.std.specs.Prelude.{◌≡◌, ◌+◌, ◌*◌, ◌^◌, ◌≤◌, ◌<◌, length, None, Some, bytes_eq};
ghost use Rattle.std.specs.Prelude.{slice_get};
ghost use Rattle.std.specs.List.{list_any};
ghost use Rattle.accept_rules.specs.Interlocks.{FollowsAccepts};
ghost use Rattle.load_header.specs.Header.{hardware_at_view, header_view};
ghost use Rattle.load_header.specs.HeaderFields.{IsHeader};
ghost use Rattle.accept_rules.specs.Permissions.{Accepts};
ghost use Rattle.session_rules.specs.Uploads.{file_reason as file_fault, files_of};
ghost use Rattle.session_rules.specs.Uploads.{is_at as is_at_of, is_for as is_for_of};
ghost use Rattle.session_rules.specs.Uploads.{load_reason as load_fault};
ghost use Rattle.load_intake.specs.Judging.{PassesStoreTests, refused_for};
ghost use Rattle.load_intake.specs.Needs.{entries_need as need_of_entries};
ghost use Rattle.load_intake.specs.Needs.{load_need as need_of_load};
ghost use Rattle.load_intake.specs.Places.{next_seen};

use crate::keeping::MOST_LOADS;
use crate::next::Next;
use crate::sums::FileSums;
use accept_rules::{Interlock, KeptLoad, Rule};
use bank_store::Identity;
use load_base::{Name, Text};
use load_header::{FileEntry, HardwareAt, LoadHeader};
use load_protocol_files::Wanted;
use session_rules::Reason;

/// Why a header that was read is refused, if it is, beside the loads that are kept after it.
/// `loads` is how many loads are known of, and `need` how many bytes of a bank they need; the kept
/// ones are among them at the last header.
pub(crate) fn header_reason<R: Rule>(
    interlock: &Interlock<R>,
    identity: &Identity,
    wanted: &Wanted,
    header: &LoadHeader,
    kept: &[KeptLoad],
    loads: u16,
    need: u64,
) -> Option<Reason>
    ensures is { (accepts : Accepts) → FollowsAccepts R.may_say interlock.now accepts → result
        ≡ refused_for accepts identity.now wanted.now (header_view header.now) kept.now loads need }
    ensures passed { result ≡ None
        → PassesStoreTests identity.now wanted.now (header_view header.now) loads need }
{
    if header.part.as_slice() != wanted.part.as_slice() {
        return Some(Reason::PartDiffers);
    }
    if !is_for(identity, header) {
        return Some(Reason::NotThisHardware);
    }
    if !interlock.admits(header, kept) {
        return Some(Reason::RuleRefused);
    }
    if loads > MOST_LOADS as u16 {
        return Some(Reason::TooManyLoads { loads });
    }
    if need > u64::from(identity.bank) {
        return Some(Reason::BankFull {
            need,
            have: identity.bank,
        });
    }
    None
}

/// Whether the header is for the target's hardware, in any position or in the target's.
fn is_for(identity: &Identity, header: &LoadHeader) -> bool
    ensures { result ≡ is_for_of identity.now.hw identity.now.pos (header_view header.now) }
{
    has_text(header.hardware.as_slice(), identity.hw.as_slice())
        || is_at_one(identity, header.positions.as_slice())
}

/// Whether one of these names the target's hardware with the target's position.
fn is_at_one(identity: &Identity, list: &[HardwareAt]) -> bool
    ensures { result ≡ list_any (λ at.
        is_at_of identity.now.hw identity.now.pos (hardware_at_view at)) list.now }
{
    list.iter().any(|at| is_at(identity, at))
}

/// Whether it names the target's hardware with the target's position.
fn is_at(identity: &Identity, at: &HardwareAt) -> bool
    ensures { result
        ≡ is_at_of identity.now.hw identity.now.pos (hardware_at_view at.now) }
{
    at.hardware.as_slice() == identity.hw.as_slice()
        && has_text(at.positions.as_slice(), identity.pos.as_slice())
}

/// Whether this is one of the texts.
fn has_text(texts: &[Text], text: &[u8]) -> bool
    ensures { result ≡ list_any (λ one. bytes_eq one text.now) texts.now }
{
    texts.iter().any(|one| one.as_slice() == text)
}

/// How many bytes of a bank a load needs with its manifest, whose header has this many.
pub(crate) fn load_need(wanted: &Wanted, header: &LoadHeader, size: u32) -> u64
    requires { IsHeader (header_view header.now) }
    ensures is { result ≡ need_of_load wanted.now (header_view header.now) size }
    ensures small { result ≤ 2 ^ 42 }
{
    let data = entries_need(header.data_files.as_slice());
    let support = entries_need(header.support_files.as_slice());
    19 + file_need(&wanted.header, size) + data + support
}

fn entries_need(entries: &[FileEntry]) -> u64
    requires { length entries.now ≤ 255 }
    ensures is { result ≡ need_of_entries entries.now }
    ensures small { result ≤ 255 * 2 ^ 33 }
{
    let mut need = 0;
    for entry in entries {
        need += file_need(&entry.name, entry.length);
    }
    need
}

pub(crate) fn file_need(name: &Name, size: u32) -> u64
    ensures is { result ≡ size + length name.now + 5 }
    ensures small { result ≤ 2 ^ 33 }
{
    u64::from(size) + name.as_slice().len() as u64 + 5
}

/// Why a data or support file is refused, if it is. Its number, from 1.
pub(crate) fn file_reason(number: u16, entry: &FileEntry, sums: &FileSums) -> Option<Reason>
    ensures { result ≡ file_fault number entry.now sums.now }
{
    if sums.count() != entry.length {
        return Some(Reason::FileLength {
            file: number,
            said: entry.length,
            found: sums.count(),
        });
    }
    if sums.crc16() != entry.crc16 {
        return Some(Reason::FileCrc {
            file: number,
            said: entry.crc16,
            found: sums.crc16(),
        });
    }
    None
}

/// Why a load is refused, if it is: once all its files are there, its check sum is tested.
pub(crate) fn load_reason(header: &LoadHeader, next: Next, found: u32) -> Option<Reason>
    ensures { result ≡ load_fault (header_view header.now) (next_seen next) found }
{
    let said = header.load_crc;
    match next {
        Next::MoreFiles => None,
        Next::NextLoad | Next::Complete if said == found => None,
        Next::NextLoad | Next::Complete => Some(Reason::LoadCrc { said, found }),
    }
}

/// The entry of a file of the header, of which the first has the index 0, the data files first.
pub(crate) fn entry_at(header: &LoadHeader, index: usize) -> &FileEntry
    requires { index < length (files_of (header_view header.now)) }
    ensures { slice_get (files_of (header_view header.now)) index ≡ Some result.now }
{
    let data = header.data_files.as_slice();
    if index < data.len() {
        &data[index]
    } else {
        &header.support_files.as_slice()[index - data.len()]
    }
}
