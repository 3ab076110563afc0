//! The loads of the media set that an upload asks for.
ghost use Rattle.std.specs.Prelude.{◌≡◌, ◌≤◌, length, IfOk};
ghost use Rattle.session_rules.specs.MediaFiles.{entry_with, wanted_of};
ghost use Rattle.media_check.specs.Sets.{set_view};
ghost use Rattle.media_lists.specs.Loads.{load_entry_view};
ghost use Rattle.std.specs.Prelude.{map};
ghost use Rattle.loader_machine.specs.Machine.{IsRequested, media_of, wanted_entry};

use load_base::{List, NoMemory, PartText};
use load_protocol_files::{Lur, Wanted};
use media_check::MediaSet;
use media_lists::LoadEntry;
use std::alloc::Global;

/// What the media set lists of some parts.
#[derive(Drop)]
pub(crate) enum Requested {
    /// Each of them: the request for these loads.
    All(Lur),
    /// Not this part, which is the first.
    Unlisted(PartText),
}

/// The loads that a media set lists.
pub(crate) fn entries_of(media: &MediaSet) -> &[LoadEntry]
    ensures { map (λ e. wanted_entry (load_entry_view e)) result.now
        ≡ (media_of (set_view media.now)).loads }
{
    match media.loads() {
        Some(list) => list.loads.as_slice(),
        None => &[],
    }
}

/// What these entries have of some parts, of which there are at most 32.
#[tactic(auto, using(crate::proofs::Requests::not_listed, crate::proofs::Requests::one_more, crate::proofs::Requests::all_listed))]
pub(crate) fn request_for(
    alloc: Global,
    entries: &[LoadEntry],
    parts: &[PartText],
) -> Result<Requested, NoMemory>
    requires { length parts.now ≤ 32 }
    ensures { IfOk result (λ requested. IsRequested requested (wanted_of
        (map (λ e. wanted_entry (load_entry_view e)) entries.now) parts.now)) }
{
    let mut loads = List::new(alloc);
    let mut left = parts;
    while let Some((part, later)) = left.split_first() {
        match entry_of(entries, part) {
            Some(load) => loads.push(load)?,
            None => return Ok(Requested::Unlisted(*part)),
        }
        left = later;
    }
    Ok(Requested::All(Lur { loads }))
}

/// The first entry with this part number.
fn entry_of(entries: &[LoadEntry], part: &PartText) -> Option<Wanted>
    ensures { result
        ≡ entry_with part.now (map (λ e. wanted_entry (load_entry_view e)) entries.now) }
{
    let mut left = entries;
    while let Some((entry, later)) = left.split_first() {
        if entry.part.as_slice() == part.as_slice() {
            return Some(Wanted {
                header: entry.header_name,
                part: entry.part,
            });
        }
        left = later;
    }
    None
}
