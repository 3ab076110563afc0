//! Which loads of the active configuration an upload keeps.
ghost use Rattle.std.specs.Prelude.{◌≡◌, ◌+◌, ◌*◌, ◌^◌, ◌<◌, ◌≤◌, [], ◌∷◌, ◌++◌, length, take};
ghost use Rattle.std.specs.Prelude.{◌==◌};
ghost use Rattle.std.specs.List.{list_any};
ghost use Rattle.std.specs.Option.{option_to_list};
ghost use Rattle.disk_layout.specs.Manifest.{FitsALayout, entry_view};
ghost use Rattle.session_rules.specs.KeptLoads.{has_other_type, told_loads, types_of};
ghost use Rattle.load_intake.specs.Keeping.{entries, kept_beside, kept_with};
ghost use Rattle.load_intake.specs.Keeping.{listed_need as need_of_listed, listed_needs, says_type};

use crate::judging::file_need;
use accept_rules::KeptLoad;
use bank_store::ManifestLoad;
use load_base::List;
use load_header::LoadHeader;
use std::marker::Model;

/// How many loads a configuration has, at most.
pub(crate) const MOST_LOADS: usize = 32;

/// Loads that are kept, as an interlock is told of them, 32 at most. They lie in the value itself.
#[derive(Drop)]
pub(crate) struct KeptLoads {
    loads: [KeptLoad; MOST_LOADS],
    count: usize,
}

impl Model for KeptLoads {
    ghost use Rattle.std.specs.Prelude.{◌≡◌, ◌≤◌, List, length, take};
    ghost use Rattle.accept_rules.specs.declared.kept.KeptLoad.{KeptLoad};

    ghost Value = { List KeptLoad };

    ghost view = { λ k. take k.count k.loads };

    ghost invariant = { λ k. (k.count ≤ 32) × (length k.loads ≡ 32) };
}

impl KeptLoads {
    /// None of them. Unused places hold this one.
    fn none(blank: KeptLoad) -> KeptLoads
        ensures { result ≡ [] }
    {
        KeptLoads {
            loads: [blank; MOST_LOADS],
            count: 0,
        }
    }

    /// With one more.
    fn push(&mut self, load: KeptLoad)
        requires { length self.old < 32 }
        ensures { self.new ≡ self.old ++ load ∷ [] }
    {
        self.loads[self.count] = load;
        self.count += 1;
    }

    /// The loads, in their order.
    pub(crate) fn as_slice(&self) -> &[KeptLoad]
        ensures is { result.now ≡ self.now }
        ensures few { length result.now ≤ 32 }
    {
        &self.loads[..self.count]
    }
}

/// Whether a load of the active configuration is kept beside these: it has a type id, and none of
/// these has it.
#[tactic(auto, using(crate::proofs::Kept::any_type))]
pub(crate) fn is_kept_beside(load: &ManifestLoad, new: &[ManifestLoad]) -> bool
    ensures { result ≡ has_other_type (types_of (entries new.now)) load.now.type_id }
{
    match load.type_id {
        Some(id) => !any_has_type(new, id),
        None => false,
    }
}

/// Whether it is kept beside these and one of this type.
fn is_kept_with(load: &ManifestLoad, new: &[ManifestLoad], type_id: u16) -> bool
    ensures { result
        ≡ has_other_type (types_of (entries new.now) ++ type_id ∷ []) load.now.type_id }
{
    is_kept_beside(load, new) && !has_type(load, type_id)
}

/// Whether one of these has this type id.
fn any_has_type(loads: &[ManifestLoad], id: u16) -> bool
    ensures { result ≡ list_any (λ load. says_type id load.type_id) loads.now }
{
    loads.iter().any(|load| has_type(load, id))
}

/// Whether it has this type id.
fn has_type(load: &ManifestLoad, id: u16) -> bool
    ensures { result ≡ says_type id load.now.type_id }
{
    load.type_id == Some(id)
}

/// The loads of the active configuration that are kept beside these and one with this header, in
/// their order.
pub(crate) fn kept_after(
    active: &[ManifestLoad],
    new: &[ManifestLoad],
    header: &LoadHeader,
) -> KeptLoads
    requires { length active.now ≤ 32 }
    ensures { result
        ≡ told_loads (kept_with (entries active.now) (entries new.now) header.now.type_id) }
{
    let mut kept = KeptLoads::none(KeptLoad {
        part: header.part.text(),
        type_id: header.type_id,
    });
    for load in active {
        if let Some(load) = told(load, new, header.type_id) {
            kept.push(load);
        }
    }
    kept
}

/// A load of the active configuration as an interlock is told of it, if it is kept beside these and
/// one of this type.
fn told(load: &ManifestLoad, new: &[ManifestLoad], type_id: u16) -> Option<KeptLoad>
    ensures { option_to_list result
        ≡ told_loads (kept_with (entry_view load.now ∷ []) (entries new.now) type_id) }
{
    match load.type_id {
        Some(id) => {
            if is_kept_with(load, new, type_id) {
                Some(KeptLoad {
                    part: load.part,
                    type_id: id,
                })
            } else {
                None
            }
        }
        None => None,
    }
}

/// How many bytes of a bank those loads need with their entries in the manifest.
#[tactic(auto, using(crate::proofs::Kept::needs_by_one))]
pub(crate) fn kept_need(active: &[ManifestLoad], new: &[ManifestLoad], type_id: u16) -> u64
    requires { FitsALayout (entries active.now) }
    ensures is { result
        ≡ listed_needs (kept_with (entries active.now) (entries new.now) type_id) }
    ensures small { result ≤ 32 * 2 ^ 42 }
{
    let mut need = 0;
    for load in active {
        need += need_if_kept(load, new, type_id);
    }
    need
}

/// The same of one load: 0 where it isn't kept.
fn need_if_kept(load: &ManifestLoad, new: &[ManifestLoad], type_id: u16) -> u64
    requires { length load.now.files.items ≤ 256 }
    ensures is { result
        ≡ listed_needs (kept_with (entry_view load.now ∷ []) (entries new.now) type_id) }
    ensures small { result ≤ 2 ^ 42 }
{
    if is_kept_with(load, new, type_id) {
        listed_need(load)
    } else {
        0
    }
}

/// How many bytes of a bank a load needs with its entry in the manifest.
fn listed_need(load: &ManifestLoad) -> u64
    requires { length load.now.files.items ≤ 256 }
    ensures is { result ≡ need_of_listed (entry_view load.now) }
    ensures small { result ≤ 2 ^ 42 }
{
    let mut need = 19;
    for file in load.files.as_slice() {
        need += file_need(&file.name, file.length);
    }
    need
}

/// Moves the loads that are kept beside the first `new` of these after them, in their order.
pub(crate) fn move_kept(from: &mut List<ManifestLoad>, new: usize, to: &mut List<ManifestLoad>)
    requires new { new ≤ length to.old.items }
    requires room { length from.old.items ≤ to.old.spare }
    ensures moved { entries to.new.items ≡ entries to.old.items
        ++ kept_beside (entries from.old.items) (entries (take new to.old.items)) }
    ensures first { take new to.new.items ≡ take new to.old.items }
    ensures longer { length to.old.items ≤ length to.new.items }
    ensures spare { to.old.spare ≤ to.new.spare + length from.old.items }
{
    let Some(load) = from.pop() else {
        return;
    };
    // Those before it come first.
    move_kept(from, new, to);
    if is_kept_beside(&load, &to.as_slice()[..new]) {
        let Ok(()) = to.push(load) else {
            // `to` had room for all that `from` holds.
            unreachable!()
        };
    } else {
        // For the proof: dropped by a call, not by scope.
        drop(load);
    }
}
