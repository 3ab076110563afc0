//! What is active on a disk: the identity, the slot, and the manifest that it names.
ghost use Rattle.std.specs.Prelude.{◌≡◌, IfOk, IfErr};
ghost use Rattle.std.specs.Option.{ForSome};
ghost use Rattle.disk_layout.specs.Holds.{StandingView, outline_of, Refuses};
ghost use Rattle.disk_layout.specs.DiskReads.{ReadsDisk};
ghost use Rattle.bank_store.specs.DiskWrites.{IsRunning};
ghost use Rattle.bank_store.specs.Fits.{HoldsFor, Fits, LosesOnlyWork, Works};
ghost use Rattle.recovery.specs.Surveys.{IsSurveyed, IsFreshSurvey, FindsActive, IsFoundInRange};
ghost use Rattle.recovery.specs.Surveys.{KnowsManifest, outline_of_survey};

use crate::manifests::{manifest_told, outline_on};
use bank_store::{Store, a_store_goes_on_fitting, an_idle_store_works};
use disk_layout::{Active, Identity, Manifest, RecoverFault, an_outline_is_filled, typed_entries};
use disk_model::Disk;
use load_base::Bytes;
use std::alloc::Global;

/// What is active on a disk, without the contents of its files, and a store that installs beside
/// it.
#[derive(Drop)]
pub struct Surveyed {
    pub identity: Identity,
    pub manifest: Manifest,
    pub store: Store,
}

/// Reads what is active on a disk: its identity, the open slot with the greatest sequence, slot A
/// where both have the same, and the manifest that the slot names. Nothing is written. The first
/// condition that fails is the refusal. After V1 to V4 the disk runs on, after DiskFailed not until
/// a restart.
///
/// The store that it gives installs on this disk, beside what is active there. What its calls
/// promise of a power loss they promise where one could take nothing but work of an installation,
/// as after a sync or a restart, and after a run.
pub fn survey<K: Disk>(alloc: Global, disk: &mut K) -> Result<Surveyed, RecoverFault>
    requires { IsRunning (K.state disk.old) }
    ensures found { IfOk result (λ surveyed. ForSome (K.state disk.old).reads
        (λ image. IsSurveyed image surveyed)) }
    ensures refused { IfErr result (λ fault. ForSome (K.state disk.old).reads
        (λ image. Refuses image fault)) }
    ensures fresh { IfOk result (λ surveyed. IsFreshSurvey surveyed) }
    ensures holds { IfOk result (λ surveyed. ForSome (K.state disk.old).reads
        (λ image. (s : StandingView) × HoldsFor surveyed.store image s
        × (outline_of s ≡ outline_of_survey surveyed))) }
    ensures fits { IfOk result (λ surveyed. Fits surveyed.store (K.state disk.new)) }
    ensures works { IfOk result (λ surveyed. LosesOnlyWork (K.state disk.old)
        → Works surveyed.store (K.state disk.new)) }
    ensures reads_disk { ReadsDisk (K.state disk.old) (K.state disk.new) result }
{
    let found = active_on(alloc, disk)?;
    let store = Store::new(
        alloc,
        found.identity.bank,
        found.active,
        found.other_is_open,
        found.known,
    );
    // For the proof: these do nothing.
    an_outline_is_filled();
    an_idle_store_works::<K>();
    a_store_goes_on_fitting::<K>();
    Ok(Surveyed {
        identity: found.identity,
        manifest: found.manifest,
        store,
    })
}

/// What is active on a disk, without the contents of its files, and whether the other slot is open.
#[derive(Drop)]
pub(crate) struct Found {
    pub(crate) identity: Identity,
    pub(crate) manifest: Manifest,
    pub(crate) active: Active,
    pub(crate) other_is_open: bool,
    /// What the manifest says of its loads, where it says their type ids.
    pub(crate) known: Bytes,
}

/// Finds what is active on a disk.
pub(crate) fn active_on<K: Disk>(alloc: Global, disk: &mut K) -> Result<Found, RecoverFault>
    requires { IsRunning (K.state disk.old) }
    ensures found { IfOk result (λ found. ForSome (K.state disk.old).reads
        (λ image. FindsActive image found.identity found.manifest found.active
        found.other_is_open)) }
    ensures refused { IfErr result (λ fault. ForSome (K.state disk.old).reads
        (λ image. Refuses image fault)) }
    ensures in_range { IfOk result
        (λ found. IsFoundInRange found.identity found.manifest found.active) }
    ensures known { IfOk result (λ found. KnowsManifest found.known.items found.manifest) }
    ensures reads_disk { ReadsDisk (K.state disk.old) (K.state disk.new) result }
{
    let found = outline_on(alloc, disk)?;
    let mut known = Bytes::new(alloc);
    known.extend(typed_entries(found.manifest.as_slice()))?;
    let manifest = manifest_told(alloc, found.manifest.as_slice())?;
    Ok(Found {
        identity: found.identity,
        manifest,
        active: found.active,
        other_is_open: found.other_is_open,
        known,
    })
}
