//! The rollback of a disk.
ghost use Rattle.std.specs.Prelude.{◌≡◌, ◌⊎◌, ◌<◌, List, false, IfOk, IfErr, IsOk, OnOk};
ghost use Rattle.std.specs.Option.{ForSome};
ghost use Rattle.load_base.specs.Config.{LoadView};
ghost use Rattle.disk_layout.specs.Holds.{StandingView, standing_view};
ghost use Rattle.disk_layout.specs.Slots.{IsManifestRange};
ghost use Rattle.bank_store.specs.Bounds.{largest_bank};
ghost use Rattle.bank_store.specs.DiskWrites.{AddsOnly, IsAnswered, IsRunning, WritesDisk};
ghost use Rattle.bank_store.specs.Fits.{InstallsBeside, LosesOnlyWork, Works};
ghost use Rattle.bank_store.specs.Given.{configured};
ghost use Rattle.bank_store.specs.Keeps.{IsOldOrNew};
ghost use Rattle.bank_store.specs.Readopting.{CanReadopt, HasLoadsAt};
ghost use Rattle.bank_store.specs.Store.{IsPrepared, active_sequence};
ghost use Rattle.recovery.specs.Formers.{HasOwnName as IsNamed, ReadsFormer, RefusesFormer};
ghost use Rattle.bank_rollback.specs.Beside.{CanBringBack, IsFormerAt, LooksFor, MakesActive};
ghost use Rattle.bank_rollback.specs.Beside.{StandsBeside};
ghost use Rattle.bank_rollback.specs.Faults.{RollbackHasOwnName};
ghost use Rattle.bank_rollback.specs.Rollbacks.{GoesOnAfter, HasRolledBack, LeavesActiveOrFormer};
ghost use Rattle.bank_rollback.specs.Rollbacks.{RefusesRollback, RollsBack, WritesWhereItCan};

use crate::fault::RollbackFault;
use bank_store::{
    Store, StoreFault, a_power_loss_takes_only_work, a_store_goes_on_fitting, an_idle_store_works,
};
use disk_layout::{Standing, an_image_holds_one_configuration};
use disk_model::Disk;
use recovery::{FormerFault, a_former_configuration_stands_beside, former, recover, survey};
use std::alloc::Global;

/// Makes the former configuration of a disk active again, with the next sequence number, and gives
/// what the disk holds then. No contents are copied: the other slot's body is written anew, and its
/// gate opened. A second rollback brings back what was active before the first.
///
/// V1 to V4 where the disk holds no configuration, G1 to G3 where it holds no former one, K2 where
/// the active sequence number is 4,294,967,295; then nothing was written, and the disk runs on.
/// After DiskFailed it doesn't until a restart.
pub fn rollback<K: Disk>(alloc: Global, disk: &mut K) -> Result<Standing, RollbackFault>
    requires { IsRunning (K.state disk.old) }
    // With Ok: the former loads are active, in the other bank, and a power loss leaves nothing
    // else.
    ensures rolls_back { IfOk result (λ standing.
        RollsBack (K.state disk.old) (K.state disk.new) (standing_view standing)) }
    // Refusals, exactly by what the disk reads.
    ensures refused { IfErr result (λ fault. ForSome (K.state disk.old).reads
        (λ image. RefusesRollback image fault)) }
    ensures own_name { IfErr result (λ fault. RollbackHasOwnName fault) }
    // Whatever it answers.
    ensures any_moment { LeavesActiveOrFormer (K.state disk.old) (K.state disk.new) }
    ensures rests { LosesOnlyWork (K.state disk.old) → (K.state disk.new).stopped ≡ false
        → LosesOnlyWork (K.state disk.new) }
    ensures writes { WritesWhereItCan (K.state disk.old) (K.state disk.new) }
    ensures goes_on { GoesOnAfter (K.state disk.old) (K.state disk.new) result }
{
    // For the proof: these do nothing.
    an_image_holds_one_configuration();
    a_power_loss_takes_only_work::<K>();
    make_former_active(alloc, disk)?;
    Ok(recover(alloc, disk)?)
}

/// Makes the former configuration active, and keeps nothing of it.
fn make_former_active<K: Disk>(alloc: Global, disk: &mut K) -> Result<(), RollbackFault>
    requires { IsRunning (K.state disk.old) }
    ensures rolled_back { OnOk result (HasRolledBack (K.state disk.old) (K.state disk.new)) }
    ensures refused { IfErr result (λ fault. ForSome (K.state disk.old).reads
        (λ image. RefusesRollback image fault)) }
    ensures own_name { IfErr result (λ fault. RollbackHasOwnName fault) }
    ensures any_moment { LeavesActiveOrFormer (K.state disk.old) (K.state disk.new) }
    ensures rests { LosesOnlyWork (K.state disk.old) → (K.state disk.new).stopped ≡ false
        → LosesOnlyWork (K.state disk.new) }
    ensures writes { WritesWhereItCan (K.state disk.old) (K.state disk.new) }
    ensures goes_on { GoesOnAfter (K.state disk.old) (K.state disk.new) result }
{
    // For the proof: these do nothing.
    an_image_holds_one_configuration();
    a_power_loss_takes_only_work::<K>();
    an_idle_store_works::<K>();
    let mut beside = find_beside(alloc, disk)?;
    bring_back(&mut beside.store, disk, beside.place, beside.length)?;
    Ok(())
}

/// A former configuration, beside the active one: where its manifest stands in the other bank, and
/// a store that can name it again.
#[derive(Drop)]
struct Beside {
    store: Store,
    place: u32,
    length: u32,
}

/// Finds the former configuration, and reserves the memory that it takes to make it active.
fn find_beside<K: Disk>(alloc: Global, disk: &mut K) -> Result<Beside, RollbackFault>
    requires { IsRunning (K.state disk.old) }
    ensures found { IfOk result (λ beside. ForSome (K.state disk.old).reads
        (λ image. StandsBeside image beside)) }
    ensures ready { IfOk result (λ beside. CanBringBack beside) }
    ensures works { IfOk result (λ beside. LosesOnlyWork (K.state disk.old)
        → Works beside.store (K.state disk.new)) }
    ensures refused { IfErr result (λ fault. ForSome (K.state disk.old).reads
        (λ image. RefusesRollback image fault)) }
    ensures own_name { IfErr result (λ fault. RollbackHasOwnName fault) }
    ensures looks { LooksFor (K.state disk.old) (K.state disk.new) result }
{
    // For the proof: these do nothing.
    a_former_configuration_stands_beside();
    a_power_loss_takes_only_work::<K>();
    a_store_goes_on_fitting::<K>();
    let (place, length) = former_place(alloc, disk)?;
    let mut store = survey(alloc, disk)?.store;
    if store.sequence() == u32::MAX {
        // For the proof: dropped by a call, not by scope.
        drop(store);
        return Err(RollbackFault::SequenceSpent);
    }
    match store.prepare() {
        Ok(()) => Ok(Beside {
            store,
            place,
            length,
        }),
        Err(_) => {
            drop(store);
            Err(RollbackFault::Memory)
        }
    }
}

/// Where the manifest of the former configuration begins in its bank, and how many bytes it has.
fn former_place<K: Disk>(alloc: Global, disk: &mut K) -> Result<(u32, u32), FormerFault>
    requires { IsRunning (K.state disk.old) }
    ensures found { IfOk result (λ at. ForSome (K.state disk.old).reads
        (λ image. (former : StandingView) × IsFormerAt image former at.0 at.1)) }
    ensures range { IfOk result (λ at. IsManifestRange largest_bank
        (record { offset = at.0; length = at.1 })) }
    ensures refused { IfErr result (λ fault. ForSome (K.state disk.old).reads
        (λ image. RefusesFormer image fault)) }
    ensures own_name { IfErr result (λ fault. IsNamed fault) }
    ensures reads_disk { ReadsFormer (K.state disk.old) (K.state disk.new) result }
{
    let found = former(alloc, disk)?;
    Ok((found.place, found.length))
}

/// Makes the configuration active whose manifest stands in the other bank.
fn bring_back<K: Disk>(
    store: &mut Store,
    disk: &mut K,
    place: u32,
    length: u32,
) -> Result<(), StoreFault>
    requires prepared { IsPrepared store.old }
    requires goes_on { active_sequence store.old < 4294967295 }
    requires manifest { CanReadopt store.old (K.state disk.old) place length }
    requires running { IsRunning (K.state disk.old) }
    // With Ok.
    ensures makes_active { OnOk result (MakesActive store.old (K.state disk.old)
        (K.state disk.new) place length) }
    // Refusals.
    ensures only_failures { IsOk result ⊎ ¬ IsAnswered result }
    // Whatever it answers.
    ensures adds { (s : StandingView) (loads : List LoadView)
        (beside : InstallsBeside store.old (K.state disk.old) s)
        → HasLoadsAt store.old beside.image place length loads
        → AddsOnly (K.state disk.old) (K.state disk.new) (IsOldOrNew s (configured s loads)) }
    ensures writes_disk { WritesDisk (K.state disk.old) (K.state disk.new) result }
{
    store.begin(disk)?;
    store.readopt(disk, place, length)?;
    store.activate(disk)
}
