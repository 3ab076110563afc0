//! The former configuration of a disk, which its other slot still names.
ghost use Rattle.std.specs.Prelude.{◌≡◌, ◌⊎◌, ◌↔◌, ◌≤◌, OnOk, IfOk, IfErr};
ghost use Rattle.std.specs.Option.{ForSome};
ghost use Rattle.disk_model.specs.Image.{Image, IsOfBytes};
ghost use Rattle.disk_layout.specs.Offsets.{IsBankSize};
ghost use Rattle.disk_layout.specs.Slots.{IsManifestRange, IsSlotAt, other_slot, slot_offset};
ghost use Rattle.disk_layout.specs.Holds.{HoldsBy, HoldsConfig, Refuses, StandingView};
ghost use Rattle.disk_layout.specs.Holds.{standing_view};
ghost use Rattle.disk_layout.specs.DiskReads.{ReadsDisk};
ghost use Rattle.disk_layout.specs.declared.fault.RecoverFault.TheVariants as disk;
ghost use Rattle.bank_store.specs.Bounds.{largest_bank};
ghost use Rattle.bank_store.specs.DiskWrites.{IsRunning};
ghost use Rattle.recovery.specs.FormerLoads.{FormerStandsBeside};
ghost use Rattle.recovery.specs.Formers.{FindsFormer, HasNoFormer, HasOwnName, HoldsFormer};
ghost use Rattle.recovery.specs.Formers.{ReadsFormer, RefusesFormer, manifest_range_of};
ghost use Rattle.recovery.specs.Formers.{other_fault_of};
ghost use Rattle.recovery.specs.FormerParts.{IsActiveOn, IsOlderSlot, IsOfSlot, IsSeen};
ghost use Rattle.recovery.specs.FormerParts.{RefusesOlder, RefusesOlderSlot};
ghost use Rattle.recovery.specs.declared.former_fault.FormerFault.TheVariants.{DiskFailed};

use crate::contents::loads_on;
use crate::former_config::Former;
use crate::former_fault::FormerFault;
use crate::manifests::{manifest_on, outline_on};
use crate::slots::{check_slot, slot_on};
use disk_layout::offsets::{BANK_IN_SLOT, OPEN, SEQUENCE_IN_SLOT};
use disk_layout::{
    Active, Bank, Identity, RecoverFault, Slot, SlotFields, Standing,
    an_image_holds_one_configuration, an_outline_is_filled,
};
use disk_model::Disk;
use load_base::Config;
use std::alloc::Global;

/// Finds the former configuration of a disk: what the disk would hold without its active slot,
/// where the other slot is open, of a lower sequence number, and of the other bank. Nothing is
/// written. The first condition that fails is the refusal; V1 to V4 come first. After these and G1
/// to G3 the disk runs on, after DiskFailed not until a restart.
///
/// An installation shuts that slot before it writes to its bank; so where it is open, nothing was
/// written there since it was active.
pub fn former<K: Disk>(alloc: Global, disk: &mut K) -> Result<Former, FormerFault>
    requires { IsRunning (K.state disk.old) }
    ensures found { IfOk result (λ found. ForSome (K.state disk.old).reads
        (λ image. FindsFormer image found)) }
    ensures range { IfOk result (λ found. IsManifestRange largest_bank (manifest_range_of found)) }
    ensures refused { IfErr result (λ fault. ForSome (K.state disk.old).reads
        (λ image. RefusesFormer image fault)) }
    ensures own_name { IfErr result (λ fault. HasOwnName fault) }
    ensures reads_disk { ReadsFormer (K.state disk.old) (K.state disk.new) result }
{
    // For the proof: does nothing.
    an_outline_is_filled();
    let (identity, active) = active_part(alloc, disk)?;
    let says = older_slot_on(disk, &active)?;
    match standing_by(alloc, disk, &identity, active.slot.other(), &says) {
        Ok(standing) => Ok(Former {
            standing,
            place: says.manifest.offset,
            length: says.manifest.length,
        }),
        Err(fault) => Err(other_fault(fault)),
    }
}

/// The target, and what is active on its disk.
fn active_part<K: Disk>(alloc: Global, disk: &mut K) -> Result<(Identity, Active), RecoverFault>
    requires { IsRunning (K.state disk.old) }
    ensures found { IfOk result (λ found. ForSome (K.state disk.old).reads
        (λ image. IsActiveOn image found.0 found.1)) }
    ensures size { IfOk result (λ found. IsBankSize found.0.bank) }
    ensures refused { IfErr result (λ fault. ForSome (K.state disk.old).reads
        (λ image. Refuses image fault)) }
    ensures reads_disk { ReadsDisk (K.state disk.old) (K.state disk.new) result }
{
    let found = outline_on(alloc, disk)?;
    Ok((found.identity, found.active))
}

/// What the slot says that isn't active, where it is open and older, and of the other bank.
fn older_slot_on<K: Disk>(disk: &mut K, active: &Active) -> Result<SlotFields, FormerFault>
    requires { IsRunning (K.state disk.old) }
    ensures says { IfOk result (λ says. ForSome (K.state disk.old).reads
        (λ image. IsSlotAt image (other_slot (slot_offset active.now.slot)) says)) }
    ensures older { IfOk result (λ says. IsOlderSlot active.now says) }
    ensures refused { IfErr result (λ fault. ForSome (K.state disk.old).reads
        (λ image. RefusesOlderSlot image active.now fault)) }
    ensures own_name { IfErr result (λ fault. HasOwnName fault) }
    ensures reads_disk { ReadsFormer (K.state disk.old) (K.state disk.new) result }
{
    let slot = active.slot.other();
    let says = slot_on(disk, slot.offset())?;
    check_older(active, slot.offset(), &says)?;
    Ok(says)
}

/// What the slot at this offset says can be of the configuration before this one.
fn check_older(active: &Active, at: u32, says: &SlotFields) -> Result<(), FormerFault>
    requires { at ≤ 8192 }
    ensures ok { OnOk result (IsOlderSlot active.now says.now) }
    ensures refused { IfErr result (λ fault. RefusesOlder active.now at says.now fault) }
{
    if says.gate != OPEN {
        return Err(FormerFault::SlotClosed);
    }
    if says.sequence >= active.sequence {
        return Err(FormerFault::SlotBad(at + SEQUENCE_IN_SLOT));
    }
    if says.bank != active.bank.other().number() {
        return Err(FormerFault::SlotBad(at + BANK_IN_SLOT));
    }
    Ok(())
}

/// The configuration that this slot names, which says this, on the disk of this target.
fn standing_by<K: Disk>(
    alloc: Global,
    disk: &mut K,
    identity: &Identity,
    slot: Slot,
    says: &SlotFields,
) -> Result<Standing, RecoverFault>
    requires running { IsRunning (K.state disk.old) }
    requires size { IsBankSize identity.now.bank }
    ensures found { IfOk result (λ standing. ForSome (K.state disk.old).reads
        (λ image. (seen : Image) → IsSeen image seen identity.now (slot_offset slot) says.now
        → HoldsBy seen (slot_offset slot) (standing_view standing))) }
    ensures range { OnOk result (IsManifestRange identity.now.bank says.now.manifest) }
    ensures refused { IfErr result (λ fault. ForSome (K.state disk.old).reads
        (λ image. (seen : Image) → IsSeen image seen identity.now (slot_offset slot) says.now
        → Refuses seen fault)) }
    ensures of_slot { IfErr result (λ fault. IsOfSlot fault) }
    ensures reads_disk { ReadsDisk (K.state disk.old) (K.state disk.new) result }
{
    check_slot(identity.bank, slot, says)?;
    let manifest = manifest_on(alloc, disk, identity.bank, says)?;
    let start = Bank::numbered(says.bank).offset(identity.bank);
    let loads = loads_on(alloc, disk, start, manifest.loads.as_slice())?;
    Ok(Standing {
        identity: *identity,
        bank: says.bank,
        sequence: says.sequence,
        config: Config { loads },
    })
}

/// A fault of the other slot or of its manifest, as one of what is former. Its offset is one of the
/// disk, and fits four bytes.
fn other_fault(fault: RecoverFault) -> FormerFault
    requires { IsOfSlot fault }
    ensures of { result ≡ other_fault_of fault }
    ensures own_name { HasOwnName result }
    ensures disk_failed { result ≡ DiskFailed ↔ fault ≡ disk.DiskFailed }
{
    match fault {
        RecoverFault::BadSlot(offset) => FormerFault::SlotBad(offset as u32),
        RecoverFault::BadManifest(offset) => FormerFault::ManifestBad(offset as u32),
        RecoverFault::DiskFailed => FormerFault::DiskFailed,
        RecoverFault::Memory => FormerFault::Memory,
        // The slot is open, on the disk of a target.
        RecoverFault::NotFormatted(_) | RecoverFault::NoOpenSlot => unreachable!(),
    }
}

/// An image of bytes that holds a configuration holds one former configuration, or lacks it for one
/// reason, and never both.
pub fn an_image_holds_one_former()
    ensures one_or_other { (image : Image) (active : StandingView) → IsOfBytes image
        → HoldsConfig image active
        → ((s : StandingView) × HoldsFormer image s) ⊎ ((f : FormerFault) × HasNoFormer image f) }
    ensures not_both { (image : Image) (s : StandingView) (f : FormerFault)
        → HoldsFormer image s → HasNoFormer image f → ⊥ }
    ensures one_former { (image : Image) (s t : StandingView) → HoldsFormer image s
        → HoldsFormer image t → s ≡ t }
    ensures one_fault { (image : Image) (f g : FormerFault) → HasNoFormer image f
        → HasNoFormer image g → f ≡ g }
{
    // For the proof: does nothing.
    an_image_holds_one_configuration();
}

/// For a store of what is active the former configuration stands in the other bank, as a readoption
/// asks it.
pub fn a_former_configuration_stands_beside()
    ensures { FormerStandsBeside }
{}
