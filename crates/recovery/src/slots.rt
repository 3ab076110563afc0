//! The identity of a disk, and its active slot.
ghost use Rattle.std.specs.Prelude.{◌≡◌, ◌≤◌, ◌<◌, OnOk, IfOk, IfErr};
ghost use Rattle.std.specs.Option.{ForSome};
ghost use Rattle.disk_layout.specs.Offsets.{IsBankSize};
ghost use Rattle.disk_layout.specs.Identity.{HasIdentity};
ghost use Rattle.disk_layout.specs.Slots.{slot_offset, bank_number, IsSlotAt};
ghost use Rattle.disk_layout.specs.Holds.{Refuses};
ghost use Rattle.disk_layout.specs.DiskReads.{IsOfDisk, ReadsDisk};
ghost use Rattle.bank_store.specs.DiskWrites.{IsRunning};
ghost use Rattle.recovery.specs.Parts.{IsActiveSlotOn, IsActiveSlotOfTarget, RefusesSlots};
ghost use Rattle.recovery.specs.Parts.{RefusesSlot};
ghost use Rattle.recovery.specs.Parts.{IsSoundFor};

use crate::reading::read_from;
use disk_layout::offsets::{
    BANK_IN_SLOT, LENGTH_IN_SLOT, LONGEST_IDENTITY, LONGEST_MANIFEST, MANIFEST_OFFSET_IN_SLOT,
    OPEN, SLOT_A, SLOT_B, SLOT_LENGTH,
};
use disk_layout::{Active, Bank, Identity, RecoverFault, Slot, SlotFields};
use disk_model::Disk;

/// The identity of a disk, and its active slot, whose fields can be on it.
#[derive(Clone, Copy)]
pub(crate) struct SoundSlot {
    pub(crate) identity: Identity,
    pub(crate) active_slot: ActiveSlot,
}

/// Finds the active slot, and that what it says can be on the disk.
pub(crate) fn sound_slot_on<K: Disk>(disk: &mut K) -> Result<SoundSlot, RecoverFault>
    requires { IsRunning (K.state disk.old) }
    ensures found { IfOk result (λ sound. ForSome (K.state disk.old).reads
        (λ image. IsActiveSlotOfTarget image sound.identity sound.active_slot)) }
    ensures size { IfOk result (λ sound. IsBankSize sound.identity.bank) }
    ensures can_be { IfOk result (λ sound. IsSoundFor sound.identity.bank sound.active_slot.says) }
    ensures refused { IfErr result (λ fault. ForSome (K.state disk.old).reads
        (λ image. Refuses image fault)) }
    ensures reads_disk { ReadsDisk (K.state disk.old) (K.state disk.new) result }
{
    let identity = identity_on(disk)?;
    let active_slot = active_slot_on(disk)?;
    check_slot(identity.bank, active_slot.slot, &active_slot.says)?;
    Ok(SoundSlot {
        identity,
        active_slot,
    })
}

/// What is active where this slot is.
pub(crate) fn active_by(active_slot: &ActiveSlot) -> Active
    requires { active_slot.now.says.bank < 2 }
    ensures slot { result.slot ≡ active_slot.now.slot }
    ensures bank { bank_number result.bank ≡ active_slot.now.says.bank }
    ensures sequence { result.sequence ≡ active_slot.now.says.sequence }
    ensures manifest { result.manifest ≡ active_slot.now.says.manifest }
{
    Active {
        slot: active_slot.slot,
        bank: Bank::numbered(active_slot.says.bank),
        sequence: active_slot.says.sequence,
        manifest: active_slot.says.manifest,
    }
}

fn identity_on<K: Disk>(disk: &mut K) -> Result<Identity, RecoverFault>
    requires { IsRunning (K.state disk.old) }
    ensures found { IfOk result (λ id. ForSome (K.state disk.old).reads
        (λ image. HasIdentity image id)) }
    ensures size { IfOk result (λ id. IsBankSize id.bank) }
    ensures refused { IfErr result (λ fault. ForSome (K.state disk.old).reads
        (λ image. Refuses image fault)) }
    ensures reads_disk { ReadsDisk (K.state disk.old) (K.state disk.new) result }
{
    let mut prefix = [0; LONGEST_IDENTITY];
    read_from(disk, 0, &mut prefix)?;
    match Identity::decode(&prefix) {
        Ok(identity) => Ok(identity),
        Err(offset) => Err(RecoverFault::NotFormatted(offset)),
    }
}

/// What the slot at this offset says.
pub(crate) fn slot_on<K: Disk>(disk: &mut K, at: u32) -> Result<SlotFields, RecoverFault>
    requires running { IsRunning (K.state disk.old) }
    requires within { at ≤ SLOT_B }
    ensures found { IfOk result (λ slot. ForSome (K.state disk.old).reads
        (λ image. IsSlotAt image at slot)) }
    ensures refused { IfErr result (λ fault. IsOfDisk fault) }
    ensures reads_disk { ReadsDisk (K.state disk.old) (K.state disk.new) result }
{
    let mut bytes = [0; SLOT_LENGTH];
    read_from(disk, at, &mut bytes)?;
    Ok(SlotFields::decode(&bytes))
}

/// The active slot, what it says, and whether the other is open too.
#[derive(Clone, Copy)]
pub(crate) struct ActiveSlot {
    pub(crate) slot: Slot,
    pub(crate) says: SlotFields,
    pub(crate) other_is_open: bool,
}

fn active_slot_on<K: Disk>(disk: &mut K) -> Result<ActiveSlot, RecoverFault>
    requires { IsRunning (K.state disk.old) }
    ensures found { IfOk result (λ active_slot. ForSome (K.state disk.old).reads
        (λ image. IsActiveSlotOn image active_slot)) }
    ensures refused { IfErr result (λ fault. ForSome (K.state disk.old).reads
        (λ image. RefusesSlots image fault)) }
    ensures reads_disk { ReadsDisk (K.state disk.old) (K.state disk.new) result }
{
    let a = slot_on(disk, SLOT_A)?;
    let b = slot_on(disk, SLOT_B)?;
    if a.is_active_over(&b) {
        Ok(ActiveSlot {
            slot: Slot::A,
            says: a,
            other_is_open: b.gate == OPEN,
        })
    } else if b.gate == OPEN {
        Ok(ActiveSlot {
            slot: Slot::B,
            says: b,
            other_is_open: a.gate == OPEN,
        })
    } else {
        Err(RecoverFault::NoOpenSlot)
    }
}

/// What a slot says can be on a disk with banks of this size.
pub(crate) fn check_slot(bank_size: u32, slot: Slot, says: &SlotFields) -> Result<(), RecoverFault>
    ensures ok { OnOk result (IsSoundFor bank_size says.now) }
    ensures refused { IfErr result
        (λ fault. RefusesSlot bank_size (slot_offset slot) says.now fault) }
{
    let at = u64::from(slot.offset());
    let end = u64::from(says.manifest.offset) + u64::from(says.manifest.length);
    if says.bank > 1 {
        return Err(RecoverFault::BadSlot(at + u64::from(BANK_IN_SLOT)));
    }
    if says.manifest.length > LONGEST_MANIFEST {
        return Err(RecoverFault::BadSlot(at + u64::from(LENGTH_IN_SLOT)));
    }
    if end > u64::from(bank_size) {
        return Err(RecoverFault::BadSlot(at + u64::from(MANIFEST_OFFSET_IN_SLOT)));
    }
    Ok(())
}
