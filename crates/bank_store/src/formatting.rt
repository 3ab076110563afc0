//! Formatting a disk.
ghost use Rattle.std.specs.Prelude.{◌≡◌, Some, false, OnOk, IfOk, IfErr};
ghost use Rattle.std.specs.Option.{ForSome};
ghost use Rattle.disk_model.specs.Image.{Image};
ghost use Rattle.disk_model.specs.State.{HasCause, IsSettled, OnlyReads, Torn};
ghost use Rattle.disk_layout.specs.Offsets.{IsBankSize, slot_a, slot_b};
ghost use Rattle.disk_layout.specs.Slots.{IsSlotAt, slot_offset};
ghost use Rattle.disk_layout.specs.Holds.{HoldsConfig};
ghost use Rattle.bank_store.specs.DiskWrites.{WritesDisk, AddsOnly, IsFailure, IsRunning};
ghost use Rattle.bank_store.specs.Formatting.{formatted, AreOpen, IsShut, IsLaidOut, KeepsRest};
ghost use Rattle.bank_store.specs.Formatting.{LeavesOldOrFormatted, ShutsGates, laid_out};
ghost use Rattle.bank_store.specs.Formatting.{with_gate};

use crate::StoreFault;
use disk_layout::offsets::{BANKS, OPEN, SEQUENCE_IN_SLOT, SLOT_A, SLOT_LENGTH};
use disk_layout::{Identity, Slot, SlotFields, an_identity_is_read_again};
use disk_model::{Disk, DiskFault};

/// A gate that isn't open.
const SHUT: u8 = 0;

/// The manifest of a configuration without loads: the mark of its layout, and their number.
const NO_LOADS: [u8; 4] = [0xA0, 0x02, 0, 0];

/// What the first slot says from its sequence on: sequence 1, bank 0, and a manifest of 4 bytes at
/// its start.
const FIRST_SLOT: [u8; 13] = [0, 0, 0, 1, 0, 0, 0, 0, 0, 0, 0, 0, 4];

/// Makes a disk hold this target with bank 0, sequence 1 and no loads, whatever it held before.
///
/// First the gates that are open are shut, that of the active slot last; then the manifest, slot
/// A's body and the identity are written; then gate A is opened; and after each step the disk is
/// synced. A power loss within the first step leaves the old configuration whole, or both gates
/// shut, so that the disk holds nothing; and after it either that or the formatted disk. All other
/// bytes stay. The bank size of the identity is 4,096 to 67,108,864.
pub fn format<K: Disk>(disk: &mut K, identity: &Identity) -> Result<(), StoreFault>
    requires running { IsRunning (K.state disk.old) }
    requires bank_size { IsBankSize identity.now.bank }
    // With Ok.
    ensures formatted { OnOk result (ForSome (K.state disk.new).reads
        (λ image. HoldsConfig image (formatted identity.now))) }
    ensures rest { OnOk result ((before after : Image) → (K.state disk.old).reads ≡ Some before
        → (K.state disk.new).reads ≡ Some after → KeepsRest identity.now before after) }
    ensures settled { OnOk result (IsSettled (K.state disk.new)) }
    // Whatever it answers.
    ensures refused { IfErr result (λ fault. IsFailure fault) }
    ensures any_moment { LeavesOldOrFormatted identity.now (K.state disk.old) (K.state disk.new) }
    ensures writes_disk { WritesDisk (K.state disk.old) (K.state disk.new) result }
{
    shut_gates(disk)?;
    lay_out(disk, identity)?;
    write_gate(disk, Slot::A, OPEN)?;
    Ok(())
}

/// Which slots of a disk are open.
#[derive(Clone, Copy)]
enum OpenSlots {
    Neither,
    One(Slot),
    Both { active: Slot },
}

/// Shuts the gates that are open. A gate that reads as shut isn't written, since a torn write could
/// open it.
fn shut_gates<K: Disk>(disk: &mut K) -> Result<(), StoreFault>
    requires { IsRunning (K.state disk.old) }
    ensures shuts { ShutsGates (K.state disk.old) (K.state disk.new) result }
    ensures refused { IfErr result (λ fault. IsFailure fault) }
    ensures writes_disk { WritesDisk (K.state disk.old) (K.state disk.new) result }
{
    match open_slots(disk)? {
        OpenSlots::Neither => settle(disk),
        OpenSlots::One(slot) => shut_one(disk, slot),
        OpenSlots::Both { active } => shut_both(disk, active),
    }
}

fn open_slots<K: Disk>(disk: &mut K) -> Result<OpenSlots, DiskFault>
    requires { IsRunning (K.state disk.old) }
    ensures found { IfOk result (λ slots. ForSome (K.state disk.old).reads
        (λ image. AreOpen image slots)) }
    ensures kept { OnOk result ((K.state disk.new).reads ≡ (K.state disk.old).reads) }
    ensures only_reads { OnlyReads (K.state disk.old) (K.state disk.new) }
    ensures cause { HasCause (K.state disk.old) (K.state disk.new) result }
{
    let a = slot_on(disk, Slot::A)?;
    let b = slot_on(disk, Slot::B)?;
    Ok(open_of(&a, &b))
}

/// Which slots are open where slot A and slot B say this.
fn open_of(a: &SlotFields, b: &SlotFields) -> OpenSlots
    ensures { (image : Image) → IsSlotAt image slot_a a.now → IsSlotAt image slot_b b.now
        → AreOpen image result }
{
    match (a.gate == OPEN, b.gate == OPEN) {
        (false, false) => OpenSlots::Neither,
        (true, false) => OpenSlots::One(Slot::A),
        (false, true) => OpenSlots::One(Slot::B),
        (true, true) if a.is_active_over(b) => OpenSlots::Both { active: Slot::A },
        (true, true) => OpenSlots::Both { active: Slot::B },
    }
}

fn slot_on<K: Disk>(disk: &mut K, slot: Slot) -> Result<SlotFields, DiskFault>
    requires { IsRunning (K.state disk.old) }
    ensures found { IfOk result (λ says. ForSome (K.state disk.old).reads
        (λ image. IsSlotAt image (slot_offset slot) says)) }
    ensures kept { OnOk result ((K.state disk.new).reads ≡ (K.state disk.old).reads) }
    ensures only_reads { OnlyReads (K.state disk.old) (K.state disk.new) }
    ensures cause { HasCause (K.state disk.old) (K.state disk.new) result }
{
    let mut bytes = [0; SLOT_LENGTH];
    disk.read(slot.offset(), &mut bytes)?;
    Ok(SlotFields::decode(&bytes))
}

/// No gate is written; but what was written before and may still come out otherwise is settled.
fn settle<K: Disk>(disk: &mut K) -> Result<(), StoreFault>
    requires running { IsRunning (K.state disk.old) }
    requires gates { ForSome (K.state disk.old).reads (λ image. IsShut image) }
    ensures shuts { ShutsGates (K.state disk.old) (K.state disk.new) result }
    ensures refused { IfErr result (λ fault. IsFailure fault) }
    ensures writes_disk { WritesDisk (K.state disk.old) (K.state disk.new) result }
{
    disk.sync()?;
    Ok(())
}

fn shut_one<K: Disk>(disk: &mut K, slot: Slot) -> Result<(), StoreFault>
    requires running { IsRunning (K.state disk.old) }
    requires gates { ForSome (K.state disk.old).reads
        (λ image. AreOpen image (OpenSlots.One slot)) }
    ensures shuts { ShutsGates (K.state disk.old) (K.state disk.new) result }
    ensures refused { IfErr result (λ fault. IsFailure fault) }
    ensures writes_disk { WritesDisk (K.state disk.old) (K.state disk.new) result }
{
    write_gate(disk, slot, SHUT)
}

/// Were the active slot's gate shut first, the other slot would be active after a power loss in
/// between: a former configuration, or one that was never finished.
fn shut_both<K: Disk>(disk: &mut K, active: Slot) -> Result<(), StoreFault>
    requires running { IsRunning (K.state disk.old) }
    requires gates { ForSome (K.state disk.old).reads
        (λ image. AreOpen image (OpenSlots.Both active)) }
    ensures shuts { ShutsGates (K.state disk.old) (K.state disk.new) result }
    ensures refused { IfErr result (λ fault. IsFailure fault) }
    ensures writes_disk { WritesDisk (K.state disk.old) (K.state disk.new) result }
{
    write_gate(disk, active.other(), SHUT)?;
    write_gate(disk, active, SHUT)
}

/// Writes the gate of a slot, for good.
fn write_gate<K: Disk>(disk: &mut K, slot: Slot, byte: u8) -> Result<(), StoreFault>
    requires { IsRunning (K.state disk.old) }
    ensures reads { OnOk result (ForSome (K.state disk.old).reads
        (λ image. (K.state disk.new).reads ≡ Some (with_gate slot byte image))) }
    ensures settled { OnOk result (IsSettled (K.state disk.new)) }
    ensures any_moment { AddsOnly (K.state disk.old) (K.state disk.new)
        (Torn (slot_offset slot) 1 (K.state disk.old).now) }
    ensures refused { IfErr result (λ fault. IsFailure fault) }
    ensures writes_disk { WritesDisk (K.state disk.old) (K.state disk.new) result }
{
    disk.write(slot.offset(), &[byte])?;
    // The next step counts on this gate.
    disk.sync()?;
    Ok(())
}

/// Writes the manifest, slot A's body and the identity.
fn lay_out<K: Disk>(disk: &mut K, identity: &Identity) -> Result<(), StoreFault>
    requires running { IsRunning (K.state disk.old) }
    requires bank_size { IsBankSize identity.now.bank }
    ensures reads { OnOk result (ForSome (K.state disk.old).reads
        (λ image. (K.state disk.new).reads ≡ Some (laid_out identity.now image))) }
    ensures laid_out { OnOk result (((image : Image) → (K.state disk.old).now image
        → IsShut image) → (image : Image) → (K.state disk.new).now image
        → IsLaidOut identity.now image) }
    ensures any_moment { ((image : Image) → (K.state disk.old).now image → IsShut image)
        → AddsOnly (K.state disk.old) (K.state disk.new) (λ image. IsShut image) }
    ensures refused { IfErr result (λ fault. IsFailure fault) }
    ensures writes_disk { WritesDisk (K.state disk.old) (K.state disk.new) result }
{
    // For the proof: does nothing.
    an_identity_is_read_again();
    let prefix = identity.encode();
    disk.write(BANKS, &NO_LOADS)?;
    disk.write(SLOT_A + SEQUENCE_IN_SLOT, &FIRST_SLOT)?;
    disk.write(0, prefix.as_slice())?;
    // All that the gate lets count has to last before the gate is opened.
    disk.sync()?;
    Ok(())
}
