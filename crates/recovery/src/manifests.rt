//! The manifest of a disk as bytes, whose loads are read one at a time.
ghost use Rattle.std.specs.Prelude.{◌≡◌, ◌+◌, ◌<◌, ℕ, List, length, OnOk, IfOk, IfErr, IfSome};
ghost use Rattle.std.specs.Prelude.{IfNone, IsErrOf};
ghost use Rattle.std.specs.Option.{ForSome};
ghost use Rattle.disk_model.specs.Image.{range};
ghost use Rattle.disk_layout.specs.Offsets.{bank_at};
ghost use Rattle.field_grammar.specs.Grammar.{Spelled};
ghost use Rattle.disk_layout.specs.Manifest.{FitsALayout, LoadEntry, RefusesManifestBytes};
ghost use Rattle.disk_layout.specs.Manifest.{entries_length};
ghost use Rattle.disk_layout.specs.Manifest.{manifest, manifest_view, total_length};
ghost use Rattle.disk_layout.specs.Holds.{Refuses};
ghost use Rattle.disk_layout.specs.DiskReads.{ReadsDisk};
ghost use Rattle.disk_layout.specs.declared.fault.RecoverFault.TheVariants.{DiskFailed};
ghost use Rattle.bank_store.specs.DiskWrites.{IsRunning};
ghost use Rattle.recovery.specs.FormerParts.{IsOfSlot};
ghost use Rattle.recovery.specs.Parts.{CanNameManifest, RefusesLoads, RefusesManifest};
ghost use Rattle.recovery.specs.Outlines.{LeftAfterLoads, IsLeftAfter, IsOutlineInRange};
ghost use Rattle.recovery.specs.Outlines.{TellsLoads};
ghost use Rattle.recovery.specs.Outlines.{TellsOutline};

use crate::reading::bytes_on;
use crate::slots::{active_by, sound_slot_on};
use disk_layout::{
    Active, Bank, Identity, Manifest, ManifestFault, ManifestFile, ManifestReader, RecoverFault,
    SlotFields,
};
use disk_model::Disk;
use load_base::{Bytes, NoMemory};
use std::alloc::Global;

/// What is active on a disk, with its manifest as the bytes that the disk has.
#[derive(Drop)]
pub(crate) struct Outlined {
    pub(crate) identity: Identity,
    pub(crate) active: Active,
    pub(crate) other_is_open: bool,
    pub(crate) manifest: Bytes,
}

/// Finds what is active on a disk. Each load of the manifest is read and tested, and none is kept.
pub(crate) fn outline_on<K: Disk>(alloc: Global, disk: &mut K) -> Result<Outlined, RecoverFault>
    requires { IsRunning (K.state disk.old) }
    ensures found { IfOk result (λ found. ForSome (K.state disk.old).reads
        (λ image. TellsOutline image found.identity found.active found.other_is_open
        found.manifest.items)) }
    ensures in_range { IfOk result
        (λ found. IsOutlineInRange found.identity found.active found.manifest.items) }
    ensures refused { IfErr result (λ fault. ForSome (K.state disk.old).reads
        (λ image. Refuses image fault)) }
    ensures reads_disk { ReadsDisk (K.state disk.old) (K.state disk.new) result }
{
    let sound = sound_slot_on(disk)?;
    let size = sound.identity.bank;
    let manifest = manifest_bytes_on(alloc, disk, size, &sound.active_slot.says)?;
    Ok(Outlined {
        identity: sound.identity,
        active: active_by(&sound.active_slot),
        other_is_open: sound.active_slot.other_is_open,
        manifest,
    })
}

/// The manifest that the slot names, whose files have as many bytes as stand before it.
pub(crate) fn manifest_on<K: Disk>(
    alloc: Global,
    disk: &mut K,
    bank_size: u32,
    slot: &SlotFields,
) -> Result<Manifest, RecoverFault>
    requires running { IsRunning (K.state disk.old) }
    requires can_be { CanNameManifest bank_size slot.now }
    ensures spelled { IfOk result (λ m. ForSome (K.state disk.old).reads (λ image.
        Spelled manifest (range image (bank_at bank_size slot.now.bank + slot.now.manifest.offset)
        slot.now.manifest.length) (manifest_view m))) }
    ensures lengths { IfOk result
        (λ m. total_length (manifest_view m) ≡ slot.now.manifest.offset) }
    ensures fits { IfOk result (λ m. FitsALayout (manifest_view m)) }
    ensures refused { IfErr result (λ fault. ForSome (K.state disk.old).reads
        (λ image. RefusesManifest image (bank_at bank_size slot.now.bank + slot.now.manifest.offset)
        slot.now.manifest.length slot.now.manifest.offset fault)) }
    ensures of_slot { IfErr result (λ fault. IsOfSlot fault) }
    ensures reads_disk { ReadsDisk (K.state disk.old) (K.state disk.new) result }
{
    let bytes = manifest_bytes_on(alloc, disk, bank_size, slot)?;
    Ok(manifest_told(alloc, bytes.as_slice())?)
}

/// The manifest that bytes tell which were read over before.
pub(crate) fn manifest_told(alloc: Global, bytes: &[u8]) -> Result<Manifest, NoMemory>
    requires { (contents : ℕ) × TellsLoads bytes.now contents }
    ensures found { IfOk result (λ m. (loads : List LoadEntry) → Spelled manifest bytes.now loads
        → loads ≡ manifest_view m) }
    ensures spelled { IfOk result (λ m. Spelled manifest bytes.now (manifest_view m)) }
    ensures fits { IfOk result (λ m. FitsALayout (manifest_view m)) }
{
    match Manifest::decode(alloc, bytes) {
        Ok(manifest) => Ok(manifest),
        Err(ManifestFault::Memory) => Err(NoMemory),
        // The premise says that this is a manifest.
        Err(ManifestFault::Wrong(_)) => unreachable!(),
    }
}

/// The bytes of the manifest that the slot names, whose files have as many bytes as stand before
/// it.
fn manifest_bytes_on<K: Disk>(
    alloc: Global,
    disk: &mut K,
    bank_size: u32,
    slot: &SlotFields,
) -> Result<Bytes, RecoverFault>
    requires running { IsRunning (K.state disk.old) }
    requires can_be { CanNameManifest bank_size slot.now }
    ensures bytes { IfOk result (λ bytes. ForSome (K.state disk.old).reads
        (λ image. bytes.items ≡ range image
        (bank_at bank_size slot.now.bank + slot.now.manifest.offset) slot.now.manifest.length)) }
    ensures tells { IfOk result (λ bytes. TellsLoads bytes.items slot.now.manifest.offset) }
    ensures refused { IfErr result (λ fault. ForSome (K.state disk.old).reads
        (λ image. RefusesManifest image (bank_at bank_size slot.now.bank + slot.now.manifest.offset)
        slot.now.manifest.length slot.now.manifest.offset fault)) }
    ensures of_slot { IfErr result (λ fault. IsOfSlot fault) }
    ensures reads_disk { ReadsDisk (K.state disk.old) (K.state disk.new) result }
{
    let start = Bank::numbered(slot.bank).offset(bank_size) + slot.manifest.offset;
    let bytes = bytes_on(alloc, disk, start, slot.manifest.length)?;
    check_manifest(alloc, bytes.as_slice(), start, slot.manifest.offset)?;
    Ok(bytes)
}

/// These bytes, which begin at an offset of the disk, are a manifest, and the files of its loads
/// have this many bytes together.
fn check_manifest(
    alloc: Global,
    bytes: &[u8],
    start: u32,
    contents: u32,
) -> Result<(), RecoverFault>
    ensures tells { OnOk result (TellsLoads bytes.now contents) }
    ensures refused { IfErr result (λ fault. RefusesLoads bytes.now start contents fault) }
    ensures not_disk { ¬ IsErrOf result DiskFailed }
{
    match left_after_loads(alloc, bytes, contents) {
        Ok(left) if left == Some(0) => Ok(()),
        Ok(_) => Err(RecoverFault::BadManifest(u64::from(start))),
        Err(ManifestFault::Wrong(offset)) => {
            Err(RecoverFault::BadManifest(u64::from(start) + offset))
        }
        Err(ManifestFault::Memory) => Err(RecoverFault::Memory),
    }
}

/// How many of this many bytes are left after the files of a manifest's loads; `None` where they
/// have more.
fn left_after_loads(alloc: Global, bytes: &[u8], space: u32) -> Result<Option<u32>, ManifestFault>
    ensures space { IfOk result (λ left. LeftAfterLoads bytes.now space left) }
    ensures refused { IfErr result (λ fault. RefusesManifestBytes bytes.now fault) }
{
    let mut loads = ManifestReader::new(bytes)?;
    let mut left = Some(space);
    let count = loads.left();
    for _ in 0..count {
        let load = loads.next_load(alloc)?;
        // Where there is no space left, a fault of a later load still comes first.
        left = left_after_load(left, load.files.as_slice());
    }
    loads.end()?;
    Ok(left)
}

/// How many are left after these files too.
fn left_after_load(left: Option<u32>, files: &[ManifestFile]) -> Option<u32>
    ensures { (space total : ℕ) → IsLeftAfter space total left
        → IsLeftAfter space (total + entries_length files.now) result }
{
    match left {
        Some(space) => left_after_files(files, space),
        None => None,
    }
}

/// How many are left after these; `None` where they have more.
fn left_after_files(files: &[ManifestFile], bytes: u32) -> Option<u32>
    ensures some { IfSome result (λ rest. entries_length files.now + rest ≡ bytes) }
    ensures none { IfNone result (bytes < entries_length files.now) }
{
    let mut rest = bytes;
    for file in files {
        rest = rest.checked_sub(file.length)?;
    }
    Some(rest)
}
