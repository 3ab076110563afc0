//! Laws of the configuration that a disk holds.
ghost use Rattle.std.specs.Prelude.{◌≡◌, ◌⊎◌, ◌↔◌, ◌<◌, ◌≤◌, ◌+◌, ◌^◌, ℕ, List, length};
ghost use Rattle.disk_model.specs.Image.{Image, IsOfBytes, range};
ghost use Rattle.field_grammar.specs.Grammar.{IsBytes, IsDecided, Spelled, Fault};
ghost use Rattle.disk_layout.specs.Offsets.{IsBankSize, longest_identity, longest_manifest};
ghost use Rattle.disk_layout.specs.Offsets.{most_loads, most_files, slot_a, slot_b, bank_at};
ghost use Rattle.disk_layout.specs.Offsets.{layout_mark, number_at};
ghost use Rattle.disk_layout.specs.Identity.{IsIdentity, identity_text, HasIdentity};
ghost use Rattle.disk_layout.specs.Slots.{IsOpen, HasBody, sequence_of, bank_of};
ghost use Rattle.disk_layout.specs.Slots.{manifest_offset_of, manifest_length_of};
ghost use Rattle.disk_layout.specs.Manifest.{LoadEntry, manifest, IsManifestText};
ghost use Rattle.disk_layout.specs.Holds.{StandingView, Outline, outline_of, HasOutline, HoldsBy};
ghost use Rattle.disk_layout.specs.Holds.{HoldsConfig, HasDiskFault};
ghost use Rattle.disk_layout.specs.declared.active.ManifestRange.{ManifestRange};
ghost use Rattle.disk_layout.specs.declared.fault.RecoverFault.{RecoverFault};
ghost use Rattle.disk_layout.specs.declared.identity.Identity.{Identity};
ghost use Rattle.disk_layout.specs.declared.manifest.ManifestFault.{ManifestFault};
ghost use Rattle.disk_layout.specs.declared.manifest.ManifestFault.TheVariants.{Wrong};

use crate::offsets::{
    BANK_IN_SLOT, BANKS, LARGEST_BANK, LAYOUT_MARK, LENGTH_IN_SLOT, LONGEST_IDENTITY,
    LONGEST_MANIFEST, MANIFEST_OFFSET_IN_SLOT, MOST_FILES, MOST_LOADS, OPEN, SEQUENCE_IN_SLOT,
    SLOT_A, SLOT_B, SLOT_LENGTH, SMALLEST_BANK,
};
use crc_fields::check_sum_laws;

/// Every image of bytes holds one configuration, or fails at one fault, and never both.
pub fn an_image_holds_one_configuration()
    ensures one_or_other { (image : Image) → IsOfBytes image
        → ((s : StandingView) × HoldsConfig image s) ⊎ ((f : RecoverFault) × HasDiskFault image f) }
    ensures not_both { (image : Image) (s : StandingView) (f : RecoverFault)
        → HoldsConfig image s → HasDiskFault image f → ⊥ }
    ensures one_standing { (image : Image) (s t : StandingView) → HoldsConfig image s
        → HoldsConfig image t → s ≡ t }
    ensures one_fault { (image : Image) (f g : RecoverFault) → HasDiskFault image f
        → HasDiskFault image g → f ≡ g }
{}

/// The text of an identity has at most 75 bytes, and where it stands at the start of a disk, the
/// disk has that identity.
pub fn an_identity_is_read_again()
    ensures short { (id : Identity) → IsIdentity id → length (identity_text id) ≤ longest_identity }
    ensures read { (image : Image) (id : Identity) → IsIdentity id
        → range image 0 (length (identity_text id)) ≡ identity_text id → HasIdentity image id }
{
    check_sum_laws();
}

/// Where the body of a slot stands that was written, the slot says this again.
pub fn a_slot_is_read_again()
    ensures sequence { (image : Image) (at sequence bank : ℕ) (manifest : ManifestRange)
        → HasBody image at sequence bank manifest → sequence < 2 ^ 32
        → sequence_of image at ≡ sequence }
    ensures bank { (image : Image) (at sequence bank : ℕ) (manifest : ManifestRange)
        → HasBody image at sequence bank manifest → bank_of image at ≡ bank }
    ensures offset { (image : Image) (at sequence bank : ℕ) (manifest : ManifestRange)
        → HasBody image at sequence bank manifest → manifest.offset < 2 ^ 32
        → manifest_offset_of image at ≡ manifest.offset }
    ensures length { (image : Image) (at sequence bank : ℕ) (manifest : ManifestRange)
        → HasBody image at sequence bank manifest → manifest.length < 2 ^ 32
        → manifest_length_of image at ≡ manifest.length }
{}

/// An image that has an outline holds a configuration of that outline: its files are what stands
/// before the manifest.
pub fn an_outline_is_filled()
    ensures { (image : Image) (slot : ℕ) (o : Outline) → HasOutline image slot o
        → (s : StandingView) × HoldsBy image slot s × (outline_of s ≡ o) }
{}

/// Bytes are one manifest, or fail at one of their offsets or at their end, and never because it is
/// out of memory. Loads have one manifest in each layout that can say them: the empty list has two,
/// any other one. `proofs/ManifestLemmas.antt` and `proofs/ManifestSpelling.antt` say the same to
/// proofs.
pub fn a_manifest_is_decided()
    ensures decided { (bytes : List ℕ) → IsBytes bytes → IsDecided manifest bytes }
    ensures spelling { (bytes : List ℕ) (loads : List LoadEntry)
        → Spelled manifest bytes loads ↔ IsManifestText bytes loads }
    ensures an_offset { (bytes : List ℕ) (fault : ManifestFault) → Fault manifest bytes fault
        → (offset : ℕ) × (fault ≡ Wrong offset) × (offset ≤ length bytes) }
{}

/// The constants of [`crate::offsets`] are those of the layout: one clause for each.
pub fn constants_are_those_of_the_layout()
    ensures identity { LONGEST_IDENTITY ≡ longest_identity }
    ensures bank_size { (size : ℕ)
        → IsBankSize size ↔ ((SMALLEST_BANK ≤ size) × (size ≤ LARGEST_BANK)) }
    ensures slots { (SLOT_A ≡ slot_a) × (SLOT_B ≡ slot_b) }
    ensures gate { (image : Image) (slot : ℕ) → IsOpen image slot ↔ (image slot ≡ OPEN) }
    ensures sequence { (image : Image) (slot : ℕ)
        → sequence_of image slot ≡ number_at 4 image (slot + SEQUENCE_IN_SLOT) }
    ensures bank { (image : Image) (slot : ℕ) → bank_of image slot ≡ image (slot + BANK_IN_SLOT) }
    ensures offset { (image : Image) (slot : ℕ)
        → manifest_offset_of image slot ≡ number_at 4 image (slot + MANIFEST_OFFSET_IN_SLOT) }
    ensures length { (image : Image) (slot : ℕ)
        → manifest_length_of image slot ≡ number_at 4 image (slot + LENGTH_IN_SLOT) }
    ensures slot_length { LENGTH_IN_SLOT + 4 ≡ SLOT_LENGTH }
    ensures banks { (size : ℕ) → bank_at size 0 ≡ BANKS }
    ensures second_bank { (size : ℕ) → bank_at size 1 ≡ BANKS + size }
    ensures manifest { LONGEST_MANIFEST ≡ longest_manifest }
    ensures mark { LAYOUT_MARK ≡ layout_mark }
    ensures counts { (MOST_LOADS ≡ most_loads) × (MOST_FILES ≡ most_files) }
{}
