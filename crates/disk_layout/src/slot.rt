//! What a slot of a disk says, and how it stands there.
ghost use Rattle.std.specs.Prelude.{◌≡◌, ◌↔◌, ◌≤◌, ℕ, length, IsTrue};
ghost use Rattle.disk_model.specs.Image.{Image, range};
ghost use Rattle.disk_layout.specs.Slots.{IsSlotAt, slot_body_bytes};

use crate::ManifestRange;
use crate::numbers::u32_bytes;
use crate::offsets::{OPEN, SLOT_LENGTH};
use byteorder::{BigEndian, ByteOrder};

/// What a slot says, whatever that is.
#[derive(Clone, Copy, Debug, PartialEq, Eq)]
pub struct SlotFields {
    /// The slot is open exactly where this is [`crate::offsets::OPEN`].
    pub gate: u8,
    pub sequence: u32,
    /// The number of the bank that it names, which may be none.
    pub bank: u8,
    /// Where in that bank the manifest stands.
    pub manifest: ManifestRange,
}

impl SlotFields {
    /// What the bytes of a slot say.
    pub fn decode(bytes: &[u8]) -> SlotFields
        requires { length bytes.now ≡ SLOT_LENGTH }
        ensures { (image : Image) (at : ℕ) → bytes.now ≡ range image at 29
            → IsSlotAt image at result }
    {
        SlotFields {
            gate: bytes[0],
            sequence: BigEndian::read_u32(&bytes[16..20]),
            bank: bytes[20],
            manifest: ManifestRange {
                offset: BigEndian::read_u32(&bytes[21..25]),
                length: BigEndian::read_u32(&bytes[25..29]),
            },
        }
    }

    /// Whether slot A, which says this, is active: it is open, and slot B isn't both open and of a
    /// greater sequence.
    pub fn is_active_over(&self, b: &SlotFields) -> bool
        ensures { IsTrue result ↔ ((self.now.gate ≡ OPEN)
            × (b.now.gate ≡ OPEN → b.now.sequence ≤ self.now.sequence)) }
    {
        self.gate == OPEN && (b.gate != OPEN || b.sequence <= self.sequence)
    }

    /// The body of a slot that says this, from its sequence number on, which is read as it again
    /// ([`crate::a_slot_is_read_again`]).
    #[tactic(auto, unfolding(field_grammar::specs::Fields::number_bytes))]
    pub fn encode_body(&self) -> [u8; 13]
        ensures { result ≡ slot_body_bytes self.now.sequence self.now.bank self.now.manifest }
    {
        let [s0, s1, s2, s3] = u32_bytes(self.sequence);
        let [p0, p1, p2, p3] = u32_bytes(self.manifest.offset);
        let [l0, l1, l2, l3] = u32_bytes(self.manifest.length);
        [s0, s1, s2, s3, self.bank, p0, p1, p2, p3, l0, l1, l2, l3]
    }
}
