//! The part numbers of loads, as text.
ghost use Rattle.std.specs.Prelude.{◌≡◌, IsOk, IfOk, IfErr, IfSome, IfNone};
ghost use Rattle.load_base.specs.Bytes.{AllGood, IsFirstBad};
ghost use Rattle.load_base.specs.PartText.{IsPartText, IsPartTextFault, is_graphic as is_good};
ghost use Rattle.load_base.specs.Verdicts.{judged, part_text_fault_of};

use std::hash::{Hash, Hasher};
use std::marker::Model;

/// Why bytes are no [`PartText`].
#[derive(Clone, Copy, Debug, PartialEq, Eq)]
pub enum PartTextFault {
    /// Y1: not 15 bytes. Their number.
    Length(u64),
    /// Y2: a byte that isn't 0x21 to 0x7E. Its offset.
    BadByte(u64),
}

/// A part number as it is written in a request, a manifest or a report: 15 bytes 0x21 to 0x7E. Its
/// check characters aren't tested.
#[derive(Clone, Copy)]
pub struct PartText {
    bytes: [u8; 15],
}

impl Model for PartText {
    ghost use Rattle.std.specs.Prelude.{List, ℕ};
    ghost use Rattle.load_base.specs.PartText.{IsPartText};

    ghost Value = { List ℕ };

    ghost view = { λ part. part.bytes };

    ghost invariant = { λ part. IsPartText part.bytes };

    ghost inverse = { λ text. record { bytes = text } };
}

impl PartText {
    /// Reads a whole text. Its length is tested first, and then its bytes in their order.
    #[tactic(auto, using(crate::proofs::Judged::part_text_judgements))]
    pub fn read(bytes: &[u8]) -> Result<PartText, PartTextFault>
        ensures found { IfOk result (λ part. (part ≡ bytes.now) × IsPartText bytes.now) }
        ensures only { IsPartText bytes.now → IsOk result }
        ensures refused { IfErr result (λ fault. IsPartTextFault bytes.now fault) }
        ensures judged { result ≡ judged part_text_fault_of bytes.now }
    {
        if bytes.len() != 15 {
            return Err(PartTextFault::Length(bytes.len() as u64));
        }
        if let Some(offset) = first_bad(bytes) {
            return Err(PartTextFault::BadByte(offset as u64));
        }
        let mut part = [0; 15];
        part.copy_from_slice(bytes);
        Ok(PartText { bytes: part })
    }

    /// Its bytes.
    pub fn as_slice(&self) -> &[u8]
        ensures bytes { result.now ≡ self.now }
        ensures is_part { IsPartText self.now }
    {
        &self.bytes
    }
}

impl PartialEq for PartText {
    ghost use Rattle.std.specs.Cmp.{partial_equiv_from_equiv};
    ghost use Rattle.std.specs.Cmp.Lexicographic.{nat_list_eq_equiv};
    ghost use Rattle.load_base.specs.Bytes.{same_bytes};

    ghost eq = { same_bytes };

    ghost laws = { partial_equiv_from_equiv nat_list_eq_equiv };

    fn eq(&self, other: &PartText) -> bool {
        self.as_slice() == other.as_slice()
    }
}

impl Eq for PartText {
    ghost use Rattle.std.specs.Cmp.Lexicographic.{nat_list_eq_equiv};

    ghost laws = { nat_list_eq_equiv };
}

impl Hash for PartText {
    ghost use Rattle.std.specs.Hash as fed;
    ghost use Rattle.std.specs.Cmp.Lexicographic.{bytes_decides};
    ghost use Rattle.std.proofs.Common.{ap};

    ghost hash_input = { λ part. fed.slice fed.u8 part };

    ghost respects_eq = { λ one other same. ap (fed.slice fed.u8)
        ((bytes_decides one other).0 same) };

    fn hash<H: Hasher>(&self, state: &mut H) {
        self.as_slice().hash(state);
    }
}

/// The offset of the first byte that no part number has.
fn first_bad(bytes: &[u8]) -> Option<usize>
    ensures none { IfNone result (AllGood is_good bytes.now) }
    ensures first { IfSome result (λ offset. IsFirstBad is_good bytes.now offset) }
{
    bytes.iter().position(|byte| !is_graphic(*byte))
}

fn is_graphic(byte: u8) -> bool
    ensures { result ≡ is_good byte }
{
    matches!(byte, 0x21..=0x7E)
}
