//! The names of targets: of their hardware, their positions and themselves.
ghost use Rattle.std.specs.Prelude.{◌≡◌, IsOk, IfOk, IfErr, IfSome, IfNone};
ghost use Rattle.load_base.specs.Bytes.{AllGood, IsFirstBad};
ghost use Rattle.load_base.specs.Ident.{IsIdent, IsIdentFault, is_ident_byte as is_good};
ghost use Rattle.load_base.specs.Verdicts.{judged, ident_fault_of};

use crate::padded::Padded;
use std::marker::Model;

/// Why bytes are no [`Ident`].
#[derive(Clone, Copy, Debug, PartialEq, Eq)]
pub enum IdentFault {
    /// I1: not 1 to 20 bytes. Their number.
    Length(u64),
    /// I2: a byte that no Ident has. Its offset.
    BadByte(u64),
}

/// The name of a kind of hardware, of a position or of one target: 1 to 20 bytes, each `A` to `Z`,
/// `0` to `9` or `-`.
#[derive(Clone, Copy)]
pub struct Ident {
    text: Padded<20>,
}

impl Model for Ident {
    ghost use Rattle.std.specs.Prelude.{List, ℕ};
    ghost use Rattle.load_base.specs.Ident.{IsIdent};

    ghost Value = { List ℕ };

    ghost view = { λ ident. ident.text };

    ghost invariant = { λ ident. IsIdent ident.text };

    ghost inverse = { λ text. record { text = text } };
}

impl Ident {
    /// Reads a whole text. Its length is tested first, and then its bytes in their order.
    #[tactic(auto, using(crate::proofs::Judged::ident_judgements))]
    pub fn read(bytes: &[u8]) -> Result<Ident, IdentFault>
        ensures found { IfOk result (λ ident. (ident ≡ bytes.now) × IsIdent bytes.now) }
        ensures only { IsIdent bytes.now → IsOk result }
        ensures refused { IfErr result (λ fault. IsIdentFault bytes.now fault) }
        ensures judged { result ≡ judged ident_fault_of bytes.now }
    {
        if bytes.is_empty() || bytes.len() > 20 {
            return Err(IdentFault::Length(bytes.len() as u64));
        }
        match first_bad(bytes) {
            Some(offset) => Err(IdentFault::BadByte(offset as u64)),
            None => Ok(Ident {
                text: Padded::new(bytes),
            }),
        }
    }

    /// Its bytes.
    pub fn as_slice(&self) -> &[u8]
        ensures bytes { result.now ≡ self.now }
        ensures is_ident { IsIdent self.now }
    {
        self.text.as_slice()
    }
}

impl PartialEq for Ident {
    ghost use Rattle.std.specs.Cmp.{partial_equiv_from_equiv};
    ghost use Rattle.std.specs.Cmp.Lexicographic.{nat_list_eq_equiv};
    ghost use Rattle.load_base.specs.Bytes.{same_bytes};

    ghost eq = { same_bytes };

    ghost laws = { partial_equiv_from_equiv nat_list_eq_equiv };

    fn eq(&self, other: &Ident) -> bool {
        self.as_slice() == other.as_slice()
    }
}

impl Eq for Ident {
    ghost use Rattle.std.specs.Cmp.Lexicographic.{nat_list_eq_equiv};

    ghost laws = { nat_list_eq_equiv };
}

/// The offset of the first byte that no Ident has.
fn first_bad(bytes: &[u8]) -> Option<usize>
    ensures none { IfNone result (AllGood is_good bytes.now) }
    ensures first { IfSome result (λ offset. IsFirstBad is_good bytes.now offset) }
{
    bytes.iter().position(|byte| !is_ident_byte(*byte))
}

fn is_ident_byte(byte: u8) -> bool
    ensures { result ≡ is_good byte }
{
    matches!(byte, b'A'..=b'Z' | b'0'..=b'9' | b'-')
}
