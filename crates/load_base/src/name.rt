//! The names of files.
ghost use Rattle.std.specs.Prelude.{◌≡◌, IsOk, IfOk, IfErr, IfSome, IfNone};
ghost use Rattle.load_base.specs.Bytes.{AllGood, IsFirstBad};
ghost use Rattle.load_base.specs.Name.{IsName, IsNameFault, is_name_byte as is_good};
ghost use Rattle.load_base.specs.Verdicts.{judged, name_fault_of};

use crate::padded::Padded;
use std::hash::{Hash, Hasher};
use std::marker::Model;

/// Why bytes are no [`Name`].
#[derive(Clone, Copy, Debug, PartialEq, Eq)]
pub enum NameFault {
    /// N1: no byte at all.
    Empty,
    /// N2: more than 64 bytes.
    TooLong,
    /// N3: a byte that no Name has there. Its offset.
    BadByte(u64),
}

/// The name of a file of a load or a media set: 1 to 64 bytes 0x21 to 0x7E without `/` and `\`, of
/// which the first isn't `.`. So no name leads out of its folder.
#[derive(Clone, Copy)]
pub struct Name {
    text: Padded<64>,
}

impl Model for Name {
    ghost use Rattle.std.specs.Prelude.{List, ℕ};
    ghost use Rattle.load_base.specs.Name.{IsName};

    ghost Value = { List ℕ };

    ghost view = { λ name. name.text };

    ghost invariant = { λ name. IsName name.text };

    ghost inverse = { λ text. record { text = text } };
}

impl Name {
    /// Reads a whole text. Its length is tested first, and then its bytes in their order.
    #[tactic(auto, using(crate::proofs::Judged::name_judgements))]
    pub fn read(bytes: &[u8]) -> Result<Name, NameFault>
        ensures found { IfOk result (λ name. (name ≡ bytes.now) × IsName bytes.now) }
        ensures only { IsName bytes.now → IsOk result }
        ensures refused { IfErr result (λ fault. IsNameFault bytes.now fault) }
        ensures judged { result ≡ judged name_fault_of bytes.now }
    {
        if bytes.is_empty() {
            return Err(NameFault::Empty);
        }
        if bytes.len() > 64 {
            return Err(NameFault::TooLong);
        }
        if bytes[0] == b'.' {
            return Err(NameFault::BadByte(0));
        }
        match first_bad(bytes) {
            Some(offset) => Err(NameFault::BadByte(offset as u64)),
            None => Ok(Name {
                text: Padded::new(bytes),
            }),
        }
    }

    /// Its bytes.
    pub fn as_slice(&self) -> &[u8]
        ensures bytes { result.now ≡ self.now }
        ensures is_name { IsName self.now }
    {
        self.text.as_slice()
    }
}

impl PartialEq for Name {
    ghost use Rattle.std.specs.Cmp.{partial_equiv_from_equiv};
    ghost use Rattle.std.specs.Cmp.Lexicographic.{nat_list_eq_equiv};
    ghost use Rattle.load_base.specs.Bytes.{same_bytes};

    ghost eq = { same_bytes };

    ghost laws = { partial_equiv_from_equiv nat_list_eq_equiv };

    fn eq(&self, other: &Name) -> bool {
        self.as_slice() == other.as_slice()
    }
}

impl Eq for Name {
    ghost use Rattle.std.specs.Cmp.Lexicographic.{nat_list_eq_equiv};

    ghost laws = { nat_list_eq_equiv };
}

impl Hash for Name {
    ghost use Rattle.std.specs.Hash as fed;
    ghost use Rattle.std.specs.Cmp.Lexicographic.{bytes_decides};
    ghost use Rattle.std.proofs.Common.{ap};

    ghost hash_input = { λ name. fed.slice fed.u8 name };

    ghost respects_eq = { λ one other same. ap (fed.slice fed.u8)
        ((bytes_decides one other).0 same) };

    fn hash<H: Hasher>(&self, state: &mut H) {
        self.as_slice().hash(state);
    }
}

/// The offset of the first byte that no Name has.
fn first_bad(bytes: &[u8]) -> Option<usize>
    ensures none { IfNone result (AllGood is_good bytes.now) }
    ensures first { IfSome result (λ offset. IsFirstBad is_good bytes.now offset) }
{
    bytes.iter().position(|byte| !is_name_byte(*byte))
}

fn is_name_byte(byte: u8) -> bool
    ensures { result ≡ is_good byte }
{
    matches!(byte, 0x21..=0x7E) && byte != b'/' && byte != b'\\'
}
