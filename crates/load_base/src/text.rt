//! Texts that people read.
ghost use Rattle.std.specs.Prelude.{◌≡◌, ◌⊎◌, ◌<◌, [], IsOk, IfOk, IfErr, IfSome, IfNone, IsErrOf};
ghost use Rattle.load_base.specs.Bytes.{AllGood, IsFirstBad};
ghost use Rattle.load_base.specs.Text.{IsText, IsTextFault, is_printable as is_good};
ghost use Rattle.load_base.specs.Verdicts.{judged, text_fault_of};
ghost use Rattle.load_base.specs.declared.text.TextFault.TheVariants.{Memory};

use crate::{Bytes, Ident, Name, NoMemory, PartText};
use std::alloc::Global;
use std::marker::Model;

/// Why bytes are no [`Text`].
#[derive(Clone, Copy, Debug, PartialEq, Eq)]
pub enum TextFault {
    /// X1: more than 255 bytes. Their number.
    TooLong(u64),
    /// X2: a byte that isn't 0x20 to 0x7E. Its offset.
    BadByte(u64),
    /// Out of memory.
    Memory,
}

impl From<NoMemory> for TextFault {
    ghost from_gives = { λ _ fault. fault ≡ Memory };

    fn from(_: NoMemory) -> TextFault {
        TextFault::Memory
    }
}

/// A description, a type name or the like: 0 to 255 bytes 0x20 to 0x7E.
#[derive(Drop)]
pub struct Text {
    bytes: Bytes,
}

impl Model for Text {
    ghost use Rattle.std.specs.Prelude.{List, ℕ};
    ghost use Rattle.load_base.specs.Text.{IsText};

    ghost Value = { List ℕ };

    ghost view = { λ text. text.bytes.items };

    ghost invariant = { λ text. IsText text.bytes.items };
}

impl Text {
    /// Reads a whole text. Its length is tested first, and then its bytes in their order.
    #[tactic(auto, using(crate::proofs::Judged::text_judgements))]
    pub fn read(alloc: Global, bytes: &[u8]) -> Result<Text, TextFault>
        ensures found { IfOk result (λ text. (text ≡ bytes.now) × IsText bytes.now) }
        ensures only { IsText bytes.now → ¬ IsErrOf result Memory → IsOk result }
        ensures refused { IfErr result (λ fault. IsTextFault bytes.now fault) }
        ensures judged { IsErrOf result Memory ⊎ (result ≡ judged text_fault_of bytes.now) }
    {
        if bytes.len() > 255 {
            return Err(TextFault::TooLong(bytes.len() as u64));
        }
        if let Some(offset) = first_bad(bytes) {
            return Err(TextFault::BadByte(offset as u64));
        }
        Ok(Text::copy_of(alloc, bytes)?)
    }

    /// The name of a file, as a text.
    #[tactic(auto, using(crate::proofs::TextLemmas::name_is_text))]
    pub fn of_name(alloc: Global, name: &Name) -> Result<Text, NoMemory>
        ensures { IfOk result (λ text. text ≡ name.now) }
    {
        Text::copy_of(alloc, name.as_slice())
    }

    /// The name of a target or of its hardware or position, as a text.
    #[tactic(auto, using(crate::proofs::TextLemmas::ident_is_text))]
    pub fn of_ident(alloc: Global, ident: &Ident) -> Result<Text, NoMemory>
        ensures { IfOk result (λ text. text ≡ ident.now) }
    {
        Text::copy_of(alloc, ident.as_slice())
    }

    /// A part number, as a text.
    #[tactic(auto, using(crate::proofs::TextLemmas::part_text_is_text))]
    pub fn of_part(alloc: Global, part: &PartText) -> Result<Text, NoMemory>
        ensures { IfOk result (λ text. text ≡ part.now) }
    {
        Text::copy_of(alloc, part.as_slice())
    }

    /// A text of these bytes, which are known to be one.
    pub fn copy_of(alloc: Global, bytes: &[u8]) -> Result<Text, NoMemory>
        requires { IsText bytes.now }
        ensures { IfOk result (λ text. text ≡ bytes.now) }
    {
        let bytes = Bytes::copy_of(alloc, bytes)?;
        Ok(Text::of_printable(bytes))
    }

    /// The same text again.
    pub fn copy(&self, alloc: Global) -> Result<Text, NoMemory>
        ensures { IfOk result (λ copy. copy ≡ self.now) }
    {
        Text::copy_of(alloc, self.as_slice())
    }

    /// The text of no bytes. It takes no memory yet.
    pub fn empty(alloc: Global) -> Text
        ensures { result ≡ [] }
    {
        Text {
            bytes: Bytes::new(alloc),
        }
    }

    /// The text of these bytes, which are known to be one. It takes no memory.
    pub fn of_printable(bytes: Bytes) -> Text
        requires { IsText bytes.items }
        ensures { result ≡ bytes.items }
    {
        Text { bytes }
    }

    /// Its bytes.
    pub fn as_slice(&self) -> &[u8]
        ensures bytes { result.now ≡ self.now }
        ensures is_text { IsText self.now }
    {
        self.bytes.as_slice()
    }
}

impl PartialEq for Text {
    ghost use Rattle.std.specs.Cmp.{partial_equiv_from_equiv};
    ghost use Rattle.std.specs.Cmp.Lexicographic.{nat_list_eq_equiv};
    ghost use Rattle.load_base.specs.Bytes.{same_bytes};

    ghost eq = { same_bytes };

    ghost laws = { partial_equiv_from_equiv nat_list_eq_equiv };

    fn eq(&self, other: &Text) -> bool {
        self.as_slice() == other.as_slice()
    }
}

impl Eq for Text {
    ghost use Rattle.std.specs.Cmp.Lexicographic.{nat_list_eq_equiv};

    ghost laws = { nat_list_eq_equiv };
}

/// The offset of the first byte that no Text has.
fn first_bad(bytes: &[u8]) -> Option<usize>
    ensures none { IfNone result (AllGood is_good bytes.now) }
    ensures first { IfSome result (λ offset. IsFirstBad is_good bytes.now offset) }
{
    bytes.iter().position(|byte| !is_printable(*byte))
}

fn is_printable(byte: u8) -> bool
    ensures { result ≡ is_good byte }
{
    matches!(byte, 0x20..=0x7E)
}
