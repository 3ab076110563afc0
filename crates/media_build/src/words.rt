//! The words of a line of a recipe.
ghost use Rattle.std.specs.Prelude.{◌≡◌, ◌≤◌, true, IfOk};
ghost use Rattle.std.specs.List.{list_all};
ghost use Rattle.field_grammar.specs.Answers.{AnswersAs};
ghost use Rattle.load_base.specs.PartText.{is_graphic as is_graphic_byte};
ghost use Rattle.media_build.specs.Recipes.{number_word, part_word, text_word, name_word};
ghost use Rattle.media_build.specs.Recipes.{user_word, is_graphic_word, ident_word};
ghost use Rattle.media_build.specs.Recipes.{is_header_name as is_header, is_body_name as is_body};
ghost use Rattle.media_build.specs.Recipes.{is_batch_name as is_batch, ends_with as has_end};
ghost use Rattle.media_build.specs.declared.fault.RecipeFault.TheVariants.{Memory};

use crate::fault::RecipeFault;
use crate::statements::UserData;
use hex::FromHexError;
use load_base::{Bytes, Ident, Name, NoMemory, Text};
use part_number::PartNumber;
use std::alloc::Global;
use text_words::decimal_in;

/// The most bytes of a type name, a hardware, a position or the part of a file.
pub(crate) const LONGEST_TEXT: usize = 64;

/// The most bytes of the host's name of a source.
pub(crate) const LONGEST_SOURCE: usize = 150;

/// A decimal number in this range.
pub(crate) fn number(line: u64, word: &[u8], low: u16, high: u16) -> Result<u16, RecipeFault>
    ensures said { AnswersAs Memory (λ number. number) result (number_word line low high word.now) }
    ensures within { IfOk result (λ number. number ≤ high) }
{
    match decimal_in(word, u32::from(low), u32::from(high)) {
        Some(number) => Ok(number as u16),
        None => Err(RecipeFault::Number(line)),
    }
}

#[tactic(auto, unfolding(crate::specs::Recipes::part_word), using(load_base::proofs::VerdictLemmas::read_judged, load_base::proofs::VerdictLemmas::refused_judged))]
pub(crate) fn part(line: u64, word: &[u8]) -> Result<PartNumber, RecipeFault>
    ensures { AnswersAs Memory (λ part. part) result (part_word line word.now) }
{
    match PartNumber::read(word) {
        Ok(part) => Ok(part),
        Err(_) => Err(RecipeFault::Part(line)),
    }
}

#[tactic(auto, unfolding(crate::specs::Recipes::name_word), using(load_base::proofs::VerdictLemmas::read_judged, load_base::proofs::VerdictLemmas::refused_judged))]
pub(crate) fn name(line: u64, word: &[u8]) -> Result<Name, RecipeFault>
    ensures { AnswersAs Memory (λ name. name) result (name_word line word.now) }
{
    match Name::read(word) {
        Ok(name) => Ok(name),
        Err(_) => Err(RecipeFault::Name(line)),
    }
}

/// The hardware or the position of a target.
#[tactic(auto, unfolding(crate::specs::Recipes::ident_word), using(load_base::proofs::VerdictLemmas::read_judged, load_base::proofs::VerdictLemmas::refused_judged))]
pub(crate) fn ident(line: u64, word: &[u8]) -> Result<Ident, RecipeFault>
    ensures { AnswersAs Memory (λ ident. ident) result (ident_word line word.now) }
{
    match Ident::read(word) {
        Ok(ident) => Ok(ident),
        Err(_) => Err(RecipeFault::Name(line)),
    }
}

/// 1 to `most` bytes 0x21 to 0x7E.
#[tactic(auto, unfolding(crate::specs::Recipes::text_word))]
pub(crate) fn text(alloc: Global, line: u64, most: usize, word: &[u8]) -> Result<Text, RecipeFault>
    requires { most ≤ 255 }
    ensures { AnswersAs Memory (λ text. text) result (text_word line most word.now) }
{
    if is_graphic_text(word, most) {
        Ok(text_of(alloc, word, most)?)
    } else {
        Err(RecipeFault::Name(line))
    }
}

#[tactic(auto, using(crate::proofs::Texts::graphic_is_text))]
fn text_of(alloc: Global, word: &[u8], most: usize) -> Result<Text, NoMemory>
    requires short { most ≤ 255 }
    requires graphic { is_graphic_word most word.now ≡ true }
    ensures { IfOk result (λ text. text ≡ word.now) }
{
    let mut bytes = Bytes::new(alloc);
    bytes.extend(word)?;
    Ok(Text::of_printable(bytes))
}

fn is_graphic_text(word: &[u8], most: usize) -> bool
    ensures { result ≡ is_graphic_word most word.now }
{
    !word.is_empty() && word.len() <= most && is_graphic(word)
}

fn is_graphic(word: &[u8]) -> bool
    ensures { result ≡ list_all is_graphic_byte word.now }
{
    word.iter().all(|byte| matches!(*byte, 0x21..=0x7E))
}

/// The name of a header.
pub(crate) fn is_header_name(name: &[u8]) -> bool
    ensures { result ≡ is_header name.now }
{
    ends_with(name, b".LUH")
}

/// The name of a data or support file.
pub(crate) fn is_body_name(name: &[u8]) -> bool
    ensures { result ≡ is_body name.now }
{
    !ends_with(name, b".LUH") && !ends_with(name, b".LUM")
}

/// The name of a batch's file.
pub(crate) fn is_batch_name(name: &[u8]) -> bool
    ensures { result ≡ is_batch name.now }
{
    ends_with(name, b".LUB")
}

#[tactic(auto, unfolding(crate::specs::Recipes::ends_with))]
fn ends_with(name: &[u8], end: &[u8]) -> bool
    ensures { result ≡ has_end end.now name.now }
{
    &name[name.len().saturating_sub(end.len())..] == end
}

/// Some multiple of four hexadecimal digits, as bytes.
#[tactic(auto, unfolding(crate::specs::Recipes::user_word))]
pub(crate) fn user(alloc: Global, line: u64, word: &[u8]) -> Result<UserData, RecipeFault>
    ensures { AnswersAs Memory (λ user. user) result (user_word line word.now) }
{
    if word.is_empty() || word.len() % 4 != 0 {
        return Err(RecipeFault::Hex(line));
    }
    match hex::decode(alloc, word) {
        Ok(bytes) => Ok(UserData::new(bytes)),
        Err(FromHexError::OutOfMemory) => Err(RecipeFault::Memory),
        Err(_) => Err(RecipeFault::Hex(line)),
    }
}
