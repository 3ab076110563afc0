//! What single words of a line say, but for numbers.
ghost use Rattle.std.specs.Prelude.{◌≡◌, IfOk};
ghost use Rattle.exchange_trace.specs.Scripts as scripts;
ghost use Rattle.exchange_trace.specs.declared.fault.ScriptFault.TheVariants.{Memory};
ghost use Rattle.field_grammar.specs.Answers.{AnswersAs};
ghost use Rattle.link_net.specs.Reading.{words_in};

use exchange_trace::{ScriptFault, Side};
use hex::FromHexError;
use load_base::{Bytes, Ident, List, NoMemory, PartText};
use std::alloc::Global;
use text_words::cut;

/// The most hexadecimal digits of a payload.
const MOST_DIGITS: usize = 130_936;

/// The hardware or the position of a target.
pub fn ident_in(line: u64, word: &[u8]) -> Result<Ident, ScriptFault>
    ensures { result ≡ scripts.ident_word line word.now }
{
    match Ident::read(word) {
        Ok(ident) => Ok(ident),
        Err(_) => Err(ScriptFault::Name(line)),
    }
}

/// The part numbers that the words of a text are.
pub fn parts_in(alloc: Global, line: u64, text: &[u8]) -> Result<List<PartText>, ScriptFault>
    ensures { AnswersAs Memory (λ parts. parts.items) result
        (scripts.part_words line (words_in text.now)) }
{
    let mut parts = List::new(alloc);
    let mut left = Some(text);
    while let Some(text) = left {
        let (word, rest) = cut(text, b' ');
        parts.push(part_in(line, word)?)?;
        left = rest;
    }
    Ok(parts)
}

/// The part number that the word is.
pub fn part_in(line: u64, word: &[u8]) -> Result<PartText, ScriptFault>
    ensures { result ≡ scripts.part_word line word.now }
{
    match PartText::read(word) {
        Ok(part) => Ok(part),
        Err(_) => Err(ScriptFault::Name(line)),
    }
}

/// The side of this name.
pub fn side_in(line: u64, word: &[u8]) -> Result<Side, ScriptFault>
    ensures { result ≡ scripts.side_word line word.now }
{
    if word == b"loader".as_slice() {
        Ok(Side::Loader)
    } else if word == b"target".as_slice() {
        Ok(Side::Target)
    } else {
        Err(ScriptFault::Word(line))
    }
}

/// The bytes that a word writes as hexadecimal digits.
pub fn payload_in(alloc: Global, line: u64, word: &[u8]) -> Result<Bytes, ScriptFault>
    ensures { AnswersAs Memory (λ bytes. bytes.items) result (scripts.bytes_word line word.now) }
{
    if word.len() < 2 || word.len() > MOST_DIGITS {
        return Err(ScriptFault::Hex(line));
    }
    match hex::decode(alloc, word) {
        Ok(bytes) => Ok(Bytes::copy_of(alloc, bytes.as_slice())?),
        Err(FromHexError::OutOfMemory) => Err(ScriptFault::Memory),
        Err(_) => Err(ScriptFault::Hex(line)),
    }
}
