//! Reads the pieces that all protocol files are made of.
ghost use Rattle.std.specs.Prelude.{◌≡◌, length, if◌then◌else◌};
ghost use Rattle.field_grammar.specs.Answers.{Decodes, AnswersAs};
ghost use Rattle.load_protocol_files.specs.declared.fault.FileFault.TheVariants.{Memory};
ghost use Rattle.load_protocol_files.specs.Pieces.{text, name, part, ratio, text_verdict};
ghost use Rattle.load_protocol_files.specs.Pieces.{name_verdict, part_verdict, is_ratio};
ghost use Rattle.load_protocol_files.specs.Pieces.{ratio_value};
ghost use Rattle.load_protocol_files.specs.Files.{head, tail};

use crate::FileFault;
use field_codec::Reader;
use load_base::{Name, Text, TextFault};
use part_number::PartNumber;
use std::alloc::Global;

/// The file's length, which is that of all the bytes, and the version.
#[tactic(auto, unfolding(crate::specs::Files::head))]
pub(crate) fn head_of(reader: &mut Reader) -> Result<u32, FileFault>
    ensures { Decodes Memory (λ said. said) head reader.old result reader.new }
{
    let found = reader.left() as u64;
    let said = reader.take_u32()?;
    if said as u64 != found {
        return Err(FileFault::Length {
            said: said as u64,
            found,
        });
    }
    let version = reader.take_u16()?;
    if version != 0x4133 {
        return Err(FileFault::Version(version));
    }
    Ok(said)
}

/// Nothing more.
#[tactic(auto, unfolding(crate::specs::Files::tail))]
pub(crate) fn tail_of(reader: &mut Reader) -> Result<(), FileFault>
    ensures { Decodes Memory (λ unit. unit) tail reader.old result reader.new }
{
    if reader.left() != 0 {
        return Err(FileFault::Rest(reader.place() as u64));
    }
    Ok(())
}

/// A short text. A bad byte is refused before what follows the text.
#[tactic(auto, unfolding(crate::specs::Pieces::text))]
pub(crate) fn text_of(alloc: Global, reader: &mut Reader) -> Result<Text, FileFault>
    ensures { Decodes Memory (λ text. text) text reader.old result reader.new }
{
    let size = reader.take_u8()?;
    let offset = reader.place() as u64;
    let bytes = reader.take_raw(size as usize)?;
    let text = judge_text(alloc, offset, bytes)?;
    Ok(text)
}

#[tactic(auto, using(load_base::proofs::VerdictLemmas::read_judged, load_base::proofs::VerdictLemmas::refused_judged))]
fn judge_text(alloc: Global, offset: u64, bytes: &[u8]) -> Result<Text, FileFault>
    ensures { AnswersAs Memory (λ text. text) result (text_verdict offset bytes.now) }
{
    match Text::read(alloc, bytes) {
        Ok(text) => Ok(text),
        Err(TextFault::Memory) => Err(FileFault::Memory),
        Err(fault) => Err(FileFault::Text {
            place: offset,
            fault,
        }),
    }
}

/// A short text that is a file name.
#[tactic(auto, unfolding(crate::specs::Pieces::name))]
pub(crate) fn name_of(reader: &mut Reader) -> Result<Name, FileFault>
    ensures { Decodes Memory (λ name. name) name reader.old result reader.new }
{
    let size = reader.take_u8()?;
    let offset = reader.place() as u64;
    let bytes = reader.take_raw(size as usize)?;
    let name = judge_name(offset, bytes)?;
    Ok(name)
}

#[tactic(auto, using(load_base::proofs::VerdictLemmas::read_judged, load_base::proofs::VerdictLemmas::refused_judged))]
fn judge_name(offset: u64, bytes: &[u8]) -> Result<Name, FileFault>
    ensures { result ≡ name_verdict offset bytes.now }
{
    match Name::read(bytes) {
        Ok(name) => Ok(name),
        Err(fault) => Err(FileFault::Name {
            place: offset,
            fault,
        }),
    }
}

/// A short text that is a part number.
#[tactic(auto, unfolding(crate::specs::Pieces::part))]
pub(crate) fn part_of(reader: &mut Reader) -> Result<PartNumber, FileFault>
    ensures { Decodes Memory (λ part. part) part reader.old result reader.new }
{
    let size = reader.take_u8()?;
    let offset = reader.place() as u64;
    let bytes = reader.take_raw(size as usize)?;
    let part = judge_part(offset, bytes)?;
    Ok(part)
}

#[tactic(auto, using(load_base::proofs::VerdictLemmas::read_judged, load_base::proofs::VerdictLemmas::refused_judged))]
fn judge_part(offset: u64, bytes: &[u8]) -> Result<PartNumber, FileFault>
    ensures { result ≡ part_verdict offset bytes.now }
{
    match PartNumber::read(bytes) {
        Ok(part) => Ok(part),
        Err(fault) => Err(FileFault::Part {
            place: offset,
            fault,
        }),
    }
}

/// A ratio, as three digits.
#[tactic(auto, unfolding(crate::specs::Pieces::ratio))]
pub(crate) fn ratio_of(reader: &mut Reader) -> Result<u8, FileFault>
    ensures { Decodes Memory (λ ratio. ratio) ratio reader.old result reader.new }
{
    let offset = reader.place() as u64;
    let bytes = reader.take_raw(3)?;
    match value_of_digits(bytes) {
        Some(value) => Ok(value),
        None => Err(FileFault::Digits(offset)),
    }
}

/// What three digits say, where they say 100 at most.
fn value_of_digits(bytes: &[u8]) -> Option<u8>
    requires { length bytes.now ≡ 3 }
    ensures { result ≡ (if is_ratio bytes.now then Some (ratio_value bytes.now) else None) }
{
    let [hundreds, tens, ones] = [bytes[0], bytes[1], bytes[2]];
    if !hundreds.is_ascii_digit() || !tens.is_ascii_digit() || !ones.is_ascii_digit() {
        return None;
    }
    let value = 100 * (hundreds - b'0') as u16 + 10 * (tens - b'0') as u16 + (ones - b'0') as u16;
    if value <= 100 {
        Some(value as u8)
    } else {
        None
    }
}
