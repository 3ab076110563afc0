//! The pieces as they are read.
ghost use Rattle.std.specs.Prelude.{◌≡◌};
ghost use Rattle.field_grammar.specs.Answers.{Decodes, AnswersAs};
ghost use Rattle.load_base.specs.declared.text.TextFault.TheVariants as texts_faults;
ghost use Rattle.header_sections.specs.Sections.{text, name, part, texts, text_verdict};
ghost use Rattle.header_sections.specs.Sections.{name_verdict, part_verdict, start, section_at};
ghost use Rattle.header_sections.specs.Sections.{user_data, end};
ghost use Rattle.header_sections.specs.declared.fault.SectionFault.TheVariants.{Memory};

use crate::fault::SectionFault;
use field_codec::Reader;
use load_base::{Bytes, List, Name, Text, TextFault};
use part_number::PartNumber;
use std::alloc::Global;

// ---- the start

/// The length in words, 4 bytes, which must be that of the whole, and the version, 2 bytes.
#[tactic(auto, unfolding(crate::specs::Sections::start))]
pub fn read_start(reader: &mut Reader, version: u16) -> Result<u32, SectionFault>
    ensures { Decodes Memory (λ n. n) (start version) reader.old result reader.new }
{
    let found = reader.left() as u64;
    let words = reader.take_u32()?;
    let said = u64::from(words);
    if 2 * said != found {
        return Err(SectionFault::Length { said, found });
    }
    let here = reader.take_u16()?;
    if here != version {
        return Err(SectionFault::Version(u64::from(here)));
    }
    Ok(words)
}

// ---- sections

/// Tests that the reader is at word `said`, which is pointer `which` to a section. It reads
/// nothing.
#[tactic(auto, unfolding(crate::specs::Sections::section_at, field_grammar::specs::Fields::section))]
pub fn test_section(reader: &mut Reader, which: u64, said: u32) -> Result<(), SectionFault>
    ensures { Decodes Memory (λ u. u) (section_at which said) reader.old result reader.new }
{
    let said = u64::from(said);
    let expected = reader.place() as u64 / 2;
    if said == expected {
        Ok(())
    } else {
        Err(SectionFault::Pointer {
            which,
            said,
            expected,
        })
    }
}

/// The section of user data: its length in words, 2 bytes, and the bytes.
#[tactic(auto, unfolding(crate::specs::Sections::user_data))]
pub fn read_user_data(
    alloc: Global,
    reader: &mut Reader,
    which: u64,
    said: u32,
) -> Result<Bytes, SectionFault>
    ensures { Decodes Memory (λ b. b.items) (user_data which said) reader.old result reader.new }
{
    test_section(reader, which, said)?;
    let words = reader.take_u16()? as usize;
    let bytes = reader.take_raw(2 * words)?;
    Ok(Bytes::copy_of(alloc, bytes)?)
}

// ---- texts

/// A padded text. Its bytes are tested before its pad is read.
#[tactic(auto, unfolding(crate::specs::Sections::text))]
pub fn read_text(alloc: Global, reader: &mut Reader) -> Result<Text, SectionFault>
    ensures { Decodes Memory (λ t. t) text reader.old result reader.new }
{
    let size = reader.take_u16()? as usize;
    let offset = reader.place() as u64;
    let bytes = reader.take_raw(size)?;
    let text = text_of(alloc, bytes, offset)?;
    reader.take_pad(size)?;
    Ok(text)
}

/// A padded file name.
#[tactic(auto, unfolding(crate::specs::Sections::name))]
pub fn read_name(reader: &mut Reader) -> Result<Name, SectionFault>
    ensures { Decodes Memory (λ t. t) name reader.old result reader.new }
{
    let size = reader.take_u16()? as usize;
    let offset = reader.place() as u64;
    let bytes = reader.take_raw(size)?;
    let name = name_of(bytes, offset)?;
    reader.take_pad(size)?;
    Ok(name)
}

/// A padded part number.
#[tactic(auto, unfolding(crate::specs::Sections::part))]
pub fn read_part(reader: &mut Reader) -> Result<PartNumber, SectionFault>
    ensures { Decodes Memory (λ t. t) part reader.old result reader.new }
{
    let size = reader.take_u16()? as usize;
    let offset = reader.place() as u64;
    let bytes = reader.take_raw(size)?;
    let part = part_of(bytes, offset)?;
    reader.take_pad(size)?;
    Ok(part)
}

/// `count` padded texts.
#[tactic(auto, using(field_grammar::proofs::LoopLemmas::goes_on, field_grammar::proofs::LoopLemmas::ends, field_grammar::proofs::LoopLemmas::is_done, field_grammar::proofs::LoopLemmas::begins))]
pub fn read_texts(
    alloc: Global,
    reader: &mut Reader,
    count: usize,
) -> Result<List<Text>, SectionFault>
    ensures { Decodes Memory (λ l. l.items) (texts count) reader.old result reader.new }
{
    let mut texts = List::new(alloc);
    for _ in 0..count {
        texts.push(read_text(alloc, reader)?)?;
    }
    Ok(texts)
}

/// The text that these bytes are, or the fault of the text whose bytes stand at this offset.
#[tactic(auto, using(load_base::proofs::VerdictLemmas::read_judged, load_base::proofs::VerdictLemmas::refused_judged))]
fn text_of(alloc: Global, bytes: &[u8], offset: u64) -> Result<Text, SectionFault>
    ensures { AnswersAs Memory (λ t. t) result (text_verdict offset bytes.now) }
{
    match Text::read(alloc, bytes) {
        Ok(text) => Ok(text),
        Err(fault) => Err(text_refused(fault, offset)),
    }
}

fn text_refused(fault: TextFault, offset: u64) -> SectionFault
    ensures memory { fault ≡ texts_faults.Memory → result ≡ Memory }
    ensures refused { ¬ (fault ≡ texts_faults.Memory) → result ≡ SectionFault.Text offset fault }
{
    match fault {
        TextFault::Memory => SectionFault::Memory,
        fault => SectionFault::Text { offset, fault },
    }
}

#[tactic(auto, using(load_base::proofs::VerdictLemmas::read_judged, load_base::proofs::VerdictLemmas::refused_judged))]
fn name_of(bytes: &[u8], offset: u64) -> Result<Name, SectionFault>
    ensures { AnswersAs Memory (λ t. t) result (name_verdict offset bytes.now) }
{
    match Name::read(bytes) {
        Ok(name) => Ok(name),
        Err(fault) => Err(SectionFault::Name { offset, fault }),
    }
}

#[tactic(auto, using(load_base::proofs::VerdictLemmas::read_judged, load_base::proofs::VerdictLemmas::refused_judged))]
fn part_of(bytes: &[u8], offset: u64) -> Result<PartNumber, SectionFault>
    ensures { AnswersAs Memory (λ t. t) result (part_verdict offset bytes.now) }
{
    match PartNumber::read(bytes) {
        Ok(part) => Ok(part),
        Err(fault) => Err(SectionFault::Part { offset, fault }),
    }
}

// ---- the end

/// Tests that nothing is left, and then that the check sum `said`, which was read, is `found`,
/// which was computed.
#[tactic(auto, unfolding(crate::specs::Sections::end))]
pub fn test_end(reader: &mut Reader, said: u16, found: u16) -> Result<(), SectionFault>
    ensures { Decodes Memory (λ u. u) (end said found) reader.old result reader.new }
{
    if reader.left() != 0 {
        return Err(SectionFault::Rest(reader.place() as u64));
    }
    if said == found {
        Ok(())
    } else {
        Err(SectionFault::Sum {
            said: u64::from(said),
            found: u64::from(found),
        })
    }
}
