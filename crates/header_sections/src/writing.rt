//! The pieces as they are written.
ghost use Rattle.std.specs.Prelude.{◌≡◌, ◌++◌, ◌/◌, ◌<◌, ◌^◌, length, IfOk, OnOk};
ghost use Rattle.std.specs.List.{concat, flat_map};
ghost use Rattle.crc_fields.specs.CheckSums.{crc16_of};
ghost use Rattle.field_grammar.specs.Fields.{number_bytes, padded_fields};
ghost use Rattle.header_sections.specs.SectionFields.{texts_fields, user_fields};

use crc_fields::crc16;
use field_codec::Writer;
use load_base::{Bytes, NoMemory, Text};
use std::alloc::Global;

/// A padded text.
pub fn put_text(out: &mut Writer, text: &Text) -> Result<(), NoMemory>
    ensures { OnOk result (out.new ≡ out.old ++ concat (padded_fields text.now)) }
{
    out.put_padded(text.as_slice())
}

/// A count, 2 bytes, and that many padded texts.
#[tactic(auto, unfolding(crate::specs::SectionFields::texts_fields))]
pub fn put_texts(out: &mut Writer, texts: &[Text]) -> Result<(), NoMemory>
    requires { length texts.now < 65536 }
    ensures { OnOk result (out.new ≡ out.old ++ concat (texts_fields texts.now)) }
{
    out.put_u16(texts.len() as u16)?;
    put_each_text(out, texts)?;
    Ok(())
}

fn put_each_text(out: &mut Writer, texts: &[Text]) -> Result<(), NoMemory>
    ensures { OnOk result (out.new ≡ out.old ++ concat (flat_map padded_fields texts.now)) }
{
    for text in texts {
        put_text(out, text)?;
    }
    Ok(())
}

/// The section of user data: its length in words, 2 bytes, and the bytes.
#[tactic(auto, unfolding(crate::specs::SectionFields::user_fields))]
pub fn put_user(out: &mut Writer, user: &[u8]) -> Result<(), NoMemory>
    requires { length user.now / 2 < 2 ^ 16 }
    ensures { OnOk result (out.new ≡ out.old ++ concat (user_fields user.now)) }
{
    out.put_u16((user.len() / 2) as u16)?;
    out.put_raw(user)?;
    Ok(())
}

/// The bytes, and their CRC-16 in 2 bytes after them.
pub fn with_check_sum(alloc: Global, covered: Bytes) -> Result<Bytes, NoMemory>
    ensures { IfOk result (λ bytes. bytes.items ≡ covered.items
        ++ number_bytes 2 (crc16_of covered.items)) }
{
    let mut whole = covered;
    let sum = number_of(alloc, crc16(whole.as_slice()))?;
    whole.extend(sum.as_slice())?;
    Ok(whole)
}

fn number_of(alloc: Global, value: u16) -> Result<Bytes, NoMemory>
    ensures { IfOk result (λ bytes. bytes.items ≡ number_bytes 2 value) }
{
    let mut out = Writer::new(alloc);
    out.put_u16(value)?;
    Ok(out.finish())
}
