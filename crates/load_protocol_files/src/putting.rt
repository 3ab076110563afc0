//! Writes the pieces that all protocol files are made of.
ghost use Rattle.std.specs.Prelude.{◌≡◌, ◌++◌, ◌≤◌, ◌+◌, ◌<◌, ◌^◌, length, OnOk, IfOk};
ghost use Rattle.std.specs.List.{concat};
ghost use Rattle.field_grammar.specs.Fields.{short_fields};
ghost use Rattle.load_base.specs.Text.{IsText};
ghost use Rattle.load_base.specs.Name.{IsName};
ghost use Rattle.part_number.specs.PartNumber.{IsPartNumberText};
ghost use Rattle.load_protocol_files.specs.Pieces.{ratio_fields};
ghost use Rattle.load_protocol_files.specs.Files.{IsFileOf};

use field_codec::Writer;
use load_base::{Bytes, Name, NoMemory, Text};
use part_number::PartNumber;
use std::alloc::Global;

pub(crate) fn put_text(out: &mut Writer, text: &Text) -> Result<(), NoMemory>
    ensures fits { IsText text.now }
    ensures ok { OnOk result (out.new ≡ out.old ++ concat (short_fields text.now)) }
{
    out.put_short(text.as_slice())?;
    Ok(())
}

pub(crate) fn put_name(out: &mut Writer, name: &Name) -> Result<(), NoMemory>
    ensures fits { IsName name.now }
    ensures ok { OnOk result (out.new ≡ out.old ++ concat (short_fields name.now)) }
{
    out.put_short(name.as_slice())?;
    Ok(())
}

#[tactic(auto, using(part_number::proofs::VerdictLemmas::part_size))]
pub(crate) fn put_part(out: &mut Writer, part: &PartNumber) -> Result<(), NoMemory>
    ensures fits { IsPartNumberText part.now }
    ensures ok { OnOk result (out.new ≡ out.old ++ concat (short_fields part.now)) }
{
    out.put_short(part.as_slice())?;
    Ok(())
}

/// A ratio, as three digits.
#[tactic(auto, unfolding(crate::specs::Pieces::ratio_digits))]
pub(crate) fn put_ratio(out: &mut Writer, ratio: u8) -> Result<(), NoMemory>
    requires { ratio ≤ 100 }
    ensures { OnOk result (out.new ≡ out.old ++ concat (ratio_fields ratio)) }
{
    out.put_raw(&[
        b'0' + ratio / 100,
        b'0' + ratio / 10 % 10,
        b'0' + ratio % 10,
    ])?;
    Ok(())
}

/// The file of this body: its length and the version stand before it.
pub(crate) fn file_of(alloc: Global, body: Writer) -> Result<Bytes, NoMemory>
    requires { 6 + length body < 2 ^ 32 }
    ensures { IfOk result (λ bytes. IsFileOf body bytes.items) }
{
    let body = body.finish();
    let mut out = Writer::new(alloc);
    out.reserve(6 + body.len())?;
    out.put_u32(6 + body.len() as u32)?;
    out.put_u16(0x4133)?;
    out.put_raw(body.as_slice())?;
    Ok(out.finish())
}
