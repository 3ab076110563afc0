//! Reads what stands after the opcodes of packets, field by field from left to right.
ghost use Rattle.std.specs.Prelude.{◌≡◌, ◌<◌, length};
ghost use Rattle.field_grammar.specs.Grammar.{ended};
ghost use Rattle.load_base.specs.Verdicts.{verdict, name_fault_of};
ghost use Rattle.tftp_packet.specs.declared.fault.PacketFault.TheVariants as faults;
ghost use Rattle.tftp_packet.specs.Options.{zero_text};
ghost use Rattle.tftp_packet.specs.Packets.{word, file_name, payload_bytes, is_octet, request_body};
ghost use Rattle.tftp_packet.specs.Packets.{data_body, ack_body, error_body};
ghost use Rattle.tftp_packet.specs.Reading.{ReadsOn};

use crate::PacketFault;
use crate::options::{Options, Others, take_options};
use field_codec::Reader;
use load_base::Name;

/// The longest payload of a DATA, which is that of the greatest block size (RFC 2348).
pub(crate) const LONGEST_PAYLOAD: usize = 65_464;

/// The name and the options of a request.
#[tactic(auto, unfolding(crate::specs::Packets::request_body))]
pub(crate) fn take_request(reader: &mut Reader) -> Result<(Name, Options), PacketFault>
    ensures { ReadsOn (λ request. request) request_body reader.old result reader.new }
{
    let name = take_name(reader)?;
    let mode = take_text(reader)?;
    if !is_octet(mode) {
        return Err(PacketFault::Mode);
    }
    let options = take_options(reader, Others::PassedOver)?;
    Ok((name, options))
}

/// The number and the payload of a block.
#[tactic(auto, unfolding(crate::specs::Packets::data_body))]
pub(crate) fn take_data<'a>(reader: &mut Reader<'a>) -> Result<(u16, &'a [u8]), PacketFault>
    ensures { ReadsOn (λ sent. (sent.0, sent.1.now)) data_body reader.old result reader.new }
{
    let block = take_word(reader)?;
    let payload = take_payload(reader)?;
    take_end(reader)?;
    Ok((block, payload))
}

/// The number of the block that is acknowledged.
#[tactic(auto, unfolding(crate::specs::Packets::ack_body))]
pub(crate) fn take_ack(reader: &mut Reader) -> Result<u16, PacketFault>
    ensures { ReadsOn (λ block. block) ack_body reader.old result reader.new }
{
    let block = take_word(reader)?;
    take_end(reader)?;
    Ok(block)
}

/// The code and the text of an error.
#[tactic(auto, unfolding(crate::specs::Packets::error_body))]
pub(crate) fn take_error<'a>(reader: &mut Reader<'a>) -> Result<(u16, &'a [u8]), PacketFault>
    ensures { ReadsOn (λ error. (error.0, error.1.now)) error_body reader.old result reader.new }
{
    let code = take_word(reader)?;
    let text = take_text(reader)?;
    take_end(reader)?;
    Ok((code, text))
}

/// A number in two bytes. Where they don't fit, the fault has the length of the whole packet.
#[tactic(auto, unfolding(crate::specs::Packets::word))]
pub(crate) fn take_word(reader: &mut Reader) -> Result<u16, PacketFault>
    ensures { ReadsOn (λ number. number) word reader.old result reader.new }
{
    let length = reader.len() as u64;
    reader.take_u16().map_err(|_| PacketFault::Short(length))
}

/// The bytes up to a zero, and the zero.
pub(crate) fn take_text<'a>(reader: &mut Reader<'a>) -> Result<&'a [u8], PacketFault>
    ensures { ReadsOn (λ text. text.now) zero_text reader.old result reader.new }
{
    let text = reader.take_zero_ended()?;
    Ok(text)
}

/// A text that is a file name.
#[tactic(auto, unfolding(crate::specs::Packets::file_name))]
fn take_name(reader: &mut Reader) -> Result<Name, PacketFault>
    ensures { ReadsOn (λ name. name) file_name reader.old result reader.new }
{
    let text = take_text(reader)?;
    let name = name_of(text)?;
    Ok(name)
}

#[tactic(auto, using(load_base::proofs::VerdictLemmas::read_judged, load_base::proofs::VerdictLemmas::refused_judged))]
fn name_of(text: &[u8]) -> Result<Name, PacketFault>
    ensures { result ≡ verdict faults.Name (name_fault_of text.now) text.now }
{
    match Name::read(text) {
        Ok(name) => Ok(name),
        Err(fault) => Err(PacketFault::Name(fault)),
    }
}

#[tactic(auto, unfolding(crate::specs::Packets::is_octet))]
fn is_octet(mode: &[u8]) -> bool
    ensures { result ≡ is_octet mode.now }
{
    mode.eq_ignore_ascii_case(b"octet")
}

/// The bytes that are left, up to the longest payload: as many as that always fit.
#[tactic(auto, unfolding(crate::specs::Packets::payload_bytes))]
fn take_payload<'a>(reader: &mut Reader<'a>) -> Result<&'a [u8], PacketFault>
    ensures { ReadsOn (λ payload. payload.now) payload_bytes reader.old result reader.new }
{
    let size = reader.left().min(LONGEST_PAYLOAD);
    let payload = reader.take_raw(size)?;
    Ok(payload)
}

/// Nothing more.
fn take_end(reader: &mut Reader) -> Result<(), PacketFault>
    ensures { ReadsOn (λ unit. unit) (ended faults.Rest) reader.old result reader.new }
{
    if reader.left() > 0 {
        return Err(PacketFault::Rest(reader.place() as u64));
    }
    Ok(())
}
