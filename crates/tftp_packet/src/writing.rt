//! Writes packets as they are sent.
ghost use Rattle.std.specs.Prelude.{◌≡◌, ◌<◌, ◌^◌, ◌++◌, codes, OnOk};
ghost use Rattle.std.specs.List.{concat};
ghost use Rattle.field_grammar.specs.Fields.{number_bytes};
ghost use Rattle.field_grammar.specs.Grammar.{IsBytes};
ghost use Rattle.load_base.specs.Name.{IsName};
ghost use Rattle.tftp_packet.specs.Options.{ended_text, pairs_fields, written, written_options};
ghost use Rattle.tftp_packet.specs.Packets.{packet_view, packet_bytes, request_fields, IsTyped};

use crate::options::{Known, Options};
use crate::packet::{ACK, DATA, ERROR, OACK, Packet, RRQ, WRQ};
use field_codec::Writer;
use itoa::Buffer;
use load_base::{Name, NoMemory};

/// The bytes of a request or an OACK but for the name, where all three options are as long as can
/// be: 2 + 1 + 6 + 14 + 12 + 17.
const MOST_BUT_NAME: usize = 52;

/// The opcode and the number before the bytes, and the zero after those of an ERROR.
const NUMBERED: usize = 5;

pub(crate) fn put_packet(out: &mut Writer, packet: &Packet) -> Result<(), NoMemory>
    ensures ok { OnOk result (out.new ≡ out.old ++ packet_bytes (packet_view packet.now)) }
    ensures typed { OnOk result (IsTyped (packet_view packet.now)) }
{
    match packet {
        Packet::Rrq { name, options } => put_request(out, RRQ, name, options)?,
        Packet::Wrq { name, options } => put_request(out, WRQ, name, options)?,
        Packet::Data { block, payload } => put_numbered(out, DATA, *block, payload)?,
        Packet::Ack { block } => put_numbered(out, ACK, *block, &[])?,
        Packet::Error { code, text } => {
            put_numbered(out, ERROR, *code, text)?;
            out.put_raw(&[0])?;
        }
        Packet::Oack { options } => {
            out.reserve(MOST_BUT_NAME)?;
            out.put_u16(OACK)?;
            put_options(out, options)?;
        }
    }
    Ok(())
}

fn put_request(
    out: &mut Writer,
    opcode: u16,
    name: &Name,
    options: &Options,
) -> Result<(), NoMemory>
    ensures ok { OnOk result (out.new ≡ out.old
        ++ concat (request_fields opcode name.now (codes "octet") (written_options options.now))) }
    ensures is_name { OnOk result (IsName name.now) }
{
    out.reserve(name.as_slice().len() + MOST_BUT_NAME)?;
    out.put_u16(opcode)?;
    put_text(out, name.as_slice())?;
    put_text(out, b"octet")?;
    put_options(out, options)?;
    Ok(())
}

fn put_numbered(out: &mut Writer, opcode: u16, number: u16, bytes: &[u8]) -> Result<(), NoMemory>
    ensures ok { OnOk result
        (out.new ≡ out.old ++ (number_bytes 2 opcode ++ (number_bytes 2 number ++ bytes.now))) }
    ensures typed { OnOk result ((number < 2 ^ 16) × IsBytes bytes.now) }
{
    out.reserve(bytes.len() + NUMBERED)?;
    out.put_u16(opcode)?;
    out.put_u16(number)?;
    out.put_raw(bytes)?;
    Ok(())
}

#[tactic(auto, unfolding(crate::specs::Options::written_options))]
fn put_options(out: &mut Writer, options: &Options) -> Result<(), NoMemory>
    ensures { OnOk result
        (out.new ≡ out.old ++ concat (pairs_fields (written_options options.now))) }
{
    put_option(out, Known::BlockSize, options.blksize.map(u32::from))?;
    put_option(out, Known::Timeout, options.timeout.map(u32::from))?;
    put_option(out, Known::TransferSize, options.tsize)?;
    Ok(())
}

/// The option's name and its value, where it is there.
fn put_option(out: &mut Writer, known: Known, said: Option<u32>) -> Result<(), NoMemory>
    ensures { OnOk result (out.new ≡ out.old ++ concat (pairs_fields (written known said))) }
{
    if let Some(number) = said {
        put_text(out, known.name())?;
        put_text(out, Buffer::new().format(number).as_bytes())?;
    }
    Ok(())
}

/// A text, and the zero after it.
fn put_text(out: &mut Writer, text: &[u8]) -> Result<(), NoMemory>
    ensures { OnOk result (out.new ≡ out.old ++ ended_text text.now) }
{
    out.put_raw(text)?;
    out.put_raw(&[0])?;
    Ok(())
}
