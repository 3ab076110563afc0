//! The packets of TFTP.
ghost use Rattle.std.specs.Prelude.{◌≡◌, IfOk, IfErr, Ok, Err};
ghost use Rattle.field_grammar.specs.Answers.{answer};
ghost use Rattle.field_grammar.specs.Grammar.{Fault};
ghost use Rattle.tftp_packet.specs.declared.fault.PacketFault.{PacketFault};
ghost use Rattle.tftp_packet.specs.Packets.{PacketView, packet_view, seen, IsInRange, IsTyped};
ghost use Rattle.tftp_packet.specs.Packets.{PacketSpells, packet_bytes, packet, body};
ghost use Rattle.tftp_packet.specs.Reading.{ReadsOn};

use crate::PacketFault;
use crate::options::{Options, Others, take_options};
use crate::reading::{take_ack, take_data, take_error, take_request, take_word};
use crate::writing::put_packet;
use field_codec::{Reader, Writer};
use load_base::{Bytes, Name, NoMemory};
use std::alloc::Global;

/// The opcodes, in the first two bytes (RFC 1350, section 5; RFC 2347).
pub(crate) const RRQ: u16 = 1;

pub(crate) const WRQ: u16 = 2;

pub(crate) const DATA: u16 = 3;

pub(crate) const ACK: u16 = 4;

pub(crate) const ERROR: u16 = 5;

pub(crate) const OACK: u16 = 6;

/// A TFTP packet (RFC 1350, section 5; RFC 2347), with its text or payload lent from the datagram
/// that it was read from, or by whoever sends it.
#[derive(Clone, Copy)]
pub enum Packet<'a> {
    /// Asks to read a file.
    Rrq { name: Name, options: Options },
    /// Asks to write a file.
    Wrq { name: Name, options: Options },
    /// A block of a file, of at most 65,464 bytes.
    Data { block: u16, payload: &'a [u8] },
    /// Acknowledges the block of this number; 0 a request to write, or an OACK.
    Ack { block: u16 },
    /// The transfer ends. The codes are 0 not defined, 1 file not found, 2 access violation, 3 disk
    /// full or allocation exceeded, 4 illegal operation, 5 unknown transfer ID, 6 file already
    /// exists, 7 no such user (RFC 1350, section 5) and 8 option negotiation (RFC 2347); any other
    /// is read too. The text has no zero byte.
    Error { code: u16, text: &'a [u8] },
    /// Grants options that a request asked for.
    Oack { options: Options },
}

impl<'a> Packet<'a> {
    /// The packet that the bytes spell, or their first fault from left to right. It takes no
    /// memory, and lends payloads and texts from the bytes.
    pub fn decode(bytes: &'a [u8]) -> Result<Packet<'a>, PacketFault>
        ensures found { IfOk result (λ p. PacketSpells (packet_view p) bytes.now) }
        ensures only { (p : PacketView) → PacketSpells p bytes.now → seen result ≡ Ok p }
        ensures refused { IfErr result (λ f. Fault packet bytes.now f) }
        ensures faulty { (f : PacketFault) → Fault packet bytes.now f → seen result ≡ Err f }
        ensures in_range { IfOk result (λ p. IsInRange (packet_view p)) }
        ensures typed { IfOk result (λ p. IsTyped (packet_view p)) }
        ensures answers { seen result ≡ answer packet bytes.now }
    {
        let mut reader = Reader::new(bytes);
        take_packet(&mut reader)
    }

    /// The bytes that are sent for the packet, which is in its range: `octet` and the options in
    /// lower case, the options in the order blksize, timeout, tsize, numbers without leading zeros
    /// (docs/FORMATS.md, "TFTP packets").
    pub fn encode(&self, alloc: Global) -> Result<Bytes, NoMemory>
        requires { IsInRange (packet_view self.now) }
        ensures written { IfOk result (λ bytes. bytes.items ≡ packet_bytes (packet_view self.now)) }
        ensures spells { IfOk result (λ bytes. PacketSpells (packet_view self.now) bytes.items) }
        ensures typed { IfOk result (λ _. IsTyped (packet_view self.now)) }
    {
        let mut out = Writer::new(alloc);
        put_packet(&mut out, self)?;
        Ok(out.finish())
    }
}

#[tactic(auto, unfolding(crate::specs::Packets::packet))]
fn take_packet<'a>(reader: &mut Reader<'a>) -> Result<Packet<'a>, PacketFault>
    ensures { ReadsOn packet_view packet reader.old result reader.new }
{
    let opcode = take_word(reader)?;
    take_body(reader, opcode)
}

/// What the opcode says that stands after it.
#[tactic(auto, unfolding(crate::specs::Packets::body))]
fn take_body<'a>(reader: &mut Reader<'a>, opcode: u16) -> Result<Packet<'a>, PacketFault>
    ensures { ReadsOn packet_view (body opcode) reader.old result reader.new }
{
    match opcode {
        RRQ => {
            let (name, options) = take_request(reader)?;
            Ok(Packet::Rrq { name, options })
        }
        WRQ => {
            let (name, options) = take_request(reader)?;
            Ok(Packet::Wrq { name, options })
        }
        DATA => {
            let (block, payload) = take_data(reader)?;
            Ok(Packet::Data { block, payload })
        }
        ACK => {
            let block = take_ack(reader)?;
            Ok(Packet::Ack { block })
        }
        ERROR => {
            let (code, text) = take_error(reader)?;
            Ok(Packet::Error { code, text })
        }
        OACK => {
            let options = take_options(reader, Others::Refused)?;
            Ok(Packet::Oack { options })
        }
        _ => Err(PacketFault::Opcode(opcode as u64)),
    }
}
