//! Why bytes are no packet.
use field_grammar::FieldFault;
use load_base::NameFault;

/// Why bytes are no packet: the first fault that is met from left to right. Places are byte offsets
/// in the packet, counted from 0.
///
/// The formats are those of RFC 1350, section 5, and of RFC 2347; the codes, the offsets and the
/// limits of what is accepted are this project's profile (docs/FORMATS.md, "TFTP packets").
#[derive(Clone, Copy, Debug, PartialEq, Eq)]
pub enum PacketFault {
    /// T1: there is no packet with this opcode. It comes before what is missing after the opcode.
    Opcode(u64),
    /// T2: fewer than 2 bytes, or fewer than 4 of a DATA, an ACK or an ERROR; the number of bytes.
    Short(u64),
    /// T3: a name, a mode, a name or value of an option or a text of an ERROR has no zero after
    /// it; the offset where it begins.
    NoZero(u64),
    /// T4: the mode of a request isn't `octet`.
    Mode,
    /// T5: an option that may not stand there; the offset where its name begins. In each packet
    /// that is one without a name, or a known one for the second time, and in an OACK also an
    /// unknown one, all of them before their value is read; in an OACK also one with a value that
    /// isn't of its kind, once the value was read.
    Option(u64),
    /// T6: bytes stand after an ACK or an ERROR, or after 65,464 bytes of a payload; the offset
    /// of the first.
    Rest(u64),
    /// T7: the name in a request is no file name; what is wrong with it. It comes before the mode
    /// is read.
    Name(NameFault),
}

/// A field that doesn't fit is a text without an end.
impl From<FieldFault> for PacketFault {
    ghost use Rattle.std.specs.Prelude.{◌≡◌};
    ghost use Rattle.tftp_packet.specs.Options.{unended};

    ghost from_gives = { λ field fault. fault ≡ unended field };

    fn from(field: FieldFault) -> PacketFault {
        match field {
            FieldFault::Short(offset) | FieldFault::BadPad(offset) => PacketFault::NoZero(offset),
        }
    }
}
