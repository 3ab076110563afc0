//! Numbers as the bytes of a disk, the highest first.
ghost use Rattle.std.specs.Prelude.{◌≡◌};
ghost use Rattle.field_grammar.specs.Fields.{number_bytes};

use byteorder::{BigEndian, ByteOrder};

/// One byte.
#[tactic(auto, unfolding(field_grammar::specs::Fields::number_bytes))]
pub fn u8_bytes(value: u8) -> [u8; 1]
    ensures { result ≡ number_bytes 1 value }
{
    [value]
}

/// Two bytes, the high one first.
#[tactic(auto, unfolding(field_grammar::specs::Fields::number_bytes))]
pub fn u16_bytes(value: u16) -> [u8; 2]
    ensures { result ≡ number_bytes 2 value }
{
    let mut bytes = [0; 2];
    BigEndian::write_u16(&mut bytes, value);
    bytes
}

/// Four bytes, the high ones first.
#[tactic(auto, unfolding(field_grammar::specs::Fields::number_bytes))]
pub fn u32_bytes(value: u32) -> [u8; 4]
    ensures { result ≡ number_bytes 4 value }
{
    let mut bytes = [0; 4];
    BigEndian::write_u32(&mut bytes, value);
    bytes
}
