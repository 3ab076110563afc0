//! Both check sums bit by bit, as they are defined: the plain program that the tables are compared
//! with.
ghost use Rattle.std.specs.Prelude.{◌≡◌};
ghost use Rattle.crc_fields.specs.CheckSums.{crc16_after, crc32_after, lowest_bits};
ghost use Rattle.crc_fields.specs.CheckSums.{register_after_bit, register_after_bits};

const POLYNOMIAL_16: u16 = 0x1021;

const POLYNOMIAL_32: u32 = 0x04C1_1DB7;

/// The CRC-16 of `bytes` after others whose CRC-16 is `sum`. With nothing before them `sum` is
/// 0xFFFF.
#[tactic(auto, using(crate::proofs::Cuts::after_nothing, crate::proofs::Cuts::after_more), unfolding(crate::specs::CheckSums::crc16_after))]
pub fn crc16_after(sum: u16, bytes: &[u8]) -> u16
    ensures { result ≡ crc16_after sum bytes.now }
{
    let mut register = sum;
    for byte in bytes {
        register = after_byte_16(register, *byte);
    }
    register
}

/// The CRC-32 of `bytes` after others whose CRC-32 is `sum`. With nothing before them `sum` is 0.
#[tactic(auto, using(crate::proofs::Cuts::after_nothing, crate::proofs::Cuts::after_more), unfolding(crate::specs::CheckSums::crc32_after))]
pub fn crc32_after(sum: u32, bytes: &[u8]) -> u32
    ensures { result ≡ crc32_after sum bytes.now }
{
    let mut register = !sum;
    for byte in bytes {
        register = after_byte_32(register, *byte);
    }
    !register
}

#[tactic(auto, using(crate::proofs::Bits::no_bits, crate::proofs::Bits::next_bit))]
fn after_byte_16(mut register: u16, byte: u8) -> u16
    ensures { result ≡ register_after_bits 16 0x1021 register (lowest_bits 8 byte) }
{
    for bit in (0..8u32).rev() {
        register = after_bit_16(register, (byte >> bit) % 2);
    }
    register
}

#[tactic(auto, using(crate::proofs::Bits::no_bits, crate::proofs::Bits::next_bit))]
fn after_byte_32(mut register: u32, byte: u8) -> u32
    ensures { result ≡ register_after_bits 32 0x04C11DB7 register (lowest_bits 8 byte) }
{
    for bit in (0..8u32).rev() {
        register = after_bit_32(register, (byte >> bit) % 2);
    }
    register
}

#[tactic(auto, unfolding(crate::specs::CheckSums::register_after_bit))]
fn after_bit_16(register: u16, bit: u8) -> u16
    ensures { result ≡ register_after_bit 16 0x1021 register bit }
{
    let doubled = register << 1;
    let leaving = register >> 15;
    if leaving == u16::from(bit) {
        doubled
    } else {
        doubled ^ POLYNOMIAL_16
    }
}

#[tactic(auto, unfolding(crate::specs::CheckSums::register_after_bit))]
fn after_bit_32(register: u32, bit: u8) -> u32
    ensures { result ≡ register_after_bit 32 0x04C11DB7 register bit }
{
    let doubled = register << 1;
    let leaving = register >> 31;
    if leaving == u32::from(bit) {
        doubled
    } else {
        doubled ^ POLYNOMIAL_32
    }
}
