//! CRC-16 sixteen bytes at a time, by tables of what each byte makes of an empty register.
ghost use Rattle.std.specs.Prelude.{◌≡◌, ◌<◌, ◌∷◌, replicate};
ghost use Rattle.crc_fields.specs.CheckSums.{crc16_after, lowest_bits, register_after};
ghost use Rattle.crc_fields.specs.CheckSums.{register_after_bits};

use crate::entries::entries;

/// Table `zeros` has what a byte, and that many zero bytes after it, make of an empty register.
static TABLES: [[u16; 256]; 16] = [
    entries!(
        0x1021, 0x2042, 0x4084, 0x8108, 0x1231, 0x2462, 0x48C4, 0x9188
    ),
    entries!(
        0x3331, 0x6662, 0xCCC4, 0x89A9, 0x0373, 0x06E6, 0x0DCC, 0x1B98
    ),
    entries!(
        0x3730, 0x6E60, 0xDCC0, 0xA9A1, 0x4363, 0x86C6, 0x1DAD, 0x3B5A
    ),
    entries!(
        0x76B4, 0xED68, 0xCAF1, 0x85C3, 0x1BA7, 0x374E, 0x6E9C, 0xDD38
    ),
    entries!(
        0xAA51, 0x4483, 0x8906, 0x022D, 0x045A, 0x08B4, 0x1168, 0x22D0
    ),
    entries!(
        0x45A0, 0x8B40, 0x06A1, 0x0D42, 0x1A84, 0x3508, 0x6A10, 0xD420
    ),
    entries!(
        0xB861, 0x60E3, 0xC1C6, 0x93AD, 0x377B, 0x6EF6, 0xDDEC, 0xABF9
    ),
    entries!(
        0x47D3, 0x8FA6, 0x0F6D, 0x1EDA, 0x3DB4, 0x7B68, 0xF6D0, 0xFD81
    ),
    entries!(
        0xEB23, 0xC667, 0x9CEF, 0x29FF, 0x53FE, 0xA7FC, 0x5FD9, 0xBFB2
    ),
    entries!(
        0x6F45, 0xDE8A, 0xAD35, 0x4A4B, 0x9496, 0x390D, 0x721A, 0xE434
    ),
    entries!(
        0xD849, 0xA0B3, 0x5147, 0xA28E, 0x553D, 0xAA7A, 0x44D5, 0x89AA
    ),
    entries!(
        0x0375, 0x06EA, 0x0DD4, 0x1BA8, 0x3750, 0x6EA0, 0xDD40, 0xAAA1
    ),
    entries!(
        0x4563, 0x8AC6, 0x05AD, 0x0B5A, 0x16B4, 0x2D68, 0x5AD0, 0xB5A0
    ),
    entries!(
        0x7B61, 0xF6C2, 0xFDA5, 0xEB6B, 0xC6F7, 0x9DCF, 0x2BBF, 0x577E
    ),
    entries!(
        0xAEFC, 0x4DD9, 0x9BB2, 0x2745, 0x4E8A, 0x9D14, 0x2A09, 0x5412
    ),
    entries!(
        0xA824, 0x4069, 0x80D2, 0x1185, 0x230A, 0x4614, 0x8C28, 0x0871
    ),
];

#[tactic(auto, unfolding(crate::specs::CheckSums::crc16_after))]
pub(crate) fn crc16_after(sum: u16, bytes: &[u8]) -> u16
    ensures { result ≡ crc16_after sum bytes.now }
{
    let mut register = sum;
    let mut rest = bytes;
    while let Some((sixteen, after)) = rest.split_first_chunk::<16>() {
        register = after_sixteen(register, sixteen);
        rest = after;
    }
    after_bytes(register, rest)
}

#[tactic(auto, using(crate::proofs::Sixteens::by_entries_16))]
fn after_sixteen(register: u16, sixteen: &[u8; 16]) -> u16
    ensures { result ≡ register_after 16 0x1021 register sixteen.now }
{
    let [high, low] = register.to_be_bytes();
    let [a, b, c, d, e, f, g, h, i, j, k, l, m, n, o, p] = *sixteen;
    // The register doesn't meet these: apart, they can be summed while it isn't known yet.
    let later = entry(13, c)
        ^ entry(12, d)
        ^ entry(11, e)
        ^ entry(10, f)
        ^ entry(9, g)
        ^ entry(8, h)
        ^ entry(7, i)
        ^ entry(6, j)
        ^ entry(5, k)
        ^ entry(4, l)
        ^ entry(3, m)
        ^ entry(2, n)
        ^ entry(1, o)
        ^ entry(0, p);
    entry(15, high ^ a) ^ entry(14, low ^ b) ^ later
}

#[tactic(auto, using(crate::proofs::Cuts::after_nothing, crate::proofs::Cuts::after_more))]
fn after_bytes(register: u16, bytes: &[u8]) -> u16
    ensures { result ≡ register_after 16 0x1021 register bytes.now }
{
    let mut register = register;
    for byte in bytes {
        register = after_byte(register, *byte);
    }
    register
}

#[tactic(auto, using(crate::proofs::Tables::by_entry_16))]
fn after_byte(register: u16, byte: u8) -> u16
    ensures { result ≡ register_after_bits 16 0x1021 register (lowest_bits 8 byte) }
{
    let top = (register >> 8) as u8;
    (register << 8) ^ entry(0, top ^ byte)
}

/// What `byte`, and `zeros` zero bytes after it, make of an empty register.
#[tactic(auto, using(crate::proofs::Tables::entry_16))]
fn entry(zeros: usize, byte: u8) -> u16
    requires { zeros < 16 }
    ensures { result ≡ register_after 16 0x1021 0 (byte ∷ replicate zeros 0) }
{
    TABLES[zeros][usize::from(byte)]
}
