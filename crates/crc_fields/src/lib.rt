//! The two check sums of this project's formats (docs/FORMATS.md), over whole bytes or over pieces:
//! CRC-16/IBM-3740 and CRC-32/BZIP2, as catalogues of check sums name them.
#![tactic(auto)]

pub mod bitwise;
mod entries;
mod running;
mod table_16;
mod table_32;

ghost use Rattle.std.specs.Prelude.{◌≡◌, ◌<◌, ◌^◌, ℕ, List, [], ◌++◌, codes};
ghost use Rattle.crc_fields.specs.CheckSums.{crc16_of, crc32_of, crc16_after, crc32_after};
ghost use Rattle.crc_fields.specs.CheckSums.{register_after};

pub use running::{Crc16, Crc32};

/// The CRC-16 of `bytes`, as `Crc16` gives it for one piece.
pub fn crc16(bytes: &[u8]) -> u16
    ensures { result ≡ crc16_of bytes.now }
{
    let mut sum = Crc16::new();
    sum.update(bytes);
    sum.value()
}

/// The CRC-32 of `bytes`, as `Crc32` gives it for one piece.
pub fn crc32(bytes: &[u8]) -> u32
    ensures { result ≡ crc32_of bytes.now }
{
    let mut sum = Crc32::new();
    sum.update(bytes);
    sum.value()
}

/// Laws of both check sums, a clause each, for callers that join or compare pieces themselves.
// For the proof: does nothing.
#[tactic(auto, using(crate::proofs::Laws::laws))]
pub fn check_sum_laws()
    // A register goes through pieces as through all of them joined, at each width.
    ensures cut { (width polynomial register : ℕ) (first rest : List ℕ) →
        register_after width polynomial (register_after width polynomial register first) rest
        ≡ register_after width polynomial register (first ++ rest) }
    ensures crc16_joined { (first rest : List ℕ)
        → crc16_after (crc16_of first) rest ≡ crc16_of (first ++ rest) }
    ensures crc32_joined { (first rest : List ℕ)
        → crc32_after (crc32_of first) rest ≡ crc32_of (first ++ rest) }

    ensures crc16_fits { (bytes : List ℕ) → crc16_of bytes < 2 ^ 16 }
    ensures crc32_fits { (bytes : List ℕ) → crc32_of bytes < 2 ^ 32 }

    ensures crc16_of_nothing { crc16_of [] ≡ 0xFFFF }
    ensures crc32_of_nothing { crc32_of [] ≡ 0 }

    // What catalogues of check sums print for these nine digits.
    ensures crc16_known { crc16_of (codes "123456789") ≡ 0x29B1 }
    ensures crc32_known { crc32_of (codes "123456789") ≡ 0xFC89_1918 }
{}
