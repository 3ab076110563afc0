//! Check sums over bytes that come in pieces.
ghost use Rattle.std.specs.Prelude.{◌≡◌, ℕ, List, [], ◌++◌};
ghost use Rattle.crc_fields.specs.CheckSums.{crc16_of, crc32_of, crc16_after, crc32_after};

use crate::{table_16, table_32};
use std::marker::Model;

/// A CRC-16 over bytes that come in pieces: polynomial 0x1021, from 0xFFFF, the most significant
/// bit first, no change at the end (this project's check sums, docs/FORMATS.md). Contracts see it
/// as the check sum of the bytes given so far.
#[derive(Drop)]
pub struct Crc16 {
    sum: u16,
}

impl Model for Crc16 {
    ghost use Rattle.std.specs.Prelude.{ℕ};

    ghost Value = { ℕ };

    ghost view = { λ c. c.sum };
}

impl Crc16 {
    /// The check sum of no bytes.
    #[tactic(auto, using(crate::proofs::Cuts::crc16_of_nothing))]
    pub fn new() -> Self
        ensures { result ≡ crc16_of [] }
    {
        Crc16 { sum: 0xFFFF }
    }

    /// Takes the next bytes. Pieces may be cut anywhere, and be empty.
    #[tactic(auto, using(crate::proofs::Cuts::crc16_joined))]
    pub fn update(&mut self, bytes: &[u8])
        ensures next { self.new ≡ crc16_after self.old bytes.now }
        ensures joined { (given : List ℕ) → self.old ≡ crc16_of given
            → self.new ≡ crc16_of (given ++ bytes.now) }
    {
        self.sum = table_16::crc16_after(self.sum, bytes);
    }

    /// The check sum of all bytes given so far. More may follow.
    pub fn value(&self) -> u16
        ensures { result ≡ self.now }
    {
        self.sum
    }
}

/// A CRC-32 over bytes that come in pieces: polynomial 0x04C11DB7, from 0xFFFFFFFF, the most
/// significant bit first, all bits inverted at the end (this project's check sums,
/// docs/FORMATS.md). Contracts see it as the check sum of the bytes given so far.
#[derive(Drop)]
pub struct Crc32 {
    sum: u32,
}

impl Model for Crc32 {
    ghost use Rattle.std.specs.Prelude.{ℕ};

    ghost Value = { ℕ };

    ghost view = { λ c. c.sum };
}

impl Crc32 {
    /// The check sum of no bytes.
    #[tactic(auto, using(crate::proofs::Cuts::crc32_of_nothing))]
    pub fn new() -> Self
        ensures { result ≡ crc32_of [] }
    {
        Crc32 { sum: 0 }
    }

    /// Takes the next bytes. Pieces may be cut anywhere, and be empty.
    #[tactic(auto, using(crate::proofs::Cuts::crc32_joined))]
    pub fn update(&mut self, bytes: &[u8])
        ensures next { self.new ≡ crc32_after self.old bytes.now }
        ensures joined { (given : List ℕ) → self.old ≡ crc32_of given
            → self.new ≡ crc32_of (given ++ bytes.now) }
    {
        self.sum = table_32::crc32_after(self.sum, bytes);
    }

    /// The check sum of all bytes given so far. More may follow.
    pub fn value(&self) -> u32
        ensures { result ≡ self.now }
    {
        self.sum
    }
}
