//! The check sum of a whole load.
ghost use Rattle.std.specs.Prelude.{◌≡◌, ◌≤◌, ◌-◌, ◌++◌, ℕ, List, length, take};
ghost use Rattle.crc_fields.specs.CheckSums.{crc32_of};

use crc_fields::Crc32;
use std::marker::Model;

/// The CRC-32 of a load: over its header but the last 4 bytes, and then over its data files and its
/// support files, in the order of the header, with nothing between (this project's layout,
/// docs/FORMATS.md). It takes no memory. A contract sees it as the check sum of the bytes so far.
#[derive(Drop)]
pub struct LoadCrc {
    sum: Crc32,
}

impl Model for LoadCrc {
    ghost use Rattle.std.specs.Prelude.{ℕ};

    ghost Value = { ℕ };

    ghost view = { λ c. c.sum };
}

impl LoadCrc {
    /// The check sum of a load of which only this header was given yet, the whole of it. Its last 4
    /// bytes are where the check sum itself stands, and are left out.
    pub fn new(header: &[u8]) -> LoadCrc
        requires { 4 ≤ length header.now }
        ensures { result ≡ crc32_of (take (length header.now - 4) header.now) }
    {
        let mut sum = Crc32::new();
        sum.update(&header[..header.len() - 4]);
        LoadCrc { sum }
    }

    /// Takes the next bytes of the files. A file may be given in pieces.
    pub fn file(&mut self, bytes: &[u8])
        ensures { (given : List ℕ) → self.old ≡ crc32_of given
            → self.new ≡ crc32_of (given ++ bytes.now) }
    {
        self.sum.update(bytes);
    }

    /// The check sum of all that was given.
    pub fn value(&self) -> u32
        ensures { result ≡ self.now }
    {
        self.sum.value()
    }
}
