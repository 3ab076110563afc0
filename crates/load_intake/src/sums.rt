//! What is kept of a data or support file while it arrives.
ghost use Rattle.std.specs.Prelude.{◌≡◌, ◌-◌, ◌<◌, ◌^◌, [], take, OnOk};
ghost use Rattle.session_rules.specs.Buffers.{summed, summed_more};

use crc_fields::{Crc16, Crc32};
use load_base::NoMemory;
use std::marker::Model;

/// Of a file that arrives: its length as its header says it, how many bytes came, and the check
/// sums of those up to that length, of the file and of its load so far.
#[derive(Drop)]
pub(crate) struct FileSums {
    said: u32,
    count: u32,
    crc16: Crc16,
    load: Crc32,
}

impl Model for FileSums {
    ghost use Rattle.session_rules.specs.Buffers.{Sums};

    ghost Value = { Sums };

    ghost view = { λ s. record {
      said = s.said;
      count = s.count;
      crc16 = s.crc16;
      load_crc = s.load;
    } };
}

impl FileSums {
    /// Nothing arrived yet of a file of this length, after a load with this check sum so far.
    #[tactic(auto, using(crate::proofs::Crcs::crc32_after_nothing))]
    pub(crate) fn new(said: u32, load: Crc32) -> FileSums
        requires { load < 2 ^ 32 }
        ensures { result ≡ summed said load [] }
    {
        FileSums {
            said,
            count: 0,
            crc16: Crc16::new(),
            load,
        }
    }

    /// The first of the next bytes, those that the said length still has room for.
    pub(crate) fn kept<'b>(&self, bytes: &'b [u8]) -> &'b [u8]
        ensures { result.now ≡ take (self.now.said - self.now.count) bytes.now }
    {
        let room = self.said.saturating_sub(self.count) as usize;
        &bytes[..room.min(bytes.len())]
    }

    /// Takes the next bytes of the file.
    pub(crate) fn take(&mut self, bytes: &[u8]) -> Result<(), NoMemory>
        ensures takes { OnOk result (self.new ≡ summed_more self.old bytes.now) }
        ensures said { self.new.said ≡ self.old.said }
    {
        let kept = self.kept(bytes);
        self.crc16.update(kept);
        self.load.update(kept);
        // No file is as long as a u32 can't count.
        let more = u32::try_from(bytes.len()).map_err(|_| NoMemory)?;
        self.count = self.count.checked_add(more).ok_or(NoMemory)?;
        Ok(())
    }

    /// No bytes more change nothing.
    // For the proof: does nothing.
    #[tactic(auto, using(crate::proofs::NoMore::nothing_more))]
    pub(crate) fn no_more(&self)
        ensures { summed_more self.now [] ≡ self.now }
    {
        let _crc = self.load.value();
    }

    /// How many bytes came.
    pub(crate) fn count(&self) -> u32
        ensures { result ≡ self.now.count }
    {
        self.count
    }

    /// The CRC-16 of the file.
    pub(crate) fn crc16(&self) -> u16
        ensures { result ≡ self.now.crc16 }
    {
        self.crc16.value()
    }

    /// The CRC-32 of the load so far.
    pub(crate) fn load_crc(&self) -> u32
        ensures { result ≡ self.now.load_crc }
    {
        self.load.value()
    }

    /// The running CRC-32 of the load.
    pub(crate) fn into_load_crc(self) -> Crc32
        ensures { result ≡ self.load_crc }
    {
        self.load
    }
}
