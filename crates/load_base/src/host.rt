//! The files that the tools read and write.
ghost use Rattle.std.specs.Prelude.{◌≡◌, ℕ, ◌≤◌, Option, length, IfOk};
ghost use Rattle.load_base.specs.Host.{Files, ReadsFile, WritesFile, HasReadCause, longest_file};
ghost use Rattle.load_base.specs.Sink.{HasWriteCause};

use crate::{Bytes, WriteFault};
use std::alloc::Global;

/// The most bytes of a file that is read: 16,777,215.
pub const LONGEST_FILE: usize = 16_777_215;

/// Why a file wasn't read.
#[derive(Clone, Copy, Debug, PartialEq, Eq)]
pub enum ReadFault {
    /// There is no file of this name.
    Absent,
    /// The file has more than [`LONGEST_FILE`] bytes.
    TooLong,
    /// The host failed, and its count of faults rose.
    Failed,
    /// Out of memory.
    Memory,
}

/// What keeps files by their names. A name is any bytes; it is used as it stands.
pub trait Host {
    /// What each name has, where the host tells it.
    ghost files: { Self → Option Files };

    /// How often it has failed.
    ghost faults: { Self → ℕ };

    /// The whole file of this name.
    fn read(&mut self, alloc: Global, name: &[u8]) -> Result<Bytes, ReadFault>
        ensures file { ReadsFile (files self.old) name.now result }
        ensures short { IfOk result (λ bytes. length bytes.items ≤ longest_file) }
        ensures kept { files self.new ≡ files self.old }
        ensures cause { HasReadCause (faults self.old) (faults self.new) result };

    /// Makes the file of this name, or replaces it. Where the host fails, that name may have
    /// anything.
    fn write(&mut self, name: &[u8], bytes: &[u8]) -> Result<(), WriteFault>
        ensures file { WritesFile (files self.old) (files self.new) name.now bytes.now result }
        ensures cause { HasWriteCause (faults self.old) (faults self.new) result };
}
