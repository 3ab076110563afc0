//! Why nothing was recovered from a disk.
ghost use Rattle.std.specs.Prelude.{◌≡◌};
ghost use Rattle.disk_layout.specs.Faults.{recover_fault_of};
ghost use Rattle.disk_layout.specs.declared.fault.RecoverFault.TheVariants.{Memory};

use disk_model::DiskFault;
use load_base::NoMemory;
use thiserror::Error;

/// Why a disk holds no configuration, or why it couldn't be read. An offset is a byte offset on the
/// disk, from 0 (docs/DISK.md).
#[derive(Clone, Copy, Debug, PartialEq, Eq, Drop, Error)]
pub enum RecoverFault {
    /// V1: the disk begins with no identity; the first offset at which it can't go on. Whatever is
    /// wrong with an Ident, that is the offset of its length.
    #[error("no identity, from offset {0} on")]
    NotFormatted(u64),
    /// V2: neither slot is open.
    #[error("neither slot is open")]
    NoOpenSlot,
    /// V3: what the active slot says can't be; the offset of its bank, of the manifest's length, or
    /// of the manifest's offset, where the manifest passes the bank.
    #[error("the active slot is wrong at offset {0}")]
    BadSlot(u64),
    /// V4: the manifest isn't in its form; the first offset at which it can't go on. Where the
    /// files' lengths don't add up to the manifest's offset in its bank, the offset where the
    /// manifest begins.
    #[error("the manifest is wrong at offset {0}")]
    BadManifest(u64),
    /// The disk failed.
    #[error("the disk failed")]
    DiskFailed,
    /// Out of memory.
    #[error("out of memory")]
    Memory,
}

impl From<DiskFault> for RecoverFault {
    ghost from_gives = { λ fault result. result ≡ recover_fault_of fault };

    fn from(fault: DiskFault) -> RecoverFault {
        match fault {
            DiskFault::Failed => RecoverFault::DiskFailed,
            DiskFault::Memory => RecoverFault::Memory,
        }
    }
}

impl From<NoMemory> for RecoverFault {
    ghost from_gives = { λ _ result. result ≡ Memory };

    fn from(_: NoMemory) -> RecoverFault {
        RecoverFault::Memory
    }
}
