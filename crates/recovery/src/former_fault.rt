//! Why a disk has no former configuration.
ghost use Rattle.std.specs.Prelude.{◌≡◌};
ghost use Rattle.recovery.specs.Formers.{active_fault_of};

use disk_layout::RecoverFault;
use load_base::{NoMemory, Text};
use printed_text::{Printed, coded};
use std::alloc::Global;
use thiserror::Error;

/// Why a disk has no former configuration, or why it couldn't be read. An offset is a byte offset
/// on the disk, from 0 (docs/DISK.md).
#[derive(Clone, Copy, Debug, PartialEq, Eq, Drop, Error)]
pub enum FormerFault {
    /// V1 to V4: the disk holds no configuration at all.
    #[error("the disk holds no configuration")]
    Recover(RecoverFault),
    /// G1: the other slot is shut. Nothing was active before, or an installation has begun since.
    #[error("the other slot is shut")]
    SlotClosed,
    /// G2: what the other slot says can't be of the configuration before; the offset of its
    /// sequence number, which isn't lower, of its bank, which isn't the other one, of the
    /// manifest's length, or of the manifest's offset, where the manifest passes the bank.
    #[error("the other slot is wrong at offset {0}")]
    SlotBad(u32),
    /// G3: the manifest that the other slot names isn't in its form; the first offset at which it
    /// can't go on. Where the files' lengths don't add up to the manifest's offset in its bank, the
    /// offset where the manifest begins.
    #[error("the former manifest is wrong at offset {0}")]
    ManifestBad(u32),
    /// The disk failed.
    #[error("the disk failed")]
    DiskFailed,
    /// Out of memory.
    #[error("out of memory")]
    Memory,
}

impl From<RecoverFault> for FormerFault {
    ghost from_gives = { λ fault result. result ≡ active_fault_of fault };

    /// A fault of what is active.
    fn from(fault: RecoverFault) -> FormerFault {
        match fault {
            RecoverFault::DiskFailed => FormerFault::DiskFailed,
            RecoverFault::Memory => FormerFault::Memory,
            reason => FormerFault::Recover(reason),
        }
    }
}

impl Printed for FormerFault {
    ghost use Rattle.recovery.specs.Formers.{former_fault_text};

    ghost printed = { former_fault_text };

    ghost longest = { 23 };

    /// `G1`, `G2 OFFSET` or `G3 OFFSET`; V1 to V4 as [`RecoverFault`]. A failure of the disk is
    /// told otherwise, and has no text here.
    fn text(&self, alloc: Global) -> Result<Text, NoMemory> {
        match *self {
            FormerFault::Recover(fault) => fault.text(alloc),
            FormerFault::SlotClosed => coded(alloc, b"G1", &[]),
            FormerFault::SlotBad(offset) => coded(alloc, b"G2", &[u64::from(offset)]),
            FormerFault::ManifestBad(offset) => coded(alloc, b"G3", &[u64::from(offset)]),
            FormerFault::DiskFailed | FormerFault::Memory => Ok(Text::empty(alloc)),
        }
    }
}
