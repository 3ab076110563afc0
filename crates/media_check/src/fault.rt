//! Why a media set isn't opened.
ghost use Rattle.std.specs.Prelude.{◌≡◌};
ghost use Rattle.media_check.specs.declared.fault.OpenFault.TheVariants.{Memory};

use load_base::{Bytes, NoMemory};

/// The most bytes of the listed files of a set, together: 268,435,456.
pub(crate) const LARGEST_SET: usize = 268_435_456;

/// Why a media set isn't opened.
#[derive(Drop)]
pub enum OpenFault {
    /// The file of this name of the host has more than 16,777,215 bytes.
    TooLong(Bytes),
    /// The listed files have more than 268,435,456 bytes together.
    TooLarge,
    /// The host failed, and its count of faults rose.
    Failed,
    /// Out of memory.
    Memory,
}

impl From<NoMemory> for OpenFault {
    ghost from_gives = { λ _ fault. fault ≡ Memory };

    fn from(_: NoMemory) -> OpenFault {
        OpenFault::Memory
    }
}
