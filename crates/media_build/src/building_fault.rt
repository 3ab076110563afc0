//! Why a set isn't built.
ghost use Rattle.std.specs.Prelude.{◌≡◌};
ghost use Rattle.media_build.specs.declared.building_fault.BuildFault.TheVariants.{Memory};

use load_base::{Bytes, NoMemory};

/// Why a media set isn't built.
#[derive(Drop)]
pub enum BuildFault {
    /// There is no source of this name.
    Absent(Bytes),
    /// The source of this name has more than 16,777,215 bytes.
    TooLong(Bytes),
    /// All headers and the sources so far have more than 268,435,456 bytes together.
    TooLarge,
    /// The header of the load on this line has more than 65,536 bytes.
    HeaderTooLong(u64),
    /// A list breaks a limit of its format.
    ListTooLong,
    /// The host failed, and its count of faults rose.
    Failed,
    /// Out of memory.
    Memory,
}

impl From<NoMemory> for BuildFault {
    ghost from_gives = { λ _ fault. fault ≡ Memory };

    fn from(_: NoMemory) -> BuildFault {
        BuildFault::Memory
    }
}
