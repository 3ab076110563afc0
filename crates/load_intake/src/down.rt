//! Why a target goes down.
ghost use Rattle.std.specs.Prelude.{◌≡◌};
ghost use Rattle.load_intake.specs.declared.down.Down.TheVariants.{Memory};

use load_base::NoMemory;

/// Why a target goes down: it isn't used again until it boots.
#[derive(Clone, Copy, Debug, PartialEq, Eq)]
pub enum Down {
    /// The disk failed, and its count of faults rose.
    DiskFailed,
    /// Out of memory.
    Memory,
}

impl From<NoMemory> for Down {
    ghost from_gives = { λ _ down. down ≡ Memory };

    fn from(_: NoMemory) -> Down {
        Down::Memory
    }
}
