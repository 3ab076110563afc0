//! Why a piece is refused.
ghost use Rattle.std.specs.Prelude.{◌≡◌};
ghost use Rattle.header_sections.specs.Sections.{named};
ghost use Rattle.header_sections.specs.declared.fault.SectionFault.TheVariants.{Memory};

use field_codec::FieldFault;
use load_base::{NameFault, NoMemory, TextFault};
use part_number::PartFault;

/// Why a piece is refused. Offsets are in bytes from the start of the header or list. A nested
/// fault is never out of memory.
#[derive(Clone, Copy, Debug, PartialEq, Eq)]
pub enum SectionFault {
    /// A field doesn't fit; the offset where it begins.
    Short(u64),
    /// A pad byte isn't 0; its offset.
    Pad(u64),
    /// The length in words of 2 bytes is `said`, and there are `found` bytes.
    Length {
        said: u64,
        found: u64,
    },
    /// Another version.
    Version(u64),
    /// Pointer `which` is word `said`; its section begins at word `expected`.
    Pointer {
        which: u64,
        said: u64,
        expected: u64,
    },
    /// A name is refused; the offset of its bytes.
    Name {
        offset: u64,
        fault: NameFault,
    },
    /// A part number is refused; the offset of its bytes.
    Part {
        offset: u64,
        fault: PartFault,
    },
    /// A text is refused; the offset of its bytes.
    Text {
        offset: u64,
        fault: TextFault,
    },
    /// Bytes follow the last field; the offset of the first.
    Rest(u64),
    /// The check sum is `found`, and `said` stands there.
    Sum {
        said: u64,
        found: u64,
    },
    /// Out of memory.
    Memory,
}

impl From<NoMemory> for SectionFault {
    ghost from_gives = { λ _ fault. fault ≡ Memory };

    fn from(_: NoMemory) -> SectionFault {
        SectionFault::Memory
    }
}

impl From<FieldFault> for SectionFault {
    ghost from_gives = { λ field fault. fault ≡ named field };

    fn from(field: FieldFault) -> SectionFault {
        match field {
            FieldFault::Short(offset) => SectionFault::Short(offset),
            FieldFault::BadPad(offset) => SectionFault::Pad(offset),
        }
    }
}
