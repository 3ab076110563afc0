//! Why bytes are no load header.
ghost use Rattle.std.specs.Prelude.{◌≡◌};
ghost use Rattle.load_header.specs.declared.fault.HeaderFault.TheVariants.{Memory};
ghost use Rattle.load_header.specs.Header.{named, refused};

use field_codec::FieldFault;
use header_sections::SectionFault;
use load_base::{NameFault, NoMemory, TextFault};
use part_number::PartFault;

/// Why bytes are no load header (this project's layout, docs/FORMATS.md). Offsets are in bytes
/// from the start of the header. A nested fault is never out of memory.
#[derive(Clone, Copy, Debug, PartialEq, Eq)]
pub enum HeaderFault {
    /// H1: a field doesn't fit; the offset where it begins.
    Short(u64),
    /// H2: the length in words of 2 bytes is `said`, and the header has `found` bytes.
    Length {
        said: u64,
        found: u64,
    },
    /// H3: another version than 0x8004.
    Version(u64),
    /// H4: pointer `which`, 1 to 8, is word `said`; its section begins at word `expected`.
    Pointer {
        which: u64,
        said: u64,
        expected: u64,
    },
    /// H5: a pad byte isn't 0; its offset.
    Pad(u64),
    /// H6: the part number of the load is refused.
    Part(PartFault),
    /// H7: the length of the check value isn't 0.
    CheckValuePresent,
    /// H8: the distance of a file's entry is neither its length in words nor, for the last of its
    /// list, 0. Files count from 1, data files first.
    Distance(u64),
    /// H9: a file's lengths in words and in bytes disagree, or it has more than 16,777,215 bytes.
    /// Files count as in `Distance`.
    Sizes(u64),
    /// H10: the check sum of the header is `found`, and `said` stands there.
    HeaderCrc {
        said: u64,
        found: u64,
    },
    /// H11: more than 65,536 bytes.
    TooLong,
    /// H12: a file's name is refused; the offset of its bytes.
    Name {
        place: u64,
        fault: NameFault,
    },
    /// H13: a text is refused; the offset of its bytes.
    Text {
        place: u64,
        fault: TextFault,
    },
    /// H14: more than 255 data and support files together; the count so far.
    TooMany(u64),
    /// H15: bytes follow the load CRC; the offset of the first.
    Rest(u64),
    /// Out of memory.
    Memory,
}

impl From<NoMemory> for HeaderFault {
    ghost from_gives = { λ _ fault. fault ≡ Memory };

    fn from(_: NoMemory) -> HeaderFault {
        HeaderFault::Memory
    }
}

impl From<FieldFault> for HeaderFault {
    ghost from_gives = { λ field fault. fault ≡ named field };

    fn from(field: FieldFault) -> HeaderFault {
        match field {
            FieldFault::Short(offset) => HeaderFault::Short(offset),
            FieldFault::BadPad(offset) => HeaderFault::Pad(offset),
        }
    }
}

impl From<SectionFault> for HeaderFault {
    ghost from_gives = { λ piece fault. fault ≡ refused piece };

    fn from(piece: SectionFault) -> HeaderFault {
        match piece {
            SectionFault::Short(offset) => HeaderFault::Short(offset),
            SectionFault::Pad(offset) => HeaderFault::Pad(offset),
            SectionFault::Length { said, found } => HeaderFault::Length { said, found },
            SectionFault::Version(found) => HeaderFault::Version(found),
            SectionFault::Pointer {
                which,
                said,
                expected,
            } => HeaderFault::Pointer {
                which,
                said,
                expected,
            },
            SectionFault::Name { offset, fault } => HeaderFault::Name {
                place: offset,
                fault,
            },
            SectionFault::Part { fault, .. } => HeaderFault::Part(fault),
            SectionFault::Text { offset, fault } => HeaderFault::Text {
                place: offset,
                fault,
            },
            SectionFault::Rest(offset) => HeaderFault::Rest(offset),
            SectionFault::Sum { said, found } => HeaderFault::HeaderCrc { said, found },
            SectionFault::Memory => HeaderFault::Memory,
        }
    }
}
