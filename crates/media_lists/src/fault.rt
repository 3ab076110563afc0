//! Why bytes are no media list.
ghost use Rattle.std.specs.Prelude.{◌≡◌};
ghost use Rattle.media_lists.specs.declared.fault.ListFault.TheVariants.{Memory};
ghost use Rattle.media_lists.specs.Lists.{named, refused};

use field_codec::FieldFault;
use header_sections::SectionFault;
use load_base::{NameFault, NoMemory, TextFault};
use part_number::PartFault;

/// Why bytes are no path: a `\` followed by 0 to 4 names, each followed by `\`, of at most 64 bytes
/// (this project's layout, docs/FORMATS.md).
#[derive(Clone, Copy, Debug, PartialEq, Eq)]
pub enum PathFault {
    /// Q1: the length of the longest prefix of the bytes that is a prefix of some path.
    Path(u64),
}

/// Why a text field of a media list is refused.
#[derive(Clone, Copy, Debug, PartialEq, Eq)]
pub enum WordFault {
    /// A name's fault, N1 to N3.
    Name(NameFault),
    /// A part number's fault, P1 to P4.
    Part(PartFault),
    /// A text's fault, X1 or X2; never out of memory.
    Text(TextFault),
    /// A path's fault, Q1.
    Path(PathFault),
}

/// Why bytes are no media list (this project's layout, docs/FORMATS.md). Offsets are in bytes from
/// the start of the list, and entries count from 1.
#[derive(Clone, Copy, Debug, PartialEq, Eq)]
pub enum ListFault {
    /// L1: a field doesn't fit; the offset where it begins.
    Short(u64),
    /// L2: the length in words of 2 bytes is `said`, and the list has `found` bytes.
    Length {
        said: u64,
        found: u64,
    },
    /// L3: another version than 0x9004 of a list of loads, or 0xA004 of a list of files.
    Version(u64),
    /// L4: the spare word isn't 0.
    Spare(u64),
    /// L5: pointer `which`, 1 to 3, is word `said`; its section begins at word `expected`.
    Pointer {
        which: u64,
        said: u64,
        expected: u64,
    },
    /// L6: a pad byte isn't 0; its offset.
    Pad(u64),
    /// L7: a name, part number, text or path is refused; the offset of its bytes.
    Word {
        place: u64,
        fault: WordFault,
    },
    /// L8: the distance of an entry is neither its length in words nor, for the last, 0.
    Distance(u64),
    /// L9: there are no members, or the number of a member isn't 1 to their number; its offset.
    Member(u64),
    /// L10: a name that stands in an earlier entry too.
    Repeated(u64),
    /// L11: more than 1,048,576 bytes, or a count of more than 1,024.
    TooLong,
    /// L12: bytes follow the check sum; the offset of the first.
    Rest(u64),
    /// L13: the check sum is `found`, and `said` stands there.
    Crc {
        said: u64,
        found: u64,
    },
    /// Out of memory.
    Memory,
}

impl From<NoMemory> for ListFault {
    ghost from_gives = { λ _ fault. fault ≡ Memory };

    fn from(_: NoMemory) -> ListFault {
        ListFault::Memory
    }
}

impl From<FieldFault> for ListFault {
    ghost from_gives = { λ field fault. fault ≡ named field };

    fn from(field: FieldFault) -> ListFault {
        match field {
            FieldFault::Short(offset) => ListFault::Short(offset),
            FieldFault::BadPad(offset) => ListFault::Pad(offset),
        }
    }
}

impl From<SectionFault> for ListFault {
    ghost from_gives = { λ piece fault. fault ≡ refused piece };

    fn from(piece: SectionFault) -> ListFault {
        match piece {
            SectionFault::Short(offset) => ListFault::Short(offset),
            SectionFault::Pad(offset) => ListFault::Pad(offset),
            SectionFault::Length { said, found } => ListFault::Length { said, found },
            SectionFault::Version(found) => ListFault::Version(found),
            SectionFault::Pointer {
                which,
                said,
                expected,
            } => ListFault::Pointer {
                which,
                said,
                expected,
            },
            SectionFault::Name { offset, fault } => ListFault::Word {
                place: offset,
                fault: WordFault::Name(fault),
            },
            SectionFault::Part { offset, fault } => ListFault::Word {
                place: offset,
                fault: WordFault::Part(fault),
            },
            SectionFault::Text { offset, fault } => ListFault::Word {
                place: offset,
                fault: WordFault::Text(fault),
            },
            SectionFault::Rest(offset) => ListFault::Rest(offset),
            SectionFault::Sum { said, found } => ListFault::Crc { said, found },
            SectionFault::Memory => ListFault::Memory,
        }
    }
}
