//! Why bytes are no list of batches, or no batch.
ghost use Rattle.std.specs.Prelude.{◌≡◌};
ghost use Rattle.batch_lists.specs.declared.fault.BatchFault.TheVariants.{Memory};
ghost use Rattle.batch_lists.specs.BatchFaults.{batches_fault, batches_word, named, refused};

use field_codec::FieldFault;
use header_sections::SectionFault;
use load_base::{IdentFault, NameFault, NoMemory, TextFault};
use media_lists::{ListFault, PathFault, WordFault};
use part_number::PartFault;

/// Why a text field of a list of batches or of a batch is refused.
#[derive(Clone, Copy, Debug, PartialEq, Eq)]
pub enum BatchWordFault {
    /// A name's fault, N1 to N3.
    Name(NameFault),
    /// A part number's fault, P1 to P4.
    Part(PartFault),
    /// An Ident's fault, I1 or I2.
    Ident(IdentFault),
}

/// Why bytes are no list of batches (this project's layout, docs/FORMATS.md). Offsets are in bytes
/// from the start of the list, and entries count from 1.
#[derive(Clone, Copy, Debug, PartialEq, Eq)]
pub enum BatchesFault {
    /// L1: a field doesn't fit; the offset where it begins.
    Short(u64),
    /// L2: the length in words of 2 bytes is `said`, and the list has `found` bytes.
    Length {
        said: u64,
        found: u64,
    },
    /// L3: another version than 0xB004.
    Version(u64),
    /// L4: the spare word isn't 0.
    Spare(u64),
    /// L5: pointer `which`, 1 to 3, is word `said`; its section begins at word `expected`.
    Pointer {
        which: u64,
        said: u64,
        expected: u64,
    },
    /// L6: a pad byte isn't 0; its offset.
    Pad(u64),
    /// L7: a name or part number is refused; the offset of its bytes.
    Word {
        place: u64,
        fault: BatchWordFault,
    },
    /// L8: the distance of an entry is neither its length in words nor, for the last, 0.
    Distance(u64),
    /// L9: there are no members, or the number of a member isn't 1 to their number; its offset.
    Member(u64),
    /// L10: the name of a batch's file that stands in an earlier entry too.
    Repeated(u64),
    /// L11: more than 1,048,576 bytes, or a count of more than 1,024.
    TooLong,
    /// L12: bytes follow the check sum; the offset of the first.
    Rest(u64),
    /// L13: the check sum is `found`, and `said` stands there.
    Crc {
        said: u64,
        found: u64,
    },
    /// Out of memory.
    Memory,
}

impl From<ListFault> for BatchesFault {
    ghost from_gives = { λ list fault. fault ≡ batches_fault list };

    fn from(list: ListFault) -> BatchesFault {
        match list {
            ListFault::Short(offset) => BatchesFault::Short(offset),
            ListFault::Length { said, found } => BatchesFault::Length { said, found },
            ListFault::Version(found) => BatchesFault::Version(found),
            ListFault::Spare(found) => BatchesFault::Spare(found),
            ListFault::Pointer {
                which,
                said,
                expected,
            } => BatchesFault::Pointer {
                which,
                said,
                expected,
            },
            ListFault::Pad(offset) => BatchesFault::Pad(offset),
            ListFault::Word { place, fault } => BatchesFault::Word {
                place,
                fault: word_of(fault),
            },
            ListFault::Distance(entry) => BatchesFault::Distance(entry),
            ListFault::Member(offset) => BatchesFault::Member(offset),
            ListFault::Repeated(entry) => BatchesFault::Repeated(entry),
            ListFault::TooLong => BatchesFault::TooLong,
            ListFault::Rest(offset) => BatchesFault::Rest(offset),
            ListFault::Crc { said, found } => BatchesFault::Crc { said, found },
            ListFault::Memory => BatchesFault::Memory,
        }
    }
}

/// A list of batches has no text and no path, so that their faults never come.
fn word_of(word: WordFault) -> BatchWordFault
    ensures { result ≡ batches_word word }
{
    match word {
        WordFault::Name(fault) => BatchWordFault::Name(fault),
        WordFault::Part(fault) => BatchWordFault::Part(fault),
        WordFault::Text(TextFault::TooLong(found)) => {
            BatchWordFault::Ident(IdentFault::Length(found))
        }
        WordFault::Text(TextFault::BadByte(offset)) => {
            BatchWordFault::Ident(IdentFault::BadByte(offset))
        }
        WordFault::Text(TextFault::Memory) => BatchWordFault::Ident(IdentFault::Length(0)),
        WordFault::Path(PathFault::Path(end)) => BatchWordFault::Ident(IdentFault::BadByte(end)),
    }
}

/// Why bytes are no batch (this project's layout, docs/FORMATS.md). Offsets are in bytes from the
/// start of the batch.
#[derive(Clone, Copy, Debug, PartialEq, Eq)]
pub enum BatchFault {
    /// J1: a field doesn't fit; the offset where it begins.
    Short(u64),
    /// J2: the length in words of 2 bytes is `said`, and the batch has `found` bytes.
    Length { said: u64, found: u64 },
    /// J3: another version than 0xC004.
    Version(u64),
    /// J4: the spare word isn't 0.
    Spare(u64),
    /// J5: a pad byte isn't 0; its offset.
    Pad(u64),
    /// J6: a part number or Ident is refused; the offset of its bytes.
    Word { place: u64, fault: BatchWordFault },
    /// J7: not 1 to 64 targets, or not 1 to 32 parts of a target; the offset of the count.
    Count(u64),
    /// J8: bytes follow the check sum; the offset of the first.
    Rest(u64),
    /// J9: the check sum is `found`, and `said` stands there.
    Crc { said: u64, found: u64 },
    /// J10: more than 131,072 bytes.
    TooLong,
    /// Out of memory.
    Memory,
}

impl From<NoMemory> for BatchFault {
    ghost from_gives = { λ _ fault. fault ≡ Memory };

    fn from(_: NoMemory) -> BatchFault {
        BatchFault::Memory
    }
}

impl From<FieldFault> for BatchFault {
    ghost from_gives = { λ field fault. fault ≡ named field };

    fn from(field: FieldFault) -> BatchFault {
        match field {
            FieldFault::Short(offset) => BatchFault::Short(offset),
            FieldFault::BadPad(offset) => BatchFault::Pad(offset),
        }
    }
}

impl From<SectionFault> for BatchFault {
    ghost from_gives = { λ piece fault. fault ≡ refused piece };

    fn from(piece: SectionFault) -> BatchFault {
        match piece {
            SectionFault::Short(offset) => BatchFault::Short(offset),
            SectionFault::Pad(offset) => BatchFault::Pad(offset),
            SectionFault::Length { said, found } => BatchFault::Length { said, found },
            SectionFault::Version(found) => BatchFault::Version(found),
            SectionFault::Part { offset, fault } => BatchFault::Word {
                place: offset,
                fault: BatchWordFault::Part(fault),
            },
            SectionFault::Rest(offset) => BatchFault::Rest(offset),
            SectionFault::Sum { said, found } => BatchFault::Crc { said, found },
            SectionFault::Memory => BatchFault::Memory,
            // A batch has no pointer, name or text among these pieces.
            SectionFault::Pointer { said, .. } => BatchFault::Short(said),
            SectionFault::Name { offset, fault } => BatchFault::Word {
                place: offset,
                fault: BatchWordFault::Name(fault),
            },
            SectionFault::Text { offset, .. } => BatchFault::Short(offset),
        }
    }
}
