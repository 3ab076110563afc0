//! Why bytes are no protocol file.
ghost use Rattle.std.specs.Prelude.{◌≡◌};
ghost use Rattle.load_protocol_files.specs.Faults.{named};
ghost use Rattle.load_protocol_files.specs.declared.fault.FileFault.TheVariants.{Memory};

use field_codec::FieldFault;
use load_base::{NameFault, NoMemory, TextFault};
use part_number::PartFault;

/// Why bytes are no protocol file: the first fault that is met from left to right. A offset is a
/// byte offset; that of a name, a part number or a text is of its first byte, after its length.
#[derive(Clone, Copy, Debug, PartialEq, Eq)]
pub enum FileFault {
    /// U1: a field passes the end of the bytes. The offset where it begins.
    Short(u64),
    /// U2: the file says another length than its own.
    Length { said: u64, found: u64 },
    /// U3: the version isn't 0x4133. The one found.
    Version(u16),
    /// U4: three bytes that are no digits, or say more than 100. The offset of the first.
    Digits(u64),
    /// U5: bytes follow the last field. The offset of the first.
    Rest(u64),
    /// U6: a text is no file name. Its offset, and what is wrong with it.
    Name { place: u64, fault: NameFault },
    /// U7: a text is no part number. Its offset, and what is wrong with it.
    Part { place: u64, fault: PartFault },
    /// U8: a text has a byte that no text has. Its offset, and what is wrong with it, which is
    /// never Memory.
    Text { place: u64, fault: TextFault },
    /// Out of memory.
    Memory,
}

impl From<NoMemory> for FileFault {
    ghost from_gives = { λ _ fault. fault ≡ Memory };

    fn from(_: NoMemory) -> FileFault {
        FileFault::Memory
    }
}

impl From<FieldFault> for FileFault {
    ghost from_gives = { λ field fault. fault ≡ named field };

    fn from(field: FieldFault) -> FileFault {
        match field {
            FieldFault::Short(offset) | FieldFault::BadPad(offset) => FileFault::Short(offset),
        }
    }
}
