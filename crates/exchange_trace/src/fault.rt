//! Why a text is no script.
ghost use Rattle.std.specs.Prelude.{◌≡◌};
ghost use Rattle.exchange_trace.specs.declared.fault.ScriptFault.TheVariants.{Memory};

use load_base::NoMemory;

/// Why a text is no script. A line is its number, counted from 1; lines that are passed over count
/// too (docs/FORMATS.md, "Script").
#[derive(Clone, Copy, Debug, PartialEq, Eq)]
pub enum ScriptFault {
    /// S1: the line's first word is unknown, it has too few or too many words, or names no side.
    Word(u64),
    /// S2: a word is no decimal number in its range.
    Number(u64),
    /// S3: a word isn't an even number of hexadecimal digits, or has too many.
    Hex(u64),
    /// S4: a word is no Ident or no part number.
    Name(u64),
    /// S5: the text has more than 1,000,000 bytes.
    TooLong,
    /// S6: in a fleet's script, the word after `at` is no decimal number from 1 to the number of
    /// units.
    Unit(u64),
    /// Out of memory.
    Memory,
}

impl From<NoMemory> for ScriptFault {
    ghost from_gives = { λ _ fault. fault ≡ Memory };

    fn from(_: NoMemory) -> ScriptFault {
        ScriptFault::Memory
    }
}
