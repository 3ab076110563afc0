//! Why a text is no recipe.
ghost use Rattle.std.specs.Prelude.{◌≡◌};
ghost use Rattle.media_build.specs.declared.fault.RecipeFault.TheVariants.{Memory};

use load_base::NoMemory;

/// Why a text is no recipe. Each has the number of its line, counted from 1; lines that are passed
/// over count too (docs/FORMATS.md, "Recipe").
#[derive(Clone, Copy, Debug, PartialEq, Eq)]
pub enum RecipeFault {
    /// B1: the line's first word is unknown, or it has too few or too many words.
    Word(u64),
    /// B2: a word is no decimal number in its range.
    Number(u64),
    /// B3: a word is no name that may stand there, or no text of its length.
    Name(u64),
    /// B4: a word is no part number.
    Part(u64),
    /// B5: a line that may not stand there, or the end of a recipe without a load or after a batch
    /// without a target, which has the number of the last line plus one.
    Order(u64),
    /// B6: an earlier line gives this name to a file.
    Repeated(u64),
    /// B7: a word isn't a multiple of four hexadecimal digits, or is empty.
    Hex(u64),
    /// B8: the 256th data or support file of a load, the 1,025th file of the set, the second user
    /// data of a load, or the 65th target of a batch; and, with the number 0, a text of more than
    /// 1,000,000 bytes.
    Limit(u64),
    /// B9: a word is the part number of no load of the recipe.
    NotInRecipe(u64),
    /// Out of memory.
    Memory,
}

impl From<NoMemory> for RecipeFault {
    ghost from_gives = { λ _ fault. fault ≡ Memory };

    fn from(_: NoMemory) -> RecipeFault {
        RecipeFault::Memory
    }
}
