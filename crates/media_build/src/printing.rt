//! The text of a fault of a recipe (docs/FORMATS.md, "Printed text").
use crate::RecipeFault;
use load_base::{NoMemory, Text};
use printed_text::{Printed, coded};
use std::alloc::Global;

impl Printed for RecipeFault {
    ghost use Rattle.media_build.specs.FaultTexts.{recipe_fault_text};

    ghost printed = { recipe_fault_text };

    ghost longest = { 23 };

    /// `B1 LINE` to `B9 LINE`.
    fn text(&self, alloc: Global) -> Result<Text, NoMemory> {
        match *self {
            RecipeFault::Word(line) => coded(alloc, b"B1", &[line]),
            RecipeFault::Number(line) => coded(alloc, b"B2", &[line]),
            RecipeFault::Name(line) => coded(alloc, b"B3", &[line]),
            RecipeFault::Part(line) => coded(alloc, b"B4", &[line]),
            RecipeFault::Order(line) => coded(alloc, b"B5", &[line]),
            RecipeFault::Repeated(line) => coded(alloc, b"B6", &[line]),
            RecipeFault::Hex(line) => coded(alloc, b"B7", &[line]),
            RecipeFault::Limit(line) => coded(alloc, b"B8", &[line]),
            RecipeFault::NotInRecipe(line) => coded(alloc, b"B9", &[line]),
            RecipeFault::Memory => Ok(Text::empty(alloc)),
        }
    }
}
