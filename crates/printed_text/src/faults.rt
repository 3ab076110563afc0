//! The texts of faults.
ghost use Rattle.std.specs.Prelude.{◌≡◌, ℕ, ◌+◌, ◌≤◌, ◌++◌, List, true, length, IfOk, OnOk};
ghost use Rattle.std.specs.List.{list_all};
ghost use Rattle.load_base.specs.Text.{is_printable};
ghost use Rattle.printed_text.specs.FaultTexts.{coded as coded_text, nested as nested_text};
ghost use Rattle.printed_text.specs.FaultTexts.{number_text, longest_coded, name_fault_text};
ghost use Rattle.printed_text.specs.FaultTexts.{text_fault_text, ident_fault_text};

use load_base::{Bytes, IdentFault, NameFault, NoMemory, Text, TextFault};
use std::alloc::Global;

/// A fault that is printed: its code, each field in decimal after one space, and a fault within it
/// in its place in the same way, as in `H12 50 N3 2`.
pub trait Printed {
    /// What it is printed as. Memory is no fault of what was read, and is printed as nothing.
    ghost printed: { Self → List ℕ };

    /// The most bytes that one has.
    ghost longest: { ℕ };

    /// What it is printed as.
    fn text(&self, alloc: Global) -> Result<Text, NoMemory>
        ensures text { IfOk result (λ text. text ≡ printed self.now) }
        ensures short { IfOk result (λ text. length text ≤ longest) };
}

/// A code and numbers.
#[tactic(auto, unfolding(crate::specs::FaultTexts::coded))]
pub fn coded(alloc: Global, code: &[u8], numbers: &[u64]) -> Result<Text, NoMemory>
    requires code { list_all is_printable code.now ≡ true }
    requires short { longest_coded code.now numbers.now ≤ 255 }
    ensures text { IfOk result (λ text. text ≡ coded_text code.now numbers.now) }
    ensures short { IfOk result (λ text. length text ≤ longest_coded code.now numbers.now) }
{
    let mut out = Bytes::new(alloc);
    out.extend(code)?;
    for number in numbers {
        put_after_space(alloc, &mut out, *number)?;
    }
    Ok(Text::of_printable(out))
}

#[tactic(auto, unfolding(crate::specs::FaultTexts::number_text))]
fn put_after_space(alloc: Global, out: &mut Bytes, number: u64) -> Result<(), NoMemory>
    ensures { OnOk result (out.new.items ≡ out.old.items ++ number_text number) }
{
    let digits = number.to_string(alloc)?;
    out.extend(b" ")?;
    out.extend(digits.as_bytes())
}

/// A code and numbers, and after them the text of a fault within this one.
#[tactic(auto, unfolding(crate::specs::FaultTexts::nested), using(crate::proofs::CodedTexts::nested_is_text))]
pub fn nested<F: Printed>(
    alloc: Global,
    code: &[u8],
    numbers: &[u64],
    inner: &F,
) -> Result<Text, NoMemory>
    requires code { list_all is_printable code.now ≡ true }
    requires short { longest_coded code.now numbers.now + (1 + F.longest) ≤ 255 }
    ensures text { IfOk result (λ text.
        text ≡ nested_text (coded_text code.now numbers.now) (F.printed inner.now)) }
    ensures short { IfOk result (λ text.
        length text ≤ longest_coded code.now numbers.now + (1 + F.longest)) }
{
    let outer = coded(alloc, code, numbers)?;
    let inner = inner.text(alloc)?;
    let mut out = Bytes::new(alloc);
    out.extend(outer.as_slice())?;
    out.extend(b" ")?;
    out.extend(inner.as_slice())?;
    Ok(Text::of_printable(out))
}

impl Printed for NameFault {
    ghost printed = { name_fault_text };

    ghost longest = { 23 };

    /// `N1`, `N2` or `N3 OFFSET`.
    fn text(&self, alloc: Global) -> Result<Text, NoMemory> {
        match *self {
            NameFault::Empty => coded(alloc, b"N1", &[]),
            NameFault::TooLong => coded(alloc, b"N2", &[]),
            NameFault::BadByte(offset) => coded(alloc, b"N3", &[offset]),
        }
    }
}

impl Printed for TextFault {
    ghost printed = { text_fault_text };

    ghost longest = { 23 };

    /// `X1 FOUND` or `X2 OFFSET`.
    fn text(&self, alloc: Global) -> Result<Text, NoMemory> {
        match *self {
            TextFault::TooLong(found) => coded(alloc, b"X1", &[found]),
            TextFault::BadByte(offset) => coded(alloc, b"X2", &[offset]),
            TextFault::Memory => Ok(Text::empty(alloc)),
        }
    }
}

impl Printed for IdentFault {
    ghost printed = { ident_fault_text };

    ghost longest = { 23 };

    /// `I1 FOUND` or `I2 OFFSET`.
    fn text(&self, alloc: Global) -> Result<Text, NoMemory> {
        match *self {
            IdentFault::Length(found) => coded(alloc, b"I1", &[found]),
            IdentFault::BadByte(offset) => coded(alloc, b"I2", &[offset]),
        }
    }
}
