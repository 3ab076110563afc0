//! Lines, each ended by a line feed.
ghost use Rattle.std.specs.Prelude.{◌≡◌, ◌∷◌, ◌++◌, [], OnOk, OnErr};
ghost use Rattle.printed_text.specs.Lines.{field_line, number_line};

use load_base::{Bytes, NoMemory};
use std::alloc::Global;

/// A line: the start of it, with the space after it, and the rest.
pub fn put_line(out: &mut Bytes, start: &[u8], rest: &[u8]) -> Result<(), NoMemory>
    ensures ok { OnOk result (out.new.items ≡ out.old.items ++ (start.now ++ rest.now ++ 10 ∷ [])) }
    ensures err { OnErr result (out.new.items ≡ out.old.items) }
{
    out.reserve(start.len() + rest.len() + 1)?;
    out.extend(start)?;
    out.extend(rest)?;
    out.extend(b"\n")
}

/// A line of the name of a field and its value.
#[tactic(auto, unfolding(crate::specs::Lines::field_line))]
pub fn put_field(out: &mut Bytes, name: &[u8], value: &[u8]) -> Result<(), NoMemory>
    ensures ok { OnOk result (out.new.items ≡ out.old.items ++ field_line name.now value.now) }
    ensures err { OnErr result (out.new.items ≡ out.old.items) }
{
    let Some(size) = (name.len() + value.len()).checked_add(2) else {
        return Err(NoMemory);
    };
    out.reserve(size)?;
    out.extend(name)?;
    out.extend(b" ")?;
    out.extend(value)?;
    out.extend(b"\n")
}

/// A line of the name of a field and its value in decimal.
pub fn put_number_field(
    alloc: Global,
    out: &mut Bytes,
    name: &[u8],
    number: u64,
) -> Result<(), NoMemory>
    ensures ok { OnOk result (out.new.items ≡ out.old.items ++ number_line name.now number) }
    ensures err { OnErr result (out.new.items ≡ out.old.items) }
{
    let digits = number.to_string(alloc)?;
    put_field(out, name, digits.as_bytes())
}
