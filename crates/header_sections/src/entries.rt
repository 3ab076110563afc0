//! Lists of entries, each after its distance.
ghost use Rattle.std.specs.Prelude.{◌≡◌, ◌++◌, ◌+◌, ◌*◌, ◌==◌, ◌<◌, ◌≤◌, ◌^◌, length, false, OnOk};
ghost use Rattle.std.specs.List.{concat, All};
ghost use Rattle.field_grammar.specs.Spelling.{spelled_length};
ghost use Rattle.header_sections.specs.Sections.{distance_of};
ghost use Rattle.header_sections.specs.SectionFields.{entry_size, entry_fields, entries_fields};
ghost use Rattle.header_sections.specs.SectionFields.{HaveDistances};

use field_codec::Writer;
use load_base::NoMemory;

/// An entry of a list, which can be written after its distance.
pub trait Entry {
    ghost use Rattle.std.specs.Prelude.{List, ℕ};

    /// Its fields after the distance.
    ghost body_fields: { Self → List (List ℕ) };

    /// It meets the limits of its own fields.
    ghost Fits: { Self → Type 0 };

    /// The bytes of these fields.
    fn body_size(&self) -> u64
        requires { Fits self.now }
        ensures size { result ≡ spelled_length (body_fields self.now) }
        ensures small { result < 2 ^ 32 };

    /// Writes these fields.
    fn put_body(&self, out: &mut Writer) -> Result<(), NoMemory>
        requires { Fits self.now }
        ensures { OnOk result (out.new ≡ out.old ++ concat (body_fields self.now)) };
}

/// Whether `said` is the distance of an entry of `size` bytes, which is the last of its list or
/// not.
pub fn is_distance(said: u16, size: usize, last: bool) -> bool
    ensures { result ≡ (said == distance_of last size) }
{
    let due = if last { 0 } else { size / 2 };
    said as usize == due
}

/// The bytes of a count, 2 bytes, and that many entries.
pub fn entries_size<E: Entry>(entries: &[E]) -> u64
    requires count { length entries.now < 2 ^ 16 }
    requires each { All E.Fits entries.now }
    ensures size { result ≡ spelled_length (entries_fields E.body_fields entries.now) }
    ensures small { result ≤ 2 + 2 ^ 33 * length entries.now }
{
    let mut size = 2;
    for entry in entries {
        size += 2 + entry.body_size();
    }
    size
}

/// Writes a count, 2 bytes, and that many entries.
pub fn put_entries<E: Entry>(out: &mut Writer, entries: &[E]) -> Result<(), NoMemory>
    requires count { length entries.now < 2 ^ 16 }
    requires each { All E.Fits entries.now }
    requires distances { HaveDistances E.body_fields entries.now }
    ensures { OnOk result (out.new ≡ out.old ++ concat (entries_fields E.body_fields entries.now)) }
{
    out.put_u16(entries.len() as u16)?;
    for (index, entry) in entries.iter().enumerate() {
        put_entry(out, entry, index + 1 == entries.len())?;
    }
    Ok(())
}

fn put_entry<E: Entry>(out: &mut Writer, entry: &E, last: bool) -> Result<(), NoMemory>
    requires fits { E.Fits entry.now }
    requires short { last ≡ false → entry_size E.body_fields entry.now ≤ 131070 }
    ensures { OnOk result (out.new ≡ out.old ++ concat
        (entry_fields E.body_fields last entry.now)) }
{
    out.put_u16(distance(entry, last))?;
    entry.put_body(out)?;
    Ok(())
}

fn distance<E: Entry>(entry: &E, last: bool) -> u16
    requires fits { E.Fits entry.now }
    requires short { last ≡ false → entry_size E.body_fields entry.now ≤ 131070 }
    ensures { result ≡ distance_of last (entry_size E.body_fields entry.now) }
{
    if last {
        0
    } else {
        ((2 + entry.body_size()) / 2) as u16
    }
}
