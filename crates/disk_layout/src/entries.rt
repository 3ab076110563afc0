//! What a manifest of layout 2 says of its loads, after its first four bytes.
ghost use Rattle.std.specs.Prelude.{◌≡◌, ◌≤◌, ◌∷◌, ◌++◌, List, length, IfOk, IsErrOf};
ghost use Rattle.field_grammar.specs.Answers.{Decodes};
ghost use Rattle.field_grammar.specs.Grammar.{Spelled, mapped, times};
ghost use Rattle.disk_layout.specs.Entries.{SaysLoad, SaysLoads, StandsAfter, typed_loads};
ghost use Rattle.disk_layout.specs.Manifest.{LoadEntry, manifest, file_entry, load_entry};
ghost use Rattle.disk_layout.specs.Manifest.{entries_length};
ghost use Rattle.disk_layout.specs.PassedLoads.{BeginsWithLoad, PassesLoad, most_length};
ghost use Rattle.disk_layout.specs.declared.manifest.Layout.TheVariants.{Two};
ghost use Rattle.disk_layout.specs.declared.manifest.ManifestFault.TheVariants.{Memory};

use crate::manifest::{
    Layout, ManifestFault, read_file, read_file_count, read_head, read_part, read_type_number,
};
use field_codec::Reader;

/// Where a load stands: its entry among those of all loads, and its files in the bank.
#[derive(Clone, Copy, Debug, PartialEq, Eq)]
pub struct LoadPlace {
    /// Where its entry begins, counted from that of the first load.
    pub entry: usize,
    /// How many bytes its entry has.
    pub entry_length: usize,
    /// Where its files begin, counted from the bank's start.
    pub files: u64,
    /// How many bytes they have together.
    pub files_length: u64,
}

/// The entries of the loads that have a type id: in layout 2 all after the first four bytes, in
/// layout 1 none.
pub fn typed_entries(bytes: &[u8]) -> &[u8]
    ensures { (loads : List LoadEntry) → Spelled manifest bytes.now loads
        → SaysLoads result.now (typed_loads loads) }
{
    let mut reader = Reader::new(bytes);
    match read_head(&mut reader) {
        Ok(head) => match head.layout {
            Layout::One => &[],
            Layout::Two => &bytes[reader.place()..],
        },
        Err(_) => &[],
    }
}

/// Where the load of this number, from 0, stands, whose entries these are. Each entry before it is
/// read, and no memory is taken.
pub fn find_load(entries: &[u8], number: u16) -> LoadPlace
    requires said { SaysLoad entries.now number }
    ensures place { (before behind : List LoadEntry) (load : LoadEntry)
        → SaysLoads entries.now (before ++ load ∷ behind) → length before ≡ number
        → StandsAfter before load result }
{
    let mut reader = Reader::new(entries);
    let mut files = 0;
    for _ in 0..number {
        files += pass_load(&mut reader);
    }
    let entry = reader.place();
    let files_length = pass_load(&mut reader);
    LoadPlace {
        entry,
        entry_length: reader.place() - entry,
        files,
        files_length,
    }
}

/// Reads over a load, which stands there, and gives how many bytes its files have together.
fn pass_load(reader: &mut Reader) -> u64
    requires stands { BeginsWithLoad reader.old }
    ensures passes { PassesLoad reader.old result reader.new }
    ensures small { result ≤ most_length }
{
    match read_lengths(reader) {
        Ok(length) => length,
        // The premise says that an entry stands here.
        Err(_) => unreachable!(),
    }
}

/// How many bytes the files of the next load have together.
#[tactic(auto, unfolding(crate::specs::Manifest::load_entry))]
fn read_lengths(reader: &mut Reader) -> Result<u64, ManifestFault>
    ensures reads { Decodes Memory (λ n. n)
        (mapped (λ (l : LoadEntry). entries_length l.files) (load_entry Two))
        reader.old result reader.new }
    ensures small { IfOk result (λ n. n ≤ most_length) }
    ensures no_want { ¬ IsErrOf result Memory }
{
    read_part(reader)?;
    read_type_number(reader)?;
    let count = read_file_count(reader)?;
    read_file_lengths(count, reader)
}

/// How many bytes the next files have together.
fn read_file_lengths(count: u16, reader: &mut Reader) -> Result<u64, ManifestFault>
    ensures reads { Decodes Memory (λ n. n) (mapped entries_length (times count file_entry))
        reader.old result reader.new }
    ensures small { IfOk result (λ n. n ≤ most_length) }
    ensures no_want { ¬ IsErrOf result Memory }
{
    let mut files = 0;
    for _ in 0..count {
        files += u64::from(read_file(reader)?.length);
    }
    Ok(files)
}
