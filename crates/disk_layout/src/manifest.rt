//! What a manifest says of the contents of its bank.
ghost use Rattle.std.specs.Prelude.{◌≡◌, ◌+◌, ◌≤◌, ◌⊎◌, [], ◌∷◌, Ok, Err, map};
ghost use Rattle.std.specs.Prelude.{IfOk, IfErr, OnOk, IsErrOf};
ghost use Rattle.field_grammar.specs.Grammar.{Spelled, times, ended};
ghost use Rattle.field_grammar.specs.Answers.{answer, Decodes, AnswersAs};
ghost use Rattle.disk_layout.specs.Manifest.{FitsALayout, RefusesManifestBytes, entry_view};
ghost use Rattle.disk_layout.specs.Offsets.{most_loads};
ghost use Rattle.disk_layout.specs.Manifest.{manifest_view, first_number, load_count, in_layout};
ghost use Rattle.disk_layout.specs.Manifest.{manifest_head, part, type_number, type_of_load};
ghost use Rattle.disk_layout.specs.Manifest.{file_count};
ghost use Rattle.disk_layout.specs.Manifest.{file_name, file_length, file_entry, load_entry};
ghost use Rattle.disk_layout.specs.Manifest.{manifest, left_in, AreLeftIn, with_these};
ghost use Rattle.disk_layout.specs.declared.manifest.ManifestFault.TheVariants.{Wrong, Memory};

use crate::offsets::{LAYOUT_MARK, MOST_FILES, MOST_LOADS};
use field_codec::Reader;
use load_base::{LONGEST_FILE, List, Name, NoMemory, PartText};
use std::alloc::Global;

/// A file of a load: its name, and how many bytes it has, at most 16,777,215.
#[derive(Clone, Copy)]
pub struct ManifestFile {
    pub name: Name,
    pub length: u32,
}

/// A load: its part number, its type id, and its files in the order in which they stand in the
/// bank, the header first.
#[derive(Drop)]
pub struct ManifestLoad {
    pub part: PartText,
    /// The type id of its header, any number; none in a manifest of layout 1, which doesn't say it.
    pub type_id: Option<u16>,
    pub files: List<ManifestFile>,
}

/// The layout of a manifest (docs/DISK.md), which its first two bytes tell.
#[derive(Clone, Copy, Debug, PartialEq, Eq)]
pub enum Layout {
    /// Without type ids: it begins with the number of its loads.
    One,
    /// With the type id of each load: it begins with the mark `A0 02`.
    Two,
}

/// What stands in a bank: the loads in their order, at most 32 of them, each of 1 to 256 files. The
/// files stand back to back from the bank's start on, and the manifest stands after the last.
#[derive(Drop)]
pub struct Manifest {
    pub loads: List<ManifestLoad>,
}

impl Manifest {
    /// The manifest that the bytes spell, or the first byte offset at which they can't go on, or
    /// Memory.
    pub fn decode(alloc: Global, bytes: &[u8]) -> Result<Manifest, ManifestFault>
        ensures found { IfOk result (λ m. Spelled manifest bytes.now (manifest_view m)) }
        ensures fits { IfOk result (λ m. FitsALayout (manifest_view m)) }
        ensures refused { IfErr result (λ fault. RefusesManifestBytes bytes.now fault) }
    {
        read_manifest(alloc, bytes)
    }
}

/// A manifest that is read load by load, so that no more than one of them takes memory. After a
/// refusal it isn't read on.
#[derive(Drop)]
pub struct ManifestReader<'a> {
    reader: Reader<'a>,
    layout: Layout,
    left: u16,
}

impl<'a> ManifestReader<'a> {
    /// Reads the layout and how many loads there are, or gives the fault of the offset at which
    /// that can't be.
    pub fn new(bytes: &'a [u8]) -> Result<ManifestReader<'a>, ManifestFault>
        ensures begun { IfOk result (λ loads. left_in loads ≡ answer manifest bytes.now) }
        ensures count { IfOk result (λ loads. loads.left ≤ most_loads) }
        ensures refused { IfErr result (λ fault. answer manifest bytes.now ≡ Err fault) }
    {
        let mut reader = Reader::new(bytes);
        let head = read_head(&mut reader)?;
        Ok(ManifestReader {
            reader,
            layout: head.layout,
            left: head.loads,
        })
    }

    /// How many loads are left.
    pub fn left(&self) -> u16
        ensures is { result ≡ self.now.left }
        ensures counts { AreLeftIn self.now result }
    {
        self.left
    }

    /// Reads the next load, where one is left, or gives the first byte offset at which its bytes
    /// can't go on, or Memory.
    pub fn next_load(&mut self, alloc: Global) -> Result<ManifestLoad, ManifestFault>
        requires { 1 ≤ self.old.left }
        ensures reads { Decodes Memory entry_view (load_entry self.old.layout) self.old.reader
            result self.new.reader }
        ensures first { IfOk result
            (λ load. left_in self.old ≡ with_these (entry_view load ∷ []) (left_in self.new)) }
        ensures left { OnOk result (self.new.left + 1 ≡ self.old.left) }
        ensures refused { IfErr result
            (λ fault. (fault ≡ Memory) ⊎ (left_in self.old ≡ Err fault)) }
    {
        let load = read_load(alloc, self.layout, &mut self.reader)?;
        self.left -= 1;
        Ok(load)
    }

    /// Tests that nothing follows, where no load is left, or gives the offset of the first byte
    /// that does.
    pub fn end(&mut self) -> Result<(), ManifestFault>
        requires { self.old.left ≡ 0 }
        ensures ended { OnOk result (left_in self.old ≡ Ok []) }
        ensures refused { IfErr result (λ fault. left_in self.old ≡ Err fault) }
    {
        read_end(&mut self.reader)
    }
}

/// Why bytes are no manifest.
#[derive(Clone, Copy, Debug, PartialEq, Eq)]
pub enum ManifestFault {
    /// The first offset at which they can't go on, from 0: where a field begins that doesn't fit or
    /// is wrong, or the first byte after the manifest.
    Wrong(u64),
    /// Out of memory. The bytes are not at fault.
    Memory,
}

impl From<NoMemory> for ManifestFault {
    ghost from_gives = { λ _ fault. fault ≡ Memory };

    fn from(_: NoMemory) -> ManifestFault {
        ManifestFault::Memory
    }
}

#[tactic(auto, unfolding(crate::specs::Manifest::manifest))]
fn read_manifest(alloc: Global, bytes: &[u8]) -> Result<Manifest, ManifestFault>
    ensures { AnswersAs Memory manifest_view result (answer manifest bytes.now) }
{
    let mut reader = Reader::new(bytes);
    let head = read_head(&mut reader)?;
    let loads = read_loads(alloc, head.layout, head.loads, &mut reader)?;
    read_end(&mut reader)?;
    Ok(Manifest { loads })
}

#[tactic(auto, using(field_grammar::proofs::LoopLemmas::goes_on_seen, field_grammar::proofs::LoopLemmas::ends, field_grammar::proofs::LoopLemmas::is_done, field_grammar::proofs::LoopLemmas::begins))]
fn read_loads(
    alloc: Global,
    layout: Layout,
    count: u16,
    reader: &mut Reader,
) -> Result<List<ManifestLoad>, ManifestFault>
    ensures { Decodes Memory
        (λ loads. map entry_view loads.items)
        (times count (load_entry layout)) reader.old result reader.new }
{
    let mut loads = List::new(alloc);
    for _ in 0..count {
        loads.push(read_load(alloc, layout, reader)?)?;
    }
    Ok(loads)
}

#[tactic(auto, unfolding(crate::specs::Manifest::load_entry))]
fn read_load(
    alloc: Global,
    layout: Layout,
    reader: &mut Reader,
) -> Result<ManifestLoad, ManifestFault>
    ensures { Decodes Memory entry_view (load_entry layout) reader.old result reader.new }
{
    let part = read_part(reader)?;
    let type_id = read_type(layout, reader)?;
    let count = read_file_count(reader)?;
    let files = read_files(alloc, count, reader)?;
    Ok(ManifestLoad {
        part,
        type_id,
        files,
    })
}

fn read_type(layout: Layout, reader: &mut Reader) -> Result<Option<u16>, ManifestFault>
    ensures { Decodes Memory (λ id. id) (type_of_load layout) reader.old result reader.new }
{
    match layout {
        Layout::One => Ok(None),
        Layout::Two => Ok(Some(read_type_number(reader)?)),
    }
}

#[tactic(auto, unfolding(crate::specs::Manifest::type_number))]
pub(crate) fn read_type_number(reader: &mut Reader) -> Result<u16, ManifestFault>
    ensures reads { Decodes Memory (λ id. id) type_number reader.old result reader.new }
    ensures no_want { ¬ IsErrOf result Memory }
{
    let wrong = ManifestFault::Wrong(reader.place() as u64);
    match reader.take_u16() {
        Ok(id) => Ok(id),
        Err(_) => Err(wrong),
    }
}

#[tactic(auto, using(field_grammar::proofs::LoopLemmas::goes_on, field_grammar::proofs::LoopLemmas::ends, field_grammar::proofs::LoopLemmas::is_done, field_grammar::proofs::LoopLemmas::begins))]
fn read_files(
    alloc: Global,
    count: u16,
    reader: &mut Reader,
) -> Result<List<ManifestFile>, ManifestFault>
    ensures { Decodes Memory
        (λ files. files.items) (times count file_entry) reader.old result reader.new }
{
    let mut files = List::new(alloc);
    for _ in 0..count {
        files.push(read_file(reader)?)?;
    }
    Ok(files)
}

#[tactic(auto, unfolding(crate::specs::Manifest::file_entry))]
pub(crate) fn read_file(reader: &mut Reader) -> Result<ManifestFile, ManifestFault>
    ensures reads { Decodes Memory (λ file. file) file_entry reader.old result reader.new }
    ensures no_want { ¬ IsErrOf result Memory }
{
    let name = read_name(reader)?;
    let length = read_length(reader)?;
    Ok(ManifestFile { name, length })
}

/// How a manifest begins: its layout, and how many loads it has.
#[derive(Clone, Copy)]
pub(crate) struct Head {
    pub(crate) layout: Layout,
    loads: u16,
}

#[tactic(auto, unfolding(crate::specs::Manifest::manifest_head))]
pub(crate) fn read_head(reader: &mut Reader) -> Result<Head, ManifestFault>
    ensures reads { Decodes Memory (λ head. in_layout head.layout head.loads) manifest_head
        reader.old result reader.new }
    ensures count { IfOk result (λ head. head.loads ≤ most_loads) }
    ensures no_want { ¬ IsErrOf result Memory }
{
    let first = read_first_number(reader)?;
    if first == LAYOUT_MARK {
        return Ok(Head {
            layout: Layout::Two,
            loads: read_load_count(reader)?,
        });
    }
    // Without the mark it is the number of the loads itself.
    Ok(Head {
        layout: Layout::One,
        loads: first,
    })
}

#[tactic(auto, unfolding(crate::specs::Manifest::first_number))]
fn read_first_number(reader: &mut Reader) -> Result<u16, ManifestFault>
    ensures reads { Decodes Memory (λ n. n) first_number reader.old result reader.new }
    ensures small { IfOk result (λ n. (n ≡ LAYOUT_MARK) ⊎ (n ≤ most_loads)) }
    ensures no_want { ¬ IsErrOf result Memory }
{
    let wrong = ManifestFault::Wrong(reader.place() as u64);
    match reader.take_u16() {
        Ok(n) if n == LAYOUT_MARK || n <= MOST_LOADS => Ok(n),
        _ => Err(wrong),
    }
}

#[tactic(auto, unfolding(crate::specs::Manifest::load_count))]
fn read_load_count(reader: &mut Reader) -> Result<u16, ManifestFault>
    ensures reads { Decodes Memory (λ count. count) load_count reader.old result reader.new }
    ensures count { IfOk result (λ count. count ≤ most_loads) }
    ensures no_want { ¬ IsErrOf result Memory }
{
    let wrong = ManifestFault::Wrong(reader.place() as u64);
    match reader.take_u16() {
        Ok(count) if count <= MOST_LOADS => Ok(count),
        _ => Err(wrong),
    }
}

#[tactic(auto, unfolding(crate::specs::Manifest::part))]
pub(crate) fn read_part(reader: &mut Reader) -> Result<PartText, ManifestFault>
    ensures reads { Decodes Memory (λ text. text) part reader.old result reader.new }
    ensures no_want { ¬ IsErrOf result Memory }
{
    let wrong = ManifestFault::Wrong(reader.place() as u64);
    let Ok(bytes) = reader.take_raw(15) else {
        return Err(wrong);
    };
    match PartText::read(bytes) {
        Ok(part) => Ok(part),
        Err(_) => Err(wrong),
    }
}

#[tactic(auto, unfolding(crate::specs::Manifest::file_count))]
pub(crate) fn read_file_count(reader: &mut Reader) -> Result<u16, ManifestFault>
    ensures reads { Decodes Memory (λ count. count) file_count reader.old result reader.new }
    ensures no_want { ¬ IsErrOf result Memory }
{
    let wrong = ManifestFault::Wrong(reader.place() as u64);
    match reader.take_u16() {
        Ok(count) if 1 <= count && count <= MOST_FILES => Ok(count),
        _ => Err(wrong),
    }
}

#[tactic(auto, unfolding(crate::specs::Manifest::file_name))]
fn read_name(reader: &mut Reader) -> Result<Name, ManifestFault>
    ensures reads { Decodes Memory (λ name. name) file_name reader.old result reader.new }
    ensures no_want { ¬ IsErrOf result Memory }
{
    let wrong = ManifestFault::Wrong(reader.place() as u64);
    let Ok(bytes) = reader.take_short() else {
        return Err(wrong);
    };
    match Name::read(bytes) {
        Ok(name) => Ok(name),
        Err(_) => Err(wrong),
    }
}

#[tactic(auto, unfolding(crate::specs::Manifest::file_length))]
fn read_length(reader: &mut Reader) -> Result<u32, ManifestFault>
    ensures reads { Decodes Memory (λ length. length) file_length reader.old result reader.new }
    ensures no_want { ¬ IsErrOf result Memory }
{
    let wrong = ManifestFault::Wrong(reader.place() as u64);
    match reader.take_u32() {
        Ok(length) if length as usize <= LONGEST_FILE => Ok(length),
        _ => Err(wrong),
    }
}

fn read_end(reader: &mut Reader) -> Result<(), ManifestFault>
    ensures reads { Decodes Memory (λ unit. unit) (ended Wrong) reader.old result reader.new }
    ensures no_want { ¬ IsErrOf result Memory }
{
    if reader.left() != 0 {
        return Err(ManifestFault::Wrong(reader.place() as u64));
    }
    Ok(())
}
