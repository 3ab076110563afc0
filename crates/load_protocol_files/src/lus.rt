//! Upload status files.
ghost use Rattle.std.specs.Prelude.{◌≡◌, ◌↔◌, IsTrue, ◌++◌, ◌⊎◌, ◌≤◌, ◌<◌, List, length};
ghost use Rattle.std.specs.Prelude.{IfOk, IfErr, OnOk};
ghost use Rattle.std.specs.List.{concat, flat_map, All};
ghost use Rattle.field_grammar.specs.Grammar.{Fault, times};
ghost use Rattle.field_grammar.specs.Answers.{answer, Decodes, AnswersAs};
ghost use Rattle.load_protocol_files.specs.declared.fault.FileFault.{FileFault};
ghost use Rattle.load_protocol_files.specs.declared.fault.FileFault.TheVariants.{Memory};
ghost use Rattle.load_protocol_files.specs.Pieces.{counted};
ghost use Rattle.load_protocol_files.specs.Lus.{IsWritableLus, load_status, load_status_fields};
ghost use Rattle.load_protocol_files.specs.Lus.{LoadStatusFits, LusView, lus_view, lus, lus_body};
ghost use Rattle.load_protocol_files.specs.Lus.{lus_fields, counts_fields, progress_fields};
ghost use Rattle.load_protocol_files.specs.Lus.{CountsFit, ProgressFits, LusFits, LusSpells};

use crate::FileFault;
use crate::file::{self, ProtocolFile};
use crate::pieces::{name_of, part_of, ratio_of, text_of};
use crate::putting::{put_name, put_part, put_ratio, put_text};
use field_codec::{Reader, Writer};
use load_base::{Bytes, List, Name, NoMemory, Text};
use part_number::PartNumber;
use std::alloc::Global;

/// How far the upload of one load has come.
#[derive(Drop)]
pub struct LoadStatus {
    /// The name of the load's header file.
    pub header: Name,
    /// The part number of the load.
    pub part: PartNumber,
    /// How much of the load has arrived, of 100.
    pub ratio: u8,
    /// How the load stands.
    pub status: u16,
    /// Why it doesn't go on, and else mostly empty.
    pub description: Text,
}

/// An upload status file (LUS): how far the target has come with an upload (this project's layout,
/// docs/FORMATS.md).
#[derive(Drop)]
pub struct Lus {
    /// How the upload stands.
    pub status: u16,
    /// Why it doesn't go on, and else mostly empty.
    pub description: Text,
    /// How many of these files the upload has had, with this one.
    pub counter: u16,
    /// An exception timer, in seconds; 0 for none.
    pub exception: u16,
    /// An estimate of the time that is left, in seconds; 0 for none.
    pub estimated: u16,
    /// How much of all loads has arrived, of 100.
    pub ratio: u8,
    /// The loads of the request, in its order.
    pub loads: List<LoadStatus>,
}

impl Lus {
    /// The file that the bytes spell, or their first fault from left to right.
    pub fn decode(alloc: Global, bytes: &[u8]) -> Result<Lus, FileFault>
        ensures found { IfOk result (λ v. LusSpells (lus_view v) bytes.now) }
        ensures only { (v : LusView) → LusSpells v bytes.now
            → AnswersAs Memory lus_view result (Ok v) }
        ensures refused { IfErr result (λ e. (e ≡ Memory) ⊎ Fault lus bytes.now e) }
        ensures faulty { (f : FileFault) → Fault lus bytes.now f
            → AnswersAs Memory lus_view result (Err f) }
        ensures answers { AnswersAs Memory lus_view result (answer lus bytes.now) }
    {
        file::decode(alloc, bytes)
    }

    /// Whether the file can be written: no ratio is above 100, and it has at most 65,535 loads.
    pub fn fits(&self) -> bool
        ensures { IsTrue result ↔ IsWritableLus self.now }
    {
        let loads = self.loads.as_slice();
        self.ratio <= 100 && loads.len() <= 65_535 && are_ratios(loads)
    }

    /// The bytes that spell the file. Each ratio is at most 100, and there are at most 65,535
    /// loads.
    pub fn encode(&self, alloc: Global) -> Result<Bytes, NoMemory>
        requires { IsWritableLus self.now }
        ensures { IfOk result (λ bytes. LusSpells (lus_view self.now) bytes.items) }
    {
        file::encode(alloc, self)
    }
}

impl ProtocolFile for Lus {
    ghost use Rattle.load_protocol_files.specs.Lus.{LusView, lus_view, lus_body, lus_fields};
    ghost use Rattle.load_protocol_files.specs.Lus.{LusFits, IsWritableLus};
    ghost use Rattle.load_protocol_files.specs.Laws.Lus.{spelled-lus, lus_is_small};

    ghost Value = { LusView };

    ghost view = { lus_view };

    ghost body = { lus_body };

    ghost fields = { lus_fields };

    ghost Fits = { λ v. LusFits v };

    ghost IsWritable = { λ it. IsWritableLus it };

    ghost spelled = { spelled-lus };

    ghost small = { λ it writable fits. lus_is_small (lus_view it) fits };

    #[tactic(auto, unfolding(crate::specs::Lus::lus_body))]
    fn read_body(alloc: Global, reader: &mut Reader) -> Result<Lus, FileFault> {
        let status = reader.take_u16()?;
        let description = text_of(alloc, reader)?;
        let counter = reader.take_u16()?;
        let exception = reader.take_u16()?;
        let estimated = reader.take_u16()?;
        let ratio = ratio_of(reader)?;
        let loads = counted_loads_of(alloc, reader)?;
        Ok(Lus {
            status,
            description,
            counter,
            exception,
            estimated,
            ratio,
            loads,
        })
    }

    fn put_body(&self, out: &mut Writer) -> Result<(), NoMemory> {
        out.put_u16(self.status)?;
        put_text(out, &self.description)?;
        put_counts(out, self)?;
        Ok(())
    }
}

fn counted_loads_of(alloc: Global, reader: &mut Reader) -> Result<List<LoadStatus>, FileFault>
    ensures { Decodes Memory (λ loads. loads.items)
        (counted load_status) reader.old result reader.new }
{
    let count = reader.take_u16()?;
    let loads = loads_of(alloc, count, reader)?;
    Ok(loads)
}

#[tactic(auto, using(field_grammar::proofs::LoopLemmas::goes_on, field_grammar::proofs::LoopLemmas::ends, field_grammar::proofs::LoopLemmas::is_done, field_grammar::proofs::LoopLemmas::begins))]
fn loads_of(alloc: Global, count: u16, reader: &mut Reader) -> Result<List<LoadStatus>, FileFault>
    ensures { Decodes Memory (λ loads. loads.items)
        (times count load_status) reader.old result reader.new }
{
    let mut loads = List::new(alloc);
    for _ in 0..count {
        loads.push(load_status_of(alloc, reader)?)?;
    }
    Ok(loads)
}

#[tactic(auto, unfolding(crate::specs::Lus::load_status))]
fn load_status_of(alloc: Global, reader: &mut Reader) -> Result<LoadStatus, FileFault>
    ensures { Decodes Memory (λ load. load) load_status reader.old result reader.new }
{
    let header = name_of(reader)?;
    let part = part_of(reader)?;
    let ratio = ratio_of(reader)?;
    let status = reader.take_u16()?;
    let description = text_of(alloc, reader)?;
    Ok(LoadStatus {
        header,
        part,
        ratio,
        status,
        description,
    })
}

#[tactic(auto, unfolding(crate::specs::Lus::counts_fields))]
fn put_counts(out: &mut Writer, file: &Lus) -> Result<(), NoMemory>
    requires ratio { file.now.ratio ≤ 100 }
    requires ratios { All (λ load. load.ratio ≤ 100) file.now.loads.items }
    requires count { length file.now.loads.items ≤ 65535 }
    ensures fits { OnOk result (CountsFit (lus_view file.now)) }
    ensures ok { OnOk result (out.new ≡ out.old ++ concat (counts_fields (lus_view file.now))) }
{
    out.put_u16(file.counter)?;
    out.put_u16(file.exception)?;
    out.put_u16(file.estimated)?;
    put_progress(out, file)?;
    Ok(())
}

#[tactic(auto, unfolding(crate::specs::Lus::progress_fields, crate::specs::Pieces::counted_fields))]
fn put_progress(out: &mut Writer, file: &Lus) -> Result<(), NoMemory>
    requires ratio { file.now.ratio ≤ 100 }
    requires ratios { All (λ load. load.ratio ≤ 100) file.now.loads.items }
    requires count { length file.now.loads.items ≤ 65535 }
    ensures fits { OnOk result (ProgressFits (lus_view file.now)) }
    ensures ok { OnOk result (out.new ≡ out.old ++ concat (progress_fields (lus_view file.now))) }
{
    let loads = file.loads.as_slice();
    put_ratio(out, file.ratio)?;
    out.put_u16(loads.len() as u16)?;
    put_loads(out, loads)?;
    Ok(())
}

fn are_ratios(loads: &[LoadStatus]) -> bool
    ensures { IsTrue result ↔ All (λ load. load.ratio ≤ 100) loads.now }
{
    loads.iter().all(|load| load.ratio <= 100)
}

fn put_loads(out: &mut Writer, loads: &[LoadStatus]) -> Result<(), NoMemory>
    requires { All (λ load. load.ratio ≤ 100) loads.now }
    ensures fits { OnOk result (All (λ l. LoadStatusFits l) loads.now) }
    ensures ok { OnOk result (out.new ≡ out.old ++ concat (flat_map load_status_fields loads.now)) }
{
    for load in loads {
        put_load_status(out, load)?;
    }
    Ok(())
}

fn put_load_status(out: &mut Writer, load: &LoadStatus) -> Result<(), NoMemory>
    requires { load.now.ratio ≤ 100 }
    ensures fits { OnOk result (LoadStatusFits load.now) }
    ensures ok { OnOk result (out.new ≡ out.old ++ concat (load_status_fields load.now)) }
{
    put_name(out, &load.header)?;
    put_part(out, &load.part)?;
    put_ratio(out, load.ratio)?;
    out.put_u16(load.status)?;
    put_text(out, &load.description)?;
    Ok(())
}
