//! Upload request files.
ghost use Rattle.std.specs.Prelude.{◌≡◌, ◌+◌, ◌*◌, ◌↔◌, IsTrue, ◌++◌, ◌⊎◌, ◌≤◌, ◌<◌};
ghost use Rattle.std.specs.Prelude.{List, length};
ghost use Rattle.std.specs.Prelude.{IfOk, IfErr, OnOk};
ghost use Rattle.std.specs.List.{concat, flat_map, All};
ghost use Rattle.field_grammar.specs.Grammar.{Fault, times};
ghost use Rattle.field_grammar.specs.Answers.{answer, Decodes, AnswersAs};
ghost use Rattle.load_protocol_files.specs.declared.fault.FileFault.{FileFault};
ghost use Rattle.load_protocol_files.specs.declared.fault.FileFault.TheVariants.{Memory};
ghost use Rattle.load_protocol_files.specs.Lur.{IsWritableLur, wanted, wanted_fields, WantedFits};
ghost use Rattle.load_protocol_files.specs.Lur.{LurView, lur_view, lur, lur_body, lur_fields};
ghost use Rattle.load_protocol_files.specs.Lur.{LurFits, LurSpells};

use crate::FileFault;
use crate::file::{self, ProtocolFile};
use crate::pieces::{name_of, part_of};
use crate::putting::{put_name, put_part};
use field_codec::{Reader, Writer};
use load_base::{Bytes, List, Name, NoMemory};
use part_number::PartNumber;
use std::alloc::Global;

/// A load that the target is to take.
#[derive(Clone, Copy)]
pub struct Wanted {
    /// The name of the load's header file.
    pub header: Name,
    /// The part number of the load.
    pub part: PartNumber,
}

/// An upload request file (LUR): the loads that the loader offers, in the order in which they are
/// loaded (this project's layout, docs/FORMATS.md).
#[derive(Drop)]
pub struct Lur {
    pub loads: List<Wanted>,
}

impl Lur {
    /// The file that the bytes spell, or their first fault from left to right.
    pub fn decode(alloc: Global, bytes: &[u8]) -> Result<Lur, FileFault>
        ensures found { IfOk result (λ v. LurSpells (lur_view v) bytes.now) }
        ensures only { (v : LurView) → LurSpells v bytes.now
            → AnswersAs Memory lur_view result (Ok v) }
        ensures refused { IfErr result (λ e. (e ≡ Memory) ⊎ Fault lur bytes.now e) }
        ensures faulty { (f : FileFault) → Fault lur bytes.now f
            → AnswersAs Memory lur_view result (Err f) }
        ensures answers { AnswersAs Memory lur_view result (answer lur bytes.now) }
    {
        file::decode(alloc, bytes)
    }

    /// Whether the file can be written: it has at most 65,535 loads.
    pub fn fits(&self) -> bool
        ensures { IsTrue result ↔ IsWritableLur self.now }
    {
        self.loads.len() <= 65_535
    }

    /// The bytes that spell the file, which has at most 65,535 loads.
    pub fn encode(&self, alloc: Global) -> Result<Bytes, NoMemory>
        requires { IsWritableLur self.now }
        ensures spells { IfOk result (λ bytes. LurSpells (lur_view self.now) bytes.items) }
        ensures size { IfOk result
            (λ bytes. length bytes.items ≤ 8 + length self.now.loads.items * 81) }
    {
        file::encode(alloc, self)
    }
}

impl ProtocolFile for Lur {
    ghost use Rattle.load_protocol_files.specs.Lur.{LurView, lur_view, lur_body, lur_fields};
    ghost use Rattle.load_protocol_files.specs.Lur.{LurFits, IsWritableLur};
    ghost use Rattle.load_protocol_files.specs.Laws.Lur.{spelled-lur, lur_is_small};

    ghost Value = { LurView };

    ghost view = { lur_view };

    ghost body = { lur_body };

    ghost fields = { lur_fields };

    ghost Fits = { λ v. LurFits v };

    ghost IsWritable = { λ it. IsWritableLur it };

    ghost spelled = { spelled-lur };

    ghost small = { λ it writable fits. lur_is_small (lur_view it) fits };

    #[tactic(auto, unfolding(crate::specs::Lur::lur_body))]
    fn read_body(alloc: Global, reader: &mut Reader) -> Result<Lur, FileFault> {
        let count = reader.take_u16()?;
        let loads = loads_of(alloc, count, reader)?;
        Ok(Lur { loads })
    }

    #[tactic(auto, unfolding(crate::specs::Pieces::counted_fields))]
    fn put_body(&self, out: &mut Writer) -> Result<(), NoMemory> {
        let loads = self.loads.as_slice();
        out.put_u16(loads.len() as u16)?;
        put_loads(out, loads)?;
        Ok(())
    }
}

#[tactic(auto, using(field_grammar::proofs::LoopLemmas::goes_on, field_grammar::proofs::LoopLemmas::ends, field_grammar::proofs::LoopLemmas::is_done, field_grammar::proofs::LoopLemmas::begins))]
fn loads_of(alloc: Global, count: u16, reader: &mut Reader) -> Result<List<Wanted>, FileFault>
    ensures { Decodes Memory (λ loads. loads.items)
        (times count wanted) reader.old result reader.new }
{
    let mut loads = List::new(alloc);
    for _ in 0..count {
        loads.push(wanted_of(reader)?)?;
    }
    Ok(loads)
}

#[tactic(auto, unfolding(crate::specs::Lur::wanted))]
fn wanted_of(reader: &mut Reader) -> Result<Wanted, FileFault>
    ensures { Decodes Memory (λ load. load) wanted reader.old result reader.new }
{
    let header = name_of(reader)?;
    let part = part_of(reader)?;
    Ok(Wanted { header, part })
}

fn put_loads(out: &mut Writer, loads: &[Wanted]) -> Result<(), NoMemory>
    ensures fits { OnOk result (All (λ w. WantedFits w) loads.now) }
    ensures ok { OnOk result (out.new ≡ out.old ++ concat (flat_map wanted_fields loads.now)) }
{
    for load in loads {
        put_wanted(out, load)?;
    }
    Ok(())
}

fn put_wanted(out: &mut Writer, load: &Wanted) -> Result<(), NoMemory>
    ensures fits { OnOk result (WantedFits load.now) }
    ensures ok { OnOk result (out.new ≡ out.old ++ concat (wanted_fields load.now)) }
{
    put_name(out, &load.header)?;
    put_part(out, &load.part)?;
    Ok(())
}
