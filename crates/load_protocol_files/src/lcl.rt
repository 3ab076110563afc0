//! Configuration list files.
ghost use Rattle.std.specs.Prelude.{◌≡◌, ◌↔◌, ◌-◌, min, IsTrue, ◌+◌, ◌++◌, ◌⊎◌, ◌≤◌, ◌<◌, ◌^◌};
ghost use Rattle.std.specs.Prelude.{List, length, map, IfOk, IfErr, OnOk};
ghost use Rattle.std.specs.List.{concat, flat_map, All};
ghost use Rattle.field_grammar.specs.Grammar.{Fault, times};
ghost use Rattle.field_grammar.specs.Answers.{answer, Decodes, AnswersAs};
ghost use Rattle.load_protocol_files.specs.declared.fault.FileFault.{FileFault};
ghost use Rattle.load_protocol_files.specs.declared.fault.FileFault.TheVariants.{Memory};
ghost use Rattle.load_protocol_files.specs.Lcl.{IsWritableLcl, installed, installed_fields};
ghost use Rattle.load_protocol_files.specs.Lcl.{InstalledFits, hardware, hardware_fields};
ghost use Rattle.load_protocol_files.specs.Lcl.{hardware_view, HardwareFits, LclView, lcl_view};
ghost use Rattle.load_protocol_files.specs.Lcl.{lcl, lcl_body, lcl_fields, LclFits, LclSpells};

use crate::FileFault;
use crate::file::{self, ProtocolFile};
use crate::pieces::text_of;
use crate::putting::put_text;
use field_codec::{Reader, Writer};
use load_base::{Bytes, List, NoMemory, Text};
use std::alloc::Global;

/// A part that is installed in a hardware.
#[derive(Drop)]
pub struct Part {
    /// Its part number, which need not be one of a load.
    pub number: Text,
    /// Its amendment.
    pub amendment: Text,
    /// What the part is.
    pub designation: Text,
}

/// A hardware of the target, and what is installed in it.
#[derive(Drop)]
pub struct Hardware {
    /// Its name.
    pub name: Text,
    /// Its serial number.
    pub serial: Text,
    /// What is installed in it.
    pub parts: List<Part>,
}

/// A configuration list file (LCL): what is installed in the target (this project's layout,
/// docs/FORMATS.md).
#[derive(Drop)]
pub struct Lcl {
    /// The hardware of the target.
    pub hardware: List<Hardware>,
}

impl Lcl {
    /// The file that the bytes spell, or their first fault from left to right.
    pub fn decode(alloc: Global, bytes: &[u8]) -> Result<Lcl, FileFault>
        ensures found { IfOk result (λ v. LclSpells (lcl_view v) bytes.now) }
        ensures only { (v : LclView) → LclSpells v bytes.now
            → AnswersAs Memory lcl_view result (Ok v) }
        ensures refused { IfErr result (λ e. (e ≡ Memory) ⊎ Fault lcl bytes.now e) }
        ensures faulty { (f : FileFault) → Fault lcl bytes.now f
            → AnswersAs Memory lcl_view result (Err f) }
        ensures answers { AnswersAs Memory lcl_view result (answer lcl bytes.now) }
    {
        file::decode(alloc, bytes)
    }

    /// Whether the file can be written: each list has at most 65,535 members, and the file at most
    /// 4,294,967,295 bytes.
    #[tactic(auto, using(crate::specs::Laws::Lcl::fits_by_size))]
    pub fn fits(&self) -> bool
        ensures { IsTrue result ↔ IsWritableLcl self.now }
    {
        let list = self.hardware.as_slice();
        if list.len() > 65_535 {
            return false;
        }
        if !have_few_parts(list) {
            return false;
        }
        size_of_list(list) <= 4_294_967_287
    }

    /// The bytes that spell the file. Each list has at most 65,535 members, and the file at most
    /// 4,294,967,295 bytes.
    pub fn encode(&self, alloc: Global) -> Result<Bytes, NoMemory>
        requires { IsWritableLcl self.now }
        ensures { IfOk result (λ bytes. LclSpells (lcl_view self.now) bytes.items) }
    {
        file::encode(alloc, self)
    }
}

impl ProtocolFile for Lcl {
    ghost use Rattle.load_protocol_files.specs.Lcl.{LclView, lcl_view, lcl_body, lcl_fields};
    ghost use Rattle.load_protocol_files.specs.Lcl.{LclFits, IsWritableLcl};
    ghost use Rattle.load_protocol_files.specs.Laws.Lcl.{spelled-lcl, lcl_is_small};

    ghost Value = { LclView };

    ghost view = { lcl_view };

    ghost body = { lcl_body };

    ghost fields = { lcl_fields };

    ghost Fits = { λ v. LclFits v };

    ghost IsWritable = { λ it. IsWritableLcl it };

    ghost spelled = { spelled-lcl };

    ghost small = { λ it writable fits. lcl_is_small it writable };

    #[tactic(auto, unfolding(crate::specs::Lcl::lcl_body))]
    fn read_body(alloc: Global, reader: &mut Reader) -> Result<Lcl, FileFault> {
        let count = reader.take_u16()?;
        let hardware = hardware_list_of(alloc, count, reader)?;
        Ok(Lcl { hardware })
    }

    #[tactic(auto, unfolding(crate::specs::Pieces::counted_fields))]
    fn put_body(&self, out: &mut Writer) -> Result<(), NoMemory> {
        let list = self.hardware.as_slice();
        out.put_u16(list.len() as u16)?;
        put_hardware_list(out, list)?;
        Ok(())
    }
}

#[tactic(auto, using(field_grammar::proofs::LoopLemmas::goes_on_seen, field_grammar::proofs::LoopLemmas::ends, field_grammar::proofs::LoopLemmas::is_done, field_grammar::proofs::LoopLemmas::begins))]
fn hardware_list_of(
    alloc: Global,
    count: u16,
    reader: &mut Reader,
) -> Result<List<Hardware>, FileFault>
    ensures { Decodes Memory (λ list. map hardware_view list.items)
        (times count hardware) reader.old result reader.new }
{
    let mut list = List::new(alloc);
    for _ in 0..count {
        list.push(hardware_of(alloc, reader)?)?;
    }
    Ok(list)
}

fn have_few_parts(list: &[Hardware]) -> bool
    ensures { IsTrue result ↔ All (λ h. length h.parts.items ≤ 65535) list.now }
{
    list.iter().all(|hardware| hardware.parts.len() <= 65_535)
}

/// How many bytes the hardware takes, up to the greatest `u64`.
fn size_of_list(list: &[Hardware]) -> u64
    ensures { result ≡ min (length (concat (flat_map hardware_fields (map hardware_view list.now))))
        (2 ^ 64 - 1) }
{
    let mut size = 0u64;
    for hardware in list {
        size = size.saturating_add(size_of_hardware(hardware));
    }
    size
}

#[tactic(auto, using(crate::specs::Laws::Lcl::hardware_size))]
fn size_of_hardware(hardware: &Hardware) -> u64
    ensures { result
        ≡ min (length (concat (hardware_fields (hardware_view hardware.now)))) (2 ^ 64 - 1) }
{
    let texts = hardware.name.as_slice().len() + hardware.serial.as_slice().len();
    size_of_parts(hardware.parts.as_slice()).saturating_add(4 + texts as u64)
}

fn size_of_parts(parts: &[Part]) -> u64
    ensures { result ≡ min (length (concat (flat_map installed_fields parts.now))) (2 ^ 64 - 1) }
{
    let mut size = 0u64;
    for part in parts {
        size = size.saturating_add(size_of_part(part));
    }
    size
}

#[tactic(auto, using(crate::specs::Laws::Lcl::installed_size))]
fn size_of_part(part: &Part) -> u64
    ensures { result ≡ length (concat (installed_fields part.now)) }
{
    let names = part.number.as_slice().len() + part.amendment.as_slice().len();
    (3 + names + part.designation.as_slice().len()) as u64
}

#[tactic(auto, unfolding(crate::specs::Lcl::hardware))]
fn hardware_of(alloc: Global, reader: &mut Reader) -> Result<Hardware, FileFault>
    ensures { Decodes Memory hardware_view hardware reader.old result reader.new }
{
    let name = text_of(alloc, reader)?;
    let serial = text_of(alloc, reader)?;
    let count = reader.take_u16()?;
    let parts = parts_of(alloc, count, reader)?;
    Ok(Hardware {
        name,
        serial,
        parts,
    })
}

#[tactic(auto, using(field_grammar::proofs::LoopLemmas::goes_on, field_grammar::proofs::LoopLemmas::ends, field_grammar::proofs::LoopLemmas::is_done, field_grammar::proofs::LoopLemmas::begins))]
fn parts_of(alloc: Global, count: u16, reader: &mut Reader) -> Result<List<Part>, FileFault>
    ensures { Decodes Memory (λ parts. parts.items)
        (times count installed) reader.old result reader.new }
{
    let mut parts = List::new(alloc);
    for _ in 0..count {
        parts.push(installed_of(alloc, reader)?)?;
    }
    Ok(parts)
}

#[tactic(auto, unfolding(crate::specs::Lcl::installed))]
fn installed_of(alloc: Global, reader: &mut Reader) -> Result<Part, FileFault>
    ensures { Decodes Memory (λ part. part) installed reader.old result reader.new }
{
    let number = text_of(alloc, reader)?;
    let amendment = text_of(alloc, reader)?;
    let designation = text_of(alloc, reader)?;
    Ok(Part {
        number,
        amendment,
        designation,
    })
}

fn put_hardware_list(out: &mut Writer, list: &[Hardware]) -> Result<(), NoMemory>
    requires { All (λ h. length h.parts.items ≤ 65535) list.now }
    ensures fits { OnOk result (All (λ h. HardwareFits (hardware_view h)) list.now) }
    ensures ok { OnOk result
        (out.new ≡ out.old ++ concat (flat_map hardware_fields (map hardware_view list.now))) }
{
    for hardware in list {
        put_hardware(out, hardware)?;
    }
    Ok(())
}

#[tactic(auto, unfolding(crate::specs::Pieces::counted_fields))]
fn put_hardware(out: &mut Writer, hardware: &Hardware) -> Result<(), NoMemory>
    requires { length hardware.now.parts.items ≤ 65535 }
    ensures fits { OnOk result (HardwareFits (hardware_view hardware.now)) }
    ensures ok { OnOk result
        (out.new ≡ out.old ++ concat (hardware_fields (hardware_view hardware.now))) }
{
    put_text(out, &hardware.name)?;
    put_text(out, &hardware.serial)?;
    let parts = hardware.parts.as_slice();
    out.put_u16(parts.len() as u16)?;
    put_parts(out, parts)?;
    Ok(())
}

fn put_parts(out: &mut Writer, parts: &[Part]) -> Result<(), NoMemory>
    ensures fits { OnOk result (All (λ p. InstalledFits p) parts.now) }
    ensures ok { OnOk result (out.new ≡ out.old ++ concat (flat_map installed_fields parts.now)) }
{
    for part in parts {
        put_installed(out, part)?;
    }
    Ok(())
}

fn put_installed(out: &mut Writer, part: &Part) -> Result<(), NoMemory>
    ensures fits { OnOk result (InstalledFits part.now) }
    ensures ok { OnOk result (out.new ≡ out.old ++ concat (installed_fields part.now)) }
{
    put_text(out, &part.number)?;
    put_text(out, &part.amendment)?;
    put_text(out, &part.designation)?;
    Ok(())
}
