//! Configuration status files.
ghost use Rattle.std.specs.Prelude.{◌≡◌, ◌⊎◌, IfOk, IfErr};
ghost use Rattle.field_grammar.specs.Grammar.{Fault};
ghost use Rattle.field_grammar.specs.Answers.{answer, AnswersAs};
ghost use Rattle.load_protocol_files.specs.declared.fault.FileFault.{FileFault};
ghost use Rattle.load_protocol_files.specs.declared.fault.FileFault.TheVariants.{Memory};
ghost use Rattle.load_protocol_files.specs.Lcs.{lcs, lcs_body, lcs_fields, LcsFits, LcsSpells};

use crate::FileFault;
use crate::file::{self, ProtocolFile};
use crate::pieces::text_of;
use crate::putting::put_text;
use field_codec::{Reader, Writer};
use load_base::{Bytes, NoMemory, Text};
use std::alloc::Global;

/// A configuration status file (LCS): how far the target has come with a request for its
/// configuration (this project's layout, docs/FORMATS.md).
#[derive(Drop)]
pub struct Lcs {
    /// How many of these files the operation has had, with this one.
    pub counter: u16,
    /// How the operation stands.
    pub status: u16,
    /// An exception timer, in seconds; 0 for none.
    pub exception: u16,
    /// An estimate of the time that is left, in seconds; 0 for none.
    pub estimated: u16,
    /// Why the operation doesn't go on, and else mostly empty.
    pub description: Text,
}

impl Lcs {
    ghost use Rattle.load_protocol_files.specs.declared.lcs.Lcs.{Lcs};

    /// The file that the bytes spell, or their first fault from left to right.
    pub fn decode(alloc: Global, bytes: &[u8]) -> Result<Lcs, FileFault>
        ensures found { IfOk result (λ v. LcsSpells v bytes.now) }
        ensures only { (v : Lcs) → LcsSpells v bytes.now → AnswersAs Memory (λ v. v) result (Ok v) }
        ensures refused { IfErr result (λ e. (e ≡ Memory) ⊎ Fault lcs bytes.now e) }
        ensures faulty { (f : FileFault) → Fault lcs bytes.now f
            → AnswersAs Memory (λ v. v) result (Err f) }
        ensures answers { AnswersAs Memory (λ v. v) result (answer lcs bytes.now) }
    {
        file::decode(alloc, bytes)
    }

    /// The bytes that spell the file.
    pub fn encode(&self, alloc: Global) -> Result<Bytes, NoMemory>
        ensures { IfOk result (λ bytes. LcsSpells self.now bytes.items) }
    {
        file::encode(alloc, self)
    }
}

impl ProtocolFile for Lcs {
    ghost use Rattle.load_protocol_files.specs.declared.lcs.Lcs.{Lcs};
    ghost use Rattle.load_protocol_files.specs.Lcs.{lcs_body, lcs_fields, LcsFits};
    ghost use Rattle.load_protocol_files.specs.Laws.Lcs.{spelled-lcs, lcs_is_small};

    ghost Value = { Lcs };

    ghost view = { λ it. it };

    ghost body = { lcs_body };

    ghost fields = { lcs_fields };

    ghost Fits = { λ v. LcsFits v };

    ghost IsWritable = { λ it. Unit {0} };

    ghost spelled = { spelled-lcs };

    ghost small = { λ it writable fits. lcs_is_small it fits };

    #[tactic(auto, unfolding(crate::specs::Lcs::lcs_body))]
    fn read_body(alloc: Global, reader: &mut Reader) -> Result<Lcs, FileFault> {
        let counter = reader.take_u16()?;
        let status = reader.take_u16()?;
        let exception = reader.take_u16()?;
        let estimated = reader.take_u16()?;
        let description = text_of(alloc, reader)?;
        Ok(Lcs {
            counter,
            status,
            exception,
            estimated,
            description,
        })
    }

    fn put_body(&self, out: &mut Writer) -> Result<(), NoMemory> {
        out.put_u16(self.counter)?;
        out.put_u16(self.status)?;
        out.put_u16(self.exception)?;
        out.put_u16(self.estimated)?;
        put_text(out, &self.description)?;
        Ok(())
    }
}
