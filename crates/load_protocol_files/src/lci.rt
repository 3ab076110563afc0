//! Configuration initialization files.
ghost use Rattle.std.specs.Prelude.{◌≡◌, ◌⊎◌, IfOk, IfErr};
ghost use Rattle.field_grammar.specs.Grammar.{Fault};
ghost use Rattle.field_grammar.specs.Answers.{AnswersAs, answer};
ghost use Rattle.load_protocol_files.specs.declared.fault.FileFault.{FileFault};
ghost use Rattle.load_protocol_files.specs.declared.fault.FileFault.TheVariants.{Memory};
ghost use Rattle.load_protocol_files.specs.Lci.{lci, LciSpells};

use crate::FileFault;
use crate::file::{self, ProtocolFile};
use crate::reply::{put_reply, read_reply};
use field_codec::{Reader, Writer};
use load_base::{Bytes, NoMemory, Text};
use std::alloc::Global;

/// A configuration initialization file (LCI): the target's answer to a request for its
/// configuration (this project's layout, docs/FORMATS.md).
#[derive(Drop)]
pub struct Lci {
    /// Whether the target accepts the operation.
    pub status: u16,
    /// Why it doesn't, and else mostly empty.
    pub description: Text,
}

impl Lci {
    ghost use Rattle.load_protocol_files.specs.declared.lci.Lci.{Lci};

    /// The file that the bytes spell, or their first fault from left to right.
    pub fn decode(alloc: Global, bytes: &[u8]) -> Result<Lci, FileFault>
        ensures found { IfOk result (λ v. LciSpells v bytes.now) }
        ensures only { (v : Lci) → LciSpells v bytes.now → AnswersAs Memory (λ v. v) result (Ok v) }
        ensures refused { IfErr result (λ e. (e ≡ Memory) ⊎ Fault lci bytes.now e) }
        ensures faulty { (f : FileFault) → Fault lci bytes.now f
            → AnswersAs Memory (λ v. v) result (Err f) }
        ensures answers { AnswersAs Memory (λ v. v) result (answer lci bytes.now) }
    {
        file::decode(alloc, bytes)
    }

    /// The bytes that spell the file.
    pub fn encode(&self, alloc: Global) -> Result<Bytes, NoMemory>
        ensures { IfOk result (λ bytes. LciSpells self.now bytes.items) }
    {
        file::encode(alloc, self)
    }
}

impl ProtocolFile for Lci {
    ghost use Rattle.load_protocol_files.specs.declared.lci.Lci.{Lci};
    ghost use Rattle.load_protocol_files.specs.Lci.{lci_body, lci_fields, LciFits};
    ghost use Rattle.load_protocol_files.specs.Laws.Replies.{spelled-lci, reply_is_small};

    ghost Value = { Lci };

    ghost view = { λ it. it };

    ghost body = { lci_body };

    ghost fields = { lci_fields };

    ghost Fits = { λ v. LciFits v };

    ghost IsWritable = { λ it. Unit {0} };

    ghost spelled = { spelled-lci };

    ghost small = { λ it writable fits. reply_is_small it.status it.description fits };

    #[tactic(auto, unfolding(crate::specs::Lci::lci_body))]
    fn read_body(alloc: Global, reader: &mut Reader) -> Result<Lci, FileFault> {
        let (status, description) = read_reply(alloc, reader)?;
        Ok(Lci {
            status,
            description,
        })
    }

    fn put_body(&self, out: &mut Writer) -> Result<(), NoMemory> {
        put_reply(out, self.status, &self.description)
    }
}
