//! Upload initialization files.
ghost use Rattle.std.specs.Prelude.{◌≡◌, ◌⊎◌, IfOk, IfErr};
ghost use Rattle.field_grammar.specs.Grammar.{Fault};
ghost use Rattle.field_grammar.specs.Answers.{AnswersAs, answer};
ghost use Rattle.load_protocol_files.specs.declared.fault.FileFault.{FileFault};
ghost use Rattle.load_protocol_files.specs.declared.fault.FileFault.TheVariants.{Memory};
ghost use Rattle.load_protocol_files.specs.Lui.{lui, LuiSpells};

use crate::FileFault;
use crate::file::{self, ProtocolFile};
use crate::reply::{put_reply, read_reply};
use field_codec::{Reader, Writer};
use load_base::{Bytes, NoMemory, Text};
use std::alloc::Global;

/// An upload initialization file (LUI): the target's answer to a request for an
/// upload (this project's layout, docs/FORMATS.md).
#[derive(Drop)]
pub struct Lui {
    /// Whether the target accepts the operation.
    pub status: u16,
    /// Why it doesn't, and else mostly empty.
    pub description: Text,
}

impl Lui {
    ghost use Rattle.load_protocol_files.specs.declared.lui.Lui.{Lui};

    /// The file that the bytes spell, or their first fault from left to right.
    pub fn decode(alloc: Global, bytes: &[u8]) -> Result<Lui, FileFault>
        ensures found { IfOk result (λ v. LuiSpells v bytes.now) }
        ensures only { (v : Lui) → LuiSpells v bytes.now → AnswersAs Memory (λ v. v) result (Ok v) }
        ensures refused { IfErr result (λ e. (e ≡ Memory) ⊎ Fault lui bytes.now e) }
        ensures faulty { (f : FileFault) → Fault lui bytes.now f
            → AnswersAs Memory (λ v. v) result (Err f) }
        ensures answers { AnswersAs Memory (λ v. v) result (answer lui bytes.now) }
    {
        file::decode(alloc, bytes)
    }

    /// The bytes that spell the file.
    pub fn encode(&self, alloc: Global) -> Result<Bytes, NoMemory>
        ensures { IfOk result (λ bytes. LuiSpells self.now bytes.items) }
    {
        file::encode(alloc, self)
    }
}

impl ProtocolFile for Lui {
    ghost use Rattle.load_protocol_files.specs.declared.lui.Lui.{Lui};
    ghost use Rattle.load_protocol_files.specs.Lui.{lui_body, lui_fields, LuiFits};
    ghost use Rattle.load_protocol_files.specs.Laws.Replies.{spelled-lui, reply_is_small};

    ghost Value = { Lui };

    ghost view = { λ it. it };

    ghost body = { lui_body };

    ghost fields = { lui_fields };

    ghost Fits = { λ v. LuiFits v };

    ghost IsWritable = { λ it. Unit {0} };

    ghost spelled = { spelled-lui };

    ghost small = { λ it writable fits. reply_is_small it.status it.description fits };

    #[tactic(auto, unfolding(crate::specs::Lui::lui_body))]
    fn read_body(alloc: Global, reader: &mut Reader) -> Result<Lui, FileFault> {
        let (status, description) = read_reply(alloc, reader)?;
        Ok(Lui {
            status,
            description,
        })
    }

    fn put_body(&self, out: &mut Writer) -> Result<(), NoMemory> {
        put_reply(out, self.status, &self.description)
    }
}
