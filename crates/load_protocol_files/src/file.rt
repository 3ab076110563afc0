//! What the six files have in common: how a whole file is read and written, given how its fields
//! are.
ghost use Rattle.std.specs.Prelude.{◌≡◌, ◌++◌, ◌⊎◌, ◌+◌, ◌<◌, ◌^◌, List, ℕ, length, IfOk, IfErr};
ghost use Rattle.std.specs.Prelude.{OnOk};
ghost use Rattle.std.specs.List.{concat};
ghost use Rattle.field_grammar.specs.Grammar.{Grammar, Fault};
ghost use Rattle.field_grammar.specs.Answers.{Decodes, AnswersAs, answer};
ghost use Rattle.field_grammar.specs.Spelling.{IsSpelledBy};
ghost use Rattle.load_protocol_files.specs.Files.{file, FileSpells};
ghost use Rattle.load_protocol_files.specs.declared.fault.FileFault.{FileFault};
ghost use Rattle.load_protocol_files.specs.declared.fault.FileFault.TheVariants.{Memory};

use crate::FileFault;
use crate::pieces::{head_of, tail_of};
use crate::putting::file_of;
use field_codec::{Reader, Writer};
use load_base::{Bytes, NoMemory};
use std::alloc::Global;

/// How many bytes are reserved for the fields of a file before they are written.
const RESERVED_BODY: usize = 64;

/// A type of protocol file: the format of its fields, and how they are read and written.
pub(crate) trait ProtocolFile: Drop {
    /// A file as contracts see it.
    ghost Value: { Type 0 };

    ghost view: { Self → Value };

    /// The fields between the head and the end.
    ghost body: { Grammar FileFault Value };

    ghost fields: { Value → List (List ℕ) };

    /// Which values these fields spell.
    ghost Fits: { Value → Type 0 };

    /// Which files can be written.
    ghost IsWritable: { Self → Type 0 };

    fn read_body(alloc: Global, reader: &mut Reader) -> Result<Self, FileFault>
        ensures { Decodes Memory view body reader.old result reader.new };

    fn put_body(&self, out: &mut Writer) -> Result<(), NoMemory>
        requires { IsWritable self.now }
        ensures fits { OnOk result (Fits (view self.now)) }
        ensures ok { OnOk result (out.new ≡ out.old ++ concat (fields (view self.now))) };

    ghost spelled: { IsSpelledBy body fields Fits };

    ghost small: { (it : Self) → IsWritable it → Fits (view it)
        → 6 + length (concat (fields (view it))) < 2 ^ 32 };
}

/// The file that the bytes spell, or their first fault from left to right.
pub(crate) fn decode<F: ProtocolFile>(alloc: Global, bytes: &[u8]) -> Result<F, FileFault>
    ensures found { IfOk result (λ it. FileSpells F.fields F.Fits (F.view it) bytes.now) }
    ensures only { (v : F.Value) → FileSpells F.fields F.Fits v bytes.now
        → AnswersAs Memory F.view result (Ok v) }
    ensures refused { IfErr result (λ fault.
        (fault ≡ Memory) ⊎ Fault (file F.body) bytes.now fault) }
    ensures faulty { (fault : FileFault) → Fault (file F.body) bytes.now fault
        → AnswersAs Memory F.view result (Err fault) }
    ensures answers { AnswersAs Memory F.view result (answer (file F.body) bytes.now) }
{
    read_file::<F>(alloc, bytes)
}

fn read_file<F: ProtocolFile>(alloc: Global, bytes: &[u8]) -> Result<F, FileFault>
    ensures { AnswersAs Memory F.view result (answer (file F.body) bytes.now) }
{
    let mut reader = Reader::new(bytes);
    head_of(&mut reader)?;
    let file = F::read_body(alloc, &mut reader)?;
    tail_of(&mut reader)?;
    Ok(file)
}

/// The bytes that spell the file.
pub(crate) fn encode<F: ProtocolFile>(alloc: Global, it: &F) -> Result<Bytes, NoMemory>
    requires { F.IsWritable it.now }
    ensures { IfOk result (λ bytes. FileSpells F.fields F.Fits (F.view it.now) bytes.items) }
{
    let mut body = Writer::new(alloc);
    body.reserve(RESERVED_BODY)?;
    it.put_body(&mut body)?;
    file_of(alloc, body)
}
