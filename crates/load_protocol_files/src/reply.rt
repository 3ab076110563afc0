//! What an LCI and an LUI say: a status and a description.
ghost use Rattle.std.specs.Prelude.{◌≡◌, ◌++◌, OnOk};
ghost use Rattle.std.specs.List.{concat};
ghost use Rattle.field_grammar.specs.Answers.{Decodes};
ghost use Rattle.load_protocol_files.specs.declared.fault.FileFault.TheVariants.{Memory};
ghost use Rattle.load_protocol_files.specs.Reply.{reply, reply_fields, ReplyFits};

use crate::FileFault;
use crate::pieces::text_of;
use crate::putting::put_text;
use field_codec::{Reader, Writer};
use load_base::{NoMemory, Text};
use std::alloc::Global;

#[tactic(auto, unfolding(crate::specs::Reply::reply))]
pub(crate) fn read_reply(alloc: Global, reader: &mut Reader) -> Result<(u16, Text), FileFault>
    ensures { Decodes Memory (λ said. (said.0, said.1)) reply reader.old result reader.new }
{
    let status = reader.take_u16()?;
    let description = text_of(alloc, reader)?;
    Ok((status, description))
}

pub(crate) fn put_reply(out: &mut Writer, status: u16, description: &Text) -> Result<(), NoMemory>
    ensures fits { OnOk result (ReplyFits status description.now) }
    ensures ok { OnOk result (out.new ≡ out.old ++ concat (reply_fields status description.now)) }
{
    out.put_u16(status)?;
    put_text(out, description)?;
    Ok(())
}
