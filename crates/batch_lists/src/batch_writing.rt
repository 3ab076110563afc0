//! The encoder of a batch, part by part of its fields.
ghost use Rattle.std.specs.Prelude.{◌≡◌, ◌++◌, ◌+◌, ◌≤◌, length, map, IfOk, OnOk};
ghost use Rattle.std.specs.List.{concat, flat_map, All};
ghost use Rattle.field_grammar.specs.Fields.{padded_fields};
ghost use Rattle.header_sections.specs.SectionFields.{texts_fields};
ghost use Rattle.batch_lists.specs.Batch.{batch_view, batch_target_view};
ghost use Rattle.batch_lists.specs.BatchFields.{batch_target_fields, contents_fields};
ghost use Rattle.batch_lists.specs.BatchFields.{start_fields, IsBatch, BatchSpells};

use crate::batch::{BATCH_VERSION, Batch, BatchTarget};
use field_codec::Writer;
use header_sections::with_check_sum;
use load_base::{Bytes, Ident, NoMemory};
use part_number::PartNumber;
use std::alloc::Global;

/// The bytes of a batch that meets the limits.
pub(crate) fn batch_bytes(alloc: Global, batch: &Batch) -> Result<Bytes, NoMemory>
    requires { IsBatch (batch_view batch.now) }
    ensures { IfOk result (λ bytes. BatchSpells (batch_view batch.now) bytes.items) }
{
    let mut contents = Writer::new(alloc);
    put_contents(&mut contents, batch)?;
    let whole = with_start(alloc, contents.finish().as_slice())?;
    with_check_sum(alloc, whole)
}

/// The contents after their length in words and the version. The length counts the check sum too.
#[tactic(auto, unfolding(crate::specs::BatchFields::start_fields))]
fn with_start(alloc: Global, contents: &[u8]) -> Result<Bytes, NoMemory>
    requires { length contents.now ≤ 131072 }
    ensures { IfOk result (λ bytes. bytes.items
        ≡ concat (start_fields (6 + length contents.now + 2)) ++ contents.now) }
{
    let mut out = Writer::new(alloc);
    out.reserve(6 + contents.len() + 2)?;
    out.put_u32((6 + contents.len() as u32 + 2) / 2)?;
    out.put_u16(BATCH_VERSION)?;
    out.put_raw(contents)?;
    Ok(out.finish())
}

#[tactic(auto, using(part_number::proofs::VerdictLemmas::part_size), unfolding(crate::specs::BatchFields::contents_fields, crate::specs::BatchFields::batch_targets_fields))]
fn put_contents(out: &mut Writer, batch: &Batch) -> Result<(), NoMemory>
    requires { IsBatch (batch_view batch.now) }
    ensures { OnOk result (out.new ≡ out.old ++ concat (contents_fields (batch_view batch.now))) }
{
    let targets = batch.targets.as_slice();
    out.put_u16(0)?;
    out.put_padded(batch.part.as_slice())?;
    out.put_u16(targets.len() as u16)?;
    put_targets(out, targets)?;
    Ok(())
}

fn put_targets(out: &mut Writer, targets: &[BatchTarget]) -> Result<(), NoMemory>
    requires { All (λ target. length target.parts.items ≤ 32) targets.now }
    ensures { OnOk result (out.new ≡ out.old
        ++ concat (flat_map batch_target_fields (map batch_target_view targets.now))) }
{
    for target in targets {
        put_target(out, target)?;
    }
    Ok(())
}

#[tactic(auto, unfolding(header_sections::specs::SectionFields::texts_fields))]
fn put_target(out: &mut Writer, target: &BatchTarget) -> Result<(), NoMemory>
    requires { length target.now.parts.items ≤ 32 }
    ensures { OnOk result (out.new ≡ out.old
        ++ concat (batch_target_fields (batch_target_view target.now))) }
{
    let parts = target.parts.as_slice();
    put_ident(out, &target.hw)?;
    put_ident(out, &target.pos)?;
    out.put_u16(parts.len() as u16)?;
    put_parts(out, parts)?;
    Ok(())
}

fn put_ident(out: &mut Writer, ident: &Ident) -> Result<(), NoMemory>
    ensures { OnOk result (out.new ≡ out.old ++ concat (padded_fields ident.now)) }
{
    out.put_padded(ident.as_slice())
}

fn put_parts(out: &mut Writer, parts: &[PartNumber]) -> Result<(), NoMemory>
    ensures { OnOk result (out.new ≡ out.old ++ concat (flat_map padded_fields parts.now)) }
{
    for part in parts {
        put_part(out, part)?;
    }
    Ok(())
}

#[tactic(auto, using(part_number::proofs::VerdictLemmas::part_size))]
fn put_part(out: &mut Writer, part: &PartNumber) -> Result<(), NoMemory>
    ensures { OnOk result (out.new ≡ out.old ++ concat (padded_fields part.now)) }
{
    out.put_padded(part.as_slice())
}
