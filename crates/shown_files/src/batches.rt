//! The fields of a list of batches and of a batch, as they are shown.
ghost use Rattle.std.specs.Prelude.{◌≡◌, ◌++◌, map, OnOk, IfOk};
ghost use Rattle.std.specs.List.{flat_map};
ghost use Rattle.batch_lists.specs.Batch.{batch_target_view, batch_view};
ghost use Rattle.batch_lists.specs.Batches.{batches_list_view};
ghost use Rattle.shown_files.specs.BatchText.{listed_batch_line, shown_batches_list, part_line};
ghost use Rattle.shown_files.specs.BatchText.{batch_target_line, batch_target_lines, shown_batch};

use crate::lists::{put_crc, put_kind, put_set};
use crate::user::put_user;
use batch_lists::{BATCH_VERSION, BATCHES_VERSION, Batch, BatchEntry, BatchTarget, BatchesList};
use load_base::{Bytes, NoMemory};
use part_number::PartNumber;
use printed_text::{put_field, put_number};
use std::alloc::Global;

/// The fields of a list of batches that these bytes spell, and the check sum at its end.
#[tactic(auto, unfolding(crate::specs::BatchText::shown_batches_list))]
pub fn batches_list_text(alloc: Global, bytes: &[u8], list: &BatchesList) -> Result<Bytes, NoMemory>
    ensures { IfOk result (λ text.
        text.items ≡ shown_batches_list bytes.now (batches_list_view list.now)) }
{
    let mut out = Bytes::new(alloc);
    put_kind(
        alloc,
        &mut out,
        b"batches",
        bytes.len() / 2,
        BATCHES_VERSION,
    )?;
    put_set(alloc, &mut out, &list.set, list.member, list.members)?;
    put_batches(alloc, &mut out, list.batches.as_slice())?;
    put_user(&mut out, list.user.as_slice())?;
    put_crc(&mut out, bytes)?;
    Ok(out)
}

fn put_batches(alloc: Global, out: &mut Bytes, batches: &[BatchEntry]) -> Result<(), NoMemory>
    ensures { OnOk result (out.new.items
        ≡ out.old.items ++ flat_map listed_batch_line batches.now) }
{
    for batch in batches {
        put_batch(alloc, out, batch)?;
    }
    Ok(())
}

#[tactic(auto, unfolding(crate::specs::BatchText::listed_batch_line))]
fn put_batch(alloc: Global, out: &mut Bytes, batch: &BatchEntry) -> Result<(), NoMemory>
    ensures { OnOk result (out.new.items ≡ out.old.items ++ listed_batch_line batch.now) }
{
    out.extend(b"batch ")?;
    out.extend(batch.part.as_slice())?;
    out.extend(b" ")?;
    out.extend(batch.file.as_slice())?;
    out.extend(b" ")?;
    put_number(alloc, out, u64::from(batch.member))?;
    out.extend(b"\n")
}

/// The fields of a batch that these bytes spell, and the check sum at its end.
#[tactic(auto, unfolding(crate::specs::BatchText::shown_batch))]
pub fn batch_text(alloc: Global, bytes: &[u8], batch: &Batch) -> Result<Bytes, NoMemory>
    ensures { IfOk result (λ text. text.items ≡ shown_batch bytes.now (batch_view batch.now)) }
{
    let mut out = Bytes::new(alloc);
    put_kind(alloc, &mut out, b"lub", bytes.len() / 2, BATCH_VERSION)?;
    put_part(&mut out, &batch.part)?;
    put_targets(&mut out, batch.targets.as_slice())?;
    put_crc(&mut out, bytes)?;
    Ok(out)
}

fn put_part(out: &mut Bytes, part: &PartNumber) -> Result<(), NoMemory>
    ensures { OnOk result (out.new.items ≡ out.old.items ++ part_line part.now) }
{
    put_field(out, b"part", part.as_slice())
}

fn put_parts(out: &mut Bytes, parts: &[PartNumber]) -> Result<(), NoMemory>
    ensures { OnOk result (out.new.items ≡ out.old.items ++ flat_map part_line parts.now) }
{
    for part in parts {
        put_part(out, part)?;
    }
    Ok(())
}

fn put_targets(out: &mut Bytes, targets: &[BatchTarget]) -> Result<(), NoMemory>
    ensures { OnOk result (out.new.items
        ≡ out.old.items ++ flat_map batch_target_lines (map batch_target_view targets.now)) }
{
    for target in targets {
        put_target(out, target)?;
    }
    Ok(())
}

#[tactic(auto, unfolding(crate::specs::BatchText::batch_target_lines))]
fn put_target(out: &mut Bytes, target: &BatchTarget) -> Result<(), NoMemory>
    ensures { OnOk result (out.new.items
        ≡ out.old.items ++ batch_target_lines (batch_target_view target.now)) }
{
    put_target_line(out, target)?;
    put_parts(out, target.parts.as_slice())
}

#[tactic(auto, unfolding(crate::specs::BatchText::batch_target_line))]
fn put_target_line(out: &mut Bytes, target: &BatchTarget) -> Result<(), NoMemory>
    ensures { OnOk result (out.new.items
        ≡ out.old.items ++ batch_target_line (batch_target_view target.now)) }
{
    out.extend(b"target ")?;
    out.extend(target.hw.as_slice())?;
    out.extend(b" ")?;
    out.extend(target.pos.as_slice())?;
    out.extend(b"\n")
}
