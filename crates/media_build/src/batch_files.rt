//! The files of the batches of a recipe.
ghost use Rattle.std.specs.Prelude.{◌≡◌, ◌++◌, map, length, IfOk, OnOk};
ghost use Rattle.std.specs.List.{flat_map};
ghost use Rattle.batch_lists.specs.Batch.{batch_view, batch_target_view};
ghost use Rattle.batch_lists.specs.BatchFields.{IsBatch};
ghost use Rattle.media_build.specs.Accepted.{IsRecipe};
ghost use Rattle.media_build.specs.Building.{batch_length, batches_length};
ghost use Rattle.media_build.specs.NoFindings.{body_view};
ghost use Rattle.media_build.specs.RecipeSets.{batch_body, batch_of as batch_said, batches_of};
ghost use Rattle.media_build.specs.RecipeSets.{batch_target as target_said, targets_in};

use crate::batches::{BatchPart, RecipeBatches};
use crate::statements::{RecipeLine, Statement, TargetLine};
use batch_lists::{Batch, BatchTarget, batch_laws};
use load_base::{List, NoMemory};
use media_check::Placed;
use part_number::PartNumber;
use std::alloc::Global;

/// The files of all batches, and how many bytes they have together.
pub(crate) fn batch_files(
    alloc: Global,
    lines: &[RecipeLine],
) -> Result<(Vec<Placed>, usize), NoMemory>
    requires { IsRecipe lines.now }
    ensures files { IfOk result (λ files. map body_view files.0.items
        ≡ map batch_body (batches_of lines.now)) }
    ensures length { IfOk result (λ files. files.1 ≡ batches_length (batches_of lines.now)) }
{
    let mut batches = RecipeBatches::new(lines);
    let mut files = Vec::new(alloc);
    let mut length = 0;
    while let Some(batch) = batches.next() {
        let file = batch_file(alloc, &batch)?;
        length += file.bytes.len();
        files.push(file)?;
    }
    Ok((files, length))
}

/// The file of a batch.
fn batch_file(alloc: Global, part: &BatchPart) -> Result<Placed, NoMemory>
    requires { IsBatch (batch_said part.now) }
    ensures file { IfOk result (λ file. body_view file ≡ batch_body part.now) }
    ensures length { IfOk result (λ file. length file.bytes.items ≡ batch_length part.now) }
{
    let line = part.line();
    let batch = batch_of(alloc, part)?;
    let bytes = batch.encode(alloc)?;
    // For the proof: does nothing.
    batch_laws();
    Ok(Placed {
        member: u16::from(line.member),
        name: line.name,
        bytes,
    })
}

fn batch_of(alloc: Global, part: &BatchPart) -> Result<Batch, NoMemory>
    ensures { IfOk result (λ batch. batch_view batch ≡ batch_said part.now) }
{
    let line = part.line();
    Ok(Batch {
        part: line.part,
        targets: targets_of(alloc, part.targets())?,
    })
}

/// The targets of these lines.
fn targets_of(alloc: Global, lines: &[RecipeLine]) -> Result<List<BatchTarget>, NoMemory>
    ensures { IfOk result (λ targets. map batch_target_view targets.items
        ≡ map target_said (flat_map (λ line. targets_in line.statement) lines.now)) }
{
    let mut targets = List::new(alloc);
    for line in lines {
        put_target(alloc, &line.statement, &mut targets)?;
    }
    Ok(targets)
}

/// Adds the target of a line, if it has one.
fn put_target(
    alloc: Global,
    statement: &Statement,
    targets: &mut List<BatchTarget>,
) -> Result<(), NoMemory>
    ensures { OnOk result (map batch_target_view targets.new.items
        ≡ map batch_target_view targets.old.items ++ map target_said (targets_in statement.now)) }
{
    if let Statement::Target(target) = statement {
        let target = target_of(alloc, target)?;
        targets.push(target)?;
    }
    Ok(())
}

fn target_of(alloc: Global, line: &TargetLine) -> Result<BatchTarget, NoMemory>
    ensures { IfOk result (λ target. batch_target_view target ≡ target_said line.now) }
{
    Ok(BatchTarget {
        hw: line.hw,
        pos: line.pos,
        parts: parts_of(alloc, line.parts.as_slice())?,
    })
}

fn parts_of(alloc: Global, parts: &[PartNumber]) -> Result<List<PartNumber>, NoMemory>
    ensures { IfOk result (λ list. list.items ≡ parts.now) }
{
    let mut list = List::new(alloc);
    for part in parts {
        list.push(*part)?;
    }
    Ok(list)
}
