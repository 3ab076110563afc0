//! Whether a batch meets the limits of its format.
ghost use Rattle.std.specs.Prelude.{◌↔◌, IsTrue};
ghost use Rattle.std.specs.List.{All};
ghost use Rattle.part_number.specs.PartNumber.{IsPartNumberText};
ghost use Rattle.batch_lists.specs.Batch.{batch_view, batch_target_view};
ghost use Rattle.batch_lists.specs.BatchFields.{IsCount as is_such_count, IsBatch};
ghost use Rattle.batch_lists.specs.BatchFields.{IsBatchTarget as is_such_target};

use crate::batch::{Batch, BatchTarget};
use crate::batch_reading::{MOST_PARTS_OF_A_TARGET, MOST_TARGETS};
use part_number::PartNumber;

fn is_count(most: u16, count: usize) -> bool
    ensures { IsTrue result ↔ is_such_count most count }
{
    1 <= count && count <= most as usize
}

// For the proof: part numbers are such by their type.
fn are_parts(parts: &[PartNumber])
    ensures { All (λ part. IsPartNumberText part) parts.now }
{
    for part in parts {
        let _text = part.as_slice();
    }
}

fn is_target(target: &BatchTarget) -> bool
    ensures { IsTrue result ↔ is_such_target (batch_target_view target.now) }
{
    // The hardware and the position are such by their types.
    let _hw = target.hw.as_slice();
    let _pos = target.pos.as_slice();
    let parts = target.parts.as_slice();
    are_parts(parts);
    is_count(MOST_PARTS_OF_A_TARGET, parts.len())
}

fn are_targets(targets: &[BatchTarget]) -> bool
    ensures { IsTrue result ↔ All (λ target. is_such_target (batch_target_view target))
        targets.now }
{
    targets.iter().all(|target| is_target(target))
}

/// The batch meets the limits.
pub(crate) fn batch_fits(batch: &Batch) -> bool
    ensures { IsTrue result ↔ IsBatch (batch_view batch.now) }
{
    // The part number is such by its type.
    let _part = batch.part.as_slice();
    let targets = batch.targets.as_slice();
    is_count(MOST_TARGETS, targets.len()) && are_targets(targets)
}
