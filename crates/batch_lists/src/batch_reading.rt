//! The decoder of a batch, part by part of its format.
ghost use Rattle.std.specs.Prelude.{◌≡◌, map};
ghost use Rattle.field_grammar.specs.Grammar.{times};
ghost use Rattle.field_grammar.specs.Answers.{answer, Decodes, AnswersAs};
ghost use Rattle.batch_lists.specs.Batch.{batch, batch_view, batch_target_view, one_part, ident};
ghost use Rattle.batch_lists.specs.Batch.{ident_verdict, counted, is_count as is_such_count};
ghost use Rattle.batch_lists.specs.Batch.{batch_parts, batch_target, batch_targets, contents};
ghost use Rattle.batch_lists.specs.Batch.{check_sum, limit};
ghost use Rattle.batch_lists.specs.declared.fault.BatchFault.TheVariants.{Memory};

use crate::batch::{BATCH_VERSION, Batch, BatchTarget};
use crate::fault::{BatchFault, BatchWordFault};
use crc_fields::crc16;
use field_codec::Reader;
use header_sections::{read_part, read_start, test_end};
use load_base::{Ident, List};
use part_number::PartNumber;
use std::alloc::Global;

/// The most bytes of a batch.
const LONGEST_BATCH: usize = 131_072;

/// The most targets of a batch.
pub const MOST_TARGETS: u16 = 64;

/// The most parts of a target.
pub const MOST_PARTS_OF_A_TARGET: u16 = 32;

/// The batch that the bytes spell, or their first fault.
#[tactic(auto, unfolding(crate::specs::Batch::batch))]
pub(crate) fn batch_of(alloc: Global, bytes: &[u8]) -> Result<Batch, BatchFault>
    ensures { AnswersAs Memory batch_view result (answer batch bytes.now) }
{
    let mut reader = Reader::new(bytes);
    test_limit(&mut reader)?;
    read_start(&mut reader, BATCH_VERSION)?;
    let batch = read_contents(alloc, &mut reader)?;
    test_check_sum(&mut reader)?;
    Ok(batch)
}

#[tactic(auto, unfolding(crate::specs::Batch::limit))]
fn test_limit(reader: &mut Reader) -> Result<(), BatchFault>
    ensures { Decodes Memory (λ u. u) limit reader.old result reader.new }
{
    if reader.left() <= LONGEST_BATCH {
        Ok(())
    } else {
        Err(BatchFault::TooLong)
    }
}

#[tactic(auto, unfolding(crate::specs::Batch::contents))]
fn read_contents(alloc: Global, reader: &mut Reader) -> Result<Batch, BatchFault>
    ensures { Decodes Memory batch_view contents reader.old result reader.new }
{
    let spare = reader.take_u16()?;
    if spare != 0 {
        return Err(BatchFault::Spare(u64::from(spare)));
    }
    let part = read_part(reader)?;
    let targets = read_targets(alloc, reader)?;
    Ok(Batch { part, targets })
}

#[tactic(auto, unfolding(crate::specs::Batch::check_sum))]
fn test_check_sum(reader: &mut Reader) -> Result<(), BatchFault>
    ensures { Decodes Memory (λ u. u) check_sum reader.old result reader.new }
{
    let found = crc16(reader.before());
    let said = reader.take_u16()?;
    test_end(reader, said, found)?;
    Ok(())
}

// ---- counts and Idents

fn is_count(most: u16, count: u16) -> bool
    ensures { result ≡ is_such_count most count }
{
    1 <= count && count <= most
}

/// A count of 1 to `most`.
#[tactic(auto, unfolding(crate::specs::Batch::counted))]
fn read_count(reader: &mut Reader, most: u16) -> Result<u16, BatchFault>
    ensures { Decodes Memory (λ n. n) (counted most) reader.old result reader.new }
{
    let offset = reader.place() as u64;
    let count = reader.take_u16()?;
    if is_count(most, count) {
        Ok(count)
    } else {
        Err(BatchFault::Count(offset))
    }
}

/// A padded Ident. Its bytes are tested before its pad is read.
#[tactic(auto, unfolding(crate::specs::Batch::ident))]
fn read_ident(reader: &mut Reader) -> Result<Ident, BatchFault>
    ensures { Decodes Memory (λ t. t) ident reader.old result reader.new }
{
    let size = reader.take_u16()? as usize;
    let offset = reader.place() as u64;
    let bytes = reader.take_raw(size)?;
    let ident = ident_of(bytes, offset)?;
    reader.take_pad(size)?;
    Ok(ident)
}

/// The Ident that these bytes are, or the fault of the Ident whose bytes stand at this offset.
#[tactic(auto, using(load_base::proofs::VerdictLemmas::read_judged, load_base::proofs::VerdictLemmas::refused_judged))]
fn ident_of(bytes: &[u8], offset: u64) -> Result<Ident, BatchFault>
    ensures { AnswersAs Memory (λ t. t) result (ident_verdict offset bytes.now) }
{
    match Ident::read(bytes) {
        Ok(ident) => Ok(ident),
        Err(fault) => Err(BatchFault::Word {
            place: offset,
            fault: BatchWordFault::Ident(fault),
        }),
    }
}

// ---- targets

#[tactic(auto, unfolding(crate::specs::Batch::batch_targets))]
fn read_targets(alloc: Global, reader: &mut Reader) -> Result<List<BatchTarget>, BatchFault>
    ensures { Decodes Memory (λ l. map batch_target_view l.items) batch_targets reader.old result
        reader.new }
{
    let count = read_count(reader, MOST_TARGETS)?;
    let targets = read_so_many_targets(alloc, reader, count)?;
    Ok(targets)
}

#[tactic(auto, using(field_grammar::proofs::LoopLemmas::goes_on_seen, field_grammar::proofs::LoopLemmas::ends, field_grammar::proofs::LoopLemmas::is_done, field_grammar::proofs::LoopLemmas::begins))]
fn read_so_many_targets(
    alloc: Global,
    reader: &mut Reader,
    count: u16,
) -> Result<List<BatchTarget>, BatchFault>
    ensures { Decodes Memory (λ l. map batch_target_view l.items) (times count batch_target)
        reader.old result reader.new }
{
    let mut targets = List::new(alloc);
    for _ in 0..count {
        targets.push(read_target(alloc, reader)?)?;
    }
    Ok(targets)
}

#[tactic(auto, unfolding(crate::specs::Batch::batch_target))]
fn read_target(alloc: Global, reader: &mut Reader) -> Result<BatchTarget, BatchFault>
    ensures { Decodes Memory batch_target_view batch_target reader.old result reader.new }
{
    let hw = read_ident(reader)?;
    let pos = read_ident(reader)?;
    let parts = read_parts(alloc, reader)?;
    Ok(BatchTarget { hw, pos, parts })
}

#[tactic(auto, unfolding(crate::specs::Batch::batch_parts))]
fn read_parts(alloc: Global, reader: &mut Reader) -> Result<List<PartNumber>, BatchFault>
    ensures { Decodes Memory (λ l. l.items) batch_parts reader.old result reader.new }
{
    let count = read_count(reader, MOST_PARTS_OF_A_TARGET)?;
    let parts = read_so_many_parts(alloc, reader, count)?;
    Ok(parts)
}

#[tactic(auto, using(field_grammar::proofs::LoopLemmas::goes_on, field_grammar::proofs::LoopLemmas::ends, field_grammar::proofs::LoopLemmas::is_done, field_grammar::proofs::LoopLemmas::begins))]
fn read_so_many_parts(
    alloc: Global,
    reader: &mut Reader,
    count: u16,
) -> Result<List<PartNumber>, BatchFault>
    ensures { Decodes Memory (λ l. l.items) (times count one_part) reader.old result
        reader.new }
{
    let mut parts = List::new(alloc);
    for _ in 0..count {
        parts.push(read_one_part(reader)?)?;
    }
    Ok(parts)
}

#[tactic(auto, unfolding(crate::specs::Batch::one_part))]
fn read_one_part(reader: &mut Reader) -> Result<PartNumber, BatchFault>
    ensures { Decodes Memory (λ t. t) one_part reader.old result reader.new }
{
    let part = read_part(reader)?;
    Ok(part)
}
