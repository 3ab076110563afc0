//! The batches of a recipe, one after the other.
ghost use Rattle.std.specs.Prelude.{◌≡◌, ◌++◌, ◌∷◌, [], MatchOption, option_map};
ghost use Rattle.std.specs.List.{flat_map, take_while};
ghost use Rattle.media_build.specs.Lines.{is_target as is_target_line};
ghost use Rattle.media_build.specs.Parts.{batch_line_of};
ghost use Rattle.media_build.specs.RecipeSets.{batch_at, batches_of, targets_in};
ghost use Rattle.media_build.specs.declared.statements.Statement.TheVariants.{Batch};

use crate::statements::{BatchLine, RecipeLine, Statement};
use std::marker::Model;

/// A batch of a recipe: what its line says, and the lines of its targets.
#[derive(Drop)]
pub(crate) struct BatchPart<'a> {
    line: &'a BatchLine,
    targets: &'a [RecipeLine],
}

impl<'a> Model for BatchPart<'a> {
    ghost use Rattle.std.specs.List.{flat_map};
    ghost use Rattle.media_build.specs.RecipeSets.{RecipeBatchView, targets_in};

    ghost Value = { RecipeBatchView };

    ghost view = { λ part. record {
      batch = part.line.now;
      targets = flat_map (λ line. targets_in line.statement) part.targets.now;
    } };
}

impl<'a> BatchPart<'a> {
    /// What its line says.
    pub(crate) fn line(&self) -> &'a BatchLine
        ensures { result.now ≡ self.now.batch }
    {
        self.line
    }

    /// The lines of its targets.
    pub(crate) fn targets(&self) -> &'a [RecipeLine]
        ensures { flat_map (λ line. targets_in line.statement) result.now ≡ self.now.targets }
    {
        self.targets
    }
}

/// The batches that are left. A contract sees it as their list.
#[derive(Drop)]
pub(crate) struct RecipeBatches<'a> {
    rest: &'a [RecipeLine],
}

impl<'a> Model for RecipeBatches<'a> {
    ghost use Rattle.std.specs.Prelude.{List};
    ghost use Rattle.media_build.specs.RecipeSets.{RecipeBatchView, batches_of};

    ghost Value = { List RecipeBatchView };

    ghost view = { λ batches. batches_of batches.rest.now };
}

impl<'a> RecipeBatches<'a> {
    /// All batches of these lines.
    pub(crate) fn new(lines: &'a [RecipeLine]) -> RecipeBatches<'a>
        ensures { result ≡ batches_of lines.now }
    {
        RecipeBatches { rest: lines }
    }

    /// Takes the first batch that is left.
    pub(crate) fn next(&mut self) -> Option<BatchPart<'a>>
        ensures { MatchOption result ((self.old ≡ []) × (self.new ≡ []))
            (λ batch. self.old ≡ batch ∷ self.new) }
    {
        let Some((line, later)) = first_batch(self.rest) else {
            return None;
        };
        self.rest = later;
        Some(BatchPart {
            line,
            targets: targets_before(later),
        })
    }
}

/// The first line that begins a batch: what it says, and the lines after it.
fn first_batch(lines: &[RecipeLine]) -> Option<(&BatchLine, &[RecipeLine])>
    ensures { MatchOption result (batches_of lines.now ≡ []) (λ found. batches_of lines.now
        ≡ batch_at (Batch found.0.now) found.1.now ++ batches_of found.1.now) }
{
    for (index, line) in lines.iter().enumerate() {
        if let Some(batch) = batch_in(&line.statement) {
            return Some((batch, &lines[index + 1..]));
        }
    }
    None
}

/// The targets that stand before any other line.
fn targets_before(lines: &[RecipeLine]) -> &[RecipeLine]
    ensures { result.now ≡ take_while (λ line. is_target_line line.statement) lines.now }
{
    for (index, line) in lines.iter().enumerate() {
        if !is_target(&line.statement) {
            return &lines[..index];
        }
    }
    lines
}

fn batch_in(statement: &Statement) -> Option<&BatchLine>
    ensures { option_map (λ batch. batch.now) result ≡ batch_line_of statement.now }
{
    match statement {
        Statement::Batch(batch) => Some(batch),
        _ => None,
    }
}

fn is_target(statement: &Statement) -> bool
    ensures { result ≡ is_target_line statement.now }
{
    matches!(statement, Statement::Target(_))
}
