//! The loads of a recipe, one after the other.
ghost use Rattle.std.specs.Prelude.{◌≡◌, ◌++◌, ◌∷◌, [], MatchOption, not, option_map};
ghost use Rattle.std.specs.List.{take_while};
ghost use Rattle.media_build.specs.Lines.{ends_load as is_end};
ghost use Rattle.media_build.specs.Parts.{load_of, statements};
ghost use Rattle.media_build.specs.RecipeSets.{load_at, loads_of};
ghost use Rattle.media_build.specs.declared.statements.Statement.TheVariants.{Load};

use crate::statements::{LoadLine, RecipeLine, Statement};
use std::marker::Model;

/// A load of a recipe: the number of its line, what that says, and the lines that follow it up to
/// the next load or batch.
#[derive(Drop)]
pub(crate) struct LoadPart<'a> {
    number: u64,
    line: &'a LoadLine,
    own: &'a [RecipeLine],
}

impl<'a> Model for LoadPart<'a> {
    ghost use Rattle.media_build.specs.Parts.{statements};
    ghost use Rattle.media_build.specs.RecipeSets.{RecipeLoadView};

    ghost Value = { RecipeLoadView };

    ghost view = { λ part. record {
      number = part.number;
      load = part.line.now;
      own = statements part.own.now;
    } };
}

impl<'a> LoadPart<'a> {
    /// The number of its line.
    pub(crate) fn number(&self) -> u64
        ensures { result ≡ self.now.number }
    {
        self.number
    }

    /// What its line says.
    pub(crate) fn line(&self) -> &'a LoadLine
        ensures { result.now ≡ self.now.load }
    {
        self.line
    }

    /// The lines that follow it up to the next load or batch.
    pub(crate) fn own(&self) -> &'a [RecipeLine]
        ensures { statements result.now ≡ self.now.own }
    {
        self.own
    }
}

/// The loads that are left. A contract sees it as their list.
#[derive(Drop)]
pub(crate) struct Loads<'a> {
    rest: &'a [RecipeLine],
}

impl<'a> Model for Loads<'a> {
    ghost use Rattle.std.specs.Prelude.{List};
    ghost use Rattle.media_build.specs.RecipeSets.{RecipeLoadView, loads_of};

    ghost Value = { List RecipeLoadView };

    ghost view = { λ loads. loads_of loads.rest.now };
}

impl<'a> Loads<'a> {
    /// All loads of these lines.
    pub(crate) fn new(lines: &'a [RecipeLine]) -> Loads<'a>
        ensures { result ≡ loads_of lines.now }
    {
        Loads { rest: lines }
    }

    /// Takes the first load that is left.
    pub(crate) fn next(&mut self) -> Option<LoadPart<'a>>
        ensures { MatchOption result ((self.old ≡ []) × (self.new ≡ []))
            (λ load. self.old ≡ load ∷ self.new) }
    {
        let Some((number, line, later)) = first_load(self.rest) else {
            return None;
        };
        let (own, rest) = cut(later);
        self.rest = rest;
        Some(LoadPart { number, line, own })
    }
}

/// The first load line: its number, what it says, and the lines after it.
fn first_load(lines: &[RecipeLine]) -> Option<(u64, &LoadLine, &[RecipeLine])>
    ensures { MatchOption result (loads_of lines.now ≡ []) (λ found. loads_of lines.now
        ≡ load_at found.0 (Load found.1.now) found.2.now ++ loads_of found.2.now) }
{
    for (index, line) in lines.iter().enumerate() {
        if let Some(load) = load_in(&line.statement) {
            return Some((line.number, load, &lines[index + 1..]));
        }
    }
    None
}

/// The lines up to the next load or batch, and those from it on.
fn cut(lines: &[RecipeLine]) -> (&[RecipeLine], &[RecipeLine])
    ensures own { result.0.now ≡ take_while (λ line. not (is_end line.statement)) lines.now }
    ensures rest { loads_of result.1.now ≡ loads_of lines.now }
{
    for (index, line) in lines.iter().enumerate() {
        if ends_load(&line.statement) {
            return (&lines[..index], &lines[index..]);
        }
    }
    (lines, &lines[lines.len()..])
}

/// Whether the lines of a load end here.
fn ends_load(statement: &Statement) -> bool
    ensures { result ≡ is_end statement.now }
{
    matches!(statement, Statement::Load(_) | Statement::Batch(_))
}

fn load_in(statement: &Statement) -> Option<&LoadLine>
    ensures { option_map (λ load. load.now) result ≡ load_of statement.now }
{
    match statement {
        Statement::Load(load) => Some(load),
        _ => None,
    }
}
