//! Recipes, and how they are read.
ghost use Rattle.std.specs.Prelude.{◌≡◌, ◌≤◌, ◌⊎◌, [], length, Ok, Err, IfOk, IfErr};
ghost use Rattle.field_grammar.specs.Answers.{AnswersAs};
ghost use Rattle.text_words.specs.Words.{written_lines};
ghost use Rattle.media_build.specs.Accepted.{IsRecipe};
ghost use Rattle.media_build.specs.Recipes.{recipe_said, lines_said, line_count as count_lines};
ghost use Rattle.media_build.specs.Recipes.{line_said};
ghost use Rattle.media_build.specs.declared.fault.RecipeFault.TheVariants.{Memory};

use crate::fault::RecipeFault;
use crate::partial::PartialRecipe;
use crate::statements::RecipeLine;
use load_base::List;
use std::alloc::Global;
use std::marker::Model;
use text_words::{Pieces, is_passed_over};

/// The most bytes of a recipe.
const LONGEST_RECIPE: usize = 1_000_000;

/// The lines that each recipe has: `set`, `members` and a load.
const FEWEST_LINES: usize = 3;

/// A recipe: what its lines say that aren't passed over, in their order (docs/FORMATS.md,
/// "Recipe"). A contract sees it as the list of these lines, which are a recipe whatever text they
/// were read from (`IsRecipe`).
#[derive(Drop)]
pub struct Recipe {
    lines: List<RecipeLine>,
}

impl Model for Recipe {
    ghost use Rattle.std.specs.Prelude.{List};
    ghost use Rattle.media_build.specs.declared.statements.RecipeLine.{RecipeLine};

    ghost Value = { List RecipeLine };

    ghost use Rattle.media_build.specs.Accepted.{IsRecipe};

    ghost view = { λ recipe. recipe.lines.items };

    ghost invariant = { λ recipe. IsRecipe recipe.lines.items };
}

impl Recipe {
    /// Reads a whole text as a recipe. A text of more than 1,000,000 bytes is refused first; then
    /// the first line that is wrong, and in it the first word; and last the end of a recipe without
    /// a load, or after a batch without a target.
    #[tactic(auto, unfolding(crate::specs::Recipes::recipe_said))]
    pub fn read(alloc: Global, bytes: &[u8]) -> Result<Recipe, RecipeFault>
        ensures found { IfOk result (λ recipe. recipe_said bytes.now ≡ Ok recipe) }
        ensures refused { IfErr result (λ fault.
            (fault ≡ Memory) ⊎ (recipe_said bytes.now ≡ Err fault)) }
    {
        if bytes.len() > LONGEST_RECIPE {
            return Err(RecipeFault::Limit(0));
        }
        let partial = read_lines(alloc, bytes)?;
        if partial.len() < FEWEST_LINES || !partial.is_whole() {
            return Err(RecipeFault::Order(line_count(bytes) + 1));
        }
        Ok(Recipe {
            lines: partial.into_lines(),
        })
    }

    /// Its lines.
    pub fn lines(&self) -> &[RecipeLine]
        ensures lines { result.now ≡ self.now }
        ensures accepted { IsRecipe self.now }
    {
        self.lines.as_slice()
    }
}

/// The lines of a text that aren't passed over, in their order.
fn read_lines(alloc: Global, bytes: &[u8]) -> Result<PartialRecipe, RecipeFault>
    requires { length bytes.now ≤ 1000000 }
    ensures { AnswersAs Memory (λ partial. partial) result (lines_said []
        (written_lines bytes.now)) }
{
    let mut partial = PartialRecipe::new(alloc);
    let mut lines = Pieces::new(bytes, b'\n');
    let mut number = 1;
    while let Some(line) = lines.next() {
        partial = with_line(alloc, partial, number, line)?;
        number += 1;
    }
    Ok(partial)
}

/// The lines so far, with this one unless it is passed over.
fn with_line(
    alloc: Global,
    partial: PartialRecipe,
    number: u64,
    line: &[u8],
) -> Result<PartialRecipe, RecipeFault>
    ensures { AnswersAs Memory (λ partial. partial) result (line_said number partial line.now) }
{
    if is_passed_over(line) {
        return Ok(partial);
    }
    let statement = partial.read(alloc, number, &mut Pieces::new(line, b' '))?;
    Ok(partial.with(number, statement)?)
}

/// How many lines a text has. Each line feed ends one, and what stands after the last is one too.
fn line_count(bytes: &[u8]) -> u64
    ensures { result ≡ count_lines bytes.now }
{
    let ended = bytes.iter().filter(|byte| **byte == b'\n').count() as u64;
    if bytes.is_empty() || bytes[bytes.len() - 1] == b'\n' {
        ended
    } else {
        ended + 1
    }
}
