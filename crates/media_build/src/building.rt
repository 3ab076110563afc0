//! Building the media set that a recipe names.
ghost use Rattle.std.specs.Prelude.{◌≡◌, ℕ, ◌++◌, ◌≤◌, [], IfOk};
ghost use Rattle.std.specs.Option.{ForSome};
ghost use Rattle.media_check.specs.BuiltSets.{built_media};
ghost use Rattle.media_check.specs.Findings.{findings_of};
ghost use Rattle.media_check.specs.Sets.{set_in};
ghost use Rattle.batch_lists.specs.Batches.{IsBatchesList};
ghost use Rattle.media_lists.specs.Files.{IsFilesList};
ghost use Rattle.media_lists.specs.Loads.{IsLoadsList, loads_list_view};
ghost use Rattle.media_build.specs.Building.{AnswersSizes, Builds, HasBuildCause, HasLists};
ghost use Rattle.media_build.specs.Building.{IsSmallSet, batches_beside, files_beside, of_member};
ghost use Rattle.media_build.specs.RecipeSets.{batches_of};

use crate::batch_files::batch_files;
use crate::bodies::read_bodies;
use crate::building_fault::BuildFault;
use crate::laws::what_is_built_has_no_finding;
use crate::lists::{batches_list, batches_lists, files_list, files_lists, loads_list, loads_lists};
use crate::recipe::Recipe;
use crate::sizes::headers_length;
use crate::statements::RecipeLine;
use load_base::{Host, List, NoMemory};
use media_check::{Built, Placed};
use media_lists::LoadsList;
use std::alloc::Global;

/// Builds the set that a recipe names, of sources that the host has (docs/FORMATS.md, "Recipe").
///
/// The sizes that the recipe alone decides are tested first, before a source is read:
/// [`BuildFault::HeaderTooLong`] for the first load whose header has more than 65,536 bytes, and
/// then [`BuildFault::ListTooLong`] where a list breaks a limit of its format. The sources are read
/// in the order of their lines, each as often as it is named, and refused at the first that is
/// absent, that has more than 16,777,215 bytes, or with which all headers, the files of all batches
/// and the sources so far have more than 268,435,456 bytes together.
pub fn build<H: Host>(alloc: Global, recipe: &Recipe, host: &mut H) -> Result<Built, BuildFault>
    // The sizes come first.
    ensures sizes { AnswersSizes recipe.now result }
    // With Ok the set that the recipe names; else the first source that is refused.
    ensures builds { ForSome (H.files host.old) (Builds recipe.now result) }
    ensures small { IfOk result IsSmallSet }
    ensures sound { ForSome (H.files host.old) (λ files. IfOk result (λ built.
        findings_of (set_in (built_media built)) ≡ [])) }
    // Whatever it answers.
    ensures cause { HasBuildCause (H.faults host.old) (H.faults host.new) result }
    ensures kept { H.files host.new ≡ H.files host.old }
{
    what_is_built_has_no_finding();
    let lines = recipe.lines();
    let headers = headers_length(alloc, lines)?;
    let loads = loads_list(alloc, lines)?;
    let batches = batch_files(alloc, lines)?;
    let bodies = read_bodies(alloc, host, lines, headers + batches.1)?;
    let bodies = joined(bodies, batches.0)?;
    Ok(with_lists(alloc, lines, loads, bodies)?)
}

/// The files of loads, and then those of batches.
fn joined(bodies: List<Placed>, batches: Vec<Placed>) -> Result<List<Placed>, NoMemory>
    ensures { IfOk result (λ all. all.items ≡ bodies.items ++ batches.items) }
{
    let mut bodies = bodies;
    for file in batches {
        bodies.push(file)?;
    }
    Ok(bodies)
}

/// The set of these files, with this list of loads in each member, and one of the batches of these
/// lines, if there are any.
fn with_lists(
    alloc: Global,
    lines: &[RecipeLine],
    loads: LoadsList,
    bodies: List<Placed>,
) -> Result<Built, NoMemory>
    requires loads { (member : ℕ) → 1 ≤ member → member ≤ loads.members
        → IsLoadsList (of_member (loads_list_view loads) member) }
    requires files { (member : ℕ) → 1 ≤ member → member ≤ loads.members
        → IsFilesList (files_beside (loads_list_view loads) bodies.items member) }
    requires batches { (member : ℕ) → 1 ≤ member → member ≤ loads.members
        → IsBatchesList (batches_beside (loads_list_view loads) (batches_of lines.now) member) }
    ensures { IfOk result (HasLists (loads_list_view loads) bodies.items (batches_of lines.now)) }
{
    let files = files_list(alloc, &loads, bodies.as_slice())?;
    let batches = batches_list(alloc, &loads, lines)?;
    Ok(Built {
        loads: loads_lists(alloc, loads)?,
        files: files_lists(alloc, files)?,
        batches: batches_lists(alloc, batches)?,
        bodies,
    })
}
