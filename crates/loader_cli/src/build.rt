//! The commands `build` and `make`.
ghost use Rattle.std.specs.Option.{ForSome};
ghost use Rattle.std.specs.Prelude.{◌≡◌, ◌≤◌, length, IfOk};
ghost use Rattle.media_build.specs.Building.{sources_in};
ghost use Rattle.media_build.specs.Lines.{is_load as begins_load};
ghost use Rattle.media_build.specs.NoFindings.{built_view};
ghost use Rattle.media_build.specs.RecipeSets.{loads_of, recipe_set};
ghost use Rattle.media_build.specs.WrittenFolders.{IsNameIn, KeepsAllBut};
ghost use Rattle.loader_cli.specs.Answers.{HidesNoFault, status_of, text_of};
ghost use Rattle.loader_cli.specs.Builds.{BuildsFolder, BuildsBytes, BuildsLines, MakesFolder};
ghost use Rattle.loader_cli.specs.Builds.{WritesSet};
ghost use Rattle.loader_cli.specs.Builds.{IsNameSaid, IsNameBuilt, IsNameMade};

use crate::answer::Answer;
use crate::text::built_text;
use load_base::{Host, NoMemory, ReadFault, WriteFault};
use media_build::{BuildFault, Recipe, RecipeFault, RecipeLine, Statement, write};
use media_check::Built;
use printed_text::{Printed, coded};
use std::alloc::Global;

/// Builds the set that the recipe of this name says into a folder.
pub(crate) fn build<'w, H: Host>(
    alloc: Global,
    host: &mut H,
    recipe: &'w str,
    folder: &str,
) -> Result<Answer<'w>, NoMemory>
    requires { length folder.now ≤ 150 }
    ensures says { IfOk result (λ answer. BuildsFolder recipe.now folder.now (record {
      files = H.files host.old;
      files_after = H.files host.new;
      faults = H.faults host.old;
      faults_after = H.faults host.new;
    }) (status_of answer) (text_of answer)) }
    ensures faults { HidesNoFault status_of (H.faults host.old) (H.faults host.new) result }
    // In every ending no other name is set.
    ensures others { ForSome (H.files host.old) (λ told.
        KeepsAllBut (IsNameBuilt recipe.now folder.now told) told (H.files host.new)) }
{
    let name = recipe.as_bytes();
    match host.read(alloc, name) {
        Ok(bytes) => build_text(alloc, host, name, bytes.as_slice(), folder.as_bytes()),
        Err(ReadFault::Absent) => Ok(Answer::Absent(name)),
        Err(ReadFault::TooLong) => Ok(Answer::TooLong(name)),
        Err(ReadFault::Failed) => Ok(Answer::HostFault),
        Err(ReadFault::Memory) => Err(NoMemory),
    }
}

/// The same for the text of the recipe.
fn build_text<'w, H: Host>(
    alloc: Global,
    host: &mut H,
    name: &'w [u8],
    text: &[u8],
    folder: &[u8],
) -> Result<Answer<'w>, NoMemory>
    requires { length folder.now ≤ 150 }
    ensures says { IfOk result (λ answer. BuildsBytes name.now folder.now text.now (record {
      files = H.files host.old;
      files_after = H.files host.new;
      faults = H.faults host.old;
      faults_after = H.faults host.new;
    }) (status_of answer) (text_of answer)) }
    ensures faults { HidesNoFault status_of (H.faults host.old) (H.faults host.new) result }
    // In every ending no other name is set.
    ensures others { ForSome (H.files host.old) (λ told.
        KeepsAllBut (IsNameSaid folder.now text.now told) told (H.files host.new)) }
{
    match Recipe::read(alloc, text) {
        Ok(recipe) => build_recipe(alloc, host, name, &recipe, folder),
        Err(fault) => match fault {
            RecipeFault::Memory => Err(NoMemory),
            wrong => Ok(Answer::RefusedInput {
                name,
                fault: wrong.text(alloc)?,
            }),
        },
    }
}

/// The same for the recipe.
fn build_recipe<'w, H: Host>(
    alloc: Global,
    host: &mut H,
    name: &'w [u8],
    recipe: &Recipe,
    folder: &[u8],
) -> Result<Answer<'w>, NoMemory>
    requires { length folder.now ≤ 150 }
    ensures says { IfOk result (λ answer. BuildsLines name.now folder.now recipe.now (record {
      files = H.files host.old;
      files_after = H.files host.new;
      faults = H.faults host.old;
      faults_after = H.faults host.new;
    }) (status_of answer) (text_of answer)) }
    ensures faults { HidesNoFault status_of (H.faults host.old) (H.faults host.new) result }
    // In every ending no other name is set.
    ensures others { ForSome (H.files host.old) (λ told.
        KeepsAllBut (IsNameIn folder.now (recipe_set (sources_in told) recipe.now)) told
        (H.files host.new)) }
{
    match media_build::build(alloc, recipe, host) {
        Ok(set) => {
            let said = write_set(alloc, host, folder, load_count(recipe.lines()), &set);
            // For the proof: dropped by a call, not by scope.
            drop(set);
            said
        }
        Err(BuildFault::Absent(source)) => Ok(Answer::AbsentFile(source)),
        Err(BuildFault::TooLong(source)) => Ok(Answer::TooLongFile(source)),
        Err(BuildFault::TooLarge) => Ok(Answer::TooLarge(name)),
        Err(BuildFault::HeaderTooLong(line)) => Ok(Answer::RefusedInput {
            name,
            fault: coded(alloc, b"headertoolong", &[line])?,
        }),
        Err(BuildFault::ListTooLong) => Ok(Answer::RefusedInput {
            name,
            fault: coded(alloc, b"listtoolong", &[])?,
        }),
        Err(BuildFault::Failed) => Ok(Answer::HostFault),
        Err(BuildFault::Memory) => Err(NoMemory),
    }
}

/// How many loads these lines have.
fn load_count(lines: &[RecipeLine]) -> u64
    ensures { result ≡ length (loads_of lines.now) }
{
    let mut count = 0;
    for line in lines {
        if is_load(&line.statement) {
            count += 1;
        }
    }
    count
}

fn is_load(statement: &Statement) -> bool
    ensures { result ≡ begins_load statement.now }
{
    matches!(statement, Statement::Load(_))
}

/// Makes the generated set of a number in a folder.
pub(crate) fn make<'w, H: Host>(
    alloc: Global,
    host: &mut H,
    number: u32,
    folder: &str,
) -> Result<Answer<'w>, NoMemory>
    requires { length folder.now ≤ 150 }
    ensures says { IfOk result (λ answer. MakesFolder number folder.now (record {
      files = H.files host.old;
      files_after = H.files host.new;
      faults = H.faults host.old;
      faults_after = H.faults host.new;
    }) (status_of answer) (text_of answer)) }
    ensures faults { HidesNoFault status_of (H.faults host.old) (H.faults host.new) result }
    // In every ending no other name is set.
    ensures others { ForSome (H.files host.old) (λ told.
        KeepsAllBut (IsNameMade number folder.now) told (H.files host.new)) }
{
    let set = media_build::make(alloc, number)?;
    let said = write_set(alloc, host, folder.as_bytes(), 1, &set);
    // For the proof: dropped by a call, not by scope.
    drop(set);
    said
}

/// Writes a set with this many loads into a folder.
fn write_set<'w, H: Host>(
    alloc: Global,
    host: &mut H,
    folder: &[u8],
    loads: u64,
    set: &Built,
) -> Result<Answer<'w>, NoMemory>
    requires { length folder.now ≤ 150 }
    ensures says { IfOk result (λ answer. WritesSet folder.now set.now loads (record {
      files = H.files host.old;
      files_after = H.files host.new;
      faults = H.faults host.old;
      faults_after = H.faults host.new;
    }) (status_of answer) (text_of answer)) }
    ensures faults { HidesNoFault status_of (H.faults host.old) (H.faults host.new) result }
    // In every ending no other name is set.
    ensures others { ForSome (H.files host.old) (λ told.
        KeepsAllBut (IsNameIn folder.now (built_view set.now)) told (H.files host.new)) }
{
    // Made first: once files are written, memory may not be what is lacking for saying so.
    let line = built_text(alloc, loads, set.bodies.len() as u64)?;
    match write(host, folder, set) {
        Ok(()) => Ok(Answer::Done(line)),
        Err(WriteFault::Failed) => Ok(Answer::HostFault),
        Err(WriteFault::Memory) => Err(NoMemory),
    }
}
