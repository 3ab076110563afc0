//! The sizes of headers, which the recipe alone decides.
ghost use Rattle.std.specs.Prelude.{◌≡◌, IfOk};
ghost use Rattle.load_header.specs.Header.{header_view};
ghost use Rattle.media_build.specs.Accepted.{IsRecipe};
ghost use Rattle.media_build.specs.Building.{unread, AnswersHeader, AnswersHeaders};
ghost use Rattle.media_build.specs.Building.{IsHeaderIfShort};
ghost use Rattle.media_build.specs.RecipeSets.{header_start};

use crate::building_fault::BuildFault;
use crate::gathering::header_of;
use crate::loads::{LoadPart, Loads};
use crate::source_files::unread_files;
use crate::statements::RecipeLine;
use load_base::NoMemory;
use load_header::{LoadHeader, header_laws};
use std::alloc::Global;

/// How many bytes all headers have together, if none is too long.
pub(crate) fn headers_length(alloc: Global, lines: &[RecipeLine]) -> Result<usize, BuildFault>
    requires { IsRecipe lines.now }
    ensures { AnswersHeaders lines.now result }
{
    let mut loads = Loads::new(lines);
    let mut length = 0;
    while let Some(load) = loads.next() {
        length += header_length(alloc, &load)?;
    }
    Ok(length)
}

/// How many bytes the header of a load has, if it isn't too long.
fn header_length(alloc: Global, load: &LoadPart) -> Result<usize, BuildFault>
    requires { IsHeaderIfShort load.now }
    ensures { AnswersHeader load.now result }
{
    let header = unread_header(alloc, load)?;
    if !header.fits() {
        return Err(BuildFault::HeaderTooLong(load.number()));
    }
    let bytes = header.encode(alloc)?;
    // For the proof: does nothing.
    header_laws();
    Ok(bytes.len())
}

/// The header of a load, of files without bytes.
#[tactic(auto, using(crate::proofs::HeaderLimits::unread_start))]
fn unread_header(alloc: Global, load: &LoadPart) -> Result<LoadHeader, NoMemory>
    ensures { IfOk result (λ header. header_view header ≡ header_start unread load.now) }
{
    let files = unread_files(alloc, load.own())?;
    header_of(alloc, load, &files)
}
