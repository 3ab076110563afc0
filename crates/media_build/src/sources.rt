//! The sources of a load, read in the order of its lines.
ghost use Rattle.std.specs.Prelude.{◌≡◌, ◌≤◌, ◌∷◌, [], Some, IfOk, option_map};
ghost use Rattle.std.specs.List.{flat_map};
ghost use Rattle.std.specs.Option.{ForSome};
ghost use Rattle.media_check.specs.Openings.{largest_set};
ghost use Rattle.media_build.specs.Building.{HasSourceCause, IsSmallSource, ReadsFiles, ReadsLine};
ghost use Rattle.media_build.specs.Building.{TakesSources, source_in, source_of};
ghost use Rattle.media_build.specs.Building.{TakesFiles, TakesLine};
ghost use Rattle.media_build.specs.Parts.{statements};

use crate::building_fault::BuildFault;
use crate::source_files::LoadFiles;
use crate::statements::{RecipeLine, Statement};
use load_base::{Bytes, Host, NoMemory, ReadFault, Text};
use std::alloc::Global;

/// The most bytes of the headers and sources of a set, together: 268,435,456.
const LARGEST_SET: usize = 268_435_456;

/// Reads the sources of a load, in the order of its lines, beside `others` bytes of headers and of
/// sources before them. Gives the bytes of all too.
pub(crate) fn read_files<H: Host>(
    alloc: Global,
    host: &mut H,
    own: &[RecipeLine],
    others: usize,
) -> Result<(LoadFiles, usize), BuildFault>
    requires { others ≤ largest_set }
    ensures takes { ForSome (H.files host.old) (TakesSources others
        (flat_map source_in (statements own.now)) (TakesFiles (statements own.now) others) result) }
    ensures reads { IfOk result (λ read. ReadsFiles (statements own.now) others read.0 read.1) }
    ensures cause { HasSourceCause (H.faults host.old) (H.faults host.new) result }
    ensures kept { H.files host.new ≡ H.files host.old }
{
    let mut files = LoadFiles::new(alloc);
    let mut total = others;
    for line in own {
        let read = read_line(alloc, host, &line.statement, files, total)?;
        files = read.0;
        total = read.1;
    }
    Ok((files, total))
}

/// Reads the source that a line names, if it names one.
fn read_line<H: Host>(
    alloc: Global,
    host: &mut H,
    statement: &Statement,
    files: LoadFiles,
    others: usize,
) -> Result<(LoadFiles, usize), BuildFault>
    requires { others ≤ largest_set }
    ensures takes { ForSome (H.files host.old) (TakesSources others (source_in statement.now)
        (TakesLine statement.now files others) result) }
    ensures reads { IfOk result (λ read. ReadsLine statement.now files others read.0 read.1) }
    ensures cause { HasSourceCause (H.faults host.old) (H.faults host.new) result }
    ensures kept { H.files host.new ≡ H.files host.old }
{
    let Some(name) = source_name(statement) else {
        return Ok((files, others));
    };
    let bytes = read_source(alloc, host, name, others)?;
    let total = others + bytes.len();
    let files = files.with(alloc, statement, bytes)?;
    Ok((files, total))
}

/// The source that a line names.
fn source_name(statement: &Statement) -> Option<&Text>
    ensures { option_map (λ name. name.now) result ≡ source_of statement.now }
{
    match statement {
        Statement::Data(file) => Some(&file.source),
        Statement::Support(file) => Some(&file.source),
        _ => None,
    }
}

/// The source of this name.
fn read_source<H: Host>(
    alloc: Global,
    host: &mut H,
    name: &Text,
    others: usize,
) -> Result<Bytes, BuildFault>
    requires { others ≤ largest_set }
    ensures takes { ForSome (H.files host.old) (TakesSources others (name.now ∷ [])
        (λ files bytes. files name.now ≡ Some bytes.items) result) }
    ensures small { IfOk result (IsSmallSource others) }
    ensures cause { HasSourceCause (H.faults host.old) (H.faults host.new) result }
    ensures kept { H.files host.new ≡ H.files host.old }
{
    match host.read(alloc, name.as_slice()) {
        Ok(bytes) => {
            if others + bytes.len() > LARGEST_SET {
                return Err(BuildFault::TooLarge);
            }
            Ok(bytes)
        }
        Err(ReadFault::Absent) => {
            let name = Bytes::copy_of(alloc, name.as_slice())?;
            Err(BuildFault::Absent(name))
        }
        Err(ReadFault::TooLong) => {
            let name = Bytes::copy_of(alloc, name.as_slice())?;
            Err(BuildFault::TooLong(name))
        }
        Err(ReadFault::Failed) => Err(BuildFault::Failed),
        Err(ReadFault::Memory) => Err(BuildFault::Memory),
    }
}
