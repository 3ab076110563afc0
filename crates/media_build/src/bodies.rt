//! The files of loads: of each its header, its data files and its support files.
ghost use Rattle.std.specs.Prelude.{◌≡◌, ◌≤◌, ◌-◌, ◌++◌, List as Items, ℕ, All, length, map, take};
ghost use Rattle.std.specs.Prelude.{IfOk};
ghost use Rattle.std.specs.List.{flat_map};
ghost use Rattle.std.specs.Option.{ForSome};
ghost use Rattle.crc_fields.specs.CheckSums.{crc32_of};
ghost use Rattle.load_header.specs.HeaderFields.{IsHeader};
ghost use Rattle.media_check.specs.Openings.{largest_set};
ghost use Rattle.media_build.specs.Accepted.{IsRecipe};
ghost use Rattle.media_build.specs.Building.{AddsLoad, AreLoadBodies, HasSourceCause};
ghost use Rattle.media_build.specs.Building.{HaveShortHeaders, TakesLoad, TakesSources};
ghost use Rattle.media_build.specs.Building.{source_names, sources_in, sources_of};
ghost use Rattle.media_build.specs.Building.{unread};
ghost use Rattle.media_build.specs.NoFindings.{body_view};
ghost use Rattle.media_build.specs.Parts.{IsShortSource, all_files, bodies_with, header_with};
ghost use Rattle.media_build.specs.Parts.{whole_header};
ghost use Rattle.media_build.specs.RecipeSets.{header_bytes as bytes_of_header};
ghost use Rattle.media_build.specs.RecipeSets.{header_start, load_bodies, loads_of};

use crate::building_fault::BuildFault;
use crate::gathering::header_of;
use crate::loads::{LoadPart, Loads};
use crate::source_files::{LoadFiles, SourceFile};
use crate::sources::read_files;
use crate::statements::RecipeLine;
use load_base::{Bytes, Host, List, NoMemory};
use load_header::{LoadCrc, header_laws};
use media_check::Placed;
use std::alloc::Global;

/// Reads the sources of all loads beside `others` bytes of headers and batches, and gives the files
/// of the loads.
pub(crate) fn read_bodies<H: Host>(
    alloc: Global,
    host: &mut H,
    lines: &[RecipeLine],
    others: usize,
) -> Result<List<Placed>, BuildFault>
    requires recipe { IsRecipe lines.now }
    requires short { HaveShortHeaders lines.now }
    requires others { others ≤ largest_set }
    ensures takes { ForSome (H.files host.old) (TakesSources others (source_names lines.now)
        (λ files bodies. map body_view bodies.items
        ≡ flat_map (load_bodies (sources_in files)) (loads_of lines.now)) result) }
    ensures are { IfOk result (λ bodies.
        AreLoadBodies lines.now others (map body_view bodies.items)) }
    ensures cause { HasSourceCause (H.faults host.old) (H.faults host.new) result }
    ensures kept { H.files host.new ≡ H.files host.old }
{
    let mut loads = Loads::new(lines);
    let mut bodies = List::new(alloc);
    let mut total = others;
    while let Some(load) = loads.next() {
        let read = read_load(alloc, host, &load, bodies, total)?;
        bodies = read.0;
        total = read.1;
    }
    Ok(bodies)
}

/// Reads the sources of a load beside `others` bytes, and adds its files. Gives the bytes of all
/// too.
fn read_load<H: Host>(
    alloc: Global,
    host: &mut H,
    load: &LoadPart,
    bodies: List<Placed>,
    others: usize,
) -> Result<(List<Placed>, usize), BuildFault>
    requires others { others ≤ largest_set }
    requires header { IsHeader (header_start unread load.now) }
    ensures takes { ForSome (H.files host.old) (TakesSources others (sources_of load.now)
        (TakesLoad load.now others (map body_view bodies.items)) result) }
    ensures adds { IfOk result (λ read. AddsLoad load.now others (map body_view bodies.items)
        (map body_view read.0.items) read.1) }
    ensures cause { HasSourceCause (H.faults host.old) (H.faults host.new) result }
    ensures kept { H.files host.new ≡ H.files host.old }
{
    let (files, total) = read_files(alloc, host, load.own(), others)?;
    // For the proof: does nothing.
    header_laws();
    let bodies = add_load(alloc, load, files, bodies)?;
    Ok((bodies, total))
}

/// The files of a load, after those before them.
#[tactic(auto, unfolding(crate::specs::Parts::bodies_with))]
fn add_load(
    alloc: Global,
    load: &LoadPart,
    files: LoadFiles,
    bodies: List<Placed>,
) -> Result<List<Placed>, NoMemory>
    requires data_files { All IsShortSource files.data_files }
    requires support_files { All IsShortSource files.support_files }
    requires header { IsHeader (header_with load.now files) }
    ensures { IfOk result (λ all. map body_view all.items
        ≡ map body_view bodies.items ++ bodies_with load.now files) }
{
    let line = load.line();
    let header = Placed {
        member: u16::from(line.member),
        name: line.name,
        bytes: header_bytes(alloc, load, &files)?,
    };
    let mut bodies = bodies;
    bodies.push(header)?;
    files.add_to(bodies)
}

/// The whole header of a load with these files.
fn header_bytes(alloc: Global, load: &LoadPart, files: &LoadFiles) -> Result<Bytes, NoMemory>
    requires data_files { All IsShortSource files.now.data_files }
    requires support_files { All IsShortSource files.now.support_files }
    requires header { IsHeader (header_with load.now files.now) }
    ensures { IfOk result (λ bytes. bytes.items
        ≡ bytes_of_header (whole_header load.now files.now)) }
{
    let mut header = header_of(alloc, load, files)?;
    let start = header.encode(alloc)?;
    // For the proof: does nothing.
    header_laws();
    header.load_crc = load_crc(start.as_slice(), files);
    header.encode(alloc)
}

/// The load CRC of a header that has 0 in its place, and of the files after it.
fn load_crc(start: &[u8], files: &LoadFiles) -> u32
    requires { 4 ≤ length start.now }
    ensures { result ≡ crc32_of (take (length start.now - 4) start.now
        ++ flat_map (λ file. file.bytes) (all_files files.now)) }
{
    let mut sum = LoadCrc::new(start);
    add_files(&mut sum, files.data_files());
    add_files(&mut sum, files.support_files());
    sum.value()
}

fn add_files(sum: &mut LoadCrc, files: &[SourceFile])
    ensures { (given : Items ℕ) → sum.old ≡ crc32_of given
        → sum.new ≡ crc32_of (given ++ flat_map (λ file. file.bytes) files.now) }
{
    for file in files {
        sum.file(file.bytes());
    }
}
