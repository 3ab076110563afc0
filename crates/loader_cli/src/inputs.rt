//! What the commands `replay`, `wire` and `fleet` read before a run.
ghost use Rattle.std.specs.Prelude.{◌≡◌, ℕ, ◌≤◌, IfOk};
ghost use Rattle.batch_lists.specs.Batches.{batches_list_view};
ghost use Rattle.media_check.specs.Sets.{IsFoundFiles, found_view, set_view};
ghost use Rattle.media_check.specs.declared.found.Found.TheVariants.{Read};
ghost use Rattle.media_lists.specs.Files.{files_list_view};
ghost use Rattle.media_lists.specs.Loads.{loads_list_view};
ghost use Rattle.loader_cli.specs.Inputs.{HasBatches, HasListed, HasLoads, ReadsInputs};
ghost use Rattle.loader_cli.specs.Replays.{HasSet};
ghost use Rattle.std.specs.Prelude.{codes};
ghost use Rattle.media_lists.specs.ListFaultText.{list_fault_text};
ghost use Rattle.loader_cli.specs.Answers.{HidesNoFault};
ghost use Rattle.loader_cli.specs.Inputs.{IsRefusal, TellsScriptFault, inputs_status, list_name};
ghost use Rattle.loader_cli.specs.Texts.{refused_input};

use crate::answer::Answer;
use batch_lists::{BatchesFault, BatchesList};
use link_net::ScriptFault;
use load_base::{Bytes, Host, NoMemory, ReadFault};
use media_check::{
    Found, MediaSet, OpenFault, host_name, open_rest, read_batches_list, read_files_list,
    read_loads_list,
};
use media_lists::{FilesList, ListFault, LoadsList};
use printed_text::Printed;
use std::alloc::Global;

/// The inputs of a run, or the answer of one that has none.
#[derive(Drop)]
pub(crate) enum Inputs<'w> {
    /// The media set, and the text of the script.
    Ready { set: MediaSet, text: Bytes },
    Refused(Answer<'w>),
}

/// Reads the media set of a folder, its lists first, and then the text of the script of this name.
/// It stops at the first input that is refused.
pub(crate) fn read_inputs<'w, H: Host>(
    alloc: Global,
    host: &mut H,
    folder: &'w [u8],
    name: &'w [u8],
) -> Result<Inputs<'w>, NoMemory>
    ensures reads { (before : ℕ) → before ≤ H.faults host.old → IfOk result (λ inputs.
        ReadsInputs folder.now name.now (H.files host.old) before (H.faults host.new) inputs) }
    ensures faults { HidesNoFault inputs_status (H.faults host.old) (H.faults host.new) result }
    ensures kept { H.files host.new ≡ H.files host.old }
{
    match read_loads_list(alloc, host, folder, 1) {
        Ok(Found::Read(loads)) => read_files(alloc, host, folder, name, loads),
        Ok(Found::Missing) => absent_list(alloc, folder, b"LOADS.LUM"),
        Ok(Found::Refused(fault)) => refused_list(alloc, folder, b"LOADS.LUM", fault),
        Err(OpenFault::TooLong(file)) => Ok(Inputs::Refused(Answer::TooLongFile(file))),
        Err(OpenFault::TooLarge) => Ok(Inputs::Refused(Answer::TooLarge(folder))),
        Err(OpenFault::Failed) => Ok(Inputs::Refused(Answer::HostFault)),
        Err(OpenFault::Memory) => Err(NoMemory),
    }
}

/// The same once `LOADS.LUM` was read.
fn read_files<'w, H: Host>(
    alloc: Global,
    host: &mut H,
    folder: &'w [u8],
    name: &'w [u8],
    loads: LoadsList,
) -> Result<Inputs<'w>, NoMemory>
    requires { HasLoads folder.now (loads_list_view loads) (H.files host.old) }
    ensures reads { (before : ℕ) → before ≤ H.faults host.old → IfOk result (λ inputs.
        ReadsInputs folder.now name.now (H.files host.old) before (H.faults host.new) inputs) }
    ensures faults { HidesNoFault inputs_status (H.faults host.old) (H.faults host.new) result }
    ensures kept { H.files host.new ≡ H.files host.old }
{
    match read_files_list(alloc, host, folder, 1) {
        Ok(Found::Read(files)) => read_batches(alloc, host, folder, name, loads, files),
        Ok(Found::Missing) => absent_list(alloc, folder, b"FILES.LUM"),
        Ok(Found::Refused(fault)) => refused_list(alloc, folder, b"FILES.LUM", fault),
        Err(OpenFault::TooLong(file)) => Ok(Inputs::Refused(Answer::TooLongFile(file))),
        Err(OpenFault::TooLarge) => Ok(Inputs::Refused(Answer::TooLarge(folder))),
        Err(OpenFault::Failed) => Ok(Inputs::Refused(Answer::HostFault)),
        Err(OpenFault::Memory) => Err(NoMemory),
    }
}

/// The same once both lists were read. A list of batches that is absent or refused stops nothing.
fn read_batches<'w, H: Host>(
    alloc: Global,
    host: &mut H,
    folder: &'w [u8],
    name: &'w [u8],
    loads: LoadsList,
    files: FilesList,
) -> Result<Inputs<'w>, NoMemory>
    requires loads { HasLoads folder.now (loads_list_view loads) (H.files host.old) }
    requires files { HasListed folder.now (files_list_view files) (H.files host.old) }
    requires spelled { IsFoundFiles (Read (files_list_view files)) }
    ensures reads { (before : ℕ) → before ≤ H.faults host.old → IfOk result (λ inputs.
        ReadsInputs folder.now name.now (H.files host.old) before (H.faults host.new) inputs) }
    ensures faults { HidesNoFault inputs_status (H.faults host.old) (H.faults host.new) result }
    ensures kept { H.files host.new ≡ H.files host.old }
{
    match read_batches_list(alloc, host, folder, 1) {
        Ok(batches) => read_rest(alloc, host, folder, name, loads, files, batches),
        Err(OpenFault::TooLong(file)) => Ok(Inputs::Refused(Answer::TooLongFile(file))),
        Err(OpenFault::TooLarge) => Ok(Inputs::Refused(Answer::TooLarge(folder))),
        Err(OpenFault::Failed) => Ok(Inputs::Refused(Answer::HostFault)),
        Err(OpenFault::Memory) => Err(NoMemory),
    }
}

/// The same once all lists of member 1 were read.
fn read_rest<'w, H: Host>(
    alloc: Global,
    host: &mut H,
    folder: &'w [u8],
    name: &'w [u8],
    loads: LoadsList,
    files: FilesList,
    batches: Found<BatchesList, BatchesFault>,
) -> Result<Inputs<'w>, NoMemory>
    requires loads { HasLoads folder.now (loads_list_view loads) (H.files host.old) }
    requires files { HasListed folder.now (files_list_view files) (H.files host.old) }
    requires batches { HasBatches folder.now (found_view batches_list_view batches)
        (H.files host.old) }
    requires spelled { IsFoundFiles (Read (files_list_view files)) }
    ensures reads { (before : ℕ) → before ≤ H.faults host.old → IfOk result (λ inputs.
        ReadsInputs folder.now name.now (H.files host.old) before (H.faults host.new) inputs) }
    ensures faults { HidesNoFault inputs_status (H.faults host.old) (H.faults host.new) result }
    ensures kept { H.files host.new ≡ H.files host.old }
{
    let (loads, files) = (Found::Read(loads), Found::Read(files));
    match open_rest(alloc, host, folder, loads, files, batches) {
        Ok(set) => read_text(alloc, host, folder, name, set),
        Err(OpenFault::TooLong(file)) => Ok(Inputs::Refused(Answer::TooLongFile(file))),
        Err(OpenFault::TooLarge) => Ok(Inputs::Refused(Answer::TooLarge(folder))),
        Err(OpenFault::Failed) => Ok(Inputs::Refused(Answer::HostFault)),
        Err(OpenFault::Memory) => Err(NoMemory),
    }
}

/// The same once the set was read.
fn read_text<'w, H: Host>(
    alloc: Global,
    host: &mut H,
    folder: &'w [u8],
    name: &'w [u8],
    set: MediaSet,
) -> Result<Inputs<'w>, NoMemory>
    requires { HasSet folder.now (H.files host.old) (set_view set) }
    ensures reads { (before : ℕ) → before ≤ H.faults host.old → IfOk result (λ inputs.
        ReadsInputs folder.now name.now (H.files host.old) before (H.faults host.new) inputs) }
    ensures faults { HidesNoFault inputs_status (H.faults host.old) (H.faults host.new) result }
    ensures kept { H.files host.new ≡ H.files host.old }
{
    match host.read(alloc, name) {
        Ok(text) => Ok(Inputs::Ready { set, text }),
        Err(fault) => {
            // For the proof: dropped by a call, not by scope.
            drop(set);
            match fault {
                ReadFault::Absent => Ok(Inputs::Refused(Answer::Absent(name))),
                ReadFault::TooLong => Ok(Inputs::Refused(Answer::TooLong(name))),
                ReadFault::Failed => Ok(Inputs::Refused(Answer::HostFault)),
                ReadFault::Memory => Err(NoMemory),
            }
        }
    }
}

/// That the text of this name says no script.
pub(crate) fn refused_script<'w>(
    alloc: Global,
    name: &'w [u8],
    fault: ScriptFault,
) -> Result<Answer<'w>, NoMemory>
    ensures { IfOk result (TellsScriptFault name.now fault) }
{
    match fault {
        ScriptFault::Memory => Err(NoMemory),
        fault => Ok(Answer::RefusedInput {
            name,
            fault: fault.text(alloc)?,
        }),
    }
}

/// That a list of member 1 is absent.
fn absent_list<'w>(alloc: Global, folder: &[u8], list: &[u8]) -> Result<Inputs<'w>, NoMemory>
    ensures { IfOk result (λ inputs. IsRefusal inputs
        (refused_input (list_name folder.now list.now) (codes "absent"))) }
{
    let name = host_name(alloc, folder, 1, b"\\", list)?;
    Ok(Inputs::Refused(Answer::AbsentFile(name)))
}

/// That it has this fault.
fn refused_list<'w>(
    alloc: Global,
    folder: &[u8],
    list: &[u8],
    fault: ListFault,
) -> Result<Inputs<'w>, NoMemory>
    ensures { IfOk result (λ inputs. IsRefusal inputs
        (refused_input (list_name folder.now list.now) (list_fault_text fault))) }
{
    let name = host_name(alloc, folder, 1, b"\\", list)?;
    let fault = fault.text(alloc)?;
    Ok(Inputs::Refused(Answer::RefusedFile { name, fault }))
}
