//! The top call.
ghost use Rattle.std.specs.Prelude.{◌≡◌, ◌<◌, ◌≤◌, ℕ, All, List, None, false, length, option_map};
ghost use Rattle.std.specs.Prelude.{take};
ghost use Rattle.std.specs.Prelude.{IfOk, OnErr};
ghost use Rattle.disk_model.specs.State.{KeepsPower};
ghost use Rattle.disk_layout.specs.Offsets.{IsBankSize};
ghost use Rattle.bank_store.specs.Formatting.{LeavesOldOrFormatted};
ghost use Rattle.loader_cli.specs.Answers.{answered_of, status_of, text_of};
ghost use Rattle.loader_cli.specs.CommandLaws.{BuildingLaws, FormerLaws, ImageLaws, ShownLaws};
ghost use Rattle.loader_cli.specs.CommandLaws.{UploadLaws};
ghost use Rattle.loader_cli.specs.FleetReplays.{fleet_seen};
ghost use Rattle.loader_cli.specs.FleetRuns.{FleetEndsAsPromised};
ghost use Rattle.loader_cli.specs.Commands.CommandView.{fleet};
ghost use Rattle.loader_cli.specs.Commands.{command_view, disk_named, texts_of, IsCommand};
ghost use Rattle.loader_cli.specs.Commands.{UsesScript};
ghost use Rattle.loader_cli.specs.Replays.{run_seen};
ghost use Rattle.loader_cli.specs.Runs.{EndsAsPromised, Formats, Lists};
ghost use Rattle.loader_cli.specs.Told.{AnswersAsAsked, AnswersUnit};
ghost use Rattle.loader_cli.specs.Touches.{LeavesByCommand, OnNamed, OnlyLooks, TouchesOnly};
ghost use Rattle.replay_turns.specs.Turns.{RunsOut};

use crate::answer::{Answer, Answered};
use crate::build::{build, make};
use crate::check::check;
use crate::command::{Asked, Command};
use crate::fleet_replay::replay_fleet;
use crate::replay::{Telling, replay};
use crate::rollback::rollback;
use crate::show::show;
use crate::text::formatted_text;
use crate::trial::trial;
use bank_store::{
    StoreFault, a_power_loss_takes_only_work, an_unformatted_disk_is_as_it_was, format,
};
use batch_lists::{batch_laws, batches_list_laws};
use disk_layout::{Identity, an_image_holds_one_configuration};
use disk_model::{Disk, Power};
use generated_uploads::laws::{a_generated_upload_completes, only_a_trial_happens};
use load_base::{Host, NoMemory, Sink, WriteFault};
use load_header::header_laws;
use load_protocol_files::protocol_file_laws;
use media_build::laws::{a_written_folder_holds_the_set, building_laws};
use media_lists::{files_list_laws, loads_list_laws};
use recovery::{RecoverFault, an_image_holds_one_former};
use run_promises::laws::what_a_disk_holds_can_be_listed;
use std::alloc::Global;
use target_fleet::FleetDrive;
use upload_replay::Drive;

const OUT_OF_MEMORY: u8 = 6;

const OUTPUT_FAILED: u8 = 7;

/// How a run ended.
///
/// | status | when |
/// |---|---|
/// | 0 | what was asked for was printed |
/// | 1 | `check` found something, or a session of a run, or a batch of `fleet`, wasn't completed |
/// | 2 | the arguments are no command |
/// | 3 | an input is absent, too long or not in its grammar, or a media set is too large |
/// | 4 | the host failed |
/// | 5 | the disk failed, or one of a fleet's |
/// | 6 | out of memory |
/// | 7 | the output failed, and a prefix of it may have gone out |
/// | 8 | the disk holds no configuration, or one of a fleet's holds none |
/// | 9 | the disk holds no former configuration, or no sequence number is left for it |
#[derive(Drop)]
pub struct Ended {
    pub status: u8,
    /// What happened in a run of `replay`, `wire` or `trial` that came to its end, its sessions,
    /// and what the disk held then. None for other commands, and where memory ran out.
    pub drive: Option<Drive>,
    /// The same of a run of `fleet`: the sessions of each unit, what its disk held, and what each
    /// batch came to.
    pub fleet: Option<FleetDrive>,
}

/// Runs the program on its arguments: `list`, `format HW POS SERIAL BANK`, `show FILE` with the
/// name of a file of one of the kinds of [`shown_files::ShownKind`], `check FOLDER`, `build RECIPE
/// FOLDER`, `make NUMBER FOLDER`, `replay FOLDER SCRIPT`, `wire FOLDER SCRIPT`, `trial NUMBER` or
/// `rollback`; `on N` for N from 1 to 8, and then the words of `list`, `format` or `rollback`; or
/// `fleet COUNT FOLDER SCRIPT` for COUNT from 2 to 8. The output goes out in one piece at the end.
///
/// Each of the eight disks is a unit's. `on N` names that of unit N, `fleet COUNT` uses the first
/// COUNT, and every other command the first. A disk that isn't used stays as it is.
///
/// Only `build` and `make` write files of the host: those of the set, under their names. Where the
/// host fails, those before it were written.
///
/// Only `list`, `format`, `rollback`, `replay`, `wire`, `trial` and `fleet` use disks, and `list`
/// only reads its one. While `format` writes, a power loss leaves the old configuration whole, or a
/// disk that holds nothing, or the formatted one; while `rollback` does, the active configuration,
/// or the former one with the next sequence number. `list`, `format`, `rollback` and `trial` don't
/// use the host.
pub fn run<H: Host, O: Sink, K: Power>(
    alloc: Global,
    words: &[String],
    host: &mut H,
    out: &mut O,
    disks: &mut [K],
) -> Ended
    requires eight { length disks.old ≡ 8 }
    requires running { All (λ disk. (K.state disk).stopped ≡ false) disks.old }
    // Of the disk that the arguments name: the status with its cause, and exactly the text that
    // goes out. Where neither host nor sink fails, `show` of a file that spells its fields, `check`
    // of a set that can be read and has no finding, `build` of a recipe of which nothing is
    // refused, and `make` succeed, but for out of memory; where neither sink nor disk fails, `list`
    // of a disk that holds a configuration, `format`, `rollback` on a disk that holds a former
    // configuration and has a sequence number left, and `trial` on a target that can take its set.
    // After `build` and `make` with status 0 the folder has exactly their set, can be read and has
    // no finding.
    ensures ends { OnNamed (texts_of words.now) disks.old disks.new
        (λ before after. EndsAsPromised (record {
          work = record {
            words = texts_of words.now;
            disk = K.state before;
            disk_after = K.state after;
            files = H.files host.old;
            files_after = H.files host.new;
            host_faults = H.faults host.old;
            host_faults_after = H.faults host.new;
            handed = option_map run_seen result.drive;
          };
          output = O.content out.old;
          output_after = O.content out.new;
          sink_faults = O.faults out.old;
          sink_faults_after = O.faults out.new;
        }) result) }
    // Of a fleet, which has the first disks, one a unit: the status with its cause, exactly the
    // text that goes out, and what is left of each of these disks. Where neither host nor sink
    // fails, a script is run to its end on disks that hold configurations and fail no more often
    // than they stop, but for out of memory.
    ensures fleet { (count : ℕ) (folder script : List ℕ)
        → IsCommand (texts_of words.now) (fleet count folder script)
        → FleetEndsAsPromised K.state (record {
          work = record {
            folder = folder;
            script = script;
            disks = take count disks.old;
            disks_after = take count disks.new;
            files = H.files host.old;
            host_faults = H.faults host.old;
            host_faults_after = H.faults host.new;
            handed = option_map fleet_seen result.fleet;
          };
          output = O.content out.old;
          output_after = O.content out.new;
          sink_faults = O.faults out.old;
          sink_faults_after = O.faults out.new;
        }) result }
    // What is touched, in every ending.
    ensures touches { TouchesOnly H.files K.state (texts_of words.now) host.old host.new disks.old
        disks.new result.drive result.fleet }
    // What a power loss leaves.
    ensures leaves { OnNamed (texts_of words.now) disks.old disks.new (λ before after.
        LeavesByCommand (texts_of words.now) (K.state before) (K.state after)) }
{
    // For the proof: this does nothing.
    command_laws();
    let Ok(
        Answered {
            answer,
            drive,
            fleet,
        },
    ) = answer(alloc, words, host, disks)
    else {
        return out_of_memory();
    };
    let status = answer.status();
    let Ok(text) = answer.into_text(alloc) else {
        // For the proof: dropped by a call, not by scope.
        drop((drive, fleet));
        return out_of_memory();
    };
    match out.put(text.as_slice()) {
        Ok(()) => Ended {
            status,
            drive,
            fleet,
        },
        Err(WriteFault::Failed) => Ended {
            status: OUTPUT_FAILED,
            drive,
            fleet,
        },
        Err(WriteFault::Memory) => {
            drop((drive, fleet));
            out_of_memory()
        }
    }
}

/// What the promises of [`run`] rest on, of images, sets and files. It does nothing.
pub(crate) fn command_laws()
    ensures images { ImageLaws }
    ensures formers { FormerLaws }
    ensures building { BuildingLaws }
    ensures uploads { UploadLaws }
    ensures shows { ShownLaws }
{
    building_laws();
    a_written_folder_holds_the_set();
    an_image_holds_one_configuration();
    an_image_holds_one_former();
    what_a_disk_holds_can_be_listed();
    only_a_trial_happens();
    a_generated_upload_completes();
    header_laws();
    loads_list_laws();
    files_list_laws();
    batches_list_laws();
    batch_laws();
    protocol_file_laws();
}

fn out_of_memory() -> Ended
    ensures status { result.status ≡ OUT_OF_MEMORY }
    ensures drive { result.drive ≡ None }
    ensures fleet { result.fleet ≡ None }
{
    Ended {
        status: OUT_OF_MEMORY,
        drive: None,
        fleet: None,
    }
}

/// Does what the arguments ask for.
fn answer<'w, H: Host, K: Power>(
    alloc: Global,
    words: &'w [String],
    host: &mut H,
    disks: &mut [K],
) -> Result<Answered<'w>, NoMemory>
    requires eight { length disks.old ≡ 8 }
    requires running { All (λ disk. (K.state disk).stopped ≡ false) disks.old }
    ensures { AnswersAsAsked H.files H.faults K.state (texts_of words.now) host.old host.new
        disks.old disks.new result }
{
    // For the proof: this does nothing.
    a_power_loss_takes_only_work::<K>();
    match Asked::read(words) {
        None => Ok(Answered::of(Answer::RefusedWords)),
        Some(Asked::OfUnit { command, disk }) => answer_of_unit(alloc, &command, host, disks, disk),
        Some(
            Asked::OfFleet {
                count,
                folder,
                script,
            },
        ) => answer_of_fleet(alloc, host, disks, count, folder, script),
    }
}

/// Does what a command asks for, of the disk at this place, for all arguments that are the command
/// and name it.
fn answer_of_unit<'w, H: Host, K: Power>(
    alloc: Global,
    command: &Command<'w>,
    host: &mut H,
    disks: &mut [K],
    place: usize,
) -> Result<Answered<'w>, NoMemory>
    requires eight { length disks.old ≡ 8 }
    requires running { All (λ disk. (K.state disk).stopped ≡ false) disks.old }
    requires asked { (words : List (List ℕ)) × IsCommand words (command_view command.now) }
    requires place { place < 8 }
    ensures { (words : List (List ℕ)) → IsCommand words (command_view command.now)
        → place ≡ disk_named words → AnswersAsAsked H.files H.faults K.state words host.old
        host.new disks.old disks.new result }
{
    answer_on(alloc, command, host, &mut disks[place])
}

/// Runs a fleet of so many units, for all arguments that ask for it.
fn answer_of_fleet<'w, H: Host, K: Power>(
    alloc: Global,
    host: &mut H,
    disks: &mut [K],
    count: usize,
    folder: &'w str,
    script: &'w str,
) -> Result<Answered<'w>, NoMemory>
    requires eight { length disks.old ≡ 8 }
    requires running { All (λ disk. (K.state disk).stopped ≡ false) disks.old }
    requires few { count ≤ 8 }
    ensures { (words : List (List ℕ)) → IsCommand words (fleet count folder.now script.now)
        → AnswersAsAsked H.files H.faults K.state words host.old host.new disks.old disks.new
        result }
{
    replay_fleet(alloc, host, &mut disks[..count], folder, script)
}

/// Does what a command asks for, of this disk; its clauses are those of [`run`], for all arguments
/// that are the command.
fn answer_on<'w, H: Host, K: Power>(
    alloc: Global,
    command: &Command<'w>,
    host: &mut H,
    disk: &mut K,
) -> Result<Answered<'w>, NoMemory>
    requires asked { (words : List (List ℕ)) × IsCommand words (command_view command.now) }
    requires running { (K.state disk.old).stopped ≡ false }
    ensures answers { (words : List (List ℕ)) → IsCommand words (command_view command.now)
        → AnswersUnit H.files H.faults K.state words host.old host.new disk.old disk.new result }
    ensures no_run { ¬ UsesScript (command_view command.now)
        → IfOk result (λ said. said.drive ≡ None) }
    ensures no_fleet { IfOk result (λ said. said.fleet ≡ None) }
{
    // For the proof: these do nothing.
    a_power_loss_takes_only_work::<K>();
    an_image_holds_one_configuration();
    match command {
        Command::List => alone(list(alloc, disk)),
        Command::Format(identity) => alone(format_disk(alloc, disk, identity)),
        Command::Show { kind, file } => alone(show(alloc, host, *kind, file)),
        Command::Check { folder } => alone(check(alloc, host, folder)),
        Command::Build { recipe, folder } => alone(build(alloc, host, recipe, folder)),
        Command::Make { number, folder } => alone(make(alloc, host, *number, folder)),
        Command::Replay { folder, script } => {
            replay(alloc, host, disk, folder, script, Telling::Report)
        }
        Command::Wire { folder, script } => {
            replay(alloc, host, disk, folder, script, Telling::Trace)
        }
        Command::Trial { number } => trial(alloc, disk, *number),
        Command::Rollback => alone(rollback(alloc, disk)),
    }
}

/// The answer of a command that runs no script.
fn alone<'w>(answer: Result<Answer<'w>, NoMemory>) -> Result<Answered<'w>, NoMemory>
    ensures same { result ≡ answered_of answer.entry }
    ensures no_run { IfOk result (λ said. said.drive ≡ None) }
    ensures no_fleet { IfOk result (λ said. said.fleet ≡ None) }
{
    match answer {
        Ok(answer) => Ok(Answered::of(answer)),
        Err(fault) => Err(fault),
    }
}

fn list<'w, K: Disk>(alloc: Global, disk: &mut K) -> Result<Answer<'w>, NoMemory>
    requires { (K.state disk.old).stopped ≡ false }
    ensures says { IfOk result (λ answer.
        Lists (K.state disk.old) (K.state disk.new) (status_of answer) (text_of answer)) }
    ensures looks { OnlyLooks (K.state disk.old) (K.state disk.new) }
    ensures memory { OnErr result (RunsOut (K.state disk.old) (K.state disk.new)) }
{
    match recovery::list(alloc, disk) {
        Ok(text) => Ok(Answer::Done(text)),
        Err(fault) => match fault {
            RecoverFault::Memory => Err(NoMemory),
            RecoverFault::DiskFailed => Ok(Answer::DiskFault),
            reason => Ok(Answer::NoConfiguration(reason)),
        },
    }
}

fn format_disk<'w, K: Disk>(
    alloc: Global,
    disk: &mut K,
    identity: &Identity,
) -> Result<Answer<'w>, NoMemory>
    requires running { (K.state disk.old).stopped ≡ false }
    requires bank_size { IsBankSize identity.now.bank }
    ensures says { IfOk result (λ answer.
        Formats (K.state disk.old) (K.state disk.new) identity.now (status_of answer)
        (text_of answer)) }
    ensures while_formatting { LeavesOldOrFormatted identity.now (K.state disk.old)
        (K.state disk.new) }
    ensures power { KeepsPower (K.state disk.old) (K.state disk.new) }
    ensures memory { OnErr result (RunsOut (K.state disk.old) (K.state disk.new)) }
{
    // For the proof: does nothing.
    an_unformatted_disk_is_as_it_was::<K>();
    // Made first: once the disk is written, memory may not be what is lacking for saying so.
    let line = formatted_text(alloc, identity)?;
    match format(disk, identity) {
        Ok(()) => Ok(Answer::Done(line)),
        Err(StoreFault::DiskFailed) => Ok(Answer::DiskFault),
        // Nothing else refuses formatting.
        Err(_) => Err(NoMemory),
    }
}
