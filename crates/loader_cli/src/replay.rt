//! The commands `replay` and `wire`.
ghost use Rattle.std.specs.Prelude.{◌≡◌, ◌⊎◌, All, IsSome, IsTrue, ◌↔◌, IfOk, OnErr, map};
ghost use Rattle.std.specs.Prelude.{None, option_map, false};
ghost use Rattle.std.specs.Option.{ForSome};
ghost use Rattle.disk_model.specs.State.{OnlyReads};
ghost use Rattle.disk_layout.specs.Holds.{standing_view};
ghost use Rattle.loader_machine.specs.Machine.{session_view};
ghost use Rattle.media_check.specs.Sets.{set_view};
ghost use Rattle.replay_turns.specs.Turns.{RunsOut};
ghost use Rattle.upload_replay.specs.Endings.{HoldsSome};
ghost use Rattle.loader_cli.specs.Answers.{HidesNoFault, answered_status, status_of, text_of};
ghost use Rattle.loader_cli.specs.Replays.{IsCompleted, Replays, RunsText, RunsTo, Tells};
ghost use Rattle.loader_cli.specs.Replays.{LeavesFirstOrGood, run_seen, told_as};

use crate::answer::{Answer, Answered};
use crate::inputs::{Inputs, read_inputs, refused_script};
use accept_rules::{Interlock, PermitsAll};
use bank_store::a_power_loss_takes_only_work;
use disk_model::Power;
use link_net::{Script, ScriptLink};
use load_base::{Bytes, Host, NoMemory};
use loader_machine::{Outcome, Session};
use media_check::MediaSet;
use run_promises::can_be_told;
use run_promises::laws::what_a_disk_holds_can_be_listed;
use session_completion::laws::a_last_finish_is_left;
use std::alloc::Global;
use upload_replay::{Drive, DriveFault, drive, report_text, wire_text};

/// What is told of a run.
#[derive(Clone, Copy, Debug, PartialEq, Eq)]
pub(crate) enum Telling {
    /// The sessions, how many datagrams were posted, and what the disk holds at the end.
    Report,
    /// What happened, line by line.
    Trace,
}

/// Runs a script on the media set in a folder and the target of this disk.
pub(crate) fn replay<'w, H: Host, K: Power>(
    alloc: Global,
    host: &mut H,
    disk: &mut K,
    folder: &'w str,
    script: &'w str,
    telling: Telling,
) -> Result<Answered<'w>, NoMemory>
    requires { (K.state disk.old).stopped ≡ false }
    ensures replays { IfOk result (λ said. Replays telling folder.now script.now
        (H.files host.old) (H.faults host.old) (H.faults host.new) (K.state disk.old)
        (K.state disk.new) (option_map run_seen said.drive) (status_of said.answer)
        (text_of said.answer)) }
    ensures faults { HidesNoFault answered_status (H.faults host.old) (H.faults host.new)
        result }
    ensures kept { H.files host.new ≡ H.files host.old }
    ensures leaves { LeavesFirstOrGood (K.state disk.old) (K.state disk.new) }
    ensures held { OnlyReads (K.state disk.old) (K.state disk.new) ⊎ HoldsSome (K.state disk.old) }
    ensures memory { OnErr result (RunsOut (K.state disk.old) (K.state disk.new)
        ⊎ HoldsSome (K.state disk.old)) }
    ensures no_fleet { IfOk result (λ said. said.fleet ≡ None) }
{
    // For the proof: does nothing.
    a_power_loss_takes_only_work::<K>();
    match read_inputs(alloc, host, folder.as_bytes(), script.as_bytes())? {
        Inputs::Ready { set, text } => {
            let said = run_text(
                alloc,
                disk,
                &set,
                script.as_bytes(),
                text.as_slice(),
                telling,
            );
            // For the proof: dropped by a call, not by scope.
            drop((set, text));
            said
        }
        Inputs::Refused(answer) => Ok(Answered::of(answer)),
    }
}

/// Runs the script of this name and text.
fn run_text<'w, K: Power>(
    alloc: Global,
    disk: &mut K,
    set: &MediaSet,
    name: &'w [u8],
    text: &[u8],
    telling: Telling,
) -> Result<Answered<'w>, NoMemory>
    requires { (K.state disk.old).stopped ≡ false }
    ensures runs { IfOk result (λ said. RunsText telling name.now text.now (set_view set.now)
        (K.state disk.old) (K.state disk.new) (option_map run_seen said.drive)
        (status_of said.answer) (text_of said.answer)) }
    ensures leaves { LeavesFirstOrGood (K.state disk.old) (K.state disk.new) }
    ensures held { OnlyReads (K.state disk.old) (K.state disk.new) ⊎ HoldsSome (K.state disk.old) }
    ensures memory { OnErr result (RunsOut (K.state disk.old) (K.state disk.new)
        ⊎ HoldsSome (K.state disk.old)) }
    ensures no_fleet { IfOk result (λ said. said.fleet ≡ None) }
{
    // For the proof: does nothing.
    a_power_loss_takes_only_work::<K>();
    match Script::read(alloc, text) {
        Ok(script) => run_script(alloc, disk, set, script, telling),
        Err(fault) => Ok(Answered::of(refused_script(alloc, name, fault)?)),
    }
}

/// Runs a script on a media set and the target of this disk.
pub(crate) fn run_script<'w, K: Power>(
    alloc: Global,
    disk: &mut K,
    set: &MediaSet,
    script: Script,
    telling: Telling,
) -> Result<Answered<'w>, NoMemory>
    requires { (K.state disk.old).stopped ≡ false }
    ensures runs { IfOk result (λ said. RunsTo telling (set_view set.now) script
        (K.state disk.old) (K.state disk.new) (option_map run_seen said.drive)
        (status_of said.answer) (text_of said.answer)) }
    ensures leaves { LeavesFirstOrGood (K.state disk.old) (K.state disk.new) }
    ensures held { OnlyReads (K.state disk.old) (K.state disk.new) ⊎ HoldsSome (K.state disk.old) }
    ensures memory { OnErr result (RunsOut (K.state disk.old) (K.state disk.new)
        ⊎ HoldsSome (K.state disk.old)) }
    ensures no_fleet { IfOk result (λ said. said.fleet ≡ None) }
{
    // For the proof: these change nothing.
    what_a_disk_holds_can_be_listed();
    a_last_finish_is_left();
    can_be_told(set);
    let mut link = ScriptLink::new(alloc, script);
    let interlock = Interlock::new(PermitsAll);
    match drive(alloc, &mut link, disk, set, &interlock) {
        Ok(run) => {
            let answer = tell(alloc, telling, &run)?;
            Ok(Answered {
                answer,
                drive: Some(run),
                fleet: None,
            })
        }
        Err(DriveFault::Disk) => Ok(Answered::of(Answer::DiskFault)),
        Err(DriveFault::NoConfig(fault)) => Ok(Answered::of(Answer::NoConfiguration(fault))),
        Err(DriveFault::Memory) => Err(NoMemory),
        // A link that follows a script never fails.
        Err(DriveFault::Link) => unreachable!(),
    }
}

/// What is told of a run.
fn tell<'w>(alloc: Global, telling: Telling, run: &Drive) -> Result<Answer<'w>, NoMemory>
    ensures { IfOk result (λ answer. Tells telling (run_seen run.now)
        (option_map standing_view run.now.standing) (status_of answer) (text_of answer)) }
{
    if run.standing.is_none() {
        return Ok(Answer::DiskFault);
    }
    let text = text_of_run(alloc, telling, run)?;
    if are_completed(run.sessions.as_slice()) {
        Ok(Answer::Done(text))
    } else {
        Ok(Answer::Unfinished(text))
    }
}

fn text_of_run(alloc: Global, telling: Telling, run: &Drive) -> Result<Bytes, NoMemory>
    requires { IsSome run.now.standing }
    ensures { ForSome run.now.standing (λ standing. IfOk result (λ text. text.items
        ≡ told_as telling (map session_view run.now.sessions.items) run.now.trace.items
        (standing_view standing))) }
{
    match telling {
        Telling::Report => report_text(alloc, run),
        Telling::Trace => wire_text(alloc, run),
    }
}

pub(crate) fn are_completed(sessions: &[Session]) -> bool
    ensures { IsTrue result ↔ All IsCompleted (map session_view sessions.now) }
{
    is_each_completed(sessions)
}

fn is_each_completed(sessions: &[Session]) -> bool
    ensures { IsTrue result
        ↔ All (λ session. IsCompleted (session_view session)) sessions.now }
{
    sessions.iter().all(|session| is_completed(session))
}

fn is_completed(session: &Session) -> bool
    ensures { IsTrue result ↔ IsCompleted (session_view session.now) }
{
    matches!(session.outcome, Outcome::Completed)
}
