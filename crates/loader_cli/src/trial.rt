//! The command `trial`.
ghost use Rattle.std.specs.Prelude.{◌≡◌, ◌⊎◌, None, codes, false, option_map, IfOk, OnErr};
ghost use Rattle.disk_model.specs.State.{OnlyReads};
ghost use Rattle.media_check.specs.Sets.{set_view};
ghost use Rattle.replay_turns.specs.Turns.{RunsOut};
ghost use Rattle.upload_replay.specs.Endings.{HoldsSome};
ghost use Rattle.loader_cli.specs.Answers.{status_of, text_of};
ghost use Rattle.loader_cli.specs.Replays.{LeavesFirstOrGood, run_seen};
ghost use Rattle.generated_uploads.specs.GeneratedMedia.{IsGeneratedSet};
ghost use Rattle.generated_uploads.specs.GeneratedUploads.{trial_script};
ghost use Rattle.loader_cli.specs.Trials.{Trials};

use crate::answer::{Answer, Answered};
use crate::replay::{Telling, run_script};
use bank_store::a_power_loss_takes_only_work;
use disk_layout::Identity;
use disk_model::Power;
use link_net::Script;
use load_base::{List, NoMemory, PartText};
use media_build::make;
use media_check::MediaSet;
use recovery::{RecoverFault, survey};
use std::alloc::Global;

/// Uploads the generated set of a number to the target of this disk, in one session.
pub(crate) fn trial<'w, K: Power>(
    alloc: Global,
    disk: &mut K,
    number: u32,
) -> Result<Answered<'w>, NoMemory>
    requires { (K.state disk.old).stopped ≡ false }
    ensures tries { IfOk result (λ said. Trials number (K.state disk.old) (K.state disk.new)
        (option_map run_seen said.drive) (status_of said.answer) (text_of said.answer)) }
    ensures leaves { LeavesFirstOrGood (K.state disk.old) (K.state disk.new) }
    ensures held { OnlyReads (K.state disk.old) (K.state disk.new) ⊎ HoldsSome (K.state disk.old) }
    ensures memory { OnErr result (RunsOut (K.state disk.old) (K.state disk.new)
        ⊎ HoldsSome (K.state disk.old)) }
    ensures no_fleet { IfOk result (λ said. said.fleet ≡ None) }
{
    // For the proof: does nothing.
    a_power_loss_takes_only_work::<K>();
    match survey(alloc, disk) {
        Ok(surveyed) => {
            let target = surveyed.identity;
            // For the proof: dropped by a call, not by scope.
            drop(surveyed);
            let set = generated_set(alloc, number)?;
            match script_for(alloc, &target) {
                Ok(script) => {
                    let said = run_script(alloc, disk, &set, script, Telling::Report);
                    drop(set);
                    said
                }
                Err(fault) => {
                    drop(set);
                    Err(fault)
                }
            }
        }
        Err(fault) => match fault {
            RecoverFault::Memory => Err(NoMemory),
            RecoverFault::DiskFailed => Ok(Answered::of(Answer::DiskFault)),
            reason => Ok(Answered::of(Answer::NoConfiguration(reason))),
        },
    }
}

/// The generated set of a number, in memory.
fn generated_set(alloc: Global, number: u32) -> Result<MediaSet, NoMemory>
    ensures { IfOk result (λ set. IsGeneratedSet number (set_view set)) }
{
    let built = make(alloc, number)?;
    MediaSet::from_parts(alloc, built)
}

/// What is run for a target.
fn script_for(alloc: Global, target: &Identity) -> Result<Script, NoMemory>
    ensures { IfOk result (λ script. script ≡ trial_script target.now) }
{
    let mut parts = List::new(alloc);
    parts.push(generated_part())?;
    Script::of_upload(alloc, target.hw, target.pos, parts)
}

/// The part of the generated set's only load.
fn generated_part() -> PartText
    ensures { result ≡ codes "ABC41-0000-0001" }
{
    match PartText::read(b"ABC41-0000-0001") {
        Ok(part) => part,
        // These are fifteen graphic characters.
        Err(_) => unreachable!(),
    }
}
