//! What holds of several calls of `run`. These functions do nothing; their clauses are the laws.
ghost use Rattle.std.specs.Option.{ForSome};
ghost use Rattle.std.specs.Prelude.{◌≡◌, ◌<◌, ◌⊎◌, ℕ, List, Some, is_some, slice_get, true};
ghost use Rattle.load_base.specs.Host.{Files};
ghost use Rattle.bank_store.specs.Fits.{LosesOnlyWork};
ghost use Rattle.disk_layout.specs.Holds.{HoldsConfig, StandingView};
ghost use Rattle.disk_layout.specs.declared.identity.Identity.{Identity};
ghost use Rattle.disk_model.specs.Image.{Image};
ghost use Rattle.media_check.specs.Sets.{SetView};
ghost use Rattle.run_promises.specs.Promises.{HoldsFirstOrGood};
ghost use Rattle.bank_rollback.specs.Rollbacks.{IsActiveOrFormer};
ghost use Rattle.loader_cli.specs.Calls.{Call, IsPromised, run_of};
ghost use Rattle.loader_cli.specs.Chains.{AreInTurn, EachKeeps, IsRestarted, KeptFleetPromise};
ghost use Rattle.loader_cli.specs.Chains.{KeptPromise, StandsAgain, Taken, TookCall, TookFleet};
ghost use Rattle.loader_cli.specs.Chains.{fleet_call_of};
ghost use Rattle.loader_cli.specs.Commands.{FormatsDisk, FormatsOrRollsBack, IsCommand, IsNo};
ghost use Rattle.loader_cli.specs.Commands.{disk_named};
ghost use Rattle.loader_cli.specs.Commands.CommandView.{format, rollback};
ghost use Rattle.loader_cli.specs.FixedOutputs.{CallsSteadily, ReplayGives, GivesTrial, PutTheSame};
ghost use Rattle.loader_cli.specs.FixedOutputs.{PutsOnly, ReplaysSteadily, TriesSteadily};
ghost use Rattle.loader_cli.specs.Replays.{setting_of};
ghost use Rattle.loader_cli.specs.declared.replay.Telling.{Telling};
ghost use Rattle.loader_cli.specs.declared.top_call.Ended.{Ended};

use crate::top_call::command_laws;
use bank_store::a_power_loss_takes_only_work;
use disk_layout::an_image_holds_one_configuration;
use disk_model::Power;
use fixed_runs::laws::a_run_is_fixed_by_its_script;
use load_base::{Host, Sink};

/// What `replay` and `wire` put is a function of their arguments, of the host's files and of what
/// the disk that they use reads at the start, where neither host nor sink nor disk fails and the
/// target doesn't go down; or they are out of memory.
pub fn a_replay_is_fixed_by_its_inputs<H: Host, O: Sink, K: Power>()
    // What a call puts is given by its inputs,
    ensures puts { (call : Call H O K) (ended : Ended) (told : Telling) (folder name : List ℕ)
        (files : Files) (image : Image)
        → ReplaysSteadily (run_of H.files H.faults O.content O.faults K.state call) ended told
        folder name files image → PutsOnly (run_of H.files H.faults O.content O.faults K.state call)
        ended (ReplayGives told folder name files image) }
    // which give one status and one text.
    ensures one { (told : Telling) (folder name : List ℕ) (files : Files) (image : Image)
        (status status_2 : ℕ) (text text_2 : List ℕ)
        → ReplayGives told folder name files image status text
        → ReplayGives told folder name files image status_2 text_2
        → (status ≡ status_2) × (text ≡ text_2) }
    // So two calls on the same inputs put the same, where neither is out of memory.
    ensures same { (one two : Call H O K) (first second : Ended) (told : Telling)
        (folder name : List ℕ) (files : Files) (image : Image)
        → ReplaysSteadily (run_of H.files H.faults O.content O.faults K.state one) first told
        folder name files image
        → ReplaysSteadily (run_of H.files H.faults O.content O.faults K.state two) second told
        folder name files image → (first.status ≡ 6) ⊎ ((second.status ≡ 6)
        ⊎ PutTheSame (run_of H.files H.faults O.content O.faults K.state one)
        (run_of H.files H.faults O.content O.faults K.state two) first second) }
{
    // For the proof: these do nothing.
    an_image_holds_one_configuration();
    a_run_is_fixed_by_its_script();
}

/// What `trial` puts is a function of its number and of what the disk reads at the start, under the
/// same premises.
pub fn a_trial_is_fixed_by_its_disk<H: Host, O: Sink, K: Power>()
    ensures puts { (call : Call H O K) (ended : Ended) (number : ℕ) (image : Image)
        → TriesSteadily (run_of H.files H.faults O.content O.faults K.state call) ended number
        image → PutsOnly (run_of H.files H.faults O.content O.faults K.state call) ended
        (GivesTrial number image) }
    ensures one { (number : ℕ) (image : Image) (status status_2 : ℕ) (text text_2 : List ℕ)
        → GivesTrial number image status text → GivesTrial number image status_2 text_2
        → (status ≡ status_2) × (text ≡ text_2) }
    ensures same { (one two : Call H O K) (first second : Ended) (number : ℕ) (image : Image)
        → TriesSteadily (run_of H.files H.faults O.content O.faults K.state one) first number image
        → TriesSteadily (run_of H.files H.faults O.content O.faults K.state two) second number image
        → (first.status ≡ 6) ⊎ ((second.status ≡ 6)
        ⊎ PutTheSame (run_of H.files H.faults O.content O.faults K.state one)
        (run_of H.files H.faults O.content O.faults K.state two) first second) }
{
    // For the proof: these do nothing.
    an_image_holds_one_configuration();
    a_run_is_fixed_by_its_script();
}

/// So what any command but `fleet` puts is a function of the arguments, of the host's files and of
/// what the disk that they name reads at the start: two calls that have these alike put the same
/// text and end with the same status, or one of them is out of memory. Where neither host nor sink
/// nor disk fails, and the target doesn't go down in a run that is handed out.
pub fn two_calls_put_the_same<H: Host, O: Sink, K: Power>()
    ensures { (one two : Call H O K) (first second : Ended) (words : List (List ℕ))
        (files : Files) (image : Image)
        → CallsSteadily (run_of H.files H.faults O.content O.faults K.state one) first words files
        image → CallsSteadily (run_of H.files H.faults O.content O.faults K.state two) second words
        files image → (first.status ≡ 6) ⊎ ((second.status ≡ 6)
        ⊎ PutTheSame (run_of H.files H.faults O.content O.faults K.state one)
        (run_of H.files H.faults O.content O.faults K.state two) first second) }
{
    // For the proof: these do nothing.
    a_run_is_fixed_by_its_script();
    command_laws();
}

/// Commands follow one another on each unit's disk, whatever commands of other units and whatever
/// fleets stand between them: each keeps what `run` promises on a disk at rest, as long as those
/// before it that use this disk left it at rest. So it is from a disk at rest on, and after
/// `format` with status 0 on any disk that tells its content. After a call that didn't leave it so,
/// since the disk failed, power was lost or memory ran out, a restart of the disk does: it is at
/// rest then, and what stands on it was active as the call began, or each of its loads was active
/// then or is checked, and one is checked; so it is of each unit of a fleet. After `rollback` it
/// was active as the call began, or is what the rollback brings.
pub fn commands_follow_one_another<H: Host, O: Sink, K: Power>()
    ensures at_rest { (place : ℕ) (disk : K) (disks : List K) (calls : List (Taken H O K))
        → slice_get disks place ≡ Some disk → LosesOnlyWork (K.state disk)
        → AreInTurn K.state (run_of H.files H.faults O.content O.faults K.state)
        (fleet_call_of H.files H.faults O.content O.faults) disks calls
        → EachKeeps K.state (run_of H.files H.faults O.content O.faults K.state) place calls }
    ensures after_format { (first : TookCall H O K) (id : Identity) (calls : List (Taken H O K))
        → KeptPromise (run_of H.files H.faults O.content O.faults K.state) first
        → IsCommand first.call.words (format id) → is_some (K.state first.call.disk).reads ≡ true
        → first.ended.status ≡ 0
        → AreInTurn K.state (run_of H.files H.faults O.content O.faults K.state)
        (fleet_call_of H.files H.faults O.content O.faults) first.disks_after calls
        → EachKeeps K.state (run_of H.files H.faults O.content O.faults K.state)
        (disk_named first.call.words) calls }
    ensures after_restart { (last : TookCall H O K) (disk : K)
        → IsPromised (run_of H.files H.faults O.content O.faults K.state last.call) last.ended
        → IsNo FormatsDisk last.call.words → LosesOnlyWork (K.state last.call.disk)
        → IsRestarted (K.state last.call.disk_after) (K.state disk) → LosesOnlyWork (K.state disk) }
    ensures stands_then { (last : TookCall H O K) (disk : K) (set : SetView) (start : StandingView)
        (image : Image)
        → IsPromised (run_of H.files H.faults O.content O.faults K.state last.call) last.ended
        → IsNo FormatsOrRollsBack last.call.words → LosesOnlyWork (K.state last.call.disk)
        → (K.state last.call.disk).reads ≡ Some image → HoldsConfig image start
        → IsRestarted (K.state last.call.disk_after) (K.state disk)
        → ForSome (K.state disk).reads (HoldsFirstOrGood (setting_of set start)) }
    ensures rolled_back_then { (last : TookCall H O K) (disk : K) (active : StandingView)
        (image : Image)
        → IsPromised (run_of H.files H.faults O.content O.faults K.state last.call) last.ended
        → IsCommand last.call.words rollback → LosesOnlyWork (K.state last.call.disk)
        → (K.state last.call.disk).reads ≡ Some image → HoldsConfig image active
        → IsRestarted (K.state last.call.disk_after) (K.state disk)
        → ForSome (K.state disk).reads (IsActiveOrFormer image active) }
    ensures after_fleet { (last : TookFleet H O K) (place : ℕ) (before after disk : K)
        → KeptFleetPromise K.state (fleet_call_of H.files H.faults O.content O.faults) last
        → place < last.count → slice_get last.disks place ≡ Some before
        → slice_get last.disks_after place ≡ Some after → LosesOnlyWork (K.state before)
        → IsRestarted (K.state after) (K.state disk)
        → StandsAgain (K.state before) (K.state disk) }
{
    // For the proof: these do nothing.
    an_image_holds_one_configuration();
    a_power_loss_takes_only_work::<K>();
}
