//! What a happening does to the target.
ghost use Rattle.std.specs.Prelude.{◌≡◌, ◌⊎◌, [], IfOk, None, OnErr, OnOk};
ghost use Rattle.accept_rules.specs.Interlocks.{FollowsAccepts};
ghost use Rattle.accept_rules.specs.Permissions.{Accepts};
ghost use Rattle.bank_store.specs.DiskWrites.{IsRunning};
ghost use Rattle.exchange_trace.specs.declared.trace.Side.TheVariants as sides;
ghost use Rattle.exchange_trace.specs.Happenings.{happening_view};
ghost use Rattle.exchange_trace.specs.Logs.{Gets, event_for};
ghost use Rattle.exchange_trace.specs.Posts.{first_port_after, posted_in};
ghost use Rattle.load_intake.specs.Stores.{Writes};
ghost use Rattle.replay_rules.specs.BothEnds.{Setting, TargetStanding};
ghost use Rattle.replay_turns.specs.Ends.{ActsInStep, CanReach, TurnsTarget};
ghost use Rattle.replay_turns.specs.StepsOnDisks.{BeginsStep, HasContents, StepsOn};
ghost use Rattle.replay_turns.specs.StepsOnDisks.{contents_then};
ghost use Rattle.replay_turns.specs.Targets.{IsNoBoot, TargetLives, TargetSpeaks, TargetTurns};
ghost use Rattle.replay_turns.specs.Turns.{RuleFollows, RunsOut, RunsWhileUp, TargetTakes};
ghost use Rattle.replay_turns.specs.Turns.{notes_of, target_kept};
ghost use Rattle.session_rules.specs.Contents.{TargetContents, contents_after};
ghost use Rattle.target_machine.specs.Decisions.{TargetTakesEvent};
ghost use Rattle.target_machine.specs.Disks.{KeepsDisk};
ghost use Rattle.transfer_end.specs.Calls.{posts_view};

use crate::powering::{PowerNote, boot_again, cut_power};
use crate::recording::Recording;
use accept_rules::{Interlock, Rule};
use disk_model::{Disk, Power};
use exchange_trace::{Datagram, Happening, Side};
use load_base::NoMemory;
use loader_machine::Posts;
use std::alloc::Global;
use target_machine::{Down, Target};

/// What the target does where something happens.
#[derive(Drop)]
pub(crate) struct Reply {
    pub(crate) posts: Posts,
    pub(crate) note: Option<PowerNote>,
}

/// The target takes what this happening brings to it, where this was recorded before, or its power
/// is cut, or it is switched off and on.
pub(crate) fn target_turn<'i, K: Power, R: Rule>(
    alloc: Global,
    interlock: &'i Interlock<R>,
    slot: &mut Option<Target<'i, R>>,
    disk: &mut K,
    recording: &Recording,
    happening: &Happening,
) -> Result<Reply, NoMemory>
    requires { RunsWhileUp slot.old (K.state disk.old) }
    // With Ok.
    ensures turns { (set : Setting) (state : TargetStanding)
        → RuleFollows R.may_say set.accepts slot.old → IsNoBoot (happening_view happening.now)
        ⊎ BeginsStep R.may_say set state slot.old (K.state disk.old)
        → IfOk result (λ reply. TargetTurns set
        (event_for sides.Target (posted_in recording.now) (happening_view happening.now)) state
        (target_kept slot.old) (target_kept slot.new) (posts_view reply.posts)
        (notes_of reply.note)) }
    ensures lives { (accepts : Accepts) → RuleFollows R.may_say accepts slot.old
        → IfOk result (λ reply. TargetLives accepts
        (event_for sides.Target (posted_in recording.now) (happening_view happening.now))
        (target_kept slot.old) (target_kept slot.new) (posts_view reply.posts)
        (notes_of reply.note)) }
    ensures noted { IfOk result (λ reply. TurnsTarget (happening_view happening.now)
        (first_port_after recording.now) (posts_view reply.posts) (notes_of reply.note) slot.old
        slot.new (K.state disk.old) (K.state disk.new)) }
    ensures rule { (accepts : Accepts) → FollowsAccepts R.may_say interlock.now accepts
        → RuleFollows R.may_say accepts slot.old
        → OnOk result (RuleFollows R.may_say accepts slot.new) }
    // Whatever it answers.
    ensures memory { OnErr result (RunsOut (K.state disk.old) (K.state disk.new)) }
    ensures acts { ActsInStep (happening_view happening.now) (K.state disk.old)
        (K.state disk.new) }
    ensures steps { (set : Setting) (state : TargetStanding)
        → BeginsStep R.may_say set state slot.old (K.state disk.old)
        → StepsOn set (event_for sides.Target (posted_in recording.now)
        (happening_view happening.now)) state slot.new (λ reply. notes_of reply.note)
        (K.state disk.old) (K.state disk.new) result }
{
    match happening {
        Happening::Power { calls, pick } => Ok(Reply {
            posts: Posts::none(),
            note: cut_power(slot, disk, *calls, *pick),
        }),
        Happening::Boot => {
            let note = boot_again(alloc, interlock, slot, disk, recording.first_port())?;
            Ok(Reply {
                posts: Posts::none(),
                note: Some(note),
            })
        }
        Happening::ToLoader(_) | Happening::ToTarget(_) | Happening::Lost(_) => {
            reach_target(slot, disk, recording, happening)
        }
        Happening::Injected(_) | Happening::TickLoader | Happening::TickTarget => {
            reach_target(slot, disk, recording, happening)
        }
        Happening::BlockSize(_) | Happening::StartInfo { .. } | Happening::StartUpload { .. } => {
            reach_target(slot, disk, recording, happening)
        }
        Happening::End => reach_target(slot, disk, recording, happening),
    }
}

/// A target that is up takes what this happening brings to it; it goes down where its disk fails.
fn reach_target<K: Disk, R: Rule>(
    slot: &mut Option<Target<'_, R>>,
    disk: &mut K,
    recording: &Recording,
    happening: &Happening,
) -> Result<Reply, NoMemory>
    requires { CanReach (happening_view happening.now) slot.old (K.state disk.old) }
    // With Ok.
    ensures turns { (set : Setting) (state : TargetStanding)
        → RuleFollows R.may_say set.accepts slot.old → IfOk result (λ reply. TargetTurns set
        (event_for sides.Target (posted_in recording.now) (happening_view happening.now)) state
        (target_kept slot.old) (target_kept slot.new) (posts_view reply.posts)
        (notes_of reply.note)) }
    ensures lives { (accepts : Accepts) → RuleFollows R.may_say accepts slot.old
        → IfOk result (λ reply. TargetLives accepts
        (event_for sides.Target (posted_in recording.now) (happening_view happening.now))
        (target_kept slot.old) (target_kept slot.new) (posts_view reply.posts)
        (notes_of reply.note)) }
    ensures noted { IfOk result (λ reply. TurnsTarget (happening_view happening.now)
        (first_port_after recording.now) (posts_view reply.posts) (notes_of reply.note) slot.old
        slot.new (K.state disk.old) (K.state disk.new)) }
    ensures rule { (accepts : Accepts) → RuleFollows R.may_say accepts slot.old
        → OnOk result (RuleFollows R.may_say accepts slot.new) }
    // Whatever it answers.
    ensures memory { OnErr result (RunsOut (K.state disk.old) (K.state disk.new)) }
    ensures acts { ActsInStep (happening_view happening.now) (K.state disk.old)
        (K.state disk.new) }
    ensures steps { (set : Setting) (state : TargetStanding)
        → BeginsStep R.may_say set state slot.old (K.state disk.old)
        → StepsOn set (event_for sides.Target (posted_in recording.now)
        (happening_view happening.now)) state slot.new (λ reply. notes_of reply.note)
        (K.state disk.old) (K.state disk.new) result }
{
    let Some(target) = slot else {
        return Ok(Reply {
            posts: Posts::none(),
            note: None,
        });
    };
    match target_takes(target, disk, recording, happening) {
        Ok(posts) => Ok(Reply { posts, note: None }),
        Err(Down::DiskFailed) => {
            go_down(slot);
            Ok(Reply {
                posts: Posts::none(),
                note: Some(PowerNote::Down),
            })
        }
        Err(Down::Memory) => Err(NoMemory),
    }
}

/// The target is let go. A function of its own has the target's place on the stack, which is
/// cleared at each call.
fn go_down<R: Rule>(slot: &mut Option<Target<'_, R>>)
    ensures { slot.new ≡ None }
{
    drop(slot.take());
}

/// The target takes what this happening brings to it, where this was recorded before.
fn target_takes<K: Disk, R: Rule>(
    target: &mut Target<'_, R>,
    disk: &mut K,
    recording: &Recording,
    happening: &Happening,
) -> Result<Posts, Down>
    requires { IsRunning (K.state disk.old) }
    ensures takes { (accepts : Accepts) → FollowsAccepts R.may_say target.old.rule accepts
        → IfOk result (λ posts. TargetTakes accepts
        (event_for sides.Target (posted_in recording.now) (happening_view happening.now))
        target.old target.new (posts_view posts)) }
    ensures silent { IfOk result (λ posts. ¬ TargetSpeaks (happening_view happening.now)
        → posts_view posts ≡ []) }
    ensures keeps { (accepts : Accepts) → FollowsAccepts R.may_say target.old.rule accepts
        → (c : TargetContents) → HasContents target.old (K.state disk.old) c
        → KeepsDisk (K.state disk.old) target.new.store (K.state disk.new) c
        (contents_then accepts target.old.view (event_for sides.Target (posted_in recording.now)
        (happening_view happening.now)) c) result }
    ensures writes { Writes (K.state disk.old) (K.state disk.new) result }
{
    match happening {
        Happening::ToTarget(number) => match recording.datagram(*number) {
            Some(datagram) => target_gets(target, disk, datagram),
            None => Ok(Posts::none()),
        },
        Happening::Injected(datagram) => match datagram.from_side {
            Side::Loader => target_gets(target, disk, datagram),
            Side::Target => Ok(Posts::none()),
        },
        Happening::TickTarget => target.on_tick(disk),
        Happening::BlockSize(size) => {
            target.ask_blocks(*size);
            Ok(Posts::none())
        }
        Happening::ToLoader(_) | Happening::Lost(_) | Happening::TickLoader => Ok(Posts::none()),
        Happening::StartInfo { .. } | Happening::StartUpload { .. } => Ok(Posts::none()),
        Happening::Power { .. } | Happening::Boot | Happening::End => Ok(Posts::none()),
    }
}

fn target_gets<K: Disk, R: Rule>(
    target: &mut Target<'_, R>,
    disk: &mut K,
    datagram: &Datagram,
) -> Result<Posts, Down>
    requires { IsRunning (K.state disk.old) }
    ensures takes { (accepts : Accepts) → FollowsAccepts R.may_say target.old.rule accepts
        → IfOk result (λ posts. TargetTakesEvent accepts
        (Gets datagram.now.from datagram.now.to datagram.now.bytes.items)
        target.old target.new (posts_view posts)) }
    ensures keeps { (accepts : Accepts) → FollowsAccepts R.may_say target.old.rule accepts
        → (c : TargetContents) → HasContents target.old (K.state disk.old) c
        → KeepsDisk (K.state disk.old) target.new.store (K.state disk.new) c
        (contents_after accepts target.old.view
        (Gets datagram.now.from datagram.now.to datagram.now.bytes.items) c) result }
    ensures writes { Writes (K.state disk.old) (K.state disk.new) result }
{
    target.on_datagram(disk, datagram.from, datagram.to, datagram.bytes.as_slice())
}
