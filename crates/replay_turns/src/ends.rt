//! Both ends, and what has happened between them.
ghost use Rattle.std.specs.Prelude.{◌≡◌, ◌⊎◌, ◌≤◌, ◌++◌, ◌∷◌, [], OnOk, length};
ghost use Rattle.std.specs.List.{AllByRecursion};
ghost use Rattle.accept_rules.specs.Interlocks.{FollowsAccepts};
ghost use Rattle.exchange_trace.specs.declared.trace.Side.TheVariants as sides;
ghost use Rattle.exchange_trace.specs.Happenings.{datagram_view, happening_view};
ghost use Rattle.exchange_trace.specs.Logs.{event_for};
ghost use Rattle.exchange_trace.specs.Posts.{posted_in};
ghost use Rattle.exchange_trace.specs.Steps.{with_given};
ghost use Rattle.field_grammar.specs.Grammar.{IsBytes};
ghost use Rattle.accept_rules.specs.Permissions.{Accepts};
ghost use Rattle.replay_rules.specs.BothEnds.{Setting, TargetStanding};
ghost use Rattle.replay_rules.specs.Changes.{CarriesBytes, InjectsBytes};
ghost use Rattle.replay_turns.specs.Ends.{ActsInStep, HasStepped, StepsAsSaid};
ghost use Rattle.replay_turns.specs.Recordings.{StepHasBegun, posts_of_last, with_posts};
ghost use Rattle.replay_turns.specs.StepsOnDisks.{AddsInStep, BeginsStep};
ghost use Rattle.replay_turns.specs.Turns.{RuleFollows, RunsWhileUp, noted_with, notes_of};
ghost use Rattle.transfer_end.specs.Calls.{posted, posts_view};

use crate::powering::PowerNote;
use crate::reaching::loader_takes;
use crate::recording::Recording;
use crate::turn::{Reply, target_turn};
use accept_rules::{Interlock, Rule};
use disk_model::Power;
use exchange_trace::{Datagram, Happening};
use load_base::NoMemory;
use loader_machine::{Loader, Posts};
use std::alloc::Global;
use target_machine::Target;

/// A loader, the target of one disk, and what has happened between them.
#[derive(Drop)]
pub struct Ends<'m, R: Rule> {
    pub alloc: Global,
    pub interlock: &'m Interlock<R>,
    pub recording: Recording,
    pub loader: Loader<'m>,
    /// None while it is down.
    pub target: Option<Target<'m, R>>,
}

impl<'m, R: Rule> Ends<'m, R> {
    /// Both ends take what happens, the target first, since a loss of power is armed whatever else
    /// may fail. It is recorded with what they post, which one end at most does, and with what
    /// becomes of the target's power. Out of memory the ends aren't used again.
    pub fn apply<K: Power>(&mut self, disk: &mut K, happening: Happening) -> Result<(), NoMemory>
        requires { RunsWhileUp self.old.target (K.state disk.old) }
        // With Ok.
        ensures stepped { OnOk result (HasStepped (happening_view happening)
            (posts_of_last self.new.recording) self.old.recording self.new.recording
            self.old.loader self.new.loader self.old.target self.new.target (K.state disk.old)
            (K.state disk.new)) }
        ensures said { (set : Setting) (state : TargetStanding)
            → RuleFollows R.may_say set.accepts self.old.target → OnOk result
            (StepsAsSaid R.may_say set state (happening_view happening)
            (posts_of_last self.new.recording) self.old.recording self.new.recording
            self.old.loader self.new.loader self.old.target self.new.target (K.state disk.old)
            (K.state disk.new)) }
        ensures rule { (accepts : Accepts)
            → FollowsAccepts R.may_say self.old.interlock.now accepts
            → RuleFollows R.may_say accepts self.old.target
            → OnOk result (RuleFollows R.may_say accepts self.new.target) }
        // Whatever it answers.
        ensures interlock { self.new.interlock ≡ self.old.interlock }
        ensures acts { ActsInStep (happening_view happening) (K.state disk.old)
            (K.state disk.new) }
        ensures injects { InjectsBytes (happening_view happening) }
        ensures adds { (set : Setting) (state : TargetStanding)
            → BeginsStep R.may_say set state self.old.target (K.state disk.old)
            → AddsInStep set (event_for sides.Target (posted_in self.old.recording)
            (happening_view happening)) state (K.state disk.old) (K.state disk.new) }
    {
        carries_bytes(&happening);
        let replied = target_turn(
            self.alloc,
            self.interlock,
            &mut self.target,
            disk,
            &self.recording,
            &happening,
        );
        let reply = match replied {
            Ok(reply) => reply,
            Err(NoMemory) => {
                // For the proof: dropped by a call, not by scope.
                drop(happening);
                return Err(NoMemory);
            }
        };
        let first = match loader_takes(&mut self.loader, &self.recording, &happening) {
            Ok(first) => first,
            Err(NoMemory) => {
                drop((happening, reply));
                return Err(NoMemory);
            }
        };
        let Reply { posts, note } = reply;
        let posts = one_of(first, posts);
        posts_carry_bytes(&posts);
        record(&mut self.recording, happening, posts, note)
    }
}

/// What both ends post, of which one posts nothing.
fn one_of(first: Posts, second: Posts) -> Posts
    requires { (posts_view first ≡ []) ⊎ (posts_view second ≡ []) }
    ensures { posts_view result ≡ posts_view first ++ posts_view second }
{
    if first.first.is_none() && first.second.is_none() {
        drop(first);
        second
    } else {
        drop(second);
        first
    }
}

/// A step: what happened, what was posted, and what was noted of the target.
fn record(
    recording: &mut Recording,
    happening: Happening,
    posts: Posts,
    note: Option<PowerNote>,
) -> Result<(), NoMemory>
    ensures { OnOk result (recording.new
        ≡ record {
          given = happening_view happening;
          posts = posts_view posts;
          notes = notes_of
              note;
        }
        ∷ recording.old) }
{
    record_posts(recording, happening, posts)?;
    match note {
        Some(note) => record_note(recording, note),
        None => Ok(()),
    }
}

/// What happened, and what was posted.
fn record_posts(
    recording: &mut Recording,
    happening: Happening,
    posts: Posts,
) -> Result<(), NoMemory>
    ensures posts { OnOk result (recording.new ≡ with_posts
        (with_given recording.old (happening_view happening)) (posts_view posts)) }
    ensures begun { OnOk result (StepHasBegun recording.new) }
{
    let Posts { first, second } = posts;
    match recording.record_happening(happening) {
        Ok(()) => match record_post(recording, first) {
            Ok(()) => record_post(recording, second),
            Err(NoMemory) => {
                // For the proof: dropped by a call, not by scope.
                drop(second);
                Err(NoMemory)
            }
        },
        Err(NoMemory) => {
            drop((first, second));
            Err(NoMemory)
        }
    }
}

fn record_post(recording: &mut Recording, datagram: Option<Datagram>) -> Result<(), NoMemory>
    requires { StepHasBegun recording.old }
    ensures posts { OnOk result (recording.new ≡ with_posts recording.old (posted datagram)) }
    ensures begun { OnOk result (StepHasBegun recording.new) }
{
    match datagram {
        Some(datagram) => recording.post(datagram),
        None => Ok(()),
    }
}

fn record_note(recording: &mut Recording, note: PowerNote) -> Result<(), NoMemory>
    requires { StepHasBegun recording.old }
    ensures { OnOk result (recording.new ≡ noted_with recording.old note) }
{
    match note {
        PowerNote::Down => recording.note_down(),
        PowerNote::Up {
            first_port,
            sequence,
        } => recording.note_up(first_port, sequence),
        PowerNote::Refused(fault) => recording.note_refused(fault),
    }
}

/// What is injected is bytes.
// For the proof: does nothing.
fn carries_bytes(happening: &Happening)
    ensures { InjectsBytes (happening_view happening.now) }
{
    if let Happening::Injected(datagram) = happening {
        are_bytes(datagram.bytes.as_slice());
    }
}

/// What is posted is bytes, and two datagrams at most.
// For the proof: does nothing.
fn posts_carry_bytes(posts: &Posts)
    ensures carries { AllByRecursion CarriesBytes (posts_view posts.now) }
    ensures few { length (posts_view posts.now) ≤ 2 }
{
    datagram_carries_bytes(&posts.first);
    datagram_carries_bytes(&posts.second);
}

/// A datagram carries bytes.
// For the proof: does nothing.
fn datagram_carries_bytes(datagram: &Option<Datagram>)
    ensures carries { AllByRecursion CarriesBytes (posted datagram.now) }
    ensures few { length (posted datagram.now) ≤ 1 }
{
    if let Some(datagram) = datagram {
        are_bytes(datagram.bytes.as_slice());
    }
}

/// What is lent as bytes is bytes.
// For the proof: does nothing.
fn are_bytes(bytes: &[u8])
    ensures { IsBytes bytes.now }
{}
