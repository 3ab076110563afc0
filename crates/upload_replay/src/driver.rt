//! A loader and the target of one disk, happening by happening.
ghost use Rattle.std.specs.Prelude.{◌≡◌, ◌+◌, ◌≤◌, ◌∷◌, ℕ, IfErr, IfOk, OnOk, Some, drop, length};
ghost use Rattle.std.specs.Prelude.{is_some, map, option_map};
ghost use Rattle.accept_rules.specs.Interlocks.{FollowsAccepts};
ghost use Rattle.accept_rules.specs.Permissions.{Accepts};
ghost use Rattle.bank_store.specs.DiskWrites.{IsRunning};
ghost use Rattle.disk_layout.specs.Holds.{standing_view};
ghost use Rattle.disk_model.specs.Image.{Image};
ghost use Rattle.disk_model.specs.State.{OnlyReads};
ghost use Rattle.exchange_trace.specs.Happenings.{datagram_view, happening_view};
ghost use Rattle.exchange_trace.specs.Posts.{numbered, posted_in};
ghost use Rattle.exchange_trace.specs.Steps.{steps_of};
ghost use Rattle.loader_machine.specs.Machine.{all_sessions, media_of, session_view};
ghost use Rattle.media_check.specs.Sets.{set_view};
ghost use Rattle.replay_rules.specs.BothEnds.{Setting};
ghost use Rattle.replay_turns.specs.Orders.{IsInOrder};
ghost use Rattle.replay_turns.specs.Powers.{RoseBy, disk_stops};
ghost use Rattle.replay_turns.specs.Recordings.{posts_of_last};
ghost use Rattle.replay_turns.specs.Turns.{target_kept};
ghost use Rattle.transfer_end.specs.Calls.{posts_view};
ghost use Rattle.upload_replay.specs.Drivers.{BeginsOnSetting, BeginsUnit, CanEnd, HoldsUnit};
ghost use Rattle.upload_replay.specs.Drivers.{IsTiedTo, StandsOn};
ghost use Rattle.upload_replay.specs.DriverSteps.{ActsOnDisk, CanStep, TakesStep};
ghost use Rattle.upload_replay.specs.Drives.{IsSet, IsUnitRun};
ghost use Rattle.upload_replay.specs.Drives.{has_session};
ghost use Rattle.upload_replay.specs.Endings.{EndsUnit, FailsToBegin, FailedIfUnknown, HoldsSome};
ghost use Rattle.upload_replay.specs.Endings.{IsEndFault, LeavesUnit, first_fault_of};
ghost use Rattle.upload_replay.specs.Lives.{LivesOn, LivesThrough};
ghost use Rattle.upload_replay.specs.Moments.{Clocks, HoldsToEnd};

use crate::ending::standing_at_end;
use crate::outcome::{Drive, DriveFault};
use accept_rules::{Interlock, Rule};
use bank_store::{a_power_loss_takes_only_work, an_idle_store_works};
use disk_layout::{Identity, RecoverFault, an_image_holds_one_configuration};
use disk_model::Power;
use exchange_trace::{Datagram, FIRST_PORT, Happening, TraceStep};
use link_net::Waits;
use load_base::{List, NoMemory};
use loader_machine::{Loader, Session};
use media_check::MediaSet;
use replay_rules::laws::{a_step_keeps_the_tie, contents_follow_their_trace};
use replay_turns::{Ends, Posts, Recording};
use run_promises::laws::a_run_keeps_its_promises;
use session_rules::laws::both_ends_follow_their_logs;
use std::alloc::Global;
use std::marker::Model;
use target_machine::{BootFault, Target};

/// A loader that serves a media set, and the target of one disk, which takes what happens step by
/// step. It holds no disk: each call that may reach it is lent it. After a call that was out of
/// memory it isn't used again.
#[derive(Drop)]
pub struct Driver<'m, R: Rule> {
    /// As the first boot read it.
    identity: Identity,
    ends: Ends<'m, R>,
}

impl<'m, R: Rule> Model for Driver<'m, R> {
    ghost use Rattle.upload_replay.specs.Drivers.{DriverState};

    ghost Value = { DriverState R };

    ghost view = { λ d. record {
      rule = d.ends.interlock.now;
      identity = d.identity;
      steps = d.ends.recording;
      loader = d.ends.loader;
      target = d.ends.target;
    } };
}

impl<'m, R: Rule> Driver<'m, R> {
    /// The target comes up on its disk, and nothing has happened yet. Nothing is written.
    pub fn boot<K: Power>(
        alloc: Global,
        disk: &mut K,
        media: &'m MediaSet,
        interlock: &'m Interlock<R>,
    ) -> Result<Driver<'m, R>, DriveFault>
        requires { IsRunning (K.state disk.old) }
        // With Ok.
        ensures begins { IfOk result (λ driver. BeginsUnit interlock.now (set_view media.now) driver
            (K.state disk.old) (K.state disk.new)) }
        ensures on_setting { (set : Setting) (image : Image) → IsSet R.may_say set interlock.now
            (set_view media.now) image → (K.state disk.old).reads ≡ Some image
            → IfOk result (λ driver. BeginsOnSetting R.may_say set driver (K.state disk.old)
            (K.state disk.new)) }
        ensures lives { (accepts : Accepts) → FollowsAccepts R.may_say interlock.now accepts
            → IfOk result (λ driver. LivesOn R.may_say accepts driver) }
        ensures stood { OnOk result (HoldsSome (K.state disk.old)) }
        // Refusals, and whatever it answers.
        ensures refused { IfErr result (λ fault. FailsToBegin fault (K.state disk.old)
            (K.state disk.new)) }
        ensures reads { OnlyReads (K.state disk.old) (K.state disk.new) }
    {
        // For the proof: these do nothing.
        an_image_holds_one_configuration();
        a_power_loss_takes_only_work::<K>();
        an_idle_store_works::<K>();
        match Target::boot(alloc, disk, interlock, FIRST_PORT) {
            Ok(target) => Ok(Driver {
                identity: *target.identity(),
                ends: Ends {
                    alloc,
                    interlock,
                    recording: Recording::new(alloc),
                    loader: Loader::new(alloc, media),
                    target: Some(target),
                },
            }),
            Err(fault) => Err(first_fault(fault)),
        }
    }

    /// Both ends take what happens. What they post is answered, for the link to carry: one end at
    /// most posts in a step, two datagrams at most.
    pub fn step<K: Power>(&mut self, disk: &mut K, happening: Happening) -> Result<Posts, NoMemory>
        requires { CanStep (happening_view happening) self.old (K.state disk.old) }
        ensures takes { IfOk result (λ posts. TakesStep R.may_say (happening_view happening)
            (posts_view posts) self.old self.new (K.state disk.old) (K.state disk.new)) }
        // Whatever it answers.
        ensures acts { ActsOnDisk R.may_say (happening_view happening) self.old (K.state disk.old)
            (K.state disk.new) }
    {
        let count = self.posted_count();
        self.apply(disk, happening)?;
        self.posts_after(count)
    }

    /// The same, but what they post is lent afterwards, by its number ([`Driver::posted`]).
    pub fn apply<K: Power>(&mut self, disk: &mut K, happening: Happening) -> Result<(), NoMemory>
        requires { CanStep (happening_view happening) self.old (K.state disk.old) }
        ensures takes { OnOk result (TakesStep R.may_say (happening_view happening)
            (posts_of_last self.new.steps) self.old self.new (K.state disk.old)
            (K.state disk.new)) }
        // Whatever it answers.
        ensures acts { ActsOnDisk R.may_say (happening_view happening) self.old (K.state disk.old)
            (K.state disk.new) }
    {
        // For the proof: these do nothing.
        an_image_holds_one_configuration();
        contents_follow_their_trace();
        a_step_keeps_the_tie();
        both_ends_follow_their_logs();
        self.ends.apply(disk, happening)
    }

    /// How many datagrams both ends posted. The newest has this number.
    pub fn posted_count(&self) -> u64
        ensures { result ≡ length (posted_in self.now.steps) }
    {
        self.ends.recording.posted_count()
    }

    /// The datagram of this number, from 1, if it was posted.
    pub fn posted(&self, number: u64) -> Option<&Datagram>
        ensures { option_map (λ d. datagram_view d.now) result
            ≡ numbered (posted_in self.now.steps) number }
    {
        self.ends.recording.datagram(number)
    }

    /// Copies of what was posted after so many datagrams, which is two at most.
    fn posts_after(&self, count: u64) -> Result<Posts, NoMemory>
        requires few { length (posted_in self.now.steps) ≤ count + 2 }
        requires within { count ≤ length (posted_in self.now.steps) }
        ensures { IfOk result (λ posts. posts_view posts
            ≡ drop count (posted_in self.now.steps)) }
    {
        let total = self.posted_count();
        if count == total {
            return Ok(Posts::none());
        }
        let first = self.copied(count + 1)?;
        if count + 1 == total {
            return Ok(Posts {
                first,
                second: None,
            });
        }
        match self.copied(count + 2) {
            Ok(second) => Ok(Posts { first, second }),
            Err(NoMemory) => {
                // For the proof: dropped by a call, not by scope.
                drop(first);
                Err(NoMemory)
            }
        }
    }

    /// A copy of the datagram of this number, if it was posted.
    fn copied(&self, number: u64) -> Result<Option<Datagram>, NoMemory>
        ensures { IfOk result (λ copy. option_map datagram_view copy
            ≡ numbered (posted_in self.now.steps) number) }
    {
        match self.posted(number) {
            Some(datagram) => Ok(Some(datagram.copy(self.ends.alloc)?)),
            None => Ok(None),
        }
    }

    /// The end comes: what each session came to, and what the disk holds. Where the target is down
    /// the disk is restarted first.
    pub fn end<K: Power>(self, disk: &mut K) -> Result<Drive, DriveFault>
        requires { CanEnd self (K.state disk.old) }
        // With Ok.
        ensures ended { IfOk result (λ drive. EndsUnit self.entry drive (K.state disk.old)
            (K.state disk.new)) }
        ensures lives { (accepts : Accepts) → LivesOn R.may_say accepts self.entry
            → IfOk result (λ drive. LivesThrough (media_of self.entry.loader.set) accepts
            (steps_of drive.trace.items)) }
        ensures run { (set : Setting) → StandsOn R.may_say set self.entry
            → IsTiedTo set self.entry → IfOk result (λ drive. IsUnitRun set
            (steps_of drive.trace.items) (map session_view drive.sessions.items)
            (option_map standing_view drive.standing)) }
        ensures held { (set : Setting) (since : ℕ) (clocks : Clocks)
            → HoldsUnit set since clocks self.entry (K.state disk.old)
            → IfOk result (λ drive. HoldsToEnd set (steps_of drive.trace.items) drive.standing
            since ((K.state disk.old).clock ∷ clocks) (K.state disk.new)) }
        ensures unknown { (began : ℕ) → RoseBy (disk_stops self.entry.steps) began
            (K.state disk.old).faults → IfOk result (λ drive. FailedIfUnknown drive.standing began
            (disk_stops self.entry.steps) (K.state disk.new)) }
        // Refusals, and whatever it answers.
        ensures refused { IfErr result (λ fault. IsEndFault fault (K.state disk.old)
            (K.state disk.new)) }
        ensures leaves { LeavesUnit (K.state disk.old) (K.state disk.new) }
    {
        // For the proof: these do nothing.
        an_image_holds_one_configuration();
        a_power_loss_takes_only_work::<K>();
        a_run_keeps_its_promises();
        let Driver { ends, .. } = self;
        let Ends {
            alloc,
            mut recording,
            loader,
            target,
            ..
        } = ends;
        let up = target.is_some();
        // For the proof: dropped by a call, not by scope.
        drop(target);
        let sessions = loader.into_sessions();
        match recording.record_happening(Happening::End) {
            Ok(()) => {}
            Err(NoMemory) => {
                drop((recording, sessions));
                return Err(DriveFault::Memory);
            }
        }
        match standing_at_end(alloc, disk, up) {
            Ok(standing) => Ok(Drive {
                trace: recording.into_trace(),
                sessions,
                standing,
            }),
            Err(fault) => {
                drop((recording, sessions));
                Err(fault)
            }
        }
    }

    /// Which ends have a live session, and so would be ticked.
    pub fn waits(&self) -> Waits
        ensures loader { result.loader ≡ is_some self.now.loader.view.live }
        ensures target { result.target ≡ has_session (target_kept self.now.target) }
    {
        Waits {
            loader: self.ends.loader.waits(),
            target: match &self.ends.target {
                Some(target) => target.waits(),
                None => false,
            },
        }
    }

    /// What has happened so far, line by line.
    pub fn trace(&self) -> &[TraceStep]
        ensures steps { steps_of result.now ≡ self.now.steps }
        ensures ordered { IsInOrder result.now }
    {
        self.ends.recording.trace()
    }

    /// The loader's sessions so far, in the order of their starts.
    pub fn sessions(&self) -> &List<Session>
        ensures { map session_view result.now.items ≡ all_sessions self.now.loader.view }
    {
        self.ends.loader.sessions()
    }

    /// The target's identity, as its first boot read it.
    pub fn identity(&self) -> &Identity
        ensures { result.now ≡ self.now.identity }
    {
        &self.identity
    }
}

/// Why the target doesn't come up at first.
fn first_fault(fault: BootFault) -> DriveFault
    ensures { result ≡ first_fault_of fault }
{
    match fault {
        BootFault::Recover(RecoverFault::DiskFailed) => DriveFault::Disk,
        BootFault::Recover(RecoverFault::Memory) => DriveFault::Memory,
        BootFault::Recover(fault) => DriveFault::NoConfig(fault),
        BootFault::Memory => DriveFault::Memory,
    }
}
