//! The batches of a fleet's run: the running one, and those that ended (docs/EXCHANGE.md,
//! "Batches").
ghost use Rattle.std.specs.Prelude.{◌≡◌, ◌+◌, ◌<◌, [], IfSome, None, OnOk, Some, length};
ghost use Rattle.std.specs.Prelude.{option_map};
ghost use Rattle.media_check.specs.Sets.{set_view};
ghost use Rattle.target_fleet.specs.Asking.{begun_batch, with_end_of};
ghost use Rattle.target_fleet.specs.AskingCalls.{HaveFewTargets, IsAskedIn, IsAskedWithin};
ghost use Rattle.target_fleet.specs.AskingCalls.{places_in, running_view, sessions_in};

use crate::asking::{Asked, Running, end_of};
use crate::outcome::BatchEnd;
use accept_rules::Rule;
use load_base::{List, NoMemory, PartText};
use media_check::MediaSet;
use std::alloc::Global;
use upload_replay::Driver;

/// The running batch, if there is one, and what those before it came to.
#[derive(Drop)]
pub(crate) struct FleetBatches {
    pub(crate) running: Option<Running>,
    pub(crate) ended: List<BatchEnd>,
}

impl FleetBatches {
    /// There was none yet.
    pub(crate) fn new(alloc: Global) -> FleetBatches
        ensures running { result.running ≡ None }
        ensures ended { result.ended.items ≡ [] }
    {
        FleetBatches {
            running: None,
            ended: List::new(alloc),
        }
    }

    /// This batch becomes the running one, and the one before it is ended with what it came to so
    /// far.
    pub(crate) fn begin<R: Rule>(
        &mut self,
        media: &MediaSet,
        drivers: &[Driver<'_, R>],
        part: PartText,
    ) -> Result<(), NoMemory>
        requires last { IfSome self.old.running (λ r. IsAskedIn (length drivers.now) r.last) }
        requires within { IfSome self.old.running (λ r. IsAskedWithin (set_view media.now)
            (running_view r)) }
        requires few { HaveFewTargets (set_view media.now) }
        ensures running { OnOk result
            (option_map running_view self.new.running ≡ Some (begun_batch part)) }
        ensures ended { OnOk result (self.new.ended.items ≡ with_end_of (set_view media.now)
            (places_in drivers.now) (sessions_in drivers.now)
            (option_map running_view self.old.running) self.old.ended.items) }
    {
        self.end(media, drivers)?;
        self.running = Some(Running {
            part,
            asked: 0,
            last: None,
        });
        Ok(())
    }

    /// An upload of the running batch was asked, which has this session.
    pub(crate) fn ask(&mut self, asked: Asked)
        requires { IfSome self.old.running (λ r. r.asked < 64) }
        ensures running { self.new.running ≡ option_map (λ r. record {
          part = r.part;
          asked = r.asked + 1;
          last = Some asked;
        }) self.old.running }
        ensures ended { self.new.ended ≡ self.old.ended }
    {
        if let Some(running) = self.running {
            self.running = Some(Running {
                part: running.part,
                asked: running.asked + 1,
                last: Some(asked),
            });
        }
    }

    /// The running batch is ended with what it came to so far, if there is one.
    pub(crate) fn end<R: Rule>(
        &mut self,
        media: &MediaSet,
        drivers: &[Driver<'_, R>],
    ) -> Result<(), NoMemory>
        requires last { IfSome self.old.running (λ r. IsAskedIn (length drivers.now) r.last) }
        requires within { IfSome self.old.running (λ r. IsAskedWithin (set_view media.now)
            (running_view r)) }
        requires few { HaveFewTargets (set_view media.now) }
        ensures { OnOk result (self.new.ended.items ≡ with_end_of (set_view media.now)
            (places_in drivers.now) (sessions_in drivers.now)
            (option_map running_view self.old.running) self.old.ended.items) }
    {
        match self.running {
            Some(running) => self.ended.push(end_of(media, running, drivers)),
            None => Ok(()),
        }
    }

    /// What the batches that ended came to, in order.
    pub(crate) fn into_ended(self) -> List<BatchEnd>
        ensures { result ≡ self.ended }
    {
        self.ended
    }
}
