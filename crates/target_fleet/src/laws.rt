//! Laws of fleets that ran. Each function does nothing; its clauses are the law.
ghost use Rattle.std.specs.Prelude.{◌≡◌, ℕ, List, length, Option};
ghost use Rattle.disk_layout.specs.Holds.{StandingView};
ghost use Rattle.fleet_trace.specs.FleetFollowing.{FleetAsking};
ghost use Rattle.fleet_trace.specs.FleetLines.{FleetLine};
ghost use Rattle.fleet_trace.specs.FleetTraces.{StepOfFleet};
ghost use Rattle.media_check.specs.Sets.{SetView};
ghost use Rattle.replay_rules.specs.BothEnds.{Setting};
ghost use Rattle.session_rules.specs.Loader.{EndedSession};
ghost use Rattle.target_fleet.specs.AskedUploads.{
  AllAskFirstTargets,
  CompletedAskedAll,
  asked_batches,
};
ghost use Rattle.target_fleet.specs.Asking.{AllAsked, UnitPlace, ends_of};
ghost use Rattle.target_fleet.specs.Bounds.{FinishEndsAtUnit};
ghost use Rattle.target_fleet.specs.Finishes.{CompletesAtUnit};

use finish_ends::laws::every_finish_ends;

/// In a fleet that is left to the last `finish` of its script, each unit that is fault-free
/// completes, whatever befell the others. Its premises are what [`fleet`](crate::fleet) promises of
/// the unit and of the script.
pub fn a_fleets_last_finish_completes()
    ensures { (units : ℕ) (sets : ℕ → Setting) (asks : FleetAsking) (script : List FleetLine)
        (steps : List StepOfFleet) (unit : ℕ) (sessions : List EndedSession)
        (standing : Option StandingView)
        → CompletesAtUnit units sets asks script steps unit sessions standing }
{}

/// The last `finish` of a fleet's script ends: each unit has no more happenings in it than a
/// `finish` of its own, 183,503,421,556 and two for each datagram that is undelivered at the unit
/// as it begins, whatever befell the others.
pub fn a_fleets_last_finish_ends()
    ensures { (units : ℕ) (sets : ℕ → Setting) (asks : FleetAsking) (script : List FleetLine)
        (steps : List StepOfFleet) (unit : ℕ)
        → FinishEndsAtUnit units sets asks script steps unit }
{
    every_finish_ends();
}

/// Each batch of a fleet asked the uploads to its first targets, in their order, each of exactly
/// the target's parts, where the sessions of all before it are completed. Each has one end.
pub fn a_batch_asks_its_first_targets()
    ensures for_each { (shown : SetView) (places : List UnitPlace) (steps : List StepOfFleet)
        → AllAsked shown places steps
        → length (asked_batches steps) ≡ length (ends_of shown places steps) }
    ensures first { (shown : SetView) (places : List UnitPlace) (steps : List StepOfFleet)
        → AllAsked shown places steps → AllAskFirstTargets shown places steps }
{}

/// A batch of a fleet that came to be completed asked all its targets, and the sessions of all are
/// completed at the end.
pub fn a_completed_batch_asked_all()
    ensures { (shown : SetView) (places : List UnitPlace) (steps : List StepOfFleet)
        → AllAsked shown places steps → CompletedAskedAll shown places steps }
{}
