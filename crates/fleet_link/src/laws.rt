//! Laws of scripts of fleets and of their links, for callers and readers. Each function does
//! nothing; its clauses are the law.
ghost use Rattle.std.specs.Prelude.{◌≡◌, ◌∷◌, [], ℕ, Bool, List, codes, Ok, Err, false, true};
ghost use Rattle.exchange_trace.specs.Lines as lines;
ghost use Rattle.text_words.specs.Words.{lines as written};
ghost use Rattle.exchange_trace.specs.declared.fault.ScriptFault.TheVariants as faults;
ghost use Rattle.exchange_trace.specs.declared.trace.Side.TheVariants as sides;
ghost use Rattle.fleet_trace.specs.FleetFollowing.{FleetAsking, FleetWaiting, FollowsFleet};
ghost use Rattle.fleet_trace.specs.FleetLines.{Ask_next, Begin_batch, Finish_all, Finish_batch};
ghost use Rattle.fleet_trace.specs.FleetLines.{FleetLine, Line_at, Lose_numbered, Next_of_all};
ghost use Rattle.fleet_trace.specs.FleetScripts.{fleet_script_said};
ghost use Rattle.fleet_trace.specs.FleetTraces.{All_ended, At_unit, Batch_begun, Next_asked};
ghost use Rattle.fleet_trace.specs.FleetTraces.{Of_all, Of_batch, Of_unit, StepOfFleet};
ghost use Rattle.exchange_trace.specs.Happenings.{DatagramView, HappeningView};
ghost use Rattle.exchange_trace.specs.Steps.{Step};
ghost use Rattle.link_net.specs.declared.link.Waits.{Waits};
ghost use Rattle.fleet_link.specs.FleetFollowed.{HasFollowedFleet, TellsWaits, begun_step};
ghost use Rattle.fleet_link.specs.FleetFollowed.{posting_step};
ghost use Rattle.fleet_link.specs.FleetLinks.{FleetLinkState, GivesInFleet, IsUploadStart};
ghost use Rattle.fleet_link.specs.FleetLinks.{with_post_at, with_start_at};
ghost use Rattle.fleet_link.specs.declared.fleet_turn.FleetRest.TheVariants as rests;

/// Who hands the link of a fleet all that the sides of its units post, tells it which of them wait
/// and whether an upload may be asked, and starts one where the link asks, gets a trace that
/// follows the script.
pub fn a_fleets_link_follows_its_script()
    ensures start { (units : ℕ) (waiting : FleetWaiting) (asks : FleetAsking)
        (script : List FleetLine) → HasFollowedFleet units waiting asks script [] (record {
          units = units;
          posted = [];
          given = [];
          rest = rests.Nothing;
          lines = script;
        }) }
    ensures next { (units : ℕ) (waiting : FleetWaiting) (asks : FleetAsking)
        (script : List FleetLine) (steps : List StepOfFleet) (old new : FleetLinkState)
        (waits : List Waits) (may_ask : Bool) (unit : ℕ) (h : HappeningView)
        → HasFollowedFleet units waiting asks script steps old → TellsWaits waiting steps waits
        → may_ask ≡ asks steps → GivesInFleet old new waits may_ask (At_unit unit h)
        → HasFollowedFleet units waiting asks script (Of_unit false unit (begun_step h) ∷ steps)
        new }
    ensures batch { (units : ℕ) (waiting : FleetWaiting) (asks : FleetAsking)
        (script : List FleetLine) (steps : List StepOfFleet) (old new : FleetLinkState)
        (waits : List Waits) (may_ask : Bool) (part : List ℕ)
        → HasFollowedFleet units waiting asks script steps old → TellsWaits waiting steps waits
        → may_ask ≡ asks steps → GivesInFleet old new waits may_ask (Batch_begun part)
        → HasFollowedFleet units waiting asks script (Of_batch part ∷ steps) new }
    // An upload that is asked starts at some unit.
    ensures asked { (units : ℕ) (waiting : FleetWaiting) (asks : FleetAsking)
        (script : List FleetLine) (steps : List StepOfFleet) (old new : FleetLinkState)
        (waits : List Waits) (may_ask : Bool) (unit : ℕ) (h : HappeningView)
        → HasFollowedFleet units waiting asks script steps old → TellsWaits waiting steps waits
        → may_ask ≡ asks steps → IsUploadStart h → GivesInFleet old new waits may_ask Next_asked
        → HasFollowedFleet units waiting asks script (Of_unit true unit (begun_step h) ∷ steps)
        (with_start_at new unit h) }
    ensures post { (units : ℕ) (waiting : FleetWaiting) (asks : FleetAsking)
        (script : List FleetLine) (asked : Bool) (unit : ℕ) (s : Step) (earlier : List StepOfFleet)
        (link : FleetLinkState) (d : DatagramView)
        → HasFollowedFleet units waiting asks script (Of_unit asked unit s ∷ earlier) link
        → HasFollowedFleet units waiting asks script
        (Of_unit asked unit (posting_step s d) ∷ earlier) (with_post_at link unit d) }
    ensures end { (units : ℕ) (waiting : FleetWaiting) (asks : FleetAsking)
        (script : List FleetLine) (steps : List StepOfFleet) (old new : FleetLinkState)
        (waits : List Waits) (may_ask : Bool)
        → HasFollowedFleet units waiting asks script steps old → TellsWaits waiting steps waits
        → may_ask ≡ asks steps → GivesInFleet old new waits may_ask All_ended
        → FollowsFleet units waiting asks script (Of_all ∷ steps) }
{}

/// What some scripts of fleets say, and how some are refused: the words of the definitions computed
/// (docs/FORMATS.md, "Script of a fleet"), a clause for each script.
pub fn worked_fleet_scripts()
    ensures two_units { fleet_script_said 2 (written (codes "at 1 info HW1 L" ∷ codes "# late"
        ∷ codes "at 2 power 0 0" ∷ codes "lose 1" ∷ codes "next 3" ∷ codes "finish" ∷ []))
        ≡ Ok (Line_at 1 (lines.Info (codes "HW1") (codes "L")) ∷ Line_at 2 (lines.Power 0 0)
        ∷ Lose_numbered 1 ∷ Next_of_all 3 ∷ Finish_all ∷ []) }
    ensures nothing { fleet_script_said 2 [] ≡ Ok [] }
    ensures eighth { fleet_script_said 8 (codes "at 8 tick loader")
        ≡ Ok (Line_at 8 (lines.Tick sides.Loader) ∷ []) }
    // The kind of the line and the number of its words come first, then the unit's word, then the
    // words of the line.
    ensures alone { fleet_script_said 2 (codes "at 1") ≡ Err (faults.Word 1) }
    ensures unknown_word { fleet_script_said 2 (codes "at 9 frob") ≡ Err (faults.Word 1) }
    ensures many_words { fleet_script_said 2 (codes "at 9 boot x")
        ≡ Err (faults.Word 1) }
    ensures unknown_unit { fleet_script_said 2 (codes "at 9 tick moon") ≡ Err (faults.Unit 1) }
    ensures third_unit { fleet_script_said 2 (written (codes "finish" ∷ [] ∷ codes "at 3 boot"
        ∷ [])) ≡ Err (faults.Unit 3) }
    ensures no_unit { fleet_script_said 2 (codes "at 0 boot") ≡ Err (faults.Unit 1) }
    ensures leading_zero { fleet_script_said 2 (codes "at 01 boot") ≡ Err (faults.Unit 1) }
    ensures unknown_side { fleet_script_said 2 (codes "at 2 tick moon")
        ≡ Err (faults.Word 1) }
    ensures no_bytes { fleet_script_said 2 (codes "at 2 inject loader 1 2 0g")
        ≡ Err (faults.Hex 1) }
    ensures no_part { fleet_script_said 2 (codes "at 2 upload HW1 R ABC")
        ≡ Err (faults.Name 1) }
    // A line of a unit doesn't stand alone, and the others have no unit.
    ensures no_at { fleet_script_said 2 (codes "info HW1 L") ≡ Err (faults.Word 1) }
    ensures finish_at { fleet_script_said 2 (codes "at 1 finish") ≡ Err (faults.Word 1) }
    ensures give_at { fleet_script_said 2 (codes "at 1 give 1") ≡ Err (faults.Word 1) }
    // The lines of batches. The check characters of a part number aren't tested.
    ensures batches { fleet_script_said 2 (written (codes "batch ABC43-0000-0003" ∷ codes "asknext"
        ∷ codes "finishbatch" ∷ []))
        ≡ Ok (Begin_batch (codes "ABC43-0000-0003") ∷ Ask_next ∷ Finish_batch ∷ []) }
    ensures batch_check { fleet_script_said 2 (codes "batch ABC00-0000-0003")
        ≡ Ok (Begin_batch (codes "ABC00-0000-0003") ∷ []) }
    ensures batch_no_part { fleet_script_said 2 (codes "batch ABC43") ≡ Err (faults.Name 1) }
    ensures batch_alone { fleet_script_said 2 (codes "batch") ≡ Err (faults.Word 1) }
    ensures batch_words { fleet_script_said 2 (codes "batch ABC43 x") ≡ Err (faults.Word 1) }
    ensures ask_words { fleet_script_said 2 (codes "asknext 1") ≡ Err (faults.Word 1) }
    ensures finish_words { fleet_script_said 2 (codes "finishbatch ") ≡ Err (faults.Word 1) }
    ensures ask_at { fleet_script_said 2 (codes "at 1 asknext") ≡ Err (faults.Word 1) }
{}
