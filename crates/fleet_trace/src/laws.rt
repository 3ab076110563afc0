//! Laws of fleets: what each unit's part is. Each function does nothing; its clauses are the law.
ghost use Rattle.std.specs.Prelude.{◌≡◌, ◌≢◌, ◌<◌, ◌≤◌, ◌-◌, ◌++◌, ◌∷◌, [], ℕ, List, Bool};
ghost use Rattle.std.specs.Prelude.{Some, None, if◌then◌else◌, false, length, not, slice_get, true};
ghost use Rattle.std.specs.Prelude.{◌==◌};
ghost use Rattle.exchange_trace.specs.declared.trace.Happening.TheVariants as happenings;
ghost use Rattle.exchange_trace.specs.declared.trace.Side.{Side};
ghost use Rattle.exchange_trace.specs.declared.trace.Side.TheVariants as sides;
ghost use Rattle.exchange_trace.specs.declared.trace.TraceStep.TheVariants as lines;
ghost use Rattle.exchange_trace.specs.Following.{FollowsScript, Nothing_left, Scene};
ghost use Rattle.exchange_trace.specs.Following.{least_delivery, next_turn, plan_after, plan_of};
ghost use Rattle.exchange_trace.specs.Following.{scene_after, turn};
ghost use Rattle.exchange_trace.specs.Happenings.{Booted, DatagramView, Delivered};
ghost use Rattle.exchange_trace.specs.Happenings.{HappeningView, Lost, Ticked, Upload_started};
ghost use Rattle.exchange_trace.specs.Happenings.{other};
ghost use Rattle.exchange_trace.specs.Lines.{Boot, Finish, Line};
ghost use Rattle.exchange_trace.specs.Posts.{AllHonest, IsHonest, happenings_of, posted_in};
ghost use Rattle.exchange_trace.specs.Posts.{numbered, undelivered};
ghost use Rattle.exchange_trace.specs.Steps.{Step, Went_down};
ghost use Rattle.fleet_trace.specs.declared.trace.FleetStep.TheVariants as fleet_lines;
ghost use Rattle.fleet_trace.specs.FleetFinishes.{AllOfFleetFinish, FleetFinishIsLeft};
ghost use Rattle.fleet_trace.specs.FleetFinishes.{IsLeftToOwnFinish, ReachesFleetFinish};
ghost use Rattle.fleet_trace.specs.FleetFollowing.{Batch_finishes, Deliveries_left, Finish_goes_on};
ghost use Rattle.fleet_trace.specs.FleetFollowing.{FleetAsking, FleetPlan};
ghost use Rattle.fleet_trace.specs.FleetFollowing.{FleetScene};
ghost use Rattle.fleet_trace.specs.FleetFollowing.{FleetWaiting, loaders_first, turn_passed};
ghost use Rattle.fleet_trace.specs.FleetFollowing.{FollowsFleet, Line_is_done, fleet_plan_of};
ghost use Rattle.fleet_trace.specs.FleetFollowing.{fleet_scene_after, fleet_turn};
ghost use Rattle.fleet_trace.specs.FleetFollowing.{least_fleet_delivery, next_fleet_turn};
ghost use Rattle.fleet_trace.specs.FleetFollowing.{unit_scene};
ghost use Rattle.fleet_trace.specs.FleetLines.{Ask_next, Begin_batch, Finish_all, Finish_batch};
ghost use Rattle.fleet_trace.specs.FleetLines.{FleetLine, Give_numbered};
ghost use Rattle.fleet_trace.specs.FleetLines.{Line_at, Lose_numbered, Next_of_all};
ghost use Rattle.fleet_trace.specs.FleetPosts.{PostPlace, UnitPost, fleet_happenings};
ghost use Rattle.fleet_trace.specs.FleetPosts.{fleet_posts, given_as, located, post_places};
ghost use Rattle.fleet_trace.specs.FleetPosts.{unit_post};
ghost use Rattle.fleet_trace.specs.FleetPosts.{happenings_of_unit, numbers_of_unit};
ghost use Rattle.fleet_trace.specs.FleetPosts.{posts_of_unit, undelivered_places};
ghost use Rattle.fleet_trace.specs.FleetTraces.{All_ended, At_unit, Batch_begun, HasNotEnded};
ghost use Rattle.fleet_trace.specs.FleetTraces.{IsBeforeEnd, Next_asked, Of_all, Of_batch};
ghost use Rattle.fleet_trace.specs.FleetTraces.{Of_unit, StepOfFleet, ended_step};
ghost use Rattle.fleet_trace.specs.FleetTraces.{fleet_steps_of};
ghost use Rattle.fleet_trace.specs.FleetTraces.{steps_of_unit};
ghost use Rattle.fleet_trace.specs.Merging.{Batch_came, Stepped, StepsOfUnits, Unit_stepped};
ghost use Rattle.fleet_trace.specs.Merging.{merged, stepping_order, times_stepped};
ghost use Rattle.fleet_trace.specs.OwnScripts.{AllCanBeGiven, CanBeGiven, lines_giving, own_script};

/// What was posted and what happened at a unit is so in its own steps, and its scene is the one
/// after these.
pub fn a_units_part_is_of_its_own_steps()
    ensures posts { (unit : ℕ) (steps : List StepOfFleet)
        → posts_of_unit unit (fleet_posts steps) ≡ posted_in (steps_of_unit unit steps) }
    ensures happenings { (unit : ℕ) (steps : List StepOfFleet)
        → happenings_of_unit unit (fleet_happenings steps)
        ≡ happenings_of (steps_of_unit unit steps) }
    ensures scene { (units : ℕ) (waiting : FleetWaiting) (asks : FleetAsking)
        (steps : List StepOfFleet) (unit : ℕ)
        → unit_scene (fleet_scene_after units waiting asks steps) unit
        ≡ scene_after (waiting unit) (steps_of_unit unit steps) }
{}

/// The place of a fleet's datagram is that of the same datagram among its unit's own posts. Each
/// that was posted has one, and no other number has.
pub fn a_datagrams_place_is_its_own_number_at_its_unit()
    ensures datagram { (posts : List UnitPost) (n : ℕ) (p : PostPlace) → located posts n ≡ Some p
        → (x : UnitPost) × (slice_get posts (n - 1) ≡ Some x) × (x.unit ≡ p.unit)
        × (numbered (posts_of_unit p.unit posts) p.number ≡ Some x.datagram) }
    ensures there { (posts : List UnitPost) (n : ℕ) → 1 ≤ n → n ≤ length posts
        → (p : PostPlace) × (located posts n ≡ Some p) }
    ensures none { (posts : List UnitPost) (n : ℕ) → length posts < n → located posts n ≡ None }
    ensures no_zeroth { (posts : List UnitPost) → located posts 0 ≡ None }
{}

/// What a fleet's script gives at a unit can be given by a line of the unit's own script.
pub fn what_a_fleets_script_gives_can_be_given()
    ensures given { (s : FleetScene) (p : FleetPlan) (unit : ℕ) (h : HappeningView)
        → (next_fleet_turn s p).given ≡ At_unit unit h
        → CanBeGiven (posts_of_unit unit s.posted) (happenings_of_unit unit s.happenings) h }
    // What is delivered was posted at that unit, to that side.
    ensures honest { (s : FleetScene) (p : FleetPlan) (unit : ℕ) (h : HappeningView)
        → (next_fleet_turn s p).given ≡ At_unit unit h
        → IsHonest (posts_of_unit unit s.posted) h }
    // An upload is asked only where it may be.
    ensures asked { (s : FleetScene) (p : FleetPlan) → (next_fleet_turn s p).given ≡ Next_asked
        → s.may_ask ≡ true }
    // So it is throughout a trace that follows a script.
    ensures all_given { (units : ℕ) (waiting : FleetWaiting) (asks : FleetAsking)
        (script : List FleetLine)
        (steps : List StepOfFleet) (unit : ℕ)
        → FollowsFleet units waiting asks script steps → HasNotEnded steps
        → AllCanBeGiven (steps_of_unit unit steps) }
    ensures all_honest { (units : ℕ) (waiting : FleetWaiting) (asks : FleetAsking)
        (script : List FleetLine)
        (steps : List StepOfFleet) (unit : ℕ)
        → FollowsFleet units waiting asks script steps → AllHonest (steps_of_unit unit steps) }
{}

/// The end of a fleet comes where nothing of its script is left, and then it comes again.
pub fn the_end_of_a_fleet_is_last()
    ensures last { (s : FleetScene) (p : FleetPlan) → (next_fleet_turn s p).given ≡ All_ended
        → (next_fleet_turn s p).plan ≡ fleet_plan_of [] }
    ensures ended { (s : FleetScene)
        → next_fleet_turn s (fleet_plan_of []) ≡ fleet_turn All_ended Line_is_done [] }
    // So a trace that follows a script hasn't ended before another step than the end.
    ensures not_before { (units : ℕ) (waiting : FleetWaiting) (asks : FleetAsking)
        (script : List FleetLine)
        (s : StepOfFleet) (earlier : List StepOfFleet) → IsBeforeEnd s
        → FollowsFleet units waiting asks script (s ∷ earlier) → HasNotEnded earlier }
{}

/// Steps that can be given follow their own script. So each unit's steps do in a fleet, as those of
/// a single target.
pub fn steps_follow_their_own_script()
    // Whatever lines come after those of the steps, exactly these are left then.
    ensures follows { (waiting : Side → List Step → Bool) (steps : List Step) (later : List Line)
        → AllCanBeGiven steps → FollowsScript waiting (own_script steps ++ later) steps }
    ensures leaves { (waiting : Side → List Step → Bool) (steps : List Step) (later : List Line)
        → AllCanBeGiven steps
        → plan_after waiting (own_script steps ++ later) steps ≡ plan_of later }
    // The line of a happening that can be given gives it.
    ensures gives { (s : Scene) (h : HappeningView) (later : List Line)
        → CanBeGiven s.posted s.happenings h
        → next_turn s (plan_of (lines_giving h ++ later)) ≡ turn h Nothing_left later }
    // In a fleet, before its end and with it.
    ensures each_unit { (units : ℕ) (waiting : FleetWaiting) (asks : FleetAsking)
        (script : List FleetLine)
        (steps : List StepOfFleet) (unit : ℕ)
        → FollowsFleet units waiting asks script steps
        → FollowsScript (waiting unit) (own_script (steps_of_unit unit steps))
        (steps_of_unit unit steps) }
{}

/// What is undelivered in a fleet, unit by unit, is what is undelivered at each.
pub fn what_is_undelivered_is_so_at_its_unit()
    // By the unit's own numbers, in the same order.
    ensures own { (s : FleetScene) (unit : ℕ)
        → numbers_of_unit unit (undelivered_places s.posted s.happenings)
        ≡ undelivered (length (posts_of_unit unit s.posted))
        (happenings_of_unit unit s.happenings) }
    ensures none { (s : FleetScene) (unit : ℕ)
        → undelivered_places s.posted s.happenings ≡ []
        → undelivered (length (posts_of_unit unit s.posted))
        (happenings_of_unit unit s.happenings) ≡ [] }
    // The fleet's least is the least of its unit.
    ensures least { (s : FleetScene) (p : PostPlace) (later : List PostPlace)
        → undelivered_places s.posted s.happenings ≡ p ∷ later
        → undelivered (length (posts_of_unit p.unit s.posted))
        (happenings_of_unit p.unit s.happenings) ≡ p.number ∷ numbers_of_unit p.unit later }
    // So it is given, at its unit as the unit's own script would give its least.
    ensures there { (s : FleetScene) (p : PostPlace) (later : List PostPlace)
        → undelivered_places s.posted s.happenings ≡ p ∷ later
        → (h : HappeningView) × (least_fleet_delivery s ≡ Some (At_unit p.unit h))
        × (least_delivery (unit_scene s p.unit) ≡ Some h) }
{}

/// A fleet's last `finish` is for each unit a `finish` of its own. Of the unit's own script that is
/// all that is left where it begins.
pub fn a_last_finish_is_one_at_each_unit()
    ensures follows { (units : ℕ) (waiting : FleetWaiting) (asks : FleetAsking)
        (script : List FleetLine)
        (before more : List StepOfFleet) (unit : ℕ) → 1 ≤ unit → unit ≤ units
        → FleetFinishIsLeft units waiting asks script before
        → FollowsFleet units waiting asks script (more ++ before)
        → FollowsScript (waiting unit) (own_script (steps_of_unit unit before) ++ Finish ∷ [])
        (steps_of_unit unit (more ++ before)) }
    ensures left { (units : ℕ) (waiting : FleetWaiting) (asks : FleetAsking)
        (script : List FleetLine)
        (before : List StepOfFleet) (unit : ℕ)
        → FleetFinishIsLeft units waiting asks script before
        → FollowsFleet units waiting asks script before
        → plan_after (waiting unit) (own_script (steps_of_unit unit before) ++ Finish ∷ [])
        (steps_of_unit unit before) ≡ plan_of (Finish ∷ []) }
{}

/// Each trace that ended of a fleet's script whose last line is `finish` comes to where that is
/// left, and then each unit's own steps are left to a last `finish` of their own.
pub fn a_last_finish_is_reached()
    // Whatever stands before it in the script, and whatever happens.
    ensures reached { (units : ℕ) (waiting : FleetWaiting) (asks : FleetAsking)
        (script lines : List FleetLine)
        (earlier : List StepOfFleet) → script ≡ lines ++ Finish_all ∷ []
        → FollowsFleet units waiting asks script (Of_all ∷ earlier)
        → ReachesFleetFinish units waiting asks script (Of_all ∷ earlier) }
    // What comes then is what a `finish` gives, before the end of the fleet.
    ensures gives { (units : ℕ) (waiting : FleetWaiting) (asks : FleetAsking)
        (script : List FleetLine)
        (before more : List StepOfFleet) → FleetFinishIsLeft units waiting asks script before
        → FollowsFleet units waiting asks script (more ++ before) → HasNotEnded more
        → AllOfFleetFinish units waiting asks more before }
    ensures each_unit { (units : ℕ) (waiting : FleetWaiting) (asks : FleetAsking)
        (script : List FleetLine)
        (steps : List StepOfFleet) (whole : ReachesFleetFinish units waiting asks script steps)
        → FollowsFleet units waiting asks script steps → (unit : ℕ) → 1 ≤ unit → unit ≤ units
        → IsLeftToOwnFinish (waiting unit) (steps_of_unit unit whole.before)
        (steps_of_unit unit whole.more) (steps_of_unit unit steps) }
{}

/// A fleet's steps are known by the order in which its units stepped and by each unit's own steps.
pub fn a_fleets_steps_are_those_of_its_units()
    // Merged again, they are the same.
    ensures again { (steps : List StepOfFleet) → HasNotEnded steps
        → merged (stepping_order steps) (λ unit. steps_of_unit unit steps) ≡ steps }
    ensures known { (steps others : List StepOfFleet) → HasNotEnded steps → HasNotEnded others
        → stepping_order steps ≡ stepping_order others
        → ((unit : ℕ) → steps_of_unit unit steps ≡ steps_of_unit unit others) → steps ≡ others }
    // Where the order names a unit as often as it has steps, what is merged has all of these.
    ensures own { (order : List Stepped) (own : StepsOfUnits) (unit : ℕ)
        → times_stepped unit order ≡ length (own unit)
        → steps_of_unit unit (merged order own) ≡ own unit }
    // Where it names each so, what is merged has that order.
    ensures order { (order : List Stepped) (own : StepsOfUnits)
        → ((unit : ℕ) → times_stepped unit order ≡ length (own unit))
        → stepping_order (merged order own) ≡ order }
    ensures not_ended { (order : List Stepped) (own : StepsOfUnits)
        → HasNotEnded (merged order own) }
    // One more step at a unit, while the others stay, comes before what was merged.
    ensures one_more { (order : List Stepped) (asked : Bool) (unit : ℕ) (s : Step)
        (before after : StepsOfUnits) → after unit ≡ s ∷ before unit
        → ((whose : ℕ) → whose ≢ unit → after whose ≡ before whose)
        → merged (Unit_stepped asked unit ∷ order) after
        ≡ Of_unit asked unit s ∷ merged order before }
    ensures alike { (order : List Stepped) (own others : StepsOfUnits)
        → ((unit : ℕ) → own unit ≡ others unit) → merged order own ≡ merged order others }
{}

/// What some fleets do: the words of the definitions computed, a clause for each.
pub fn worked_fleets()
    // Lines that come after a happening belong to its step; the end is each unit's.
    ensures steps { fleet_steps_of (fleet_lines.At 2 (lines.Given happenings.TickLoader)
        ∷ fleet_lines.At 2 lines.Down ∷ fleet_lines.At 1 (lines.Given happenings.Boot)
        ∷ fleet_lines.End ∷ [])
        ≡ Of_all ∷ Of_unit false 1 (record { given = Booted; posts = []; notes = [] })
        ∷ Of_unit false 2 (record { given = Ticked sides.Loader; posts = []; notes = Went_down ∷ [] })
        ∷ [] }
    // A step that the line after AskNext begins is one whose upload was asked.
    ensures asked_steps { (part : List ℕ)
        → fleet_steps_of (fleet_lines.Batch part ∷ fleet_lines.AskNext
        ∷ fleet_lines.At 2 (lines.Given happenings.Boot) ∷ fleet_lines.At 2 lines.Down
        ∷ fleet_lines.At 1 (lines.Given happenings.Boot) ∷ [])
        ≡ Of_unit false 1 (record { given = Booted; posts = []; notes = [] })
        ∷ Of_unit true 2 (record { given = Booted; posts = []; notes = Went_down ∷ [] })
        ∷ Of_batch part ∷ [] }
    // What is given there is that an upload is asked, and at the unit it starts.
    ensures asked_given { (hw pos : List ℕ) (parts : List (List ℕ))
        → given_as true 2 (Upload_started hw pos parts) ≡ Next_asked }
    ensures asked_happens { (s : Step) (part : List ℕ)
        → happenings_of_unit 2 (fleet_happenings (Of_unit true 2 s ∷ Of_batch part
        ∷ Of_unit false 1 s ∷ []))
        ≡ s.given ∷ [] }
    ensures own_steps { (s z : Step)
        → steps_of_unit 2 (Of_all ∷ Of_unit false 1 s ∷ Of_unit false 2 z ∷ Of_unit false 1 s ∷ [])
        ≡ ended_step ∷ z ∷ [] }
    ensures orders { (s z : Step)
        → stepping_order (Of_all ∷ Of_unit false 1 s ∷ Of_unit false 2 z ∷ Of_unit false 1 s ∷ [])
        ≡ Unit_stepped false 1 ∷ Unit_stepped false 2 ∷ Unit_stepped false 1 ∷ [] }
    // The newest of each unit's steps stands where the order names it newest; where a unit has none
    // left, nothing does.
    ensures merges { (s z : Step)
        → merged (Unit_stepped false 2 ∷ Batch_came [] ∷ Unit_stepped true 1
        ∷ Unit_stepped false 2 ∷ Unit_stepped false 3 ∷ [])
        (λ unit. if unit == 1 then ended_step ∷ [] else if unit == 2 then s ∷ z ∷ [] else [])
        ≡ Of_unit false 2 s ∷ Of_batch [] ∷ Of_unit true 1 ended_step ∷ Of_unit false 2 z ∷ [] }
    // Each unit counts its own datagrams.
    ensures places { (d : DatagramView)
        → post_places (unit_post 2 d ∷ unit_post 1 d ∷ unit_post 2 d ∷ [])
        ≡ record { unit = 2; number = 1 } ∷ record { unit = 1; number = 1 }
        ∷ record { unit = 2; number = 2 } ∷ [] }
    // `finish` delivers what was posted first, at whichever unit.
    ensures delivers { (d : DatagramView) (waits : ℕ → Side → Bool) → next_fleet_turn (record {
      posted = unit_post 2 d ∷ unit_post 1 d ∷ [];
      happenings = [];
      units = 2;
      waits_at = waits;
      may_ask = false;
    }) (fleet_plan_of (Finish_all ∷ []))
        ≡ fleet_turn (At_unit 2 (Delivered (other d.side) 1)) (Finish_goes_on loaders_first) [] }
    // What was lost is passed over: the fleet's second datagram is the first of its unit.
    ensures passes_lost { (d : DatagramView) (waits : ℕ → Side → Bool) → next_fleet_turn (record {
      posted = unit_post 2 d ∷ unit_post 1 d ∷ [];
      happenings = At_unit 2 (Lost 1) ∷ [];
      units = 2;
      waits_at = waits;
      may_ask = false;
    }) (fleet_plan_of (Finish_all ∷ []))
        ≡ fleet_turn (At_unit 1 (Delivered (other d.side) 1)) (Finish_goes_on loaders_first) [] }
    // Numbers in a script are the fleet's: the third datagram is the second of its unit.
    ensures numbers { (d : DatagramView) (waits : ℕ → Side → Bool) → next_fleet_turn (record {
      posted = unit_post 2 d ∷ unit_post 1 d ∷ unit_post 2 d ∷ [];
      happenings = [];
      units = 2;
      waits_at = waits;
      may_ask = false;
    }) (fleet_plan_of (Lose_numbered 3 ∷ []))
        ≡ fleet_turn (At_unit 2 (Lost 2)) Line_is_done [] }
    ensures gives { (d : DatagramView) (waits : ℕ → Side → Bool) → next_fleet_turn (record {
      posted = unit_post 2 d ∷ unit_post 1 d ∷ [];
      happenings = [];
      units = 2;
      waits_at = waits;
      may_ask = false;
    }) (fleet_plan_of (Give_numbered 2 ∷ []))
        ≡ fleet_turn (At_unit 1 (Delivered (other d.side) 1)) Line_is_done [] }
    // `next 2` leaves one more; where none is left, the next line comes.
    ensures next_of_two { (d : DatagramView) (waits : ℕ → Side → Bool) → next_fleet_turn (record {
      posted = unit_post 2 d ∷ unit_post 1 d ∷ [];
      happenings = [];
      units = 2;
      waits_at = waits;
      may_ask = false;
    }) (fleet_plan_of (Next_of_all 2 ∷ []))
        ≡ fleet_turn (At_unit 2 (Delivered (other d.side) 1)) (Deliveries_left 1) [] }
    ensures next_is_done { (d : DatagramView) (waits : ℕ → Side → Bool) → next_fleet_turn (record {
      posted = unit_post 2 d ∷ unit_post 1 d ∷ [];
      happenings = [];
      units = 2;
      waits_at = waits;
      may_ask = false;
    }) (record { rest = Deliveries_left 0; lines = Line_at 1 Boot ∷ [] })
        ≡ fleet_turn (At_unit 1 Booted) Line_is_done [] }
    // The least unit that has a side that waits is ticked, first its loader and then its target;
    // the others' turns stand still.
    ensures ticks_loader { next_fleet_turn (record {
      posted = [];
      happenings = [];
      units = 3;
      waits_at = λ unit side. not (unit == 1);
      may_ask = false;
    }) (fleet_plan_of (Finish_all ∷ []))
        ≡ fleet_turn (At_unit 2 (Ticked sides.Loader)) (Finish_goes_on (turn_passed loaders_first
        (record { unit = 2; side = sides.Loader }))) [] }
    ensures ticks_target { (next_fleet_turn (record {
      posted = [];
      happenings = [];
      units = 3;
      waits_at = λ unit side. not (unit == 1);
      may_ask = false;
    }) (record {
      rest = Finish_goes_on (turn_passed loaders_first
          (record { unit = 2; side = sides.Loader }));
      lines = [];
    })).given
        ≡ At_unit 2 (Ticked sides.Target) }
    ensures ticks_other_unit { (next_fleet_turn (record {
      posted = [];
      happenings = [];
      units = 3;
      waits_at = λ unit side. unit == 3;
      may_ask = false;
    }) (record {
      rest = Finish_goes_on (turn_passed loaders_first
          (record { unit = 2; side = sides.Loader }));
      lines = [];
    })).given
        ≡ At_unit 3 (Ticked sides.Loader) }
    // Where no side waits and nothing is undelivered, it is over.
    ensures over { next_fleet_turn (record {
      posted = [];
      happenings = [];
      units = 3;
      waits_at = λ unit side. unit == 4;
      may_ask = false;
    }) (fleet_plan_of (Finish_all ∷ []))
        ≡ fleet_turn All_ended Line_is_done [] }
    // `asknext` asks where it may, and else the next line comes.
    ensures asks { (waits : ℕ → Side → Bool) → next_fleet_turn (record {
      posted = [];
      happenings = [];
      units = 2;
      waits_at = waits;
      may_ask = true;
    }) (fleet_plan_of (Ask_next ∷ []))
        ≡ fleet_turn Next_asked Line_is_done [] }
    ensures asks_not { (part : List ℕ) (waits : ℕ → Side → Bool) → next_fleet_turn (record {
      posted = [];
      happenings = [];
      units = 2;
      waits_at = waits;
      may_ask = false;
    }) (fleet_plan_of (Ask_next ∷ Begin_batch part ∷ []))
        ≡ fleet_turn (Batch_begun part) Line_is_done [] }
    // `finishbatch` asks first, and finishes then; where its `finish` gives nothing it asks again.
    ensures finishes_batch { (waits : ℕ → Side → Bool) → next_fleet_turn (record {
      posted = [];
      happenings = [];
      units = 2;
      waits_at = waits;
      may_ask = true;
    }) (fleet_plan_of (Finish_batch ∷ []))
        ≡ fleet_turn Next_asked (Batch_finishes loaders_first) [] }
    ensures delivers_first { (d : DatagramView) (waits : ℕ → Side → Bool)
        → next_fleet_turn (record {
          posted = unit_post 2 d ∷ [];
          happenings = [];
          units = 2;
          waits_at = waits;
          may_ask = true;
        }) (record { rest = Batch_finishes loaders_first; lines = [] })
        ≡ fleet_turn (At_unit 2 (Delivered (other d.side) 1)) (Batch_finishes loaders_first) [] }
    ensures asks_again { next_fleet_turn (record {
      posted = [];
      happenings = [];
      units = 2;
      waits_at = λ unit side. false;
      may_ask = true;
    }) (record { rest = Batch_finishes loaders_first; lines = [] })
        ≡ fleet_turn Next_asked (Batch_finishes loaders_first) [] }
    // It runs no `finish` where nothing may be asked.
    ensures batch_over { (d : DatagramView) (waits : ℕ → Side → Bool) → next_fleet_turn (record {
      posted = unit_post 2 d ∷ [];
      happenings = [];
      units = 2;
      waits_at = waits;
      may_ask = false;
    }) (fleet_plan_of (Finish_batch ∷ []))
        ≡ fleet_turn All_ended Line_is_done [] }
{}
