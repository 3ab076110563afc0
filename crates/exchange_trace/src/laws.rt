//! Laws of traces and scripts, for callers and readers. Each function does nothing; its clauses are
//! the law.
ghost use Rattle.std.specs.Prelude.{◌≡◌, ◌↔◌, ◌≤◌, ◌+◌, ◌++◌, ◌∷◌, [], ℕ, List, Bool, filter};
ghost use Rattle.std.specs.Prelude.{codes, None, Ok, Err};
ghost use Rattle.std.specs.List.{Contains, range_with_len};
ghost use Rattle.std.specs.List.Sorted.{IsStrictlyIncreasing};
ghost use Rattle.exchange_trace.specs.declared.trace.Side.{Side};
ghost use Rattle.exchange_trace.specs.Happenings.{HappeningView, Ended};
ghost use Rattle.exchange_trace.specs.Following.{FollowsScript, Plan, Scene, next_turn, plan_of};
ghost use Rattle.exchange_trace.specs.declared.fault.ScriptFault.TheVariants as faults;
ghost use Rattle.exchange_trace.specs.declared.trace.Side.TheVariants as sides;
ghost use Rattle.exchange_trace.specs.Lines.{Line, Info, Upload, Lose, Tick, Inject, Power};
ghost use Rattle.exchange_trace.specs.Lines.{Boot, Blksize, Finish};
ghost use Rattle.exchange_trace.specs.Posts.{AllHonest, IsAboveOwnPorts, IsHonest, IsUndelivered};
ghost use Rattle.exchange_trace.specs.Posts.{NamesOnlyPosted, first_port_after, is_undelivered};
ghost use Rattle.exchange_trace.specs.Posts.{posted_in, undelivered};
ghost use Rattle.exchange_trace.specs.Scripts.{script_said};
ghost use Rattle.text_words.specs.Words.{lines};
ghost use Rattle.exchange_trace.specs.Steps.{Step};

/// Which datagrams are undelivered, and how that changes. `proofs/PostLemmas.antt` says the same to
/// proofs.
pub fn undelivered_datagrams()
    // Exactly those that were posted, and neither delivered nor lost, in ascending order.
    ensures exact { (count : ℕ) (happenings : List HappeningView) (n : ℕ)
        → Contains (undelivered count happenings) n ↔ IsUndelivered count happenings n }
    ensures ascending { (count : ℕ) (happenings : List HappeningView)
        → IsStrictlyIncreasing (undelivered count happenings) }
    // A happening takes away the one that it delivers or loses; what is posted is undelivered.
    ensures shrinks { (count : ℕ) (h : HappeningView) (happenings : List HappeningView)
        → undelivered count (h ∷ happenings)
        ≡ filter (is_undelivered (h ∷ [])) (undelivered count happenings) }
    ensures grows { (count more : ℕ) (happenings : List HappeningView)
        → NamesOnlyPosted count happenings
        → undelivered (count + more) happenings
        ≡ undelivered count happenings ++ range_with_len (count + 1) more }
{}

/// The first port of a target that boots is the least one from 1024 on that is above each port, 59
/// aside, from which the target posted.
pub fn the_first_port_after_a_boot()
    ensures from_1024 { (steps : List Step) → 1024 ≤ first_port_after steps }
    ensures above { (steps : List Step)
        → IsAboveOwnPorts (posted_in steps) (first_port_after steps) }
    ensures least { (steps : List Step) (port : ℕ) → 1024 ≤ port
        → IsAboveOwnPorts (posted_in steps) port → first_port_after steps ≤ port }
{}

/// A script that is followed delivers only what was posted to that side, and ends only where
/// nothing of it is left; after the end comes the end again.
pub fn following_a_script()
    ensures honest { (s : Scene) (p : Plan) → IsHonest s.posted (next_turn s p).given }
    ensures all_honest { (waiting : Side → List Step → Bool) (script : List Line)
        (steps : List Step)
        → FollowsScript waiting script steps → AllHonest steps }
    ensures last { (s : Scene) (p : Plan) → (next_turn s p).given ≡ Ended
        → (next_turn s p).plan ≡ plan_of [] }
    ensures ended { (s : Scene) → (next_turn s (plan_of [])).given ≡ Ended }
{}

/// What some scripts say, and how some are refused: the words of the definitions computed
/// (docs/FORMATS.md, "Script"), a clause for each script.
pub fn worked_scripts()
    // Lines that are empty or begin with `#` say nothing, and are counted.
    ensures information { script_said (lines (codes "info HW1 L" ∷ codes "# late" ∷ codes "lose 3"
        ∷ codes "tick loader" ∷ codes "finish" ∷ [] ∷ []))
        ≡ Ok (Info (codes "HW1") (codes "L") ∷ Lose 3 ∷ Tick sides.Loader ∷ Finish ∷ []) }
    ensures nothing { script_said [] ≡ Ok [] }
    // The first line that is wrong, and the first word that is wrong in it.
    ensures unknown_word { script_said (lines (codes "next 2" ∷ [] ∷ codes "frob" ∷ []))
        ≡ Err (faults.Word 3) }
    ensures unknown_side { script_said (codes "tick moon") ≡ Err (faults.Word 1) }
    ensures few_words { script_said (codes "info HW1") ≡ Err (faults.Word 1) }
    ensures no_number { script_said (codes "give ") ≡ Err (faults.Number 1) }
    ensures no_datagram { script_said (codes "give 0") ≡ Err (faults.Number 1) }
    ensures leading_zero { script_said (codes "next 01") ≡ Err (faults.Number 1) }
    ensures no_ident { script_said (codes "info hw1 L") ≡ Err (faults.Name 1) }
    ensures no_part { script_said (codes "upload HW1 L ABC41-0000-000") ≡ Err (faults.Name 1) }
    ensures no_parts { script_said (codes "upload HW1 L") ≡ Err (faults.Word 1) }
    ensures no_bytes { script_said (codes "inject loader 1 2 000") ≡ Err (faults.Hex 1) }
    ensures no_size { script_said (codes "blksize 7") ≡ Err (faults.Number 1) }
    ensures many_words { script_said (codes "boot 1") ≡ Err (faults.Word 1) }
    ensures no_call { script_said (codes "power 4294967296 0") ≡ Err (faults.Number 1) }
    // An injected datagram seems to come from the side that doesn't get it; hexadecimal digits are
    // of either case.
    ensures injection { script_said (codes "inject target 40000 59 0004fF00")
        ≡ Ok (Inject (record {
          side = sides.Loader;
          from = 40000;
          to = 59;
          bytes = 0 ∷ 4 ∷ 255 ∷ 0 ∷ [];
        }) ∷ []) }
    ensures upload_of_two { script_said (codes "upload HW1 L ABC41-0000-0001 ABC42-0000-0002")
        ≡ Ok (Upload (codes "HW1") (codes "L")
        (codes "ABC41-0000-0001" ∷ codes "ABC42-0000-0002" ∷ []) ∷ []) }
    ensures no_option { script_said (codes "blksize 0") ≡ Ok (Blksize None ∷ []) }
    ensures power_loss { script_said (lines (codes "power 0 4294967295" ∷ codes "boot" ∷ []))
        ≡ Ok (Power 0 4294967295 ∷ Boot ∷ []) }
{}
