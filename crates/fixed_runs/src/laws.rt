//! What the steps of a run are. The function does nothing; its clauses are the law.
ghost use Rattle.fixed_runs.specs.FixedRuns.{ActiveIsFixed, EachStepIsNext, TargetStaysUp};
ghost use Rattle.fixed_runs.specs.FixedRuns.{TwoRunsAreOne, WholeRunsAreFixed};

use finish_ends::laws::every_script_ends;

/// Where the target never goes down and each boot brings it up, a run is a function of its script,
/// the media set, the interlock and the configuration at its start: what happens, what is posted
/// and what is noted, step by step, and what is active at the end.
pub fn a_run_is_fixed_by_its_script()
    // Each step is the one that the script, both sides' rules and the steps before it give.
    ensures next { EachStepIsNext }
    ensures up { TargetStaysUp }
    // So the steps of a whole run are those that can be computed from its script,
    ensures whole { WholeRunsAreFixed }
    // two whole runs of one script have the same steps,
    ensures same { TwoRunsAreOne }
    // and what is recovered at the end of one, of what was active in it, is fixed too.
    ensures active { ActiveIsFixed }
{
    every_script_ends();
}
