//! What holds of each `finish`. These functions do nothing; their clauses are the law.
ghost use Rattle.finish_ends.specs.Finishes.{FinishEnds, FinishLeavesQuiet, ScriptGivesFinish};
ghost use Rattle.finish_ends.specs.Scripts.{FinishPassesOn, ScriptsEnd, TracesAreBounded};

use crc_fields::check_sum_laws;

/// Each `finish` ends, whatever came before it: it has no more than 183,503,421,556 happenings, and
/// two for each datagram that is undelivered as it begins.
pub fn every_finish_ends()
    ensures ends { FinishEnds }
    // What a script's `finish` gives is such a happening.
    ensures given { ScriptGivesFinish }
    // Where it gives nothing more, the run is quiet.
    ensures quiet { FinishLeavesQuiet }
{
    check_sum_laws();
}

/// So each script comes to its end, after no more happenings than can be computed from its lines
/// alone.
pub fn every_script_ends()
    // Each `finish` passes on to the lines after it.
    ensures passes { FinishPassesOn }
    ensures ends { ScriptsEnd }
    // So the trace of a whole run is no longer than that, with the end.
    ensures bounded { TracesAreBounded }
{
    check_sum_laws();
    every_finish_ends();
}
