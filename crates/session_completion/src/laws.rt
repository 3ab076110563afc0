//! What holds of uploads in which nothing is lost, and of runs that stand where these stand. These
//! functions do nothing; their clauses are the law.
ghost use Rattle.session_completion.specs.FaultFreeRuns.{FaultFreeGivesNoneUp};
ghost use Rattle.session_completion.specs.FaultFreeRuns.{FaultFreeRunsComplete};
ghost use Rattle.session_completion.specs.FaultFreeRuns.{FaultFreeRunsLead, QuietIsIdle};
ghost use Rattle.session_completion.specs.Finish.{UploadFinishEnds};
ghost use Rattle.session_completion.specs.FinishedRuns.{FinishAloneIsLeft, FinishCompletes};
ghost use Rattle.session_completion.specs.FinishedRuns.{FinishLeavesPower, LastFinishIsReached};
ghost use Rattle.session_completion.specs.GoodRequests.{GoodLoadsLeadOn, UploadRequestsAreRead};
ghost use Rattle.session_completion.specs.GoodUploads.{GoodUploadsComplete};
ghost use Rattle.session_completion.specs.Laws.{AllComeOut, FewAreAhead, LastIsDone};
ghost use Rattle.session_completion.specs.Laws.{LastWasPosted, NextComesAgain, NextMoves};
ghost use Rattle.session_completion.specs.Laws.{OldIsHarmless, TwoAreQuiet};
ghost use Rattle.session_completion.specs.Retries.{LoaderDoesTheSame, TargetDoesTheSame};
ghost use Rattle.session_completion.specs.Safety.{DeliveringIsSafe, TellingIsSafe, TickingIsSafe};

use crc_fields::check_sum_laws;
use load_header::header_laws;
use load_protocol_files::protocol_file_laws;
use replay_rules::laws::{
    a_completed_upload_is_installed, a_step_keeps_the_tie, ports_stay_apart,
    the_configuration_changes_by_good_verdicts, what_is_installed_is_of_the_media_set,
};

/// But for ticks, both ends do and post the same whatever their retries are.
pub fn retries_matter_at_ticks_alone()
    ensures loader { LoaderDoesTheSame }
    ensures target { TargetDoesTheSame }
{}

/// A clean upload is one whose rows go well and whose datagrams are delivered in the order of their
/// posts, each once. Datagram after datagram it comes to its end, where it is completed and its
/// loads are installed.
pub fn a_clean_upload_comes_to_its_end()
    // Only the next datagram moves an end, and it does so whatever the retries are.
    ensures old { OldIsHarmless }
    ensures moves { NextMoves }
    // Where it was lost, a tick at one of the ends brings it again, and no tick posts what wasn't
    // posted.
    ensures again { NextComesAgain }
    ensures last { LastWasPosted }
    // At most two are ahead, of which the first is answered by nothing.
    ensures few { FewAreAhead }
    ensures two { TwoAreQuiet }
    // The end comes, and then the upload is done.
    ensures come_out { AllComeOut }
    ensures done { LastIsDone }
{
    check_sum_laws();
}

/// A run stands where a clean upload stands, but for its retries, whatever is delivered, lost,
/// repeated or late, and whatever is ticked before an end gives up. A loss changes neither end.
pub fn a_run_stands_where_a_clean_one_stands()
    ensures delivered { DeliveringIsSafe }
    ensures ticked { TickingIsSafe }
    ensures told { TellingIsSafe }
{
    check_sum_laws();
}

/// Each run within the margin that stands where a clean upload stands comes to an end, whatever is
/// undelivered: deliveries in their order and ticks in turn lead to where the upload is completed
/// and its loads are installed.
pub fn finish_comes_to_an_end()
    ensures { UploadFinishEnds }
{
    check_sum_laws();
}

/// The rows of an upload of good loads go well.
pub fn good_uploads_go_well()
    // Its protocol files can be exchanged, and each end reads in them what the other wrote.
    ensures read { UploadRequestsAreRead }
    // Row after row it goes on to its last, with as many transfers as there are ports for.
    ensures lead_on { GoodLoadsLeadOn }
{
    check_sum_laws();
    header_laws();
    protocol_file_laws();
}

/// An upload of good loads that was started where both ends were idle is completed by a `finish`,
/// whatever was lost of it, repeated or late, if no end gave up and both are within the margin.
pub fn good_uploads_complete()
    ensures { GoodUploadsComplete }
{
    good_uploads_go_well();
    a_run_stands_where_a_clean_one_stands();
    finish_comes_to_an_end();
}

/// A fault-free run is such an upload, step by step, and within the margin a `finish` of both ends
/// and of what was posted completes it.
pub fn fault_free_runs_complete()
    ensures none_given_up { FaultFreeGivesNoneUp }
    // From the world that its last start found to that of its last step.
    ensures lead { FaultFreeRunsLead }
    // A quiet run leaves both ends idle.
    ensures idle { QuietIsIdle }
    ensures complete { FaultFreeRunsComplete }
{
    check_sum_laws();
    a_step_keeps_the_tie();
    ports_stay_apart();
    the_configuration_changes_by_good_verdicts();
    good_uploads_complete();
}

/// A last `finish` is left where its turn comes next: lines before it that give nothing are passed
/// over.
pub fn a_last_finish_is_left()
    ensures alone { FinishAloneIsLeft }
    // Whatever stands before it in the script, and whatever happens.
    ensures reached { LastFinishIsReached }
    // Then power is neither lost nor switched, so that only its disk brings a target down.
    ensures power { FinishLeavesPower }
{}

/// So a fault-free run completes that is left to a script's last `finish`: what a `finish` gives is
/// that of both ends and of what was posted. The upload is completed, the run is quiet, and on the
/// target are the loads that were asked for, with the bytes of the media set's files, and then
/// those that are kept of what was active before.
pub fn a_run_left_to_finish_completes()
    ensures { FinishCompletes }
{
    a_step_keeps_the_tie();
    what_is_installed_is_of_the_media_set();
    a_completed_upload_is_installed();
    the_configuration_changes_by_good_verdicts();
    fault_free_runs_complete();
}
