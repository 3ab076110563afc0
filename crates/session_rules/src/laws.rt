//! What holds of both sides and their logs. These functions do nothing; their clauses are the law.
ghost use Rattle.session_rules.specs.Completions.{CompletedUploadArrived, TargetTellsInstalled};
ghost use Rattle.session_rules.specs.Contents.{ContentsAreKept, ContentsFollow};
ghost use Rattle.session_rules.specs.Fairness.{LoaderGivesMediaFiles, LoaderMovesFit};
ghost use Rattle.session_rules.specs.Fairness.{LoaderStaysFair, TargetMovesFit, TargetStaysFair};
ghost use Rattle.session_rules.specs.FirstPosts.{LoaderBlocksInOrder, TargetBlocksInOrder};
ghost use Rattle.session_rules.specs.FirstPosts.{TicksRepeat};
ghost use Rattle.session_rules.specs.Installations.{InstalledAreChecked, InstalledHaveTypes};
ghost use Rattle.session_rules.specs.KeptExamples.{KeptAre, NeedsAre, RefusedAre};
ghost use Rattle.session_rules.specs.Laws.{AllArePlaced, LoaderAcksWhatCame, LoaderFollows};
ghost use Rattle.session_rules.specs.Laws.{LoaderTakesWhatCame, LogsCountUp, TargetAcksWhatCame};
ghost use Rattle.session_rules.specs.Laws.{TargetFollows, TargetTakesWhatCame, TwoAtMost};
ghost use Rattle.session_rules.specs.Lists.{TargetAsksForItsFiles, TargetAsksInTurn};
ghost use Rattle.session_rules.specs.LoaderRoles.{CompletedListsArrived, LoaderRolesFit};
ghost use Rattle.session_rules.specs.OwnSessions.{SessionsAreOfNewestStarts};
ghost use Rattle.session_rules.specs.Requests.{LoaderWritesRequests};
ghost use Rattle.session_rules.specs.SessionRows.{RowsAreOfAllTransfers};
ghost use Rattle.session_rules.specs.Sessions.{OneSessionAStart};
ghost use Rattle.session_rules.specs.Soundness.{VerdictIsSound};
ghost use Rattle.session_rules.specs.SoundLogs.{ChangesByVerdict};

use crc_fields::check_sum_laws;
use load_header::header_laws;
use tftp_packet::packet_laws;
use transfer_end::laws::{blocks_are_first_posted_in_order, what_comes_was_sent};

/// What each end keeps is what is kept of its log, event by event, whatever bytes come from
/// whatever ports. So what it posts, which follows from what it keeps, follows from the log.
pub fn both_ends_follow_their_logs()
    ensures loader { LoaderFollows }
    ensures target { TargetFollows }
{
    check_sum_laws();
}

/// What there is at a target with all contents, by its log, is what it keeps the view of, and
/// changes with each event as the target decides.
pub fn contents_follow_their_log()
    ensures kept { ContentsAreKept }
    ensures follow { ContentsFollow }
{
    check_sum_laws();
}

/// Each transfer of a session keeps its row sound: where the verdict is good, what will be
/// installed is made of exactly what was asked for and read, and each of its loads is good.
pub fn a_good_verdict_is_sound()
    ensures { VerdictIsSound }
{
    check_sum_laws();
    header_laws();
}

/// Whatever comes to a target, what is active stays, or becomes the new configuration of a good
/// verdict: one load for each that was asked for, made of exactly the files that were read, each
/// good.
pub fn the_configuration_changes_by_a_good_verdict()
    ensures { ChangesByVerdict }
{
    check_sum_laws();
    header_laws();
    packet_laws();
}

/// Where datagrams go, how many at once, and from which ports they come.
pub fn datagrams_go_where_they_may()
    ensures placed { AllArePlaced }
    ensures two { TwoAtMost }
    ensures ports { LogsCountUp }
{}

/// What is in a transfer came from its other end, and a block that was taken came as DATA before it
/// is acknowledged, in all logs of both sides.
pub fn what_was_taken_came()
    ensures loader { LoaderTakesWhatCame }
    ensures target { TargetTakesWhatCame }
{}

/// A block is acknowledged only after it came as DATA, from where the acknowledgement goes, in all
/// logs of both sides.
pub fn what_is_acknowledged_came()
    ensures loader { LoaderAcksWhatCame }
    ensures target { TargetAcksWhatCame }
{}

/// The loader has one session for each start, in the order of the starts: the newest is live, or
/// over like all others.
pub fn one_session_for_each_start()
    ensures { OneSessionAStart }
{}

/// Whatever reaches a side, it gets only the packet that came, serves only a request that came, and
/// asks for the files of its operations. So where the other side posted what comes, both sides stay
/// as `transfer_end::laws::what_comes_was_sent` asks. `proofs/FairLemmas.antt` says the same to
/// proofs.
pub fn both_sides_stay_fair()
    ensures loader_moves { LoaderMovesFit }
    ensures target_moves { TargetMovesFit }
    ensures loader { LoaderStaysFair }
    ensures target { TargetStaysFair }
    // Each file that the loader gives is the media set's file of its name.
    ensures media { LoaderGivesMediaFiles }
{
    what_comes_was_sent();
}

/// In each transfer of each log in which a side sends a file, the datagrams that it posts from its
/// own port, ticks aside, are its request or OACK, if it has one, and then blocks 1, 2, 3 .. of the
/// file in their order, each once (RFC 1350, section 2). At a tick it posts what it posted last.
pub fn both_sides_first_post_blocks_in_order()
    ensures loader { LoaderBlocksInOrder }
    // Since it came up.
    ensures target { TargetBlocksInOrder }
    ensures ticks { TicksRepeat }
{
    check_sum_laws();
    blocks_are_first_posted_in_order();
}

/// In a row in which the loader takes a file of one kind, the transfer that is live is of that
/// file. A completed information session lists what the LCL says that arrived whole in the transfer
/// that completed it.
pub fn a_completed_session_lists_what_arrived()
    ensures roles { LoaderRolesFit }
    ensures listed { CompletedListsArrived }
{}

/// A target asks only for what the row asks for to which its session turns. Each file that it asks
/// to write is one of its own, and its list is of what is active as it becomes due.
pub fn a_target_asks_for_its_files()
    ensures in_turn { TargetAsksInTurn }
    ensures files { TargetAsksForItsFiles }
{
    check_sum_laws();
}

/// An upload is completed by an LUS that arrived whole and says so. Whatever reaches a target, it
/// begins to send a file that says so only as it installs.
pub fn an_upload_is_completed_by_its_last_status()
    ensures arrived { CompletedUploadArrived }
    ensures told { TargetTellsInstalled }
{
    check_sum_laws();
}

/// Each file that the loader writes in a log is the request for the media set's entries of the
/// parts of an upload that was started, 32 at most.
pub fn a_loader_writes_requests()
    ensures { LoaderWritesRequests }
{}

/// The loader's live session is that of the newest start in its log, what is over since then are
/// its own transfers, and once it serves files it has written the request for its start's loads.
pub fn a_session_is_of_the_newest_start()
    ensures { SessionsAreOfNewestStarts }
{}

/// In each log of a target the live session's row is what all its transfers come to, one after the
/// other, beside what was active as it began.
pub fn a_row_is_that_of_all_transfers()
    ensures { RowsAreOfAllTransfers }
{}

/// Loads that an upload keeps were good once, beside what was kept then. What stays of that is that
/// each is checked, and has a type id, so that a manifest that is written has one of each.
pub fn an_installation_keeps_loads_checked()
    ensures checked { InstalledAreChecked }
    ensures types { InstalledHaveTypes }
{}

/// What is kept, and what it changes at the tests on a header, in worked uploads.
pub fn what_is_kept_is_worked_out()
    ensures needs { NeedsAre }
    ensures kept { KeptAre }
    ensures refused { RefusedAre }
{}
