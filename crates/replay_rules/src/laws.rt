//! What ties both ends to the trace. These functions do nothing; their clauses are the law.
ghost use Rattle.replay_rules.specs.AskedTraces.{InstallsAreAsked};
ghost use Rattle.replay_rules.specs.CameTraces.{BothTakeWhatCame, DueIsAcked};
ghost use Rattle.replay_rules.specs.Causes.{DenialsAreForSequence, FilesAreGood};
ghost use Rattle.replay_rules.specs.Causes.{SessionsEndInSteps, StopsAreForVerdicts};
ghost use Rattle.replay_rules.specs.Changes.{ChangesAreNew, InstallsAreGood};
ghost use Rattle.replay_rules.specs.ContentTraces.{ContentsFollowTraces};
ghost use Rattle.replay_rules.specs.CompletedTraces.{CompletedWasBrought, TargetTellsInTime};
ghost use Rattle.replay_rules.specs.FirstOrGood.{ActiveIsFirstOrGood};
ghost use Rattle.replay_rules.specs.FirstPostTraces.{LoaderPostsInOrder, TargetPostsInOrder};
ghost use Rattle.replay_rules.specs.ListTraces.{CompletedListsActive, TargetWritesInTime};
ghost use Rattle.replay_rules.specs.MediaTraces.{InstallsAreOfMedia};
ghost use Rattle.replay_rules.specs.Outcomes.{OutcomesHaveCauses};
ghost use Rattle.replay_rules.specs.OtherEndTraces.{LoaderGivesMedia, WhatArrivesWasSent};
ghost use Rattle.replay_rules.specs.OwnSessionTraces.{CompletedInSession, CompletedStays};
ghost use Rattle.replay_rules.specs.PlacedTraces.{DueIsPlaced, DueIsTwoAtMost, PortsRise};
ghost use Rattle.replay_rules.specs.PortTraces.{PortsStayApart};
ghost use Rattle.replay_rules.specs.Ties.{StepKeepsTie};

use crc_fields::check_sum_laws;
use load_header::header_laws;
use load_protocol_files::protocol_file_laws;
use tftp_packet::packet_laws;
use transfer_end::laws::{blocks_are_first_posted_in_order, what_comes_was_sent};

/// Where each end does what its rules say in a step, what it keeps is what the trace says of it,
/// and all that was posted was due.
pub fn a_step_keeps_the_tie()
    ensures { StepKeepsTie }
{
    check_sum_laws();
}

/// After the steps of every trace, what there is at a target that is up, with all contents, is what
/// it keeps the view of, and changes with each event as the target decides.
pub fn contents_follow_their_trace()
    ensures { ContentsFollowTraces }
{
    check_sum_laws();
}

/// In a trace in which all that was posted was due, datagrams go where they may, at most two a
/// step, and own ports rise.
pub fn datagrams_of_a_trace()
    ensures placed { DueIsPlaced }
    ensures two { DueIsTwoAtMost }
    ensures ports { PortsRise }
{}

/// At every moment of a trace, the packets of each transfer of both sides came from its other end.
/// An acknowledgement of a block is posted, first or again, only after that block came as DATA.
pub fn what_was_taken_came()
    ensures taken { BothTakeWhatCame }
    ensures acknowledged { DueIsAcked }
{}

/// Whatever is delivered, lost, repeated, reordered or delayed in a run, and wherever power fails,
/// where nothing is injected what arrives in a transfer is what its other end sent: that is the
/// transfer of the other side with its other port, in whichever life of the target; each block is
/// that block of its file, and what was received whole is the file.
pub fn what_arrives_was_sent()
    ensures sent { WhatArrivesWasSent }
    // Each file that the loader gives is the media set's file of its name.
    ensures media { LoaderGivesMedia }
{
    check_sum_laws();
    what_comes_was_sent();
}

/// Where nothing is injected, the port that a side draws next is at every moment above port 59,
/// above the other side's mark and above the port of its own kept transfer.
pub fn ports_stay_apart()
    ensures { PortsStayApart }
{
    check_sum_laws();
    what_comes_was_sent();
}

/// In each transfer in which a side sends a file, what it posts in a trace from its own port is,
/// ticks aside, its request or OACK and then blocks 1, 2, 3 .. of the file, each once.
pub fn blocks_of_a_trace_are_first_posted_in_order()
    ensures loader { LoaderPostsInOrder }
    ensures target { TargetPostsInOrder }
{
    check_sum_laws();
    blocks_are_first_posted_in_order();
}

/// Where nothing is injected, each file of each configuration that an install step brings is the
/// media set's file of its name, through losses, repeats, other orders, power losses and boots.
pub fn what_is_installed_is_of_the_media_set()
    ensures { InstallsAreOfMedia }
{
    check_sum_laws();
    header_laws();
    packet_laws();
    protocol_file_laws();
    what_comes_was_sent();
}

/// A completed information session lists exactly what was active before the step since its start
/// that made the list of a session of the target due, through losses, repeats, other orders, power
/// losses and boots, where nothing is injected, the target's file names are names, and what is
/// active can be listed.
pub fn a_completed_session_lists_what_was_active()
    // Whatever comes, a target writes only lists of what was active when they became due.
    ensures written { TargetWritesInTime }
    ensures lists { CompletedListsActive }
{
    check_sum_laws();
    protocol_file_laws();
    what_comes_was_sent();
}

/// Each upload is completed only in or after a step in which the target installed and stayed up,
/// through losses, repeats, other orders, power losses and boots, where nothing is injected.
pub fn an_upload_is_completed_after_a_step_that_installed()
    // Whatever comes, a target sends a file that says so only after such a step.
    ensures told { TargetTellsInTime }
    ensures brought { CompletedWasBrought }
{
    check_sum_laws();
    packet_laws();
    protocol_file_laws();
    what_comes_was_sent();
}

/// Where nothing is injected and the media set's entries can be told in a request, each
/// configuration that an install step brings has the parts, in their order, of some start of an
/// upload before it. An upload is completed only where such a step came in its own session, after
/// its start: it brought exactly the parts of that start, and the target stayed up in it. What it
/// brought stays in the history of the run, and no earlier member is active at its end.
pub fn a_completed_upload_is_installed()
    ensures asked { InstallsAreAsked }
    ensures installed { CompletedInSession }
    ensures stays { CompletedStays }
{
    check_sum_laws();
    header_laws();
    packet_laws();
    protocol_file_laws();
    what_comes_was_sent();
}

/// Whatever is delivered, lost, repeated, reordered, delayed or injected in a run, and wherever
/// power fails, the configuration changes by good verdicts alone: each is the new configuration of
/// what its session asked for and read, made of loads that are good for the target, and of those
/// that are kept. So whatever may be active at a moment was active at the start, or each of its
/// loads was or is checked, and one at least is checked.
pub fn the_configuration_changes_by_good_verdicts()
    ensures changes { ChangesAreNew }
    ensures good { InstallsAreGood }
    ensures active { ActiveIsFirstOrGood }
{
    check_sum_laws();
    header_laws();
    packet_laws();
}

/// Each session whose outcome comes from a file ended in a step of the run, once those before it
/// had, whatever comes.
pub fn sessions_end_in_steps()
    ensures { SessionsEndInSteps }
{}

/// Each session that ends in a step of a run comes to its outcome by its cause, whatever comes: by
/// a file that arrived whole, an ERROR, a tick after five retries, a start, the parts of its own
/// start, or since no port was left.
pub fn each_session_ends_by_its_cause()
    ensures { OutcomesHaveCauses }
{}

/// Where nothing is injected, a session is denied only where no sequence number is left after that
/// of the active configuration, and stopped by the target only for a reason that the verdict of the
/// session of the target that it began gave since its own start, with its numbers: through losses,
/// repeats, other orders, power losses and boots.
pub fn outcomes_have_their_causes()
    ensures denied { DenialsAreForSequence }
    ensures stopped { StopsAreForVerdicts }
    // And none ends by a file that isn't in its format, is too long or has another status.
    ensures files { FilesAreGood }
{
    check_sum_laws();
    header_laws();
    packet_laws();
    protocol_file_laws();
    the_configuration_changes_by_good_verdicts();
    what_arrives_was_sent();
    what_comes_was_sent();
}
