//! What holds of a run that came to its end. These functions do nothing; their clauses are the law.
ghost use Rattle.run_promises.specs.Listing.{WhatFitsCanBeListed, WhatFitsNamesItsFiles};
ghost use Rattle.run_promises.specs.Listing.{WhatIsActiveCanBeListed, WhatIsHeldFits};
ghost use Rattle.run_promises.specs.Promises.{RunsKeepPromises};
ghost use Rattle.run_promises.specs.Reports.{ReportsAreTrue};
ghost use Rattle.run_promises.specs.TellableSets.{SetsCanBeTold};

use crc_fields::check_sum_laws;
use finish_ends::laws::every_script_ends;
use load_header::header_laws;
use load_protocol_files::protocol_file_laws;
use media_lists::loads_list_laws;
use replay_rules::laws::{
    a_completed_session_lists_what_was_active, a_completed_upload_is_installed,
    each_session_ends_by_its_cause, outcomes_have_their_causes, sessions_end_in_steps,
    the_configuration_changes_by_good_verdicts, what_is_installed_is_of_the_media_set,
};
use session_completion::laws::a_run_left_to_finish_completes;
use tftp_packet::packet_laws;

/// Whatever is delivered, lost, repeated, reordered, delayed or injected in a run, and wherever
/// power fails: from the step in which a target posts the request of the LUS which says that all is
/// installed, and as long as it sends that file, nothing may be active but the configuration that
/// its own session brought, in this step or in one before, of exactly the loads that were asked
/// for, and of those that were kept.
pub fn what_a_target_reports_is_installed()
    ensures { ReportsAreTrue }
{
    check_sum_laws();
    the_configuration_changes_by_good_verdicts();
}

/// Whatever configuration an image holds, its identity has Idents and its loads are those of a
/// manifest. So the protocol files of its target have names, and it can be listed in an
/// information operation.
pub fn what_a_disk_holds_can_be_listed()
    ensures fits { WhatIsHeldFits }
    ensures names { WhatFitsNamesItsFiles }
    ensures lists { WhatFitsCanBeListed }
{}

/// What is active in a run can be listed at each of its moments, where the run began with what a
/// disk can hold: whatever is delivered, lost, repeated, reordered or injected, and wherever power
/// fails. What an installation brings has the part numbers and header names of a request that
/// arrived.
pub fn what_is_active_can_be_listed()
    ensures { WhatIsActiveCanBeListed }
{
    check_sum_laws();
    header_laws();
    packet_laws();
    protocol_file_laws();
}

/// A media set that was read can be told, where it was read of files that are bytes: each entry of
/// its list of loads has a name and a part number, and each of its files is bytes, no more than a
/// request can tell the length of. It says so of media, before a set of them is in memory;
/// [`crate::can_be_told`] says it of one that is.
pub fn a_set_that_is_read_can_be_told()
    ensures { SetsCanBeTold }
{
    loads_list_laws();
}

/// Each run that came to its end keeps what is promised of it, through losses, repeats, other
/// orders, power losses and boots: what may be active is good, what a target reports as installed
/// is active, each session came to its outcome by its cause, where nothing was injected what is
/// told of sessions is true, and a fault-free run that is left to `finish` completes.
pub fn a_run_keeps_its_promises()
    ensures { RunsKeepPromises }
{
    what_a_disk_holds_can_be_listed();
    what_is_active_can_be_listed();
    the_configuration_changes_by_good_verdicts();
    what_is_installed_is_of_the_media_set();
    a_completed_session_lists_what_was_active();
    a_completed_upload_is_installed();
    what_a_target_reports_is_installed();
    sessions_end_in_steps();
    each_session_ends_by_its_cause();
    outcomes_have_their_causes();
    every_script_ends();
    a_run_left_to_finish_completes();
}
