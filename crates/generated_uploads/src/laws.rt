//! What holds of the upload of a generated set. These functions do nothing; their clauses are the
//! law.
ghost use Rattle.generated_uploads.specs.GeneratedMedia.{GeneratedMediaAreGood};
ghost use Rattle.generated_uploads.specs.GeneratedUploads.{GeneratedUploadsComplete};
ghost use Rattle.generated_uploads.specs.GeneratedUploads.{OnlyTrialHappens};

use load_header::header_laws;
use media_lists::{files_list_laws, loads_list_laws};
use run_promises::laws::{a_run_keeps_its_promises, a_set_that_is_read_can_be_told};
use session_rules::laws::one_session_for_each_start;

/// What a loader serves of the generated set, whatever its number: its one load under its part
/// number, whose header has the lengths and check sums of the header and the file that are served,
/// for hardware HW1, of a type that every interlock accepts. All of it can be told.
pub fn generated_media_are_good()
    ensures { GeneratedMediaAreGood }
{
    header_laws();
    loads_list_laws();
    files_list_laws();
    a_set_that_is_read_can_be_told();
}

/// In a run of the lines `upload HW POS ABC41-0000-0001` and `finish` nothing happens but the start
/// of the upload, deliveries, ticks and the end.
pub fn only_a_trial_happens()
    ensures { OnlyTrialHappens }
{}

/// An upload of the generated set completes, on a target of its hardware whose bank has room for
/// it, whose sequence number isn't the last and of whose loads none is kept beside it, where the
/// target doesn't go down.
pub fn a_generated_upload_completes()
    ensures { GeneratedUploadsComplete }
{
    generated_media_are_good();
    a_run_keeps_its_promises();
    one_session_for_each_start();
}
