//! What a file that arrived comes to.
ghost use Rattle.std.specs.Prelude.{◌≡◌, ◌≤◌, [], ℕ, Some, length};
ghost use Rattle.session_rules.specs.TargetRows.{Writes_completion, installed_upload};
ghost use Rattle.session_rules.specs.TargetRows.{stopped_upload};
ghost use Rattle.session_rules.specs.declared.reason.Reason.TheVariants.{RequestRefused};
ghost use Rattle.load_intake.specs.Intakes.{HasSpareFor, end_view, row_seen};
ghost use Rattle.load_intake.specs.Keeping.{entries};

use crate::ended::{NewLoads, UploadEnd};
use crate::intake::Intake;
use load_base::List;
use load_protocol_files::Wanted;
use session_rules::{Reason, RequestFault};
use std::alloc::Global;

impl UploadEnd {
    /// The request was refused: nothing is asked for, and one LUS was written before it.
    pub fn refused(alloc: Global, fault: RequestFault) -> UploadEnd
        ensures { end_view result ≡ stopped_upload [] 0 1 (RequestRefused fault) }
    {
        UploadEnd {
            request: List::new(alloc),
            arrived: 0,
            reports: 2,
            reason: Some(Reason::RequestRefused { fault }),
        }
    }
}

/// What a file comes to that arrived whole, or that wasn't served.
#[derive(Drop)]
pub enum Finished {
    /// It was accepted, and its load has more files: the upload goes on with the next of them.
    MoreFiles(Intake),
    /// It was the last of its load: an LUS is due that tells how many arrived, and after it the
    /// upload goes on with the header of the next.
    NextLoad(Intake),
    /// A test failed, and the installation was given up.
    Stopped(UploadEnd),
    /// It was the last of all: these loads are installed, and active with those that are kept.
    Installed(UploadEnd, NewLoads),
}

/// All loads that were asked for are installed.
pub(crate) fn installed(request: List<Wanted>, new: NewLoads) -> Finished
    requires all { length request.items ≡ length new.loads.items }
    ensures row { row_seen result ≡ Writes_completion
        (installed_upload request.items (length new.loads.items)) (entries new.loads.items) }
    ensures spare { (more : ℕ) → more ≤ new.loads.spare → HasSpareFor more result }
{
    let arrived = new.loads.len() as u16;
    let end = UploadEnd {
        request,
        arrived,
        reports: arrived + 1,
        reason: None,
    };
    Finished::Installed(end, new)
}
