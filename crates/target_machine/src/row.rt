//! The rows of the two operations, as the target goes through them.
ghost use Rattle.std.specs.Option.{ForSome};
ghost use Rattle.std.specs.Prelude.{◌≡◌, List};
ghost use Rattle.bank_store.specs.declared.store.Store.{Store};
ghost use Rattle.disk_layout.specs.Manifest.{LoadEntry};
ghost use Rattle.session_rules.specs.Target.{reason_in};
ghost use Rattle.session_rules.specs.TargetRows.{row_after};
ghost use Rattle.target_machine.specs.Decisions.{is_asking};
ghost use Rattle.target_machine.specs.Machine.{next_seen, row_seen};
ghost use Rattle.target_machine.specs.Stages.{IsRowStage, StartsFresh};

use load_intake::{Intake, UploadEnd};
use session_rules::Reason;

/// The next row of a session: the first of its operation that isn't finished.
#[derive(Drop)]
pub(crate) enum Row {
    GivesLci,
    WritesLcs,
    WritesLcl,
    GivesLui,
    /// The upload is denied, since no sequence number is left.
    GivesDenial,
    WritesReady,
    AwaitsLur,
    ReadsFile(Intake),
    WritesProgress(Intake),
    WritesStop(UploadEnd),
    /// The configuration is installed.
    WritesCompletion(UploadEnd),
}

impl Row {
    /// Whether it begins with a request of the target's own.
    pub(crate) fn is_asking(&self) -> bool
        ensures { (active : List LoadEntry) → result ≡ is_asking (row_seen active self.now) }
    {
        match self {
            Row::GivesLci | Row::GivesLui | Row::GivesDenial | Row::AwaitsLur => false,
            Row::WritesLcs | Row::WritesLcl | Row::WritesReady => true,
            Row::ReadsFile(_) | Row::WritesProgress(_) => true,
            Row::WritesStop(_) | Row::WritesCompletion(_) => true,
        }
    }

    /// The reason that is told in it, if one is.
    pub(crate) fn reason(&self) -> Option<Reason>
        ensures { (active : List LoadEntry) → result ≡ reason_in (row_seen active self.now) }
    {
        match self {
            Row::GivesDenial => Some(Reason::SequenceSpent),
            Row::WritesStop(end) => end.reason,
            _ => None,
        }
    }

    /// The row after this one, which is finished, if there is one. In a row that reads a file, or
    /// awaits the request, what arrived decides instead.
    pub(crate) fn passed(self) -> Option<Row>
        ensures row { (active : List LoadEntry) → next_seen active result
            ≡ row_after (row_seen active self) }
        ensures stage { (store : Store) → IsRowStage self store
            → ForSome result (λ row. IsRowStage row store) }
        ensures fresh { (store : Store) → IsRowStage self store → StartsFresh result }
    {
        match self {
            Row::GivesLci => Some(Row::WritesLcs),
            Row::WritesLcs => Some(Row::WritesLcl),
            Row::GivesLui => Some(Row::WritesReady),
            Row::WritesReady => Some(Row::AwaitsLur),
            Row::WritesProgress(intake) => Some(Row::ReadsFile(intake)),
            rest => {
                // For the proof: dropped by a call, not by scope.
                drop(rest);
                None
            }
        }
    }
}
