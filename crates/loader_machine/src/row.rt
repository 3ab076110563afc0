//! The rows of the two operations, as the loader goes through them.
ghost use Rattle.std.specs.Prelude.{◌≡◌};
ghost use Rattle.loader_machine.specs.Machine.{is_asking, row_seen};
ghost use Rattle.session_rules.specs.LoaderRows.{first_row as first_of, kind_received as received};
ghost use Rattle.session_rules.specs.LoaderRows.{kind_taken as taken, row_after, serves_files};

use session_rules::{FileKind, SessionKind};

/// The next row of a session: the first of its operation that isn't finished.
#[derive(Clone, Copy, Debug, PartialEq, Eq)]
pub(crate) enum Row {
    ReadsLci,
    TakesLcs,
    TakesLcl,
    ReadsLui,
    TakesLus,
    WritesLur,
    /// All rows after the request: the target reads files of the media set, and writes LUS.
    ServesFiles,
}

impl Row {
    pub(crate) fn first(kind: SessionKind) -> Row
        ensures { row_seen result ≡ first_of kind }
    {
        match kind {
            SessionKind::Info => Row::ReadsLci,
            SessionKind::Upload => Row::ReadsLui,
        }
    }

    /// The row after this one, which is finished.
    pub(crate) fn next(self) -> Row
        ensures { row_seen result ≡ row_after (row_seen self) }
    {
        match self {
            Row::ReadsLci => Row::TakesLcs,
            Row::TakesLcs | Row::TakesLcl => Row::TakesLcl,
            Row::ReadsLui => Row::TakesLus,
            Row::TakesLus => Row::WritesLur,
            Row::WritesLur | Row::ServesFiles => Row::ServesFiles,
        }
    }

    /// The kind of file that a request to write may have.
    pub(crate) fn kind_taken(self) -> Option<FileKind>
        ensures { result ≡ taken (row_seen self) }
    {
        match self {
            Row::TakesLcs => Some(FileKind::Lcs),
            Row::TakesLcl => Some(FileKind::Lcl),
            Row::TakesLus | Row::ServesFiles => Some(FileKind::Lus),
            Row::ReadsLci | Row::ReadsLui | Row::WritesLur => None,
        }
    }

    /// Whether requests to read files of the media set are taken.
    pub(crate) fn serves_files(self) -> bool
        ensures { result ≡ serves_files (row_seen self) }
    {
        matches!(self, Row::ServesFiles)
    }

    /// The kind of file that arrives.
    pub(crate) fn kind_received(self) -> FileKind
        ensures { result ≡ received (row_seen self) }
    {
        match self {
            Row::ReadsLci => FileKind::Lci,
            Row::TakesLcs => FileKind::Lcs,
            Row::TakesLcl => FileKind::Lcl,
            Row::ReadsLui => FileKind::Lui,
            Row::WritesLur => FileKind::Lur,
            Row::TakesLus | Row::ServesFiles => FileKind::Lus,
        }
    }

    /// Whether it begins with a request of the loader's own.
    pub(crate) fn is_asking(self) -> bool
        ensures { result ≡ is_asking (row_seen self) }
    {
        matches!(self, Row::ReadsLci | Row::ReadsLui | Row::WritesLur)
    }
}
