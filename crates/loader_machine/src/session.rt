//! The sessions of a loader.
ghost use Rattle.std.specs.Prelude.{◌≤◌, length};

use crate::row::Row;
use load_base::Ident;
use load_protocol_files::{Lcl, Lur};
use session_files::FileBuffer;
use session_rules::{Outcome, SessionKind};
use std::marker::Model;

/// A session, and what it came to.
#[derive(Drop)]
pub struct Session {
    pub kind: SessionKind,
    pub outcome: Outcome,
    /// What is installed, as the target told it; exactly where an information operation was
    /// completed.
    pub listed: Option<Lcl>,
}

/// How a session was started.
#[derive(Drop)]
pub(crate) struct Start {
    pub(crate) kind: SessionKind,
    pub(crate) hw: Ident,
    pub(crate) pos: Ident,
    /// The loads that an upload asks for.
    pub(crate) request: Lur,
    ghost few: { length request.loads.items ≤ 32 },
}

/// The session that is live.
#[derive(Drop)]
pub(crate) struct LiveSession {
    pub(crate) start: Start,
    pub(crate) row: Row,
    /// What arrived so far of a file.
    pub(crate) arriving: FileBuffer,
}

impl Model for LiveSession {
    ghost use Rattle.std.specs.Prelude.{◌≡◌, true};
    ghost use Rattle.session_rules.specs.Loader.{LoaderSession};
    ghost use Rattle.loader_machine.specs.Machine.{is_row_of, row_seen, start_view};

    ghost Value = { LoaderSession };

    ghost view = { λ s. record {
      start = start_view s.start;
      row = row_seen s.row;
      arriving = s.arriving;
    } };

    ghost invariant = { λ s. is_row_of s.start.kind (row_seen s.row) ≡ true };
}
