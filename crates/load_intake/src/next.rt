//! What comes after a file.

/// What comes after a file that was accepted.
#[derive(Clone, Copy)]
pub(crate) enum Next {
    /// More files of its load.
    MoreFiles,
    /// The header of the next load.
    NextLoad,
    /// The installation.
    Complete,
}
