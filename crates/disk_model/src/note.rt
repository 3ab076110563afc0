//! The record of a disk in memory.
use load_base::Bytes;

/// A call that may change what a power loss leaves.
#[derive(Drop)]
pub enum Call {
    /// These bytes, from offset `at` on.
    Write { at: u32, bytes: Bytes },
    Sync,
    Restart,
}

/// A call, and whether it was done. One that wasn't has changed nothing that a read gives, but a
/// power loss may leave anything in the range of a write that wasn't done.
#[derive(Drop)]
pub struct Note {
    pub call: Call,
    pub done: bool,
}
