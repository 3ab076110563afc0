//! What was active on a disk before.

use disk_layout::Standing;

/// The configuration that was active before the active one, and where its manifest stands.
#[derive(Drop)]
pub struct Former {
    /// It, with its own bank and sequence number.
    pub standing: Standing,
    /// Where its manifest begins, counted from its bank's start.
    pub place: u32,
    /// How many bytes its manifest has.
    pub length: u32,
}
