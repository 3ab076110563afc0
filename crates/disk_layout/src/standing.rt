//! The configuration that a disk holds.
use crate::Identity;
use load_base::Config;

/// The configuration that a disk holds: its target, the active bank (0 or 1), the sequence number,
/// which is one greater at each change of the configuration, and the loads in that bank.
#[derive(Drop)]
pub struct Standing {
    pub identity: Identity,
    pub bank: u8,
    pub sequence: u32,
    pub config: Config,
}
