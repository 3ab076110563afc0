//! The header of a load: a file with the ending `.LUH`, which names the load, the hardware it is
//! for, and its files.
#![tactic(auto)]

mod encoding;
mod fault;
mod header;
mod laws;
mod load_crc;
mod measuring;
mod printing;
mod reading;
mod writing;

pub use fault::HeaderFault;
pub use header::{FileEntry, HardwareAt, LoadHeader};
pub use laws::header_laws;
pub use load_crc::LoadCrc;
