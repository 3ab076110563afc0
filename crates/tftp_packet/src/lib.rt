//! The packets of TFTP, read and written: RFC 1350, with the options of RFC 2347 to 2349, in this
//! project's profile (docs/FORMATS.md, "TFTP packets").
#![tactic(auto)]

mod fault;
mod laws;
mod options;
mod packet;
mod reading;
mod writing;

pub use fault::PacketFault;
pub use laws::packet_laws;
pub use options::Options;
pub use packet::Packet;
