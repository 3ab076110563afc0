//! The rules on transfers that both ends of the exchange keep: ports, marks, the live and the kept
//! transfer, retries and the datagram that was posted last (docs/EXCHANGE.md, "Transfers").
//!
//! Start from [`TransferEnd`]: each of its calls makes one move of `specs/Moves.antt`, and gives
//! the datagram that is posted then. Which requests are asked and taken its user decides:
//!
//! ```text
//! let mut end = TransferEnd::new(alloc, 1024);
//! let post = end.ask_to_read(Side::Loader, name, end.wanted_options(0))?;
//! // for each packet to a port other than 59:
//! let Heard { post, news } = end.on_packet(Side::Loader, from, to, &packet)?;
//! // at a tick, where end.may_repeat():
//! let post = end.repeat()?;
//! ```
#![tactic(auto)]

mod file_end;
pub mod laws;
mod packets;
mod posting;
mod posts;
mod transfer;
mod transfer_end;

pub use packets::packet_in;
pub use posts::Posts;
pub use transfer_end::{Heard, REQUEST_PORT, TransferEnd};
