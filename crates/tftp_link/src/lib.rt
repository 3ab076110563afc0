//! One transfer of a file over TFTP, as each of its ends sees it: RFC 1350 with the options of RFC
//! 2347 to 2349, in this project's profile (docs/EXCHANGE.md).
//!
//! Start from [`Receiving`] and [`Sending`]. They know no ports, ticks or streams, take no memory,
//! and lend payloads:
//!
//! ```text
//! let mut sending = Sending::serve(FileBytes::Lent(file), options);   // an RRQ was taken
//! post(sending.first());
//! // for each packet from the other end's port:
//! let step = sending.on_packet(&packet);
//! if step.send {
//!     post(sending.again());
//! }
//! // at a tick: post(sending.again())
//! ```
#![tactic(auto)]

mod file_bytes;
mod laws;
mod negotiation;
mod phase;
mod receiving;
mod sending;
mod step;

pub use file_bytes::FileBytes;
pub use laws::{arrival_laws, receiving_laws, repeat_laws, sending_laws};
pub use receiving::Receiving;
pub use sending::Sending;
pub use step::{News, Step};
