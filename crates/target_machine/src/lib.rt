//! The target's side of the exchange: its sessions, row by row, and what they install
//! (docs/EXCHANGE.md, "The target").
//!
//! Start from [`Target`]: each of its calls takes one event and gives what is posted then. It holds
//! no disk; each call that may reach the disk is lent the one on which the target came up:
//!
//! ```text
//! let mut target = Target::boot(alloc, &mut disk, &interlock, 1024)?;
//! // for each datagram that comes:
//! let posts = target.on_datagram(&mut disk, from, to, bytes)?;
//! // when its timer expires, while target.waits():
//! let posts = target.on_tick(&mut disk)?;
//! ```
#![tactic(auto)]

mod boot;
mod installed;
mod request;
mod row;
mod session;
mod target;

pub use boot::BootFault;
pub use load_intake::Down;
pub use session_rules::{Reason, RequestFault};
pub use target::Target;
pub use transfer_end::Posts;
