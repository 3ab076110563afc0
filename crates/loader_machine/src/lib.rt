//! The data loader's side of the exchange: its sessions, row by row (docs/EXCHANGE.md, "The
//! loader").
//!
//! Start from [`Loader`]: each of its calls takes one event and gives what is posted then. It does
//! no input or output of its own:
//!
//! ```text
//! let mut loader = Loader::new(alloc, &media);
//! let posts = loader.start_info(hw, pos)?;
//! // for each datagram that comes:
//! let posts = loader.on_datagram(from, to, bytes)?;
//! // when its timer expires, while loader.waits():
//! let posts = loader.on_tick()?;
//! // at the end: what each session came to
//! let sessions = loader.into_sessions();
//! ```
#![tactic(auto)]

mod loader;
mod requested;
mod row;
mod session;
mod turn;

pub use loader::Loader;
pub use session::Session;
pub use session_rules::{FileKind, Outcome, SessionKind};
pub use transfer_end::Posts;
