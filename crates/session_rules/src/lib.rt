//! The rules of the information and the upload operation: their rows, the files that both sides
//! write, what they come to, and the configuration that a good upload makes (docs/EXCHANGE.md).
//! Definitions and their laws, and the types of outcomes and reasons.
#![tactic(auto)]

pub mod laws;
mod outcome;
mod reason;

pub use outcome::{FileKind, Outcome, SessionKind};
pub use reason::{Reason, RequestFault};
