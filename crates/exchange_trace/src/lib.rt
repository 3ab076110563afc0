//! What happens between a loader and a target, as a trace; what a script says, and what following
//! it means (docs/EXCHANGE.md, docs/FORMATS.md, "Script").
#![tactic(auto)]

mod fault;
pub mod laws;
mod printing;
mod trace;

pub use fault::ScriptFault;
pub use trace::{Datagram, FIRST_PORT, Happening, Side, TraceStep};
