//! A step of an exchange: a loader and a target take what happens, and it is recorded with what
//! they post and what becomes of the target's power.
#![tactic(auto)]

mod ends;
mod powering;
mod reaching;
mod recording;
mod turn;

pub use ends::Ends;
pub use loader_machine::Posts;
pub use recording::Recording;
