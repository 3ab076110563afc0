//! What is promised of a run that came to its end, all of it together: what may be active, what is
//! told of completed sessions, and how long it may be (docs/PROMISES.md). Definitions and the law;
//! and that a media set in memory can be told, which is a premise of some of it.
#![tactic(auto)]

pub mod laws;
mod telling;

pub use telling::can_be_told;
