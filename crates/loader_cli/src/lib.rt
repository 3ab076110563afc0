//! The top call: what the program does on its arguments, what it prints, and the status with which
//! it ends.
//!
//! Start from [`run`]. The commands and statuses are those of README.md, the printed texts those of
//! docs/FORMATS.md.
#![tactic(auto)]

mod answer;
mod build;
mod check;
mod command;
mod fleet_replay;
mod inputs;
pub mod laws;
mod replay;
mod rollback;
mod show;
mod text;
mod top_call;
mod trial;

pub use bank_store;
pub use listing::listing_text;
pub use recovery;
pub use top_call::{Ended, run};
