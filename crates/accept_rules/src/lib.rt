//! The interlock: a maker's rule on which loads its unit accepts, asked of each load header and of
//! the loads that are kept beside it.
#![tactic(auto)]

mod asks;
mod interlock;
mod kept;
pub mod laws;
mod rule;

pub use asks::{Asks, KnownRule};
pub use interlock::Interlock;
pub use kept::{KeptLoad, is_kept};
pub use rule::{PermitsAll, Rule};
