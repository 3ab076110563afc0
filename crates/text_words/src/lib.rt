//! Lines, words and decimal numbers of texts that people write: scripts and recipes
//! (docs/FORMATS.md).
#![tactic(auto)]

mod decimal;
mod lines;
mod pieces;

pub use decimal::decimal_in;
pub use lines::is_passed_over;
pub use pieces::{Pieces, cut};
