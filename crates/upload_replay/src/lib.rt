//! A run of the exchange between a loader and a target: what it came to, as a report, and what
//! happened in it, line by line (docs/FORMATS.md, "Printed text").
#![tactic(auto)]

mod driver;
mod driving;
mod ending;
pub mod laws;
mod outcome;
mod posting;
mod report;
mod running;
mod wire;

pub use driver::Driver;
pub use driving::drive;
pub use outcome::{Drive, DriveFault};
pub use replay_turns::Posts;
pub use report::{count_posts, put_report, report_text};
pub use wire::wire_text;
