//! A run of the exchange between a loader and the targets of a fleet, over one link
//! (docs/EXCHANGE.md, "Fleets" and "Batches").
#![tactic(auto)]

mod asking;
mod batches;
mod booting;
mod ending;
pub mod laws;
mod merging;
mod outcome;
mod posting;
mod report;
mod running;
mod stepped;
mod stepping;
mod trace;
mod waiting;
mod whole_run;

pub use fleet_trace::FleetStep;
pub use outcome::{BatchEnd, BatchOutcome, FleetDrive, FleetFault, UnitEnd};
pub use report::fleet_text;
pub use trace::FleetTrace;
pub use whole_run::fleet;
