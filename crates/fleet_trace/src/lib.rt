//! What happens on a link that serves a fleet of targets, as a trace; what a script of a fleet
//! says, and what following it means; and what of it each unit does by itself (docs/EXCHANGE.md,
//! "Fleets"; docs/FORMATS.md, "Script of a fleet").
#![tactic(auto)]

pub mod laws;
mod trace;

pub use trace::{FleetHappening, FleetStep};
