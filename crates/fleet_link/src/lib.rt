//! The link between one loader and the targets of a fleet, and its scripts (docs/FORMATS.md,
//! "Script of a fleet").
#![tactic(auto)]

mod fleet_line;
mod fleet_link;
mod fleet_mail;
mod fleet_script;
mod fleet_turn;
pub mod laws;

pub use fleet_link::FleetLink;
pub use fleet_mail::MOST_UNITS;
pub use fleet_script::FleetScript;
