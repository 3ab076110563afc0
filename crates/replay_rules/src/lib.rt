//! What is said of whole runs of the exchange: what was due, what was active, when a run is quiet
//! or within the margin of retries, and what is promised of it (docs/EXCHANGE.md, "Runs").
//! Definitions and their laws.
#![tactic(auto)]

pub mod laws;
