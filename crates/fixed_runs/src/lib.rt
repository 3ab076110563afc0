//! Why two runs of one script on the same media set, interlock and configuration have the same
//! steps, where nothing fails (docs/EXCHANGE.md, "A run is a function of its script"). Definitions
//! and the law.
#![tactic(auto)]

pub mod laws;
