//! Why a transfer of which nothing is lost is completed: the packet that is on its way moves it,
//! what came before changes nothing in it, and retries matter at ticks alone (docs/EXCHANGE.md,
//! "A fault-free run completes"). Definitions and their laws.
#![tactic(auto)]

pub mod laws;
