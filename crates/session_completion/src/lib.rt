//! Why an upload that is left to `finish` completes: where nothing is lost, datagram after datagram
//! brings it to its end; whatever is lost, repeated or late, a run stands where such an upload
//! stands; and within the margin of retries `finish` brings it to its end (docs/EXCHANGE.md, "A
//! fault-free run completes"). Definitions and their laws.
#![tactic(auto)]

pub mod laws;
