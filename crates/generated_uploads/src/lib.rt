//! Why the upload of a generated set completes: that the loader serves a load that is good for its
//! target, as definitions and laws (docs/PROMISES.md).
#![tactic(auto)]

pub mod laws;
