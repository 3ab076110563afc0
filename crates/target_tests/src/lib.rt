//! Tests of the target, and of whole runs between a loader and a target.
#![tactic(auto)]

#[cfg(test)]
mod tests;
