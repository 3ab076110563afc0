//! Tests of the files of a session, of the loader, and of how a target takes in loads.
#![tactic(auto)]

#[cfg(test)]
mod tests;
