//! Tests of the disk: what a power loss leaves, how it is formatted and installed on, listed and
//! recovered.
#![tactic(auto)]

#[cfg(test)]
mod tests;
