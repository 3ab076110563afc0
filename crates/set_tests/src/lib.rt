//! Tests of media sets: how they are checked and built.
#![tactic(auto)]

#[cfg(test)]
mod tests;
