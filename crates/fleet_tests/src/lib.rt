//! Tests of the scripts of fleets and of the links that follow them.
#![tactic(auto)]

#[cfg(test)]
mod tests;
