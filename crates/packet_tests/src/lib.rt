//! Tests of packets, of the two ends of a transfer, and of scripts and the links that follow them.
#![tactic(auto)]

#[cfg(test)]
mod tests;
