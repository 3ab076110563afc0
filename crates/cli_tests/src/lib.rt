//! Tests of commands over the system's files and standard output.
#![tactic(auto)]

#[cfg(test)]
mod tests;
