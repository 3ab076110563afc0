//! Tests of the lowest layer: texts and hosts, check sums, grammars, fields, printed text and part
//! numbers.
#![tactic(auto)]

#[cfg(test)]
mod tests;
