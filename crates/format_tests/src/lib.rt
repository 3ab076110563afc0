//! Tests of the formats of files: load headers, protocol files and lists of a media set, what is
//! shown of them, and the interlock, which is asked of a header.
#![tactic(auto)]

#[cfg(test)]
mod tests;
