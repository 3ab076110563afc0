//! Why every `finish` of a script ends, whatever came before it: each happening uses up ports,
//! blocks, ticks or what is undelivered (docs/EXCHANGE.md, "Every `finish` ends"). Definitions and
//! their laws.
#![tactic(auto)]

pub mod laws;
