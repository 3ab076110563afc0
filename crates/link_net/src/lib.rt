//! A network between loader and target that follows a script (docs/EXCHANGE.md, "Scripts";
//! docs/FORMATS.md, "Script").
#![tactic(auto)]

mod fail_link;
pub mod laws;
// How a line is read, what becomes of datagrams and what a line gives: the link of a fleet is made
// of the same parts.
pub mod line;
mod link;
pub mod mail;
mod number;
mod script;
mod script_link;
pub mod turn;
pub mod values;
pub mod words;

pub use exchange_trace::{Datagram, Happening, ScriptFault, Side};
pub use fail_link::FailLink;
pub use link::{Link, LinkFault, Waits};
pub use script::Script;
pub use script_link::ScriptLink;
