//! The protocol files that a loader and a target exchange: initialization, configuration, status
//! and requests (this project's layouts, docs/FORMATS.md). Each type has `decode` and `encode`.
#![tactic(auto)]

mod fault;
mod fault_text;
mod file;
mod laws;
mod lci;
mod lcl;
mod lcs;
mod lui;
mod lur;
mod lus;
mod pieces;
mod putting;
mod reply;

pub use fault::FileFault;
pub use laws::protocol_file_laws;
pub use lci::Lci;
pub use lcl::{Hardware, Lcl, Part};
pub use lcs::Lcs;
pub use lui::Lui;
pub use lur::{Lur, Wanted};
pub use lus::{LoadStatus, Lus};
