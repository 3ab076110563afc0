//! What both machines of the exchange need of files: the names of protocol files, what is kept of a
//! file while it arrives, and the protocol files that a target writes (docs/EXCHANGE.md,
//! "Operations").
#![tactic(auto)]

mod buffer;
mod configuration;
mod name;
mod reason;
mod reply;
mod status;

pub use buffer::FileBuffer;
pub use configuration::lcl_file;
pub use name::file_name;
pub use reason::reason_text;
pub use reply::{accepting_lui, denying_lui, lci_file, lcs_file};
pub use status::{completed_lus, progress_lus, ready_lus, stopped_lus};
