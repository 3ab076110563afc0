//! What `show` prints of a file: its fields in the order of its format, or its first fault.
#![tactic(auto)]

mod batches;
mod header;
mod kind;
mod lists;
mod protocol;
mod shown;
mod user;

pub use batches::{batch_text, batches_list_text};
pub use header::header_text;
pub use kind::ShownKind;
pub use lists::{files_list_text, loads_list_text};
pub use protocol::{lci_text, lcl_text, lcs_text, lui_text, lur_text, lus_text};
pub use shown::{Shown, show};
