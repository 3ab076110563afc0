//! Media sets: the lists, files and batches of loadable software in a folder of the host, and what
//! is wrong with them.
//!
//! Start from [`open_set`], which reads a set, and [`check`], which gives all its findings. The
//! layout of a folder and the findings are those of docs/FORMATS.md.
#![tactic(auto)]

mod batch_checking;
mod batches;
mod built;
mod checking;
mod comparing;
mod fault;
mod finding;
mod found;
mod laws;
mod loads;
mod names;
mod opening;
mod set;
mod sums;

pub use batches::KeptBatch;
pub use built::{Built, Placed};
pub use checking::check;
pub use fault::OpenFault;
pub use finding::Finding;
pub use found::Found;
pub use laws::opening_laws;
pub use names::host_name;
pub use opening::{open_rest, open_set, read_batches_list, read_files_list, read_loads_list};
pub use set::{KeptFile, MediaSet, MemberLists};
