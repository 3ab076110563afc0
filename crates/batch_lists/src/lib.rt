//! Batches: the list of a media set's batches, `BATCHES.LUM`, and a batch itself, a `.LUB` file,
//! which names targets and the loads that each gets.
#![tactic(auto)]

mod batch;
mod batch_reading;
mod batch_writing;
mod batches;
mod batches_reading;
mod batches_writing;
mod fault;
mod fitting;
mod laws;
mod printing;

pub use batch::{BATCH_VERSION, Batch, BatchTarget};
pub use batch_reading::{MOST_PARTS_OF_A_TARGET, MOST_TARGETS};
pub use batches::{BATCHES_VERSION, BatchEntry, BatchesList};
pub use fault::{BatchFault, BatchWordFault, BatchesFault};
pub use laws::{batch_laws, batches_list_laws};
