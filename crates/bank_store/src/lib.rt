//! Writes to a disk the configuration that it is to hold.
#![tactic(auto)]

mod fault;
mod formatting;
mod head;
mod known;
mod laws;
mod stage;
mod store;

pub use disk_layout::{Identity, Manifest, ManifestFile, ManifestLoad};
pub use fault::StoreFault;
pub use formatting::format;
pub use laws::{
    a_power_loss_takes_only_work, a_store_goes_on_fitting, an_idle_store_works,
    an_unformatted_disk_is_as_it_was,
};
pub use store::Store;
