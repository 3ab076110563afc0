//! The configuration that a disk holds, read from the disk.
#![tactic(auto)]

mod contents;
mod finding_former;
mod former_config;
mod former_fault;
mod listed;
mod manifests;
mod reading;
mod recovering;
mod slots;
mod surveying;

pub use bank_store::Store;
pub use disk_layout::{Identity, Manifest, ManifestFile, ManifestLoad, RecoverFault, Standing};
pub use finding_former::{a_former_configuration_stands_beside, an_image_holds_one_former, former};
pub use former_config::Former;
pub use former_fault::FormerFault;
pub use listed::list;
pub use recovering::recover;
pub use surveying::{Surveyed, survey};
