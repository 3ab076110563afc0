//! An example for who makes a unit or a link: a disk of one's own over a flash driver
//! ([`FlashDisk`]), a link of one's own over a network ([`NetworkLink`]), and a rule on which loads
//! the unit accepts ([`OwnTypes`]). `upload_replay::drive` runs a loader and a unit over them, the
//! disk within `disk_model::Fused`; a unit by itself is `target_machine::Target`.
//!
//! What a driver has to keep to, point by point, stands at [`Flash`]; no proof can see whether it
//! does.
#![tactic(auto)]

mod flash_disk;
mod network_link;
mod own_types;

pub use flash_disk::{Flash, FlashDisk};
pub use network_link::{Network, NetworkLink, Received};
pub use own_types::{OWN_TYPES, OwnTypes, interlock};
