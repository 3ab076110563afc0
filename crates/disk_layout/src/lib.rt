//! What stands where on a disk, the configuration that a disk holds, and why it may hold nothing.
#![tactic(auto)]

mod active;
mod entries;
mod fault;
mod identity;
mod identity_bytes;
mod laws;
mod manifest;
pub mod numbers;
pub mod offsets;
mod printing;
mod slot;
mod standing;

pub use active::{Active, Bank, ManifestRange, Slot};
pub use entries::{LoadPlace, find_load, typed_entries};
pub use fault::RecoverFault;
pub use identity::Identity;
pub use identity_bytes::IdentityBytes;
pub use laws::{
    a_manifest_is_decided, a_slot_is_read_again, an_identity_is_read_again,
    an_image_holds_one_configuration, an_outline_is_filled, constants_are_those_of_the_layout,
};
pub use manifest::{Layout, Manifest, ManifestFault, ManifestFile, ManifestLoad, ManifestReader};
pub use slot::SlotFields;
pub use standing::Standing;
