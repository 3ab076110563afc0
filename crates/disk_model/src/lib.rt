//! A disk as the store sees it: what a read gives, what a power loss may leave, and when it has
//! failed.
#![tactic(auto)]

mod disk;
mod file;
mod fused;
mod held_file;
mod mem;
mod note;
mod opened_files;
mod power;

pub use disk::{Disk, DiskFault, SIZE};
pub use file::FileDisk;
pub use fused::Fused;
pub use mem::MemDisk;
pub use note::{Call, Note};
pub use opened_files::OpenedFiles;
pub use power::Power;
