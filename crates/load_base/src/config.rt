//! The configuration of a target: what its active bank holds.
use crate::{Bytes, List, Name, PartText};

/// A file of a load, with its whole contents.
#[derive(Drop)]
pub struct StoredFile {
    /// Its name, by which a request asks for it.
    pub name: Name,
    /// Its whole contents, at most 16,777,215 bytes.
    pub bytes: Bytes,
}

/// A load as a target holds it.
#[derive(Drop)]
pub struct Load {
    /// Its part number.
    pub part: PartText,
    /// The type id of its header; none where its manifest is of layout 1, which doesn't say it
    /// (docs/DISK.md).
    pub type_id: Option<u16>,
    /// The name of its header, the first of `files`.
    pub header_name: Name,
    /// Its header, its data files and then its support files.
    pub files: List<StoredFile>,
}

/// What a target holds.
#[derive(Drop)]
pub struct Config {
    /// Its loads, in the order of its manifest.
    pub loads: List<Load>,
}
