//! How far an installation is.

use disk_layout::ManifestRange;

/// An installation whose contents are coming.
#[derive(Clone, Copy)]
pub struct Filling {
    /// How many loads were announced.
    pub loads: u16,
    /// How many files of the last load are still to end.
    pub missing: u16,
    /// How many bytes stand in the bank.
    pub end: u32,
    /// Where in the bank the file begins that ends next.
    pub start: u32,
}

/// How far an installation is.
#[derive(Clone, Copy)]
pub enum Stage {
    /// None has begun, or the last one has ended.
    Idle,
    /// Its contents are coming.
    Filling(Filling),
    /// All is written but the gate. The range of the new manifest in its bank.
    Sealed(ManifestRange),
}
