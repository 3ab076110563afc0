//! Offsets and bounds on a disk (docs/DISK.md), in bytes from 0.

/// The most bytes that an identity has.
pub const LONGEST_IDENTITY: usize = 75;

/// The fewest bytes of a bank.
pub const SMALLEST_BANK: u32 = 4096;

/// The most bytes of a bank.
pub const LARGEST_BANK: u32 = 67_108_864;

/// Where slot A begins.
pub const SLOT_A: u32 = 4096;

/// Where slot B begins.
pub const SLOT_B: u32 = 4608;

/// The bytes of a slot, from its gate to the end of its last field.
pub const SLOT_LENGTH: usize = 29;

/// Where a slot has its sequence number, counted from its start, as the next three.
pub const SEQUENCE_IN_SLOT: u32 = 16;

/// Where a slot names its bank.
pub const BANK_IN_SLOT: u32 = 20;

/// Where a slot says at which offset of its bank the manifest begins.
pub const MANIFEST_OFFSET_IN_SLOT: u32 = 21;

/// Where a slot says how many bytes the manifest has.
pub const LENGTH_IN_SLOT: u32 = 25;

/// The gate of an open slot; with any other byte the slot is shut.
pub const OPEN: u8 = 0xA5;

/// Where bank 0 begins; bank 1 begins after it.
pub const BANKS: u32 = 8192;

/// The most bytes of a manifest: 32 loads of 256 files with names of 64 bytes, in layout 2.
pub const LONGEST_MANIFEST: u32 = 565_860;

/// The mark with which a manifest of layout 2 begins, in two bytes. It is no number of loads.
pub const LAYOUT_MARK: u16 = 0xA002;

/// The most loads of a manifest.
pub const MOST_LOADS: u16 = 32;

/// The most files of a load, its header counted.
pub const MOST_FILES: u16 = 256;
