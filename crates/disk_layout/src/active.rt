//! The slots and the banks of a disk, and what is active on it (docs/DISK.md).
ghost use Rattle.std.specs.Prelude.{◌≡◌, ◌+◌, ◌<◌, ◌≤◌};
ghost use Rattle.disk_layout.specs.Offsets.{IsBankSize, bank_at};
ghost use Rattle.disk_layout.specs.Slots.{slot_offset, other_slot, bank_number, other_bank};

use crate::offsets::{BANKS, SLOT_A, SLOT_B};

/// One of the two slots of a disk, which name a bank and its manifest.
#[derive(Clone, Copy, Debug, PartialEq, Eq)]
pub enum Slot {
    A,
    B,
}

impl Slot {
    /// The byte offset on the disk at which the slot begins.
    pub fn offset(self) -> u32
        ensures { result ≡ slot_offset self }
    {
        match self {
            Slot::A => SLOT_A,
            Slot::B => SLOT_B,
        }
    }

    /// The slot that isn't this one.
    pub fn other(self) -> Slot
        ensures { slot_offset result ≡ other_slot (slot_offset self) }
    {
        match self {
            Slot::A => Slot::B,
            Slot::B => Slot::A,
        }
    }
}

/// One of the two banks of a disk, which have the contents of files and their manifest.
#[derive(Clone, Copy, Debug, PartialEq, Eq)]
pub enum Bank {
    Zero,
    One,
}

impl Bank {
    /// The bank with this number.
    pub fn numbered(number: u8) -> Bank
        requires { number < 2 }
        ensures { bank_number result ≡ number }
    {
        if number == 0 { Bank::Zero } else { Bank::One }
    }

    /// 0 or 1.
    pub fn number(self) -> u8
        ensures value { result ≡ bank_number self }
        ensures below { result < 2 }
    {
        match self {
            Bank::Zero => 0,
            Bank::One => 1,
        }
    }

    /// The bank that isn't this one.
    pub fn other(self) -> Bank
        ensures { bank_number result ≡ other_bank (bank_number self) }
    {
        match self {
            Bank::Zero => Bank::One,
            Bank::One => Bank::Zero,
        }
    }

    /// The byte offset at which the bank begins on a disk with banks of `size` bytes.
    pub fn offset(self, size: u32) -> u32
        requires { IsBankSize size }
        ensures value { result ≡ bank_at size (bank_number self) }
        ensures within { result + size ≤ 134225920 }
    {
        match self {
            Bank::Zero => BANKS,
            Bank::One => BANKS + size,
        }
    }
}

/// The range of a manifest in its bank: its byte offset from the bank's start, and its bytes.
#[derive(Clone, Copy, Debug, PartialEq, Eq)]
pub struct ManifestRange {
    pub offset: u32,
    pub length: u32,
}

/// What is active on a disk: the open slot with the greater sequence number (slot A where both are
/// open and have the same), and what it says.
#[derive(Clone, Copy, Debug, PartialEq, Eq)]
pub struct Active {
    pub slot: Slot,
    pub bank: Bank,
    /// The sequence number, which is one greater at each change of the configuration.
    pub sequence: u32,
    /// Where the manifest stands in the bank.
    pub manifest: ManifestRange,
}
