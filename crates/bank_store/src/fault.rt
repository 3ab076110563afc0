//! Why the store didn't do what it was asked.
ghost use Rattle.std.specs.Prelude.{◌≡◌};
ghost use Rattle.bank_store.specs.Faults.{store_fault_of};
ghost use Rattle.bank_store.specs.declared.fault.StoreFault.TheVariants.{Memory};

use disk_model::DiskFault;
use load_base::{NoMemory, Text};
use printed_text::{Printed, coded};
use std::alloc::Global;
use thiserror::Error;

/// Why the store didn't do what it was asked.
#[derive(Clone, Copy, Debug, PartialEq, Eq, Drop, Error)]
pub enum StoreFault {
    /// K1: the contents and their manifest pass the bank. How many bytes they need, and how many it
    /// has.
    #[error("{need} bytes are needed in a bank of {have}")]
    BankFull { need: u64, have: u32 },
    /// K2: the sequence number that is active is the last one.
    #[error("the sequence numbers are spent")]
    SequenceSpent,
    /// K3: the disk failed, and its count of faults rose.
    #[error("the disk failed")]
    DiskFailed,
    /// Out of memory.
    #[error("out of memory")]
    Memory,
}

impl From<DiskFault> for StoreFault {
    ghost from_gives = { λ fault result. result ≡ store_fault_of fault };

    fn from(fault: DiskFault) -> StoreFault {
        match fault {
            DiskFault::Failed => StoreFault::DiskFailed,
            DiskFault::Memory => StoreFault::Memory,
        }
    }
}

impl From<NoMemory> for StoreFault {
    ghost from_gives = { λ _ result. result ≡ Memory };

    fn from(_: NoMemory) -> StoreFault {
        StoreFault::Memory
    }
}

impl Printed for StoreFault {
    ghost use Rattle.bank_store.specs.Faults.{store_fault_text};

    ghost printed = { store_fault_text };

    ghost longest = { 44 };

    /// `K1 NEED HAVE`, `K2` or `K3`.
    fn text(&self, alloc: Global) -> Result<Text, NoMemory> {
        match *self {
            StoreFault::BankFull { need, have } => coded(alloc, b"K1", &[need, u64::from(have)]),
            StoreFault::SequenceSpent => coded(alloc, b"K2", &[]),
            StoreFault::DiskFailed => coded(alloc, b"K3", &[]),
            StoreFault::Memory => Ok(Text::empty(alloc)),
        }
    }
}
