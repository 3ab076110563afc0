//! Why the former configuration isn't made active again.
ghost use Rattle.std.specs.Prelude.{◌≡◌};
ghost use Rattle.bank_rollback.specs.Faults.{of_former, of_store, of_survey};

use bank_store::StoreFault;
use disk_layout::RecoverFault;
use load_base::{NoMemory, Text};
use printed_text::{Printed, coded};
use recovery::FormerFault;
use std::alloc::Global;
use thiserror::Error;

/// Why the former configuration isn't made active again. Former never carries DiskFailed or Memory,
/// which have names of their own here.
#[derive(Clone, Copy, Debug, PartialEq, Eq, Drop, Error)]
pub enum RollbackFault {
    /// V1 to V4: the disk holds no configuration. G1 to G3: it holds no former one.
    #[error("there is no former configuration")]
    Former(FormerFault),
    /// K2: the sequence number that is active is the last one.
    #[error("the sequence numbers are spent")]
    SequenceSpent,
    /// The disk failed, and its count of faults rose.
    #[error("the disk failed")]
    DiskFailed,
    /// Out of memory.
    #[error("out of memory")]
    Memory,
}

impl From<FormerFault> for RollbackFault {
    ghost from_gives = { λ fault result. result ≡ of_former fault };

    fn from(fault: FormerFault) -> RollbackFault {
        match fault {
            FormerFault::DiskFailed => RollbackFault::DiskFailed,
            FormerFault::Memory => RollbackFault::Memory,
            reason => RollbackFault::Former(reason),
        }
    }
}

impl From<RecoverFault> for RollbackFault {
    ghost from_gives = { λ fault result. result ≡ of_survey fault };

    fn from(fault: RecoverFault) -> RollbackFault {
        match fault {
            RecoverFault::DiskFailed => RollbackFault::DiskFailed,
            RecoverFault::Memory => RollbackFault::Memory,
            reason => RollbackFault::Former(FormerFault::Recover(reason)),
        }
    }
}

impl From<StoreFault> for RollbackFault {
    ghost from_gives = { λ fault result. result ≡ of_store fault };

    /// BankFull, which no call of a rollback answers, would be a failure.
    fn from(fault: StoreFault) -> RollbackFault {
        match fault {
            StoreFault::SequenceSpent => RollbackFault::SequenceSpent,
            StoreFault::Memory => RollbackFault::Memory,
            StoreFault::DiskFailed | StoreFault::BankFull { .. } => RollbackFault::DiskFailed,
        }
    }
}

impl Printed for RollbackFault {
    ghost use Rattle.bank_rollback.specs.Faults.{rollback_fault_text};

    ghost printed = { rollback_fault_text };

    ghost longest = { 23 };

    /// The text of the [`FormerFault`], or `K2`. A failure of the disk is told otherwise, and has
    /// no text here.
    fn text(&self, alloc: Global) -> Result<Text, NoMemory> {
        match *self {
            RollbackFault::Former(fault) => fault.text(alloc),
            RollbackFault::SequenceSpent => coded(alloc, b"K2", &[]),
            RollbackFault::DiskFailed | RollbackFault::Memory => Ok(Text::empty(alloc)),
        }
    }
}
