//! What a run comes to.
ghost use Rattle.std.specs.Prelude.{◌≡◌};
ghost use Rattle.upload_replay.specs.Faults.{drive_fault_of};
ghost use Rattle.upload_replay.specs.declared.outcome.DriveFault.TheVariants.{Memory};

use disk_layout::{RecoverFault, Standing};
use exchange_trace::TraceStep;
use link_net::LinkFault;
use load_base::{List, NoMemory};
use loader_machine::Session;
use thiserror::Error;

/// A run that came to its end.
#[derive(Drop)]
pub struct Drive {
    /// What happened, what both sides posted, and what became of the target's power.
    pub trace: List<TraceStep>,
    /// The loader's sessions, in the order of their starts.
    pub sessions: List<Session>,
    /// The configuration that the target's disk holds at the end. None where the disk failed there.
    pub standing: Option<Standing>,
}

/// Why there was no run.
#[derive(Clone, Copy, Debug, PartialEq, Eq, Drop, Error)]
pub enum DriveFault {
    /// The link failed, and its count of faults rose.
    #[error("the link failed")]
    Link,
    /// The disk failed as the target came up first, and its count of faults rose.
    #[error("the disk failed")]
    Disk,
    /// The disk holds no configuration: V1 to V4.
    #[error("the disk holds no configuration: {0}")]
    NoConfig(RecoverFault),
    /// Out of memory.
    #[error("out of memory")]
    Memory,
}

impl From<LinkFault> for DriveFault {
    ghost from_gives = { λ fault result. result ≡ drive_fault_of fault };

    fn from(fault: LinkFault) -> DriveFault {
        match fault {
            LinkFault::Failed => DriveFault::Link,
            LinkFault::Memory => DriveFault::Memory,
        }
    }
}

impl From<NoMemory> for DriveFault {
    ghost from_gives = { λ _ result. result ≡ Memory };

    fn from(_: NoMemory) -> DriveFault {
        DriveFault::Memory
    }
}
