//! What a run of a fleet comes to.
use crate::trace::FleetTrace;
use disk_layout::{RecoverFault, Standing};
use load_base::{List, PartText};
use loader_machine::Session;
use thiserror::Error;

/// A run of a fleet that came to its end.
#[derive(Drop)]
pub struct FleetDrive {
    /// What happened at each unit, what its two sides posted, and what became of its target's
    /// power.
    pub trace: FleetTrace,
    /// What each unit came to, from unit 1 on.
    pub units: List<UnitEnd>,
    /// What each batch came to, in the order in which they became the running one.
    pub batches: List<BatchEnd>,
}

/// What one unit of a fleet came to.
#[derive(Drop)]
pub struct UnitEnd {
    /// The loader's sessions with this unit, in the order of their starts.
    pub sessions: List<Session>,
    /// The configuration that the unit's disk holds at the end. None where the disk failed there.
    pub standing: Option<Standing>,
}

/// What a batch came to.
#[derive(Clone, Copy, Drop)]
pub struct BatchEnd {
    /// Its part number, as the script has it.
    pub part: PartText,
    /// To how many of its targets an upload was asked.
    pub asked: u16,
    /// How many targets it has.
    pub of: u16,
    pub end: BatchOutcome,
}

/// What became of a batch (docs/EXCHANGE.md, "Batches"). It may go on where a target is left, and
/// either no upload was asked or the session asked last is completed.
#[derive(Clone, Copy, PartialEq, Eq, Debug, Drop)]
pub enum BatchOutcome {
    /// The media set has no such batch.
    NotOnMedia,
    /// It may go on, and no unit has the next target's hardware and position.
    NoUnit,
    /// All uploads were asked, and their sessions are completed.
    Completed,
    /// The session asked last came to something else than completion.
    Stopped,
    /// The session asked last is live; or the batch may go on, and a unit has the next target's
    /// hardware and position.
    Open,
}

/// Why there was no run of a fleet. Units are counted from 1.
#[derive(Clone, Copy, Debug, PartialEq, Eq, Drop, Error)]
pub enum FleetFault {
    /// The disk of this unit failed as its target came up first, and its count of faults rose.
    #[error("the disk of unit {0} failed")]
    Disk(u8),
    /// The disk of this unit holds no configuration: V1 to V4.
    #[error("the disk of unit {unit} holds no configuration: {fault}")]
    NoConfig { unit: u8, fault: RecoverFault },
    /// Out of memory.
    #[error("out of memory")]
    Memory,
}
