//! The types of a fleet's trace.
use exchange_trace::{Happening, TraceStep};
use load_base::PartText;

/// What happens in a fleet. Units are counted from 1, and a datagram's number in a happening is
/// its place among the posts of that unit's two sides, from 1.
#[derive(Drop)]
pub enum FleetHappening {
    /// Something happens at this unit; it is never the end.
    At { unit: u8, happening: Happening },
    /// The batch with this part number becomes the running one.
    Batch(PartText),
    /// The upload to the next target of the running batch is asked.
    AskNext,
    /// Nothing happens any more at any unit.
    End,
}

/// A line of a fleet's trace.
#[derive(Drop)]
pub enum FleetStep {
    /// A line of this unit, counted from 1.
    At { unit: u8, step: TraceStep },
    /// The batch with this part number became the running one.
    Batch(PartText),
    /// The upload to the next target of the running batch was asked. The line after it starts that.
    AskNext,
    /// Nothing happened any more at any unit.
    End,
}
