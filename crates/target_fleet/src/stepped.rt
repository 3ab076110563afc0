//! What the steps of a fleet were of.
ghost use Rattle.std.specs.Prelude.{◌≡◌, ◌∷◌, ◌++◌, [], length, IfNone, IfSome, OnOk};
ghost use Rattle.fleet_trace.specs.Merging.{Batch_came, Unit_stepped};
ghost use Rattle.target_fleet.specs.SteppingOrders.{IsStepOf, stepped_view};

use load_base::{List, NoMemory, PartText};
use std::alloc::Global;
use std::marker::Model;

/// What a step was of.
#[derive(Clone, Copy)]
pub(crate) enum Stepped {
    /// This unit, counted from 1; the upload that starts in the step may have been asked.
    Unit { unit: u8, asked: bool },
    /// This batch, which became the running one.
    Batch(PartText),
}

/// What a step was of, as it is kept. There is one for each happening of a run, so it is small.
#[derive(Clone, Copy)]
pub(crate) enum KeptStep {
    /// This unit, counted from 1.
    Unit(u8),
    /// This unit, at which an upload was asked.
    Asked(u8),
    /// The next batch.
    Batch,
}

/// What the steps of a fleet were of, in their order.
#[derive(Drop)]
pub(crate) struct SteppingOrder {
    steps: List<KeptStep>,
    /// The batches that became the running one, in their order.
    batches: List<PartText>,
}

impl Model for SteppingOrder {
    ghost use Rattle.std.specs.Prelude.{List};
    ghost use Rattle.fleet_trace.specs.Merging.{Stepped};
    ghost use Rattle.target_fleet.specs.SteppingOrders.{NamesBatches, steps_kept};

    ghost Value = { List Stepped };

    ghost view = { λ order. steps_kept order.steps.items order.batches.items };

    ghost invariant = { λ order. NamesBatches order.steps.items order.batches.items };
}

impl SteppingOrder {
    /// There was none yet.
    pub(crate) fn new(alloc: Global) -> SteppingOrder
        ensures { result ≡ [] }
    {
        SteppingOrder {
            steps: List::new(alloc),
            batches: List::new(alloc),
        }
    }

    /// How many there were.
    #[tactic(auto, using(crate::proofs::SteppedSoFar::steps_many))]
    pub(crate) fn len(&self) -> usize
        ensures { result ≡ length self.now }
    {
        self.steps.len()
    }

    /// A step of this unit; the upload that starts in it may have been asked.
    pub(crate) fn push_unit(&mut self, unit: u8, asked: bool) -> Result<(), NoMemory>
        ensures { OnOk result (self.new ≡ self.old ++ Unit_stepped asked unit ∷ []) }
    {
        self.steps.push(unit_step(unit, asked))
    }

    /// This batch became the running one.
    pub(crate) fn push_batch(&mut self, part: PartText) -> Result<(), NoMemory>
        ensures { OnOk result (self.new ≡ self.old ++ Batch_came part ∷ []) }
    {
        self.steps.reserve(1)?;
        self.batches.push(part)?;
        self.steps.push(KeptStep::Batch)
    }

    /// Takes the newest off.
    pub(crate) fn pop(&mut self) -> Option<Stepped>
        ensures newest { IfSome result (λ stepped.
            self.old ≡ self.new ++ stepped_view stepped ∷ []) }
        ensures none { IfNone result (self.old ≡ []) }
    {
        match self.steps.pop()? {
            KeptStep::Unit(unit) => Some(Stepped::Unit { unit, asked: false }),
            KeptStep::Asked(unit) => Some(Stepped::Unit { unit, asked: true }),
            KeptStep::Batch => Some(Stepped::Batch(self.batches.pop()?)),
        }
    }
}

/// A step of this unit.
fn unit_step(unit: u8, asked: bool) -> KeptStep
    ensures { IsStepOf asked unit result }
{
    if asked {
        KeptStep::Asked(unit)
    } else {
        KeptStep::Unit(unit)
    }
}
