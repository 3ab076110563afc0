//! The trace of a run while it goes on.
ghost use Rattle.std.specs.Prelude.{◌≡◌, ◌-◌, ◌≤◌, ◌∷◌, [], None, Some, length, option_map};
ghost use Rattle.std.specs.Prelude.{OnOk, slice_get};
ghost use Rattle.exchange_trace.specs.Happenings.{datagram_view, happening_view};
ghost use Rattle.exchange_trace.specs.Posts.{first_port_after, numbered, port_above, posted_in};
ghost use Rattle.exchange_trace.specs.Steps.{Boot_refused, Came_up, Went_down, steps_of};
ghost use Rattle.exchange_trace.specs.Steps.{with_given, with_line, with_note, with_post};
ghost use Rattle.replay_turns.specs.Orders.{IsInOrder};
ghost use Rattle.replay_turns.specs.Recordings.{StepHasBegun, HasPlace, post_of};

use disk_layout::RecoverFault;
use exchange_trace::{Datagram, FIRST_PORT, Happening, Side, TraceStep};
use load_base::{List, NoMemory};
use std::alloc::Global;
use std::marker::Model;
use transfer_end::REQUEST_PORT;

/// The trace so far, in which each datagram is found by its number.
#[derive(Drop)]
pub struct Recording {
    trace: Vec<TraceStep>,
    /// Where in the trace each datagram was posted.
    posts: Vec<usize>,
    /// The first port of a target that boots now.
    first_port: u32,
}

impl Model for Recording {
    ghost use Rattle.std.specs.Prelude.{List};
    ghost use Rattle.exchange_trace.specs.Steps.{Step, steps_of};
    ghost use Rattle.replay_turns.specs.Recordings.{IsRecorded};

    ghost Value = { List Step };

    ghost view = { λ r. steps_of r.trace.items };

    ghost invariant = { λ r. IsRecorded r.trace.items r.posts.items r.first_port };
}

impl Recording {
    /// Nothing has happened yet.
    pub fn new(alloc: Global) -> Recording
        ensures { result ≡ [] }
    {
        Recording {
            trace: Vec::new(alloc),
            posts: Vec::new(alloc),
            first_port: FIRST_PORT,
        }
    }

    /// A line of the trace that posts nothing.
    fn push(&mut self, line: TraceStep) -> Result<(), NoMemory>
        requires no_post { post_of (Some line) ≡ None }
        requires place { HasPlace self.old line }
        ensures { OnOk result (self.new ≡ with_line self.old line) }
    {
        self.trace.reserve(1)?;
        self.trace.push_reserved(line);
        Ok(())
    }

    /// Something happens.
    pub fn record_happening(&mut self, happening: Happening) -> Result<(), NoMemory>
        ensures given { OnOk result (self.new ≡ with_given self.old (happening_view happening)) }
        ensures begun { OnOk result (StepHasBegun self.new) }
    {
        self.push(TraceStep::Given(happening))
    }

    /// A side posts a datagram in the step.
    pub fn post(&mut self, datagram: Datagram) -> Result<(), NoMemory>
        requires { StepHasBegun self.old }
        ensures post { OnOk result (self.new ≡ with_post self.old (datagram_view datagram)) }
        ensures begun { OnOk result (StepHasBegun self.new) }
    {
        let first_port = port_after(self.first_port, &datagram);
        self.posts.reserve(1)?;
        self.trace.reserve(1)?;
        self.posts.push_reserved(self.trace.as_slice().len());
        self.trace.push_reserved(TraceStep::Posted(datagram));
        self.first_port = first_port;
        Ok(())
    }

    /// The target goes down in the step.
    pub fn note_down(&mut self) -> Result<(), NoMemory>
        requires { StepHasBegun self.old }
        ensures { OnOk result (self.new ≡ with_note self.old Went_down) }
    {
        self.push(TraceStep::Down)
    }

    /// The target comes up in the step.
    pub fn note_up(&mut self, first_port: u32, sequence: u32) -> Result<(), NoMemory>
        requires { StepHasBegun self.old }
        ensures { OnOk result (self.new ≡ with_note self.old (Came_up first_port sequence)) }
    {
        self.push(TraceStep::Up {
            first_port,
            sequence,
        })
    }

    /// The target stays down in the step.
    pub fn note_refused(&mut self, fault: RecoverFault) -> Result<(), NoMemory>
        requires { StepHasBegun self.old }
        ensures { OnOk result (self.new ≡ with_note self.old (Boot_refused fault)) }
    {
        self.push(TraceStep::BootRefused(fault))
    }

    /// The datagram of this number, if it was posted.
    #[tactic(auto, using(crate::proofs::Recorded::found_datagram, crate::proofs::Recorded::no_datagram))]
    pub fn datagram(&self, number: u64) -> Option<&Datagram>
        ensures { option_map (λ d. datagram_view d.now) result
            ≡ numbered (posted_in self.now) number }
    {
        if number == 0 {
            return None;
        }
        match index_of(self.posts.as_slice(), number) {
            Some(index) => posted_at(self.trace.as_slice(), index),
            None => None,
        }
    }

    /// How many datagrams were posted. The newest has this number.
    #[tactic(auto, using(crate::proofs::Recorded::each_found))]
    pub fn posted_count(&self) -> u64
        ensures { result ≡ length (posted_in self.now) }
    {
        self.posts.as_slice().len() as u64
    }

    /// The first port of a target that boots now.
    pub fn first_port(&self) -> u32
        ensures is { result ≡ first_port_after self.now }
        ensures small { result ≤ 65536 }
    {
        self.first_port
    }

    /// The trace so far.
    pub fn trace(&self) -> &[TraceStep]
        ensures steps { steps_of result.now ≡ self.now }
        ensures ordered { IsInOrder result.now }
    {
        self.trace.as_slice()
    }

    /// The trace. It takes no memory.
    pub fn into_trace(self) -> List<TraceStep>
        ensures steps { steps_of result.items ≡ self }
        ensures ordered { IsInOrder result.items }
    {
        List::from(self.trace)
    }
}

/// Where in the trace the datagram of this number was posted.
fn index_of(posts: &[usize], number: u64) -> Option<usize>
    requires { 1 ≤ number }
    ensures { result ≡ slice_get posts.now (number - 1) }
{
    posts.get((number - 1) as usize).copied()
}

/// The datagram that this line of the trace posts.
fn posted_at(trace: &[TraceStep], index: usize) -> Option<&Datagram>
    ensures { option_map (λ d. datagram_view d.now) result ≡ post_of (slice_get trace.now index) }
{
    match trace.get(index) {
        Some(TraceStep::Posted(datagram)) => Some(datagram),
        _ => None,
    }
}

/// The first port of a target that boots after this datagram too.
fn port_after(first_port: u32, datagram: &Datagram) -> u32
    requires { first_port ≤ 65536 }
    ensures is { result ≡ port_above first_port (datagram_view datagram.now ∷ []) }
    ensures small { result ≤ 65536 }
{
    match datagram.from_side {
        Side::Target if datagram.from != REQUEST_PORT => first_port.max(
            u32::from(datagram.from) + 1,
        ),
        _ => first_port,
    }
}
