//! Calls that are set to fail, and counts of what failed.
ghost use Rattle.std.specs.Prelude.{◌≡◌, ◌↔◌, ◌+◌, ◌-◌, ◌^◌, ◌≤◌, ◌∷◌, ◌++◌, [], IsTrue, min, OnOk};
ghost use Rattle.std.specs.Prelude.{OnErr};
ghost use Rattle.load_base.specs.Counts.{Rose};
ghost use Rattle.load_base.specs.Failing.{IsSetToFail, CountsCall};

use crate::{List, NoMemory};
use std::alloc::Global;
use std::marker::Model;

/// The numbers of an object's calls that are set to fail, and the number of its next call.
///
/// Calls count from 1. From call 4,294,967,295 on each has that number.
#[derive(Drop)]
pub struct FailingCalls {
    numbers: List<u32>,
    next: u32,
}

impl Model for FailingCalls {
    ghost use Rattle.load_base.specs.Failing.{CallNumbers, call_numbers_code};

    ghost Value = { CallNumbers };

    ghost coded = { call_numbers_code };

    ghost view = { λ calls. record { failing = calls.numbers.items; next = calls.next } };
}

impl FailingCalls {
    /// No call is set to fail, and the next is the first.
    pub fn new(alloc: Global) -> FailingCalls
        ensures failing { result.failing ≡ [] }
        ensures next { result.next ≡ 1 }
    {
        FailingCalls {
            numbers: List::new(alloc),
            next: 1,
        }
    }

    /// Lets the call with this number fail. A number may be set before or after its call, and more
    /// than once.
    pub fn fail_at(&mut self, call: u32) -> Result<(), NoMemory>
        ensures ok { OnOk result (self.new.failing ≡ self.old.failing ++ call ∷ []) }
        ensures err { OnErr result (self.new.failing ≡ self.old.failing) }
        ensures next { self.new.next ≡ self.old.next }
    {
        self.numbers.push(call)
    }

    /// Counts a call, and tells whether it is set to fail.
    pub fn count_call(&mut self) -> bool
        ensures fails { IsTrue result ↔ IsSetToFail self.old }
        ensures counts { CountsCall self.old self.new }
    {
        let fails = self.numbers.as_slice().contains(&self.next);
        self.next = self.next.saturating_add(1);
        fails
    }
}

/// How often an object has failed, up to the greatest `u64`.
#[derive(Clone, Copy)]
pub struct FaultCount {
    count: u64,
}

impl Model for FaultCount {
    ghost use Rattle.std.specs.Prelude.{ℕ};

    ghost Value = { ℕ };

    ghost view = { λ faults. faults.count };

    ghost inverse = { λ count. record { count = count } };
}

impl FaultCount {
    /// None yet.
    pub fn new() -> FaultCount
        ensures { result ≡ 0 }
    {
        FaultCount { count: 0 }
    }

    /// One more.
    pub fn rise(&mut self)
        ensures count { self.new ≡ min (self.old + 1) (2 ^ 64 - 1) }
        ensures later { self.old ≤ self.new }
        ensures once { self.new ≤ self.old + 1 }
        ensures rose { Rose self.old self.new }
    {
        self.count = self.count.saturating_add(1);
    }
}
