//! Where output goes.
ghost use Rattle.std.specs.Prelude.{◌≡◌, ◌↔◌, ◌++◌, [], ◌∷◌, List, ℕ, Option, Some, None, OnOk};
ghost use Rattle.std.specs.Prelude.{OnErr, IsErrOf};
ghost use Rattle.load_base.specs.Sink.{Puts, HasWriteCause};

use crate::{Bytes, FailingCalls, FaultCount, List as Items, NoMemory};
use std::alloc::Global;

/// Why bytes weren't written.
#[derive(Clone, Copy, Debug, PartialEq, Eq)]
pub enum WriteFault {
    /// The sink or the host failed, and its count of faults rose.
    Failed,
    /// Out of memory.
    Memory,
}

/// What takes the output of a run.
pub trait Sink {
    /// All bytes put so far, where the sink tells them.
    ghost content: { Self → Option (List ℕ) };

    /// How often it has failed.
    ghost faults: { Self → ℕ };

    /// Puts all the bytes. A sink that fails takes a prefix of them, one that is out of memory
    /// none.
    fn put(&mut self, bytes: &[u8]) -> Result<(), WriteFault>
        ensures content { Puts (content self.old) (content self.new) bytes.now result }
        ensures cause { HasWriteCause (faults self.old) (faults self.new) result };
}

/// A sink in memory, of which calls can be set to fail. A call that fails takes no byte.
#[derive(Drop)]
pub struct MemSink {
    bytes: Bytes,
    calls: FailingCalls,
    faults: FaultCount,
}

impl MemSink {
    ghost use Rattle.load_base.specs.MemSink.{bytes_put, calls_of, faults_of};

    /// An empty sink without faults.
    pub fn new(alloc: Global) -> MemSink
        ensures bytes { bytes_put result ≡ [] }
        ensures failing { (calls_of result).failing ≡ [] }
        ensures next { (calls_of result).next ≡ 1 }
        ensures faults { faults_of result ≡ 0 }
    {
        MemSink {
            bytes: Items::new(alloc),
            calls: FailingCalls::new(alloc),
            faults: FaultCount::new(),
        }
    }

    /// Lets the call of `put` with this number fail; calls count from 1.
    pub fn fail_at(&mut self, call: u32) -> Result<(), NoMemory>
        ensures ok { OnOk result
            ((calls_of self.new).failing ≡ (calls_of self.old).failing ++ call ∷ []) }
        ensures err { OnErr result ((calls_of self.new).failing ≡ (calls_of self.old).failing) }
        ensures next { (calls_of self.new).next ≡ (calls_of self.old).next }
        ensures bytes { bytes_put self.new ≡ bytes_put self.old }
        ensures faults { faults_of self.new ≡ faults_of self.old }
    {
        self.calls.fail_at(call)
    }

    /// The bytes put so far.
    pub fn as_slice(&self) -> &[u8]
        ensures { result.now ≡ bytes_put self.now }
    {
        self.bytes.as_slice()
    }
}

impl Sink for MemSink {
    ghost use Rattle.load_base.specs.Failing.{IsSetToFail, CountsCall};
    ghost use Rattle.load_base.specs.MemSink.{bytes_put, calls_of, faults_of};

    ghost content = { λ sink. Some (bytes_put sink) };

    ghost faults = { faults_of };

    fn put(&mut self, bytes: &[u8]) -> Result<(), WriteFault>
        ensures content { Puts (Some (bytes_put self.old))
            (Some (bytes_put self.new)) bytes.now result }
        ensures cause { HasWriteCause (faults_of self.old) (faults_of self.new) result }
        ensures fails { IsErrOf result WriteFault.Failed ↔ IsSetToFail (calls_of self.old) }
        ensures counts { CountsCall (calls_of self.old) (calls_of self.new) }
    {
        if self.calls.count_call() {
            self.faults.rise();
            return Err(WriteFault::Failed);
        }
        append(&mut self.bytes, bytes)
    }
}

fn append(to: &mut Bytes, bytes: &[u8]) -> Result<(), WriteFault>
    ensures ok { OnOk result (to.new.items ≡ to.old.items ++ bytes.now) }
    ensures err { OnErr result (to.new.items ≡ to.old.items) }
    ensures only_memory { ¬ IsErrOf result WriteFault.Failed }
{
    to.extend(bytes).map_err(|_| WriteFault::Memory)
}

/// Standard output. It tells nothing of what went out, and is never out of memory.
#[derive(Drop)]
pub struct StdSink<'r, R: Print> {
    rt: &'r R,
    faults: FaultCount,
}

impl<'r, R: Print> StdSink<'r, R> {
    /// Standard output, without faults yet.
    pub fn new(rt: &'r R) -> StdSink<'r, R>
        ensures { ⟦<StdSink<'r, R> as Sink>⟧.faults result ≡ 0 }
    {
        StdSink {
            rt,
            faults: FaultCount::new(),
        }
    }
}

impl<R: Print> Sink for StdSink<'_, R> {
    ghost content = { λ _. None };

    ghost faults = { λ sink. sink.faults };

    fn put(&mut self, bytes: &[u8]) -> Result<(), WriteFault>
        ensures content { Puts None None bytes.now result }
        ensures cause { HasWriteCause self.old.faults self.new.faults result }
        ensures never_memory { ¬ IsErrOf result WriteFault.Memory }
    {
        match self.rt.write_all(bytes) {
            Ok(()) => Ok(()),
            Err(_) => {
                self.faults.rise();
                Err(WriteFault::Failed)
            }
        }
    }
}
