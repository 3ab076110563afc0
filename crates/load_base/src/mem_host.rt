//! A host in memory.
ghost use Rattle.std.specs.Prelude.{◌≡◌, ◌↔◌, ◌≤◌, ◌∷◌, ◌++◌, [], Some, OnOk, OnErr, IfOk};
ghost use Rattle.std.specs.Prelude.{IsErrOf, length, option_map};
ghost use Rattle.load_base.specs.Bytes.{same_bytes};
ghost use Rattle.load_base.specs.Host.{ReadsFile, WritesFile, HasReadCause, longest_file};
ghost use Rattle.load_base.specs.Sink.{HasWriteCause};
ghost use Rattle.load_base.specs.Written.{IsAppended, written_files};

use crate::host::{Host, LONGEST_FILE, ReadFault};
use crate::{Bytes, FailingCalls, FaultCount, List, NoMemory, WriteFault};
use std::alloc::Global;

/// A file as it was written last, or before.
#[derive(Drop)]
pub(crate) struct Written {
    pub(crate) name: Bytes,
    pub(crate) bytes: Bytes,
}

/// A host in memory, of which calls can be set to fail. It keeps all that was written; the last of
/// a name counts.
#[derive(Drop)]
pub struct MemHost {
    alloc: Global,
    written: List<Written>,
    calls: FailingCalls,
    faults: FaultCount,
}

impl MemHost {
    ghost use Rattle.load_base.specs.Written.{no_files};
    ghost use Rattle.load_base.specs.MemHost.{files_of, calls_of, faults_of};

    /// A host without files and without faults.
    pub fn new(alloc: Global) -> MemHost
        ensures files { files_of result ≡ no_files }
        ensures failing { (calls_of result).failing ≡ [] }
        ensures next { (calls_of result).next ≡ 1 }
        ensures faults { faults_of result ≡ 0 }
    {
        MemHost {
            alloc,
            written: List::new(alloc),
            calls: FailingCalls::new(alloc),
            faults: FaultCount::new(),
        }
    }

    /// Lets the call of `read` or `write` with this number fail; calls count from 1, over both.
    pub fn fail_at(&mut self, call: u32) -> Result<(), NoMemory>
        ensures ok { OnOk result
            ((calls_of self.new).failing ≡ (calls_of self.old).failing ++ call ∷ []) }
        ensures err { OnErr result ((calls_of self.new).failing ≡ (calls_of self.old).failing) }
        ensures next { (calls_of self.new).next ≡ (calls_of self.old).next }
        ensures files { files_of self.new ≡ files_of self.old }
        ensures faults { faults_of self.new ≡ faults_of self.old }
    {
        self.calls.fail_at(call)
    }
}

impl Host for MemHost {
    ghost use Rattle.load_base.specs.Failing.{IsSetToFail, CountsCall};
    ghost use Rattle.load_base.specs.MemHost.{files_of, calls_of, faults_of};

    ghost files = { λ host. Some (files_of host) };

    ghost faults = { faults_of };

    fn read(&mut self, alloc: Global, name: &[u8]) -> Result<Bytes, ReadFault>
        ensures file { ReadsFile (Some (files_of self.old)) name.now result }
        ensures short { IfOk result (λ bytes. length bytes.items ≤ longest_file) }
        ensures kept { Some (files_of self.new) ≡ Some (files_of self.old) }
        ensures cause { HasReadCause (faults_of self.old) (faults_of self.new) result }
        ensures fails { IsErrOf result ReadFault.Failed ↔ IsSetToFail (calls_of self.old) }
        ensures counts { CountsCall (calls_of self.old) (calls_of self.new) }
    {
        if self.calls.count_call() {
            self.faults.rise();
            return Err(ReadFault::Failed);
        }
        match last_of(self.written.as_slice(), name) {
            Some(bytes) if bytes.len() > LONGEST_FILE => Err(ReadFault::TooLong),
            Some(bytes) => match Bytes::copy_of(alloc, bytes) {
                Ok(copy) => Ok(copy),
                Err(NoMemory) => Err(ReadFault::Memory),
            },
            None => Err(ReadFault::Absent),
        }
    }

    fn write(&mut self, name: &[u8], bytes: &[u8]) -> Result<(), WriteFault>
        ensures file { WritesFile (Some (files_of self.old))
            (Some (files_of self.new)) name.now bytes.now result }
        ensures cause { HasWriteCause (faults_of self.old) (faults_of self.new) result }
        ensures fails { IsErrOf result WriteFault.Failed ↔ IsSetToFail (calls_of self.old) }
        ensures counts { CountsCall (calls_of self.old) (calls_of self.new) }
    {
        if self.calls.count_call() {
            self.faults.rise();
            return Err(WriteFault::Failed);
        }
        match append(self.alloc, &mut self.written, name, bytes) {
            Ok(()) => Ok(()),
            Err(NoMemory) => Err(WriteFault::Memory),
        }
    }
}

/// The bytes that were written last under this name.
#[tactic(auto, using(crate::proofs::WrittenFiles::one_more, crate::proofs::WrittenFiles::none_yet))]
fn last_of<'w>(written: &'w [Written], name: &'w [u8]) -> Option<&'w [u8]>
    ensures { option_map (λ bytes. bytes.now) result ≡ written_files written.now name.now }
{
    let mut last = None;
    for file in written {
        if is_same(file.name.as_slice(), name) {
            last = Some(file.bytes.as_slice());
        }
    }
    last
}

fn is_same<'a>(one: &'a [u8], other: &'a [u8]) -> bool
    ensures { result ≡ same_bytes one.now other.now }
{
    one == other
}

fn append(
    alloc: Global,
    written: &mut List<Written>,
    name: &[u8],
    bytes: &[u8],
) -> Result<(), NoMemory>
    ensures ok { OnOk result (IsAppended written.old.items written.new.items name.now bytes.now) }
    ensures err { OnErr result (written.new.items ≡ written.old.items) }
{
    let mut file = Written {
        name: Bytes::new(alloc),
        bytes: Bytes::new(alloc),
    };
    file.name.extend(name)?;
    file.bytes.extend(bytes)?;
    written.push(file)
}
