//! A disk in memory.
ghost use Rattle.std.specs.Prelude.{◌≡◌, ◌⊎◌, ◌↔◌, ℕ, ◌+◌, ◌<◌, ◌≤◌, Some, true, false, length};
ghost use Rattle.std.specs.Prelude.{slice_index, [], ◌∷◌, ◌++◌, IfOk, IsErrOf, OnOk, OnErr};
ghost use Rattle.std.specs.Bool.{OnTrue, OnFalse};
ghost use Rattle.std.specs.Option.{ForSome};
ghost use Rattle.disk_model.specs.Image.{Image, image_of, range, overlay};
ghost use Rattle.disk_model.specs.State.{IsSettled, Closed, KeepsClosed, OnlyReads, Torn, Elapses};
ghost use Rattle.disk_model.specs.State.{HasCause};
ghost use Rattle.disk_model.specs.Replay.{replayed, MayLeave, MightHaveLeft, AddsWrite};
ghost use Rattle.disk_model.specs.Replay.{IsSettling};
ghost use Rattle.disk_model.specs.Laws.{held_may_leave, counts_its_now, only_its_now};
ghost use Rattle.disk_model.specs.Laws.{wider_time, split_time};

use crate::disk::refuse;
use crate::{Call, Disk, DiskFault, Note, SIZE};
use load_base::{Bytes, FailingCalls, FaultCount, List as Items, NoMemory};
use std::alloc::{AllocError, Global};

/// A disk in memory, of which calls can be set to fail.
///
/// It keeps what it held at first and a note of each write, sync and restart, so that it can tell
/// what a power loss may leave at each of its calls. It answers Memory where there is none for the
/// note.
#[derive(Drop)]
pub struct MemDisk {
    alloc: Global,
    first: Bytes,
    notes: Items<Note>,
    bytes: Vec<u8>,
    calls: FailingCalls,
    faults: FaultCount,
    refusals: FaultCount,
    stopped: bool,
    ghost same: { (offset : ℕ)
        → slice_index bytes.items offset ≡ replayed first.items notes.items offset },
}

impl MemDisk {
    ghost use Rattle.disk_model.specs.MemDisk.{disk_bytes, first_of, notes_of, calls_of, state_of};
    ghost use Rattle.disk_model.specs.MemDisk.{IsUnchanged, NotesCall};

    /// A disk with these bytes from offset 0 on, that has not failed.
    pub fn new(alloc: Global, bytes: &[u8]) -> Result<MemDisk, NoMemory>
        requires { length bytes.now ≤ SIZE }
        // It is steady, reads as these bytes, a power loss leaves nothing else, and no call failed.
        ensures reads { IfOk result (λ disk. (state_of disk).reads ≡ Some (image_of bytes.now)) }
        ensures only_image { IfOk result (λ disk. IsSettled (state_of disk)) }
        ensures running { IfOk result (λ disk. (state_of disk).stopped ≡ false) }
        ensures steady { IfOk result (λ disk. (state_of disk).steady ≡ true) }
        ensures no_faults { IfOk result (λ disk.
            ((state_of disk).faults ≡ 0) × ((state_of disk).refusals ≡ 0)) }

        // What it shows of itself.
        ensures bytes { IfOk result (λ disk.
            (disk_bytes disk ≡ bytes.now) × (first_of disk ≡ bytes.now) × (notes_of disk ≡ [])) }
        ensures calls { IfOk result (λ disk.
            ((calls_of disk).failing ≡ []) × ((calls_of disk).next ≡ 1)) }
    {
        let first = Bytes::copy_of(alloc, bytes)?;
        let mut held = Vec::new(alloc);
        held.extend_from_slice(bytes)?;
        Ok(MemDisk {
            alloc,
            first,
            notes: Items::new(alloc),
            bytes: held,
            calls: FailingCalls::new(alloc),
            faults: FaultCount::new(),
            refusals: FaultCount::new(),
            stopped: false,
        })
    }

    /// Lets the call of the disk with this number fail; calls count from 1.
    pub fn fail_at(&mut self, call: u32) -> Result<(), NoMemory>
        ensures ok { OnOk result
            ((calls_of self.new).failing ≡ (calls_of self.old).failing ++ call ∷ []) }
        ensures err { OnErr result ((calls_of self.new).failing ≡ (calls_of self.old).failing) }
        ensures next { (calls_of self.new).next ≡ (calls_of self.old).next }

        // Nothing else changes.
        ensures unchanged { IsUnchanged self.old self.new }
        ensures only_reads { OnlyReads (state_of self.old) (state_of self.new) }
        ensures reads { (state_of self.new).reads ≡ (state_of self.old).reads }
        ensures stopped { (state_of self.new).stopped ≡ (state_of self.old).stopped }
        ensures counts { ((state_of self.new).faults ≡ (state_of self.old).faults)
            × ((state_of self.new).refusals ≡ (state_of self.old).refusals) }
    {
        self.calls.fail_at(call)
    }

    /// The bytes that it holds, from offset 0 on. After them it reads as zero.
    pub fn as_slice(&self) -> &[u8]
        ensures bytes { result.now ≡ disk_bytes self.now }
        ensures reads { (state_of self.now).reads ≡ Some (image_of (disk_bytes self.now)) }
    {
        &self.bytes
    }

    /// The bytes that it was made with.
    pub fn first_bytes(&self) -> &[u8]
        ensures { result.now ≡ first_of self.now }
    {
        self.first.as_slice()
    }

    /// Its writes, syncs and restarts in their order, those too that were set to fail, but none
    /// that was refused out of memory. They and the first bytes tell what it holds, and what a
    /// power loss may leave now or might have left before.
    pub fn notes(&self) -> &[Note]
        ensures notes { result.now ≡ notes_of self.now }
        ensures replayed { (offset : ℕ) → image_of (disk_bytes self.now) offset
            ≡ replayed (first_of self.now) (notes_of self.now) offset }
        ensures now { (image : Image) → (state_of self.now).now image
            ↔ MayLeave (first_of self.now) (notes_of self.now) image }
        ensures between { (t u : ℕ) (image : Image) → (state_of self.now).between t u image
            ↔ MightHaveLeft (first_of self.now) (notes_of self.now) t u image }
        ensures clock { (state_of self.now).clock ≡ length (notes_of self.now) }
    {
        self.notes.as_slice()
    }

    /// Keeps a note of a sync or a restart, and lets it fail where that is set.
    fn settle(&mut self, call: Call) -> Result<(), DiskFault>
        requires { IsSettling call }
        ensures notes { NotesCall call self.old self.new result }
        ensures settled { OnOk result (IsSettled (state_of self.new)) }
        ensures elapses { Elapses (state_of self.old) (state_of self.new)
            (state_of self.old).now result }
        ensures cause { HasCause (state_of self.old) (state_of self.new) result }
    {
        let fails = self.calls.count_call();
        let note = Note { call, done: !fails };
        let Ok(()) = self.notes.push(note) else {
            refuse(&mut self.refusals, &mut self.stopped);
            return Err(DiskFault::Memory);
        };
        if fails {
            refuse(&mut self.faults, &mut self.stopped);
            return Err(DiskFault::Failed);
        }
        self.stopped = false;
        Ok(())
    }
}

impl Disk for MemDisk {
    ghost use Rattle.disk_model.specs.MemDisk.{state_of, CountsRead, NotesCall, NotesWrite};

    ghost state = { state_of };

    ghost reads_now = { λ d. held_may_leave d.first.items d.notes.items d.bytes.items d.same };

    ghost counts_now = { λ d. counts_its_now d.first.items d.notes.items };

    ghost only_now = { λ d. only_its_now d.first.items d.notes.items };

    ghost wider = { λ d. wider_time d.first.items d.notes.items };

    ghost splits = { λ d. split_time d.first.items d.notes.items };

    fn read(&mut self, at: u32, buf: &mut [u8]) -> Result<(), DiskFault>
        requires running { (state_of self.old).stopped ≡ false }
        requires within { at + length buf.old ≤ SIZE }
        ensures counts { CountsRead self.old self.new result }
        ensures bytes { OnOk result (ForSome (state_of self.old).reads
            (λ image. buf.new ≡ range image at (length buf.old))) }
        ensures kept { OnOk result ((state_of self.new).reads ≡ (state_of self.old).reads) }
        ensures only_reads { OnlyReads (state_of self.old) (state_of self.new) }
        ensures cause { HasCause (state_of self.old) (state_of self.new) result }
        ensures never_memory { ¬ IsErrOf result DiskFault.Memory }
    {
        if self.calls.count_call() {
            refuse(&mut self.faults, &mut self.stopped);
            return Err(DiskFault::Failed);
        }
        copy_out(&self.bytes, at as usize, buf);
        Ok(())
    }

    fn write(&mut self, at: u32, bytes: &[u8]) -> Result<(), DiskFault>
        requires running { (state_of self.old).stopped ≡ false }
        requires within { at + length bytes.now ≤ SIZE }
        ensures notes { NotesWrite at bytes.now self.old self.new result }
        ensures bytes { OnOk result (ForSome (state_of self.old).reads
            (λ image. (state_of self.new).reads ≡ Some (overlay image at bytes.now))) }
        ensures torn { OnOk result (Closed (state_of self.new) at (length bytes.now)) }
        ensures closed { KeepsClosed (state_of self.old) (state_of self.new) }
        ensures elapses { Elapses (state_of self.old) (state_of self.new)
            (Torn at (length bytes.now) (state_of self.old).now) result }
        ensures cause { HasCause (state_of self.old) (state_of self.new) result }
    {
        let fails = self.calls.count_call();
        let (notes, held) = (&mut self.notes, &mut self.bytes);
        let Ok(()) = note_write(self.alloc, notes, held, at, bytes, !fails) else {
            refuse(&mut self.refusals, &mut self.stopped);
            return Err(DiskFault::Memory);
        };
        if fails {
            refuse(&mut self.faults, &mut self.stopped);
            return Err(DiskFault::Failed);
        }
        Ok(())
    }

    fn sync(&mut self) -> Result<(), DiskFault>
        requires running { (state_of self.old).stopped ≡ false }
        ensures notes { NotesCall Call.Sync self.old self.new result }
        ensures kept { OnOk result ((state_of self.new).reads ≡ (state_of self.old).reads) }
        ensures settled { OnOk result (IsSettled (state_of self.new)) }
        ensures elapses { Elapses (state_of self.old) (state_of self.new)
            (state_of self.old).now result }
        ensures cause { HasCause (state_of self.old) (state_of self.new) result }
    {
        self.settle(Call::Sync)
    }

    fn restart(&mut self) -> Result<(), DiskFault>
        ensures notes { NotesCall Call.Restart self.old self.new result }
        ensures settled { OnOk result (IsSettled (state_of self.new)) }
        ensures elapses { Elapses (state_of self.old) (state_of self.new)
            (state_of self.old).now result }
        ensures cause { HasCause (state_of self.old) (state_of self.new) result }
    {
        self.settle(Call::Restart)
    }
}

/// Bytes past the end are zero.
fn copy_out(bytes: &[u8], at: usize, buf: &mut [u8])
    requires { at + length buf.old ≤ SIZE }
    ensures { buf.new ≡ range (image_of bytes.now) at (length buf.old) }
{
    let begin = at.min(bytes.len());
    let count = buf.len().min(bytes.len() - begin);
    buf.fill(0);
    buf[..count].copy_from_slice(&bytes[begin..begin + count]);
}

/// Keeps a note of a write, and makes it where it is to be done.
fn note_write(
    alloc: Global,
    notes: &mut Items<Note>,
    held: &mut Vec<u8>,
    at: u32,
    bytes: &[u8],
    done: bool,
) -> Result<(), NoMemory>
    requires { at + length bytes.now ≤ SIZE }
    ensures noted { OnOk result (AddsWrite notes.old.items notes.new.items at bytes.now done) }
    ensures written { OnOk result (OnTrue done ((offset : ℕ) → slice_index held.new.items offset
        ≡ overlay (image_of held.old.items) at bytes.now offset)) }
    ensures unwritten { OnOk result (OnFalse done (held.new.items ≡ held.old.items)) }
    ensures not_noted { OnErr result (notes.new.items ≡ notes.old.items) }
    ensures err { OnErr result (held.new.items ≡ held.old.items) }
{
    let copy = Bytes::copy_of(alloc, bytes)?;
    notes.reserve(1)?;
    if done {
        overwrite(held, at as usize, bytes)?;
    }
    notes.push(Note {
        call: Call::Write { at, bytes: copy },
        done,
    })
}

fn overwrite(to: &mut Vec<u8>, at: usize, bytes: &[u8]) -> Result<(), AllocError>
    requires { at + length bytes.now ≤ SIZE }
    ensures ok { OnOk result ((offset : ℕ)
        → slice_index to.new.items offset ≡ overlay (image_of to.old.items) at bytes.now offset) }
    ensures err { OnErr result (to.new.items ≡ to.old.items) }
{
    lengthen(to, at + bytes.len())?;
    paste(to, at, bytes);
    Ok(())
}

/// Zeros come after the end, as they are read there.
fn lengthen(to: &mut Vec<u8>, len: usize) -> Result<(), AllocError>
    ensures len { OnOk result (len ≤ length to.new.items) }
    ensures same { OnOk result
        ((offset : ℕ) → slice_index to.new.items offset ≡ slice_index to.old.items offset) }
    ensures err { OnErr result (to.new.items ≡ to.old.items) }
{
    if len > to.len() {
        to.resize(len, 0)?;
    }
    Ok(())
}

fn paste(to: &mut [u8], at: usize, bytes: &[u8])
    requires { at + length bytes.now ≤ length to.old }
    ensures inside { (k : ℕ) → k < length bytes.now
        → slice_index to.new (at + k) ≡ slice_index bytes.now k }
    ensures outside { (offset : ℕ) → (offset < at) ⊎ (at + length bytes.now ≤ offset)
        → slice_index to.new offset ≡ slice_index to.old offset }
{
    to[at..at + bytes.len()].copy_from_slice(bytes);
}
