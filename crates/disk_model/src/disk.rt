//! A disk as recovery and the store see it.
ghost use Rattle.std.specs.Prelude.{◌≡◌, ◌⊎◌, ℕ, ◌+◌, ◌≤◌, ◌<◌, true, false, Some, length};
ghost use Rattle.std.specs.Prelude.{OnOk};
ghost use Rattle.std.specs.Option.{ForSome};
ghost use Rattle.disk_model.specs.Image.{Image, range, overlay};
ghost use Rattle.disk_model.specs.State.{DiskState, IsSettled, Closed, KeepsClosed, OnlyReads};
ghost use Rattle.disk_model.specs.State.{Torn, Elapses, HasCause};
ghost use Rattle.load_base.specs.Counts.{Rose};

use load_base::FaultCount;

/// Why a disk didn't do what it was asked.
#[derive(Clone, Copy, Debug, PartialEq, Eq)]
pub enum DiskFault {
    /// The disk failed, and its count of faults rose.
    Failed,
    /// Out of memory, and its count of memory refusals rose.
    Memory,
}

/// The bytes of a disk: the identity, the slots, and two banks of 64 MiB (docs/DISK.md).
pub const SIZE: u32 = 134_225_920;

/// A disk of [`SIZE`] bytes, of which those never written are zero.
///
/// Between two syncs each range that was written may hold any bytes after a power loss; other bytes
/// stay. A call that is refused stops the disk until the next restart.
pub trait Disk {
    ghost state: { Self → DiskState };

    /// Fills `buf` with the bytes from offset `at` on.
    fn read(&mut self, at: u32, buf: &mut [u8]) -> Result<(), DiskFault>
        requires running { (state self.old).stopped ≡ false }
        requires within { at + length buf.old ≤ SIZE }
        ensures bytes { OnOk result (ForSome (state self.old).reads
            (λ image. buf.new ≡ range image at (length buf.old))) }
        ensures kept { OnOk result ((state self.new).reads ≡ (state self.old).reads) }
        ensures only_reads { OnlyReads (state self.old) (state self.new) }
        ensures cause { HasCause (state self.old) (state self.new) result };

    /// Writes the bytes from offset `at` on. Where it is refused, the range may hold anything.
    fn write(&mut self, at: u32, bytes: &[u8]) -> Result<(), DiskFault>
        requires running { (state self.old).stopped ≡ false }
        requires within { at + length bytes.now ≤ SIZE }
        ensures bytes { OnOk result (ForSome (state self.old).reads
            (λ image. (state self.new).reads ≡ Some (overlay image at bytes.now))) }
        ensures torn { OnOk result (Closed (state self.new) at (length bytes.now)) }
        ensures closed { KeepsClosed (state self.old) (state self.new) }
        ensures elapses { Elapses (state self.old) (state self.new)
            (Torn at (length bytes.now) (state self.old).now) result }
        ensures cause { HasCause (state self.old) (state self.new) result };

    /// Makes what was written survive a power loss.
    fn sync(&mut self) -> Result<(), DiskFault>
        requires running { (state self.old).stopped ≡ false }
        ensures kept { OnOk result ((state self.new).reads ≡ (state self.old).reads) }
        ensures settled { OnOk result (IsSettled (state self.new)) }
        ensures elapses { Elapses (state self.old) (state self.new) (state self.old).now result }
        ensures cause { HasCause (state self.old) (state self.new) result };

    /// Lets a stopped disk go on, with one of the images that a power loss might have left.
    fn restart(&mut self) -> Result<(), DiskFault>
        ensures settled { OnOk result (IsSettled (state self.new)) }
        ensures elapses { Elapses (state self.old) (state self.new) (state self.old).now result }
        ensures cause { HasCause (state self.old) (state self.new) result };

    /// What is read is an image.
    ghost reads_now: { (disk : Self) (image : Image) → (state disk).reads ≡ Some image
        → (state disk).now image };

    /// This moment is one of those at this value of the clock.
    ghost counts_now: { (disk : Self) (t u : ℕ) (image : Image) → t ≤ (state disk).clock
        → (state disk).clock ≤ u → (state disk).now image → (state disk).between t u image };

    /// Since this value of the clock there is no other moment.
    ghost only_now: { (disk : Self) (t u : ℕ) (image : Image) → (state disk).clock ≤ t
        → (state disk).between t u image → (state disk).now image };

    /// A longer time has more images.
    ghost wider: { (disk : Self) (s t u v : ℕ) (image : Image) → s ≤ t → u ≤ v
        → (state disk).between t u image → (state disk).between s v image };

    /// Each image of a time is one of its first part or of its second.
    ghost splits: { (disk : Self) (t u v : ℕ) (image : Image) → t ≤ u → u ≤ v
        → (state disk).between t v image
        → (state disk).between t u image ⊎ (state disk).between u v image };
}

/// Counts a refusal, which stops the disk.
pub(crate) fn refuse(count: &mut FaultCount, stopped: &mut bool)
    ensures rose { Rose count.old count.new }
    ensures once { count.new ≤ count.old + 1 }
    ensures later { count.old ≤ count.new }
    ensures stopped { stopped.new ≡ true }
{
    count.rise();
    *stopped = true;
}
