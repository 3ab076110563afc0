//! A disk over a driver of one's own. Nothing is told of what the flash holds.
ghost use Rattle.std.specs.Prelude.{◌≡◌, ◌+◌, ◌≤◌, ◌<◌, true, false, not, is_err, IsErrOf, OnOk};
ghost use Rattle.std.specs.Prelude.{OnErr};
ghost use Rattle.std.proofs.Common.{inl};
ghost use Rattle.load_base.specs.Counts.{Rose};
ghost use Rattle.disk_model.specs.State.{untold_reads};

use disk_model::{Disk, DiskFault};
use load_base::FaultCount;

/// What a driver does, of 134,225,920 bytes from offset 0 on. Each call says whether it was done.
///
/// To check off, since no proof can see it (docs/DISK.md):
/// - what was never written reads as zero;
/// - a read gives what was written last at each offset, also after a restart;
/// - a write changes no byte outside its range, also where power fails in it;
/// - after `flush` has answered true, a power loss leaves all that was written before it;
/// - a call that wasn't done says so, and a failed `flush` isn't made good by a later one;
/// - nobody else writes the flash.
pub trait Flash {
    /// Fills the buffer with the bytes from this offset on.
    fn read(&mut self, at: u32, buf: &mut [u8]) -> bool;

    /// Writes these bytes from this offset on.
    fn program(&mut self, at: u32, bytes: &[u8]) -> bool;

    /// Makes what was written last.
    fn flush(&mut self) -> bool;
}

/// The disk that a driver is. A call that the driver didn't do stops the disk until a restart.
#[derive(Drop)]
pub struct FlashDisk<F: Flash> {
    flash: F,
    clock: u64,
    faults: FaultCount,
    stopped: bool,
}

impl<F: Flash> FlashDisk<F> {
    ghost use Rattle.own_unit.specs.FlashDisk.{state_of};

    /// The disk over this driver.
    pub fn new(flash: F) -> FlashDisk<F>
        ensures running { (state_of result).stopped ≡ false }
        ensures steady { (state_of result).steady ≡ true }
        ensures no_faults { ((state_of result).faults ≡ 0) × ((state_of result).refusals ≡ 0) }
    {
        FlashDisk {
            flash,
            clock: 0,
            faults: FaultCount::new(),
            stopped: false,
        }
    }
}

impl<F: Flash> Disk for FlashDisk<F> {
    ghost use Rattle.own_unit.specs.FlashDisk.{state_of};

    ghost state = { state_of };

    ghost reads_now = { λ d. untold_reads };

    ghost counts_now = { λ d t u image from to is. is };

    ghost only_now = { λ d t u image from is. is };

    ghost wider = { λ d s t u v image from to is. is };

    ghost splits = { λ d t u v image from to is. inl is };

    fn read(&mut self, at: u32, buf: &mut [u8]) -> Result<(), DiskFault> {
        let done = self.flash.read(at, buf);
        answer(done, &mut self.faults, &mut self.stopped)
    }

    fn write(&mut self, at: u32, bytes: &[u8]) -> Result<(), DiskFault> {
        let done = advance(&mut self.clock) && self.flash.program(at, bytes);
        answer(done, &mut self.faults, &mut self.stopped)
    }

    fn sync(&mut self) -> Result<(), DiskFault> {
        let done = advance(&mut self.clock) && self.flash.flush();
        answer(done, &mut self.faults, &mut self.stopped)
    }

    fn restart(&mut self) -> Result<(), DiskFault> {
        let done = advance(&mut self.clock) && self.flash.flush();
        answer(done, &mut self.faults, &mut self.stopped)
    }
}

/// Advances the clock. At the greatest `u64` it can't, and the call fails.
fn advance(clock: &mut u64) -> bool
    ensures later { clock.old ≤ clock.new }
    ensures advances { result ≡ true → clock.old < clock.new }
{
    let Some(next) = clock.checked_add(1) else {
        return false;
    };
    *clock = next;
    true
}

/// What wasn't done is a fault of the disk, and stops it.
fn answer(done: bool, faults: &mut FaultCount, stopped: &mut bool) -> Result<(), DiskFault>
    ensures answered { is_err result ≡ not done }
    ensures stops { stopped.new ≡ is_err result }
    ensures later { faults.old ≤ faults.new }
    ensures kept { OnOk result (faults.new ≡ faults.old) }
    ensures once { faults.new ≤ faults.old + 1 }
    ensures failed { OnErr result (Rose faults.old faults.new) }
    ensures only_failed { ¬ IsErrOf result DiskFault.Memory }
{
    *stopped = !done;
    if done {
        return Ok(());
    }
    faults.rise();
    Err(DiskFault::Failed)
}
