//! A disk whose power can be lost at a call.
ghost use Rattle.disk_model.specs.Arming.{Arms};

use crate::Disk;

/// A disk whose power can be lost (docs/DISK.md, "The simulated power loss").
pub trait Power: Disk {
    /// Makes the `calls`-th read, write or sync from now on lose power, and fail; for 0, power is
    /// lost at once. It replaces an arming that hasn't come. `pick` chooses what becomes of the
    /// bytes that weren't synced.
    fn arm(&mut self, calls: u32, pick: u32)
        ensures arms { Arms calls pick (Self.state self.old) (Self.state self.new) };
}
