//! The first boots of a fleet's units.
ghost use Rattle.std.specs.Prelude.{◌≡◌, ◌<◌, ◌≤◌, IfErr, IfOk, OnOk, Some, length, slice_get};
ghost use Rattle.bank_store.specs.DiskWrites.{IsRunning};
ghost use Rattle.media_check.specs.Sets.{set_view};
ghost use Rattle.target_fleet.specs.Boots.{AllBoot, BootsNext, FailsAt, FailsToBoot};
ghost use Rattle.target_fleet.specs.Boots.{fleet_fault_of};
ghost use Rattle.target_fleet.specs.Units.{AllDisks, AllOnlyRead, ReadsUnitDisk};

use crate::outcome::FleetFault;
use accept_rules::{Interlock, Rule};
use disk_model::Power;
use media_check::MediaSet;
use std::alloc::Global;
use upload_replay::{DriveFault, Driver};

/// All units come up, each on its disk, in their order. The first that doesn't ends it. All disks
/// are only read.
pub(crate) fn boot_all<'m, K: Power, R: Rule>(
    alloc: Global,
    disks: &mut [K],
    media: &'m MediaSet,
    interlock: &'m Interlock<R>,
) -> Result<Vec<Driver<'m, R>>, FleetFault>
    requires few { length disks.old ≤ 8 }
    requires running { AllDisks (λ (k : K). IsRunning (K.state k)) disks.old }
    // With Ok.
    ensures many { IfOk result (λ drivers. length drivers.items ≡ length disks.old) }
    ensures boots { IfOk result (λ drivers. AllBoot K.state R.may_say interlock.now
        (set_view media.now) drivers.items disks.old disks.new) }
    // Refusals, and whatever it answers.
    ensures refused { IfErr result (λ fault. FailsToBoot K.state fault disks.old disks.new) }
    ensures same { length disks.new ≡ length disks.old }
    ensures reads { AllOnlyRead K.state disks.old disks.new }
{
    let mut drivers = Vec::new(alloc);
    match boot_each(alloc, disks, media, interlock, &mut drivers) {
        Ok(()) => Ok(drivers),
        Err(fault) => {
            // For the proof: dropped by a call, not by scope.
            drop(drivers);
            Err(fault)
        }
    }
}

/// The next unit comes up on its disk.
fn boot_next<'m, K: Power, R: Rule>(
    alloc: Global,
    disks: &mut [K],
    media: &'m MediaSet,
    interlock: &'m Interlock<R>,
    drivers: &mut Vec<Driver<'m, R>>,
    index: usize,
) -> Result<(), FleetFault>
    requires within { index < length disks.old }
    requires few { length disks.old ≤ 8 }
    requires next { length drivers.old.items ≡ index }
    requires running { (k : K) → slice_get disks.old index ≡ Some k → IsRunning (K.state k) }
    ensures booted { OnOk result (BootsNext K.state R.may_say interlock.now (set_view media.now)
        index drivers.old.items drivers.new.items disks.old disks.new) }
    ensures refused { IfErr result (λ fault. FailsAt K.state index fault disks.old disks.new) }
    ensures reads { ReadsUnitDisk K.state index disks.old disks.new }
{
    match drivers.reserve(1) {
        Ok(()) => {}
        Err(_) => return Err(FleetFault::Memory),
    }
    match Driver::boot(alloc, &mut disks[index], media, interlock) {
        Ok(driver) => {
            drivers.push_reserved(driver);
            Ok(())
        }
        Err(fault) => Err(fault_of(fault, index as u8 + 1)),
    }
}

/// A driver's refusal as one of the fleet, which names the unit. A driver has no link that fails.
pub(crate) fn fault_of(fault: DriveFault, unit: u8) -> FleetFault
    ensures { result ≡ fleet_fault_of fault unit }
{
    match fault {
        DriveFault::Link => FleetFault::Memory,
        DriveFault::Disk => FleetFault::Disk(unit),
        DriveFault::NoConfig(fault) => FleetFault::NoConfig { unit, fault },
        DriveFault::Memory => FleetFault::Memory,
    }
}

/// All units that haven't come up yet do, in their order.
fn boot_each<'m, K: Power, R: Rule>(
    alloc: Global,
    disks: &mut [K],
    media: &'m MediaSet,
    interlock: &'m Interlock<R>,
    drivers: &mut Vec<Driver<'m, R>>,
) -> Result<(), FleetFault>
    requires few { length disks.old ≤ 8 }
    requires none { length drivers.old.items ≡ 0 }
    requires running { AllDisks (λ (k : K). IsRunning (K.state k)) disks.old }
    ensures many { OnOk result (length drivers.new.items ≡ length disks.old) }
    ensures boots { OnOk result (AllBoot K.state R.may_say interlock.now (set_view media.now)
        drivers.new.items disks.old disks.new) }
    ensures refused { IfErr result (λ fault. FailsToBoot K.state fault disks.old disks.new) }
    ensures same { length disks.new ≡ length disks.old }
    ensures reads { AllOnlyRead K.state disks.old disks.new }
{
    'units: for index in 0..disks.len() {
        match boot_next(alloc, disks, media, interlock, drivers, index) {
            Ok(()) => {}
            Err(fault) => return Err(fault),
        }
    }
    Ok(())
}
