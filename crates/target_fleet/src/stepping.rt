//! One unit of a fleet steps, and the others stay.
ghost use Rattle.std.specs.Prelude.{◌≡◌, ◌≤◌, ◌-◌, OnErr, OnOk, Some, length, slice_get};
ghost use Rattle.exchange_trace.specs.Happenings.{happening_view};
ghost use Rattle.target_fleet.specs.AskedTurns.{LeavesStep};
ghost use Rattle.target_fleet.specs.Steps.{StepsAndPosts};
ghost use Rattle.upload_replay.specs.Drivers.{DriverState};
ghost use Rattle.upload_replay.specs.DriverSteps.{CanStep};

use crate::posting::post_new;
use accept_rules::Rule;
use disk_model::Power;
use exchange_trace::Happening;
use fleet_link::FleetLink;
use load_base::NoMemory;
use upload_replay::Driver;

/// What happens at a unit comes to both its ends, and what they post goes to the link. The datagrams
/// are lent: the driver keeps them.
pub(crate) fn step_and_post<'m, K: Power, R: Rule>(
    link: &mut FleetLink,
    drivers: &mut [Driver<'m, R>],
    disks: &mut [K],
    unit: u8,
    happening: Happening,
) -> Result<(), NoMemory>
    requires unit { (1 ≤ unit) × (unit ≤ link.old.units) }
    requires drivers { unit ≤ length drivers.old }
    requires many { length disks.old ≡ length drivers.old }
    requires can { (d : DriverState R) (k : K) → slice_get drivers.old (unit - 1) ≡ Some d
        → slice_get disks.old (unit - 1) ≡ Some k
        → CanStep (happening_view happening) d (K.state k) }
    ensures steps { OnOk result (StepsAndPosts K.state R.may_say unit (happening_view happening)
        drivers.old drivers.new link.old link.new disks.old disks.new) }
    ensures left { OnErr result (LeavesStep K.state R.may_say unit (happening_view happening)
        drivers.old link.old link.new disks.old disks.new) }
    ensures same { length disks.new ≡ length disks.old }
{
    let index = unit as usize - 1;
    let driver = &mut drivers[index];
    let count = driver.posted_count();
    driver.apply(&mut disks[index], happening)?;
    post_new(link, unit, driver, count)
}
