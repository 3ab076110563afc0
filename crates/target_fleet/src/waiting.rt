//! Which sides of a fleet's units have a live session.
ghost use Rattle.std.specs.Prelude.{◌≡◌, ◌≤◌, length};
ghost use Rattle.target_fleet.specs.Waits.{TellWaits};

use accept_rules::Rule;
use fleet_link::MOST_UNITS;
use link_net::Waits;
use upload_replay::Driver;

/// Those of each unit, from unit 1 on. Where there are fewer units, nothing waits behind them.
pub(crate) fn waits_of<R: Rule>(drivers: &[Driver<'_, R>]) -> [Waits; MOST_UNITS]
    requires { length drivers.now ≤ 8 }
    ensures many { length result ≡ 8 }
    ensures told { TellWaits (length drivers.now) drivers.now result }
{
    let mut waits = [Waits {
        loader: false,
        target: false,
    }; MOST_UNITS];
    'units: for index in 0..drivers.len() {
        waits[index] = drivers[index].waits();
    }
    waits
}
