//! Hands what a unit's ends post to the fleet's link.
ghost use Rattle.std.specs.Prelude.{◌≡◌, ◌≤◌, OnErr, OnOk, drop, length};
ghost use Rattle.exchange_trace.specs.Posts.{posted_in};
ghost use Rattle.target_fleet.specs.PartPosts.{IsPostedInPartAt};
ghost use Rattle.target_fleet.specs.Runs.{CountsPostsAt, with_posts_at};

use accept_rules::Rule;
use fleet_link::{FleetLink, MOST_UNITS};
use load_base::NoMemory;
use upload_replay::Driver;

/// What a unit's ends posted after so many datagrams.
pub(crate) fn post_new<R: Rule>(
    link: &mut FleetLink,
    unit: u8,
    driver: &Driver<'_, R>,
    count: u64,
) -> Result<(), NoMemory>
    requires unit { (1 ≤ unit) × (unit ≤ link.old.units) }
    requires within { count ≤ length (posted_in driver.now.steps) }
    ensures posts { OnOk result (link.new ≡ with_posts_at link.old unit
        (drop count (posted_in driver.now.steps))) }
    ensures in_part { OnErr result (IsPostedInPartAt unit
        (drop count (posted_in driver.now.steps)) link.old link.new) }
{
    let total = driver.posted_count();
    'posts: for number in count..total {
        match driver.posted(number + 1) {
            Some(datagram) => link.note_post(unit, datagram)?,
            // Each number up to the count is one of a datagram.
            None => unreachable!(),
        }
    }
    Ok(())
}

/// How many datagrams were posted at each unit, from unit 1 on; behind the last unit, none.
pub(crate) fn posted_counts(link: &FleetLink) -> [u64; MOST_UNITS]
    ensures { CountsPostsAt link.now.units link.now result }
{
    let mut counts = [0; MOST_UNITS];
    'units: for index in 0..link.units() {
        counts[index] = link.posted_count(index as u8 + 1) as u64;
    }
    counts
}
