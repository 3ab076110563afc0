//! A run over a link, turn by turn to its end.
ghost use Rattle.std.specs.Prelude.{◌≡◌, ℕ, Bool, true, false, Err, IfErr, IfOk, OnOk};
ghost use Rattle.accept_rules.specs.Permissions.{Accepts};
ghost use Rattle.exchange_trace.specs.Happenings.{happening_view};
ghost use Rattle.link_net.specs.Links.{LinkState};
ghost use Rattle.media_check.specs.Sets.{SetView};
ghost use Rattle.replay_rules.specs.BothEnds.{Setting};
ghost use Rattle.upload_replay.specs.Armings.{ArmsAsGiven};
ghost use Rattle.upload_replay.specs.Drivers.{IsDriverReady, IsUnderWay, RunsOnDisk, StandsOn};
ghost use Rattle.upload_replay.specs.Drivers.{StaysOnSetting};
ghost use Rattle.upload_replay.specs.Drives.{is_end as is_end_of};
ghost use Rattle.upload_replay.specs.Leaves.{LeavesHistory};
ghost use Rattle.upload_replay.specs.Lives.{LivesOn};
ghost use Rattle.upload_replay.specs.Turns.{EndsTurn};

use crate::driver::Driver;
use crate::outcome::DriveFault;
use crate::posting::post_all;
use accept_rules::Rule;
use disk_model::Power;
use exchange_trace::Happening;
use link_net::Link;
use load_base::NoMemory;

/// All turns to the end. What [`turn`] says of one it says of all, clause by clause.
pub(crate) fn run_to_end<L: Link, K: Power, R: Rule>(
    link: &mut L,
    disk: &mut K,
    driver: &mut Driver<'_, R>,
) -> Result<(), DriveFault>
    requires { IsDriverReady (L.state link.old) driver.old (K.state disk.old) }
    // With Ok.
    ensures ready { OnOk result (IsDriverReady (L.state link.new) driver.new (K.state disk.new)) }
    ensures under_way { (began : LinkState) (faults : ℕ) (media : SetView) → IsUnderWay false
        began (L.state link.old) faults media driver.old (K.state disk.old)
        → OnOk result (IsUnderWay true
        began (L.state link.new) faults media driver.new (K.state disk.new)) }
    ensures lives { (accepts : Accepts) → LivesOn R.may_say accepts driver.old
        → OnOk result (LivesOn R.may_say accepts driver.new) }
    ensures on_setting { (set : Setting) → StandsOn R.may_say set driver.old
        → OnOk result (StaysOnSetting R.may_say set true (L.state link.old) (L.state link.new)
        driver.old driver.new (K.state disk.old) (K.state disk.new)) }
    // Whatever it answers.
    ensures refused { EndsTurn (L.faults link.old) (L.faults link.new) result }
    ensures arms { ArmsAsGiven (L.state link.old).given (L.state link.new).given
        (K.state disk.old) (K.state disk.new) }
    ensures leaves { (set : Setting) (began : LinkState) (since : ℕ)
        → StandsOn R.may_say set driver.old → RunsOnDisk set false began (L.state link.old) since
        driver.old (K.state disk.old) → IfErr result (λ fault. LeavesHistory {T = Unit} set began
        (L.state link.new) since (K.state disk.new) (Err fault)) }
{
    // Memory for the trace is spent long before that many turns.
    'turns: for _ in 0..u64::MAX {
        match turn(link, disk, driver) {
            Ok(ended) => {
                if ended {
                    return Ok(());
                }
            }
            Err(fault) => return Err(fault),
        }
    }
    Err(DriveFault::Memory)
}

/// A turn: what the link gives comes to both ends, and what they post goes to the link. Whether it
/// was the end.
///
/// There is a clause for each of the promises of a run, which stand on premises of their own.
fn turn<L: Link, K: Power, R: Rule>(
    link: &mut L,
    disk: &mut K,
    driver: &mut Driver<'_, R>,
) -> Result<bool, DriveFault>
    requires { IsDriverReady (L.state link.old) driver.old (K.state disk.old) }
    // With Ok.
    ensures ready { OnOk result (IsDriverReady (L.state link.new) driver.new (K.state disk.new)) }
    ensures under_way { (began : LinkState) (faults : ℕ) (media : SetView) → IsUnderWay false
        began (L.state link.old) faults media driver.old (K.state disk.old) → IfOk result (λ ended.
        IsUnderWay ended began (L.state link.new) faults media driver.new (K.state disk.new)) }
    ensures lives { (accepts : Accepts) → LivesOn R.may_say accepts driver.old
        → OnOk result (LivesOn R.may_say accepts driver.new) }
    ensures on_setting { (set : Setting) → StandsOn R.may_say set driver.old
        → IfOk result (λ ended. StaysOnSetting R.may_say set ended (L.state link.old)
        (L.state link.new) driver.old driver.new (K.state disk.old) (K.state disk.new)) }
    // Whatever it answers.
    ensures refused { EndsTurn (L.faults link.old) (L.faults link.new) result }
    ensures arms { ArmsAsGiven (L.state link.old).given (L.state link.new).given
        (K.state disk.old) (K.state disk.new) }
    ensures leaves { (set : Setting) (began : LinkState) (since : ℕ)
        → StandsOn R.may_say set driver.old → RunsOnDisk set false began (L.state link.old) since
        driver.old (K.state disk.old)
        → IfErr result (λ fault. LeavesHistory {T = Bool} set began (L.state link.new) since
        (K.state disk.new) (Err fault)) }
{
    let waits = driver.waits();
    let happening = link.next(waits.loader, waits.target)?;
    if is_end(&happening) {
        drop(happening);
        return Ok(true);
    }
    let posts = match driver.step(disk, happening) {
        Ok(posts) => posts,
        Err(NoMemory) => return Err(DriveFault::Memory),
    };
    match post_all(link, posts) {
        Ok(()) => Ok(false),
        Err(fault) => Err(fault),
    }
}

fn is_end(happening: &Happening) -> bool
    ensures { result ≡ is_end_of (happening_view happening.now) }
{
    matches!(happening, Happening::End)
}
