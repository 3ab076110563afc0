//! Hands what is posted to the link.
ghost use Rattle.std.specs.Prelude.{◌≡◌, IfErr, OnOk};
ghost use Rattle.transfer_end.specs.Calls.{posted, posts_view};
ghost use Rattle.upload_replay.specs.Turns.{HasDriveCause, IsOfRun, IsPostedInPart, link_with};

use crate::outcome::DriveFault;
use exchange_trace::Datagram;
use link_net::Link;
use replay_turns::Posts;

/// Both datagrams, as far as there are any.
pub(crate) fn post_all<L: Link>(link: &mut L, posts: Posts) -> Result<(), DriveFault>
    ensures posts { OnOk result (L.state link.new
        ≡ link_with (L.state link.old) (posts_view posts)) }
    ensures in_part { IsPostedInPart (posts_view posts) (L.state link.old) (L.state link.new) }
    ensures told { IfErr result (λ fault. IsOfRun fault) }
    ensures cause { HasDriveCause (L.faults link.old) (L.faults link.new) result }
{
    let Posts { first, second } = posts;
    match post(link, first) {
        Ok(()) => post(link, second),
        Err(fault) => {
            // For the proof: dropped by a call, not by scope.
            drop(second);
            Err(fault)
        }
    }
}

fn post<L: Link>(link: &mut L, datagram: Option<Datagram>) -> Result<(), DriveFault>
    ensures posts { OnOk result (L.state link.new
        ≡ link_with (L.state link.old) (posted datagram)) }
    ensures in_part { IsPostedInPart (posted datagram) (L.state link.old) (L.state link.new) }
    ensures told { IfErr result (λ fault. IsOfRun fault) }
    ensures cause { HasDriveCause (L.faults link.old) (L.faults link.new) result }
{
    match datagram {
        Some(datagram) => Ok(link.post(datagram)?),
        None => Ok(()),
    }
}
