//! What stands between loader and target.
ghost use Rattle.std.specs.Prelude.{◌≡◌, ℕ, IfOk, OnOk, OnErr};
ghost use Rattle.exchange_trace.specs.Happenings.{datagram_view, happening_view};
ghost use Rattle.link_net.specs.Links.{LinkGives, HasLinkCause, scene_of, with_posted};

use exchange_trace::{Datagram, Happening};

/// Why a link didn't do what it was asked.
#[derive(Clone, Copy, Debug, PartialEq, Eq)]
pub enum LinkFault {
    /// The link failed, and its count of faults rose.
    Failed,
    /// Out of memory.
    Memory,
}

/// Which sides have a live session.
#[derive(Clone, Copy, Debug, PartialEq, Eq)]
pub struct Waits {
    pub loader: bool,
    pub target: bool,
}

/// A link between loader and target, which may deliver datagrams in any order, again and again, or
/// lose them. It delivers to a side only what was posted to it (docs/EXCHANGE.md, "Links").
pub trait Link {
    ghost use Rattle.link_net.specs.Links.{LinkState};

    /// What it was posted and gave, and what is left of its script, where it follows one.
    ghost state: { Self → LinkState };

    /// How often it has failed.
    ghost faults: { Self → ℕ };

    /// Takes a datagram that a side posts. A call that is refused changes nothing.
    fn post(&mut self, datagram: Datagram) -> Result<(), LinkFault>
        ensures ok { OnOk result
            (state self.new ≡ with_posted (state self.old) (datagram_view datagram)) }
        ensures err { OnErr result (state self.new ≡ state self.old) }
        ensures cause { HasLinkCause (faults self.old) (faults self.new) result };

    /// What happens next, where these sides have a live session. A call that is refused changes
    /// nothing.
    fn next(&mut self, loader_waits: bool, target_waits: bool) -> Result<Happening, LinkFault>
        ensures ok { IfOk result (λ happening. LinkGives (state self.old) (state self.new)
            (scene_of (state self.old) loader_waits target_waits) (happening_view happening)) }
        ensures err { OnErr result (state self.new ≡ state self.old) }
        ensures cause { HasLinkCause (faults self.old) (faults self.new) result };
}
