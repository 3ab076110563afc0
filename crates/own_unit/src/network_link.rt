//! A link over a network of one's own.
ghost use Rattle.std.specs.Prelude.{◌≡◌, None, [], IfOk, OnOk, OnErr};
ghost use Rattle.exchange_trace.specs.Happenings.{datagram_view, happening_view};
ghost use Rattle.link_net.specs.Links.{LinkGives, HasLinkCause, scene_of, with_posted};

use exchange_trace::{Datagram, Happening};
use http_server::Log;
use link_net::{Link, LinkFault};
use load_base::FaultCount;

/// What a network gives when it is asked for what comes next.
#[derive(Drop)]
pub enum Received {
    /// A datagram that came for one of the sides.
    Datagram(Datagram),
    /// No datagram came in time: the timer of a side that waits expires.
    TimeOut,
    /// The operator is done.
    End,
    /// The network failed.
    Failed,
}

/// What carries datagrams. `send` says whether it took the datagram; what becomes of it then is the
/// network's.
pub trait Network {
    fn send(&mut self, datagram: &Datagram) -> bool;

    fn receive(&mut self) -> Received;
}

/// The link that a network is. Nobody can prove who sent what comes over a network, so each
/// datagram is one that nobody posted (`Injected`): what is promised then is what holds whatever is
/// injected, that the disk holds the old or the complete new configuration above all.
#[derive(Drop)]
pub struct NetworkLink<N: Network> {
    network: N,
    faults: FaultCount,
    /// For the proof: what was posted and given, which takes no memory.
    posted: Log<Datagram, ()>,
    given: Log<Happening, ()>,
}

impl<N: Network> NetworkLink<N> {
    ghost use Rattle.own_unit.specs.NetworkLink.{link_of};

    /// The link over this network.
    pub fn new(network: N) -> NetworkLink<N>
        ensures { link_of result ≡ record { posted = []; given = []; plan = None } }
    {
        NetworkLink {
            network,
            faults: FaultCount::new(),
            posted: Log::new(),
            given: Log::new(),
        }
    }
}

impl<N: Network> Link for NetworkLink<N> {
    ghost use Rattle.own_unit.specs.NetworkLink.{link_of};

    ghost state = { link_of };

    ghost faults = { λ link. link.faults };

    fn post(&mut self, datagram: Datagram) -> Result<(), LinkFault> {
        if !self.network.send(&datagram) {
            self.faults.rise();
            return Err(LinkFault::Failed);
        }
        self.posted = self.posted.and(&datagram, &());
        Ok(())
    }

    fn next(&mut self, loader_waits: bool, _target_waits: bool) -> Result<Happening, LinkFault> {
        let happening = match self.network.receive() {
            Received::Datagram(datagram) => Happening::Injected(datagram),
            Received::TimeOut if loader_waits => Happening::TickLoader,
            Received::TimeOut => Happening::TickTarget,
            Received::End => Happening::End,
            Received::Failed => {
                self.faults.rise();
                return Err(LinkFault::Failed);
            }
        };
        self.given = self.given.and(&happening, &());
        Ok(happening)
    }
}
