//! The types of a trace.
ghost use Rattle.std.specs.Prelude.{◌≡◌, IfOk};
ghost use Rattle.exchange_trace.specs.Happenings.{datagram_view, other as other_side};

use disk_layout::RecoverFault;
use load_base::{Bytes, Ident, List, NoMemory, PartText};
use std::alloc::Global;

/// One of the two ends of the exchange.
#[derive(Clone, Copy, Debug, PartialEq, Eq)]
pub enum Side {
    /// The data loader.
    Loader,
    /// The unit that it loads.
    Target,
}

impl Side {
    /// The other end.
    pub fn other(self) -> Side
        ensures { result ≡ other_side self }
    {
        match self {
            Side::Loader => Side::Target,
            Side::Target => Side::Loader,
        }
    }
}

/// The first port from which an end posts, but for what it posts from the port of requests
/// (docs/EXCHANGE.md, "Transfers").
pub const FIRST_PORT: u32 = 1024;

/// A datagram of UDP, without its addresses.
#[derive(Drop)]
pub struct Datagram {
    /// The side that posts it; it goes to the other one. An injected datagram names the side that
    /// it pretends to come from.
    pub from_side: Side,
    /// The port from which it is posted.
    pub from: u16,
    /// The port to which it goes.
    pub to: u16,
    /// Its payload: a TFTP packet, if the other side is to take it up.
    pub bytes: Bytes,
}

impl Datagram {
    /// The same datagram again.
    pub fn copy(&self, alloc: Global) -> Result<Datagram, NoMemory>
        ensures { IfOk result (λ copy. datagram_view copy ≡ datagram_view self.now) }
    {
        Ok(Datagram {
            from_side: self.from_side,
            from: self.from,
            to: self.to,
            bytes: Bytes::copy_of(alloc, self.bytes.as_slice())?,
        })
    }
}

/// What happens to the two sides. Posted datagrams are numbered from 1 in the order of their posts,
/// those of both sides together.
#[derive(Drop)]
pub enum Happening {
    /// The loader gets the datagram of this number.
    ToLoader(u64),
    /// The target gets the datagram of this number.
    ToTarget(u64),
    /// The datagram of this number is lost.
    Lost(u64),
    /// A side gets a datagram that the other side didn't post.
    Injected(Datagram),
    /// The loader's timer expires.
    TickLoader,
    /// The target's timer expires.
    TickTarget,
    /// From now on the requests of both sides ask for this block size, or for none.
    BlockSize(Option<u16>),
    /// The disk loses power at the call of this number, counted from 1, or at once at 0. The second
    /// number picks what the loss does to the bytes that weren't synced.
    Power {
        calls: u32,
        pick: u32,
    },
    /// The target is switched off and on.
    Boot,
    /// The operator starts an information session with this target.
    StartInfo {
        hw: Ident,
        pos: Ident,
    },
    /// The operator starts an upload of these parts to this target.
    StartUpload {
        hw: Ident,
        pos: Ident,
        parts: List<PartText>,
    },
    /// Nothing happens any more.
    End,
}

/// A line of a trace.
#[derive(Drop)]
pub enum TraceStep {
    /// A side posted a datagram.
    Posted(Datagram),
    /// Something happened.
    Given(Happening),
    /// The target went down.
    Down,
    /// The target came up. It draws ports from this one on, and the configuration that is active
    /// has this sequence number.
    Up { first_port: u32, sequence: u32 },
    /// The target stayed down: its disk failed, or holds no configuration.
    BootRefused(RecoverFault),
}
