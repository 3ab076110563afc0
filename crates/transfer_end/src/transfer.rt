//! A transfer with the ports of both ends.
ghost use Rattle.std.specs.Prelude.{◌≡◌, ◌∷◌, [], true, Some, IfOk, if◌then◌else◌};
ghost use Rattle.tftp_packet.specs.Packets.{IsInRange, packet_view};
ghost use Rattle.transfer_end.specs.Calls.{end_seen, posted, recalled, transfer_seen};
ghost use Rattle.transfer_end.specs.Moves.{datagram as datagram_of};
ghost use Rattle.transfer_end.specs.Packets.{belongs, is_peer};
ghost use Rattle.transfer_end.specs.Transfers.{end_packet, is_received};

use crate::file_end::FileEnd;
use crate::posting::datagram;
use exchange_trace::{Datagram, Side};
use load_base::NoMemory;
use std::alloc::Global;
use tftp_packet::Packet;

/// A transfer, which is named by the ports of both ends (RFC 1350, section 4).
#[derive(Drop)]
pub(crate) struct Transfer<'f> {
    pub(crate) own: u16,
    /// The port of the other end, once a packet came that answers the request.
    pub(crate) peer: Option<u16>,
    pub(crate) end: FileEnd<'f>,
}

impl<'f> Transfer<'f> {
    /// Whether a packet between these ports is one of this transfer.
    pub(crate) fn has(&self, from: u16, to: u16) -> bool
        ensures { result ≡ belongs (Some (transfer_seen self.now)) from to }
    {
        to == self.own && is_peer(self.peer, from)
    }

    /// What its end sends now, to this port, if it sends anything.
    pub(crate) fn answer(
        &self,
        alloc: Global,
        side: Side,
        to: u16,
        send: bool,
    ) -> Result<Option<Datagram>, NoMemory>
        ensures { IfOk result (λ post. posted post ≡ (if send
            then datagram_of side self.now.own to (end_packet (end_seen self.now.end)) ∷ []
            else [])) }
    {
        if !send {
            return Ok(None);
        }
        let packet = self.end.again();
        Ok(Some(datagram(alloc, side, self.own, to, &packet)?))
    }

    /// Takes a packet between these ports, where a file was received whole. If it is one of this
    /// transfer, and the block taken last, that is acknowledged again.
    pub(crate) fn recall(
        &mut self,
        alloc: Global,
        side: Side,
        from: u16,
        to: u16,
        packet: &Packet<'_>,
    ) -> Result<Option<Datagram>, NoMemory>
        requires received { is_received (end_seen self.old.end) ≡ true }
        requires in_range { IsInRange (packet_view packet.now) }
        ensures same { transfer_seen self.new ≡ transfer_seen self.old }
        ensures posts { IfOk result (λ post. posted post
            ≡ recalled side (transfer_seen self.old) from to (packet_view packet.now)) }
    {
        if !self.has(from, to) {
            return Ok(None);
        }
        let send = self.end.on_packet(packet).send;
        self.answer(alloc, side, from, send)
    }
}

fn is_peer(peer: Option<u16>, from: u16) -> bool
    ensures { result ≡ is_peer peer from }
{
    match peer {
        Some(peer) => peer == from,
        None => true,
    }
}
