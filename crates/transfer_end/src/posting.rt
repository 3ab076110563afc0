//! Datagrams that are posted.
ghost use Rattle.std.specs.Prelude.{◌≡◌, IfOk, OnOk};
ghost use Rattle.tftp_packet.specs.Packets.{IsInRange, packet_view};
ghost use Rattle.exchange_trace.specs.Happenings.{datagram_view};
ghost use Rattle.transfer_end.specs.Moves.{datagram as datagram_of};

use exchange_trace::{Datagram, Side};
use load_base::NoMemory;
use std::alloc::Global;
use tftp_packet::Packet;

/// The datagram of a packet, from one port to another.
pub(crate) fn datagram(
    alloc: Global,
    side: Side,
    from: u16,
    to: u16,
    packet: &Packet<'_>,
) -> Result<Datagram, NoMemory>
    requires { IsInRange (packet_view packet.now) }
    ensures { IfOk result
        (λ d. datagram_view d ≡ datagram_of side from to (packet_view packet.now)) }
{
    let bytes = packet.encode(alloc)?;
    Ok(Datagram {
        from_side: side,
        from,
        to,
        bytes,
    })
}

/// Makes this datagram the same as another, in the memory that it has.
pub(crate) fn copy_into(kept: &mut Datagram, datagram: &Datagram) -> Result<(), NoMemory>
    ensures { OnOk result (datagram_view kept.new ≡ datagram_view datagram.now) }
{
    kept.bytes.clear();
    kept.bytes.extend(datagram.bytes.as_slice())?;
    kept.from_side = datagram.from_side;
    kept.from = datagram.from;
    kept.to = datagram.to;
    Ok(())
}
