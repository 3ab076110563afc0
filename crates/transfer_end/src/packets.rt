//! Packets in datagrams.
ghost use Rattle.std.specs.Prelude.{◌≡◌, IfSome, option_map};
ghost use Rattle.tftp_packet.specs.Packets.{IsInRange, IsTyped, packet_view};
ghost use Rattle.transfer_end.specs.Packets.{packet_in};

use tftp_packet::Packet;

/// The packet that bytes spell, if they spell one. A datagram with any other bytes is dropped.
#[tactic(auto, unfolding(crate::specs::Packets::packet_in))]
pub fn packet_in<'a>(bytes: &'a [u8]) -> Option<Packet<'a>>
    ensures is { option_map packet_view result ≡ packet_in bytes.now }
    ensures in_range { IfSome result (λ packet. IsInRange (packet_view packet)) }
    ensures typed { IfSome result (λ packet. IsTyped (packet_view packet)) }
{
    match Packet::decode(bytes) {
        Ok(packet) => Some(packet),
        Err(_) => None,
    }
}
