//! The two ends that a transfer can have, as one type.
ghost use Rattle.std.specs.Prelude.{◌≡◌};
ghost use Rattle.tftp_packet.specs.Packets.{IsInRange, packet_view};
ghost use Rattle.tftp_link.specs.Answers.{is_awaited_by, is_sent_by, news_by, news_view};
ghost use Rattle.transfer_end.specs.Calls.{end_seen};
ghost use Rattle.transfer_end.specs.Transfers.{end_after, end_answer, end_first, end_packet};
ghost use Rattle.transfer_end.specs.Transfers.{is_received};

use tftp_link::{Receiving, Sending, Step};
use tftp_packet::Packet;

/// The receiving or the sending end of a transfer.
#[derive(Drop)]
pub(crate) enum FileEnd<'f> {
    Receiving(Receiving),
    Sending(Sending<'f>),
}

impl<'f> FileEnd<'f> {
    /// Its first packet: a request, or what answers one.
    pub(crate) fn first(&self) -> Packet<'_>
        ensures is { packet_view result ≡ end_first (end_seen self.now) }
        ensures in_range { IsInRange (packet_view result) }
    {
        match self {
            FileEnd::Receiving(receiving) => receiving.first(),
            FileEnd::Sending(sending) => sending.first(),
        }
    }

    /// The packet that it sent last.
    pub(crate) fn again(&self) -> Packet<'_>
        ensures is { packet_view result ≡ end_packet (end_seen self.now) }
        ensures in_range { IsInRange (packet_view result) }
    {
        match self {
            FileEnd::Receiving(receiving) => receiving.again(),
            FileEnd::Sending(sending) => sending.again(),
        }
    }

    /// Takes a packet that came from the other end, or may be the first answer to the request.
    pub(crate) fn on_packet<'a>(&mut self, packet: &Packet<'a>) -> Step<'a>
        requires { IsInRange (packet_view packet.now) }
        ensures state { end_seen self.new ≡ end_after (end_seen self.old) (packet_view packet.now) }
        ensures news { news_view result.news
            ≡ news_by (end_answer (end_seen self.old) (packet_view packet.now)) }
        ensures send { result.send
            ≡ is_sent_by (end_answer (end_seen self.old) (packet_view packet.now)) }
        ensures awaited { result.awaited
            ≡ is_awaited_by (end_answer (end_seen self.old) (packet_view packet.now)) }
    {
        match self {
            FileEnd::Receiving(receiving) => receiving.on_packet(packet),
            FileEnd::Sending(sending) => sending.on_packet(packet),
        }
    }
    /// Whether a file was received whole.
    pub(crate) fn is_received(&self) -> bool
        ensures { result ≡ is_received (end_seen self.now) }
    {
        match self {
            FileEnd::Receiving(receiving) => receiving.is_whole(),
            FileEnd::Sending(_) => false,
        }
    }
}
