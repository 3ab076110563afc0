//! The receiving end of a transfer.
ghost use Rattle.std.specs.Prelude.{◌≡◌, ◌+◌, []};
ghost use Rattle.tftp_packet.specs.Options.{AreInRange};
ghost use Rattle.tftp_packet.specs.Packets.{Data, Oack, Error, packet_view, IsInRange};
ghost use Rattle.tftp_link.specs.Answers.{is_awaited_by, is_finished, is_sent_by};
ghost use Rattle.tftp_link.specs.Answers.{news_by, news_view};
ghost use Rattle.tftp_link.specs.Blocks.{is_block};
ghost use Rattle.tftp_link.specs.Receiver.{receiver_asking, receiver_serving, receiver_answer};
ghost use Rattle.tftp_link.specs.Receiver.{receiver_moved, receiver_after, receiver_first};
ghost use Rattle.tftp_link.specs.Receiver.{receiver_packet, taken_answer, is_next_block};
ghost use Rattle.tftp_link.specs.Receiver.{is_last_block, were_granted};

use crate::negotiation::{DEFAULT_BLOCK_SIZE, block_size_of, is_empty, may_grant, same_options};
use crate::phase::Phase;
use crate::step::{News, Step};
use load_base::Name;
use std::marker::Model;
use tftp_packet::{Options, Packet};

/// The receiving end of a transfer (RFC 1350, section 2). It keeps no payload.
#[derive(Drop)]
pub struct Receiving {
    /// Of the file, where the request is its own.
    name: Option<Name>,
    asked: Options,
    /// Those of the OACK that answered its request.
    granted: Option<Options>,
    size: u16,
    /// The number of the block taken last, 0 before the first.
    taken: u16,
    phase: Phase,
}

impl Model for Receiving {
    ghost use Rattle.tftp_packet.specs.Options.{AreInRange};
    ghost use Rattle.tftp_link.specs.Receiver.{Receiver};

    ghost Value = { Receiver };

    ghost view = { λ r. record {
      name = r.name;
      asked = r.asked;
      granted = r.granted;
      size = r.size;
      taken = r.taken;
      phase = r.phase;
    } };

    ghost invariant = { λ r. AreInRange r.asked };
}

impl Receiving {
    /// Takes a request to write: `asked` are its options, which are all granted.
    pub fn serve(asked: Options) -> Receiving
        requires { AreInRange asked }
        ensures { result ≡ receiver_serving asked }
    {
        Receiving {
            name: None,
            asked,
            granted: None,
            size: block_size_of(&asked),
            taken: 0,
            phase: Phase::Running,
        }
    }

    /// Asks to read the file of this name, with these options.
    pub fn ask(name: Name, options: Options) -> Receiving
        requires { AreInRange options }
        ensures { result ≡ receiver_asking name options }
    {
        Receiving {
            name: Some(name),
            asked: options,
            granted: None,
            size: DEFAULT_BLOCK_SIZE,
            taken: 0,
            phase: Phase::Waiting,
        }
    }

    /// The first packet that this end sends: its request, or what answers one, ACK 0 or an OACK.
    pub fn first(&self) -> Packet<'_>
        ensures is { packet_view result ≡ receiver_first self.now }
        ensures in_range { IsInRange (packet_view result) }
    {
        let options = self.asked;
        match self.name {
            Some(name) => Packet::Rrq { name, options },
            None if is_empty(&options) => Packet::Ack { block: 0 },
            None => Packet::Oack { options },
        }
    }

    /// Whether the file was taken whole.
    pub fn is_whole(&self) -> bool
        ensures { result ≡ is_finished self.now.phase }
    {
        matches!(self.phase, Phase::Finished)
    }

    /// The packet that this end sent last.
    pub fn again(&self) -> Packet<'_>
        ensures is { packet_view result ≡ receiver_packet self.now }
        ensures in_range { IsInRange (packet_view result) }
    {
        if self.taken == 0 && self.granted.is_none() {
            return self.first();
        }
        Packet::Ack { block: self.taken }
    }

    /// Takes a packet that came from the other end, or may be the first answer to the request.
    pub fn on_packet<'a>(&mut self, packet: &Packet<'a>) -> Step<'a>
        requires { IsInRange (packet_view packet.now) }
        ensures state { self.new ≡ receiver_after self.old (packet_view packet.now) }
        ensures news { news_view result.news
            ≡ news_by (receiver_answer self.old (packet_view packet.now)) }
        ensures send { result.send
            ≡ is_sent_by (receiver_answer self.old (packet_view packet.now)) }
        ensures awaited { result.awaited
            ≡ is_awaited_by (receiver_answer self.old (packet_view packet.now)) }
    {
        match packet {
            Packet::Data { block, payload } => self.on_data(*block, payload),
            Packet::Oack { options } => self.on_oack(options),
            Packet::Error { code, text: _ } => self.on_error(*code),
            _ => Step::unawaited(false),
        }
    }

    fn on_data<'a>(&mut self, block: u16, payload: &'a [u8]) -> Step<'a>
        ensures state { self.new ≡ receiver_after self.old (Data block payload.now) }
        ensures news { news_view result.news
            ≡ news_by (receiver_answer self.old (Data block payload.now)) }
        ensures send { result.send
            ≡ is_sent_by (receiver_answer self.old (Data block payload.now)) }
        ensures awaited { result.awaited
            ≡ is_awaited_by (receiver_answer self.old (Data block payload.now)) }
    {
        let is_next = self.is_next_block(block, payload);
        let is_again = self.is_last_block(block, payload);
        match self.phase {
            Phase::Waiting | Phase::Running if is_next => self.take_block(block, payload),
            Phase::Running | Phase::Finished if is_again => Step::unawaited(true),
            _ => Step::unawaited(false),
        }
    }

    /// Whether a DATA is the block after those taken.
    fn is_next_block(&self, block: u16, payload: &[u8]) -> bool
        ensures { result ≡ is_next_block self.now block payload.now }
    {
        u32::from(block) == u32::from(self.taken) + 1 && is_block(self.size, block, payload)
    }

    /// Whether a DATA is the block taken last, again.
    fn is_last_block(&self, block: u16, payload: &[u8]) -> bool
        ensures { result ≡ is_last_block self.now block payload.now }
    {
        self.taken > 0 && block == self.taken && payload.len() <= usize::from(self.size)
    }

    /// Takes the block after those taken.
    fn take_block<'a>(&mut self, block: u16, payload: &'a [u8]) -> Step<'a>
        requires { block ≡ self.old.taken + 1 }
        ensures state { self.new ≡ receiver_moved self.old (taken_answer self.old payload.now) }
        ensures news { news_view result.news ≡ news_by (taken_answer self.old payload.now) }
        ensures send { result.send ≡ is_sent_by (taken_answer self.old payload.now) }
        ensures awaited { result.awaited ≡ is_awaited_by (taken_answer self.old payload.now) }
    {
        self.taken = block;
        if payload.len() < usize::from(self.size) {
            self.phase = Phase::Finished;
            return Step {
                send: true,
                awaited: true,
                news: News::Last(payload),
            };
        }
        self.phase = Phase::Running;
        Step {
            send: true,
            awaited: true,
            news: News::Block(payload),
        }
    }

    fn on_oack<'a>(&mut self, options: &Options) -> Step<'a>
        ensures state { self.new ≡ receiver_after self.old (Oack options.now) }
        ensures news { news_view result.news
            ≡ news_by (receiver_answer self.old (Oack options.now)) }
        ensures send { result.send ≡ is_sent_by (receiver_answer self.old (Oack options.now)) }
        ensures awaited { result.awaited
            ≡ is_awaited_by (receiver_answer self.old (Oack options.now)) }
    {
        match self.phase {
            Phase::Waiting if may_grant(&self.asked, options) => {
                self.granted = Some(*options);
                self.size = block_size_of(options);
                self.phase = Phase::Running;
                Step::proceeding()
            }
            Phase::Running => Step::unawaited(self.taken == 0 && self.were_granted(options)),
            _ => Step::unawaited(false),
        }
    }

    /// Whether these options are those of the OACK that answered the request.
    fn were_granted(&self, options: &Options) -> bool
        ensures { result ≡ were_granted self.now.granted options.now }
    {
        match &self.granted {
            Some(granted) => same_options(granted, options),
            None => false,
        }
    }

    fn on_error<'a>(&mut self, code: u16) -> Step<'a>
        ensures state { self.new ≡ receiver_after self.old (Error code []) }
        ensures news { news_view result.news ≡ news_by (receiver_answer self.old (Error code [])) }
        ensures send { result.send ≡ is_sent_by (receiver_answer self.old (Error code [])) }
        ensures awaited { result.awaited
            ≡ is_awaited_by (receiver_answer self.old (Error code [])) }
    {
        if !self.phase.is_live() {
            return Step::unawaited(false);
        }
        self.phase = Phase::Failed(code);
        Step {
            send: false,
            awaited: true,
            news: News::PeerError(code),
        }
    }
}

/// Whether a payload may be this block.
fn is_block(size: u16, block: u16, payload: &[u8]) -> bool
    ensures { result ≡ is_block size block payload.now }
{
    let size = usize::from(size);
    payload.len() < size || payload.len() == size && block < u16::MAX
}
