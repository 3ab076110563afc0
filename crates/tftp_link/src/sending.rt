//! The sending end of a transfer.
ghost use Rattle.std.specs.Prelude.{◌≡◌, ◌+◌, ◌≤◌, ◌&&◌, [], length, true};
ghost use Rattle.tftp_packet.specs.Options.{AreInRange};
ghost use Rattle.tftp_packet.specs.Packets.{Ack, Oack, Error, packet_view, IsInRange};
ghost use Rattle.tftp_link.specs.Answers.{Nothing, is_awaited_by, is_sent_by, news_by, news_view};
ghost use Rattle.tftp_link.specs.Negotiation.{may_grant, fits_said, block_count};
ghost use Rattle.tftp_link.specs.Sender.{contents, sender_asking, sender_serving};
ghost use Rattle.tftp_link.specs.Sender.{sender_answer, sender_moved, sender_after, sender_first};
ghost use Rattle.tftp_link.specs.Sender.{sender_packet, awaited_answer, data_of, with_next};

use crate::file_bytes::FileBytes;
use crate::negotiation::{
    DEFAULT_BLOCK_SIZE, asked_by_writer, block_size_of, fits_said, granted_to_reader, is_empty,
    may_grant,
};
use crate::phase::Phase;
use crate::step::{News, Step};
use load_base::Name;
use std::marker::Model;
use tftp_packet::{Options, Packet};

/// The sending end of a transfer (RFC 1350, section 2). It lends the file's blocks, and copies
/// none.
#[derive(Drop)]
pub struct Sending<'f> {
    /// Of the file, where the request is its own.
    name: Option<Name>,
    file: FileBytes<'f>,
    /// Those that its request asks for, or that it granted.
    options: Options,
    size: u16,
    /// The number of the block sent last, 0 before the first.
    sent: u16,
    phase: Phase,
}

impl<'f> Model for Sending<'f> {
    ghost use Rattle.tftp_link.specs.Sender.{Sender, IsSending, contents};

    ghost Value = { Sender };

    ghost view = { λ s. record {
      name = s.name;
      file = contents s.file;
      options = s.options;
      size = s.size;
      sent = s.sent;
      phase = s.phase;
    } };

    ghost invariant = { λ s. IsSending
        (record {
          name = s.name;
          file = contents s.file;
          options = s.options;
          size = s.size;
          sent = s.sent;
          phase = s.phase;
        }) };
}

impl<'f> Sending<'f> {
    /// Takes a request to read, which asks for these options, with a file of at most 16,777,215
    /// bytes.
    pub fn serve(file: FileBytes<'f>, asked: Options) -> Sending<'f>
        requires file { length (contents file) ≤ 16777215 }
        requires options { AreInRange asked }
        ensures { result ≡ sender_serving (contents file.entry) asked }
    {
        let options = granted_to_reader(file.as_slice().len(), &asked);
        Sending {
            name: None,
            file,
            options,
            size: block_size_of(&options),
            sent: if is_empty(&options) { 1 } else { 0 },
            phase: Phase::Running,
        }
    }

    /// Asks to write a file of at most 16,777,215 bytes under this name, with these options, but
    /// for a block size at which it would need more than 65,535 blocks.
    pub fn ask(name: Name, file: FileBytes<'f>, options: Options) -> Sending<'f>
        requires file { length (contents file) ≤ 16777215 }
        requires options { AreInRange options }
        ensures { result ≡ sender_asking name (contents file.entry) options }
    {
        let options = asked_by_writer(file.as_slice().len(), &options);
        Sending {
            name: Some(name),
            file,
            options,
            size: DEFAULT_BLOCK_SIZE,
            sent: 0,
            phase: Phase::Waiting,
        }
    }

    /// The first packet that this end sends: its request, or what answers one, DATA 1 or an OACK.
    pub fn first(&self) -> Packet<'_>
        ensures is { packet_view result ≡ sender_first self.now }
        ensures in_range { IsInRange (packet_view result) }
    {
        let options = self.options;
        match self.name {
            Some(name) => Packet::Wrq { name, options },
            None if is_empty(&options) => self.block(1),
            None => Packet::Oack { options },
        }
    }

    /// The packet that this end sent last.
    pub fn again(&self) -> Packet<'_>
        ensures is { packet_view result ≡ sender_packet self.now }
        ensures in_range { IsInRange (packet_view result) }
    {
        if self.sent == 0 {
            return self.first();
        }
        self.block(self.sent)
    }

    /// The block of this number.
    fn block(&self, number: u16) -> Packet<'_>
        requires { 1 ≤ number }
        ensures is { packet_view result ≡ data_of self.now.file self.now.size number }
        ensures in_range { IsInRange (packet_view result) }
    {
        let bytes = self.file.as_slice();
        let size = usize::from(self.size);
        let start = ((usize::from(number) - 1) * size).min(bytes.len());
        let end = (start + size).min(bytes.len());
        Packet::Data {
            block: number,
            payload: &bytes[start..end],
        }
    }

    /// Takes a packet that came from the other end, or may be the first answer to the request.
    pub fn on_packet<'a>(&mut self, packet: &Packet<'a>) -> Step<'a>
        requires { IsInRange (packet_view packet.now) }
        ensures state { self.new ≡ sender_after self.old (packet_view packet.now) }
        ensures news { news_view result.news
            ≡ news_by (sender_answer self.old (packet_view packet.now)) }
        ensures send { result.send ≡ is_sent_by (sender_answer self.old (packet_view packet.now)) }
        ensures awaited { result.awaited
            ≡ is_awaited_by (sender_answer self.old (packet_view packet.now)) }
    {
        match packet {
            Packet::Ack { block } => self.on_ack(*block),
            Packet::Oack { options } => self.on_oack(options),
            Packet::Error { code, text: _ } => self.on_error(*code),
            _ => Step::unawaited(false),
        }
    }

    fn on_ack<'a>(&mut self, block: u16) -> Step<'a>
        ensures state { self.new ≡ sender_after self.old (Ack block) }
        ensures news { news_view result.news ≡ news_by (sender_answer self.old (Ack block)) }
        ensures send { result.send ≡ is_sent_by (sender_answer self.old (Ack block)) }
        ensures awaited { result.awaited ≡ is_awaited_by (sender_answer self.old (Ack block)) }
    {
        match self.phase {
            Phase::Waiting if block == 0 => self.send_next(self.size),
            Phase::Running if block == self.sent => self.after_ack(),
            _ => Step::unawaited(false),
        }
    }

    /// What was sent last was acknowledged.
    fn after_ack<'a>(&mut self) -> Step<'a>
        ensures state { self.new ≡ sender_moved self.old (awaited_answer self.old) }
        ensures news { news_view result.news ≡ news_by (awaited_answer self.old) }
        ensures send { result.send ≡ is_sent_by (awaited_answer self.old) }
        ensures awaited { result.awaited ≡ is_awaited_by (awaited_answer self.old) }
    {
        let length = self.file.as_slice().len();
        if usize::from(self.sent) == length / usize::from(self.size) + 1 {
            self.phase = Phase::Finished;
            return Step {
                send: false,
                awaited: true,
                news: News::Done,
            };
        }
        self.send_next(self.size)
    }

    /// Sends the next block, in this block size.
    fn send_next<'a>(&mut self, size: u16) -> Step<'a>
        requires size { (1 ≤ size) × (size ≤ 65464) }
        requires last { block_count (length self.old.file) size ≤ 65535 }
        requires sent { self.old.sent + 1 ≤ block_count (length self.old.file) size }
        ensures state { self.new ≡ with_next self.old size }
        ensures news { news_view result.news ≡ Nothing }
        ensures send { result.send ≡ true }
        ensures awaited { result.awaited ≡ true }
    {
        self.size = size;
        self.sent += 1;
        self.phase = Phase::Running;
        Step::proceeding()
    }

    #[tactic(auto, using(crate::proofs::Fits::said_fits))]
    fn on_oack<'a>(&mut self, options: &Options) -> Step<'a>
        requires { AreInRange options.now }
        ensures state { self.new ≡ sender_after self.old (Oack options.now) }
        ensures news { news_view result.news ≡ news_by (sender_answer self.old (Oack options.now)) }
        ensures send { result.send ≡ is_sent_by (sender_answer self.old (Oack options.now)) }
        ensures awaited { result.awaited
            ≡ is_awaited_by (sender_answer self.old (Oack options.now)) }
    {
        match self.phase {
            Phase::Waiting if self.is_bound_by(options) => self.send_next(block_size_of(options)),
            _ => Step::unawaited(false),
        }
    }

    /// Whether an OACK with these options answers the request.
    fn is_bound_by(&self, options: &Options) -> bool
        requires { AreInRange options.now }
        ensures { result
            ≡ (may_grant self.now.options options.now
            && fits_said (length self.now.file) options.now.blksize) }
    {
        may_grant(&self.options, options) && fits_said(self.file.as_slice().len(), options.blksize)
    }

    fn on_error<'a>(&mut self, code: u16) -> Step<'a>
        ensures state { self.new ≡ sender_after self.old (Error code []) }
        ensures news { news_view result.news ≡ news_by (sender_answer self.old (Error code [])) }
        ensures send { result.send ≡ is_sent_by (sender_answer self.old (Error code [])) }
        ensures awaited { result.awaited ≡ is_awaited_by (sender_answer self.old (Error code [])) }
    {
        if !self.phase.is_live() {
            return Step::unawaited(false);
        }
        self.phase = Phase::Failed(code);
        Step {
            send: false,
            awaited: true,
            news: News::PeerError(code),
        }
    }
}
