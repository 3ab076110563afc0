//! The rules on transfers that both sides keep.
ghost use Rattle.std.specs.Prelude.{◌≡◌, ℕ, ◌+◌, ◌≤◌, max, List, [], ◌∷◌, length, true};
ghost use Rattle.std.specs.Prelude.{None, Some, IfOk, OnOk, unwrap_or};
ghost use Rattle.exchange_trace.specs.Happenings.{datagram_view};
ghost use Rattle.tftp_packet.specs.Options.{AreInRange};
ghost use Rattle.tftp_packet.specs.Packets.{IsInRange, packet_view};
ghost use Rattle.tftp_link.specs.Answers.{news_by, news_view};
ghost use Rattle.tftp_link.specs.Sender.{contents};
ghost use Rattle.transfer_end.specs.Calls.{Makes, end_seen, ends_transfer, transfer_seen, marked};
ghost use Rattle.transfer_end.specs.Calls.{posted, recalling, view_awaited, view_opened, with_last};
ghost use Rattle.transfer_end.specs.Calls.{with_live};
ghost use Rattle.transfer_end.specs.Moves.{Asks, Asks_size, Hears, Refuses, Repeats};
ghost use Rattle.transfer_end.specs.Moves.{Serves, Stops, datagram as datagram_of};
ghost use Rattle.transfer_end.specs.Moves.{last_of};
ghost use Rattle.transfer_end.specs.Packets.{answer_of, has_port, heard_answer, is_busy};
ghost use Rattle.transfer_end.specs.Packets.{is_fresh, may_repeat, transfer_moves};
ghost use Rattle.transfer_end.specs.Packets.{wanted_options};
ghost use Rattle.transfer_end.specs.Transfers.{Reads, ServesRead, ServesWrite, Writes, end_first};
ghost use Rattle.transfer_end.specs.Views.{EndView, new_end};

use crate::file_end::FileEnd;
use crate::posting::{copy_into, datagram};
use crate::transfer::Transfer;
use exchange_trace::{Datagram, Side};
use load_base::{Name, NoMemory};
use std::alloc::Global;
use std::marker::Model;
use tftp_link::{FileBytes, News, Receiving, Sending, Step};
use tftp_packet::{Options, Packet};

/// The port to which requests go (docs/EXCHANGE.md, "Transfers").
pub const REQUEST_PORT: u16 = 59;

/// How often a side repeats a datagram before it gives up.
const MOST_RETRIES: u8 = 5;

/// The transfers of one side: at most one is live at a time, and the last one in which a file was
/// received whole is kept, so that its last block is acknowledged again where it comes again.
///
/// After a call that was out of memory it isn't used again.
#[derive(Drop)]
pub struct TransferEnd<'f> {
    alloc: Global,
    /// 65,536 where no port is left.
    next_port: u32,
    /// The greatest port of another end so far.
    mark: u16,
    live: Option<Transfer<'f>>,
    kept: Option<Transfer<'f>>,
    retries: u8,
    /// What a tick repeats.
    last: Option<Datagram>,
    asks_size: Option<u16>,
}

impl<'f> Model for TransferEnd<'f> {
    ghost use Rattle.std.specs.Prelude.{◌≡◌, option_map, true};
    ghost use Rattle.exchange_trace.specs.Happenings.{datagram_view};
    ghost use Rattle.transfer_end.specs.Calls.{is_whole, transfer_seen};
    ghost use Rattle.transfer_end.specs.Views.{EndView};

    ghost Value = { EndView };

    ghost view = { λ e. record {
      next_port = e.next_port;
      mark = e.mark;
      live = option_map transfer_seen e.live;
      kept = option_map transfer_seen e.kept;
      retries = e.retries;
      last = option_map datagram_view e.last;
      asks_size = e.asks_size;
    } };

    ghost invariant = { λ e. is_whole e.kept ≡ true };
}

/// What a packet brought.
#[derive(Drop)]
pub struct Heard<'a> {
    /// What is posted now.
    pub post: Option<Datagram>,
    /// What it means to the live transfer.
    pub news: News<'a>,
}

impl<'f> TransferEnd<'f> {
    /// No transfer yet. Ports are drawn from this one on, up to 65,535.
    pub fn new(alloc: Global, first_port: u32) -> TransferEnd<'f>
        ensures { result ≡ new_end first_port }
    {
        TransferEnd {
            alloc,
            next_port: first_port,
            mark: 0,
            live: None,
            kept: None,
            retries: 0,
            last: None,
            asks_size: None,
        }
    }

    /// The port that is drawn next, or 65,536.
    pub fn next_port(&self) -> u32
        ensures { result ≡ self.now.next_port }
    {
        self.next_port
    }

    /// Whether a port is left to draw.
    pub fn has_port(&self) -> bool
        ensures { result ≡ has_port self.now }
    {
        self.next_port < 65_536
    }

    /// Whether a transfer is live.
    pub fn is_busy(&self) -> bool
        ensures { result ≡ is_busy self.now }
    {
        self.live.is_some()
    }

    /// Whether this port is greater than each that was accepted as that of another end. A request
    /// is taken from such a port alone, so that one that comes late or twice starts nothing.
    pub fn is_fresh(&self, from: u16) -> bool
        ensures { result ≡ is_fresh self.now from }
    {
        self.mark < from
    }

    /// Whether a tick may repeat what was posted last, or has to give up.
    pub fn may_repeat(&self) -> bool
        ensures { result ≡ may_repeat self.now }
    {
        self.retries < MOST_RETRIES
    }

    /// The options of a request of this side: the block size that it was told to ask for, and the
    /// length of the file that it sends, of at most 16,777,215 bytes, or 0.
    pub fn wanted_options(&self, file_length: usize) -> Options
        requires { file_length ≤ 16777215 }
        ensures is { result ≡ wanted_options self.now.asks_size file_length }
        ensures in_range { AreInRange result }
    {
        match self.asks_size {
            Some(size) if (8..=65_464).contains(&size) => Options {
                blksize: Some(size),
                timeout: None,
                tsize: Some(file_length as u32),
            },
            _ => Options {
                blksize: None,
                timeout: None,
                tsize: None,
            },
        }
    }

    /// Takes a packet between these ports, of which the second isn't 59. It comes to the live
    /// transfer, or to the kept one, or is dropped.
    pub fn on_packet<'a>(
        &mut self,
        side: Side,
        from: u16,
        to: u16,
        packet: &Packet<'a>,
    ) -> Result<Heard<'a>, NoMemory>
        requires { IsInRange (packet_view packet.now) }
        ensures moves { IfOk result (λ heard. Makes side
            (transfer_moves self.old from to (packet_view packet.now))
            self.old self.new (posted heard.post)) }
        ensures news { IfOk result (λ heard. news_view heard.news
            ≡ news_by (heard_answer self.old from to (packet_view packet.now))) }
    {
        match &self.live {
            Some(live) if live.has(from, to) => self.hear(side, from, packet),
            _ => {
                let post = self.recall(side, from, to, packet)?;
                Ok(Heard {
                    post,
                    news: News::Nothing,
                })
            }
        }
    }

    /// The live transfer gets a packet from this port.
    fn hear<'a>(
        &mut self,
        side: Side,
        from: u16,
        packet: &Packet<'a>,
    ) -> Result<Heard<'a>, NoMemory>
        requires { IsInRange (packet_view packet.now) }
        ensures moves { IfOk result (λ heard. Makes side
            (Hears from (packet_view packet.now) ∷ []) self.old self.new (posted heard.post)) }
        ensures news { IfOk result (λ heard. news_view heard.news
            ≡ news_by (answer_of self.old.live (packet_view packet.now))) }
    {
        match self.live.take() {
            Some(live) => self.hear_in(live, side, from, packet),
            None => Ok(Heard {
                post: None,
                news: News::Nothing,
            }),
        }
    }

    /// This transfer, which is the live one, gets a packet.
    fn hear_in<'a>(
        &mut self,
        transfer: Transfer<'f>,
        side: Side,
        from: u16,
        packet: &Packet<'a>,
    ) -> Result<Heard<'a>, NoMemory>
        requires live { self.old.live ≡ None }
        requires in_range { IsInRange (packet_view packet.now) }
        ensures moves { IfOk result (λ heard. Makes side
            (Hears from (packet_view packet.now) ∷ [])
            (with_live self.old (Some (transfer_seen transfer.entry))) self.new
            (posted heard.post)) }
        ensures news { IfOk result (λ heard. news_view heard.news
            ≡ news_by (answer_of (Some (transfer_seen transfer.entry)) (packet_view packet.now))) }
    {
        let mut transfer = transfer;
        let Step {
            send,
            awaited,
            news,
        } = transfer.end.on_packet(packet);
        let post = transfer.answer(self.alloc, side, from, send)?;
        if awaited {
            self.proceed(transfer, from, is_end(&news), &post)?;
        } else {
            self.restore(transfer);
        }
        Ok(Heard { post, news })
    }

    /// The transfer is live as before.
    fn restore(&mut self, transfer: Transfer<'f>)
        requires { self.old.live ≡ None }
        ensures { self.new ≡ with_live self.old (Some (transfer_seen transfer.entry)) }
    {
        self.live = Some(transfer);
    }

    /// After a packet that was awaited, at which this was posted, the transfer goes on or is over.
    /// It has its other end then.
    fn proceed(
        &mut self,
        transfer: Transfer<'f>,
        from: u16,
        is_over: bool,
        post: &Option<Datagram>,
    ) -> Result<(), NoMemory>
        requires { self.old.live ≡ None }
        ensures { OnOk result (self.new ≡ view_awaited self.old (transfer_seen transfer.entry)
            from is_over (posted post.now)) }
    {
        let mut transfer = transfer;
        self.note_last(post)?;
        if transfer.peer.is_none() {
            self.mark = self.mark.max(from);
        }
        transfer.peer = Some(transfer.peer.unwrap_or(from));
        self.retries = 0;
        if !is_over {
            self.live = Some(transfer);
        } else if transfer.end.is_received() {
            self.kept = Some(transfer);
        }
        Ok(())
    }

    /// A tick repeats what is posted now, if anything is.
    fn note_last(&mut self, post: &Option<Datagram>) -> Result<(), NoMemory>
        ensures { OnOk result
            (self.new ≡ with_last self.old (last_of self.old.last (posted post.now))) }
    {
        match post {
            Some(datagram) => self.repeat_later(datagram),
            None => Ok(()),
        }
    }

    /// A tick repeats this datagram now. It takes the place of what a tick repeated before.
    fn repeat_later(&mut self, datagram: &Datagram) -> Result<(), NoMemory>
        ensures { OnOk result
            (self.new ≡ with_last self.old (Some (datagram_view datagram.now))) }
    {
        match &mut self.last {
            Some(last) => copy_into(last, datagram),
            None => {
                self.last = Some(datagram.copy(self.alloc)?);
                Ok(())
            }
        }
    }

    /// The kept transfer gets a packet, if it is one of its: the block taken last is acknowledged
    /// again.
    fn recall(
        &mut self,
        side: Side,
        from: u16,
        to: u16,
        packet: &Packet<'_>,
    ) -> Result<Option<Datagram>, NoMemory>
        requires { IsInRange (packet_view packet.now) }
        ensures { IfOk result (λ post. Makes side
            (recalling self.old from to (packet_view packet.now))
            self.old self.new (posted post)) }
    {
        let alloc = self.alloc;
        match &mut self.kept {
            Some(kept) => kept.recall(alloc, side, from, to, packet),
            None => Ok(None),
        }
    }

    /// Asks to read the file of this name.
    pub fn ask_to_read(
        &mut self,
        side: Side,
        name: Name,
        options: Options,
    ) -> Result<Datagram, NoMemory>
        requires port { has_port self.old ≡ true }
        requires options { AreInRange options }
        ensures { IfOk result (λ post. Makes side (Asks (Reads name options) ∷ [])
            self.old self.new (datagram_view post ∷ [])) }
    {
        self.open(
            side,
            None,
            FileEnd::Receiving(Receiving::ask(name, options)),
        )
    }

    /// Asks to write this file, of at most 16,777,215 bytes, under this name.
    pub fn ask_to_write(
        &mut self,
        side: Side,
        name: Name,
        options: Options,
        file: FileBytes<'f>,
    ) -> Result<Datagram, NoMemory>
        requires port { has_port self.old ≡ true }
        requires options { AreInRange options }
        requires file { length (contents file) ≤ 16777215 }
        ensures { IfOk result (λ post. Makes side
            (Asks (Writes name options (contents file.entry)) ∷ [])
            self.old self.new (datagram_view post ∷ [])) }
    {
        self.open(
            side,
            None,
            FileEnd::Sending(Sending::ask(name, file, options)),
        )
    }

    /// Takes a request to read, with a file of at most 16,777,215 bytes.
    pub fn serve_read(
        &mut self,
        side: Side,
        from: u16,
        options: Options,
        file: FileBytes<'f>,
    ) -> Result<Datagram, NoMemory>
        requires port { has_port self.old ≡ true }
        requires options { AreInRange options }
        requires file { length (contents file) ≤ 16777215 }
        ensures { (name : List ℕ) → IfOk result (λ post. Makes side
            (Serves from (ServesRead name options (contents file.entry)) ∷ [])
            self.old self.new (datagram_view post ∷ [])) }
    {
        self.open_from(side, from, FileEnd::Sending(Sending::serve(file, options)))
    }

    /// Takes a request to write.
    pub fn serve_write(
        &mut self,
        side: Side,
        from: u16,
        options: Options,
    ) -> Result<Datagram, NoMemory>
        requires port { has_port self.old ≡ true }
        requires options { AreInRange options }
        ensures { (name : List ℕ) → IfOk result (λ post. Makes side
            (Serves from (ServesWrite name options) ∷ [])
            self.old self.new (datagram_view post ∷ [])) }
    {
        self.open_from(side, from, FileEnd::Receiving(Receiving::serve(options)))
    }

    /// A request from this port is taken, which marks the port.
    fn open_from(&mut self, side: Side, from: u16, end: FileEnd<'f>) -> Result<Datagram, NoMemory>
        requires { has_port self.old ≡ true }
        ensures { IfOk result (λ post. (datagram_view post
            ≡ datagram_of side self.old.next_port from (end_first (end_seen end.entry)))
            × (self.new ≡ view_opened (marked self.old from) (Some from) (end_seen end.entry)
            (datagram_view post))) }
    {
        self.mark = self.mark.max(from);
        self.retries = 0;
        self.open(side, Some(from), end)
    }

    /// A transfer begins at the next port, with its first packet.
    fn open(
        &mut self,
        side: Side,
        peer: Option<u16>,
        end: FileEnd<'f>,
    ) -> Result<Datagram, NoMemory>
        requires { has_port self.old ≡ true }
        ensures { IfOk result (λ post. (datagram_view post
            ≡ datagram_of side self.old.next_port (unwrap_or peer 59)
            (end_first (end_seen end.entry)))
            × (self.new ≡ view_opened self.old peer (end_seen end.entry) (datagram_view post))) }
    {
        let own = self.next_port as u16;
        let to = peer.unwrap_or(REQUEST_PORT);
        let post = datagram(self.alloc, side, own, to, &end.first())?;
        self.repeat_later(&post)?;
        self.next_port += 1;
        self.live = Some(Transfer { own, peer, end });
        Ok(post)
    }

    /// Refuses a request from this port: ERROR 1, the file isn't found (RFC 1350, section 5).
    pub fn refuse(&self, side: Side, from: u16) -> Result<Datagram, NoMemory>
        ensures { IfOk result (λ post. Makes side (Refuses from ∷ [])
            self.now self.now (datagram_view post ∷ [])) }
    {
        let refusal = Packet::Error { code: 1, text: b"" };
        datagram(self.alloc, side, REQUEST_PORT, from, &refusal)
    }

    /// Posts once more what was posted last, where a tick may.
    pub fn repeat(&mut self) -> Result<Option<Datagram>, NoMemory>
        requires { may_repeat self.old ≡ true }
        ensures { (side : Side) → IfOk result (λ post. Makes side (Repeats ∷ [])
            self.old self.new (posted post)) }
    {
        self.retries += 1;
        match &self.last {
            Some(datagram) => Ok(Some(datagram.copy(self.alloc)?)),
            None => Ok(None),
        }
    }

    /// Ends the live transfer, if there is one, since its session ends or another begins.
    pub fn stop(&mut self)
        ensures { (side : Side) → Makes side (Stops ∷ []) self.old self.new [] }
    {
        self.live = None;
        self.retries = 0;
    }

    /// From now on requests ask for this block size, or for none.
    pub fn ask_size(&mut self, size: Option<u16>)
        ensures { (side : Side) → Makes side (Asks_size size ∷ []) self.old self.new [] }
    {
        self.asks_size = size;
    }
}

/// Whether the packet that brought these news ended its transfer.
fn is_end(news: &News<'_>) -> bool
    ensures { result ≡ ends_transfer (news_view news.now) }
{
    matches!(news, News::Last(_) | News::Done | News::PeerError(_))
}
