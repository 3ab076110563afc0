//! The loader.
ghost use Rattle.std.specs.Option.{ForSome};
ghost use Rattle.std.specs.Prelude.{◌≡◌, ◌∷◌, [], length, true, None, Some, IfOk, OnOk};
ghost use Rattle.std.specs.Prelude.{is_some, map, option_map, false, ◌==◌};
ghost use Rattle.exchange_trace.specs.declared.trace.Side.TheVariants as sides;
ghost use Rattle.exchange_trace.specs.Logs.{Gets, Learns, Starts_info, Starts_upload};
ghost use Rattle.exchange_trace.specs.Logs.{Ticks};
ghost use Rattle.load_protocol_files.specs.Lcl.{lcl_view};
ghost use Rattle.media_check.specs.Sets.{set_view};
ghost use Rattle.tftp_link.specs.Answers.{news_view};
ghost use Rattle.tftp_packet.specs.Options.{AreInRange};
ghost use Rattle.tftp_packet.specs.Packets.{IsInRange, packet_view};
ghost use Rattle.transfer_end.specs.Calls.{Makes, posted, posts_view};
ghost use Rattle.transfer_end.specs.Moves.{Asks, Stops, view_after};
ghost use Rattle.transfer_end.specs.Packets.{has_port, wanted_options};
ghost use Rattle.transfer_end.specs.Transfers.{Reads, Writes};
ghost use Rattle.session_rules.specs.declared.outcome.FileKind.TheVariants as kinds;
ghost use Rattle.session_rules.specs.FileNames.{file_name as name_of};
ghost use Rattle.session_rules.specs.Loader.{advanced, begun, continued, ending, new_loader};
ghost use Rattle.session_rules.specs.Loader.{refused_upload, row_request, session_decision};
ghost use Rattle.session_rules.specs.Loader.{start_decision};
ghost use Rattle.session_rules.specs.Loader.{turn_decision, write_decision};
ghost use Rattle.session_rules.specs.LoaderRows.{Goes_on, file_turn, kind_taken, row_after};
ghost use Rattle.session_rules.specs.LoaderRows.{serves_files};
ghost use Rattle.session_rules.specs.Reports.{lur_file};
ghost use Rattle.loader_machine.specs.Machine.{LoaderDoes, IsUnlisted, LoaderServes};
ghost use Rattle.loader_machine.specs.Machine.{LoaderTakesEvent, all_sessions};
ghost use Rattle.loader_machine.specs.Machine.{asking, session_view};
ghost use Rattle.loader_machine.specs.Machine.{awaits_file, closed, reading};
ghost use Rattle.loader_machine.specs.Machine.{following, is_asking, listed_at, listed_in};
ghost use Rattle.loader_machine.specs.Machine.{media_of, row_seen, turn_seen};
ghost use Rattle.loader_machine.specs.Machine.{start_view, with_end, with_ended};
ghost use Rattle.loader_machine.specs.Machine.{with_session};

use crate::requested::{Requested, entries_of, request_for};
use crate::row::Row;
use crate::session::{LiveSession, Session, Start};
use crate::turn::Turn;
use exchange_trace::{Datagram, FIRST_PORT, Side};
use load_base::{Ident, List, Name, NoMemory, PartText};
use load_protocol_files::{Lcl, Lur};
use media_check::MediaSet;
use session_files::{FileBuffer, file_name};
use session_rules::{FileKind, Outcome, SessionKind};
use std::alloc::Global;
use std::marker::Model;
use tftp_link::{FileBytes, News};
use tftp_packet::{Options, Packet};
use transfer_end::{Heard, Posts, REQUEST_PORT, TransferEnd, packet_in};

/// The most parts of an upload.
const MOST_PARTS_OF_AN_UPLOAD: usize = 32;

/// The data loader. After a call that was out of memory it isn't used again.
#[derive(Drop)]
pub struct Loader<'m> {
    alloc: Global,
    media: &'m MediaSet,
    end: TransferEnd<'m>,
    live: Option<LiveSession>,
    /// The live session, if there is one, stands last and is open.
    sessions: List<Session>,
}

impl<'m> Model for Loader<'m> {
    ghost use Rattle.std.specs.Prelude.{is_some};
    ghost use Rattle.media_check.specs.Sets.{set_view};
    ghost use Rattle.loader_machine.specs.Machine.{IsOpenLast, LoaderState, ended_view};

    ghost Value = { LoaderState };

    ghost view = { λ l. record {
      set = set_view l.media.now;
      view = record {
        end = l.end;
        live = l.live;
        ended = ended_view (is_some l.live) l.sessions.items;
      };
    } };

    ghost invariant = { λ l. IsOpenLast l.live l.sessions.items };
}

impl<'m> Loader<'m> {
    /// A loader that serves this media set, without a session yet.
    pub fn new(alloc: Global, media: &'m MediaSet) -> Loader<'m>
        ensures { result ≡ record { set = set_view media.now; view = new_loader } }
    {
        Loader {
            alloc,
            media,
            end: TransferEnd::new(alloc, FIRST_PORT),
            live: None,
            sessions: List::new(alloc),
        }
    }

    /// Starts an information session with the target of this hardware and position. A live session
    /// is replaced.
    pub fn start_info(&mut self, hw: Ident, pos: Ident) -> Result<Posts, NoMemory>
        ensures { IfOk result (λ posts. LoaderTakesEvent (Starts_info hw pos)
            self.old self.new (posts_view posts)) }
    {
        self.start(Start {
            kind: SessionKind::Info,
            hw,
            pos,
            request: Lur {
                loads: List::new(self.alloc),
            },
        })
    }

    /// Starts an upload of these parts to the target of this hardware and position. A live session
    /// is replaced. More than 32 parts are refused, and so is a part that the media set doesn't
    /// list, the first of these; then nothing is posted.
    pub fn start_upload(
        &mut self,
        hw: Ident,
        pos: Ident,
        parts: &[PartText],
    ) -> Result<Posts, NoMemory>
        ensures { IfOk result (λ posts. LoaderTakesEvent (Starts_upload hw pos parts.now)
            self.old self.new (posts_view posts)) }
    {
        if parts.len() > MOST_PARTS_OF_AN_UPLOAD {
            return self.refuse_upload(Outcome::TooMany);
        }
        match request_for(self.alloc, entries_of(self.media), parts)? {
            Requested::All(request) => self.start(Start {
                kind: SessionKind::Upload,
                hw,
                pos,
                request,
            }),
            Requested::Unlisted(part) => self.refuse_upload(Outcome::NotOnMedia(part)),
        }
    }

    /// An upload is over as soon as it began.
    fn refuse_upload(&mut self, outcome: Outcome) -> Result<Posts, NoMemory>
        ensures { IfOk result (λ posts. LoaderDoes (refused_upload outcome)
            self.old self.new (posts_view posts)) }
    {
        self.stop();
        self.close(Outcome::Replaced, None)?;
        self.end_at_once(SessionKind::Upload, outcome)?;
        Ok(Posts::none())
    }

    /// A datagram comes, between these ports. One that spells no packet is dropped.
    pub fn on_datagram(&mut self, from: u16, to: u16, bytes: &[u8]) -> Result<Posts, NoMemory>
        ensures { IfOk result (λ posts. LoaderTakesEvent (Gets from to bytes.now)
            self.old self.new (posts_view posts)) }
    {
        let packet = packet_in(bytes);
        match &packet {
            Some(packet) if to == REQUEST_PORT => self.on_request(from, packet),
            Some(packet) => self.on_transfer(from, to, packet),
            None => Ok(Posts::none()),
        }
    }

    /// The loader's timer expires. A live session posts once more what it posted last, and gives up
    /// after five retries.
    pub fn on_tick(&mut self) -> Result<Posts, NoMemory>
        ensures { IfOk result (λ posts. LoaderTakesEvent Ticks self.old self.new
            (posts_view posts)) }
    {
        if self.live.is_none() {
            return Ok(Posts::none());
        }
        if !self.end.may_repeat() {
            self.end_session(Outcome::GaveUp)?;
            return Ok(Posts::none());
        }
        let post = self.end.repeat()?;
        Ok(Posts::of(post, None))
    }

    /// From now on requests ask for this block size, or for none.
    pub fn ask_blocks(&mut self, size: Option<u16>)
        ensures { LoaderTakesEvent (Learns size) self.old self.new [] }
    {
        self.end.ask_size(size);
    }

    /// Whether a session is live.
    pub fn waits(&self) -> bool
        ensures { result ≡ is_some self.now.view.live }
    {
        self.live.is_some()
    }

    /// A session begins with its first request, if a port is left. A live one is replaced.
    fn start(&mut self, start: Start) -> Result<Posts, NoMemory>
        ensures { IfOk result (λ posts. LoaderDoes
            (start_decision self.old.view.end (start_view start))
            self.old self.new (posts_view posts)) }
    {
        self.stop();
        self.close(Outcome::Replaced, None)?;
        if !self.has_port() {
            self.end_at_once(start.kind, Outcome::PortsSpent)?;
            return Ok(Posts::none());
        }
        let row = Row::first(start.kind);
        let post = self.ask(&start, row)?;
        self.open(start)?;
        Ok(Posts::of(post, None))
    }

    /// The live transfer, if there is one, is over.
    fn stop(&mut self)
        ensures { self.new
            ≡ with_end self.old (view_after sides.Loader self.old.view.end Stops) }
    {
        self.end.stop();
    }

    fn has_port(&self) -> bool
        ensures { result ≡ has_port self.now.view.end }
    {
        self.end.has_port()
    }

    /// Asks for what this row asks for, if that is the loader's to ask.
    fn ask(&mut self, start: &Start, row: Row) -> Result<Option<Datagram>, NoMemory>
        requires { has_port self.old.view.end ≡ true }
        ensures makes { IfOk result (λ post. Makes sides.Loader (asking
            (row_request self.old.view.end.asks_size (start_view start.now) (row_seen row)))
            self.old.view.end self.new.view.end (posted post)) }
        ensures rest { OnOk result (self.new ≡ with_end self.old self.new.view.end) }
    {
        request(self.alloc, &mut self.end, start, row)
    }

    /// The live session, if there is one, is over.
    fn close(&mut self, outcome: Outcome, listed: Option<Lcl>) -> Result<(), NoMemory>
        ensures { OnOk result (self.new ≡ closed self.old outcome (option_map lcl_view listed)) }
    {
        if let Some(session) = self.live.take() {
            self.sessions.pop();
            self.sessions.push(Session {
                kind: session.start.kind,
                outcome,
                listed,
            })?;
        }
        Ok(())
    }

    /// A session of this operation is over as soon as it began.
    fn end_at_once(&mut self, kind: SessionKind, outcome: Outcome) -> Result<(), NoMemory>
        requires { self.old.view.live ≡ None }
        ensures { OnOk result (self.new ≡ with_ended self.old
            (record { kind = kind; outcome = outcome; listed = None })) }
    {
        self.sessions.push(Session {
            kind,
            outcome,
            listed: None,
        })
    }

    /// A session is live, in its first row.
    fn open(&mut self, start: Start) -> Result<(), NoMemory>
        requires { self.old.view.live ≡ None }
        ensures { OnOk result
            (self.new ≡ with_session self.old (Some (begun (start_view start)))) }
    {
        self.sessions.push(Session {
            kind: start.kind,
            outcome: Outcome::Open,
            listed: None,
        })?;
        let row = Row::first(start.kind);
        self.live = Some(LiveSession {
            start,
            row,
            arriving: FileBuffer::new(self.alloc),
        });
        Ok(())
    }

    /// All sessions, in the order of their starts. A live one stands last, and is open.
    pub fn sessions(&self) -> &List<Session>
        ensures { map session_view result.now.items ≡ all_sessions self.now.view }
    {
        &self.sessions
    }

    /// All sessions, as `sessions` has them. It takes no memory.
    pub fn into_sessions(self) -> List<Session>
        ensures { map session_view result.items ≡ all_sessions self.entry.view }
    {
        self.sessions
    }

    /// The live session ends without a list.
    fn end_session(&mut self, outcome: Outcome) -> Result<(), NoMemory>
        requires { IsUnlisted outcome }
        ensures { OnOk result (LoaderDoes (ending outcome) self.old self.new []) }
    {
        self.stop();
        self.close(outcome, None)
    }

    /// A packet comes to port 59. It is dropped unless a session is live and no transfer is.
    fn on_request(&mut self, from: u16, packet: &Packet<'_>) -> Result<Posts, NoMemory>
        requires { IsInRange (packet_view packet.now) }
        ensures { IfOk result (λ posts. LoaderDoes (session_decision (media_of self.old.set)
            self.old.view.end self.old.view.live from 59 (packet_view packet.now))
            self.old self.new (posts_view posts)) }
    {
        if self.live.is_none() || self.end.is_busy() {
            return Ok(Posts::none());
        }
        match packet {
            Packet::Rrq { name, options } => self.serve_file(from, name, *options),
            Packet::Wrq { name, options } => self.receive_file(from, name, *options),
            _ => Ok(Posts::none()),
        }
    }

    /// A request to read a file, which is taken after the LUR alone. One that the media set doesn't
    /// hold is refused.
    fn serve_file(&mut self, from: u16, name: &Name, options: Options) -> Result<Posts, NoMemory>
        requires { AreInRange options }
        ensures { ForSome self.old.view.live (λ s. IfOk result (λ posts. LoaderDoes
            (reading (media_of self.old.set) self.old.view.end s from name.now options)
            self.old self.new (posts_view posts))) }
    {
        if !self.serves_files() {
            return Ok(Posts::none());
        }
        let media = self.media;
        let Some(file) = media.file(name) else {
            let refusal = self.end.refuse(Side::Loader, from)?;
            return Ok(Posts::of(Some(refusal), None));
        };
        if !self.may_serve(from)? {
            return Ok(Posts::none());
        }
        let file = FileBytes::Lent(file.as_slice());
        let post = self.end.serve_read(Side::Loader, from, options, file)?;
        Ok(Posts::of(Some(post), None))
    }

    /// Whether the live session has come to the row in which it serves files.
    fn serves_files(&self) -> bool
        ensures { ForSome self.now.view.live (λ s. result ≡ serves_files s.row) }
    {
        match &self.live {
            Some(session) => session.row.serves_files(),
            None => false,
        }
    }

    /// A request to write a file, which is taken if the row takes one of this name.
    fn receive_file(&mut self, from: u16, name: &Name, options: Options) -> Result<Posts, NoMemory>
        requires { AreInRange options }
        ensures { ForSome self.old.view.live (λ s. IfOk result (λ posts. LoaderDoes
            (write_decision self.old.view.end s.start from name.now options (kind_taken s.row))
            self.old self.new (posts_view posts))) }
    {
        if !self.awaits(name) {
            return Ok(Posts::none());
        }
        if !self.may_serve(from)? {
            return Ok(Posts::none());
        }
        let post = self.end.serve_write(Side::Loader, from, options)?;
        Ok(Posts::of(Some(post), None))
    }

    /// Whether the row of the live session takes a file of this name.
    fn awaits(&self, name: &Name) -> bool
        ensures { ForSome self.now.view.live (λ s. result ≡ awaits_file s name.now) }
    {
        let Some(session) = &self.live else {
            return false;
        };
        let Some(kind) = session.row.kind_taken() else {
            return false;
        };
        let start = &session.start;
        let awaited = file_name(&start.hw, &start.pos, kind);
        name.as_slice() == awaited.as_slice()
    }

    /// Whether a request from this port is taken now. Only one from a fresh port is, and where no
    /// port is left for its transfer the session ends.
    fn may_serve(&mut self, from: u16) -> Result<bool, NoMemory>
        ensures { IfOk result (λ taken. LoaderServes taken from self.old self.new) }
    {
        if !self.end.is_fresh(from) {
            return Ok(false);
        }
        if !self.has_port() {
            self.end_session(Outcome::PortsSpent)?;
            return Ok(false);
        }
        Ok(true)
    }

    /// A packet comes to a transfer, between these ports, of which the second isn't 59.
    fn on_transfer(&mut self, from: u16, to: u16, packet: &Packet<'_>) -> Result<Posts, NoMemory>
        requires in_range { IsInRange (packet_view packet.now) }
        requires port { (to == 59) ≡ false }
        ensures { IfOk result (λ posts. LoaderDoes (session_decision (media_of self.old.set)
            self.old.view.end self.old.view.live from to (packet_view packet.now))
            self.old self.new (posts_view posts)) }
    {
        let Heard { post, news } = self.end.on_packet(Side::Loader, from, to, packet)?;
        let next = self.follow(&news)?;
        Ok(Posts::of(post, next))
    }

    /// What follows from the news of the live transfer.
    fn follow(&mut self, news: &News<'_>) -> Result<Option<Datagram>, NoMemory>
        ensures session { ForSome self.old.view.live (λ s. IfOk result (λ post. LoaderDoes
            (following self.old.view.end s (news_view news.now))
            self.old self.new (posted post))) }
        ensures idle { self.old.view.live ≡ None → IfOk result (λ post.
            (posted post ≡ []) × (self.new ≡ self.old)) }
    {
        match news {
            News::Nothing => Ok(None),
            News::Block(payload) => {
                self.add_payload(payload)?;
                Ok(None)
            }
            News::Last(payload) => {
                self.add_payload(payload)?;
                let turn = self.turn_of_file()?;
                self.turn(turn)
            }
            News::Done => self.turn(Turn::GoesOn),
            News::PeerError(code) => self.turn(Turn::end(Outcome::PeerError(*code))),
        }
    }

    /// More of a file arrives.
    fn add_payload(&mut self, payload: &[u8]) -> Result<(), NoMemory>
        ensures { OnOk result
            (self.new ≡ with_session self.old (continued self.old.view.live payload.now)) }
    {
        match &mut self.live {
            Some(session) => session.arriving.take(payload),
            None => Ok(()),
        }
    }

    /// What the file that arrived whole comes to.
    fn turn_of_file(&self) -> Result<Turn, NoMemory>
        ensures is { ForSome self.now.view.live (λ s. IfOk result (λ turn.
            turn_seen turn ≡ file_turn s.row s.arriving)) }
        ensures listed { ForSome self.now.view.live (λ s. IfOk result (λ turn.
            listed_in turn ≡ listed_at s.start.kind (turn_seen turn) s.arriving.prefix)) }
    {
        match &self.live {
            Some(session) => Turn::of_file(self.alloc, session.row, &session.arriving),
            None => Ok(Turn::GoesOn),
        }
    }

    /// A transfer of the live session is over.
    fn turn(&mut self, turn: Turn) -> Result<Option<Datagram>, NoMemory>
        requires { ForSome self.old.view.live (λ s.
            listed_in turn ≡ listed_at s.start.kind (turn_seen turn) s.arriving.prefix) }
        ensures session { ForSome self.old.view.live (λ s. IfOk result (λ post. LoaderDoes
            (turn_decision self.old.view.end s [] [] (turn_seen turn))
            self.old self.new (posted post))) }
        ensures idle { self.old.view.live ≡ None → IfOk result (λ post.
            (posted post ≡ []) × (self.new ≡ self.old)) }
    {
        if self.live.is_none() {
            return Ok(None);
        }
        match turn {
            Turn::GoesOn => self.advance(),
            Turn::ComesTo { outcome, listed } => {
                self.stop();
                self.close(outcome, listed)?;
                Ok(None)
            }
        }
    }

    /// The live session goes on to its next row, if a port is left for a request.
    fn advance(&mut self) -> Result<Option<Datagram>, NoMemory>
        ensures { ForSome self.old.view.live (λ s. IfOk result (λ post. LoaderDoes
            (turn_decision self.old.view.end s [] [] Goes_on)
            self.old self.new (posted post))) }
    {
        if self.asks_next() && !self.has_port() {
            self.end_session(Outcome::PortsSpent)?;
            return Ok(None);
        }
        self.enter_next()
    }

    /// Whether the next row of the live session begins with a request of the loader's own.
    fn asks_next(&self) -> bool
        ensures { ForSome self.now.view.live (λ s. result ≡ is_asking (row_after s.row)) }
    {
        match &self.live {
            Some(session) => session.row.next().is_asking(),
            None => false,
        }
    }

    /// The live session enters its next row.
    #[tactic(auto, using(crate::proofs::Following::next_of))]
    fn enter_next(&mut self) -> Result<Option<Datagram>, NoMemory>
        requires { ForSome self.old.view.live (λ s. is_asking (row_after s.row) ≡ true
            → has_port self.old.view.end ≡ true) }
        ensures makes { ForSome self.old.view.live (λ s. IfOk result (λ post.
            Makes sides.Loader (asking
            (row_request self.old.view.end.asks_size s.start (row_after s.row)))
            self.old.view.end self.new.view.end (posted post))) }
        ensures rest { OnOk result (self.new ≡ with_session
            (with_end self.old self.new.view.end) (advanced self.old.view.live)) }
    {
        let alloc = self.alloc;
        match &mut self.live {
            Some(session) => {
                let row = session.row.next();
                let post = request(alloc, &mut self.end, &session.start, row)?;
                session.row = row;
                session.arriving = FileBuffer::new(alloc);
                Ok(post)
            }
            None => Ok(None),
        }
    }
}

/// Asks for what this row asks for, if that is the loader's to ask.
fn request(
    alloc: Global,
    end: &mut TransferEnd<'_>,
    start: &Start,
    row: Row,
) -> Result<Option<Datagram>, NoMemory>
    requires { is_asking (row_seen row) ≡ true → has_port end.old ≡ true }
    ensures { IfOk result (λ post. Makes sides.Loader
        (asking (row_request end.old.asks_size (start_view start.now) (row_seen row)))
        end.old end.new (posted post)) }
{
    match row {
        Row::ReadsLci => ask_to_read(end, start, FileKind::Lci),
        Row::ReadsLui => ask_to_read(end, start, FileKind::Lui),
        Row::WritesLur => ask_to_write(alloc, end, start),
        Row::TakesLcs | Row::TakesLcl | Row::TakesLus | Row::ServesFiles => Ok(None),
    }
}

fn ask_to_read(
    end: &mut TransferEnd<'_>,
    start: &Start,
    kind: FileKind,
) -> Result<Option<Datagram>, NoMemory>
    requires { has_port end.old ≡ true }
    ensures { IfOk result (λ post. Makes sides.Loader (Asks (Reads
        (name_of start.now.hw start.now.pos kind) (wanted_options end.old.asks_size 0)) ∷ [])
        end.old end.new (posted post)) }
{
    let name = file_name(&start.hw, &start.pos, kind);
    let options = end.wanted_options(0);
    Ok(Some(end.ask_to_read(Side::Loader, name, options)?))
}

/// Asks to write the request for the loads of an upload.
#[tactic(auto, using(crate::proofs::Requests::is_request))]
fn ask_to_write(
    alloc: Global,
    end: &mut TransferEnd<'_>,
    start: &Start,
) -> Result<Option<Datagram>, NoMemory>
    requires { has_port end.old ≡ true }
    ensures { IfOk result (λ post. Makes sides.Loader (Asks (Writes
        (name_of start.now.hw start.now.pos kinds.Lur)
        (wanted_options end.old.asks_size (length (lur_file start.now.request.loads.items)))
        (lur_file start.now.request.loads.items)) ∷ []) end.old end.new (posted post)) }
{
    let name = file_name(&start.hw, &start.pos, FileKind::Lur);
    let file = start.request.encode(alloc)?;
    let options = end.wanted_options(file.len());
    Ok(Some(end.ask_to_write(Side::Loader, name, options, FileBytes::Owned(file))?))
}
