//! The target.
ghost use Rattle.std.specs.Option.{ForSome};
ghost use Rattle.std.specs.Prelude.{◌≡◌, ◌≤◌, [], List, ℕ, None, Some, true, IfErr, IfOk};
ghost use Rattle.std.specs.Prelude.{IsErrOf, OnOk, bytes_eq, is_some, option_map};
ghost use Rattle.accept_rules.specs.Interlocks.{FollowsAccepts};
ghost use Rattle.accept_rules.specs.Permissions.{Accepts};
ghost use Rattle.bank_store.specs.DiskWrites.{IsRunning};
ghost use Rattle.bank_store.specs.Fits.{Fits, LosesOnlyWork, Works};
ghost use Rattle.bank_store.specs.Keeps.{Continues};
ghost use Rattle.bank_store.specs.Store.{IsIdle};
ghost use Rattle.disk_layout.specs.DiskReads.{HasDiskCause};
ghost use Rattle.disk_layout.specs.Holds.{StandingView};
ghost use Rattle.exchange_trace.specs.Logs.{Gets, Learns, Ticks};
ghost use Rattle.tftp_packet.specs.Options.{AreInRange};
ghost use Rattle.tftp_packet.specs.Packets.{IsInRange, packet_view};
ghost use Rattle.tftp_link.specs.Answers.{news_view};
ghost use Rattle.exchange_trace.specs.declared.trace.Side.TheVariants as sides;
ghost use Rattle.transfer_end.specs.Calls.{Makes, posted, posts_view};
ghost use Rattle.transfer_end.specs.Moves.{Stops, view_after};
ghost use Rattle.transfer_end.specs.Packets.{has_port};
ghost use Rattle.session_rules.specs.Buffers.{buffer_size};
ghost use Rattle.session_rules.specs.Contents.{AreKept, SessionContents, TargetContents};
ghost use Rattle.session_rules.specs.Contents.{contents_after, contents_changed, session_kept};
ghost use Rattle.session_rules.specs.Target.{Continues as Goes_on};
ghost use Rattle.session_rules.specs.Target.{continued, ending, later_reason, nothing};
ghost use Rattle.session_rules.specs.Target.{own_decision, own_name};
ghost use Rattle.session_rules.specs.Target.{read_decision, request_decision, tick_decision};
ghost use Rattle.session_rules.specs.Target.{row_request, transfer_decision, turn_decision};
ghost use Rattle.load_intake.specs.declared.down.Down.TheVariants as downs;
ghost use Rattle.load_intake.specs.Contents.{BringsRow, InstallsRow};
ghost use Rattle.load_intake.specs.Stores.{Writes};
ghost use Rattle.target_machine.specs.Boots.{BootFails, BootReads, ComesUp};
ghost use Rattle.target_machine.specs.declared.boot.BootFault.TheVariants.{Recover};
ghost use Rattle.disk_layout.specs.declared.fault.RecoverFault.TheVariants as recovers;
ghost use Rattle.target_machine.specs.Decisions.{TargetDoes, Enters, IsCalm, TargetKeeps};
ghost use Rattle.target_machine.specs.Decisions.{TargetServes};
ghost use Rattle.target_machine.specs.Decisions.{TargetTakesEvent, asked_by};
ghost use Rattle.target_machine.specs.Decisions.{awaits_file, end_with};
ghost use Rattle.target_machine.specs.Decisions.{following, given_kind, in_next_row, kind_given};
ghost use Rattle.target_machine.specs.Decisions.{refusing, row_then, with_live};
ghost use Rattle.target_machine.specs.Decisions.{writing_decision};
ghost use Rattle.target_machine.specs.Disks.{BringsContents, HoldsContents, IsAtRest};
ghost use Rattle.target_machine.specs.Disks.{KeepsDisk, KeepsWork, StartsOn, change_heard};
ghost use Rattle.target_machine.specs.Disks.{change_turned, whole_row_then};
ghost use Rattle.target_machine.specs.Machine.{contents_arriving};
ghost use Rattle.target_machine.specs.Stages.{StaysOn};

use crate::boot::BootFault;
use crate::installed::Installed;
use crate::request::{request, serve_first};
use crate::row::Row;
use crate::session::LiveSession;
use accept_rules::{Interlock, Rule};
use bank_store::{a_store_goes_on_fitting, an_idle_store_works};
use disk_layout::Identity;
use disk_model::Disk;
use exchange_trace::{Datagram, Side};
use load_base::{Name, NoMemory};
use load_intake::Down;
use recovery::survey;
use session_files::{FileBuffer, file_name};
use session_rules::laws::contents_follow_their_log;
use session_rules::{FileKind, Reason, SessionKind};
use std::alloc::Global;
use std::marker::Model;
use tftp_link::News;
use tftp_packet::{Options, Packet};
use transfer_end::{Heard, Posts, REQUEST_PORT, TransferEnd, packet_in};

/// The target. After a call that answered [`Down`] it isn't used again.
#[derive(Drop)]
pub struct Target<'i, R: Rule> {
    alloc: Global,
    interlock: &'i Interlock<R>,
    end: TransferEnd<'i>,
    installed: Installed,
    live: Option<LiveSession>,
    /// The last one since it came up.
    reason: Option<Reason>,
}

impl<'i, R: Rule> Model for Target<'i, R> {
    ghost use Rattle.std.specs.Prelude.{option_map};
    ghost use Rattle.target_machine.specs.Decisions.{TargetState};
    ghost use Rattle.target_machine.specs.Machine.{live_held, session_seen};
    ghost use Rattle.target_machine.specs.Stages.{IsInStage};

    ghost Value = { TargetState R };

    ghost view = { λ t. record {
      rule = t.interlock.now;
      store = t.installed.store;
      view = record {
        end = t.end;
        live = option_map (session_seen t.installed.active.loads) t.live;
        active = t.installed.active;
        reason = t.reason;
      };
      held = live_held t.live;
    } };

    ghost invariant = { λ t. IsInStage t.live t.installed.store };
}

impl<'i, R: Rule> Target<'i, R> {
    /// Brings a target up on a disk: what is active is read from there, and ports are drawn from
    /// this one on, 1024 to 65,536. Nothing is written.
    pub fn boot<K: Disk>(
        alloc: Global,
        disk: &mut K,
        interlock: &'i Interlock<R>,
        first_port: u32,
    ) -> Result<Target<'i, R>, BootFault>
        requires { IsRunning (K.state disk.old) }
        ensures comes_up { IfOk result (λ target. ComesUp interlock.now first_port target
            (K.state disk.old)) }
        ensures fits { IfOk result (λ target. Fits target.store (K.state disk.new)) }
        ensures works { IfOk result (λ target. LosesOnlyWork (K.state disk.old)
            → Works target.store (K.state disk.new)) }
        ensures starts { IfOk result (λ target. LosesOnlyWork (K.state disk.old)
            → ForSome (K.state disk.old).reads (λ image. StartsOn target.view target.store image
            (K.state disk.new))) }
        ensures refused { IfErr result (λ fault. ForSome (K.state disk.old).reads
            (λ image. BootFails image fault)) }
        ensures apart { ¬ IsErrOf result (Recover recovers.Memory) }
        ensures reads_disk { BootReads (K.state disk.old) (K.state disk.new) result }
    {
        let installed = Installed::of(survey(alloc, disk)?);
        Ok(Target {
            alloc,
            interlock,
            end: TransferEnd::new(alloc, first_port),
            installed,
            live: None,
            reason: None,
        })
    }

    /// A datagram comes, between these ports. One that spells no packet is dropped.
    pub fn on_datagram<K: Disk>(
        &mut self,
        disk: &mut K,
        from: u16,
        to: u16,
        bytes: &[u8],
    ) -> Result<Posts, Down>
        requires { IsRunning (K.state disk.old) }
        ensures takes { (accepts : Accepts) → FollowsAccepts R.may_say self.old.rule accepts
            → IfOk result (λ posts. TargetTakesEvent accepts (Gets from to bytes.now)
            self.old self.new (posts_view posts)) }
        // What the disk has then, and what a power loss may have left.
        ensures keeps_disk { (accepts : Accepts)
            → FollowsAccepts R.may_say self.old.rule accepts
            → (c : TargetContents) → AreKept c self.old.view
            → HoldsContents self.old.store (K.state disk.old) c
            → KeepsDisk (K.state disk.old) self.new.store (K.state disk.new) c
            (contents_after accepts self.old.view (Gets from to bytes.now) c) result }
        ensures stays_on { OnOk result (StaysOn self.old.store self.new.store (K.state disk.old)
            (K.state disk.new)) }
        ensures writes { Writes (K.state disk.old) (K.state disk.new) result }
    {
        // For the proof: these do nothing.
        a_store_goes_on_fitting::<K>();
        an_idle_store_works::<K>();
        let packet = packet_in(bytes);
        match &packet {
            Some(packet) if to == REQUEST_PORT => Ok(self.on_request(from, packet)?),
            Some(packet) => self.on_transfer(disk, from, to, packet),
            None => Ok(self.pass_over()),
        }
    }

    /// What came is dropped.
    fn pass_over(&self) -> Posts
        ensures { TargetDoes nothing self.now self.now (posts_view result) }
    {
        // For the proof: the invariant is that of the session.
        let _waits = self.live.is_some();
        Posts::none()
    }

    /// The target's timer expires. A live session posts once more what it posted last, and gives up
    /// after five retries.
    pub fn on_tick<K: Disk>(&mut self, _disk: &mut K) -> Result<Posts, Down>
        requires { IsRunning (K.state _disk.old) }
        ensures takes { (accepts : Accepts) → IfOk result (λ posts.
            TargetTakesEvent accepts Ticks self.old self.new (posts_view posts)) }
        ensures keeps_disk { (accepts : Accepts) (c : TargetContents)
            → AreKept c self.old.view → HoldsContents self.old.store (K.state _disk.old) c
            → KeepsDisk (K.state _disk.old) self.new.store (K.state _disk.new) c
            (contents_after accepts self.old.view Ticks c) result }
        ensures untouched { _disk.new ≡ _disk.old }
        ensures cause { HasDiskCause downs.DiskFailed (K.state _disk.old) (K.state _disk.new)
            result }
        ensures store { OnOk result (Continues self.old.store self.new.store) }
    {
        // For the proof: does nothing.
        an_idle_store_works::<K>();
        Ok(self.tick()?)
    }

    fn tick(&mut self) -> Result<Posts, NoMemory>
        ensures does { IfOk result (λ posts. TargetDoes
            (tick_decision self.old.view.end self.old.view.live)
            self.old self.new (posts_view posts)) }
        ensures store { OnOk result (Continues self.old.store self.new.store) }
        ensures work { OnOk result (KeepsWork self.old self.new) }
    {
        if self.live.is_none() {
            return Ok(Posts::none());
        }
        if !self.end.may_repeat() {
            self.end_session(Some(Reason::GaveUp));
            return Ok(Posts::none());
        }
        let post = self.end.repeat()?;
        Ok(Posts::of(post, None))
    }

    /// From now on requests ask for this block size, or for none.
    pub fn ask_blocks(&mut self, size: Option<u16>)
        ensures takes { (accepts : Accepts)
            → TargetTakesEvent accepts (Learns size) self.old self.new [] }
        ensures store { self.new.store ≡ self.old.store }
    {
        self.end.ask_size(size);
    }

    /// Whether a session is live.
    pub fn waits(&self) -> bool
        ensures { result ≡ is_some self.now.view.live }
    {
        self.live.is_some()
    }

    /// All lists of its session hold at most 65,536 bytes of the contents of files together: those
    /// of a request or a header that arrives, or the user data of the header whose files do.
    // For the proof: does nothing.
    pub fn keeps_little(&self)
        ensures held { self.now.held ≤ buffer_size }
        ensures arriving { contents_arriving self.now.view.live ≤ self.now.held }
    {
        if let Some(session) = &self.live {
            // For the proof: does nothing.
            session.keeps_little();
        }
    }

    /// The port that is drawn next, or 65,536.
    pub fn next_port(&self) -> u32
        ensures { result ≡ self.now.view.end.next_port }
    {
        self.end.next_port()
    }

    /// The sequence number of the active configuration.
    pub fn sequence(&self) -> u32
        ensures { result ≡ self.now.view.active.sequence }
    {
        self.installed.store.sequence()
    }

    /// The target's identity, as its disk has it.
    pub fn identity(&self) -> &Identity
        ensures { result.now ≡ self.now.view.active.identity }
    {
        &self.installed.identity
    }

    /// The reason that came last since the target came up, if one came.
    pub fn last_reason(&self) -> Option<&Reason>
        ensures { option_map (λ reason. reason.now) result ≡ self.now.view.reason }
    {
        self.reason.as_ref()
    }

    // ---- sessions

    /// The live session, if there is one, is over, perhaps for a reason. An installation that was
    /// begun is given up.
    fn end_session(&mut self, reason: Option<Reason>)
        ensures does { TargetDoes (ending reason) self.old self.new [] }
        ensures store { Continues self.old.store self.new.store }
        ensures rests { IsAtRest self.new.view.live }
    {
        self.close();
        self.reason = later(self.reason, reason);
    }

    /// The live session, if there is one, is over, so that another can begin.
    fn close(&mut self)
        ensures closes { TargetKeeps self.old self.new (with_live (end_with self.old.view
            (view_after sides.Target self.old.view.end Stops)) None) }
        ensures store { Continues self.old.store self.new.store }
        ensures rests { IsAtRest self.new.view.live }
        ensures idle { IsIdle self.new.store }
    {
        self.end.stop();
        drop(self.live.take());
        self.installed.abandon();
    }

    // ---- requests

    /// A packet comes to port 59.
    fn on_request(&mut self, from: u16, packet: &Packet<'_>) -> Result<Posts, NoMemory>
        requires { IsInRange (packet_view packet.now) }
        ensures does { IfOk result (λ posts. TargetDoes (request_decision self.old.view from
            (packet_view packet.now)) self.old self.new (posts_view posts)) }
        ensures store { OnOk result (Continues self.old.store self.new.store) }
        ensures work { OnOk result (KeepsWork self.old self.new) }
    {
        match packet {
            Packet::Rrq { name, options } => self.serve_file(from, name, *options),
            Packet::Wrq { name, options } => self.receive_file(from, name, *options),
            _ => Ok(self.pass_over()),
        }
    }

    /// A request to read a file. One of the target's own begins a session, also where one is live;
    /// any other is refused, unless the target is busy.
    fn serve_file(&mut self, from: u16, name: &Name, options: Options) -> Result<Posts, NoMemory>
        requires { AreInRange options }
        ensures does { IfOk result (λ posts. TargetDoes (read_decision self.old.view from name.now
            options) self.old self.new (posts_view posts)) }
        ensures store { OnOk result (Continues self.old.store self.new.store) }
        ensures work { OnOk result (KeepsWork self.old self.new) }
    {
        match self.given(name) {
            Some(kind) => self.begin(from, kind, options),
            None => self.refuse(from),
        }
    }

    /// The operation that a request to read the file of this name begins, if it begins one.
    fn given(&self, name: &Name) -> Option<SessionKind>
        ensures { result ≡ given_kind self.now.view name.now }
    {
        if self.is_own(name, FileKind::Lci) {
            return Some(SessionKind::Info);
        }
        if self.is_own(name, FileKind::Lui) {
            return Some(SessionKind::Upload);
        }
        None
    }

    /// Whether this is the name of the target's own file of this kind.
    fn is_own(&self, name: &Name, kind: FileKind) -> bool
        ensures { result ≡ bytes_eq name.now (own_name self.now.view kind) }
    {
        let identity = &self.installed.identity;
        let own = file_name(&identity.hw, &identity.pos, kind);
        name.as_slice() == own.as_slice()
    }

    /// Refuses a request for a file that isn't there, unless a transfer is live.
    fn refuse(&self, from: u16) -> Result<Posts, NoMemory>
        ensures { IfOk result (λ posts. TargetDoes (refusing self.now.view from)
            self.now self.now (posts_view posts)) }
    {
        if self.end.is_busy() {
            return Ok(Posts::none());
        }
        let refusal = self.end.refuse(Side::Target, from)?;
        Ok(Posts::of(Some(refusal), None))
    }

    /// A session of this operation begins with a request to read, if that is taken. A live session
    /// is replaced, and its installation is given up.
    fn begin(&mut self, from: u16, kind: SessionKind, options: Options) -> Result<Posts, NoMemory>
        requires { AreInRange options }
        ensures does { (name : List ℕ)
            → IfOk result (λ posts. TargetDoes (own_decision self.old.view from
            (kind_given kind) name options) self.old self.new (posts_view posts)) }
        ensures store { OnOk result (Continues self.old.store self.new.store) }
        ensures work { OnOk result (KeepsWork self.old self.new) }
    {
        if !self.may_serve(from) {
            return Ok(Posts::none());
        }
        self.close();
        let mut buffer = FileBuffer::new(self.alloc);
        let row = self.installed.first_row(kind, &mut buffer)?;
        match serve_first(self.alloc, &mut self.end, from, options, &row) {
            Ok(post) => {
                self.reason = later(self.reason, row.reason());
                drop(self.live.replace(LiveSession::in_row(row, buffer)));
                Ok(Posts::of(Some(post), None))
            }
            Err(fault) => {
                // For the proof: dropped by a call, not by scope.
                drop(row);
                Err(fault)
            }
        }
    }

    /// Whether a request from this port is taken now. Only one from a fresh port is, and where no
    /// port is left for its transfer a live session ends.
    fn may_serve(&mut self, from: u16) -> bool
        ensures serves { TargetServes result from self.old self.new }
        ensures store { Continues self.old.store self.new.store }
        ensures work { KeepsWork self.old self.new }
    {
        if !self.end.is_fresh(from) {
            return false;
        }
        if !self.end.has_port() {
            if self.live.is_some() {
                self.end_session(Some(Reason::PortsSpent));
            }
            return false;
        }
        true
    }

    /// A request to write a file: an LUR, where the row awaits it.
    fn receive_file(&mut self, from: u16, name: &Name, options: Options) -> Result<Posts, NoMemory>
        requires { AreInRange options }
        ensures does { IfOk result (λ posts. TargetDoes (writing_decision self.old.view from
            name.now
            options) self.old self.new (posts_view posts)) }
        ensures store { OnOk result (Continues self.old.store self.new.store) }
        ensures work { OnOk result (KeepsWork self.old self.new) }
    {
        if self.end.is_busy() || !self.awaits(name) {
            return Ok(Posts::none());
        }
        if !self.may_serve(from) {
            return Ok(Posts::none());
        }
        let post = self.end.serve_write(Side::Target, from, options)?;
        Ok(Posts::of(Some(post), None))
    }

    /// Whether the live session awaits a request to write the file of this name.
    fn awaits(&self, name: &Name) -> bool
        ensures { result ≡ awaits_file self.now.view self.now.view.live name.now }
    {
        match &self.live {
            Some(
                LiveSession {
                    row: Row::AwaitsLur,
                    ..
                },
            ) => self.is_own(name, FileKind::Lur),
            _ => false,
        }
    }

    // ---- transfers

    /// A packet comes to a transfer, between these ports, of which the second isn't 59.
    fn on_transfer<K: Disk>(
        &mut self,
        disk: &mut K,
        from: u16,
        to: u16,
        packet: &Packet<'_>,
    ) -> Result<Posts, Down>
        requires in_range { IsInRange (packet_view packet.now) }
        requires running { IsRunning (K.state disk.old) }
        ensures does { (accepts : Accepts) → FollowsAccepts R.may_say self.old.rule accepts
            → IfOk result (λ posts. TargetDoes (transfer_decision accepts self.old.view
            self.old.view.live from to (packet_view packet.now))
            self.old self.new (posts_view posts)) }
        ensures brings { (accepts : Accepts) → FollowsAccepts R.may_say self.old.rule accepts
            → (c : TargetContents) → AreKept c self.old.view
            → HoldsContents self.old.store (K.state disk.old) c
            → BringsContents (K.state disk.old) self.new.store (K.state disk.new) c
            (contents_changed c (transfer_decision accepts self.old.view self.old.view.live from to
            (packet_view packet.now)).change) result }
        ensures stays_on { OnOk result (StaysOn self.old.store self.new.store (K.state disk.old)
            (K.state disk.new)) }
        ensures writes { Writes (K.state disk.old) (K.state disk.new) result }
    {
        let Heard { post, news } = self.end.on_packet(Side::Target, from, to, packet)?;
        let next = self.follow(disk, &news)?;
        Ok(Posts::of(post, next))
    }

    /// What follows from the news of the live transfer.
    fn follow<K: Disk>(&mut self, disk: &mut K, news: &News<'_>) -> Result<Option<Datagram>, Down>
        requires running { IsRunning (K.state disk.old) }
        ensures session { (accepts : Accepts) → FollowsAccepts R.may_say self.old.rule accepts
            → ForSome self.old.view.live (λ s. IfOk result (λ post. TargetDoes
            (following accepts self.old.view s (news_view news.now))
            self.old self.new (posted post))) }
        ensures idle { self.old.view.live ≡ None → IfOk result (λ post.
            (posted post ≡ []) × (self.new ≡ self.old)) }
        ensures brings { (accepts : Accepts) → FollowsAccepts R.may_say self.old.rule accepts
            → (c : TargetContents) → AreKept c self.old.view
            → HoldsContents self.old.store (K.state disk.old) c
            → BringsContents (K.state disk.old) self.new.store (K.state disk.new) c
            (contents_changed c (change_heard accepts self.old.view self.old.view.live
            (news_view news.now))) result }
        ensures stays_on { OnOk result (StaysOn self.old.store self.new.store (K.state disk.old)
            (K.state disk.new)) }
        ensures writes { Writes (K.state disk.old) (K.state disk.new) result }
    {
        contents_follow_their_log();
        match news {
            News::Nothing => Ok(self.nothing_follows()),
            News::Block(payload) => {
                self.add_payload(disk, payload)?;
                Ok(None)
            }
            News::Last(payload) => {
                self.add_payload(disk, payload)?;
                self.turn(disk, None)
            }
            News::Done => self.turn(disk, None),
            News::PeerError(code) => self.turn(disk, Some(*code)),
        }
    }

    /// Nothing follows.
    fn nothing_follows(&self) -> Option<Datagram>
        ensures does { TargetDoes nothing self.now self.now (posted result) }
        ensures none { posted result ≡ [] }
    {
        // For the proof: the invariant is that of the session.
        let _waits = self.live.is_some();
        None
    }

    /// More of a file arrives. Of a data or support file it goes straight to the other bank.
    fn add_payload<K: Disk>(&mut self, disk: &mut K, payload: &[u8]) -> Result<(), Down>
        requires running { IsRunning (K.state disk.old) }
        ensures takes { OnOk result (TargetKeeps self.old self.new
            (with_live self.old.view (continued self.old.view.live payload.now))) }
        ensures idle { self.old.view.live ≡ None → OnOk result (self.new ≡ self.old) }
        ensures calm { OnOk result (IsCalm self.new.view.live) }
        ensures brings { (c : TargetContents) → AreKept c self.old.view
            → HoldsContents self.old.store (K.state disk.old) c
            → BringsContents (K.state disk.old) self.new.store (K.state disk.new) c
            (contents_changed c (Goes_on payload.now)) result }
        ensures stays_on { OnOk result (StaysOn self.old.store self.new.store (K.state disk.old)
            (K.state disk.new)) }
        ensures writes { Writes (K.state disk.old) (K.state disk.new) result }
    {
        let Some(mut session) = self.live.take() else {
            return Ok(());
        };
        match session.add_payload(&mut self.installed.store, disk, payload) {
            Ok(()) => {
                drop(self.live.replace(session));
                Ok(())
            }
            Err(down) => {
                // For the proof: dropped by a call, not by scope.
                drop(session);
                self.installed.abandon();
                Err(down)
            }
        }
    }

    /// A transfer of the live session is over, perhaps by an ERROR.
    fn turn<K: Disk>(&mut self, disk: &mut K, error: Option<u16>) -> Result<Option<Datagram>, Down>
        requires running { IsRunning (K.state disk.old) }
        ensures session { (accepts : Accepts) → FollowsAccepts R.may_say self.old.rule accepts
            → ForSome self.old.view.live (λ s. IfOk result (λ post. TargetDoes
            (turn_decision accepts self.old.view s [] [] error)
            self.old self.new (posted post))) }
        ensures idle { self.old.view.live ≡ None → IfOk result (λ post.
            (posted post ≡ []) × (self.new ≡ self.old)) }
        ensures brings { (accepts : Accepts) → FollowsAccepts R.may_say self.old.rule accepts
            → (c : TargetContents) → AreKept c self.old.view
            → HoldsContents self.old.store (K.state disk.old) c
            → BringsContents (K.state disk.old) self.new.store (K.state disk.new) c
            (contents_changed c (change_turned accepts self.old.view self.old.view.live error))
            result }
        ensures stays_on { OnOk result (StaysOn self.old.store self.new.store (K.state disk.old)
            (K.state disk.new)) }
        ensures writes { Writes (K.state disk.old) (K.state disk.new) result }
    {
        if self.live.is_none() {
            return Ok(None);
        }
        a_store_goes_on_fitting::<K>();
        contents_follow_their_log();
        self.turn_row(disk, error)?;
        Ok(self.ask()?)
    }

    /// The live session turns to its next row, for which nothing is asked yet, or is over.
    fn turn_row<K: Disk>(&mut self, disk: &mut K, error: Option<u16>) -> Result<(), Down>
        requires running { IsRunning (K.state disk.old) }
        ensures session { (accepts : Accepts) → FollowsAccepts R.may_say self.old.rule accepts
            → ForSome self.old.view.live (λ s. OnOk result (TargetKeeps self.old self.new
            (in_next_row self.old.view (row_then accepts self.old.view.active s error)))) }
        ensures brings { (accepts : Accepts) → FollowsAccepts R.may_say self.old.rule accepts
            → (s : StandingView) (x : SessionContents)
            → self.old.view.live ≡ Some (session_kept x)
            → InstallsRow self.old.store (K.state disk.old) s x.row x.arrived
            → BringsRow (K.state disk.old) self.new.store (K.state disk.new) s
            (whole_row_then accepts self.old.view.active x error) result }
        ensures stays_on { OnOk result (StaysOn self.old.store self.new.store (K.state disk.old)
            (K.state disk.new)) }
        ensures writes { Writes (K.state disk.old) (K.state disk.new) result }
    {
        let Some(session) = self.live.take() else {
            return Ok(());
        };
        let LiveSession { row, mut arriving } = session;
        let next = self.installed.turn(self.alloc, self.interlock, disk, row, &mut arriving, error);
        match next {
            Ok(Some(row)) => {
                self.reason = later(self.reason, row.reason());
                drop(self.live.replace(LiveSession::in_row(row, arriving)));
                Ok(())
            }
            Ok(None) => Ok(()),
            Err(down) => Err(down),
        }
    }

    /// The row of the live session asks for its request, if it has one and a port is left; without
    /// a port the session ends. Where a session is over its transfer ends.
    fn ask(&mut self) -> Result<Option<Datagram>, NoMemory>
        ensures enters { IfOk result (λ post. Enters self.old self.new (posted post)) }
        ensures store { OnOk result (Continues self.old.store self.new.store) }
        ensures work { OnOk result (KeepsWork self.old self.new) }
    {
        let Some(session) = &self.live else {
            self.end.stop();
            return Ok(None);
        };
        if !session.row.is_asking() {
            return Ok(None);
        }
        if !self.end.has_port() {
            self.end_session(Some(Reason::PortsSpent));
            return Ok(None);
        }
        self.ask_now()
    }

    /// The row of the live session asks for its request, for which a port is left.
    fn ask_now(&mut self) -> Result<Option<Datagram>, NoMemory>
        requires { has_port self.old.view.end ≡ true }
        ensures makes { ForSome self.old.view.live (λ s. IfOk result (λ post. Makes sides.Target
            (asked_by (row_request self.old.view s.row)) self.old.view.end self.new.view.end
            (posted post))) }
        ensures rest { OnOk result (TargetKeeps self.old self.new
            (end_with self.old.view self.new.view.end)) }
        ensures store { OnOk result (self.new.store ≡ self.old.store) }
    {
        let installed = &self.installed;
        match &self.live {
            Some(session) => request(
                self.alloc,
                &mut self.end,
                &installed.identity,
                installed.manifest.loads.as_slice(),
                &session.row,
            ),
            None => Ok(None),
        }
    }
}

/// The last of two reasons.
fn later(before: Option<Reason>, after: Option<Reason>) -> Option<Reason>
    ensures { result ≡ later_reason before after }
{
    match after {
        Some(reason) => Some(reason),
        None => before,
    }
}
