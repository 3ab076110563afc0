//! What is installed at a target, and how it changes.
ghost use Rattle.std.specs.Option.{ForSome};
ghost use Rattle.std.specs.Prelude.{◌≡◌, ℕ, List, None, Some, IfOk, OnErr, OnOk};
ghost use Rattle.accept_rules.specs.Interlocks.{FollowsAccepts};
ghost use Rattle.accept_rules.specs.Permissions.{Accepts};
ghost use Rattle.bank_store.specs.DiskWrites.{IsRunning};
ghost use Rattle.bank_store.specs.Fits.{InstallsBeside};
ghost use Rattle.bank_store.specs.Keeps.{Continues};
ghost use Rattle.bank_store.specs.Store.{IsIdle, IsPrepared};
ghost use Rattle.disk_layout.specs.Holds.{StandingView};
ghost use Rattle.disk_layout.specs.Manifest.{LoadEntry};
ghost use Rattle.session_rules.specs.Buffers.{Buffer};
ghost use Rattle.session_rules.specs.TargetRows.{Awaits_lur, Kept_bytes, Reads_file, done_move};
ghost use Rattle.session_rules.specs.TargetRows.{first_row as first_of};
ghost use Rattle.session_rules.specs.TargetRows.{row_moved, view_moved};
ghost use Rattle.session_rules.specs.Contents.{SessionContents, session_kept};
ghost use Rattle.session_rules.specs.Uploads.{Upload};
ghost use Rattle.recovery.specs.Surveys.{IsSurveyInRange, outline_of_survey};
ghost use Rattle.load_intake.specs.Contents.{BringsRow, InstallsRow, IsOf};
ghost use Rattle.load_intake.specs.Stores.{Writes};
ghost use Rattle.target_machine.specs.Decisions.{broken_to, kind_given, row_then};
ghost use Rattle.target_machine.specs.Disks.{TurnsDisk, whole_row_then};
ghost use Rattle.target_machine.specs.Machine.{arriving_in, row_seen, seen_at};
ghost use Rattle.target_machine.specs.Stages.{CanBegin, IsNextStage, IsReading, IsRowStage};
ghost use Rattle.target_machine.specs.Stages.{StartsFresh, StaysOn, TurnsTo};

use crate::row::Row;
use accept_rules::{Interlock, Rule};
use bank_store::{Store, a_store_goes_on_fitting};
use disk_layout::{Identity, Manifest};
use disk_model::Disk;
use load_base::NoMemory;
use load_intake::{Down, Finished, Intake, Request, UploadEnd, read_request};
use recovery::Surveyed;
use session_files::FileBuffer;
use session_rules::SessionKind;
use std::alloc::Global;
use std::marker::Model;
use std::mem;

/// The active configuration, without its contents, and the store that installs beside it.
#[derive(Drop)]
pub(crate) struct Installed {
    pub(crate) identity: Identity,
    pub(crate) manifest: Manifest,
    pub(crate) store: Store,
}

impl Model for Installed {
    ghost use Rattle.target_machine.specs.Stages.{InstalledState, IsInstalled, outline_kept};

    ghost Value = { InstalledState };

    ghost view = { λ i. record {
      active = outline_kept i.identity i.manifest i.store;
      store = i.store;
    } };

    ghost invariant = { λ i. IsInstalled i.identity i.manifest i.store };
}

impl Installed {
    /// What a survey of the disk found.
    pub(crate) fn of(surveyed: Surveyed) -> Installed
        requires { IsSurveyInRange surveyed }
        ensures { result ≡ record { active = outline_of_survey surveyed; store = surveyed.store } }
    {
        Installed {
            identity: surveyed.identity,
            manifest: surveyed.manifest,
            store: surveyed.store,
        }
    }

    /// The first row of an operation. Before an upload is accepted the memory that it takes is
    /// reserved, in this buffer too; it is denied where no sequence number is left.
    pub(crate) fn first_row(
        &mut self,
        kind: SessionKind,
        buffer: &mut FileBuffer,
    ) -> Result<Row, NoMemory>
        requires { IsIdle self.old.store }
        ensures row { (loads : List LoadEntry) → IfOk result (λ row. row_seen loads row
            ≡ first_of (kind_given kind) self.old.active.sequence) }
        ensures stage { IfOk result (λ row. IsRowStage row self.new.store) }
        ensures fresh { IfOk result (λ row. StartsFresh (Some row)) }
        ensures buffer { buffer.new ≡ buffer.old }
        ensures idle { IsIdle self.new.store }
        ensures active { self.new.active ≡ self.old.active }
        ensures store { Continues self.old.store self.new.store }
    {
        match kind {
            SessionKind::Info => Ok(Row::GivesLci),
            SessionKind::Upload if self.store.sequence() == u32::MAX => Ok(Row::GivesDenial),
            SessionKind::Upload => {
                buffer.reserve()?;
                self.prepare()?;
                Ok(Row::GivesLui)
            }
        }
    }

    /// Reserves the memory that an installation takes.
    fn prepare(&mut self) -> Result<(), NoMemory>
        requires { IsIdle self.old.store }
        ensures prepared { OnOk result (IsPrepared self.new.store) }
        ensures idle { IsIdle self.new.store }
        ensures active { self.new.active ≡ self.old.active }
        ensures store { Continues self.old.store self.new.store }
    {
        match self.store.prepare() {
            Ok(()) => Ok(()),
            Err(_) => Err(NoMemory),
        }
    }

    /// An installation that is begun is given up.
    pub(crate) fn abandon(&mut self)
        ensures active { self.new.active ≡ self.old.active }
        ensures idle { IsIdle self.new.store }
        ensures store { Continues self.old.store self.new.store }
    {
        self.store.abandon();
    }

    /// The row after a transfer of this row, which is over, perhaps by an ERROR; none where the
    /// session is over. Then, and after a failure, no installation is begun.
    pub(crate) fn turn<K: Disk, R: Rule>(
        &mut self,
        alloc: Global,
        interlock: &Interlock<R>,
        disk: &mut K,
        row: Row,
        arriving: &mut FileBuffer,
        error: Option<u16>,
    ) -> Result<Option<Row>, Down>
        requires stage { IsRowStage row self.old.store }
        requires running { IsRunning (K.state disk.old) }
        ensures row { (accepts : Accepts) → FollowsAccepts R.may_say interlock.now accepts
            → IfOk result (λ next. TurnsTo next (row_then accepts self.old.active
            (seen_at self.old.active.loads row arriving.old) error)
            self.old self.new) }
        ensures stage { IfOk result (λ next. IsNextStage next self.new.store) }
        ensures failed { OnErr result (IsIdle self.new.store) }
        ensures goes_on { OnOk result (StaysOn self.old.store self.new.store (K.state disk.old)
            (K.state disk.new)) }
        ensures brings { (accepts : Accepts) → FollowsAccepts R.may_say interlock.now accepts
            → (s : StandingView) (x : SessionContents)
            → seen_at self.old.active.loads row arriving.old ≡ session_kept x
            → InstallsRow self.old.store (K.state disk.old) s x.row x.arrived
            → BringsRow (K.state disk.old) self.new.store (K.state disk.new) s
            (whole_row_then accepts self.old.active x error) result }
        ensures writes { Writes (K.state disk.old) (K.state disk.new) result }
    {
        a_store_goes_on_fitting::<K>();
        let result = self.next_row(alloc, interlock, disk, row, arriving, error);
        if !matches!(result, Ok(Some(_))) {
            self.store.abandon();
        }
        result
    }
}

impl Installed {
    /// The same, but for an installation that isn't given up yet.
    fn next_row<K: Disk, R: Rule>(
        &mut self,
        alloc: Global,
        interlock: &Interlock<R>,
        disk: &mut K,
        row: Row,
        arriving: &mut FileBuffer,
        error: Option<u16>,
    ) -> Result<Option<Row>, Down>
        requires stage { IsRowStage row self.old.store }
        requires running { IsRunning (K.state disk.old) }
        ensures row { (accepts : Accepts) → FollowsAccepts R.may_say interlock.now accepts
            → IfOk result (λ next. TurnsTo next (row_then accepts self.old.active
            (seen_at self.old.active.loads row arriving.old) error)
            self.old self.new) }
        ensures stage { IfOk result (λ next. ForSome next (λ row. IsRowStage row self.new.store)) }
        ensures goes_on { OnOk result (StaysOn self.old.store self.new.store (K.state disk.old)
            (K.state disk.new)) }
        ensures brings { (accepts : Accepts) → FollowsAccepts R.may_say interlock.now accepts
            → (s : StandingView) (x : SessionContents)
            → seen_at self.old.active.loads row arriving.old ≡ session_kept x
            → InstallsRow self.old.store (K.state disk.old) s x.row x.arrived
            → TurnsDisk (K.state disk.old) self.new.store (K.state disk.new) s
            (whole_row_then accepts self.old.active x error) result }
        ensures writes { Writes (K.state disk.old) (K.state disk.new) result }
    {
        a_store_goes_on_fitting::<K>();
        match error {
            Some(code) => Ok(self.broken(row, code)),
            None => self.done(alloc, interlock, disk, row, arriving),
        }
    }

    /// An ERROR stops an upload that reads a file, and ends every other session.
    fn broken(&mut self, row: Row, code: u16) -> Option<Row>
        requires stage { IsRowStage row self.old.store }
        ensures row { (buffer : Buffer) → TurnsTo result
            (broken_to (row_seen self.old.active.loads row) (arriving_in row buffer) code)
            self.old self.new }
        ensures stage { ForSome result (λ row. IsRowStage row self.new.store) }
        ensures continues { Continues self.old.store self.new.store }
    {
        match row {
            Row::ReadsFile(intake) => {
                let end = intake.not_served(&mut self.store, code);
                Some(Row::WritesStop(end))
            }
            rest => {
                // For the proof: dropped by a call, not by scope.
                drop(rest);
                None
            }
        }
    }

    /// A transfer of the session's row is over.
    fn done<K: Disk, R: Rule>(
        &mut self,
        alloc: Global,
        interlock: &Interlock<R>,
        disk: &mut K,
        row: Row,
        arriving: &mut FileBuffer,
    ) -> Result<Option<Row>, Down>
        requires stage { IsRowStage row self.old.store }
        requires running { IsRunning (K.state disk.old) }
        ensures row { (accepts : Accepts) → FollowsAccepts R.may_say interlock.now accepts
            → IfOk result (λ next. TurnsTo next (row_then accepts self.old.active
            (seen_at self.old.active.loads row arriving.old) None)
            self.old self.new) }
        ensures stage { IfOk result (λ next. ForSome next (λ row. IsRowStage row self.new.store)) }
        ensures goes_on { OnOk result (StaysOn self.old.store self.new.store (K.state disk.old)
            (K.state disk.new)) }
        ensures brings { (accepts : Accepts) → FollowsAccepts R.may_say interlock.now accepts
            → (s : StandingView) (x : SessionContents)
            → seen_at self.old.active.loads row arriving.old ≡ session_kept x
            → InstallsRow self.old.store (K.state disk.old) s x.row x.arrived
            → TurnsDisk (K.state disk.old) self.new.store (K.state disk.new) s
            (whole_row_then accepts self.old.active x None) result }
        ensures writes { Writes (K.state disk.old) (K.state disk.new) result }
    {
        match row {
            Row::ReadsFile(intake) => Ok(Some(self.finish(interlock, disk, intake)?)),
            Row::AwaitsLur => Ok(Some(self.requested(alloc, disk, arriving)?)),
            row => Ok(row.passed()),
        }
    }

    /// A file of a load is whole.
    fn finish<K: Disk, R: Rule>(
        &mut self,
        interlock: &Interlock<R>,
        disk: &mut K,
        intake: Intake,
    ) -> Result<Row, Down>
        requires stage { IsReading intake self.old.store }
        requires running { IsRunning (K.state disk.old) }
        ensures row { (accepts : Accepts) → FollowsAccepts R.may_say interlock.now accepts
            → IfOk result (λ row. TurnsTo (Some row) (view_moved (Reads_file intake.upload)
            intake.arriving (done_move accepts self.old.active (Reads_file intake.upload)
            intake.arriving)) self.old self.new) }
        ensures stage { IfOk result (λ row. IsRowStage row self.new.store) }
        ensures goes_on { OnOk result (StaysOn self.old.store self.new.store (K.state disk.old)
            (K.state disk.new)) }
        ensures brings { (accepts : Accepts) → FollowsAccepts R.may_say interlock.now accepts
            → (s : StandingView) (u : Upload) (arrived : List ℕ) → IsOf intake u arrived
            → InstallsRow self.old.store (K.state disk.old) s (Reads_file u) arrived
            → BringsRow (K.state disk.old) self.new.store (K.state disk.new) s
            (row_moved (Reads_file u) arrived (done_move accepts self.old.active
            (Reads_file intake.upload) intake.arriving)) result }
        ensures writes { Writes (K.state disk.old) (K.state disk.new) result }
    {
        let active = self.manifest.loads.as_slice();
        match intake.finish(interlock, &self.identity, active, &mut self.store, disk)? {
            Finished::MoreFiles(intake) => {
                // For the proof: does nothing.
                intake.no_more();
                Ok(Row::ReadsFile(intake))
            }
            Finished::NextLoad(intake) => {
                // For the proof: does nothing.
                intake.no_more();
                Ok(Row::WritesProgress(intake))
            }
            Finished::Stopped(end) => Ok(Row::WritesStop(end)),
            Finished::Installed(end, new) => {
                let loads = new.with_kept(&mut self.manifest.loads);
                self.manifest = Manifest { loads };
                Ok(Row::WritesCompletion(end))
            }
        }
    }

    /// The request of an upload arrived: the installation begins, unless it is refused, and the
    /// buffer of the request goes to it.
    fn requested<K: Disk>(
        &mut self,
        alloc: Global,
        disk: &mut K,
        file: &mut FileBuffer,
    ) -> Result<Row, Down>
        requires stage { CanBegin self.old.store }
        requires running { IsRunning (K.state disk.old) }
        ensures row { (accepts : Accepts) → IfOk result (λ row. TurnsTo (Some row)
            (view_moved Awaits_lur (Kept_bytes file.old) (done_move accepts
            self.old.active Awaits_lur (Kept_bytes file.old))) self.old self.new) }
        ensures stage { IfOk result (λ row. IsRowStage row self.new.store) }
        ensures goes_on { OnOk result (StaysOn self.old.store self.new.store (K.state disk.old)
            (K.state disk.new)) }
        ensures brings { (accepts : Accepts) (s : StandingView) (arrived : List ℕ)
            → InstallsBeside self.old.store (K.state disk.old) s
            → BringsRow (K.state disk.old) self.new.store (K.state disk.new) s
            (row_moved Awaits_lur arrived (done_move accepts self.old.active Awaits_lur
            (Kept_bytes file.old))) result }
        ensures writes { Writes (K.state disk.old) (K.state disk.new) result }
    {
        match read_request(alloc, file)? {
            Request::Loads(loads) => {
                let buffer = mem::replace(file, FileBuffer::new(alloc));
                let intake = Intake::begin(alloc, loads, buffer, &mut self.store, disk)?;
                // For the proof: does nothing.
                intake.no_more();
                Ok(Row::ReadsFile(intake))
            }
            Request::Refused(fault) => Ok(Row::WritesStop(UploadEnd::refused(alloc, fault))),
        }
    }
}
