//! An upload at its target.
ghost use Rattle.std.specs.Prelude.{◌≡◌, ◌+◌, ◌<◌, ◌≤◌, ◌++◌, [], ℕ, List as Items};
ghost use Rattle.std.specs.Prelude.{length, IfOk, OnOk};
ghost use Rattle.accept_rules.specs.Permissions.{Accepts};
ghost use Rattle.bank_store.specs.DiskWrites.{IsRunning};
ghost use Rattle.bank_store.specs.Store.{IsPrepared, IsSpent, bank_size_of};
ghost use Rattle.accept_rules.specs.Interlocks.{FollowsAccepts};
ghost use Rattle.disk_layout.specs.Holds.{Outline, StandingView};
ghost use Rattle.session_rules.specs.Uploads.{Upload, next_name};
ghost use Rattle.bank_store.specs.Fits.{InstallsBeside};
ghost use Rattle.bank_store.specs.Keeps.{Continues};
ghost use Rattle.session_rules.specs.Buffers.{buffer_size};
ghost use Rattle.session_rules.specs.TargetRows.{Reads_file, Writes_stop, done_move, error_move};
ghost use Rattle.session_rules.specs.TargetRows.{new_upload, new_upload_view, row_moved};
ghost use Rattle.session_rules.specs.TargetRows.{view_moved};
ghost use Rattle.load_intake.specs.Contents.{BringsRow, BringsTo, InstallsRow, IsOf};
ghost use Rattle.load_intake.specs.Held.{contents_kept};
ghost use Rattle.load_intake.specs.Intakes.{IsFresh, end_view, row_seen, with_more};
ghost use Rattle.load_intake.specs.Keeping.{IsActive, entries};
ghost use Rattle.load_intake.specs.Kept.{IsIntake, WaitsEmpty, intake_at};
ghost use Rattle.load_intake.specs.Places.{arriving_at, open_load};
ghost use Rattle.load_intake.specs.Stores.{EndsFile, IsInStep, KeepsStore, StaysInStep};
ghost use Rattle.bank_store.specs.Known.{KnowsActive};

use crate::down::Down;
use crate::ended::UploadEnd;
use crate::finished::Finished;
use crate::place::Place;
use crate::whole::Whole;
use crate::{arriving, storing};
use accept_rules::{Interlock, Rule};
use bank_store::{Identity, ManifestLoad, Store};
use disk_model::Disk;
use load_base::{List, Name};
use load_protocol_files::Wanted;
use session_files::FileBuffer;
use session_rules::Reason;
use std::alloc::Global;
use std::marker::Model;

/// An upload at its target: what was asked for, the loads that are whole, the one that isn't, and
/// what is kept of the file that arrives.
///
/// It holds neither store nor disk: each call that writes is lent both, and the store is the one
/// with which the upload began. After a call that answered [`Down`] it isn't used again.
#[derive(Drop)]
pub struct Intake {
    whole: Whole,
    place: Place,
}

impl Model for Intake {
    ghost use Rattle.load_intake.specs.Kept.{IsIntake, intake_of};
    ghost use Rattle.load_intake.specs.States.{IntakeState};

    ghost Value = { IntakeState };

    ghost view = { λ i. intake_of i.whole i.place };

    ghost invariant = { λ i. IsIntake (intake_of i.whole i.place) i.whole.need };
}

impl Intake {
    /// An upload of these loads, 1 to 32, begins: the other slot is shut, and the header of the
    /// first load is next. Each header comes into this buffer, which is emptied before.
    pub fn begin<K: Disk>(
        alloc: Global,
        request: List<Wanted>,
        mut buffer: FileBuffer,
        store: &mut Store,
        disk: &mut K,
    ) -> Result<Intake, Down>
        requires count { (1 ≤ length request.items) × (length request.items ≤ 32) }
        requires prepared { IsPrepared store.old }
        requires sequence { ¬ IsSpent store.old }
        requires running { IsRunning (K.state disk.old) }
        ensures begins { IfOk result (λ intake.
            (intake.upload ≡ new_upload_view request.items) × IsFresh intake) }
        ensures in_step { IfOk result (λ intake. StaysInStep intake store.old store.new
            (K.state disk.old) (K.state disk.new)) }
        // Where the store works beside a configuration, nothing that is left breaks it.
        ensures brings { (s : StandingView) → InstallsBeside store.old (K.state disk.old) s
            → BringsTo (K.state disk.old) store.new (K.state disk.new) s s
            (Reads_file (new_upload request.items)) [] result }
        // Whatever it answers.
        ensures keeps { KeepsStore store.old store.new (K.state disk.old) (K.state disk.new)
            result }
    {
        storing::begin(store, disk)?;
        buffer.clear();
        Ok(Intake {
            whole: Whole {
                alloc,
                request,
                loads: List::new(alloc),
                // The manifest of no loads: the mark of its layout, and their number.
                need: 4,
            },
            place: Place::Header(buffer),
        })
    }

    pub(crate) fn at(whole: Whole, place: Place) -> Intake
        requires intake { IsIntake (intake_at whole (open_load place) (arriving_at place))
            whole.need }
        requires waits { WaitsEmpty place }
        ensures { result ≡ intake_at whole (open_load place) (arriving_at place) }
    {
        Intake { whole, place }
    }

    /// The name of the file that comes next.
    pub fn next_name(&self) -> Name
        ensures { result ≡ next_name self.now.upload }
    {
        match &self.place {
            Place::Header(_) => self.whole.next_wanted().header,
            Place::File(load, _, _) => load.next_entry().name,
        }
    }

    /// The loads that were asked for.
    pub fn request(&self) -> &List<Wanted>
        ensures is { result.now.items ≡ self.now.upload.request }
        ensures few { length result.now.items ≤ 32 }
    {
        &self.whole.request
    }

    /// How many loads are whole.
    pub fn arrived(&self) -> u16
        ensures is { result ≡ length self.now.upload.loads }
        ensures within { result < length self.now.upload.request }
        ensures reports { self.now.upload.reports ≡ result + 1 }
    {
        self.whole.arrived()
    }

    /// Takes the next bytes of the file: those of a data or support file are written at once, but
    /// none past the length that its header says.
    pub fn take_bytes<K: Disk>(
        &mut self,
        store: &mut Store,
        disk: &mut K,
        bytes: &[u8],
    ) -> Result<(), Down>
        requires in_step { IsInStep self.old store.old }
        requires running { IsRunning (K.state disk.old) }
        // With Ok.
        ensures takes { OnOk result (self.new ≡ with_more self.old bytes.now) }
        ensures in_step { OnOk result (StaysInStep self.new store.old store.new
            (K.state disk.old) (K.state disk.new)) }
        // Where the disk has what arrived before, it has with Ok what arrives with these.
        ensures brings { (s : StandingView) (u : Upload) (arrived : Items ℕ)
            → IsOf self.old u arrived
            → InstallsRow store.old (K.state disk.old) s (Reads_file u) arrived
            → BringsTo (K.state disk.old) store.new (K.state disk.new) s s (Reads_file u)
            (arrived ++ bytes.now) result }
        // Whatever it answers.
        ensures keeps { KeepsStore store.old store.new (K.state disk.old) (K.state disk.new)
            result }
    {
        self.place.add_bytes(store, disk, bytes)
    }

    /// The file is whole: it is tested, and kept if no test fails. Of a header A2, A3, A4, A5, of
    /// the last header A14, and A9 are tested, of another file A6 and A7, and after the last file
    /// of a load A8, in this order. With the last of all the loads are installed, and after them
    /// those of the active configuration, `active`, that have a type id which none of the new ones
    /// has.
    pub fn finish<K: Disk, R: Rule>(
        self,
        interlock: &Interlock<R>,
        identity: &Identity,
        active: &[ManifestLoad],
        store: &mut Store,
        disk: &mut K,
    ) -> Result<Finished, Down>
        requires in_step { IsInStep self store.old }
        requires active { KnowsActive store.old (entries active.now) }
        requires bank { identity.now.bank ≡ bank_size_of store.old }
        requires running { IsRunning (K.state disk.old) }
        // With Ok.
        ensures row { (accepts : Accepts) → FollowsAccepts R.may_say interlock.now accepts
            → (o : Outline) → IsActive o identity.now (entries active.now)
            → IfOk result (λ finished. row_seen finished ≡ view_moved (Reads_file self.upload)
            self.arriving (done_move accepts o (Reads_file self.upload) self.arriving)) }
        ensures ends { IfOk result (λ finished. EndsFile (length active.now) finished store.old
            store.new (K.state disk.old) (K.state disk.new)) }
        // Where the disk has what arrived, it has with Ok what comes of it: the files so far, or
        // the new configuration alone. Until then the old one is left, or in the last call either.
        ensures brings { (accepts : Accepts) → FollowsAccepts R.may_say interlock.now accepts
            → (o : Outline) → IsActive o identity.now (entries active.now)
            → (s : StandingView) (u : Upload) (arrived : Items ℕ) → IsOf self u arrived
            → InstallsRow store.old (K.state disk.old) s (Reads_file u) arrived
            → BringsRow (K.state disk.old) store.new (K.state disk.new) s
            (row_moved (Reads_file u) arrived (done_move accepts o
            (Reads_file self.upload) self.arriving)) result }
        // Whatever it answers.
        ensures keeps { KeepsStore store.old store.new (K.state disk.old) (K.state disk.new)
            result }
    {
        let Intake { whole, place } = self;
        match place {
            Place::Header(buffer) => arriving::header_arrived(
                whole, buffer, interlock, identity, active, store, disk,
            ),
            Place::File(load, sums, buffer) => arriving::file_arrived(
                whole, load, sums, buffer, active, store, disk,
            ),
        }
    }

    /// An ERROR with this code ended the transfer of the file: the installation is given up (A1).
    pub fn not_served(self, store: &mut Store, code: u16) -> UploadEnd
        requires { IsInStep self store.old }
        ensures end { Writes_stop (end_view result) ≡ view_moved (Reads_file self.upload)
            self.arriving (error_move (Reads_file self.upload) code) }
        ensures prepared { IsPrepared store.new }
        ensures continues { Continues store.old store.new }
    {
        let Intake { whole, place } = self;
        // For the proof: dropped by a call, not by scope.
        drop(place);
        let arrived = whole.arrived();
        whole.stop(store, arrived, Reason::FileNotServed { code })
    }

    /// All its lists hold at most 65,536 bytes of the contents of files together: those of the
    /// header that arrives, or the user data of the one that was read.
    // For the proof: does nothing.
    pub fn keeps_little(&self)
        ensures held { self.now.held ≤ buffer_size }
        ensures arriving { contents_kept self.now.arriving ≤ self.now.held }
    {
        match &self.place {
            Place::Header(buffer) => buffer.keeps_little(),
            Place::File(_, _, _) => {}
        }
    }

    /// No bytes more change nothing.
    // For the proof: does nothing.
    pub fn no_more(&self)
        ensures { with_more self.now [] ≡ self.now }
    {
        match &self.place {
            Place::Header(_) => {}
            Place::File(_, sums, _) => sums.no_more(),
        }
    }
}
