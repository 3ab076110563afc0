//! The loads of an upload that are whole.
ghost use Rattle.std.specs.Prelude.{◌≡◌, ◌+◌, ◌*◌, ◌^◌, ◌<◌, ◌≤◌, ℕ, List as Items, length};
ghost use Rattle.std.specs.Prelude.{Option, Some, None, slice_get, IfOk};
ghost use Rattle.accept_rules.specs.Interlocks.{FollowsAccepts};
ghost use Rattle.accept_rules.specs.Permissions.{Accepts};
ghost use Rattle.bank_store.specs.Keeps.{Continues};
ghost use Rattle.bank_store.specs.Store.{IsIdle, IsPrepared};
ghost use Rattle.load_header.specs.Header.{HeaderView, header_view};
ghost use Rattle.load_header.specs.HeaderFields.{IsHeader};
ghost use Rattle.disk_layout.specs.Manifest.{FitsALayout, LoadEntry};
ghost use Rattle.session_rules.specs.KeptLoads.{told_loads};
ghost use Rattle.session_rules.specs.TargetRows.{stopped_upload};
ghost use Rattle.session_rules.specs.Uploads.{OpenLoadView, files_of, is_last as is_last_of};
ghost use Rattle.session_rules.specs.Uploads.{next_with};
ghost use Rattle.load_intake.specs.Intakes.{end_view};
ghost use Rattle.load_intake.specs.Judging.{PassesStoreTests, loads_known, need_known, refused_for};
ghost use Rattle.load_intake.specs.Keeping.{entries, kept_with};
ghost use Rattle.load_intake.specs.Needs.{load_need as load_need_of};
ghost use Rattle.load_intake.specs.Places.{arrived_at, next_seen};
ghost use Rattle.load_intake.specs.States.{needing, upload_of, with_whole};

use crate::ended::UploadEnd;
use crate::judging::{header_reason, load_need};
use crate::keeping::{kept_after, kept_need};
use crate::next::Next;
use crate::open_load::OpenLoad;
use accept_rules::{Interlock, Rule};
use bank_store::{Identity, ManifestLoad, Store};
use load_base::{List, NoMemory};
use load_header::LoadHeader;
use load_protocol_files::Wanted;
use session_rules::Reason;
use std::alloc::Global;
use std::marker::Model;

/// What was asked for, the loads that are whole, and how many bytes of a bank they need with their
/// manifest, and with them the one that isn't whole.
#[derive(Drop)]
pub(crate) struct Whole {
    pub(crate) alloc: Global,
    pub(crate) request: List<Wanted>,
    pub(crate) loads: List<ManifestLoad>,
    pub(crate) need: u32,
}

impl Model for Whole {
    ghost use Rattle.std.specs.Prelude.{map};
    ghost use Rattle.disk_layout.specs.Manifest.{entry_view};
    ghost use Rattle.load_intake.specs.States.{WholeView};

    ghost Value = { WholeView };

    ghost view = { λ w. record {
      request = w.request.items;
      loads = map entry_view w.loads.items;
      need = w.need;
    } };
}

impl Whole {
    /// What was asked for of the load that comes next.
    pub(crate) fn next_wanted(&self) -> &Wanted
        requires { length self.now.loads < length self.now.request }
        ensures { slice_get self.now.request (length self.now.loads) ≡ Some result.now }
    {
        &self.request.as_slice()[self.loads.len()]
    }

    pub(crate) fn alloc(&self) -> Global {
        self.alloc
    }

    /// How many bytes of a bank the loads need with one more, whose header has this many.
    pub(crate) fn need_with(&self, wanted: &Wanted, header: &LoadHeader, size: u32) -> u64
        requires { IsHeader (header_view header.now) }
        ensures is { result
            ≡ self.now.need + load_need_of wanted.now (header_view header.now) size }
        ensures small { result ≤ 2 ^ 43 }
    {
        u64::from(self.need) + load_need(wanted, header, size)
    }

    /// Why the header of the load that comes next is refused, if it is, where this is active and
    /// the loads need so many bytes of a bank with it. At the last header it is known which loads
    /// are kept, and they count too.
    pub(crate) fn header_reason<R: Rule>(
        &self,
        interlock: &Interlock<R>,
        identity: &Identity,
        active: &[ManifestLoad],
        wanted: &Wanted,
        header: &LoadHeader,
        need: u64,
    ) -> Option<Reason>
        requires left { length self.now.loads < length self.now.request }
        requires few { length self.now.request ≤ 32 }
        requires active { FitsALayout (entries active.now) }
        requires small { need ≤ 2 ^ 43 }
        ensures is { (accepts : Accepts) → FollowsAccepts R.may_say interlock.now accepts → result
            ≡ refused_for accepts identity.now wanted.now (header_view header.now)
            (told_loads (kept_with (entries active.now) self.now.loads header.now.type_id))
            (loads_known (entries active.now) self.now (header_view header.now))
            (need_known (entries active.now) self.now (header_view header.now) need) }
        ensures passed { result ≡ None
            → PassesStoreTests identity.now wanted.now (header_view header.now)
            (loads_known (entries active.now) self.now (header_view header.now))
            (need_known (entries active.now) self.now (header_view header.now) need) }
    {
        let kept = kept_after(active, self.loads.as_slice(), header);
        let told = kept.as_slice();
        let loads = self.count_with(told.len());
        let need = need + self.need_of_kept(active, header);
        header_reason(interlock, identity, wanted, header, told, loads, need)
    }

    /// How many loads are known of, where so many are kept after the header of the next one: those
    /// that were asked for, and at the last header the kept ones.
    fn count_with(&self, kept: usize) -> u16
        requires left { length self.now.loads < length self.now.request }
        requires few { (length self.now.request ≤ 32) × (kept ≤ 32) }
        ensures { (active : Items LoadEntry) (h : HeaderView)
            → kept ≡ length (kept_with active self.now.loads h.type_id)
            → result ≡ loads_known active self.now h }
    {
        let requested = self.request.len() as u16;
        if self.is_last() {
            requested + kept as u16
        } else {
            requested
        }
    }

    /// How many bytes of a bank the loads need that are kept, at the last header, and 0 before it.
    fn need_of_kept(&self, active: &[ManifestLoad], header: &LoadHeader) -> u64
        requires left { length self.now.loads < length self.now.request }
        requires active { FitsALayout (entries active.now) }
        ensures is { (need : ℕ) → need + result
            ≡ need_known (entries active.now) self.now (header_view header.now) need }
        ensures small { result ≤ 32 * 2 ^ 42 }
    {
        if self.is_last() {
            kept_need(active, self.loads.as_slice(), header.type_id)
        } else {
            0
        }
    }

    /// Whether the load that comes next is the last that was asked for.
    fn is_last(&self) -> bool
        requires { length self.now.loads < length self.now.request }
        ensures { (current : Option OpenLoadView) → result
            ≡ is_last_of (upload_of self.now current) }
    {
        self.request.len() - self.loads.len() <= 1
    }

    /// With this many bytes needed.
    pub(crate) fn with_need(mut self, need: u32) -> Whole
        ensures { result ≡ needing self need }
    {
        self.need = need;
        self
    }

    /// What comes after this many files of the load with this header.
    pub(crate) fn next_after(&self, header: &LoadHeader, files: usize) -> Next
        requires left { length self.now.loads < length self.now.request }
        requires few { length (files_of (header_view header.now)) ≤ 255 }
        ensures { (current : Option OpenLoadView) → next_seen result
            ≡ next_with (upload_of self.now current) (header_view header.now) files }
    {
        if files < header.data_files.len() + header.support_files.len() {
            Next::MoreFiles
        } else if self.request.len() - self.loads.len() > 1 {
            Next::NextLoad
        } else {
            Next::Complete
        }
    }

    /// How many loads are whole.
    pub(crate) fn arrived(&self) -> u16
        requires { length self.now.loads ≤ 32 }
        ensures { result ≡ length self.now.loads }
    {
        self.loads.len() as u16
    }

    /// How many loads have arrived where this comes next.
    pub(crate) fn arrived_before(&self, next: Next) -> u16
        requires { length self.now.loads ≤ 32 }
        ensures { result ≡ arrived_at (length self.now.loads) (next_seen next) }
    {
        match next {
            Next::MoreFiles => self.arrived(),
            Next::NextLoad | Next::Complete => self.arrived() + 1,
        }
    }

    /// The upload is stopped, and the installation given up.
    pub(crate) fn stop(self, store: &mut Store, arrived: u16, reason: Reason) -> UploadEnd
        requires loads { length self.loads ≤ 32 }
        requires request { length self.request ≤ 32 }
        requires arrived { arrived ≤ length self.request }
        requires begun { ¬ IsIdle store.old }
        ensures end { end_view result
            ≡ stopped_upload self.request arrived (length self.loads + 1) reason }
        ensures prepared { IsPrepared store.new }
        ensures continues { Continues store.old store.new }
    {
        let reports = self.arrived() + 2;
        store.abandon();
        UploadEnd {
            request: self.request,
            arrived,
            reports,
            reason: Some(reason),
        }
    }

    /// The same at the end of a file after which this would come.
    pub(crate) fn stop_before(self, store: &mut Store, next: Next, reason: Reason) -> UploadEnd
        requires left { length self.loads < length self.request }
        requires request { length self.request ≤ 32 }
        requires begun { ¬ IsIdle store.old }
        ensures end { end_view result ≡ stopped_upload self.request
            (arrived_at (length self.loads) (next_seen next)) (length self.loads + 1) reason }
        ensures prepared { IsPrepared store.new }
        ensures continues { Continues store.old store.new }
    {
        let arrived = self.arrived_before(next);
        self.stop(store, arrived, reason)
    }

    /// With this load, which is whole.
    pub(crate) fn with_load(mut self, load: &OpenLoad) -> Result<Whole, NoMemory>
        ensures { IfOk result (λ whole. whole ≡ with_whole self load.now) }
    {
        let listed = load.listed(self.alloc)?;
        self.loads.push(listed)?;
        Ok(self)
    }
}
