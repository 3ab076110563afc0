//! What a file comes to that arrived whole.
ghost use Rattle.std.specs.Prelude.{◌≡◌, ◌+◌, ◌<◌, ◌≤◌, [], ◌∷◌, ◌++◌, ℕ, List as Items, None};
ghost use Rattle.std.specs.Prelude.{Some};
ghost use Rattle.std.specs.Prelude.{IfOk, length};
ghost use Rattle.crc_fields.specs.CheckSums.{crc32_of};
ghost use Rattle.accept_rules.specs.Interlocks.{FollowsAccepts};
ghost use Rattle.accept_rules.specs.Permissions.{Accepts};
ghost use Rattle.bank_store.specs.Given.{Given, loads_of};
ghost use Rattle.bank_store.specs.Keeps.{Continues};
ghost use Rattle.bank_store.specs.Store.{IsIdle, IsPrepared, bank_size_of};
ghost use Rattle.bank_store.specs.declared.store.Store.{Store as StoreState};
ghost use Rattle.disk_layout.specs.Holds.{Outline, StandingView};
ghost use Rattle.load_header.specs.Header.{header_view};
ghost use Rattle.session_rules.specs.Buffers.{empty_buffer};
ghost use Rattle.session_rules.specs.KeptLoads.{types_in, types_of};
ghost use Rattle.session_rules.specs.TargetLog.{standing_after};
ghost use Rattle.session_rules.specs.TargetRows.{Kept_bytes, Kept_sums, Over, Reads_file};
ghost use Rattle.session_rules.specs.TargetRows.{done_move, load_entry_of, placed_view, row_moved};
ghost use Rattle.session_rules.specs.TargetRows.{stopped_upload, view_moved};
ghost use Rattle.session_rules.specs.declared.reason.Reason.TheVariants.{HeaderRefused};
ghost use Rattle.session_rules.specs.Uploads.{Complete, More_files, Next_load, covered_header};
ghost use Rattle.session_rules.specs.Uploads.{Upload, files_of, next_with, upload_view};
ghost use Rattle.load_intake.specs.Contents.{BringsRow, BringsTo, GoesTo, InstallsRow};
ghost use Rattle.load_intake.specs.Contents.{IsGiven, IsOf};
ghost use Rattle.load_intake.specs.Intakes.{BeginsNext, end_view, row_seen};
ghost use Rattle.load_intake.specs.Keeping.{IsActive, entries};
ghost use Rattle.load_intake.specs.Kept.{IsAccepted, intake_at};
ghost use Rattle.load_intake.specs.Judging.{IsWholeHeader, header_row, whole_buffer};
ghost use Rattle.load_intake.specs.Judging.{whole_header_row};
ghost use Rattle.load_intake.specs.Places.{next_seen};
ghost use Rattle.load_intake.specs.States.{upload_of};
ghost use Rattle.load_intake.specs.Stores.{EndsFile, FileAccepted, FileArrived, GoesOnInStep};
ghost use Rattle.load_intake.specs.Stores.{HasAccepted, KeepsStore};
ghost use Rattle.bank_store.specs.Known.{KnowsActive};

use crate::down::Down;
use crate::ended::{NewLoads, UploadEnd};
use crate::finished::{Finished, installed};
use crate::intake::Intake;
use crate::judging::load_reason;
use crate::next::Next;
use crate::open_load::OpenLoad;
use crate::place::Place;
use crate::storing;
use crate::sums::FileSums;
use crate::whole::Whole;
use accept_rules::{Interlock, Rule};
use bank_store::{Identity, ManifestLoad, Store};
use crc_fields::Crc32;
use disk_model::Disk;
use load_base::NoMemory;
use load_header::{HeaderFault, LoadHeader, header_laws};
use session_files::FileBuffer;
use session_rules::Reason;

/// A header is whole.
pub(crate) fn header_arrived<K: Disk, R: Rule>(
    whole: Whole,
    buffer: FileBuffer,
    interlock: &Interlock<R>,
    identity: &Identity,
    active: &[ManifestLoad],
    store: &mut Store,
    disk: &mut K,
) -> Result<Finished, Down>
    requires arrived { FileArrived (intake_at whole None (Kept_bytes buffer)) whole.need store.old
        (K.state disk.old) }
    requires active { KnowsActive store.old (entries active.now) }
    requires bank { identity.now.bank ≡ bank_size_of store.old }
    ensures row { (accepts : Accepts) → FollowsAccepts R.may_say interlock.now accepts
        → (o : Outline) → IsActive o identity.now (entries active.now)
        → IfOk result (λ finished. row_seen finished ≡ view_moved
        (Reads_file (upload_of whole None)) (Kept_bytes buffer)
        (done_move accepts o (Reads_file (upload_of whole None))
        (Kept_bytes buffer))) }
    ensures ends { IfOk result (λ finished. EndsFile (length active.now) finished store.old
        store.new (K.state disk.old) (K.state disk.new)) }
    ensures brings { (accepts : Accepts) → FollowsAccepts R.may_say interlock.now accepts
        → (o : Outline) → IsActive o identity.now (entries active.now)
        → (s : StandingView) (u : Upload) (arrived : Items ℕ)
        → IsOf (intake_at whole None (Kept_bytes buffer)) u arrived
        → InstallsRow store.old (K.state disk.old) s (Reads_file u) arrived
        → BringsRow (K.state disk.old) store.new (K.state disk.new) s
        (row_moved (Reads_file u) arrived (done_move accepts o
        (Reads_file (upload_of whole None)) (Kept_bytes buffer))) result }
    ensures keeps { KeepsStore store.old store.new (K.state disk.old) (K.state disk.new)
        result }
{
    // For the proof: does nothing.
    header_laws();
    let bytes = buffer.prefix();
    // The bytes past the first 65,536 weren't kept.
    if buffer.count() > bytes.len() as u64 {
        let end = refuse_header(whole, store, HeaderFault::TooLong);
        return Ok(Finished::Stopped(end));
    }
    match LoadHeader::decode(whole.alloc(), bytes) {
        Ok(header) => header_read(
            whole, header, buffer, interlock, identity, active, store, disk,
        ),
        Err(HeaderFault::Memory) => {
            // For the proof: dropped by a call, not by scope.
            drop((whole, buffer));
            Err(Down::Memory)
        }
        Err(fault) => Ok(Finished::Stopped(refuse_header(whole, store, fault))),
    }
}

/// A header is refused that couldn't be read.
fn refuse_header(whole: Whole, store: &mut Store, fault: HeaderFault) -> UploadEnd
    requires left { length whole.loads < length whole.request }
    requires few { length whole.request ≤ 32 }
    requires begun { ¬ IsIdle store.old }
    ensures end { end_view result ≡ stopped_upload whole.request (length whole.loads)
        (length whole.loads + 1) (HeaderRefused fault) }
    ensures prepared { IsPrepared store.new }
    ensures continues { Continues store.old store.new }
{
    let arrived = whole.arrived();
    whole.stop(store, arrived, Reason::HeaderRefused { fault })
}

/// A header was read from the bytes of this buffer, which are all of it.
fn header_read<K: Disk, R: Rule>(
    whole: Whole,
    header: LoadHeader,
    buffer: FileBuffer,
    interlock: &Interlock<R>,
    identity: &Identity,
    active: &[ManifestLoad],
    store: &mut Store,
    disk: &mut K,
) -> Result<Finished, Down>
    requires arrived { FileArrived (intake_at whole None (Kept_bytes (whole_buffer buffer.prefix)))
        whole.need store.old (K.state disk.old) }
    requires active { KnowsActive store.old (entries active.now) }
    requires bank { identity.now.bank ≡ bank_size_of store.old }
    requires header { IsWholeHeader (header_view header) buffer.prefix }
    ensures row { (accepts : Accepts) → FollowsAccepts R.may_say interlock.now accepts
        → (o : Outline) → IsActive o identity.now (entries active.now)
        → IfOk result (λ finished. row_seen finished ≡ header_row accepts o whole
        (header_view header) buffer.prefix) }
    ensures ends { IfOk result (λ finished. EndsFile (length active.now) finished store.old
        store.new (K.state disk.old) (K.state disk.new)) }
    ensures brings { (accepts : Accepts) → FollowsAccepts R.may_say interlock.now accepts
        → (o : Outline) → IsActive o identity.now (entries active.now)
        → (s : StandingView) (u : Upload) → upload_of whole None ≡ upload_view u
        → InstallsRow store.old (K.state disk.old) s (Reads_file u) buffer.prefix
        → BringsRow (K.state disk.old) store.new (K.state disk.new) s
        (whole_header_row accepts o u (header_view header) buffer.prefix) result }
    ensures keeps { KeepsStore store.old store.new (K.state disk.old) (K.state disk.new)
        result }
{
    let wanted = *whole.next_wanted();
    let bytes = buffer.prefix();
    let size = bytes.len() as u32;
    let need = whole.need_with(&wanted, &header, size);
    let next = whole.next_after(&header, 0);
    // For the proof: what is left is dropped by a call, here and below, and not by scope.
    if let Some(reason) = whole.header_reason(interlock, identity, active, &wanted, &header, need) {
        drop((header, buffer));
        return Ok(Finished::Stopped(whole.stop_before(store, next, reason)));
    }
    match storing::write_header(&whole, &wanted, &header, bytes, store, disk) {
        Ok(()) => {}
        Err(down) => {
            drop((whole, header, buffer));
            return Err(down);
        }
    }
    let sum = header_sum(bytes);
    let crc = sum.value();
    // The header of a load without other files is its last file.
    if let Some(reason) = load_reason(&header, next, crc) {
        drop((header, buffer));
        return Ok(Finished::Stopped(whole.stop_before(store, next, reason)));
    }
    let whole = whole.with_need(need as u32);
    let load = OpenLoad::new(whole.alloc(), wanted, header, size, crc);
    after_file(whole, load, sum, buffer, next, active, store, disk)
}

/// The check sum of a load of which this header was taken: all but its last 4 bytes, where the
/// check sum itself stands.
fn header_sum(bytes: &[u8]) -> Crc32
    requires { 4 ≤ length bytes.now }
    ensures { result ≡ crc32_of (covered_header bytes.now) }
{
    let mut sum = Crc32::new();
    sum.update(&bytes[..bytes.len() - 4]);
    sum
}

/// A data or support file is whole.
pub(crate) fn file_arrived<K: Disk>(
    whole: Whole,
    load: OpenLoad,
    sums: FileSums,
    buffer: FileBuffer,
    active: &[ManifestLoad],
    store: &mut Store,
    disk: &mut K,
) -> Result<Finished, Down>
    requires arrived { FileArrived (intake_at whole (Some load)
        (Kept_sums sums)) whole.need store.old
        (K.state disk.old) }
    requires active { KnowsActive store.old (entries active.now) }
    ensures row { (accepts : Accepts) (o : Outline) → IfOk result (λ finished.
        row_seen finished ≡ view_moved (Reads_file (upload_of whole (Some load))) (Kept_sums sums)
        (done_move accepts o (Reads_file (upload_of whole (Some load))) (Kept_sums sums))) }
    ensures ends { IfOk result (λ finished. EndsFile (length active.now) finished store.old
        store.new (K.state disk.old) (K.state disk.new)) }
    ensures brings { (accepts : Accepts) (o : Outline) (s : StandingView)
        (u : Upload) (arrived : Items ℕ)
        → IsOf (intake_at whole (Some load) (Kept_sums sums)) u arrived
        → InstallsRow store.old (K.state disk.old) s (Reads_file u) arrived
        → BringsRow (K.state disk.old) store.new (K.state disk.new) s
        (row_moved (Reads_file u) arrived (done_move accepts o
        (Reads_file (upload_of whole (Some load))) (Kept_sums sums))) result }
    ensures keeps { KeepsStore store.old store.new (K.state disk.old) (K.state disk.new)
        result }
{
    let next = load.next_in(&whole);
    if let Some(reason) = load.verdict(next, &sums) {
        // For the proof: dropped by a call, not by scope.
        drop((load, buffer));
        return Ok(Finished::Stopped(whole.stop_before(store, next, reason)));
    }
    let file = load.next_file(sums.count());
    storing::end_file(store, file.name);
    let load = load.with_file(file, sums.load_crc())?;
    after_file(
        whole,
        load,
        sums.into_load_crc(),
        buffer,
        next,
        active,
        store,
        disk,
    )
}

/// A file was accepted, and written. The buffer is emptied for the next header.
fn after_file<K: Disk>(
    whole: Whole,
    load: OpenLoad,
    sum: Crc32,
    mut buffer: FileBuffer,
    next: Next,
    active: &[ManifestLoad],
    store: &mut Store,
    disk: &mut K,
) -> Result<Finished, Down>
    requires accepted { FileAccepted whole load store.old (K.state disk.old) }
    requires active { KnowsActive store.old (entries active.now) }
    requires next { next_seen next ≡ next_with (upload_of whole None) load.header
        (length load.files) }
    requires sum { sum ≡ load.crc }
    ensures row { IfOk result (λ finished. row_seen finished
        ≡ placed_view (upload_of whole None) load (next_seen next)) }
    ensures ends { IfOk result (λ finished. EndsFile (length active.now) finished store.old
        store.new (K.state disk.old) (K.state disk.new)) }
    ensures goes_to { (s : StandingView) (g : Given) → IsGiven store.old (K.state disk.old) s g
        → types_in (loads_of g) ≡ types_of (whole.loads ++ load_entry_of load ∷ [])
        → GoesTo (next_seen next) (K.state disk.old) store.new (K.state disk.new) s g result }
    ensures keeps { KeepsStore store.old store.new (K.state disk.old) (K.state disk.new)
        result }
{
    buffer.clear();
    match next {
        Next::MoreFiles => Ok(more_files(whole, load, sum, buffer)),
        Next::NextLoad => Ok(next_load(whole, load, buffer)?),
        Next::Complete => complete(whole, load, active, store, disk),
    }
}

/// The load has more files.
fn more_files(whole: Whole, load: OpenLoad, sum: Crc32, buffer: FileBuffer) -> Finished
    requires empty { buffer ≡ empty_buffer }
    requires accepted { IsAccepted whole load }
    requires more { length load.files < length (files_of load.header) }
    requires sum { sum ≡ load.crc }
    ensures row { row_seen result ≡ placed_view (upload_of whole None) load More_files }
    ensures begins { BeginsNext result }
    ensures in_step { (store : StoreState) → HasAccepted whole load store
        → GoesOnInStep result store }
{
    let sums = FileSums::new(load.next_entry().length, sum);
    Finished::MoreFiles(Intake::at(whole, Place::File(load, sums, buffer)))
}

/// The load is whole, and another is next.
fn next_load(whole: Whole, load: OpenLoad, buffer: FileBuffer) -> Result<Finished, NoMemory>
    requires empty { buffer ≡ empty_buffer }
    requires accepted { IsAccepted whole load }
    requires all { length load.files ≡ length (files_of load.header) }
    requires more { length whole.loads + 1 < length whole.request }
    ensures row { IfOk result (λ finished. row_seen finished
        ≡ placed_view (upload_of whole None) load Next_load) }
    ensures begins { IfOk result (λ finished. BeginsNext finished) }
    ensures in_step { IfOk result (λ finished. (store : StoreState) → HasAccepted whole load store
        → GoesOnInStep finished store) }
{
    let added = whole.with_load(&load);
    // For the proof: dropped by a call, not by scope.
    drop(load);
    let whole = added?;
    Ok(Finished::NextLoad(Intake::at(whole, Place::Header(buffer))))
}

/// All loads are whole, and installed with those that are kept. The memory that the new
/// configuration takes is reserved first: from the first kept load on none is taken.
fn complete<K: Disk>(
    whole: Whole,
    load: OpenLoad,
    active: &[ManifestLoad],
    store: &mut Store,
    disk: &mut K,
) -> Result<Finished, Down>
    requires accepted { FileAccepted whole load store.old (K.state disk.old) }
    requires active { KnowsActive store.old (entries active.now) }
    requires all { length load.files ≡ length (files_of load.header) }
    requires last { length whole.loads + 1 ≡ length whole.request }
    ensures row { IfOk result (λ finished. row_seen finished
        ≡ placed_view (upload_of whole None) load Complete) }
    ensures ends { IfOk result (λ finished. EndsFile (length active.now) finished store.old
        store.new (K.state disk.old) (K.state disk.new)) }
    ensures brings { (s : StandingView) (g : Given) → IsGiven store.old (K.state disk.old) s g
        → types_in (loads_of g) ≡ types_of (whole.loads ++ load_entry_of load ∷ [])
        → BringsTo (K.state disk.old) store.new (K.state disk.new) s
        (standing_after s (loads_of g)) Over [] result }
    ensures keeps { KeepsStore store.old store.new (K.state disk.old) (K.state disk.new)
        result }
{
    let added = whole.with_load(&load);
    // For the proof: dropped by a call, not by scope.
    drop(load);
    let Whole { request, loads, .. } = added?;
    let new = NewLoads::with_room(loads, active.len())?;
    storing::install(store, disk, active, new.loads.as_slice())?;
    Ok(installed(request, new))
}
