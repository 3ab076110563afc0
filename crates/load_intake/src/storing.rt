//! What an intake has its store do.
ghost use Rattle.std.specs.Prelude.{◌≡◌, ℕ, ◌+◌, ◌≤◌, [], ◌∷◌, ◌++◌, length, List, Some, true};
ghost use Rattle.std.specs.Prelude.{false, OnOk};
ghost use Rattle.bank_store.specs.DiskWrites.{IsFailure, IsRunning};
ghost use Rattle.bank_store.specs.Keeps.{Continues};
ghost use Rattle.bank_store.specs.Known.{KnowsActive};
ghost use Rattle.bank_store.specs.Store.{AwaitsEnd, AwaitsFile, AwaitsLoad, IsBetweenLoads};
ghost use Rattle.bank_store.specs.Store.{IsPrepared, IsSealed, IsSpent, body_of, manifest_length};
ghost use Rattle.disk_layout.specs.Manifest.{LoadEntry, entry_view};
ghost use Rattle.load_base.specs.Config.{LoadView};
ghost use Rattle.load_header.specs.Header.{header_view};
ghost use Rattle.session_rules.specs.Uploads.{files_of};
ghost use Rattle.disk_layout.specs.Holds.{StandingView};
ghost use Rattle.disk_model.specs.Image.{Image};
ghost use Rattle.bank_store.specs.Fits.{InstallsBeside};
ghost use Rattle.bank_store.specs.Given.{Given, HasGiven, loads_of, nothing_given};
ghost use Rattle.bank_store.specs.Given.{with_bytes, with_file, with_load};
ghost use Rattle.session_rules.specs.KeptLoads.{has_other_type, kept_entries, kept_loads};
ghost use Rattle.session_rules.specs.KeptLoads.{types_in, types_of};
ghost use Rattle.session_rules.specs.TargetLog.{standing_after};
ghost use Rattle.session_rules.specs.TargetRows.{Over};
ghost use Rattle.load_intake.specs.Contents.{BringsTo, GivesContents, IsGiven, LeavesSealed};
ghost use Rattle.load_intake.specs.Contents.{with_whole_loads};
ghost use Rattle.load_intake.specs.Keeping.{entries, kept_beside};
ghost use Rattle.load_intake.specs.Stores.{CanKeepLoad, CanWriteHeader, HasRoomFor};
ghost use Rattle.load_intake.specs.Stores.{HasRoomToKeep, InstallsLoads, KeepsStore, StoreGoesOn};
ghost use Rattle.load_intake.specs.Stores.{StoreHas, down_of, header_alone, with_entry};

use crate::down::Down;
use crate::keeping::is_kept_beside;
use crate::whole::Whole;
use bank_store::{ManifestLoad, Store, StoreFault};
use disk_model::Disk;
use load_base::{Name, PartText};
use load_header::LoadHeader;
use load_protocol_files::Wanted;

/// What a failure of the store comes to.
fn down(fault: StoreFault) -> Down
    requires { IsFailure fault }
    ensures { result ≡ down_of fault }
{
    match fault {
        StoreFault::DiskFailed => Down::DiskFailed,
        StoreFault::Memory => Down::Memory,
        // No other call of a store than these has such a fault.
        StoreFault::BankFull { .. } | StoreFault::SequenceSpent => unreachable!(),
    }
}

/// An installation begins.
pub(crate) fn begin<K: Disk>(store: &mut Store, disk: &mut K) -> Result<(), Down>
    requires prepared { IsPrepared store.old }
    requires sequence { ¬ IsSpent store.old }
    requires running { IsRunning (K.state disk.old) }
    ensures has { OnOk result (StoreHas store.new [] 0 0) }
    ensures gives { (s : StandingView) → InstallsBeside store.old (K.state disk.old) s
        → GivesContents (K.state disk.old) store.new (K.state disk.new) s nothing_given result }
    ensures goes_on { OnOk result (StoreGoesOn store.old store.new (K.state disk.old)
        (K.state disk.new)) }
    ensures keeps { KeepsStore store.old store.new (K.state disk.old) (K.state disk.new)
        result }
{
    match store.begin(disk) {
        Ok(()) => Ok(()),
        Err(fault) => Err(down(fault)),
    }
}

/// Writes a piece of the file that ends next, for which there is room.
pub(crate) fn append<K: Disk>(store: &mut Store, disk: &mut K, bytes: &[u8]) -> Result<(), Down>
    requires awaits { AwaitsFile store.old }
    requires room { HasRoomFor (length bytes.now) store.old }
    requires running { IsRunning (K.state disk.old) }
    ensures has { (loads : List LoadEntry) (missing taken : ℕ)
        → StoreHas store.old loads missing taken
        → OnOk result (StoreHas store.new loads missing (taken + length bytes.now)) }
    ensures gives { (s : StandingView) (g : Given) → IsGiven store.old (K.state disk.old) s g
        → GivesContents (K.state disk.old) store.new (K.state disk.new) s (with_bytes bytes.now g)
        result }
    ensures goes_on { OnOk result (StoreGoesOn store.old store.new (K.state disk.old)
        (K.state disk.new)) }
    ensures keeps { KeepsStore store.old store.new (K.state disk.old) (K.state disk.new)
        result }
{
    match store.append(disk, bytes) {
        Ok(()) => Ok(()),
        Err(fault) => Err(down(fault)),
    }
}

/// A load of this type and of this many files begins.
fn start_load(store: &mut Store, part: PartText, type_id: u16, files: u16)
    requires awaits { AwaitsLoad store.old }
    requires files { (1 ≤ files) × (files ≤ 256) }
    requires size { length part ≡ 15 }
    ensures has { (loads : List LoadEntry) → StoreHas store.old loads 0 0
        → StoreHas store.new
        (loads ++ record { part = part; type_id = Some type_id; files = [] } ∷ []) files 0 }
    ensures given { (image : Image) (g : Given) → HasGiven store.old image g
        → HasGiven store.new image (with_load part type_id files g) }
    ensures continues { Continues store.old store.new }
{
    match store.start_load(part, type_id, files) {
        Ok(()) => {}
        // The premise says that the load fits.
        Err(_) => unreachable!(),
    }
}

/// The file that arrived ends.
pub(crate) fn end_file(store: &mut Store, name: Name)
    requires awaits { AwaitsEnd store.old }
    ensures has { (loads : List LoadEntry) (load : LoadEntry) (missing taken : ℕ)
        → StoreHas store.old (loads ++ load ∷ []) (missing + 1) taken
        → StoreHas store.new (loads ++ with_entry load name taken ∷ []) missing 0 }
    ensures given { (image : Image) (g : Given) → HasGiven store.old image g
        → HasGiven store.new image (with_file name g) }
    ensures continues { Continues store.old store.new }
{
    match store.end_file(name) {
        Ok(()) => {}
        // The premise says that the file fits.
        Err(_) => unreachable!(),
    }
}

/// A load begins with its header, which has these bytes.
pub(crate) fn write_header<K: Disk>(
    whole: &Whole,
    wanted: &Wanted,
    header: &LoadHeader,
    bytes: &[u8],
    store: &mut Store,
    disk: &mut K,
) -> Result<(), Down>
    requires can { CanWriteHeader store.old whole.now.loads wanted.now (header_view header.now)
        (length bytes.now) }
    requires running { IsRunning (K.state disk.old) }
    ensures has { OnOk result (StoreHas store.new
        (whole.now.loads ++ header_alone wanted.now header.now.type_id (length bytes.now) ∷ [])
        (length (files_of (header_view header.now))) 0) }
    ensures gives { (s : StandingView) (g : Given) → IsGiven store.old (K.state disk.old) s g
        → GivesContents (K.state disk.old) store.new (K.state disk.new) s
        (with_file wanted.now.header (with_bytes bytes.now
        (with_load wanted.now.part header.now.type_id
        (length (files_of (header_view header.now)) + 1) g))) result }
    ensures goes_on { OnOk result (StoreGoesOn store.old store.new (K.state disk.old)
        (K.state disk.new)) }
    ensures keeps { KeepsStore store.old store.new (K.state disk.old) (K.state disk.new)
        result }
{
    let files = header.data_files.len() + header.support_files.len();
    start_load(store, wanted.part.text(), header.type_id, files as u16 + 1);
    append(store, disk, bytes)?;
    end_file(store, wanted.header);
    Ok(())
}

/// The new loads are all there: those of the active configuration that are kept are copied after
/// them, the manifest is written, and the other slot is opened.
pub(crate) fn install<K: Disk>(
    store: &mut Store,
    disk: &mut K,
    active: &[ManifestLoad],
    new: &[ManifestLoad],
) -> Result<(), Down>
    requires has { StoreHas store.old (entries new.now) 0 0 }
    requires active { KnowsActive store.old (entries active.now) }
    requires room { HasRoomToKeep store.old (length new.now) (entries new.now)
        (kept_beside (entries active.now) (entries new.now)) }
    requires running { IsRunning (K.state disk.old) }
    ensures installs { OnOk result (InstallsLoads (entries new.now) store.old store.new
        (K.state disk.old) (K.state disk.new)) }
    ensures brings { (s : StandingView) (g : Given) → IsGiven store.old (K.state disk.old) s g
        → types_in (loads_of g) ≡ types_of (entries new.now)
        → BringsTo (K.state disk.old) store.new (K.state disk.new) s
        (standing_after s (loads_of g)) Over [] result }
    ensures keeps { KeepsStore store.old store.new (K.state disk.old) (K.state disk.new)
        result }
{
    keep_loads(store, disk, active, new)?;
    seal(store, disk)?;
    match store.activate(disk) {
        Ok(()) => Ok(()),
        Err(fault) => Err(down(fault)),
    }
}

/// Copies each load of the active configuration that is kept beside the new ones, in their order.
fn keep_loads<K: Disk>(
    store: &mut Store,
    disk: &mut K,
    active: &[ManifestLoad],
    new: &[ManifestLoad],
) -> Result<(), Down>
    requires has { StoreHas store.old (entries new.now) 0 0 }
    requires active { KnowsActive store.old (entries active.now) }
    requires room { HasRoomToKeep store.old (length new.now) (entries new.now)
        (kept_beside (entries active.now) (entries new.now)) }
    requires running { IsRunning (K.state disk.old) }
    ensures has { OnOk result (StoreHas store.new
        (entries new.now ++ kept_beside (entries active.now) (entries new.now)) 0 0) }
    ensures gives { (s : StandingView) (g : Given) → IsGiven store.old (K.state disk.old) s g
        → GivesContents (K.state disk.old) store.new (K.state disk.new) s
        (with_whole_loads (kept_loads (types_of (entries new.now)) s.loads) g) result }
    ensures goes_on { OnOk result (StoreGoesOn store.old store.new (K.state disk.old)
        (K.state disk.new)) }
    ensures keeps { KeepsStore store.old store.new (K.state disk.old) (K.state disk.new)
        result }
{
    let mut number = 0;
    for load in active {
        number += 1;
        keep_load(store, disk, number, load, new)?;
    }
    Ok(())
}

/// Copies this load of the active configuration, which is the one of this number from 1 on, if it
/// is kept beside the new ones.
fn keep_load<K: Disk>(
    store: &mut Store,
    disk: &mut K,
    number: u16,
    load: &ManifestLoad,
    new: &[ManifestLoad],
) -> Result<(), Down>
    requires can { has_other_type (types_of (entries new.now)) load.now.type_id ≡ true
        → CanKeepLoad store.old number (entry_view load.now) }
    requires running { IsRunning (K.state disk.old) }
    ensures has { (given : List LoadEntry) → StoreHas store.old given 0 0
        → OnOk result (StoreHas store.new
        (given ++ kept_entries (types_of (entries new.now)) (entry_view load.now ∷ [])) 0 0) }
    ensures gives { (s : StandingView) (g : Given) → IsGiven store.old (K.state disk.old) s g
        → (front back : List LoadView) (one : LoadView) → s.loads ≡ front ++ one ∷ back
        → length front + 1 ≡ number → one.type_id ≡ load.now.type_id
        → GivesContents (K.state disk.old) store.new (K.state disk.new) s
        (with_whole_loads (kept_loads (types_of (entries new.now)) (one ∷ [])) g) result }
    ensures none { has_other_type (types_of (entries new.now)) load.now.type_id ≡ false
        → (s : StandingView) (g : Given) → IsGiven store.old (K.state disk.old) s g
        → GivesContents (K.state disk.old) store.new (K.state disk.new) s g result }
    ensures goes_on { OnOk result (StoreGoesOn store.old store.new (K.state disk.old)
        (K.state disk.new)) }
    ensures keeps { KeepsStore store.old store.new (K.state disk.old) (K.state disk.new)
        result }
{
    if !is_kept_beside(load, new) {
        return Ok(());
    }
    match store.keep(disk, number) {
        Ok(()) => Ok(()),
        Err(fault) => Err(down(fault)),
    }
}

/// All is written but the gate of the other slot.
fn seal<K: Disk>(store: &mut Store, disk: &mut K) -> Result<(), Down>
    requires between { IsBetweenLoads store.old }
    requires room { HasRoomFor (manifest_length store.old) store.old }
    requires running { IsRunning (K.state disk.old) }
    ensures sealed { OnOk result (IsSealed store.new) }
    ensures body { OnOk result (body_of store.new ≡ body_of store.old) }
    ensures seals { (s : StandingView) (g : Given) → IsGiven store.old (K.state disk.old) s g
        → LeavesSealed (K.state disk.old) store.new (K.state disk.new) s (loads_of g) result }
    ensures goes_on { OnOk result (StoreGoesOn store.old store.new (K.state disk.old)
        (K.state disk.new)) }
    ensures keeps { KeepsStore store.old store.new (K.state disk.old) (K.state disk.new)
        result }
{
    match store.seal(disk) {
        Ok(()) => Ok(()),
        Err(fault) => Err(down(fault)),
    }
}
