//! The file of an upload that comes next.
ghost use Rattle.std.specs.Prelude.{◌≡◌, ◌+◌, ◌-◌, ◌++◌, ℕ, List as Items, length, take};
ghost use Rattle.std.specs.Prelude.{OnOk};
ghost use Rattle.disk_layout.specs.Manifest.{LoadEntry};
ghost use Rattle.bank_store.specs.DiskWrites.{IsRunning};
ghost use Rattle.bank_store.specs.Given.{Given, with_bytes as with_more};
ghost use Rattle.disk_layout.specs.Holds.{StandingView};
ghost use Rattle.session_rules.specs.Buffers.{summed_more};
ghost use Rattle.session_rules.specs.TargetRows.{Kept_sums, Reads_file, arriving_load, with_bytes};
ghost use Rattle.session_rules.specs.Uploads.{Upload, current_view};
ghost use Rattle.load_intake.specs.Contents.{BringsTo, GivesContents, InstallsRow, IsGiven};
ghost use Rattle.load_intake.specs.Kept.{StaysAtFile, bytes_taken};
ghost use Rattle.load_intake.specs.Places.{arriving_at, open_load};
ghost use Rattle.load_intake.specs.Stores.{KeepsStore, MayTake, StoreGoesOn, StoreHas};

use crate::down::Down;
use crate::open_load::OpenLoad;
use crate::storing;
use crate::sums::FileSums;
use bank_store::Store;
use disk_model::Disk;
use session_files::FileBuffer;

/// The file of an upload that comes next.
#[derive(Drop)]
pub(crate) enum Place {
    /// The header of the next load. Its first bytes.
    Header(FileBuffer),
    /// A data or support file of this load. Its sums, and the buffer for the next header, which is
    /// empty.
    File(OpenLoad, FileSums, FileBuffer),
}

impl Place {
    /// More of the file arrives.
    pub(crate) fn add_bytes<K: Disk>(
        &mut self,
        store: &mut Store,
        disk: &mut K,
        bytes: &[u8],
    ) -> Result<(), Down>
        requires may_take { MayTake (arriving_at self.old) store.old }
        requires running { IsRunning (K.state disk.old) }
        ensures place { StaysAtFile self.old self.new }
        ensures takes { OnOk result
            (arriving_at self.new ≡ with_bytes (arriving_at self.old) bytes.now) }
        ensures brings { (s : StandingView) (u : Upload) (arrived : Items ℕ)
            → current_view u.current ≡ open_load self.old
            → arriving_load (current_view u.current) arrived ≡ arriving_at self.old
            → InstallsRow store.old (K.state disk.old) s (Reads_file u) arrived
            → BringsTo (K.state disk.old) store.new (K.state disk.new) s s (Reads_file u)
            (arrived ++ bytes.now) result }
        ensures has { (loads : Items LoadEntry) (missing : ℕ)
            → StoreHas store.old loads missing (bytes_taken (arriving_at self.old))
            → OnOk result (StoreHas store.new loads missing (bytes_taken (arriving_at self.new))) }
        ensures goes_on { OnOk result (StoreGoesOn store.old store.new (K.state disk.old)
            (K.state disk.new)) }
        ensures keeps { KeepsStore store.old store.new (K.state disk.old) (K.state disk.new)
            result }
    {
        match self {
            Place::Header(buffer) => {
                buffer.take(bytes)?;
                Ok(())
            }
            Place::File(_, sums, _) => write(sums, store, disk, bytes),
        }
    }
}

/// More of a data or support file arrives: what its said length has room for is written.
fn write<K: Disk>(
    sums: &mut FileSums,
    store: &mut Store,
    disk: &mut K,
    bytes: &[u8],
) -> Result<(), Down>
    requires may_take { MayTake (Kept_sums sums.old) store.old }
    requires running { IsRunning (K.state disk.old) }
    ensures sums { OnOk result (sums.new ≡ summed_more sums.old bytes.now) }
    ensures said { sums.new.said ≡ sums.old.said }
    ensures gives { (s : StandingView) (g : Given) → IsGiven store.old (K.state disk.old) s g
        → GivesContents (K.state disk.old) store.new (K.state disk.new) s
        (with_more (take (sums.old.said - sums.old.count) bytes.now) g) result }
    ensures has { (loads : Items LoadEntry) (missing taken : ℕ)
        → StoreHas store.old loads missing taken
        → OnOk result (StoreHas store.new loads missing
        (taken + length (take (sums.old.said - sums.old.count) bytes.now))) }
    ensures goes_on { OnOk result (StoreGoesOn store.old store.new (K.state disk.old)
        (K.state disk.new)) }
    ensures keeps { KeepsStore store.old store.new (K.state disk.old) (K.state disk.new)
        result }
{
    storing::append(store, disk, sums.kept(bytes))?;
    sums.take(bytes)?;
    Ok(())
}
