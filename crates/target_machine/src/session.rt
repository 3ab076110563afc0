//! The session of a target.
ghost use Rattle.target_machine.specs.Own.{OwnIsEmpty};

use crate::row::Row;
use bank_store::Store;
use disk_model::Disk;
use load_intake::Down;
use session_files::FileBuffer;

/// The session that is live.
#[derive(Drop)]
pub(crate) struct LiveSession {
    pub(crate) row: Row,
    /// What arrived so far of a file that isn't one of a load.
    pub(crate) arriving: FileBuffer,
    ghost own: { OwnIsEmpty row arriving },
}

impl LiveSession {
    ghost use Rattle.std.specs.Prelude.{◌≡◌, ◌≤◌, ◌++◌, List, OnOk};
    ghost use Rattle.bank_store.specs.DiskWrites.{IsRunning};
    ghost use Rattle.bank_store.specs.declared.store.Store.{Store as StoreState};
    ghost use Rattle.disk_layout.specs.Holds.{StandingView};
    ghost use Rattle.disk_layout.specs.Manifest.{LoadEntry};
    ghost use Rattle.session_rules.specs.Buffers.{buffer_size, empty_buffer};
    ghost use Rattle.session_rules.specs.Contents.{SessionContents, session_kept};
    ghost use Rattle.load_intake.specs.Contents.{BringsTo, InstallsRow};
    ghost use Rattle.load_intake.specs.Held.{contents_kept};
    ghost use Rattle.load_intake.specs.Stores.{KeepsStore, StoreGoesOn};
    ghost use Rattle.target_machine.specs.Machine.{session_held, session_seen, session_with};
    ghost use Rattle.target_machine.specs.Stages.{IsRowStage};

    /// It comes to a row, and nothing has arrived in it. What arrives comes into this buffer, which
    /// is emptied before.
    pub(crate) fn in_row(row: Row, mut arriving: FileBuffer) -> LiveSession
        ensures row { result.row ≡ row }
        ensures nothing { result.arriving ≡ empty_buffer }
    {
        arriving.clear();
        LiveSession { row, arriving }
    }

    /// All its lists hold at most 65,536 bytes of the contents of files together.
    // For the proof: does nothing.
    pub(crate) fn keeps_little(&self)
        ensures held { (store : StoreState) → IsRowStage self.now.row store
            → session_held self.now ≤ buffer_size }
        ensures arriving { (active : List LoadEntry)
            → contents_kept (session_seen active self.now).arriving ≤ session_held self.now }
    {
        match &self.row {
            Row::ReadsFile(intake) => intake.keeps_little(),
            _ => self.arriving.keeps_little(),
        }
    }

    /// More of a file arrives. Of a data or support file of a load it goes straight to the other
    /// bank.
    pub(crate) fn add_payload<K: Disk>(
        &mut self,
        store: &mut Store,
        disk: &mut K,
        payload: &[u8],
    ) -> Result<(), Down>
        requires stage { IsRowStage self.old.row store.old }
        requires running { IsRunning (K.state disk.old) }
        ensures takes { (active : List LoadEntry) → OnOk result (session_seen active self.new
            ≡ session_with (session_seen active self.old) payload.now) }
        ensures stage { OnOk result (IsRowStage self.new.row store.new) }
        ensures brings { (active : List LoadEntry) (s : StandingView) (x : SessionContents)
            → session_seen active self.old ≡ session_kept x
            → InstallsRow store.old (K.state disk.old) s x.row x.arrived
            → BringsTo (K.state disk.old) store.new (K.state disk.new) s s x.row
            (x.arrived ++ payload.now) result }
        ensures goes_on { OnOk result (StoreGoesOn store.old store.new (K.state disk.old)
            (K.state disk.new)) }
        ensures keeps { KeepsStore store.old store.new (K.state disk.old) (K.state disk.new)
            result }
    {
        match &mut self.row {
            Row::ReadsFile(intake) => {
                intake.take_bytes(store, disk, payload)?;
                // For the proof: does nothing.
                intake.no_more();
                Ok(())
            }
            _ => Ok(self.arriving.take(payload)?),
        }
    }
}
