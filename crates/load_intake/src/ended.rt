//! How uploads end.
ghost use Rattle.std.specs.Prelude.{◌≡◌, ◌≤◌, length, IfOk};
ghost use Rattle.session_rules.specs.KeptLoads.{with_kept_entries};
ghost use Rattle.load_intake.specs.Keeping.{entries};

use crate::keeping::move_kept;
use bank_store::ManifestLoad;
use load_base::{List, NoMemory};
use load_protocol_files::Wanted;
use session_rules::Reason;

/// How an upload ended: what was asked for, how many loads had arrived, how many LUS are written
/// with the last one, and the reason if it was stopped.
#[derive(Drop)]
pub struct UploadEnd {
    pub request: List<Wanted>,
    pub arrived: u16,
    pub reports: u16,
    pub reason: Option<Reason>,
    ghost few: { length request.items ≤ 32 },
    ghost within: { arrived ≤ length request.items },
}

/// Loads that were asked for and are installed, 1 to 32, in a list that has room for those that are
/// kept with them.
#[derive(Drop)]
pub struct NewLoads {
    pub loads: List<ManifestLoad>,
    ghost few: { length loads.items ≤ 32 },
}

impl NewLoads {
    /// These loads, in a list that has room for so many more.
    pub(crate) fn with_room(
        mut loads: List<ManifestLoad>,
        more: usize,
    ) -> Result<NewLoads, NoMemory>
        requires few { length loads.items ≤ 32 }
        ensures same { IfOk result (λ new. new.loads.items ≡ loads.items) }
        ensures room { IfOk result (λ new. more ≤ new.loads.spare) }
    {
        loads.reserve(more)?;
        Ok(NewLoads { loads })
    }

    /// The new configuration: these loads, and then those of the one before that are kept, which
    /// are moved. It takes no memory.
    pub fn with_kept(mut self, before: &mut List<ManifestLoad>) -> List<ManifestLoad>
        requires room { length before.old.items ≤ self.loads.spare }
        ensures { entries result.items
            ≡ with_kept_entries (entries self.loads.items) (entries before.old.items) }
    {
        let new = self.loads.len();
        move_kept(before, new, &mut self.loads);
        self.loads
    }
}
