//! Recovery of a whole configuration.
ghost use Rattle.std.specs.Prelude.{◌<◌, IfOk, IfErr};
ghost use Rattle.std.specs.Option.{ForSome};
ghost use Rattle.disk_layout.specs.Offsets.{IsBankSize};
ghost use Rattle.disk_layout.specs.Holds.{HoldsConfig, Refuses, standing_view};
ghost use Rattle.disk_layout.specs.DiskReads.{ReadsDisk};
ghost use Rattle.bank_store.specs.DiskWrites.{IsRunning};

use crate::contents::loads_on;
use crate::surveying::active_on;
use disk_layout::{RecoverFault, Standing};
use disk_model::Disk;
use load_base::Config;
use std::alloc::Global;

/// Recovers the configuration that a disk holds: all that [`crate::survey`] reads, and the contents
/// of the active bank. Nothing is written. The first condition that fails is the refusal (that it
/// is one, and the only one, is a law of [`disk_layout::an_image_holds_one_configuration`]). After
/// V1 to V4 the disk runs on, after DiskFailed not until a restart.
pub fn recover<K: Disk>(alloc: Global, disk: &mut K) -> Result<Standing, RecoverFault>
    requires { IsRunning (K.state disk.old) }
    ensures found { IfOk result (λ standing. ForSome (K.state disk.old).reads
        (λ image. HoldsConfig image (standing_view standing))) }
    ensures refused { IfErr result (λ fault. ForSome (K.state disk.old).reads
        (λ image. Refuses image fault)) }
    ensures in_range { IfOk result
        (λ standing. IsBankSize standing.identity.bank × (standing.bank < 2)) }
    ensures reads_disk { ReadsDisk (K.state disk.old) (K.state disk.new) result }
{
    let found = active_on(alloc, disk)?;
    let start = found.active.bank.offset(found.identity.bank);
    let entries = found.manifest.loads.as_slice();
    let loads = loads_on(alloc, disk, start, entries)?;
    Ok(Standing {
        identity: found.identity,
        bank: found.active.bank.number(),
        sequence: found.active.sequence,
        config: Config { loads },
    })
}
