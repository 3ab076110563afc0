//! Laws of the premises of a store's calls.
ghost use Rattle.std.specs.Option.{ForSome};
ghost use Rattle.std.specs.Prelude.{◌≡◌, Some};
ghost use Rattle.disk_model.specs.Image.{Image};
ghost use Rattle.disk_model.specs.Moments.{LeavesOnly};
ghost use Rattle.disk_model.specs.State.{IsSettled};
ghost use Rattle.disk_layout.specs.DiskReads.{RunsOn};
ghost use Rattle.disk_layout.specs.Holds.{StandingView, HoldsConfig};
ghost use Rattle.disk_layout.specs.declared.identity.Identity.{Identity};
ghost use Rattle.bank_store.specs.DiskWrites.{AddsOnly, IsRunning};
ghost use Rattle.bank_store.specs.Formatting.{LeavesOldOrFormatted};
ghost use Rattle.bank_store.specs.Store.{IsIdle};
ghost use Rattle.bank_store.specs.Fits.{HoldsFor, Fits, InstallsBeside, LosesOnlyWork, Works};
ghost use Rattle.bank_store.specs.Keeps.{Continues, IsOldOrNew};
ghost use Rattle.bank_store.specs.declared.store.Store.{Store};

use disk_layout::an_image_holds_one_configuration;
use disk_model::Disk;

/// A store in which no installation has begun fits a disk that runs and holds a configuration as
/// the store keeps it, and works on it where a power loss may take nothing but work of an
/// installation. Where a store works beside a configuration, each image that a power loss may leave
/// now holds it; and calls that add only what holds it, or what holds it or another, leave only
/// that since their start.
pub fn an_idle_store_works<K: Disk>()
    ensures fits { (store : Store) (disk : K) → IsIdle store → IsRunning (K.state disk)
        → ForSome (K.state disk).reads (λ image. (s : StandingView) × HoldsFor store image s)
        → Fits store (K.state disk) }
    ensures works { (store : Store) (disk : K) → IsIdle store → LosesOnlyWork (K.state disk)
        → Fits store (K.state disk) → Works store (K.state disk) }
    ensures now { (store : Store) (disk : K) (s : StandingView) (left : Image)
        → InstallsBeside store (K.state disk) s
        → (K.state disk).now left → HoldsFor store left s }
    ensures since { (store : Store) (old new : K) (s : StandingView)
        → InstallsBeside store (K.state old) s
        → AddsOnly (K.state old) (K.state new) (λ left. HoldsConfig left s)
        → LeavesOnly (K.state old).clock (λ left. HoldsConfig left s) (K.state new) }
    ensures since_either { (store : Store) (old new : K) (s next : StandingView)
        → InstallsBeside store (K.state old) s
        → AddsOnly (K.state old) (K.state new) (IsOldOrNew s next)
        → LeavesOnly (K.state old).clock (IsOldOrNew s next) (K.state new) }
{
    // For the proof: does nothing.
    an_image_holds_one_configuration();
}

/// A power loss may take nothing but work of an installation: of a disk that holds a configuration
/// and is settled, as after a sync or a restart; of one on which a store works, at whatever stage
/// its installation is; and still where the disk reads the same and a power loss can leave nothing
/// new. Then all that it may leave holds the configuration that is read.
pub fn a_power_loss_takes_only_work<K: Disk>()
    ensures settled { (disk : K) (image : Image) (s : StandingView)
        → (K.state disk).reads ≡ Some image → HoldsConfig image s → IsSettled (K.state disk)
        → LosesOnlyWork (K.state disk) }
    ensures works { (store : Store) (disk : K) (image : Image) → (K.state disk).reads ≡ Some image
        → Works store (K.state disk) → LosesOnlyWork (K.state disk) }
    ensures still { (old new : K) → (K.state new).reads ≡ (K.state old).reads
        → ((image : Image) → (K.state new).now image → (K.state old).now image)
        → LosesOnlyWork (K.state old) → LosesOnlyWork (K.state new) }
    ensures holds { (disk : K) (image : Image) (s : StandingView) → LosesOnlyWork (K.state disk)
        → (K.state disk).reads ≡ Some image → HoldsConfig image s
        → (left : Image) → (K.state disk).now left → HoldsConfig left s }
{
    // For the proof: does nothing.
    an_image_holds_one_configuration();
}

/// A store goes on to fit a disk, and to work on it, over a call of the disk after which it reads
/// the same and runs, as a read does, where a power loss can leave nothing new; and over the
/// store's own calls that make none of the disk: `prepare`, `start_load`, `end_file` and `abandon`.
pub fn a_store_goes_on_fitting<K: Disk>()
    ensures read_fits { (store : Store) (old new : K) → RunsOn (K.state old) (K.state new)
        → Fits store (K.state old) → Fits store (K.state new) }
    ensures read_works { (store : Store) (old new : K) → RunsOn (K.state old) (K.state new)
        → ((image : Image) → (K.state new).now image → (K.state old).now image)
        → Works store (K.state old) → Works store (K.state new) }
    ensures continued_fits { (before after : Store) (disk : K) → Continues before after
        → Fits before (K.state disk) → Fits after (K.state disk) }
    ensures continued_works { (before after : Store) (disk : K) → Continues before after
        → Works before (K.state disk) → Works after (K.state disk) }
{}

/// Before formatting begins a power loss leaves what there was.
// For the proof: does nothing.
pub fn an_unformatted_disk_is_as_it_was<K: Disk>()
    ensures unchanged { (disk : K) (id : Identity)
        → LeavesOldOrFormatted id (K.state disk) (K.state disk) }
{}
