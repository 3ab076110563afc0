//! That a media set can be told.
ghost use Rattle.std.specs.List.{AllByRecursion};
ghost use Rattle.loader_machine.specs.Machine.{media_of};
ghost use Rattle.media_check.specs.Sets.{set_view};
ghost use Rattle.run_promises.specs.Promises.{CanBeTold};
ghost use Rattle.run_promises.specs.TellableSets.{IsTellableLoad};

use media_check::MediaSet;
use media_lists::LoadEntry;

/// Each media set that is in memory can be told: each entry of its list of loads has a name and a
/// part number, and each of its files is bytes, no more than a request can tell the length of. It
/// changes nothing, takes no memory, and looks at each entry and each file once.
pub fn can_be_told(set: &MediaSet)
    ensures { CanBeTold (media_of (set_view set.now)) }
{
    // For the proof: does nothing.
    set.files_are_bytes();
    if let Some(list) = set.loads() {
        entries_fit(list.loads.as_slice());
    }
}

fn entries_fit(entries: &[LoadEntry])
    ensures { AllByRecursion IsTellableLoad entries.now }
{
    for entry in entries {
        entry_fits(entry);
    }
}

/// The name and the part number are such by their types.
fn entry_fits(entry: &LoadEntry)
    ensures { IsTellableLoad entry.now }
{
    let _name = entry.header_name.as_slice();
    let _part = entry.part.as_slice();
}
