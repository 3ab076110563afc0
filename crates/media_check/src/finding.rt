//! What is wrong with a media set.
ghost use Rattle.std.specs.Prelude.{◌≡◌, ◌∷◌, ◌++◌, [], OnOk, IfOk};
ghost use Rattle.load_base.specs.Text.{IsText};
ghost use Rattle.media_check.specs.Findings.{plain, detailed, where_it_holds};

use load_base::{Bytes, List, Name, NoMemory, Text};
use std::alloc::Global;

/// Something that is wrong with a media set (this project's rules, docs/FORMATS.md).
#[derive(Drop)]
pub struct Finding {
    /// The number of its kind, 1 to 19 for M1 to M19.
    pub kind: u8,
    /// The member of the list, or the one that the entry of `FILES.LUM` names; 0 for a file that
    /// isn't listed.
    pub member: u16,
    /// The name of the list or of the file.
    pub file: Text,
    /// The text of the fault of a list, header or batch that is refused, or the part number that no
    /// load has (M19), and else empty.
    pub detail: Text,
}

/// Adds a finding of a file, without a detail.
pub(crate) fn put(
    alloc: Global,
    out: &mut List<Finding>,
    kind: u8,
    member: u16,
    name: &Name,
) -> Result<(), NoMemory>
    ensures { OnOk result (out.new.items ≡ out.old.items ++ plain kind member name.now ∷ []) }
{
    let file = Text::of_name(alloc, name)?;
    out.push(Finding {
        kind,
        member,
        file,
        detail: Text::empty(alloc),
    })
}

/// The same where it holds.
pub(crate) fn put_where(
    alloc: Global,
    out: &mut List<Finding>,
    holds: bool,
    kind: u8,
    member: u16,
    name: &Name,
) -> Result<(), NoMemory>
    ensures { OnOk result (out.new.items ≡ out.old.items
        ++ where_it_holds holds (plain kind member name.now)) }
{
    if holds {
        put(alloc, out, kind, member, name)
    } else {
        Ok(())
    }
}

/// Adds a finding of a list, without a detail, where it holds.
pub(crate) fn put_of_list(
    alloc: Global,
    out: &mut List<Finding>,
    holds: bool,
    kind: u8,
    member: u16,
    name: &[u8],
) -> Result<(), NoMemory>
    requires { IsText name.now }
    ensures { OnOk result (out.new.items ≡ out.old.items
        ++ where_it_holds holds (plain kind member name.now)) }
{
    if !holds {
        return Ok(());
    }
    let file = Text::copy_of(alloc, name)?;
    out.push(Finding {
        kind,
        member,
        file,
        detail: Text::empty(alloc),
    })
}

/// Adds a finding of a list, with a detail.
pub(crate) fn put_detailed_of_list(
    alloc: Global,
    out: &mut List<Finding>,
    kind: u8,
    member: u16,
    name: &[u8],
    detail: Text,
) -> Result<(), NoMemory>
    requires { IsText name.now }
    ensures { OnOk result (out.new.items ≡ out.old.items
        ++ detailed kind member name.now detail ∷ []) }
{
    let file = Text::copy_of(alloc, name)?;
    out.push(Finding {
        kind,
        member,
        file,
        detail,
    })
}

/// Adds a finding of a file, with a detail.
pub(crate) fn put_detailed(
    alloc: Global,
    out: &mut List<Finding>,
    kind: u8,
    member: u16,
    name: &Name,
    detail: Text,
) -> Result<(), NoMemory>
    ensures { OnOk result (out.new.items ≡ out.old.items
        ++ detailed kind member name.now detail ∷ []) }
{
    let file = Text::of_name(alloc, name)?;
    out.push(Finding {
        kind,
        member,
        file,
        detail,
    })
}
