//! The encoders of the two media lists.
ghost use Rattle.std.specs.Prelude.{◌≡◌, ◌+◌, ◌<◌, ◌≤◌, ◌/◌, IfOk};
ghost use Rattle.media_lists.specs.Files.{files_list_view, IsFilesList, FilesSpells};
ghost use Rattle.media_lists.specs.Loads.{loads_list_view, IsLoadsList, LoadsSpells};
ghost use Rattle.media_lists.specs.declared.reading.Pointers.{Pointers};

use crate::lists::{FILES_VERSION, FilesList, LOADS_VERSION, LoadsList};
use crate::measuring::list_size;
use crate::reading::Pointers;
use crate::writing::{put_head, put_identity};
use field_codec::Writer;
use header_sections::{entries_size, put_entries, put_user, with_check_sum};
use load_base::{Bytes, NoMemory};
use std::alloc::Global;

/// The words at which the sections begin, where that of the entries takes this many bytes.
pub fn pointers_of(entries: u64) -> Pointers
    requires { entries ≤ 1048576 }
    ensures { result ≡ record { set = 10; entries = 20; user = (40 + entries) / 2 } }
{
    Pointers {
        set: 10,
        entries: 20,
        user: ((40 + entries) / 2) as u32,
    }
}

/// The bytes of a list of files that meets the limits.
pub(crate) fn files_bytes(alloc: Global, list: &FilesList) -> Result<Bytes, NoMemory>
    requires { IsFilesList (files_list_view list.now) }
    ensures { IfOk result (λ bytes. FilesSpells (files_list_view list.now) bytes.items) }
{
    let entries = entries_size(list.files.as_slice());
    let size = list_size(entries, list.user.len()) as u32;
    let mut out = Writer::new(alloc);
    put_head(&mut out, FILES_VERSION, size, pointers_of(entries))?;
    put_identity(&mut out, &list.set, list.member, list.members)?;
    put_entries(&mut out, list.files.as_slice())?;
    put_user(&mut out, list.user.as_slice())?;
    let whole = with_check_sum(alloc, out.finish())?;
    Ok(whole)
}

/// The bytes of a list of loads that meets the limits.
pub(crate) fn loads_bytes(alloc: Global, list: &LoadsList) -> Result<Bytes, NoMemory>
    requires { IsLoadsList (loads_list_view list.now) }
    ensures { IfOk result (λ bytes. LoadsSpells (loads_list_view list.now) bytes.items) }
{
    let entries = entries_size(list.loads.as_slice());
    let size = list_size(entries, list.user.len()) as u32;
    let mut out = Writer::new(alloc);
    put_head(&mut out, LOADS_VERSION, size, pointers_of(entries))?;
    put_identity(&mut out, &list.set, list.member, list.members)?;
    put_entries(&mut out, list.loads.as_slice())?;
    put_user(&mut out, list.user.as_slice())?;
    let whole = with_check_sum(alloc, out.finish())?;
    Ok(whole)
}
