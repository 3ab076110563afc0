//! The names that the host has for the files of a set.
ghost use Rattle.std.specs.Prelude.{◌≡◌, ◌++◌, map, OnOk, IfOk};
ghost use Rattle.media_check.specs.HostNames.{host_name as name_of, slashed as slashed_byte};

use load_base::{Bytes, NoMemory};
use printed_text::put_number;
use std::alloc::Global;

/// The host's name of a file of this member: the folder, `/`, the member in decimal, the path with
/// `/` for `\`, and the name (docs/FORMATS.md).
#[tactic(auto, unfolding(crate::specs::HostNames::host_name))]
pub fn host_name(
    alloc: Global,
    folder: &[u8],
    member: u16,
    path: &[u8],
    name: &[u8],
) -> Result<Bytes, NoMemory>
    ensures { IfOk result (λ whole. whole.items ≡ name_of folder.now member path.now name.now) }
{
    let mut whole = Bytes::new(alloc);
    whole.extend(folder)?;
    whole.extend(b"/")?;
    put_number(alloc, &mut whole, u64::from(member))?;
    put_slashed(&mut whole, path)?;
    whole.extend(name)?;
    Ok(whole)
}

fn put_slashed(out: &mut Bytes, path: &[u8]) -> Result<(), NoMemory>
    ensures { OnOk result (out.new.items ≡ out.old.items ++ map slashed_byte path.now) }
{
    for byte in path {
        out.push(slashed(*byte))?;
    }
    Ok(())
}

fn slashed(byte: u8) -> u8
    ensures { result ≡ slashed_byte byte }
{
    if byte == b'\\' { b'/' } else { byte }
}
