//! The check sums of the listed files, each taken once.
ghost use Rattle.std.specs.Prelude.{◌≡◌, option_map, IfOk, IfSome};
ghost use Rattle.crc_fields.specs.CheckSums.{crc16_of};
ghost use Rattle.media_check.specs.Findings.{file_sums};
ghost use Rattle.media_check.specs.Kept.{bytes_view, contents};
ghost use Rattle.media_check.specs.Sets.{set_view, file_view, find};

use crate::set::{KeptFile, MediaSet};
use crc_fields::crc16;
use load_base::{List, Name, NoMemory};
use std::alloc::Global;

/// The CRC-16 of each listed file, in the order of the list; of one that is absent, that of no
/// bytes.
pub(crate) fn sums_of(alloc: Global, set: &MediaSet) -> Result<List<u16>, NoMemory>
    ensures { IfOk result (λ sums. sums.items ≡ file_sums (set_view set.now)) }
{
    let mut sums = List::new(alloc);
    for file in set.files.values() {
        sums.push(sum_of(file))?;
    }
    Ok(sums)
}

fn sum_of(file: &KeptFile) -> u16
    ensures { result ≡ crc16_of (contents (bytes_view file.now.bytes)) }
{
    match &file.bytes {
        Some(bytes) => crc16(bytes.as_slice()),
        None => crc16(b""),
    }
}

/// The listed file of this name, with its CRC-16.
pub(crate) fn summed_file<'s>(
    set: &'s MediaSet,
    sums: &'s [u16],
    name: &Name,
) -> Option<(&'s KeptFile, u16)>
    requires { sums.now ≡ file_sums (set_view set.now) }
    ensures found { option_map (λ found. file_view found.0.now) result
        ≡ find (set_view set.now) name.now }
    ensures sum { IfSome result (λ found. found.1
        ≡ crc16_of (contents (bytes_view found.0.now.bytes))) }
{
    match set.files.get_full(name) {
        Some((index, _, file)) => Some((file, sums[index])),
        None => None,
    }
}
