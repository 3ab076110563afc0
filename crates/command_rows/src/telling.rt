//! How what came of a run is told.
use crc_fields::crc32;
use load_base::{Bytes, NoMemory};
use std::alloc::Global;

/// Tells an output line by line: `|` and a line that ends, or `+` and what comes after the last.
pub(crate) fn tell_output(output: &[u8], told: &mut Bytes) -> Result<(), NoMemory> {
    for line in output.split_inclusive(|byte| *byte == b'\n') {
        if line.ends_with(b"\n") {
            told.extend(b"|")?;
            told.extend(line)?;
        } else {
            told.extend(b"+")?;
            told.extend(line)?;
            told.extend(b"\n")?;
        }
    }
    Ok(())
}

/// Tells the name, the length and the CRC-32 of a file.
pub(crate) fn tell_file(
    alloc: Global,
    name: &str,
    bytes: &[u8],
    told: &mut Bytes,
) -> Result<(), NoMemory> {
    let (count, sum) = (bytes.len(), crc32(bytes));
    let line = format!(in alloc; "file {name} {count} {sum:08X}\n")?;
    told.extend(line.as_bytes())
}

/// Tells bytes of the disk in hexadecimal.
pub(crate) fn tell_bytes(
    alloc: Global,
    at: u32,
    bytes: &[u8],
    told: &mut Bytes,
) -> Result<(), NoMemory> {
    let digits = hex::encode(alloc, bytes)?;
    let line = format!(in alloc; "range {at} {digits}\n")?;
    told.extend(line.as_bytes())
}
