//! Reads from a disk.
ghost use Rattle.std.specs.Prelude.{◌≡◌, ◌+◌, ◌≤◌, ℕ, false, length, OnOk, IfOk, IfErr};
ghost use Rattle.std.specs.Option.{ForSome};
ghost use Rattle.disk_model.specs.Image.{range};
ghost use Rattle.disk_layout.specs.DiskReads.{IsOfDisk, ReadsDisk};
ghost use Rattle.recovery.specs.Parts.{IsSumAt};

use crc_fields::Crc16;
use disk_layout::RecoverFault;
use disk_model::{Disk, SIZE};
use load_base::Bytes;
use std::alloc::Global;

/// How many bytes are read at once, at most.
pub(crate) const PIECE: usize = 65_536;

/// Fills `buf` from the disk, in pieces. A fault of the disk is one of its recovery, and says
/// nothing of what stands there.
pub(crate) fn read_from<K: Disk>(disk: &mut K, at: u32, buf: &mut [u8]) -> Result<(), RecoverFault>
    requires running { (K.state disk.old).stopped ≡ false }
    requires within { at + length buf.old ≤ SIZE }
    ensures bytes { OnOk result (ForSome (K.state disk.old).reads
        (λ image. buf.new ≡ range image at (length buf.old))) }
    ensures refused { IfErr result (λ fault. IsOfDisk fault) }
    ensures reads_disk { ReadsDisk (K.state disk.old) (K.state disk.new) result }
{
    let mut done = 0;
    while done < buf.len() {
        let end = buf.len().min(done + PIECE);
        read_piece(disk, at + done as u32, &mut buf[done..end])?;
        done = end;
    }
    Ok(())
}

/// Fills `buf` from the disk by one call.
fn read_piece<K: Disk>(disk: &mut K, at: u32, buf: &mut [u8]) -> Result<(), RecoverFault>
    requires running { (K.state disk.old).stopped ≡ false }
    requires within { at + length buf.old ≤ SIZE }
    ensures bytes { OnOk result (ForSome (K.state disk.old).reads
        (λ image. buf.new ≡ range image at (length buf.old))) }
    ensures refused { IfErr result (λ fault. IsOfDisk fault) }
    ensures reads_disk { ReadsDisk (K.state disk.old) (K.state disk.new) result }
{
    match disk.read(at, buf) {
        Ok(()) => Ok(()),
        Err(fault) => Err(RecoverFault::from(fault)),
    }
}

/// This many bytes from an offset on.
pub(crate) fn bytes_on<K: Disk>(
    alloc: Global,
    disk: &mut K,
    at: u32,
    count: u32,
) -> Result<Bytes, RecoverFault>
    requires running { (K.state disk.old).stopped ≡ false }
    requires within { at + count ≤ SIZE }
    ensures bytes { IfOk result (λ bytes. ForSome (K.state disk.old).reads
        (λ image. bytes.items ≡ range image at count)) }
    ensures size { IfOk result (λ bytes. length bytes.items ≡ count) }
    ensures refused { IfErr result (λ fault. IsOfDisk fault) }
    ensures reads_disk { ReadsDisk (K.state disk.old) (K.state disk.new) result }
{
    let Ok(mut bytes) = Vec::from_elem(alloc, 0, count as usize) else {
        return Err(RecoverFault::Memory);
    };
    read_from(disk, at, bytes.as_mut_slice())?;
    Ok(Bytes::from(bytes))
}

/// The check sum of this many bytes from an offset on, read in pieces as long as the buffer.
pub(crate) fn sum_on<K: Disk>(
    disk: &mut K,
    at: u32,
    count: u32,
    buffer: &mut [u8],
) -> Result<u16, RecoverFault>
    requires running { (K.state disk.old).stopped ≡ false }
    requires within { at + count ≤ SIZE }
    requires buffer { 1 ≤ length buffer.old }
    ensures sum { IfOk result (λ sum. IsSumAt (K.state disk.old).reads at count sum) }
    ensures refused { IfErr result (λ fault. IsOfDisk fault) }
    ensures reads_disk { ReadsDisk (K.state disk.old) (K.state disk.new) result }
{
    let mut sum = Crc16::new();
    let mut done = 0u32;
    while done < count {
        let piece = buffer.len().min((count - done) as usize);
        add_piece(disk, at + done, &mut buffer[..piece], &mut sum)?;
        done += piece as u32;
    }
    Ok(sum.value())
}

/// Adds what stands at an offset to a check sum, as much as the buffer takes.
fn add_piece<K: Disk>(
    disk: &mut K,
    at: u32,
    buffer: &mut [u8],
    sum: &mut Crc16,
) -> Result<(), RecoverFault>
    requires running { (K.state disk.old).stopped ≡ false }
    requires within { at + length buffer.old ≤ SIZE }
    ensures sum { (start done : ℕ) → start + done ≡ at
        → IsSumAt (K.state disk.old).reads start done sum.old
        → OnOk result (IsSumAt (K.state disk.old).reads start (done + length buffer.old) sum.new) }
    ensures refused { IfErr result (λ fault. IsOfDisk fault) }
    ensures reads_disk { ReadsDisk (K.state disk.old) (K.state disk.new) result }
{
    read_piece(disk, at, buffer)?;
    sum.update(buffer);
    Ok(())
}
