//! What a manifest that stands on a disk says of its loads.
ghost use Rattle.std.specs.Prelude.{◌≡◌, ◌+◌, ◌≤◌, ◌↔◌, [], List, take, IsTrue, OnOk};
ghost use Rattle.std.specs.Option.{ForSome};
ghost use Rattle.field_grammar.specs.Fields.{number_bytes};
ghost use Rattle.field_grammar.specs.Grammar.{Spelled};
ghost use Rattle.disk_model.specs.Image.{range};
ghost use Rattle.disk_layout.specs.Entries.{entry_bytes, typed_loads};
ghost use Rattle.disk_layout.specs.Manifest.{LoadEntry, manifest};
ghost use Rattle.disk_layout.specs.Offsets.{layout_mark, longest_manifest};
ghost use Rattle.bank_store.specs.Bounds.{HasCapacity, KeepsCapacity};
ghost use Rattle.bank_store.specs.DiskWrites.{IsRunning, ReadsUnchanged};

use disk_layout::numbers::u16_bytes;
use disk_layout::offsets::LAYOUT_MARK;
use disk_model::{Disk, DiskFault, SIZE};
use load_base::Bytes;

/// How many bytes stand before what a manifest of layout 2 says of its loads: its mark, and how
/// many loads there are.
const HEAD: usize = 4;

/// How many bytes are read at once, at most.
const PIECE: usize = 512;

/// Reads what the manifest at this offset, of this many bytes, says of its loads, where it says
/// their type ids; of one of layout 1 nothing. It takes no memory. Where a read is refused nothing
/// is kept.
pub(crate) fn read_entries<K: Disk>(
    disk: &mut K,
    at: u32,
    length: u32,
    known: &mut Bytes,
) -> Result<(), DiskFault>
    requires empty { known.old.items ≡ [] }
    requires capacity { HasCapacity known.old }
    requires short { length ≤ longest_manifest }
    requires within { at + length ≤ SIZE }
    requires running { IsRunning (K.state disk.old) }
    ensures said { OnOk result (ForSome (K.state disk.old).reads (λ image.
        (loads : List LoadEntry) → Spelled manifest (range image at length) loads
        → known.new.items ≡ entry_bytes (typed_loads loads))) }
    ensures stays { KeepsCapacity known.new result }
    ensures reads { ReadsUnchanged (K.state disk.old) (K.state disk.new) result }
{
    if length < HEAD as u32 {
        return Ok(());
    }
    let mut head = [0; HEAD];
    disk.read(at, &mut head)?;
    if !is_layout_2(&head) {
        return Ok(());
    }
    read_all(disk, at + HEAD as u32, length - HEAD as u32, known)
}

/// Whether a manifest that begins with these bytes has layout 2.
fn is_layout_2(head: &[u8; HEAD]) -> bool
    ensures { IsTrue result ↔ (take 2 head.now ≡ number_bytes 2 layout_mark) }
{
    let [high, low] = u16_bytes(LAYOUT_MARK);
    head[0] == high && head[1] == low
}

/// Reads this many bytes from an offset on, piece by piece. Where a read is refused none is kept.
fn read_all<K: Disk>(disk: &mut K, at: u32, count: u32, bytes: &mut Bytes) -> Result<(), DiskFault>
    requires empty { bytes.old.items ≡ [] }
    requires capacity { HasCapacity bytes.old }
    requires short { count ≤ longest_manifest }
    requires within { at + count ≤ SIZE }
    requires running { IsRunning (K.state disk.old) }
    ensures bytes { OnOk result (ForSome (K.state disk.old).reads
        (λ image. bytes.new.items ≡ range image at count)) }
    ensures stays { KeepsCapacity bytes.new result }
    ensures reads { ReadsUnchanged (K.state disk.old) (K.state disk.new) result }
{
    let mut piece = [0; PIECE];
    let mut done = 0;
    while done < count {
        let length = (count - done).min(PIECE as u32);
        let piece = &mut piece[..length as usize];
        if let Err(fault) = disk.read(at + done, piece) {
            bytes.clear();
            return Err(fault);
        }
        match bytes.extend(piece) {
            Ok(()) => {}
            // Room for the longest manifest was reserved.
            Err(_) => unreachable!(),
        }
        done += length;
    }
    Ok(())
}
