//! What is left of an installation that is cut off: where a call fails, and at each moment.
ghost use Rattle.std.specs.Prelude.{◌≡◌, ◌+◌, ◌≤◌, false, length, OnOk};
ghost use Rattle.load_base.specs.Host.{longest_file};
ghost use Rattle.disk_model.specs.MemDisk.{state_of};
ghost use Rattle.bank_store.specs.Store.{IsFilling, SameActive, bytes_appended, file_ended};
ghost use Rattle.bank_store.specs.declared.stage.Filling.{Filling};

use bank_store::StoreFault;
use disk_model::{Call, Disk, MemDisk, Note};
use load_base::{Load, Name, StoredFile};
use recovery::{RecoverFault, Standing, Store, recover};
use std::alloc::Global;
use std::test::Fail;

/// The bytes of a disk with banks of 4096 bytes.
pub(super) const WHOLE: usize = 16_384;

/// An installation that is tried.
pub(super) trait Installation {
    /// The disk that it begins on.
    fn before() -> [u8; WHOLE];

    /// What it answers on that disk.
    fn install(alloc: Global, disk: &mut MemDisk) -> Result<Result<(), StoreFault>, Fail>
        requires { (state_of disk.old).stopped ≡ false };

    /// Whether it is the configuration of that disk.
    fn is_old(standing: &Standing) -> bool;

    /// Whether it is the one that is installed.
    fn is_new(standing: &Standing) -> bool;
}

/// Puts bytes at an offset, where they end within the disk.
pub(super) fn put(disk: &mut [u8], at: usize, bytes: &[u8]) {
    if at <= disk.len() && bytes.len() <= disk.len() - at {
        disk[at..at + bytes.len()].copy_from_slice(bytes);
    }
}

/// What a file is to have: its name and its bytes.
pub(super) type Wanted<'a> = (&'a [u8], &'a [u8]);

fn has_files(files: &[StoredFile], wanted: &[Wanted]) -> bool {
    if files.len() != wanted.len() {
        return false;
    }
    for (file, (name, bytes)) in files.iter().zip(wanted) {
        if file.name.as_slice() != *name || file.bytes.as_slice() != *bytes {
            return false;
        }
    }
    true
}

/// It has this type id, this part number and these files, of which the first is its header.
pub(super) fn is_load(load: &Load, type_id: Option<u16>, part: &[u8], files: &[Wanted]) -> bool {
    let Some((header, _)) = files.first() else {
        return false;
    };
    load.type_id == type_id
        && load.part.as_slice() == part
        && load.header_name.as_slice() == *header
        && has_files(load.files.as_slice(), files)
}

/// It is that of the target of these tests, with this bank and this sequence number.
pub(super) fn is_active(standing: &Standing, bank: u8, sequence: u32) -> bool {
    standing.identity.hw.as_slice() == b"HW1".as_slice()
        && standing.identity.pos.as_slice() == b"L".as_slice()
        && standing.identity.serial.as_slice() == b"SN1".as_slice()
        && standing.identity.bank == 4096
        && standing.bank == bank
        && standing.sequence == sequence
}

/// A file of these two pieces.
pub(super) fn put_file(
    store: &mut Store,
    disk: &mut MemDisk,
    name: Name,
    first: &[u8],
    second: &[u8],
) -> Result<(), StoreFault>
    requires filling { (progress : Filling) × IsFilling store.old progress
        × (1 ≤ progress.missing) × (progress.start ≡ progress.end) }
    requires short { length first.now + length second.now ≤ longest_file }
    requires running { (state_of disk.old).stopped ≡ false }
    ensures goes_on { OnOk result ((progress : Filling) → IsFilling store.old progress
        → IsFilling store.new (file_ended (bytes_appended (length second.now) (bytes_appended
        (length first.now) progress)))) }
    ensures active { OnOk result (SameActive store.old store.new) }
    ensures running { OnOk result ((state_of disk.new).stopped ≡ false) }
{
    store.append(disk, first)?;
    store.append(disk, second)?;
    store.end_file(name)?;
    Ok(())
}

/// Whether it is the old configuration, and whether it is the new.
fn old_or_new<I: Installation>(
    alloc: Global,
    disk: &mut MemDisk,
) -> Result<(bool, bool), RecoverFault>
    requires { (state_of disk.old).stopped ≡ false }
{
    let standing = recover(alloc, disk)?;
    let found = (I::is_old(&standing), I::is_new(&standing));
    drop(standing);
    Ok(found)
}

/// What the installation answers of which this call fails; a survey makes four calls before it. And
/// whether a restart leaves the old configuration then, and whether the new.
type Left = (Result<(), StoreFault>, (bool, bool));

pub(super) fn failing<I: Installation>(alloc: Global, call: u32) -> Result<Left, Fail> {
    let mut disk = MemDisk::new(alloc, &I::before())?;
    let left = fail_and_restart::<I>(alloc, &mut disk, call);
    drop(disk);
    left
}

fn fail_and_restart<I: Installation>(
    alloc: Global,
    disk: &mut MemDisk,
    call: u32,
) -> Result<Left, Fail>
    requires { (state_of disk.old).stopped ≡ false }
{
    disk.fail_at(call.saturating_add(4))?;
    let answer = I::install(alloc, disk)?;
    disk.restart()?;
    Ok((answer, old_or_new::<I>(alloc, disk)?))
}

/// How many of these calls come until the last sync has ended.
fn until_sync(notes: &[Note]) -> usize {
    match notes
        .iter()
        .rposition(|note| matches!(note.call, Call::Sync))
    {
        Some(last) => last + 1,
        None => 0,
    }
}

/// Makes the write that was noted.
fn make(disk: &mut [u8], note: &Note) {
    if let Call::Write { at, bytes } = &note.call {
        put(disk, *at as usize, bytes.as_slice());
    }
}

/// Puts other bytes than those of the write that was noted.
fn spoil(disk: &mut [u8], note: &Note) {
    let Call::Write { at, bytes } = &note.call else {
        return;
    };
    let at = *at as usize;
    if at <= disk.len() && bytes.len() <= disk.len() - at {
        disk[at..at + bytes.len()].fill(0x5A);
    }
}

/// What a disk of these bytes holds after these calls.
fn after(before: &[u8; WHOLE], notes: &[Note]) -> [u8; WHOLE] {
    let mut image = *before;
    for note in notes {
        make(&mut image, note);
    }
    image
}

/// What it holds where of each of these writes, by the digits of `pick` to the base 3, nothing
/// came, its bytes, or others.
fn left_by(before: &[u8; WHOLE], writes: &[Note], pick: u32) -> [u8; WHOLE] {
    let mut image = *before;
    let mut digits = pick;
    for note in writes {
        match digits % 3 {
            0 => {}
            1 => make(&mut image, note),
            _ => spoil(&mut image, note),
        }
        digits /= 3;
    }
    image
}

/// How many ways there are to let nothing, its bytes or others come of each of these writes.
fn ways(writes: &[Note]) -> u32 {
    let mut ways = 1u32;
    for _ in writes {
        ways = ways.saturating_mul(3);
    }
    ways
}

/// Of a disk of these bytes after these calls: how many images a power loss may leave, where each
/// write since the last sync has left nothing, its bytes or others, and how many of these are
/// recovered as the new configuration. Each other one has to be recovered as the old.
fn images_after<I: Installation>(
    alloc: Global,
    before: &[u8; WHOLE],
    notes: &[Note],
) -> Result<(u32, u32), Fail> {
    let end = until_sync(notes);
    let settled = after(before, notes.get(..end).unwrap_or(notes));
    let writes = notes.get(end..).unwrap_or(&[]);
    let images = ways(writes);
    let mut new = 0u32;
    for pick in 0..images {
        let image = left_by(&settled, writes, pick);
        let (is_old, is_new) = held_by::<I>(alloc, &image)?;
        if is_new {
            new = new.saturating_add(1);
        } else if !is_old {
            return Err(Fail::new("neither the old nor the new configuration"));
        }
    }
    Ok((images, new))
}

/// Whether a disk of these bytes holds the old configuration, and whether the new.
fn held_by<I: Installation>(alloc: Global, image: &[u8; WHOLE]) -> Result<(bool, bool), Fail> {
    let mut disk = MemDisk::new(alloc, image)?;
    let held = old_or_new::<I>(alloc, &mut disk);
    drop(disk);
    Ok(held?)
}

/// How many images there are at each moment of an installation that shuts the other slot, makes
/// seven writes and a sync, and opens the slot; and how many of them are of the new configuration.
pub(super) const SEVEN_WRITES: [(u32, u32); 13] = [
    (1, 0),
    (3, 0),
    (1, 0),
    (3, 0),
    (9, 0),
    (27, 0),
    (81, 0),
    (243, 0),
    (729, 0),
    (2187, 0),
    (1, 0),
    (3, 1),
    (1, 1),
];

/// At how many moments of these calls there are as many images, and as many of the new
/// configuration, as are wanted; and how many images there are.
fn agree<I: Installation>(
    alloc: Global,
    notes: &[Note],
    wanted: &[(u32, u32)],
) -> Result<(usize, u32), Fail> {
    let (mut moments, mut images) = (0usize, 0u32);
    for (calls, wanted) in wanted.iter().enumerate() {
        let made = notes.get(..calls).unwrap_or(&[]);
        let found = images_after::<I>(alloc, &I::before(), made)?;
        if found == *wanted {
            moments = moments.saturating_add(1);
        }
        images = images.saturating_add(found.0);
    }
    Ok((moments, images))
}

/// How many calls an installation makes that change the disk, and what `agree` says of them. At
/// each moment, told by the calls that have ended or begun: a moment inside a write has the images
/// from before it and those after it, and one inside a sync those from before it.
pub(super) fn moments<I: Installation>(
    alloc: Global,
    wanted: &[(u32, u32)],
) -> Result<(usize, (usize, u32)), Fail> {
    let mut disk = MemDisk::new(alloc, &I::before())?;
    let found = moments_on::<I>(alloc, &mut disk, wanted);
    drop(disk);
    found
}

fn moments_on<I: Installation>(
    alloc: Global,
    disk: &mut MemDisk,
    wanted: &[(u32, u32)],
) -> Result<(usize, (usize, u32)), Fail>
    requires { (state_of disk.old).stopped ≡ false }
{
    I::install(alloc, disk)??;
    Ok((disk.notes().len(), agree::<I>(alloc, disk.notes(), wanted)?))
}
