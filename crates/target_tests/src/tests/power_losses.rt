//! What a loss of power may leave of an upload, at each of its moments.
ghost use Rattle.std.specs.Prelude.{◌≡◌, true};
ghost use Rattle.bank_store.specs.DiskWrites.{IsRunning};
ghost use Rattle.disk_model.specs.MemDisk.{state_of};

use super::sessions::{formatted, ident};
use accept_rules::{Interlock, PermitsAll};
use disk_model::{Call, MemDisk, Note};
use load_base::{Load, StoredFile};
use recovery::{Standing, recover};
use std::alloc::Global;
use std::test::Fail;
use target_machine::Target;
use worked_files::{ACK_0, ACK_1, APP_HEADER};

/// The bytes of a disk with banks of 4096 bytes.
const WHOLE: usize = 16_384;

/// The load's header, as a datagram brings it.
fn header() -> [u8; 126] {
    let mut bytes = [0; 126];
    bytes[..4].copy_from_slice(b"\0\x03\0\x01");
    bytes[4..].copy_from_slice(&APP_HEADER);
    bytes
}

/// Its file, as a datagram brings it.
const FILE: &[u8] = b"\0\x03\0\x01123456789";

const ASKS_LUI: &[u8] = b"\0\x01HW1_L.LUI\0octet\0";

const ASKS_LUR: &[u8] = b"\0\x02HW1_L.LUR\0octet\0";

const LUR: &[u8] = b"\0\x03\0\x01\0\0\0\x20\x41\x33\0\x01\x07APP.LUH\x0FABC41-0000-0001";

/// Puts bytes at an offset, where they end within the disk.
fn put(image: &mut [u8; WHOLE], at: usize, bytes: &[u8]) {
    if at <= image.len() && bytes.len() <= image.len() - at {
        image[at..at + bytes.len()].copy_from_slice(bytes);
    }
}

/// What an unsynced write leaves: nothing, its bytes, or others.
fn leave(image: &mut [u8; WHOLE], note: &Note, way: u32) {
    let Call::Write { at, bytes } = &note.call else {
        return;
    };
    let (at, bytes) = (*at as usize, bytes.as_slice());
    match way {
        0 => {}
        1 => put(image, at, bytes),
        _ if at <= image.len() && bytes.len() <= image.len() - at => {
            image[at..at + bytes.len()].fill(0x5A);
        }
        _ => {}
    }
}

/// The disk after these calls, of which each write is left in the way of its digit to the base 3.
fn left(before: &[u8; WHOLE], notes: &[Note], ways: u32) -> [u8; WHOLE] {
    let mut image = *before;
    let mut digits = ways;
    for note in notes {
        leave(&mut image, note, digits % 3);
        digits /= 3;
    }
    image
}

pub(crate) fn is_file(file: &StoredFile, name: &[u8], bytes: &[u8]) -> bool {
    file.name.as_slice() == name && file.bytes.as_slice() == bytes
}

fn is_load(load: &Load) -> bool {
    let files = load.files.as_slice();
    load.part.as_slice() == b"ABC41-0000-0001".as_slice()
        && files.len() == 2
        && is_file(&files[0], b"APP.LUH", &APP_HEADER)
        && is_file(&files[1], b"APP.BIN", &FILE[4..])
}

/// Whether it is the configuration that the upload brings, or, if not, whether it is the one
/// before.
fn is_new(standing: &Standing) -> Result<bool, Fail> {
    let loads = standing.config.loads.as_slice();
    match (standing.bank, standing.sequence, loads.len()) {
        (0, 1, 0) => Ok(false),
        (1, 2, 1) if is_load(&loads[0]) => Ok(true),
        _ => Err(Fail::new("neither the old nor the new configuration")),
    }
}

/// The disk after these calls, of which each write is synced.
fn synced(before: &[u8; WHOLE], notes: &[Note]) -> [u8; WHOLE] {
    let mut image = *before;
    for note in notes {
        leave(&mut image, note, 1);
    }
    image
}

/// How many of these calls come until the last sync has ended.
fn until_sync(notes: &[Note]) -> usize {
    let last = notes
        .iter()
        .rposition(|note| matches!(note.call, Call::Sync));
    last.map_or(0, |last| last + 1)
}

/// How many images a power loss may leave after these calls, where each write since the last sync
/// has left nothing, its bytes or others, and how many of these are recovered as the new
/// configuration. Each other one has to be recovered as the old.
fn images_after(alloc: Global, before: &[u8; WHOLE], notes: &[Note]) -> Result<(u32, u32), Fail> {
    let end = until_sync(notes);
    let settled = synced(before, notes.get(..end).unwrap_or(notes));
    let writes = notes.get(end..).unwrap_or(&[]);
    let mut images = 1u32;
    for _ in writes {
        images = images.saturating_mul(3);
    }
    let mut new = 0u32;
    for ways in 0..images {
        if is_new_on(alloc, &left(&settled, writes, ways))? {
            new = new.saturating_add(1);
        }
    }
    Ok((images, new))
}

/// Whether a disk of these bytes holds the new configuration, or, if not, the old.
fn is_new_on(alloc: Global, image: &[u8; WHOLE]) -> Result<bool, Fail> {
    let mut disk = MemDisk::new(alloc, image)?;
    let standing = recover(alloc, &mut disk);
    drop(disk);
    let standing = standing?;
    let found = is_new(&standing);
    drop(standing);
    found
}

/// The target hears this datagram, from one port to another.
fn hears(
    target: &mut Target<'_, PermitsAll>,
    disk: &mut MemDisk,
    datagram: (u16, u16, &[u8]),
) -> bool
    requires { IsRunning (state_of disk.old) }
    ensures { result ≡ true → IsRunning (state_of disk.new) }
{
    let posts = target.on_datagram(disk, datagram.0, datagram.1, datagram.2);
    let is_heard = posts.is_ok();
    drop(posts);
    is_heard
}

/// It hears what the loader posts in an upload of that load, after which its session is over.
fn uploads(target: &mut Target<'_, PermitsAll>, disk: &mut MemDisk) -> bool
    requires { IsRunning (state_of disk.old) }
{
    hears(target, disk, (1024, 59, ASKS_LUI))
        && hears(target, disk, (1024, 1024, ACK_1))
        && hears(target, disk, (1025, 1025, ACK_0))
        && hears(target, disk, (1025, 1025, ACK_1))
        && hears(target, disk, (1026, 59, ASKS_LUR))
        && hears(target, disk, (1026, 1026, LUR))
        && hears(target, disk, (1027, 1027, &header()))
        && hears(target, disk, (1028, 1028, FILE))
        && hears(target, disk, (1029, 1029, ACK_0))
        && hears(target, disk, (1029, 1029, ACK_1))
        && !target.waits()
}

fn upload(alloc: Global, disk: &mut MemDisk) -> bool
    requires { IsRunning (state_of disk.old) }
{
    let interlock = Interlock::new(PermitsAll);
    match Target::boot(alloc, disk, &interlock, 1024) {
        Ok(mut target) => {
            let is_done = uploads(&mut target, disk);
            drop(target);
            is_done
        }
        refused => {
            drop(refused);
            false
        }
    }
}

/// The bytes of a formatted disk without loads.
fn first_bytes(alloc: Global) -> Result<[u8; WHOLE], Fail> {
    let disk = formatted(alloc, ident(b"HW1")?, ident(b"L")?, ident(b"SN1")?)?;
    let mut bytes = [0; WHOLE];
    put(&mut bytes, 0, disk.as_slice());
    drop(disk);
    Ok(bytes)
}

/// How many calls an upload makes, at how many moments of it there are as many images, and as many
/// of the new configuration, as are wanted.
fn moments(
    alloc: Global,
    disk: &mut MemDisk,
    before: &[u8; WHOLE],
    wanted: &[(u32, u32)],
) -> Result<(usize, usize), Fail>
    requires { IsRunning (state_of disk.old) }
{
    if !upload(alloc, disk) {
        return Err(Fail::new("the upload isn't done"));
    }
    let mut moments = 0usize;
    for (calls, wanted) in wanted.iter().enumerate() {
        let made = disk.notes().get(..calls).unwrap_or(&[]);
        if images_after(alloc, before, made)? == *wanted {
            moments = moments.saturating_add(1);
        }
    }
    Ok((disk.notes().len(), moments))
}

/// At each moment of an upload, told by the calls of the disk that have ended or begun. A moment
/// inside a write has the images from before it and those after it, and one inside a sync those
/// from before it. The writes are the header, the file, the manifest, the slot's body and its gate.
#[test]
fn each_image_of_an_upload_is_old_or_new(rt: HostRuntime) -> Result<(), Fail> {
    let wanted = [
        (1, 0),
        (1, 0),
        (3, 0),
        (9, 0),
        (27, 0),
        (81, 0),
        (243, 0),
        (1, 0),
        (3, 1),
        (1, 1),
    ];
    let before = first_bytes(rt.alloc())?;
    let mut disk = MemDisk::new(rt.alloc(), &before)?;
    let found = moments(rt.alloc(), &mut disk, &before, &wanted);
    drop(disk);
    assert_eq!(rt; found?, (9, 10));
    Ok(())
}
