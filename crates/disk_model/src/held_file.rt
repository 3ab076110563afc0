//! The file of a disk, which one run has to itself, and of which a power loss leaves what is read.
//! Only `LockedFile::synced` makes a `HeldFile`, and only a `HeldFile` is read and written.
ghost use Rattle.std.specs.Prelude.{◌≤◌, length, IfOk, IfSome, OnOk};
ghost use Rattle.disk_model.specs.FilledReads.{IsFilledFrom, ReadsUpTo};

use crate::OpenedFiles;
use crate::opened_files::FileId;
use load_base::{folder_of, read_some, sync_folder, sync_for_reading};
use std::fs::{File, OpenOptions};
use std::io::{self, ErrorKind, Read, Write};
use std::os::unix::fs::{FileExt, FileTypeExt};
use std::rt::Files;

/// The locked file of a disk, which isn't synced yet. No other run has the lock until this one
/// goes, but where neither may write the file.
#[derive(Drop)]
pub(crate) struct LockedFile {
    file: File,
    access: Access,
}

/// The locked and synced file of a disk.
#[derive(Drop)]
pub(crate) struct HeldFile {
    file: File,
    access: Access,
}

/// A file from an offset on. It is read and written there in one call of the system each, and where
/// the file itself stands doesn't matter.
#[derive(Drop)]
struct FileFrom<'f> {
    file: &'f File,
    offset: u64,
}

/// How a file was opened.
#[derive(Clone, Copy, PartialEq)]
enum Access {
    // It may not be written.
    Reading,
    ReadingAndWriting,
    // It was made, so its folder may not have its name yet.
    New,
}

impl LockedFile {
    /// Opens the file of this name and locks it, waiting while another run has the lock; None where
    /// there is none of this name. What is neither a file nor a block device, as a FIFO, is refused
    /// before it is opened; a file that another disk of this run has opened, before it is waited
    /// for; and so is a file that lost its name to another meanwhile.
    pub(crate) fn open<R: Files<File = File>>(
        rt: &R,
        opened: &OpenedFiles,
        name: &str,
    ) -> io::Result<Option<LockedFile>> {
        match open_locked(rt, opened, name) {
            Ok(locked) => Ok(Some(locked)),
            Err(fault) if fault.kind() == ErrorKind::NotFound => Ok(None),
            Err(fault) => Err(fault),
        }
    }

    /// Makes the file of this name, where there was none, and locks it. `AlreadyExists` where
    /// another run made it first, or wrote it before it was locked.
    pub(crate) fn create<R: Files<File = File>>(
        rt: &R,
        opened: &OpenedFiles,
        name: &str,
    ) -> io::Result<LockedFile> {
        let mut how = OpenOptions::new();
        how.read(true).write(true).create_new(true);
        let file = open_above_standard(rt, &how, name)?;
        file.lock()?;
        if !is_empty(&file)? {
            return Err(io::Error::from(ErrorKind::AlreadyExists));
        }
        opened.add(FileId::of_opened(&file)?)?;
        Ok(LockedFile {
            file,
            access: Access::New,
        })
    }

    /// Syncs the file and its folder: a run that was killed may have left writes that a power loss
    /// would take, and what is built on them with them.
    pub(crate) fn synced<R: Files<File = File>>(self, rt: &R, name: &str) -> io::Result<HeldFile> {
        let LockedFile { file, access } = self;
        sync(&file, access)?;
        sync_folder(rt, folder_of(name), access == Access::New)?;
        Ok(HeldFile { file, access })
    }
}

impl HeldFile {
    /// What lies after the file's end reads as zero.
    pub(crate) fn read_at(&self, at: u32, buf: &mut [u8]) -> io::Result<()> {
        fill_from(&mut self.from(at), buf)
    }

    pub(crate) fn write_at(&self, at: u32, bytes: &[u8]) -> io::Result<()> {
        self.from(at).write_all(bytes)
    }

    pub(crate) fn sync(&self) -> io::Result<()> {
        sync(&self.file, self.access)
    }

    fn from(&self, at: u32) -> FileFrom<'_> {
        FileFrom {
            file: &self.file,
            offset: u64::from(at),
        }
    }
}

impl Read for FileFrom<'_> {
    fn read(&mut self, buf: &mut [u8]) -> io::Result<usize> {
        let count = self.file.read_at(buf, self.offset)?;
        self.offset = self.offset.saturating_add(count as u64);
        Ok(count)
    }
}

impl Write for FileFrom<'_> {
    fn write(&mut self, buf: &[u8]) -> io::Result<usize> {
        let count = self.file.write_at(buf, self.offset)?;
        self.offset = self.offset.saturating_add(count as u64);
        Ok(count)
    }

    fn flush(&mut self) -> io::Result<()> {
        Ok(())
    }
}

/// A file that may be written is opened for both at once, so that one descriptor has the lock, and
/// is synced, read and written.
fn open_locked<R: Files<File = File>>(
    rt: &R,
    opened: &OpenedFiles,
    name: &str,
) -> io::Result<LockedFile> {
    if !may_be_disk(rt, name)? {
        return Err(io::Error::from(ErrorKind::Other));
    }
    let mut how = OpenOptions::new();
    how.read(true).write(true);
    match open_above_standard(rt, &how, name) {
        Ok(file) => locked(rt, opened, name, file, Access::ReadingAndWriting),
        Err(fault) if may_not_be_written(fault.kind()) => locked_for_reading(rt, opened, name),
        Err(fault) => Err(fault),
    }
}

fn locked_for_reading<R: Files<File = File>>(
    rt: &R,
    opened: &OpenedFiles,
    name: &str,
) -> io::Result<LockedFile> {
    let mut how = OpenOptions::new();
    how.read(true);
    let file = open_above_standard(rt, &how, name)?;
    locked(rt, opened, name, file, Access::Reading)
}

/// The file may have lost its name to another one while it was opened or waited for.
fn locked<R: Files<File = File>>(
    rt: &R,
    opened: &OpenedFiles,
    name: &str,
    file: File,
    access: Access,
) -> io::Result<LockedFile> {
    let held = FileId::of_opened(&file)?;
    if opened.has(held) {
        return Err(io::Error::from(ErrorKind::Other));
    }
    lock(&file, access)?;
    if FileId::of(&rt.metadata(name)?) != held {
        return Err(io::Error::from(ErrorKind::Other));
    }
    opened.add(held)?;
    Ok(LockedFile { file, access })
}

/// Of a file that may not be written the lock is shared: some network file systems grant no other
/// for reading alone.
fn lock(file: &File, access: Access) -> io::Result<()> {
    match access {
        Access::Reading => file.lock_shared(),
        _ => file.lock(),
    }
}

fn may_be_disk<R: Files<File = File>>(rt: &R, name: &str) -> io::Result<bool> {
    let found = rt.metadata(name)?;
    Ok(found.is_file() || found.file_type().is_block_device())
}

fn is_empty(file: &File) -> io::Result<bool> {
    Ok(file.metadata()?.len() == 0)
}

fn may_not_be_written(kind: ErrorKind) -> bool {
    matches!(
        kind,
        ErrorKind::PermissionDenied | ErrorKind::ReadOnlyFilesystem
    )
}

/// Where standard output is closed the system gives its descriptor to the next file that is opened,
/// and output would go into the disk. A clone's descriptor is 3 at least, and has the same lock.
fn open_above_standard<R: Files<File = File>>(
    rt: &R,
    how: &OpenOptions,
    name: &str,
) -> io::Result<File> {
    rt.open_file(how, name)?.try_clone()
}

fn sync(file: &File, access: Access) -> io::Result<()> {
    if access == Access::Reading {
        return sync_for_reading(file);
    }
    file.sync_all()
}

/// Fills the buffer with what the file has, and with zeros after its end.
fn fill_from<F: Read>(file: &mut F, buf: &mut [u8]) -> io::Result<()>
    ensures { OnOk result (IfSome (F.remaining file.old) (λ told. IsFilledFrom told buf.new)) }
{
    let filled = read_up_to(file, buf)?;
    buf[filled..].fill(0);
    Ok(())
}

/// Reads until the buffer is full or the file ends.
fn read_up_to<F: Read>(file: &mut F, buf: &mut [u8]) -> io::Result<usize>
    ensures bound { IfOk result (λ count. count ≤ length buf.new) }
    ensures bytes { IfOk result (λ count. IfSome (F.remaining file.old)
        (λ told. ReadsUpTo told count buf.new)) }
{
    let mut filled = 0;
    while filled < buf.len() {
        let count = read_some(file, &mut buf[filled..])?;
        if count == 0 {
            break;
        }
        filled += count;
    }
    Ok(filled)
}
