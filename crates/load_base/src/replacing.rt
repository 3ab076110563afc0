//! Files of the system that are replaced whole: a power loss leaves the old one or the new one.
use crate::folder::{make_folders, sync_folder};
use arrayvec::ArrayString;
use std::fs::{self, File, OpenFile, OpenOptions};
use std::io::{self, ErrorKind, Write};
use std::rt::Files;

/// What a new file is called in its folder until it is whole. No file of a media set begins so.
const UNFINISHED: &str = "/.new";

/// Linux has no longer paths.
const LONGEST_PATH: usize = 4096;

/// The folder that the last file was written into. It is there, and its name is on the medium.
pub(crate) type LastFolder = ArrayString<LONGEST_PATH>;

/// Gives the file of this name these bytes. They are on the medium, and the name too, once it
/// answers Ok; before that the name has its old file, whole, or none, or the new one. Folders that
/// are missing are made. A link of that name is replaced and never followed; what is neither a file
/// nor a link, as a FIFO, is refused.
pub(crate) fn replace_file<R: Files<File = File>>(
    rt: &R,
    last: &mut LastFolder,
    name: &str,
    bytes: &[u8],
) -> io::Result<()> {
    match name.rsplit_once('/') {
        Some(("", _)) => replace_locked(rt, "/", name, bytes),
        Some((folder, _)) => {
            if last.as_str() != folder {
                make_folders(rt, folder)?;
            }
            let replaced = replace_locked(rt, folder, name, bytes);
            last.clear();
            if replaced.is_ok() {
                // A path too long to be kept here is looked for again.
                let _ = last.try_push_str(folder);
            }
            replaced
        }
        // The current folder isn't locked: whoever started this run may have its lock.
        None => replace(rt, ".", name, bytes),
    }
}

/// The lock of the folder keeps other runs from its unfinished file.
fn replace_locked<R: Files<File = File>>(
    rt: &R,
    folder: &str,
    name: &str,
    bytes: &[u8],
) -> io::Result<()> {
    let held = fs::open(rt, folder)?;
    held.lock()?;
    let replaced = replace(rt, folder, name, bytes);
    let unlocked = held.unlock();
    replaced?;
    unlocked
}

fn replace<R: Files<File = File>>(
    rt: &R,
    folder: &str,
    name: &str,
    bytes: &[u8],
) -> io::Result<()> {
    may_be_replaced(rt, name)?;
    let unfinished = unfinished_in(folder)?;
    let renamed = write_and_rename(rt, unfinished.as_str(), name, bytes);
    if renamed.is_err() {
        // What can't be removed here, the next run removes.
        let _ = rt.remove_file(unfinished.as_str());
    }
    renamed?;
    sync_folder(rt, folder, true)
}

fn unfinished_in(folder: &str) -> io::Result<ArrayString<LONGEST_PATH>> {
    let mut path = ArrayString::new();
    if path.try_push_str(folder).is_err() || path.try_push_str(UNFINISHED).is_err() {
        return Err(io::Error::from(ErrorKind::InvalidFilename));
    }
    Ok(path)
}

fn may_be_replaced<R: Files<File = File>>(rt: &R, name: &str) -> io::Result<()> {
    match rt.symlink_metadata(name) {
        Ok(found) if found.is_file() || found.is_symlink() => Ok(()),
        Ok(_) => Err(io::Error::from(ErrorKind::Other)),
        Err(fault) if fault.kind() == ErrorKind::NotFound => Ok(()),
        Err(fault) => Err(fault),
    }
}

fn write_and_rename<R: Files<File = File>>(
    rt: &R,
    unfinished: &str,
    name: &str,
    bytes: &[u8],
) -> io::Result<()> {
    let mut file = create(rt, unfinished)?;
    file.write_all(bytes)?;
    file.sync_all()?;
    // After its sync a file has nothing left to write that its close could fail at.
    drop(file);
    rt.rename(unfinished, name)
}

/// What a run that was killed left under this name is removed.
fn create<R: Files<File = File>>(rt: &R, name: &str) -> io::Result<File> {
    let mut how = OpenOptions::new();
    how.write(true).create_new(true);
    match rt.open_file(&how, name) {
        Err(fault) if fault.kind() == ErrorKind::AlreadyExists => {
            rt.remove_file(name)?;
            rt.open_file(&how, name)
        }
        opened => opened,
    }
}
