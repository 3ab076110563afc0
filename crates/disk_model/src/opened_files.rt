//! Which files the disks of a program have opened.
use std::cell::Cell;
use std::fs::{File, Metadata};
use std::io::{self, ErrorKind};
use std::os::unix::fs::MetadataExt;

/// The files that can be told apart: one for each unit that a command may use.
const MOST: usize = 8;

/// The files that the disks of one program have opened, at most eight, each known by its device and
/// its inode. So a file that two of its disks would share, by a link of either kind, is found
/// before the second waits for the lock of the first.
#[derive(Drop)]
pub struct OpenedFiles {
    files: [Cell<Option<FileId>>; MOST],
}

/// A file by its device and its inode, whatever its names.
#[derive(Clone, Copy, PartialEq)]
pub(crate) struct FileId {
    device: u64,
    inode: u64,
}

impl FileId {
    pub(crate) fn of(found: &Metadata) -> FileId {
        FileId {
            device: found.dev(),
            inode: found.ino(),
        }
    }

    pub(crate) fn of_opened(file: &File) -> io::Result<FileId> {
        Ok(FileId::of(&file.metadata()?))
    }
}

impl OpenedFiles {
    /// None is opened yet.
    pub const fn new() -> OpenedFiles {
        OpenedFiles {
            files: [
                Cell::new(None),
                Cell::new(None),
                Cell::new(None),
                Cell::new(None),
                Cell::new(None),
                Cell::new(None),
                Cell::new(None),
                Cell::new(None),
            ],
        }
    }

    /// Whether one of the disks has opened this file.
    pub(crate) fn has(&self, file: FileId) -> bool {
        self.files.iter().any(|opened| opened.get() == Some(file))
    }

    /// Takes note that a disk has opened this file; a ninth is refused.
    pub(crate) fn add(&self, file: FileId) -> io::Result<()> {
        match self.files.iter().find(|opened| opened.get().is_none()) {
            Some(free) => {
                free.set(Some(file));
                Ok(())
            }
            None => Err(io::Error::from(ErrorKind::Other)),
        }
    }
}
