//! Folders of the system, whose names last once they are synced.
use std::fs::{File, OpenOptions};
use std::io::{self, ErrorKind};
use std::rt::Files;

/// The folder in which the file or folder of this path has its name.
pub fn folder_of(path: &str) -> &str {
    match path.rsplit_once('/') {
        Some(("", _)) => "/",
        Some((folder, _)) => folder,
        None => ".",
    }
}

/// Syncs a folder, so that the names in it last. Where none of them is new, a folder that may not
/// be opened, or whose file system has no sync of folders, is passed over.
pub fn sync_folder<R: Files<File = File>>(rt: &R, folder: &str, has_new: bool) -> io::Result<()> {
    let mut how = OpenOptions::new();
    how.read(true);
    match rt.open_file(&how, folder) {
        Ok(folder) if has_new => folder.sync_all(),
        Ok(folder) => sync_for_reading(&folder),
        Err(fault) if !has_new && fault.kind() == ErrorKind::PermissionDenied => Ok(()),
        Err(fault) => Err(fault),
    }
}

/// Syncs what was opened for reading alone. What has no sync, as on read-only media, is passed
/// over.
pub fn sync_for_reading(file: &File) -> io::Result<()> {
    match file.sync_all() {
        Err(fault) if has_no_sync(fault.kind()) => Ok(()),
        synced => synced,
    }
}

fn has_no_sync(kind: ErrorKind) -> bool {
    matches!(
        kind,
        ErrorKind::InvalidInput | ErrorKind::ReadOnlyFilesystem
    )
}

/// Makes each folder of this path that is missing. The folder above each is synced, also of one
/// that is there: a run that was killed may have made it.
pub(crate) fn make_folders<R: Files<File = File>>(rt: &R, path: &str) -> io::Result<()> {
    for end in 1..path.len() {
        if let Some((above, rest)) = path.split_at_checked(end) {
            if rest.starts_with('/') {
                make_folder(rt, above)?;
            }
        }
    }
    make_folder(rt, path)
}

fn make_folder<R: Files<File = File>>(rt: &R, path: &str) -> io::Result<()> {
    match rt.create_dir(path) {
        Ok(()) => sync_folder(rt, folder_of(path), true),
        Err(fault) if !is_folder(rt, path) => Err(fault),
        Err(_) => sync_folder(rt, folder_of(path), false),
    }
}

fn is_folder<R: Files<File = File>>(rt: &R, path: &str) -> bool {
    match rt.metadata(path) {
        Ok(found) => found.is_dir(),
        Err(_) => false,
    }
}
