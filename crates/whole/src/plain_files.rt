//! Calls of the system on plain files.
use crate::file_identity::FileIdentity;
use std::alloc::Global;
use std::fs::{File, Metadata, OpenOptions, TryLockError};
use std::io::ErrorKind;
use std::os::unix::fs::MetadataExt;
use std::path::Path;
use std::rt::Files;
use std::{fs, io};

pub(crate) fn refusal(why: &'static str) -> io::Error {
    io::Error::new(ErrorKind::InvalidInput, why)
}

/// What stands at a path, which has to be a plain file, or nothing. Its only other name may be its backup.
pub(crate) fn plain_file<R: Files>(
    files: &R,
    path: &str,
    backup: Option<&str>,
) -> io::Result<Option<Metadata>> {
    match fs::symlink_metadata(files, path) {
        Ok(found) => {
            if !found.is_file() {
                return Err(refusal("not a plain file"));
            }
            if found.nlink() > 1 && !is_other_name(files, backup, &found) {
                return Err(refusal("a file with several links"));
            }
            Ok(Some(found))
        }
        Err(error) if error.kind() == ErrorKind::NotFound => Ok(None),
        Err(error) => Err(error),
    }
}

/// Whether the one other name of a file is this.
fn is_other_name<R: Files>(files: &R, name: Option<&str>, file: &Metadata) -> bool {
    match name {
        Some(name) if file.nlink() == 2 => is_at(files, name, &FileIdentity::of(file)),
        _ => false,
    }
}

/// Whether this file stands at a path.
pub(crate) fn is_at<R: Files>(files: &R, path: &str, file: &FileIdentity) -> bool {
    match fs::symlink_metadata(files, path) {
        Ok(found) => FileIdentity::of(&found).is(file),
        Err(_) => false,
    }
}

/// Whether another file than this stands at a path, as far as can be told.
pub(crate) fn is_other_at<R: Files>(files: &R, path: &str, file: &FileIdentity) -> bool {
    match fs::symlink_metadata(files, path) {
        Ok(found) => !FileIdentity::of(&found).is(file),
        Err(_) => false,
    }
}

/// The name that a path ends in. One that ends in a slash or in dots names no plain file.
pub(crate) fn last_name(path: &str) -> io::Result<&str> {
    match Path::new(path).file_name() {
        Some(name) if path.ends_with(name) => Ok(name),
        _ => Err(refusal("not a plain file")),
    }
}

/// Which file a path leads to that is to be replaced, where this stands there, or nothing.
pub(crate) fn file_to_replace<R: Files>(
    alloc: Global,
    files: &R,
    path: &str,
    found: Option<&Metadata>,
) -> io::Result<FileIdentity> {
    match found {
        Some(found) => Ok(FileIdentity::of(found)),
        None => FileIdentity::of_new(alloc, files, Path::new(path), last_name(path)?),
    }
}

/// Which file a path leads to that is to be read, links followed. None where a link leads to nothing.
pub(crate) fn file_to_read<R: Files>(
    alloc: Global,
    files: &R,
    path: &str,
) -> io::Result<Option<FileIdentity>> {
    match fs::metadata(files, path) {
        Ok(found) => Ok(Some(FileIdentity::of(&found))),
        Err(error) if error.kind() != ErrorKind::NotFound => Err(error),
        Err(_) => {
            if fs::symlink_metadata(files, path).is_ok() {
                return Ok(None);
            }
            let name = last_name(path)?;
            let file = FileIdentity::of_new(alloc, files, Path::new(path), name)?;
            Ok(Some(file))
        }
    }
}

/// Opens a file that is to be replaced, and locks it, so that no other run replaces it meanwhile. One that can't be written isn't
/// replaced either. Where files can't be locked, it isn't.
pub(crate) fn hold<R: Files<File = File>>(files: &R, path: &str) -> io::Result<File> {
    let file = OpenOptions::new().write(true).open(files, path)?;
    if let Err(TryLockError::WouldBlock) = file.try_lock() {
        return Err(refusal("locked by another process"));
    }
    Ok(file)
}
