//! The names of drafts beside a path, and the drafts of runs that are over.
use crate::file_identity::FileIdentity;
use crate::plain_files::{is_at, last_name, refusal};
use std::alloc::Global;
use std::fs::{File, Metadata, OpenOptions, TryLockError};
use std::io::ErrorKind;
use std::os::unix::fs::{MetadataExt, OpenOptionsExt};
use std::path::{Path, PathBuf};
use std::rt::Files;
use std::{fs, io};

/// How many names of drafts are tried before it is given up.
const MOST_NAMES: u32 = 10_000;

/// How many bytes of a file's name stand in the name of its draft at most: no file system allows names that are much shorter than 143 bytes.
const MOST_BYTES: usize = 100;

/// The mode of a draft that is to take the place of a file: nobody else may read it before it has that of the file.
const PRIVATE: u32 = 0o600;

/// The front of a name, of at most so many bytes.
fn front(name: &str, most: usize) -> &str {
    if name.len() <= most {
        return name;
    }
    // A character has four bytes at most.
    'fewer: for fewer in 0..4 {
        if let Some((front, _)) = name.split_at_checked(most.saturating_sub(fewer)) {
            return front;
        }
    }
    ""
}

/// The name of a draft beside a path, with this number.
pub(crate) fn name_beside(alloc: Global, path: &str, number: u32) -> io::Result<PathBuf> {
    let front = front(last_name(path)?, MOST_BYTES);
    let name = format!(in alloc; ".{front}.edv-{number}")?;
    Ok(Path::new(path).with_file_name(alloc, name.as_str())?)
}

/// A number with which no draft beside a path is named: the first after those that stay. The drafts of runs that are over are removed, up to the
/// first number at which there is nothing, the last one first: so a run that is killed at it leaves none beyond such a number.
pub(crate) fn free_number<R: Files<File = File>>(
    alloc: Global,
    files: &R,
    path: &str,
) -> io::Result<u32> {
    let end = first_without(alloc, files, path)?;
    let mut free = end;
    'numbers: for number in (0..end).rev() {
        let name = name_beside(alloc, path, number)?;
        let is_removed = remove_if_over(files, path, name.as_str()).unwrap_or(false);
        if is_removed && number + 1 == free {
            free = number;
        }
    }
    if free < MOST_NAMES {
        Ok(free)
    } else {
        Err(too_many())
    }
}

/// The first number at which nothing has the name of a draft beside a path, or that of all.
fn first_without<R: Files<File = File>>(alloc: Global, files: &R, path: &str) -> io::Result<u32> {
    'numbers: for number in 0..MOST_NAMES {
        let name = name_beside(alloc, path, number)?;
        // Whatever else is wrong with the name, its making will tell.
        if fs::symlink_metadata(files, name.as_str()).is_err() {
            return Ok(number);
        }
    }
    Ok(MOST_NAMES)
}

/// Why no draft is made beside a path.
fn too_many() -> io::Error {
    refusal("too many drafts beside it")
}

/// Removes what stands at the name of a draft, if it is that of a run that is over: a plain file that nobody has locked, with no other
/// name but that of the file whose backup it was to become, or that it has become. Says whether it was.
fn remove_if_over<R: Files<File = File>>(files: &R, path: &str, name: &str) -> io::Result<bool> {
    let found = fs::symlink_metadata(files, name)?;
    let draft = FileIdentity::of(&found);
    if !found.is_file() || found.nlink() > 1 && !is_at(files, path, &draft) {
        return Ok(false);
    }
    // Opened for both, it is not waited for, even if it has become a pipe by now.
    let file = OpenOptions::new().read(true).write(true).open(files, name)?;
    file.try_lock()?;
    // While this lock is held, no other run removes it.
    let is_it = FileIdentity::of(&file.metadata()?).is(&draft);
    if is_it {
        fs::remove_file(files, name)?;
    }
    Ok(is_it)
}

/// Makes an empty draft beside a path, at a name with this number or a later one, and locks it. One that is to take the place of a file is
/// private; else it has the mode of a new file.
pub(crate) fn make_draft<R: Files<File = File>>(
    alloc: Global,
    files: &R,
    path: &str,
    first: u32,
    is_private: bool,
) -> io::Result<(PathBuf, File, Metadata)> {
    let mut options = OpenOptions::new();
    options.read(true).write(true).create_new(true);
    if is_private {
        options.mode(PRIVATE);
    }
    'numbers: for number in first..first.saturating_add(MOST_NAMES) {
        let name = name_beside(alloc, path, number)?;
        match options.open(files, name.as_str()) {
            Ok(made) => match held(&made) {
                Ok(Some(found)) => return Ok((name, made, found)),
                Ok(None) => {}
                Err(error) => {
                    let _ = fs::remove_file(files, name.as_str());
                    return Err(error);
                }
            },
            Err(error) if error.kind() == ErrorKind::AlreadyExists => {}
            Err(error) => return Err(error),
        }
    }
    Err(too_many())
}

/// Locks a draft that was made just now, and says what it is; none if another run took it for one that is over, which it removes.
fn held(made: &File) -> io::Result<Option<Metadata>> {
    if let Err(TryLockError::WouldBlock) = made.try_lock() {
        return Ok(None);
    }
    let found = made.metadata()?;
    Ok((found.nlink() > 0).then_some(found))
}
