//! Which files couldn't be written, as far as that is seen without writing them, and which would be left as they are. What the system says, no
//! clause knows.
ghost use Rattle.std.specs.Prelude.{◌≡◌, ◌≢◌, [], is_some, IsTrue};
ghost use Rattle.ed_session.specs.MemFiles.{log_of};
ghost use Rattle.rehearsal.specs.Held.{writes_of};

use crate::diffs::show_diffs;
use crate::screen::Screen;
use crate::suffix::Suffix;
use ed_base::Bytes;
use ed_calls::{show_held, show_unwritten};
use ed_session::{DiskFiles, Outside, folder_of};
use ed_syntax::Answer;
use rehearsal::{HeldWrite, Rehearsal};
use std::alloc::{AllocError, Global};
use std::fs::{File, OpenOptions, TryLockError};
use std::io::ErrorKind;
use std::path::Path;
use std::rt::Files;
use std::{fs, io};
use whole::Lookahead;

/// Shows the writes of a rehearsal, as they would have been made, or why they couldn't be, and says whether one couldn't be: in place, or where
/// files are to be replaced whole, by a look ahead at their paths. What would be left as it is, since it has the bytes already, is told where files
/// are spared. What they would change is shown too where that is asked for; that it couldn't be shown is said as of a write. Where the run came to
/// a fault after which all files stay as they are, it shows only what couldn't be written before that.
pub fn show_writes<R, O>(
    rt: &R,
    rehearsal: &mut Rehearsal<O>,
    ahead: Option<Lookahead>,
    spares: bool,
    shows: bool,
    all_stay: bool,
) -> bool
where
    R: Files<File = File> + Print + Eprint + AllocGlobal + Screen,
    O: Outside + Drop,
    ensures some { IsTrue result → writes_of (log_of rehearsal.old.files) ≢ [] }
{
    let is_one = !rehearsal.writes().is_empty();
    if all_stay {
        return is_one && show_each(rt, rehearsal.writes(), None, ahead);
    }
    let mut stay = Vec::new(rt.alloc());
    if ahead.is_some() || spares {
        // Of those for which there is no memory it isn't told.
        let _ = look_which_stay(rt, rehearsal, &mut stay);
    }
    let is_hindered = show_each(rt, rehearsal.writes(), Some(stay.as_slice()), ahead);
    let is_untold = shows && !show_diffs(rt, rehearsal);
    is_one && (is_hindered || is_untold)
}

/// A look ahead at the files of a run, where they are to be replaced whole, and kept under their names with this suffix if there is one.
pub fn look_ahead(alloc: Global, whole: bool, suffix: Option<Suffix>) -> Option<Lookahead>
    ensures asked { is_some result ≡ whole }
{
    match suffix {
        Some(suffix) if whole => Some(Lookahead::new(alloc, Some(suffix.into_text()))),
        None if whole => Some(Lookahead::new(alloc, None)),
        _ => None,
    }
}

/// Shows each of these writes, and says whether one couldn't be made. Of those from the first on it was seen whether the file would stay as it
/// is; without that only those are shown that couldn't be made.
fn show_each<R>(
    rt: &R,
    writes: &[HeldWrite],
    stay: Option<&[bool]>,
    mut ahead: Option<Lookahead>,
) -> bool
where
    R: Files<File = File> + Eprint + AllocGlobal,
{
    let mut found = false;
    for (place, write) in writes.iter().enumerate() {
        let path = write.path.as_slice();
        let hindrance = match &mut ahead {
            Some(ahead) => ahead.look(rt, path).err(),
            None => hindrance(rt, path),
        };
        match hindrance {
            // That there was no memory to look tells nothing of the file.
            Some(reason) if reason.kind() != ErrorKind::OutOfMemory => {
                show_unwritten(rt.alloc(), rt, path, Some(reason));
                found = true;
            }
            _ => {
                if let Some(stay) = stay {
                    let stays = stay.get(place).copied().unwrap_or(false);
                    show_held(rt.alloc(), rt, write, stays);
                }
            }
        }
    }
    found
}

/// Notes of each write in a rehearsal whether it is the last one of its path and leaves the file there as it is.
fn look_which_stay<R, O>(
    rt: &R,
    rehearsal: &mut Rehearsal<O>,
    stay: &mut Vec<bool>,
) -> Result<(), AllocError>
where
    R: Files<File = File> + AllocGlobal,
    O: Outside + Drop,
{
    for place in 0..rehearsal.writes().len() {
        let stays = leaves_as_is(rt, rehearsal, place)?;
        stay.push(stays)?;
    }
    Ok(())
}

/// Whether the write at this place in a rehearsal is the last one of its path and leaves the file there as it is.
fn leaves_as_is<R, O>(
    rt: &R,
    rehearsal: &mut Rehearsal<O>,
    place: usize,
) -> Result<bool, AllocError>
where
    R: Files<File = File> + AllocGlobal,
    O: Outside + Drop,
{
    let mut writes = rehearsal.writes().iter().skip(place);
    let Some(write) = writes.next() else {
        return Ok(false);
    };
    if writes.any(|later| later.path == write.path) {
        return Ok(false);
    }
    let path = write.path.try_copy()?;
    let told = rehearsal.read(path.as_slice())?;
    has_bytes(rt, &path, told)
}

/// Whether the plain file at a path has the bytes that it's told to have.
fn has_bytes<R>(rt: &R, path: &Bytes, told: Answer) -> Result<bool, AllocError>
where
    R: Files<File = File> + AllocGlobal,
{
    // What is no plain file may have no end, or wait.
    let is_plain = match str::from_utf8(path.as_slice()) {
        Ok(path) => matches!(fs::metadata(rt, path), Ok(found) if found.is_file()),
        Err(_) => false,
    };
    if !is_plain {
        return Ok(false);
    }
    match (told, DiskFiles::new(rt.alloc(), rt).read(path.as_slice())?) {
        (Answer::Bytes(told), Answer::Bytes(found)) => Ok(told == found),
        _ => Ok(false),
    }
}

/// Why the file at a path couldn't be written in place: it is there and may not be opened for that, or is locked, or its folder isn't there. None
/// where nothing is seen of the kind: that a folder takes no new file, or that a disk is full, shows only when they are written.
fn hindrance<R: Files<File = File>>(rt: &R, path: &[u8]) -> Option<io::Error> {
    let Ok(path) = str::from_utf8(path) else {
        return Some(io::Error::new(ErrorKind::InvalidInput, "a name that isn't UTF-8"));
    };
    match fs::metadata(rt, path) {
        // An opening that neither makes nor cuts a file leaves it as it is.
        Ok(found) if found.is_file() || found.is_dir() => {
            match OpenOptions::new().write(true).open(rt, path) {
                Ok(file) => lock_of(&file),
                Err(error) => Some(error),
            }
        }
        // A pipe would wait for its reader.
        Ok(_) => None,
        Err(error) if error.kind() == ErrorKind::NotFound => no_folder(rt, path),
        Err(error) => Some(error),
    }
}

/// Why a file couldn't be written that another process has locked.
fn lock_of(file: &File) -> Option<io::Error> {
    match file.try_lock() {
        Err(TryLockError::WouldBlock) => {
            Some(io::Error::new(ErrorKind::InvalidInput, "locked by another process"))
        }
        _ => None,
    }
}

/// Why there is no folder for a new file at a path.
fn no_folder<R: Files<File = File>>(rt: &R, path: &str) -> Option<io::Error> {
    match fs::metadata(rt, folder_of(Path::new(path)).as_str()) {
        Ok(found) if found.is_dir() => None,
        Ok(_) => Some(io::Error::new(ErrorKind::NotADirectory, "not a folder")),
        Err(error) => Some(error),
    }
}
