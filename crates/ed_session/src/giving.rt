//! Bytes that a file of the system is given.
ghost use Rattle.std.specs.Prelude.{OnOk};
ghost use Rattle.std.specs.Io.KnownBytes.{Appends};

use crate::chunks::Chunks;
use crate::file_places::OpenedFile;
use crate::file_stamp::FileStamp;
use crate::folders::{folder_of, sync_folder};
use crate::found_files::FoundFiles;
use crate::overwriting::{overwrite, overwrite_changed};
use ed_base::Pieces;
use std::fs::{File, OpenFile, OpenOptions, TryLockError};
use std::io;
use std::io::{ErrorKind, Write};
use std::os::unix::fs::MetadataExt;
use std::path::Path;
use std::rt::Files;

pub(crate) fn refusal(why: &'static str) -> io::Error {
    io::Error::new(ErrorKind::InvalidInput, why)
}

/// A file that was opened to be written, and whether it was made by that.
#[derive(Drop)]
pub(crate) struct Opened {
    file: File,
    is_new: bool,
}

/// Opens a file to be written, and makes it where there is none; also to be read, if that is asked for and allowed.
pub(crate) fn open_to_write<R: Files<File = File>>(
    files: &R,
    path: &str,
    reads: bool,
) -> io::Result<Opened> {
    let mut options = OpenOptions::new();
    options.write(true).read(reads);
    let opened = match options.open(files, path) {
        Err(error) if reads && error.kind() == ErrorKind::PermissionDenied => {
            options.read(false).open(files, path)
        }
        opened => opened,
    };
    match opened {
        Ok(file) => Ok(Opened {
            file,
            is_new: false,
        }),
        Err(error) if error.kind() == ErrorKind::NotFound => Ok(Opened {
            file: options.create(true).open(files, path)?,
            is_new: true,
        }),
        Err(error) => Err(error),
    }
}

/// Gives the file that was opened at a path just these bytes. They are synced, since a disk that can't take them may say so only then, and
/// closing a file tells nothing; if it is new, so is the folder in which its path is looked for. What isn't a file on a disk, as a pipe or a
/// terminal, is written from the front on: it has no places, and nothing to be cut off or synced.
///
/// A file on a disk is locked meanwhile. One that another process has locked is refused, and so is one that was changed since it was read.
/// Where files can't be locked, it isn't.
pub(crate) fn give_bytes<R: Files<File = File>>(
    files: &R,
    opened: Opened,
    path: &str,
    bytes: &Pieces,
    room: Vec<u8>,
    found: &mut FoundFiles,
) -> io::Result<()> {
    let Opened { mut file, is_new } = opened;
    let is_locked = matches!(file.try_lock(), Err(TryLockError::WouldBlock));
    let told = file.metadata()?;
    if !told.is_file() {
        return write_pieces(&mut file, bytes, room);
    }
    let now = FileStamp::of(&told);
    if is_locked {
        return Err(refusal("locked by another process"));
    }
    if told.nlink() == 0 || !found.allow(path.as_bytes(), &now, is_new) {
        return Err(refusal("changed since it was read"));
    }
    let mut file = OpenedFile::new(file);
    if found.spares() {
        overwrite_changed(&mut file, told.len(), bytes, room)?;
    } else {
        overwrite(&mut file, told.len(), bytes, room)?;
    }
    found.write(path.as_bytes(), now.rewritten(bytes.len() as u64));
    if is_new {
        sync_folder(files, folder_of(Path::new(path)));
    }
    Ok(())
}

/// Writes all bytes, short pieces gathered in the capacity of a vector.
fn write_pieces<W: Write>(writer: &mut W, bytes: &Pieces, room: Vec<u8>) -> io::Result<()>
    ensures written { OnOk result (Appends (W.contents writer.old) (W.contents writer.new) bytes.now) }
{
    let mut chunks = Chunks::new(bytes, room);
    'chunks: while let Some(chunk) = chunks.next_chunk() {
        writer.write_all(chunk)?;
    }
    Ok(())
}
