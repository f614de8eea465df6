//! A draft beside a path. It is written, synced and given its mode and owner by the descriptor of the one open that made it: what stands
//! at its name is looked at before it is renamed or removed, and not touched before that.
ghost use Rattle.std.specs.Prelude.{◌≡◌, ◌≢◌, Some, IfOk, OnOk, IsFalse};
ghost use Rattle.ed_session.specs.Stamps.{IsAsRead};
ghost use Rattle.whole.specs.OneFile.{backup_file};

use crate::backup::{Backup, is_backup};
use crate::draft_names::make_draft;
use crate::file_identity::FileIdentity;
use crate::from_front::{FromFront, are_same};
use crate::plain_files::{hold, is_at, is_other_at, plain_file, refusal};
use crate::planned::{Planned, is_as_read};
use crate::taken::Takes;
use ed_base::{Bytes, Pieces};
use ed_session::FileStamp;
use std::alloc::Global;
use std::cell::Cell;
use std::fs::{File, Metadata};
use std::io::{BufWriter, ErrorKind, Read, Write};
use std::os::fd::AsFd;
use std::os::unix::fs::{MetadataExt, fchown};
use std::path::PathBuf;
use std::rt::Files;
use std::{fs, io};

/// How many bytes of short pieces are gathered.
const ROOM: usize = 1 << 16;

/// A draft.
#[derive(Drop)]
pub(crate) struct Beside {
    pub(crate) path: String,
    name: PathBuf,
    /// The file that it is of, as it was when the draft was made, and the draft itself.
    pub(crate) file: FileIdentity,
    pub(crate) draft: FileIdentity,
    made: File,
    // What stood at the path then, and that file itself: none where nothing did.
    was: Option<FileStamp>,
    old: Option<Old>,
    backup: Option<Backup>,
    // How many bytes the draft was given last, and whether the file has just these.
    size: Cell<u64>,
    same: Cell<bool>,
}

/// The file that stood at a path when its draft was made. It is locked as long as it's open.
#[derive(Drop)]
struct Old {
    found: Metadata,
    _locked: File,
}

impl Beside {
    /// Makes an empty draft of a path at which this was found when it was read, if it was. Where there is a file, that is locked, the draft has
    /// its owner, and nobody else may read it; where there is none, it has the mode of a new file.
    pub(crate) fn make<R: Files<File = File>>(
        alloc: Global,
        files: &R,
        planned: Planned,
        read: Option<Option<FileStamp>>,
    ) -> io::Result<Beside>
        ensures file { IfOk result (λ made. made.file ≡ planned.file) }
        ensures path { IfOk result (λ made. made.path ≡ planned.path) }
        ensures backup { IfOk result (λ made. made.backup ≡ planned.backup) }
        ensures was { IfOk result (λ made. made.was ≡ planned.stamp) }
        ensures as_read { OnOk result (IsAsRead read planned.stamp) }
    {
        let is_as_read = planned.is_as(read);
        let Planned {
            path,
            file,
            found,
            stamp,
            number,
            backup,
        } = planned;
        let old = match found {
            Some(found) => Some(Old {
                _locked: hold(files, path.as_str())?,
                found,
            }),
            None => None,
        };
        if !is_as_read {
            return Err(changed());
        }
        let (name, made, told) = make_draft(alloc, files, path.as_str(), number, old.is_some())?;
        let beside = Beside {
            path,
            name,
            file,
            draft: FileIdentity::of(&told),
            made,
            was: stamp,
            old,
            backup,
            size: Cell::new(0),
            same: Cell::new(false),
        };
        match beside.own(&told) {
            Ok(()) => Ok(beside),
            Err(error) => {
                beside.remove(files);
                Err(error)
            }
        }
    }

    /// Gives the draft, of which this was told, the owner of the file whose place it is to take, if that is there.
    fn own(&self, told: &Metadata) -> io::Result<()> {
        match &self.old {
            Some(Old { found, .. }) if told.uid() != found.uid() || told.gid() != found.gid() => {
                fchown(self.made.as_fd(), Some(found.uid()), Some(found.gid()))
            }
            _ => Ok(()),
        }
    }

    /// Gives the draft just these bytes.
    pub(crate) fn fill(&self, alloc: Global, bytes: &Pieces) -> io::Result<()> {
        let mut writer = BufWriter::with_capacity(
            alloc,
            ROOM.min(bytes.len()),
            FromFront::of(&self.made),
        )?;
        if self.size.get() > 0 {
            self.made.set_len(0)?;
        }
        self.size.set(bytes.len() as u64);
        let mut walk = bytes.walk();
        'pieces: while let Some(piece) = walk.next_piece() {
            writer.write_all(piece)?;
        }
        writer.flush()
    }

    /// The bytes of the draft.
    pub(crate) fn read_all(&self, alloc: Global) -> io::Result<Bytes> {
        let mut bytes = Vec::new(alloc);
        bytes.reserve_exact(usize::try_from(self.size.get()).unwrap_or(0))?;
        FromFront::of(&self.made).read_to_end(&mut bytes)?;
        Ok(Bytes::from_vec(bytes))
    }

    /// Whether what stands at the path is what stood there when the draft was made.
    fn is_unchanged<R: Files>(&self, files: &R) -> io::Result<()> {
        let backup = self.backup.as_ref().map(Backup::name);
        let now = plain_file(files, self.path.as_str(), backup)?;
        let has_rights = match (&self.old, &now) {
            (Some(old), Some(now)) => has_same_rights(&old.found, now),
            _ => true,
        };
        if has_rights && is_as_read(Some(self.was), now.as_ref().map(FileStamp::of)) {
            Ok(())
        } else {
            Err(changed())
        }
    }

    /// Whether the file that is to be replaced has the bytes of the draft already.
    fn has_same_bytes<R: Files<File = File>>(&self, files: &R, old: &Old) -> io::Result<bool> {
        if old.found.len() != self.size.get() {
            return Ok(false);
        }
        let file = File::open(files, self.path.as_str())?;
        let is_it = FileIdentity::of(&file.metadata()?).is(&self.file);
        Ok(is_it && are_same(&self.made, &file)?)
    }

    /// Gives the draft the mode of the file whose place it is to take, and syncs it; unless the file has its bytes already.
    pub(crate) fn make_ready<R: Files<File = File>>(&self, files: &R) -> io::Result<()> {
        self.is_unchanged(files)?;
        if let Some(old) = &self.old {
            // A file that can't be read is one that differs.
            self.same
                .set(self.has_same_bytes(files, old).unwrap_or(false));
            if self.same.get() {
                return Ok(());
            }
            self.made.set_permissions(old.found.permissions())?;
        }
        self.made.sync_all()
    }

    /// Puts the draft in the place of its file, all at once; unless the file has its bytes already. The old file stays under the name of its
    /// backup, if it is to have one.
    pub(crate) fn put<R: Files>(&self, files: &R) -> io::Result<()> {
        self.is_unchanged(files)?;
        if self.same.get() {
            self.remove(files);
            return Ok(());
        }
        if !is_at(files, self.name.as_str(), &self.draft) {
            return Err(exchanged());
        }
        self.back_up(files)?;
        if let Err(error) = self.take_place(files) {
            if let Some(backup) = &self.backup {
                backup.give_up(files, &self.file);
            }
            return Err(error);
        }
        // Whoever may write in the folder can have exchanged the draft since it was looked at.
        if is_other_at(files, self.path.as_str(), &self.draft) {
            return Err(exchanged());
        }
        Ok(())
    }

    /// Gives the draft the name of its file, in whose place it comes. Where there was none, it gets a second name, which others can't have made
    /// meanwhile, and loses the first one; where files have no second names, it is renamed.
    fn take_place<R: Files>(&self, files: &R) -> io::Result<()> {
        let (name, path) = (self.name.as_str(), self.path.as_str());
        if self.old.is_some() {
            return fs::rename(files, name, path);
        }
        match fs::hard_link(files, name, path) {
            Ok(()) => {
                let _ = fs::remove_file(files, name);
                Ok(())
            }
            Err(error) if error.kind() == ErrorKind::AlreadyExists => Err(changed()),
            Err(_) => fs::rename(files, name, path),
        }
    }

    /// Keeps the file that is to be replaced under the name of its backup, if it is there and to have one.
    fn back_up<R: Files>(&self, files: &R) -> io::Result<()> {
        match &self.backup {
            Some(backup) if self.old.is_some() => backup.keep(
                files,
                self.path.as_str(),
                &self.file,
            ),
            _ => Ok(()),
        }
    }

    /// Removes the draft, if nothing else is at its name and that can be done.
    pub(crate) fn remove<R: Files>(&self, files: &R) {
        if !is_other_at(files, self.name.as_str(), &self.draft) {
            let _ = fs::remove_file(files, self.name.as_str());
        }
    }
}

impl Takes for Beside {
    ghost target = { λ draft. draft.file };

    ghost backup = { λ draft. backup_file draft.backup };

    /// Whether this file is the draft, or the one that it is of, or would be its backup.
    fn takes(&self, file: &FileIdentity) -> bool
        ensures other { IsFalse result → self.now.file ≢ file.now }
        ensures other_backup { IsFalse result → backup_file self.now.backup ≢ Some file.now }
    {
        self.file.is(file) || self.draft.is(file) || is_backup(&self.backup, file)
    }
}

/// Whether a file that was so and is so now has the mode and the owner that its draft is given.
fn has_same_rights(found: &Metadata, now: &Metadata) -> bool {
    let same_owner = found.uid() == now.uid() && found.gid() == now.gid();
    same_owner && found.mode() == now.mode()
}

/// Why a file isn't replaced at whose draft's name something else is.
fn exchanged() -> io::Error {
    refusal("its draft was replaced")
}

/// Why a file isn't replaced that others have changed.
fn changed() -> io::Error {
    refusal("changed since it was read")
}
