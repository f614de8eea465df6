//! A path that is to be replaced.
ghost use Rattle.std.specs.Prelude.{◌≡◌, ◌≢◌, ◌↔◌, ◌++◌, Some, option_map, string_bytes, IfOk, IsFalse, IsTrue};
ghost use Rattle.ed_session.specs.Stamps.{IsAsRead};
ghost use Rattle.whole.specs.OneFile.{backup_file, backup_path};

use crate::backup::{Backup, backup_name, is_backup};
use crate::file_identity::FileIdentity;
use crate::plain_files::{file_to_replace, last_name, plain_file};
use crate::taken::Takes;
use ed_session::FileStamp;
use std::alloc::Global;
use std::fs::Metadata;
use std::io;
use std::rt::Files;

/// A path that is to be replaced.
#[derive(Drop)]
pub(crate) struct Planned {
    pub(crate) path: String,
    /// Which file is there, or would be, and what the system tells of it, if it is there.
    pub(crate) file: FileIdentity,
    pub(crate) found: Option<Metadata>,
    pub(crate) stamp: Option<FileStamp>,
    /// A number with which no draft beside it is named, as far as was seen.
    pub(crate) number: u32,
    pub(crate) backup: Option<Backup>,
}

impl Planned {
    /// A path at which there is a plain file, or nothing, with the number of its draft. Nothing is made or changed.
    pub(crate) fn of<R: Files>(
        alloc: Global,
        files: &R,
        path: &str,
        number: u32,
        suffix: Option<&str>,
    ) -> io::Result<Planned>
        ensures path { IfOk result (λ planned. string_bytes planned.path ≡ path.now) }
        ensures backup { IfOk result (λ planned. backup_path planned.backup ≡ option_map (λ suffix. path.now ++ suffix.now) suffix.entry) }
    {
        last_name(path)?;
        let backup = match suffix {
            Some(suffix) => Some(backup_name(alloc, path, suffix)?),
            None => None,
        };
        let found = plain_file(files, path, backup.as_deref())?;
        let file = file_to_replace(alloc, files, path, found.as_ref())?;
        let backup = match backup {
            Some(name) => {
                let number = number.saturating_add(1);
                Some(Backup::of(alloc, files, path, name, number)?)
            }
            None => None,
        };
        Ok(Planned {
            path: String::from_str(alloc, path)?,
            file,
            stamp: found.as_ref().map(FileStamp::of),
            found,
            number,
            backup,
        })
    }

    /// Whether what stands at the path is what was found there when it was read, if it was read.
    pub(crate) fn is_as(&self, read: Option<Option<FileStamp>>) -> bool
        ensures exact { IsTrue result ↔ IsAsRead read self.now.stamp }
    {
        is_as_read(read, self.stamp)
    }
}

/// Whether what stands at a path now, a file or nothing, is what was found there when it was read, if it was read.
pub(crate) fn is_as_read(read: Option<Option<FileStamp>>, now: Option<FileStamp>) -> bool
    ensures exact { IsTrue result ↔ IsAsRead read now }
{
    match (read, now) {
        (None, _) | (Some(None), None) => true,
        (Some(Some(read)), Some(now)) => read.is_still(&now),
        _ => false,
    }
}

impl Takes for Planned {
    ghost target = { λ planned. planned.file };

    ghost backup = { λ planned. backup_file planned.backup };

    fn takes(&self, file: &FileIdentity) -> bool
        ensures other { IsFalse result → self.now.file ≢ file.now }
        ensures other_backup { IsFalse result → backup_file self.now.backup ≢ Some file.now }
    {
        self.file.is(file) || is_backup(&self.backup, file)
    }
}
