//! The backup of a file that is to be replaced: a name under which the old file stays.
ghost use Rattle.std.specs.Prelude.{◌≡◌, ◌≢◌, ◌++◌, [], Some, string_bytes, IfOk, IsFalse, OnOk};
ghost use Rattle.whole.specs.OneFile.{backup_file};

use crate::draft_names::name_beside;
use crate::file_identity::FileIdentity;
use crate::plain_files::{file_to_replace, is_at, plain_file, refusal};
use std::alloc::Global;
use std::path::PathBuf;
use std::rt::Files;
use std::{fs, io};

/// The backup of a path.
#[derive(Drop)]
pub(crate) struct Backup {
    name: String,
    // The name under which the old file is linked first, so that an older backup is replaced all at once.
    link: PathBuf,
    /// The file that is there now, or would be.
    pub(crate) file: FileIdentity,
}

/// Whether a file is a backup that is to be made, or would be.
pub(crate) fn is_backup(backup: &Option<Backup>, file: &FileIdentity) -> bool
    ensures other { IsFalse result → backup_file backup.now ≢ Some file.now }
{
    match backup {
        Some(backup) => backup.file.is(file),
        None => false,
    }
}

/// The name of the backup of a path.
pub(crate) fn backup_name(alloc: Global, path: &str, suffix: &str) -> io::Result<String>
    ensures value { IfOk result (λ name. string_bytes name ≡ path.now ++ suffix.now) }
    ensures some { OnOk result (suffix.now ≢ []) }
{
    if suffix.is_empty() || suffix.contains('/') {
        return Err(refusal("no suffix for a backup"));
    }
    let mut name = String::from_str(alloc, path)?;
    name.push_str(suffix)?;
    Ok(name)
}

impl Backup {
    /// The backup of a path by this name. The number is that of a draft which isn't there yet.
    pub(crate) fn of<R: Files>(
        alloc: Global,
        files: &R,
        path: &str,
        name: String,
        number: u32,
    ) -> io::Result<Backup>
        ensures name { IfOk result (λ backup. backup.name ≡ name) }
    {
        let found = plain_file(files, name.as_str(), Some(path))?;
        Ok(Backup {
            link: name_beside(alloc, path, number)?,
            file: file_to_replace(alloc, files, name.as_str(), found.as_ref())?,
            name,
        })
    }

    pub(crate) fn name(&self) -> &str {
        self.name.as_str()
    }

    /// Keeps this file, which stands at a path, under the name of the backup, where it may stand already.
    pub(crate) fn keep<R: Files>(
        &self,
        files: &R,
        path: &str,
        file: &FileIdentity,
    ) -> io::Result<()> {
        if is_at(files, self.name.as_str(), file) {
            return Ok(());
        }
        fs::hard_link(files, path, self.link.as_str())?;
        let kept = fs::rename(files, self.link.as_str(), self.name.as_str());
        if kept.is_err() {
            let _ = fs::remove_file(files, self.link.as_str());
        }
        kept
    }

    /// Removes the backup of a file that wasn't replaced.
    pub(crate) fn give_up<R: Files>(&self, files: &R, file: &FileIdentity) {
        if is_at(files, self.name.as_str(), file) {
            let _ = fs::remove_file(files, self.name.as_str());
        }
    }
}
