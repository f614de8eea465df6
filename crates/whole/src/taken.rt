//! What a run writes already, so that no other path may lead there.
ghost use Rattle.std.specs.Prelude.{◌≢◌, All, Option, Some, IfSome, IsFalse, OnOk};
ghost use Rattle.whole.specs.OneFile.{backup_file};
ghost use Rattle.whole.specs.declared.file_identity.FileIdentity.{FileIdentity};

use crate::file_identity::FileIdentity;
use crate::plain_files::refusal;
use crate::planned::Planned;
use std::io;

/// What takes a file, and perhaps others beside it.
pub(crate) trait Takes {
    /// The file that is to be replaced.
    ghost target: { Self → FileIdentity };

    /// The one that has the name of its backup, or would have it, if it is to have one.
    ghost backup: { Self → Option FileIdentity };

    /// Whether it takes this file.
    fn takes(&self, file: &FileIdentity) -> bool
        ensures other { IsFalse result → target self.now ≢ file.now }
        ensures other_backup { IsFalse result → backup self.now ≢ Some file.now };
}

/// Whether a file is taken by one of these.
pub(crate) fn is_taken<T: Takes>(all: &[T], file: &FileIdentity) -> bool
    ensures other { IsFalse result → All (λ one. T.target one ≢ file.now) all.now }
    ensures other_backup { IsFalse result → All (λ one. T.backup one ≢ Some file.now) all.now }
{
    'all: for one in all {
        if one.takes(file) {
            return true;
        }
    }
    false
}

/// Refuses a path whose file is taken by one of these, or that of its backup.
pub(crate) fn refuse_taken<T: Takes>(all: &[T], planned: &Planned) -> io::Result<()>
    ensures other { OnOk result (All (λ one. T.target one ≢ planned.now.file) all.now) }
    ensures other_backup { OnOk result (All (λ one. T.backup one ≢ Some planned.now.file) all.now) }

    // The same of its backup.
    ensures backup_of_other { OnOk result (IfSome (backup_file planned.now.backup) (λ file. All (λ one. T.target one ≢ file) all.now)) }
    ensures backups { OnOk result (IfSome (backup_file planned.now.backup) (λ file. All (λ one. T.backup one ≢ Some file) all.now)) }
{
    if is_taken(all, &planned.file) {
        return Err(other_name());
    }
    match &planned.backup {
        Some(backup) if is_taken(all, &backup.file) => {
            Err(refusal("its backup is a file that was written"))
        }
        _ => Ok(()),
    }
}

/// Why a file can't be read or written by this name.
pub(crate) fn other_name() -> io::Error {
    refusal("another name of a file that was written")
}
