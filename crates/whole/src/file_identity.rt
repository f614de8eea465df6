//! What tells one file from another, whatever path it is found by.
ghost use Rattle.std.specs.Prelude.{◌≡◌, ◌↔◌, IsTrue};

use ed_base::Bytes;
use ed_session::folder_of;
use std::alloc::Global;
use std::fs::Metadata;
use std::os::unix::fs::MetadataExt;
use std::path::Path;
use std::rt::Files;
use std::{fs, io};

/// Which file a path leads to: the numbers of its device and of itself there. Where there is none, those of its folder, and its name.
#[derive(Debug, Drop)]
pub(crate) struct FileIdentity {
    device: u64,
    number: u64,
    // The name in that folder of a file that isn't there.
    name: Option<Bytes>,
}

impl FileIdentity {
    /// A file that is there.
    pub(crate) fn of(found: &Metadata) -> FileIdentity {
        FileIdentity {
            device: found.dev(),
            number: found.ino(),
            name: None,
        }
    }

    /// A file that isn't there, by the path at which it would be.
    pub(crate) fn of_new<R: Files>(
        alloc: Global,
        files: &R,
        path: Path<'_>,
        name: &str,
    ) -> io::Result<FileIdentity> {
        let found = fs::metadata(files, folder_of(path).as_str())?;
        Ok(FileIdentity {
            device: found.dev(),
            number: found.ino(),
            name: Some(Bytes::from_slice(alloc, name.as_bytes())?),
        })
    }

    /// Whether it was there.
    pub(crate) fn is_there(&self) -> bool {
        self.name.is_none()
    }

    /// Whether both are one file.
    pub(crate) fn is(&self, other: &FileIdentity) -> bool
        ensures exact { IsTrue result ↔ (self.now ≡ other.now) }
    {
        let same_name = match (&self.name, &other.name) {
            (Some(name), Some(other)) => name == other,
            (None, None) => true,
            _ => false,
        };
        self.device == other.device && self.number == other.number && same_name
    }
}
