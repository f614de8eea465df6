//! What a run found at the paths that it read, so that it can be told whether others have changed a file since then.
ghost use Rattle.std.specs.Prelude.{◌≡◌, ◌<◌, ◌↔◌, ◌++◌, [], vec_len, vec_capacity, IsTrue, OnOk};
ghost use Rattle.ed_session.specs.Stamps.{LetsWrite};
ghost use Rattle.ed_session.specs.FoundFiles.{found_at, noted};

use crate::file_stamp::FileStamp;
use ed_base::Bytes;
use ed_syntax::Answer;
use std::alloc::{AllocError, Global};

/// What was found at a path when it was read first: a plain file, or nothing.
#[derive(Drop)]
struct Found {
    path: Bytes,
    file: Option<FileStamp>,
}

/// What was found at the paths that were read, each once.
#[derive(Drop)]
pub(crate) struct FoundFiles {
    found: Vec<Found>,
    spares: bool,
}

impl FoundFiles {
    pub(crate) fn new(alloc: Global, spares: bool) -> Self
        ensures none { result.found.items ≡ [] }
        ensures spares { result.spares ≡ spares }
    {
        FoundFiles {
            found: Vec::new(alloc),
            spares,
        }
    }

    /// Whether a file is to be left alone that has the bytes already that it is given.
    pub(crate) fn spares(&self) -> bool
        ensures value { result ≡ self.now.spares }
    {
        self.spares
    }

    /// Makes room for one path more.
    pub(crate) fn make_room(&mut self) -> Result<(), AllocError>
        ensures room { OnOk result (vec_len self.new.found < vec_capacity self.new.found) }
        ensures same_found { self.new.found.items ≡ self.old.found.items }
        ensures same_spares { self.new.spares ≡ self.old.spares }
    {
        self.found.reserve(1)
    }

    /// What was found at a path: a plain file, or nothing. None if it wasn't read so far, or is no plain file.
    pub(crate) fn at(&self, path: &[u8]) -> Option<Option<FileStamp>>
        ensures value { result ≡ found_at path.now self.now.found.items }
    {
        'found: for known in &self.found {
            if known.path.as_slice() == path {
                return Some(known.file);
            }
        }
        None
    }

    /// Whether a run may write this file, which stands at a path now and was made just now by its opening, or wasn't.
    pub(crate) fn allow(&self, path: &[u8], now: &FileStamp, is_new: bool) -> bool
        ensures exact { IsTrue result ↔ LetsWrite (found_at path.now self.now.found.items) now.now is_new }
    {
        lets_write(self.at(path), now, is_new)
    }

    /// Notes what was found at a path whose read was answered so, a plain file or nothing, unless it was read before. There is room for it.
    pub(crate) fn note(&mut self, path: Bytes, file: Option<FileStamp>, answer: &Answer)
        requires room { vec_len self.old.found < vec_capacity self.old.found }
        ensures noted { self.new.found.items ≡ self.old.found.items ++ noted (found_at path self.old.found.items) path file answer.now }
        ensures same_spares { self.new.spares ≡ self.old.spares }
    {
        let is_known = file.is_some() || matches!(answer, Answer::Missing);
        if is_known && self.at(path.as_slice()).is_none() {
            self.found.push_reserved(Found { path, file });
        }
    }

    /// The run itself has written the file at a path, which is this one now: at this path and at its other names it's to be so.
    pub(crate) fn write(&mut self, path: &[u8], file: FileStamp)
        ensures same_spares { self.new.spares ≡ self.old.spares }
    {
        'found: for known in &mut self.found {
            let is_same = match &known.file {
                Some(found) => found.is_of_file(&file),
                None => false,
            };
            if is_same || known.path.as_slice() == path {
                known.file = Some(file);
            }
        }
    }
}

/// Whether a run may write this file, which stands now at a path where this was found when it was read: it wasn't read, or is as it was then, as far
/// as is known. One that the run's own opening has made has no bytes to lose, nor has an empty one where there was none. A file that had bytes and is
/// empty now was emptied by others.
fn lets_write(found: Option<Option<FileStamp>>, now: &FileStamp, is_new: bool) -> bool
    ensures exact { IsTrue result ↔ LetsWrite found now.now is_new }
{
    match found {
        None => true,
        Some(None) => now.is_empty(),
        Some(Some(was)) => is_new && now.is_empty() || was.is_still(now),
    }
}
