//! What tells whether a file on a disk is as it was when a run read it.
ghost use Rattle.std.specs.Prelude.{◌≡◌, ◌↔◌, IsTrue};
ghost use Rattle.std.specs.Fs.{metadata_len};
ghost use Rattle.ed_session.specs.Stamps.{IsOneFile, IsStill, IsTold, IsToldOrNow};

use std::fs::{File, Metadata, TryLockError};
use std::os::unix::fs::MetadataExt;

/// Which file it is, by the numbers of its device and of itself there, how many bytes it has, and when these were changed last.
#[derive(Clone, Copy, Debug, PartialEq, Eq)]
pub struct FileStamp {
    device: u64,
    number: u64,
    size: u64,
    time: Time,
}

/// When the bytes of a file were changed last. The time of the last change of its mode, owner or links tells nothing: a file system in layers sets
/// it when a file of a lower layer is opened to be written.
#[derive(Clone, Copy, Debug, PartialEq, Eq)]
enum Time {
    /// By seconds and nanoseconds.
    Told(i64, i64),
    /// By the run itself, which hasn't asked when.
    Own,
    /// Perhaps at this moment: another process had locked it.
    Now,
}

impl FileStamp {
    /// What the system tells of a file.
    pub fn of(found: &Metadata) -> FileStamp
        ensures size { result.size ≡ metadata_len found.now }
        ensures told { IsTold result.time }
    {
        FileStamp {
            device: found.dev(),
            number: found.ino(),
            size: found.size(),
            time: Time::Told(found.mtime(), found.mtime_nsec()),
        }
    }

    /// What the system has told of an open file that is to be read. If another process has locked it, as a run has that writes it, it may be
    /// changed at this moment. Whatever is written after this changes its time.
    pub(crate) fn of_opened(file: &File, told: &Metadata) -> FileStamp
        ensures size { result.size ≡ metadata_len told.now }
        ensures told { IsToldOrNow result.time }
    {
        let mut stamp = FileStamp::of(told);
        match file.try_lock_shared() {
            Ok(()) => {
                let _ = file.unlock();
            }
            Err(TryLockError::WouldBlock) => stamp.time = Time::Now,
            Err(_) => {}
        }
        stamp
    }

    /// The same file, given so many bytes at a time that wasn't asked for.
    pub(crate) fn rewritten(self, size: u64) -> FileStamp
        ensures value { result ≡ record self { size = size; time = Time.Own } }
    {
        FileStamp {
            size,
            time: Time::Own,
            ..self
        }
    }

    pub(crate) fn is_empty(&self) -> bool
        ensures exact { IsTrue result ↔ (self.now.size ≡ 0) }
    {
        self.size == 0
    }

    /// Whether both are of one file.
    pub(crate) fn is_of_file(&self, other: &FileStamp) -> bool
        ensures exact { IsTrue result ↔ IsOneFile self.now other.now }
    {
        self.device == other.device && self.number == other.number
    }

    /// Whether a file that was so and is so now wasn't changed between, as far as these tell.
    pub fn is_still(&self, now: &FileStamp) -> bool
        ensures exact { IsTrue result ↔ IsStill self.now now.now }
    {
        let same_time = match self.time {
            Time::Told(..) => self.time == now.time,
            Time::Own => true,
            Time::Now => false,
        };
        self.is_of_file(now) && self.size == now.size && same_time
    }
}
