//! Drafts beside files on a disk, whose calls are logged.
ghost use Rattle.std.specs.Prelude.{◌≡◌, [], None, Some, is_some};
ghost use Rattle.whole.specs.Reasons.{last_refused};
ghost use Rattle.whole.specs.SeenDeeds.{deeds_seen};
ghost use Rattle.whole.specs.OneFile.{AreDifferent, files_of};

use crate::Drafting;
use crate::deed_log::DeedLog;
use crate::disk::Disk;
use crate::seen_deed::SeenDeed;
use ed_base::{Bytes, Pieces};
use ed_syntax::Answer;
use std::alloc::{AllocError, Global};
use std::fs::File;
use std::io;
use std::rt::Files;
use std::snapshot::Snapshot;

/// The system's files, and drafts beside them.
///
/// The draft of `dir/NAME` is the new file `dir/.NAME.edv-N`, with the first number N at which there is none; of a long NAME it has the front.
/// It is locked as long as the run lasts: one that is there and isn't locked is of a run that is over, and is removed by the next that makes
/// a draft of that path. A path can be replaced where there is a plain file with one link that can be written, or nothing; a symbolic link is
/// no plain file. The file is locked too, as long as the run lasts, and one that another process has locked is refused. A draft has the owner
/// of the file; it is synced, and gets the mode of the file, when it is made ready. Where that finds the file changed since it was read, or
/// since the draft was made, it's refused; so is the draft to be put. A file that has the bytes of its draft already is left alone. Another
/// name of a file that has a draft, and the name of a draft itself, are refused, to be read and to be written. One whose bytes were refused
/// may have some of them. A call that finds no memory has made no draft and changed no file.
#[derive(Drop)]
pub struct DiskDrafts<R: Files<File = File> + Copy + Drop> {
    disk: Disk<R>,
    log: DeedLog,
    ghost told: { is_some disk.reason ≡ last_refused (deeds_seen log.deeds.items) },
}

impl<R: Files<File = File> + Copy + Drop> DiskDrafts<R> {
    /// The files of this system, without drafts. It takes no memory.
    pub fn new(alloc: Global, system: R) -> Self
        ensures log { deeds_seen result.log.deeds.items ≡ [] }
        ensures suffix { result.disk.suffix ≡ None }
    {
        DiskDrafts {
            disk: Disk::new(alloc, system, None),
            log: DeedLog::new(alloc),
        }
    }

    /// The same, where each file that is replaced stays under its name with this suffix, which isn't empty and has no slash, in place of what
    /// has that name. The name of a file that was written, or was to be its backup, is refused.
    pub fn with_backups(alloc: Global, system: R, suffix: String) -> Self
        ensures log { deeds_seen result.log.deeds.items ≡ [] }
        ensures suffix { result.disk.suffix ≡ Some suffix }
    {
        DiskDrafts {
            disk: Disk::new(alloc, system, Some(suffix)),
            log: DeedLog::new(alloc),
        }
    }

    /// Why the call that came last was refused or not done, in the system's words, which no clause knows; none where it was done. That a
    /// draft is discarded doesn't count, nor does a call that found no memory.
    pub fn reason(&self) -> Option<io::Error>
        ensures exact { is_some result ≡ last_refused (deeds_seen self.now.log.deeds.items) }
    {
        self.disk.reason()
    }

    /// No two drafts are of one file, by what the system told when they were made: a path that is another name of a file with a draft is
    /// refused.
    pub fn each_draft_is_of_a_file_of_its_own(&self)
        ensures different { AreDifferent (files_of self.now.disk.drafts.items) }
    {}
}

impl<R: Files<File = File> + Copy + Drop> Drafting for DiskDrafts<R> {
    ghost log = { λ d. deeds_seen d.log.deeds.items };

    ghost room = { λ d. d.log.promised };

    fn read(&mut self, path: &Bytes) -> Result<Answer, AllocError> {
        let promised = self.log.make_room(0)?;
        let answer = self.disk.read(path.as_slice())?;
        let deed = SeenDeed::Read(Snapshot::of(path), Snapshot::of(&answer));
        self.log.add(deed, promised);
        Ok(answer)
    }

    fn read_draft(&mut self, path: &Bytes) -> Result<Answer, AllocError> {
        let promised = self.log.make_room(0)?;
        let answer = self.disk.read_draft(path.as_slice())?;
        let deed = SeenDeed::ReadDraft(Snapshot::of(path), Snapshot::of(&answer));
        self.log.add(deed, promised);
        Ok(answer)
    }

    fn draft(&mut self, path: &Bytes, bytes: &Pieces) -> Result<Answer, AllocError> {
        let promised = self.log.make_room(4)?;
        let answer = self.disk.draft(path.as_slice(), bytes)?;
        let deed = SeenDeed::Draft(
            Snapshot::of(path),
            Snapshot::of(bytes),
            Snapshot::of(&answer),
        );
        self.log.add(deed, promised);
        Ok(answer)
    }

    fn ready(&mut self, path: &Bytes) -> bool {
        let done = self.disk.ready(path.as_slice());
        self.log
            .keep_promise(SeenDeed::Ready(Snapshot::of(path), done));
        done
    }

    fn put(&mut self, path: &Bytes) -> bool {
        let done = self.disk.put(path.as_slice());
        self.log
            .keep_promise(SeenDeed::Put(Snapshot::of(path), done));
        done
    }

    fn discard(&mut self, path: &Bytes) {
        self.disk.discard(path.as_slice());
        self.log.keep_promise(SeenDeed::Discard(Snapshot::of(path)));
    }

    fn settle(&mut self, path: &Bytes) {
        self.disk.settle(path.as_slice());
        self.log.keep_promise(SeenDeed::Settle(Snapshot::of(path)));
    }
}
