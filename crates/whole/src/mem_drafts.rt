//! Files and drafts in memory, whose calls are logged.
ghost use Rattle.std.specs.Prelude.{◌≡◌, [], Some, OnOk, IsTrue, false};
ghost use Rattle.ed_session.specs.MemFiles.{file_at, files_of};
ghost use Rattle.whole.specs.LeftFiles.{with_file};
ghost use Rattle.whole.specs.SeenDeeds.{deeds_seen};

use crate::Drafting;
use crate::deed_log::DeedLog;
use crate::seen_deed::SeenDeed;
use crate::written::note;
use ed_base::{Bytes, Pieces};
use ed_session::{MemFiles, Outside};
use ed_syntax::Answer;
use std::alloc::{AllocError, Global};
use std::snapshot::Snapshot;

/// What is done with a draft, and can be refused.
#[derive(Clone, Copy, Debug, PartialEq, Eq)]
pub enum Stage {
    Draft,
    Ready,
    Put,
}

/// Files in memory, and drafts beside them.
#[derive(Drop)]
pub struct MemDrafts {
    alloc: Global,
    files: MemFiles,
    drafts: MemFiles,
    // The paths whose drafts are there: not put, and not discarded.
    left: Vec<Bytes>,
    refused: Option<(Stage, Bytes)>,
    log: DeedLog,
}

impl MemDrafts {
    /// These files, without drafts. It takes no memory.
    pub fn new(alloc: Global, files: MemFiles) -> Self
        ensures files { result.files ≡ files }
        ensures log { deeds_seen result.log.deeds.items ≡ [] }
    {
        MemDrafts {
            alloc,
            files,
            drafts: MemFiles::new(alloc),
            left: Vec::new(alloc),
            refused: None,
            log: DeedLog::new(alloc),
        }
    }

    /// At this path this will be refused. An earlier such wish is forgotten.
    pub fn refuse(&mut self, stage: Stage, path: Bytes)
        ensures value { self.new.refused ≡ Some (stage, path) }
        ensures same_log { self.new.log ≡ self.old.log }
    {
        self.refused = Some((stage, path));
    }

    /// The files, with those that were put.
    pub fn files(&self) -> &MemFiles
        ensures value { result.now ≡ self.now.files }
    {
        &self.files
    }

    /// The paths whose drafts are there: they were put neither, nor discarded.
    pub fn left(&self) -> &[Bytes]
        ensures value { result.now ≡ self.now.left.items }
    {
        self.left.as_slice()
    }

    fn refuses(&self, stage: Stage, path: &Bytes) -> bool {
        match &self.refused {
            Some((refused, at)) => *refused == stage && at == path,
            None => false,
        }
    }
}

/// Forgets that a path has a draft.
fn forget(paths: &mut Vec<Bytes>, path: &[u8]) {
    paths.retain(|known| known.as_slice() != path);
}

/// Gives the file at a path the bytes of its draft, if there is one and if there is memory.
fn put_draft(alloc: Global, files: &mut MemFiles, drafts: &MemFiles, path: &[u8]) -> bool
    ensures put { IsTrue result →
        files_of files.new ≡ with_file path.now (file_at path.now (files_of drafts.now)) (files_of files.old) }
    ensures unchanged { result ≡ false → files_of files.new ≡ files_of files.old }
{
    let Some(bytes) = drafts.file(path) else {
        return false;
    };
    let Ok(bytes) = Bytes::from_slice(alloc, bytes) else {
        return false;
    };
    files.add(path, bytes).is_ok()
}

impl Drafting for MemDrafts {
    ghost log = { λ d. deeds_seen d.log.deeds.items };

    ghost room = { λ d. d.log.promised };

    fn read(&mut self, path: &Bytes) -> Result<Answer, AllocError> {
        let promised = self.log.make_room(0)?;
        let answer = self.files.read(path.as_slice())?;
        let deed = SeenDeed::Read(Snapshot::of(path), Snapshot::of(&answer));
        self.log.add(deed, promised);
        Ok(answer)
    }

    fn read_draft(&mut self, path: &Bytes) -> Result<Answer, AllocError> {
        let promised = self.log.make_room(0)?;
        let answer = self.drafts.read(path.as_slice())?;
        let deed = SeenDeed::ReadDraft(Snapshot::of(path), Snapshot::of(&answer));
        self.log.add(deed, promised);
        Ok(answer)
    }

    fn draft(&mut self, path: &Bytes, bytes: &Pieces) -> Result<Answer, AllocError> {
        let promised = self.log.make_room(4)?;
        let name = path.try_copy()?;
        self.left.reserve(1)?;
        let answer = if self.refuses(Stage::Draft, path) {
            Answer::Refused
        } else {
            self.drafts.write(path.as_slice(), bytes)?
        };
        note(&mut self.left, name);
        let deed = SeenDeed::Draft(
            Snapshot::of(path),
            Snapshot::of(bytes),
            Snapshot::of(&answer),
        );
        self.log.add(deed, promised);
        Ok(answer)
    }

    fn ready(&mut self, path: &Bytes) -> bool {
        let done = !self.refuses(Stage::Ready, path);
        self.log
            .keep_promise(SeenDeed::Ready(Snapshot::of(path), done));
        done
    }

    fn put(&mut self, path: &Bytes) -> bool {
        let refused = self.refuses(Stage::Put, path);
        let done = !refused
            && put_draft(self.alloc, &mut self.files, &self.drafts, path.as_slice());
        if done {
            forget(&mut self.left, path.as_slice());
        }
        self.log
            .keep_promise(SeenDeed::Put(Snapshot::of(path), done));
        done
    }

    fn discard(&mut self, path: &Bytes) {
        forget(&mut self.left, path.as_slice());
        self.log.keep_promise(SeenDeed::Discard(Snapshot::of(path)));
    }

    fn settle(&mut self, path: &Bytes) {
        self.log.keep_promise(SeenDeed::Settle(Snapshot::of(path)));
    }
}
