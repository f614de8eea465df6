//! Files on a disk and the drafts beside them, found by their paths. What the system does, no clause knows.
ghost use Rattle.std.specs.Prelude.{◌≡◌, ◌≢◌, ◌<◌, ◌⊎◌, ◌∷◌, ◌++◌, [], None, All, true, not, is_some, option_map, string_bytes, vec_len, vec_capacity, IfOk, OnErr};
ghost use Rattle.ed_syntax.specs.declared.request.Answer.TheVariants as answer;
ghost use Rattle.ed_session.specs.Drives.{is_refusal};
ghost use Rattle.ed_session.specs.Stamps.{IsAsRead};
ghost use Rattle.whole.specs.OneFile.{AreDifferent, backup_path, files_of};
ghost use Rattle.whole.specs.Insides.{AreDifferent-prop};

use crate::beside::Beside;
use crate::draft_names::free_number;
use crate::made_drafts::{find, is_drafted};
use crate::plain_files::refusal;
use crate::planned::Planned;
use crate::taken::{other_name, refuse_taken};
use ed_base::Pieces;
use ed_session::{DiskFiles, FileStamp, Outside, folder_of, sync_folder};
use ed_syntax::Answer;
use std::alloc::{AllocError, Global};
use std::fs::File;
use std::io;
use std::io::ErrorKind;
use std::path::Path;
use std::rt::Files;

/// The system's files, and the drafts that were made, which may not be there any more.
#[derive(Drop)]
pub(crate) struct Disk<R: Files<File = File> + Copy + Drop> {
    alloc: Global,
    system: R,
    files: DiskFiles<R>,
    // What is added to the names of files for those of their backups, if they are to have some.
    suffix: Option<String>,
    drafts: Vec<Beside>,
    // Why the call was refused that came last, if it was.
    reason: Option<io::Error>,
    ghost different: { AreDifferent (files_of drafts.items) } by { AreDifferent-prop (files_of drafts.items) },
}

impl<R: Files<File = File> + Copy + Drop> Disk<R> {
    pub(crate) fn new(alloc: Global, system: R, suffix: Option<String>) -> Self
        ensures no_reason { result.reason ≡ None }
        ensures suffix { result.suffix ≡ suffix }
    {
        Disk {
            alloc,
            system,
            files: DiskFiles::new(alloc, system),
            suffix,
            drafts: Vec::new(alloc),
            reason: None,
        }
    }

    pub(crate) fn reason(&self) -> Option<io::Error>
        ensures value { result ≡ self.now.reason }
    {
        self.reason
    }

    pub(crate) fn read(&mut self, path: &[u8]) -> Result<Answer, AllocError>
        ensures not_done { IfOk result (λ a. a ≢ answer.Done) }
        ensures reason { IfOk result (λ a. is_some self.new.reason ≡ is_refusal a) }
        ensures unchanged { OnErr result (self.new.reason ≡ self.old.reason) }
    {
        match is_drafted(self.alloc, &self.system, self.drafts.as_slice(), path) {
            Ok(false) => {}
            Ok(true) => {
                self.reason = Some(other_name());
                return Ok(Answer::Refused);
            }
            Err(error) if error.kind() == ErrorKind::OutOfMemory => return Err(AllocError),
            Err(error) => {
                self.reason = Some(error);
                return Ok(Answer::Refused);
            }
        }
        let answer = self.files.read(path)?;
        self.reason = reason_of(&self.files, &answer);
        Ok(answer)
    }

    pub(crate) fn read_draft(&mut self, path: &[u8]) -> Result<Answer, AllocError>
        ensures not_done { IfOk result (λ a. a ≢ answer.Done) }
        ensures reason { IfOk result (λ a. is_some self.new.reason ≡ is_refusal a) }
        ensures unchanged { OnErr result (self.new.reason ≡ self.old.reason) }
    {
        let Some(draft) = find(self.drafts.as_slice(), path) else {
            self.reason = Some(no_draft());
            return Ok(Answer::Refused);
        };
        match draft.read_all(self.alloc) {
            Ok(bytes) => {
                self.reason = None;
                Ok(Answer::Bytes(bytes))
            }
            Err(error) => self.refuse(error),
        }
    }

    /// Refuses a call for this reason, unless that is a want of memory.
    fn refuse(&mut self, error: io::Error) -> Result<Answer, AllocError>
        ensures refused { IfOk result (λ a. a ≡ answer.Refused) }
        ensures reason { IfOk result (λ a. is_some self.new.reason ≡ true) }
        ensures unchanged { OnErr result (self.new.reason ≡ self.old.reason) }
        ensures same_drafts { self.new.drafts ≡ self.old.drafts }
    {
        if error.kind() == ErrorKind::OutOfMemory {
            return Err(AllocError);
        }
        self.reason = Some(error);
        Ok(Answer::Refused)
    }

    /// Gives the draft of a path these bytes. Where there was none, it is made; but not if there is no memory to write it.
    pub(crate) fn draft(&mut self, path: &[u8], bytes: &Pieces) -> Result<Answer, AllocError>
        ensures done_or_refused { IfOk result (λ a. (a ≡ answer.Done) ⊎ (a ≡ answer.Refused)) }
        ensures reason { IfOk result (λ a. is_some self.new.reason ≡ is_refusal a) }
        ensures unchanged { OnErr result (self.new.reason ≡ self.old.reason) }
    {
        if let Some(draft) = find(self.drafts.as_slice(), path) {
            let filled = draft.fill(self.alloc, bytes);
            return self.answer(filled);
        }
        self.drafts.reserve(1)?;
        let read = self.files.found_at(path);
        let suffix = self.suffix.as_deref();
        match draft_of(
            self.alloc,
            &self.system,
            self.drafts.as_slice(),
            path,
            read,
            suffix,
        ) {
            Ok(draft) => self.write_first(draft, bytes),
            Err(error) => self.refuse(error),
        }
    }

    /// Answers a call that was done or refused.
    fn answer(&mut self, done: io::Result<()>) -> Result<Answer, AllocError>
        ensures done_or_refused { IfOk result (λ a. (a ≡ answer.Done) ⊎ (a ≡ answer.Refused)) }
        ensures reason { IfOk result (λ a. is_some self.new.reason ≡ is_refusal a) }
        ensures unchanged { OnErr result (self.new.reason ≡ self.old.reason) }
        ensures same_drafts { self.new.drafts ≡ self.old.drafts }
    {
        match done {
            Ok(()) => {
                self.reason = None;
                Ok(Answer::Done)
            }
            Err(error) => self.refuse(error),
        }
    }

    /// Gives a draft that was made just now these bytes, and keeps it; or removes it, if there is no memory to write it.
    fn write_first(&mut self, draft: Beside, bytes: &Pieces) -> Result<Answer, AllocError>
        requires room { vec_len self.old.drafts < vec_capacity self.old.drafts }
        requires other { All (λ other. other.file ≢ draft.file) self.old.drafts.items }
        ensures done_or_refused { IfOk result (λ a. (a ≡ answer.Done) ⊎ (a ≡ answer.Refused)) }
        ensures reason { IfOk result (λ a. is_some self.new.reason ≡ is_refusal a) }
        ensures unchanged { OnErr result (self.new.reason ≡ self.old.reason) }
        ensures added { IfOk result (λ a. self.new.drafts.items ≡ self.old.drafts.items ++ draft ∷ []) }
    {
        let filled = draft.fill(self.alloc, bytes);
        match self.answer(filled) {
            Ok(answer) => {
                self.drafts.push_reserved(draft);
                Ok(answer)
            }
            Err(AllocError) => {
                draft.remove(&self.system);
                Err(AllocError)
            }
        }
    }

    pub(crate) fn ready(&mut self, path: &[u8]) -> bool
        ensures reason { is_some self.new.reason ≡ not result }
    {
        self.reason = match find(self.drafts.as_slice(), path) {
            Some(draft) => draft.make_ready(&self.system).err(),
            None => Some(no_draft()),
        };
        self.reason.is_none()
    }

    pub(crate) fn put(&mut self, path: &[u8]) -> bool
        ensures reason { is_some self.new.reason ≡ not result }
    {
        self.reason = match find(self.drafts.as_slice(), path) {
            Some(draft) => draft.put(&self.system).err(),
            None => Some(no_draft()),
        };
        self.reason.is_none()
    }

    pub(crate) fn discard(&mut self, path: &[u8])
        ensures same_reason { self.new.reason ≡ self.old.reason }
    {
        if let Some(draft) = find(self.drafts.as_slice(), path) {
            draft.remove(&self.system);
        }
    }

    /// Syncs the folder of a path that has a draft, unless that was done for one before it.
    pub(crate) fn settle(&mut self, path: &[u8])
        ensures same_reason { self.new.reason ≡ self.old.reason }
    {
        let Some(this) = find(self.drafts.as_slice(), path) else {
            return;
        };
        let folder = folder_of(Path::new(this.path.as_str()));
        'drafts: for draft in &self.drafts {
            if draft.path.as_bytes() == path {
                sync_folder(&self.system, folder);
                return;
            }
            if folder_of(Path::new(draft.path.as_str())).as_str() == folder.as_str() {
                return;
            }
        }
    }
}

/// Why the files have given this answer, if it is a refusal.
fn reason_of<R: Files<File = File> + Drop>(
    files: &DiskFiles<R>,
    answer: &Answer,
) -> Option<io::Error>
    ensures exact { is_some result ≡ is_refusal answer.now }
{
    match answer {
        Answer::Refused => files.reason().or(Some(refusal("refused"))),
        _ => None,
    }
}

/// Why nothing can be done with a draft.
fn no_draft() -> io::Error {
    refusal("no draft beside it")
}

/// Makes an empty draft of a path, unless the file there has a draft by another name or isn't as it was read, or has a draft's backup.
fn draft_of<R: Files<File = File>>(
    alloc: Global,
    system: &R,
    drafts: &[Beside],
    path: &[u8],
    read: Option<Option<FileStamp>>,
    suffix: Option<&str>,
) -> io::Result<Beside>
    ensures other { IfOk result (λ made. All (λ other. other.file ≢ made.file) drafts.now) }
    ensures path { IfOk result (λ made. string_bytes made.path ≡ path.now) }
    ensures as_read { IfOk result (λ made. IsAsRead read made.was) }
    ensures backup { IfOk result (λ made. backup_path made.backup ≡ option_map (λ suffix. path.now ++ suffix.now) suffix.entry) }
{
    let Ok(path) = str::from_utf8(path) else {
        return Err(refusal("a name that isn't UTF-8"));
    };
    // The drafts of runs that are over are removed first: one may be a second name of the file.
    let number = free_number(alloc, system, path)?;
    let planned = Planned::of(alloc, system, path, number, suffix)?;
    refuse_taken(drafts, &planned)?;
    Beside::make(alloc, system, planned, read)
}
