//! Files on a disk, whose calls are logged.
ghost use Rattle.std.specs.Prelude.{◌≡◌, ◌≢◌, ◌≤◌, ◌⊎◌, [], None, true, false, length, is_some, IfOk, OnOk};
ghost use Rattle.std.specs.Io.KnownBytes.{Consumes};
ghost use Rattle.ed_syntax.specs.declared.request.Answer.TheVariants as answer;
ghost use Rattle.ed_session.specs.Drives.{ends_refused, is_refusal};
ghost use Rattle.ed_session.specs.Seen.{log_seen};
ghost use Rattle.ed_session.specs.FoundFiles.{found_at};

use crate::Outside;
use crate::chunks::ROOM;
use crate::file_stamp::FileStamp;
use crate::found_files::FoundFiles;
use crate::giving::{give_bytes, open_to_write, refusal};
use crate::seen::{SeenAnswer, SeenBytes, SeenRequest};
use ed_base::{Bytes, Pieces};
use ed_syntax::Answer;
use std::alloc::{AllocError, Global};
use std::fs::{File, OpenFile, OpenOptions};
use std::io;
use std::io::{ErrorKind, Read};
use std::rt::Files;
use std::snapshot::Snapshot;

/// An outside whose files are those of the system.
///
/// A file that isn't there is missing. One that can't be read or written is refused, and so is a path that isn't UTF-8 or
/// holds a zero byte. A write gives the file that is there other bytes and leaves its owner, mode and links. A file that others have changed
/// since this read it first, as far as its size, its time and the numbers of its device and of itself tell, isn't written, nor is one that
/// another process has locked; while it's written, it is locked. Of a file that is made the folder is synced too, if the system lets it be.
///
/// Where a file becomes longer, what lies beyond its old end is written and synced first. If that is refused, as on a full disk, it is cut
/// off again and the file has its old bytes; if the cut is refused too, a part of the new end stays after them, and the first refusal is the
/// reason. Then come the bytes before the old end, which take no new room where the disk writes in place and the file has no holes. A write
/// that is refused there, or that makes a file no longer, leaves a front of the new bytes, and after it what the file had there; if it was
/// to become longer, then the new end. A new file is left empty. What isn't a file on a disk, as a pipe, has taken a front of the bytes.
/// A call that finds no memory has changed no file.
#[derive(Drop)]
pub struct DiskFiles<R: Files<File = File> + Drop> {
    alloc: Global,
    files: R,
    log: Vec<(SeenRequest, SeenAnswer)>,
    failures: usize,
    // Why the call was refused that came last, if it was.
    reason: Option<io::Error>,
    found: FoundFiles,
    ghost few: { failures ≤ length log.items },
    ghost refused: { is_some reason ≡ ends_refused (log_seen log.items) },
}

impl<R: Files<File = File> + Drop> DiskFiles<R> {
    /// The files of this system. It takes no memory.
    pub fn new(alloc: Global, files: R) -> Self
        ensures log { log_seen result.log.items ≡ [] }
        ensures count { result.failures ≡ 0 }
        ensures found { result.found.found.items ≡ [] }
        ensures spares { result.found.spares ≡ false }
    {
        DiskFiles::with(alloc, files, FoundFiles::new(alloc, false))
    }

    /// The same, where a file on a disk is left alone, with its times, if it has the bytes already that it is given.
    pub fn sparing(alloc: Global, files: R) -> Self
        ensures log { log_seen result.log.items ≡ [] }
        ensures count { result.failures ≡ 0 }
        ensures found { result.found.found.items ≡ [] }
        ensures spares { result.found.spares ≡ true }
    {
        DiskFiles::with(alloc, files, FoundFiles::new(alloc, true))
    }

    fn with(alloc: Global, files: R, found: FoundFiles) -> Self
        ensures log { log_seen result.log.items ≡ [] }
        ensures count { result.failures ≡ 0 }
        ensures found { result.found ≡ found }
    {
        DiskFiles {
            alloc,
            files,
            log: Vec::new(alloc),
            failures: 0,
            reason: None,
            found,
        }
    }

    /// Why the call that came last was refused, in the system's words, which no clause knows. None where it wasn't refused. A call that
    /// found no memory doesn't count.
    pub fn reason(&self) -> Option<io::Error>
        ensures exact { is_some result ≡ ends_refused (log_seen self.now.log.items) }
    {
        self.reason
    }

    /// What was found at a path when it was read first: a plain file, or nothing. None if it wasn't read so far, or is no plain file.
    pub fn found_at(&self, path: &[u8]) -> Option<Option<FileStamp>>
        ensures value { result ≡ found_at path.now self.now.found.found.items }
    {
        self.found.at(path)
    }
}

impl<R: Files<File = File> + Drop> Outside for DiskFiles<R> {
    ghost log = { λ d. log_seen d.log.items };

    ghost failures = { λ d. d.failures };

    ghost use Rattle.std.proofs.Common.{subst, sym};
    ghost use Rattle.std.proofs.lemmas.List.{length-map};

    ghost few_failures = { λ d. subst (λ n. d.failures ≤ n) (sym (length-map d.log.items _)) d.few };

    #[tactic(auto, using(crate::proofs::Refusing::reason_kept))]
    fn read(&mut self, path: &[u8]) -> Result<Answer, AllocError> {
        self.log.reserve(1)?;
        self.found.make_room()?;
        let name = Bytes::from_slice(self.alloc, path)?;
        let asked = SeenRequest::Read(SeenBytes::of(self.alloc, path)?);
        let (mut reason, mut file) = (None, None);
        let answer = read_answer(self.alloc, &self.files, path, &mut reason, &mut file)?;
        let seen = SeenAnswer::of(&answer);
        self.found.note(name, file, &answer);
        self.log.push((asked, seen))?;
        self.reason = reason;
        if matches!(answer, Answer::Refused) {
            self.failures += 1;
        }
        Ok(answer)
    }

    #[tactic(auto, using(crate::proofs::Refusing::reason_kept))]
    fn write(&mut self, path: &[u8], bytes: &Pieces) -> Result<Answer, AllocError> {
        self.log.reserve(1)?;
        let asked = SeenRequest::Write(SeenBytes::of(self.alloc, path)?, Snapshot::of(bytes));
        let mut reason = None;
        let found = &mut self.found;
        let answer = write_answer(self.alloc, &self.files, path, bytes, found, &mut reason)?;
        let seen = SeenAnswer::of(&answer);
        self.log.push((asked, seen))?;
        self.reason = reason;
        if matches!(answer, Answer::Refused) {
            self.failures += 1;
        }
        Ok(answer)
    }
}

/// Why a path can't be one of the system's.
fn not_text() -> io::Error {
    refusal("a name that isn't UTF-8")
}

/// What a read of a path is answered, and why it is refused, if it is, and what a plain file was like before it was read.
fn read_answer<R: Files<File = File>>(
    alloc: Global,
    files: &R,
    path: &[u8],
    reason: &mut Option<io::Error>,
    found: &mut Option<FileStamp>,
) -> Result<Answer, AllocError>
    requires none { reason.old ≡ None }
    ensures not_done { IfOk result (λ a. a ≢ answer.Done) }
    ensures exact { IfOk result (λ a. is_some reason.new ≡ is_refusal a) }
{
    let Ok(path) = str::from_utf8(path) else {
        *reason = Some(not_text());
        return Ok(Answer::Refused);
    };
    match read_file(alloc, files, path, found) {
        Ok(bytes) => Ok(Answer::Bytes(Bytes::from_vec(bytes))),
        Err(error) => match error.kind() {
            ErrorKind::NotFound => Ok(Answer::Missing),
            ErrorKind::OutOfMemory => Err(AllocError),
            _ => {
                *reason = Some(error);
                Ok(Answer::Refused)
            }
        },
    }
}

/// How many bytes of a file are asked for at a time.
const PIECE: usize = 1 << 16;

/// Room for the read that finds the end of a file.
const END: usize = 64;

fn read_file<R: Files<File = File>>(
    alloc: Global,
    files: &R,
    path: &str,
    found: &mut Option<FileStamp>,
) -> io::Result<Vec<u8>> {
    let mut file = OpenOptions::new().read(true).open(files, path)?;
    let told = file.metadata()?;
    if told.is_file() {
        *found = Some(FileStamp::of_opened(&file, &told));
    }
    let size = usize::try_from(told.len()).unwrap_or(0);
    let mut bytes = read_pieces(alloc, &mut file, size)?;
    // What is left of a file that grew, or whose size isn't told, as that of a pipe.
    file.read_to_end(&mut bytes)?;
    Ok(bytes)
}

/// So many bytes of a file, or fewer where it ends or a read is interrupted, with room for all, so that nothing is moved while it is read.
/// A piece is read into a small room and copied from there, which takes less time than to make zeros of all the room first.
fn read_pieces<F: Read>(alloc: Global, file: &mut F, size: usize) -> io::Result<Vec<u8>>
    ensures read { IfOk result (λ bytes. Consumes (F.remaining file.old) (F.remaining file.new) bytes.items) }
{
    let mut bytes = Vec::new(alloc);
    bytes.reserve_exact(size.saturating_add(END))?;
    let mut room = vec![in alloc; 0; PIECE.min(size)]?;
    'pieces: while bytes.len() < size {
        match file.read(room.as_mut_slice()) {
            Ok(0) => return Ok(bytes),
            Ok(n) => bytes.extend_from_slice(&room[..n])?,
            Err(error) if error.kind() == ErrorKind::Interrupted => return Ok(bytes),
            Err(error) => return Err(error),
        }
    }
    Ok(bytes)
}

/// What a write to a path is answered, and why it is refused, if it is. Memory is asked for no later than by the opening, which changes
/// no byte.
fn write_answer<R: Files<File = File>>(
    alloc: Global,
    files: &R,
    path: &[u8],
    bytes: &Pieces,
    found: &mut FoundFiles,
    reason: &mut Option<io::Error>,
) -> Result<Answer, AllocError>
    requires none { reason.old ≡ None }
    ensures done_or_refused { IfOk result (λ a. (a ≡ answer.Done) ⊎ (a ≡ answer.Refused)) }
    ensures exact { IfOk result (λ a. is_some reason.new ≡ is_refusal a) }
{
    let Ok(text) = str::from_utf8(path) else {
        *reason = Some(not_text());
        return Ok(Answer::Refused);
    };
    let room = Vec::with_capacity(alloc, bytes.len().min(ROOM))?;
    match open_to_write(files, text, found.spares()) {
        Ok(opened) => match give_bytes(files, opened, text, bytes, room, found) {
            Ok(()) => Ok(Answer::Done),
            Err(error) => {
                *reason = Some(error);
                Ok(Answer::Refused)
            }
        },
        Err(error) if error.kind() == ErrorKind::OutOfMemory => Err(AllocError),
        Err(error) => {
            *reason = Some(error);
            Ok(Answer::Refused)
        }
    }
}
