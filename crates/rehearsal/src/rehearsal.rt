//! A rehearsal over an outside: its files are read, and what would be written is held back.
ghost use Rattle.std.specs.Prelude.{◌≡◌, ◌≢◌, ◌<◌, ◌≤◌, ◌⊎◌, None, [], ◌∷◌, ◌++◌, IfOk, OnErr};
ghost use Rattle.ed_syntax.specs.declared.request.Answer.TheVariants as answer;
ghost use Rattle.ed_syntax.specs.declared.request.Request.TheVariants as request;
ghost use Rattle.ed_session.specs.MemFiles.{file_at, files_of, log_of, refusals};
ghost use Rattle.rehearsal.specs.Rehearsals.{AllRead, AllWritesDone, ReadsAtMost, Rehearses, Shown, written};
ghost use Rattle.rehearsal.specs.Held.{writes_of};
ghost use Rattle.rehearsal.specs.Insides.{IsRehearsal, IsRehearsal-prop};

use crate::HeldWrite;
use crate::fetching::{call_refused, fetch};
use crate::held_write::lines_at;
use ed_base::{Bytes, Pieces};
use ed_session::{MemFiles, Outside};
use ed_syntax::Answer;
use std::alloc::{AllocError, Global};

/// An outside that reads real files and writes none: what is written to a path is held, and a later read of it gives those bytes.
///
/// A file that was read is held too, so that it is asked for once. One that was missing or refused is asked for again.
#[derive(Drop)]
pub struct Rehearsal<O: Outside + Drop> {
    alloc: Global,
    real: O,
    files: MemFiles,
    // How many calls the log of the files has.
    calls: u64,
    held: Vec<HeldWrite>,
    ghost sound: { IsRehearsal (O.log real) files calls held.items } by { IsRehearsal-prop (O.log real) files calls held.items },
}

impl<O: Outside + Drop> Rehearsal<O> {
    /// A rehearsal over these files, which were only read so far. It takes no memory.
    pub fn new(alloc: Global, real: O) -> Self
        requires only_read { AllRead (O.log real) }
        ensures log { log_of result.files ≡ [] }
        ensures count { refusals result.files ≡ 0 }
        ensures real { O.log result.real ≡ O.log real }
    {
        Rehearsal {
            alloc,
            real,
            files: MemFiles::new(alloc),
            calls: 0,
            held: Vec::new(alloc),
        }
    }

    /// The real files.
    pub fn real(&self) -> &O
        ensures value { result.now ≡ self.now.real }
    {
        &self.real
    }

    /// The writes that would have been made, the first one first.
    pub fn writes(&self) -> &[HeldWrite]
        ensures value { result.now ≡ writes_of (log_of self.now.files) }
    {
        self.held.as_slice()
    }

    /// In the whole life of a rehearsal the real files are asked for reads alone.
    pub fn real_files_are_only_read(&self)
        ensures no_write { AllRead (O.log self.now.real) }
    {}

    /// In the log of a rehearsal each write is done.
    pub fn writes_are_done(&self)
        ensures done { AllWritesDone (log_of self.now.files) }
    {}

    /// In the log of a rehearsal each read shows what was written last, or else what the real files have answered.
    pub fn reads_show_what_was_written(&self)
        ensures rehearsed { Rehearses (O.log self.now.real) [] (log_of self.now.files) }
    {}
}

impl<O: Outside + Drop> Outside for Rehearsal<O> {
    ghost log = { λ r. log_of r.files };

    ghost failures = { λ r. refusals r.files };

    ghost few_failures = { λ r. r.sound.few };

    fn read(&mut self, path: &[u8]) -> Result<Answer, AllocError>
        ensures logged { IfOk result (λ a.
            log_of self.new.files ≡ log_of self.old.files ++ (request.Read path.now, a) ∷ []) }
        ensures unchanged { OnErr result
            ((log_of self.new.files ≡ log_of self.old.files) × (refusals self.new.files ≡ refusals self.old.files)) }
        ensures rises { refusals self.old.files ≤ refusals self.new.files }
        ensures refused { IfOk result (λ a. a ≡ answer.Refused → refusals self.old.files < refusals self.new.files) }
        ensures not_done { IfOk result (λ a. a ≢ answer.Done) }

        // In addition to what any outside ensures: what is asked of the real files,
        ensures no_write { ReadsAtMost path.now (O.log self.old.real) (O.log self.new.real) }
        ensures asked_once { file_at path.now (files_of self.old.files) ≢ None → O.log self.new.real ≡ O.log self.old.real }

        // and the answer: what was written last, or else what they have answered.
        ensures shown { IfOk result (λ a.
            Shown (O.log self.new.real) (written (log_of self.old.files)) path.now a) }
    {
        let Some(calls) = self.calls.checked_add(1) else {
            return Err(AllocError);
        };
        let refused = fetch(&mut self.real, &mut self.files, path)?;
        self.files.refuse(call_refused(refused, calls));
        let read = self.files.read(path);
        self.files.refuse(0);
        let answer = read?;
        self.calls = calls;
        Ok(answer)
    }

    fn write(&mut self, path: &[u8], bytes: &Pieces) -> Result<Answer, AllocError>
        ensures logged { IfOk result (λ a.
            log_of self.new.files ≡ log_of self.old.files ++ (request.Write path.now bytes.now, a) ∷ []) }
        ensures unchanged { OnErr result
            ((log_of self.new.files ≡ log_of self.old.files) × (refusals self.new.files ≡ refusals self.old.files)) }
        ensures rises { refusals self.old.files ≤ refusals self.new.files }
        ensures refused { IfOk result (λ a. a ≡ answer.Refused → refusals self.old.files < refusals self.new.files) }
        ensures done_or_refused { IfOk result (λ a. (a ≡ answer.Done) ⊎ (a ≡ answer.Refused)) }

        // In addition to what any outside ensures: the real files are asked nothing, and the write is done.
        ensures no_write { O.log self.new.real ≡ O.log self.old.real }
        ensures done { IfOk result (λ a. a ≡ answer.Done) }
    {
        let Some(calls) = self.calls.checked_add(1) else {
            return Err(AllocError);
        };
        self.held.reserve(1)?;
        let name = Bytes::from_slice(self.alloc, path)?;
        let answer = self.files.write(path, bytes)?;
        let lines = lines_at(&self.files, path);
        let told = HeldWrite {
            path: name,
            lines,
            bytes: bytes.len(),
        };
        self.held.push_reserved(told);
        self.calls = calls;
        Ok(answer)
    }
}
