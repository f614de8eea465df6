//! Files in memory, whose calls are logged.
ghost use Rattle.std.specs.Prelude.{◌≡◌, ◌≢◌, ◌<◌, ◌≤◌, ◌⊎◌, [], ◌∷◌, ◌++◌, length, option_map, IfOk, OnOk, OnErr};
ghost use Rattle.ed_syntax.specs.declared.request.Answer.TheVariants as answer;
ghost use Rattle.ed_syntax.specs.declared.request.Request.TheVariants as request;
ghost use Rattle.ed_session.specs.KeptAnswers.{AllWithin, place_of, answer_of, found};

use crate::Outside;
use crate::kept::KeptAnswer;
use ed_base::{Bytes, Pieces};
use ed_syntax::{Answer, Request};
use std::alloc::{AllocError, Global};

/// An outside whose files are held in memory. A path that was never added is missing.
#[derive(Drop)]
pub struct MemFiles {
    alloc: Global,
    // The latest first.
    files: Vec<(Bytes, Bytes)>,
    log: Vec<(Request, KeptAnswer)>,
    refused: u64,
    failures: usize,
    ghost few: { failures ≤ length log.items },
    ghost within: { AllWithin (length files.items) log.items },
}

impl MemFiles {
    ghost use Rattle.ed_session.specs.MemFiles.{file_at, files_of, log_of, refused_call, refusals, refuses_now, ChangesFiles, ChangesRefused};

    /// No files. It takes no memory.
    pub fn new(alloc: Global) -> Self
        ensures files { files_of result ≡ [] }
        ensures log { log_of result ≡ [] }
        ensures refuses_none { refused_call result ≡ 0 }
        ensures count { refusals result ≡ 0 }
    {
        MemFiles {
            alloc,
            files: Vec::new(alloc),
            log: Vec::new(alloc),
            refused: 0,
            failures: 0,
        }
    }

    /// Gives the file at a path these bytes, in place of those that it had. The bytes themselves aren't copied.
    pub fn add(&mut self, path: &[u8], bytes: Bytes) -> Result<(), AllocError>
        ensures added { OnOk result
            (ChangesFiles self.old self.new ((path.now, bytes) ∷ files_of self.old)) }
        ensures unchanged { OnErr result (ChangesFiles self.old self.new (files_of self.old)) }
    {
        let name = Bytes::from_slice(self.alloc, path)?;
        self.files.insert(0, (name, bytes))?;
        Ok(())
    }

    /// Its `k`-th call of `read` or `write` will be refused, counted from 1 and from its making, without those that
    /// find no memory; with 0 none. An earlier such wish is forgotten.
    pub fn refuse(&mut self, k: u64)
        ensures value { ChangesRefused self.old self.new k }
    {
        self.refused = k;
    }

    /// The bytes of the file at a path, those that were added or written last; none where there is no such file.
    pub fn file(&self, path: &[u8]) -> Option<&[u8]>
        ensures value { option_map (λ bytes. bytes.now) result ≡ file_at path.now (files_of self.now) }
    {
        'files: for (name, bytes) in self.files.as_slice() {
            if name.as_slice() == path {
                return Some(bytes.as_slice());
            }
        }
        None
    }

    /// The next call is the one that is refused.
    fn refuses(&self) -> bool
        ensures value { result ≡ refuses_now self.now }
    {
        self.refused > 0 && self.refused - 1 == self.log.len() as u64
    }

    /// What the log keeps of the file at a path.
    fn find(&self, path: &[u8]) -> KeptAnswer
        ensures within { place_of result ≤ length (files_of self.now) }
        ensures value { answer_of (files_of self.now) result ≡ found (file_at path.now (files_of self.now)) }
    {
        let mut left = self.files.len();
        'files: for (name, _) in self.files.as_slice() {
            if name.as_slice() == path {
                return KeptAnswer::File(left);
            }
            left -= 1;
        }
        KeptAnswer::Missing
    }

    /// The answer that is kept so.
    fn tell(&self, kept: KeptAnswer) -> Result<Answer, AllocError>
        requires within { place_of kept ≤ length (files_of self.now) }
        ensures value { IfOk result (λ a. a ≡ answer_of (files_of self.now) kept) }
    {
        match kept {
            KeptAnswer::File(place) => match self.files.get(self.files.len() - place) {
                Some((_, bytes)) => Ok(Answer::Bytes(bytes.try_copy()?)),
                None => Ok(Answer::Missing),
            }
            KeptAnswer::Missing => Ok(Answer::Missing),
            KeptAnswer::Refused => Ok(Answer::Refused),
            KeptAnswer::Done => Ok(Answer::Done),
        }
    }
}

impl Outside for MemFiles {
    ghost use Rattle.ed_session.specs.MemFiles.{files_of, log_of, refused_call, refusals, read_answer, write_answer, files_written, refusals_after};

    ghost log = { λ m. log_of m };

    ghost failures = { λ m. m.failures };

    ghost use Rattle.std.proofs.Common.{subst, sym};
    ghost use Rattle.std.proofs.lemmas.List.{length-map};

    ghost few_failures = { λ m. subst (λ n. m.failures ≤ n) (sym (length-map m.log.items _)) m.few };

    fn read(&mut self, path: &[u8]) -> Result<Answer, AllocError>
        ensures logged { IfOk result (λ a.
            log_of self.new ≡ log_of self.old ++ (request.Read path.now, a) ∷ []) }
        ensures unchanged { OnErr result
            ((log_of self.new ≡ log_of self.old) × (refusals self.new ≡ refusals self.old)) }
        ensures rises { refusals self.old ≤ refusals self.new }
        ensures refused { IfOk result (λ a. a ≡ answer.Refused → refusals self.old < refusals self.new) }
        ensures not_done { IfOk result (λ a. a ≢ answer.Done) }

        // Beside what any outside ensures: the answer, and that the files stay.
        ensures value { IfOk result (λ a. a ≡ read_answer self.old path.now) }
        ensures count { OnOk result (refusals self.new ≡ refusals_after self.old) }
        ensures files { (files_of self.new ≡ files_of self.old)
            × (refused_call self.new ≡ refused_call self.old) }
    {
        self.log.reserve(1)?;
        let asked = Request::Read(Bytes::from_slice(self.alloc, path)?);
        let kept = if self.refuses() {
            KeptAnswer::Refused
        } else {
            self.find(path)
        };
        let answer = self.tell(kept)?;
        self.log.push((asked, kept))?;
        if matches!(kept, KeptAnswer::Refused) {
            self.failures += 1;
        }
        Ok(answer)
    }

    fn write(&mut self, path: &[u8], bytes: &Pieces) -> Result<Answer, AllocError>
        ensures logged { IfOk result (λ a.
            log_of self.new ≡ log_of self.old ++ (request.Write path.now bytes.now, a) ∷ []) }
        ensures unchanged { OnErr result
            ((log_of self.new ≡ log_of self.old) × (refusals self.new ≡ refusals self.old)) }
        ensures rises { refusals self.old ≤ refusals self.new }
        ensures refused { IfOk result (λ a. a ≡ answer.Refused → refusals self.old < refusals self.new) }
        ensures done_or_refused { IfOk result (λ a. (a ≡ answer.Done) ⊎ (a ≡ answer.Refused)) }

        // Beside what any outside ensures: the answer, and the files after it.
        ensures value { IfOk result (λ a. a ≡ write_answer self.old) }
        ensures count { OnOk result (refusals self.new ≡ refusals_after self.old) }
        ensures written { OnOk result (files_of self.new ≡ files_written self.old path.now bytes.now) }
        ensures kept { OnErr result (files_of self.new ≡ files_of self.old) }
        ensures refuses { refused_call self.new ≡ refused_call self.old }
    {
        self.log.reserve(1)?;
        let asked = Request::Write(
            Bytes::from_slice(self.alloc, path)?,
            Pieces::from_bytes(self.alloc, bytes.to_bytes(self.alloc)?),
        );
        if self.refuses() {
            self.log.push((asked, KeptAnswer::Refused))?;
            self.failures += 1;
            return Ok(Answer::Refused);
        }
        let name = Bytes::from_slice(self.alloc, path)?;
        let held = bytes.to_bytes(self.alloc)?;
        self.files.insert(0, (name, held))?;
        self.log.push((asked, KeptAnswer::Done))?;
        Ok(Answer::Done)
    }
}
