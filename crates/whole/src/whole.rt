//! A run's files whose writes are held back until the run has ended.
ghost use Rattle.std.specs.Prelude.{◌≡◌, ◌≢◌, ◌<◌, ◌≤◌, ◌⊎◌, [], ◌∷◌, ◌++◌, false, length, IfOk, OnErr};
ghost use Rattle.ed_syntax.specs.declared.request.Answer.TheVariants as answer;
ghost use Rattle.ed_syntax.specs.declared.request.Request.TheVariants as request;
ghost use Rattle.whole.specs.Deeds.{Deed, GoesOn, NothingPut, refusals, run_log};
ghost use Rattle.whole.specs.Paths.{is_in, written_paths};
ghost use Rattle.whole.specs.Reads.{ReadsHeld, read_of};
ghost use Rattle.whole.specs.LeftFiles.{LeavesFiles, OldOrNew};
ghost use Rattle.whole.specs.Endings.{EndsSo, IsPlace};
ghost use Rattle.whole.specs.Insides.{IsWhole, IsWhole-prop};
ghost use Rattle.whole.specs.declared.outcome.Outcome.TheVariants as outcomes;

use crate::ending::{end, is_well};
use crate::written::{contains, is_refused, note};
use crate::{Drafting, Finished};
use ed_base::{Bytes, Pieces};
use ed_session::Outside;
use ed_syntax::Answer;
use std::alloc::{AllocError, Global};

/// An outside that writes no file before the run has ended: a write gives a draft its bytes, and a later read of that path is of the
/// draft. When the run has ended, `finish` puts the drafts, or discards them.
#[derive(Drop)]
pub struct Whole<D: Drafting + Drop> {
    alloc: Global,
    drafts: D,
    // The paths that were written, each once, in the order of their first writes.
    paths: Vec<Bytes>,
    // Whether a request was refused.
    refused: bool,
    ghost sound: { IsWhole (D.log drafts) (D.room drafts) paths.items refused } by { IsWhole-prop (D.log drafts) (D.room drafts) paths.items refused },
}

impl<D: Drafting + Drop> Whole<D> {
    /// A run over these files, which were asked nothing so far. It takes no memory.
    pub fn new(alloc: Global, drafts: D) -> Self
        requires unasked { D.log drafts ≡ [] }
        ensures log { D.log result.drafts ≡ [] }
    {
        Whole {
            alloc,
            drafts,
            paths: Vec::new(alloc),
            refused: false,
        }
    }

    /// The files, and the drafts beside them.
    pub fn drafts(&self) -> &D
        ensures value { result.now ≡ self.now.drafts }
    {
        &self.drafts
    }

    /// Until a run is finished, its files are read, and drafts are read and given bytes, and nothing else is done.
    pub fn nothing_is_put(&self)
        ensures unput { NothingPut (D.log self.now.drafts) }
        ensures same_files { LeavesFiles (D.log self.now.drafts) }
    {}

    /// Each read of a path was of its draft if the path had been written, and of the file if not.
    pub fn reads_show_what_is_held(&self)
        ensures held { ReadsHeld (D.log self.now.drafts) }
    {}

    /// Ends a run that has ended well, or hasn't. If it has, and no request was refused, all drafts are made ready, and then each is put;
    /// else all are discarded. Where one can't be made ready, all are discarded too; where one can't be put, it and those after it are.
    pub fn finish(self, ended_well: bool) -> Finished<D>
        // What became of the drafts,
        ensures ends { EndsSo result.outcome (D.log result.drafts) }
        ensures paths { result.paths.items ≡ written_paths (D.log result.drafts) }
        ensures within { IsPlace result.outcome (length result.paths.items) }

        // where all were discarded, and why.
        ensures at_a_fault { ended_well ≡ false → result.outcome ≡ outcomes.Discarded }
        ensures at_a_refusal { 0 < refusals (run_log (D.log self.drafts)) → result.outcome ≡ outcomes.Discarded }
        ensures only_then { result.outcome ≡ outcomes.Discarded →
            (ended_well ≡ false) ⊎ (0 < refusals (run_log (D.log self.drafts))) }

        // At each moment of the run and of its end, each file is as it was or as the run leaves it.
        ensures each_moment { OldOrNew (D.log result.drafts) }

        // What was done comes after the run, and nothing more was asked for that.
        ensures goes_on { GoesOn (D.log self.drafts) (D.log result.drafts) }
        ensures same_run { run_log (D.log result.drafts) ≡ run_log (D.log self.drafts) }
    {
        let Whole {
            alloc: _,
            mut drafts,
            paths,
            refused,
        } = self;
        let well = is_well(ended_well, refused);
        let outcome = end(&mut drafts, paths.as_slice(), well);
        Finished {
            drafts,
            paths,
            outcome,
        }
    }
}

/// Reads the draft of a path that was written, and else the file itself.
fn read_held<D: Drafting>(drafts: &mut D, written: bool, path: &Bytes) -> Result<Answer, AllocError>
    ensures read { IfOk result (λ a. D.log drafts.new ≡ D.log drafts.old ++ read_of written path.now a ∷ []) }
    ensures unchanged { OnErr result (D.log drafts.new ≡ D.log drafts.old) }
    ensures keeps_room { D.room drafts.old ≤ D.room drafts.new }
    ensures not_done { IfOk result (λ a. a ≢ answer.Done) }
{
    if written {
        drafts.read_draft(path)
    } else {
        drafts.read(path)
    }
}

impl<D: Drafting + Drop> Outside for Whole<D> {
    ghost use Rattle.ed_syntax.specs.declared.request.Request.{Request};
    ghost use Rattle.ed_syntax.specs.declared.request.Answer.{Answer};
    ghost use Rattle.ed_session.specs.Drives.{is_refusal};
    ghost use Rattle.std.proofs.lemmas.List.Sums.{count_by-le-length};

    ghost log = { λ w. run_log (D.log w.drafts) };

    ghost failures = { λ w. refusals (run_log (D.log w.drafts)) };

    ghost few_failures = { λ w. count_by-le-length (λ (entry : Request × Answer). is_refusal entry.1) (run_log (D.log w.drafts)) };

    fn read(&mut self, path: &[u8]) -> Result<Answer, AllocError>
        ensures logged { IfOk result (λ a.
            run_log (D.log self.new.drafts) ≡ run_log (D.log self.old.drafts) ++ (request.Read path.now, a) ∷ []) }
        ensures unchanged { OnErr result ((run_log (D.log self.new.drafts) ≡ run_log (D.log self.old.drafts))
            × (refusals (run_log (D.log self.new.drafts)) ≡ refusals (run_log (D.log self.old.drafts)))) }
        ensures rises { refusals (run_log (D.log self.old.drafts)) ≤ refusals (run_log (D.log self.new.drafts)) }
        ensures refused { IfOk result (λ a. a ≡ answer.Refused →
            refusals (run_log (D.log self.old.drafts)) < refusals (run_log (D.log self.new.drafts))) }
        ensures not_done { IfOk result (λ a. a ≢ answer.Done) }

        // In addition to what any outside ensures: the draft is read if the path was written, and else the file.
        ensures held { IfOk result (λ a. D.log self.new.drafts
            ≡ D.log self.old.drafts ++ read_of (is_in path.now (written_paths (D.log self.old.drafts))) path.now a ∷ []) }
    {
        let name = Bytes::from_slice(self.alloc, path)?;
        let written = contains(self.paths.as_slice(), path);
        let answer = read_held(&mut self.drafts, written, &name)?;
        self.refused = is_refused(self.refused, &answer);
        Ok(answer)
    }

    fn write(&mut self, path: &[u8], bytes: &Pieces) -> Result<Answer, AllocError>
        ensures logged { IfOk result (λ a.
            run_log (D.log self.new.drafts) ≡ run_log (D.log self.old.drafts) ++ (request.Write path.now bytes.now, a) ∷ []) }
        ensures unchanged { OnErr result ((run_log (D.log self.new.drafts) ≡ run_log (D.log self.old.drafts))
            × (refusals (run_log (D.log self.new.drafts)) ≡ refusals (run_log (D.log self.old.drafts)))) }
        ensures rises { refusals (run_log (D.log self.old.drafts)) ≤ refusals (run_log (D.log self.new.drafts)) }
        ensures refused { IfOk result (λ a. a ≡ answer.Refused →
            refusals (run_log (D.log self.old.drafts)) < refusals (run_log (D.log self.new.drafts))) }
        ensures done_or_refused { IfOk result (λ a. (a ≡ answer.Done) ⊎ (a ≡ answer.Refused)) }

        // In addition to what any outside ensures: the draft is given these bytes.
        ensures drafted { IfOk result (λ a. D.log self.new.drafts
            ≡ D.log self.old.drafts ++ Deed.Draft path.now bytes.now a ∷ []) }
    {
        let name = Bytes::from_slice(self.alloc, path)?;
        self.paths.reserve(1)?;
        let answer = self.drafts.draft(&name, bytes)?;
        note(&mut self.paths, name);
        self.refused = is_refused(self.refused, &answer);
        Ok(answer)
    }
}
