//! The outside of a run: its files, with a log of what was asked and answered.
ghost use Rattle.std.specs.Prelude.{◌≡◌, ◌≢◌, ◌<◌, ◌≤◌, ◌⊎◌, ℕ, List, [], ◌∷◌, ◌++◌, length, IfOk, OnErr};
ghost use Rattle.ed_syntax.specs.declared.request.Answer.{Answer};
ghost use Rattle.ed_syntax.specs.declared.request.Answer.TheVariants as answer;
ghost use Rattle.ed_syntax.specs.declared.request.Request.{Request};
ghost use Rattle.ed_syntax.specs.declared.request.Request.TheVariants as request;
ghost use Rattle.ed_session.specs.Drives.{Log};

use ed_base::Pieces;
use ed_syntax::Answer;
use std::alloc::AllocError;

/// Files that a run reads and writes. Each call makes room for its entry of the log before it does anything else.
pub trait Outside {
    /// What was asked and answered, the oldest first.
    ghost log: { Self → Log };

    /// How often it has refused.
    ghost failures: { Self → ℕ };

    /// The bytes of the file at a path, or that there is none, or that it can't be read.
    fn read(&mut self, path: &[u8]) -> Result<Answer, AllocError>
        ensures logged { IfOk result (λ a.
            log self.new ≡ log self.old ++ (request.Read path.now, a) ∷ []) }

        // A call that finds no memory leaves the log and the count.
        ensures unchanged { OnErr result
            ((log self.new ≡ log self.old) × (failures self.new ≡ failures self.old)) }

        // The count rises at least where it refuses.
        ensures rises { failures self.old ≤ failures self.new }
        ensures refused { IfOk result (λ a. a ≡ answer.Refused → failures self.old < failures self.new) }

        ensures not_done { IfOk result (λ a. a ≢ answer.Done) };

    /// Gives the file at a path just these bytes, or says that it can't be written.
    fn write(&mut self, path: &[u8], bytes: &Pieces) -> Result<Answer, AllocError>
        ensures logged { IfOk result (λ a.
            log self.new ≡ log self.old ++ (request.Write path.now bytes.now, a) ∷ []) }

        // A call that finds no memory leaves the log and the count.
        ensures unchanged { OnErr result
            ((log self.new ≡ log self.old) × (failures self.new ≡ failures self.old)) }

        // The count rises at least where it refuses.
        ensures rises { failures self.old ≤ failures self.new }
        ensures refused { IfOk result (λ a. a ≡ answer.Refused → failures self.old < failures self.new) }

        ensures done_or_refused { IfOk result (λ a. (a ≡ answer.Done) ⊎ (a ≡ answer.Refused)) };

    /// It has refused at most what it was asked.
    ghost few_failures: { (o : Self) → failures o ≤ length (log o) };
}
