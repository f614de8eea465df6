//! Files, and drafts beside them that can take their places, with a log of what was asked and answered.
ghost use Rattle.std.specs.Prelude.{◌≡◌, ◌≢◌, ◌<◌, ◌≤◌, ◌+◌, ◌⊎◌, ℕ, List, [], ◌∷◌, ◌++◌, IfOk, OnOk, OnErr};
ghost use Rattle.ed_syntax.specs.declared.request.Answer.TheVariants as answer;
ghost use Rattle.whole.specs.Deeds.{Deed};

use ed_base::{Bytes, Pieces};
use ed_syntax::Answer;
use std::alloc::AllocError;

/// Files that are read, and drafts beside them: a draft is what a file is to have, and takes its place when it is put there.
///
/// The calls that end a run ask for no memory: each draft that is given bytes makes room in the log for one of each.
pub trait Drafting {
    /// What was asked and answered, the oldest first.
    ghost log: { Self → List Deed };

    /// How many calls of `ready`, `put`, `discard` and `settle` the log has room for.
    ghost room: { Self → ℕ };

    /// The bytes of the file at a path, or that there is none, or that it can't be read.
    fn read(&mut self, path: &Bytes) -> Result<Answer, AllocError>
        ensures logged { IfOk result (λ a. log self.new ≡ log self.old ++ Deed.Read path.now a ∷ []) }
        ensures unchanged { OnErr result (log self.new ≡ log self.old) }
        ensures keeps_room { room self.old ≤ room self.new }
        ensures not_done { IfOk result (λ a. a ≢ answer.Done) };

    /// The bytes of the draft of a path, or that it can't be read.
    fn read_draft(&mut self, path: &Bytes) -> Result<Answer, AllocError>
        ensures logged { IfOk result (λ a. log self.new ≡ log self.old ++ Deed.ReadDraft path.now a ∷ []) }
        ensures unchanged { OnErr result (log self.new ≡ log self.old) }
        ensures keeps_room { room self.old ≤ room self.new }
        ensures not_done { IfOk result (λ a. a ≢ answer.Done) };

    /// Gives the draft of a path just these bytes, and makes it first where there is none; or says that the path can't be replaced, or
    /// that the draft can't be written.
    fn draft(&mut self, path: &Bytes, bytes: &Pieces) -> Result<Answer, AllocError>
        ensures logged { IfOk result (λ a. log self.new ≡ log self.old ++ Deed.Draft path.now bytes.now a ∷ []) }
        ensures unchanged { OnErr result (log self.new ≡ log self.old) }
        ensures keeps_room { room self.old ≤ room self.new }
        ensures makes_room { OnOk result (room self.old + 4 ≤ room self.new) }
        ensures done_or_refused { IfOk result (λ a. (a ≡ answer.Done) ⊎ (a ≡ answer.Refused)) };

    /// Makes the draft of a path such that it can take the place of the file: all its bytes are there to stay, and its mode and owner are
    /// those of the file. Says whether it is so.
    fn ready(&mut self, path: &Bytes) -> bool
        requires has_room { 0 < room self.old }
        ensures logged { log self.new ≡ log self.old ++ Deed.Ready path.now result ∷ [] }
        ensures takes_room { room self.old ≤ room self.new + 1 };

    /// Puts the draft of a path in the place of its file, all at once, and says whether it is there. If not, the file is as it was.
    fn put(&mut self, path: &Bytes) -> bool
        requires has_room { 0 < room self.old }
        ensures logged { log self.new ≡ log self.old ++ Deed.Put path.now result ∷ [] }
        ensures takes_room { room self.old ≤ room self.new + 1 };

    /// Discards the draft of a path, if there is one and as far as that can be.
    fn discard(&mut self, path: &Bytes)
        requires has_room { 0 < room self.old }
        ensures logged { log self.new ≡ log self.old ++ Deed.Discard path.now ∷ [] }
        ensures takes_room { room self.old ≤ room self.new + 1 };

    /// Sees to it, as far as the system lets that be done, that what was put at a path is there to stay.
    fn settle(&mut self, path: &Bytes)
        requires has_room { 0 < room self.old }
        ensures logged { log self.new ≡ log self.old ++ Deed.Settle path.now ∷ [] }
        ensures takes_room { room self.old ≤ room self.new + 1 };
}
