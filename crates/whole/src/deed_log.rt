//! A log of calls, with room for those that end a run.
ghost use Rattle.std.specs.Prelude.{◌≡◌, ◌<◌, ◌≤◌, ◌+◌, [], ◌∷◌, ◌++◌, vec_len, vec_capacity, IfOk};

use crate::seen_deed::SeenDeed;
use std::alloc::{AllocError, Global};

/// A log of calls. Some calls are promised: it has room for them, and so they need no memory.
#[derive(Drop)]
pub(crate) struct DeedLog {
    deeds: Vec<SeenDeed>,
    // How many calls are promised.
    promised: usize,
    ghost fits: { vec_len deeds + promised ≤ vec_capacity deeds },
}

impl DeedLog {
    pub(crate) fn new(alloc: Global) -> Self
        ensures deeds { result.deeds.items ≡ [] }
        ensures promised { result.promised ≡ 0 }
    {
        DeedLog {
            deeds: Vec::new(alloc),
            promised: 0,
        }
    }

    /// Makes room for one call more, and for so many after it that are to be promised by it. Says how many are promised then.
    pub(crate) fn make_room(&mut self, more: usize) -> Result<usize, AllocError>
        ensures same_deeds { self.new.deeds.items ≡ self.old.deeds.items }
        ensures same_promise { self.new.promised ≡ self.old.promised }
        ensures promised { IfOk result (λ promised. promised ≡ self.old.promised + more) }
        ensures room { IfOk result (λ promised. vec_len self.new.deeds + (promised + 1) ≤ vec_capacity self.new.deeds) }
    {
        let Some(promised) = self.promised.checked_add(more) else {
            return Err(AllocError);
        };
        let Some(room) = promised.checked_add(1) else {
            return Err(AllocError);
        };
        self.deeds.reserve(room)?;
        Ok(promised)
    }

    /// Adds a call, after which so many are promised. Room for all was made.
    pub(crate) fn add(&mut self, deed: SeenDeed, promised: usize)
        requires room { vec_len self.old.deeds + (promised + 1) ≤ vec_capacity self.old.deeds }
        ensures added { self.new.deeds.items ≡ self.old.deeds.items ++ deed ∷ [] }
        ensures promised { self.new.promised ≡ promised }
    {
        self.deeds.push_reserved(deed);
        self.promised = promised;
    }

    /// Adds a call that was promised.
    pub(crate) fn keep_promise(&mut self, deed: SeenDeed)
        requires promised { 0 < self.old.promised }
        ensures added { self.new.deeds.items ≡ self.old.deeds.items ++ deed ∷ [] }
        ensures one_less { self.new.promised + 1 ≡ self.old.promised }
    {
        self.deeds.push_reserved(deed);
        self.promised -= 1;
    }
}
