//! What is known of matches.

ghost use Rattle.std.specs.Prelude.{◌≡◌, ◌↔◌, IsTrue, IfOk, OnOk};
ghost use Rattle.ed_rules.specs.KnownMatches.{no_matches, old_has_of_both, matches_of_both, CoversMatches};
ghost use Rattle.ed_rules.specs.Matching.{matches_by_undo};

use crate::state::{Old, Undo};
use ed_base::Texts;
use std::alloc::{AllocError, Global};

/// What is known of matches. What is done with all of it at once is a function here.
#[derive(Debug, Drop)]
pub struct Matches {
    /// The patterns that some line surely matches.
    pub has: Texts,
    /// The same of an earlier buffer, which undo may bring back; none where it can't.
    pub old_has: Texts,
}

impl Matches {
    /// Nothing is known. It takes no memory.
    pub(crate) fn none(alloc: Global) -> Matches
        ensures value { result ≡ no_matches }
    {
        Matches {
            has: Texts::none(alloc),
            old_has: Texts::none(alloc),
        }
    }

    /// The same, made by the same allocator.
    pub(crate) fn try_copy(&self) -> Result<Matches, AllocError>
        ensures value { IfOk result (λ copy. copy ≡ self.now) }
    {
        Ok(Matches {
            has: self.has.try_copy()?,
            old_has: self.old_has.try_copy()?,
        })
    }

    /// Becomes the same, and asks for memory only where a set differs. After an `Err` it says one thing or the other.
    pub(crate) fn try_copy_from(&mut self, other: &Matches) -> Result<(), AllocError>
        ensures value { OnOk result (self.new ≡ other.now) }
    {
        self.has.try_copy_from(&other.has)?;
        self.old_has.try_copy_from(&other.old_has)
    }

    /// What both say, by the earlier buffers that undo may find on either side.
    pub(crate) fn both(
        &self,
        was: &Option<Old>,
        other: &Matches,
        other_was: &Option<Old>,
    ) -> Result<Matches, AllocError>
        ensures value { IfOk result (λ both. both ≡ matches_of_both was.now other_was.now self.now other.now) }
    {
        Ok(Matches {
            has: self.has.both(&other.has)?,
            old_has: old_has_of_both(was, other_was, &self.old_has, &other.old_has)?,
        })
    }

    /// What is known after undo, by what it may find.
    pub(crate) fn by_undo(&self, undo: &Undo) -> Result<Matches, AllocError>
        ensures value { IfOk result (λ known. known ≡ matches_by_undo undo.now.same undo.now.was self.now) }
    {
        let exchanged = Matches {
            has: self.old_has.try_copy()?,
            old_has: self.has.try_copy()?,
        };
        if undo.was.is_none() {
            self.try_copy()
        } else if undo.same {
            self.both(&undo.was, &exchanged, &undo.was)
        } else {
            Ok(exchanged)
        }
    }

    /// Whether the other one says all that this one says, of earlier lines where it has such a buffer. It takes no memory.
    pub(crate) fn covers(&self, other: &Matches, was: &Option<Old>) -> bool
        ensures exact { IsTrue result ↔ CoversMatches was.now self.now other.now }
    {
        self.has.are_among(&other.has) && (was.is_none() || self.old_has.are_among(&other.old_has))
    }
}

/// What some line of an earlier buffer matches, by both.
fn old_has_of_both(
    one: &Option<Old>,
    other: &Option<Old>,
    has: &Texts,
    other_has: &Texts,
) -> Result<Texts, AllocError>
    ensures value { IfOk result (λ both. both ≡ old_has_of_both one.now other.now has.now other_has.now) }
{
    match (one, other) {
        (None, _) => other_has.try_copy(),
        (Some(_), None) => has.try_copy(),
        (Some(_), Some(_)) => has.both(other_has),
    }
}
