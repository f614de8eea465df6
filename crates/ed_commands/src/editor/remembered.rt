//! The pattern that an editor remembers, with what searches for it have learned.
ghost use Rattle.std.specs.Prelude.{◌≡◌, Ok, Some, IfOk};
ghost use Rattle.bre_parse.specs.Grammar.{pattern as pattern_of};
ghost use Rattle.bre_match.specs.Searchers.{searched};
ghost use Rattle.ed_commands.specs.Searches.{IsLearnedOf};

use bre_match::{Learned, Searcher};
use ed_syntax::Pattern;
use std::alloc::{AllocError, Global};
use std::marker::Model;

/// A remembered pattern. What one search for it has learned serves the next one, whichever command searches. Contracts see the pattern's
/// text alone.
#[derive(Drop)]
pub struct Remembered {
    pattern: Pattern,
    // None before the first search, and while one goes on.
    learned: Option<Learned>,
}

impl Model for Remembered {
    ghost use Rattle.std.specs.Prelude.{ℕ, List, IfSome};
    ghost use Rattle.ed_commands.specs.Searches.{IsLearnedOf};

    ghost Value = { List ℕ };

    ghost view = { λ r. r.pattern };

    ghost invariant = { λ r. IfSome r.learned (λ learned. IsLearnedOf learned r.pattern) };
}

impl Remembered {
    /// Of a pattern of which nothing was learned yet. It takes no memory.
    pub(crate) fn of(pattern: Pattern) -> Self
        ensures value { result ≡ pattern }
    {
        Remembered {
            pattern,
            learned: None,
        }
    }

    /// The pattern itself.
    pub(crate) fn pattern(&self) -> &Pattern
        ensures value { result.now ≡ self.now }
    {
        &self.pattern
    }

    /// An equal pattern, of which nothing was learned yet.
    pub(crate) fn try_copy(&self) -> Result<Remembered, AllocError>
        ensures value { IfOk result (λ copy. copy ≡ self.now) }
    {
        Ok(Remembered::of(self.pattern.try_copy()?))
    }

    /// Takes out what was learned, for a search; `put_back` takes it back after it. Where it doesn't come back, the next search learns all
    /// of it again. It takes no memory.
    pub(crate) fn take_learned(&mut self, alloc: Global) -> Learned
        ensures learned { IsLearnedOf result self.old }
        ensures kept { self.new ≡ self.old }
    {
        match self.learned.take() {
            Some(learned) => learned,
            None => Learned::of(alloc, self.pattern.bre()),
        }
    }

    /// A searcher that goes on with what was learned.
    pub(crate) fn searcher(&self, learned: Learned) -> Searcher<'_>
        requires learned { IsLearnedOf learned self.now }
        ensures searches { pattern_of self.now ≡ Ok (searched result) }
    {
        Searcher::resume(self.pattern.bre(), learned)
    }

    /// Keeps what was learned for the next search.
    pub(crate) fn put_back(&mut self, learned: Learned)
        requires learned { IsLearnedOf learned self.old }
        ensures kept { self.new ≡ self.old }
    {
        self.learned = Some(learned);
    }
}
