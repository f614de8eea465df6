//! The ways in which a pattern is looked for.

ghost use Rattle.std.specs.Prelude.{◌≤◌, length, IfOk, IfSome};
ghost use Rattle.bre_match.specs.Answer.{LiesWithin};

use bre_match::{Match, Searcher, find, matches};
use bre_parse::Bre;
use std::alloc::{AllocError, Global};

/// How a pattern is looked for.
#[derive(Clone, Copy)]
pub(crate) enum Means {
    /// By the functions for one text.
    Alone,
    /// By one searcher for all texts.
    Searcher,
    /// By a new searcher for each text.
    NewSearchers,
}

/// A pattern, looked for in one text after another.
#[derive(Drop)]
pub(crate) struct Finder<'a> {
    alloc: Global,
    means: Means,
    pattern: &'a Bre,
    searcher: Searcher<'a>,
}

impl<'a> Finder<'a> {
    pub(crate) fn new(alloc: Global, means: Means, pattern: &'a Bre) -> Self {
        Finder {
            alloc,
            means,
            pattern,
            searcher: Searcher::new(alloc, pattern),
        }
    }

    /// Has to be called before each text.
    pub(crate) fn begin(&mut self) {
        if let Means::NewSearchers = self.means {
            self.searcher = Searcher::new(self.alloc, self.pattern);
        }
    }

    pub(crate) fn matches(&mut self, text: &[u8]) -> Result<bool, AllocError> {
        match self.means {
            Means::Alone => matches(self.alloc, self.pattern, text),
            Means::Searcher | Means::NewSearchers => self.searcher.matches(text),
        }
    }

    pub(crate) fn find(&mut self, text: &[u8], from: usize) -> Result<Option<Match>, AllocError>
        requires place { from ≤ length text.now }
        ensures within { IfOk result (λ found. IfSome found (LiesWithin from (length text.now))) }
    {
        match self.means {
            Means::Alone => find(self.alloc, self.pattern, text, from),
            Means::Searcher | Means::NewSearchers => self.searcher.find(text, from),
        }
    }
}
