//! Places of a text before which no part of it matches.

ghost use Rattle.std.specs.Prelude.{◌≡◌, length};

use crate::short_word::Word;
use memchr::memmem::Finder;

/// A search for a word that each match of a pattern has, by which the parts of many texts are passed over that can't match.
#[derive(Drop)]
pub struct Candidates<'a> {
    finder: Finder<'a>,
    size: usize,
    ghost long: { size ≡ length finder },
}

impl<'a> Candidates<'a> {
    ghost use Rattle.std.specs.Prelude.{◌+◌, ◌≤◌, IfNone, IfSome};
    ghost use Rattle.bre_parse.specs.Tree.{Tree};
    ghost use Rattle.bre_match.specs.Passing.{needed_by, NeedsWord, NoneEndsBefore, word_bytes};

    /// A search for a word. It takes no memory.
    pub fn of(word: &'a Word) -> Self
        ensures word { needed_by result ≡ word_bytes word.now }
    {
        let bytes = word.as_slice();
        Candidates {
            finder: Finder::new(bytes),
            size: bytes.len(),
        }
    }

    /// Where the first part of a text ends that may match, or a place before it; none where no part does. It takes no memory.
    pub fn first(&self, text: &[u8]) -> Option<usize>
        ensures none { (tree : Tree) → NeedsWord tree (needed_by self.now) → IfNone result (NoneEndsBefore tree text.now (length text.now + 1)) }
        ensures before { (tree : Tree) → NeedsWord tree (needed_by self.now) → IfSome result (NoneEndsBefore tree text.now) }
        ensures within { IfSome result (λ place. place ≤ length text.now) }
    {
        let passed = self.finder.find(text)?;
        Some(passed + self.size)
    }
}
