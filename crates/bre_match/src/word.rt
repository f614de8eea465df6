//! The match of a literal pattern, by a search for its word.

ghost use Rattle.std.specs.Prelude.{◌≡◌, ◌≤◌, Some, IfSome, length, option_map};
ghost use Rattle.bre_parse.specs.Tree.{Tree};
ghost use Rattle.bre_parse.specs.Literal.{literal};
ghost use Rattle.bre_parse.specs.Match.{match_from};
ghost use Rattle.bre_match.specs.Answer.{spans, LiesWithin};

use crate::Match;
use memchr::memmem;

/// Where the word stands first in the text, from a place on.
pub(crate) fn find_word(word: &[u8], text: &[u8], from: usize) -> Option<Match>
    requires place { from ≤ length text.now }
    ensures value { (tree : Tree) → literal tree ≡ Some word.now → option_map spans result ≡ match_from tree text.now from }
    ensures within { IfSome result (LiesWithin from (length text.now)) }
{
    let passed = memmem::find(&text[from..], word)?;
    let start = from + passed;
    let end = start + word.len();
    let groups = [None; 9];
    Some(Match { start, end, groups })
}
