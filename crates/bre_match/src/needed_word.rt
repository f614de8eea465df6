//! A word that each match of a pattern has, by which the places are passed over where no match ends.

ghost use Rattle.std.specs.Prelude.{◌≡◌, ◌∷◌, [], false, IfSome};
ghost use Rattle.bre_parse.specs.Tree.{Set, sequence_of, tree_of};
ghost use Rattle.bre_match.specs.Passing.{NeedsWord, word_bytes};

use crate::needed::only_range;
use crate::short_word::Word;
use crate::start::one_byte_of;
use bre_parse::tree::Node;

/// The byte of an item that is one single byte.
fn single_byte(item: &Node) -> Option<u8>
    ensures value { IfSome result (λ byte. tree_of item.now ≡ Set false ((byte, byte) ∷ [])) }
{
    let set = one_byte_of(item)?;
    let (low, high) = only_range(set)?;
    if low == high { Some(low) } else { None }
}

/// The word that the first items spell, as far as each of them is one single byte and as far as it fits.
fn front_word(items: &[Node]) -> Word
    ensures needed { NeedsWord (sequence_of items.now) (word_bytes result) }
{
    let mut word = Word::empty();
    for item in items {
        if word.is_full() {
            return word;
        }
        match single_byte(item) {
            Some(byte) => word.push(byte),
            None => return word,
        }
    }
    word
}

/// The word, of those that items next to each other spell, that passes over most of a text.
pub(crate) fn needed_word(items: &[Node]) -> Word
    ensures needed { NeedsWord (sequence_of items.now) (word_bytes result) }
{
    let mut best = Word::empty();
    for at in 0..items.len() {
        let word = front_word(&items[at..]);
        if best.worth() < word.worth() {
            best = word;
        }
    }
    best
}
