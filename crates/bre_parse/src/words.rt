//! Patterns that are a word, perhaps between anchors.

ghost use Rattle.std.specs.Prelude.{◌≡◌, IfOk, option_map};
ghost use Rattle.bre_parse.specs.Tree.{sequence_of};
ghost use Rattle.bre_parse.specs.Words.{word_to_end, word_between, agree, end_agrees, are_apart, spares_if, spares_word, keeps_word};

use crate::always::{has_last_anchor, is_last_anchor};
use crate::text_heads::{after_start, is_anchored, single_byte};
use crate::tree::Node;
use std::alloc::{AllocError, Global};

/// The word of the items up to the anchor `$` that ends them, or of all of them.
fn word_to_end(alloc: Global, items: &[Node]) -> Result<Option<Vec<u8>>, AllocError>
    ensures value { IfOk result (λ found. option_map (λ word. word.items) found ≡ word_to_end (sequence_of items.now)) }
{
    let mut word = Vec::new(alloc);
    for (at, item) in items.iter().enumerate() {
        if is_last_anchor(item, at + 1 == items.len()) {
            return Ok(Some(word));
        }
        match single_byte(item) {
            Some(byte) => word.push(byte)?,
            None => return Ok(None),
        }
    }
    Ok(Some(word))
}

/// The word between the anchors that there are.
fn word_between(alloc: Global, items: &[Node]) -> Result<Option<Vec<u8>>, AllocError>
    ensures value { IfOk result (λ found. option_map (λ word. word.items) found ≡ word_between (sequence_of items.now)) }
{
    word_to_end(alloc, after_start(items))
}

/// Whether one word begins with the other.
#[tactic(auto, using(crate::proofs::WordItems::agree_over))]
fn agree(one: &[u8], other: &[u8]) -> bool
    ensures value { result ≡ agree one.now other.now }
{
    for (at, byte) in one.iter().enumerate() {
        if at >= other.len() {
            return true;
        }
        if *byte != other[at] {
            return false;
        }
    }
    true
}

/// Whether some end of the first word agrees with the second.
fn end_agrees(one: &[u8], other: &[u8]) -> bool
    ensures value { result ≡ end_agrees one.now other.now }
{
    for at in 0..one.len() {
        if agree(&one[at..], other) {
            return true;
        }
    }
    false
}

/// Whether two words share no byte, wherever they stand in a text.
fn are_apart(one: &[u8], other: &[u8]) -> bool
    ensures value { result ≡ are_apart one.now other.now }
{
    !(end_agrees(one, other) || end_agrees(other, one))
}

/// Whether what is replaced leaves each place of a word as it is: it is a word apart from it, or an end of the text.
fn spares_if(anchored: bool, replaced: &Option<Vec<u8>>, word: &[u8]) -> bool
    ensures value { result ≡ spares_if anchored (option_map (λ word. word.items) replaced.now) word.now }
{
    match replaced {
        Some(bytes) if bytes.is_empty() => anchored,
        Some(bytes) => are_apart(bytes, word),
        None => false,
    }
}

/// The same of the items that are replaced.
fn spares_word(alloc: Global, replaced: &[Node], word: &[u8]) -> Result<bool, AllocError>
    ensures value { IfOk result (λ spares. spares ≡ spares_word (sequence_of replaced.now) word.now) }
{
    let anchored = is_anchored(replaced) || has_last_anchor(replaced);
    Ok(spares_if(anchored, &word_between(alloc, replaced)?, word))
}

/// Whether the second items are a word, or a word and `$`, and match each text that they matched where matches of the first are replaced.
pub fn keeps_word(alloc: Global, replaced: &[Node], items: &[Node]) -> Result<bool, AllocError>
    ensures value { IfOk result (λ keeps. keeps ≡ keeps_word (sequence_of replaced.now) (sequence_of items.now)) }
{
    match word_between(alloc, items)? {
        Some(word) => {
            let spares = spares_word(alloc, replaced, &word)?;
            let ends = has_last_anchor(items) && has_last_anchor(replaced);
            Ok(!is_anchored(items) && (spares && !ends))
        }
        None => Ok(false),
    }
}
