//! Patterns that match one word alone.

ghost use Rattle.std.specs.Prelude.{◌≡◌, IfOk, option_map};
ghost use Rattle.bre_parse.specs.Tree.{tree_of, sequence_of};
ghost use Rattle.bre_parse.specs.Literal.{members_below, alone, only_byte, literal};

use crate::tree::{ByteSet, Node};
use std::alloc::{AllocError, Global};

/// The byte of a set, if it has no other.
#[tactic(auto, using(crate::proofs::Literals::member_laws))]
fn byte_of(set: &ByteSet) -> Option<u8>
    ensures value { result ≡ alone (members_below 256 set.now.negated set.now.ranges.items) }
{
    let mut found = None;
    for number in 0..256u16 {
        let byte = number as u8;
        if set.contains(byte) {
            if found.is_some() {
                return None;
            }
            found = Some(byte);
        }
    }
    found
}

/// The byte of a part that is a set of one byte.
#[tactic(auto, using(crate::proofs::Literals::part_laws))]
fn only_byte(part: &Node) -> Option<u8>
    ensures value { result ≡ only_byte (tree_of part.now) }
{
    match part {
        Node::Set(set) => byte_of(set),
        Node::Sequence(_) => None,
        _ => None,
    }
}

/// The word that a sequence of sets of one byte each matches.
pub fn literal(alloc: Global, items: &[Node]) -> Result<Option<Vec<u8>>, AllocError>
    ensures value { IfOk result (λ found. option_map (λ word. word.items) found ≡ literal (sequence_of items.now)) }
{
    let mut word = Vec::new(alloc);
    for item in items {
        match only_byte(item) {
            Some(byte) => word.push(byte)?,
            None => return Ok(None),
        }
    }
    Ok(Some(word))
}

/// An equal word, if there is one.
pub fn copied(alloc: Global, word: &Option<Vec<u8>>) -> Result<Option<Vec<u8>>, AllocError>
    ensures value { IfOk result (λ copy. option_map (λ word. word.items) copy ≡ option_map (λ word. word.items) word.now) }
{
    match word {
        Some(word) => Ok(Some(word.as_slice().to_vec(alloc)?)),
        None => Ok(None),
    }
}
