//! What is known of the texts that begin with the same bytes, their head.

ghost use Rattle.std.specs.Prelude.{◌≡◌, ◌<◌, IfOk, length};
ghost use Rattle.bre_parse.specs.declared.text_heads.Step.TheVariants.{Taken};
ghost use Rattle.bre_parse.specs.Tree.{tree_of, sequence_of};
ghost use Rattle.bre_parse.specs.TextHeads.{lacks, step_at, step_within, cannot_start, untouched, single_of, single_byte, first_bytes, is_anchored, after_start, head_asked, is_byte, begins_with_items, head_matches, head_clashes};

use crate::always::is_text_start;
use crate::tree::{ByteSet, Node};
use std::alloc::{AllocError, Global};

/// What a part comes to at a place of a head.
#[derive(Clone, Copy)]
enum Step {
    /// It has no way.
    Blocked,
    /// It takes the byte there, or has no way.
    Taken,
    /// Its one way is the empty one.
    Passed,
    /// Nothing is known.
    Open,
}

/// Whether a part is a set without this byte.
#[tactic(auto, using(crate::proofs::TextHeadItems::part_laws))]
fn lacks(part: &Node, byte: u8) -> bool
    ensures value { result ≡ lacks (tree_of part.now) byte }
{
    match part {
        Node::Set(set) => !set.contains(byte),
        Node::Sequence(_) => false,
        _ => false,
    }
}

/// What a part comes to at a place where this byte stands.
#[tactic(auto, using(crate::proofs::TextHeadItems::part_laws))]
fn step_at(part: &Node, byte: u8, place: usize) -> Step
    ensures value { result ≡ step_at (tree_of part.now) byte place }
{
    match part {
        Node::Set(set) => {
            if set.contains(byte) {
                Step::Taken
            } else {
                Step::Blocked
            }
        }
        Node::TextStart => {
            if place == 0 {
                Step::Passed
            } else {
                Step::Blocked
            }
        }
        Node::TextEnd => Step::Blocked,
        Node::Repeat(least, most, content) => {
            if *least == 0 && most.is_none() && lacks(content, byte) {
                Step::Passed
            } else {
                Step::Open
            }
        }
        Node::Sequence(_) => Step::Open,
        _ => Step::Open,
    }
}

/// What a part comes to at a place of a head. Where the head ends nothing is known.
fn step_within(part: &Node, head: &[u8], place: usize) -> Step
    ensures value { result ≡ step_within (tree_of part.now) head.now place }
    ensures inside { result ≡ Taken → place < length head.now }
{
    match head.get(place) {
        Some(byte) => step_at(part, *byte, place),
        None => Step::Open,
    }
}

/// Whether no match of these items starts at a place, in any text with this head.
fn cannot_start(items: &[Node], head: &[u8], start: usize) -> bool
    ensures value { result ≡ cannot_start (sequence_of items.now) head.now start }
{
    let mut place = start;
    for item in items {
        match step_within(item, head, place) {
            Step::Blocked => return true,
            Step::Taken => place += 1,
            Step::Passed => {}
            Step::Open => return false,
        }
    }
    false
}

/// The head up to the first place where a match of these items may start.
pub fn untouched<'a>(items: &[Node], head: &'a [u8]) -> &'a [u8]
    ensures value { result.now ≡ untouched (sequence_of items.now) head.now }
{
    for place in 0..head.len() {
        if !cannot_start(items, head, place) {
            return &head[..place];
        }
    }
    head
}

/// The byte of a set of one range, from it to it.
fn single_of(set: &ByteSet) -> Option<u8>
    ensures value { result ≡ single_of set.now.negated set.now.ranges.items }
{
    match set.ranges.as_slice() {
        [(low, high)] if !set.negated && *low == *high => Some(*low),
        _ => None,
    }
}

/// The byte of a part that is such a set.
#[tactic(auto, using(crate::proofs::TextHeadItems::part_laws))]
pub fn single_byte(part: &Node) -> Option<u8>
    ensures value { result ≡ single_byte (tree_of part.now) }
{
    match part {
        Node::Set(set) => single_of(set),
        Node::Sequence(_) => None,
        _ => None,
    }
}

/// The bytes of the first items, as far as these are such sets.
fn first_bytes(alloc: Global, items: &[Node]) -> Result<Vec<u8>, AllocError>
    ensures value { IfOk result (λ bytes. bytes.items ≡ first_bytes (sequence_of items.now)) }
{
    let mut bytes = Vec::new(alloc);
    for item in items {
        match single_byte(item) {
            Some(byte) => bytes.push(byte)?,
            None => return Ok(bytes),
        }
    }
    Ok(bytes)
}

/// Whether the items begin with the anchor `^`.
pub fn is_anchored(items: &[Node]) -> bool
    ensures value { result ≡ is_anchored (sequence_of items.now) }
{
    match items {
        [first, ..] => is_text_start(first),
        [] => false,
    }
}

/// The items after it; all, where there is none.
pub fn after_start(items: &[Node]) -> &[Node]
    ensures value { sequence_of result.now ≡ after_start (sequence_of items.now) }
{
    match items {
        [first, rest @ ..] if is_text_start(first) => rest,
        _ => items,
    }
}

/// The bytes with which each text begins that the items match, as far as they are known.
pub fn head_asked(alloc: Global, items: &[Node]) -> Result<Vec<u8>, AllocError>
    ensures value { IfOk result (λ bytes. bytes.items ≡ head_asked (sequence_of items.now)) }
{
    if is_anchored(items) {
        first_bytes(alloc, after_start(items))
    } else {
        Ok(Vec::new(alloc))
    }
}

/// Whether a byte is there, and no other.
fn is_byte(found: Option<u8>, byte: u8) -> bool
    ensures value { result ≡ is_byte found byte }
{
    match found {
        Some(found) => found == byte,
        None => false,
    }
}

/// Whether the items are single bytes, with which the head begins.
fn begins_with_items(head: &[u8], items: &[Node]) -> bool
    ensures value { result ≡ begins_with_items head.now (sequence_of items.now) }
{
    for (at, item) in items.iter().enumerate() {
        match head.get(at) {
            Some(byte) if is_byte(single_byte(item), *byte) => {}
            _ => return false,
        }
    }
    true
}

/// Whether the items are `^` and then bytes with which the head begins, and nothing more.
pub fn head_matches(head: &[u8], items: &[Node]) -> bool
    ensures value { result ≡ head_matches head.now (sequence_of items.now) }
{
    is_anchored(items) && begins_with_items(head, after_start(items))
}

/// Whether the items begin with `^`, and can't start at the head.
pub fn head_clashes(head: &[u8], items: &[Node]) -> bool
    ensures value { result ≡ head_clashes head.now (sequence_of items.now) }
{
    is_anchored(items) && cannot_start(items, head, 0)
}
