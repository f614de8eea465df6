//! Which bytes the sets of patterns tell apart, and bytes that stand for all others.

ghost use Rattle.std.specs.Prelude.{◌≡◌, ℕ, ◌<◌, ◌≤◌, true, false, IfOk, IfSome, OnOk, length};
ghost use Rattle.bre_parse.specs.Tree.{tree_of, sequence_of, Set};
ghost use Rattle.bre_match.specs.ByteKinds.{tells_apart, goes_up, reaches_top, AreAlike, StandFor, StandForBytes};

use crate::witness::Answer;
use bre_parse::tree::{ByteSet, Node};
use std::alloc::{AllocError, Global};

/// Whether a set has one of the bytes and not the other.
fn set_tells_apart(set: &ByteSet, byte: u8, other: u8) -> bool
    ensures value { result ≡ tells_apart (Set set.now.negated set.now.ranges.items) byte other }
{
    let has_other = set.contains(other);
    if set.contains(byte) {
        !has_other
    } else {
        has_other
    }
}

#[tactic(auto, using(crate::proofs::ColumnRows::refer_laws))]
#[cycle(tell)]
fn part_tells_apart(part: &Node, byte: u8, other: u8) -> bool
    ensures value { result ≡ tells_apart (tree_of part.now) byte other }
{
    match part {
        Node::Sequence(items) => tells_apart(items, byte, other),
        Node::Set(set) => set_tells_apart(set, byte, other),
        Node::Group(_, content) => part_tells_apart(content, byte, other),
        Node::Repeat(_, _, content) => part_tells_apart(content, byte, other),
        _ => false,
    }
}

/// Whether some set of the parts has one of the bytes and not the other.
#[tactic(auto, using(crate::proofs::ColumnRows::refer_laws))]
#[cycle(tell)]
fn tells_apart(items: &[Node], byte: u8, other: u8) -> bool
    ensures value { result ≡ tells_apart (sequence_of items.now) byte other }
{
    for item in items {
        if part_tells_apart(item, byte, other) {
            return true;
        }
    }
    false
}

/// Whether one of the ranges goes up to the last byte.
fn goes_up(ranges: &[(u8, u8)]) -> bool
    ensures value { result ≡ goes_up ranges.now }
{
    for range in ranges {
        if range.1 == u8::MAX {
            return true;
        }
    }
    false
}

#[tactic(auto, using(crate::proofs::ColumnRows::refer_laws))]
#[cycle(reach)]
fn part_reaches_top(part: &Node) -> bool
    ensures value { result ≡ reaches_top (tree_of part.now) }
{
    match part {
        Node::Sequence(items) => reaches_top(items),
        Node::Set(set) => goes_up(&set.ranges),
        Node::Group(_, content) => part_reaches_top(content),
        Node::Repeat(_, _, content) => part_reaches_top(content),
        _ => false,
    }
}

/// Whether a range of some set goes up to the last byte, so that this one doesn't stand for the numbers above.
#[tactic(auto, using(crate::proofs::ColumnRows::refer_laws))]
#[cycle(reach)]
pub(super) fn reaches_top(items: &[Node]) -> bool
    ensures value { result ≡ reaches_top (sequence_of items.now) }
{
    for item in items {
        if part_reaches_top(item) {
            return true;
        }
    }
    false
}

/// Whether none of the patterns tells the bytes apart.
fn are_alike(answers: &[Answer<'_>], byte: u8, other: u8) -> bool
    ensures sound { result ≡ true → AreAlike answers.now byte other }
{
    for answer in answers {
        if tells_apart(answer.pattern.items(), byte, other) {
            return false;
        }
    }
    true
}

/// The place of a byte that stands for this one.
fn place_of(answers: &[Answer<'_>], bytes: &[u8], byte: u8) -> Option<usize>
    ensures sound { IfSome result (λ place. StandFor answers.now bytes.now byte) }
{
    for place in 0..bytes.len() {
        if are_alike(answers, byte, bytes[place]) {
            return Some(place);
        }
    }
    None
}

/// Makes sure that some byte stands for this one. The place is that of the byte that stood for the last one: mostly it stands for this one too.
fn take_byte(
    answers: &[Answer<'_>],
    bytes: &mut Vec<u8>,
    place: usize,
    byte: u8,
) -> Result<usize, AllocError>
    ensures longer { length bytes.old.items ≤ length bytes.new.items }
    ensures stay { OnOk result ((number : ℕ) → StandFor answers.now bytes.old.items number → StandFor answers.now bytes.new.items number) }
    ensures stands { OnOk result (StandFor answers.now bytes.new.items byte) }
{
    if place < bytes.len() && are_alike(answers, byte, bytes[place]) {
        return Ok(place);
    }
    match place_of(answers, bytes, byte) {
        Some(place) => Ok(place),
        None => {
            let place = bytes.len();
            bytes.push(byte)?;
            Ok(place)
        }
    }
}

/// Makes sure that some byte stands for each of those from the first to the last.
fn take_bytes(
    answers: &[Answer<'_>],
    bytes: &mut Vec<u8>,
    first: u8,
    last: u8,
) -> Result<(), AllocError>
    ensures longer { length bytes.old.items ≤ length bytes.new.items }
    ensures stand { OnOk result ((byte : ℕ) → first ≤ byte → byte ≤ last → StandFor answers.now bytes.new.items byte) }
{
    let mut place = 0;
    for byte in first..=last {
        place = take_byte(answers, bytes, place, byte)?;
    }
    Ok(())
}

/// Bytes that stand for all others. Those that are easiest to read come first.
#[derive(Drop)]
pub(super) struct Kinds {
    pub(super) bytes: Vec<u8>,
    /// How many of them can be printed. The others follow.
    pub(super) printable: usize,
}

impl Kinds {
    pub(super) fn of(alloc: Global, answers: &[Answer<'_>]) -> Result<Kinds, AllocError>
        ensures printable { IfOk result (λ kinds. kinds.printable ≤ length kinds.bytes.items) }
        ensures stand { IfOk result (λ kinds. StandForBytes answers.now kinds.bytes.items) }
    {
        let mut bytes = Vec::new(alloc);
        take_bytes(answers, &mut bytes, b'a', b'z')?;
        take_bytes(answers, &mut bytes, b'0', b'9')?;
        take_bytes(answers, &mut bytes, b'A', b'Z')?;
        take_bytes(answers, &mut bytes, b'!', b'~')?;
        take_bytes(answers, &mut bytes, b' ', b' ')?;
        let printable = bytes.len();
        take_bytes(answers, &mut bytes, b'\t', b'\t')?;
        take_bytes(answers, &mut bytes, 0, u8::MAX)?;
        Ok(Kinds { bytes, printable })
    }
}
