//! Parts of a pattern, and pieces of a text, read backwards.

ghost use Rattle.std.specs.Prelude.{◌≡◌, ℕ, ◌+◌, ◌-◌, ◌<◌, ◌≤◌, [], IfOk, true, false, length, slice_get};
ghost use Rattle.bre_parse.specs.Tree.{Set, tree_of, sequence_of};
ghost use Rattle.bre_parse.specs.WellFormed.{repeats_in_order};
ghost use Rattle.bre_match.specs.Parts.{part_of};
ghost use Rattle.bre_match.specs.Backwards.{Backwards, IsPiece};

use bre_parse::tree::{ByteSet, Node};
use std::alloc::{AllocError, Global};

/// Whether a piece of a text begins, and ends, where the text does, so that an anchor may hold in it.
#[derive(Clone, Copy)]
pub(crate) struct Edges {
    pub starts: bool,
    pub ends: bool,
}

/// A part that matches nowhere: one byte of a set that has none.
fn nowhere(alloc: Global) -> Node
    ensures value { tree_of result ≡ Set false [] }
{
    let ranges = Vec::new(alloc);
    Node::Set(ByteSet {
        negated: false,
        ranges,
    })
}

/// A part that matches a piece backwards just where this one matches it forwards. It has no groups.
#[cycle(turned)]
pub(crate) fn turned(alloc: Global, part: &Node, edges: Edges) -> Result<Node, AllocError>
    ensures value { IfOk result (λ back. repeats_in_order (tree_of part.now) ≡ true → Backwards edges.starts edges.ends (part_of (tree_of part.now)) (part_of (tree_of back))) }
{
    match part {
        Node::Sequence(items) => {
            let back = turned_row(alloc, items, edges)?;
            Ok(Node::Sequence(back))
        }
        Node::Set(set) => {
            let copy = set.try_copy(alloc)?;
            Ok(Node::Set(copy))
        }
        Node::TextStart => if edges.starts {
            Ok(Node::TextEnd)
        } else {
            Ok(nowhere(alloc))
        },
        Node::TextEnd => if edges.ends {
            Ok(Node::TextStart)
        } else {
            Ok(nowhere(alloc))
        },
        Node::BackReference(_) => Ok(nowhere(alloc)),
        Node::Group(_, content) => {
            let back = turned(alloc, content, edges)?;
            Ok(back)
        }
        Node::Repeat(least, most, content) => {
            let back = turned(alloc, content, edges)?;
            Ok(Node::Repeat(*least, *most, Box::new(alloc, back)?))
        }
    }
}

/// The items, the last one first.
#[cycle(turned)]
fn turned_row(alloc: Global, items: &[Node], edges: Edges) -> Result<Vec<Node>, AllocError>
    ensures value { IfOk result (λ back. repeats_in_order (sequence_of items.now) ≡ true → Backwards edges.starts edges.ends (part_of (sequence_of items.now)) (part_of (sequence_of back.items))) }
{
    let mut back = Vec::new(alloc);
    let mut left = items.len();
    while left > 0 {
        left -= 1;
        let item = turned(alloc, &items[left], edges)?;
        back.push(item)?;
    }
    Ok(back)
}

/// The bytes of a text from a place to another, the last one first.
pub(crate) fn piece_of(
    alloc: Global,
    text: &[u8],
    low: usize,
    high: usize,
) -> Result<Vec<u8>, AllocError>
    requires order { low ≤ high }
    requires within { high ≤ length text.now }
    ensures size { IfOk result (λ piece. length piece.items ≡ high - low) }
    ensures bytes { IfOk result (λ piece. (place : ℕ) → low ≤ place → place < high → slice_get piece.items (high - (place + 1)) ≡ slice_get text.now place) }
{
    let mut piece = Vec::new(alloc);
    let mut at = high;
    while at > low {
        at -= 1;
        piece.push(text[at])?;
    }
    Ok(piece)
}
