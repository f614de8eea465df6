//! Where a row of bytes and anchors, with at most one repeat of a set, ends: told without memory and without groups.

ghost use Rattle.std.specs.Prelude.{◌≡◌, drop, option_map};
ghost use Rattle.bre_parse.specs.Tree.{tree_of, sequence_of};
ghost use Rattle.bre_parse.specs.Match.{longest_from};
ghost use Rattle.bre_match.specs.RowEnds.{after_bytes, end_if, fixed_end, last_end, repeat_of_set, row_end, step_end, EndsAs};
ghost use Rattle.bre_match.specs.Runs.{members};

use crate::run::{count_members, has_byte_in};
use crate::start::one_byte_of;
use bre_parse::tree::{ByteSet, Node};

/// Where the longest way from a place ends: there, or nowhere; or it isn't told, since other parts stand in the row.
#[derive(Clone, Copy)]
pub(crate) enum RowEnd {
    At(usize),
    Nowhere,
    Untold,
}

/// This place, where what is asked holds.
fn end_if(holds: bool, place: usize) -> RowEnd
    ensures value { result ≡ end_if holds (RowEnd.At place) }
{
    if holds {
        RowEnd::At(place)
    } else {
        RowEnd::Nowhere
    }
}

/// Where one byte of a set, or an anchor, ends.
#[tactic(auto, using(crate::proofs::PartKinds::step_laws))]
fn step_end(part: &Node, text: &[u8], place: usize) -> RowEnd
    ensures value { result ≡ step_end (tree_of part.now) text.now place }
{
    match part {
        Node::Set(set) => if has_byte_in(text, place, set) {
            RowEnd::At(place + 1)
        } else {
            RowEnd::Nowhere
        },
        Node::TextStart => end_if(place == 0, place),
        Node::TextEnd => end_if(place == text.len(), place),
        Node::Sequence(_) => RowEnd::Untold,
        _ => RowEnd::Untold,
    }
}

/// Where bytes and anchors end, one after another.
fn fixed_end(items: &[Node], text: &[u8], place: usize) -> RowEnd
    ensures value { result ≡ fixed_end (sequence_of items.now) text.now place }
{
    let mut at = place;
    for item in items {
        match step_end(item, text, at) {
            RowEnd::At(after) => at = after,
            RowEnd::Nowhere => return RowEnd::Nowhere,
            RowEnd::Untold => return RowEnd::Untold,
        }
    }
    RowEnd::At(at)
}

/// Where the rest ends, from a place or from the last of so many before it from which it has an end.
fn last_end(rest: &[Node], text: &[u8], place: usize, more: usize) -> RowEnd
    ensures value { result ≡ last_end (fixed_end (sequence_of rest.now) text.now) place more }
{
    let mut at = place;
    for passed in 0..more {
        match fixed_end(rest, text, at) {
            RowEnd::At(end) => return RowEnd::At(end),
            RowEnd::Nowhere => at = at.saturating_sub(1),
            RowEnd::Untold => return RowEnd::Untold,
        }
    }
    fixed_end(rest, text, at)
}

/// The bounds and the set of a part that is a repeat of one.
#[tactic(auto, using(crate::proofs::PartKinds::step_laws))]
fn repeat_of_set(part: &Node) -> Option<(usize, Option<u8>, &ByteSet)>
    ensures value { option_map (λ bytes. (bytes.0, bytes.1, (bytes.2.now.negated, bytes.2.now.ranges.items))) result ≡ repeat_of_set (tree_of part.now) }
{
    match part {
        Node::Repeat(least, most, content) => match one_byte_of(content) {
            Some(set) => Some((*least as usize, *most, set)),
            None => None,
        },
        Node::Sequence(_) => None,
        _ => None,
    }
}

/// Where the rest ends after bytes of a set in a row.
fn after_bytes(
    least: usize,
    most: Option<u8>,
    set: &ByteSet,
    rest: &[Node],
    text: &[u8],
    place: usize,
) -> RowEnd
    ensures value { result ≡ after_bytes least (members most 0 set.now.negated set.now.ranges.items (drop place text.now)) (fixed_end (sequence_of rest.now) text.now) place }
{
    let taken = count_members(set, most, text, place);
    if taken < least {
        return RowEnd::Nowhere;
    }
    last_end(rest, text, place + taken, taken - least)
}

/// Where the longest way of a row from a place ends, if it is told.
pub(crate) fn row_end(items: &[Node], text: &[u8], start: usize) -> RowEnd
    ensures exact { result ≡ row_end (sequence_of items.now) text.now start }
    ensures sound { EndsAs result (longest_from (sequence_of items.now) text.now start) }
{
    let mut at = start;
    for i in 0..items.len() {
        let item = &items[i];
        if let Some((least, most, set)) = repeat_of_set(item) {
            return after_bytes(least, most, set, &items[i + 1..], text, at);
        }
        match step_end(item, text, at) {
            RowEnd::At(after) => at = after,
            RowEnd::Nowhere => return RowEnd::Nowhere,
            RowEnd::Untold => return RowEnd::Untold,
        }
    }
    RowEnd::At(at)
}
