//! Which patterns are better found by trying one start after another than by columns.

use crate::run::only_item;
use crate::start::{any_number_of, one_byte_of, same_set};
use bre_parse::tree::{ByteSet, Node};

/// Whether the rest of a row of bytes is looked at from no other start: the repeat comes first, or right after a byte of
/// its own set, so that its whole row is passed over, or it can't take the byte with which each start begins.
fn is_seen_once(items: &[Node], at: usize, set: &ByteSet) -> bool {
    if at >= items.len() {
        return false;
    }
    let leads = any_number_of(&items[at]).is_some();
    match one_byte_of(&items[0]) {
        None => leads && at == 0,
        Some(first) => {
            (leads && at == 1 && same_set(first, set))
                || (!first.negated
                    && first.ranges.len() == 1
                    && first.ranges[0].0 == first.ranges[0].1
                    && !set.contains(first.ranges[0].0))
        }
    }
}

/// The byte sets of a part, counted with the turns of its repeats written out: what a place costs in a search by columns.
#[cycle(written)]
fn written_sets(part: &Node) -> usize {
    match part {
        Node::Sequence(items) => all_written_sets(items),
        Node::Set(_) => 1,
        Node::Group(_, content) => written_sets(content),
        Node::Repeat(least, most, content) => {
            let turns = match most {
                None => *least as usize + 1,
                Some(most) => *most as usize,
            };
            written_sets(content).saturating_mul(turns)
        }
        _ => 0,
    }
}

#[cycle(written)]
fn all_written_sets(items: &[Node]) -> usize {
    let mut sets = 0usize;
    for item in items {
        sets = sets.saturating_add(written_sets(item));
    }
    sets
}

/// Whether a search by columns would take more memory and time a byte than is sensible, as with counted repeats nested
/// three deep.
pub(crate) fn is_too_wide(items: &[Node]) -> bool {
    all_written_sets(items) > 1_000_000
}

/// Whether the states of an automaton would take more memory than is sensible: each has a mark for each byte set.
pub(crate) fn has_wide_states(items: &[Node]) -> bool {
    all_written_sets(items) > 256
}

/// Whether the pattern is a row of bytes and anchors with at most one repeat of a byte set, in which no byte of a text is
/// looked at from more starts than the pattern has items. For each other pattern too both searches give one answer.
pub(crate) fn is_quick_row(items: &[Node]) -> bool {
    let mut repeats = 0;
    for at in 0..items.len() {
        match &items[at] {
            Node::Set(_) | Node::TextStart | Node::TextEnd => {}
            Node::Repeat(_, _, content) => match &**content {
                Node::Set(set) => {
                    if repeats > 0 || !is_seen_once(items, at, set) {
                        return false;
                    }
                    repeats += 1;
                }
                _ => return false,
            },
            _ => return false,
        }
    }
    true
}

/// Whether two sets may have a byte in common. It says so of some that have none: of two sets by what they leave out, and of one
/// such and ranges that it leaves out in pieces.
fn may_share(set: &ByteSet, other: &ByteSet) -> bool {
    if set.negated && other.negated {
        return true;
    }
    if set.negated {
        return !leaves_out(set, other);
    }
    if other.negated {
        return !leaves_out(other, set);
    }
    for range in &set.ranges {
        for another in &other.ranges {
            if range.0 <= another.1 && another.0 <= range.1 {
                return true;
            }
        }
    }
    false
}

/// Whether each range of a set lies in one that the other set, told by what it leaves out, leaves out.
fn leaves_out(set: &ByteSet, ranges: &ByteSet) -> bool {
    for range in &ranges.ranges {
        let mut is_out = false;
        for out in &set.ranges {
            if out.0 <= range.0 && range.1 <= out.1 {
                is_out = true;
            }
        }
        if !is_out {
            return false;
        }
    }
    true
}

/// The bytes that an item takes.
#[derive(Clone, Copy)]
struct ItemBytes<'a> {
    set: &'a ByteSet,
    /// Whether it has to take one.
    is_needed: bool,
    /// Whether it may take several.
    is_repeated: bool,
}

/// What a byte set or a repeat of one takes.
fn bytes_taken_plainly(item: &Node) -> Option<ItemBytes<'_>> {
    match item {
        Node::Set(set) => Some(ItemBytes {
            set,
            is_needed: true,
            is_repeated: false,
        }),
        Node::Repeat(least, _, content) => match one_byte_of(content) {
            Some(set) => Some(ItemBytes {
                set,
                is_needed: *least > 0,
                is_repeated: true,
            }),
            None => None,
        },
        _ => None,
    }
}

/// What an item takes: a byte set, a repeat of one, or a group round one of these.
fn bytes_taken(item: &Node) -> Option<ItemBytes<'_>> {
    match item {
        Node::Group(_, content) => match only_item(content) {
            Some(only) => bytes_taken_plainly(only),
            None => None,
        },
        _ => bytes_taken_plainly(item),
    }
}

/// Whether no byte of the set can be taken by the items that may come right after one.
fn gives_way(set: &ByteSet, rest: &[Node]) -> bool {
    for item in rest {
        if let Some(next) = bytes_taken(item) {
            if may_share(set, next.set) {
                return false;
            }
            if next.is_needed {
                return true;
            }
        }
    }
    true
}

/// Whether the items take bytes of sets one after another, each repeat up to the first byte that isn't its own, so that one start
/// takes time in proportion to the bytes that are matched.
pub(crate) fn is_told_in_order(items: &[Node]) -> bool {
    for at in 0..items.len() {
        match &items[at] {
            Node::TextStart | Node::TextEnd => {}
            item => match bytes_taken(item) {
                Some(found) => {
                    if found.is_repeated && !gives_way(found.set, &items[at + 1..]) {
                        return false;
                    }
                }
                None => return false,
            },
        }
    }
    true
}
