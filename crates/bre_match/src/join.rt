//! Where several ways of a sequence may meet, so that it pays to look whether one like this one was there. It only says where to
//! look: what is found there is told by `Seen`.

use crate::asked::Asked;
use crate::run::{Run, only_item};
use crate::start::any_number_of;
use bre_parse::tree::Node;

/// Whether a group that is asked for stands in a part.
#[cycle(sets)]
fn sets_asked(part: &Node, asked: &Asked) -> bool {
    match part {
        Node::Sequence(items) => any_sets_asked(items, asked),
        Node::Group(group, content) => is_asked(*group, asked) || sets_asked(content, asked),
        Node::Repeat(_, _, content) => sets_asked(content, asked),
        _ => false,
    }
}

/// Whether a group that is asked for stands in one of some parts.
#[cycle(sets)]
pub(crate) fn any_sets_asked(items: &[Node], asked: &Asked) -> bool {
    for item in items {
        if sets_asked(item, asked) {
            return true;
        }
    }
    false
}

fn is_asked(group: usize, asked: &Asked) -> bool {
    group < 9 && asked[group]
}

/// Whether a part may have several ways from one place.
fn may_part(part: &Node) -> bool {
    match part {
        Node::Repeat(_, _, _) => true,
        Node::Group(_, content) => match only_item(content) {
            Some(item) => may_part_plainly(item),
            None => true,
        },
        Node::Sequence(_) => true,
        _ => false,
    }
}

fn may_part_plainly(part: &Node) -> bool {
    match part {
        Node::Repeat(_, _, _) => true,
        Node::Group(_, _) => true,
        Node::Sequence(_) => true,
        _ => false,
    }
}

/// How often ways part at an item and may meet after it: not where a group that is asked for tells them apart, and twice in a
/// group of several items.
fn partings(item: &Node, asked: &Asked) -> usize {
    match item {
        Node::Group(group, content) => match only_item(content) {
            Some(only) => if may_part_plainly(only) && !is_asked(*group, asked) {
                1
            } else {
                0
            },
            None => 2,
        },
        item => if may_part(item) { 1 } else { 0 },
    }
}

/// The number of items after which ways may meet: of one start, or of several where no group that is asked for tells them apart.
/// More than there are where none may.
pub(crate) fn first_meeting(items: &[Node], asked: &Asked, of_several_starts: bool) -> usize {
    let mut parted = 0usize;
    let mut are_one = of_several_starts;
    for at in 0..items.len() {
        parted = parted.saturating_add(partings(&items[at], asked));
        are_one = are_one && !sets_asked(&items[at], asked);
        if parted > 1 || (parted > 0 && are_one) {
            return at + 1;
        }
    }
    usize::MAX
}

/// The same of all starts of a search, if it is asked for.
pub(crate) fn first_meeting_of_starts(items: &[Node], asked: &Asked, is_wanted: bool) -> usize {
    if is_wanted {
        first_meeting(items, asked, true)
    } else {
        usize::MAX
    }
}

/// Whether an item takes any number of bytes of a set.
fn is_row(items: &[Node], item: usize) -> bool {
    item < items.len() && any_number_of(&items[item]).is_some()
}

/// Whether a way that has passed so many items may be like one that was there, where ways may meet after so many. Those that meet before a
/// row of bytes are told there, and not after it once more.
pub(crate) fn may_meet(
    items: &[Node],
    first_meeting: usize,
    passed: usize,
    run: &Run,
    asked: &Asked,
) -> bool {
    if is_row(items, passed) {
        return first_meeting <= passed.saturating_add(1);
    }
    if passed < first_meeting || passed == 0 || passed > items.len() || is_row(items, passed - 1) {
        return false;
    }
    match run.closes {
        Some((group, _)) => !is_asked(group, asked),
        None => may_part(&items[passed - 1]),
    }
}
