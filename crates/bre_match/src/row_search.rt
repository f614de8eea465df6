//! The match of a row of bytes and anchors, with at most one repeat of a set: told without memory and without groups.

ghost use Rattle.std.specs.Prelude.{◌≤◌, length};
ghost use Rattle.bre_parse.specs.Tree.{sequence_of};
ghost use Rattle.bre_match.specs.RowEnds.{TellsMatch};

use crate::needed::first_start;
use crate::row_end::{RowEnd, row_end};
use crate::start::starts_without;
use bre_parse::tree::Node;

/// Where a row matches: there, with its start and its end, or nowhere; or it isn't told from this start on, since other
/// parts stand in the row.
#[derive(Clone, Copy)]
pub(crate) enum RowMatch {
    At(usize, usize),
    Nowhere,
    Untold(usize),
}

/// Where a row first matches at or after a place, if it is told.
pub(crate) fn row_match(items: &[Node], text: &[u8], from: usize) -> RowMatch
    requires place { from ≤ length text.now }
    ensures value { TellsMatch result (sequence_of items.now) text.now from }
{
    let mut start = first_start(items, text, from);
    while start <= text.len() {
        match row_end(items, text, start) {
            RowEnd::At(end) => return RowMatch::At(start, end),
            RowEnd::Nowhere => start += 1 + starts_without(items, text, start),
            RowEnd::Untold => return RowMatch::Untold(start),
        }
    }
    RowMatch::Nowhere
}
