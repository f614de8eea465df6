//! Ways that count as one for what comes after, of which the first alone is kept.

ghost use Rattle.std.specs.Prelude.{◌≡◌, ℕ, ◌<◌, IsTrue, true, not, ◌||◌};
ghost use Rattle.bre_match.specs.Alike.{same_span, same_asked, alike, HasAlike};

use crate::asked::Asked;
use crate::index::{Index, mixed};
use crate::run::Way;
use bre_parse::tree::Groups;

fn same_span(one: Option<(usize, usize)>, other: Option<(usize, usize)>) -> bool
    ensures value { result ≡ same_span one other }
{
    match (one, other) {
        (None, None) => true,
        (Some(one), Some(other)) => one.0 == other.0 && one.1 == other.1,
        _ => false,
    }
}

/// Whether the spans of a group are the same, if it is asked for.
fn agree(is_asked: bool, one: Option<(usize, usize)>, other: Option<(usize, usize)>) -> bool
    ensures value { result ≡ (not is_asked || same_span one other) }
{
    !is_asked || same_span(one, other)
}

fn same_asked(asked: &Asked, ones: &Groups, others: &Groups) -> bool
    ensures value { result ≡ same_asked asked.now ones.now others.now }
{
    for group in 0..9 {
        if !agree(asked[group], ones[group], others[group]) {
            return false;
        }
    }
    true
}

/// Whether two ways end at one place, with the same spans of the groups that are asked for.
pub(crate) fn alike(asked: &Asked, one: &Way, other: &Way) -> bool
    ensures value { result ≡ alike asked.now one.now other.now }
{
    one.0 == other.0 && same_asked(asked, &one.1, &other.1)
}

/// A number that ways have in common which are alike, and others seldom.
pub(crate) fn number_of(asked: &Asked, way: &Way) -> usize {
    number_of_groups(asked, way.0, &way.1)
}

/// A number that groups have in common which are the same as far as they are asked for, with the same number before them.
pub(crate) fn number_of_groups(asked: &Asked, before: usize, groups: &Groups) -> usize {
    let mut number = before;
    for group in 0..9 {
        if asked[group] {
            number = match groups[group] {
                Some(span) => mixed(mixed(number, span.0), span.1),
                None => mixed(number, usize::MAX),
            };
        }
    }
    number
}

/// Whether one of the ways is like this one, as far as the index has them.
pub(crate) fn has_alike(ways: &[Way], index: &Index, asked: &Asked, way: &Way) -> bool
    ensures sound { IsTrue result → HasAlike asked.now ways.now way.now }
{
    let mut after = index.last(number_of(asked, way));
    while after > 0 {
        if after <= ways.len() && alike(asked, &ways[after - 1], way) {
            return true;
        }
        after = index.before(after);
    }
    false
}
