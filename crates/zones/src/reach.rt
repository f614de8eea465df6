//! How far the known names of a table reach. What works on a zone passes the others over: scripts mark few lines, and the marks
//! are the last names.

ghost use Rattle.std.specs.Prelude.{◌≡◌, ◌<◌, ◌≤◌};
ghost use Rattle.zones.specs.Steps.{any_bound};
ghost use Rattle.zones.specs.Reach.{AreUnknown, is_known_with, reach_of};

use crate::entry::Entry;
use crate::table::Table;

/// The bound of two names of which nothing is known.
pub(crate) fn any_of(p: usize, q: usize) -> Entry
    ensures value { result ≡ any_bound p q }
{
    if p == q {
        Entry::of(Some(0))
    } else {
        Entry::any()
    }
}

/// Whether something is known of a name and one of the first names.
fn is_known_with(table: &Table, p: usize, names: usize) -> bool
    requires p_in_range { p < 32 }
    requires names_in_range { names ≤ 32 }
    ensures value { result ≡ is_known_with table.now p names }
{
    for q in 0..names {
        let itself = any_of(p, q);
        if !table[32 * p + q].is(itself) || !table[32 * q + p].is(itself) {
            return true;
        }
    }
    false
}

/// How far the known names of a table reach, where nothing is known from a place on.
pub(crate) fn reach_within(table: &Table, most: usize) -> usize
    requires in_range { most ≤ 32 }
    requires unknown { AreUnknown table.now most }
    ensures value { result ≡ reach_of table.now }
{
    let mut reach = most;
    while reach > 0 && !is_known_with(table, reach - 1, reach) {
        reach -= 1;
    }
    reach
}

/// A reach and that of two names.
pub(crate) fn reach_with(reach: usize, x: usize, y: usize) -> usize
    requires in_range { reach ≤ 32 }
    requires x_in_range { x < 32 }
    requires y_in_range { y < 32 }
    ensures reach { reach ≤ result }
    ensures x { x < result }
    ensures y { y < result }
    ensures in_range { result ≤ 32 }
{
    reach.max(x + 1).max(y + 1)
}
