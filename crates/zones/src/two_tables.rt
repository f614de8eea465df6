//! What is done with two tables: joins, widenings, copies and comparisons. Of names from `most` on nothing is known in either.

ghost use Rattle.std.specs.Prelude.{◌≡◌, ℕ, ◌<◌, ◌≤◌, true, IsTrue, ◌↔◌};
ghost use Rattle.zones.specs.Bound.{covers_bound};
ghost use Rattle.zones.specs.Zone.{bound, Covers};
ghost use Rattle.zones.specs.Merging.{merge_bound, merge_at, merged};
ghost use Rattle.zones.specs.Reach.{AreUnknown};
ghost use Rattle.zones.specs.RowWrites.{IsRowWritten};

use crate::entry::{Entry, covers_bound, greater, widen_bound, widen_diagonal};
use crate::table::Table;

/// How two tables become one.
#[derive(Clone, Copy)]
pub(crate) enum Merge {
    /// The greater bound of each pair.
    Join,
    /// The first table's bound of each pair for which the second's did not rise above it.
    Widen,
}

/// Two bounds of the pair (p, q) as one.
fn merge_bound(merge: Merge, p: usize, q: usize, one: Entry, other: Entry) -> Entry
    ensures value { result ≡ merge_bound merge p q one other }
{
    match merge {
        Merge::Join => greater(one, other),
        Merge::Widen => {
            if p == q {
                widen_diagonal(one, other)
            } else {
                widen_bound(one, other)
            }
        }
    }
}

/// Merges the bounds of a row, up to `most`.
fn merge_row(table: &mut Table, other: &Table, merge: Merge, most: usize, p: usize)
    requires most_in_range { most ≤ 32 }
    requires p_in_range { p < 32 }
    ensures written { IsRowWritten table.old table.new (merge_at merge table.old other.now p) p most }
{
    for q in 0..most {
        table[32 * p + q] = merge_bound(merge, p, q, table[32 * p + q], other[32 * p + q]);
    }
}

/// Merges the bounds of each pair.
pub(crate) fn merge_table(table: &mut Table, other: &Table, merge: Merge, most: usize)
    requires most_in_range { most ≤ 32 }
    requires unknown { AreUnknown table.old most }
    requires other_unknown { AreUnknown other.now most }
    ensures exact { table.new ≡ merged merge table.old other.now }
{
    for p in 0..most {
        merge_row(table, other, merge, most, p);
    }
}

/// Copies a row, up to `most`.
fn copy_row(table: &mut Table, other: &Table, most: usize, p: usize)
    requires most_in_range { most ≤ 32 }
    requires p_in_range { p < 32 }
    ensures written { IsRowWritten table.old table.new (bound other.now p) p most }
{
    for q in 0..most {
        table[32 * p + q] = other[32 * p + q];
    }
}

/// Makes a table equal to another.
pub(crate) fn copy_table(table: &mut Table, other: &Table, most: usize)
    requires most_in_range { most ≤ 32 }
    requires unknown { AreUnknown table.old most }
    requires other_unknown { AreUnknown other.now most }
    ensures exact { table.new ≡ other.now }
{
    for p in 0..most {
        copy_row(table, other, most, p);
    }
}

/// Whether no bound of a row of the first table is less than the second's, up to `most`.
fn row_covers(weak: &Table, strong: &Table, most: usize, p: usize) -> bool
    requires most_in_range { most ≤ 32 }
    requires p_in_range { p < 32 }
    ensures exact { IsTrue result ↔ ((q : ℕ) → q < most →
        covers_bound (bound weak.now p q) (bound strong.now p q) ≡ true) }
{
    for q in 0..most {
        if !covers_bound(weak[32 * p + q], strong[32 * p + q]) {
            return false;
        }
    }
    true
}

/// Whether no bound of the first table is less than the second's.
pub(crate) fn table_covers(weak: &Table, strong: &Table, most: usize) -> bool
    requires most_in_range { most ≤ 32 }
    requires weak_unknown { AreUnknown weak.now most }
    requires strong_unknown { AreUnknown strong.now most }
    ensures exact { IsTrue result ↔ Covers weak.now strong.now }
{
    for p in 0..most {
        if !row_covers(weak, strong, most, p) {
            return false;
        }
    }
    true
}
