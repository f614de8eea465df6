//! The bounds of a zone as an array, row by row. The steps write in place: a fresh table for each
//! would cost far more than the few bounds that most steps change. Of names from `most` on nothing
//! is known, and a step on earlier ones leaves it so.

ghost use Rattle.std.specs.Prelude.{◌≡◌, ◌≢◌, ℕ, ◌<◌, ◌≤◌, Some, None, length, get_or};
ghost use Rattle.zones.specs.Bound.{IsKept, tighten, raise, lower};
ghost use Rattle.zones.specs.Zone.{bound};
ghost use Rattle.zones.specs.Steps.{any_bound, any_zone, after_guard, after_set, after_shift, after_forget, after_put};
ghost use Rattle.zones.specs.Limits.{IsZone};
ghost use Rattle.zones.specs.Reach.{AreUnknown};
ghost use Rattle.zones.specs.RowWrites.{IsRowWritten};

use crate::entry::Entry;
use crate::number::{clip_bound, lower, raise, tighten};
use crate::reach::any_of;

/// The bound of the pair (p, q) lies at `32 * p + q`.
pub(crate) type Table = [Entry; 1024];

/// A bound for each name: a row of a table.
type Line = [Entry; 32];

/// Any of each two names, and 0 of a name with itself.
pub(crate) fn any_table() -> Table
    ensures exact { result ≡ any_zone }
{
    let mut table = [Entry::any(); 1024];
    for p in 0..32 {
        table[32 * p + p] = Entry::of(Some(0));
    }
    table
}

/// Writes the row of the name at `x`, which is that at `y` raised by `high`.
fn write_row(table: &mut Table, most: usize, x: usize, y: usize, high: Option<i64>)
    requires most_in_range { most ≤ 32 }
    requires x_in_range { x < most }
    requires y_in_range { y < most }
    requires unknown { AreUnknown table.old most }
    ensures size { length table.new ≡ 1024 }
    ensures row { (q : ℕ) → q < 32 → q ≢ x →
        bound table.new x q ≡ raise (bound table.old y q) high }
    ensures others { (p q : ℕ) → p < 32 → q < 32 → p ≢ x →
        bound table.new p q ≡ bound table.old p q }
{
    for q in 0..most {
        // Each bound is read before it is written, so that `x` and `y` may be one name.
        table[32 * x + q] = raise(table[32 * y + q], high);
    }
}

/// Writes the column of the name at `x`, which is that at `y` lowered by `low`.
fn write_column(table: &mut Table, most: usize, x: usize, y: usize, low: Option<i64>)
    requires most_in_range { most ≤ 32 }
    requires x_in_range { x < most }
    requires y_in_range { y < most }
    requires unknown { (p q : ℕ) → most ≤ p → p < 32 → q < 32 →
        bound table.old p q ≡ any_bound p q }
    ensures size { length table.new ≡ 1024 }
    ensures column { (p : ℕ) → p < 32 → p ≢ x →
        bound table.new p x ≡ lower (bound table.old p y) low }
    ensures others { (p q : ℕ) → p < 32 → q < 32 → q ≢ x →
        bound table.new p q ≡ bound table.old p q }
{
    for p in 0..most {
        table[32 * p + x] = lower(table[32 * p + y], low);
    }
}

/// Writes both. What stands where they meet is left to the caller. Of names from `most` on nothing is known, and so it stays.
fn write_cross(
    table: &mut Table,
    most: usize,
    x: usize,
    y: usize,
    low: Option<i64>,
    high: Option<i64>,
)
    requires most_in_range { most ≤ 32 }
    requires x_in_range { x < most }
    requires y_in_range { y < most }
    requires unknown { AreUnknown table.old most }
    ensures size { length table.new ≡ 1024 }
    ensures row { (q : ℕ) → q < 32 → q ≢ x →
        bound table.new x q ≡ raise (bound table.old y q) high }
    ensures column { (p : ℕ) → p < 32 → p ≢ x →
        bound table.new p x ≡ lower (bound table.old p y) low }
    ensures others { (p q : ℕ) → p < 32 → q < 32 → p ≢ x → q ≢ x →
        bound table.new p q ≡ bound table.old p q }
{
    write_row(table, most, x, y, high);
    write_column(table, most, x, y, low);
}

/// Tightens the bounds of the row at `p` by the ways that lead over `to` and `c` into another row, which ends before `most`.
fn tighten_row(table: &mut Table, most: usize, p: usize, to: i64, c: i64, row: &Line)
    requires most_in_range { most ≤ 32 }
    requires p_in_range { p < 32 }
    requires kept { (q : ℕ) → q < 32 → IsKept (bound table.old p q) }
    requires row_ends { (q : ℕ) → most ≤ q → q < 32 → get_or row.now q None ≡ None }
    ensures size { length table.new ≡ 1024 }
    ensures here { (q : ℕ) → q < 32 →
        bound table.new p q ≡ tighten (bound table.old p q) (Some to) c (get_or row.now q None) }
    ensures others { (other q : ℕ) → other ≢ p → other < 32 → q < 32 →
        bound table.new other q ≡ bound table.old other q }
{
    for q in 0..most {
        // Where the other row has no bound, no way leads to the pair.
        if let Some(from) = row[q].get() {
            let place = 32 * p + q;
            table[place] = tighten(table[place], to, c, from);
        }
    }
}

/// Makes an empty row that of the name at `y`, which ends before `most`. A row as a result would be copied twice.
fn read_row(row: &mut Line, table: &Table, most: usize, y: usize)
    requires most_in_range { most ≤ 32 }
    requires y_in_range { y < most }
    requires unknown { AreUnknown table.now most }
    requires empty { (q : ℕ) → q < 32 → get_or row.old q None ≡ None }
    ensures each { (q : ℕ) → q < 32 → get_or row.new q None ≡ bound table.now y q }
{
    for q in 0..most {
        row[q] = table[32 * y + q];
    }
}

/// Adds that the difference of the names at `x` and `y` is at most `c`.
pub(crate) fn guard_table(table: &mut Table, most: usize, x: usize, y: usize, c: i64)
    requires most_in_range { most ≤ 32 }
    requires x_in_range { x < most }
    requires y_in_range { y < most }
    requires kept { IsZone table.old }
    requires unknown { AreUnknown table.old most }
    ensures exact { table.new ≡ after_guard table.old x y c }
{
    let mut row = [Entry::any(); 32];
    read_row(&mut row, table, most, y);
    for p in 0..most {
        // Only the row itself is read here, and that of `y` as it was before the step. A row with no
        // bound up to `x` stays, since no way leads on.
        if let Some(to) = table[32 * p + x].get() {
            tighten_row(table, most, p, to, c, &row);
        }
    }
}

/// Sets the name at `x` to `c` more than that at `y`.
pub(crate) fn set_table(table: &mut Table, most: usize, x: usize, y: usize, c: i64)
    requires most_in_range { most ≤ 32 }
    requires x_in_range { x < most }
    requires y_in_range { y < most }
    requires unknown { AreUnknown table.old most }
    ensures exact { table.new ≡ after_set table.old x y c }
{
    write_cross(table, most, x, y, Some(c), Some(c));
    table[32 * x + x] = Entry::of(Some(0));
}

/// Lets the name at `x` grow by a number from `low` to `high`.
pub(crate) fn shift_table(
    table: &mut Table,
    most: usize,
    x: usize,
    low: Option<i64>,
    high: Option<i64>,
)
    requires most_in_range { most ≤ 32 }
    requires x_in_range { x < most }
    requires unknown { AreUnknown table.old most }
    ensures exact { table.new ≡ after_shift table.old x low high }
{
    let itself = table[32 * x + x];
    write_cross(table, most, x, x, low, high);
    table[32 * x + x] = itself;
}

/// Lets the name at `x` stand for any number.
pub(crate) fn forget_table(table: &mut Table, most: usize, x: usize)
    requires most_in_range { most ≤ 32 }
    requires x_in_range { x < most }
    requires unknown { AreUnknown table.old most }
    ensures exact { table.new ≡ after_forget table.old x }
{
    write_cross(table, most, x, x, None, None);
    table[32 * x + x] = Entry::of(Some(0));
}

/// Makes a row one in which nothing is known, up to `most`.
fn clear_row(table: &mut Table, most: usize, p: usize)
    requires most_in_range { most ≤ 32 }
    requires p_in_range { p < 32 }
    ensures written { IsRowWritten table.old table.new (any_bound p) p most }
{
    for q in 0..most {
        table[32 * p + q] = any_of(p, q);
    }
}

/// Makes a table the one in which nothing is known.
pub(crate) fn clear_table(table: &mut Table, most: usize)
    requires most_in_range { most ≤ 32 }
    requires unknown { AreUnknown table.old most }
    ensures exact { table.new ≡ any_zone }
{
    for p in 0..most {
        clear_row(table, most, p);
    }
}

/// Replaces the bound of (`x`, `y`).
pub(crate) fn put_table(table: &mut Table, x: usize, y: usize, number: Option<i64>)
    requires x_in_range { x < 32 }
    requires y_in_range { y < 32 }
    ensures exact { table.new ≡ after_put table.old x y number }
{
    table[32 * x + y] = clip_bound(number);
}
