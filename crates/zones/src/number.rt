//! Arithmetic on single bounds. Sums are made in 128 bits where they could be too large, and then clipped.

ghost use Rattle.std.specs.Prelude.{◌≡◌, ◌+ℤ◌, Some};
ghost use Rattle.zones.specs.Limits.{clamp, clamp_side};
ghost use Rattle.zones.specs.Bound.{clip, clip_bound, tighten, raise, lower};

use crate::entry::{Entry, lesser};

/// The greatest number that a zone keeps, and with a minus sign the least.
pub const LIMIT: i64 = 1_000_000_000_000_000;

/// No bound of a zone differs between an offset beyond this number and the number itself.
const FARTHEST: i64 = 4_000_000_000_000_000;

/// The offset, but at most 4 * 10^15 on either side. A step by it is a step by the offset.
pub fn clamped(offset: i128) -> i64
    ensures value { result ≡ clamp offset }
{
    if offset > i128::from(FARTHEST) {
        FARTHEST
    } else if offset < -i128::from(FARTHEST) {
        -FARTHEST
    } else {
        offset as i64
    }
}

/// An offset that may be unbounded, clamped.
pub(crate) fn clamped_side(offset: Option<i128>) -> Option<i64>
    ensures value { result ≡ clamp_side offset }
{
    match offset {
        Some(offset) => Some(clamped(offset)),
        None => None,
    }
}

/// The number as a zone keeps it: one above the limit says nothing, one below it is raised.
pub(crate) fn clip(number: i128) -> Entry
    ensures value { result ≡ clip number }
{
    if number > i128::from(LIMIT) {
        Entry::any()
    } else if number < -i128::from(LIMIT) {
        Entry::of(Some(-LIMIT))
    } else {
        Entry::of(Some(number as i64))
    }
}

/// The bound as a zone keeps it.
pub(crate) fn clip_bound(number: Option<i64>) -> Entry
    ensures value { result ≡ clip_bound number }
{
    match number {
        Some(number) => clip(i128::from(number)),
        None => Entry::any(),
    }
}

fn sum_of_three(to: i64, c: i64, from: i64) -> i128
    ensures value { result ≡ to +ℤ c +ℤ from }
{
    i128::from(to) + i128::from(c) + i128::from(from)
}

/// The sum of three numbers, as a zone keeps it.
fn clip_sum(to: i64, c: i64, from: i64) -> Entry
    ensures value { result ≡ clip (to +ℤ c +ℤ from) }
{
    // Only an offset near the ends of its range needs 128 bits, which take more instructions.
    if let Some(first) = to.checked_add(c) {
        if let Some(way) = first.checked_add(from) {
            return clip(i128::from(way));
        }
    }
    clip(sum_of_three(to, c, from))
}

/// The lesser of a direct bound and of that by a way of three parts.
pub(crate) fn tighten(direct: Entry, to: i64, c: i64, from: i64) -> Entry
    ensures value { result ≡ tighten direct (Some to) c (Some from) }
{
    // It is kept, and so isn't clipped once more.
    let _kept = direct.get();
    lesser(direct, clip_sum(to, c, from))
}

/// The bound plus a number; any, where either is unbounded.
pub(crate) fn raise(bound: Entry, by: Option<i64>) -> Entry
    ensures value { result ≡ raise bound by }
{
    match (bound.get(), by) {
        (Some(number), Some(by)) => clip(i128::from(number) + i128::from(by)),
        _ => Entry::any(),
    }
}

/// The bound minus a number; any, where either is unbounded.
pub(crate) fn lower(bound: Entry, by: Option<i64>) -> Entry
    ensures value { result ≡ lower bound by }
{
    match (bound.get(), by) {
        (Some(number), Some(by)) => clip(i128::from(number) - i128::from(by)),
        _ => Entry::any(),
    }
}
