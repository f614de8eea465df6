//! What a zone with facts says of lines.

ghost use Rattle.std.specs.Prelude.{◌≡◌, ◌<◌, ◌≤ℤ◌, ◌+ℤ◌, ◌-ℤ◌, ◌||◌, pos, negsuc};
ghost use Rattle.std.specs.List.{list_any};
ghost use Rattle.ed_rules.specs.facts.Facts.{at, point, point_at, le, same, below, may_hold_lines, says, spans, holds_line, is_clear, is_told, tells};
ghost use Rattle.ed_rules.specs.facts.FactOrder.{is_line};

use crate::line_facts::{ClearStretch, KnownLine, LineFacts};
use zones::{Name, Zone};

/// The name of a stretch's end.
pub(crate) fn name_of(edge: u8) -> Name
    requires in_range { edge < 33 }
    ensures value { result ≡ (point edge).name }
{
    if edge == ClearStretch::END {
        Name::LAST_LINE
    } else {
        Name::from_place(usize::from(edge))
    }
}

/// What is added to it.
pub(crate) fn plus_of(edge: u8) -> i64
    ensures value { result ≡ (point edge).plus }
    ensures small { (negsuc 9 ≤ℤ result) × (result ≤ℤ pos 9) }
{
    if edge == ClearStretch::END { 1 } else { 0 }
}

fn distance(c: i64, j: i64, i: i64) -> i64
    requires small { (negsuc 9 ≤ℤ c) × (c ≤ℤ pos 9) }
    requires small_first { (negsuc 9 ≤ℤ i) × (i ≤ℤ pos 9) }
    requires small_second { (negsuc 9 ≤ℤ j) × (j ≤ℤ pos 9) }
    ensures value { result ≡ (c +ℤ j) -ℤ i }
{
    c + j - i
}

/// Whether x + i is known to be at most y + j + c.
pub(crate) fn is_at_most(zone: &Zone, x: Name, i: i64, y: Name, j: i64, c: i64) -> bool
    requires small { (negsuc 9 ≤ℤ c) × (c ≤ℤ pos 9) }
    requires small_first { (negsuc 9 ≤ℤ i) × (i ≤ℤ pos 9) }
    requires small_second { (negsuc 9 ≤ℤ j) × (j ≤ℤ pos 9) }
    ensures value { result ≡ le zone.now (point_at x i) (point_at y j) c }
{
    let d = distance(c, j, i);
    if x.place() == y.place() {
        0 <= d
    } else {
        zone.is_known(x, y, d)
    }
}

/// Whether lines may come to be between x + i and y + j: x + i is known to be before y + j, or the zone doesn't say that there is no room for
/// a line.
pub(super) fn may_hold_lines(zone: &Zone, x: Name, i: i64, y: Name, j: i64) -> bool
    requires small_first { (negsuc 9 ≤ℤ i) × (i ≤ℤ pos 9) }
    requires small_second { (negsuc 9 ≤ℤ j) × (j ≤ℤ pos 9) }
    ensures value { result ≡ may_hold_lines zone.now (point_at x i) (point_at y j) }
{
    is_at_most(zone, x, i, y, j, -1) || !is_at_most(zone, y, j, x, i, 1)
}

/// Whether the stretch has all of that between x + i and y + j.
fn spans(
    zone: &Zone,
    x: Name,
    i: i64,
    y: Name,
    j: i64,
    pattern: &[u8],
    stretch: &ClearStretch,
) -> bool
    requires small_first { (negsuc 9 ≤ℤ i) × (i ≤ℤ pos 9) }
    requires small_second { (negsuc 9 ≤ℤ j) × (j ≤ℤ pos 9) }
    ensures value { result ≡ spans zone.now (point_at x i) (point_at y j) pattern.now stretch.now }
{
    let (after, before) = (stretch.after, stretch.before);
    stretch.pattern.as_slice() == pattern
        && is_at_most(zone, name_of(after), plus_of(after), x, i, 0)
        && is_at_most(zone, y, j, name_of(before), plus_of(before), 0)
}

impl LineFacts {
    /// Whether it is known that no line between x + i and y + j matches the pattern.
    pub fn are_clear(&self, zone: &Zone, x: Name, i: i64, y: Name, j: i64, pattern: &[u8]) -> bool
        requires small_first { (negsuc 9 ≤ℤ i) × (i ≤ℤ pos 9) }
        requires small_second { (negsuc 9 ≤ℤ j) × (j ≤ℤ pos 9) }
        ensures value { result ≡ is_clear zone.now self.now (point_at x i) (point_at y j) pattern.now }
    {
        if is_at_most(zone, y, j, x, i, 1) {
            return true;
        }
        for stretch in &self.clear {
            if spans(zone, x, i, y, j, pattern, stretch) {
                return true;
            }
        }
        false
    }

    /// Whether a fact says that the line x matches the pattern, or that it doesn't.
    pub fn are_telling(&self, zone: &Zone, x: Name, pattern: &[u8], answer: bool) -> bool
        ensures value { result ≡ is_told zone.now self.now x pattern.now answer }
    {
        for fact in &self.lines {
            if says(zone, x, pattern, answer, fact) {
                return true;
            }
        }
        false
    }

    /// Whether the line x lies within a stretch without a line that matches the pattern.
    pub(super) fn are_around(&self, zone: &Zone, x: Name, pattern: &[u8]) -> bool
        ensures value { result ≡ list_any (holds_line zone.now x pattern.now) self.now.clear }
    {
        for stretch in &self.clear {
            if holds_line(zone, x, pattern, stretch) {
                return true;
            }
        }
        false
    }

    /// Whether it is known that the line x matches the pattern, or that it doesn't.
    pub fn tell(&self, zone: &Zone, x: Name, pattern: &[u8], answer: bool) -> bool
        ensures value { result ≡ tells zone.now self.now x pattern.now answer }
    {
        if answer {
            self.are_telling(zone, x, pattern, true)
        } else {
            self.are_telling(zone, x, pattern, false) || self.are_around(zone, x, pattern)
        }
    }
}

/// Whether two names are known to be one number.
pub(crate) fn are_same(zone: &Zone, x: Name, y: Name) -> bool
    ensures value { result ≡ same zone.now x y }
{
    is_at_most(zone, x, 0, y, 0, 0) && is_at_most(zone, y, 0, x, 0, 0)
}

/// Whether the fact says it of a name that is known to be this one.
fn says(zone: &Zone, x: Name, pattern: &[u8], answer: bool, fact: &KnownLine) -> bool
    ensures value { result ≡ says zone.now x pattern.now answer fact.now }
{
    fact.pattern.as_slice() == pattern
        && are_same(zone, fact.name, x)
        && (if answer { fact.matches } else { !fact.matches })
}

/// Whether the line x lies within the stretch.
fn holds_line(zone: &Zone, x: Name, pattern: &[u8], stretch: &ClearStretch) -> bool
    ensures value { result ≡ holds_line zone.now x pattern.now stretch.now }
{
    let (after, before) = (stretch.after, stretch.before);
    stretch.pattern.as_slice() == pattern
        && is_at_most(zone, name_of(after), plus_of(after), x, 0, -1)
        && is_at_most(zone, x, 0, name_of(before), plus_of(before), -1)
}

/// Whether x is known to be the number of a line.
pub(crate) fn is_line(zone: &Zone, x: Name) -> bool
    ensures value { result ≡ is_line zone.now x }
{
    zone.is_known(Name::ZERO, x, -1) && zone.is_known(x, Name::LAST_LINE, 0)
}
