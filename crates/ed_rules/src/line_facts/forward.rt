//! What is known of the line that a search forward finds.

ghost use Rattle.std.specs.Prelude.{◌≡◌, IfOk, OnOk, pos};
ghost use Rattle.std.specs.List.{list_any, filter};
ghost use Rattle.ed_rules.specs.facts.FoundLines.{known_as, ends_from, ends_after, first_after, is_ahead, found_ahead, searched_forward};

use crate::line_facts::found::{
    be_at_least_each, be_at_most_each, be_some_line, find_only, only_one, witnesses,
};
use crate::line_facts::known::{is_at_most, name_of, plus_of};
use crate::line_facts::{ClearStretch, LineFacts, edge_of};
use std::alloc::{AllocError, Global};
use zones::{Name, Zone};

/// Whether a stretch of the pattern ends at a line, and begins at `low` or before it.
fn ends_from(zone: &Zone, low: Name, pattern: &[u8], stretch: &ClearStretch) -> bool
    ensures value { result ≡ ends_from zone.now low pattern.now stretch.now }
{
    let (after, before) = (stretch.after, stretch.before);
    stretch.pattern.as_slice() == pattern
        && before != ClearStretch::END
        && is_at_most(zone, name_of(after), plus_of(after), low, 0, 0)
}

/// Where the stretches end that begin at `low` or before it.
fn ends_after(
    alloc: Global,
    zone: &Zone,
    facts: &LineFacts,
    low: Name,
    pattern: &[u8],
) -> Result<Vec<Name>, AllocError>
    ensures value { IfOk result (λ names. names.items ≡ ends_after zone.now facts.now low pattern.now) }
{
    let mut names = Vec::new(alloc);
    for stretch in &facts.clear {
        if ends_from(zone, low, pattern, stretch) {
            names.push(Name::from_place(usize::from(stretch.before)))?;
        }
    }
    Ok(names)
}

/// The first line after `low` that matches: it isn't after any of `highs`.
fn find_first_after(
    alloc: Global,
    zone: &mut Zone,
    facts: &mut LineFacts,
    low: Name,
    highs: &[Name],
    x: Name,
    pattern: &[u8],
) -> Result<(), AllocError>
    ensures exact { OnOk result (known_as zone.new facts.new ≡ first_after low highs.now x pattern.now zone.old facts.old) }
{
    let lows = ends_after(alloc, zone, facts, low, pattern)?;
    zone.guard(low, x, -1);
    be_at_most_each(zone, x, highs);
    be_at_least_each(zone, x, lows.as_slice());
    facts.add_stretch(edge_of(low), edge_of(x), pattern)?;
    facts.add_match(x, pattern)
}

/// Whether a line is known to be after the current one.
fn is_ahead(zone: &Zone, v: Name) -> bool
    ensures value { result ≡ is_ahead zone.now v }
{
    zone.is_known(Name::CURRENT_LINE, v, -1)
}

/// Whether one of some lines is known to be after the current one.
fn any_ahead(zone: &Zone, names: &[Name]) -> bool
    ensures value { result ≡ list_any (is_ahead zone.now) names.now }
{
    for v in names {
        if is_ahead(zone, *v) {
            return true;
        }
    }
    false
}

/// Those of some lines that are known to be after the current one.
fn ahead(alloc: Global, zone: &Zone, names: &[Name]) -> Result<Vec<Name>, AllocError>
    ensures value { IfOk result (λ some. some.items ≡ filter (is_ahead zone.now) names.now) }
{
    let mut some = Vec::new(alloc);
    for v in names {
        if is_ahead(zone, *v) {
            some.push(*v)?;
        }
    }
    Ok(some)
}

/// The next line after the current one that matches, where a line is known to.
fn find_ahead(
    alloc: Global,
    zone: &mut Zone,
    facts: &mut LineFacts,
    x: Name,
    pattern: &[u8],
) -> Result<(), AllocError>
    ensures exact { OnOk result (known_as zone.new facts.new ≡ found_ahead x pattern.now zone.old facts.old) }
{
    let names = witnesses(alloc, facts, pattern)?;
    if any_ahead(zone, names.as_slice()) {
        let ahead = ahead(alloc, zone, names.as_slice())?;
        let highs = ahead.as_slice();
        find_first_after(alloc, zone, facts, Name::CURRENT_LINE, highs, x, pattern)
    } else if facts.are_clear(zone, Name::CURRENT_LINE, 0, Name::LAST_LINE, 1, pattern) {
        let highs = names.as_slice();
        find_first_after(alloc, zone, facts, Name::ZERO, highs, x, pattern)
    } else {
        facts.add_match(x, pattern)
    }
}

/// x becomes the line that a search forward finds, where a line is known to match: the next one after the current line, the first one after
/// the last. After an `Err` some of it may be done.
pub fn search_forward(
    alloc: Global,
    zone: &mut Zone,
    facts: &mut LineFacts,
    x: Name,
    pattern: &[u8],
) -> Result<(), AllocError>
    ensures exact { OnOk result (known_as zone.new facts.new ≡ searched_forward x pattern.now zone.old facts.old) }
{
    be_some_line(zone, x);
    facts.forget(x);
    let names = witnesses(alloc, facts, pattern)?;
    match only_one(zone, facts, pattern, names.as_slice()) {
        Some(v) => find_only(zone, facts, v, x, pattern),
        None => find_ahead(alloc, zone, facts, x, pattern),
    }
}
