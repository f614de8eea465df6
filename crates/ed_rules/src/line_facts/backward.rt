//! What is known of the line that a search backward finds.

ghost use Rattle.std.specs.Prelude.{◌≡◌, ◌<◌, IfOk, OnOk, pos};
ghost use Rattle.std.specs.List.{list_any, filter};
ghost use Rattle.ed_rules.specs.facts.FoundLines.{known_as, with_match, with_stretch, at_most_each, at_least_each, begins_to, begins_before, is_behind, found_behind, searched_backward};

use crate::line_facts::found::{
    be_at_least_each, be_at_most_each, be_some_line, find_only, only_one, witnesses,
};
use crate::line_facts::known::{is_at_most, name_of, plus_of};
use crate::line_facts::{ClearStretch, LineFacts, edge_of};
use std::alloc::{AllocError, Global};
use zones::{Name, Zone};

/// Whether a stretch of the pattern begins at a line or at 0, and ends at `high` or after it.
fn begins_to(zone: &Zone, high: u8, pattern: &[u8], stretch: &ClearStretch) -> bool
    requires in_range { high < 33 }
    ensures value { result ≡ begins_to zone.now high pattern.now stretch.now }
{
    let (after, before) = (stretch.after, stretch.before);
    stretch.pattern.as_slice() == pattern
        && after != ClearStretch::END
        && is_at_most(
            zone,
            name_of(high),
            plus_of(high),
            name_of(before),
            plus_of(before),
            0,
        )
}

/// Where the stretches begin that end at `high` or after it.
fn begins_before(
    alloc: Global,
    zone: &Zone,
    facts: &LineFacts,
    high: u8,
    pattern: &[u8],
) -> Result<Vec<Name>, AllocError>
    requires in_range { high < 33 }
    ensures value { IfOk result (λ names. names.items ≡ begins_before zone.now facts.now high pattern.now) }
{
    let mut names = Vec::new(alloc);
    for stretch in &facts.clear {
        if begins_to(zone, high, pattern, stretch) {
            names.push(Name::from_place(usize::from(stretch.after)))?;
        }
    }
    Ok(names)
}

/// Whether a line is known to be before the current one.
fn is_behind(zone: &Zone, v: Name) -> bool
    ensures value { result ≡ is_behind zone.now v }
{
    zone.is_known(v, Name::CURRENT_LINE, -1)
}

/// Whether one of some lines is known to be before the current one.
fn any_behind(zone: &Zone, names: &[Name]) -> bool
    ensures value { result ≡ list_any (is_behind zone.now) names.now }
{
    for v in names {
        if is_behind(zone, *v) {
            return true;
        }
    }
    false
}

/// Those of some lines that are known to be before the current one.
fn behind(alloc: Global, zone: &Zone, names: &[Name]) -> Result<Vec<Name>, AllocError>
    ensures value { IfOk result (λ some. some.items ≡ filter (is_behind zone.now) names.now) }
{
    let mut some = Vec::new(alloc);
    for v in names {
        if is_behind(zone, *v) {
            some.push(*v)?;
        }
    }
    Ok(some)
}

/// The last line before `high` that matches: it isn't before any of `lows`, nor before where `firsts` say that such lines end.
fn find_last_before(
    zone: &mut Zone,
    facts: &mut LineFacts,
    high: u8,
    lows: &[Name],
    firsts: &[Name],
    x: Name,
    pattern: &[u8],
) -> Result<(), AllocError>
    requires in_range { high < 33 }
    ensures exact { OnOk result (known_as zone.new facts.new ≡
        known_as (at_most_each x firsts.now (at_least_each x lows.now zone.old)) (with_match x pattern.now (with_stretch x high pattern.now facts.old))) }
{
    be_at_least_each(zone, x, lows);
    be_at_most_each(zone, x, firsts);
    facts.add_stretch(edge_of(x), high, pattern)?;
    facts.add_match(x, pattern)
}

/// The last line before the current one that matches, where a line is known to.
fn find_behind(
    alloc: Global,
    zone: &mut Zone,
    facts: &mut LineFacts,
    x: Name,
    pattern: &[u8],
) -> Result<(), AllocError>
    ensures exact { OnOk result (known_as zone.new facts.new ≡ found_behind x pattern.now zone.old facts.old) }
{
    let names = witnesses(alloc, facts, pattern)?;
    if any_behind(zone, names.as_slice()) {
        let behind = behind(alloc, zone, names.as_slice())?;
        let high = edge_of(Name::CURRENT_LINE);
        let firsts = begins_before(alloc, zone, facts, high, pattern)?;
        let lows = behind.as_slice();
        zone.guard(x, Name::CURRENT_LINE, -1);
        find_last_before(zone, facts, high, lows, firsts.as_slice(), x, pattern)
    } else if facts.are_clear(zone, Name::ZERO, 0, Name::CURRENT_LINE, 0, pattern) {
        let firsts = begins_before(alloc, zone, facts, ClearStretch::END, pattern)?;
        let lows = names.as_slice();
        find_last_before(
            zone,
            facts,
            ClearStretch::END,
            lows,
            firsts.as_slice(),
            x,
            pattern,
        )
    } else {
        facts.add_match(x, pattern)
    }
}

/// x becomes the line that a search backward finds, where a line is known to match: the last one before the current line, or else the last one
/// of all. After an `Err` some of it may be done.
pub fn search_backward(
    alloc: Global,
    zone: &mut Zone,
    facts: &mut LineFacts,
    x: Name,
    pattern: &[u8],
) -> Result<(), AllocError>
    ensures exact { OnOk result (known_as zone.new facts.new ≡ searched_backward x pattern.now zone.old facts.old) }
{
    be_some_line(zone, x);
    facts.forget(x);
    let names = witnesses(alloc, facts, pattern)?;
    match only_one(zone, facts, pattern, names.as_slice()) {
        Some(v) => find_only(zone, facts, v, x, pattern),
        None => find_behind(alloc, zone, facts, x, pattern),
    }
}
