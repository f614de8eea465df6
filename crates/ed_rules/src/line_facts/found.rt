//! What is known of lines that match a pattern, for a search of it.

ghost use Rattle.std.specs.Prelude.{◌≡◌, IfOk, OnOk, find, pos};
ghost use Rattle.ed_rules.specs.facts.FoundLines.{known_as, some_line, matches_it, is_witnessed, witnesses, is_only, at_most_each, at_least_each, found_only};

use crate::line_facts::{KnownLine, LineFacts};
use std::alloc::{AllocError, Global};
use zones::{Name, Zone};

/// The name is that of some line.
pub(crate) fn be_some_line(zone: &mut Zone, x: Name)
    ensures exact { zone.new ≡ some_line x zone.old }
{
    zone.forget(x);
    zone.guard(Name::ZERO, x, -1);
    zone.guard(x, Name::LAST_LINE, 0);
}

/// Whether a fact says that its line matches the pattern.
pub(crate) fn matches_it(pattern: &[u8], fact: &KnownLine) -> bool
    ensures value { result ≡ matches_it pattern.now fact.now }
{
    fact.pattern.as_slice() == pattern && fact.matches
}

/// The names of the lines that are known to match a pattern.
pub(crate) fn witnesses(
    alloc: Global,
    facts: &LineFacts,
    pattern: &[u8],
) -> Result<Vec<Name>, AllocError>
    ensures value { IfOk result (λ names. names.items ≡ witnesses facts.now pattern.now) }
{
    let mut names = Vec::new(alloc);
    for fact in &facts.lines {
        if matches_it(pattern, fact) {
            names.push(fact.name)?;
        }
    }
    Ok(names)
}

/// Whether no line but x matches.
fn is_only(zone: &Zone, facts: &LineFacts, pattern: &[u8], x: Name) -> bool
    ensures value { result ≡ is_only zone.now facts.now pattern.now x }
{
    facts.are_clear(zone, Name::ZERO, 0, x, 0, pattern)
        && facts.are_clear(zone, x, 0, Name::LAST_LINE, 1, pattern)
}

/// The first of these lines that is the only one to match.
pub(crate) fn only_one(
    zone: &Zone,
    facts: &LineFacts,
    pattern: &[u8],
    names: &[Name],
) -> Option<Name>
    ensures value { result ≡ find (is_only zone.now facts.now pattern.now) names.now }
{
    for x in names {
        if is_only(zone, facts, pattern, *x) {
            return Some(*x);
        }
    }
    None
}

/// x is at most each of these.
pub(crate) fn be_at_most_each(zone: &mut Zone, x: Name, names: &[Name])
    ensures exact { zone.new ≡ at_most_each x names.now zone.old }
{
    for y in names {
        zone.guard(x, *y, 0);
    }
}

/// x is at least each of these.
pub(crate) fn be_at_least_each(zone: &mut Zone, x: Name, names: &[Name])
    ensures exact { zone.new ≡ at_least_each x names.now zone.old }
{
    for y in names {
        zone.guard(*y, x, 0);
    }
}

/// The only line that matches.
pub(crate) fn find_only(
    zone: &mut Zone,
    facts: &mut LineFacts,
    v: Name,
    x: Name,
    pattern: &[u8],
) -> Result<(), AllocError>
    ensures exact { OnOk result (known_as zone.new facts.new ≡ found_only v x pattern.now zone.old facts.old) }
{
    zone.set(x, v, 0);
    facts.add_match(x, pattern)
}

/// Whether a fact says that some line matches the pattern, so that a search for it finds one.
pub fn is_witnessed(facts: &LineFacts, pattern: &[u8]) -> bool
    ensures value { result ≡ is_witnessed facts.now pattern.now }
{
    for fact in &facts.lines {
        if matches_it(pattern, fact) {
            return true;
        }
    }
    false
}
