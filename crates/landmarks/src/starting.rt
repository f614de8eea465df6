//! What chains of landmarks say of a file in which their landmarks are.

ghost use Rattle.std.specs.Prelude.{◌≡◌, ◌<◌, [], ◌∷◌, ◌++◌, map, drop, IfOk, OnOk, OnErr};
ghost use Rattle.std.specs.List.{flat_map};
ghost use Rattle.zones.specs.Name.{zero};
ghost use Rattle.ed_rules.specs.facts.FoundLines.{known_as};
ghost use Rattle.landmarks.specs.Starting.{named_as, named_below, named, distances_sought, distances_of, guarded, line_fact, lines_sought, lines_of, clear_between, clear_sought, clear_of, started};

use crate::{Landmark, LandmarkChain, Which};
use ed_base::Bytes;
use ed_rules::{ClearStretch, KnownLine, LineFacts, edge_of};
use std::alloc::{AllocError, Global};
use zones::{Name, Zone};

/// What is known where the landmarks of some chains are in a file, and these names number their lines: one name for each landmark, in their
/// order, one chain after another. How far the lines are from each other, from line 0 and from the last line goes into the zone; what they and
/// the lines around them match is answered, where a fact may stand twice. Of landmarks for which no names are left nothing is said. An `Err`
/// says that memory was refused, and leaves the zone as it was.
pub fn know_landmarks(
    alloc: Global,
    zone: &mut Zone,
    names: &[Name],
    chains: &[LandmarkChain],
) -> Result<LineFacts, AllocError>
    ensures exact { IfOk result (λ facts. known_as zone.new facts ≡ started names.now (map (λ chain. chain.landmarks) chains.now) zone.old) }
    ensures unchanged { OnErr result (zone.new ≡ zone.old) }
{
    let mut facts = LineFacts::none(alloc);
    tell_chains(&mut facts, names, chains)?;
    guard_chains(zone, names, chains);
    Ok(facts)
}

/// The names after so many.
fn after_names(names: &[Name], count: usize) -> &[Name]
    ensures value { result.now ≡ drop count names.now }
{
    if count < names.len() {
        &names[count..]
    } else {
        &[]
    }
}

// HOW FAR LINES ARE FROM EACH OTHER

/// A landmark that is looked for by its number has that number.
fn guard_sought(zone: &mut Zone, x: Name, which: &Which)
    ensures exact { zone.new ≡ guarded (distances_sought which.now x) zone.old }
{
    if let Which::Numbered(number) = which {
        let number = i64::from(*number);
        zone.guard(x, Name::ZERO, number);
        zone.guard(Name::ZERO, x, -number);
    }
}

/// What a landmark says of distances.
fn guard_landmark(zone: &mut Zone, before: Name, x: Name, landmark: &Landmark)
    ensures exact { zone.new ≡ guarded (distances_of (named_as before x landmark.now)) zone.old }
{
    zone.guard(Name::ZERO, x, -1);
    zone.guard(x, Name::LAST_LINE, -i64::from(landmark.tail));
    zone.guard(before, x, -i64::from(landmark.gap));
    guard_sought(zone, x, &landmark.which);
}

/// The same of each landmark of a chain.
fn guard_chain(zone: &mut Zone, names: &[Name], chain: &[Landmark])
    ensures exact { zone.new ≡ guarded (flat_map distances_of (named_below zero names.now chain.now)) zone.old }
{
    let mut before = Name::ZERO;
    let mut left = names;
    for landmark in chain {
        let [x, rest @ ..] = left else {
            return;
        };
        guard_landmark(zone, before, *x, landmark);
        before = *x;
        left = rest;
    }
}

/// The same of each chain.
fn guard_chains(zone: &mut Zone, names: &[Name], chains: &[LandmarkChain])
    ensures exact { zone.new ≡ guarded (flat_map distances_of (named names.now (map (λ chain. chain.landmarks) chains.now))) zone.old }
{
    let mut left = names;
    for chain in chains {
        guard_chain(zone, left, chain.landmarks());
        left = after_names(left, chain.landmarks().len());
    }
}

// WHAT LINES MATCH

/// A line matches a pattern, or doesn't.
fn tell_line(
    facts: &mut LineFacts,
    x: Name,
    matches: bool,
    pattern: &Bytes,
) -> Result<(), AllocError>
    ensures lines { OnOk result (facts.new.lines ≡ facts.old.lines ++ line_fact x matches pattern.now ∷ []) }
    ensures clear { OnOk result (facts.new.clear ≡ facts.old.clear) }
{
    let pattern = pattern.try_copy()?;
    facts.lines.push(KnownLine {
        name: x,
        pattern,
        matches,
    })?;
    Ok(())
}

/// No line between two matches a pattern.
fn tell_clear(
    facts: &mut LineFacts,
    after: u8,
    before: u8,
    pattern: &Bytes,
) -> Result<(), AllocError>
    requires after { after < 33 }
    requires before { before < 33 }
    ensures lines { OnOk result (facts.new.lines ≡ facts.old.lines) }
    ensures clear { OnOk result (facts.new.clear ≡ facts.old.clear ++ clear_between after before pattern.now ∷ []) }
{
    let pattern = pattern.try_copy()?;
    facts.clear.push(ClearStretch {
        after,
        before,
        pattern,
    })?;
    Ok(())
}

/// A line matches each of these patterns, or none of them.
fn tell_lines(
    facts: &mut LineFacts,
    x: Name,
    matches: bool,
    patterns: &[Bytes],
) -> Result<(), AllocError>
    ensures lines { OnOk result (facts.new.lines ≡ facts.old.lines ++ map (line_fact x matches) patterns.now) }
    ensures clear { OnOk result (facts.new.clear ≡ facts.old.clear) }
{
    for pattern in patterns {
        tell_line(facts, x, matches, pattern)?;
    }
    Ok(())
}

/// No line between two matches one of these patterns.
fn tell_all_clear(
    facts: &mut LineFacts,
    after: Name,
    before: Name,
    patterns: &[Bytes],
) -> Result<(), AllocError>
    ensures lines { OnOk result (facts.new.lines ≡ facts.old.lines) }
    ensures clear { OnOk result (facts.new.clear ≡ facts.old.clear ++ map (clear_between after before) patterns.now) }
{
    for pattern in patterns {
        tell_clear(facts, edge_of(after), edge_of(before), pattern)?;
    }
    Ok(())
}

/// A landmark that is looked for by a pattern is the first line to match it, or the only one.
fn tell_sought(
    facts: &mut LineFacts,
    before: Name,
    x: Name,
    which: &Which,
) -> Result<(), AllocError>
    ensures lines { OnOk result (facts.new.lines ≡ facts.old.lines ++ lines_sought which.now x) }
    ensures clear { OnOk result (facts.new.clear ≡ facts.old.clear ++ clear_sought which.now before x) }
{
    match which {
        Which::First(pattern) => {
            tell_line(facts, x, true, pattern)?;
            tell_clear(facts, edge_of(before), edge_of(x), pattern)
        }
        Which::Only(pattern) => {
            tell_line(facts, x, true, pattern)?;
            tell_clear(facts, edge_of(before), edge_of(x), pattern)?;
            tell_clear(facts, edge_of(Name::ZERO), edge_of(x), pattern)?;
            tell_clear(facts, edge_of(x), ClearStretch::END, pattern)
        }
        Which::Numbered(_) => Ok(()),
    }
}

/// What a landmark says of its line and of those around it.
fn tell_landmark(
    facts: &mut LineFacts,
    before: Name,
    x: Name,
    landmark: &Landmark,
) -> Result<(), AllocError>
    ensures lines { OnOk result (facts.new.lines ≡ facts.old.lines ++ lines_of (named_as before x landmark.now)) }
    ensures clear { OnOk result (facts.new.clear ≡ facts.old.clear ++ clear_of (named_as before x landmark.now)) }
{
    tell_sought(facts, before, x, &landmark.which)?;
    tell_lines(facts, x, true, landmark.also.members())?;
    tell_lines(facts, x, false, landmark.lacks.members())?;
    tell_all_clear(facts, before, x, landmark.none.members())
}

/// The same of each landmark of a chain.
fn tell_chain(facts: &mut LineFacts, names: &[Name], chain: &[Landmark]) -> Result<(), AllocError>
    ensures lines { OnOk result (facts.new.lines ≡ facts.old.lines ++ flat_map lines_of (named_below zero names.now chain.now)) }
    ensures clear { OnOk result (facts.new.clear ≡ facts.old.clear ++ flat_map clear_of (named_below zero names.now chain.now)) }
{
    let mut before = Name::ZERO;
    let mut left = names;
    for landmark in chain {
        let [x, rest @ ..] = left else {
            return Ok(());
        };
        tell_landmark(facts, before, *x, landmark)?;
        before = *x;
        left = rest;
    }
    Ok(())
}

/// The same of each chain.
fn tell_chains(
    facts: &mut LineFacts,
    names: &[Name],
    chains: &[LandmarkChain],
) -> Result<(), AllocError>
    ensures lines { OnOk result (facts.new.lines ≡ facts.old.lines ++ flat_map lines_of (named names.now (map (λ chain. chain.landmarks) chains.now))) }
    ensures clear { OnOk result (facts.new.clear ≡ facts.old.clear ++ flat_map clear_of (named names.now (map (λ chain. chain.landmarks) chains.now))) }
{
    let mut left = names;
    for chain in chains {
        tell_chain(facts, left, chain.landmarks())?;
        left = after_names(left, chain.landmarks().len());
    }
    Ok(())
}
