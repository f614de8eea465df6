//! The parts of a landmark.

ghost use Rattle.std.specs.Prelude.{◌≡◌, ◌≤◌, ◌<◌, [], length, codes, MatchResult, MatchOption, IfOk, IfErr};
ghost use Rattle.landmarks.specs.Spelled.{SpellsNone, SpellsWhich, SpellsDistance, SpellsTests, SpellsParts, SpellsLandmark, CanBe};
ghost use Rattle.landmarks.specs.ChainFaults.{IsNever};
ghost use Rattle.landmarks.specs.Stops.{IsEnd, StopsIn, Unless, NoNone, NoWhich, NoDistance, NoTests, NoParts, NoLandmark};

use crate::chain_fault::{ChainWrong, Stop};
use crate::never::never;
use crate::words::{after_sign, after_word, begins_with_digit, count, key};
use crate::{Landmark, Which};
use ed_base::Texts;
use std::alloc::Global;

/// The patterns after each `no` in front.
fn none(alloc: Global, text: &[u8]) -> Result<(Texts, &[u8]), Stop>
    ensures spelled { MatchResult result (λ (none, rest). SpellsNone [] text.now rest.now none) (Unless (NoNone [] text.now)) }
    ensures told { IfErr result (StopsIn text.now) }
    ensures end { IfOk result (λ (none, rest). IsEnd text.now rest.now) }
{
    let mut none = Texts::none(alloc);
    let mut left = text;
    'patterns: while let Some(key_text) = after_word(left, b"no") {
        let (pattern, rest) = key(alloc, key_text)?;
        none.add(pattern.as_slice())?;
        left = rest;
    }
    Ok((none, left))
}

/// Which line is looked for.
fn which(alloc: Global, text: &[u8]) -> Result<(Which, &[u8]), Stop>
    ensures spelled { MatchResult result (λ (which, rest). SpellsWhich text.now rest.now which) (Unless (NoWhich text.now)) }
    ensures told { IfErr result (StopsIn text.now) }
    ensures end { IfOk result (λ (which, rest). IsEnd text.now rest.now) }
{
    if let Some(key_text) = after_word(text, b"only") {
        let (pattern, rest) = key(alloc, key_text)?;
        return Ok((Which::Only(pattern), rest));
    }
    if begins_with_digit(text) {
        let (n, rest) = count(text)?;
        return Ok((Which::Numbered(n), rest));
    }
    let (first, rest) = key(alloc, text)?;
    Ok((Which::First(first), rest))
}

/// The number after a word, or what goes without saying.
fn distance<'a>(text: &'a [u8], word: &[u8], unsaid: u32) -> Result<(u32, &'a [u8]), Stop>
    ensures spelled { MatchResult result (λ (n, rest). SpellsDistance word.now unsaid text.now rest.now n)
        (Unless (NoDistance word.now unsaid text.now)) }
    ensures told { IfErr result (StopsIn text.now) }
    ensures end { IfOk result (λ (n, rest). IsEnd text.now rest.now) }
{
    match after_word(text, word) {
        Some(count_text) => {
            let (n, rest) = count(count_text)?;
            Ok((n, rest))
        }
        None => Ok((unsaid, text)),
    }
}

/// The patterns after each `&`: those that are matched too, and those that aren't.
fn tests(alloc: Global, text: &[u8]) -> Result<(Texts, Texts, &[u8]), Stop>
    ensures spelled { MatchResult result (λ (also, lacks, rest). SpellsTests [] [] text.now rest.now also lacks)
        (Unless (NoTests [] [] text.now)) }
    ensures told { IfErr result (StopsIn text.now) }
    ensures end { IfOk result (λ (also, lacks, rest). IsEnd text.now rest.now) }
{
    let mut also = Texts::none(alloc);
    let mut lacks = Texts::none(alloc);
    let mut left = text;
    'tests: while let Some(test) = after_sign(left, b'&') {
        let Some(key_text) = after_word(test, b"not") else {
            let (matched, rest) = key(alloc, test)?;
            also.add(matched.as_slice())?;
            left = rest;
            continue;
        };
        let (lacking, rest) = key(alloc, key_text)?;
        lacks.add(lacking.as_slice())?;
        left = rest;
    }
    Ok((also, lacks, left))
}

/// The parts of a landmark, one after another.
fn parts(alloc: Global, text: &[u8]) -> Result<(Landmark, &[u8]), Stop>
    ensures spelled { MatchResult result (λ (landmark, rest). SpellsParts text.now rest.now landmark) (Unless (NoParts text.now)) }
    ensures told { IfErr result (StopsIn text.now) }
    ensures end { IfOk result (λ (landmark, rest). IsEnd text.now rest.now) }
{
    let (none, rest) = none(alloc, text)?;
    let (which, rest) = which(alloc, rest)?;
    let (gap, rest) = distance(rest, b"gap", 1)?;
    let (tail, rest) = distance(rest, b"tail", 0)?;
    let (also, lacks, rest) = tests(alloc, rest)?;
    let landmark = Landmark {
        none,
        which,
        gap,
        tail,
        also,
        lacks,
    };
    Ok((landmark, rest))
}

/// A landmark, which some line may be.
pub fn landmark(alloc: Global, text: &[u8]) -> Result<(Landmark, &[u8]), Stop>
    ensures spelled { MatchResult result (λ (landmark, rest). SpellsLandmark text.now rest.now landmark) (Unless (NoLandmark text.now)) }
    ensures told { IfErr result (StopsIn text.now) }
    ensures end { IfOk result (λ (landmark, rest). IsEnd text.now rest.now) }
    ensures shorter { IfOk result (λ (landmark, rest). length rest.now ≤ length text.now) }
{
    let (landmark, rest) = parts(alloc, text)?;
    match never(alloc, &landmark)? {
        Some(why) => Err(Stop::Wrong(ChainWrong::Never(why), text.len())),
        None => Ok((landmark, rest)),
    }
}
