//! Landmarks as a person reads them.

ghost use Rattle.std.specs.Prelude.{◌≡◌, ◌++◌, false, codes, map, string_bytes, IfOk, OnOk};
ghost use Rattle.std.specs.List.{list_all};
ghost use Rattle.hints.specs.Shown.{joined, quoted_text};
ghost use Rattle.hints.specs.StartWords.{below_said, between_words, chain_words, gap_said, is_bare, landmark_words, landmarks_words, line_words, lines_words, patterns_said, said, tail_words};

use crate::landmark_lines::{line_text, place_text};
use crate::words::{joined, quoted};
use ed_base::{Bytes, Texts};
use landmarks::{Landmark, LandmarkChain, Which};
use std::alloc::{AllocError, Global};

/// The word for so many lines.
pub(crate) fn counted_lines(alloc: Global, count: u64) -> Result<String, AllocError>
    ensures value { IfOk result (λ words. string_bytes words ≡ lines_words count) }
{
    match count {
        1 => Ok(format!(in alloc; "{count} line")?),
        _ => Ok(format!(in alloc; "{count} lines")?),
    }
}

/// What the landmarks of chains say of a file, one condition for each: ``the first line that matches `^Port` matches `22` ``.
pub(crate) fn landmark_conditions(
    alloc: Global,
    chains: &[LandmarkChain],
) -> Result<Vec<String>, AllocError>
    ensures value { IfOk result (λ said. map (λ words. string_bytes words) said.items ≡ landmarks_words chains.now) }
{
    let mut said = Vec::new(alloc);
    for chain in chains {
        push_chain(alloc, &mut said, chain.landmarks())?;
    }
    Ok(said)
}

/// Puts in what the landmarks of a chain say.
fn push_chain(alloc: Global, said: &mut Vec<String>, chain: &[Landmark]) -> Result<(), AllocError>
    ensures value { OnOk result (map (λ words. string_bytes words) said.new.items
        ≡ map (λ words. string_bytes words) said.old.items ++ chain_words false chain.now) }
{
    let mut is_below = false;
    let mut left = chain;
    'landmarks: while let [landmark, later @ ..] = left {
        said.push(landmark_text(alloc, landmark, is_below, are_bare(left))?)?;
        is_below = true;
        left = later;
    }
    Ok(())
}

/// Whether nothing is said of the line of a landmark but which one it is and how many lines come after it.
fn is_bare(landmark: &Landmark) -> bool
    ensures value { result ≡ is_bare landmark.now }
{
    landmark.gap <= 1
        && landmark.also.members().is_empty()
        && landmark.lacks.members().is_empty()
        && landmark.none.members().is_empty()
}

/// Whether that is so of each of these.
fn are_bare(landmarks: &[Landmark]) -> bool
    ensures value { result ≡ list_all is_bare landmarks.now }
{
    for landmark in landmarks {
        if !is_bare(landmark) {
            return false;
        }
    }
    true
}

/// What a landmark says. Where `is_below` is true, another one stands before it in its chain, and where `is_any` is, no more is said of its line,
/// nor of those that are looked for below it.
fn landmark_text(
    alloc: Global,
    landmark: &Landmark,
    is_below: bool,
    is_any: bool,
) -> Result<String, AllocError>
    ensures value { IfOk result (λ words. string_bytes words ≡ landmark_words is_below is_any landmark.now) }
{
    let line = if is_bare(landmark) {
        place_text(alloc, &landmark.which, is_below, is_any)?
    } else {
        said_text(alloc, landmark, is_below)?
    };
    let tail = tail_text(alloc, landmark.tail)?;
    Ok(format!(in alloc; "{}{}", line.as_str(), tail.as_str())?)
}

/// How many lines come after it, where that is said.
fn tail_text(alloc: Global, tail: u32) -> Result<String, AllocError>
    ensures value { IfOk result (λ words. string_bytes words ≡ tail_words tail) }
{
    if tail == 0 {
        return Ok(String::new(alloc));
    }
    let lines = counted_lines(alloc, u64::from(tail))?;
    Ok(format!(in alloc; ", with at least {} after it", lines.as_str())?)
}

/// Which line it is, and what is said of it.
fn said_text(alloc: Global, landmark: &Landmark, is_below: bool) -> Result<String, AllocError>
    ensures value { IfOk result (λ words. string_bytes words
        ≡ line_words is_below landmark.now.which ++ codes " " ++ joined (codes " and ") (said is_below landmark.now)) }
{
    let line = line_text(alloc, &landmark.which, is_below)?;
    let parts = said_of(alloc, landmark, is_below)?;
    let all = joined(alloc, " and ", parts.as_slice())?;
    Ok(format!(in alloc; "{} {}", line.as_str(), all.as_str())?)
}

/// What is said of a landmark's line, in parts.
fn said_of(alloc: Global, landmark: &Landmark, is_below: bool) -> Result<Vec<String>, AllocError>
    ensures value { IfOk result (λ parts. map (λ words. string_bytes words) parts.items ≡ said is_below landmark.now) }
{
    let mut said = Vec::new(alloc);
    push_below(alloc, &mut said, &landmark.which, is_below)?;
    push_matched(alloc, &mut said, "matches", " and ", &landmark.also)?;
    push_matched(alloc, &mut said, "doesn't match", " or ", &landmark.lacks)?;
    push_gap(alloc, &mut said, landmark.gap, is_below)?;
    push_matched(
        alloc,
        &mut said,
        between_text(is_below),
        " or ",
        &landmark.none,
    )?;
    Ok(said)
}

/// Puts in that the line is below the one of the landmark before it, which goes without saying of the first one below.
fn push_below(
    alloc: Global,
    said: &mut Vec<String>,
    which: &Which,
    is_below: bool,
) -> Result<(), AllocError>
    ensures value { OnOk result (map (λ words. string_bytes words) said.new.items
        ≡ map (λ words. string_bytes words) said.old.items ++ below_said is_below which.now) }
{
    match which {
        Which::Only(_) | Which::Numbered(_) if is_below => {
            said.push(String::from_str(alloc, "is below it")?)?;
        }
        _ => {}
    }
    Ok(())
}

/// Between the line of the landmark before it and this one, or above this one.
fn between_text(is_below: bool) -> &'static str
    ensures value { result.now ≡ between_words is_below }
{
    if is_below {
        "has no line between that matches"
    } else {
        "has no line above it that matches"
    }
}

/// Puts in how far it is from the line of the landmark before it, or from the beginning, where that is said.
fn push_gap(
    alloc: Global,
    said: &mut Vec<String>,
    gap: u32,
    is_below: bool,
) -> Result<(), AllocError>
    ensures value { OnOk result (map (λ words. string_bytes words) said.new.items
        ≡ map (λ words. string_bytes words) said.old.items ++ gap_said is_below gap) }
{
    if gap <= 1 {
        return Ok(());
    }
    let far = if is_below {
        format!(in alloc; "is at least {gap} lines further down")?
    } else {
        format!(in alloc; "is line {gap} or later")?
    };
    said.push(far)?;
    Ok(())
}

/// Puts in what is said of the patterns of a set, with this word between them; nothing where it has none.
fn push_matched(
    alloc: Global,
    said: &mut Vec<String>,
    what: &str,
    between: &str,
    patterns: &Texts,
) -> Result<(), AllocError>
    ensures value { OnOk result (map (λ words. string_bytes words) said.new.items
        ≡ map (λ words. string_bytes words) said.old.items ++ patterns_said what.now between.now patterns.now) }
{
    if patterns.members().is_empty() {
        return Ok(());
    }
    let shown = quoted_each(alloc, patterns.members())?;
    let all = joined(alloc, between, shown.as_slice())?;
    said.push(format!(in alloc; "{what} {}", all.as_str())?)?;
    Ok(())
}

/// Patterns as a line shows them.
fn quoted_each(alloc: Global, patterns: &[Bytes]) -> Result<Vec<String>, AllocError>
    ensures value { IfOk result (λ shown. map (λ words. string_bytes words) shown.items ≡ map quoted_text patterns.now) }
{
    let mut shown = Vec::new(alloc);
    for pattern in patterns {
        shown.push(quoted(alloc, pattern.as_slice())?)?;
    }
    Ok(shown)
}
