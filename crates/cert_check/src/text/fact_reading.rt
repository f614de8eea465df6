//! Facts of lines in a certificate's text, as they are read.

ghost use Rattle.std.specs.Prelude.{◌≡◌, ◌≢◌, ◌<◌, ◌++◌, ◌∷◌, [], ℕ, List, Some, true, MatchOption, IfOk, IfSome, All, map, option_map};
ghost use Rattle.std.specs.Ordering.{is_lt};
ghost use Rattle.ed_rules.specs.Formed.{has_name};
ghost use Rattle.ed_rules.specs.facts.Facts.{LineFact, Stretch};
ghost use Rattle.cert_check.specs.text.Text.{spaced, line_text, name_word};
ghost use Rattle.cert_check.specs.text.FactsText.{edge_word, answer_word, fact_word, stretch_word, known_line, clear_line, ends_stretch, fact_order, stretch_order, is_rising_by, FactIsFormed, StretchIsFormed, KnownAreFormed, ClearAreFormed};
ghost use Rattle.cert_check.specs.text.Reading.{WordReadsAs};

use crate::text::has_text::{has_name, letters_are_counted};
use crate::text::words_in::{after_key, next_word, path_word_in};
use crate::text::zone_lines::name_said;
use ed_rules::{ClearStretch, KnownLine, Marks};
use std::alloc::{AllocError, Global};
use std::cmp::Ordering;
use zones::Name;

/// The name that a byte stands for, if it is `0`, `.`, `$` or a sure letter.
fn name_in(marks: &Marks, byte: u8) -> Option<Name>
    ensures exact { MatchOption result ((place : ℕ) → has_name marks.now place ≡ true → name_word place ≢ byte ∷ [])
        (λ place. (name_word place ≡ byte ∷ []) × (has_name marks.now place ≡ true)) }
{
    letters_are_counted(marks);
    let name = name_said(byte)?;
    if has_name(marks, name) {
        Some(name)
    } else {
        None
    }
}

/// Whether a line matches, by the sign before a pattern.
fn answer_in(sign: u8) -> Option<bool>
    ensures exact { WordReadsAs answer_word (λ _. Unit {0}) (sign ∷ []) result }
{
    match sign {
        b'+' => Some(true),
        b'-' => Some(false),
        _ => None,
    }
}

/// What is known of one line.
fn fact_in(alloc: Global, marks: &Marks, word: &[u8]) -> Result<Option<KnownLine>, AllocError>
    ensures exact { IfOk result (λ fact. WordReadsAs fact_word (FactIsFormed marks.now) word.now fact) }
{
    let [name, sign, pattern @ ..] = word else {
        return Ok(None);
    };
    let Some(name) = name_in(marks, *name) else {
        return Ok(None);
    };
    if name == Name::ZERO {
        return Ok(None);
    }
    let Some(matches) = answer_in(*sign) else {
        return Ok(None);
    };
    let Some(pattern) = path_word_in(alloc, pattern)? else {
        return Ok(None);
    };
    Ok(Some(KnownLine {
        name,
        pattern,
        matches,
    }))
}

/// The name before which a stretch ends, and what is left of its word.
fn end_in<'a>(marks: &Marks, text: &'a [u8]) -> Option<(u8, &'a [u8])>
    ensures exact { MatchOption result
        ((place : ℕ) (later : List ℕ) → ends_stretch marks.now place ≡ true → edge_word place ++ later ≢ text.now)
        (λ (place, left). (ends_stretch marks.now place ≡ true) × (edge_word place ++ left.now ≡ text.now)) }
    ensures in_range { IfSome result (λ (place, _). place < 33) }
{
    if let Some(left) = after_key(b"$+", text) {
        return Some((ClearStretch::END, left));
    }
    let [name, left @ ..] = text else {
        return None;
    };
    let Some(name) = name_in(marks, *name) else {
        return None;
    };
    if name == Name::ZERO || name == Name::LAST_LINE {
        return None;
    }
    Some((name.place() as u8, left))
}

/// Between which names no line matches, and what.
fn stretch_in(alloc: Global, marks: &Marks, word: &[u8]) -> Result<Option<ClearStretch>, AllocError>
    ensures exact { IfOk result (λ stretch. WordReadsAs stretch_word (StretchIsFormed marks.now) word.now stretch) }
{
    let [name, sign, ends @ ..] = word else {
        return Ok(None);
    };
    if *sign != b'-' {
        return Ok(None);
    }
    let Some(name) = name_in(marks, *name) else {
        return Ok(None);
    };
    if name == Name::LAST_LINE {
        return Ok(None);
    }
    let Some((before, left)) = end_in(marks, ends) else {
        return Ok(None);
    };
    let after = name.place() as u8;
    if after == before {
        return Ok(None);
    }
    let Some(pattern) = path_word_in(alloc, left)? else {
        return Ok(None);
    };
    Ok(Some(ClearStretch {
        after,
        before,
        pattern,
    }))
}

/// Facts of lines, in whatever order they stand in a text, each after a space.
fn facts_in(alloc: Global, marks: &Marks, text: &[u8]) -> Result<Option<Vec<KnownLine>>, AllocError>
    ensures exact { IfOk result (λ facts. WordReadsAs (λ facts. spaced (map fact_word facts)) (All (FactIsFormed marks.now))
        text.now (option_map (λ facts. facts.items) facts)) }
{
    let mut facts = Vec::new(alloc);
    let mut left = text;
    while let Some((word, later)) = next_word(left) {
        let Some(fact) = fact_in(alloc, marks, word)? else {
            return Ok(None);
        };
        facts.push(fact)?;
        left = later;
    }
    if !left.is_empty() {
        return Ok(None);
    }
    Ok(Some(facts))
}

/// Stretches, in whatever order they stand in a text, each after a space.
fn stretches_in(
    alloc: Global,
    marks: &Marks,
    text: &[u8],
) -> Result<Option<Vec<ClearStretch>>, AllocError>
    ensures exact { IfOk result (λ stretches. WordReadsAs (λ stretches. spaced (map stretch_word stretches)) (All (StretchIsFormed marks.now))
        text.now (option_map (λ stretches. stretches.items) stretches)) }
{
    let mut stretches = Vec::new(alloc);
    let mut left = text;
    while let Some((word, later)) = next_word(left) {
        let Some(stretch) = stretch_in(alloc, marks, word)? else {
            return Ok(None);
        };
        stretches.push(stretch)?;
        left = later;
    }
    if !left.is_empty() {
        return Ok(None);
    }
    Ok(Some(stretches))
}

/// Which of two facts stands first in the text; `Equal` where both have one name and pattern.
pub(crate) fn compare_facts(one: &KnownLine, other: &KnownLine) -> Ordering
    ensures value { result ≡ fact_order one.now other.now }
{
    let patterns = one.pattern.as_slice().cmp(&other.pattern.as_slice());
    one.name.place().cmp(&other.name.place()).then(patterns)
}

/// Which of two stretches stands first in the text.
pub(crate) fn compare_stretches(one: &ClearStretch, other: &ClearStretch) -> Ordering
    ensures value { result ≡ stretch_order one.now other.now }
{
    let patterns = one.pattern.as_slice().cmp(&other.pattern.as_slice());
    let ends = one.before.cmp(&other.before).then(patterns);
    one.after.cmp(&other.after).then(ends)
}

pub(crate) fn is_fact_before(one: &KnownLine, other: &KnownLine) -> bool
    ensures value { result ≡ is_lt (fact_order one.now other.now) }
{
    compare_facts(one, other) == Ordering::Less
}

pub(crate) fn is_stretch_before(one: &ClearStretch, other: &ClearStretch) -> bool
    ensures value { result ≡ is_lt (stretch_order one.now other.now) }
{
    compare_stretches(one, other) == Ordering::Less
}

/// Whether each fact stands before those after it.
pub(crate) fn facts_rise(facts: &[KnownLine]) -> bool
    ensures value { result ≡ is_rising_by fact_order facts.now }
{
    for next in 1..facts.len() {
        if !is_fact_before(&facts[next - 1], &facts[next]) {
            return false;
        }
    }
    true
}

/// Whether each stretch stands before those after it.
pub(crate) fn stretches_rise(stretches: &[ClearStretch]) -> bool
    ensures value { result ≡ is_rising_by stretch_order stretches.now }
{
    for next in 1..stretches.len() {
        if !is_stretch_before(&stretches[next - 1], &stretches[next]) {
            return false;
        }
    }
    true
}

/// Facts of lines that a line says after its key, beside the letters that are sure: the line is without its newline. `None` where it is
/// the line of no facts that have one: they are named by `.`, `$` or a sure letter, and rise by name and then by pattern.
pub fn known_in(
    alloc: Global,
    key: &[u8],
    marks: &Marks,
    line: &[u8],
) -> Result<Option<Vec<KnownLine>>, AllocError>
    ensures exact { IfOk result (λ facts. MatchOption facts
        ((others : List LineFact) → KnownAreFormed marks.now others → line_text (known_line key.now others) ≢ line.now)
        (λ facts. (line_text (known_line key.now facts.items) ≡ line.now) × KnownAreFormed marks.now facts.items)) }
{
    let Some(left) = after_key(key, line) else {
        return Ok(None);
    };
    let Some(facts) = facts_in(alloc, marks, left)? else {
        return Ok(None);
    };
    if !facts_rise(facts.as_slice()) {
        return Ok(None);
    }
    Ok(Some(facts))
}

/// The same of stretches, which a line says after its key. `None` where it is the line of no stretches that have one: each begins after `0`,
/// `.` or a sure letter, ends before another name, which is `.`, a sure letter or the end, and they rise by both names and then by pattern.
pub fn clear_in(
    alloc: Global,
    key: &[u8],
    marks: &Marks,
    line: &[u8],
) -> Result<Option<Vec<ClearStretch>>, AllocError>
    ensures exact { IfOk result (λ stretches. MatchOption stretches
        ((others : List Stretch) → ClearAreFormed marks.now others → line_text (clear_line key.now others) ≢ line.now)
        (λ stretches. (line_text (clear_line key.now stretches.items) ≡ line.now) × ClearAreFormed marks.now stretches.items)) }
{
    let Some(left) = after_key(key, line) else {
        return Ok(None);
    };
    let Some(stretches) = stretches_in(alloc, marks, left)? else {
        return Ok(None);
    };
    if !stretches_rise(stretches.as_slice()) {
        return Ok(None);
    }
    Ok(Some(stretches))
}
