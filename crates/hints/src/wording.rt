//! A start as a person reads it.

ghost use Rattle.std.specs.Prelude.{◌≡◌, ◌++◌, [], map, string_bytes, Bool, IfOk, OnOk, option_map};
ghost use Rattle.analyser.specs.Following.{stated_of};
ghost use Rattle.hints.specs.StartWords as meaning;
ghost use Rattle.hints.specs.StartWords.{bounds_words, conditions, file_words, in_which, is_at_most_one, landmarks_words, limited_words, listed, matched_words, of_lines, pattern_words, separator, together, with_patterns};

use crate::allowing::{chains_in, patterns_in};
use crate::landmark_words::{counted_lines, landmark_conditions};
use crate::words::{quoted, shown};
use analyser::Start;
use ed_base::Bytes;
use landmarks::LandmarkChain;
use std::alloc::{AllocError, Global};

/// How many bytes of a list of patterns are shown, before the last one that is.
const MOST_LISTED: usize = 200;

/// How many bytes are shown of what landmarks say, before the last one that is.
const MOST_SAID: usize = 300;

/// How many lines a file has that has at most so many.
fn limited_text(alloc: Global, min: u64, most: u64) -> Result<String, AllocError>
    ensures value { IfOk result (λ words. string_bytes words ≡ limited_words min most) }
{
    if most == 0 {
        return String::from_str(alloc, "no lines");
    }
    let lines = counted_lines(alloc, most)?;
    let lines = lines.as_str();
    if min == most {
        Ok(format!(in alloc; "exactly {lines}")?)
    } else if min == 0 {
        Ok(format!(in alloc; "at most {lines}")?)
    } else {
        Ok(format!(in alloc; "{min} to {lines}")?)
    }
}

/// Puts in how many lines a file has, where it may not have any number.
fn push_bounds(
    alloc: Global,
    said: &mut Vec<String>,
    min: u64,
    max: Option<u64>,
) -> Result<(), AllocError>
    ensures value { OnOk result (map (λ words. string_bytes words) said.new.items
        ≡ map (λ words. string_bytes words) said.old.items ++ bounds_words min max) }
{
    match max {
        Some(most) => said.push(limited_text(alloc, min, most)?)?,
        None if min == 0 => {}
        None => {
            let lines = counted_lines(alloc, min)?;
            said.push(format!(in alloc; "at least {}", lines.as_str())?)?;
        }
    }
    Ok(())
}

/// All that a start asks of a file, one condition after another: how many lines it has, as `at least 3 lines`, a line for each pattern, as
/// ``a line that matches `^port=` ``, and its landmarks, as ``the first line that matches `^Port` matches `22` ``. In what is said of a landmark below
/// another one, `it` is the line of that one. They are true of a file just where the start allows it. None where it allows any.
pub fn start_conditions(alloc: Global, start: &Start) -> Result<Vec<String>, AllocError>
    ensures value { IfOk result (λ said. map (λ words. string_bytes words) said.items ≡ conditions start.now) }
{
    let mut said = Vec::new(alloc);
    push_bounds(alloc, &mut said, start.min, start.max)?;
    for pattern in patterns_in(&start.has) {
        let shown = quoted(alloc, pattern.as_slice())?;
        said.push(format!(in alloc; "a line that matches {}", shown.as_str())?)?;
    }
    said.append(&mut landmark_conditions(alloc, chains_in(&start.landmarks))?)?;
    Ok(said)
}

/// What stands before a pattern in a list.
fn separator(is_first: bool, is_last: bool) -> &'static str
    ensures value { result.now ≡ separator is_first is_last }
{
    if is_first {
        ""
    } else if is_last {
        " and "
    } else {
        ", "
    }
}

/// The first of some patterns, and how many more there are.
fn list_text(alloc: Global, patterns: &[Bytes]) -> Result<String, AllocError>
    ensures value { IfOk result (λ words. string_bytes words ≡ listed [] patterns.now) }
{
    let mut list = String::new(alloc);
    let mut left = patterns;
    'patterns: while let [pattern, later @ ..] = left {
        if list.len() > MOST_LISTED {
            let more = format!(in alloc; " and {} more", left.len())?;
            list.push_str(more.as_str())?;
            return Ok(list);
        }
        list.push_str(separator(list.is_empty(), later.is_empty()))?;
        list.push_str(quoted(alloc, pattern.as_slice())?.as_str())?;
        left = later;
    }
    Ok(list)
}

/// Conditions one after another, up to so many bytes.
fn together(alloc: Global, conditions: &[String]) -> Result<String, AllocError>
    ensures value { IfOk result (λ words. string_bytes words ≡ together [] (map (λ condition. string_bytes condition) conditions.now)) }
{
    let mut words = String::new(alloc);
    for condition in conditions {
        if words.len() > MOST_SAID {
            words.push_str(" and more")?;
            return Ok(words);
        }
        if !words.is_empty() {
            words.push_str(", and ")?;
        }
        words.push_str(condition.as_str())?;
    }
    Ok(words)
}

/// What landmarks say of a file: ``the first line that matches `^Port` matches `22` ``. Empty where there are none.
pub(crate) fn landmarks_text(alloc: Global, chains: &[LandmarkChain]) -> Result<String, AllocError>
    ensures value { IfOk result (λ words. string_bytes words ≡ together [] (landmarks_words chains.now)) }
{
    together(alloc, landmark_conditions(alloc, chains)?.as_slice())
}

/// How the patterns that lines match follow on a file, of whose number of lines something is told or not.
fn matched_words(one: bool, told: bool, single: bool) -> &'static str
    ensures value { result.now ≡ matched_words one told single }
{
    match (one, told) {
        (true, _) => ", which matches ",
        (_, true) if single => ", one of which matches ",
        (_, true) => ", with lines that match ",
        (_, false) if single => " with a line that matches ",
        (_, false) => " with lines that match ",
    }
}

/// Whether there is at most one line.
fn is_at_most_one(max: Option<u64>) -> bool
    ensures value { result ≡ is_at_most_one max }
{
    match max {
        Some(most) => most == 1,
        None => false,
    }
}

/// The patterns that lines of a file match, of whose number of lines something is told or not.
fn patterns_text(
    alloc: Global,
    patterns: &[Bytes],
    max: Option<u64>,
    told: bool,
) -> Result<String, AllocError>
    ensures value { IfOk result (λ words. string_bytes words ≡ with_patterns max told patterns.now) }
{
    let [_first, others @ ..] = patterns else {
        return Ok(String::new(alloc));
    };
    let matched = matched_words(is_at_most_one(max), told, others.is_empty());
    let list = list_text(alloc, patterns)?;
    Ok(format!(in alloc; "{matched}{}", list.as_str())?)
}

/// What landmarks say of a file, after the patterns that lines of it match, where there are any: else it would be those lines in which another is.
fn in_which(alloc: Global, patterns: bool, chains: &[LandmarkChain]) -> Result<String, AllocError>
    ensures value { IfOk result (λ words. string_bytes words ≡ in_which patterns (landmarks_words chains.now)) }
{
    let conditions = landmark_conditions(alloc, chains)?;
    if conditions.is_empty() {
        return Ok(String::new(alloc));
    }
    let said = together(alloc, conditions.as_slice())?;
    let said = said.as_str();
    if patterns {
        Ok(format!(in alloc; ", and in which {said}")?)
    } else {
        Ok(format!(in alloc; " in which {said}")?)
    }
}

/// How many lines a file may have, in the sentence; nothing where it may have any number.
fn lines_text(alloc: Global, bounds: &[String]) -> Result<String, AllocError>
    ensures value { IfOk result (λ words. string_bytes words ≡ of_lines (map (λ bound. string_bytes bound) bounds.now)) }
{
    let mut words = String::new(alloc);
    for bound in bounds {
        words.push_str(" of ")?;
        words.push_str(bound.as_str())?;
    }
    Ok(words)
}

/// The starts that a script is vouched for over, in words, as ``any conf of at least 3 lines, one of which matches `^port=` `` without a
/// newline, or as ``any conf in which the first line that matches `^Port` matches `22` ``. Where there is no path it is `no file`. They are
/// `start_conditions` in one sentence. Of a name and of each pattern at most a hundred bytes are shown, and not all of many patterns or landmarks.
pub fn start_words(alloc: Global, start: &Start) -> Result<String, AllocError>
    ensures value { IfOk result (λ words. string_bytes words ≡ meaning.words start.now) }
{
    let Some(path) = &start.path else {
        return String::from_str(alloc, "no file");
    };
    file_words(alloc, path.as_slice(), start)
}

/// The same of a start with a path.
fn file_words(alloc: Global, path: &[u8], start: &Start) -> Result<String, AllocError>
    ensures value { IfOk result (λ words. string_bytes words ≡ file_words path.now start.now) }
{
    let name = shown(alloc, path)?;
    let mut bounds = Vec::new(alloc);
    push_bounds(alloc, &mut bounds, start.min, start.max)?;
    let lines = lines_text(alloc, bounds.as_slice())?;
    let patterns = patterns_in(&start.has);
    let matched = patterns_text(alloc, patterns, start.max, !bounds.is_empty())?;
    let landmarks = in_which(alloc, !patterns.is_empty(), chains_in(&start.landmarks))?;
    Ok(format!(in alloc;
        "any {}{}{}{}",
        name.as_str(),
        lines.as_str(),
        matched.as_str(),
        landmarks.as_str()
    )?)
}
