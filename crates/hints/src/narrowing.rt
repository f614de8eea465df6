//! The patterns that a start states beside those that are given, and which of them are enough.

ghost use Rattle.std.specs.Prelude.{◌≡◌, ◌↔◌, ◌<◌, ◌≤◌, ℕ, true, IfOk, IfSome, IfNone, IsTrue, filter, length, not, remove};
ghost use Rattle.bre_parse.specs.Always.{text_is_always};
ghost use Rattle.ed_syntax.specs.PublicScript.{script_value};
ghost use Rattle.ed_rules.specs.LineBounds.{most_lines, IsAtMost};
ghost use Rattle.ed_rules.specs.Texts.{is_member, are_members};
ghost use Rattle.analyser.specs.Following.{stated_of};
ghost use Rattle.hints.specs.Passing.{IsVouched};
ghost use Rattle.hints.specs.Widest.{start_with, beside};
ghost use Rattle.hints.specs.Narrowing.{AreEnough};

use crate::given::Given;
use crate::passing::is_vouched;
use crate::sought::is_always;
use crate::starts::{copy_of_has, copy_of_landmarks, copy_of_path};
use crate::stating::stated_of;
use analyser::{Start, wants};
use ed_base::Bytes;
use ed_rules::Texts;
use ed_syntax::Script;
use std::alloc::{AllocError, Global};

/// The start that is given, with this least number of lines and these patterns.
fn start_with(given: &Given, min: u64, has: Option<Texts>) -> Result<Start, AllocError>
    ensures value { IfOk result (λ start. start ≡ start_with given.now min has) }
{
    Ok(Start {
        path: copy_of_path(&given.path)?,
        min,
        max: given.max,
        has,
        landmarks: copy_of_landmarks(&given.landmarks)?,
    })
}

/// The start with the patterns that are given alone.
pub(crate) fn as_given(given: &Given, min: u64) -> Result<Start, AllocError>
    ensures value { IfOk result (λ start. start ≡ start_with given.now min given.now.has) }
{
    start_with(given, min, copy_of_has(&given.has)?)
}

/// The start with these patterns beside those that are given.
pub(crate) fn start_beside(
    alloc: Global,
    given: &Given,
    min: u64,
    added: &[Bytes],
) -> Result<Start, AllocError>
    ensures value { IfOk result (λ start. start ≡ start_with given.now min (beside given.now added.now)) }
{
    let mut all = stated_of(alloc, &given.has)?;
    'added: for pattern in added {
        all.add(pattern.as_slice())?;
    }
    start_with(given, min, Some(all))
}

/// Whether a script is vouched for with these patterns beside those that are given.
pub(crate) fn is_vouched_beside(
    alloc: Global,
    script: &Script,
    given: &Given,
    min: u64,
    added: &[Bytes],
) -> Result<bool, AllocError>
    requires ordered { IsAtMost min given.now.max }
    requires low { min ≤ most_lines }
    requires high { IfSome given.now.max (λ most. most ≤ most_lines) }
    ensures exact { IfOk result (λ yes. IsTrue yes ↔ IsVouched (script_value script.now) (start_with given.now min (beside given.now added.now))) }
{
    is_vouched(script, start_beside(alloc, given, min, added)?)
}

/// Equal patterns.
fn copies(alloc: Global, patterns: &[Bytes]) -> Result<Vec<Bytes>, AllocError>
    ensures value { IfOk result (λ copies. copies.items ≡ patterns.now) }
{
    let mut copies = Vec::new(alloc);
    'patterns: for pattern in patterns {
        copies.push(pattern.try_copy()?)?;
    }
    Ok(copies)
}

/// All patterns but the one at a place.
fn without(alloc: Global, patterns: &[Bytes], place: usize) -> Result<Vec<Bytes>, AllocError>
    requires within { place < length patterns.now }
    ensures value { IfOk result (λ others. others.items ≡ remove patterns.now place) }
{
    let mut others = copies(alloc, patterns)?;
    others.remove(place);
    Ok(others)
}

/// Whether a start states a pattern.
fn is_stated(start: &Start, pattern: &[u8]) -> bool
    ensures value { result ≡ is_member (stated_of start.now.has) pattern.now }
{
    match &start.has {
        Some(has) => has.has(pattern),
        None => false,
    }
}

/// Whether a script is vouched for without the pattern at a place, beside the others and those that are given. A script that is seen to want
/// the pattern isn't analysed; where landmarks are given it may do without.
fn is_vouched_without(
    alloc: Global,
    script: &Script,
    given: &Given,
    min: u64,
    patterns: &[Bytes],
    place: usize,
) -> Result<bool, AllocError>
    requires ordered { IsAtMost min given.now.max }
    requires low { min ≤ most_lines }
    requires high { IfSome given.now.max (λ most. most ≤ most_lines) }
    requires within { place < length patterns.now }
    ensures exact { IfOk result (λ yes. IsTrue yes ↔ IsVouched (script_value script.now) (start_with given.now min (beside given.now (remove patterns.now place)))) }
{
    let pattern = patterns[place].as_slice();
    let others = without(alloc, patterns, place)?;
    let start = start_beside(alloc, given, min, others.as_slice())?;
    if start.landmarks.is_none() && !is_stated(&start, pattern) && wants(alloc, script, pattern)? {
        return Ok(false);
    }
    is_vouched(script, start)
}

/// The patterns but those that every line matches.
fn without_always(alloc: Global, patterns: &[Bytes]) -> Result<Vec<Bytes>, AllocError>
    ensures value { IfOk result (λ others. others.items ≡ filter (λ text. not (text_is_always text)) patterns.now) }
{
    let mut others = Vec::new(alloc);
    'patterns: for pattern in patterns {
        if !is_always(alloc, pattern)? {
            others.push(pattern.try_copy()?)?;
        }
    }
    Ok(others)
}

/// None of some patterns that are enough, or those that not every line matches, where these are enough too; else all.
pub(crate) fn fewer_at_once(
    alloc: Global,
    script: &Script,
    given: &Given,
    min: u64,
    added: &[Bytes],
) -> Result<Vec<Bytes>, AllocError>
    requires enough { AreEnough (script_value script.now) given.now min added.now }
    ensures enough { IfOk result (λ fewer. AreEnough (script_value script.now) given.now min fewer.items) }
    ensures among { IfOk result (λ fewer. are_members fewer.items added.now ≡ true) }
{
    let none = Vec::new(alloc);
    if is_vouched_beside(alloc, script, given, min, none.as_slice())? {
        return Ok(none);
    }
    let some = without_always(alloc, added)?;
    if is_vouched_beside(alloc, script, given, min, some.as_slice())? {
        return Ok(some);
    }
    copies(alloc, added)
}

/// What is left of some patterns that are enough, after each from a place on without which the others are enough was left out in its turn.
fn left_of(
    alloc: Global,
    script: &Script,
    given: &Given,
    min: u64,
    added: Vec<Bytes>,
    from: usize,
) -> Result<Vec<Bytes>, AllocError>
    requires enough { AreEnough (script_value script.now) given.now min added.items }
    ensures enough { IfOk result (λ left. AreEnough (script_value script.now) given.now min left.items) }
    ensures among { IfOk result (λ left. are_members left.items added.items ≡ true) }
    ensures fewer { IfOk result (λ left. length left.items ≤ length added.items) }
{
    let mut left = added;
    let mut place = from;
    'places: while place < left.len() {
        if is_vouched_without(alloc, script, given, min, left.as_slice(), place)? {
            left = without(alloc, left.as_slice(), place)?;
        } else {
            place += 1;
        }
    }
    Ok(left)
}

/// Patterns that are enough, fewer than some others that are; none where each of these is needed. Those before the first that isn't needed
/// are kept, and each after it that the others don't need is left out.
pub(crate) fn fewer_of(
    alloc: Global,
    script: &Script,
    given: &Given,
    min: u64,
    added: &[Bytes],
) -> Result<Option<Vec<Bytes>>, AllocError>
    requires enough { AreEnough (script_value script.now) given.now min added.now }
    ensures enough { IfOk result (λ found. IfSome found (λ fewer. AreEnough (script_value script.now) given.now min fewer.items)) }
    ensures among { IfOk result (λ found. IfSome found (λ fewer. are_members fewer.items added.now ≡ true)) }
    ensures fewer { IfOk result (λ found. IfSome found (λ fewer. length fewer.items < length added.now)) }
    ensures needed { IfOk result (λ found. IfNone found ((place : ℕ) → place < length added.now →
        ¬ IsVouched (script_value script.now) (start_with given.now min (beside given.now (remove added.now place))))) }
{
    for place in 0..added.len() {
        if is_vouched_without(alloc, script, given, min, added, place)? {
            let fewer = without(alloc, added, place)?;
            return Ok(Some(left_of(alloc, script, given, min, fewer, place)?));
        }
    }
    Ok(None)
}
