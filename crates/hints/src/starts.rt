//! The least and the most lines of a start under which a script is vouched for.

ghost use Rattle.std.specs.Prelude.{◌≡◌, ◌+◌, ◌-◌, ◌<◌, ◌≤◌, ◌↔◌, IfOk, IfSome, IsSome, IsTrue};
ghost use Rattle.ed_syntax.specs.PublicScript.{script_value};
ghost use Rattle.ed_syntax.specs.reading.Reading.{script_of};
ghost use Rattle.ed_rules.specs.LineBounds.{most_lines, IsAtMost};
ghost use Rattle.hints.specs.Passing.{IsVouched, MoreLinesHelp, FewerLinesHelp, most_of, with_min, with_max};

use crate::passing::is_vouched;
use analyser::Start;
use ed_base::Bytes;
use ed_rules::{LineBounds, Texts};
use ed_syntax::{Script, read_script};
use landmarks::LandmarkChains;
use std::alloc::{AllocError, Global};

pub(crate) fn copy_of_path(path: &Option<Bytes>) -> Result<Option<Bytes>, AllocError>
    ensures value { IfOk result (λ copy. copy ≡ path.now) }
{
    match path {
        Some(path) => Ok(Some(path.try_copy()?)),
        None => Ok(None),
    }
}

pub(crate) fn copy_of_has(has: &Option<Texts>) -> Result<Option<Texts>, AllocError>
    ensures value { IfOk result (λ copy. copy ≡ has.now) }
{
    match has {
        Some(has) => Ok(Some(has.try_copy()?)),
        None => Ok(None),
    }
}

pub(crate) fn copy_of_landmarks(
    landmarks: &Option<LandmarkChains>,
) -> Result<Option<LandmarkChains>, AllocError>
    ensures value { IfOk result (λ copy. copy ≡ landmarks.now) }
{
    match landmarks {
        Some(landmarks) => Ok(Some(landmarks.try_copy()?)),
        None => Ok(None),
    }
}

/// A start with the path, the patterns and the landmarks of another one, and these bounds.
pub(crate) fn with_bounds(start: &Start, min: u64, max: Option<u64>) -> Result<Start, AllocError>
    ensures value { IfOk result (λ copy. copy ≡ record { path = start.now.path; min = min; max = max; has = start.now.has; landmarks = start.now.landmarks }) }
{
    Ok(Start {
        path: copy_of_path(&start.path)?,
        min,
        max,
        has: copy_of_has(&start.has)?,
        landmarks: copy_of_landmarks(&start.landmarks)?,
    })
}

/// An equal start.
pub fn copy_of(start: &Start) -> Result<Start, AllocError>
    ensures value { IfOk result (λ copy. copy ≡ start.now) }
{
    with_bounds(start, start.min, start.max)
}

/// Whether a script is vouched for over a start with these bounds.
pub(crate) fn is_vouched_within(
    script: &Script,
    start: &Start,
    min: u64,
    max: Option<u64>,
) -> Result<bool, AllocError>
    requires ordered { IsAtMost min max }
    requires low { min ≤ most_lines }
    requires high { IfSome max (λ most. most ≤ most_lines) }
    ensures exact { IfOk result (λ yes. IsTrue yes ↔ IsVouched (script_value script.now) (record { path = start.now.path; min = min; max = max; has = start.now.has; landmarks = start.now.landmarks })) }
{
    is_vouched(script, with_bounds(start, min, max)?)
}

/// The most lines that a start of these bounds may have.
pub(crate) fn top_of(max: Option<u64>) -> u64
    requires high { IfSome max (λ most. most ≤ most_lines) }
    ensures value { result ≡ most_of max }
    ensures within { (result ≤ most_lines) × IsAtMost result max }
{
    match max {
        Some(most) => most,
        None => LineBounds::MOST,
    }
}

/// Whether a script isn't vouched for over a start, but is with `top` lines at least, the most that the start may have.
fn more_lines_help(script: &Script, start: &Start, top: u64) -> Result<bool, AllocError>
    requires ordered { IsAtMost start.now.min start.now.max }
    requires low { start.now.min ≤ most_lines }
    requires high { IfSome start.now.max (λ most. most ≤ most_lines) }
    requires top { top ≡ most_of start.now.max }
    ensures exact { IfOk result (λ yes. IsTrue yes ↔ MoreLinesHelp (script_value script.now) start.now) }
    ensures room { IfOk result (λ yes. IsTrue yes → start.now.min < top) }
{
    if top <= start.min || is_vouched_within(script, start, start.min, start.max)? {
        return Ok(false);
    }
    is_vouched_within(script, start, top, start.max)
}

/// A step on from the lower number, no longer than half of the way to the upper one.
fn step_of(lower: u64, upper: u64, step: u64) -> u64
    requires between { lower + 1 < upper }
    requires forward { 0 < step }
    ensures within { (0 < result) × (lower + result < upper) }
{
    ((upper - lower) / 2).min(step)
}

/// The least number of lines under which a script is vouched for, between one where it isn't and one where it is. It is found by steps
/// that double up to the first number under which the script is vouched for, and then by halving.
pub(crate) fn least_between(
    script: &Script,
    start: &Start,
    refused: u64,
    vouched: u64,
) -> Result<u64, AllocError>
    requires order { refused < vouched }
    requires top { vouched ≤ most_lines }
    requires ordered { IsAtMost vouched start.now.max }
    requires high { IfSome start.now.max (λ most. most ≤ most_lines) }
    requires refused { ¬ IsVouched (script_value script.now) (with_min start.now refused) }
    requires vouched { IsVouched (script_value script.now) (with_min start.now vouched) }
    ensures vouched { IfOk result (λ min. IsVouched (script_value script.now) (with_min start.now min)) }
    ensures least { IfOk result (λ min. ¬ IsVouched (script_value script.now) (with_min start.now (min - 1))) }
    ensures within { IfOk result (λ min. (refused < min) × (min ≤ vouched)) }
{
    let mut lower = refused;
    let mut upper = vouched;
    let mut step: u64 = 1;
    'least: while upper - lower > 1 {
        let middle = lower + step_of(lower, upper, step);
        if is_vouched_within(script, start, middle, start.max)? {
            upper = middle;
            step = u64::MAX;
        } else {
            lower = middle;
            step = step.saturating_mul(2);
        }
    }
    Ok(upper)
}

/// The greatest number of lines under which a script is vouched for, between one where it is and one where it isn't, or that is too
/// great for a start.
fn greatest_between(
    script: &Script,
    start: &Start,
    vouched: u64,
    refused: u64,
) -> Result<u64, AllocError>
    requires order { vouched < refused }
    requires top { refused ≤ most_lines + 1 }
    requires low { start.now.min ≤ vouched }
    requires refused { refused ≤ most_lines → ¬ IsVouched (script_value script.now) (with_max start.now refused) }
    requires vouched { IsVouched (script_value script.now) (with_max start.now vouched) }
    ensures vouched { IfOk result (λ most. IsVouched (script_value script.now) (with_max start.now most)) }
    ensures greatest { IfOk result (λ most. most < most_lines → ¬ IsVouched (script_value script.now) (with_max start.now (most + 1))) }
    ensures within { IfOk result (λ most. (vouched ≤ most) × (most < refused)) }
{
    let mut lower = vouched;
    let mut upper = refused;
    let mut step: u64 = 1;
    'greatest: while upper - lower > 1 {
        let middle = lower + step_of(lower, upper, step);
        if is_vouched_within(script, start, start.min, Some(middle))? {
            lower = middle;
            step = step.saturating_mul(2);
        } else {
            upper = middle;
            step = u64::MAX;
        }
    }
    Ok(lower)
}

/// The least number of lines, above the one that is given, under which a script is vouched for, with the same path, patterns and most
/// lines. None just where it is vouched for already, or isn't under as many lines as the start may have.
pub fn least_start(alloc: Global, script: &[u8], start: &Start) -> Result<Option<u64>, AllocError>
    requires ordered { IsAtMost start.now.min start.now.max }
    requires low { start.now.min ≤ most_lines }
    requires high { IfSome start.now.max (λ most. most ≤ most_lines) }
    ensures exact { IfOk result (λ found. IsSome found ↔ MoreLinesHelp (script_of script.now) start.now) }
    ensures vouched { IfOk result (λ found. IfSome found (λ min. IsVouched (script_of script.now) (with_min start.now min))) }

    // With one line less it isn't vouched for.
    ensures least { IfOk result (λ found. IfSome found (λ min. ¬ IsVouched (script_of script.now) (with_min start.now (min - 1)))) }
    ensures above { IfOk result (λ found. IfSome found (λ min. start.now.min < min)) }
    ensures within { IfOk result (λ found. IfSome found (λ min. (min ≤ most_lines) × IsAtMost min start.now.max)) }
{
    let read = read_script(alloc, script)?;
    let top = top_of(start.max);
    if !more_lines_help(&read, start, top)? {
        return Ok(None);
    }
    Ok(Some(least_between(&read, start, start.min, top)?))
}

/// The number after the most lines that a start of these bounds may have, or that number, where it is given.
fn refused_of(max: Option<u64>) -> u64
    requires high { IfSome max (λ most. most ≤ most_lines) }
    ensures within { (result ≤ most_lines + 1) × IfSome max (λ most. result ≡ most) }
    ensures beyond { result ≤ most_lines → max ≡ Some result }
{
    match max {
        Some(most) => most,
        None => LineBounds::MOST + 1,
    }
}

/// Whether a script isn't vouched for over a start, but is with the fewest lines that the start may have. `refused` is the most lines of the
/// start, or a number that is too great for any.
fn fewer_lines_help(script: &Script, start: &Start, refused: u64) -> Result<bool, AllocError>
    requires ordered { IsAtMost start.now.min start.now.max }
    requires low { start.now.min ≤ most_lines }
    requires high { IfSome start.now.max (λ most. most ≤ most_lines) }
    requires beyond { refused ≤ most_lines → start.now.max ≡ Some refused }
    ensures exact { IfOk result (λ yes. IsTrue yes ↔ FewerLinesHelp (script_value script.now) start.now) }
    ensures room { IfOk result (λ yes. IsTrue yes → start.now.min < refused) }
{
    if refused <= start.min || is_vouched_within(script, start, start.min, start.max)? {
        return Ok(false);
    }
    is_vouched_within(script, start, start.min, Some(start.min))
}

/// The greatest number of lines, below the one that is given, under which a script is vouched for, with the same path, patterns and
/// fewest lines. None just where it is vouched for already, or isn't under as few lines as the start may have.
pub fn greatest_start(
    alloc: Global,
    script: &[u8],
    start: &Start,
) -> Result<Option<u64>, AllocError>
    requires ordered { IsAtMost start.now.min start.now.max }
    requires low { start.now.min ≤ most_lines }
    requires high { IfSome start.now.max (λ most. most ≤ most_lines) }
    ensures exact { IfOk result (λ found. IsSome found ↔ FewerLinesHelp (script_of script.now) start.now) }
    ensures vouched { IfOk result (λ found. IfSome found (λ most. IsVouched (script_of script.now) (with_max start.now most))) }

    // With one line more it isn't vouched for.
    ensures greatest { IfOk result (λ found. IfSome found (λ most.
        most < most_lines → ¬ IsVouched (script_of script.now) (with_max start.now (most + 1)))) }
    ensures below { IfOk result (λ found. IfSome found (λ most. IfSome start.now.max (λ given. most < given))) }
    ensures within { IfOk result (λ found. IfSome found (λ most. (start.now.min ≤ most) × (most ≤ most_lines))) }
{
    let read = read_script(alloc, script)?;
    let refused = refused_of(start.max);
    if !fewer_lines_help(&read, start, refused)? {
        return Ok(None);
    }
    Ok(Some(greatest_between(&read, start, start.min, refused)?))
}
