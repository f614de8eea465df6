//! Whether a script gets past a place.

ghost use Rattle.std.specs.Prelude.{◌≡◌, ◌≤◌, ◌↔◌, ◌+◌, ◌-◌, true, Some, IfOk, IfSome, IsTrue};
ghost use Rattle.ed_syntax.specs.PublicScript.{script_value};
ghost use Rattle.ed_syntax.specs.reading.Reading.{script_of};
ghost use Rattle.ed_rules.specs.LineBounds.{most_lines, IsAtMost};
ghost use Rattle.hints.specs.Passing.{IsLaterInside, IsAfter, GetsPast, GetsPastWhole, IsVouched, last_of};
ghost use Rattle.hints.specs.Sought.{GetsPastAll};

use crate::starts::copy_of;
use analyser::{Start, answers_are_determined, first_failure};
use cert_check::Place;
use ed_syntax::{Script, read_script};
use std::alloc::{AllocError, Global};

/// Whether a place inside a command comes after another one there.
fn is_later_inside(next: Option<usize>, place: Option<usize>) -> bool
    ensures exact { IsTrue result ↔ IsLaterInside next place }
{
    match (next, place) {
        (Some(next), Some(place)) => place < next,
        (Some(_), None) => true,
        (None, _) => false,
    }
}

/// Whether a place comes after another one, in the order of an analysis.
fn is_after(next: Place, place: Place) -> bool
    ensures exact { IsTrue result ↔ IsAfter next place }
{
    if next.command == place.command {
        is_later_inside(next.inner, place.inner)
    } else {
        place.command < next.command
    }
}

/// Whether no need of a script fails over a start.
pub(crate) fn is_vouched(script: &Script, start: Start) -> Result<bool, AllocError>
    requires ordered { IsAtMost start.min start.max }
    requires low { start.min ≤ most_lines }
    requires high { IfSome start.max (λ most. most ≤ most_lines) }
    ensures exact { IfOk result (λ yes. IsTrue yes ↔ IsVouched (script_value script.now) start) }
{
    answers_are_determined();
    match first_failure(script, &start)? {
        None => Ok(true),
        Some(_) => Ok(false),
    }
}

/// Whether a script that was read gets past a place over a start.
fn read_gets_past(script: &Script, start: Start, place: Place) -> Result<bool, AllocError>
    requires ordered { IsAtMost start.min start.max }
    requires low { start.min ≤ most_lines }
    requires high { IfSome start.max (λ most. most ≤ most_lines) }
    ensures exact { IfOk result (λ yes. IsTrue yes ↔ GetsPast (script_value script.now) start place) }
{
    answers_are_determined();
    match first_failure(script, &start)? {
        None => Ok(true),
        Some(failure) => Ok(is_after(failure.place, place)),
    }
}

/// Whether a script gets past a place over a start: it is vouched for, or the first need that fails comes after the place.
pub fn gets_past(
    alloc: Global,
    script: &[u8],
    start: &Start,
    place: Place,
) -> Result<bool, AllocError>
    requires ordered { IsAtMost start.now.min start.now.max }
    requires low { start.now.min ≤ most_lines }
    requires high { IfSome start.now.max (λ most. most ≤ most_lines) }
    ensures exact { IfOk result (λ yes. IsTrue yes ↔ GetsPast (script_of script.now) start.now place) }
{
    let copy = copy_of(start)?;
    let read = read_script(alloc, script)?;
    read_gets_past(&read, copy, place)
}

/// The number of the last of so many commands, of which the first has this number; of none, the number before it. None where no number is.
fn last_number(number: usize, count: usize) -> Option<usize>
    ensures value { IfSome result (λ last. last ≡ (number + count) - 1) }
    ensures one { count ≡ 1 → result ≡ Some number }
{
    match count.checked_sub(1) {
        Some(more) => number.checked_add(more),
        None => Some(number.saturating_sub(1)),
    }
}

/// Whether a script gets past so many commands, each with all of its list, of which the first stands at the place. Of a command of a list
/// it is that command alone.
pub(crate) fn gets_past_all(
    alloc: Global,
    script: &[u8],
    start: &Start,
    place: Place,
    count: usize,
) -> Result<bool, AllocError>
    requires ordered { IsAtMost start.now.min start.now.max }
    requires low { start.now.min ≤ most_lines }
    requires high { IfSome start.now.max (λ most. most ≤ most_lines) }
    ensures sound { IfOk result (λ yes. yes ≡ true → GetsPastWhole (script_of script.now) start.now (last_of place count)) }
    ensures all { IfOk result (λ yes. count ≡ 1 → GetsPastAll (script_of script.now) start.now place → yes ≡ true) }
{
    let Some(command) = last_number(place.command, count) else {
        return Ok(false);
    };
    let inner = Some(place.inner.unwrap_or(usize::MAX));
    gets_past(alloc, script, start, Place { command, inner })
}
