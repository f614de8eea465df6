//! A start with few lines over which a script fails where it fails over another one, to be shown to a person.

ghost use Rattle.std.specs.Prelude.{◌≡◌, ◌≤◌, IfOk, IfSome, IsTrue};
ghost use Rattle.ed_syntax.specs.PublicScript.{script_value};
ghost use Rattle.ed_syntax.specs.reading.Reading.{script_of};
ghost use Rattle.ed_rules.specs.LineBounds.{most_lines, IsAtMost};
ghost use Rattle.hints.specs.Passing.{FailsAt, with_min};

use crate::starts::{copy_of, with_bounds};
use analyser::{Start, first_failure};
use cert_check::Place;
use ed_base::Fault;
use ed_syntax::{Script, read_script};
use std::alloc::{AllocError, Global};

/// How many numbers of lines are tried: no file has more than 2^40 - 1.
const MOST_TRIED: u32 = 41;

/// Whether places inside a command are the same.
fn is_same_inside(one: Option<usize>, other: Option<usize>) -> bool
    ensures same { IsTrue result → one ≡ other }
{
    match (one, other) {
        (Some(one), Some(other)) => one == other,
        (None, None) => true,
        _ => false,
    }
}

/// Whether places are the same.
fn is_same(one: Place, other: Place) -> bool
    ensures same { IsTrue result → one ≡ other }
{
    one.command == other.command && is_same_inside(one.inner, other.inner)
}

/// Whether the first need that fails of a script over a start with this least number of lines is the one at a place, by this fault.
fn fails_with(
    script: &Script,
    start: &Start,
    min: u64,
    place: Place,
    why: Fault,
) -> Result<bool, AllocError>
    requires ordered { IsAtMost min start.now.max }
    requires low { min ≤ most_lines }
    requires high { IfSome start.now.max (λ most. most ≤ most_lines) }
    ensures sound { IfOk result (λ yes. IsTrue yes → FailsAt (script_value script.now) (with_min start.now min) place) }
{
    match first_failure(script, &with_bounds(start, min, start.max)?)? {
        Some(failure) if is_same(failure.place, place) => Ok(failure.why == why),
        _ => Ok(false),
    }
}

/// A start with fewer lines at least than another one, or as many, over which a script fails at the same place by the same fault: the first
/// that does of those with 0, 1, 3, 7 and so on, and else that start.
pub fn plain_start(
    alloc: Global,
    script: &[u8],
    start: &Start,
    place: Place,
    why: Fault,
) -> Result<Start, AllocError>
    requires ordered { IsAtMost start.now.min start.now.max }
    requires low { start.now.min ≤ most_lines }
    requires high { IfSome start.now.max (λ most. most ≤ most_lines) }
    ensures fails { IfOk result (λ plain.
        FailsAt (script_of script.now) start.now place → FailsAt (script_of script.now) plain place) }
    ensures kept { IfOk result (λ plain. plain ≡ with_min start.now plain.min) }
    ensures fewer { IfOk result (λ plain. plain.min ≤ start.now.min) }
{
    let read = read_script(alloc, script)?;
    for doubling in 0..MOST_TRIED {
        let min = 1u64.wrapping_shl(doubling).wrapping_sub(1).min(start.min);
        if fails_with(&read, start, min, place, why)? {
            return with_bounds(start, min, start.max);
        }
    }
    copy_of(start)
}
