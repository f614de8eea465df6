//! The fewest lines with which a script gets past a line that it names by its number, where more of it isn't vouched for.

ghost use Rattle.std.specs.Prelude.{◌≡◌, ◌≤◌, true, IfOk, IfSome};
ghost use Rattle.ed_rules.specs.LineBounds.{most_lines, IsAtMost};
ghost use Rattle.hints.specs.Hints.{IsTried};

use crate::advising::{first_past, past_by};
use crate::commands::{addresses_of, command_of};
use crate::drafts::{Draft, drafted};
use crate::hint::{Advice, Hint};
use crate::starts::with_bounds;
use analyser::Start;
use cert_check::Place;
use ed_base::Bytes;
use ed_rules::LineBounds;
use ed_syntax::{Address, Base, Command, read_script};
use std::alloc::{AllocError, Global};

/// How many lines beyond those that a command names are tried: so many may be deleted before it.
const MOST_EXTRA: u64 = 10;

/// How many lines there have to be for an address.
fn needed_for(address: &Address) -> i128 {
    match &address.base {
        Base::Number(number) => i128::from(*number).saturating_add(address.offset),
        Base::Last => address.offset.saturating_neg().saturating_add(1),
        _ => 1,
    }
}

/// How many lines there have to be for a command.
fn needed_by(command: &Command) -> i128 {
    let mut most: i128 = 1;
    for address in addresses_of(command) {
        most = match address {
            Some(address) => most.max(needed_for(address)),
            None => most,
        };
    }
    most
}

/// How many lines there have to be for the command at a place, where it is no command of a list.
fn needed_at(alloc: Global, script: &[u8], place: Place) -> Result<Option<u64>, AllocError> {
    if place.inner.is_some() {
        return Ok(None);
    }
    let read = read_script(alloc, script)?;
    match command_of(&read, place) {
        Some(command) => Ok(u64::try_from(needed_by(command)).ok()),
        None => Ok(None),
    }
}

/// Whether a start may have so many lines at least.
fn is_least(min: u64, max: Option<u64>) -> bool
    ensures sound { result ≡ true → (min ≤ most_lines) × IsAtMost min max }
{
    min <= LineBounds::MOST
        && match max {
            Some(max) => min <= max,
            None => true,
        }
}

/// The hint to ask for so many lines at least, beside what more is told, where the script gets past the place by that.
fn with_lines(
    alloc: Global,
    script: &[u8],
    start: &Start,
    place: Place,
    line: usize,
    min: u64,
    more: &str,
) -> Result<Option<Hint>, AllocError>
    requires low { min ≤ most_lines }
    requires above { start.now.min ≤ min }
    requires ordered { IsAtMost min start.now.max }
    requires high { IfSome start.now.max (λ most. most ≤ most_lines) }
    ensures tried { IfOk result (λ found. IfSome found (IsTried script.now start.now place)) }
{
    let bounded = with_bounds(start, min, start.max)?;
    let text = format!(in alloc; "gets further with --min {min}{more}")?;
    let same = Bytes::from_slice(alloc, script)?;
    let draft = drafted(Advice::AtLeast, text, same, 1, 1);
    past_by(alloc, script, &bounded, place, line, draft)
}

/// The hint to ask for as many lines at least as a command names, or some more, beside what more is told, where the script gets past the
/// place by that.
pub(crate) fn with_more_lines(
    alloc: Global,
    script: &[u8],
    start: &Start,
    place: Place,
    line: usize,
    more: &str,
) -> Result<Option<Hint>, AllocError>
    requires high { IfSome start.now.max (λ most. most ≤ most_lines) }
    ensures tried { IfOk result (λ found. IfSome found (IsTried script.now start.now place)) }
{
    let Some(needed) = needed_at(alloc, script, place)? else {
        return Ok(None);
    };
    for extra in 0..MOST_EXTRA {
        let min = needed.saturating_add(extra);
        if start.min < min && is_least(min, start.max) {
            let found = with_lines(alloc, script, start, place, line, min, more)?;
            if found.is_some() {
                return Ok(found);
            }
        }
    }
    Ok(None)
}

/// The same drafts, told with the lines that they need.
fn told_with(alloc: Global, drafts: Vec<Draft>, min: u64) -> Result<Vec<Draft>, AllocError> {
    let mut told = Vec::new(alloc);
    for draft in drafts {
        let text = format!(in alloc; "with --min {min}: {}", draft.text.as_str())?;
        told.push(Draft { text, ..draft })?;
    }
    Ok(told)
}

/// The hint to ask for as many lines at least as a command names, and to take one of these drafts, where its script gets past the place by
/// both.
pub(crate) fn with_needed_lines(
    alloc: Global,
    script: &[u8],
    start: &Start,
    place: Place,
    line: usize,
    drafts: Vec<Draft>,
) -> Result<Option<Hint>, AllocError>
    requires high { IfSome start.now.max (λ most. most ≤ most_lines) }
    ensures tried { IfOk result (λ found. IfSome found (IsTried script.now start.now place)) }
{
    let Some(min) = needed_at(alloc, script, place)? else {
        return Ok(None);
    };
    if min <= start.min || !is_least(min, start.max) {
        return Ok(None);
    }
    let opened = with_bounds(start, min, start.max)?;
    let told = told_with(alloc, drafts, min)?;
    first_past(alloc, script, &opened, place, line, told)
}
