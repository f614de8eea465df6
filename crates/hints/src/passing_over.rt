//! A script without the command by which it is refused.

ghost use Rattle.std.specs.Prelude.{◌≡◌, ◌++◌, ◌↔◌, drop, take, IfOk, IfSome, IsTrue};
ghost use Rattle.ed_syntax.specs.PublicScript.{script_value};
ghost use Rattle.hints.specs.Refusals.{IsPassedOver, IsTakenAway};

use crate::bytes::{before, between, from};
use crate::commands::{line_of_span, span_of, without_newline};
use cert_check::Place;
use ed_base::Bytes;
use ed_syntax::{Script, Span, read_script};
use std::alloc::{AllocError, Global};

/// Whether the lines after one that can't be read may belong to it: to a text, of which nobody knows where it ends, or to what a backslash goes
/// on with.
fn may_go_on(line: &[u8]) -> bool {
    matches!(without_newline(line), [.., b'a' | b'c' | b'i' | b'\\'])
}

/// Where the command at a place stands, or the line of the one that can't be read there. None where nothing comes after it, or where that can't
/// be told from it.
fn span_at(
    alloc: Global,
    script: &[u8],
    read: &Script,
    place: Place,
) -> Result<Option<Span>, AllocError> {
    let Some(span) = span_of(alloc, script, place.command)? else {
        return Ok(None);
    };
    let is_read = place.command <= read.commands.len();
    let lines = if is_read {
        span
    } else {
        line_of_span(script, span)
    };
    let goes_on = !is_read && may_go_on(between(script, lines.low, lines.high));
    if lines.high >= script.len() || goes_on {
        return Ok(None);
    }
    Ok(Some(lines))
}

/// Bytes without those between two places.
fn without(alloc: Global, bytes: &[u8], low: usize, high: usize) -> Result<Bytes, AllocError>
    ensures value { IfOk result (λ left. left ≡ take low bytes.now ++ drop high bytes.now) }
{
    let mut left = Bytes::from_slice(alloc, before(bytes, low))?;
    left.extend_from_slice(from(bytes, high))?;
    Ok(left)
}

/// Whether another script is this one without the command at a place, or reads on at the place of the one that can't be read.
fn is_taken_away(old: &Script, new: &Script, place: Place) -> bool
    ensures exact { IsTrue result ↔ IsTakenAway place (script_value old.now) (script_value new.now) }
{
    let kept = place.command.saturating_sub(1);
    if kept == old.commands.len() {
        old.is_read_further(new)
    } else {
        old.is_changed_at(new, kept, 1, 0)
    }
}

/// The script without the command at a place. None where nothing comes after it, or where the rest would be read otherwise then.
pub(crate) fn passed_over(
    alloc: Global,
    script: &[u8],
    place: Place,
) -> Result<Option<Bytes>, AllocError>
    ensures sound { IfOk result (λ found. IfSome found (IsPassedOver place script.now)) }
{
    let old = read_script(alloc, script)?;
    let Some(span) = span_at(alloc, script, &old, place)? else {
        return Ok(None);
    };
    let new = without(alloc, script, span.low, span.high)?;
    let read = read_script(alloc, new.as_slice())?;
    if new.len() < script.len() && is_taken_away(&old, &read, place) {
        return Ok(Some(new));
    }
    Ok(None)
}
