//! How the script of a hint comes from the one that is refused.

ghost use Rattle.std.specs.Prelude.{◌≡◌, IfOk, IfSome, IsSome, IsTrue};
ghost use Rattle.ed_syntax.specs.PublicScript.{script_value};
ghost use Rattle.hints.specs.Hints.{IsUnchanged, IsChanged, IsFurther, IsClosed, IsFrom};

use crate::hint::Change;
use cert_check::Place;
use ed_syntax::{Script, read_script};
use std::alloc::{AllocError, Global};

/// The change of no command at a place.
pub(crate) fn unchanged_at(place: Place) -> Change
    ensures unchanged { IsUnchanged place 1 result }
{
    Change {
        kept: place.command.saturating_sub(1),
        removed: 0,
        written: 0,
    }
}

/// Whether a script is another one but for the commands at a place, where it gets past so many: all of those that it has there.
fn is_changed(old: &Script, new: &Script, place: Place, past: usize, change: Change) -> bool
    ensures sound { IsTrue result → IsChanged place (script_value old.now) (script_value new.now) past change }
{
    let Change {
        kept,
        removed,
        written,
    } = change;
    kept == place.command.saturating_sub(1)
        && past == written
        && (written > 0 || removed == 1)
        && old.is_changed_at(new, kept, removed, written)
}

/// The change by which a script goes on at a place where another one can't be read.
fn further(old: &Script, new: &Script, place: Place) -> Option<Change>
    ensures sound { IfSome result (IsFurther place (script_value old.now) (script_value new.now)) }
{
    let kept = old.commands.len();
    if kept != place.command.saturating_sub(1) || !old.is_read_further(new) {
        return None;
    }
    let written = new.commands.len() - kept;
    Some(Change {
        kept,
        removed: 0,
        written,
    })
}

/// The change by which a script has other commands than another one in the place of the last one, and after it, where the place is the end.
fn closed(old: &Script, new: &Script, place: Place) -> Option<Change>
    ensures sound { IfSome result (IsClosed place (script_value old.now) (script_value new.now)) }
{
    let all = old.commands.len();
    let kept = all.checked_sub(1)?;
    let is_end = old.fault.is_none() && all == place.command.saturating_sub(1);
    if !is_end || !old.begins_as(new, kept) {
        return None;
    }
    let written = new.commands.len() - kept;
    if written <= 1 {
        return None;
    }
    Some(Change {
        kept,
        removed: 1,
        written,
    })
}

/// How a script comes from the one that is refused at a place, where it gets past so many commands. The given change is looked at first. None
/// where it comes from it in no way that is told.
pub(crate) fn change_of(
    alloc: Global,
    script: &[u8],
    new: &[u8],
    place: Place,
    past: usize,
    given: Change,
) -> Result<Option<Change>, AllocError>
    ensures from { IfOk result (λ found. IfSome found (IsFrom place script.now new.now past)) }
    ensures same { IfOk result (λ found. new.now ≡ script.now → past ≡ 1 → IsSome found) }
{
    let is_same = new == script;
    if is_same && past == 1 {
        return Ok(Some(unchanged_at(place)));
    }
    if is_same {
        return Ok(None);
    }
    let old = read_script(alloc, script)?;
    let read = read_script(alloc, new)?;
    if is_changed(&old, &read, place, past, given) {
        return Ok(Some(given));
    }
    match further(&old, &read, place) {
        Some(change) if change.written > 0 || new.len() < script.len() => Ok(Some(change)),
        _ => Ok(closed(&old, &read, place)),
    }
}
