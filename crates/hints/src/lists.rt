//! What may help where a command of a list fails.

use crate::bytes::{joined, replaced};
use crate::commands::{command_at, command_of, line_at, pair};
use crate::drafts::{Applies, Draft, Spot};
use crate::hint::Advice;
use ed_syntax::{Address, Addresses, Base, Command, Verb};
use std::alloc::{AllocError, Global};

/// How many lines an address of a list goes on from the line that was taken, or back.
fn distance(address: Option<&Address>) -> Option<i128> {
    let Address { base, offset } = address?;
    match base {
        Base::Current if *offset != 0 => Some(*offset),
        _ => None,
    }
}

/// The distance of the last address that has one.
fn distance_of(addresses: &Addresses) -> Option<i128> {
    let (one, other) = pair(addresses);
    distance(other).or(distance(one))
}

/// What is told of so many lines on from a match, or back from it.
fn distance_text(alloc: Global, distance: i128) -> Result<String, AllocError> {
    let side = if distance < 0 { "before" } else { "after" };
    let lines = distance.unsigned_abs();
    let instead = "take it by what it holds, by a `g` of its own, or by its number with bounds";
    if lines == 1 {
        return Ok(format!(in alloc;
            "nobody knows that a line comes {side} each match: {instead}"
        )?);
    }
    Ok(format!(in alloc; "nobody knows that {lines} lines come {side} each match: {instead}")?)
}

/// What is told where a command of a list names a line before or after the one that was taken.
pub(crate) fn tell_of_line_beside(spot: &Spot<'_>, drafts: &mut Vec<Draft>) -> Applies {
    if let Some(listed) = command_of(spot.read, spot.place) {
        if let Some(distance) = distance_of(&listed.addresses) {
            let text = distance_text(spot.alloc, distance)?;
            return spot.remark(drafts, text.as_str());
        }
    }
    Ok(false)
}

/// Whether a command moves the line that was taken to the end.
fn moves_to_end(command: &Command) -> bool {
    match (&command.verb, &command.addresses) {
        (Verb::Move(target), Addresses::Without) => {
            target.base == Base::Last && target.offset == 0 && command.suffix.is_none()
        }
        _ => false,
    }
}

/// A move to the end, which the last line can't make: the line is marked, copied and deleted where it was.
pub(crate) fn move_to_end(spot: &Spot<'_>, drafts: &mut Vec<Draft>) -> Applies {
    let Some(span) = line_at(spot.alloc, spot.script, spot.place)? else {
        return Ok(false);
    };
    match command_of(spot.read, spot.place) {
        Some(listed) if moves_to_end(listed) => {}
        _ => return Ok(false),
    }
    let line = command_at(spot.script, span);
    let (front, goes_on): (&[u8], &[u8]) = match line {
        [front @ .., b'm', b'$'] => (front, b""),
        [front @ .., b'm', b'$', b'\\'] => (front, b"\\"),
        _ => return Ok(false),
    };
    let lines = joined(spot.alloc, &[front, b"ka\\\nt$\\\n'ad", goes_on])?;
    let high = span.low.saturating_add(line.len());
    let mended = replaced(spot.alloc, spot.script, span.low, high, lines.as_slice())?;
    let text =
        "the last line can't go after itself: write `ka`, `t$` and `'ad` for `m$` in the list; other marks on these lines are lost, and `a`";
    spot.push(drafts, Advice::Spelling, text, mended, 1, 1)
}
