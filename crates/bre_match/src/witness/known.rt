//! Watches that are known, each with the text that leads to them.

ghost use Rattle.std.specs.Prelude.{◌≡◌, ◌≤◌, true, IfOk, OnOk, length};
ghost use Rattle.bre_match.specs.ClosedSets.{AreDone, AreKnown, StayKnown};

use crate::witness::Answer;
use crate::witness::watches::Watches;
use std::alloc::{AllocError, Global};
use std::marker::Model;

// So many watches are kept at most. Two patterns of a script come to 80 at most, and each byte's watches are compared with all that are kept.
const MOST: usize = 256;

/// Watches, and how a text comes to them.
#[derive(Drop)]
pub(super) struct Known {
    pub(super) watches: Watches,
    /// The number of the known ones before its last byte, or none where that is its first.
    pub(super) from: Option<usize>,
    /// The last byte.
    pub(super) byte: u8,
}

impl Model for Known {
    ghost use Rattle.std.specs.Prelude.{ℕ, List, Option};

    ghost Value = { List (Option (List (Option ℕ))) };

    ghost view = { λ k. k.watches };
}

/// Whether these are among those that are known. It tells no more than its clause.
fn are_known(known: &[Known], watches: &Watches) -> bool
    ensures sound { result ≡ true → AreKnown known.now watches.now }
{
    for other in known {
        if other.watches.are_same(watches) {
            return true;
        }
    }
    false
}

/// Puts these among those that are known, unless they are ruled out or known already. False where there are too many.
pub(super) fn take_in(
    answers: &[Answer<'_>],
    known: &mut Vec<Known>,
    next: Known,
) -> Result<bool, AllocError>
    ensures stay { OnOk result (StayKnown known.old.items known.new.items) }
    ensures few { OnOk result (length known.old.items ≤ 256 → length known.new.items ≤ 256) }
    ensures done { IfOk result (λ on. on ≡ true → AreDone answers.now known.new.items next) }
{
    if next.watches.are_ruled_out(answers) || are_known(known, &next.watches) {
        return Ok(true);
    }
    if known.len() >= MOST {
        return Ok(false);
    }
    known.push(next)?;
    Ok(true)
}

/// The text that leads to the known ones of this number, or the empty text.
pub(super) fn text_to(
    alloc: Global,
    known: &[Known],
    number: Option<usize>,
) -> Result<Vec<u8>, AllocError> {
    let mut text = Vec::new(alloc);
    let mut at = number;
    // No text goes through the same ones twice.
    for step in 0..known.len() {
        if let Some(number) = at {
            if number < known.len() {
                let last = &known[number];
                text.push(last.byte)?;
                at = last.from;
            }
        }
    }
    text.reverse();
    Ok(text)
}
