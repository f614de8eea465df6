//! Going on, byte by byte, from the watches before a text's first place and from all that they lead to.

ghost use Rattle.std.specs.Prelude.{◌≡◌, ◌+◌, ◌≤◌, ◌<◌, ℕ, [], List, true, IfOk, OnOk, length, get_or};
ghost use Rattle.bre_match.specs.ClosedSets.{BytesLeadOn, HasClosedSet, LeadOn, StayKnown, place_after};
ghost use Rattle.bre_match.specs.declared.witness.closure.Outcome.TheVariants.{Closed};
ghost use Rattle.bre_match.specs.declared.witness.closure.Course.TheVariants.{On};

use crate::witness::Answer;
use crate::witness::known::{Known, take_in, text_to};
use crate::witness::watches::Watches;
use std::alloc::{AllocError, Global};

/// What comes of a search.
#[derive(Drop)]
pub(super) enum Outcome {
    /// The watches are closed: no text of these bytes answers as is said.
    Closed,
    /// A shortest text of these bytes that does.
    Text(Vec<u8>),
    /// There are too many watches.
    TooMany,
}

/// What comes of going on from some watches.
#[derive(Clone, Copy)]
enum Course {
    /// All to which they lead is known.
    On,
    /// A text that ends there answers as is said.
    Answered,
    TooMany,
}

/// The place of two equal bytes before which the watches are that are reached from there: the first one begins the text.
fn place_after(from: Option<usize>) -> usize
    ensures value { result ≡ place_after from }
    ensures low { result ≤ 1 }
{
    if from.is_some() { 1 } else { 0 }
}

/// Goes on from these by a byte. False where there are too many.
fn go_on(
    alloc: Global,
    answers: &[Answer<'_>],
    known: &mut Vec<Known>,
    watches: &Watches,
    from: Option<usize>,
    byte: u8,
) -> Result<bool, AllocError>
    ensures stay { OnOk result (StayKnown known.old.items known.new.items) }
    ensures few { OnOk result (length known.old.items ≤ 256 → length known.new.items ≤ 256) }
    ensures on { IfOk result (λ on. on ≡ true → (kinds : List ℕ) (k : ℕ) → get_or kinds k 0 ≡ byte →
        BytesLeadOn answers.now kinds known.old.items (place_after from) watches.now k →
        BytesLeadOn answers.now kinds known.new.items (place_after from) watches.now (k + 1)) }
{
    let after = watches.next(alloc, answers, &[byte, byte], place_after(from))?;
    let next = Known {
        watches: after,
        from,
        byte,
    };
    let on = take_in(answers, known, next)?;
    Ok(on)
}

/// Goes on from these by each of the bytes, and by the text's end. They are reached from those of this number.
fn lead_on(
    alloc: Global,
    answers: &[Answer<'_>],
    kinds: &[u8],
    known: &mut Vec<Known>,
    watches: &Watches,
    from: Option<usize>,
) -> Result<Course, AllocError>
    ensures stay { OnOk result (StayKnown known.old.items known.new.items) }
    ensures few { OnOk result (length known.old.items ≤ 256 → length known.new.items ≤ 256) }
    ensures on { IfOk result (λ course. course ≡ On → LeadOn answers.now kinds.now known.new.items (place_after from) watches.now) }
{
    let place = place_after(from);
    let last = watches.next(alloc, answers, &[0][..place], place)?;
    if last.are_as_said(answers) {
        return Ok(Course::Answered);
    }
    for at in 0..kinds.len() {
        if !go_on(alloc, answers, known, watches, from, kinds[at])? {
            return Ok(Course::TooMany);
        }
    }
    Ok(Course::On)
}

/// Goes on from the known ones of this number.
fn lead_on_from(
    alloc: Global,
    answers: &[Answer<'_>],
    kinds: &[u8],
    known: &mut Vec<Known>,
    number: usize,
) -> Result<Course, AllocError>
    requires number { number < length known.old.items }
    ensures stay { OnOk result (StayKnown known.old.items known.new.items) }
    ensures few { OnOk result (length known.old.items ≤ 256 → length known.new.items ≤ 256) }
    ensures on { IfOk result (λ course. course ≡ On → LeadOn answers.now kinds.now known.new.items 1 (get_or known.old.items number [])) }
{
    let before = &known[number];
    let watches = before.watches.try_copy(alloc)?;
    lead_on(alloc, answers, kinds, known, &watches, Some(number))
}

/// What comes of going on by these bytes from a text's start and from all watches that are met, nearer ones first.
pub(super) fn search(
    alloc: Global,
    answers: &[Answer<'_>],
    kinds: &[u8],
) -> Result<Outcome, AllocError>
    ensures closed { IfOk result (λ outcome. outcome ≡ Closed → HasClosedSet answers.now kinds.now) }
{
    let first = Watches::first(alloc, answers)?;
    let mut known = Vec::new(alloc);
    match lead_on(alloc, answers, kinds, &mut known, &first, None)? {
        Course::On => {}
        Course::Answered => return Ok(Outcome::Text(Vec::new(alloc))),
        Course::TooMany => return Ok(Outcome::TooMany),
    }
    let mut number = 0;
    while number < known.len() {
        match lead_on_from(alloc, answers, kinds, &mut known, number)? {
            Course::On => number += 1,
            Course::Answered => {
                let text = text_to(alloc, &known, Some(number))?;
                return Ok(Outcome::Text(text));
            }
            Course::TooMany => return Ok(Outcome::TooMany),
        }
    }
    Ok(Outcome::Closed)
}
