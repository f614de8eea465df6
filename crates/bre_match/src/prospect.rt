//! Starts from which no way leads through a pattern, told of many at once: what leads nowhere from all of them is followed once.

ghost use Rattle.std.specs.Prelude.{◌≡◌, ℕ, ◌+◌, ◌≤◌, [], true, IfOk, length};
ghost use Rattle.bre_parse.specs.Tree.{sequence_of};
ghost use Rattle.bre_parse.specs.Ways.{ways};
ghost use Rattle.bre_match.specs.Alike.{RefersWithin};
ghost use Rattle.bre_match.specs.Outlooks.{Each};
ghost use Rattle.bre_match.specs.Spreads.{NoneBetween};
ghost use Rattle.bre_match.specs.declared.prospect.Prospect.TheVariants as prospect;

use crate::asked::Asked;
use crate::outlook::{first_turned, is_turned};
use crate::run::{Way, only_item};
use crate::spread::spread_row;
use crate::start::cannot_begin;
use bre_parse::tree::Node;
use std::alloc::{AllocError, Global};

// How many starts, one after another or many at once, nobody waits for.
const MOST_ROUNDS: usize = 1_000_000_000;

// Where more turns than these are gone through for each step of a text, asking would cost more than it saves.
const MOST_TURNS: usize = 1_000;

/// Whether the ways of a part have to be listed.
fn is_listed(part: &Node) -> bool {
    match part {
        Node::Group(_, content) => match only_item(content) {
            Some(item) => is_turned(item),
            None => true,
        },
        _ => is_turned(part),
    }
}

/// How many of some items are listed.
fn count_listed(items: &[Node]) -> usize {
    let mut count = 0usize;
    for item in items {
        if is_listed(item) {
            count = count.saturating_add(1);
        }
    }
    count
}

/// The content of a group, or the part itself.
fn inside_group(part: &Node) -> &Node {
    match part {
        Node::Group(_, content) => content,
        _ => part,
    }
}

/// Whether a listed part lies within the content of a repeat or a group.
fn has_nested(part: &Node) -> bool {
    let content = match part {
        Node::Repeat(_, _, content) => inside_group(content),
        _ => inside_group(part),
    };
    match content {
        Node::Sequence(items) => count_listed(items) > 0,
        _ => is_listed(content),
    }
}

/// Whether the ways of one listed item are multiplied by those of another.
fn are_multiplied(items: &[Node]) -> bool {
    if count_listed(items) > 1 {
        return true;
    }
    for item in items {
        if is_listed(item) && has_nested(item) {
            return true;
        }
    }
    false
}

/// How many turns are gone through at least to find where a part leads: each level of repeats in one another multiplies them.
#[cycle(turns)]
fn turns_within(part: &Node) -> usize {
    match part {
        Node::Sequence(items) => all_turns_within(items),
        Node::Group(_, content) => turns_within(content),
        Node::Repeat(least, most, content) => {
            if let Node::Set(_) = &**content {
                return 1;
            }
            let turns = match most {
                None => *least as usize + 2,
                Some(most) => *most as usize,
            };
            turns_within(content).saturating_mul(turns.max(1))
        }
        _ => 1,
    }
}

#[cycle(turns)]
fn all_turns_within(items: &[Node]) -> usize {
    let mut turns = 0usize;
    for item in items {
        turns = turns.saturating_add(turns_within(item));
    }
    turns
}

/// Whether it is of use to ask of many starts at once whether anything comes of them. It is where listed ways are multiplied, or where a
/// group that is asked for stands before a listed item, so that no start tells of the next; but not where repeats are nested so deep that
/// asking takes long.
pub(crate) fn is_worth_asking(items: &[Node], asked: &Asked) -> bool {
    if all_turns_within(items) > MOST_TURNS {
        return false;
    }
    let is_alone = count_listed(items) > 0 && first_turned(items, asked) == items.len();
    is_alone || are_multiplied(items)
}

/// The empty ways from the starts between two places from which one may lead through a pattern.
fn starts_between(
    alloc: Global,
    items: &[Node],
    text: &[u8],
    low: usize,
    high: usize,
) -> Result<Vec<Way>, AllocError>
    ensures rest { IfOk result (λ v. Each (λ way. ways (sequence_of items.now) text.now way.0 way.1 ≡ []) v.items → NoneBetween (sequence_of items.now) text.now low high) }
{
    let mut all = Vec::new(alloc);
    for start in low..high {
        if !cannot_begin(items, text, start) {
            all.push((start, [None; 9]))?;
        }
    }
    Ok(all)
}

/// What is known of some starts: none of them has a way, one may have, or they are too many to be told.
#[derive(Clone, Copy)]
enum Prospect {
    Nothing,
    Something,
    Untold,
}

/// Whether a way leads through a pattern from one of the starts between two places.
fn try_starts(
    alloc: Global,
    items: &[Node],
    text: &[u8],
    asked: &Asked,
    low: usize,
    high: usize,
) -> Result<Prospect, AllocError>
    requires asked { RefersWithin asked.now (sequence_of items.now) }
    ensures sound { IfOk result (λ told. told ≡ prospect.Nothing → NoneBetween (sequence_of items.now) text.now low high) }
{
    let starts = starts_between(alloc, items, text, low, high)?;
    match spread_row(alloc, items, text, asked, &starts)? {
        Some(to) => if to.is_empty() {
            Ok(Prospect::Nothing)
        } else {
            Ok(Prospect::Something)
        },
        None => Ok(Prospect::Untold),
    }
}

/// The first start at or after a place from which a way may lead through a pattern. Starts are asked of in ever larger numbers, until
/// something comes of one of them; then of half as many. `is_told` says whether this is of use.
pub(crate) fn later_start(
    is_told: &mut bool,
    alloc: Global,
    items: &[Node],
    text: &[u8],
    asked: &Asked,
    from: usize,
) -> Result<usize, AllocError>
    requires place { from ≤ length text.now + 1 }
    requires asked { RefersWithin asked.now (sequence_of items.now) }
    ensures after { IfOk result (λ start. from ≤ start) }
    ensures within { IfOk result (λ start. start ≤ length text.now + 1) }
    ensures sound { IfOk result (λ start. NoneBetween (sequence_of items.now) text.now from start) }
{
    let mut start = from;
    let mut width = 1usize;
    let mut is_near = false;
    for round in 0..MOST_ROUNDS {
        if !*is_told || start > text.len() {
            return Ok(start);
        }
        let until = start.saturating_add(width).min(text.len() + 1);
        match try_starts(alloc, items, text, asked, start, until)? {
            Prospect::Nothing => {
                start = until;
                if !is_near {
                    width = width.saturating_mul(2);
                }
            }
            Prospect::Something => {
                if width == 1 {
                    return Ok(start);
                }
                is_near = true;
                width /= 2;
            }
            Prospect::Untold => {
                *is_told = width > 1;
                is_near = true;
                width = (width / 4).max(1);
            }
        }
    }
    Ok(start)
}
