//! Where a pattern without back-references matches, in one pass over the text for all starts.

ghost use Rattle.std.specs.Prelude.{◌≡◌, ℕ, ◌≤◌, Option, Some, false, true, IfOk, IfSome, length, option_map};
ghost use Rattle.bre_parse.specs.Tree.{sequence_of};
ghost use Rattle.bre_parse.specs.WellFormed.{repeats_in_order};
ghost use Rattle.bre_parse.specs.Match.{match_from};
ghost use Rattle.bre_parse.specs.Groups.{refers};
ghost use Rattle.bre_match.specs.Spans.{better, is_over, start_and_end, SpansWithin};

use crate::column::{Asked, Passed, step_all};
use crate::needed::{first_start, lacks_needed};
use bre_parse::tree::Node;
use std::alloc::{AllocError, Global};
use std::mem;

/// The better of the best match so far and one that ends here.
fn better(
    best: Option<(usize, usize)>,
    start: Option<usize>,
    place: usize,
) -> Option<(usize, usize)>
    ensures value { result ≡ better best start place }
{
    match start {
        None => best,
        Some(start) => match best {
            None => Some((start, place)),
            Some(old) => if start <= old.0 {
                Some((start, place))
            } else {
                Some(old)
            },
        },
    }
}

/// Whether no mark can lead to a better match.
fn is_over(best: Option<(usize, usize)>, marks: &[Option<usize>]) -> bool
    ensures value { result ≡ is_over best marks.now }
{
    match best {
        None => false,
        Some(best) => {
            for mark in marks {
                if let Some(start) = mark {
                    if *start <= best.0 {
                        return false;
                    }
                }
            }
            true
        }
    }
}

/// Where the first match at or after a place starts and ends, by columns at each byte from there on.
fn span_by_columns(
    alloc: Global,
    items: &[Node],
    text: &[u8],
    from: usize,
) -> Result<Option<(usize, usize)>, AllocError>
    requires place { from ≤ length text.now }
    requires free { refers (sequence_of items.now) ≡ false }
    requires in_order { repeats_in_order (sequence_of items.now) ≡ true }
    ensures value { IfOk result (λ found. found ≡ option_map start_and_end (match_from (sequence_of items.now) text.now from)) }
    ensures within { IfOk result (λ found. IfSome found (SpansWithin from (length text.now))) }
{
    let mut best = None;
    let mut marks = Vec::new(alloc);
    let mut next = Vec::new(alloc);
    let mut place = from;
    while place <= text.len() {
        next.clear();
        let before = Passed {
            weight: Some(place),
            at: 0,
        };
        let passed = step_all(&mut next, Asked::Marks, items, &marks, text, place, before)?;
        best = better(best, passed.weight, place);
        if is_over(best, &next) {
            return Ok(best);
        }
        mem::swap(&mut marks, &mut next);
        place += 1;
    }
    Ok(best)
}

/// Where the first match at or after a place starts and ends.
pub(crate) fn span(
    alloc: Global,
    items: &[Node],
    text: &[u8],
    from: usize,
) -> Result<Option<(usize, usize)>, AllocError>
    requires place { from ≤ length text.now }
    requires free { refers (sequence_of items.now) ≡ false }
    requires in_order { repeats_in_order (sequence_of items.now) ≡ true }
    ensures value { IfOk result (λ found. found ≡ option_map start_and_end (match_from (sequence_of items.now) text.now from)) }
    ensures within { IfOk result (λ found. IfSome found (SpansWithin from (length text.now))) }
{
    // What is looked for first lies no further than the end of a match, and costs less than columns.
    if lacks_needed(items, text, from) {
        return Ok(None);
    }
    let start = first_start(items, text, from);
    let found = span_by_columns(alloc, items, text, start)?;
    Ok(found)
}
