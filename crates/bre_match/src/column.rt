//! Columns: at a place of a text the least weight with which one stands just after each byte set of a part, the turns of
//! its repeats written out. A place costs one step of each of them, whatever the text.

ghost use Rattle.std.specs.Prelude.{◌≡◌, ℕ, ◌≤◌, ◌∷◌, ◌++◌, [], List, Option, Some, drop, IfOk, OnOk, length, slice_get};
ghost use Rattle.bre_parse.specs.Tree.{tree_of, sequence_of};
ghost use Rattle.bre_match.specs.Parts.{part_of, needed, up_to, written_out, Nothing};
ghost use Rattle.bre_parse.specs.Ways.{has_byte_in};
ghost use Rattle.bre_match.specs.Columns.{less_of, where_true, peek, step};
ghost use Rattle.bre_match.specs.Marks.{fill, past, marks_of, asked_for, first_mark, other_marks};

use crate::run::has_byte_in;
use bre_parse::tree::{ByteSet, Node};
use std::alloc::AllocError;

/// What is asked of a part at a place: only what comes out after it, or its marks at the next place too.
#[derive(Clone, Copy)]
pub(crate) enum Asked {
    Weight,
    Marks,
}

/// What comes out before or after a part: the least weight, and the place of the next part's marks.
#[derive(Clone, Copy)]
pub(crate) struct Passed {
    pub weight: Option<usize>,
    pub at: usize,
}

/// The less of two weights.
fn less_of(first: Option<usize>, second: Option<usize>) -> Option<usize>
    ensures value { result ≡ less_of first second }
{
    match first {
        None => second,
        Some(w) => match second {
            None => Some(w),
            Some(v) => if w <= v { Some(w) } else { Some(v) },
        },
    }
}

/// The mark there, if there is one.
pub(crate) fn mark_at(marks: &[Option<usize>], at: usize) -> Option<usize>
    ensures value { result ≡ first_mark (drop at marks.now) }
{
    if at < marks.len() { marks[at] } else { None }
}

/// The place after a mark.
pub(crate) fn after_mark(marks: &[Option<usize>], at: usize) -> usize
    ensures value { drop result marks.now ≡ other_marks (drop at marks.now) }
{
    if at < marks.len() { at + 1 } else { at }
}

/// What comes out after a part that takes no byte: what came out before it, where it may.
fn passed_if(may: bool, before: Passed) -> Passed
    ensures weight { result.weight ≡ where_true may before.weight }
    ensures at { result.at ≡ before.at }
{
    Passed {
        weight: if may { before.weight } else { None },
        at: before.at,
    }
}

/// Puts the mark of a byte set at the next place after others, if it is asked for.
fn put_mark(
    out: &mut Vec<Option<usize>>,
    asked: Asked,
    set: &ByteSet,
    text: &[u8],
    place: usize,
    weight: Option<usize>,
) -> Result<(), AllocError>
    ensures value { OnOk result (out.new.items ≡ out.old.items ++ asked_for asked (where_true (has_byte_in set.now.negated set.now.ranges.items (slice_get text.now place)) weight ∷ [])) }
{
    match asked {
        Asked::Weight => Ok(()),
        Asked::Marks => {
            let next = if has_byte_in(text, place, set) {
                weight
            } else {
                None
            };
            out.push(next)?;
            Ok(())
        }
    }
}

/// What comes out after a part at a place, where one enters it there with what came out before it. If they are asked for,
/// its marks at the next place are put after others.
#[cycle(step)]
pub(crate) fn step(
    out: &mut Vec<Option<usize>>,
    asked: Asked,
    node: &Node,
    marks: &[Option<usize>],
    text: &[u8],
    place: usize,
    before: Passed,
) -> Result<Passed, AllocError>
    ensures weight { IfOk result (λ passed. passed.weight ≡ peek (fill (part_of (tree_of node.now)) (drop before.at marks.now)) text.now place before.weight) }
    ensures at { IfOk result (λ passed. drop passed.at marks.now ≡ past (part_of (tree_of node.now)) (drop before.at marks.now)) }
    ensures marks { OnOk result (out.new.items ≡ out.old.items ++ asked_for asked (marks_of (step (fill (part_of (tree_of node.now)) (drop before.at marks.now)) text.now place before.weight))) }
{
    match node {
        Node::Sequence(items) => {
            let passed = step_all(out, asked, items, marks, text, place, before)?;
            Ok(passed)
        }
        Node::Set(set) => {
            put_mark(out, asked, set, text, place, before.weight)?;
            let weight = mark_at(marks, before.at);
            let at = after_mark(marks, before.at);
            Ok(Passed { weight, at })
        }
        Node::TextStart => Ok(passed_if(place == 0, before)),
        Node::TextEnd => Ok(passed_if(place == text.len(), before)),
        Node::BackReference(_) => Ok(passed_if(false, before)),
        Node::Group(_, content) => {
            let passed = step(out, asked, content, marks, text, place, before)?;
            Ok(passed)
        }
        Node::Repeat(least, most, content) => {
            let passed = step_repeat(
                out, asked, content, *least, *most, marks, text, place, before,
            )?;
            Ok(passed)
        }
    }
}

#[cycle(step)]
pub(crate) fn step_all(
    out: &mut Vec<Option<usize>>,
    asked: Asked,
    items: &[Node],
    marks: &[Option<usize>],
    text: &[u8],
    place: usize,
    before: Passed,
) -> Result<Passed, AllocError>
    ensures weight { IfOk result (λ passed. passed.weight ≡ peek (fill (part_of (sequence_of items.now)) (drop before.at marks.now)) text.now place before.weight) }
    ensures at { IfOk result (λ passed. drop passed.at marks.now ≡ past (part_of (sequence_of items.now)) (drop before.at marks.now)) }
    ensures marks { OnOk result (out.new.items ≡ out.old.items ++ asked_for asked (marks_of (step (fill (part_of (sequence_of items.now)) (drop before.at marks.now)) text.now place before.weight))) }
{
    let mut passed = before;
    for item in items {
        passed = step(out, asked, item, marks, text, place, passed)?;
    }
    Ok(passed)
}

#[cycle(step)]
fn step_repeat(
    out: &mut Vec<Option<usize>>,
    asked: Asked,
    content: &Node,
    least: u8,
    most: Option<u8>,
    marks: &[Option<usize>],
    text: &[u8],
    place: usize,
    before: Passed,
) -> Result<Passed, AllocError>
    ensures weight { IfOk result (λ passed. passed.weight ≡ peek (fill (written_out least most (part_of (tree_of content.now))) (drop before.at marks.now)) text.now place before.weight) }
    ensures at { IfOk result (λ passed. drop passed.at marks.now ≡ past (written_out least most (part_of (tree_of content.now))) (drop before.at marks.now)) }
    ensures marks { OnOk result (out.new.items ≡ out.old.items ++ asked_for asked (marks_of (step (fill (written_out least most (part_of (tree_of content.now))) (drop before.at marks.now)) text.now place before.weight))) }
{
    let count = least as usize;
    let begun = step_needed(out, asked, content, count, marks, text, place, before)?;
    match most {
        None => {
            let turn = step(out, Asked::Weight, content, marks, text, place, begun)?;
            let weight = less_of(begun.weight, turn.weight);
            match asked {
                // A second walk would double the time at each level of nested repeats.
                Asked::Weight => Ok(Passed {
                    weight,
                    at: turn.at,
                }),
                Asked::Marks => {
                    let entered = Passed {
                        weight,
                        at: begun.at,
                    };
                    let again = step(out, asked, content, marks, text, place, entered)?;
                    Ok(Passed {
                        weight,
                        at: again.at,
                    })
                }
            }
        }
        Some(most) => {
            let more = (most as usize).saturating_sub(least as usize);
            let passed = step_up_to(out, asked, content, more, marks, text, place, begun)?;
            Ok(passed)
        }
    }
}

#[cycle(step)]
fn step_needed(
    out: &mut Vec<Option<usize>>,
    asked: Asked,
    content: &Node,
    count: usize,
    marks: &[Option<usize>],
    text: &[u8],
    place: usize,
    before: Passed,
) -> Result<Passed, AllocError>
    ensures weight { IfOk result (λ passed. passed.weight ≡ peek (fill (needed count (part_of (tree_of content.now)) Nothing) (drop before.at marks.now)) text.now place before.weight) }
    ensures at { IfOk result (λ passed. drop passed.at marks.now ≡ past (needed count (part_of (tree_of content.now)) Nothing) (drop before.at marks.now)) }
    ensures marks { OnOk result (out.new.items ≡ out.old.items ++ asked_for asked (marks_of (step (fill (needed count (part_of (tree_of content.now)) Nothing) (drop before.at marks.now)) text.now place before.weight))) }
{
    let mut passed = before;
    for turn in 0..count {
        passed = step(out, asked, content, marks, text, place, passed)?;
    }
    Ok(passed)
}

#[cycle(step)]
fn step_up_to(
    out: &mut Vec<Option<usize>>,
    asked: Asked,
    content: &Node,
    count: usize,
    marks: &[Option<usize>],
    text: &[u8],
    place: usize,
    before: Passed,
) -> Result<Passed, AllocError>
    ensures weight { IfOk result (λ passed. passed.weight ≡ peek (fill (up_to count (part_of (tree_of content.now))) (drop before.at marks.now)) text.now place before.weight) }
    ensures at { IfOk result (λ passed. drop passed.at marks.now ≡ past (up_to count (part_of (tree_of content.now))) (drop before.at marks.now)) }
    ensures marks { OnOk result (out.new.items ≡ out.old.items ++ asked_for asked (marks_of (step (fill (up_to count (part_of (tree_of content.now))) (drop before.at marks.now)) text.now place before.weight))) }
{
    let mut passed = before;
    let mut least = None;
    for turn in 0..count {
        least = less_of(least, passed.weight);
        passed = step(out, asked, content, marks, text, place, passed)?;
    }
    let weight = less_of(least, passed.weight);
    let at = passed.at;
    Ok(Passed { weight, at })
}
