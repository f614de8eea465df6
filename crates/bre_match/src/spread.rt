//! Where ways come to, order apart: all ways from several places at once, of those that are alike only one. No way is followed twice,
//! so the work is bounded by the number of places and of spans of the groups that are asked for.

ghost use Rattle.std.specs.Prelude.{ℕ, None, Some, IfOk, IfSome};
ghost use Rattle.bre_parse.specs.Tree.{tree_of, sequence_of, Group, Repeat};
ghost use Rattle.bre_parse.specs.Ways.{ways, fresh_turn, turns};
ghost use Rattle.bre_match.specs.Alike.{RefersWithin};
ghost use Rattle.bre_match.specs.Spreads.{Leads};

use crate::asked::{Asked, items_refer_as_whole};
use crate::index::Index;
use crate::kinds::{begun_all, is_told_apart, push_new};
use crate::run::{Simple, Way, only_item, push_found, simple_ways};
use crate::search::push_group;
use bre_parse::tree::Node;
use std::alloc::{AllocError, Global};

// Where more ways than these come from some places, nothing is told: they would cost memory.
const MOST_KNOWN: usize = 100_000;

// How many rounds of turns nobody waits for.
const MOST_ROUNDS: usize = 1_000_000_000;

/// Whether a part is a repeat without a bound.
fn is_endless(part: &Node) -> bool {
    match part {
        Node::Repeat(_, most, _) => most.is_none(),
        _ => false,
    }
}

/// Whether the ways of a part are best followed from one place after another: it has one run of ways from each, and there are few places,
/// or the run is no repeat. A group that doesn't tell ways apart is as its only item.
fn is_leaf(part: &Node, asked: &Asked, from: &[Way]) -> bool {
    match part {
        Node::Sequence(_) => false,
        Node::Repeat(_, None, _) => from.len() < 2,
        Node::Repeat(_, _, _) => true,
        Node::Group(group, content) => match only_item(content) {
            Some(item) => from.len() < 2 || is_told_apart(*group, asked) || !is_endless(item),
            None => true,
        },
        _ => true,
    }
}

/// The ways of a part from each of some ways, if they are simple.
fn spread_simply(
    alloc: Global,
    part: &Node,
    text: &[u8],
    asked: &Asked,
    from: &[Way],
) -> Result<Option<Vec<Way>>, AllocError>
    ensures value { IfOk result (λ found. IfSome found (λ to. Leads asked.now (ways (tree_of part.now) text.now) from.now to.items)) }
{
    let mut to = Vec::new(alloc);
    let mut index = Index::new(alloc);
    let mut found = Vec::new(alloc);
    for way in from {
        let Simple::Ways(ends) = simple_ways(part, text, way.0, &way.1) else {
            return Ok(None);
        };
        found.clear();
        push_found(&mut found, way.1, ends)?;
        push_new(&mut to, &mut index, alloc, asked, &found)?;
        if to.len() > MOST_KNOWN {
            return Ok(None);
        }
    }
    Ok(Some(to))
}

#[tactic(auto, using(crate::proofs::Asking::sequence_as_whole))]
/// Where the ways of a part come to from some ways, unless they are too many to be told.
#[cycle(spread)]
pub(crate) fn spread(
    alloc: Global,
    part: &Node,
    text: &[u8],
    asked: &Asked,
    from: &[Way],
) -> Result<Option<Vec<Way>>, AllocError>
    requires asked { RefersWithin asked.now (tree_of part.now) }
    ensures value { IfOk result (λ found. IfSome found (λ to. Leads asked.now (ways (tree_of part.now) text.now) from.now to.items)) }
{
    if from.is_empty() {
        return Ok(Some(Vec::new(alloc)));
    }
    if is_leaf(part, asked, from) {
        if let Some(to) = spread_simply(alloc, part, text, asked, from)? {
            return Ok(Some(to));
        }
    }
    match part {
        Node::Sequence(items) => {
            items_refer_as_whole(part, items, asked);
            let found = spread_row(alloc, items, text, asked, from)?;
            Ok(found)
        }
        Node::Group(group, content) => {
            let found = spread_group(alloc, *group, content, text, asked, from)?;
            Ok(found)
        }
        Node::Repeat(least, most, content) => {
            let found = spread_repeat(alloc, *least, *most, content, text, asked, from)?;
            Ok(found)
        }
        _ => Ok(None),
    }
}

#[tactic(auto, using(crate::proofs::Asking::item_within))]
/// One item after another.
#[cycle(spread)]
pub(crate) fn spread_row(
    alloc: Global,
    items: &[Node],
    text: &[u8],
    asked: &Asked,
    from: &[Way],
) -> Result<Option<Vec<Way>>, AllocError>
    requires asked { RefersWithin asked.now (sequence_of items.now) }
    ensures value { IfOk result (λ found. IfSome found (λ to. Leads asked.now (ways (sequence_of items.now) text.now) from.now to.items)) }
{
    let mut now = Vec::new(alloc);
    now.extend_from_slice(from)?;
    for item in items {
        let Some(next) = spread(alloc, item, text, asked, &now)? else {
            return Ok(None);
        };
        now = next;
    }
    Ok(Some(now))
}

/// The ways of a group: where it isn't asked for, those of its content.
#[cycle(spread)]
fn spread_group(
    alloc: Global,
    group: usize,
    content: &Node,
    text: &[u8],
    asked: &Asked,
    from: &[Way],
) -> Result<Option<Vec<Way>>, AllocError>
    requires asked { RefersWithin asked.now (tree_of content.now) }
    ensures value { IfOk result (λ found. IfSome found (λ to. Leads asked.now (ways (Group group (tree_of content.now)) text.now) from.now to.items)) }
{
    if !is_told_apart(group, asked) {
        let found = spread(alloc, content, text, asked, from)?;
        return Ok(found);
    }
    let mut to = Vec::new(alloc);
    let mut index = Index::new(alloc);
    for way in from {
        let mut one = Vec::new(alloc);
        one.push(*way)?;
        let Some(inner) = spread(alloc, content, text, asked, &one)? else {
            return Ok(None);
        };
        let mut closed = Vec::new(alloc);
        push_group(&mut closed, &inner, group, way.0)?;
        push_new(&mut to, &mut index, alloc, asked, &closed)?;
        if to.len() > MOST_KNOWN {
            return Ok(None);
        }
    }
    Ok(Some(to))
}

/// One turn more of a repeat from each of some ways.
#[cycle(spread)]
fn spread_turn(
    alloc: Global,
    content: &Node,
    text: &[u8],
    asked: &Asked,
    from: &[Way],
) -> Result<Option<Vec<Way>>, AllocError>
    requires asked { RefersWithin asked.now (tree_of content.now) }
    ensures value { IfOk result (λ found. IfSome found (λ to. Leads asked.now (fresh_turn (tree_of content.now) (ways (tree_of content.now) text.now)) from.now to.items)) }
{
    if let Node::Set(_) = content {
        // It has no groups that were to be unset, and so the ways are as different as before.
        let simple = spread_simply(alloc, content, text, asked, from)?;
        return Ok(simple);
    }
    let begun = begun_all(alloc, content, from)?;
    let mut different = Vec::new(alloc);
    let mut index = Index::new(alloc);
    push_new(&mut different, &mut index, alloc, asked, &begun)?;
    let found = spread(alloc, content, text, asked, &different)?;
    Ok(found)
}

/// The ways of a repeat: its turns that are needed, and then those that may come.
#[cycle(spread)]
fn spread_repeat(
    alloc: Global,
    least: u8,
    most: Option<u8>,
    content: &Node,
    text: &[u8],
    asked: &Asked,
    from: &[Way],
) -> Result<Option<Vec<Way>>, AllocError>
    requires asked { RefersWithin asked.now (tree_of content.now) }
    ensures value { IfOk result (λ found. IfSome found (λ to. Leads asked.now (ways (Repeat least most (tree_of content.now)) text.now) from.now to.items)) }
{
    let mut now = Vec::new(alloc);
    now.extend_from_slice(from)?;
    for done in 0..least {
        let Some(next) = spread_turn(alloc, content, text, asked, &now)? else {
            return Ok(None);
        };
        now = next;
    }
    match most {
        None => {
            let found = spread_more(alloc, least, content, text, asked, &now)?;
            Ok(found)
        }
        Some(most) => {
            let found = spread_up_to(alloc, least, most, content, text, asked, &now)?;
            Ok(found)
        }
    }
}

/// The ways of a repeat without bound whose needed turns are done: turn after turn, until none comes to anything new.
#[cycle(spread)]
fn spread_more(
    alloc: Global,
    least: u8,
    content: &Node,
    text: &[u8],
    asked: &Asked,
    from: &[Way],
) -> Result<Option<Vec<Way>>, AllocError>
    requires asked { RefersWithin asked.now (tree_of content.now) }
    ensures value { IfOk result (λ found. IfSome found (λ to. (more : ℕ) → Leads asked.now (turns more (fresh_turn (tree_of content.now) (ways (tree_of content.now) text.now)) least None least) from.now to.items)) }
{
    let mut all = Vec::new(alloc);
    let mut index = Index::new(alloc);
    let mut added = push_new(&mut all, &mut index, alloc, asked, from)?;
    for round in 0..MOST_ROUNDS {
        if added.is_empty() {
            return Ok(Some(all));
        }
        if all.len() > MOST_KNOWN {
            return Ok(None);
        }
        let Some(next) = spread_turn(alloc, content, text, asked, &added)? else {
            return Ok(None);
        };
        added = push_new(&mut all, &mut index, alloc, asked, &next)?;
    }
    Ok(None)
}

/// The ways of a repeat with a bound whose needed turns are done: so many turns more at most.
#[cycle(spread)]
fn spread_up_to(
    alloc: Global,
    least: u8,
    most: u8,
    content: &Node,
    text: &[u8],
    asked: &Asked,
    from: &[Way],
) -> Result<Option<Vec<Way>>, AllocError>
    requires asked { RefersWithin asked.now (tree_of content.now) }
    ensures value { IfOk result (λ found. IfSome found (λ to. (more : ℕ) → Leads asked.now (turns more (fresh_turn (tree_of content.now) (ways (tree_of content.now) text.now)) least (Some most) least) from.now to.items)) }
{
    let mut all = Vec::new(alloc);
    let mut index = Index::new(alloc);
    push_new(&mut all, &mut index, alloc, asked, from)?;
    let mut now = Vec::new(alloc);
    now.extend_from_slice(from)?;
    for passed in 0..most.saturating_sub(least) {
        let Some(next) = spread_turn(alloc, content, text, asked, &now)? else {
            return Ok(None);
        };
        push_new(&mut all, &mut index, alloc, asked, &next)?;
        if all.len() > MOST_KNOWN {
            return Ok(None);
        }
        now = next;
    }
    Ok(Some(all))
}
