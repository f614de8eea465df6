//! What is left to do in a sequence: a stack of ways, those that were put last before all else.

ghost use Rattle.std.specs.Prelude.{◌≡◌, ◌+◌, ◌<◌, ◌^◌, ◌++◌, [], drop, length, map, None, IfOk, IfSome};
ghost use Rattle.bre_match.specs.Listed.{listed};
ghost use Rattle.bre_match.specs.Runs.{at_item, tasks, ways_of};

use crate::listed::WayList;
use crate::run::{Ahead, Run};
use std::alloc::AllocError;

/// Ways that are left, in their order, each to meet one item next.
#[derive(Drop)]
pub(crate) enum Left {
    Run(Ahead),
    /// The item, and the ways of a list from this place of it on.
    List(usize, usize, WayList),
}

/// The way at a place of a list, ahead of the later ones, which are left. A function of its own, so that a run is taken out without the room
/// that a list is moved about in.
#[inline(never)]
fn way_ahead(
    left: &mut Vec<Left>,
    item: usize,
    at: usize,
    ways: WayList,
) -> Result<Ahead, AllocError>
    requires at { at < length (listed ways) }
    requires room { at + 1 < 2 ^ 64 }
    ensures value { IfOk result (λ next. map (at_item item) (drop at (listed ways)) ++ tasks left.old.items ≡ map (at_item next.item) (ways_of next.run) ++ tasks left.new.items) }
{
    let way = ways.way_at(at);
    left.push(Left::List(item, at + 1, ways))?;
    let run = Run::of(way.0, way.1);
    Ok(Ahead { item, run })
}

/// Takes out what comes before all else: a run, or one way of a list.
pub(crate) fn next_ahead(left: &mut Vec<Left>) -> Result<Option<Ahead>, AllocError>
    ensures next { IfOk result (λ found. IfSome found (λ next. tasks left.old.items ≡ map (at_item next.item) (ways_of next.run) ++ tasks left.new.items)) }
    ensures none { IfOk result (λ found. found ≡ None → tasks left.old.items ≡ []) }
    ensures empty { IfOk result (λ found. found ≡ None → left.new.items ≡ []) }
{
    while let Some(first) = left.pop() {
        match first {
            Left::Run(ahead) => {
                let item = ahead.item;
                let run = ahead.run;
                return Ok(Some(Ahead { item, run }));
            }
            Left::List(item, at, ways) => {
                if at < ways.len() {
                    let ahead = way_ahead(left, item, at, ways)?;
                    return Ok(Some(ahead));
                }
            }
        }
    }
    Ok(None)
}
