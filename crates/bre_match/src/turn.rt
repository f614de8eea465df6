//! What is left to do in a repeat, turn after turn.

ghost use Rattle.std.specs.Prelude.{◌≡◌, ℕ, ◌+◌, ◌<◌, ◌^◌, ◌++◌, ◌&&◌, flat_map, reverse, option_to_list, nat_lt, nat_le, IsTrue, OnOk};
ghost use Rattle.bre_parse.specs.Ways.{below};
ghost use Rattle.bre_match.specs.Listed.{listed};
ghost use Rattle.bre_match.specs.Turns.{after_way, turn_if};
ghost use Rattle.bre_match.specs.declared.turn.Turn.TheVariants as turn;

use crate::listed::WayList;
use crate::run::{Way, is_below};
use std::alloc::AllocError;

/// What is left to do in a repeat: the next turn after a way, with so many turns done, or to hand out a way.
#[derive(Clone, Copy)]
pub(crate) enum Turn {
    Next(usize, Way),
    Ended(Way),
}

/// The numbers of a repeat: the least and the most turns, and one that no repeat of a text reaches.
#[derive(Clone, Copy)]
pub(crate) struct Bounds {
    pub least: u8,
    pub most: Option<u8>,
    pub enough: usize,
    /// There is no most, and the repeat begins within the text.
    pub unbounded: bool,
}

/// Whether one more turn may begin after so many.
pub(crate) fn may_begin(bounds: Bounds, done: usize) -> bool
    ensures value { result ≡ (nat_lt done bounds.enough && below done bounds.most) }
    ensures room { IsTrue result → done + 1 < 2 ^ 64 }
{
    done < bounds.enough && is_below(done, bounds.most)
}

/// The way where a repeat may end after so many turns.
pub(crate) fn ended_if(bounds: Bounds, done: usize, way: Way) -> Option<Turn>
    ensures value { option_to_list result ≡ turn_if (nat_le bounds.least done) (turn.Ended way) }
{
    if bounds.least as usize <= done {
        Some(Turn::Ended(way))
    } else {
        None
    }
}

/// What one way of a turn that began at this place after so many leaves to do.
fn after_way(least: u8, done: usize, place: usize, way: Way) -> Option<Turn>
    requires room { done + 1 < 2 ^ 64 }
    ensures value { option_to_list result ≡ after_way least done place way }
{
    if way.0 == place && least as usize <= done {
        if done == 0 {
            Some(Turn::Ended(way))
        } else {
            None
        }
    } else {
        Some(Turn::Next(done + 1, way))
    }
}

/// Puts what there is before all else.
pub(crate) fn push_turn(left: &mut Vec<Turn>, turn: Option<Turn>) -> Result<(), AllocError>
    ensures value { OnOk result (reverse left.new.items ≡ option_to_list turn ++ reverse left.old.items) }
{
    if let Some(turn) = turn {
        left.push(turn)?;
    }
    Ok(())
}

/// Puts what each way of a turn leaves to do before all else.
pub(crate) fn push_after(
    left: &mut Vec<Turn>,
    least: u8,
    done: usize,
    place: usize,
    begun: &WayList,
) -> Result<(), AllocError>
    requires room { done + 1 < 2 ^ 64 }
    ensures value { OnOk result (reverse left.new.items ≡ flat_map (after_way least done place) (listed begun.now) ++ reverse left.old.items) }
{
    let mut at = begun.len();
    while at > 0 {
        at -= 1;
        push_turn(left, after_way(least, done, place, begun.way_at(at)))?;
    }
    Ok(())
}
