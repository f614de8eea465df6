//! Where the match from a start ends, by an automaton that goes through a text for this start alone.

ghost use Rattle.std.specs.Prelude.{◌≡◌, ◌<◌, ◌≤◌, ℕ, [], Some, false, true, IfOk, get_or, length, nat_le, if◌then◌else◌};
ghost use Rattle.bre_parse.specs.Tree.{sequence_of};
ghost use Rattle.bre_parse.specs.WellFormed.{repeats_in_order};
ghost use Rattle.bre_parse.specs.Groups.{refers};
ghost use Rattle.bre_match.specs.declared.state.Starts.TheVariants as kind;
ghost use Rattle.bre_match.specs.Parts.{Part, part_of};
ghost use Rattle.bre_match.specs.Automata.{Serves};
ghost use Rattle.bre_match.specs.Scans.{told_end, IsFound, IsLastEnd};

use crate::automaton::{FOUND, begin, state_in};
use crate::needed::first_start;
use crate::pace::Pace;
use crate::scan::{entry_at, first_state};
use crate::state::{Starts, State};
use bre_parse::tree::Node;
use std::alloc::AllocError;

// How many starts are tried, one after another, before they are searched by columns all at once.
const MOST_STARTS: usize = 8;

/// What a run from a start tells of the ways from there.
#[derive(Clone, Copy)]
pub(crate) enum LastEnd {
    /// Nothing: too many transitions would have to be worked out.
    Untold,
    /// There is none.
    Nowhere,
    /// The longest ends at this place.
    At(usize),
}

/// What is found at or after a place.
#[derive(Clone, Copy)]
pub(crate) enum Found {
    /// Where the match starts and ends.
    At(usize, usize),
    /// No match starts before this place.
    NotBefore(usize),
}

/// The last place where a way ends: this one, where the entry says so, or the one before.
#[inline(always)]
fn end_at(entry: u16, place: usize, before: Option<usize>) -> Option<usize>
    ensures value { result ≡ (if nat_le 256 entry then Some place else before) }
{
    if entry >= FOUND { Some(place) } else { before }
}

/// Whether no way leads on from a state. It is looked at only where it isn't the one before, which led on.
#[inline(always)]
fn is_dead(states: &[State], state: usize, before: usize) -> bool
    requires state { state < length states.now }
    ensures sound { result ≡ true → get_or states.now state [] ≡ [] }
{
    state != before && states[state].is_empty()
}

/// What the last end of all says.
fn told(end: Option<usize>) -> LastEnd
    ensures value { result ≡ told_end end }
{
    match end {
        None => LastEnd::Nowhere,
        Some(end) => LastEnd::At(end),
    }
}

/// Where the longest way from a start ends. The run goes on where a way ends, up to a state from which none leads on.
fn longest_end(
    states: &mut Vec<State>,
    table: &mut Vec<u16>,
    pace: &mut Pace,
    items: &[Node],
    text: &[u8],
    start: usize,
) -> Result<LastEnd, AllocError>
    requires place { start ≤ length text.now }
    requires serves { Serves kind.First (part_of (sequence_of items.now)) states.old.items table.old.items }
    ensures serves { Serves kind.First (part_of (sequence_of items.now)) states.new.items table.new.items }
    ensures told { IfOk result (IsLastEnd (part_of (sequence_of items.now)) text.now start) }
{
    begin(states, table, Starts::First)?;
    let mut own = pace.begun(start);
    let mut state = first_state(start);
    let mut end = None;
    let mut place = start;
    while place <= text.len() {
        let known = entry_at(
            states,
            table,
            &mut own,
            Starts::First,
            items,
            text,
            place,
            state,
        )?;
        let Some(entry) = known else {
            *pace = own.ended(place);
            return Ok(LastEnd::Untold);
        };
        end = end_at(entry, place, end);
        let before = state;
        state = state_in(entry);
        place += 1;
        if is_dead(states, state, before) {
            *pace = own.ended(place);
            return Ok(told(end));
        }
    }
    *pace = own.ended(place);
    Ok(told(end))
}

/// Where the first match at or after a place starts and ends, if it starts there or soon after.
pub(crate) fn start_and_end(
    states: &mut Vec<State>,
    table: &mut Vec<u16>,
    pace: &mut Pace,
    items: &[Node],
    text: &[u8],
    from: usize,
) -> Result<Found, AllocError>
    requires place { from ≤ length text.now }
    requires free { refers (sequence_of items.now) ≡ false }
    requires in_order { repeats_in_order (sequence_of items.now) ≡ true }
    requires serves { Serves kind.First (part_of (sequence_of items.now)) states.old.items table.old.items }
    ensures serves { Serves kind.First (part_of (sequence_of items.now)) states.new.items table.new.items }
    ensures found { IfOk result (IsFound (sequence_of items.now) text.now from) }
{
    let mut start = from;
    for _tried in 0..MOST_STARTS {
        match longest_end(states, table, pace, items, text, start)? {
            LastEnd::At(end) => return Ok(Found::At(start, end)),
            LastEnd::Untold => return Ok(Found::NotBefore(start)),
            LastEnd::Nowhere => {
                if start >= text.len() {
                    return Ok(Found::NotBefore(start));
                }
                start = first_start(items, text, start + 1);
            }
        }
    }
    Ok(Found::NotBefore(start))
}
