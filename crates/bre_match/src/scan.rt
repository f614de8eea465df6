//! A scan of a text by an automaton, one look into its table for each byte.

ghost use Rattle.std.specs.Prelude.{◌≡◌, ◌≢◌, ◌<◌, ◌≤◌, [], Some, false, true, IfOk, IfSome, length, get_or, nat_eq, if◌then◌else◌};
ghost use Rattle.bre_parse.specs.Tree.{sequence_of};
ghost use Rattle.bre_parse.specs.WellFormed.{repeats_in_order};
ghost use Rattle.bre_parse.specs.Groups.{refers};
ghost use Rattle.bre_match.specs.declared.state.Starts.TheVariants as kind;
ghost use Rattle.bre_match.specs.Parts.{part_of};
ghost use Rattle.bre_match.specs.States.{part_for, transition};
ghost use Rattle.bre_match.specs.Automata.{meaning_of, IsEntry, Serves};
ghost use Rattle.bre_match.specs.Scans.{IsTold};

use crate::automaton::{FOUND, UNKNOWN, WIDTH, begin};
use crate::pace::Pace;
use crate::state::{Starts, State};
use crate::transition::{learn, symbol_at, symbol_of};
use bre_parse::tree::Node;
use std::alloc::AllocError;

/// The entry for a state at a place, worked out where the table doesn't have it. None where that can't be paid.
#[inline(always)]
pub(crate) fn entry_at(
    states: &mut Vec<State>,
    table: &mut Vec<u16>,
    pace: &mut Pace,
    starts: Starts,
    items: &[Node],
    text: &[u8],
    place: usize,
    state: usize,
) -> Result<Option<u16>, AllocError>
    requires place { place ≤ length text.now }
    requires state { state < length states.old.items }
    requires start { nat_eq place 0 ≡ nat_eq state 0 }
    requires begun { 2 ≤ length states.old.items }
    requires serves { Serves starts (part_of (sequence_of items.now)) states.old.items table.old.items }
    ensures begun { 2 ≤ length states.new.items }
    ensures serves { Serves starts (part_of (sequence_of items.now)) states.new.items table.new.items }
    ensures value { IfOk result (λ known. IfSome known (λ entry. meaning_of states.new.items entry ≡ Some (transition (part_for starts (part_of (sequence_of items.now))) (get_or states.old.items state []) text.now place))) }
    ensures entry { IfOk result (λ known. IfSome known (λ entry. IsEntry states.new.items entry)) }
    ensures known { IfOk result (λ known. IfSome known (λ entry. entry ≢ 65535)) }
{
    let symbol = symbol_at(text, place);
    let entry = table[WIDTH * state + symbol];
    if entry != UNKNOWN {
        return Ok(Some(entry));
    }
    if !pace.pay(place) {
        return Ok(None);
    }
    let entry = learn(states, table, starts, items, text, place, state)?;
    Ok(Some(entry))
}

/// The state in which a run begins at a place.
pub(crate) fn first_state(from: usize) -> usize
    ensures start { nat_eq from 0 ≡ nat_eq result 0 }
    ensures low { result < 2 }
{
    if from == 0 { 0 } else { 1 }
}

/// The last place before which no start leads on: this one, where the state has no marks, or the one before.
#[inline(always)]
fn clean_place(state: usize, place: usize, before: usize) -> usize
    ensures value { result ≡ (if nat_eq state 1 then place else before) }
{
    if state == 1 { place } else { before }
}

/// What a scan tells of the matches at or after a place.
#[derive(Clone, Copy)]
pub(crate) enum Scanned {
    /// Nothing: too many transitions would have to be worked out.
    Untold,
    /// There is none.
    Nowhere,
    /// There is one, and none starts before this place.
    From(usize),
}

/// Scans a text from a place on, up to the first place where a match ends.
pub(crate) fn scan(
    states: &mut Vec<State>,
    table: &mut Vec<u16>,
    pace: &mut Pace,
    items: &[Node],
    text: &[u8],
    from: usize,
) -> Result<Scanned, AllocError>
    requires place { from ≤ length text.now }
    requires free { refers (sequence_of items.now) ≡ false }
    requires in_order { repeats_in_order (sequence_of items.now) ≡ true }
    requires serves { Serves kind.Every (part_of (sequence_of items.now)) states.old.items table.old.items }
    ensures serves { Serves kind.Every (part_of (sequence_of items.now)) states.new.items table.new.items }
    ensures told { IfOk result (IsTold (sequence_of items.now) text.now from) }
{
    begin(states, table, Starts::Every)?;
    let mut own = pace.begun(from);
    let mut state = first_state(from);
    let mut clean = from;
    let mut place = from;
    while place < text.len() {
        // Most bytes are passed here. What is written below stays the same meanwhile, so that a byte costs less.
        let plain = own.plain_until(text);
        while place < plain {
            let seen = table[WIDTH * state + symbol_of(text, place)];
            if seen >= FOUND {
                break;
            }
            state = seen as usize;
            place += 1;
            clean = clean_place(state, place, clean);
        }
        let known = entry_at(
            states,
            table,
            &mut own,
            Starts::Every,
            items,
            text,
            place,
            state,
        )?;
        let Some(entry) = known else {
            *pace = own.ended(place);
            return Ok(Scanned::Untold);
        };
        if entry >= FOUND {
            *pace = own.ended(place);
            return Ok(Scanned::From(clean));
        }
        state = entry as usize;
        place = own.next_place(items, text, place + 1, state);
        clean = clean_place(state, place, clean);
    }
    let known = entry_at(
        states,
        table,
        &mut own,
        Starts::Every,
        items,
        text,
        place,
        state,
    )?;
    *pace = own.ended(place);
    let Some(entry) = known else {
        return Ok(Scanned::Untold);
    };
    if entry >= FOUND {
        return Ok(Scanned::From(clean));
    }
    Ok(Scanned::Nowhere)
}
