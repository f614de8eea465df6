//! The states of an automaton, numbered as they are met, and its table: an entry for each state and symbol.

ghost use Rattle.std.specs.Prelude.{◌≡◌, ℕ, ◌+◌, ◌*◌, ◌<◌, ◌≤◌, [], ◌∷◌, List, Option, Some, IfOk, IfSome, OnOk, is_some, length, get_or, nat_eq, nat_le, replicate};
ghost use Rattle.bre_match.specs.Parts.{Part};
ghost use Rattle.bre_match.specs.States.{as_state, first_row};
ghost use Rattle.bre_match.specs.Automata.{meaning_of, state_in, IsEntry, Grows, SameEntries, Serves};

use crate::state::{Starts, State};
use std::alloc::{AllocError, Global};

// The most states that are kept: a table of 128 KB, in which a text touches the entries of its own bytes.
const MOST: usize = 128;

/// How many entries of the table a state has. A power of two is multiplied by faster than the number of symbols, 257.
pub(crate) const WIDTH: usize = 512;

/// The symbol of the end of a text. The others are the bytes.
pub(crate) const END: usize = 256;

/// The entry of a transition that is not known yet.
pub(crate) const UNKNOWN: u16 = 65_535;

/// The first entry that says that a match ends at the place; so do all that are not less.
pub(crate) const FOUND: u16 = 256;

/// The number of the next state, which an entry has beside whether a match ends.
#[inline(always)]
pub(crate) fn state_in(entry: u16) -> usize
    ensures value { result ≡ state_in entry }
{
    (entry % FOUND) as usize
}

/// The state at which a run begins.
fn first_state(alloc: Global, starts: Starts) -> Result<State, AllocError>
    ensures value { IfOk result (λ state. state ≡ first_row starts) }
{
    match starts {
        Starts::Every => Ok(State::of(Vec::new(alloc))),
        Starts::First => {
            let mut marks = Vec::new(alloc);
            marks.push(Some(0))?;
            Ok(State::of(marks))
        }
    }
}

/// The first two states, with the same row: one for the start of a text, and one for later places.
fn first_states(alloc: Global, starts: Starts) -> Result<Vec<State>, AllocError>
    ensures value { IfOk result (λ states. states.items ≡ first_row starts ∷ first_row starts ∷ []) }
{
    let mut states = Vec::new(alloc);
    states.push(first_state(alloc, starts)?)?;
    states.push(first_state(alloc, starts)?)?;
    Ok(states)
}

/// Their table, in which nothing is known.
fn first_table(alloc: Global) -> Result<Vec<u16>, AllocError>
    ensures value { IfOk result (λ table. table.items ≡ replicate 1024 65535) }
{
    let table = Vec::from_elem(alloc, UNKNOWN, 2 * WIDTH)?;
    Ok(table)
}

/// Makes the first two states, and their table, where there are none yet.
pub(crate) fn begin(
    states: &mut Vec<State>,
    table: &mut Vec<u16>,
    starts: Starts,
) -> Result<(), AllocError>
    ensures serves { (part : Part) → Serves starts part states.old.items table.old.items → Serves starts part states.new.items table.new.items }
    ensures begun { OnOk result (2 ≤ length states.new.items) }
{
    if states.len() >= 2 {
        return Ok(());
    }
    let alloc = *table.allocator();
    let first = first_states(alloc, starts)?;
    let unknown = first_table(alloc)?;
    *states = first;
    *table = unknown;
    Ok(())
}

/// Where there are too many states, forgets all but the first two and this one, and all transitions. The answer is the number that
/// this state has from now on.
pub(crate) fn make_room(states: &mut Vec<State>, table: &mut Vec<u16>, state: usize) -> usize
    requires state { state < length states.old.items }
    ensures serves { (starts : Starts) (part : Part) → Serves starts part states.old.items table.old.items → Serves starts part states.new.items table.new.items }
    ensures state { (result < length states.new.items) × (get_or states.new.items result [] ≡ get_or states.old.items state []) }
    ensures start { nat_eq result 0 ≡ nat_eq state 0 }
    ensures room { length states.old.items ≤ 128 → length states.new.items < 128 }
    ensures begun { 2 ≤ length states.old.items → 2 ≤ length states.new.items }
{
    if states.len() < MOST {
        return state;
    }
    table.fill(UNKNOWN);
    if state < 2 {
        states.truncate(2);
        state
    } else {
        states.swap(2, state);
        states.truncate(3);
        2
    }
}

/// The number of a state, if it was met after the start of a text.
fn known_state(states: &[State], state: &State) -> Option<usize>
    ensures value { IfSome result (λ number. (0 < number) × (number < length states.now) × (get_or states.now number [] ≡ state.now)) }
{
    for number in 1..states.len() {
        if states[number].is_same(state) {
            return Some(number);
        }
    }
    None
}

/// Makes room in the table for the entries of one more state.
fn widen(table: &mut Vec<u16>, states: usize) -> Result<(), AllocError>
    requires few { states < 128 }
    ensures same { SameEntries table.new.items table.old.items }
    ensures room { OnOk result (512 * (states + 1) ≤ length table.new.items) }
    ensures longer { length table.old.items ≤ length table.new.items }
{
    let wanted = WIDTH * (states + 1);
    if table.len() < wanted {
        table.resize(wanted, UNKNOWN)?;
    }
    Ok(())
}

/// The number of a state, which is put after the others if it is new.
fn number_of(states: &mut Vec<State>, table: &mut Vec<u16>, state: State) -> Result<u16, AllocError>
    requires some { 0 < length states.old.items }
    requires few { length states.old.items < 128 }
    requires room { 512 * length states.old.items ≤ length table.old.items }
    ensures value { IfOk result (λ number. (0 < number) × (number < length states.new.items) × (get_or states.new.items number [] ≡ state)) }
    ensures grows { Grows states.old.items states.new.items }
    ensures same { SameEntries table.new.items table.old.items }
    ensures room { 512 * length states.new.items ≤ length table.new.items }
{
    match known_state(states, &state) {
        Some(number) => Ok(number as u16),
        None => {
            widen(table, states.len())?;
            let number = states.len() as u16;
            states.push(state)?;
            Ok(number)
        }
    }
}

/// The entry of a state, and of whether a match ends.
fn entry_of(number: u16, is_end: bool) -> u16
    requires few { number < 128 }
    ensures value { (states : List (List (Option ℕ))) → meaning_of states result ≡ Some (is_end, get_or states number []) }
    ensures state { state_in result ≡ number }
{
    if is_end { number + FOUND } else { number }
}

/// The entry for what a step gave: what came out, and the marks of the next place.
pub(crate) fn entry_for(
    states: &mut Vec<State>,
    table: &mut Vec<u16>,
    out: Option<usize>,
    marks: Vec<Option<usize>>,
) -> Result<u16, AllocError>
    requires some { 0 < length states.old.items }
    requires few { length states.old.items < 128 }
    requires room { 512 * length states.old.items ≤ length table.old.items }
    ensures value { IfOk result (λ entry. meaning_of states.new.items entry ≡ Some (is_some out, as_state marks.items)) }
    ensures entry { IfOk result (λ entry. IsEntry states.new.items entry) }
    ensures grows { Grows states.old.items states.new.items }
    ensures same { SameEntries table.new.items table.old.items }
    ensures room { 512 * length states.new.items ≤ length table.new.items }
{
    let number = number_of(states, table, State::of(marks))?;
    Ok(entry_of(number, out.is_some()))
}
