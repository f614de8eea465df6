//! The transitions of an automaton: what a step of a column gives from a state at a symbol, worked out once and put into the table.

ghost use Rattle.std.specs.Prelude.{◌≡◌, ◌<◌, ◌≤◌, ◌++◌, [], Some, IfOk, OnOk, drop, length, get_or, nat_eq, slice_get};
ghost use Rattle.bre_parse.specs.Tree.{sequence_of};
ghost use Rattle.bre_match.specs.Parts.{part_of};
ghost use Rattle.bre_match.specs.States.{part_for, own_weight, own_row, marks_before, transition};
ghost use Rattle.bre_match.specs.Automata.{symbol_byte, meaning_of, IsEntry, Serves};

use crate::automaton::{END, WIDTH, entry_for, make_room};
use crate::column::{Asked, Passed, after_mark, mark_at, step_all};
use crate::state::{Starts, State};
use bre_parse::tree::Node;
use std::alloc::AllocError;

/// The symbol of a byte of a text.
#[inline(always)]
pub(crate) fn symbol_of(text: &[u8], place: usize) -> usize
    requires place { place < length text.now }
    ensures value { symbol_byte result ≡ slice_get text.now place }
    ensures low { result ≤ 256 }
{
    text[place] as usize
}

/// The symbol at a place of a text: its byte, or the end.
#[inline(always)]
pub(crate) fn symbol_at(text: &[u8], place: usize) -> usize
    requires place { place ≤ length text.now }
    ensures value { symbol_byte result ≡ slice_get text.now place }
    ensures low { result ≤ 256 }
{
    if place < text.len() {
        symbol_of(text, place)
    } else {
        END
    }
}

/// How a step from a row begins: by what one enters the pattern's own part, and with which marks before those of the part.
fn entered(
    out: &mut Vec<Option<usize>>,
    starts: Starts,
    row: &[Option<usize>],
) -> Result<Passed, AllocError>
    ensures weight { IfOk result (λ before. before.weight ≡ own_weight starts row.now) }
    ensures at { IfOk result (λ before. drop before.at row.now ≡ own_row starts row.now) }
    ensures out { OnOk result (out.new.items ≡ out.old.items ++ marks_before starts) }
{
    match starts {
        Starts::Every => Ok(Passed {
            weight: Some(0),
            at: 0,
        }),
        Starts::First => {
            out.push(None)?;
            Ok(Passed {
                weight: mark_at(row, 0),
                at: after_mark(row, 0),
            })
        }
    }
}

/// Works out the transition from a state at a place, and puts its entry into the table.
#[cold]
#[inline(never)]
pub(crate) fn learn(
    states: &mut Vec<State>,
    table: &mut Vec<u16>,
    starts: Starts,
    items: &[Node],
    text: &[u8],
    place: usize,
    state: usize,
) -> Result<u16, AllocError>
    requires place { place ≤ length text.now }
    requires state { state < length states.old.items }
    requires start { nat_eq place 0 ≡ nat_eq state 0 }
    requires begun { 2 ≤ length states.old.items }
    requires serves { Serves starts (part_of (sequence_of items.now)) states.old.items table.old.items }
    ensures begun { 2 ≤ length states.new.items }
    ensures serves { Serves starts (part_of (sequence_of items.now)) states.new.items table.new.items }
    ensures value { IfOk result (λ entry. meaning_of states.new.items entry ≡ Some (transition (part_for starts (part_of (sequence_of items.now))) (get_or states.old.items state []) text.now place)) }
    ensures entry { IfOk result (λ entry. IsEntry states.new.items entry) }
{
    let alloc = *table.allocator();
    let state = make_room(states, table, state);
    let mut next = Vec::new(alloc);
    let marks = states[state].marks();
    let before = entered(&mut next, starts, marks)?;
    let passed = step_all(&mut next, Asked::Marks, items, marks, text, place, before)?;
    let entry = entry_for(states, table, passed.weight, next)?;
    let symbol = symbol_at(text, place);
    table[WIDTH * state + symbol] = entry;
    Ok(entry)
}
