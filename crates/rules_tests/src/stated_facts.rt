//! What states know of single lines: at a join, where one covers another, after a command, and of the lines that undo keeps.

ghost use Rattle.std.specs.Prelude.{◌<◌};

use crate::walking::{Start, Unreached, lines, pass_all, state_of};
use ed_base::{Bytes, Letter};
use ed_rules::{ClearStretch, KnownLine, LineFacts, State};
use std::alloc::{AllocError, Global};
use std::test::Fail;
use zones::Name;

/// The current line matches.
fn add_current(facts: &mut LineFacts) -> Result<(), AllocError> {
    let pattern = Bytes::from_slice(*facts.lines.allocator(), b"x")?;
    facts.lines.push(KnownLine {
        name: Name::CURRENT_LINE,
        pattern,
        matches: true,
    })?;
    Ok(())
}

/// A start from two to four lines, of which nothing more is known.
fn plain(alloc: Global) -> Result<State, AllocError> {
    state_of(alloc, lines!(2, Some(4)))
}

/// The same, and the current line matches.
fn knowing(alloc: Global) -> Result<State, AllocError> {
    let mut state = plain(alloc)?;
    add_current(&mut state.facts)?;
    Ok(state)
}

/// How many facts a state has of its lines, and of those that undo would bring back.
fn counted(state: &State) -> (usize, usize) {
    let old = match &state.undo.was {
        Some(old) => old.facts.lines.len(),
        None => 0,
    };
    (state.facts.lines.len(), old)
}

/// How much is left of what two states know, joined and widened.
fn joined(one: &State, other: &State) -> Result<(usize, usize), AllocError> {
    let joined = one.join(other)?;
    let widened = one.widen(other)?;
    Ok((counted(&joined).0, counted(&widened).0))
}

fn both_joined(one: &State, other: &State) -> Result<[(usize, usize); 3], AllocError> {
    Ok([joined(one, one)?, joined(one, other)?, joined(other, one)?])
}

fn knowing_and_plain_joined(alloc: Global) -> Result<[(usize, usize); 3], AllocError> {
    let one = knowing(alloc)?;
    let other = plain(alloc)?;
    both_joined(&one, &other)
}

#[test]
fn a_join_keeps_what_both_states_know(rt: HostRuntime) -> Result<(), Fail> {
    let left = knowing_and_plain_joined(rt.alloc())?;
    assert!(rt; left == [(1, 1), (0, 0), (0, 0)]);
    Ok(())
}

/// Whether the first covers the second, by itself and as it is kept.
fn covers(one: &State, other: &State) -> Result<(bool, bool), AllocError> {
    let kept = one.try_keep()?;
    Ok((one.covers(other), kept.covers(other)))
}

fn knowing_and_plain_cover(alloc: Global) -> Result<[(bool, bool); 3], AllocError> {
    let one = knowing(alloc)?;
    let other = plain(alloc)?;
    Ok([
        covers(&one, &one)?,
        covers(&one, &other)?,
        covers(&other, &one)?,
    ])
}

#[test]
fn a_state_covers_what_knows_no_less(rt: HostRuntime) -> Result<(), Fail> {
    let covers = knowing_and_plain_cover(rt.alloc())?;
    assert!(rt; covers == [(true, true), (false, false), (true, true)]);
    Ok(())
}

/// The place of a mark among the names of a stretch.
fn edge(mark: Name) -> u8
    ensures in_range { result < 33 }
{
    mark.place() as u8
}

fn clear_from(mark: Name, facts: &mut LineFacts) -> Result<(), AllocError> {
    let pattern = Bytes::from_slice(*facts.clear.allocator(), b"x")?;
    facts.clear.push(ClearStretch {
        after: edge(mark),
        before: ClearStretch::END,
        pattern,
    })?;
    Ok(())
}

/// A state that knows that no line after a mark's matches.
fn clear_after(alloc: Global, mark: Name) -> Result<State, AllocError> {
    let mut state = plain(alloc)?;
    clear_from(mark, &mut state.facts)?;
    Ok(state)
}

/// By the second state `b` stands no later than `c`, by the third also `a` no later than `b`, and what follows from the two isn't noted.
fn put_in_order(second: &mut State, third: &mut State) {
    let (a, b, c) = (
        Name::of(Letter::at(0)),
        Name::of(Letter::at(1)),
        Name::of(Letter::at(2)),
    );
    second.zone.put(b, c, Some(0));
    third.zone.put(a, b, Some(0));
    third.zone.put(b, c, Some(0));
}

/// Which covers which; last comes the first once more, without its fact.
fn covers_in_order(
    first: &mut State,
    second: &mut State,
    third: &mut State,
) -> Result<[(bool, bool); 4], AllocError> {
    put_in_order(second, third);
    let by_facts = covers(first, third)?;
    let steps = (covers(first, second)?, covers(second, third)?);
    first.forget_facts();
    Ok([steps.0, steps.1, by_facts, covers(first, third)?])
}

/// Three such states, of `c`, of `b` and of `a`.
fn clear_in_two_steps(alloc: Global) -> Result<[(bool, bool); 4], AllocError> {
    let mut first = clear_after(alloc, Name::of(Letter::at(2)))?;
    let mut second = clear_after(alloc, Name::of(Letter::at(1)))?;
    let mut third = clear_after(alloc, Name::of(Letter::at(0)))?;
    covers_in_order(&mut first, &mut second, &mut third)
}

#[test]
fn a_fact_that_follows_in_two_steps_is_not_covered(rt: HostRuntime) -> Result<(), Fail> {
    let covers = clear_in_two_steps(rt.alloc())?;
    assert!(rt; covers == [(true, true), (true, true), (false, false), (true, true)]);
    Ok(())
}

/// A script, and how many facts are left of the lines and of those that undo would bring back.
#[derive(Drop)]
struct Leaving {
    script: &'static [u8],
    left: (usize, usize),
}

#[rattlefmt::skip]
static LEAVING: [Leaving; 6] = [
    Leaving { script: b"", left: (1, 0) },
    Leaving { script: b"1d\n", left: (0, 1) },
    Leaving { script: b"1ka\n", left: (0, 0) },
    Leaving { script: b"1d\n1d\n", left: (0, 0) },
    // What comes back by undo is known no more.
    Leaving { script: b"1d\nu\n", left: (0, 0) },
    Leaving { script: b"0a\none\n.\n", left: (0, 1) },
];

fn left_by(alloc: Global, script: &[u8]) -> Result<(usize, usize), Unreached> {
    let mut state = knowing(alloc)?;
    pass_all(alloc, script, &mut state)?;
    Ok(counted(&state))
}

fn first_otherwise(alloc: Global, rows: &[Leaving]) -> Result<Option<usize>, Unreached> {
    for (index, row) in rows.iter().enumerate() {
        if left_by(alloc, row.script)? != row.left {
            return Ok(Some(index));
        }
    }
    Ok(None)
}

#[test]
fn a_command_leaves_nothing_known_but_of_what_undo_keeps(rt: HostRuntime) -> Result<(), Fail> {
    assert_eq!(rt; first_otherwise(rt.alloc(), &LEAVING)?, None);
    Ok(())
}
