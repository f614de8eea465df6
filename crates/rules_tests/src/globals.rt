//! The rules of global commands, called one by one, and what `u` finds after one.

use crate::walking::{Known, Start, Unreached, first_unlike, lines, pass_all, state_of};
use ed_rules::{State, body_entry, loop_end, loop_start, needs};
use ed_syntax::{Command, Script, Verb, read_script};
use std::alloc::Global;
use std::test::Fail;

/// The state before a global command's list is run for any line.
fn begun_by(command: &Command, state: &State) -> Result<State, Unreached> {
    let need = needs(command, state)?;
    match (&command.verb, need) {
        (Verb::Global { .. }, None) => Ok(loop_start(command, state)?),
        _ => Err(Unreached::Need),
    }
}

fn begun_first(script: &Script, state: &State) -> Result<State, Unreached> {
    match script.commands.first() {
        Some(command) => begun_by(command, state),
        None => Err(Unreached::Need),
    }
}

/// The state before the list of a script's first command is run for any line.
pub(crate) fn begun(alloc: Global, script: &[u8], state: &State) -> Result<State, Unreached> {
    let script = read_script(alloc, script)?;
    begun_first(&script, state)
}

/// The state in which the list of a global command is run for a line.
fn entered_by(command: &Command, begun: &State) -> Result<State, Unreached> {
    match &command.verb {
        Verb::Global { .. } => Ok(body_entry(command, begun)?),
        _ => Err(Unreached::Need),
    }
}

fn entered_first(script: &Script, begun: &State) -> Result<State, Unreached> {
    match script.commands.first() {
        Some(command) => entered_by(command, begun),
        None => Err(Unreached::Need),
    }
}

/// The same of the global command that is a script's first.
pub(crate) fn entered(alloc: Global, script: &[u8], begun: &State) -> Result<State, Unreached> {
    let script = read_script(alloc, script)?;
    entered_first(&script, begun)
}

/// The state after a global command.
fn ended_by(command: &Command, before: &State, invariant: &State) -> Result<State, Unreached> {
    match &command.verb {
        Verb::Global { .. } => Ok(loop_end(command, before, invariant)?),
        _ => Err(Unreached::Need),
    }
}

fn ended_first(script: &Script, before: &State, invariant: &State) -> Result<State, Unreached> {
    match script.commands.first() {
        Some(command) => ended_by(command, before, invariant),
        None => Err(Unreached::Need),
    }
}

/// The state after the global command that is a script's first.
pub(crate) fn ended(
    alloc: Global,
    script: &[u8],
    before: &State,
    invariant: &State,
) -> Result<State, Unreached> {
    let script = read_script(alloc, script)?;
    ended_first(&script, before, invariant)
}

/// Whether undo finds the buffer as it is, and an earlier one besides.
fn undo_may_find(state: &State) -> (bool, bool) {
    (
        state.undo.same && !state.undo.nothing,
        state.undo.was.is_some(),
    )
}

/// The state after a global command over a file, if a line less of it is known at every turn.
fn shortened(alloc: Global, before: &State) -> Result<State, Unreached> {
    let mut shorter = before.try_copy()?;
    pass_all(alloc, b"1d\n", &mut shorter)?;
    ended(alloc, b"g/x/d\n", before, &shorter)
}

fn shortened_over(alloc: Global, start: Start) -> Result<State, Unreached> {
    let before = state_of(alloc, start)?;
    shortened(alloc, &before)
}

#[rattlefmt::skip]
static SHORTER: [Known; 1] = [Known { of: b'$', from: b'0', least: Some(2), most: Some(2) }];

#[rattlefmt::skip]
static ANY_OF_BOTH: [Known; 1] = [Known { of: b'$', from: b'0', least: Some(2), most: Some(3) }];

fn undone_otherwise(alloc: Global, state: &mut State) -> Result<Option<&'static str>, Unreached> {
    if first_unlike(state, &SHORTER).is_some() {
        return Ok(Some("the lines after the command"));
    }
    pass_all(alloc, b"u\n", state)?;
    if first_unlike(state, &ANY_OF_BOTH).is_some() {
        return Ok(Some("the lines after undo"));
    }
    if undo_may_find(state) != (true, true) {
        return Ok(Some("what undo finds then"));
    }
    Ok(None)
}

fn shortened_undone_otherwise(alloc: Global) -> Result<Option<&'static str>, Unreached> {
    let mut state = shortened_over(alloc, lines!(3, Some(3)))?;
    undone_otherwise(alloc, &mut state)
}

/// After a global command undo may find the buffer as it is, or the one before: then it may still do so.
#[test]
fn undo_may_leave_the_buffer_and_what_undo_finds(rt: HostRuntime) -> Result<(), Fail> {
    assert_eq!(rt; shortened_undone_otherwise(rt.alloc())?, None);
    Ok(())
}
