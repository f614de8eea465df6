//! The way of states through scripts, by the rules alone, and what is known of a state.

use ed_base::{Bytes, Fault, Letter};
use ed_rules::{State, Texts, Watch, outcome_into};
use ed_syntax::{Command, read_script};
use std::alloc::{AllocError, Global};
use zones::Name;

/// What a run starts with: a file F of so many lines.
#[derive(Clone, Copy)]
pub(crate) struct Start {
    pub min: u64,
    pub max: Option<u64>,
}

/// A start from a file of so many lines. Constants call no function, so it is a macro.
macro_rules! lines {
    ($min:expr, $max:expr) => {
        Start {
            min: $min,
            max: $max,
        }
    };
}

pub(crate) use lines;

/// The state at the start.
pub(crate) fn state_of(alloc: Global, start: Start) -> Result<State, AllocError> {
    let path = Some(Bytes::from_slice(alloc, b"F")?);
    State::start(alloc, &path, start.min, start.max, &Texts::none(alloc))
}

/// Takes a state through commands, with `left` for room, up to the first whose needs fail: its number is told, with its fault.
fn pass(
    commands: &[Command],
    state: &mut State,
    left: &mut State,
    watch: &Watch,
) -> Result<Option<(usize, Fault)>, AllocError> {
    for (index, command) in commands.iter().enumerate() {
        if let Some(fault) = outcome_into(command, state, left, watch)? {
            return Ok(Some((index + 1, fault)));
        }
        state.try_copy_from(left)?;
    }
    Ok(None)
}

/// The same with room of its own.
pub(crate) fn walk_commands(
    commands: &[Command],
    state: &mut State,
    watch: &Watch,
) -> Result<Option<(usize, Fault)>, AllocError> {
    let mut left = state.try_copy()?;
    pass(commands, state, &mut left, watch)
}

/// Takes a state through a script, up to the first command whose needs fail.
fn walk(
    alloc: Global,
    script: &[u8],
    state: &mut State,
) -> Result<Option<(usize, Fault)>, AllocError> {
    let script = read_script(alloc, script)?;
    walk_commands(script.commands.as_slice(), state, &Watch::none(alloc))
}

/// Why what is asked for isn't reached.
#[derive(Clone, Copy, Debug, Drop)]
pub(crate) enum Unreached {
    Memory,
    /// A need failed, or there is no start or command of the kind that was wanted.
    Need,
}

impl From<AllocError> for Unreached {
    fn from(_refusal: AllocError) -> Unreached {
        Unreached::Memory
    }
}

/// Takes a state through a script, all of whose needs hold.
pub(crate) fn pass_all(alloc: Global, script: &[u8], state: &mut State) -> Result<(), Unreached> {
    match walk(alloc, script, state)? {
        None => Ok(()),
        Some(_) => Err(Unreached::Need),
    }
}

/// What is known of the difference of two names, which are spelled as in certificates.
#[derive(Drop)]
pub(crate) struct Known {
    pub of: u8,
    pub from: u8,
    pub least: Option<i64>,
    pub most: Option<i64>,
}

/// The name that a byte spells.
pub(crate) fn named(byte: u8) -> Name {
    if let Some(letter) = Letter::new(byte) {
        return Name::of(letter);
    }
    match byte {
        b'.' => Name::CURRENT_LINE,
        b'$' => Name::LAST_LINE,
        _ => Name::ZERO,
    }
}

/// The first of these differences of which a state says something else.
pub(crate) fn first_unlike(state: &State, rows: &[Known]) -> Option<usize> {
    for (index, row) in rows.iter().enumerate() {
        let (of, from) = (named(row.of), named(row.from));
        if state.zone.least(of, from) != row.least || state.zone.bound(of, from) != row.most {
            return Some(index);
        }
    }
    None
}
