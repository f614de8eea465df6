//! The walk over the counted commands, from one state to the next.

ghost use Rattle.std.specs.Prelude.{◌≡◌, true, [], None, Some, IfOk, option_map};
ghost use Rattle.ed_syntax.specs.PublicTypes.{command_value, step_value, steps_value};
ghost use Rattle.ed_syntax.specs.meaning.Verbs.{is_global};
ghost use Rattle.cert_check.specs.Certificates.{looped_value, note_value};
ghost use Rattle.cert_check.specs.checker.Valid.{left_by};
ghost use Rattle.ed_rules.specs.Rules.{step, fault_of};
ghost use Rattle.analyser.specs.Walking.{IsLastRound, looped_of, IsTaken, IsWalk};

use crate::paths::list_taken;
use crate::rounds::{Settled, settle};
use cert_check::{Looped, Note, Place, Sight};
use ed_base::{Bytes, Fault, Texts};
use ed_rules::{KeptState, State, loop_end, needs_are_the_same_whatever_is_watched, outcome_into};
use ed_syntax::Command;
use std::alloc::{AllocError, Global};
use std::mem;

/// What a command comes to: it leaves its result, or its first need that fails.
#[derive(Drop)]
pub(crate) enum End {
    Leaves,
    Stops {
        /// The number of the list's command whose need it is, which counts from 1; with none it is one of the command's own.
        inner: Option<usize>,
        why: Fault,
    },
}

/// What is known of a command.
#[derive(Drop)]
pub(crate) struct Taken {
    /// What is known of its list, where its own needs hold.
    looped: Option<Looped>,
    pub end: End,
}

/// What the counted commands come to: the result of the last one, or the first need that fails.
#[derive(Drop)]
pub(crate) enum Outcome {
    Left(KeptState),
    Fails { place: Place, why: Fault },
}

/// What is known of the counted commands.
#[derive(Drop)]
pub(crate) struct Walk {
    /// What is known before each command, up to the first one with a need that fails.
    pub notes: Vec<Note>,
    /// The paths that may be written, where no need fails.
    pub writes: Vec<Bytes>,
    /// Whether the last command ends the run.
    pub quit: bool,
    pub outcome: Outcome,
}

impl Walk {
    fn of(notes: Vec<Note>, writes: Vec<Bytes>, quit: bool, outcome: Outcome) -> Walk
        ensures value { result ≡ record { notes = notes; writes = writes; quit = quit; outcome = outcome } }
    {
        Walk {
            notes,
            writes,
            quit,
            outcome,
        }
    }
}

/// A place, by the number of a command and that of a command of its list.
pub(crate) fn place_of(command: usize, inner: Option<usize>) -> Place
    ensures value { result ≡ record { command = command; inner = inner } }
{
    Place { command, inner }
}

/// What a global command comes to whose own needs hold, by the last round of its list. From what is known after the last line, `left`
/// becomes the command's result.
fn end_of_list(
    sight: &Sight,
    command: &Command,
    state: &State,
    settled: &Settled,
    left: &mut State,
) -> Result<End, AllocError>
    requires global { is_global (command_value command.now).verb ≡ true }
    requires needed { fault_of (step [] (command_value command.now) state.now) ≡ None }
    requires last { IsLastRound sight.now (step_value command.now) (left_by sight.now (command_value command.now) state.now) left.old settled.now }
    ensures value { IfOk result (λ end. IsTaken sight.now (step_value command.now) state.now (Some (looped_of settled.now)) end left.new) }
{
    match settled.round.failed {
        None => {
            *left = loop_end(command, state, left)?;
            sight.tell(left);
            Ok(End::Leaves)
        }
        Some(why) => Ok(End::Stops {
            inner: Some(settled.round.inner.len()),
            why,
        }),
    }
}

/// What a global command comes to whose own needs hold. From the state before its list is run for any line, `left` becomes the
/// command's result.
fn take_global(
    alloc: Global,
    sight: &Sight,
    command: &Command,
    state: &State,
    left: &mut State,
) -> Result<Taken, AllocError>
    requires global { is_global (command_value command.now).verb ≡ true }
    requires needed { fault_of (step [] (command_value command.now) state.now) ≡ None }
    requires start { left.old ≡ left_by sight.now (command_value command.now) state.now }
    ensures value { IfOk result (λ taken. IsTaken sight.now (step_value command.now) state.now taken.looped taken.end left.new) }
{
    let settled = settle(alloc, sight, command, left)?;
    let end = end_of_list(sight, command, state, &settled, left)?;
    Ok(Taken {
        looped: Some(Looped {
            invariant: settled.invariant,
            inner: settled.round.inner,
        }),
        end,
    })
}

/// What a command comes to. Where no need fails, `left` becomes its result.
pub(crate) fn take(
    alloc: Global,
    sight: &Sight,
    command: &Command,
    state: &State,
    left: &mut State,
) -> Result<Taken, AllocError>
    ensures value { IfOk result (λ taken. IsTaken sight.now (step_value command.now) state.now taken.looped taken.end left.new) }
{
    needs_are_the_same_whatever_is_watched();
    match outcome_into(command, state, left, sight.watch())? {
        None => {
            sight.tell(left);
            if command.verb.takes().global {
                return take_global(alloc, sight, command, state, left);
            }
            Ok(Taken {
                looped: None,
                end: End::Leaves,
            })
        }
        Some(why) => Ok(Taken {
            looped: None,
            end: End::Stops { inner: None, why },
        }),
    }
}

fn note_of(alloc: Global, state: KeptState, looped: Option<Looped>) -> Result<Note, AllocError>
    ensures value { IfOk result (λ note. note_value note ≡
        record { state = state; looped = option_map looped_value looped }) }
{
    match looped {
        None => Ok(Note {
            state,
            looped: None,
        }),
        Some(looped) => Ok(Note {
            state,
            looped: Some(Box::new(alloc, looped)?),
        }),
    }
}

/// Goes through the counted commands, from the state at the start.
pub(crate) fn go_through(
    alloc: Global,
    sight: &Sight,
    commands: &[Command],
    start: State,
) -> Result<Walk, AllocError>
    ensures value { IfOk result (λ walk. IsWalk sight.now (steps_value commands.now) start walk) }
{
    let mut notes = Vec::new(alloc);
    let mut writes = Texts::none(alloc);
    let mut coming = Box::new(alloc, start)?;
    // Room for the result of each command. A state is large, so the boxes are exchanged and not what they hold.
    let mut left = Box::new(alloc, coming.try_copy()?)?;
    for (index, command) in commands.iter().enumerate() {
        let Taken { looped, end } = take(alloc, sight, command, &coming, &mut left)?;
        let known = coming.try_keep()?;
        match end {
            End::Stops { inner, why } => {
                let note = note_of(alloc, known, looped)?;
                notes.push(note)?;
                let place = place_of(index + 1, inner);
                let outcome = Outcome::Fails { place, why };
                return Ok(Walk::of(notes, writes.into_members(), false, outcome));
            }
            End::Leaves => {
                list_taken(&mut writes, command, &known, &looped)?;
                let note = note_of(alloc, known, looped)?;
                notes.push(note)?;
                mem::swap(&mut coming, &mut left);
            }
        }
        if command.verb.takes().ends.is_some() {
            let outcome = Outcome::Left(coming.try_keep()?);
            return Ok(Walk::of(notes, writes.into_members(), true, outcome));
        }
    }
    let outcome = Outcome::Left(coming.try_keep()?);
    Ok(Walk::of(notes, writes.into_members(), false, outcome))
}
