//! The commands of a script, each with what is known before it.
ghost use Rattle.std.specs.Prelude.{◌≡◌, ◌++◌, ◌≤◌, length, map, take, IfOk, OnOk};
ghost use Rattle.cert_check.specs.Certificates.{note_value};
ghost use Rattle.ed_calls.specs.Explaining.{explained, explained_by, inner_from, last_three, up_to};

use crate::known::Known;
use crate::places::is_before;
use cert_check::{Note, Place};
use ed_rules::KeptState;
use std::alloc::{AllocError, Global};

/// How many commands are explained before one that may fail.
const MOST_BEFORE: usize = 3;

/// A command, and what is known before it.
#[derive(Debug, Drop)]
pub(crate) struct Explained {
    pub(crate) place: Place,
    pub(crate) known: Known,
}

/// The counted commands of a script, those of a list after their global command, each with what its own note says.
pub(crate) fn explain_commands(alloc: Global, notes: &[Note]) -> Result<Vec<Explained>, AllocError>
    ensures noted { IfOk result (λ commands. commands.items ≡ explained (map note_value notes.now)) }
{
    let mut commands = Vec::new(alloc);
    for (index, note) in notes.iter().enumerate() {
        explain_note(&mut commands, index + 1, note)?;
    }
    Ok(commands)
}

/// Adds the command of a note, which has this number, and those of its list.
fn explain_note(commands: &mut Vec<Explained>, number: usize, note: &Note) -> Result<(), AllocError>
    ensures added { OnOk result (commands.new.items ≡ commands.old.items ++ explained_by number (note_value note.now)) }
{
    commands.push(Explained {
        place: Place {
            command: number,
            inner: None,
        },
        known: Known::of(&note.state)?,
    })?;
    match &note.looped {
        Some(looped) => explain_list(commands, number, looped.inner.as_slice()),
        None => Ok(()),
    }
}

/// Adds the commands of the list of a command that has this number.
fn explain_list(
    commands: &mut Vec<Explained>,
    number: usize,
    states: &[KeptState],
) -> Result<(), AllocError>
    ensures added { OnOk result (commands.new.items ≡ commands.old.items ++ inner_from number 0 states.now) }
{
    for (index, state) in states.iter().enumerate() {
        commands.push(Explained {
            place: Place {
                command: number,
                inner: Some(index + 1),
            },
            known: Known::of(state)?,
        })?;
    }
    Ok(())
}

/// The commands before a place, at most the last three of them.
pub(crate) fn last_before(commands: &[Explained], place: Place) -> &[Explained]
    ensures value { result.now ≡ last_three (up_to place commands.now) }
{
    let count = count_before(commands, place);
    &commands[count.saturating_sub(MOST_BEFORE)..count]
}

/// How many commands come before a place.
fn count_before(commands: &[Explained], place: Place) -> usize
    ensures value { take result commands.now ≡ up_to place commands.now }
    ensures within { result ≤ length commands.now }
{
    for (index, command) in commands.iter().enumerate() {
        if !is_before(command.place, place) {
            return index;
        }
    }
    commands.len()
}
