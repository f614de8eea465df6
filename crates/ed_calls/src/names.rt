//! Names by which no file can be asked for, since they aren't UTF-8.
ghost use Rattle.std.specs.Prelude.{◌≡◌, Some, false, map};
ghost use Rattle.std.specs.List.{list_any};
ghost use Rattle.ed_syntax.specs.PublicScript.{script_value};
ghost use Rattle.ed_syntax.specs.PublicTypes.{verb_value, command_value, step_value};
ghost use Rattle.ed_calls.specs.Names as meaning;

use crate::places::is_before;
use analyser::{Analysis, Start};
use cert_check::Place;
use ed_base::Bytes;
use ed_syntax::{Command, Script, Verb};

/// Whether a name is none that a file can have.
fn is_unusable(path: &Bytes) -> bool
    ensures value { result ≡ meaning.is_unusable (Some path.now) }
{
    str::from_utf8(path.as_slice()).is_err()
}

/// The same of a name that may be given.
fn is_named_so(path: &Option<Bytes>) -> bool
    ensures value { result ≡ meaning.is_unusable path.now }
{
    match path {
        Some(path) => is_unusable(path),
        None => false,
    }
}

/// Whether the remembered name is such a one after a command, where it is known whether it was before.
fn remembered_after(before: bool, verb: &Verb) -> bool
    ensures value { result ≡ meaning.remembered_after before (verb_value verb.now) }
{
    match verb {
        Verb::FileName(Some(path)) => is_unusable(path),
        Verb::Edit(Some(_)) | Verb::EditAnyway(Some(_)) => false,
        _ => before,
    }
}

/// Whether a command of a list gives such a name.
fn list_renames(list: &[Command]) -> bool
    ensures value { result ≡ list_any (λ c. meaning.remembered_after false c.verb) (map command_value list.now) }
{
    for command in list {
        if remembered_after(false, &command.verb) {
            return true;
        }
    }
    false
}

/// Whether a command asks for a file by such a name: by its own, or else by the remembered one, where that is such a one.
fn asks_unusable(remembered: bool, verb: &Verb) -> bool
    ensures value { result ≡ meaning.asks_unusable remembered (verb_value verb.now) }
{
    let takes = verb.takes();
    if !takes.asks {
        return false;
    }
    match takes.path {
        Some(path) => is_unusable(path),
        None => remembered,
    }
}

/// The place of the first command of a list that does, in the list of the global command of this number.
fn first_in_list(number: usize, remembered: bool, list: &[Command]) -> Option<Place>
    ensures value { result ≡ meaning.first_in_list number 1 remembered (map command_value list.now) }
{
    for (index, command) in list.iter().enumerate() {
        if asks_unusable(remembered, &command.verb) {
            return Some(Place {
                command: number,
                inner: Some(index + 1),
            });
        }
    }
    None
}

/// The place of the first that does of a command of this number and those of its list.
fn first_of_step(number: usize, remembered: bool, command: &Command) -> Option<Place>
    ensures value { result ≡ meaning.first_of_step number remembered (step_value command.now) }
{
    if asks_unusable(remembered, &command.verb) {
        return Some(Place {
            command: number,
            inner: None,
        });
    }
    let list = command.list();
    first_in_list(number, remembered || list_renames(list), list)
}

/// Whether the remembered name may be such a one after a command with its list.
fn remembered_past(before: bool, command: &Command) -> bool
    ensures value { result ≡ meaning.remembered_past before (step_value command.now) }
{
    remembered_after(before, &command.verb) || list_renames(command.list())
}

/// The place of the first counted command that asks for a file by such a name, in a run that starts with the file at this path.
fn first_asked(path: &Option<Bytes>, script: &Script) -> Option<Place>
    ensures value { result ≡ meaning.first_asked path.now (script_value script.now) }
{
    let mut number: usize = 1;
    let mut remembered = is_named_so(path);
    for command in script.commands.as_slice() {
        let found = first_of_step(number, remembered, command);
        if found.is_some() || command.verb.takes().ends.is_some() {
            return found;
        }
        remembered = remembered_past(remembered, command);
        number += 1;
    }
    None
}

/// The place at which a run over this start asks for a file by a name that none can have, if it comes there before the first need that fails.
pub fn first_unusable(script: &Script, start: &Start, answer: &Analysis) -> Option<Place>
    ensures value { result ≡ meaning.first_unusable (script_value script.now) start.now answer.now }
{
    let place = first_asked(&start.path, script)?;
    match answer {
        Analysis::Vouched(_) => Some(place),
        Analysis::Cannot { place: need, .. } => {
            if is_before(place, *need) {
                Some(place)
            } else {
                None
            }
        }
    }
}
