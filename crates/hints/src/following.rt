//! What the commands after one do with the line that it leaves, and what else they do.

use crate::commands::{command_at, first_line, pair, span_of};
use crate::numbering::Numbering;
use crate::words::quoted;
use ed_syntax::{Address, Addresses, Alteration, Base, Command, Script, Verb};
use std::alloc::{AllocError, Global};

/// Whether an address is counted or searched from the current line.
pub(crate) fn is_from_here(address: Option<&Address>) -> bool {
    match address {
        Some(address) => matches!(
            &address.base,
            Base::Current | Base::Forward(_) | Base::Backward(_)
        ),
        None => false,
    }
}

/// Whether the second address or the target of a command is counted or searched from the current line, and not from its first address.
pub(crate) fn is_also_from_here(command: &Command) -> bool {
    let target = is_from_here(command.verb.takes().target);
    match &command.addresses {
        Addresses::Comma(_, second) => target || is_from_here(Some(second)),
        Addresses::Without | Addresses::One(_) => target,
        Addresses::Semicolon(_, _) => false,
    }
}

/// Whether what a command does depends on the current line.
pub(crate) fn uses_line(command: &Command) -> bool {
    let own = command.verb.takes().default.addresses();
    let addresses = match &command.addresses {
        Addresses::Without => &own,
        given => given,
    };
    is_from_here(pair(addresses).0) || is_also_from_here(command)
}

/// Whether a command sets the current line, or ends the script.
pub(crate) fn sets_line(command: &Command) -> bool {
    let takes = command.verb.takes();
    match takes.lines {
        // One line alone isn't joined.
        Alteration::Joins => !matches!(&command.addresses, Addresses::One(_)),
        Alteration::Never | Alteration::BringsBack => {
            takes.ends.is_some() || matches!(&command.verb, Verb::Null | Verb::Write(_))
        }
        _ => true,
    }
}

/// How many commands after those up to a number come at the lines that the ones before them leave, and may stand in a list.
pub(crate) fn count_of_users(script: &Script, number: usize) -> usize {
    let mut count: usize = 0;
    for (index, command) in script.commands.as_slice().iter().enumerate() {
        if index < number {
            continue;
        }
        // GNU's `ed` skips an empty line in a list.
        let may_be_listed = command.verb.takes().listed && command.verb != Verb::Null;
        if !uses_line(command) || !may_be_listed {
            return count;
        }
        count = count.saturating_add(1);
    }
    count
}

/// The first command after those up to a number that works on the line that they leave, or takes back what they do, with its number. None
/// where others set the line before.
fn user_after(script: &Script, number: usize) -> Option<(usize, &Command)> {
    let mut is_left = true;
    // What `u` would take back, and whether it would bring back that line.
    let mut is_own = true;
    let mut was_left = true;
    for (index, command) in script.commands.as_slice().iter().enumerate() {
        if index < number {
            continue;
        }
        let undoes = matches!(&command.verb, Verb::Undo);
        if is_left && uses_line(command) || is_own && undoes {
            return Some((index.saturating_add(1), command));
        }
        let before = is_left;
        is_left = if undoes {
            was_left
        } else {
            is_left && !sets_line(command)
        };
        if undoes || always_changes(command) {
            is_own = false;
            was_left = before;
        }
    }
    None
}

/// Whether it is this command that a `u` after it takes back.
fn always_changes(command: &Command) -> bool {
    match &command.verb {
        Verb::Append(text) | Verb::Insert(text) => !text.is_empty(),
        Verb::Substitute { replacement, .. } => replacement.is_some(),
        Verb::Move(target) | Verb::Copy(target) => !is_from_here(Some(target)),
        Verb::Change(_) | Verb::Delete | Verb::Global { .. } => true,
        _ => false,
    }
}

/// Whether a command neither changes the buffer nor writes anything but all of it to the file of the start.
fn is_quiet(command: &Command, path: Option<&[u8]>) -> bool {
    match &command.verb {
        Verb::WriteFile(name) => {
            matches!(&command.addresses, Addresses::Without)
                && match name {
                    Some(name) => path == Some(name.as_slice()),
                    None => true,
                }
        }
        Verb::FileName(name) => name.is_none(),
        verb => !verb.takes().alters,
    }
}

/// Whether all commands of a script but so many from a number on are quiet, those of lists too.
fn others_are_quiet(script: &Script, number: usize, count: usize, path: Option<&[u8]>) -> bool {
    let last = number.saturating_add(count);
    for (index, command) in script.commands.as_slice().iter().enumerate() {
        let at = index.saturating_add(1);
        let own = number <= at && at < last;
        if !own && !is_quiet(command, path) {
            return false;
        }
    }
    script.fault.is_none()
}

/// What is to be told of the script where so many commands from a number on become a global command that takes no line.
pub(crate) fn on_text(
    script: &Script,
    number: usize,
    count: usize,
    path: Option<&[u8]>,
) -> &'static str {
    if others_are_quiet(script, number, count, path) {
        ""
    } else {
        ", and the script goes on"
    }
}

/// Which command works on another line, or takes back something else, after a global command in the place of those up to a number; nothing where
/// none does. Its line is told by its number in the script that was given. With `line` it leaves the same line where just one line matches, and with `undo` the same to take back.
pub(crate) fn other_text(
    alloc: Global,
    script: &[u8],
    read: &Script,
    numbering: &Numbering,
    number: usize,
    line: bool,
    undo: bool,
) -> Result<String, AllocError> {
    let Some((user, command)) = user_after(read, number) else {
        return Ok(String::new(alloc));
    };
    let (then, is_left) = match &command.verb {
        Verb::Undo => ("takes back something else", undo),
        _ => ("works on another line", line),
    };
    let when = if is_left { BUT_FOR_ONE } else { "" };
    match span_of(alloc, script, user)? {
        Some(span) => {
            let line = numbering.line(span.line);
            let shown = quoted(alloc, first_line(command_at(script, span)))?;
            Ok(format!(in alloc; "; line {line}, {shown}, then {then}{when}")?)
        }
        None => Ok(String::new(alloc)),
    }
}

/// When that is so after a global command that leaves what the commands did for which it stands.
const BUT_FOR_ONE: &str = " unless just one line matches";
