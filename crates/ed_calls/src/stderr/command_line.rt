//! The line of a script that a command begins on, as a person reads it.

use crate::stderr::shown::{escaped, shown};
use cert_check::Place;
use ed_base::next_line;
use ed_syntax::{Span, list_places, places};
use std::alloc::{AllocError, Global};

/// A line of a script on which a command begins.
#[derive(Drop)]
pub struct CommandLine {
    /// Its number, counted from 1.
    pub number: usize,
    /// The line without its newline, as much of it as is shown, between backquotes. Bytes that would end the line, or aren't text, are
    /// escaped; a tab isn't.
    pub text: String,
}

/// The line that a command begins on; commands count from 1. None where the script has no such command.
pub fn line_of_command(
    alloc: Global,
    script: &[u8],
    number: usize,
) -> Result<Option<CommandLine>, AllocError> {
    let spans = places(alloc, script)?;
    match spans.get(number.wrapping_sub(1)) {
        Some(span) => Ok(Some(CommandLine {
            number: span.line,
            text: quoted(alloc, first_line(script, *span))?,
        })),
        None => Ok(None),
    }
}

/// The line that the command at a place begins on, with the command of a list alone. None where the script has no such command.
pub fn line_at_place(
    alloc: Global,
    script: &[u8],
    place: Place,
) -> Result<Option<CommandLine>, AllocError> {
    let Some(inner) = place.inner else {
        return line_of_command(alloc, script, place.command);
    };
    let spans = places(alloc, script)?;
    let Some(global) = spans.get(place.command.wrapping_sub(1)) else {
        return Ok(None);
    };
    let command = between(script, *global);
    let listed = list_places(alloc, command)?;
    match listed.get(inner.wrapping_sub(1)) {
        Some(span) => Ok(Some(CommandLine {
            number: global.line.saturating_add(span.line.saturating_sub(1)),
            text: quoted(alloc, first_line(command, *span))?,
        })),
        None => Ok(None),
    }
}

/// Where a command of a list begins.
#[derive(Drop)]
pub enum Listed {
    /// On the line of its global command, whose list has no other command.
    Alone,
    /// On the line of its global command, before others.
    First,
    /// On a line after that.
    Later(CommandLine),
}

/// Where the command begins with which so many are left in the list of the global command that has this number among the script's
/// commands, counted from 1. None where there is no such command.
pub fn line_in_list(
    alloc: Global,
    script: &[u8],
    number: usize,
    left: usize,
) -> Result<Option<Listed>, AllocError> {
    let spans = places(alloc, script)?;
    match spans.get(number.wrapping_sub(1)) {
        Some(global) => listed_at(alloc, between(script, *global), global.line, left),
        None => Ok(None),
    }
}

/// Where the command begins with which so many are left in the list of a global command, which has these bytes and begins on this line.
fn listed_at(
    alloc: Global,
    command: &[u8],
    line: usize,
    left: usize,
) -> Result<Option<Listed>, AllocError> {
    let spans = list_places(alloc, command)?;
    match spans.len().checked_sub(left) {
        Some(0) if left == 1 => Ok(Some(Listed::Alone)),
        Some(0) => Ok(Some(Listed::First)),
        Some(before) => match spans.get(before) {
            Some(listed) => {
                let number = line.saturating_add(listed.line.saturating_sub(1));
                let text = quoted(alloc, first_line(command, *listed))?;
                Ok(Some(Listed::Later(CommandLine { number, text })))
            }
            None => Ok(None),
        },
        None => Ok(None),
    }
}

/// The bytes of a span, or all where there are none.
pub fn between(bytes: &[u8], span: Span) -> &[u8] {
    bytes.get(span.low..span.high).unwrap_or(bytes)
}

/// The line on which a span begins, from there on and without its newline.
pub fn first_line(bytes: &[u8], span: Span) -> &[u8] {
    let own = between(bytes, span);
    match next_line(own) {
        Some((line, _rest)) => line,
        None => own,
    }
}

/// The front of a line between backquotes. Bytes that would end it, or aren't text, are escaped.
pub fn quoted(alloc: Global, line: &[u8]) -> Result<String, AllocError> {
    let front = front(alloc, line)?;
    let front = front.as_str();
    Ok(format!(in alloc; "`{front}`")?)
}

/// As much of a line as is shown. Bytes that would end it, or aren't text, are escaped.
pub fn front(alloc: Global, line: &[u8]) -> Result<String, AllocError> {
    match str::from_utf8(line) {
        Ok(text) if !text.chars().any(is_strange) => shown(alloc, text),
        _ => escaped(alloc, line),
    }
}

/// Whether a character is none that a line shows.
fn is_strange(character: char) -> bool {
    character.is_control() && character != '\t'
}
