//! What is told of a script as lines: in the form for a person, and in the one in which tools read them, `NAME:LINE: ` and what is said.

use crate::stderr::shown::shown_lines;
use hints::{Failure, Said, ShownCommand, ToldLine, is_hidden};
use remarks::Remarked;
use std::alloc::{AllocError, Global};

/// The lines for a person.
pub fn person_lines(alloc: Global, told: &ToldLine) -> Result<String, AllocError> {
    let mut lines = String::new(alloc);
    if let Some(failure) = &told.failure {
        lines.push_str(error_text(alloc, told.line, failure)?.as_str())?;
        lines.push_str("\n")?;
    }
    push_said(&mut lines, told.more.as_slice())?;
    shown_lines(alloc, lines.as_str())
}

/// The lines for tools, each after the script's name and the number of the line that they are about. A line that fails says `cannot: `, with
/// the fault before the command.
pub fn tool_lines(alloc: Global, name: &[u8], told: &ToldLine) -> Result<String, AllocError> {
    let mut lines = String::new(alloc);
    if let Some(failure) = &told.failure {
        lines.push_str(cannot_text(alloc, told.line, failure)?.as_str())?;
        lines.push_str("\n")?;
    }
    push_said(&mut lines, told.more.as_slice())?;
    let lines = shown_lines(alloc, lines.as_str())?;
    let name = one_line(alloc, name)?;
    let (name, number) = (name.as_str(), told.line);
    let mut named = String::new(alloc);
    for line in lines.as_str().lines() {
        named.push_str(format!(in alloc; "{name}:{number}: {line}\n")?.as_str())?;
    }
    Ok(named)
}

/// The line for a person of a remark.
pub fn person_remark(alloc: Global, remarked: Remarked) -> Result<String, AllocError> {
    let (line, words) = (remarked.line, remarked.slip.words());
    let text = format!(in alloc; "note: line {line}: {words}")?;
    shown_lines(alloc, text.as_str())
}

/// The line for tools of a remark.
pub fn tool_remark(alloc: Global, name: &[u8], remarked: Remarked) -> Result<String, AllocError> {
    let name = one_line(alloc, name)?;
    let name = name.as_str();
    let (line, words) = (remarked.line, remarked.slip.words());
    Ok(format!(in alloc; "{name}:{line}: note: {words}\n")?)
}

/// A name as it was given, in one line: bytes that would end it, aren't text, or can't be seen, are escaped.
fn one_line(alloc: Global, name: &[u8]) -> Result<String, AllocError> {
    match str::from_utf8(name) {
        Ok(text) if !text.chars().any(is_strange) => String::from_str(alloc, text),
        _ => Ok(format!(in alloc; "{}", name.escape_ascii())?),
    }
}

/// Whether a name is escaped that has this character.
fn is_strange(character: char) -> bool {
    character.is_control() || is_hidden(character)
}

fn error_text(alloc: Global, line: usize, failure: &Failure) -> Result<String, AllocError> {
    let place = if failure.at_end {
        end_text(alloc, line, &failure.command)?
    } else {
        after_line(alloc, "line", line, &failure.command)?
    };
    let reason = reason_text(alloc, &failure.reason)?;
    let (place, fault, reason) = (place.as_str(), failure.fault.text(), reason.as_str());
    Ok(format!(in alloc; "error: {place}: {fault}{reason}")?)
}

fn cannot_text(alloc: Global, line: usize, failure: &Failure) -> Result<String, AllocError> {
    let place = match &failure.command {
        Some(command) if !failure.at_end => command_text(alloc, command)?,
        command => end_text(alloc, line, command)?,
    };
    let reason = reason_text(alloc, &failure.reason)?;
    let (place, fault, reason) = (place.as_str(), failure.fault.text(), reason.as_str());
    Ok(format!(in alloc; "cannot: {fault}: {place}{reason}")?)
}

/// The end of a script with so many lines, after its last command.
fn end_text(
    alloc: Global,
    lines: usize,
    last: &Option<ShownCommand>,
) -> Result<String, AllocError> {
    after_line(alloc, "the script ends after line", lines, last)
}

/// A line after these words, and a command there.
fn after_line(
    alloc: Global,
    words: &str,
    line: usize,
    command: &Option<ShownCommand>,
) -> Result<String, AllocError> {
    let Some(command) = command else {
        return Ok(format!(in alloc; "{words} {line}")?);
    };
    let comma = if command.number.is_some() { "," } else { ":" };
    let command = command_text(alloc, command)?;
    let command = command.as_str();
    Ok(format!(in alloc; "{words} {line}{comma} {command}")?)
}

/// A command by its number, where that is told, and as it is shown.
fn command_text(alloc: Global, command: &ShownCommand) -> Result<String, AllocError> {
    let text = command.text.as_str();
    match &command.number {
        Some(number) => {
            let number = number.as_str();
            Ok(format!(in alloc; "command {number}: {text}")?)
        }
        None => String::from_str(alloc, text),
    }
}

/// A reason after a colon.
fn reason_text(alloc: Global, reason: &Option<String>) -> Result<String, AllocError> {
    match reason {
        Some(reason) => {
            let reason = reason.as_str();
            Ok(format!(in alloc; ": {reason}")?)
        }
        None => Ok(String::new(alloc)),
    }
}

/// Appends a line for each of these.
fn push_said(lines: &mut String, more: &[Said]) -> Result<(), AllocError> {
    for said in more {
        let (word, text) = match said {
            Said::Error(text) => ("error", text),
            Said::Known(text) => ("known", text),
            Said::Hint(text) => ("hint", text),
            Said::Note(text) => ("note", text),
            Said::VouchedFor(text) => ("vouched for", text),
        };
        lines.push_str(word)?;
        lines.push_str(": ")?;
        lines.push_str(text.as_str())?;
        lines.push_str("\n")?;
    }
    Ok(())
}
