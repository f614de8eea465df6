//! The command that can't be read, as a person reads it: why, and what to write.

use crate::stderr::command_line::line_of_command;
use crate::stderr::reasons::reason_at;
use ed_base::Fault;
use ed_syntax::{Command, read_script};
use hints::{Failure, Respelling, Said, ShownCommand, ToldLine, respellings};
use std::alloc::{AllocError, Global};

/// What some programs put before a text. No command begins so.
const BYTE_ORDER_MARK: &[u8] = b"\xef\xbb\xbf";

/// What is told of the first command that can't be read. None where the script can be read to its end, or to a command that ends the run.
pub fn unread_command(alloc: Global, script: &[u8]) -> Result<Option<ToldLine>, AllocError> {
    let read = read_script(alloc, script)?;
    let commands = read.commands.as_slice();
    if read.fault.is_none() || commands.iter().any(ends_run) {
        return Ok(None);
    }
    let last = read.commands.len().saturating_add(1);
    let Some(line) = line_of_command(alloc, script, last)? else {
        return Ok(None);
    };
    let failure = Failure {
        command: Some(ShownCommand {
            number: Some(format!(in alloc; "{last}")?),
            text: line.text,
        }),
        at_end: false,
        fault: Fault::Syntax,
        reason: reason_at(alloc, script, last, Fault::Syntax)?,
    };
    let mut told = ToldLine::of_failure(alloc, line.number, failure);
    push_words(alloc, &mut told, script, last)?;
    Ok(Some(told))
}

fn ends_run(command: &Command) -> bool {
    command.verb.takes().ends.is_some()
}

/// Whether a line tells of a command that can't be read.
fn is_unread(told: &ToldLine) -> bool {
    match &told.failure {
        Some(failure) => failure.fault == Fault::Syntax,
        None => false,
    }
}

/// Whether what is told of a command is told of the one that can't be read.
pub fn is_told(one: &ToldLine, unread: &ToldLine) -> bool {
    is_unread(one) && one.line == unread.line
}

/// Appends what to write in place of the command of this number, which can't be read.
pub fn push_words(
    alloc: Global,
    told: &mut ToldLine,
    script: &[u8],
    number: usize,
) -> Result<(), AllocError> {
    push_mark(alloc, told, script, number)?;
    for respelling in respellings(alloc, script)? {
        let Respelling { text, .. } = respelling;
        told.more.push(Said::Hint(text))?;
    }
    Ok(())
}

/// Appends that a byte-order mark stands before the command of this number, where it does and the command can't be read.
pub fn push_mark(
    alloc: Global,
    told: &mut ToldLine,
    script: &[u8],
    number: usize,
) -> Result<(), AllocError> {
    if number == 1 && script.starts_with(BYTE_ORDER_MARK) && is_unread(told) {
        told.more.push(Said::Hint(String::from_str(
            alloc,
            "a byte-order mark stands before the first command: leave it out",
        )?))?;
    }
    Ok(())
}
