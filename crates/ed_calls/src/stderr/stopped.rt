//! Where a run stopped by a fault of its script, as a person reads it. No clause speaks of that.

use crate::stderr::command_line::{CommandLine, Listed, line_in_list, line_of_command};
use crate::stderr::reasons::reason_at;
use crate::stderr::unreadable::push_words;
use ed_base::{Fault, count_lines};
use hints::{Failure, Said, ShownCommand, ToldLine};
use std::alloc::{AllocError, Global};

/// A command of the list of the global command of this number is at fault: that with which so many are left in the list.
pub fn stopped_in_list(
    alloc: Global,
    script: &[u8],
    number: usize,
    left: usize,
    fault: Fault,
) -> Result<ToldLine, AllocError> {
    let Some(global) = line_of_command(alloc, script, number)? else {
        let text = String::from_str(alloc, fault.text())?;
        return ToldLine::of_said(alloc, 1, Said::Error(text));
    };
    let list = global.text.as_str();
    let (line, text) = match line_in_list(alloc, script, number, left)? {
        Some(Listed::Later(CommandLine { number, text })) => {
            let text = text.as_str();
            (number, format!(in alloc; "{text}: in the list of {list}")?)
        }
        Some(Listed::First) => (
            global.number,
            format!(in alloc; "the first command in the list of {list}")?,
        ),
        _ => (global.number, format!(in alloc; "in the list of {list}")?),
    };
    Ok(ToldLine::of_failure(alloc, line, failure_at(text, fault)))
}

/// The command of this number is at fault, or after the last one the end.
pub fn stopped(
    alloc: Global,
    script: &[u8],
    number: usize,
    fault: Fault,
) -> Result<ToldLine, AllocError> {
    match line_of_command(alloc, script, number)? {
        Some(CommandLine { number: line, text }) => {
            let mut failure = failure_at(text, fault);
            failure.reason = reason_at(alloc, script, number, fault)?;
            let mut told = ToldLine::of_failure(alloc, line, failure);
            if fault == Fault::Syntax {
                push_words(alloc, &mut told, script, number)?;
            }
            Ok(told)
        }
        None => end_stopped(alloc, script, number.saturating_sub(1), fault),
    }
}

/// A fault of a command that is shown so.
fn failure_at(text: String, fault: Fault) -> Failure {
    Failure {
        command: Some(ShownCommand { number: None, text }),
        at_end: false,
        fault,
        reason: None,
    }
}

/// The end is at fault, after the command of this number.
fn end_stopped(
    alloc: Global,
    script: &[u8],
    last: usize,
    fault: Fault,
) -> Result<ToldLine, AllocError> {
    let command = match line_of_command(alloc, script, last)? {
        Some(CommandLine { text, .. }) => Some(ShownCommand { number: None, text }),
        None => None,
    };
    let failure = Failure {
        command,
        at_end: true,
        fault,
        reason: None,
    };
    Ok(ToldLine::of_failure(alloc, count_lines(script), failure))
}
