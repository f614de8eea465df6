//! A refusal as a person reads it: what fails and where, what is known there, and what to write. No clause speaks of that.

ghost use Rattle.std.specs.Prelude.{◌≡◌, ◌≤◌, IfSome};
ghost use Rattle.ed_rules.specs.LineBounds.{most_lines, IsAtMost};

use crate::commands::{command_at, line_at, line_of_span, span_of};
use crate::hint::{Hint, Remark};
use crate::known::state_at;
use crate::numbering::Numbering;
use crate::reasons::{Failed, reason};
use crate::refusing::Refusal;
use crate::suiting::{hints, remarks};
use crate::told_line::{Failure, Said, ShownCommand, ToldLine};
use crate::words::quoted;
use analyser::Start;
use cert_check::{Note, Place};
use ed_base::{Bytes, Fault, count_lines};
use ed_rules::KeptState;
use ed_syntax::Span;
use std::alloc::{AllocError, Global};
use zones::{Name, Zone};

/// A command by its number, or by that and its number in the command's list.
fn number_text(alloc: Global, place: Place, numbering: &Numbering) -> Result<String, AllocError> {
    let number = numbering.command(place.command);
    match place.inner {
        Some(inner) => Ok(format!(in alloc; "{number}.{inner}")?),
        None => Ok(format!(in alloc; "{number}")?),
    }
}

/// What fails, where a line of the script has it.
fn command_told(
    failed: &Failed<'_>,
    span: Span,
    numbering: &Numbering,
) -> Result<ToldLine, AllocError> {
    let alloc = failed.alloc;
    let bytes = command_at(failed.script, span);
    let command = ShownCommand {
        number: Some(number_text(alloc, failed.place, numbering)?),
        text: quoted(alloc, bytes)?,
    };
    let failure = Failure {
        command: Some(command),
        at_end: false,
        fault: failed.why,
        reason: reason(failed, bytes)?,
    };
    Ok(ToldLine::of_failure(alloc, span.line, failure))
}

/// The last command of the script, by its line.
fn last_command(
    failed: &Failed<'_>,
    numbering: &Numbering,
) -> Result<Option<ShownCommand>, AllocError> {
    let (alloc, script) = (failed.alloc, failed.script);
    let number = failed.place.command.saturating_sub(1);
    match span_of(alloc, script, number)? {
        Some(span) => {
            let shown = numbering.command(number);
            Ok(Some(ShownCommand {
                number: Some(format!(in alloc; "{shown}")?),
                text: quoted(alloc, command_at(script, line_of_span(script, span)))?,
            }))
        }
        None => Ok(None),
    }
}

/// What fails at the end.
fn end_told(failed: &Failed<'_>, numbering: &Numbering) -> Result<ToldLine, AllocError> {
    let failure = Failure {
        command: last_command(failed, numbering)?,
        at_end: true,
        fault: failed.why,
        reason: reason(failed, b"")?,
    };
    let lines = count_lines(failed.script);
    Ok(ToldLine::of_failure(failed.alloc, lines, failure))
}

fn failure_told(failed: &Failed<'_>, numbering: &Numbering) -> Result<ToldLine, AllocError> {
    match line_at(failed.alloc, failed.script, failed.place)? {
        Some(span) => command_told(failed, span, numbering),
        None => end_told(failed, numbering),
    }
}

/// What is known of a line's number, and the last number that this tells. None where that can't be.
fn bounds_text(
    alloc: Global,
    zone: &Zone,
    name: Name,
) -> Result<Option<(String, i64)>, AllocError> {
    let least = zone.least(name, Name::ZERO).unwrap_or(0).max(0);
    match zone.bound(name, Name::ZERO) {
        Some(most) if most < least => Ok(None),
        Some(most) if most == least => Ok(Some((format!(in alloc; "{least}")?, least))),
        Some(most) => Ok(Some((
            format!(in alloc; "at least {least} and at most {most}")?,
            most,
        ))),
        None => Ok(Some((format!(in alloc; "at least {least}")?, least))),
    }
}

/// What is known of the last line and the current one. Where no number of lines is left, no file comes there.
fn known_text(alloc: Global, state: &KeptState) -> Result<String, AllocError> {
    let zone = state.zone();
    match (
        bounds_text(alloc, &zone, Name::LAST_LINE)?,
        bounds_text(alloc, &zone, Name::CURRENT_LINE)?,
    ) {
        (Some((last, count)), Some((current, _))) => {
            let lines = if count == 1 { "line" } else { "lines" };
            Ok(format!(in alloc; "{last} {lines}, the current line {current}")?)
        }
        _ => String::from_str(alloc, NOTHING),
    }
}

/// What is known where no file comes.
const NOTHING: &str = "nothing can come here";

/// Tells after the rest what to write.
fn push_hint(alloc: Global, told: &mut ToldLine, text: &str) -> Result<(), AllocError> {
    told.more.push(Said::Hint(String::from_str(alloc, text)?))?;
    Ok(())
}

/// What is told of a refusal.
fn told_of(
    failed: &Failed<'_>,
    hints: &[Hint],
    remarks: &[Remark],
    numbering: &Numbering,
) -> Result<ToldLine, AllocError> {
    let alloc = failed.alloc;
    let mut told = failure_told(failed, numbering)?;
    told.line = numbering.line(told.line);
    if let Some(state) = failed.state {
        told.more.push(Said::Known(known_text(alloc, state)?))?;
    }
    for hint in hints {
        push_hint(alloc, &mut told, hint.text())?;
    }
    for remark in remarks {
        push_hint(alloc, &mut told, remark.text())?;
    }
    Ok(told)
}

/// What a person is told of a need that fails: where, why, what is known there, and its hints and remarks. Where a file is at hand that the start
/// allows, none of the hints asks for what it lacks.
pub fn told(
    alloc: Global,
    script: &[u8],
    start: &Start,
    place: Place,
    why: Fault,
    notes: &[Note],
    file: Option<&Bytes>,
) -> Result<ToldLine, AllocError>
    requires ordered { IsAtMost start.now.min start.now.max }
    requires low { start.now.min ≤ most_lines }
    requires high { IfSome start.now.max (λ most. most ≤ most_lines) }
{
    let hints = hints(alloc, script, start, place, why, notes, file)?;
    let remarks = remarks(alloc, script, place, why)?;
    let failed = Failed {
        alloc,
        script,
        place,
        why,
        state: state_at(place, notes),
    };
    told_of(
        &failed,
        hints.as_slice(),
        remarks.as_slice(),
        &Numbering::same(),
    )
}

impl Refusal {
    /// What a person is told of this refusal.
    pub fn told(&self, alloc: Global) -> Result<ToldLine, AllocError> {
        let failed = Failed {
            alloc,
            script: self.script.as_slice(),
            place: self.place,
            why: self.why,
            state: state_at(self.place, self.notes.as_slice()),
        };
        told_of(
            &failed,
            self.hints.as_slice(),
            self.remarks.as_slice(),
            &self.numbering,
        )
    }
}
