//! The needs that fail, what is known there and what to write, as a person reads it; and names that no file can have.
ghost use Rattle.hints.specs.Passing.{IsAllowed};

use crate::stderr::command_line::line_at_place;
use crate::stderr::reasons::reason_at;
use crate::stderr::unreadable::push_mark;
use analyser::{Analysis, Start};
use cert_check::Place;
use ed_base::{Bytes, Fault};
use hints::{Failure, Refusal, Rest, Said, ShownCommand, ToldLine, refusals, told};
use std::alloc::{AllocError, Global};

/// Why a script isn't vouched for over this start, and hints, each of which allows the file at hand, where there is one. Where `all` is true,
/// each later place that may fail is told too, as it is with the earlier ones mended. Nothing where it is vouched for.
pub fn hinted(
    alloc: Global,
    script: &[u8],
    start: &Start,
    analysis: &Analysis,
    file: Option<&Bytes>,
    all: bool,
) -> Result<Vec<ToldLine>, AllocError>
    requires allowed { IsAllowed start.now }
{
    let mut lines = Vec::new(alloc);
    match analysis {
        Analysis::Vouched(_) => {}
        Analysis::Cannot { .. } if all => return all_told(alloc, script, start, file),
        Analysis::Cannot { place, why, notes } => {
            let one = told(alloc, script, start, *place, *why, notes.as_slice(), file)?;
            let mut one = with_reason(alloc, script, *place, one)?;
            push_mark(alloc, &mut one, script, place.command)?;
            lines.push(one)?;
        }
    }
    Ok(lines)
}

/// What is told of the command at a place, as one that asks for a file by what isn't UTF-8.
pub fn unusable(
    alloc: Global,
    script: &[u8],
    place: Place,
) -> Result<Option<ToldLine>, AllocError> {
    let Some(line) = line_at_place(alloc, script, place)? else {
        return Ok(None);
    };
    let command = ShownCommand {
        number: Some(place_text(alloc, place)?),
        text: line.text,
    };
    let failure = Failure {
        command: Some(command),
        at_end: false,
        fault: Fault::File,
        reason: Some(String::from_str(alloc, "the name of its file isn't UTF-8")?),
    };
    Ok(Some(ToldLine::of_failure(alloc, line.number, failure)))
}

/// A command by its number, or by that and its number in the command's list.
fn place_text(alloc: Global, place: Place) -> Result<String, AllocError> {
    let number = place.command;
    match place.inner {
        Some(inner) => Ok(format!(in alloc; "{number}.{inner}")?),
        None => Ok(format!(in alloc; "{number}")?),
    }
}

/// A refusal with the reason where the command at its place can't be read.
fn with_reason(
    alloc: Global,
    script: &[u8],
    place: Place,
    told: ToldLine,
) -> Result<ToldLine, AllocError> {
    let ToldLine {
        line,
        failure,
        more,
    } = told;
    let failure = match failure {
        Some(
            Failure {
                command,
                at_end,
                fault,
                reason: None,
            },
        ) => Some(Failure {
            command,
            at_end,
            fault,
            reason: reason_at(alloc, script, place.command, fault)?,
        }),
        failure => failure,
    };
    Ok(ToldLine {
        line,
        failure,
        more,
    })
}

/// All refusals, and what is to be said of the rest of the script.
fn all_told(
    alloc: Global,
    script: &[u8],
    start: &Start,
    file: Option<&Bytes>,
) -> Result<Vec<ToldLine>, AllocError>
    requires allowed { IsAllowed start.now }
{
    let (found, rest) = refusals(alloc, script, start, file)?;
    let mut lines = Vec::new(alloc);
    let mut last: usize = 1;
    for refusal in found.as_slice() {
        let script = refusal.script.as_slice();
        let mut told = with_reason(alloc, script, refusal.place, refusal.told(alloc)?)?;
        push_mark(alloc, &mut told, script, refusal.place.command)?;
        last = told.line;
        lines.push(told)?;
    }
    let text = String::from_str(alloc, rest_text(found.as_slice(), rest))?;
    lines.push(ToldLine::of_said(alloc, last, Said::Note(text))?)?;
    Ok(lines)
}

/// What is to be said of the rest of a script after these refusals.
fn rest_text(found: &[Refusal], rest: Rest) -> &'static str {
    let all_have_hints = found.iter().all(|refusal| !refusal.hints.is_empty());
    match rest {
        Rest::Unmended => "what comes after this command isn't looked at, since no hint mends it",
        Rest::Cut => "there may be more, and ten are shown at most",
        Rest::Vouched if all_have_hints => "with the first hint of each, the script is vouched for",
        Rest::Vouched => {
            "with the first hint of each, or without its command where there is none, the script is vouched for"
        }
    }
}
