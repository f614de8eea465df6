//! Changes that would be lost: writing them first, ending anyway, and a text whose period is missing.

use crate::bytes::{before, between, first, from, is_blank, joined, replaced};
use crate::commands::{command_at, first_line, last_command, span_in, span_of};
use crate::drafts::{Applies, Draft, Spot};
use crate::hint::Advice;
use crate::words::quoted;
use ed_base::{Bytes, count_lines, next_line};
use ed_syntax::{Script, Span, Verb, read_script, text_place};
use std::alloc::{AllocError, Global};

/// Whether a script ends in a text that no period closes.
fn ends_in_text(alloc: Global, script: &[u8], read: &Script) -> Result<bool, AllocError> {
    let Some(command) = last_command(read) else {
        return Ok(false);
    };
    if !command.verb.takes().text {
        return Ok(false);
    }
    match span_of(alloc, script, read.commands.len())? {
        Some(span) => {
            let text = text_place(between(script, span.low, span.high));
            Ok(!text.closed)
        }
        None => Ok(false),
    }
}

/// The script with a newline at its end, and with the period that a text at its end needs.
fn closed(alloc: Global, script: &[u8], in_text: bool) -> Result<Bytes, AllocError> {
    let newline: &[u8] = match script.last() {
        Some(b'\n') | None => b"",
        Some(_) => b"\n",
    };
    let period: &[u8] = if in_text { b".\n" } else { b"" };
    joined(alloc, &[script, newline, period])
}

/// Whether a line was meant to be a period: one with blanks or a carriage return after it.
fn is_meant(line: &[u8]) -> bool {
    match line {
        [b'.', after @ ..] => !after.is_empty()
            && after.iter().all(|byte| is_blank(*byte) || *byte == b'\r'),
        _ => false,
    }
}

/// Whether lines write and end, as no text would.
fn are_last_commands(alloc: Global, lines: &[u8]) -> Result<bool, AllocError> {
    let read = read_script(alloc, lines)?;
    if read.fault.is_some() {
        return Ok(false);
    }
    for command in read.commands.as_slice() {
        match &command.verb {
            Verb::WriteFile(_) | Verb::Quit | Verb::QuitAnyway => {}
            _ => return Ok(false),
        }
    }
    Ok(!read.commands.is_empty())
}

/// Where each of some bytes' lines begins.
fn starts_of_lines(alloc: Global, bytes: &[u8]) -> Result<Vec<usize>, AllocError> {
    let mut starts = Vec::new(alloc);
    let mut left = bytes;
    'lines: while let Some((_line, rest)) = next_line(left) {
        starts.push(bytes.len().saturating_sub(left.len()))?;
        left = rest;
    }
    Ok(starts)
}

/// A period in the place of the first line of a text that was meant to be one.
fn push_meant(spot: &Spot<'_>, drafts: &mut Vec<Draft>, span: Span, starts: &[usize]) -> Applies {
    let (alloc, script) = (spot.alloc, spot.script);
    let text = between(script, span.low, span.high);
    for start in starts {
        let line = first_line(from(text, *start));
        if is_meant(line) {
            let low = span.low.saturating_add(*start);
            let high = low.saturating_add(line.len());
            let mended = replaced(alloc, script, low, high, b".")?;
            let told = no_period(spot, text, low, "alone in")?;
            return spot.push(drafts, Advice::Period, told.as_str(), mended, 0, 1);
        }
    }
    Ok(false)
}

/// A period before the last lines of a text, where these write and end.
fn push_closing(spot: &Spot<'_>, drafts: &mut Vec<Draft>, span: Span, starts: &[usize]) -> Applies {
    let (alloc, script) = (spot.alloc, spot.script);
    let text = between(script, span.low, span.high);
    for start in from_last(starts) {
        if *start > 0 && are_last_commands(alloc, from(text, *start))? {
            let place = span.low.saturating_add(*start);
            let mended = replaced(alloc, script, place, place, b".\n")?;
            let told = no_period(spot, text, place, "before")?;
            return spot.push(drafts, Advice::Period, told.as_str(), mended, 0, 1);
        }
    }
    Ok(false)
}

/// The last three, in their order.
fn from_last(starts: &[usize]) -> &[usize] {
    match starts.get(starts.len().saturating_sub(3)..) {
        Some(last) => last,
        None => starts,
    }
}

/// What is told of the text of a command without its period, which is to stand at or before the line at a place of the script.
fn no_period(
    spot: &Spot<'_>,
    command: &[u8],
    place: usize,
    side: &str,
) -> Result<String, AllocError> {
    let (alloc, script) = (spot.alloc, spot.script);
    let shown = quoted(alloc, first_line(command))?;
    let line = count_lines(before(script, place)).saturating_add(1);
    let line = spot.numbering.line(line);
    let there = quoted(alloc, first_line(from(script, place)))?;
    Ok(format!(in alloc; "the text of {shown} has no `.`: write it {side} line {line}, {there}")?)
}

/// The text at the end, without its period.
pub(crate) fn close_text(spot: &Spot<'_>, drafts: &mut Vec<Draft>) -> Applies {
    let (alloc, script) = (spot.alloc, spot.script);
    if !ends_in_text(alloc, script, spot.read)? {
        return Ok(false);
    }
    let Some(span) = span_in(spot.spans, spot.read.commands.len()) else {
        return Ok(false);
    };
    let starts = starts_of_lines(alloc, between(script, span.low, span.high))?;
    push_meant(spot, drafts, span, starts.as_slice())?;
    push_closing(spot, drafts, span, starts.as_slice())
}

/// A command more at the end of a script, after the period that a text there needs. What is told of it is another thing after a text.
fn push_last(
    spot: &Spot<'_>,
    drafts: &mut Vec<Draft>,
    texts: (&str, &str),
    last: &[u8],
) -> Applies {
    let (alloc, script) = (spot.alloc, spot.script);
    let in_text = ends_in_text(alloc, script, spot.read)?;
    let front = closed(alloc, script, in_text)?;
    let mended = joined(alloc, &[front.as_slice(), last, b"\n"])?;
    let (alone, after_text) = texts;
    if !in_text {
        return spot.push(drafts, Advice::Save, alone, mended, 0, 1);
    }
    let command = match span_in(spot.spans, spot.read.commands.len()) {
        Some(span) => quoted(alloc, first_line(command_at(script, span)))?,
        None => String::new(alloc),
    };
    let text = format!(in alloc; "end the text of {command} by a line `.`, and {after_text}")?;
    spot.push(drafts, Advice::Save, text.as_str(), mended, 0, 1)
}

/// What is told of a draft that writes the changes, and of one that doesn't.
const WRITE: &str = "write first (w)";

const GIVE_UP: &str = "end with Q: the changes are lost";

/// Changes that are left at the end, written there.
pub(crate) fn write_at_end(spot: &Spot<'_>, drafts: &mut Vec<Draft>) -> Applies {
    push_last(spot, drafts, (WRITE, "write (w) after it"), b"w")
}

/// Changes that are left at the end, given up.
pub(crate) fn quit_at_end(spot: &Spot<'_>, drafts: &mut Vec<Draft>) -> Applies {
    push_last(spot, drafts, (GIVE_UP, GIVE_UP), b"Q")
}

/// Changes that a command would lose, written before it.
pub(crate) fn write_first(spot: &Spot<'_>, drafts: &mut Vec<Draft>) -> Applies {
    let low = spot.span.low;
    let mended = replaced(spot.alloc, spot.script, low, low, b"w\n")?;
    spot.push(drafts, Advice::Save, WRITE, mended, 1, 2)
}

/// Changes that a `q` would lose, given up.
pub(crate) fn quit_anyway(spot: &Spot<'_>, drafts: &mut Vec<Draft>) -> Applies {
    if first(spot.command) != Some(b'q') {
        return Ok(false);
    }
    let low = spot.span.low;
    let mended = replaced(spot.alloc, spot.script, low, low.saturating_add(1), b"Q")?;
    spot.push(drafts, Advice::Save, GIVE_UP, mended, 1, 1)
}
