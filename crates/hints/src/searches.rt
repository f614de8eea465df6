//! What may help where a search finds nothing, or a line isn't there.

use crate::bytes::{between, first, from, joined, replaced};
use crate::commands::{command_at, command_of, first_line, span_in};
use crate::drafts::{Applies, Draft, Spot};
use crate::following::{count_of_users, on_text, other_text, sets_line};
use crate::globals::{Reach, global_of, is_at_one_place, push_lines};
use crate::hint::Advice;
use crate::patterns::{Quoted, pattern_at};
use crate::words::quoted;
use ed_base::Bytes;
use ed_syntax::{Command, Verb, after_blanks};
use std::alloc::{AllocError, Global};

/// How many commands go into one list at most.
const MOST_LISTED: usize = 8;

/// A global command that stands for one that fails, with so many after it in its list.
#[derive(Clone, Copy)]
struct Taken<'a> {
    command: &'a Command,
    listed: usize,
    reach: Reach,
}

/// Where the commands from one number to another stand, without the newline after the last.
fn place_of(spot: &Spot<'_>, first: usize, last: usize) -> Option<(usize, usize)> {
    let low = span_in(spot.spans, first)?.low;
    let span = span_in(spot.spans, last)?;
    Some((
        low,
        span.low.saturating_add(command_at(spot.script, span).len()),
    ))
}

/// The bytes of so many commands after the one at the spot.
fn bytes_after<'a>(spot: &Spot<'a>, count: usize) -> Option<&'a [u8]> {
    let number = spot.place.command;
    let (low, high) = place_of(spot, number.saturating_add(1), number.saturating_add(count))?;
    Some(between(spot.script, low, high))
}

/// The global command that stands for these. None where they can't be written so.
fn written(spot: &Spot<'_>, taken: Taken<'_>) -> Result<Option<Bytes>, AllocError> {
    let in_front = taken.listed > 0;
    let Some(mut global) = global_of(spot.alloc, spot.command, taken.reach, in_front)? else {
        return Ok(None);
    };
    if !in_front {
        return Ok(Some(global));
    }
    match bytes_after(spot, taken.listed) {
        Some(lines) if push_lines(&mut global, lines)? => Ok(Some(global)),
        _ => Ok(None),
    }
}

/// What a global command does to the lines that match, and which of them it takes.
fn effect_text(spot: &Spot<'_>, taken: Taken<'_>, on: &str) -> Result<String, AllocError> {
    let does = match &taken.command.verb {
        Verb::WriteFile(_) => "it writes every line that matches, so that the last one stays",
        Verb::Mark(_) => "it marks every line that matches, so that the last one stays marked",
        verb if verb.takes().alters => "it changes every line that matches",
        _ => "it takes every line that matches",
    };
    let which = match (taken.reach, spot.reach) {
        (Reach::On, _) => " from the current line on",
        (Reach::Back, _) => " from the current line back",
        (Reach::All, Some(Reach::All)) => "",
        (Reach::All, _) => ", wherever the search began",
    };
    Ok(format!(in spot.alloc; "{does}{which}, none if none does{on}")?)
}

/// What is told of the lines of a list: of a text, or of the commands that come after.
fn list_text(spot: &Spot<'_>, taken: Taken<'_>, has_lines: bool) -> Result<String, AllocError> {
    let (alloc, count) = (spot.alloc, taken.listed);
    let Some(next) = bytes_after(spot, 1) else {
        return Ok(String::new(alloc));
    };
    let shown = quoted(alloc, first_line(next))?;
    let fault = if has_substitution(spot, count) {
        ", where an `s` that replaces nothing is no fault"
    } else {
        ""
    };
    let ends = "each line but the last ends in a backslash";
    Ok(match (count, has_lines) {
        (0, true) => format!(in alloc;
            "; each line of its text but the last ends in a backslash, and its `.` goes"
        )?,
        (0, false) => String::new(alloc),
        (1, _) => format!(in alloc;
            "; the next command, {shown}, is at the line that this one leaves: put both into one list{fault}; {ends}"
        )?,
        _ => format!(in alloc;
            "; the next {count} commands, from {shown} on, are at the line that this one leaves: put all into one list{fault}; {ends}"
        )?,
    })
}

/// A global command in the place of these, as a draft.
fn push_taken(spot: &Spot<'_>, drafts: &mut Vec<Draft>, taken: Taken<'_>) -> Applies {
    let (alloc, number) = (spot.alloc, spot.place.command);
    let count = taken.listed.saturating_add(1);
    let last = number.saturating_add(taken.listed);
    let (Some(global), Some((low, high))) = (written(spot, taken)?, place_of(spot, number, last))
    else {
        return Ok(false);
    };
    let line = first_line(global.as_slice());
    let shown = quoted(alloc, line)?;
    let effect = effect_text(spot, taken, on_text(spot.read, number, count, spot.path))?;
    let list = list_text(spot, taken, line.len() < global.len())?;
    let is_alone = taken.listed == 0;
    let sets = sets_line(taken.command);
    let undo = is_alone && sets && taken.command.verb.takes().alters;
    let lines = spot.numbering;
    let same_line = !is_alone || sets;
    let other = other_text(alloc, spot.script, spot.read, lines, last, same_line, undo)?;
    let text = format!(in alloc; "{shown} can't fail: {effect}{list}{other}")?;
    let mended = replaced(alloc, spot.script, low, high, global.as_slice())?;
    spot.push(drafts, Advice::Global, text.as_str(), mended, count, 1)
}

/// Whether the command at the spot, or one of so many after it, is an `s`.
fn has_substitution(spot: &Spot<'_>, count: usize) -> bool {
    let low = spot.place.command;
    for (index, command) in spot.read.commands.as_slice().iter().enumerate() {
        let number = index.saturating_add(1);
        let is_one = low <= number && number <= low.saturating_add(count);
        if is_one && matches!(&command.verb, Verb::Substitute { .. }) {
            return true;
        }
    }
    false
}

/// The commands as a global command: with those after them that come at the line that they leave, and with as few as can be. A search
/// alone writes its line, by which nobody is helped without another command.
fn push_reach(spot: &Spot<'_>, drafts: &mut Vec<Draft>, reach: Reach) -> Applies {
    let Some(command) = command_of(spot.read, spot.place) else {
        return Ok(false);
    };
    let users = count_of_users(spot.read, spot.place.command);
    let one = is_at_one_place(command) && sets_line(command);
    let fewest: usize = match &command.verb {
        Verb::Null => 1,
        _ => 0,
    };
    let taken = Taken {
        command,
        listed: fewest,
        reach,
    };
    if one && fewest < users && users <= MOST_LISTED {
        let listed = users;
        push_taken(spot, drafts, Taken { listed, ..taken })?;
    }
    if fewest <= users {
        push_taken(spot, drafts, taken)?;
    }
    Ok(true)
}

/// The command as a global command, where it is known to which lines its search comes.
pub(crate) fn as_global(spot: &Spot<'_>, drafts: &mut Vec<Draft>) -> Applies {
    match spot.reach {
        Some(reach) => push_reach(spot, drafts, reach),
        None => Ok(false),
    }
}

/// The same for all lines, where that isn't known or where they are those on one side of the current one.
pub(crate) fn as_global_of_all(spot: &Spot<'_>, drafts: &mut Vec<Draft>) -> Applies {
    match spot.reach {
        Some(Reach::All) => Ok(false),
        _ => push_reach(spot, drafts, Reach::All),
    }
}

/// The patterns of two searches with a `,` between them, in front of a line.
fn two_searches(alloc: Global, line: &[u8]) -> Result<Option<(Quoted, Quoted)>, AllocError> {
    let place = line.len().saturating_sub(after_blanks(line).len());
    match first(from(line, place)) {
        Some(b'/' | b'?') => {}
        _ => return Ok(None),
    }
    let Some(one) = pattern_at(alloc, line, place)? else {
        return Ok(None);
    };
    let comma = one.high.saturating_add(1);
    match from(line, comma) {
        [b',', b'/' | b'?', ..] => {}
        _ => return Ok(None),
    }
    match pattern_at(alloc, line, comma.saturating_add(1))? {
        Some(other) => Ok(Some((one, other))),
        None => Ok(None),
    }
}

/// A `;` in the place of the `,` between two searches.
pub(crate) fn begin_at_first(spot: &Spot<'_>, drafts: &mut Vec<Draft>) -> Applies {
    let (alloc, low) = (spot.alloc, spot.span.low);
    let line = first_line(spot.command);
    let Some((one, other)) = two_searches(alloc, line)? else {
        return Ok(false);
    };
    let comma = one.high.saturating_add(1);
    let changed = replaced(alloc, line, comma, comma.saturating_add(1), b";")?;
    let begin = one.low.saturating_sub(1);
    let end = other.high.saturating_add(1);
    let shown = quoted(alloc, between(changed.as_slice(), begin, end))?;
    let target = quoted(alloc, between(line, other.low, other.high))?;
    let origin = quoted(alloc, between(line, one.low, one.high))?;
    let text = format!(in alloc;
        "{shown} looks for {target} after {origin}; with `,` both searches begin at the current line"
    )?;
    let high = low.saturating_add(line.len());
    let mended = replaced(alloc, spot.script, low, high, changed.as_slice())?;
    spot.push(drafts, Advice::Semicolon, text.as_str(), mended, 1, 1)
}

/// What `sed` would do by an `s` without addresses.
pub(crate) fn tell_of_all_lines(spot: &Spot<'_>, drafts: &mut Vec<Draft>) -> Applies {
    if first(spot.command) != Some(b's') {
        return Ok(false);
    }
    let all = joined(spot.alloc, &[b",", spot.command])?;
    let Some(global) = global_of(spot.alloc, all.as_slice(), Reach::All, false)? else {
        return Ok(false);
    };
    let shown = quoted(spot.alloc, global.as_slice())?;
    let text = format!(in spot.alloc; "for all lines: {shown}")?;
    spot.remark(drafts, text.as_str())
}

/// A line of blanks alone, which goes on to the next line.
pub(crate) fn leave_out_blank(spot: &Spot<'_>, drafts: &mut Vec<Draft>) -> Applies {
    if !after_blanks(first_line(spot.command)).is_empty() {
        return Ok(false);
    }
    let number = spot.place.command;
    let lines = spot.numbering;
    let other = other_text(
        spot.alloc,
        spot.script,
        spot.read,
        lines,
        number,
        false,
        false,
    )?;
    let text = format!(in spot.alloc;
        "a blank line is a command, which goes on to the next line: leave it out{other}"
    )?;
    spot.push(
        drafts,
        Advice::LeaveOut,
        text.as_str(),
        spot.with(&[])?,
        1,
        0,
    )
}
