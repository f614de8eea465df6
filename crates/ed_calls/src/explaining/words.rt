//! What is known before a command, and the command, in the words of a person. No clause speaks of them.

use crate::known::{Change, Known};
use crate::stderr::command_line::{between, first_line, front};
use cert_check::Place;
use ed_rules::{LineBounds, LineFacts, Texts};
use ed_syntax::{Span, list_places};
use std::alloc::{AllocError, Global};
use zones::Name;

/// How many patterns are told of a line, or of some line.
const MOST_PATTERNS: usize = 3;

/// Where a script fails over each start, that is told over the longest: more lines than this are no number that anybody gave.
const MANY_LINES: u64 = LineBounds::MOST / 2;

/// The words of a command's line: what is known before the command at a place, and its front.
pub(crate) fn words_of(
    alloc: Global,
    script: &[u8],
    spans: &[Span],
    place: Place,
    known: &Known,
) -> Result<String, AllocError> {
    let mut words = known_text(alloc, known)?;
    words.push_str(" | ")?;
    words.push_str(command_at(alloc, script, spans, place)?.as_str())?;
    Ok(words)
}

/// What is known before a command.
fn known_text(alloc: Global, known: &Known) -> Result<String, AllocError> {
    if !known.lines.in_order() || !known.current.in_order() {
        return String::from_str(alloc, "never reached");
    }
    let mut words = lines_text(alloc, known.lines)?;
    if known.lines.max != Some(0) {
        words.push_str(current_text(alloc, known)?.as_str())?;
        words.push_str(last_text(alloc, known)?.as_str())?;
    }
    words.push_str(match known.change {
        Change::No => "",
        Change::Maybe => ", maybe changed",
        Change::Yes => ", changed",
    })?;
    words.push_str(some_text(alloc, known)?.as_str())?;
    Ok(words)
}

/// What some line matches, after a comma, but for what is told of the current line or the last one.
fn some_text(alloc: Global, known: &Known) -> Result<String, AllocError> {
    let told = told_patterns(
        alloc,
        &known.told,
        &[Name::CURRENT_LINE, Name::LAST_LINE],
        true,
    )?;
    let mut others = Texts::none(alloc);
    for pattern in known.has.members() {
        if !told.has(pattern.as_slice()) {
            others.add(pattern.as_slice())?;
        }
    }
    let mut words = String::new(alloc);
    for pattern in others.members().iter().take(MOST_PATTERNS) {
        words.push_str(", one matches ")?;
        words.push_str(quoted_front(alloc, pattern.as_slice())?.as_str())?;
    }
    words.push_str(more_text(alloc, &others, "and")?.as_str())?;
    Ok(words)
}

/// How many patterns are left out, if some are.
fn more_text(alloc: Global, patterns: &Texts, joint: &str) -> Result<String, AllocError> {
    let more = patterns.members().len().saturating_sub(MOST_PATTERNS);
    if more == 0 {
        return Ok(String::new(alloc));
    }
    Ok(format!(in alloc; " {joint} {more} more")?)
}

/// How many lines there are.
fn lines_text(alloc: Global, lines: LineBounds) -> Result<String, AllocError> {
    let min = lines.min;
    match lines.max {
        Some(0) => String::from_str(alloc, "no lines"),
        Some(1) if min == 1 => String::from_str(alloc, "1 line"),
        Some(max) if max == min => Ok(format!(in alloc; "{min} lines")?),
        Some(max) => Ok(format!(in alloc; "{min} to {max} lines")?),
        None if min == 0 => String::from_str(alloc, "any number of lines"),
        None if min > MANY_LINES => String::from_str(alloc, "many lines"),
        None => Ok(format!(in alloc; "{min} or more lines")?),
    }
}

/// Where the current line is and what it matches, after a comma; nothing where no more is known than that it is one of the lines.
fn current_text(alloc: Global, known: &Known) -> Result<String, AllocError> {
    let mut words = place_text(alloc, known)?;
    let told = if known.is_last {
        told_text(alloc, &known.told, &[Name::CURRENT_LINE, Name::LAST_LINE])?
    } else {
        told_text(alloc, &known.told, &[Name::CURRENT_LINE])?
    };
    if !told.as_str().is_empty() {
        words.push_str(if words.as_str().is_empty() {
            ", at a line that "
        } else {
            ", which "
        })?;
        words.push_str(told.as_str())?;
    }
    Ok(words)
}

/// What the last line matches, after a comma, where it isn't told of as the current one.
fn last_text(alloc: Global, known: &Known) -> Result<String, AllocError> {
    let mut words = String::new(alloc);
    if known.is_last {
        return Ok(words);
    }
    let told = told_text(alloc, &known.told, &[Name::LAST_LINE])?;
    if !told.as_str().is_empty() {
        words.push_str(", the last one ")?;
        words.push_str(told.as_str())?;
    }
    Ok(words)
}

/// What a line of these names matches and what not, as ``matches `A` but not `B` ``; nothing where nothing is known.
fn told_text(alloc: Global, told: &LineFacts, names: &[Name]) -> Result<String, AllocError> {
    let matched = told_patterns(alloc, told, names, true)?;
    let lacked = told_patterns(alloc, told, names, false)?;
    let mut words = String::new(alloc);
    if !matched.members().is_empty() {
        words.push_str("matches ")?;
        words.push_str(joined(alloc, &matched, "and")?.as_str())?;
    }
    if !lacked.members().is_empty() {
        words.push_str(if matched.members().is_empty() {
            "doesn't match "
        } else {
            " but not "
        })?;
        words.push_str(joined(alloc, &lacked, "or")?.as_str())?;
    }
    Ok(words)
}

/// The patterns that a line of these names is known to match, or not to match.
fn told_patterns(
    alloc: Global,
    told: &LineFacts,
    names: &[Name],
    matches: bool,
) -> Result<Texts, AllocError> {
    let mut patterns = Texts::none(alloc);
    for fact in &told.lines {
        if fact.matches == matches && names.contains(&fact.name) {
            patterns.add(fact.pattern.as_slice())?;
        }
    }
    Ok(patterns)
}

/// The first of these patterns with a word before the last one, and how many more there are.
fn joined(alloc: Global, patterns: &Texts, joint: &str) -> Result<String, AllocError> {
    let count = patterns.members().len();
    let mut words = String::new(alloc);
    for (place, pattern) in patterns.members().iter().take(MOST_PATTERNS).enumerate() {
        if place > 0 && place.saturating_add(1) == count {
            words.push_str(format!(in alloc; " {joint} ")?.as_str())?;
        } else if place > 0 {
            words.push_str(", ")?;
        }
        words.push_str(quoted_front(alloc, pattern.as_slice())?.as_str())?;
    }
    words.push_str(more_text(alloc, patterns, joint)?.as_str())?;
    Ok(words)
}

/// A pattern, cut if it is long, between backquotes.
fn quoted_front(alloc: Global, pattern: &[u8]) -> Result<String, AllocError> {
    let shown = front(alloc, pattern)?;
    Ok(format!(in alloc; "`{}`", shown.as_str())?)
}

/// Where the current line is, after a comma.
fn place_text(alloc: Global, known: &Known) -> Result<String, AllocError> {
    let min = known.current.min;
    if known.is_last {
        return String::from_str(alloc, ", at the last one");
    }
    match known.current.max {
        Some(max) if max == min => Ok(format!(in alloc; ", at line {min}")?),
        Some(max) if min > 1 || known.lines.max != Some(max) => {
            Ok(format!(in alloc; ", at line {min} to {max}")?)
        }
        None if min > 1 => Ok(format!(in alloc; ", at line {min} or later")?),
        _ => Ok(String::new(alloc)),
    }
}

/// The command at a place: its front, on the line on which it begins.
fn command_at(
    alloc: Global,
    script: &[u8],
    spans: &[Span],
    place: Place,
) -> Result<String, AllocError> {
    match spans.get(place.command.saturating_sub(1)) {
        Some(span) => match place.inner {
            Some(inner) => listed_at(alloc, between(script, *span), inner),
            None => front(alloc, first_line(script, *span)),
        },
        None => Ok(String::new(alloc)),
    }
}

/// The same of a command in the list of a global command that has these bytes.
fn listed_at(alloc: Global, command: &[u8], inner: usize) -> Result<String, AllocError> {
    let spans = list_places(alloc, command)?;
    match spans.get(inner.saturating_sub(1)) {
        Some(span) => front(alloc, first_line(command, *span)),
        None => Ok(String::new(alloc)),
    }
}
