//! A command written as a global command, which can't fail where no line matches.

use crate::bytes::{before, between, first, from, joined};
use crate::commands::{first_line, pair, without_newline};
use crate::evaluated::Evaluated;
use crate::following::is_also_from_here;
use crate::patterns::{addresses_len, pattern_at};
use ed_base::{Bytes, next_line};
use ed_rules::KeptState;
use ed_syntax::{Addresses, Base, Command, DefaultAddresses, Verb, after_blanks, read_script};
use std::alloc::{AllocError, Global};
use zones::Name;

/// Which lines a global command in the place of a search takes.
#[derive(Clone, Copy)]
pub(crate) enum Reach {
    All,
    /// From the current line on, or back.
    On,
    Back,
}

impl Reach {
    /// The addresses of the global command.
    fn addresses(self) -> &'static [u8] {
        match self {
            Reach::All => b"",
            Reach::On => b".,$",
            Reach::Back => b"1,.",
        }
    }
}

/// Which lines a global command takes in the place of a search that a command begins with, by what is known before it. A search that begins at
/// the last line, or before the second one, comes to all lines one after another. Any other goes round an end of the file, where the lines from
/// the current one on, or back, have an end: it takes those alone where it is known that its line is one of them. None where that isn't known.
pub(crate) fn reach_of(
    alloc: Global,
    command: &Command,
    state: Option<&KeptState>,
) -> Result<Option<Reach>, AllocError> {
    let (Some(address), Some(state)) = (pair(&command.addresses).0, state) else {
        return Ok(Some(Reach::All));
    };
    let reach = match &address.base {
        Base::Forward(_) => Reach::On,
        Base::Backward(_) => Reach::Back,
        _ => return Ok(Some(Reach::All)),
    };
    let zone = state.zone();
    if zone.is_known(Name::LAST_LINE, Name::CURRENT_LINE, 0)
        || zone.is_known(Name::CURRENT_LINE, Name::ZERO, 1)
    {
        return Ok(Some(Reach::All));
    }
    let mut known = Evaluated::before(alloc, state)?;
    known.find(Name::FIRST_ADDRESS, &address.base)?;
    let (low, high) = match reach {
        Reach::Back => (Name::FIRST_ADDRESS, Name::CURRENT_LINE),
        _ => (Name::CURRENT_LINE, Name::FIRST_ADDRESS),
    };
    let lies_there = known.zone.is_known(low, high, 0);
    Ok(if lies_there { Some(reach) } else { None })
}

/// The search that a line begins with, with both of its delimiters, and what stands after it. None where the line begins otherwise, or where
/// its search isn't closed.
fn search_in_front(alloc: Global, line: &[u8]) -> Result<Option<(&[u8], &[u8])>, AllocError> {
    if !matches!(line, [b'/' | b'?', ..]) {
        return Ok(None);
    }
    match pattern_at(alloc, line, 0)? {
        Some(quoted) if quoted.high < line.len() => {
            let after = quoted.high.saturating_add(1);
            Ok(Some((before(line, after), after_blanks(from(line, after)))))
        }
        _ => Ok(None),
    }
}

/// Appends lines as a list has them after its first: each but the last ends in a backslash. False where one of them can't stand there.
pub(crate) fn push_lines(list: &mut Bytes, lines: &[u8]) -> Result<bool, AllocError> {
    let mut left = lines;
    while let Some((line, rest)) = next_line(left) {
        if line.ends_with(b"\\") {
            return Ok(false);
        }
        list.extend_from_slice(b"\\\n")?;
        list.extend_from_slice(line)?;
        left = rest;
    }
    Ok(true)
}

/// The lines of a text without the period that ends it. None where there are none.
fn without_period(lines: &[u8]) -> Option<&[u8]> {
    match lines {
        [front @ .., b'\n', b'.'] => Some(front),
        [b'.'] | [] => None,
        _ => Some(lines),
    }
}

/// What comes before the command of a list that had a search as its first address, so that it works on the line that the global command
/// takes: `.`, where it would take another one without.
fn here(command: &Command, rest: &[u8]) -> &'static [u8] {
    match (first(rest), command.verb.takes().default) {
        (Some(b'+' | b'-' | b'0'..=b'9'), _) => b"",
        (Some(b',' | b';'), _) => b".",
        (_, DefaultAddresses::Current | DefaultAddresses::CurrentTwice) => b"",
        _ => b".",
    }
}

/// A command that begins with a search, as a global command: what was searched for is what each line matches that it is applied to. A search
/// alone writes its line; it is one only in front of other commands.
fn searching(
    alloc: Global,
    bytes: &[u8],
    command: &Command,
    reach: Reach,
    in_front: bool,
) -> Result<Option<Bytes>, AllocError> {
    let line = first_line(bytes);
    let Some((pattern, rest)) = search_in_front(alloc, line)? else {
        return Ok(None);
    };
    let is_alone = rest.is_empty();
    if (is_alone && !in_front) || !command.verb.takes().listed || is_also_from_here(command) {
        return Ok(None);
    }
    let (here, rest): (&[u8], &[u8]) = if is_alone {
        (b"", b"p")
    } else {
        (here(command, rest), rest)
    };
    let mut global = Bytes::from_slice(alloc, reach.addresses())?;
    global.extend_from_slice(b"g")?;
    global.extend_from_slice(pattern)?;
    global.extend_from_slice(here)?;
    global.extend_from_slice(rest)?;
    let lines = from(bytes, line.len().saturating_add(1));
    let listed = match &command.verb {
        Verb::Append(_) | Verb::Change(_) | Verb::Insert(_) if !in_front => {
            match without_period(lines) {
                Some(text) => push_lines(&mut global, text)?,
                None => false,
            }
        }
        _ => push_lines(&mut global, lines)?,
    };
    Ok(if listed { Some(global) } else { None })
}

/// The addresses of a substitution as its global command has them: all lines are those that a `g` takes without addresses.
fn global_addresses(addresses: &[u8]) -> &[u8] {
    let given = addresses.trim_ascii();
    if given.is_empty() {
        b"."
    } else if given == b",".as_slice() || given == b"1,$".as_slice() {
        b""
    } else {
        given
    }
}

/// A substitution as a global command: its pattern is what each line matches that it is applied to, and the remembered one there.
fn substituting(alloc: Global, command: &[u8]) -> Result<Option<Bytes>, AllocError> {
    let len = addresses_len(alloc, command)?;
    let letter = len.saturating_add(1);
    if first(from(command, len)) != Some(b's') || first_line(command).len() < command.len() {
        return Ok(None);
    }
    let Some(quoted) = pattern_at(alloc, command, letter)? else {
        return Ok(None);
    };
    if quoted.high >= command.len() {
        return Ok(None);
    }
    let after = quoted.high.saturating_add(1);
    let pattern = between(command, letter, after);
    let delimiter = [quoted.delimiter];
    let global = joined(
        alloc,
        &[
            global_addresses(before(command, len)),
            b"g",
            pattern,
            b"s",
            &delimiter,
            &delimiter,
            from(command, after),
        ],
    )?;
    Ok(Some(global))
}

/// A command, without the newline after its last line, as a global command that does the same to each line that matches. None where
/// it searches for nothing, or where nobody knows how to write it so. With `in_front` a text keeps its period, so that more can come after.
pub(crate) fn global_of(
    alloc: Global,
    command: &[u8],
    reach: Reach,
    in_front: bool,
) -> Result<Option<Bytes>, AllocError> {
    let bytes = without_newline(after_blanks(command));
    let read = read_script(alloc, bytes)?;
    let [only] = read.commands.as_slice() else {
        return Ok(None);
    };
    if read.fault.is_some() {
        return Ok(None);
    }
    match searching(alloc, bytes, only, reach, in_front)? {
        Some(global) => Ok(Some(global)),
        None => substituting(alloc, bytes),
    }
}

/// Whether a command works on one line, or on those from its first one on, each time that its global command takes one.
pub(crate) fn is_at_one_place(command: &Command) -> bool {
    match (&command.verb, &command.addresses) {
        (_, Addresses::Without | Addresses::One(_)) => true,
        (Verb::Substitute { .. }, _) => false,
        _ => true,
    }
}
