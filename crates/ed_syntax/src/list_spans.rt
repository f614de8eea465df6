//! Where the commands of a global command's list stand in its bytes.
ghost use Rattle.std.specs.Prelude.{◌≡◌, ◌≤◌, length, MatchOption, Some, None, IfOk};
ghost use Rattle.ed_base.specs.Lines.{lines_of};
ghost use Rattle.ed_syntax.specs.ListStarts.{after_pattern, list_start};
ghost use Rattle.ed_syntax.specs.reading.ReadGlobals.{joined};

use crate::Span;
use crate::addresses::addresses;
use crate::globals::{is_newline, joined, sense_at};
use crate::quoting::{after_closing, pattern_at};
use crate::script_lines::ScriptLines;
use crate::single::command_at;
use crate::spans::after_lines;
use crate::tokens::{after_blanks, is_delimiter};
use ed_base::{Bytes, next_line};
use std::alloc::{AllocError, Global};

/// Where each command of a global command's list stands, in the bytes that `places` tells of the global command: places count from its
/// first byte, lines from its first line, which is 1. The first one begins after the delimiter that closes the pattern; a span ends with
/// the newline after its last line, and the last one with the bytes. There are none where the bytes are another command. No clause says so, as for
/// `places`.
pub fn list_places(alloc: Global, command: &[u8]) -> Result<Vec<Span>, AllocError> {
    let Some((line, later)) = next_line(command) else {
        return Ok(Vec::new(alloc));
    };
    match list_start(alloc, line)? {
        Some(own) => places_of_list(alloc, command, line.len() - own.len(), own, later),
        None => Ok(Vec::new(alloc)),
    }
}

/// What stands on a global command's line after its pattern.
fn list_start(alloc: Global, line: &[u8]) -> Result<Option<&[u8]>, AllocError>
    ensures value { IfOk result (λ read. MatchOption read (list_start line.now ≡ None) (λ rest. list_start line.now ≡ Some rest.now)) }
{
    match addresses(alloc, line)? {
        Some(read) => match sense_at(read.1) {
            Some((_sense, rest)) => after_pattern(alloc, rest),
            None => Ok(None),
        },
        None => Ok(None),
    }
}

/// What stands after a pattern between delimiters.
fn after_pattern(alloc: Global, bytes: &[u8]) -> Result<Option<&[u8]>, AllocError>
    ensures value { IfOk result (λ read. MatchOption read (after_pattern bytes.now ≡ None) (λ rest. after_pattern bytes.now ≡ Some rest.now)) }
{
    match bytes {
        [delimiter, rest @ ..] if is_delimiter(*delimiter) => {
            match pattern_at(alloc, *delimiter, rest)? {
                Some(read) => Ok(Some(after_closing(read.1))),
                None => Ok(None),
            }
        }
        _ => Ok(None),
    }
}

/// Where the commands of the list stand that begins at a place of a global command, with what is left of its line.
fn places_of_list(
    alloc: Global,
    command: &[u8],
    begin: usize,
    own: &[u8],
    later: &[u8],
) -> Result<Vec<Span>, AllocError>
    requires within { begin ≤ length command.now }
{
    let list = list_lines(alloc, own, later)?;
    if is_newline(after_blanks(list.as_slice())) {
        let mut spans = Vec::new(alloc);
        let high = command.len();
        spans.push(Span {
            line: 1,
            low: begin,
            high,
        })?;
        return Ok(spans);
    }
    spans_in_list(alloc, command, begin, list.as_slice())
}

/// The list that begins with what is left of a line, as whole lines.
fn list_lines<'a>(alloc: Global, own: &'a [u8], later: &'a [u8]) -> Result<Bytes, AllocError>
    ensures value { IfOk result (λ list. list ≡ (joined own.now (lines_of later.now)).0) }
{
    let mut lines = ScriptLines::new(later);
    joined(alloc, own, &mut lines)
}

/// Where the commands of these lines of a list stand. The bytes of the global command are passed line by line beside them.
fn spans_in_list(
    alloc: Global,
    command: &[u8],
    begin: usize,
    list: &[u8],
) -> Result<Vec<Span>, AllocError>
    requires within { begin ≤ length command.now }
{
    let mut spans = Vec::new(alloc);
    let mut lines = ScriptLines::new(list);
    let mut left = &command[begin..];
    'commands: while let Some(first) = lines.next() {
        let line = lines.number();
        let low = command.len() - left.len();
        match command_at(alloc, true, first, &mut lines)? {
            // Dropped by a call: dropped in place it would give the proof a case for each kind of command.
            Some(listed) => drop(listed),
            None => return Ok(spans),
        }
        let rest = after_lines(left, lines.number() - line + 1);
        let high = command.len() - rest.len();
        spans.push(Span { line, low, high })?;
        left = rest;
    }
    Ok(spans)
}
