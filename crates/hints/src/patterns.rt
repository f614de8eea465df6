//! Where patterns stand in a command's line, also in one that can't be read.

use crate::bytes::{before, first, from};
use bre_parse::after_bracket;
use ed_syntax::{address, addresses_end, after_blanks, pattern_end};
use std::alloc::{AllocError, Global};

/// The bytes of a pattern in a line.
#[derive(Clone, Copy)]
pub(crate) struct Quoted {
    pub delimiter: u8,
    /// The places of its first byte and of its closing delimiter, or of the line's end.
    pub low: usize,
    pub high: usize,
}

/// How many bytes a bracket expression, an escape or an ordinary byte takes in front of a pattern.
fn part_len(alloc: Global, bytes: &[u8]) -> Result<usize, AllocError> {
    match bytes {
        [b'\\', _, ..] => Ok(2),
        [b'[', rest @ ..] => match after_bracket(alloc, rest)? {
            Some(after) => Ok(bytes.len().saturating_sub(after.len())),
            None => Ok(1),
        },
        _ => Ok(1),
    }
}

/// These parts of a pattern, in their order.
pub(crate) fn parts_of(alloc: Global, pattern: &[u8]) -> Result<Vec<&[u8]>, AllocError> {
    let mut parts = Vec::new(alloc);
    let mut left = pattern;
    // Each time one byte is passed, or more.
    for _ in 0..pattern.len() {
        if left.is_empty() {
            return Ok(parts);
        }
        let len = part_len(alloc, left)?;
        parts.push(before(left, len))?;
        left = from(left, len);
    }
    Ok(parts)
}

/// The pattern after the delimiter at a place of a line.
pub(crate) fn pattern_at(
    alloc: Global,
    line: &[u8],
    place: usize,
) -> Result<Option<Quoted>, AllocError> {
    let [delimiter, rest @ ..] = from(line, place) else {
        return Ok(None);
    };
    let low = place.saturating_add(1);
    match pattern_end(alloc, *delimiter, rest)? {
        Some(len) => Ok(Some(Quoted {
            delimiter: *delimiter,
            low,
            high: low.saturating_add(len),
        })),
        None => Ok(None),
    }
}

/// What a line goes on with.
enum Next<'a> {
    /// Part of an address, or what goes with a target, before this.
    Before(&'a [u8]),
    /// The delimiter of a search.
    Search,
    /// A letter with a pattern after it.
    Letter,
    /// What has no pattern after it.
    Other,
}

/// What the rest of a line goes on with.
fn next_part(alloc: Global, left: &[u8]) -> Result<Next<'_>, AllocError> {
    match left {
        [b'/' | b'?', ..] => Ok(Next::Search),
        [b's' | b'g' | b'v', ..] => Ok(Next::Letter),
        [b',' | b';' | b'm' | b't' | b'%', rest @ ..] => Ok(Next::Before(rest)),
        _ => match address(alloc, left)? {
            Some((Some(_), rest)) => Ok(Next::Before(rest)),
            _ => Ok(Next::Other),
        },
    }
}

/// The patterns of a line, in their order: after that of an `s` no other one stands, after that of a `g` or a `v` those of its list.
pub(crate) fn patterns_of(alloc: Global, line: &[u8]) -> Result<Vec<Quoted>, AllocError> {
    let mut patterns = Vec::new(alloc);
    let mut left = line;
    // Each time one byte is passed, or more.
    for _ in 0..line.len() {
        left = after_blanks(left);
        let here = line.len().saturating_sub(left.len());
        let place = match next_part(alloc, left)? {
            Next::Before(rest) => {
                left = rest;
                continue;
            }
            Next::Search => here,
            Next::Letter => here.saturating_add(1),
            Next::Other => return Ok(patterns),
        };
        let Some(quoted) = pattern_at(alloc, line, place)? else {
            return Ok(patterns);
        };
        patterns.push(quoted)?;
        if first(left) == Some(b's') {
            return Ok(patterns);
        }
        left = from(line, quoted.high.saturating_add(1));
    }
    Ok(patterns)
}

/// How many bytes the addresses in front of a line take, with the blanks after them; `%` is all lines in other systems.
pub(crate) fn addresses_len(alloc: Global, line: &[u8]) -> Result<usize, AllocError> {
    if let [b'%', rest @ ..] = after_blanks(line) {
        return Ok(line.len().saturating_sub(after_blanks(rest).len()));
    }
    Ok(addresses_end(alloc, line)?.unwrap_or(0))
}
