//! Counts over the lines of standard input: the lines in which a pattern has a match, or all its matches.

use crate::finder::{Finder, Means};
use crate::pattern;
use memchr::memchr;
use std::alloc::AllocError;
use std::io;
use std::io::Read;

/// What is counted.
#[derive(Clone, Copy)]
pub(crate) enum Counted {
    /// Lines with a match.
    Lines,
    /// The matches of each line, one after the other.
    Matches,
}

/// How many matches a line has, one after the other.
fn matches_in(finder: &mut Finder<'_>, line: &[u8]) -> Result<usize, AllocError> {
    let mut count = 0usize;
    let mut place = 0;
    while place <= line.len() {
        let Some(found) = finder.find(line, place)? else {
            return Ok(count);
        };
        count = count.saturating_add(1);
        // An empty match is counted once, so the next one ends later.
        place = if found.start < found.end {
            found.end
        } else {
            found.end + 1
        };
    }
    Ok(count)
}

/// What one line adds to the count.
fn count_line(finder: &mut Finder<'_>, counted: Counted, line: &[u8]) -> Result<usize, AllocError> {
    match counted {
        Counted::Lines => {
            let is_matched = finder.matches(line)?;
            Ok(if is_matched { 1 } else { 0 })
        }
        Counted::Matches => matches_in(finder, line),
    }
}

/// A last line without its newline is a line.
fn count_in(finder: &mut Finder<'_>, counted: Counted, text: &[u8]) -> Result<usize, AllocError> {
    let mut count = 0usize;
    let mut start = 0;
    while start < text.len() {
        let rest = &text[start..];
        let size = match memchr(b'\n', rest) {
            Some(size) => size,
            None => rest.len(),
        };
        finder.begin();
        let more = count_line(finder, counted, &rest[..size])?;
        count = count.saturating_add(more);
        start += size + 1;
    }
    Ok(count)
}

/// Prints how many there are in the lines of standard input.
pub(crate) fn print_count(
    rt: &(impl Input + Print + AllocGlobal),
    counted: Counted,
    means: Means,
    word: &[u8],
) -> io::Result<()> {
    let Some(pattern) = pattern::read(rt.alloc(), word)? else {
        return println!(rt; "not a pattern");
    };
    let mut text = Vec::new(rt.alloc());
    rt.reader().read_to_end(&mut text)?;
    let mut finder = Finder::new(rt.alloc(), means, &pattern);
    let count = count_in(&mut finder, counted, &text)?;
    println!(rt; "{count}")
}
