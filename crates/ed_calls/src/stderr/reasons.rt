//! Why a command can't be read, where it is for a pattern, for what follows an `s`, or for an address.

use crate::stderr::command_line::{first_line, quoted};
use crate::stderr::pattern::wrong_in_pattern;
use bre_parse::fault::BreFault;
use bre_parse::{Bre, after_bracket};
use ed_base::{Bytes, Fault};
use ed_syntax::{Verb, places, read_script};
use std::alloc::{AllocError, Global};

/// How many bytes at the end of a line may be flags that are none.
const MOST_FLAGS: usize = 10;

/// Why the command of this number can't be read, where that is the fault and the reason is known.
pub fn reason_at(
    alloc: Global,
    script: &[u8],
    number: usize,
    fault: Fault,
) -> Result<Option<String>, AllocError> {
    if fault != Fault::Syntax {
        return Ok(None);
    }
    let spans = places(alloc, script)?;
    match spans.get(number.wrapping_sub(1)) {
        Some(span) => reason_of(alloc, first_line(script, *span)),
        None => Ok(None),
    }
}

/// Why a line can't be read.
fn reason_of(alloc: Global, line: &[u8]) -> Result<Option<String>, AllocError> {
    let heading = heading_of(alloc, line)?;
    if let Some(wrong) = heading.wrong {
        return Ok(Some(format!(in alloc; "the pattern {wrong}")?));
    }
    let (addresses, command) = parted(line, heading.letter);
    if !addresses.is_empty() && is_readable(alloc, addresses)? && is_readable(alloc, command)? {
        return Ok(Some(String::from_str(alloc, "the command takes no address")?));
    }
    flag_text(alloc, line)
}

/// The first byte after a whole `s` that is none of its flags.
fn flag_text(alloc: Global, line: &[u8]) -> Result<Option<String>, AllocError> {
    for count in 1..=MOST_FLAGS {
        let Some(len) = line.len().checked_sub(count) else {
            return Ok(None);
        };
        let (front, rest) = parted(line, len);
        if is_whole(alloc, front)? {
            let flag = quoted(alloc, parted(rest, 1).0)?;
            let flag = flag.as_str();
            return Ok(Some(format!(in alloc; "{flag} is no flag there")?));
        }
    }
    Ok(None)
}

/// Whether a line is an `s` with its last delimiter: then a letter that is no flag can't be read after it.
fn is_whole(alloc: Global, line: &[u8]) -> Result<bool, AllocError> {
    let read = read_script(alloc, line)?;
    match (read.fault, read.commands.as_slice()) {
        (None, [only]) if matches!(only.verb, Verb::Substitute { .. }) => {}
        _ => return Ok(false),
    }
    let mut longer = Bytes::from_slice(alloc, line)?;
    longer.push(b'Z')?;
    Ok(!is_readable(alloc, longer.as_slice())?)
}

fn is_readable(alloc: Global, line: &[u8]) -> Result<bool, AllocError> {
    Ok(read_script(alloc, line)?.fault.is_none())
}

/// What stands before a place, and what from there on.
fn parted(bytes: &[u8], place: usize) -> (&[u8], &[u8]) {
    bytes.split_at(place.min(bytes.len()))
}

/// What stands on a line up to the letter of its command, or of the first one in its list.
#[derive(Clone, Copy)]
struct Heading {
    /// The place of the first letter.
    letter: usize,
    /// What is wrong with the first pattern that is none.
    wrong: Option<&'static str>,
}

/// The heading of a line, with the pattern after each letter that has one.
fn heading_of(alloc: Global, line: &[u8]) -> Result<Heading, AllocError> {
    let mut letter = line.len();
    let mut next: usize = 0;
    for (place, byte) in line.iter().enumerate() {
        if place < next {
            continue;
        }
        let after = place.saturating_add(1);
        let delimited = match *byte {
            b' ' | b'\t' | b'.' | b'$' | b',' | b';' | b'+' | b'-' | b'0'..=b'9' => continue,
            b'\'' => {
                next = place.saturating_add(2);
                continue;
            }
            b'/' | b'?' => place,
            _ => {
                letter = letter.min(place);
                after
            }
        };
        if delimited == after && !matches!(*byte, b's' | b'g' | b'v') {
            return Ok(Heading {
                letter,
                wrong: None,
            });
        }
        let (len, wrong) = pattern_at(alloc, parted(line, delimited).1)?;
        if wrong.is_some() || *byte == b's' {
            return Ok(Heading { letter, wrong });
        }
        next = delimited.saturating_add(len);
    }
    Ok(Heading {
        letter,
        wrong: None,
    })
}

/// How many bytes a pattern takes with its delimiters, which these bytes begin with, and what is wrong with it.
fn pattern_at(alloc: Global, bytes: &[u8]) -> Result<(usize, Option<&'static str>), AllocError> {
    let [delimiter, rest @ ..] = bytes else {
        return Ok((0, None));
    };
    if !delimiter.is_ascii_punctuation() || *delimiter == b'\\' {
        return Ok((1, None));
    }
    match pattern_len(alloc, *delimiter, rest)? {
        Some(len) => {
            let wrong = wrong_in(alloc, *delimiter, parted(rest, len).0)?;
            Ok((len.saturating_add(2), wrong))
        }
        None => Ok((bytes.len(), unread(alloc, rest)?)),
    }
}

/// How many bytes stand before a delimiter that isn't escaped and stands in no bracket expression. None where such an expression can't be
/// read.
fn pattern_len(alloc: Global, delimiter: u8, bytes: &[u8]) -> Result<Option<usize>, AllocError> {
    let mut next: usize = 0;
    for (place, byte) in bytes.iter().enumerate() {
        if place < next {
            continue;
        }
        if *byte == delimiter {
            return Ok(Some(place));
        }
        let (_, rest) = parted(bytes, place.saturating_add(1));
        next = match *byte {
            b'\\' => place.saturating_add(2),
            b'[' => match after_bracket(alloc, rest)? {
                Some(after) => bytes.len().saturating_sub(after.len()),
                None => return Ok(None),
            },
            _ => continue,
        };
    }
    Ok(Some(bytes.len()))
}

/// What is wrong with a pattern. One that an `s` can be read with is right, as its delimiters leave it.
fn wrong_in(
    alloc: Global,
    delimiter: u8,
    pattern: &[u8],
) -> Result<Option<&'static str>, AllocError> {
    let mut substitution = Bytes::from_slice(alloc, b"s")?;
    substitution.push(delimiter)?;
    substitution.extend_from_slice(pattern)?;
    substitution.push(delimiter)?;
    substitution.push(delimiter)?;
    if is_readable(alloc, substitution.as_slice())? {
        return Ok(None);
    }
    unread(alloc, pattern)
}

/// Why a pattern can't be read.
fn unread(alloc: Global, pattern: &[u8]) -> Result<Option<&'static str>, AllocError> {
    match Bre::read(alloc, pattern) {
        Err(BreFault::Memory) => Err(AllocError),
        Err(fault) => Ok(Some(wrong_in_pattern(fault))),
        Ok(_) => Ok(None),
    }
}
