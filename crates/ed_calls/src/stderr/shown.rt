//! As much of a script, a pattern or a name as a line shows, and as much of a line as is shown. What nobody can see is shown by its bytes.

use hints::is_hidden;
use std::alloc::{AllocError, Global};

/// How many bytes of a script, a pattern or a name are shown at most.
const MOST_SHOWN: usize = 100;

/// How many bytes of a line are shown at most.
const MOST_OF_A_LINE: usize = 500;

/// How many bytes a byte takes that is escaped, as `\xef`.
const ESCAPE_LEN: usize = 4;

/// The front of a text, as much of it as is shown, and `..` where more comes. What can't be seen is escaped.
pub fn shown(alloc: Global, text: &str) -> Result<String, AllocError> {
    front(alloc, text, MOST_SHOWN)
}

/// The front of bytes in the same way. Those that would end the line, or aren't text, are escaped.
pub fn escaped(alloc: Global, bytes: &[u8]) -> Result<String, AllocError> {
    let mut front = String::new(alloc);
    for byte in bytes {
        let escape = format!(in alloc; "{}", [*byte].escape_ascii())?;
        if front.len().saturating_add(escape.len()) > MOST_SHOWN {
            front.push_str("..")?;
            return Ok(front);
        }
        front.push_str(escape.as_str())?;
    }
    Ok(front)
}

/// These lines, each cut where it is longer than is shown. What can't be seen is escaped.
pub fn shown_lines(alloc: Global, lines: &str) -> Result<String, AllocError> {
    let mut fronts = String::new(alloc);
    for line in lines.lines() {
        fronts.push_str(front(alloc, line, MOST_OF_A_LINE)?.as_str())?;
        fronts.push_str("\n")?;
    }
    Ok(fronts)
}

/// Whole characters of a text, so many bytes of it at most, and `..` where more come.
fn front(alloc: Global, text: &str, most: usize) -> Result<String, AllocError> {
    let mut front = String::new(alloc);
    for character in text.chars() {
        let len = shown_len(character);
        if front.len().saturating_add(len) > most {
            front.push_str("..")?;
            return Ok(front);
        }
        push_shown(alloc, &mut front, character)?;
    }
    Ok(front)
}

/// How many bytes a character takes in a line.
fn shown_len(character: char) -> usize {
    let len = character.len_utf8();
    if is_hidden(character) {
        len.saturating_mul(ESCAPE_LEN)
    } else {
        len
    }
}

/// Appends a character, or the bytes of one that nobody can see.
fn push_shown(alloc: Global, line: &mut String, character: char) -> Result<(), AllocError> {
    if !is_hidden(character) {
        line.push(character)?;
        return Ok(());
    }
    let mut one = String::new(alloc);
    one.push(character)?;
    let escape = format!(in alloc; "{}", one.as_str().as_bytes().escape_ascii())?;
    line.push_str(escape.as_str())?;
    Ok(())
}
