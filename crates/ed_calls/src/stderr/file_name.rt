//! The name of a file, as a person reads it.
ghost use Rattle.std.specs.Prelude.{◌≡◌, codes, nat_eq};
ghost use Rattle.std.specs.List.{ends_with};

use crate::stderr::shown::{escaped, shown};
use ed_base::Bytes;
use hints::is_hidden;
use std::alloc::{AllocError, Global};

/// What the name of a script ends in, by custom.
const SCRIPT: &[u8] = b".ed";

/// The front of a name between double quotes. Bytes that would end the line, aren't text, or can't be seen, are escaped.
pub fn quoted_name(alloc: Global, path: &[u8]) -> Result<String, AllocError> {
    match str::from_utf8(path) {
        Ok(text) if !text.chars().any(|character| is_hidden(character)) => {
            let front = shown(alloc, text)?;
            let front = front.as_str();
            Ok(format!(in alloc; "{front:?}")?)
        }
        _ => {
            let front = escaped(alloc, path)?;
            let front = front.as_str();
            Ok(format!(in alloc; "\"{front}\"")?)
        }
    }
}

/// The name of the file that a run starts with, where it has one.
pub fn start_name(alloc: Global, path: &Option<Bytes>) -> Result<String, AllocError> {
    match path {
        Some(path) => quoted_name(alloc, path.as_slice()),
        None => String::from_str(alloc, "a run without a file"),
    }
}

/// The name as it stands in a command of the shell, after two hyphens where it begins with one.
pub fn shell_word(alloc: Global, path: &[u8]) -> Result<String, AllocError> {
    let word = quoted_word(alloc, path)?;
    if path.starts_with(b"-") {
        let word = word.as_str();
        return Ok(format!(in alloc; "-- {word}")?);
    }
    Ok(word)
}

/// A value as it follows the name of an option in a command of the shell, after an equals sign where it begins with a hyphen.
pub fn shell_option(alloc: Global, value: &[u8]) -> Result<String, AllocError> {
    if value.is_empty() {
        return String::from_str(alloc, " ''");
    }
    let word = quoted_word(alloc, value)?;
    let word = word.as_str();
    let between = if value.starts_with(b"-") { '=' } else { ' ' };
    Ok(format!(in alloc; "{between}{word}")?)
}

/// The front of a name as it stands in a command of the shell where no option may.
pub fn quoted_word(alloc: Global, path: &[u8]) -> Result<String, AllocError> {
    match str::from_utf8(path) {
        Ok(text) if path.iter().all(is_plain) => shown(alloc, text),
        Ok(text) if !text.chars().any(is_strange) => {
            let front = shown(alloc, text)?;
            let front = front.as_str();
            Ok(format!(in alloc; "'{front}'")?)
        }
        _ => quoted_name(alloc, path),
    }
}

/// Whether a file's name is like that of a script.
pub fn is_named_as_script(path: &[u8]) -> bool
    ensures value { result ≡ ends_with nat_eq path.now (codes ".ed") }
{
    path.ends_with(SCRIPT)
}

/// Whether the shell leaves a byte as it is, wherever it stands in a word.
fn is_plain(byte: &u8) -> bool {
    matches!(byte, b'a'..=b'z' | b'A'..=b'Z' | b'0'..=b'9' | b'_' | b'-' | b'.' | b'/' | b',' | b':' | b'+' | b'@')
}

/// Whether a character may not stand between single quotes in one line.
fn is_strange(character: char) -> bool {
    character == '\'' || character.is_control() || is_hidden(character)
}
