//! Bytes of a script as a person reads them.

ghost use Rattle.std.specs.Prelude.{◌≡◌, ◌↔◌, ◌++◌, codes, map, string_bytes, IsSome, IfOk, OnOk};
ghost use Rattle.std.specs.List.{flat_map, list_all};
ghost use Rattle.std.specs.Char.Escape.{escape_ascii};
ghost use Rattle.std.specs.Str.{chars};
ghost use Rattle.hints.specs.Shown.{front_of, joined, quoted_text, shown_characters, shown_text};
ghost use Rattle.hints.specs.Sought.{is_shown, IsTypable};

use crate::bytes::before;
use crate::hidden::is_hidden;
use std::alloc::{AllocError, Global};

/// How many bytes of a script, a pattern or a name are shown at most.
const MOST_SHOWN: usize = 100;

/// Bytes as a line shows them, at most a hundred of them. Those that would end the line, or aren't text, are escaped; a tab isn't.
pub(crate) fn shown(alloc: Global, bytes: &[u8]) -> Result<String, AllocError>
    ensures value { IfOk result (λ word. string_bytes word ≡ shown_text bytes.now) }
{
    let characters = shown_characters(alloc, bytes)?;
    let mut word = String::new(alloc);
    push_front(&mut word, characters.as_slice(), "'", MOST_SHOWN)?;
    Ok(word)
}

/// The characters of a text that a line shows as it is, and else an escape for each byte, of as many bytes as may be shown and one more.
fn shown_characters(alloc: Global, bytes: &[u8]) -> Result<Vec<char>, AllocError>
    ensures value { IfOk result (λ shown. shown.items ≡ shown_characters bytes.now) }
{
    match str::from_utf8(bytes) {
        Ok(text) if are_shown(text) => characters_of(alloc, text),
        _ => escaped(alloc, before(bytes, MOST_SHOWN + 1)),
    }
}

fn characters_of(alloc: Global, text: &str) -> Result<Vec<char>, AllocError>
    ensures value { IfOk result (λ characters. characters.items ≡ chars text.now) }
{
    text.chars().collect(alloc)
}

/// An escape for each of some bytes.
fn escaped(alloc: Global, bytes: &[u8]) -> Result<Vec<char>, AllocError>
    ensures value { IfOk result (λ escapes. escapes.items ≡ flat_map escape_ascii bytes.now) }
{
    let mut escapes = Vec::new(alloc);
    for byte in bytes {
        push_escape(&mut escapes, *byte)?;
    }
    Ok(escapes)
}

fn push_escape(escapes: &mut Vec<char>, byte: u8) -> Result<(), AllocError>
    ensures appended { OnOk result (escapes.new.items ≡ escapes.old.items ++ escape_ascii byte) }
{
    let mut rest = byte.escape_ascii();
    'escape: while let Some(one) = rest.next() {
        escapes.push(char::from(one))?;
    }
    Ok(())
}

/// The same between backquotes.
pub(crate) fn quoted(alloc: Global, bytes: &[u8]) -> Result<String, AllocError>
    ensures value { IfOk result (λ word. string_bytes word ≡ quoted_text bytes.now) }
{
    let word = shown(alloc, bytes)?;
    Ok(format!(in alloc; "`{}`", word.as_str())?)
}

/// Texts one after another, with another one between each two.
pub(crate) fn joined(alloc: Global, between: &str, texts: &[String]) -> Result<String, AllocError>
    ensures value { IfOk result (λ all. string_bytes all ≡ joined between.now (map (λ text. string_bytes text) texts.now)) }
{
    let mut all = String::new(alloc);
    let [first, others @ ..] = texts else {
        return Ok(all);
    };
    all.push_str(first.as_str())?;
    for text in others {
        all.push_str(between)?;
        all.push_str(text.as_str())?;
    }
    Ok(all)
}

/// Bytes as one word of a shell, at most a hundred of them. None where they aren't text, or hold what no line shows: then nobody could type
/// them.
pub(crate) fn shell_word(alloc: Global, bytes: &[u8]) -> Result<Option<String>, AllocError>
    ensures typable { IfOk result (λ word. IsSome word ↔ IsTypable bytes.now) }
{
    match str::from_utf8(bytes) {
        Ok(text) if are_shown(text) => Ok(Some(between_quotes(alloc, text, MOST_SHOWN)?)),
        _ => Ok(None),
    }
}

/// The same with all of the bytes, however many there are.
pub(crate) fn whole_word(alloc: Global, bytes: &[u8]) -> Result<Option<String>, AllocError> {
    match str::from_utf8(bytes) {
        Ok(text) if are_shown(text) => Ok(Some(between_quotes(alloc, text, text.len())?)),
        _ => Ok(None),
    }
}

/// A text between single quotes, as a shell reads it, of which so many bytes are shown at most.
fn between_quotes(alloc: Global, text: &str, most: usize) -> Result<String, AllocError> {
    let characters = characters_of(alloc, text)?;
    let mut word = String::from_str(alloc, "'")?;
    push_front(&mut word, characters.as_slice(), "'\\''", most)?;
    word.push_str("'")?;
    Ok(word)
}

/// Appends characters, of so many bytes at most, and `..` where more come. A single quote is written so.
fn push_front(
    word: &mut String,
    characters: &[char],
    quote: &str,
    most: usize,
) -> Result<(), AllocError>
    ensures front { OnOk result (quote.now ≡ codes "'" → string_bytes word.new ≡ string_bytes word.old ++ front_of most characters.now) }
{
    let mut left = most;
    for character in characters {
        let len = character.len_utf8();
        if len > left {
            word.push_str("..")?;
            return Ok(());
        }
        left = left.saturating_sub(len);
        match *character {
            '\'' => word.push_str(quote)?,
            other => word.push(other)?,
        }
    }
    Ok(())
}

/// Whether a line shows each character of a text.
fn are_shown(text: &str) -> bool
    ensures value { result ≡ list_all is_shown (chars text.now) }
{
    let mut shown = true;
    for character in text.chars() {
        shown = shown && is_shown(character);
    }
    shown
}

/// Whether a line shows a character: it is none that nobody can see, and no control character but the tab.
fn is_shown(character: char) -> bool
    ensures value { result ≡ is_shown character }
{
    !(character.is_control() || is_hidden(character)) || character == '\t'
}
