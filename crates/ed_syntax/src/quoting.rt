//! Patterns between delimiters.
ghost use Rattle.std.specs.Prelude.{◌≡◌, ◌≢◌, ◌++◌, drop, length, MatchOption, Some, None, IfOk, OnOk};
ghost use Rattle.ed_syntax.specs.spelling.Characters.{backslash};
ghost use Rattle.ed_syntax.specs.spelling.Quoting.{SpellsPattern};
ghost use Rattle.ed_syntax.specs.spelling.Absence.{NoPattern};
ghost use Rattle.ed_syntax.specs.reading.Tokens.{unescaped, quoted, pattern_of, pattern_at};

use crate::Pattern;
use bre_parse::after_bracket;
use bre_parse::fault::BreFault;
use ed_base::Bytes;
use std::alloc::{AllocError, Global};

/// What was read from the front of a line, and the bytes after it. `None` where it can't be read.
pub type Parsed<'a, T> = Result<Option<(T, &'a [u8])>, AllocError>;

/// The pattern after a delimiter, up to the next one, with which the rest begins, or to the line's end. Nothing is the remembered
/// pattern, `None`. Only a lack of memory is an error.
pub(crate) fn pattern_at(alloc: Global, delimiter: u8, bytes: &[u8]) -> Parsed<'_, Option<Pattern>>
    ensures value { IfOk result (λ read. MatchOption read (pattern_at delimiter bytes.now ≡ None)
        (λ (p, rest). pattern_at delimiter bytes.now ≡ Some (p, rest.now))) }
    ensures spelled { IfOk result (λ read. delimiter ≢ backslash → MatchOption read (NoPattern delimiter bytes.now)
        (λ (p, rest). SpellsPattern delimiter bytes.now rest.now p)) }
{
    match quoted(alloc, delimiter, bytes)? {
        Some((text, rest)) => match pattern_of(alloc, text)? {
            Some(pattern) => Ok(Some((pattern, rest))),
            None => Ok(None),
        },
        None => Ok(None),
    }
}

/// The bytes after the closing delimiter, which may be left out at the line's end.
pub fn after_closing(bytes: &[u8]) -> &[u8]
    ensures value { result.now ≡ drop 1 bytes.now }
{
    match bytes {
        [_, rest @ ..] => rest,
        [] => bytes,
    }
}

/// The pattern of a text; an empty one is the remembered pattern.
fn pattern_of(alloc: Global, text: Bytes) -> Result<Option<Option<Pattern>>, AllocError>
    ensures value { IfOk result (λ read. read ≡ pattern_of text) }
{
    if text.is_empty() {
        return Ok(Some(None));
    }
    match Pattern::read(alloc, text) {
        Ok(pattern) => Ok(Some(Some(pattern))),
        Err(BreFault::Memory) => Err(AllocError),
        Err(_) => Ok(None),
    }
}

/// The bytes up to the delimiter or the line's end, as the pattern has them.
pub fn quoted(alloc: Global, delimiter: u8, bytes: &[u8]) -> Parsed<'_, Bytes>
    ensures value { IfOk result (λ read. MatchOption read (quoted (length bytes.now) delimiter bytes.now ≡ None)
        (λ (text, rest). quoted (length bytes.now) delimiter bytes.now ≡ Some (text, rest.now))) }
{
    let mut text = Bytes::new(alloc);
    let mut left = bytes;
    'bytes: while let [byte, rest @ ..] = left {
        if *byte == delimiter {
            return Ok(Some((text, left)));
        }
        left = match *byte {
            b'\\' => match rest {
                [escaped, rest @ ..] => {
                    push_unescaped(&mut text, delimiter, *escaped)?;
                    rest
                }
                [] => return Ok(None),
            },
            b'[' => match after_bracket(alloc, rest)? {
                Some(after) => {
                    text.extend_from_slice(&left[..left.len() - after.len()])?;
                    after
                }
                None => return Ok(None),
            },
            ordinary => {
                text.push(ordinary)?;
                rest
            }
        };
    }
    Ok(Some((text, left)))
}

/// What a backslash and a byte are in a pattern: a delimiter that is nothing special there loses its backslash.
fn push_unescaped(text: &mut Bytes, delimiter: u8, byte: u8) -> Result<(), AllocError>
    ensures appended { OnOk result (text.new ≡ text.old ++ unescaped delimiter byte) }
{
    let is_special = matches!(delimiter, b'$' | b'*' | b'.' | b'[' | b']' | b'^');
    if byte != delimiter || is_special {
        text.push(b'\\')?;
    }
    text.push(byte)
}
