//! Patterns as they are written between delimiters.

use bre_parse::after_bracket;
use ed_base::Bytes;
use std::alloc::{AllocError, Global};

/// The bytes that spell a pattern up to a delimiter, without it. `None` where none do.
fn quoting(alloc: Global, delimiter: u8, pattern: &[u8]) -> Result<Option<Bytes>, AllocError> {
    let mut text = Bytes::new(alloc);
    let mut left = pattern;
    'bytes: while let [byte, rest @ ..] = left {
        if *byte == delimiter {
            push_pair(&mut text, delimiter)?;
            left = rest;
            continue;
        }
        left = match *byte {
            b'\\' => match rest {
                [escaped, rest @ ..] => {
                    if *escaped == delimiter {
                        return Ok(None);
                    }
                    push_pair(&mut text, *escaped)?;
                    rest
                }
                [] => return Ok(None),
            },
            b'[' => match after_bracket(alloc, rest)? {
                Some(after) => {
                    text.extend_from_slice(&left[..left.len() - after.len()])?;
                    after
                }
                None => return Ok(None),
            },
            ordinary => {
                text.push(ordinary)?;
                rest
            }
        };
    }
    Ok(Some(text))
}

/// A backslash and a byte.
fn push_pair(text: &mut Bytes, byte: u8) -> Result<(), AllocError> {
    text.push(b'\\')?;
    text.push(byte)
}

/// Puts a pattern between delimiters at the end.
pub fn push_key(alloc: Global, out: &mut Bytes, pattern: &[u8]) -> Result<(), AllocError> {
    if let Some(text) = quoting(alloc, b'/', pattern)? {
        return push_delimited(out, b'/', text.as_slice());
    }
    match quoting(alloc, b'|', pattern)? {
        Some(text) => push_delimited(out, b'|', text.as_slice()),
        None => Ok(()),
    }
}

fn push_delimited(out: &mut Bytes, delimiter: u8, text: &[u8]) -> Result<(), AllocError> {
    out.push(delimiter)?;
    out.extend_from_slice(text)?;
    out.push(delimiter)
}
