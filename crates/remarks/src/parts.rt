//! The parts of a pattern's text.

ghost use Rattle.std.specs.Prelude.{◌≡◌, IfOk};
ghost use Rattle.remarks.specs.Parts.{has_high, part_at, parts_of};

use bre_parse::after_bracket;
use std::alloc::{AllocError, Global};

/// A part of a pattern's text.
#[derive(Clone, Copy, Debug, PartialEq, Eq)]
pub enum Part {
    /// A byte after no backslash.
    Plain(u8),
    /// A byte after a backslash.
    Escaped(u8),
    /// A bracket expression, and whether it has a byte above 127.
    Bracket(bool),
}

/// Whether one of the bytes is above 127.
pub fn has_high(bytes: &[u8]) -> bool
    ensures value { result ≡ has_high bytes.now }
{
    for byte in bytes {
        if *byte > 127 {
            return true;
        }
    }
    false
}

/// The part that begins with a byte, before these, and how many of them belong to it.
fn part_at(alloc: Global, byte: u8, rest: &[u8]) -> Result<(Part, usize), AllocError>
    ensures value { IfOk result (λ read. read ≡ part_at byte rest.now) }
{
    match (byte, rest) {
        (b'\\', [escaped, ..]) => Ok((Part::Escaped(*escaped), 1)),
        (b'[', _) => match after_bracket(alloc, rest)? {
            Some(after) => {
                let len = rest.len() - after.len();
                Ok((Part::Bracket(has_high(&rest[..len])), len))
            }
            None => Ok((Part::Plain(byte), 0)),
        },
        _ => Ok((Part::Plain(byte), 0)),
    }
}

/// The parts of a text, in their order.
pub fn parts_of(alloc: Global, text: &[u8]) -> Result<Vec<Part>, AllocError>
    ensures value { IfOk result (λ parts. parts.items ≡ parts_of text.now) }
{
    let mut parts = Vec::new(alloc);
    let mut passed = 0;
    let mut left = text;
    'bytes: while let [byte, rest @ ..] = left {
        if passed > 0 {
            passed -= 1;
        } else {
            let (part, more) = part_at(alloc, *byte, rest)?;
            parts.push(part)?;
            passed = more;
        }
        left = rest;
    }
    Ok(parts)
}
