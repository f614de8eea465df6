//! Parts of bytes. Clauses speak of few of them: what is made of them is tried.

ghost use Rattle.std.specs.Prelude.{◌≡◌, drop, take};

use ed_base::Bytes;
use std::alloc::{AllocError, Global};

/// The bytes before a place, or all of them.
pub(crate) fn before(bytes: &[u8], place: usize) -> &[u8]
    ensures value { result.now ≡ take place bytes.now }
{
    match bytes.get(..place) {
        Some(front) => front,
        None => bytes,
    }
}

/// The bytes from a place on, or none.
pub(crate) fn from(bytes: &[u8], place: usize) -> &[u8]
    ensures value { result.now ≡ drop place bytes.now }
{
    match bytes.get(place..) {
        Some(rest) => rest,
        None => &[],
    }
}

/// The bytes from a place on and before another one.
pub(crate) fn between(bytes: &[u8], low: usize, high: usize) -> &[u8] {
    from(before(bytes, high), low)
}

/// A blank.
pub(crate) fn is_blank(byte: u8) -> bool {
    byte == b' ' || byte == b'\t'
}

/// The byte in front.
pub(crate) fn first(bytes: &[u8]) -> Option<u8> {
    match bytes {
        [byte, ..] => Some(*byte),
        [] => None,
    }
}

/// Parts one after another.
pub(crate) fn joined(alloc: Global, parts: &[&[u8]]) -> Result<Bytes, AllocError> {
    let mut bytes = Bytes::new(alloc);
    for part in parts {
        bytes.extend_from_slice(part)?;
    }
    Ok(bytes)
}

/// Bytes with these in place of those between two places.
pub(crate) fn replaced(
    alloc: Global,
    bytes: &[u8],
    low: usize,
    high: usize,
    new: &[u8],
) -> Result<Bytes, AllocError> {
    joined(alloc, &[before(bytes, low), new, from(bytes, high)])
}
