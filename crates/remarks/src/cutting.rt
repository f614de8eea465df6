//! GNU's `x`, where it isn't the one of `ex` that writes and quits.

use ed_base::next_line;
use ed_syntax::addresses_end;
use std::alloc::{AllocError, Global};

/// Whether `x` and maybe a suffix stand here, and no more.
fn is_cut(bytes: &[u8]) -> bool {
    matches!(bytes.trim_ascii_end(), [b'x'] | [b'x', b'l' | b'n' | b'p'])
}

/// Whether the bytes begin with an `x` that has addresses, or that more lines follow.
pub fn begins_with_cut(alloc: Global, bytes: &[u8]) -> Result<bool, AllocError> {
    let Some((line, later)) = next_line(bytes) else {
        return Ok(false);
    };
    let Some(end) = addresses_end(alloc, line)? else {
        return Ok(false);
    };
    let (front, rest) = line.split_at(end);
    Ok(is_cut(rest) && !(front.trim_ascii().is_empty() && later.is_empty()))
}
