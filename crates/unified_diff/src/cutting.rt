//! The lines of a file, each with its newline.
ghost use Rattle.std.specs.Prelude.{◌≡◌, ◌∷◌, ◌<◌, length, IfOk, IfNone, IfSome, []};
ghost use Rattle.unified_diff.specs.FullLines.{full_lines, is_ended, content_of};
ghost use Rattle.unified_diff.specs.Edits.{seen};

use ed_base::next_line;
use std::alloc::{AllocError, Global};

/// The lines, each with its newline, without a copy of a byte. The last one may lack it.
pub(crate) fn cut_lines(alloc: Global, bytes: &[u8]) -> Result<Vec<&[u8]>, AllocError>
    ensures value { IfOk result (λ lines. seen lines.items ≡ full_lines bytes.now) }
{
    let mut lines = Vec::new(alloc);
    let mut left = bytes;
    'lines: while let Some((line, rest)) = first_line(left) {
        lines.push(line)?;
        left = rest;
    }
    Ok(lines)
}

/// The first line with its newline, and the bytes after it.
fn first_line(bytes: &[u8]) -> Option<(&[u8], &[u8])>
    ensures ended { IfNone result (bytes.now ≡ []) }
    ensures first { IfSome result (λ (line, rest). full_lines bytes.now ≡ line.now ∷ full_lines rest.now) }
    ensures shorter { IfSome result (λ (line, rest). length rest.now < length bytes.now) }
{
    let (_, rest) = next_line(bytes)?;
    Some((&bytes[..bytes.len() - rest.len()], rest))
}

/// Whether a line has its newline.
pub(crate) fn has_end(line: &[u8]) -> bool
    ensures value { result ≡ is_ended line.now }
{
    match line {
        [.., last] => *last == b'\n',
        [] => false,
    }
}

/// A line without its newline.
pub(crate) fn without_end(line: &[u8]) -> &[u8]
    ensures value { result.now ≡ content_of line.now }
{
    if has_end(line) {
        &line[..line.len() - 1]
    } else {
        line
    }
}
