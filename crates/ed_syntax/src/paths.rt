//! The path after the letter of a command on files.
ghost use Rattle.std.specs.Prelude.{◌≡◌, IfOk};
ghost use Rattle.ed_syntax.specs.reading.ReadVerbs.{name_of, path_at};

use crate::tokens::after_blanks;
use ed_base::Bytes;
use std::alloc::{AllocError, Global};

/// A path up to the line's end, if one can be read there: none where nothing stands there but blanks.
pub fn path(alloc: Global, bytes: &[u8]) -> Result<Option<Option<Bytes>>, AllocError>
    ensures value { IfOk result (λ read. read ≡ path_at bytes.now) }
{
    match bytes {
        [] => Ok(Some(None)),
        [b' ' | b'\t', rest @ ..] => name_of(alloc, after_blanks(rest)),
        _ => Ok(None),
    }
}

/// A name, which doesn't begin with `!`. Nothing is no name.
fn name_of(alloc: Global, bytes: &[u8]) -> Result<Option<Option<Bytes>>, AllocError>
    ensures value { IfOk result (λ read. read ≡ name_of bytes.now) }
{
    match bytes {
        [] => Ok(Some(None)),
        [b'!', ..] => Ok(None),
        _ => Ok(Some(Some(Bytes::from_slice(alloc, bytes)?))),
    }
}
