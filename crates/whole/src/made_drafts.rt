//! The drafts that a run has made, found by a path or by a file.
ghost use Rattle.std.specs.Prelude.{◌≡◌, option_map};
ghost use Rattle.whole.specs.OneFile.{draft_at};

use crate::beside::Beside;
use crate::plain_files::file_to_read;
use crate::taken::is_taken;
use std::alloc::Global;
use std::io;
use std::io::ErrorKind;
use std::rt::Files;

/// Whether a path leads to a file that has a draft, or to a draft itself. A link that leads to nothing counts as one that does, if some draft
/// is of a file that wasn't there.
pub(crate) fn is_drafted<R: Files>(
    alloc: Global,
    system: &R,
    drafts: &[Beside],
    path: &[u8],
) -> io::Result<bool> {
    if drafts.is_empty() {
        return Ok(false);
    }
    let Ok(path) = str::from_utf8(path) else {
        return Ok(false);
    };
    match file_to_read(alloc, system, path) {
        Ok(Some(file)) => Ok(is_taken(drafts, &file)),
        Ok(None) => Ok(drafts.iter().any(|draft| !draft.file.is_there())),
        Err(error) if error.kind() == ErrorKind::NotFound => Ok(false),
        Err(error) => Err(error),
    }
}

/// The draft of a path, if one was made.
pub(crate) fn find<'a>(drafts: &'a [Beside], path: &[u8]) -> Option<&'a Beside>
    ensures value { option_map (λ draft. draft.now) result ≡ draft_at path.now drafts.now }
{
    'drafts: for draft in drafts {
        if draft.path.as_bytes() == path {
            return Some(draft);
        }
    }
    None
}
