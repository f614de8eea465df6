//! The paths that a run has written.
ghost use Rattle.std.specs.Prelude.{◌≡◌, ◌<◌, ◌||◌, vec_len, vec_capacity};
ghost use Rattle.ed_session.specs.Drives.{is_refusal};
ghost use Rattle.whole.specs.Paths.{is_in, more_paths};

use ed_base::Bytes;
use ed_syntax::Answer;

/// Whether a path is one of these.
pub(crate) fn contains(paths: &[Bytes], path: &[u8]) -> bool
    ensures value { result ≡ is_in path.now paths.now }
{
    'paths: for known in paths {
        if known.as_slice() == path {
            return true;
        }
    }
    false
}

/// Adds a path, unless it is there. There is room for it.
pub(crate) fn note(paths: &mut Vec<Bytes>, path: Bytes)
    requires room { vec_len paths.old < vec_capacity paths.old }
    ensures added { paths.new.items ≡ more_paths (is_in path paths.old.items) paths.old.items path }
{
    if !contains(paths.as_slice(), path.as_slice()) {
        paths.push_reserved(path);
    }
}

/// Whether a run was refused that had been refused before, or hadn't, and is answered so.
pub(crate) fn is_refused(before: bool, answer: &Answer) -> bool
    ensures value { result ≡ (before || is_refusal answer.now) }
{
    before || matches!(answer, Answer::Refused)
}
