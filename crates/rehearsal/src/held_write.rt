//! A write that a rehearsal held back, as it is told afterwards.
ghost use Rattle.std.specs.Prelude.{◌≡◌, length, IfNone, IfSome};
ghost use Rattle.ed_base.specs.Lines.{lines_of};
ghost use Rattle.ed_session.specs.MemFiles.{file_at, files_of};

use ed_base::{Bytes, count_lines};
use ed_session::MemFiles;

/// A write that would have been made.
#[derive(Drop)]
pub struct HeldWrite {
    pub path: Bytes,
    /// How many lines the file would have; a last one may lack its newline.
    pub lines: usize,
    /// How many bytes it would have.
    pub bytes: usize,
}

/// How many lines the file at a path has, or 0 where there is none.
pub(crate) fn lines_at(files: &MemFiles, path: &[u8]) -> usize
    ensures value { IfSome (file_at path.now (files_of files.now)) (λ bytes. result ≡ length (lines_of bytes)) }
    ensures none { IfNone (file_at path.now (files_of files.now)) (result ≡ 0) }
{
    match files.file(path) {
        Some(bytes) => count_lines(bytes),
        None => 0,
    }
}
