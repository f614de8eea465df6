//! The lines of bytes, and the bytes of lines.
ghost use Rattle.std.specs.Prelude.{◌≡◌, ◌↔◌, ◌<◌, ℕ, List, [], ◌∷◌, ◌++◌, length, IsNone, IfSome, IfOk};
ghost use Rattle.ed_base.specs.Lines.{IsLine, AreLines, HoldsLines, CutsFirst, lines_of, bytes_of, newline};

use crate::newlines::count_newlines;
use crate::{Bytes, Text};
use memchr::memchr;
use std::alloc::{AllocError, Global};

/// The first line and the bytes after its newline; a last line may lack the newline. It takes no memory.
pub fn next_line(bytes: &[u8]) -> Option<(&[u8], &[u8])>
    ensures ended { IsNone result ↔ (bytes.now ≡ []) }
    ensures line { IfSome result (λ (line, rest). IsLine line.now) }
    ensures cut { IfSome result (λ (line, rest). CutsFirst bytes.now line.now rest.now) }
    ensures first { IfSome result (λ (line, rest). lines_of bytes.now ≡ line.now ∷ lines_of rest.now) }
    ensures shorter { IfSome result (λ (line, rest). length rest.now < length bytes.now) }
{
    if bytes.is_empty() {
        return None;
    }
    match memchr(b'\n', bytes) {
        Some(end) => Some((&bytes[..end], &bytes[end + 1..])),
        None => Some((bytes, &[])),
    }
}

/// The lines of a file. The last one may lack its newline; after a last newline there is none.
pub fn split_lines(alloc: Global, bytes: &[u8]) -> Result<Text, AllocError>
    ensures exact { IfOk result (λ lines. lines ≡ lines_of bytes.now) }
{
    Text::of_file(alloc, Bytes::from_slice(alloc, bytes)?)
}

/// The file of these lines, each with a newline after it. It allocates once.
pub fn join_lines(alloc: Global, lines: &Text) -> Result<Bytes, AllocError>
    ensures exact { IfOk result (λ bytes. bytes ≡ bytes_of lines.now) }
    ensures read_back { IfOk result (λ bytes. lines_of bytes ≡ lines.now) }
{
    Bytes::from_slice(alloc, lines.as_bytes())
}

/// How many lines a file has. It takes no memory.
pub fn count_lines(bytes: &[u8]) -> usize
    ensures exact { result ≡ length (lines_of bytes.now) }
{
    match bytes {
        [] => 0,
        // After each newline but a last one stands a line.
        [front @ .., _] => count_newlines(front) + 1,
    }
}

/// Bytes hold the lines that `lines_of` gives, and no others.
pub fn bytes_hold_their_lines()
    ensures held { (bytes : List ℕ) → HoldsLines bytes (lines_of bytes) }
    ensures only { (bytes : List ℕ) (lines : List (List ℕ)) → HoldsLines bytes lines → lines ≡ lines_of bytes }
    ensures lines { (bytes : List ℕ) → AreLines (lines_of bytes) }
{}

/// At a newline the lines of bytes are cut in two: those up to it, which are written as these bytes stand, and those of the bytes after it.
pub fn lines_are_cut_at_newlines()
    ensures cut { (front rest : List ℕ) → lines_of (front ++ newline ∷ rest) ≡ lines_of (front ++ newline ∷ []) ++ lines_of rest }
    ensures written { (front : List ℕ) → bytes_of (lines_of (front ++ newline ∷ [])) ≡ front ++ newline ∷ [] }
{}

/// Lines that are written as a file are read back from it, before whatever follows.
pub fn written_lines_are_read_back()
    ensures alone { (lines : List (List ℕ)) → AreLines lines → lines_of (bytes_of lines) ≡ lines }
    ensures before { (lines : List (List ℕ)) (rest : List ℕ) → AreLines lines →
        lines_of (bytes_of lines ++ rest) ≡ lines ++ lines_of rest }
{}
