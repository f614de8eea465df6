//! The lines of a script or of a list, read one after another.
ghost use Rattle.std.specs.Prelude.{◌≡◌, ◌+◌, ◌≤◌, ℕ, [], ◌∷◌, length, IfOk, IfSome, MatchOption};
ghost use Rattle.ed_base.specs.Lines.{IsLine, lines_of};
ghost use Rattle.ed_syntax.specs.reading.ReadCommands.{text};

use ed_base::{Bytes, Text, next_line};
use std::alloc::{AllocError, Global};
use std::marker::Model;

/// The lines of a script, or of the list of a global command, that are left to read.
#[derive(Drop)]
pub struct ScriptLines<'a> {
    left: &'a [u8],
    // The number of the line that was read last, 0 before the first.
    number: usize,
}

impl<'a> Model for ScriptLines<'a> {
    ghost use Rattle.std.specs.Prelude.{◌+◌, ◌<◌, ◌^◌, length};
    ghost use Rattle.ed_base.specs.Lines.{lines_of};
    ghost use Rattle.ed_syntax.specs.reading.ReadCommands.{LinesLeft};

    ghost Value = { LinesLeft };

    ghost view = { λ l. record { lines = lines_of l.left.now; number = l.number } };

    ghost invariant = { λ l. l.number + length l.left.now < 2 ^ 64 };
}

impl<'a> ScriptLines<'a> {
    pub fn new(bytes: &'a [u8]) -> Self
        ensures lines { result.lines ≡ lines_of bytes.now }
        ensures number { result.number ≡ 0 }
    {
        ScriptLines {
            left: bytes,
            number: 0,
        }
    }

    /// The number of the line that was read last, 0 before the first.
    pub fn number(&self) -> usize
        ensures value { result ≡ self.now.number }
    {
        self.number
    }

    /// The next line.
    pub fn next(&mut self) -> Option<&'a [u8]>
        ensures lines { MatchOption result (self.old.lines ≡ []) (λ line. self.old.lines ≡ line.now ∷ self.new.lines) }
        ensures line { IfSome result (λ line. IsLine line.now) }
        ensures number { MatchOption result (self.new.number ≡ self.old.number) (λ line. self.new.number ≡ self.old.number + 1) }
        ensures over { MatchOption result (self.new.lines ≡ []) (λ line. length self.new.lines ≤ length self.old.lines) }
    {
        let (line, rest) = next_line(self.left)?;
        self.left = rest;
        self.number += 1;
        Some(line)
    }

    /// The lines of a text, up to a line that is `.` or to the end of the script or list. Their bytes are copied all at once.
    pub fn read_text(&mut self, alloc: Global) -> Result<Text, AllocError>
        ensures value { IfOk result (λ entered. text self.old.lines ≡ (entered, self.new.lines)) }
        ensures number { self.new.number + length self.new.lines ≡ self.old.number + length self.old.lines }
        ensures later { length self.new.lines ≤ length self.old.lines }
    {
        let (entered, rest, passed) = cut_text(self.left);
        let entered = Text::of_file(alloc, Bytes::from_slice(alloc, entered)?)?;
        self.left = rest;
        self.number += passed;
        Ok(entered)
    }
}

/// The bytes of the text that begins here, those after the line `.` that ends it, and how many lines were passed, that one too.
pub fn cut_text(bytes: &[u8]) -> (&[u8], &[u8], usize)
    ensures shorter { length result.0.now ≤ length bytes.now }
    ensures value { text (lines_of bytes.now) ≡ (lines_of result.0.now, lines_of result.1.now) }
    ensures number { result.2 + length (lines_of result.1.now) ≡ length (lines_of bytes.now) }
    ensures size { result.2 + length result.1.now ≤ length bytes.now }
{
    let mut left = bytes;
    let mut passed = 0;
    while let Some((line, rest)) = next_line(left) {
        passed += 1;
        if line == b".".as_slice() {
            return (&bytes[..bytes.len() - left.len()], rest, passed);
        }
        left = rest;
    }
    (bytes, &[], passed)
}
