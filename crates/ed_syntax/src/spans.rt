//! Where the commands of a script stand in its bytes.
ghost use Rattle.std.specs.Prelude.{◌≤◌, length};

use crate::reading::read_step;
use crate::script_lines::ScriptLines;
use ed_base::next_line;
use std::alloc::{AllocError, Global};

/// The bytes of a command in a script, with its text, its list and the newline after its last line.
#[derive(Clone, Copy, Debug, PartialEq, Eq)]
pub struct Span {
    /// The number of the line on which it begins, counted from 1.
    pub line: usize,
    /// The place of its first byte, counted from 0.
    pub low: usize,
    /// The place after its last byte.
    pub high: usize,
}

/// Where each command of a script stands. Where a command can't be read, the last span is its own, which goes on to the end. No clause says
/// so, since nothing that is promised rests on places: they are for messages, and tested.
pub fn places(alloc: Global, script: &[u8]) -> Result<Vec<Span>, AllocError> {
    let mut spans = Vec::new(alloc);
    let mut lines = ScriptLines::new(script);
    let mut left = script;
    'commands: while let Some(first) = lines.next() {
        let line = lines.number();
        let low = script.len() - left.len();
        match read_step(alloc, first, &mut lines)? {
            // Dropped by a call: dropped in place it would give the proof a case for each kind of command.
            Some(command) => drop(command),
            None => {
                let high = script.len();
                spans.push(Span { line, low, high })?;
                return Ok(spans);
            }
        }
        let rest = after_lines(left, lines.number() - line + 1);
        let high = script.len() - rest.len();
        spans.push(Span { line, low, high })?;
        left = rest;
    }
    Ok(spans)
}

/// What is left after so many lines, or nothing where they aren't there.
pub fn after_lines(bytes: &[u8], count: usize) -> &[u8]
    ensures shorter { length result.now ≤ length bytes.now }
{
    let mut left = bytes;
    let mut passed = 0;
    'lines: while passed < count {
        match next_line(left) {
            Some(cut) => left = cut.1,
            None => return left,
        }
        passed += 1;
    }
    left
}
