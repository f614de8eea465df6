//! The lines that explain commands.
ghost use Rattle.std.specs.Prelude.{◌≡◌, ◌++◌, IfOk, OnOk};
ghost use Rattle.ed_calls.specs.Explaining.{Woven, inner_text, line_with, on_one_line};

use crate::explaining::commands::Explained;
use crate::explaining::words::words_of;
use ed_base::{Bytes, push_number};
use ed_syntax::{Span, places};
use std::alloc::{AllocError, Global};

/// The lines of these commands of a script, in their order. Each has the number of the line on which the command begins, what is known
/// before it, and its front.
pub(crate) fn explain_text(
    alloc: Global,
    script: &[u8],
    commands: &[Explained],
) -> Result<Bytes, AllocError>
    ensures woven { IfOk result (Woven commands.now) }
{
    let spans = places(alloc, script)?;
    weave(alloc, script, spans.as_slice(), commands)
}

/// The same, where the commands of the script stand so in its bytes.
fn weave(
    alloc: Global,
    script: &[u8],
    spans: &[Span],
    commands: &[Explained],
) -> Result<Bytes, AllocError>
    ensures woven { IfOk result (Woven commands.now) }
{
    let mut text = Bytes::new(alloc);
    for command in commands {
        let words = words_of(alloc, script, spans, command.place, &command.known)?;
        let line = line_at(spans, command.place.command);
        push_line(&mut text, line, command.place.inner, words.as_bytes())?;
    }
    Ok(text)
}

/// The number of the line on which a command begins.
fn line_at(spans: &[Span], command: usize) -> usize {
    match spans.get(command.saturating_sub(1)) {
        Some(span) => span.line,
        None => command,
    }
}

/// Adds the line of a command that begins on this line of the script, with these words.
fn push_line(
    text: &mut Bytes,
    line: usize,
    inner: Option<usize>,
    words: &[u8],
) -> Result<(), AllocError>
    ensures added { OnOk result (text.new ≡ text.old ++ line_with line inner (on_one_line words.now)) }
{
    push_number(text, line as u64)?;
    push_inner(text, inner)?;
    text.extend_from_slice(b": ")?;
    push_words(text, words)?;
    text.push(b'\n')
}

/// Adds a command's number in a list, if it is in one.
fn push_inner(text: &mut Bytes, inner: Option<usize>) -> Result<(), AllocError>
    ensures added { OnOk result (text.new ≡ text.old ++ inner_text inner) }
{
    match inner {
        Some(inner) => {
            text.push(b'.')?;
            push_number(text, inner as u64)
        }
        None => Ok(()),
    }
}

/// Adds words, without the newlines that they may have.
fn push_words(text: &mut Bytes, words: &[u8]) -> Result<(), AllocError>
    ensures added { OnOk result (text.new ≡ text.old ++ on_one_line words.now) }
{
    for byte in words {
        if *byte != b'\n' {
            text.push(*byte)?;
        }
    }
    Ok(())
}
