//! The parameters of `s`: its pattern, its replacement, which may go on in further lines, and its flags.
ghost use Rattle.std.specs.Prelude.{◌≡◌, ◌+◌, ◌≤◌, length, MatchOption, Some, None, IfOk, ⊤};
ghost use Rattle.ed_base.specs.Lines.{bytes_of};
ghost use Rattle.ed_syntax.specs.reading.ReadParameters.{place, unescaped_part, escaped_at, part_at, all_parts, is_closed, is_percent, replacement, substitution_with, substitution_by, substitution};
ghost use Rattle.ed_syntax.specs.PublicTypes.{suffix_value, verb_value};

use crate::flags::end_at;
use crate::quoting::{Parsed, after_closing, pattern_at};
use crate::script_lines::ScriptLines;
use crate::tokens::{is_delimiter, is_letter};
use crate::{Part, Pattern, Replacement, Verb};
use std::alloc::Global;

/// What stands after the letter `s`. The lines on which its replacement goes on are taken from those after its own.
pub fn substitution<'a>(
    alloc: Global,
    bytes: &'a [u8],
    later: &mut ScriptLines<'a>,
) -> Parsed<'a, Verb>
    ensures value { IfOk result (λ read. MatchOption read (substitution bytes.now later.old.lines ≡ None)
        (λ (verb, rest). substitution bytes.now later.old.lines ≡ Some (verb_value verb, place rest.now later.new.lines))) }
    ensures number { later.new.number + length later.new.lines ≡ later.old.number + length later.old.lines }
    ensures later { length later.new.lines ≤ length later.old.lines }
{
    match bytes {
        [delimiter, rest @ ..] if is_delimiter(*delimiter) => {
            substitution_by(alloc, *delimiter, rest, later)
        }
        _ => Ok(None),
    }
}

/// A pattern between delimiters, and what stands after it.
fn substitution_by<'a>(
    alloc: Global,
    delimiter: u8,
    bytes: &'a [u8],
    later: &mut ScriptLines<'a>,
) -> Parsed<'a, Verb>
    ensures value { IfOk result (λ read. MatchOption read (substitution_by delimiter bytes.now later.old.lines ≡ None)
        (λ (verb, rest). substitution_by delimiter bytes.now later.old.lines ≡ Some (verb_value verb, place rest.now later.new.lines))) }
    ensures number { later.new.number + length later.new.lines ≡ later.old.number + length later.old.lines }
    ensures later { length later.new.lines ≤ length later.old.lines }
{
    match pattern_at(alloc, delimiter, bytes)? {
        Some((pattern, rest)) => substitution_with(alloc, delimiter, pattern, rest, later),
        None => Ok(None),
    }
}

/// What stands after the pattern, whose closing delimiter has to be there.
fn substitution_with<'a>(
    alloc: Global,
    delimiter: u8,
    pattern: Option<Pattern>,
    bytes: &'a [u8],
    later: &mut ScriptLines<'a>,
) -> Parsed<'a, Verb>
    ensures value { IfOk result (λ read. MatchOption read (substitution_with delimiter pattern bytes.now later.old.lines ≡ None)
        (λ (verb, rest). substitution_with delimiter pattern bytes.now later.old.lines ≡ Some (verb_value verb, place rest.now later.new.lines))) }
    ensures number { later.new.number + length later.new.lines ≡ later.old.number + length later.old.lines }
    ensures later { length later.new.lines ≤ length later.old.lines }
{
    let [_, rest @ ..] = bytes else {
        return Ok(None);
    };
    let Some((replacement, rest)) = replacement(alloc, delimiter, rest, later)? else {
        return Ok(None);
    };
    match end_at(rest) {
        Some(((which, form), rest)) => Ok(Some((
            Verb::Substitute {
                pattern,
                replacement,
                which,
                form,
            },
            rest,
        ))),
        None => Ok(None),
    }
}

/// A replacement, up to its delimiter or the end of its line; `%` alone is the remembered one.
fn replacement<'a>(
    alloc: Global,
    delimiter: u8,
    bytes: &'a [u8],
    later: &mut ScriptLines<'a>,
) -> Parsed<'a, Option<Replacement>>
    ensures value { IfOk result (λ read. MatchOption read (replacement delimiter bytes.now later.old.lines ≡ None)
        (λ (r, rest). replacement delimiter bytes.now later.old.lines ≡ Some (r, place rest.now later.new.lines))) }
    ensures number { later.new.number + length later.new.lines ≡ later.old.number + length later.old.lines }
    ensures later { length later.new.lines ≤ length later.old.lines }
{
    if is_percent(delimiter, bytes) {
        return Ok(Some((None, after_closing(bytes))));
    }
    match parts(alloc, delimiter, bytes, later)? {
        Some((replacement, rest)) => Ok(Some((Some(replacement), rest))),
        None => Ok(None),
    }
}

/// `%` alone.
fn is_percent(delimiter: u8, bytes: &[u8]) -> bool
    ensures value { result ≡ is_percent delimiter bytes.now }
{
    match bytes {
        [byte, rest @ ..] => *byte == b'%' && *byte != delimiter && is_closed(delimiter, rest),
        [] => false,
    }
}

/// The line is over, or goes on with the delimiter.
fn is_closed(delimiter: u8, bytes: &[u8]) -> bool
    ensures value { result ≡ is_closed delimiter bytes.now }
{
    match bytes {
        [byte, ..] => *byte == delimiter,
        [] => true,
    }
}

/// The parts up to the delimiter, with which the rest begins, or to the line's end.
fn parts<'a>(
    alloc: Global,
    delimiter: u8,
    bytes: &'a [u8],
    later: &mut ScriptLines<'a>,
) -> Parsed<'a, Replacement>
    ensures value { IfOk result (λ read. MatchOption read (all_parts delimiter bytes.now later.old.lines ≡ None)
        (λ (r, rest). all_parts delimiter bytes.now later.old.lines ≡ Some (r, place rest.now later.new.lines))) }
    ensures number { later.new.number + length later.new.lines ≡ later.old.number + length later.old.lines }
    ensures later { length later.new.lines ≤ length later.old.lines }
{
    let mut replacement = Replacement::new(alloc);
    let mut left = bytes;
    'parts: while let [byte, rest @ ..] = left {
        if *byte == delimiter {
            break;
        }
        match part_at(delimiter, *byte, rest, later) {
            Some((part, rest)) => {
                replacement.push(part)?;
                left = rest;
            }
            None => return Ok(None),
        }
    }
    Ok(Some((replacement, left)))
}

/// The part that begins with a byte, which isn't the delimiter.
fn part_at<'a>(
    delimiter: u8,
    byte: u8,
    bytes: &'a [u8],
    later: &mut ScriptLines<'a>,
) -> Option<(Part, &'a [u8])>
    ensures value { MatchOption result (part_at delimiter byte bytes.now later.old.lines ≡ None)
        (λ (p, rest). part_at delimiter byte bytes.now later.old.lines ≡ Some (p, place rest.now later.new.lines)) }
    ensures number { later.new.number + length later.new.lines ≡ later.old.number + length later.old.lines }
    ensures later { length later.new.lines ≤ length later.old.lines }
    ensures shorter { MatchOption result ⊤ (λ (p, rest).
        length rest.now + length (bytes_of later.new.lines) ≤ length bytes.now + length (bytes_of later.old.lines)) }
{
    match byte {
        b'\\' => escaped_at(delimiter, bytes, later),
        b'&' => Some((Part::Match, bytes)),
        _ => Some((Part::Literal(byte), bytes)),
    }
}

/// What stands after a backslash; at the end of a line it is a split, and the next line goes on.
fn escaped_at<'a>(
    delimiter: u8,
    bytes: &'a [u8],
    later: &mut ScriptLines<'a>,
) -> Option<(Part, &'a [u8])>
    ensures value { MatchOption result (escaped_at delimiter bytes.now later.old.lines ≡ None)
        (λ (p, rest). escaped_at delimiter bytes.now later.old.lines ≡ Some (p, place rest.now later.new.lines)) }
    ensures number { later.new.number + length later.new.lines ≡ later.old.number + length later.old.lines }
    ensures later { length later.new.lines ≤ length later.old.lines }
    ensures shorter { MatchOption result ⊤ (λ (p, rest).
        length rest.now + length (bytes_of later.new.lines) ≤ length bytes.now + length (bytes_of later.old.lines)) }
{
    match bytes {
        [byte, rest @ ..] => Some((unescaped_part(delimiter, *byte)?, rest)),
        [] => Some((Part::Split, later.next()?)),
    }
}

/// What a backslash and a byte mean. After it a delimiter is itself, whatever it means elsewhere.
fn unescaped_part(delimiter: u8, byte: u8) -> Option<Part>
    ensures value { result ≡ unescaped_part delimiter byte }
{
    if byte == delimiter {
        return Some(Part::Literal(byte));
    }
    if is_letter(byte) || byte == b'0' {
        return None;
    }
    match byte {
        b'1'..=b'9' => Some(Part::Group(byte - b'1')),
        _ => Some(Part::Literal(byte)),
    }
}
