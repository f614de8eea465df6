//! What the text of a pattern shows: bytes of longer characters, and the signs of extended expressions.

ghost use Rattle.std.specs.Prelude.{◌≡◌};
ghost use Rattle.ed_syntax.specs.spelling.Characters.{is_blank, is_digit};
ghost use Rattle.remarks.specs.Patterns.{is_plain, is_plain_by, is_repeatable, is_repetition, ends_alternative, begins_alternative, begins_with_lone_dot, begins_with_repeated, begins_with_alternatives, begins_with_repeated_group, closes_count, begins_with_count, is_end, closes_at_end, opens_whole, after_anchor, is_enclosed, begins_with_high, begins_with, somewhere, pattern_shows};

use crate::Slip;
use crate::parts::Part;

/// What an extended expression repeats, but for a single byte, which may well stand before an ordinary sign.
fn is_repeatable(part: Part) -> bool
    ensures value { result ≡ is_repeatable part }
{
    match part {
        Part::Bracket(_) => true,
        Part::Plain(byte) => byte == b'.' || byte == b')',
        Part::Escaped(byte) => byte == b')',
    }
}

/// What a sign of repetition is to an extended expression.
fn is_repetition(part: Part) -> bool
    ensures value { result ≡ is_repetition part }
{
    match part {
        Part::Plain(byte) => byte == b'*' || byte == b'+' || byte == b'?' || byte == b'{',
        _ => false,
    }
}

/// This byte, after no backslash.
fn is_plain(part: Part, byte: u8) -> bool
    ensures value { result ≡ is_plain byte part }
{
    match part {
        Part::Plain(own) => own == byte,
        _ => false,
    }
}

fn is_blank(part: Part) -> bool
    ensures value { result ≡ is_plain_by is_blank part }
{
    match part {
        Part::Plain(byte) => byte == b' ' || byte == b'\t',
        _ => false,
    }
}

/// What may end an alternative.
fn ends_alternative(part: Part) -> bool
    ensures value { result ≡ ends_alternative part }
{
    !(is_blank(part) || is_plain(part, b'|') || is_plain(part, b'^'))
}

/// What may begin an alternative.
fn begins_alternative(part: Part) -> bool
    ensures value { result ≡ begins_alternative part }
{
    !(is_blank(part) || is_plain(part, b'|') || is_plain(part, b'$'))
}

fn is_digit(part: Part) -> bool
    ensures value { result ≡ is_plain_by is_digit part }
{
    match part {
        Part::Plain(byte) => b'0' <= byte && byte <= b'9',
        _ => false,
    }
}

/// Digits and commas up to a `}`.
fn closes_count(parts: &[Part]) -> bool
    ensures value { result ≡ closes_count parts.now }
{
    for part in parts {
        if is_plain(*part, b'}') {
            return true;
        }
        if !is_digit(*part) && !is_plain(*part, b',') {
            return false;
        }
    }
    false
}

/// A `.` that ends a run of them, and isn't repeated by `*`.
fn begins_with_lone_dot(parts: &[Part]) -> bool
    ensures value { result ≡ begins_with_lone_dot parts.now }
{
    match parts {
        [dot, next, ..] => is_plain(*dot, b'.') && !is_plain(*next, b'.') && !is_plain(*next, b'*'),
        [dot] => is_plain(*dot, b'.'),
        [] => false,
    }
}

/// What is repeated, and then this sign.
fn begins_with_repeated(sign: u8, parts: &[Part]) -> bool
    ensures value { result ≡ begins_with_repeated sign parts.now }
{
    match parts {
        [repeated, next, ..] => is_repeatable(*repeated) && is_plain(*next, sign),
        _ => false,
    }
}

/// A `|` between two alternatives.
fn begins_with_alternatives(parts: &[Part]) -> bool
    ensures value { result ≡ begins_with_alternatives parts.now }
{
    match parts {
        [before, bar, after, ..] => {
            ends_alternative(*before) && is_plain(*bar, b'|') && begins_alternative(*after)
        }
        _ => false,
    }
}

/// A `)` and a sign of repetition.
fn begins_with_repeated_group(parts: &[Part]) -> bool
    ensures value { result ≡ begins_with_repeated_group parts.now }
{
    match parts {
        [closing, next, ..] => is_plain(*closing, b')') && is_repetition(*next),
        _ => false,
    }
}

/// `{`, a number or two of them, and `}`, after what is repeated so many times. The shell's `${1}` is none.
fn begins_with_count(parts: &[Part]) -> bool
    ensures value { result ≡ begins_with_count parts.now }
{
    match parts {
        [repeated, opening, digit, rest @ ..] => {
            !is_plain(*repeated, b'$')
                && is_plain(*opening, b'{')
                && is_digit(*digit)
                && closes_count(rest)
        }
        _ => false,
    }
}

/// Nothing, or a `$`.
fn is_end(parts: &[Part]) -> bool
    ensures value { result ≡ is_end parts.now }
{
    match parts {
        [] => true,
        [end] => is_plain(*end, b'$'),
        _ => false,
    }
}

/// The first `)` is the end of the pattern, or stands before a `$` there.
fn closes_at_end(parts: &[Part]) -> bool
    ensures value { result ≡ closes_at_end parts.now }
{
    let mut left = parts;
    'parts: while let [part, rest @ ..] = left {
        if is_plain(*part, b')') {
            return is_end(rest);
        }
        left = rest;
    }
    false
}

/// A `(`, something, and the first `)` at the end.
fn opens_whole(parts: &[Part]) -> bool
    ensures value { result ≡ opens_whole parts.now }
{
    match parts {
        [opening, inside, rest @ ..] => {
            is_plain(*opening, b'(') && !is_plain(*inside, b')') && closes_at_end(rest)
        }
        _ => false,
    }
}

/// The parts after a `^` in front.
fn after_anchor(parts: &[Part]) -> &[Part]
    ensures value { result.now ≡ after_anchor parts.now }
{
    match parts {
        [anchor, rest @ ..] => { if is_plain(*anchor, b'^') { rest } else { parts } }
        [] => parts,
    }
}

/// Parentheses about all of the pattern, or all between its anchors.
fn is_enclosed(parts: &[Part]) -> bool
    ensures value { result ≡ is_enclosed parts.now }
{
    opens_whole(after_anchor(parts))
}

/// A bracket expression with bytes above 127.
fn begins_with_high(parts: &[Part]) -> bool
    ensures value { result ≡ begins_with_high parts.now }
{
    match parts {
        [Part::Bracket(is_high), ..] => *is_high,
        _ => false,
    }
}

/// Whether the first of these parts show it.
fn begins_with(slip: Slip, parts: &[Part]) -> bool
    ensures value { result ≡ begins_with slip parts.now }
{
    match slip {
        Slip::BracketOfBytes => begins_with_high(parts),
        Slip::DotOfBytes => begins_with_lone_dot(parts),
        Slip::Plus => begins_with_repeated(b'+', parts),
        Slip::QuestionMark => begins_with_repeated(b'?', parts),
        Slip::Bar => begins_with_alternatives(parts),
        Slip::Parentheses => begins_with_repeated_group(parts),
        Slip::Braces => begins_with_count(parts),
        _ => false,
    }
}

/// Whether the parts from some place on begin so.
fn somewhere(slip: Slip, parts: &[Part]) -> bool
    ensures value { result ≡ somewhere (begins_with slip) parts.now }
{
    let mut left = parts;
    'parts: while let [_, rest @ ..] = left {
        if begins_with(slip, left) {
            return true;
        }
        left = rest;
    }
    false
}

/// Whether a pattern of these parts shows it, in a script that has bytes above 127 or none.
pub fn pattern_shows(slip: Slip, is_high: bool, parts: &[Part]) -> bool
    ensures value { result ≡ pattern_shows slip is_high parts.now }
{
    match slip {
        Slip::DotOfBytes => is_high && somewhere(slip, parts),
        Slip::Parentheses => is_enclosed(parts) || somewhere(slip, parts),
        _ => somewhere(slip, parts),
    }
}
