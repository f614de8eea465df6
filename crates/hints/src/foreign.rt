//! What GNU's `ed`, `ex` or another system spells otherwise than POSIX, read from the line that can't be read.

use crate::bytes::{before, between, first, from, joined, replaced};
use crate::commands::{command_at, line_of_span, span_of};
use crate::drafts::{Applies, Draft, Spot};
use crate::hint::Advice;
use crate::words::quoted;
use ed_base::Bytes;
use ed_syntax::{Span, Verb, after_blanks, read_script};
use std::alloc::{AllocError, Global};

/// The script without a carriage return before any of its newlines from a place on, or at its end.
fn without_returns(alloc: Global, script: &[u8], low: usize) -> Result<Bytes, AllocError> {
    let mut bytes = Bytes::new(alloc);
    for (index, byte) in script.iter().enumerate() {
        let ends = match from(script, index) {
            _ if index < low => false,
            [b'\r'] | [b'\r', b'\n', ..] => true,
            _ => false,
        };
        if !ends {
            bytes.push(*byte)?;
        }
    }
    Ok(bytes)
}

/// Whether a line is a comment.
fn is_comment(line: &[u8]) -> bool {
    first(after_blanks(line)) == Some(b'#')
}

/// The script without the comments that stand on the line that can't be read, and on those that can't be read then.
fn without_comments(alloc: Global, script: &[u8]) -> Result<Bytes, AllocError> {
    let mut left = Bytes::from_slice(alloc, script)?;
    for _ in 0..100 {
        let number = read_script(alloc, left.as_slice())?.commands.len();
        let Some(span) = span_of(alloc, left.as_slice(), number.saturating_add(1))? else {
            return Ok(left);
        };
        let Span { low, high, .. } = line_of_span(left.as_slice(), span);
        if !is_comment(between(left.as_slice(), low, high)) {
            return Ok(left);
        }
        left = replaced(alloc, left.as_slice(), low, high, &[])?;
    }
    Ok(left)
}

/// Whether bytes are one command with a letter, after which another one may have been meant.
fn is_command(alloc: Global, bytes: &[u8]) -> Result<bool, AllocError> {
    let read = read_script(alloc, bytes)?;
    Ok(match (read.fault, read.commands.as_slice()) {
        (None, [only]) => !only.verb.takes().text && only.verb != Verb::Null,
        _ => false,
    })
}

/// A colon in front, as on the command line of `vi`.
pub(crate) fn leave_out_colon(spot: &Spot<'_>, drafts: &mut Vec<Draft>) -> Applies {
    let given = command_at(spot.script, spot.span);
    if spot.command.len() >= given.len() || !is_command(spot.alloc, spot.command)? {
        return Ok(false);
    }
    let text = "POSIX has no `:` before a command: leave it out";
    spot.push_line(drafts, text, spot.command)
}

/// Carriage returns at the ends of lines, as other systems have them.
pub(crate) fn leave_out_returns(spot: &Spot<'_>, drafts: &mut Vec<Draft>) -> Applies {
    if !spot.command.ends_with(b"\r") {
        return Ok(false);
    }
    let text = "POSIX has no CR at a line's end: leave it out";
    let mended = without_returns(spot.alloc, spot.script, spot.span.low)?;
    spot.push(drafts, Advice::Spelling, text, mended, 1, 1)
}

/// Comments.
pub(crate) fn leave_out_comment(spot: &Spot<'_>, drafts: &mut Vec<Draft>) -> Applies {
    if !is_comment(spot.command) {
        return Ok(false);
    }
    let text = "POSIX has no `#`: leave the line out";
    let mended = without_comments(spot.alloc, spot.script)?;
    spot.push(drafts, Advice::LeaveOut, text, mended, 1, 0)
}

/// The letters that write and quit in `ex`, in front of the rest of a line, and what stands after them. With `alone` it has no addresses and is the
/// last one: in GNU's `ed` an `x` puts the lines that were cut, and only so nobody means that.
fn writing_and_quitting(rest: &[u8], alone: bool) -> Option<(&'static str, &[u8])> {
    match rest {
        [b'w', b'q', b'!', after @ ..] => Some(("`wq!`", after)),
        [b'w', b'q', after @ ..] => Some(("`wq`", after)),
        [b'x', after @ ..] if alone => Some(("`x`", after)),
        _ => None,
    }
}

/// Whether nothing comes after a place of a script but blank lines.
fn is_last(script: &[u8], place: usize) -> bool {
    from(script, place).trim_ascii().is_empty()
}

/// The addresses of a `w`: all lines are those that it writes without addresses, also where there are none.
fn written(addresses: &[u8]) -> &[u8] {
    let given = addresses.trim_ascii();
    if given == b",".as_slice() || given == b"1,$".as_slice() || given == b"%".as_slice() {
        b""
    } else {
        given
    }
}

/// `wq` and `x`, which write and quit.
pub(crate) fn write_and_quit(spot: &Spot<'_>, drafts: &mut Vec<Draft>) -> Applies {
    let (addresses, rest) = spot.parts()?;
    let alone = addresses.trim_ascii().is_empty() && is_last(spot.script, spot.span.high);
    let Some((letters, after)) = writing_and_quitting(rest, alone) else {
        return Ok(false);
    };
    let write = joined(spot.alloc, &[written(addresses), b"w", after])?;
    let shown = quoted(spot.alloc, write.as_slice())?;
    let text = format!(in spot.alloc;
        "POSIX has no {letters}: write {shown} and `q` on two lines"
    )?;
    let lines = joined(spot.alloc, &[write.as_slice(), b"\nq\n"])?;
    let mended = spot.with(lines.as_slice())?;
    spot.push(drafts, Advice::Spelling, text.as_str(), mended, 1, 2)
}

/// `x` elsewhere.
pub(crate) fn tell_of_cut_lines(spot: &Spot<'_>, drafts: &mut Vec<Draft>) -> Applies {
    if first(spot.parts()?.1) != Some(b'x') {
        return Ok(false);
    }
    spot.remark(
        drafts,
        "POSIX has no `x`, by which GNU's `ed` puts lines that were cut: `m` moves lines, `t` copies them",
    )
}

/// `%` for all lines. What takes all lines without addresses has none, also where there are no lines.
pub(crate) fn take_all_lines(spot: &Spot<'_>, drafts: &mut Vec<Draft>) -> Applies {
    let [b'%', rest @ ..] = after_blanks(spot.command) else {
        return Ok(false);
    };
    let rest = after_blanks(rest);
    match first(rest) {
        Some(b'w' | b'g' | b'v') => spot.push_spelled(drafts, "`%`", rest, rest),
        _ => {
            let line = joined(spot.alloc, &[b",", rest])?;
            spot.push_spelled(drafts, "`%`", b",", line.as_slice())
        }
    }
}

/// `q!` and `w!`, which don't ask.
pub(crate) fn without_asking(spot: &Spot<'_>, drafts: &mut Vec<Draft>) -> Applies {
    let (addresses, rest) = spot.parts()?;
    let (foreign, letter, after): (&str, &[u8], &[u8]) = match rest {
        [b'q', b'!', after @ ..] => ("`q!`", b"Q", after),
        [b'w', b'!', after @ ..] => ("`w!`", b"w", after),
        _ => return Ok(false),
    };
    let line = joined(spot.alloc, &[addresses, letter, after])?;
    spot.push_spelled(drafts, foreign, letter, line.as_slice())
}

/// The number of lines that stands after a letter, as in `d2`; none or 0 where that is something else.
fn lines_counted(rest: &[u8]) -> u32 {
    let [b'd' | b'j' | b'l' | b'n' | b'p', digits @ ..] = rest else {
        return 0;
    };
    match str::from_utf8(digits) {
        Ok(text) if digits.len() < 9 => text.parse::<u32>().unwrap_or(0),
        _ => 0,
    }
}

/// `d2` and its kin: a number of lines after the letter.
pub(crate) fn take_counted_lines(spot: &Spot<'_>, drafts: &mut Vec<Draft>) -> Applies {
    let (addresses, rest) = spot.parts()?;
    let Some(more) = lines_counted(rest).checked_sub(1) else {
        return Ok(false);
    };
    let given = addresses.trim_ascii();
    let front: &[u8] = if given.is_empty() { b"." } else { given };
    let last = format!(in spot.alloc; ";+{more}")?;
    let line = joined(spot.alloc, &[front, last.as_bytes(), before(rest, 1)])?;
    let foreign = "number of lines after a letter";
    spot.push_spelled(drafts, foreign, line.as_slice(), line.as_slice())
}

/// Commands of the shell.
pub(crate) fn leave_out_shell(spot: &Spot<'_>, drafts: &mut Vec<Draft>) -> Applies {
    if first(spot.parts()?.1) != Some(b'!') {
        return Ok(false);
    }
    let text = "no command of the shell is run here: leave the line out";
    spot.push(drafts, Advice::LeaveOut, text, spot.with(&[])?, 1, 0)
}

/// Commands of the shell where a path stands.
pub(crate) fn name_file(spot: &Spot<'_>, drafts: &mut Vec<Draft>) -> Applies {
    let text =
        "no command of the shell is run here: name a file, and run the command before or after the script";
    match spot.parts()?.1 {
        [b'r' | b'e' | b'w', after @ ..] if first(after_blanks(after)) == Some(b'!') => spot.remark(
            drafts, text,
        ),
        _ => Ok(false),
    }
}

/// `W`, which adds to a file.
pub(crate) fn write_whole_file(spot: &Spot<'_>, drafts: &mut Vec<Draft>) -> Applies {
    if first(spot.parts()?.1) != Some(b'W') {
        return Ok(false);
    }
    spot.remark(
        drafts,
        "POSIX has no `W`, which adds to a file: `w` writes a whole one",
    )
}

/// Commands on one line with a `;` or a `|` between them.
pub(crate) fn part_commands(spot: &Spot<'_>, drafts: &mut Vec<Draft>) -> Applies {
    let line = spot.command;
    for (index, byte) in line.iter().enumerate() {
        let between = match *byte {
            b';' => "`;`",
            b'|' => "`|`",
            _ => continue,
        };
        if index.saturating_add(1) < line.len() && is_command(spot.alloc, before(line, index))? {
            let text = format!(in spot.alloc;
                "POSIX has no {between} between commands: write each on a line of its own"
            )?;
            let low = spot.span.low.saturating_add(index);
            let mended = replaced(spot.alloc, spot.script, low, low.saturating_add(1), b"\n")?;
            return spot.push(drafts, Advice::Spelling, text.as_str(), mended, 1, 1);
        }
    }
    Ok(false)
}

/// A flag of `s` that makes letters match in both cases.
pub(crate) fn match_both_cases(spot: &Spot<'_>, drafts: &mut Vec<Draft>) -> Applies {
    let text =
        "POSIX has no `I` after an `s`: write each letter of its pattern in both cases, as `[aA]`";
    match (first(spot.parts()?.1), spot.command) {
        (Some(b's'), [front @ .., b'i' | b'I']) if is_command(spot.alloc, front)? => spot.remark(
            drafts, text,
        ),
        _ => Ok(false),
    }
}
