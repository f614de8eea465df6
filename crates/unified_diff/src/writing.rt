//! Lines of a diff, appended to its text.
ghost use Rattle.std.specs.Prelude.{◌≡◌, ◌≤◌, ◌+◌, ◌++◌, codes, length, OnOk};
ghost use Rattle.ed_base.specs.Parts.{block};
ghost use Rattle.unified_diff.specs.Hunks.{signed};
ghost use Rattle.unified_diff.specs.DiffText.{shown, line_end, line_text, line_texts, range_text, hunk_head, name_text};
ghost use Rattle.unified_diff.specs.FullLines.{is_ended};
ghost use Rattle.unified_diff.specs.Edits.{seen};

use crate::cutting::{has_end, without_end};
use crate::naming::push_shown;
use crate::sign::Sign;
use ed_base::{Bytes, push_number};
use std::alloc::AllocError;

const BOLD: &[u8] = b"\x1b[1m";

const CYAN: &[u8] = b"\x1b[36m";

const PLAIN: &[u8] = b"\x1b[0m";

/// Appends an escape sequence, where there are colours.
fn push_escape(text: &mut Bytes, colours: bool, escape: &[u8]) -> Result<(), AllocError>
    ensures appended { OnOk result (text.new ≡ text.old ++ shown colours escape.now) }
{
    if colours {
        text.extend_from_slice(escape)?;
    }
    Ok(())
}

/// What stands after a line's content.
fn end_of(line: &[u8]) -> &'static [u8]
    ensures value { result.now ≡ line_end (is_ended line.now) }
{
    if has_end(line) {
        b"\n"
    } else {
        b"\n\\ No newline at end of file\n"
    }
}

/// Appends a line with its sign.
fn push_line(text: &mut Bytes, colours: bool, sign: Sign, line: &[u8]) -> Result<(), AllocError>
    ensures appended { OnOk result (text.new ≡ text.old ++ line_text colours (record { sign = sign; line = line.now })) }
{
    push_escape(text, colours, sign.colour_on())?;
    text.push(sign.byte())?;
    text.extend_from_slice(without_end(line))?;
    push_escape(text, colours, sign.colour_off())?;
    text.extend_from_slice(end_of(line))
}

/// Appends the lines from one place up to another, each with this sign.
pub(crate) fn push_lines(
    text: &mut Bytes,
    colours: bool,
    sign: Sign,
    lines: &[&[u8]],
    start: usize,
    end: usize,
) -> Result<(), AllocError>
    requires order { start ≤ end }
    requires within { end ≤ length lines.now }
    ensures appended { OnOk result (text.new ≡ text.old ++ line_texts colours (signed sign (block start end (seen lines.now)))) }
{
    for place in start..end {
        push_line(text, colours, sign, lines[place])?;
    }
    Ok(())
}

/// Appends which lines a hunk shows: so many after so many.
fn push_range(text: &mut Bytes, before: usize, count: usize) -> Result<(), AllocError>
    requires fits { before + count ≤ usize.MAX }
    ensures appended { OnOk result (text.new ≡ text.old ++ range_text before count) }
{
    match count {
        0 => {
            push_number(text, before as u64)?;
            text.extend_from_slice(b",0")
        }
        1 => push_number(text, before as u64 + 1),
        _ => {
            push_number(text, before as u64 + 1)?;
            text.push(b',')?;
            push_number(text, count as u64)
        }
    }
}

/// Appends the line above a hunk.
pub(crate) fn push_hunk_head(
    text: &mut Bytes,
    colours: bool,
    old_before: usize,
    old_count: usize,
    new_before: usize,
    new_count: usize,
) -> Result<(), AllocError>
    requires old_fits { old_before + old_count ≤ usize.MAX }
    requires new_fits { new_before + new_count ≤ usize.MAX }
    ensures appended { OnOk result (text.new ≡ text.old ++ hunk_head colours old_before old_count new_before new_count) }
{
    push_escape(text, colours, CYAN)?;
    text.extend_from_slice(b"@@ -")?;
    push_range(text, old_before, old_count)?;
    text.extend_from_slice(b" +")?;
    push_range(text, new_before, new_count)?;
    text.extend_from_slice(b" @@")?;
    push_escape(text, colours, PLAIN)?;
    text.push(b'\n')
}

/// Appends one of the two lines that name the files.
pub(crate) fn push_name(
    text: &mut Bytes,
    colours: bool,
    word: &[u8],
    name: &[u8],
) -> Result<(), AllocError>
    ensures appended { OnOk result (text.new ≡ text.old ++ name_text colours word.now name.now) }
{
    push_escape(text, colours, BOLD)?;
    text.extend_from_slice(word)?;
    push_shown(text, name)?;
    push_escape(text, colours, PLAIN)?;
    text.push(b'\n')
}
