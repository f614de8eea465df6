//! What GNU's `ed` writes with a backslash in patterns.

use crate::bytes::{before, between, from};
use crate::drafts::{Applies, Draft, Spot};
use crate::following::other_text;
use crate::hint::Advice;
use crate::patterns::{Quoted, parts_of, patterns_of};
use ed_base::Bytes;
use ed_syntax::{Address, Addresses, Base, Command, Sense, Verb, read_script};
use std::alloc::{AllocError, Global};

/// How POSIX spells what GNU writes as a backslash and this byte. After a delimiter of its own the byte is itself.
fn posix_of(delimiter: u8, byte: u8) -> Option<&'static [u8]> {
    match byte {
        b'+' if delimiter != b'+' => Some(b"\\{1,\\}"),
        b'?' if delimiter != b'?' => Some(b"\\{0,1\\}"),
        b's' => Some(b"[[:space:]]"),
        b'S' => Some(b"[^[:space:]]"),
        b'w' => Some(b"[[:alnum:]_]"),
        b'W' => Some(b"[^[:alnum:]_]"),
        _ => None,
    }
}

/// Appends a pattern as POSIX spells it.
fn push_posix(
    alloc: Global,
    new: &mut Bytes,
    delimiter: u8,
    pattern: &[u8],
) -> Result<(), AllocError> {
    for part in parts_of(alloc, pattern)?.as_slice() {
        let posix = match part {
            [b'\\', byte] => posix_of(delimiter, *byte).unwrap_or(part),
            _ => part,
        };
        new.extend_from_slice(posix)?;
    }
    Ok(())
}

/// A line with its patterns as POSIX spells them.
fn posix_line(alloc: Global, line: &[u8], patterns: &[Quoted]) -> Result<Bytes, AllocError> {
    let mut new = Bytes::new(alloc);
    let mut place: usize = 0;
    for quoted in patterns {
        new.extend_from_slice(between(line, place, quoted.low))?;
        let pattern = between(line, quoted.low, quoted.high);
        push_posix(alloc, &mut new, quoted.delimiter, pattern)?;
        place = quoted.high;
    }
    new.extend_from_slice(from(line, place))?;
    Ok(new)
}

/// What GNU alone writes with a backslash in patterns.
fn is_foreign(delimiter: u8, byte: u8) -> bool {
    let is_gnu = matches!(
        byte,
        b'+' | b'?' | b'|' | b'<' | b'>' | b's' | b'S' | b'w' | b'W' | b'b' | b'B' | b'`' | b'\''
    );
    is_gnu && byte != delimiter
}

/// The first byte of a pattern that GNU alone writes with a backslash.
fn foreign_in(alloc: Global, delimiter: u8, pattern: &[u8]) -> Result<Option<u8>, AllocError> {
    for part in parts_of(alloc, pattern)?.as_slice() {
        if let [b'\\', byte] = part {
            if is_foreign(delimiter, *byte) {
                return Ok(Some(*byte));
            }
        }
    }
    Ok(None)
}

/// The alternatives of a pattern, each in its own copy of the line, and how many there are beside the first. None where a group may
/// hold them.
fn alternatives(
    alloc: Global,
    line: &[u8],
    quoted: Quoted,
) -> Result<Option<(Bytes, usize)>, AllocError> {
    let front = before(line, quoted.low);
    let end = from(line, quoted.high);
    let mut lines = Bytes::from_slice(alloc, front)?;
    let mut added: usize = 0;
    for part in parts_of(alloc, between(line, quoted.low, quoted.high))?.as_slice() {
        match part {
            [b'\\', b'('] => return Ok(None),
            [b'\\', b'|'] => {
                for piece in [end, b"\n", front] {
                    lines.extend_from_slice(piece)?;
                }
                added = added.saturating_add(1);
            }
            _ => lines.extend_from_slice(part)?,
        }
    }
    lines.extend_from_slice(end)?;
    lines.extend_from_slice(b"\n")?;
    Ok(Some((lines, added)))
}

/// Whether an address is line 1, or the last one.
fn is_end(address: &Address) -> bool {
    address.offset == 0 && matches!(&address.base, Base::Number(1) | Base::Last)
}

/// Whether a command deletes all lines that match, whatever the others do: then it may come in any order with others like it.
fn deletes_matching(command: &Command) -> bool {
    let is_whole = match &command.addresses {
        Addresses::Without => true,
        Addresses::Comma(first, last) => is_end(first)
            && last.base == Base::Last
            && last.offset == 0,
        _ => false,
    };
    match (&command.verb, command.list()) {
        (
            Verb::Global {
                sense: Sense::Matching,
                ..
            },
            [only],
        ) => {
            is_whole
                && only.verb == Verb::Delete
                && only.addresses == Addresses::Without
                && only.suffix.is_none()
        }
        _ => false,
    }
}

/// `\|`: a command for each alternative, where each deletes what it matches.
fn push_alternatives(spot: &Spot<'_>, drafts: &mut Vec<Draft>, found: Quoted) -> Applies {
    let alloc = spot.alloc;
    if let Some((lines, added)) = alternatives(alloc, spot.command, found)? {
        let read = read_script(alloc, lines.as_slice())?;
        if read.fault.is_none() && read.commands.as_slice().iter().all(deletes_matching) {
            let mended = spot.with(lines.as_slice())?;
            let all = read_script(alloc, mended.as_slice())?;
            let last = spot.place.command.saturating_add(added);
            let lines = spot.numbering_of(mended.as_slice())?;
            let other = other_text(alloc, mended.as_slice(), &all, &lines, last, false, false)?;
            let text = format!(in alloc; "POSIX has no `\\|`: write a command for each{other}")?;
            let written = added.saturating_add(1);
            return spot.push(drafts, Advice::Spelling, text.as_str(), mended, 1, written);
        }
    }
    let text =
        "POSIX has no `\\|`, and no single command does that: of several after one another, each finds what the one before it left";
    spot.remark(drafts, text)
}

/// How GNU spells a byte with a backslash.
fn foreign_word(byte: u8) -> &'static str {
    match byte {
        b'+' => "`\\+`",
        b'?' => "`\\?`",
        b's' => "`\\s`",
        b'S' => "`\\S`",
        b'w' => "`\\w`",
        b'W' => "`\\W`",
        b'b' => "`\\b`",
        b'B' => "`\\B`",
        b'<' => "`\\<`",
        b'>' => "`\\>`",
        b'|' => "`\\|`",
        _ => "that escape",
    }
}

/// What GNU writes with a backslash in the patterns of a line.
pub(crate) fn write_posix_escape(spot: &Spot<'_>, drafts: &mut Vec<Draft>) -> Applies {
    let (alloc, line) = (spot.alloc, spot.command);
    let patterns = patterns_of(alloc, line)?;
    for found in patterns.as_slice() {
        let pattern = between(line, found.low, found.high);
        let Some(byte) = foreign_in(alloc, found.delimiter, pattern)? else {
            continue;
        };
        if byte == b'|' {
            return push_alternatives(spot, drafts, *found);
        }
        let foreign = foreign_word(byte);
        let Some(posix) = posix_of(found.delimiter, byte) else {
            let text = format!(in alloc;
                "POSIX has no {foreign}, and nothing that means the same"
            )?;
            return spot.remark(drafts, text.as_str());
        };
        let mended = posix_line(alloc, line, patterns.as_slice())?;
        return spot.push_spelled(drafts, foreign, posix, mended.as_slice());
    }
    Ok(false)
}
