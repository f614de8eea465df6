//! Facts of lines as lines of a certificate's text. To be run with each allocation refused in turn (`rt try --test --fail-alloc N`): the
//! answer is the text or the facts, or want of memory.

ghost use Rattle.std.specs.Prelude.{◌<◌};

use crate::collecting::Collecting;
use cert_check::{clear_in, known_in, write_facts, write_old_facts};
use ed_base::{Bytes, Letter};
use ed_rules::{ClearStretch, KnownLine, LineFacts, Marks};
use std::alloc::{AllocError, Global};
use std::test::Fail;
use zones::Name;

pub(crate) fn add_known(
    facts: &mut LineFacts,
    name: Name,
    pattern: &[u8],
    matches: bool,
) -> Result<(), AllocError> {
    let pattern = Bytes::from_slice(*facts.lines.allocator(), pattern)?;
    facts.lines.push(KnownLine {
        name,
        pattern,
        matches,
    })?;
    Ok(())
}

pub(crate) fn add_clear(
    facts: &mut LineFacts,
    after: u8,
    before: u8,
    pattern: &[u8],
) -> Result<(), AllocError>
    requires after { after < 33 }
    requires before { before < 33 }
{
    let pattern = Bytes::from_slice(*facts.clear.allocator(), pattern)?;
    facts.clear.push(ClearStretch {
        after,
        before,
        pattern,
    })?;
    Ok(())
}

/// The line of the letter `a` is the first that matches `^Port`, the current line is ` a%`, and neither the last line nor one after that of
/// `a` matches `x`.
fn port(alloc: Global) -> Result<LineFacts, AllocError> {
    let a = Name::of(Letter::at(0));
    let mut facts = LineFacts::none(alloc);
    add_known(&mut facts, Name::CURRENT_LINE, b"^ a%$", true)?;
    add_known(&mut facts, Name::LAST_LINE, b"x", false)?;
    add_known(&mut facts, a, b"^Port", true)?;
    add_clear(&mut facts, 0, 6, b"^Port")?;
    add_clear(&mut facts, 6, ClearStretch::END, b"x")?;
    Ok(facts)
}

fn written(alloc: Global, facts: &LineFacts) -> Result<Bytes, AllocError> {
    let mut out = Collecting::new(alloc);
    write_facts(&mut out, facts);
    out.finish()
}

fn written_old(alloc: Global, facts: &LineFacts) -> Result<Bytes, AllocError> {
    let mut out = Collecting::new(alloc);
    write_old_facts(&mut out, facts);
    out.finish()
}

const LINES: &[u8] = b"lines .+=^%20a%25$ $-=x a+=^Port\nclear 0-a=^Port a-$+=x\n";

const OLD_LINES: &[u8] = b"old-lines .+=^%20a%25$ $-=x a+=^Port\nold-clear 0-a=^Port a-$+=x\n";

fn are_written(alloc: Global) -> Result<bool, AllocError> {
    let facts = port(alloc)?;
    let text = written(alloc, &facts)?;
    Ok(text.as_slice() == LINES)
}

fn are_written_old(alloc: Global) -> Result<bool, AllocError> {
    let facts = port(alloc)?;
    let text = written_old(alloc, &facts)?;
    Ok(text.as_slice() == OLD_LINES)
}

/// Old ones have keys of their own.
#[test]
fn facts_are_written_as_two_lines(rt: HostRuntime) -> Result<(), Fail> {
    let now = are_written(rt.alloc())?;
    let old = are_written_old(rt.alloc())?;
    assert!(rt; now && old);
    Ok(())
}

/// Only the letter `a` is sure.
fn only_a() -> Marks {
    let mut marks = Marks::none();
    marks.add(Letter::at(0));
    marks
}

fn is_known(facts: &[KnownLine], place: usize, name: Name, pattern: &[u8], matches: bool) -> bool {
    match facts.get(place) {
        Some(fact) => {
            fact.name == name && fact.pattern.as_slice() == pattern && fact.matches == matches
        }
        None => false,
    }
}

fn are_known(facts: &[KnownLine]) -> bool {
    let a = Name::of(Letter::at(0));
    facts.len() == 3
        && is_known(facts, 0, Name::CURRENT_LINE, b"^ a%$", true)
        && is_known(facts, 1, Name::LAST_LINE, b"x", false)
        && is_known(facts, 2, a, b"^Port", true)
}

fn read_known(alloc: Global, line: &[u8]) -> Result<bool, AllocError> {
    match known_in(alloc, b"lines", &only_a(), line)? {
        Some(facts) => Ok(are_known(facts.as_slice())),
        None => Ok(false),
    }
}

#[test]
fn facts_of_lines_are_read(rt: HostRuntime) -> Result<(), Fail> {
    assert!(rt; read_known(rt.alloc(), b"lines .+=^%20a%25$ $-=x a+=^Port")?);
    Ok(())
}

fn is_clear(
    stretches: &[ClearStretch],
    place: usize,
    after: u8,
    before: u8,
    pattern: &[u8],
) -> bool {
    match stretches.get(place) {
        Some(stretch) => {
            stretch.after == after
                && stretch.before == before
                && stretch.pattern.as_slice() == pattern
        }
        None => false,
    }
}

fn are_stretches(stretches: &[ClearStretch]) -> bool {
    stretches.len() == 3
        && is_clear(stretches, 0, 0, 1, b"")
        && is_clear(stretches, 1, 0, 6, b"^Port")
        && is_clear(stretches, 2, 6, ClearStretch::END, b"x")
}

fn read_stretches(alloc: Global, line: &[u8]) -> Result<bool, AllocError> {
    match clear_in(alloc, b"old-clear", &only_a(), line)? {
        Some(stretches) => Ok(are_stretches(stretches.as_slice())),
        None => Ok(false),
    }
}

#[test]
fn stretches_are_read(rt: HostRuntime) -> Result<(), Fail> {
    assert!(rt; read_stretches(rt.alloc(), b"old-clear 0-.= 0-a=^Port a-$+=x")?);
    Ok(())
}

/// What is read of two lines, if anything.
fn read(alloc: Global, known: &[u8], clear: &[u8]) -> Result<Option<LineFacts>, AllocError> {
    let marks = only_a();
    let Some(lines) = known_in(alloc, b"lines", &marks, known)? else {
        return Ok(None);
    };
    let Some(clear) = clear_in(alloc, b"clear", &marks, clear)? else {
        return Ok(None);
    };
    Ok(Some(LineFacts { lines, clear }))
}

/// Lines, and the text of both.
#[derive(Drop)]
struct Lines {
    known: &'static [u8],
    clear: &'static [u8],
    text: &'static [u8],
}

#[rattlefmt::skip]
static READ: [Lines; 4] = [
    Lines { known: b"lines", clear: b"clear", text: b"lines\nclear\n" },
    Lines { known: b"lines .+=", clear: b"clear 0-$+=", text: b"lines .+=\nclear 0-$+=\n" },
    // A name has facts of several patterns, which rise; what a letter says comes last.
    Lines { known: b"lines .+=a .-=ab .+=b $-=%0a a-==", clear: b"clear 0-.=x 0-a=x 0-$+=x .-a=x .-a=y a-.=%00",
        text: b"lines .+=a .-=ab .+=b $-=%0a a-==\nclear 0-.=x 0-a=x 0-$+=x .-a=x .-a=y a-.=%00\n" },
    Lines { known: b"lines $+=+", clear: b"clear .-$+=-", text: b"lines $+=+\nclear .-$+=-\n" },
];

fn is_written_again(alloc: Global, row: &Lines) -> Result<bool, AllocError> {
    let Some(facts) = read(alloc, row.known, row.clear)? else {
        return Ok(false);
    };
    let text = written(alloc, &facts)?;
    Ok(text.as_slice() == row.text)
}

fn first_not_written(alloc: Global, rows: &[Lines]) -> Result<Option<usize>, AllocError> {
    for (index, row) in rows.iter().enumerate() {
        if !is_written_again(alloc, row)? {
            return Ok(Some(index));
        }
    }
    Ok(None)
}

#[test]
fn what_is_read_is_written_again(rt: HostRuntime) -> Result<(), Fail> {
    assert_eq!(rt; first_not_written(rt.alloc(), &READ)?, None);
    Ok(())
}

/// Lines of no facts.
#[rattlefmt::skip]
static NOT_KNOWN: [&[u8]; 22] = [
    // A name twice for a pattern.
    b"lines .+=x .-=x",
    b"lines .+=x .+=x",
    // Names, and patterns of a name, that don't rise.
    b"lines a+=x .+=x",
    b"lines .+=y .-=x",
    // No line has the number 0, and none comes after the last.
    b"lines 0+=x",
    b"lines $++=x",
    // A letter that isn't sure, and no letter.
    b"lines b+=x",
    b"lines A+=x",
    b"lines ++=x",
    // A sign that is missing, or another.
    b"lines .=x",
    b"lines .+x",
    b"lines .*=x",
    b"lines .+-",
    b"lines .",
    // Escapes that end early, that no byte needs, or with capitals.
    b"lines .+=%2",
    b"lines .+=%61",
    b"lines .+=%0A",
    b"lines .+=\x01",
    // Other spaces, and another key.
    b"lines ",
    b"lines  .+=x",
    b"lines .+=x ",
    b"clear",
];

fn first_known(alloc: Global, lines: &[&[u8]]) -> Result<Option<usize>, AllocError> {
    for (index, line) in lines.iter().enumerate() {
        if known_in(alloc, b"lines", &only_a(), line)?.is_some() {
            return Ok(Some(index));
        }
    }
    Ok(None)
}

#[test]
fn lines_of_no_facts_are_refused(rt: HostRuntime) -> Result<(), Fail> {
    assert_eq!(rt; first_known(rt.alloc(), &NOT_KNOWN)?, None);
    Ok(())
}

/// Lines of no stretches.
#[rattlefmt::skip]
static NOT_CLEAR: [&[u8]; 22] = [
    // From a name to itself.
    b"clear a-a=x",
    b"clear .-.=x",
    b"clear 0-0=x",
    // None begins after the last line, and none ends before it or at 0.
    b"clear $-a=x",
    b"clear $+-a=x",
    b"clear 0-$=x",
    b"clear a-0=x",
    // A letter that isn't sure, and no letter.
    b"clear 0-b=x",
    b"clear b-$+=x",
    b"clear 0-A=x",
    // A sign that is missing.
    b"clear 0a=x",
    b"clear 0-ax",
    b"clear 0-$=+x",
    b"clear 0-",
    b"clear -a=x",
    // One twice, and names that don't rise.
    b"clear 0-a=x 0-a=x",
    b"clear 0-a=y 0-a=x",
    b"clear 0-$+=x 0-a=x",
    b"clear a-.=x 0-a=x",
    // Escapes that end early, or that no byte needs.
    b"clear 0-a=%",
    b"clear 0-a=%78",
    b"lines",
];

fn first_clear(alloc: Global, lines: &[&[u8]]) -> Result<Option<usize>, AllocError> {
    for (index, line) in lines.iter().enumerate() {
        if clear_in(alloc, b"clear", &only_a(), line)?.is_some() {
            return Ok(Some(index));
        }
    }
    Ok(None)
}

#[test]
fn lines_of_no_stretches_are_refused(rt: HostRuntime) -> Result<(), Fail> {
    assert_eq!(rt; first_clear(rt.alloc(), &NOT_CLEAR)?, None);
    Ok(())
}
