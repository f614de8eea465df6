//! Substitution on one line: what becomes of it, and that a call that is out of memory gives no other answer.
use crate::expected::are_lines;
use bre_parse::Bre;
use ed_base::Text;
use ed_commands::substitute;
use ed_syntax::{MatchNumber, Part, Replacement, Which};
use std::alloc::{AllocError, Global};
use std::test::Fail;

// Which matches are replaced, as a script counts them.
#[derive(Clone, Copy)]
enum Count {
    First,
    Nth(u32),
    All,
}

struct Row {
    pattern: &'static [u8],
    parts: &'static [Part],
    count: Count,
    line: &'static [u8],
    /// None where nothing is replaced.
    lines: Option<&'static [&'static [u8]]>,
}

const HYPHEN: &[Part] = &[Part::Literal(b'-')];

const LETTER: &[Part] = &[Part::Literal(b'x')];

// XCU ed, "Substitute Command"; the answers were worked by hand, and are those of GNU ed and sed.
#[rattlefmt::skip]
static ROWS: [Row; 12] = [
    Row { pattern: b"x*", parts: HYPHEN, count: Count::All, line: b"abc", lines: Some(&[b"-a-b-c-"]) },
    Row { pattern: b"x*", parts: HYPHEN, count: Count::All, line: b"baxc", lines: Some(&[b"-b-a-c-"]) },
    Row { pattern: b"b*", parts: LETTER, count: Count::Nth(2), line: b"abb", lines: Some(&[b"ax"]) },
    Row { pattern: b"X", parts: HYPHEN, count: Count::First, line: b"aXbXc", lines: Some(&[b"a-bXc"]) },
    Row { pattern: b"X", parts: HYPHEN, count: Count::Nth(2), line: b"aXbXc", lines: Some(&[b"aXb-c"]) },
    Row { pattern: b"X", parts: HYPHEN, count: Count::Nth(3), line: b"aXbXc", lines: None },
    Row { pattern: b"\\(a*\\)*", parts: &[Part::Literal(b'x'), Part::Group(0)], count: Count::All, line: b"baac", lines: Some(&[b"xbxaacx"]) },
    Row { pattern: b"\\(b\\)\\(x\\)*", parts: &[Part::Literal(b'['), Part::Group(1), Part::Literal(b']')], count: Count::First, line: b"ab", lines: Some(&[b"a[]"]) },
    Row { pattern: b"\\(ab*\\)\\1", parts: &[Part::Literal(b'<'), Part::Match, Part::Literal(b'>')], count: Count::First, line: b"abbabbb", lines: Some(&[b"<abbabb>b"]) },
    Row { pattern: b",", parts: &[Part::Split], count: Count::All, line: b"a,b,c", lines: Some(&[b"a", b"b", b"c"]) },
    Row { pattern: b"$", parts: LETTER, count: Count::First, line: b"", lines: Some(&[b"x"]) },
    Row { pattern: b"z", parts: HYPHEN, count: Count::All, line: b"abc", lines: None },
];

fn replacement(alloc: Global, parts: &[Part]) -> Result<Replacement, AllocError> {
    let mut replacement = Replacement::new(alloc);
    for part in parts {
        replacement.push(*part)?;
    }
    Ok(replacement)
}

/// No match has the number 0.
fn which(count: Count) -> Option<Which> {
    match count {
        Count::First => Some(Which::First),
        Count::Nth(number) => Some(Which::Nth(MatchNumber::new(number)?)),
        Count::All => Some(Which::All),
    }
}

/// What becomes of the row's line.
fn replaced(alloc: Global, row: &Row) -> Result<Option<Text>, AllocError> {
    let replacement = replacement(alloc, row.parts)?;
    match (Bre::read(alloc, row.pattern), which(row.count)) {
        (Ok(pattern), Some(which)) => substitute(alloc, &pattern, &replacement, which, row.line),
        _ => Err(AllocError),
    }
}

fn is_made(made: &Option<Text>, lines: Option<&[&[u8]]>) -> bool {
    match (made, lines) {
        (None, None) => true,
        (Some(made), Some(lines)) => are_lines(made, lines),
        _ => false,
    }
}

#[test]
fn a_line_becomes_what_the_standard_says(rt: HostRuntime) {
    for row in &ROWS {
        let made = replaced(rt.alloc(), row).expect(
            &rt,
            "a pattern, a number from 1 on, and memory",
        );
        assert!(rt;
            is_made(&made, row.lines),
            "{:?} on {:?}: {made:?}",
            row.pattern,
            row.line
        );
    }
}

/// The lines that crates/ed_commands/README.md shows a caller.
#[test]
fn the_caller_that_the_readme_shows_swaps_two_words(rt: HostRuntime) -> Result<(), Fail> {
    let alloc = rt.alloc();
    let pattern = Bre::read(alloc, b"\\([0-9]*\\) \\([a-z]*\\)")?;
    let mut swapped = Replacement::new(alloc);
    for part in [Part::Group(1), Part::Literal(b' '), Part::Group(0)] {
        swapped.push(part)?;
    }
    let lines = substitute(alloc, &pattern, &swapped, Which::First, b"12 ab")?;
    assert!(rt; is_made(&lines, Some(&[b"ab 12"])), "{:?}", lines);
    Ok(())
}

/// To be run with each allocation refused in turn (`rt try --test --fail-alloc N`): there is no answer or the right one.
#[test]
fn being_out_of_memory_is_no_other_answer(rt: HostRuntime) {
    for row in [&ROWS[1], &ROWS[6], &ROWS[9]] {
        let is_right = match &replaced(rt.alloc(), row) {
            Ok(made) => is_made(made, row.lines),
            Err(_) => true,
        };
        assert!(rt; is_right, "{:?}", row.pattern);
    }
}
