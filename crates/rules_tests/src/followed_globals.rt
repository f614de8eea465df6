//! What is known of single lines in the list of a global command, and after it. Worked out by hand.

use crate::facts_after::{Asked, answers_otherwise, begin};
use crate::globals::{begun, ended, entered};
use crate::walking::{Unreached, pass_all};
use ed_rules::State;
use std::alloc::Global;
use std::test::Fail;

/// A script, what is done before it, and what is known as its first command's list begins; `y` matches A alone, and `z` comes after it
/// and matches B.
#[derive(Drop)]
struct Beginning {
    before: &'static [u8],
    script: &'static [u8],
    asked: Asked,
}

const YES: Option<bool> = Some(true);

const NO: Option<bool> = Some(false);

#[rattlefmt::skip]
static BEGINNING: [Beginning; 13] = [
    // What is known of letters and between them stays.
    Beginning { before: b"", script: b"g/C/p\n", asked: Asked::Line(b'y', b"A", YES) },
    Beginning { before: b"", script: b"v/C/p\n", asked: Asked::Clear(b'y', b'+', b"A", true) },
    Beginning { before: b"", script: b"g/A/p\n", asked: Asked::Clear(b'y', b'z', b"B", true) },
    // The line that was taken matches the pattern, or for `v` it doesn't.
    Beginning { before: b"", script: b"g/C/p\n", asked: Asked::Line(b'.', b"C", YES) },
    Beginning { before: b"", script: b"v/C/p\n", asked: Asked::Line(b'.', b"C", NO) },
    Beginning { before: b"", script: b"v/A/p\n", asked: Asked::Line(b'.', b"A", NO) },
    // Of a pattern that isn't given nothing is known.
    Beginning { before: b"/A/p\n", script: b"g//p\n", asked: Asked::Line(b'.', b"A", None) },
    Beginning { before: b"/A/p\n", script: b"v//p\n", asked: Asked::Line(b'.', b"A", None) },
    // What was known of the line that was current isn't known of the one that was taken.
    Beginning { before: b"'zp\n", script: b"g/C/p\n", asked: Asked::Line(b'.', b"B", None) },
    Beginning { before: b"'zp\n", script: b"g/C/p\n", asked: Asked::Line(b'.', b"A", None) },
    Beginning { before: b"'yp\n", script: b"g/C/p\n", asked: Asked::Clear(b'.', b'+', b"A", false) },
    Beginning { before: b"'zp\n", script: b"v/C/p\n", asked: Asked::Clear(b'y', b'.', b"B", false) },
    Beginning { before: b"'zp\n", script: b"v/C/p\n", asked: Asked::Line(b'z', b"B", YES) },
];

fn entered_after(alloc: Global, row: &Beginning, before: &State) -> Result<bool, Unreached> {
    let started = begun(alloc, row.script, before)?;
    let entry = entered(alloc, row.script, &started)?;
    Ok(answers_otherwise(&entry, row.asked))
}

fn begins_otherwise(alloc: Global, row: &Beginning) -> Result<bool, Unreached> {
    let mut before = begin(alloc)?;
    pass_all(alloc, row.before, &mut before)?;
    entered_after(alloc, row, &before)
}

fn first_begins_otherwise(alloc: Global, rows: &[Beginning]) -> Result<Option<usize>, Unreached> {
    for (index, row) in rows.iter().enumerate() {
        if begins_otherwise(alloc, row)? {
            return Ok(Some(index));
        }
    }
    Ok(None)
}

#[test]
fn a_list_begins_with_what_is_known_of_other_lines(rt: HostRuntime) -> Result<(), Fail> {
    assert_eq!(rt; first_begins_otherwise(rt.alloc(), &BEGINNING)?, None);
    Ok(())
}

/// Whether a state, and the one after undo, answer alike.
fn both_answer(alloc: Global, end: &mut State, asked: Asked) -> Result<bool, Unreached> {
    if answers_otherwise(end, asked) {
        return Ok(false);
    }
    pass_all(alloc, b"u\n", end)?;
    Ok(!answers_otherwise(end, asked))
}

/// The state after a global command whose list leaves what is known as it is.
fn unmoved(alloc: Global, script: &[u8], before: &State) -> Result<State, Unreached> {
    let started = begun(alloc, script, before)?;
    ended(alloc, script, before, &started)
}

fn ends_so_after(
    alloc: Global,
    script: &[u8],
    before: &State,
    asked: Asked,
) -> Result<bool, Unreached> {
    let mut end = unmoved(alloc, script, before)?;
    both_answer(alloc, &mut end, asked)
}

/// Whether this is known after the global command, and once undo has brought the lines back that were before.
fn ends_so(alloc: Global, script: &[u8], asked: Asked) -> Result<bool, Unreached> {
    let before = begin(alloc)?;
    ends_so_after(alloc, script, &before, asked)
}

#[test]
fn what_is_known_at_every_turn_is_known_after_the_last(rt: HostRuntime) -> Result<(), Fail> {
    let printed = ends_so(rt.alloc(), b"g/C/p\n", Asked::Line(b'y', b"A", YES))?;
    let deleted = ends_so(rt.alloc(), b"v/C/d\n", Asked::Clear(b'y', b'z', b"B", true))?;
    assert!(rt; printed && deleted);
    Ok(())
}

fn enters_unknown(alloc: Global, before: &State) -> Result<bool, Unreached> {
    let started = begun(alloc, b"g/C/p\n", before)?;
    let entry = entered(alloc, b"g/C/p\n", &started)?;
    Ok(entry.facts.are_none() && !entry.follows)
}

fn unfollowed(alloc: Global) -> Result<bool, Unreached> {
    let mut before = begin(alloc)?;
    before.forget_facts();
    enters_unknown(alloc, &before)
}

#[test]
fn nothing_is_known_of_a_line_that_is_taken_where_none_are_followed(
    rt: HostRuntime,
) -> Result<(), Fail> {
    assert!(rt; unfollowed(rt.alloc())?);
    Ok(())
}
