//! What is known of the line that `s` makes of one, in a run that follows single lines. Worked out by hand.

use crate::facts_after::{Asked, add_clear, add_line, answers_otherwise, passes};
use crate::walking::{Start, lines, named, state_of};
use ed_base::Letter;
use ed_rules::State;
use std::alloc::{AllocError, Global};
use std::test::Fail;
use zones::Name;

/// Four to nine lines, the last one current. `y` comes before `z`, and `z` before the last line.
fn begin(alloc: Global) -> Result<State, AllocError> {
    let mut state = state_of(alloc, lines!(4, Some(9)))?;
    state.marks.add(Letter::at(24));
    state.marks.add(Letter::at(25));
    state.zone.guard(Name::ZERO, named(b'y'), -1);
    state.zone.guard(named(b'y'), named(b'z'), -1);
    state.zone.guard(named(b'z'), Name::LAST_LINE, -1);
    state.follows = true;
    Ok(state)
}

/// What is known as a script begins.
#[derive(Clone, Copy)]
enum Beginning {
    /// `y` is the first line that begins with Port, and it has a 22.
    Port,
    /// `y` begins with B and has an x, and `z` is the first line that begins with C.
    Three,
    /// The same, but that `y` may have its B elsewhere.
    ThreeOpen,
    /// `y` is a comment that begins with L and has a localhost.
    Comment,
}

fn know_port(state: &mut State) -> Result<(), AllocError> {
    add_line(state, b'y', b"^Port", true)?;
    add_line(state, b'y', b"22", true)?;
    add_clear(state, b'0', b'y', b"^Port")
}

fn know_three(state: &mut State, first: &[u8]) -> Result<(), AllocError> {
    add_line(state, b'y', first, true)?;
    add_line(state, b'y', b"x", true)?;
    add_line(state, b'z', b"^C", true)?;
    add_clear(state, b'0', b'z', b"^C")
}

fn know_comment(state: &mut State) -> Result<(), AllocError> {
    add_line(state, b'y', b"^#", true)?;
    add_line(state, b'y', b"^#L", true)?;
    add_line(state, b'y', b"localhost", true)
}

fn know(state: &mut State, beginning: Beginning) -> Result<(), AllocError> {
    match beginning {
        Beginning::Port => know_port(state),
        Beginning::Three => know_three(state, b"^B"),
        Beginning::ThreeOpen => know_three(state, b"B"),
        Beginning::Comment => know_comment(state),
    }
}

/// A script, and what is known then.
#[derive(Drop)]
struct Row {
    script: &'static [u8],
    asked: Asked,
}

const YES: Option<bool> = Some(true);

#[rattlefmt::skip]
static PORT: [Row; 21] = [
    // The beginning stays, and its stretch with it; what is replaced isn't known any more, and the letter is gone.
    Row { script: b"'ys/22/2222/\n", asked: Asked::Line(b'.', b"^Port", YES) },
    Row { script: b"'ys/22/2222/\n", asked: Asked::Clear(b'0', b'.', b"^Port", true) },
    Row { script: b"'ys/22/2222/\n", asked: Asked::Line(b'.', b"22", None) },
    Row { script: b"'ys/22/2222/\n", asked: Asked::Line(b'y', b"^Port", None) },
    Row { script: b"'ys/22/2222/\n/^Port/p\n", asked: Asked::Line(b'.', b"^Port", YES) },
    Row { script: b"/^Port/s/22/2222/\n", asked: Asked::Line(b'.', b"^Port", YES) },
    Row { script: b"/^Port/s/22/2222/\n", asked: Asked::Clear(b'0', b'.', b"^Port", true) },
    Row { script: b"/^Port/s/22/2222/\n", asked: Asked::Line(b'.', b"22", None) },
    // Whichever matches are replaced, by whatever, and once more.
    Row { script: b"'ys/22/&Host/g\n", asked: Asked::Line(b'.', b"^Port", YES) },
    Row { script: b"'ys/22/x/\ns/$/;/\n", asked: Asked::Line(b'.', b"^Port", YES) },
    Row { script: b"'ys/$/;/\ns//,/\n", asked: Asked::Line(b'.', b"^Port", YES) },
    // At the line's ends.
    Row { script: b"'ys/$/ x/\n", asked: Asked::Line(b'.', b"^Port", YES) },
    Row { script: b"'ys/$/ x/\n", asked: Asked::Line(b'.', b"22", YES) },
    Row { script: b"'ys/^/#/\n", asked: Asked::Line(b'.', b"^Port", None) },
    Row { script: b"'ys/^/#/\n", asked: Asked::Line(b'.', b"22", YES) },
    // The beginning is replaced.
    Row { script: b"'ys/^Port/Host/\n", asked: Asked::Line(b'.', b"^Port", None) },
    Row { script: b"'ys/^Port/Host/\n", asked: Asked::Line(b'.', b"22", YES) },
    Row { script: b"'ys/x*/y/\n", asked: Asked::Line(b'.', b"^Port", None) },
    // Where the line may be split nothing is known.
    Row { script: b"'ys/22/x\\\ny/\n", asked: Asked::Line(b'.', b"^Port", None) },
    // Undo brings back what was known before, and then this.
    Row { script: b"'ys/22/x/\nu\n", asked: Asked::Line(b'y', b"^Port", YES) },
    Row { script: b"'ys/22/x/\nu\nu\n", asked: Asked::Line(b'.', b"^Port", YES) },
];

#[rattlefmt::skip]
static THREE: [Row; 3] = [
    // The line that comes of it begins with B, so it doesn't match: the stretch goes on over it.
    Row { script: b"'ys/x/y/\n", asked: Asked::Clear(b'0', b'z', b"^C", true) },
    Row { script: b"'ys/x/y/\n", asked: Asked::Clear(b'.', b'z', b"^C", true) },
    Row { script: b"'ys/^B/y/\n", asked: Asked::Clear(b'0', b'z', b"^C", false) },
];

#[rattlefmt::skip]
static THREE_OPEN: [Row; 2] = [
    // It may begin with what is put in.
    Row { script: b"'ys/x/C/\n", asked: Asked::Clear(b'0', b'z', b"^C", false) },
    Row { script: b"'ys/x/C/\n", asked: Asked::Line(b'.', b"B", YES) },
];

#[rattlefmt::skip]
static COMMENT: [Row; 4] = [
    // The word stays, so that a second `s` finds it.
    Row { script: b"'ys/^#//\n", asked: Asked::Line(b'.', b"localhost", YES) },
    Row { script: b"'ys/^#//\n", asked: Asked::Line(b'.', b"^#L", None) },
    Row { script: b"'ys/^#//\n", asked: Asked::Line(b'.', b"^#", None) },
    Row { script: b"'ys/^#//\ns/localhost/x/\n", asked: Asked::Line(b'.', b"localhost", None) },
];

fn passes_knowing(
    alloc: Global,
    beginning: Beginning,
    script: &[u8],
    state: &mut State,
) -> Result<bool, AllocError> {
    know(state, beginning)?;
    passes(alloc, script, state)
}

/// Whether a script comes to something else than its row says.
fn is_otherwise(alloc: Global, beginning: Beginning, row: &Row) -> Result<bool, AllocError> {
    let mut state = begin(alloc)?;
    let passed = passes_knowing(alloc, beginning, row.script, &mut state)?;
    Ok(!passed || answers_otherwise(&state, row.asked))
}

/// The first row whose script comes to something else.
fn first_otherwise(
    alloc: Global,
    beginning: Beginning,
    rows: &[Row],
) -> Result<Option<usize>, AllocError> {
    for (index, row) in rows.iter().enumerate() {
        if is_otherwise(alloc, beginning, row)? {
            return Ok(Some(index));
        }
    }
    Ok(None)
}

#[test]
fn what_a_substitution_leaves_of_a_line_stays_known(rt: HostRuntime) -> Result<(), Fail> {
    let alloc = rt.alloc();
    assert_eq!(rt; first_otherwise(alloc, Beginning::Port, &PORT)?, None);
    assert_eq!(rt; first_otherwise(alloc, Beginning::Three, &THREE)?, None);
    assert_eq!(rt;
        first_otherwise(alloc, Beginning::ThreeOpen, &THREE_OPEN)?,
        None
    );
    assert_eq!(rt; first_otherwise(alloc, Beginning::Comment, &COMMENT)?, None);
    Ok(())
}
