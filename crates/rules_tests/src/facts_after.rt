//! What is known of single lines after a command, in a run that follows them. Worked out by hand.

ghost use Rattle.std.specs.Prelude.{◌<◌, ◌≤ℤ◌, pos, negsuc};

use crate::walking::{Start, lines, named, state_of, walk_commands};
use ed_base::{Bytes, Letter, Texts};
use ed_rules::{ClearStretch, KnownLine, State, Watch, outcome_into};
use ed_syntax::{Command, Script, read_script};
use std::alloc::{AllocError, Global};
use std::test::Fail;
use zones::Name;

/// The name of a place: a letter, `.`, `$` or `0`.
fn at(byte: u8) -> Name {
    match byte {
        b'0' => Name::ZERO,
        b'.' => Name::CURRENT_LINE,
        b'$' | b'+' => Name::LAST_LINE,
        letter => named(letter),
    }
}

/// One more than the last line, which is spelled `+`, is that much more than `$`.
fn plus(byte: u8) -> i64
    ensures small { (negsuc 9 ≤ℤ result) × (result ≤ℤ pos 9) }
{
    if byte == b'+' { 1 } else { 0 }
}

fn edge(byte: u8) -> u8
    ensures in_range { result < 33 }
{
    if byte == b'+' {
        ClearStretch::END
    } else {
        at(byte).place() as u8
    }
}

pub(crate) fn add_line(
    state: &mut State,
    name: u8,
    pattern: &[u8],
    matches: bool,
) -> Result<(), AllocError> {
    let pattern = Bytes::from_slice(*state.facts.lines.allocator(), pattern)?;
    state.facts.lines.push(KnownLine {
        name: at(name),
        pattern,
        matches,
    })?;
    Ok(())
}

pub(crate) fn add_clear(
    state: &mut State,
    after: u8,
    before: u8,
    pattern: &[u8],
) -> Result<(), AllocError> {
    let pattern = Bytes::from_slice(*state.facts.clear.allocator(), pattern)?;
    state.facts.clear.push(ClearStretch {
        after: edge(after),
        before: edge(before),
        pattern,
    })?;
    Ok(())
}

/// Four to nine lines, the last one current. `y` is the first line that matches A, and comes after line 1; `z` is the first one after it
/// that matches B, and comes before the last line. No line after `y` matches A.
pub(crate) fn begin(alloc: Global) -> Result<State, AllocError> {
    let mut state = state_of(alloc, lines!(4, Some(9)))?;
    know_two(&mut state)?;
    Ok(state)
}

fn know_two(state: &mut State) -> Result<(), AllocError> {
    state.marks.add(Letter::at(24));
    state.marks.add(Letter::at(25));
    state.zone.guard(Name::ZERO, at(b'y'), -2);
    state.zone.guard(at(b'y'), at(b'z'), -1);
    state.zone.guard(at(b'z'), Name::LAST_LINE, -1);
    state.follows = true;
    add_line(state, b'y', b"A", true)?;
    add_clear(state, b'0', b'y', b"A")?;
    add_clear(state, b'y', b'+', b"A")?;
    add_line(state, b'z', b"B", true)?;
    add_clear(state, b'y', b'z', b"B")
}

/// What is asked of a state: whether a line is known to match a pattern, or whether no line between two is known to.
#[derive(Clone, Copy, Debug)]
pub(crate) enum Asked {
    Line(u8, &'static [u8], Option<bool>),
    Clear(u8, u8, &'static [u8], bool),
}

/// Whether the place of a name is that of a command's address.
fn is_address(place: usize) -> bool {
    3 <= place && place < 6
}

/// Whether facts are left of a command's addresses.
fn names_addresses(state: &State) -> bool {
    for fact in &state.facts.lines {
        if is_address(fact.name.place()) {
            return true;
        }
    }
    for stretch in &state.facts.clear {
        if is_address(usize::from(stretch.after)) || is_address(usize::from(stretch.before)) {
            return true;
        }
    }
    false
}

/// Whether a state answers something else.
pub(crate) fn answers_otherwise(state: &State, asked: Asked) -> bool {
    match asked {
        Asked::Line(x, pattern, answer) => state.facts.told(&state.zone, at(x), pattern) != answer,
        Asked::Clear(x, y, pattern, answer) => {
            let (zone, facts) = (&state.zone, &state.facts);
            facts.are_clear(zone, at(x), plus(x), at(y), plus(y), pattern) != answer
        }
    }
}

/// A script, and what is known then.
#[derive(Drop)]
struct Row {
    script: &'static [u8],
    asked: Asked,
}

const YES: Option<bool> = Some(true);

const NO: Option<bool> = Some(false);

#[rattlefmt::skip]
static KEPT: [Row; 18] = [
    Row { script: b"=\n", asked: Asked::Line(b'y', b"A", YES) },
    Row { script: b"=\n", asked: Asked::Clear(b'0', b'y', b"A", true) },
    Row { script: b"=\n", asked: Asked::Clear(b'y', b'+', b"A", true) },
    Row { script: b"=\n", asked: Asked::Line(b'y', b"B", None) },
    Row { script: b"'y=\n", asked: Asked::Line(b'y', b"A", YES) },
    Row { script: b"h\n", asked: Asked::Line(b'y', b"A", YES) },
    Row { script: b"H\n", asked: Asked::Line(b'y', b"A", YES) },
    Row { script: b"P\n", asked: Asked::Clear(b'y', b'z', b"B", true) },
    Row { script: b"w\n", asked: Asked::Line(b'z', b"B", YES) },
    Row { script: b"1,'yw\n", asked: Asked::Line(b'z', b"B", YES) },
    Row { script: b"f G\n", asked: Asked::Clear(b'0', b'y', b"A", true) },
    Row { script: b"q\n", asked: Asked::Line(b'z', b"B", YES) },
    Row { script: b"Q\n", asked: Asked::Line(b'z', b"B", YES) },
    // A file in place of all, and lines that were before.
    Row { script: b"e\n", asked: Asked::Line(b'y', b"A", None) },
    Row { script: b"E\n", asked: Asked::Clear(b'0', b'+', b"A", false) },
    // An address is forgotten with its facts, and a letter that isn't sure.
    Row { script: b"'y=\n", asked: Asked::Line(b'z', b"A", NO) },
    Row { script: b"=\n", asked: Asked::Line(b'x', b"A", None) },
    Row { script: b"=\n", asked: Asked::Clear(b'x', b'+', b"C", false) },
];

#[rattlefmt::skip]
static CURRENT: [Row; 22] = [
    Row { script: b"'yp\n", asked: Asked::Line(b'.', b"A", YES) },
    Row { script: b"'yp\n", asked: Asked::Clear(b'0', b'.', b"A", true) },
    Row { script: b"'yp\n", asked: Asked::Clear(b'.', b'+', b"A", true) },
    Row { script: b"'yp\n", asked: Asked::Line(b'z', b"B", YES) },
    Row { script: b"'yl\n", asked: Asked::Line(b'.', b"A", YES) },
    Row { script: b"'yn\n", asked: Asked::Line(b'.', b"A", YES) },
    Row { script: b"'y\n", asked: Asked::Line(b'.', b"A", YES) },
    Row { script: b"1p\n", asked: Asked::Line(b'.', b"A", NO) },
    Row { script: b"1p\n", asked: Asked::Clear(b'.', b'y', b"A", true) },
    // The last line that is written is current.
    Row { script: b"'y,'zp\n", asked: Asked::Line(b'.', b"B", YES) },
    Row { script: b"'y,'zp\n", asked: Asked::Line(b'.', b"A", NO) },
    // What was known of the line that was current is not known of another one.
    Row { script: b"'yp\n'zp\n", asked: Asked::Line(b'.', b"A", NO) },
    Row { script: b"'yp\n3p\n", asked: Asked::Line(b'.', b"A", None) },
    Row { script: b"/A/p\n/B/p\n", asked: Asked::Line(b'.', b"B", YES) },
    // Without a text.
    Row { script: b"'ya\n.\n", asked: Asked::Line(b'.', b"A", YES) },
    Row { script: b"'zi\n.\n", asked: Asked::Line(b'.', b"B", YES) },
    // Marks.
    Row { script: b"'yka\n", asked: Asked::Line(b'a', b"A", YES) },
    Row { script: b"'yka\n", asked: Asked::Clear(b'0', b'a', b"A", true) },
    Row { script: b"'zky\n", asked: Asked::Line(b'y', b"A", NO) },
    Row { script: b"'zky\n", asked: Asked::Line(b'y', b"B", YES) },
    Row { script: b"'zky\n", asked: Asked::Clear(b'0', b'y', b"A", false) },
    Row { script: b"'zky\n'yp\n", asked: Asked::Line(b'.', b"B", YES) },
];

#[rattlefmt::skip]
static EDITS: [Row; 96] = [
    // `d`: letters on either side stay, and stretches only get shorter.
    Row { script: b"1d\n", asked: Asked::Line(b'y', b"A", YES) },
    Row { script: b"1d\n", asked: Asked::Clear(b'0', b'y', b"A", true) },
    Row { script: b"1d\n", asked: Asked::Clear(b'y', b'z', b"B", true) },
    Row { script: b"1d\n", asked: Asked::Clear(b'y', b'+', b"A", true) },
    Row { script: b"1d\n", asked: Asked::Clear(b'.', b'y', b"A", true) },
    Row { script: b"1d\n", asked: Asked::Line(b'.', b"A", None) },
    Row { script: b"'yp\n1d\n", asked: Asked::Line(b'.', b"A", None) },
    Row { script: b"$d\n", asked: Asked::Line(b'z', b"B", YES) },
    Row { script: b"$d\n", asked: Asked::Clear(b'y', b'+', b"A", true) },
    Row { script: b"'yd\n", asked: Asked::Line(b'y', b"A", None) },
    Row { script: b"'yd\n", asked: Asked::Line(b'z', b"B", YES) },
    Row { script: b"'yd\n", asked: Asked::Clear(b'0', b'+', b"A", true) },
    Row { script: b"'yd\n", asked: Asked::Clear(b'0', b'z', b"A", true) },
    Row { script: b"'yd\n", asked: Asked::Clear(b'0', b'z', b"B", false) },
    Row { script: b"'zd\n", asked: Asked::Line(b'z', b"B", None) },
    Row { script: b"'zd\n", asked: Asked::Line(b'y', b"A", YES) },
    Row { script: b",d\n", asked: Asked::Clear(b'0', b'+', b"A", true) },
    // `a`
    Row { script: b"0a\nx\n.\n", asked: Asked::Clear(b'0', b'y', b"A", true) },
    Row { script: b"0a\nx\n.\n", asked: Asked::Line(b'y', b"A", YES) },
    Row { script: b"0a\nx\n.\n", asked: Asked::Line(b'.', b"A", NO) },
    Row { script: b"0a\nA\n.\n", asked: Asked::Clear(b'0', b'y', b"A", false) },
    Row { script: b"0a\nA\n.\n", asked: Asked::Line(b'y', b"A", YES) },
    Row { script: b"0a\nA\n.\n", asked: Asked::Line(b'.', b"A", YES) },
    Row { script: b"0a\nA\n.\n", asked: Asked::Clear(b'.', b'y', b"A", true) },
    Row { script: b"$a\nx\n.\n", asked: Asked::Clear(b'y', b'+', b"A", true) },
    Row { script: b"$a\nA\n.\n", asked: Asked::Clear(b'y', b'+', b"A", false) },
    Row { script: b"$a\nA\n.\n", asked: Asked::Line(b'$', b"A", YES) },
    Row { script: b"$a\nA\n.\n", asked: Asked::Clear(b'y', b'.', b"A", true) },
    Row { script: b"$a\nA\nx\n.\n", asked: Asked::Line(b'$', b"A", NO) },
    Row { script: b"$a\nA\nx\n.\n", asked: Asked::Clear(b'y', b'.', b"A", false) },
    Row { script: b"$a\nx\nA\n.\n", asked: Asked::Clear(b'y', b'.', b"A", true) },
    Row { script: b"'ya\nB\n.\n", asked: Asked::Clear(b'y', b'z', b"B", false) },
    Row { script: b"'ya\nB\n.\n", asked: Asked::Clear(b'0', b'y', b"A", true) },
    Row { script: b"'ya\nx\n.\n", asked: Asked::Clear(b'y', b'z', b"B", true) },
    // Each letter stays where lines are put in, on whichever side it is.
    Row { script: b"2a\nx\n.\n", asked: Asked::Line(b'y', b"A", YES) },
    Row { script: b"2a\nx\n.\n", asked: Asked::Line(b'z', b"B", YES) },
    Row { script: b"2a\nx\n.\n", asked: Asked::Clear(b'0', b'y', b"A", true) },
    Row { script: b"2a\nx\n.\n", asked: Asked::Clear(b'y', b'z', b"B", true) },
    Row { script: b"2a\nA\n.\n", asked: Asked::Line(b'y', b"A", YES) },
    Row { script: b"2a\nA\n.\n", asked: Asked::Clear(b'0', b'y', b"A", false) },
    Row { script: b"2a\nB\n.\n", asked: Asked::Clear(b'0', b'y', b"A", true) },
    Row { script: b"2a\nB\n.\n", asked: Asked::Clear(b'y', b'z', b"B", false) },
    Row { script: b"3i\nx\n.\n", asked: Asked::Line(b'y', b"A", YES) },
    Row { script: b"3i\nA\n.\n", asked: Asked::Clear(b'y', b'+', b"A", false) },
    Row { script: b"3c\nx\n.\n", asked: Asked::Line(b'y', b"A", None) },
    // `r`: what comes may match anything, or be nothing.
    Row { script: b"$r\n", asked: Asked::Line(b'z', b"B", YES) },
    Row { script: b"$r\n", asked: Asked::Clear(b'0', b'y', b"A", true) },
    Row { script: b"$r\n", asked: Asked::Clear(b'y', b'+', b"A", false) },
    Row { script: b"0r\n", asked: Asked::Clear(b'y', b'+', b"A", true) },
    Row { script: b"0r\n", asked: Asked::Clear(b'.', b'y', b"A", true) },
    Row { script: b"0r\n", asked: Asked::Clear(b'0', b'y', b"A", false) },
    Row { script: b"2r\n", asked: Asked::Line(b'y', b"A", YES) },
    Row { script: b"'yr\n", asked: Asked::Line(b'.', b"A", None) },
    // `t`
    Row { script: b"'yt$\n", asked: Asked::Line(b'y', b"A", YES) },
    Row { script: b"'yt$\n", asked: Asked::Clear(b'0', b'y', b"A", true) },
    Row { script: b"'yt$\n", asked: Asked::Clear(b'y', b'z', b"B", true) },
    Row { script: b"'yt$\n", asked: Asked::Clear(b'y', b'+', b"A", false) },
    Row { script: b"1,'zt0\n", asked: Asked::Clear(b'y', b'+', b"A", true) },
    Row { script: b"1,'zt0\n", asked: Asked::Clear(b'0', b'y', b"A", false) },
    Row { script: b"1,'zt0\n", asked: Asked::Clear(b'.', b'y', b"A", true) },
    Row { script: b"$t2\n", asked: Asked::Line(b'z', b"B", YES) },
    // A copy of one line is like that.
    Row { script: b"'yt$\n", asked: Asked::Line(b'.', b"A", YES) },
    Row { script: b"'yt.\n", asked: Asked::Line(b'.', b"A", YES) },
    Row { script: b"'yt$\n", asked: Asked::Line(b'$', b"A", YES) },
    Row { script: b"'yt$\n", asked: Asked::Clear(b'y', b'.', b"A", true) },
    Row { script: b"'yt$\n", asked: Asked::Line(b'.', b"B", None) },
    Row { script: b"'zt$\n", asked: Asked::Line(b'.', b"A", NO) },
    Row { script: b"'zt$\n", asked: Asked::Clear(b'y', b'+', b"A", true) },
    Row { script: b"'zt'y\n", asked: Asked::Clear(b'y', b'z', b"B", false) },
    Row { script: b"'y,'zt$\n", asked: Asked::Line(b'.', b"A", None) },
    Row { script: b"'yt.\ns/A/x/\n", asked: Asked::Line(b'y', b"A", YES) },
    // `i`
    Row { script: b"'yi\nA\n.\n", asked: Asked::Clear(b'0', b'y', b"A", false) },
    Row { script: b"'yi\nA\n.\n", asked: Asked::Clear(b'0', b'.', b"A", true) },
    Row { script: b"'yi\nA\n.\n", asked: Asked::Line(b'y', b"A", YES) },
    Row { script: b"0i\nx\n.\n", asked: Asked::Clear(b'0', b'y', b"A", true) },
    // `c`
    Row { script: b"'yc\nA\n.\n", asked: Asked::Line(b'y', b"A", None) },
    Row { script: b"'yc\nA\n.\n", asked: Asked::Line(b'.', b"A", YES) },
    Row { script: b"'yc\nA\n.\n", asked: Asked::Clear(b'0', b'.', b"A", true) },
    Row { script: b"'yc\nA\n.\n", asked: Asked::Clear(b'.', b'+', b"A", true) },
    Row { script: b"'zc\nA\n.\n", asked: Asked::Clear(b'y', b'+', b"A", false) },
    Row { script: b"0c\nx\n.\n", asked: Asked::Clear(b'0', b'y', b"A", true) },
    Row { script: b"1c\n.\n", asked: Asked::Line(b'y', b"A", YES) },
    // `j`: of the line that was made nothing is known.
    Row { script: b"'y,'zj\n", asked: Asked::Line(b'.', b"A", None) },
    Row { script: b"'y,'zj\n", asked: Asked::Clear(b'0', b'.', b"A", true) },
    Row { script: b"'y,'zj\n", asked: Asked::Clear(b'0', b'+', b"A", false) },
    Row { script: b"'z,$j\n", asked: Asked::Line(b'y', b"A", YES) },
    Row { script: b"'z,$j\n", asked: Asked::Clear(b'y', b'+', b"A", false) },
    Row { script: b"'zj\n", asked: Asked::Line(b'z', b"B", YES) },
    Row { script: b"'yp\n'z,$j\n", asked: Asked::Line(b'.', b"A", None) },
    // `j` that may join: what is known whether it does or not. The second line may be the one that matches A.
    Row { script: b"2,'yj\n", asked: Asked::Line(b'z', b"B", YES) },
    Row { script: b"2,'yj\n", asked: Asked::Clear(b'z', b'+', b"A", true) },
    Row { script: b"2,'yj\n", asked: Asked::Line(b'y', b"A", None) },
    Row { script: b"2,'yj\n", asked: Asked::Clear(b'0', b'.', b"A", false) },
    Row { script: b"'zp\n2,'yj\n", asked: Asked::Line(b'.', b"B", None) },
    Row { script: b"2p\n2,'yj\n", asked: Asked::Clear(b'0', b'.', b"A", true) },
    // Where it doesn't, the second line is that of `y`.
    Row { script: b"2p\n2,'yj\n", asked: Asked::Clear(b'.', b'z', b"B", true) },
];

#[rattlefmt::skip]
static SUBSTITUTIONS: [Row; 50] = [
    // The line that comes of one has lost its A, and its letter; the others are as they were, with theirs.
    Row { script: b"'ys/A/x/\n", asked: Asked::Line(b'.', b"A", None) },
    Row { script: b"'ys/A/x/\n", asked: Asked::Line(b'y', b"A", None) },
    Row { script: b"'ys/A/x/\n", asked: Asked::Line(b'z', b"B", YES) },
    Row { script: b"'ys/A/x/\n", asked: Asked::Clear(b'0', b'.', b"A", true) },
    Row { script: b"'ys/A/x/\n", asked: Asked::Clear(b'.', b'+', b"A", true) },
    Row { script: b"'ys/A/x/\n", asked: Asked::Clear(b'.', b'z', b"B", true) },
    Row { script: b"'ys/A/x/\n", asked: Asked::Clear(b'0', b'+', b"A", false) },
    Row { script: b"'ys/A/x/\n", asked: Asked::Clear(b'0', b'z', b"A", false) },
    Row { script: b"/A/s//x/\n", asked: Asked::Line(b'z', b"B", YES) },
    Row { script: b"/A/s/A*$/x/g\n", asked: Asked::Line(b'z', b"B", YES) },
    Row { script: b"'zs/B/x/\n", asked: Asked::Line(b'y', b"A", YES) },
    Row { script: b"'zs/B/x/\n", asked: Asked::Clear(b'0', b'y', b"A", true) },
    Row { script: b"'zs/B/x/\n", asked: Asked::Clear(b'y', b'.', b"A", true) },
    Row { script: b"'zs/B/x/\n", asked: Asked::Clear(b'y', b'.', b"B", true) },
    Row { script: b"'zs/B/x/\n", asked: Asked::Clear(b'.', b'+', b"A", true) },
    Row { script: b"'zs/B/x/\n", asked: Asked::Clear(b'y', b'+', b"A", false) },
    Row { script: b"'yp\n'zs/B/x/\n", asked: Asked::Line(b'.', b"A", None) },
    Row { script: b"$s/x*/A/\n", asked: Asked::Line(b'z', b"B", YES) },
    Row { script: b"$s/x*/A/\n", asked: Asked::Clear(b'y', b'+', b"A", false) },
    Row { script: b"$s/x*/A/\n", asked: Asked::Line(b'$', b"A", None) },
    // Where lines may be split, a line that comes of it may be one that matches, before the last of them too.
    Row { script: b"'ys/A/A\\\nx/\n", asked: Asked::Line(b'z', b"B", YES) },
    Row { script: b"'ys/A/A\\\nx/\n", asked: Asked::Clear(b'0', b'.', b"A", false) },
    Row { script: b"'ys/A/A\\\nx/\n", asked: Asked::Clear(b'.', b'+', b"A", true) },
    Row { script: b"'zs/B/x\\\nx/\n", asked: Asked::Clear(b'0', b'y', b"A", true) },
    Row { script: b"'zs/B/x\\\nx/\n", asked: Asked::Clear(b'y', b'.', b"B", false) },
    // What is put in isn't looked at, whole lines neither.
    Row { script: b"'ys/.*/A/\n", asked: Asked::Line(b'.', b"A", None) },
    Row { script: b"'ys/A/AA/\n", asked: Asked::Line(b'.', b"A", None) },
    Row { script: b"'ys/A/B/\n", asked: Asked::Line(b'.', b"B", None) },
    Row { script: b"'ys/A/B/\n", asked: Asked::Clear(b'.', b'z', b"B", true) },
    Row { script: b"'zs/B/A/\n", asked: Asked::Clear(b'y', b'+', b"A", false) },
    // Of several lines those stay that the pattern doesn't match, and those outside.
    Row { script: b"'y,'zs/A/x/\n", asked: Asked::Line(b'z', b"B", YES) },
    Row { script: b"'y,'zs/A/x/\n", asked: Asked::Line(b'y', b"A", None) },
    Row { script: b"'y,'zs/A/x/\n", asked: Asked::Clear(b'z', b'+', b"A", true) },
    Row { script: b"'y,'zs/A/x/\n", asked: Asked::Clear(b'0', b'z', b"A", false) },
    Row { script: b"1,'ys/A/x/\n", asked: Asked::Line(b'z', b"B", YES) },
    Row { script: b"1,'ys/A/x/\n", asked: Asked::Clear(b'z', b'+', b"A", true) },
    Row { script: b"1,'zs/B/x/\n", asked: Asked::Line(b'z', b"B", None) },
    Row { script: b"1,'zs/B/x/\n", asked: Asked::Line(b'y', b"A", None) },
    Row { script: b"'z,$s/B/x/\n", asked: Asked::Line(b'y', b"A", YES) },
    Row { script: b"'z,$s/B/x/\n", asked: Asked::Clear(b'0', b'y', b"A", true) },
    Row { script: b"'z,$s/B/x/\n", asked: Asked::Clear(b'y', b'+', b"A", false) },
    // What comes of a line may match what none did, so a stretch stays only where no line of it may be changed.
    Row { script: b"'y+1,'zs/B/x/\n", asked: Asked::Clear(b'0', b'y', b"A", true) },
    Row { script: b"'y+1,'zs/B/x/\n", asked: Asked::Clear(b'y', b'+', b"A", false) },
    // The current line is one that was changed, and the last line stays if it is outside.
    Row { script: b"'zp\n1,'ys/A/x/\n", asked: Asked::Line(b'.', b"B", None) },
    Row { script: b"$a\nA\n.\n1,$-1s/A/x/\n", asked: Asked::Line(b'$', b"A", YES) },
    Row { script: b"$a\nA\n.\n1,$s/A/x/\n", asked: Asked::Line(b'$', b"A", None) },
    Row { script: b"$a\nA\n.\n1,$s/B/x/\n", asked: Asked::Line(b'$', b"A", YES) },
    // Where lines may be split nothing is left.
    Row { script: b"1,'ys/A/x\\\ny/\n", asked: Asked::Line(b'z', b"B", None) },
    Row { script: b"1,'ys/A/x\\\ny/\n", asked: Asked::Clear(b'z', b'+', b"A", false) },
    Row { script: b"'ys/A/x/\n1d\n", asked: Asked::Line(b'z', b"B", YES) },
];

#[rattlefmt::skip]
static UNDONE: [Row; 14] = [
    // What was known before is known again, of the current line too.
    Row { script: b"'yd\nu\n", asked: Asked::Line(b'y', b"A", YES) },
    Row { script: b"'yd\nu\n", asked: Asked::Clear(b'0', b'y', b"A", true) },
    Row { script: b"'ys/A/x/\nu\n", asked: Asked::Line(b'y', b"A", YES) },
    Row { script: b"'yp\n1d\nu\n", asked: Asked::Line(b'.', b"A", YES) },
    Row { script: b"0a\nA\n.\nu\n", asked: Asked::Clear(b'0', b'y', b"A", true) },
    Row { script: b"'yd\n'zp\nu\n", asked: Asked::Line(b'y', b"A", YES) },
    Row { script: b"'yd\n'zp\nu\n", asked: Asked::Line(b'.', b"B", None) },
    // Not of what a command left, nor of a letter that was set since.
    Row { script: b"$a\nA\n.\nu\n", asked: Asked::Line(b'$', b"A", NO) },
    Row { script: b"1d\n'zka\nu\n", asked: Asked::Line(b'a', b"B", None) },
    // Once more: what the command left.
    Row { script: b"'yd\nu\nu\n", asked: Asked::Line(b'y', b"A", None) },
    Row { script: b"'yd\nu\nu\n", asked: Asked::Clear(b'0', b'+', b"A", true) },
    Row { script: b"0a\nA\n.\nu\nu\n", asked: Asked::Clear(b'0', b'y', b"A", false) },
    Row { script: b"0a\nA\n.\nu\nu\n", asked: Asked::Line(b'.', b"A", YES) },
    Row { script: b"1d\n'zka\nu\nu\n", asked: Asked::Line(b'a', b"B", YES) },
];

#[rattlefmt::skip]
static MOVED: [Row; 24] = [
    // Letters go with their lines, and the last line that is moved is current.
    Row { script: b"'ym0\n", asked: Asked::Line(b'y', b"A", YES) },
    Row { script: b"'ym0\n", asked: Asked::Line(b'z', b"B", YES) },
    Row { script: b"'ym0\n", asked: Asked::Line(b'.', b"A", YES) },
    Row { script: b"'yp\n'zm0\n", asked: Asked::Line(b'.', b"B", YES) },
    Row { script: b"'yp\n'zm0\n", asked: Asked::Line(b'.', b"A", NO) },
    Row { script: b"'y,'zm0\n", asked: Asked::Line(b'.', b"B", YES) },
    Row { script: b"1m$\n", asked: Asked::Line(b'y', b"A", YES) },
    // A stretch stays on one side of what is moved and of its place.
    Row { script: b"'zm$\n", asked: Asked::Clear(b'0', b'y', b"A", true) },
    Row { script: b"'zm$\n", asked: Asked::Clear(b'y', b'+', b"A", false) },
    Row { script: b"'zm$\n", asked: Asked::Clear(b'y', b'z', b"B", false) },
    Row { script: b"$m'y\n", asked: Asked::Clear(b'0', b'y', b"A", true) },
    Row { script: b"$m'y\n", asked: Asked::Clear(b'y', b'z', b"B", false) },
    Row { script: b"$m'z\n", asked: Asked::Clear(b'y', b'z', b"B", true) },
    Row { script: b"$m0\n", asked: Asked::Clear(b'0', b'y', b"A", false) },
    Row { script: b"1m$\n", asked: Asked::Clear(b'0', b'y', b"A", false) },
    Row { script: b"'ym0\n", asked: Asked::Clear(b'y', b'z', b"B", false) },
    Row { script: b"'ym'z\n", asked: Asked::Clear(b'y', b'+', b"A", false) },
    Row { script: b"0a\nx\nx\n.\n1m2\n", asked: Asked::Clear(b'y', b'+', b"A", true) },
    // Where no line matches, none does after it.
    Row { script: b"'yd\n1m$\n", asked: Asked::Clear(b'0', b'+', b"A", true) },
    // The last line stays if it is after both.
    Row { script: b"$a\nA\n.\n1m2\n", asked: Asked::Line(b'$', b"A", YES) },
    Row { script: b"$a\nA\n.\n1m$\n", asked: Asked::Line(b'$', b"A", NO) },
    Row { script: b"$a\nA\n.\n$m0\n", asked: Asked::Line(b'$', b"A", None) },
    Row { script: b"$a\nA\n.\n$m0\n", asked: Asked::Line(b'.', b"A", YES) },
    Row { script: b"'zm0\ns/B/x/\n", asked: Asked::Line(b'y', b"A", YES) },
];

/// A and B, and what the commands of a script ask of lines.
fn watched(alloc: Global, script: &Script) -> Result<Watch, AllocError> {
    let mut has = Texts::none(alloc);
    has.add(b"A")?;
    has.add(b"B")?;
    Watch::of(script, &has)
}

fn passes_read(alloc: Global, script: &Script, state: &mut State) -> Result<bool, AllocError> {
    let watch = watched(alloc, script)?;
    let failing = walk_commands(script.commands.as_slice(), state, &watch)?;
    Ok(failing.is_none())
}

/// Takes a state through a script, in which A and B are watched for; it tells whether all needs hold.
pub(crate) fn passes(alloc: Global, script: &[u8], state: &mut State) -> Result<bool, AllocError> {
    let script = read_script(alloc, script)?;
    passes_read(alloc, &script, state)
}

/// The same where a letter that isn't sure has facts too, which are forgotten.
fn passes_knowing(alloc: Global, script: &[u8], state: &mut State) -> Result<bool, AllocError> {
    add_line(state, b'x', b"A", true)?;
    add_clear(state, b'x', b'+', b"C")?;
    passes(alloc, script, state)
}

/// Whether a script comes to something else than its row says.
fn is_otherwise(alloc: Global, row: &Row) -> Result<bool, AllocError> {
    let mut state = begin(alloc)?;
    let passed = passes_knowing(alloc, row.script, &mut state)?;
    Ok(!passed || names_addresses(&state) || answers_otherwise(&state, row.asked))
}

/// The first row whose script comes to something else.
fn first_otherwise(alloc: Global, rows: &[Row]) -> Result<Option<usize>, AllocError> {
    for (index, row) in rows.iter().enumerate() {
        if is_otherwise(alloc, row)? {
            return Ok(Some(index));
        }
    }
    Ok(None)
}

/// Whether facts are left where no lines are followed.
fn leaves_facts(alloc: Global, script: &[u8]) -> Result<bool, AllocError> {
    let mut state = begin(alloc)?;
    state.follows = false;
    let passed = passes_knowing(alloc, script, &mut state)?;
    Ok(!passed || !state.facts.are_none())
}

#[test]
fn commands_leave_these_facts(rt: HostRuntime) -> Result<(), Fail> {
    assert_eq!(rt; first_otherwise(rt.alloc(), &KEPT)?, None);
    assert_eq!(rt; first_otherwise(rt.alloc(), &CURRENT)?, None);
    assert_eq!(rt; first_otherwise(rt.alloc(), &EDITS)?, None);
    assert_eq!(rt; first_otherwise(rt.alloc(), &SUBSTITUTIONS)?, None);
    assert_eq!(rt; first_otherwise(rt.alloc(), &UNDONE)?, None);
    assert_eq!(rt; first_otherwise(rt.alloc(), &MOVED)?, None);
    Ok(())
}

#[rattlefmt::skip]
static LISTED: [Row; 10] = [
    Row { script: b"g/x/'ys/A/x/\n", asked: Asked::Line(b'z', b"B", YES) },
    Row { script: b"g/x/'ys/A/x/\n", asked: Asked::Line(b'y', b"A", None) },
    Row { script: b"g/x/'ys/A/x/\n", asked: Asked::Clear(b'0', b'.', b"A", false) },
    Row { script: b"g/x/'ys/C/x/\n", asked: Asked::Line(b'y', b"A", None) },
    Row { script: b"g/x/'ys/C/x/\n", asked: Asked::Line(b'z', b"B", YES) },
    Row { script: b"g/x/'zs/A/x/\n", asked: Asked::Line(b'z', b"B", YES) },
    Row { script: b"g/x/1,$s/A/x/\n", asked: Asked::Line(b'z', b"B", YES) },
    Row { script: b"g/x/1,$s/A/x/\n", asked: Asked::Clear(b'z', b'+', b"A", true) },
    Row { script: b"g/x/1,$s/B/x/\n", asked: Asked::Line(b'z', b"B", None) },
    Row { script: b"g/x/'yd\n", asked: Asked::Line(b'z', b"B", YES) },
];

/// The first command of a script's first list.
fn first_listed(script: &Script) -> Option<&Command> {
    match script.commands.first() {
        Some(command) => command.list().first(),
        None => None,
    }
}

fn leaves_otherwise(
    alloc: Global,
    listed: &Command,
    state: &State,
    asked: Asked,
) -> Result<bool, AllocError> {
    let mut left = state.try_copy()?;
    let failed = outcome_into(listed, state, &mut left, &Watch::none(alloc))?;
    Ok(failed.is_some() || answers_otherwise(&left, asked))
}

fn is_otherwise_from(alloc: Global, row: &Row, state: &State) -> Result<bool, AllocError> {
    let script = read_script(alloc, row.script)?;
    match first_listed(&script) {
        Some(listed) => leaves_otherwise(alloc, listed, state, row.asked),
        None => Ok(true),
    }
}

/// Whether the first command of a list leaves something else than its row says.
fn is_otherwise_in_list(alloc: Global, row: &Row) -> Result<bool, AllocError> {
    let state = begin(alloc)?;
    is_otherwise_from(alloc, row, &state)
}

fn first_otherwise_in_list(alloc: Global, rows: &[Row]) -> Result<Option<usize>, AllocError> {
    for (index, row) in rows.iter().enumerate() {
        if is_otherwise_in_list(alloc, row)? {
            return Ok(Some(index));
        }
    }
    Ok(None)
}

/// There it may be that no line matches, and none is changed.
#[test]
fn in_a_list_a_substitution_leaves_lines_that_its_pattern_does_not_match(
    rt: HostRuntime,
) -> Result<(), Fail> {
    assert_eq!(rt; first_otherwise_in_list(rt.alloc(), &LISTED)?, None);
    Ok(())
}

/// At least four lines. The letters of the keys mark lines in this order, the first of them after line 1; each alone matches its key.
fn begin_with(alloc: Global, keys: &[u8]) -> Result<State, AllocError> {
    let mut state = state_of(alloc, lines!(4, None))?;
    know_keys(keys, &mut state)?;
    Ok(state)
}

fn know_keys(keys: &[u8], state: &mut State) -> Result<(), AllocError> {
    state.follows = true;
    let mut before = Name::ZERO;
    for key in keys {
        let name = at(*key);
        if let Some(letter) = Letter::new(*key) {
            state.marks.add(letter);
        }
        state.zone.guard(before, name, -1);
        before = name;
        let pattern: &[u8] = &[*key];
        add_line(state, *key, pattern, true)?;
        add_clear(state, b'0', *key, pattern)?;
        add_clear(state, *key, b'+', pattern)?;
    }
    state.zone.guard(before, Name::LAST_LINE, 0);
    Ok(())
}

/// How many stretches are known after a script, beside so many letters whose lines alone match a pattern.
fn stretches_after(alloc: Global, keys: &[u8], script: &[u8]) -> Result<Option<usize>, AllocError> {
    let mut state = begin_with(alloc, keys)?;
    stretches_in(alloc, &mut state, script)
}

fn stretches_in(
    alloc: Global,
    state: &mut State,
    script: &[u8],
) -> Result<Option<usize>, AllocError> {
    if passes(alloc, script, state)? {
        Ok(Some(state.facts.clear.len()))
    } else {
        Ok(None)
    }
}

/// A script beside letters whose lines alone match patterns, and how many stretches are known after it.
#[derive(Drop)]
struct Counted {
    keys: &'static [u8],
    script: &'static [u8],
    stretches: usize,
}

#[rattlefmt::skip]
static COUNTED: [Counted; 3] = [
    // One up to the letter and one from it, of each pattern, whatever is edited on one side.
    Counted { keys: b"r", script: b"$a\n-\n.\n", stretches: 2 },
    Counted { keys: b"rstuvwxyz", script: b"$a\n-\n.\n", stretches: 18 },
    Counted { keys: b"rstuvwxyz", script: b"$a\n-\n.\n0a\n-\n.\n'z\n", stretches: 18 },
];

fn first_counted_otherwise(alloc: Global, rows: &[Counted]) -> Result<Option<usize>, AllocError> {
    for (index, row) in rows.iter().enumerate() {
        if stretches_after(alloc, row.keys, row.script)? != Some(row.stretches) {
            return Ok(Some(index));
        }
    }
    Ok(None)
}

#[test]
fn stretches_that_others_say_are_left_out(rt: HostRuntime) -> Result<(), Fail> {
    assert_eq!(rt; first_counted_otherwise(rt.alloc(), &COUNTED)?, None);
    Ok(())
}

/// At least four lines. `r` matches A, and comes before `s`.
fn begin_with_two(alloc: Global) -> Result<State, AllocError> {
    let mut state = state_of(alloc, lines!(4, None))?;
    state.marks.add(Letter::at(17));
    state.marks.add(Letter::at(18));
    state.zone.guard(Name::ZERO, at(b'r'), -1);
    state.zone.guard(at(b'r'), at(b's'), -1);
    state.zone.guard(at(b's'), Name::LAST_LINE, 0);
    state.follows = true;
    add_line(&mut state, b'r', b"A", true)?;
    Ok(state)
}

/// Line 2 may be on either side of each letter, so in the end it isn't known any more that `s` comes after `r`. No line is between `s` and
/// `r` all the same, and nothing is said of that.
const FOUR_LINES: &[u8] = b"2a\n-\n.\n2a\n-\n.\n2a\n-\n.\n2a\n-\n.\n";

fn empty_stretches(alloc: Global) -> Result<Option<usize>, AllocError> {
    let mut state = begin_with_two(alloc)?;
    stretches_in(alloc, &mut state, FOUR_LINES)
}

#[test]
fn stretches_that_never_hold_a_line_are_left_out(rt: HostRuntime) -> Result<(), Fail> {
    assert_eq!(rt; empty_stretches(rt.alloc())?, Some(0));
    Ok(())
}

/// Four to nine lines. `y` matches A, and comes before the last line.
fn begin_at_one(alloc: Global) -> Result<State, AllocError> {
    let mut state = state_of(alloc, lines!(4, Some(9)))?;
    state.marks.add(Letter::at(24));
    state.zone.guard(Name::ZERO, at(b'y'), -1);
    state.zone.guard(at(b'y'), Name::LAST_LINE, -1);
    state.follows = true;
    add_line(&mut state, b'y', b"A", true)?;
    Ok(state)
}

/// Whether, after a script on it, it is known that no line from `y` up to `x` matches A.
fn is_clear_at_one(alloc: Global, script: &[u8]) -> Result<bool, AllocError> {
    let mut state = begin_at_one(alloc)?;
    let passed = passes(alloc, script, &mut state)?;
    Ok(passed && !answers_otherwise(&state, Asked::Clear(b'y', b'x', b"A", true)))
}

/// No line is between, so only the text tells whether one between matches A.
#[test]
fn lines_that_come_before_the_next_one_are_known(rt: HostRuntime) -> Result<(), Fail> {
    let other = is_clear_at_one(rt.alloc(), b"'y+kx\n'ya\n-\n.\n")?;
    let same = is_clear_at_one(rt.alloc(), b"'y+kx\n'ya\nA\n.\n")?;
    assert!(rt; other && !same);
    Ok(())
}

/// A script beside a letter whose line alone matches `r`, and what is known of the last new line after it; A and B are watched for.
#[derive(Drop)]
struct New {
    script: &'static [u8],
    asked: Asked,
}

#[rattlefmt::skip]
static NEW: [New; 6] = [
    New { script: b"$a\nA\n.\n", asked: Asked::Line(b'.', b"A", YES) },
    New { script: b"$a\nA\n.\n", asked: Asked::Line(b'.', b"B", None) },
    // That the last line doesn't match A either is said where something else is said of A.
    New { script: b"$a\nA\n-\n.\n", asked: Asked::Line(b'.', b"A", None) },
    New { script: b"$a\nA\n.\n$a\nB\n.\n", asked: Asked::Line(b'.', b"A", None) },
    New { script: b"$a\nA\n.\nka\n$a\nB\n.\n", asked: Asked::Line(b'.', b"A", NO) },
    // Facts speak of this one.
    New { script: b"$a\nA\n.\n", asked: Asked::Line(b'.', b"r", NO) },
];

fn is_new_otherwise(alloc: Global, row: &New) -> Result<bool, AllocError> {
    let mut state = begin_with(alloc, b"r")?;
    let passed = passes(alloc, row.script, &mut state)?;
    Ok(!passed || answers_otherwise(&state, row.asked))
}

fn first_new_otherwise(alloc: Global, rows: &[New]) -> Result<Option<usize>, AllocError> {
    for (index, row) in rows.iter().enumerate() {
        if is_new_otherwise(alloc, row)? {
            return Ok(Some(index));
        }
    }
    Ok(None)
}

#[test]
fn a_watched_pattern_that_no_new_line_matches_is_left_out(rt: HostRuntime) -> Result<(), Fail> {
    assert_eq!(rt; first_new_otherwise(rt.alloc(), &NEW)?, None);
    Ok(())
}

#[test]
fn nothing_is_left_where_no_lines_are_followed(rt: HostRuntime) -> Result<(), Fail> {
    let kept = leaves_facts(rt.alloc(), b"=\n")?;
    let edited = leaves_facts(rt.alloc(), b"1d\n")?;
    assert!(rt; !kept && !edited);
    Ok(())
}

/// Whether nothing is known of `y`, and what was known of `z`.
fn knows_z_alone(state: &State) -> bool {
    let (y, z) = (Asked::Line(b'y', b"A", None), Asked::Line(b'z', b"B", YES));
    !answers_otherwise(state, y) && !answers_otherwise(state, z)
}

fn both_know_z_alone(one: &State, other: &State) -> Result<bool, AllocError> {
    let joined = one.join(other)?;
    if !knows_z_alone(&joined) {
        return Ok(false);
    }
    let widened = one.widen(other)?;
    Ok(knows_z_alone(&widened))
}

fn joined_with_unsure(alloc: Global, one: &State) -> Result<bool, AllocError> {
    let mut other = begin(alloc)?;
    other.marks.remove(Letter::at(24));
    both_know_z_alone(one, &other)
}

fn unsure_is_forgotten(alloc: Global) -> Result<bool, AllocError> {
    let one = begin(alloc)?;
    joined_with_unsure(alloc, &one)
}

#[test]
fn facts_of_letters_that_are_not_sure_on_both_sides_are_not_joined(
    rt: HostRuntime,
) -> Result<(), Fail> {
    assert!(rt; unsure_is_forgotten(rt.alloc())?);
    Ok(())
}
