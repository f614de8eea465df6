//! Joined, widened and kept states.

use crate::walking::{Start, Unreached, lines, pass_all, state_of};
use ed_base::Letter;
use ed_rules::State;
use std::alloc::{AllocError, Global};
use std::test::Fail;
use zones::Name;

/// Three scripts that remember patterns, mark lines and change the buffer.
const SEARCHING: &[u8] = b"/x*/ka\n//d\n$p\nQ\n";

const CHANGING: &[u8] = b"1,2c\none\ntwo\n.\n1,2j\n.t$\nQ\n";

const MOVING: &[u8] = b"3m0\n2kb\n?a*?l\n'b=\nQ\n";

static SCRIPTS: [&[u8]; 3] = [SEARCHING, CHANGING, MOVING];

fn widened_covers_all(begun: &State, ended: &State, joined: &State) -> Result<bool, AllocError> {
    let widened = begun.widen(ended)?;
    Ok(widened.covers(begun) && widened.covers(ended) && widened.covers(joined))
}

fn both_cover(begun: &State, ended: &State) -> Result<bool, AllocError> {
    let joined = begun.join(ended)?;
    joined_and_widened_cover(begun, ended, &joined)
}

fn joined_and_widened_cover(
    begun: &State,
    ended: &State,
    joined: &State,
) -> Result<bool, AllocError> {
    if !joined.covers(begun) || !joined.covers(ended) || begun.covers(joined) {
        return Ok(false);
    }
    widened_covers_all(begun, ended, joined)
}

fn ended_and_begun_are_covered(
    alloc: Global,
    script: &[u8],
    begun: &State,
) -> Result<bool, Unreached> {
    let mut ended = begun.try_copy()?;
    both_cover_after(alloc, script, begun, &mut ended)
}

fn both_cover_after(
    alloc: Global,
    script: &[u8],
    begun: &State,
    ended: &mut State,
) -> Result<bool, Unreached> {
    pass_all(alloc, script, ended)?;
    Ok(both_cover(begun, ended)?)
}

fn script_is_covered(alloc: Global, script: &[u8]) -> Result<bool, Unreached> {
    let begun = state_of(alloc, lines!(4, Some(9)))?;
    ended_and_begun_are_covered(alloc, script, &begun)
}

fn first_not_covered(alloc: Global, scripts: &[&[u8]]) -> Result<Option<usize>, Unreached> {
    for (index, script) in scripts.iter().enumerate() {
        if !script_is_covered(alloc, script)? {
            return Ok(Some(index));
        }
    }
    Ok(None)
}

#[test]
fn joined_and_widened_states_cover_both(rt: HostRuntime) -> Result<(), Fail> {
    assert_eq!(rt; first_not_covered(rt.alloc(), &SCRIPTS)?, None);
    Ok(())
}

/// Whether what is kept of a state covers one and another.
fn kept_covers(state: &State, one: &State, other: &State) -> Result<(bool, bool), AllocError> {
    let kept = state.try_keep()?;
    Ok((kept.covers(one), kept.covers(other)))
}

fn kept_join_covers(one: &State, other: &State) -> Result<(bool, bool), AllocError> {
    let joined = one.join(other)?;
    kept_covers(&joined, one, other)
}

/// Has a state become another one, by way of what is kept of that.
fn bring_back(one: &State, state: &mut State) -> Result<(), AllocError> {
    let kept = one.try_keep()?;
    kept.restore(state)
}

/// Whether a state is one of four lines at most where `a` is sure and undo finds a buffer.
fn is_near(state: &State) -> bool {
    state.zone.bound(Name::LAST_LINE, Name::ZERO) == Some(4)
        && state.marks.is_sure(Letter::at(0))
        && state.undo.was.is_some()
}

/// Whether a state is one of nine lines at most where `a` isn't sure and undo finds no buffer.
fn is_wide(state: &State) -> bool {
    state.zone.bound(Name::LAST_LINE, Name::ZERO) == Some(9)
        && !state.marks.is_sure(Letter::at(0))
        && state.undo.was.is_none()
}

fn both_come_back(wide: &State, near: &State, state: &mut State) -> Result<bool, AllocError> {
    bring_back(near, state)?;
    if !is_near(state) {
        return Ok(false);
    }
    bring_back(wide, state)?;
    Ok(is_wide(state))
}

fn kept_otherwise(
    wide: &State,
    near: &State,
    state: &mut State,
) -> Result<Option<&'static str>, AllocError> {
    if kept_covers(wide, wide, near)? != (true, false) {
        return Ok(Some("what the wide one covers"));
    }
    if kept_covers(near, near, wide)? != (true, false) {
        return Ok(Some("what the near one covers"));
    }
    if kept_join_covers(wide, near)? != (true, true) {
        return Ok(Some("what both joined cover"));
    }
    if !both_come_back(wide, near, state)? {
        return Ok(Some("what comes back"));
    }
    Ok(None)
}

fn near_kept_otherwise(
    alloc: Global,
    wide: &State,
    near: &mut State,
) -> Result<Option<&'static str>, Unreached> {
    pass_all(alloc, b"1d\n2ka\n", near)?;
    let mut state = wide.try_copy()?;
    Ok(kept_otherwise(wide, near, &mut state)?)
}

fn wide_kept_otherwise(alloc: Global, wide: &State) -> Result<Option<&'static str>, Unreached> {
    let mut near = state_of(alloc, lines!(4, Some(5)))?;
    near_kept_otherwise(alloc, wide, &mut near)
}

fn both_kept_otherwise(alloc: Global) -> Result<Option<&'static str>, Unreached> {
    let wide = state_of(alloc, lines!(1, Some(9)))?;
    wide_kept_otherwise(alloc, &wide)
}

#[test]
fn a_kept_state_comes_back_and_covers_what_the_state_does(rt: HostRuntime) -> Result<(), Fail> {
    assert_eq!(rt; both_kept_otherwise(rt.alloc())?, None);
    Ok(())
}
