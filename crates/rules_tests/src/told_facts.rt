//! What a certificate's version tells of single lines, and starts that know of landmarks.

ghost use Rattle.std.specs.Prelude.{◌<◌};

use crate::collecting::Collecting;
use crate::fact_texts::{add_clear, add_known};
use crate::walking::{Start, Unreached, lines, state_of};
use cert_check::{
    Sight, Version, know_chains, landmarks_in, letters_left, write_facts, write_old_facts,
};
use ed_base::{Bytes, Letter, Texts};
use ed_rules::{ClearStretch, LineFacts, Marks, Old, State};
use ed_syntax::{Script, read_script};
use landmarks::LandmarkChain;
use std::alloc::{AllocError, Global};
use std::test::Fail;
use zones::Name;

/// Facts of lines in no order, of which some contradict each other, and some are of line 0, of a target, of `a` and of `b`.
fn mixed_lines(facts: &mut LineFacts) -> Result<(), AllocError> {
    let (a, b) = (Name::of(Letter::at(0)), Name::of(Letter::at(1)));
    add_known(facts, a, b"b", true)?;
    add_known(facts, Name::LAST_LINE, b"x", false)?;
    add_known(facts, b, b"y", true)?;
    add_known(facts, Name::CURRENT_LINE, b"b", true)?;
    add_known(facts, Name::ZERO, b"x", false)?;
    add_known(facts, Name::CURRENT_LINE, b"b", false)?;
    add_known(facts, Name::TARGET_ADDRESS, b"x", true)?;
    add_known(facts, Name::CURRENT_LINE, b"a", false)?;
    add_known(facts, a, b"b", true)
}

/// Stretches in no order, one of them twice, and some that no text can have: from the last line, up to line 0, up to the last line, and
/// from a name to itself.
fn mixed_stretches(facts: &mut LineFacts) -> Result<(), AllocError> {
    add_clear(facts, 6, ClearStretch::END, b"x")?;
    add_clear(facts, 0, 7, b"y")?;
    add_clear(facts, 0, 6, b"z")?;
    add_clear(facts, 2, 6, b"x")?;
    add_clear(facts, 1, 0, b"x")?;
    add_clear(facts, 0, 2, b"x")?;
    add_clear(facts, 0, 6, b"y")?;
    add_clear(facts, 6, 6, b"x")?;
    add_clear(facts, ClearStretch::END, 6, b"x")?;
    add_clear(facts, 0, 6, b"z")?;
    add_clear(facts, 0, 1, b"x")
}

fn mixed(alloc: Global) -> Result<LineFacts, AllocError> {
    let mut facts = LineFacts::none(alloc);
    mixed_lines(&mut facts)?;
    mixed_stretches(&mut facts)?;
    Ok(facts)
}

fn only(place: usize) -> Marks
    requires inside { place < 26 }
{
    let mut marks = Marks::none();
    marks.add(Letter::at(place));
    marks
}

fn know(state: &mut State, facts: LineFacts, old: LineFacts) {
    state.undo.was = Some(Old {
        zone: state.zone,
        marks: only(1),
        facts: old,
    });
    state.facts = facts;
    state.marks = only(0);
    state.follows = true;
}

/// A start at which `a` is sure, with such facts; undo would bring back lines of which `b` is sure, with the same facts.
fn knowing(alloc: Global) -> Result<State, AllocError> {
    let facts = mixed(alloc)?;
    let old = mixed(alloc)?;
    let mut state = state_of(alloc, lines!(2, Some(4)))?;
    know(&mut state, facts, old);
    Ok(state)
}

/// What a state knows of single lines, as lines of a certificate's text.
fn text_of(alloc: Global, state: &State) -> Result<Bytes, AllocError> {
    let mut out = Collecting::new(alloc);
    write_facts(&mut out, &state.facts);
    if let Some(old) = &state.undo.was {
        write_old_facts(&mut out, &old.facts);
    }
    out.finish()
}

fn script_of(alloc: Global, text: &[u8]) -> Result<Script, AllocError> {
    read_script(alloc, text)
}

fn tell(sight: &Sight, state: &mut State, times: usize) {
    for _again in 0..times {
        sight.tell(state);
    }
}

fn told_by(alloc: Global, sight: &Sight, times: usize) -> Result<Bytes, AllocError> {
    let mut state = knowing(alloc)?;
    tell(sight, &mut state, times);
    text_of(alloc, &state)
}

fn told_in(
    alloc: Global,
    script: &Script,
    version: Version,
    times: usize,
) -> Result<Bytes, AllocError> {
    let sight = Sight::of(script, version, &Texts::none(alloc))?;
    told_by(alloc, &sight, times)
}

/// Whether this is told so many times of the same state.
fn is_told(alloc: Global, version: Version, times: usize, text: &[u8]) -> Result<bool, AllocError> {
    let script = script_of(alloc, b"p\n")?;
    let told = told_in(alloc, &script, version, times)?;
    Ok(told.as_slice() == text)
}

const NOTHING: &[u8] = b"lines\nclear\nold-lines\nold-clear\n";

const IN_FORM: &[u8] = b"lines .-=a .+=b $-=x a+=b
clear 0-.=x 0-a=y 0-a=z a-$+=x
old-lines .-=a .+=b $-=x b+=y
old-clear 0-.=x 0-b=y
";

#[test]
fn version_three_tells_facts_in_form(rt: HostRuntime) -> Result<(), Fail> {
    let once = is_told(rt.alloc(), Version::Three, 1, IN_FORM)?;
    let twice = is_told(rt.alloc(), Version::Three, 2, IN_FORM)?;
    assert!(rt; once && twice);
    Ok(())
}

#[test]
fn versions_one_and_two_tell_no_facts(rt: HostRuntime) -> Result<(), Fail> {
    let one = is_told(rt.alloc(), Version::One, 1, NOTHING)?;
    let two = is_told(rt.alloc(), Version::Two, 1, NOTHING)?;
    assert!(rt; one && two);
    Ok(())
}

/// A script, chains of landmarks, how many letters it leaves, how many landmarks there are, and the letters that become sure.
#[derive(Drop)]
struct Lettered {
    script: &'static [u8],
    chains: &'static [&'static [u8]],
    left: usize,
    count: usize,
    sure: Option<&'static [u8]>,
}

const FROM_1_TO_25: &[u8] =
    b"1; 2; 3; 4; 5; 6; 7; 8; 9; 10; 11; 12; 13; 14; 15; 16; 17; 18; 19; 20; 21; 22; 23; 24; 25";

#[rattlefmt::skip]
static LETTERED: [Lettered; 8] = [
    Lettered { script: b"p\n", chains: &[], left: 26, count: 0, sure: Some(b"") },
    Lettered { script: b"p\n", chains: &[b"/A/; /B/", b"1"], left: 26, count: 3, sure: Some(b"xyz") },
    Lettered { script: b"1ky\n'xp\n", chains: &[b"/A/; /B/"], left: 24, count: 2, sure: Some(b"wz") },
    Lettered { script: b"g/a/ka\\\n'ap\n", chains: &[b"1"], left: 25, count: 1, sure: Some(b"z") },
    Lettered { script: b"p\n", chains: &[FROM_1_TO_25, b"26"], left: 26, count: 26, sure: Some(b"abcdefghijklmnopqrstuvwxyz") },
    Lettered { script: b"1ka\n", chains: &[FROM_1_TO_25], left: 25, count: 25, sure: Some(b"bcdefghijklmnopqrstuvwxyz") },
    Lettered { script: b"1ka\n", chains: &[FROM_1_TO_25, b"26"], left: 25, count: 26, sure: None },
    Lettered { script: b"p\n", chains: &[FROM_1_TO_25, b"26; 27"], left: 26, count: 27, sure: None },
];

fn read_chains(alloc: Global, texts: &[&[u8]]) -> Result<Option<Vec<LandmarkChain>>, AllocError> {
    let mut chains = Vec::new(alloc);
    for text in texts {
        let text = Bytes::from_slice(alloc, text)?;
        let Ok(chain) = LandmarkChain::read(alloc, text) else {
            return Ok(None);
        };
        chains.push(chain)?;
    }
    Ok(Some(chains))
}

/// The chains that these texts spell.
fn chains_of(alloc: Global, texts: &[&[u8]]) -> Result<Vec<LandmarkChain>, Unreached> {
    match read_chains(alloc, texts)? {
        Some(chains) => Ok(chains),
        None => Err(Unreached::Need),
    }
}

/// The letters that are sure.
fn sure_in(alloc: Global, marks: &Marks) -> Result<Bytes, AllocError> {
    let mut letters = Bytes::new(alloc);
    for place in 0..Letter::COUNT {
        let letter = Letter::at(place);
        if marks.is_sure(letter) {
            letters.push(letter.byte())?;
        }
    }
    Ok(letters)
}

/// Whether a state knows of the landmarks, by these letters, and follows single lines; where there are too few letters, whether it is as before.
fn knows(
    alloc: Global,
    row: &Lettered,
    script: &Script,
    chains: &[LandmarkChain],
    state: &mut State,
) -> Result<bool, AllocError> {
    let known = know_chains(state, script, chains)?;
    let sure = sure_in(alloc, &state.marks)?;
    let wanted = match row.sure {
        Some(letters) => letters,
        None => &[],
    };
    Ok(known == row.sure.is_some() && state.follows == known && sure.as_slice() == wanted)
}

fn knows_chains(
    alloc: Global,
    row: &Lettered,
    script: &Script,
    chains: &[LandmarkChain],
) -> Result<bool, AllocError> {
    if landmarks_in(chains) != row.count || letters_left(script) != row.left {
        return Ok(false);
    }
    let mut state = state_of(alloc, lines!(2, Some(4)))?;
    knows(alloc, row, script, chains, &mut state)
}

fn is_lettered(alloc: Global, row: &Lettered) -> Result<bool, Unreached> {
    let chains = chains_of(alloc, row.chains)?;
    let script = script_of(alloc, row.script)?;
    Ok(knows_chains(alloc, row, &script, chains.as_slice())?)
}

fn first_not_lettered(alloc: Global, rows: &[Lettered]) -> Result<Option<usize>, Unreached> {
    for (index, row) in rows.iter().enumerate() {
        if !is_lettered(alloc, row)? {
            return Ok(Some(index));
        }
    }
    Ok(None)
}

#[test]
fn landmarks_take_letters_that_the_script_leaves(rt: HostRuntime) -> Result<(), Fail> {
    assert_eq!(rt; first_not_lettered(rt.alloc(), &LETTERED)?, None);
    Ok(())
}
