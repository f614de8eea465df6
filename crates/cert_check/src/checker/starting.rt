//! What is known at the start of a run, by what its certificate says of the file.

ghost use Rattle.std.specs.Prelude.{◌≡◌, ◌<◌, ◌≤◌, ◌↔◌, true, false, map, IfOk, OnOk, MatchOption};
ghost use Rattle.zones.specs.Name.{mark};
ghost use Rattle.ed_syntax.specs.PublicScript.{script_value};
ghost use Rattle.cert_check.specs.Certificates.{certificate_value};
ghost use Rattle.cert_check.specs.checker.Beginning.{landmarks_of, stated_chains, chains_of, count_of, IsCounted, letters_for, letters_left, letters_of_chains, has_letters, with_sure, with_landmarks, began, start_of};

use crate::certificate::{Certificate, Version};
use ed_base::Letter;
use ed_rules::{Marks, State};
use ed_syntax::Script;
use landmarks::{LandmarkChain, know_landmarks};
use std::alloc::{AllocError, Global};
use zones::Name;

/// How many landmarks some chains have. Where they are more than a `usize` can count, it is `usize::MAX`.
pub fn landmarks_in(chains: &[LandmarkChain]) -> usize
    ensures value { IsCounted result (count_of (landmarks_of chains.now)) }
{
    let mut count = 0;
    for chain in chains {
        let more = chain.landmarks().len();
        if more > usize::MAX - count {
            return usize::MAX;
        }
        count += more;
    }
    count
}

/// How many letters a script leaves for landmarks: those that it doesn't name, of the 26.
pub fn letters_left(script: &Script) -> usize
    ensures value { result ≡ letters_left (script_value script.now) }
    ensures few { result ≤ 26 }
{
    let mut left = 0;
    for place in 0..Letter::COUNT {
        if !script.names(Letter::at(place)) {
            left += 1;
        }
    }
    left
}

/// The letters from `z` down that a script doesn't name, up to so many.
fn letters_for(script: &Script, count: usize) -> Result<Vec<Letter>, AllocError>
    ensures value { IfOk result (λ letters. letters.items ≡ letters_for (script_value script.now) count) }
{
    let mut letters = Vec::new(*script.commands.allocator());
    let mut more = count;
    let mut below = Letter::COUNT;
    while below > 0 && more > 0 {
        below -= 1;
        let letter = Letter::at(below);
        if !script.names(letter) {
            letters.push(letter)?;
            more -= 1;
        }
    }
    Ok(letters)
}

/// The names of the lines that letters mark.
fn names_of(alloc: Global, letters: &[Letter]) -> Result<Vec<Name>, AllocError>
    ensures value { IfOk result (λ names. names.items ≡ map mark letters.now) }
{
    let mut names = Vec::new(alloc);
    for letter in letters {
        names.push(Name::of(*letter))?;
    }
    Ok(names)
}

/// These letters become sure too.
fn make_sure(marks: &mut Marks, letters: &[Letter])
    ensures value { marks.new ≡ with_sure letters.now marks.old }
{
    for letter in letters {
        marks.add(*letter);
    }
}

/// From now on the state knows of landmarks, whose lines these letters mark. After an `Err` it is some state.
fn know(
    state: &mut State,
    alloc: Global,
    letters: &[Letter],
    chains: &[LandmarkChain],
) -> Result<(), AllocError>
    ensures value { OnOk result (state.new ≡ with_landmarks letters.now (landmarks_of chains.now) state.old) }
{
    let names = names_of(alloc, letters)?;
    state.facts = know_landmarks(alloc, &mut state.zone, names.as_slice(), chains)?;
    make_sure(&mut state.marks, letters);
    state.follows = true;
    Ok(())
}

/// From now on the state knows of chains of landmarks that the start has: each landmark's line is marked by a letter that the script doesn't
/// name, from `z` down, in the order of the chains. Says whether the script leaves so many letters; where it leaves too few, the state stays
/// as it was. After an `Err` it is some state.
pub fn know_chains(
    state: &mut State,
    script: &Script,
    chains: &[LandmarkChain],
) -> Result<bool, AllocError>
    ensures value { IfOk result (λ known. known ≡
        has_letters (script_value script.now) (landmarks_of chains.now)) }
    ensures knows { IfOk result (λ known. known ≡ true → state.new ≡
        with_landmarks (letters_of_chains (script_value script.now) (landmarks_of chains.now))
        (landmarks_of chains.now) state.old) }
    ensures unchanged { IfOk result (λ known. known ≡ false → state.new ≡ state.old) }

    // There are too few letters exactly where the script leaves fewer than the chains have landmarks.
    ensures few { IfOk result (λ known. known ≡ false ↔
        (letters_left (script_value script.now) < count_of (landmarks_of chains.now))) }
{
    let alloc = *script.commands.allocator();
    let count = landmarks_in(chains);
    let letters = letters_for(script, count)?;
    if letters.len() < count {
        return Ok(false);
    }
    know(state, alloc, letters.as_slice(), chains)?;
    Ok(true)
}

/// From now on the state knows of the landmarks that count in this version. Says whether the script leaves letters for them. After an `Err`
/// it is some state.
fn begin(
    state: &mut State,
    version: Version,
    script: &Script,
    chains: &[LandmarkChain],
) -> Result<bool, AllocError>
    ensures value { IfOk result (λ known. known ≡
        has_letters (script_value script.now) (stated_chains version chains.now)) }
    ensures began { IfOk result (λ known. known ≡ true → state.new ≡
        began version (letters_of_chains (script_value script.now) (stated_chains version chains.now))
        (stated_chains version chains.now) state.old) }
{
    match version {
        Version::One => Ok(true),
        Version::Two => Ok(true),
        Version::Three => know_chains(state, script, chains),
    }
}

/// The start of a run over a file of which all is so that the certificate states. `None` where the script names so many letters that too
/// few are left for the landmarks.
pub(crate) fn start_of(
    script: &Script,
    certificate: &Certificate,
) -> Result<Option<State>, AllocError>
    ensures exact { IfOk result (λ start. MatchOption start
        (has_letters (script_value script.now) (chains_of (certificate_value certificate.now)) ≡ false)
        (λ state. (has_letters (script_value script.now) (chains_of (certificate_value certificate.now)) ≡ true) ×
        (state ≡ start_of (script_value script.now) (certificate_value certificate.now)))) }
{
    let mut state = State::start(
        *script.commands.allocator(),
        &certificate.path,
        certificate.min,
        certificate.max,
        &certificate.has,
    )?;
    let chains = certificate.landmarks.as_slice();
    if begin(&mut state, certificate.version, script, chains)? {
        Ok(Some(state))
    } else {
        Ok(None)
    }
}
