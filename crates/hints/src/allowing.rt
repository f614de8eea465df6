//! Whether a file is one that a start allows, by the tests that a run makes of it for a certificate.

ghost use Rattle.std.specs.Prelude.{◌≡◌, ◌↔◌, [], length, unwrap_or, IfOk, IfSome, IsNone, IsTrue};
ghost use Rattle.std.specs.List.{list_all, list_any};
ghost use Rattle.ed_base.specs.Lines.{lines_of};
ghost use Rattle.ed_syntax.specs.meaning.Values.{matches};
ghost use Rattle.ed_rules.specs.LineBounds.{IsWithin};
ghost use Rattle.cert_check.specs.checker.Beginning.{landmarks_of};
ghost use Rattle.cert_check.specs.checker.Sound.{HaveLandmarks};
ghost use Rattle.analyser.specs.Following.{stated_of};
ghost use Rattle.hints.specs.Allowing.{AllowsFile};

use analyser::Start;
use ed_base::{Bytes, count_lines};
use ed_rules::{LineBounds, Texts, some_line_matches};
use landmarks::{
    LandmarkChain, LandmarkChains, Misplaced, Placing, find_places, landmarks_have_one_place,
};
use std::alloc::{AllocError, Global};

/// Whether a file is one that a start allows: it has as many lines as that may have, a line for each pattern that it states, and its landmarks.
pub fn allows_file(alloc: Global, start: &Start, file: &[u8]) -> Result<bool, AllocError>
    ensures exact { IfOk result (λ yes. IsTrue yes ↔ AllowsFile start.now (lines_of file.now)) }
{
    if !has_size(start, file) {
        return Ok(false);
    }
    if !matches_each(alloc, patterns_in(&start.has), file)? {
        return Ok(false);
    }
    has_landmarks(alloc, chains_in(&start.landmarks), file)
}

/// Whether a file has as many lines as a start may have.
fn has_size(start: &Start, file: &[u8]) -> bool
    ensures exact { IsTrue result ↔ IsWithin start.now.min start.now.max (length (lines_of file.now)) }
{
    let bounds = LineBounds {
        min: start.min,
        max: start.max,
    };
    bounds.has(count_lines(file) as u64)
}

/// The patterns, where some are stated.
pub(crate) fn patterns_in(has: &Option<Texts>) -> &[Bytes]
    ensures value { result.now ≡ stated_of has.now }
{
    match has {
        Some(has) => has.members(),
        None => &[],
    }
}

/// The chains of landmarks, where some are stated.
pub(crate) fn chains_in(landmarks: &Option<LandmarkChains>) -> &[LandmarkChain]
    ensures value { result.now ≡ unwrap_or landmarks.now [] }
{
    match landmarks {
        Some(landmarks) => landmarks.as_slice(),
        None => &[],
    }
}

/// Whether each of these patterns is matched by a line of a file.
fn matches_each(alloc: Global, patterns: &[Bytes], file: &[u8]) -> Result<bool, AllocError>
    ensures value { IfOk result (λ yes. yes ≡ list_all (λ text. list_any (matches text) (lines_of file.now)) patterns.now) }
{
    'patterns: for pattern in patterns {
        if !some_line_matches(alloc, pattern.as_slice(), file)? {
            return Ok(false);
        }
    }
    Ok(true)
}

/// Whether a file has the landmarks of these chains.
fn has_landmarks(alloc: Global, chains: &[LandmarkChain], file: &[u8]) -> Result<bool, AllocError>
    ensures exact { IfOk result (λ yes. IsTrue yes ↔ HaveLandmarks (lines_of file.now) (landmarks_of chains.now)) }
{
    Ok(missed_chain(alloc, chains, file)?.is_none())
}

/// A chain of landmarks that a file doesn't have, and its first landmark that isn't where it should be.
#[derive(Debug, Drop)]
pub struct Missed<'c> {
    pub chain: &'c LandmarkChain,
    pub wrong: Misplaced,
}

/// The first of these chains that a file doesn't have.
pub fn missed_chain<'c>(
    alloc: Global,
    chains: &'c [LandmarkChain],
    file: &[u8],
) -> Result<Option<Missed<'c>>, AllocError>
    ensures placed { IfOk result (λ found. IsNone found → HaveLandmarks (lines_of file.now) (landmarks_of chains.now)) }
    ensures missed { IfOk result (λ found. IfSome found (λ _. HaveLandmarks (lines_of file.now) (landmarks_of chains.now) → ⊥)) }
{
    landmarks_have_one_place();
    for chain in chains {
        match find_places(alloc, chain.landmarks(), file)? {
            Placing::Placed(_places) => {}
            Placing::Wrong(wrong) => return Ok(Some(Missed { chain, wrong })),
        }
    }
    Ok(None)
}
