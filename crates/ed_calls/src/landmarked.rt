//! Landmarks that a start is to have: whether a script leaves letters for them.
ghost use Rattle.std.specs.Prelude.{◌≡◌, ◌≤◌, IfOk, MatchOption};
ghost use Rattle.ed_calls.specs.Landmarked.{LeavesLetters};

use crate::starts::Starts;
use cert_check::{landmarks_in, letters_left};
use ed_syntax::read_script;
use std::alloc::{AllocError, Global};

/// Too few letters for the landmarks of a start: each takes one that the script doesn't name.
#[derive(Clone, Copy, Debug, PartialEq, Eq)]
pub struct TooFewLetters {
    /// How many landmarks there are.
    pub lines: usize,
    /// How many letters the script leaves.
    pub letters: usize,
}

/// Whether a script leaves too few letters for the landmarks that are given.
#[tactic(auto, using(crate::proofs::LetterCounts::no_letters))]
pub fn too_few_letters(
    alloc: Global,
    script: &[u8],
    starts: &Starts,
) -> Result<Option<TooFewLetters>, AllocError>
    ensures exact { IfOk result (λ few. MatchOption few (LeavesLetters script.now starts.now) (λ _. ¬ LeavesLetters script.now starts.now)) }
{
    let lines = landmarks_in(starts.landmarks());
    if lines == 0 {
        return Ok(None);
    }
    let script = read_script(alloc, script)?;
    let letters = letters_left(&script);
    if lines <= letters {
        return Ok(None);
    }
    Ok(Some(TooFewLetters { lines, letters }))
}
