//! What is given of a start, with more landmarks.

ghost use Rattle.std.specs.Prelude.{◌≡◌, ◌++◌, IfOk};
ghost use Rattle.hints.specs.Passing.{chains_in};
ghost use Rattle.hints.specs.Landmarks.{with_landmarks, marked_by};

use crate::given::Given;
use crate::starts::{copy_of_has, copy_of_path};
use analyser::Start;
use landmarks::{LandmarkChain, LandmarkChains};
use std::alloc::{AllocError, Global};

/// The chains of landmarks that are stated.
pub(crate) fn chains_in(
    alloc: Global,
    landmarks: &Option<LandmarkChains>,
) -> Result<LandmarkChains, AllocError>
    ensures value { IfOk result (λ chains. chains ≡ chains_in landmarks.now) }
{
    match landmarks {
        Some(landmarks) => landmarks.try_copy(),
        None => Ok(LandmarkChains::none(alloc)),
    }
}

/// What is given, with these chains of landmarks after those that are.
pub(crate) fn with_landmarks(
    alloc: Global,
    given: &Given,
    added: &[LandmarkChain],
) -> Result<Given, AllocError>
    ensures value { IfOk result (λ marked. marked ≡ with_landmarks given.now added.now) }
{
    let more = LandmarkChains::from_slice(alloc, added)?;
    let all = chains_in(alloc, &given.landmarks)?.followed_by(more)?;
    Ok(Given {
        path: copy_of_path(&given.path)?,
        min: given.min,
        max: given.max,
        has: copy_of_has(&given.has)?,
        landmarks: Some(all),
    })
}

/// A start with these landmarks in place of its own.
pub(crate) fn marked_by(start: &Start, chains: LandmarkChains) -> Result<Start, AllocError>
    ensures value { IfOk result (λ marked. marked ≡ marked_by start.now chains) }
{
    Ok(Start {
        path: copy_of_path(&start.path)?,
        min: start.min,
        max: start.max,
        has: copy_of_has(&start.has)?,
        landmarks: Some(chains),
    })
}
