//! Landmarks by a pattern that no other line is to match, beside others by that pattern.

use crate::made_chains::{chain_of, is_by};
use landmarks::{Landmark, LandmarkChain, LandmarkChains, Which};
use std::alloc::{AllocError, Global};

/// Whether one of some landmarks is looked for by the pattern of this one, of which no other line is to match it.
fn is_met_again(landmark: &Landmark, landmarks: &[Landmark]) -> bool {
    match &landmark.which {
        Which::Only(pattern) => {
            for other in landmarks {
                if is_by(other, pattern.as_slice()) {
                    return true;
                }
            }
            false
        }
        _ => false,
    }
}

/// Whether no other line than one that is given may match the pattern of a landmark.
fn is_pinned(given: &[LandmarkChain], landmark: &Landmark) -> bool {
    for chain in given {
        for other in chain.landmarks() {
            if let Which::Only(pattern) = &other.which {
                if is_by(landmark, pattern.as_slice()) {
                    return true;
                }
            }
        }
    }
    false
}

/// Whether one of some landmarks can be no other line than one that is given, of which all is said already.
pub(crate) fn are_ruled_out(given: &[LandmarkChain], landmarks: &[Landmark]) -> bool {
    for landmark in landmarks {
        if is_pinned(given, landmark) {
            return true;
        }
    }
    false
}

/// The landmark, the first line that matches where one of some others may be another line that does.
fn loosened_landmark(landmark: &Landmark, landmarks: &[Landmark]) -> Result<Landmark, AllocError> {
    let mut loose = landmark.try_copy()?;
    if is_met_again(landmark, landmarks) {
        match &landmark.which {
            Which::Only(pattern) => loose.which = Which::First(pattern.try_copy()?),
            _ => {}
        }
    }
    Ok(loose)
}

/// Chains that don't rule out some landmarks more by their patterns.
pub(crate) fn loosened(
    alloc: Global,
    chains: &LandmarkChains,
    landmarks: &[Landmark],
) -> Result<LandmarkChains, AllocError> {
    let mut all = Vec::new(alloc);
    for chain in chains.as_slice() {
        let mut loose = Vec::new(alloc);
        for landmark in chain.landmarks() {
            loose.push(loosened_landmark(landmark, landmarks)?)?;
        }
        match chain_of(alloc, loose.as_slice())? {
            Some(chain) => all.push(chain)?,
            None => all.push(chain.try_copy()?)?,
        }
    }
    Ok(LandmarkChains::from_vec(all))
}
