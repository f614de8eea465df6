//! Chains of landmarks, by what they look for, and others that are made of them.

use landmarks::{ChainFault, Landmark, LandmarkChain, LandmarkChains, Which, write_chain};
use std::alloc::{AllocError, Global};

/// The pattern by which a landmark is looked for.
fn key_of(landmark: &Landmark) -> Option<&[u8]> {
    match &landmark.which {
        Which::First(pattern) | Which::Only(pattern) => Some(pattern.as_slice()),
        Which::Numbered(_) => None,
    }
}

/// Whether a landmark is looked for by this pattern.
pub(crate) fn is_by(landmark: &Landmark, text: &[u8]) -> bool {
    match key_of(landmark) {
        Some(key) => key == text,
        None => false,
    }
}

/// Whether some landmark is looked for by a pattern.
pub(crate) fn is_key(chains: &[LandmarkChain], text: &[u8]) -> bool {
    for chain in chains {
        for landmark in chain.landmarks() {
            if is_by(landmark, text) {
                return true;
            }
        }
    }
    false
}

/// How many landmarks some chains have.
pub(crate) fn count_of(chains: &[LandmarkChain]) -> usize {
    let mut count: usize = 0;
    for chain in chains {
        count = count.saturating_add(chain.landmarks().len());
    }
    count
}

/// The chain of some landmarks. None where there is none, or no text spells them.
pub(crate) fn chain_of(
    alloc: Global,
    landmarks: &[Landmark],
) -> Result<Option<LandmarkChain>, AllocError> {
    let Some(text) = write_chain(alloc, landmarks)? else {
        return Ok(None);
    };
    match LandmarkChain::read(alloc, text) {
        Ok(chain) => Ok(Some(chain)),
        Err(ChainFault::Memory) => Err(AllocError),
        Err(ChainFault::Wrong(_, _)) => Ok(None),
    }
}

/// A chain with landmarks below its last one.
pub(crate) fn longer_of(
    alloc: Global,
    chain: &LandmarkChain,
    landmarks: &[Landmark],
) -> Result<Option<LandmarkChain>, AllocError> {
    let mut all = Vec::new(alloc);
    for landmark in chain.landmarks() {
        all.push(landmark.try_copy()?)?;
    }
    for landmark in landmarks {
        all.push(landmark.try_copy()?)?;
    }
    chain_of(alloc, all.as_slice())
}

/// A chain with another landmark at a place, or without the one there. None where none is left, or no text spells them.
pub(crate) fn with_landmark(
    alloc: Global,
    chain: &LandmarkChain,
    place: usize,
    other: Option<&Landmark>,
) -> Result<Option<LandmarkChain>, AllocError> {
    let mut all = Vec::new(alloc);
    for (index, landmark) in chain.landmarks().iter().enumerate() {
        let taken = if index == place {
            other
        } else {
            Some(landmark)
        };
        if let Some(landmark) = taken {
            all.push(landmark.try_copy()?)?;
        }
    }
    chain_of(alloc, all.as_slice())
}

/// Chains with another one at a place, or without the one there.
pub(crate) fn with_chain(
    alloc: Global,
    chains: &LandmarkChains,
    place: usize,
    other: Option<LandmarkChain>,
) -> Result<LandmarkChains, AllocError> {
    let mut all = Vec::new(alloc);
    for (index, chain) in chains.as_slice().iter().enumerate() {
        if index != place {
            all.push(chain.try_copy()?)?;
        }
    }
    if let Some(chain) = other {
        let after = place.min(all.len());
        all.insert(after, chain)?;
    }
    Ok(LandmarkChains::from_vec(all))
}
