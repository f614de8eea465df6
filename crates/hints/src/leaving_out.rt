//! Landmarks with one word less.

use crate::made_chains::{with_chain, with_landmark};
use ed_base::Texts;
use landmarks::{Landmark, LandmarkChains, Which};
use std::alloc::{AllocError, Global};

/// The patterns but the one at a place.
fn without_pattern(patterns: &Texts, place: usize) -> Result<Texts, AllocError> {
    let mut others = Texts::none(patterns.allocator());
    for (index, pattern) in patterns.members().iter().enumerate() {
        if index != place {
            others.add(pattern.as_slice())?;
        }
    }
    Ok(others)
}

/// The landmark without each of its words in turn: that it matches another pattern too, that no other line matches, and how far it is from the
/// one before it and from the end.
fn lessened(alloc: Global, landmark: &Landmark) -> Result<Vec<Landmark>, AllocError> {
    let mut forms = Vec::new(alloc);
    for place in 0..landmark.also.members().len() {
        let mut less = landmark.try_copy()?;
        less.also = without_pattern(&landmark.also, place)?;
        forms.push(less)?;
    }
    if let Which::Only(pattern) = &landmark.which {
        let mut less = landmark.try_copy()?;
        less.which = Which::First(pattern.try_copy()?);
        forms.push(less)?;
    }
    if landmark.gap > 1 {
        let mut less = landmark.try_copy()?;
        less.gap = 1;
        forms.push(less)?;
    }
    if landmark.tail > 0 {
        let mut less = landmark.try_copy()?;
        less.tail = 0;
        forms.push(less)?;
    }
    Ok(forms)
}

/// The chains without the word of a number, counted from 0: each landmark is one, and then each of its words. None where there is no such word.
pub(crate) fn without_word(
    alloc: Global,
    chains: &LandmarkChains,
    number: usize,
) -> Result<Option<LandmarkChains>, AllocError> {
    let mut left = number;
    for (place, chain) in chains.as_slice().iter().enumerate() {
        for (index, landmark) in chain.landmarks().iter().enumerate() {
            if left == 0 {
                let shorter = with_landmark(alloc, chain, index, None)?;
                return Ok(Some(with_chain(alloc, chains, place, shorter)?));
            }
            left -= 1;
            let forms = lessened(alloc, landmark)?;
            if let Some(less) = forms.as_slice().get(left) {
                let lessened = with_landmark(alloc, chain, index, Some(less))?;
                return Ok(Some(with_chain(alloc, chains, place, lessened)?));
            }
            left = left.saturating_sub(forms.len());
        }
    }
    Ok(None)
}
