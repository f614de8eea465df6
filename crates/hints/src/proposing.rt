//! Landmarks that may help where a need of a script fails. None is tried here.

use crate::looked::{Looked, looked_at};
use crate::made_chains::{chain_of, count_of, is_by, is_key, longer_of, with_chain, with_landmark};
use crate::ruling_out::{are_ruled_out, loosened};
use cert_check::Place;
use ed_base::{Bytes, Texts};
use ed_syntax::Script;
use landmarks::{Landmark, LandmarkChain, LandmarkChains, Which};
use std::alloc::{AllocError, Global};

/// How many landmarks are stated beside those that are given, at most.
const MOST_LANDMARKS: usize = 9;

/// How many of the patterns that earlier commands search for are tried beside those of a command, at most: the last ones.
const MOST_EARLIER: usize = 3;

/// What a command looks for that fails with some chains of landmarks beside those that are given.
#[derive(Drop)]
struct Wanting<'a> {
    alloc: Global,
    looked: Looked<'a>,
    given: &'a [LandmarkChain],
    added: &'a LandmarkChains,
}

impl Wanting<'_> {
    /// A landmark that matches another pattern too, where there is one.
    fn landmark(&self, which: Which, also: Option<&[u8]>) -> Result<Landmark, AllocError> {
        let mut others = Texts::none(self.alloc);
        if let Some(text) = also {
            others.add(text)?;
        }
        Ok(Landmark {
            none: Texts::none(self.alloc),
            which,
            gap: 1,
            tail: 0,
            also: others,
            lacks: Texts::none(self.alloc),
        })
    }

    /// The landmark by a pattern of which all is said that may help: that no other line matches the pattern, unless another landmark is
    /// looked for by it, in a chain that is given too; that there are as many lines above and below it as the command reaches; and that it
    /// matches another pattern too.
    fn by_pattern(&self, text: &[u8], also: Option<&[u8]>) -> Result<Landmark, AllocError> {
        let pattern = Bytes::from_slice(self.alloc, text)?;
        let which = if is_key(self.added.as_slice(), text) || is_key(self.given, text) {
            Which::First(pattern)
        } else {
            Which::Only(pattern)
        };
        let other = match also {
            Some(other) if other != text => Some(other),
            _ => None,
        };
        let mut landmark = self.landmark(which, other)?;
        landmark.gap = self.looked.above.saturating_add(1);
        landmark.tail = self.looked.below;
        Ok(landmark)
    }

    /// Puts in chains that have these landmarks more: as a chain of their own, or below the last one of a chain that is there.
    fn push_landmarks(
        &self,
        landmarks: &[Landmark],
        found: &mut Vec<LandmarkChains>,
    ) -> Result<(), AllocError> {
        let count = count_of(self.added.as_slice()).saturating_add(landmarks.len());
        if count > MOST_LANDMARKS || are_ruled_out(self.given, landmarks) {
            return Ok(());
        }
        let others = loosened(self.alloc, self.added, landmarks)?;
        if let Some(chain) = chain_of(self.alloc, landmarks)? {
            let mut alone = Vec::new(self.alloc);
            alone.push(chain)?;
            let all = others
                .try_copy()?
                .followed_by(LandmarkChains::from_vec(alone))?;
            found.push(all)?;
        }
        for (place, chain) in others.as_slice().iter().enumerate() {
            if let Some(longer) = longer_of(self.alloc, chain, landmarks)? {
                found.push(with_chain(self.alloc, &others, place, Some(longer))?)?;
            }
        }
        Ok(())
    }

    /// Puts in chains with one landmark more.
    fn push_one(
        &self,
        landmark: Landmark,
        found: &mut Vec<LandmarkChains>,
    ) -> Result<(), AllocError> {
        let mut one = Vec::new(self.alloc);
        one.push(landmark)?;
        self.push_landmarks(one.as_slice(), found)
    }

    /// Puts in chains with one landmark more, by what a command looks for. Without a search it may be the line that an earlier one found, or,
    /// of an `s` of several lines, one of these.
    fn push_single(&self, found: &mut Vec<LandmarkChains>) -> Result<(), AllocError> {
        let replaced = self.looked.replaced;
        for text in self.looked.searches.as_slice() {
            self.push_one(self.by_pattern(text, replaced)?, found)?;
        }
        match (self.looked.number, replaced) {
            (Some(number), Some(_)) => {
                let one = self.landmark(Which::Numbered(number), replaced)?;
                self.push_one(one, found)?;
            }
            (None, Some(text)) if self.looked.searches.is_empty() => {
                self.push_one(self.by_pattern(text, None)?, found)?;
            }
            _ => {}
        }
        match self.looked.before {
            Some(before) if self.looked.searches.is_empty() => {
                self.push_one(self.by_pattern(before, replaced)?, found)
            }
            _ => Ok(()),
        }
    }

    /// Puts in chains with two landmarks more, the second below the first.
    fn push_two(
        &self,
        first: Landmark,
        second: Landmark,
        found: &mut Vec<LandmarkChains>,
    ) -> Result<(), AllocError> {
        let mut two = Vec::new(self.alloc);
        two.push(first)?;
        two.push(second)?;
        self.push_landmarks(two.as_slice(), found)
    }

    /// Puts in chains with landmarks by two patterns and, between these lines, one that an `s` changes.
    fn push_between(
        &self,
        first: &[u8],
        second: &[u8],
        replaced: &[u8],
        found: &mut Vec<LandmarkChains>,
    ) -> Result<(), AllocError> {
        if replaced == first || replaced == second {
            return Ok(());
        }
        let between = Which::First(Bytes::from_slice(self.alloc, replaced)?);
        let mut three = Vec::new(self.alloc);
        three.push(self.by_pattern(first, None)?)?;
        three.push(self.landmark(between, None)?)?;
        three.push(self.by_pattern(second, None)?)?;
        self.push_landmarks(three.as_slice(), found)
    }

    /// Puts in chains with landmarks by two patterns, the second below the first. Where the command is an `s`, the line that it changes is
    /// one between them, or one of both.
    fn push_pair(
        &self,
        first: &[u8],
        second: &[u8],
        found: &mut Vec<LandmarkChains>,
    ) -> Result<(), AllocError> {
        let replaced = self.looked.replaced;
        if let Some(text) = replaced {
            self.push_between(first, second, text, found)?;
            let one = self.by_pattern(first, None)?;
            self.push_two(one, self.by_pattern(second, replaced)?, found)?;
        }
        let one = self.by_pattern(first, replaced)?;
        self.push_two(one, self.by_pattern(second, None)?, found)
    }

    /// Puts in chains with two landmarks more, by two patterns that a command searches for, in either order.
    fn push_pairs(&self, found: &mut Vec<LandmarkChains>) -> Result<(), AllocError> {
        let searches = self.looked.searches.as_slice();
        for (index, first) in searches.iter().enumerate() {
            for (other, second) in searches.iter().enumerate() {
                if index < other {
                    self.push_pair(first, second, found)?;
                    self.push_pair(second, first, found)?;
                }
            }
        }
        Ok(())
    }

    /// Puts in chains with two landmarks more, by a pattern that an earlier command searches for and one that this command does, in either
    /// order: what is done to the line that the earlier one finds leaves the other one there.
    fn push_apart(&self, found: &mut Vec<LandmarkChains>) -> Result<(), AllocError> {
        let earlier = self.looked.earlier.as_slice();
        for first in earlier.iter().rev().take(MOST_EARLIER) {
            for second in self.looked.searches.as_slice() {
                if *first != *second {
                    self.push_pair(first, second, found)?;
                    self.push_pair(second, first, found)?;
                }
            }
        }
        Ok(())
    }

    /// Puts in chains of which one landmark says that it matches the pattern of an `s` too.
    fn push_fuller(&self, found: &mut Vec<LandmarkChains>) -> Result<(), AllocError> {
        let Some(replaced) = self.looked.replaced else {
            return Ok(());
        };
        for (place, chain) in self.added.as_slice().iter().enumerate() {
            for (index, landmark) in chain.landmarks().iter().enumerate() {
                let Some(fuller) = fuller_of(landmark, replaced)? else {
                    continue;
                };
                if let Some(other) = with_landmark(self.alloc, chain, index, Some(&fuller))? {
                    found.push(with_chain(self.alloc, self.added, place, Some(other))?)?;
                }
            }
        }
        Ok(())
    }
}

/// The landmark that matches another pattern too, unless it is looked for by that one.
fn fuller_of(landmark: &Landmark, replaced: &[u8]) -> Result<Option<Landmark>, AllocError> {
    if is_by(landmark, replaced) {
        return Ok(None);
    }
    let mut fuller = landmark.try_copy()?;
    fuller.also.add(replaced)?;
    Ok(Some(fuller))
}

/// Chains of landmarks with which a script may get past a place where it fails with some chains: those that say more of a landmark that is
/// there, and those with one landmark more, or up to three.
pub(crate) fn proposals(
    alloc: Global,
    script: &Script,
    place: Place,
    given: &[LandmarkChain],
    added: &LandmarkChains,
) -> Result<Vec<LandmarkChains>, AllocError> {
    let mut found = Vec::new(alloc);
    let Some(looked) = looked_at(alloc, script, place)? else {
        return Ok(found);
    };
    let wanting = Wanting {
        alloc,
        looked,
        given,
        added,
    };
    wanting.push_fuller(&mut found)?;
    wanting.push_single(&mut found)?;
    wanting.push_pairs(&mut found)?;
    wanting.push_apart(&mut found)?;
    Ok(found)
}
