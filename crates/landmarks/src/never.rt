//! Landmarks that no line can be.

ghost use Rattle.std.specs.Prelude.{◌≡◌, [], ◌∷◌, All, IfOk, MatchOption};
ghost use Rattle.bre_parse.specs.Always.{text_is_always};
ghost use Rattle.ed_base.specs.Texts.{is_member};
ghost use Rattle.landmarks.specs.Spelled.{matched_by, sought_by, MayDiffer, CanLack, CanLieBelow, CanBe};
ghost use Rattle.landmarks.specs.ChainFaults.{IsAlwaysIn, IsNever};

use crate::chain_fault::Never;
use crate::{Landmark, Which};
use bre_parse::Bre;
use bre_parse::fault::BreFault;
use ed_base::Bytes;
use std::alloc::{AllocError, Global};
use std::cmp::Ordering;

/// Why no line can be a landmark, where that is seen from its words.
pub fn never(alloc: Global, landmark: &Landmark) -> Result<Option<Never>, AllocError>
    ensures value { IfOk result (λ why. MatchOption why (CanBe landmark.now) (IsNever landmark.now)) }
{
    match never_lacking(alloc, landmark)? {
        Some(why) => Ok(Some(why)),
        None => never_below(alloc, landmark),
    }
}

/// Why no line can be without a match where a landmark is to have none.
fn never_lacking(alloc: Global, landmark: &Landmark) -> Result<Option<Never>, AllocError>
    ensures value { IfOk result (λ why. MatchOption why (All (CanLack landmark.now) landmark.now.lacks) (IsNever landmark.now)) }
{
    for pattern in landmark.lacks.members() {
        let is_both = is_matched(landmark, pattern.as_slice());
        if is_both {
            return Ok(Some(Never::Both(pattern.try_copy()?)));
        }
        let is_each = is_always(alloc, pattern.as_slice())?;
        if is_each {
            return Ok(Some(Never::Always(pattern.try_copy()?)));
        }
    }
    Ok(None)
}

/// Why no line can be as far below the landmark before it as a landmark is to be.
fn never_below(alloc: Global, landmark: &Landmark) -> Result<Option<Never>, AllocError>
    ensures value { IfOk result (λ why. MatchOption why (CanLieBelow landmark.now) (IsNever landmark.now)) }
{
    if landmark.gap < 2 {
        return Ok(None);
    }
    if let Some(pattern) = always_sought(alloc, &landmark.which)? {
        return Ok(Some(Never::RightBelow(pattern)));
    }
    match always_among(alloc, landmark.none.members())? {
        Some(pattern) => Ok(Some(Never::RightBelow(pattern))),
        None => Ok(None),
    }
}

/// The pattern by which the line is looked for, where it is seen to match each line.
fn always_sought(alloc: Global, which: &Which) -> Result<Option<Bytes>, AllocError>
    ensures value { IfOk result (λ found. MatchOption found (All MayDiffer (sought_by which.now)) (IsAlwaysIn (sought_by which.now))) }
{
    match which {
        Which::First(pattern) => always_one(alloc, pattern),
        Which::Only(pattern) => always_one(alloc, pattern),
        Which::Numbered(_) => Ok(None),
    }
}

/// A pattern, where it is seen to match each line.
fn always_one(alloc: Global, pattern: &Bytes) -> Result<Option<Bytes>, AllocError>
    ensures value { IfOk result (λ found. MatchOption found (All MayDiffer (pattern.now ∷ [])) (IsAlwaysIn (pattern.now ∷ []))) }
{
    let is_each = is_always(alloc, pattern.as_slice())?;
    if is_each {
        return Ok(Some(pattern.try_copy()?));
    }
    Ok(None)
}

/// The first of some patterns that is seen to match each line.
fn always_among(alloc: Global, patterns: &[Bytes]) -> Result<Option<Bytes>, AllocError>
    ensures value { IfOk result (λ found. MatchOption found (All MayDiffer patterns.now) (IsAlwaysIn patterns.now)) }
{
    for pattern in patterns {
        let is_each = is_always(alloc, pattern.as_slice())?;
        if is_each {
            return Ok(Some(pattern.try_copy()?));
        }
    }
    Ok(None)
}

/// Whether a pattern is one that the line of a landmark matches.
fn is_matched(landmark: &Landmark, pattern: &[u8]) -> bool
    ensures value { result ≡ is_member (matched_by landmark.now) pattern.now }
{
    is_sought(&landmark.which, pattern) || landmark.also.has(pattern)
}

/// Whether a pattern is the one by which the line is looked for.
fn is_sought(which: &Which, pattern: &[u8]) -> bool
    ensures value { result ≡ is_member (sought_by which.now) pattern.now }
{
    match which {
        Which::First(sought) => pattern.cmp(&sought.as_slice()) == Ordering::Equal,
        Which::Only(sought) => pattern.cmp(&sought.as_slice()) == Ordering::Equal,
        Which::Numbered(_) => false,
    }
}

/// Whether a text is a pattern that is seen to match each line.
fn is_always(alloc: Global, pattern: &[u8]) -> Result<bool, AllocError>
    ensures value { IfOk result (λ is. is ≡ text_is_always pattern.now) }
{
    match Bre::read(alloc, pattern) {
        Ok(bre) => Ok(bre.always()),
        Err(BreFault::Memory) => Err(AllocError),
        Err(_) => Ok(false),
    }
}
