//! The places of the landmarks of a chain.

ghost use Rattle.std.specs.Prelude.{◌≡◌, ◌≤◌, ◌<◌, ◌-◌, true, false, All, length, IfOk, MatchOption, MatchResult};
ghost use Rattle.ed_base.specs.Lines.{lines_of};
ghost use Rattle.ed_syntax.specs.meaning.Values.{matches};
ghost use Rattle.landmarks.specs.Places.{Matches, Differs, HasDistances, IsSought, IsAlone, IsAt, NoneMatches};
ghost use Rattle.landmarks.specs.Misplaced.{IsFarEnough, IsWrongDistance, IsAnother, IsFirstWith, IsBetween, IsWrong};
ghost use Rattle.landmarks.specs.Placings.{IsPlacing};

use crate::looking::{first_match, line_at, line_matches};
use crate::{Landmark, Misfit, Misplaced, Which};
use ed_base::{Bytes, count_lines};
use std::alloc::{AllocError, Global};

/// Where the landmarks of a chain are.
#[derive(Debug, Drop)]
pub enum Placing {
    /// Their lines, one for each landmark, counted from 1.
    Placed(Vec<usize>),
    /// One isn't where it should be.
    Wrong(Misplaced),
}

/// Where each landmark of a chain is in a file. Each pattern looks at each line twice at most, and once but for `only`.
pub fn find_places(alloc: Global, chain: &[Landmark], file: &[u8]) -> Result<Placing, AllocError>
    ensures value { IfOk result (IsPlacing (lines_of file.now) chain.now) }
{
    let last = count_lines(file);
    let mut places = Vec::new(alloc);
    let mut before = 0;
    for landmark in chain {
        match place_of(alloc, landmark, file, before, last)? {
            Ok(place) => {
                places.push(place)?;
                before = place;
            }
            Err(why) => {
                let index = places.len();
                return Ok(Placing::Wrong(Misplaced { index, before, why }));
            }
        }
    }
    Ok(Placing::Placed(places))
}

/// The line of a landmark, where the one before it is at line `before`, or why there is none. What is said of it is looked at in one order,
/// each thing by one of the functions below, which goes on to the next.
fn place_of(
    alloc: Global,
    landmark: &Landmark,
    file: &[u8],
    before: usize,
    last: usize,
) -> Result<Result<usize, Misfit>, AllocError>
    requires last { last ≡ length (lines_of file.now) }
    ensures value { IfOk result (λ found. MatchResult found (IsAt (lines_of file.now) before landmark.now)
        (IsWrong (lines_of file.now) before landmark.now)) }
{
    match sought(alloc, landmark, file, before, last)? {
        Ok(place) => if_far_enough(alloc, landmark, file, before, place, last),
        Err(why) => Ok(Err(why)),
    }
}

/// The line that is looked for below line `before`, or why there is none.
fn sought(
    alloc: Global,
    landmark: &Landmark,
    file: &[u8],
    before: usize,
    last: usize,
) -> Result<Result<usize, Misfit>, AllocError>
    requires last { last ≡ length (lines_of file.now) }
    ensures value { IfOk result (λ found. MatchResult found (IsSought (lines_of file.now) landmark.now.which before)
        (IsWrong (lines_of file.now) before landmark.now)) }
    ensures inside { IfOk result (λ found. IfOk found (λ place. place ≤ length (lines_of file.now))) }
{
    let found = match &landmark.which {
        Which::First(pattern) => first_match(alloc, pattern.as_slice(), file, before, last)?,
        Which::Only(pattern) => first_match(alloc, pattern.as_slice(), file, before, last)?,
        Which::Numbered(number) => {
            let number = *number as usize;
            if number > last {
                return Ok(Err(Misfit::Beyond(number)));
            }
            Some(number)
        }
    };
    match found {
        Some(place) => Ok(Ok(place)),
        None => Ok(Err(Misfit::Missing)),
    }
}

/// What is wrong with the distances of the line that is looked for.
fn distance_fault(landmark: &Landmark, before: usize, place: usize, last: usize) -> Option<Misfit>
    requires inside { place ≤ last }
    ensures value { MatchOption result (HasDistances last before landmark.now place) (IsWrongDistance last before landmark.now place) }
{
    if place <= before || place - before < landmark.gap as usize {
        return Some(Misfit::Near(place));
    }
    if last - place < landmark.tail as usize {
        return Some(Misfit::Late(place));
    }
    None
}

/// The line that is looked for, if its distances are right.
fn if_far_enough(
    alloc: Global,
    landmark: &Landmark,
    file: &[u8],
    before: usize,
    place: usize,
    last: usize,
) -> Result<Result<usize, Misfit>, AllocError>
    requires last { last ≡ length (lines_of file.now) }
    requires sought { IsSought (lines_of file.now) landmark.now.which before place }
    requires inside { place ≤ last }
    ensures value { IfOk result (λ found. MatchResult found (IsAt (lines_of file.now) before landmark.now)
        (IsWrong (lines_of file.now) before landmark.now)) }
{
    match distance_fault(landmark, before, place, last) {
        Some(why) => Ok(Err(why)),
        None => if_alone(alloc, landmark, file, before, place),
    }
}

/// The line that is looked for, if no other one matches where none should.
fn if_alone(
    alloc: Global,
    landmark: &Landmark,
    file: &[u8],
    before: usize,
    place: usize,
) -> Result<Result<usize, Misfit>, AllocError>
    requires far { IsFarEnough (lines_of file.now) before landmark.now place }
    ensures value { IfOk result (λ found. MatchResult found (IsAt (lines_of file.now) before landmark.now)
        (IsWrong (lines_of file.now) before landmark.now)) }
{
    match another(alloc, &landmark.which, file, place)? {
        Some(other) => Ok(Err(Misfit::Repeated(place, other))),
        None => if_matched(alloc, landmark, file, before, place),
    }
}

/// The line that is looked for, if it matches what it should match too.
fn if_matched(
    alloc: Global,
    landmark: &Landmark,
    file: &[u8],
    before: usize,
    place: usize,
) -> Result<Result<usize, Misfit>, AllocError>
    requires far { IsFarEnough (lines_of file.now) before landmark.now place }
    requires alone { IsAlone (lines_of file.now) landmark.now.which place }
    ensures value { IfOk result (λ found. MatchResult found (IsAt (lines_of file.now) before landmark.now)
        (IsWrong (lines_of file.now) before landmark.now)) }
{
    match first_unmatched(alloc, landmark.also.members(), line_at(file, place))? {
        Some(pattern) => Ok(Err(Misfit::Unmatched(place, pattern.try_copy()?))),
        None => if_lacking(alloc, landmark, file, before, place),
    }
}

/// The line that is looked for, if it doesn't match what it lacks.
fn if_lacking(
    alloc: Global,
    landmark: &Landmark,
    file: &[u8],
    before: usize,
    place: usize,
) -> Result<Result<usize, Misfit>, AllocError>
    requires far { IsFarEnough (lines_of file.now) before landmark.now place }
    requires alone { IsAlone (lines_of file.now) landmark.now.which place }
    requires also { All (Matches (lines_of file.now) place) landmark.now.also }
    ensures value { IfOk result (λ found. MatchResult found (IsAt (lines_of file.now) before landmark.now)
        (IsWrong (lines_of file.now) before landmark.now)) }
{
    match first_matched(alloc, landmark.lacks.members(), line_at(file, place))? {
        Some(pattern) => Ok(Err(Misfit::Matched(place, pattern.try_copy()?))),
        None => if_clear(alloc, landmark, file, before, place),
    }
}

/// The line that is looked for, if no line between the landmark before it and it matches what none should match.
fn if_clear(
    alloc: Global,
    landmark: &Landmark,
    file: &[u8],
    before: usize,
    place: usize,
) -> Result<Result<usize, Misfit>, AllocError>
    requires far { IsFarEnough (lines_of file.now) before landmark.now place }
    requires alone { IsAlone (lines_of file.now) landmark.now.which place }
    requires also { All (Matches (lines_of file.now) place) landmark.now.also }
    requires lacks { All (Differs (lines_of file.now) place) landmark.now.lacks }
    ensures value { IfOk result (λ found. MatchResult found (IsAt (lines_of file.now) before landmark.now)
        (IsWrong (lines_of file.now) before landmark.now)) }
{
    match between(alloc, landmark.none.members(), file, before, place)? {
        Some((line, pattern)) => Ok(Err(Misfit::Between(place, line, pattern.try_copy()?))),
        None => Ok(Ok(place)),
    }
}

/// The first other line that a pattern matches which should match this one alone.
fn another(
    alloc: Global,
    which: &Which,
    file: &[u8],
    place: usize,
) -> Result<Option<usize>, AllocError>
    requires from { 1 ≤ place }
    requires inside { place ≤ length (lines_of file.now) }
    ensures value { IfOk result (λ found. MatchOption found (IsAlone (lines_of file.now) which.now place)
        (IsAnother (lines_of file.now) which.now place)) }
{
    let Which::Only(pattern) = which else {
        return Ok(None);
    };
    let above = first_match(alloc, pattern.as_slice(), file, 0, place - 1)?;
    if above.is_some() {
        return Ok(above);
    }
    first_match(alloc, pattern.as_slice(), file, place, count_lines(file))
}

/// The first of these patterns that the line doesn't match.
fn first_unmatched<'p>(
    alloc: Global,
    patterns: &'p [Bytes],
    line: &[u8],
) -> Result<Option<&'p Bytes>, AllocError>
    ensures value { IfOk result (λ found. MatchOption found (All (λ pattern. matches pattern line.now ≡ true) patterns.now)
        (λ first. IsFirstWith (λ pattern. matches pattern line.now ≡ false) (λ pattern. matches pattern line.now ≡ true)
        patterns.now first.now)) }
{
    for pattern in patterns {
        let is_matched = line_matches(alloc, pattern.as_slice(), line)?;
        if !is_matched {
            return Ok(Some(pattern));
        }
    }
    Ok(None)
}

/// The first of these patterns that the line matches.
fn first_matched<'p>(
    alloc: Global,
    patterns: &'p [Bytes],
    line: &[u8],
) -> Result<Option<&'p Bytes>, AllocError>
    ensures value { IfOk result (λ found. MatchOption found (All (λ pattern. matches pattern line.now ≡ false) patterns.now)
        (λ first. IsFirstWith (λ pattern. matches pattern line.now ≡ true) (λ pattern. matches pattern line.now ≡ false)
        patterns.now first.now)) }
{
    for pattern in patterns {
        let is_matched = line_matches(alloc, pattern.as_slice(), line)?;
        if is_matched {
            return Ok(Some(pattern));
        }
    }
    Ok(None)
}

/// The first of these patterns that a line between two others matches, after the first such line.
fn between<'p>(
    alloc: Global,
    patterns: &'p [Bytes],
    file: &[u8],
    before: usize,
    place: usize,
) -> Result<Option<(usize, &'p Bytes)>, AllocError>
    requires from { 1 ≤ place }
    requires inside { place ≤ length (lines_of file.now) }
    ensures value { IfOk result (λ found. MatchOption found (All (NoneMatches (lines_of file.now) before (place - 1)) patterns.now)
        (λ (line, pattern). IsFirstWith (IsBetween (lines_of file.now) before place line)
        (NoneMatches (lines_of file.now) before (place - 1)) patterns.now pattern.now)) }
{
    for pattern in patterns {
        let found = first_match(alloc, pattern.as_slice(), file, before, place - 1)?;
        match found {
            Some(line) => return Ok(Some((line, pattern))),
            None => {}
        }
    }
    Ok(None)
}
