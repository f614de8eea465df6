//! The start with landmarks that is found for a script of what is given of it.

ghost use Rattle.std.specs.Prelude.{◌≡◌, ◌↔◌, ◌<◌, ◌≤◌, ◌++◌, ℕ, length, remove, IfOk, IfSome, IfNone, IsSome, IsTrue};
ghost use Rattle.ed_syntax.specs.PublicScript.{script_value};
ghost use Rattle.ed_syntax.specs.reading.Reading.{script_of};
ghost use Rattle.ed_rules.specs.LineBounds.{most_lines, IsAtMost};
ghost use Rattle.hints.specs.Passing.{IsAllowed, IsVouched, chains_in};
ghost use Rattle.hints.specs.Nowhere.{IsNowhere};
ghost use Rattle.hints.specs.Widest.{addable, fullest, IsWidest};
ghost use Rattle.hints.specs.Landmarks.{with_landmarks, marked_by, IsEachNeeded, IsLandmarked};

use crate::given::Given;
use crate::given_landmarks::{chains_in, marked_by, with_landmarks};
use crate::narrowing::is_vouched_beside;
use crate::nowhere::is_nowhere;
use crate::passing::is_vouched;
use crate::searched::addable;
use crate::trying::found_landmarks;
use crate::widest::{fullest_min, widest_of};
use analyser::Start;
use ed_rules::Texts;
use ed_syntax::{Script, read_script};
use landmarks::LandmarkChains;
use std::alloc::{AllocError, Global};

/// How often a script is analysed at most while landmarks are looked for.
const MOST_ANALYSES: usize = 200;

/// Whether a script is vouched for over a start without one of the chains that were added to those that are given.
fn is_vouched_without(
    alloc: Global,
    script: &Script,
    given: &Given,
    start: &Start,
    added: &LandmarkChains,
    place: usize,
) -> Result<bool, AllocError>
    requires within { place < length added.now }
    requires allowed { IsAllowed start.now }
    ensures exact { IfOk result (λ yes. IsTrue yes ↔ IsVouched (script_value script.now) (marked_by start.now (chains_in given.now.landmarks ++ remove added.now place))) }
{
    let others = added.without(place)?;
    let all = chains_in(alloc, &given.landmarks)?.followed_by(others)?;
    is_vouched(script, marked_by(start, all)?)
}

/// The chains that were added without one that isn't needed; none where each is needed.
#[tactic(auto, using(crate::proofs::ByLandmarks::fewer_without))]
fn fewer_chains(
    alloc: Global,
    script: &Script,
    given: &Given,
    start: &Start,
    added: &LandmarkChains,
) -> Result<Option<LandmarkChains>, AllocError>
    requires allowed { IsAllowed start.now }
    ensures fewer { IfOk result (λ found. IfSome found (λ fewer. length fewer < length added.now)) }
    ensures needed { IfOk result (λ found. IfNone found (IsEachNeeded (script_value script.now) given.now start.now added.now)) }
{
    for place in 0..added.as_slice().len() {
        if is_vouched_without(alloc, script, given, start, added, place)? {
            return Ok(Some(added.without(place)?));
        }
    }
    Ok(None)
}

/// The widest start of what is given and these chains; none where the script isn't vouched for with so many lines and all patterns that may be
/// stated.
fn widest_marked(
    alloc: Global,
    script: &Script,
    given: &Given,
    min: u64,
    patterns: &Texts,
    added: &LandmarkChains,
) -> Result<Option<Start>, AllocError>
    requires given_least { IfSome given.now.min (λ least. min ≡ least) }
    requires ordered { IsAtMost min given.now.max }
    requires low { min ≤ most_lines }
    requires high { IfSome given.now.max (λ most. most ≤ most_lines) }
    requires patterns { patterns.now ≡ addable (script_value script.now) given.now.max }
    ensures widest { IfOk result (λ found. IfSome found (IsWidest (script_value script.now) (with_landmarks given.now added.now))) }
{
    let marked = with_landmarks(alloc, given, added.as_slice())?;
    if !is_vouched_beside(alloc, script, &marked, min, patterns.members())? {
        return Ok(None);
    }
    Ok(Some(widest_of(alloc, script, &marked, min, patterns.members())?))
}

/// The widest start of what is given and those of these chains that are needed; none where that shows to be none, or it is seen that no file has
/// its landmarks.
#[tactic(auto, using(crate::proofs::ByLandmarks::landmarked_by))]
fn least_landmarks(
    alloc: Global,
    script: &Script,
    given: &Given,
    min: u64,
    patterns: &Texts,
    added: LandmarkChains,
) -> Result<Option<Start>, AllocError>
    requires given_least { IfSome given.now.min (λ least. min ≡ least) }
    requires ordered { IsAtMost min given.now.max }
    requires low { min ≤ most_lines }
    requires high { IfSome given.now.max (λ most. most ≤ most_lines) }
    requires patterns { patterns.now ≡ addable (script_value script.now) given.now.max }
    ensures landmarked { IfOk result (λ found. IfSome found (IsLandmarked (script_value script.now) given.now)) }
    ensures somewhere { IfOk result (λ found. IfSome found (λ start. ¬ IsNowhere start)) }
{
    let mut left = added;
    'fewer: loop {
        let Some(start) = widest_marked(alloc, script, given, min, patterns, &left)? else {
            return Ok(None);
        };
        let Some(fewer) = fewer_chains(alloc, script, given, &start, &left)? else {
            if is_nowhere(alloc, &start)? {
                return Ok(None);
            }
            return Ok(Some(start));
        };
        left = fewer;
    }
}

/// The start with landmarks that is found where a script isn't vouched for without, in so many analyses at most beside those that
/// find the widest start with these landmarks.
pub(crate) fn landmark_start_within(
    alloc: Global,
    script: &[u8],
    given: &Given,
    analyses: usize,
) -> Result<Option<Start>, AllocError>
    requires ordered { IfSome given.now.min (λ min. IsAtMost min given.now.max) }
    requires low { IfSome given.now.min (λ min. min ≤ most_lines) }
    requires high { IfSome given.now.max (λ most. most ≤ most_lines) }
    ensures landmarked { IfOk result (λ found. IfSome found (IsLandmarked (script_of script.now) given.now)) }
    ensures somewhere { IfOk result (λ found. IfSome found (λ start. ¬ IsNowhere start)) }
    ensures only { IfOk result (λ found. IsSome found → ¬ IsVouched (script_of script.now) (fullest (script_of script.now) given.now)) }
{
    let read = read_script(alloc, script)?;
    let min = fullest_min(given);
    let patterns = addable(alloc, &read, given.max)?;
    if is_vouched_beside(alloc, &read, given, min, patterns.members())? {
        return Ok(None);
    }
    match found_landmarks(alloc, &read, given, min, patterns.members(), analyses)? {
        Some(added) => least_landmarks(alloc, &read, given, min, &patterns, added),
        None => Ok(None),
    }
}

/// The start with landmarks that is found for a script which isn't vouched for over the fullest start without more of them: there
/// `widest_start` finds none. Its landmarks are those that are given, and chains beside them each of which is needed; they come from the
/// patterns of commands that fail without and of those before these, and may be none, since a script may be vouched for by what single lines
/// are known to match.
/// What else isn't given is found as `widest_start` finds it.
///
/// No start is found of which it is seen that no file has its landmarks; where that isn't seen, there may be no file all the same.
/// Where none is found there may still be one. Nothing is looked for where the script has no search and no `s`. The script is analysed
/// some 200 times at most, up to its first need that fails, beside what `widest_start` says of itself.
pub fn landmark_start(
    alloc: Global,
    script: &[u8],
    given: &Given,
) -> Result<Option<Start>, AllocError>
    requires ordered { IfSome given.now.min (λ min. IsAtMost min given.now.max) }
    requires low { IfSome given.now.min (λ min. min ≤ most_lines) }
    requires high { IfSome given.now.max (λ most. most ≤ most_lines) }
    ensures landmarked { IfOk result (λ found. IfSome found (IsLandmarked (script_of script.now) given.now)) }

    // It isn't seen that no file has its landmarks.
    ensures somewhere { IfOk result (λ found. IfSome found (λ start. ¬ IsNowhere start)) }

    // It is found only where the script isn't vouched for without.
    ensures only { IfOk result (λ found. IsSome found → ¬ IsVouched (script_of script.now) (fullest (script_of script.now) given.now)) }
{
    landmark_start_within(alloc, script, given, MOST_ANALYSES)
}
