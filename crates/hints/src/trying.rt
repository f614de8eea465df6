//! Landmarks with which a script is vouched for, found by trying. No clause speaks of which are tried.

use crate::given::Given;
use crate::given_landmarks::with_landmarks;
use crate::leaving_out::without_word;
use crate::looked::has_pattern;
use crate::narrowing::start_beside;
use crate::proposing::proposals;
use crate::room::has_room;
use analyser::{Failure, first_failure};
use ed_base::{Bytes, Fault};
use ed_syntax::Script;
use landmarks::LandmarkChains;
use std::alloc::{AllocError, Global};

/// How many landmarks are looked for at most.
const MOST_LANDMARKS: usize = 9;

/// How many ways to go on are kept at a time.
const MOST_KEPT: usize = 3;

/// How many words of a find are left out, or kept, at most.
const MOST_WORDS: usize = 60;

/// The analyses of a script over the fullest start of what is given, with landmarks beside that.
#[derive(Drop)]
struct Trial<'a> {
    alloc: Global,
    script: &'a Script,
    given: &'a Given,
    min: u64,
    patterns: &'a [Bytes],
    /// How many analyses are left.
    left: usize,
}

/// What came of a trial.
enum Tried {
    Vouched,
    Fails(Failure),
    /// No analysis was left.
    Ended,
}

/// Landmarks that were tried, and where the script fails with them.
#[derive(Drop)]
struct Way {
    added: LandmarkChains,
    failure: Failure,
}

/// How far a script gets: its number, the place in its list, and whether a line is known to be there that the command looks for.
fn reach(failure: Failure) -> (usize, usize, bool) {
    let inner = match failure.place.inner {
        Some(inner) => inner.saturating_add(1),
        None => 0,
    };
    (failure.place.command, inner, failure.why == Fault::Address)
}

/// Whether a script gets further by the first failure than by the second one.
fn is_further(one: Failure, other: Failure) -> bool {
    let (command, inner, address) = reach(one);
    let (other_command, other_inner, other_address) = reach(other);
    if command != other_command {
        return other_command < command;
    }
    if inner != other_inner {
        return other_inner < inner;
    }
    address && !other_address
}

impl Trial<'_> {
    /// Tries these chains of landmarks.
    fn try_with(&mut self, added: &LandmarkChains) -> Result<Tried, AllocError> {
        if self.left == 0 {
            return Ok(Tried::Ended);
        }
        self.left -= 1;
        let marked = with_landmarks(self.alloc, self.given, added.as_slice())?;
        let start = start_beside(self.alloc, &marked, self.min, self.patterns)?;
        match first_failure(self.script, &start)? {
            Some(failure) => Ok(Tried::Fails(failure)),
            None => Ok(Tried::Vouched),
        }
    }
}

/// Puts a way in after those that get as far, and keeps those that get furthest.
fn keep(ways: &mut Vec<Way>, way: Way) -> Result<(), AllocError> {
    let mut place: usize = 0;
    for other in ways.as_slice() {
        if is_further(way.failure, other.failure) {
            break;
        }
        place = place.saturating_add(1);
    }
    if place < MOST_KEPT && place <= ways.len() {
        ways.insert(place, way)?;
        ways.truncate(MOST_KEPT);
    }
    Ok(())
}

/// What came of going on from a way.
enum Step {
    /// With these landmarks the script is vouched for.
    Found(LandmarkChains),
    /// The ways that get further were kept.
    Kept,
    /// No analysis was left.
    Ended,
}

/// Tries what a way may go on with, and keeps what gets further.
fn go_on(trial: &mut Trial<'_>, way: &Way, ways: &mut Vec<Way>) -> Result<Step, AllocError> {
    let given = match &trial.given.landmarks {
        Some(chains) => chains.as_slice(),
        None => &[],
    };
    let place = way.failure.place;
    for added in proposals(trial.alloc, trial.script, place, given, &way.added)? {
        if !has_room(trial.alloc, trial.given, &added)? {
            continue;
        }
        match trial.try_with(&added)? {
            Tried::Vouched => return Ok(Step::Found(added)),
            Tried::Fails(failure) => {
                if is_further(failure, way.failure) {
                    keep(ways, Way { added, failure })?;
                }
            }
            Tried::Ended => return Ok(Step::Ended),
        }
    }
    Ok(Step::Kept)
}

/// Landmarks with which the script is vouched for, found from the failure without any.
fn found_from(
    trial: &mut Trial<'_>,
    failure: Failure,
) -> Result<Option<LandmarkChains>, AllocError> {
    let mut ways = Vec::new(trial.alloc);
    ways.push(Way {
        added: LandmarkChains::none(trial.alloc),
        failure,
    })?;
    for _ in 0..MOST_LANDMARKS {
        let mut further = Vec::new(trial.alloc);
        for way in ways.as_slice() {
            match go_on(trial, way, &mut further)? {
                Step::Found(added) => return Ok(Some(added)),
                Step::Kept => {}
                Step::Ended => return Ok(None),
            }
        }
        if further.is_empty() {
            return Ok(None);
        }
        ways = further;
    }
    Ok(None)
}

/// Those of some landmarks, and of their words, without which the script isn't vouched for beside the others, as far as was tried.
fn lessened(trial: &mut Trial<'_>, found: LandmarkChains) -> Result<LandmarkChains, AllocError> {
    let mut left = found;
    let mut place: usize = 0;
    for _ in 0..MOST_WORDS {
        let Some(fewer) = without_word(trial.alloc, &left, place)? else {
            return Ok(left);
        };
        match trial.try_with(&fewer)? {
            Tried::Vouched => left = fewer,
            Tried::Fails(_) => place = place.saturating_add(1),
            Tried::Ended => return Ok(left),
        }
    }
    Ok(left)
}

/// Chains of landmarks with which a script is vouched for, beside what is given, with so many lines and all of these patterns; they may be
/// none. None where none were found in so many analyses.
pub(crate) fn found_landmarks(
    alloc: Global,
    script: &Script,
    given: &Given,
    min: u64,
    patterns: &[Bytes],
    analyses: usize,
) -> Result<Option<LandmarkChains>, AllocError> {
    if !has_pattern(script) {
        return Ok(None);
    }
    let mut trial = Trial {
        alloc,
        script,
        given,
        min,
        patterns,
        left: analyses,
    };
    let none = LandmarkChains::none(alloc);
    match trial.try_with(&none)? {
        Tried::Vouched => Ok(Some(none)),
        Tried::Fails(failure) => match found_from(&mut trial, failure)? {
            Some(found) => Ok(Some(lessened(&mut trial, found)?)),
            None => Ok(None),
        },
        Tried::Ended => Ok(None),
    }
}
