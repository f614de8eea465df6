//! The hint to state landmarks of the start.

ghost use Rattle.std.specs.Prelude.{◌≡◌, ◌≤◌, IfOk, IfSome};
ghost use Rattle.ed_syntax.specs.reading.Reading.{script_of};
ghost use Rattle.ed_rules.specs.LineBounds.{most_lines, IsAtMost};
ghost use Rattle.hints.specs.Landmarks.{given_of, IsLandmarked};
ghost use Rattle.hints.specs.Hints.{IsTried};

use crate::changing::unchanged_at;
use crate::given::Given;
use crate::hint::{Advice, Hint};
use crate::landmarking::landmark_start_within;
use crate::starts::{copy_of_has, copy_of_landmarks, copy_of_path};
use crate::stating::has_option;
use crate::wording::landmarks_text;
use crate::words::whole_word;
use analyser::Start;
use cert_check::Place;
use ed_base::{Bytes, Texts};
use landmarks::LandmarkChain;
use std::alloc::{AllocError, Global};

/// How often a script is analysed at most while landmarks are looked for.
const MOST_ANALYSES: usize = 60;

/// All that a start says, as what is given of one.
fn given_of(start: &Start) -> Result<Given, AllocError>
    ensures value { IfOk result (λ given. given ≡ given_of start.now) }
{
    Ok(Given {
        path: copy_of_path(&start.path)?,
        min: Some(start.min),
        max: start.max,
        has: copy_of_has(&start.has)?,
        landmarks: copy_of_landmarks(&start.landmarks)?,
    })
}

/// The chains of a start after those of another one, which come first there.
fn chains_beyond<'a>(opened: &'a Start, start: &Start) -> &'a [LandmarkChain] {
    let Some(all) = &opened.landmarks else {
        return &[];
    };
    let count = match &start.landmarks {
        Some(chains) => chains.as_slice().len(),
        None => 0,
    };
    match all.as_slice().split_at_checked(count) {
        Some((_, added)) => added,
        None => &[],
    }
}

/// The patterns that a start states and another one doesn't.
fn patterns_beyond(alloc: Global, opened: &Start, start: &Start) -> Result<Texts, AllocError> {
    let mut beyond = Texts::none(alloc);
    let Some(all) = &opened.has else {
        return Ok(beyond);
    };
    for pattern in all.members() {
        let stated = match &start.has {
            Some(has) => has.has(pattern.as_slice()),
            None => false,
        };
        if !stated {
            beyond.add(pattern.as_slice())?;
        }
    }
    Ok(beyond)
}

/// Puts an option and its word, all of it, since it is to be typed. Whether it can be.
fn push_option(
    alloc: Global,
    options: &mut String,
    option: &str,
    word: &[u8],
) -> Result<bool, AllocError> {
    let Some(shown) = whole_word(alloc, word)? else {
        return Ok(false);
    };
    options.push_str(option)?;
    options.push_str(shown.as_str())?;
    Ok(true)
}

/// The options that state these patterns and these chains, each with a space before it. None where one of them can't be typed.
fn options_of(
    alloc: Global,
    patterns: &Texts,
    chains: &[LandmarkChain],
) -> Result<Option<String>, AllocError> {
    let mut options = String::new(alloc);
    for pattern in patterns.members() {
        let text = pattern.as_slice();
        if !push_option(alloc, &mut options, has_option(text), text)? {
            return Ok(None);
        }
    }
    for chain in chains {
        // No chain begins with a hyphen.
        if !push_option(alloc, &mut options, " --at ", chain.text().as_slice())? {
            return Ok(None);
        }
    }
    Ok(Some(options))
}

/// The words of the hint. None where no chain is stated more, or one can't be typed.
fn text_of(alloc: Global, opened: &Start, start: &Start) -> Result<Option<String>, AllocError> {
    let added = chains_beyond(opened, start);
    if added.is_empty() {
        return Ok(None);
    }
    let patterns = patterns_beyond(alloc, opened, start)?;
    let Some(options) = options_of(alloc, &patterns, added)? else {
        return Ok(None);
    };
    let words = landmarks_text(alloc, added)?;
    Ok(Some(format!(in alloc;
        "vouch with{} ({}), which run then tests",
        options.as_str(),
        words.as_str()
    )?))
}

/// The hint to state landmarks of the start too, with which the script is vouched for as it is. None where none was found, or where patterns
/// alone do.
pub(crate) fn with_landmark(
    alloc: Global,
    script: &[u8],
    start: &Start,
    place: Place,
    line: usize,
) -> Result<Option<Hint>, AllocError>
    requires ordered { IsAtMost start.now.min start.now.max }
    requires low { start.now.min ≤ most_lines }
    requires high { IfSome start.now.max (λ most. most ≤ most_lines) }
    ensures tried { IfOk result (λ found. IfSome found (IsTried script.now start.now place)) }
    ensures landmarked { IfOk result (λ found. IfSome found (λ hint. (hint.script ≡ script.now) × IsLandmarked (script_of script.now) (given_of start.now) hint.start)) }
{
    let given = given_of(start)?;
    let Some(opened) = landmark_start_within(alloc, script, &given, MOST_ANALYSES)? else {
        return Ok(None);
    };
    let Some(text) = text_of(alloc, &opened, start)? else {
        return Ok(None);
    };
    Ok(Some(Hint {
        advice: Advice::Landmark,
        line,
        text,
        script: Bytes::from_slice(alloc, script)?,
        start: opened,
        past: 1,
        change: unchanged_at(place),
    }))
}
