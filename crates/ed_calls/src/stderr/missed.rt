//! Which landmark a start doesn't have, and why. No clause speaks of these lines.

use crate::stderr::command_line::quoted;
use crate::stderr::file_name::start_name;
use ed_base::Bytes;
use hints::Missed;
use landmarks::{Landmark, Misfit, Which};
use std::alloc::{AllocError, Global};

/// The start, and why the landmark that is missed isn't where it should be.
pub(crate) fn landmark_missed(
    alloc: Global,
    path: &Option<Bytes>,
    missed: &Missed<'_>,
) -> Result<String, AllocError> {
    let name = start_name(alloc, path)?;
    let name = name.as_str();
    let wrong = &missed.wrong;
    let chain = missed.chain.landmarks();
    let before = before_text(alloc, chain, wrong.index, wrong.before)?;
    let reason = match chain.get(wrong.index) {
        Some(landmark) => reason_text(alloc, landmark, before.as_str(), &wrong.why)?,
        None => String::from_str(alloc, "a landmark is missing")?,
    };
    let reason = reason.as_str();
    Ok(format!(in alloc; "{name}: {reason}")?)
}

/// That a line is below the landmark before the one at a place of a chain, with the pattern by which that is looked for. The first one has
/// none before it, and nothing is said.
fn before_text(
    alloc: Global,
    chain: &[Landmark],
    index: usize,
    before: usize,
) -> Result<String, AllocError> {
    let landmark = match index {
        0 => None,
        _ => chain.get(index - 1),
    };
    match landmark {
        Some(
            Landmark {
                which: Which::First(pattern) | Which::Only(pattern),
                ..
            },
        ) => {
            let pattern = quoted(alloc, pattern.as_slice())?;
            let pattern = pattern.as_str();
            Ok(format!(in alloc; " below line {before} ({pattern})")?)
        }
        Some(_) => Ok(format!(in alloc; " below line {before}")?),
        None => Ok(String::new(alloc)),
    }
}

/// Why a landmark isn't where it should be.
fn reason_text(
    alloc: Global,
    landmark: &Landmark,
    before: &str,
    why: &Misfit,
) -> Result<String, AllocError> {
    let (gap, tail) = (landmark.gap, landmark.tail);
    match why {
        Misfit::Missing => {
            let pattern = sought_text(alloc, landmark)?;
            let pattern = pattern.as_str();
            Ok(format!(in alloc; "no line{before} matches {pattern}")?)
        }
        Misfit::Beyond(line) => Ok(format!(in alloc; "there is no line {line}")?),
        Misfit::Near(line) if before.is_empty() => {
            Ok(format!(in alloc; "line {line} comes before line {gap}")?)
        }
        Misfit::Near(line) if gap == 1 => { Ok(format!(in alloc; "line {line} isn't{before}")?) }
        Misfit::Near(line) => { Ok(format!(in alloc; "line {line} isn't {gap} lines{before}")?) }
        Misfit::Late(line) if tail == 1 => {
            Ok(format!(in alloc; "no line comes after line {line}")?)
        }
        Misfit::Late(line) => {
            Ok(format!(in alloc; "fewer than {tail} lines come after line {line}")?)
        }
        Misfit::Repeated(line, other) => {
            let pattern = sought_text(alloc, landmark)?;
            let pattern = pattern.as_str();
            Ok(format!(in alloc; "line {line} and line {other} match {pattern}")?)
        }
        Misfit::Unmatched(line, pattern) => {
            let pattern = quoted(alloc, pattern.as_slice())?;
            let pattern = pattern.as_str();
            Ok(format!(in alloc; "line {line} doesn't match {pattern}")?)
        }
        Misfit::Matched(line, pattern) => {
            let pattern = quoted(alloc, pattern.as_slice())?;
            let pattern = pattern.as_str();
            Ok(format!(in alloc; "line {line} matches {pattern}")?)
        }
        Misfit::Between(line, other, pattern) => {
            let pattern = quoted(alloc, pattern.as_slice())?;
            let pattern = pattern.as_str();
            Ok(format!(in alloc; "line {other}, above line {line}, matches {pattern}")?)
        }
    }
}

/// The pattern by which a landmark is looked for, or its number.
fn sought_text(alloc: Global, landmark: &Landmark) -> Result<String, AllocError> {
    match &landmark.which {
        Which::First(pattern) | Which::Only(pattern) => quoted(alloc, pattern.as_slice()),
        Which::Numbered(number) => Ok(format!(in alloc; "{number}")?),
    }
}
