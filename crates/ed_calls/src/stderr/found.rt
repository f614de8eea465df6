//! The start that was found for a script, as a person reads it, and why none was.
ghost use Rattle.hints.specs.Passing.{IsAllowed};

use crate::stderr::hinted::hinted;
use crate::stderr::wanted::start_lines;
use analyser::{Analysis, Start, analyse};
use ed_syntax::{Script, read_script};
use hints::{Said, ToldLine, copy_of, names_later_lines, plain_start};
use std::alloc::{AllocError, Global};

/// What is told of a script that takes lines by their numbers, for files of any length.
const BY_NUMBERS: &str = "lines are taken by their numbers; --like FILE states how many FILE has";

/// Over which start a script is vouched for, and a note where that says less than the script wants, as nothing was given of its number of
/// lines.
pub fn found(
    alloc: Global,
    script: &Script,
    start: &Start,
    unbounded: bool,
) -> Result<ToldLine, AllocError> {
    let mut told = ToldLine {
        line: 1,
        failure: None,
        more: Vec::new(alloc),
    };
    for line in start_lines(alloc, start)? {
        told.more.push(Said::VouchedFor(line))?;
    }
    if let Some(note) = by_numbers(script, unbounded) {
        told.more.push(note_of(alloc, note)?)?;
    }
    Ok(told)
}

/// What is told of a script that takes lines by their numbers, where nothing was given of how many there are.
pub fn by_numbers(script: &Script, unbounded: bool) -> Option<&'static str> {
    if unbounded && names_later_lines(script) {
        Some(BY_NUMBERS)
    } else {
        None
    }
}

pub fn note_of(alloc: Global, text: &str) -> Result<Said, AllocError> {
    Ok(Said::Note(String::from_str(alloc, text)?))
}

/// Why no start was found for a script, where no least number of lines is given. It isn't vouched for over this one, the fullest, and that is
/// told as it fails by the same need over one with few lines, since nobody has a file of as many lines as there may be.
pub fn sought(
    alloc: Global,
    script: &[u8],
    start: &Start,
    analysis: &Analysis,
    all: bool,
) -> Result<Vec<ToldLine>, AllocError>
    requires allowed { IsAllowed start.now }
{
    let Analysis::Cannot { place, why, .. } = analysis else {
        return Ok(Vec::new(alloc));
    };
    let plain = plain_start(alloc, script, start, *place, *why)?;
    let read = read_script(alloc, script)?;
    let analysis = analyse(&read, copy_of(&plain)?)?;
    hinted(alloc, script, &plain, &analysis, None, all)
}
