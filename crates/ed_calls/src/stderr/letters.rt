//! Landmarks for which a script leaves too few letters, as a person reads it.

use crate::landmarked::TooFewLetters;
use crate::stderr::command_line::quoted;
use hints::Said;
use landmarks::LandmarkChain;
use std::alloc::{AllocError, Global};

/// That the landmarks of these chains take more letters than a script leaves.
pub fn too_few(
    alloc: Global,
    chains: &[LandmarkChain],
    few: TooFewLetters,
) -> Result<Said, AllocError> {
    let named = match chains {
        [chain] => {
            let text = quoted(alloc, chain.text().as_slice())?;
            let text = text.as_str();
            format!(in alloc; "--at {text} names")?
        }
        _ => String::from_str(alloc, "the words --at name")?,
    };
    let (named, lines, letters) = (named.as_str(), few.lines, few.letters);
    let line = if lines == 1 { "line" } else { "lines" };
    let letter = if letters == 1 { "letter" } else { "letters" };
    Ok(Said::Error(format!(in alloc;
        "{named} {lines} {line}, and the script leaves {letters} {letter} for them"
    )?))
}
