//! A chain of landmarks of the command line that is none, or that no file has, as a person reads it.
ghost use Rattle.std.specs.Prelude.{◌≡◌};
ghost use Rattle.ed_main.specs.Words.{IsAsked};

use crate::words::WordsFault;
use ed_calls::{quoted, wrong_in_pattern};
use landmarks::{ChainFault, ChainWrong, Never};
use std::alloc::{AllocError, Global};

/// What is shown of a text that spells no chain for this reason.
pub fn wrong_chain(alloc: Global, text: &[u8], fault: ChainFault, usage: &str) -> WordsFault
    ensures memory { fault ≡ ChainFault.Memory → result ≡ WordsFault.Memory }
    ensures unasked { ¬ IsAsked result }
{
    match fault {
        ChainFault::Memory => WordsFault::Memory,
        ChainFault::Wrong(place, wrong) => {
            of_text(alloc, chain_text(alloc, text, place, &wrong), usage)
        }
    }
}

/// What is shown of chains whose landmarks no file of so many lines at most has.
pub fn held_nowhere(alloc: Global, texts: &[&str], most: Option<u64>, usage: &str) -> WordsFault
    ensures unasked { ¬ IsAsked result }
{
    of_text(alloc, nowhere_text(alloc, texts, most), usage)
}

fn of_text(alloc: Global, wrong: Result<String, AllocError>, usage: &str) -> WordsFault
    ensures unasked { ¬ IsAsked result }
{
    match wrong {
        Ok(wrong) => WordsFault::of(alloc, wrong.as_str(), usage),
        Err(AllocError) => WordsFault::Memory,
    }
}

fn nowhere_text(alloc: Global, texts: &[&str], most: Option<u64>) -> Result<String, AllocError> {
    let lines = match most {
        Some(1) => String::from_str(alloc, " of at most 1 line")?,
        Some(most) => format!(in alloc; " of at most {most} lines")?,
        None => String::new(alloc),
    };
    let lines = lines.as_str();
    match texts {
        [text] => {
            let text = quoted(alloc, text.as_bytes())?;
            let text = text.as_str();
            Ok(format!(in alloc; "error: --at {text} holds for no file{lines}")?)
        }
        _ => Ok(format!(in alloc; "error: the words --at hold together for no file{lines}")?),
    }
}

/// What is wrong with a text from a place on.
fn chain_text(
    alloc: Global,
    text: &[u8],
    place: usize,
    wrong: &ChainWrong,
) -> Result<String, AllocError> {
    let wrong = wrong_text(alloc, text, place, wrong)?;
    let text = quoted(alloc, text)?;
    let (text, wrong) = (text.as_str(), wrong.as_str());
    Ok(format!(in alloc; "error: --at {text} {wrong}")?)
}

/// What is wrong, and with what of the text.
fn wrong_text(
    alloc: Global,
    text: &[u8],
    place: usize,
    wrong: &ChainWrong,
) -> Result<String, AllocError> {
    let rest = text.get(place..).unwrap_or(&[]);
    let at = at_rest(alloc, rest, place)?;
    let at = at.as_str();
    match wrong {
        ChainWrong::Newline => String::from_str(alloc, "has a newline: a chain is one line"),
        ChainWrong::Unclosed => {
            let delimiter = if rest.starts_with(b"|") { '|' } else { '/' };
            Ok(format!(in alloc;
                "isn't closed{at}: a pattern ends with the {delimiter} it began with"
            )?)
        }
        ChainWrong::Empty => Ok(format!(in alloc; "has an empty pattern{at}")?),
        ChainWrong::Pattern(fault) => {
            let why = wrong_in_pattern(*fault);
            Ok(format!(in alloc; "isn't a pattern{at}: it {why}")?)
        }
        ChainWrong::Number => wanted(alloc, "a number from 1 to 999999999", rest),
        ChainWrong::Key => wanted(alloc, "a /RE/", rest),
        ChainWrong::End => {
            let mut wanted = wanted(alloc, next_part(rest), rest)?;
            wanted.push_str(meant(rest))?;
            Ok(wanted)
        }
        ChainWrong::Never(never) => never_text(alloc, never),
    }
}

/// The rest of a text, where it doesn't begin the text.
fn at_rest(alloc: Global, rest: &[u8], place: usize) -> Result<String, AllocError> {
    if place == 0 {
        return Ok(String::new(alloc));
    }
    let rest = quoted(alloc, rest)?;
    let rest = rest.as_str();
    Ok(format!(in alloc; " at {rest}")?)
}

/// What is wanted where this rest stands.
fn wanted(alloc: Global, words: &str, rest: &[u8]) -> Result<String, AllocError> {
    if rest.is_empty() {
        return Ok(format!(in alloc; "wants {words} at its end")?);
    }
    let rest = quoted(alloc, rest)?;
    let rest = rest.as_str();
    Ok(format!(in alloc; "wants {words} here: {rest}")?)
}

/// Whether a word stands in front of a text.
fn begins_with(rest: &[u8], word: &[u8]) -> bool {
    match rest.strip_prefix(word) {
        Some([byte, ..]) => !byte.is_ascii_alphabetic(),
        Some([]) => true,
        None => false,
    }
}

/// Whether a word of a distance stands in front of a text.
fn begins_with_distance(rest: &[u8]) -> bool {
    begins_with(rest, b"gap") || begins_with(rest, b"tail")
}

/// What may stand where a landmark has ended, or goes on. Where a distance stands, it comes too late, or a second time.
fn next_part(rest: &[u8]) -> &'static str {
    if begins_with_distance(rest) {
        "the end, ; or &"
    } else {
        "the end, ;, & or gap or tail"
    }
}

/// What may be meant by what stands where it may not.
fn meant(rest: &[u8]) -> &'static str {
    match rest {
        [b'!', ..] => "; write only before a /RE/ that one line alone matches",
        [b'+', ..] => "; write gap and a number for lines further down",
        [b'-', ..] => "; write tail and a number for lines that come after it",
        _ if begins_with_distance(rest) => "; gap comes before tail, and both once and before &",
        _ => "",
    }
}

/// Why no line can be a landmark.
fn never_text(alloc: Global, never: &Never) -> Result<String, AllocError> {
    match never {
        Never::Both(pattern) => {
            let pattern = quoted(alloc, pattern.as_slice())?;
            let pattern = pattern.as_str();
            Ok(format!(in alloc; "can be no line: it would match {pattern} and not match it")?)
        }
        Never::Always(pattern) => {
            let pattern = quoted(alloc, pattern.as_slice())?;
            let pattern = pattern.as_str();
            Ok(format!(in alloc; "can be no line: each line matches {pattern}")?)
        }
        Never::RightBelow(pattern) => {
            let pattern = quoted(alloc, pattern.as_slice())?;
            let pattern = pattern.as_str();
            Ok(format!(in alloc;
                "can be no line: each line matches {pattern}, so it would be the line right below, against its gap"
            )?)
        }
    }
}
