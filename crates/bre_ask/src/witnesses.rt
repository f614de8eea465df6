//! Texts that match some patterns and no others.

ghost use Rattle.std.specs.Prelude.{◌≤◌, length};

use crate::blocks::{size_of_block, size_of_line};
use crate::pattern;
use bre_match::{Answer, Witness, find_witness};
use bre_parse::Bre;
use std::alloc::{AllocError, Global};
use std::io;
use std::io::Read;

/// A pattern, and whether a text is to match it.
#[derive(Drop)]
struct Question {
    pattern: Bre,
    matches: bool,
}

/// What a line `+PATTERN` or `-PATTERN` asks, if it is one.
fn read_question(alloc: Global, line: &[u8]) -> Result<Option<Question>, AllocError> {
    if line.is_empty() || (line[0] != b'+' && line[0] != b'-') {
        return Ok(None);
    }
    match pattern::read(alloc, &line[1..])? {
        Some(pattern) => Ok(Some(Question {
            pattern,
            matches: line[0] == b'+',
        })),
        None => Ok(None),
    }
}

/// What the lines of a block ask, if each of them is such a line.
fn questions(alloc: Global, lines: &[u8]) -> Result<Option<Vec<Question>>, AllocError> {
    let mut all = Vec::new(alloc);
    let mut start = 0;
    while start < lines.len() {
        let rest = &lines[start..];
        let size = size_of_line(rest);
        let Some(one) = read_question(alloc, &rest[..size])? else {
            return Ok(None);
        };
        all.push(one)?;
        start += size + 1;
    }
    Ok(Some(all))
}

/// What stands for a block.
fn told(alloc: Global, lines: &[u8]) -> Result<String, AllocError> {
    let Some(all) = questions(alloc, lines)? else {
        return String::from_str(alloc, "no such lines");
    };
    let mut answers = Vec::new(alloc);
    for one in &all {
        answers.push(Answer {
            pattern: &one.pattern,
            matches: one.matches,
        })?;
    }
    match find_witness(alloc, &answers)? {
        Witness::Text(text) => format!(in alloc; "{:?}", text.as_slice()),
        Witness::NoText => String::from_str(alloc, "none"),
        Witness::Unknown => String::from_str(alloc, "unknown"),
    }
}

/// Prints for each block of standard input, lines up to an empty one, the bytes of a text that matches the patterns after a `+` and none of
/// those after a `-`; or that there is none, or that neither was found out.
pub(crate) fn tell(rt: &(impl Input + Print + AllocGlobal)) -> io::Result<()> {
    let mut text = Vec::new(rt.alloc());
    rt.reader().read_to_end(&mut text)?;
    let mut start = 0;
    while start < text.len() {
        let rest = &text[start..];
        let ahead = size_of_block(rest);
        let told = told(rt.alloc(), &rest[..ahead])?;
        println!(rt; "{told}")?;
        start += ahead + 1;
    }
    Ok(())
}
