//! Where the pattern of a block of lines matches each of its texts.

ghost use Rattle.std.specs.Prelude.{◌≤◌, length};

use crate::finder::{Finder, Means};
use crate::pattern;
use crate::places::spelled;
use memchr::memchr;
use std::alloc::{AllocError, Global};
use std::io::Read;
use std::{io, str};

/// How long the first line is, without its newline.
pub(crate) fn size_of_line(text: &[u8]) -> usize
    ensures within { result ≤ length text.now }
{
    match memchr(b'\n', text) {
        Some(size) => size,
        None => text.len(),
    }
}

/// How long the lines are up to the first empty one.
pub(crate) fn size_of_block(text: &[u8]) -> usize
    ensures within { result ≤ length text.now }
{
    let mut start = 0;
    while start < text.len() {
        let size = size_of_line(&text[start..]);
        if size == 0 {
            return start;
        }
        start += size + 1;
    }
    text.len()
}

/// What stands for a line `FROM`, tab, `TEXT`: where the first match at or after FROM lies, or whether there is one, if FROM is `-`.
fn told(alloc: Global, finder: &mut Finder<'_>, line: &[u8]) -> Result<String, AllocError> {
    let Some(size) = memchr(b'\t', line) else {
        return String::from_str(alloc, "no such line");
    };
    let text = &line[size + 1..];
    let Ok(from) = str::from_utf8(&line[..size]) else {
        return String::from_str(alloc, "no such place");
    };
    if from == "-" {
        let is_matched = finder.matches(text)?;
        return String::from_str(alloc, if is_matched { "yes" } else { "no" });
    }
    let Ok(from) = from.parse::<usize>() else {
        return String::from_str(alloc, "no such place");
    };
    if from > text.len() {
        return String::from_str(alloc, "no such place");
    }
    match finder.find(text, from)? {
        Some(found) => spelled(alloc, found),
        None => String::from_str(alloc, "none"),
    }
}

/// What stands for the texts of a block, in lines.
fn block(alloc: Global, finder: &mut Finder<'_>, texts: &[u8]) -> Result<String, AllocError> {
    let mut out = String::new(alloc);
    let mut start = 0;
    while start < texts.len() {
        let rest = &texts[start..];
        let size = size_of_line(rest);
        finder.begin();
        out.push_str(told(alloc, finder, &rest[..size])?.as_str())?;
        out.push_str("\n")?;
        start += size + 1;
    }
    Ok(out)
}

/// What stands for a block of a pattern and texts.
fn answers(alloc: Global, means: Means, word: &[u8], texts: &[u8]) -> Result<String, AllocError> {
    match pattern::read(alloc, word)? {
        Some(pattern) => {
            let mut finder = Finder::new(alloc, means, &pattern);
            let told = block(alloc, &mut finder, texts)?;
            Ok(told)
        }
        None => String::from_str(alloc, "not a pattern\n"),
    }
}

/// Prints for each block of standard input, a line with a pattern and then one for each text up to an empty line, what is found in
/// each text. Texts may hold any byte but newline.
pub(crate) fn tell(rt: &(impl Input + Print + AllocGlobal), means: Means) -> io::Result<()> {
    let mut text = Vec::new(rt.alloc());
    rt.reader().read_to_end(&mut text)?;
    let mut start = 0;
    while start < text.len() {
        let rest = &text[start..];
        let size = size_of_line(rest);
        let texts = if size < rest.len() {
            &rest[size + 1..]
        } else {
            &rest[size..]
        };
        let ahead = size_of_block(texts);
        let told = answers(rt.alloc(), means, &rest[..size], &texts[..ahead])?;
        print!(rt; "{told}")?;
        start += size + 1 + ahead + 1;
    }
    Ok(())
}
