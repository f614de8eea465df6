//! Where patterns match texts, line by line.

ghost use Rattle.std.specs.Prelude.{◌≤◌, length};

use crate::finder::Means;
use crate::pattern;
use bre_match::{Match, Searcher, find};
use bre_parse::Bre;
use std::alloc::{AllocError, Global};
use std::io;
use std::io::{BufRead, BufReader};

/// `START-END` of the match, and of each group, or `-` where it is not set.
pub(crate) fn spelled(alloc: Global, found: Match) -> Result<String, AllocError> {
    let mut told = format!(in alloc; "{}-{}", found.start, found.end)?;
    let groups = found.groups;
    for group in groups.as_slice() {
        match group {
            Some(span) => told.push_str(format!(in alloc; " {}-{}", span.0, span.1)?.as_str())?,
            None => told.push_str(" -")?,
        }
    }
    Ok(told)
}

/// A searcher that ran out of memory is asked once more, so that what it answers after a refused allocation is seen.
fn searched(
    alloc: Global,
    pattern: &Bre,
    text: &[u8],
    from: usize,
) -> Result<Option<Match>, AllocError>
    requires place { from ≤ length text.now }
{
    let mut searcher = Searcher::new(alloc, pattern);
    match searcher.find(text, from) {
        Ok(found) => Ok(found),
        Err(AllocError { .. }) => searcher.find(text, from),
    }
}

/// What stands for a line `FROM`, tab, `PATTERN`, tab, `TEXT`: where the pattern's first match at or after FROM lies.
fn told(alloc: Global, means: Means, line: &str) -> Result<String, AllocError> {
    let fields: Vec<&str> = line.split('\t').collect(alloc)?;
    if fields.len() != 3 {
        return String::from_str(alloc, "no such line");
    }
    let Ok(from) = fields[0].parse::<usize>() else {
        return String::from_str(alloc, "no such place");
    };
    let Some(pattern) = pattern::read(alloc, fields[1].as_bytes())? else {
        return String::from_str(alloc, "not a pattern");
    };
    let text = fields[2].as_bytes();
    if from > text.len() {
        return String::from_str(alloc, "no such place");
    }
    let found = match means {
        Means::Alone => find(alloc, &pattern, text, from)?,
        Means::Searcher | Means::NewSearchers => searched(alloc, &pattern, text, from)?,
    };
    match found {
        Some(found) => spelled(alloc, found),
        None => String::from_str(alloc, "none"),
    }
}

/// Prints for each line of standard input where its pattern matches its text.
pub(crate) fn tell(rt: &(impl Input + Print + AllocGlobal), means: Means) -> io::Result<()> {
    for line in BufReader::new(rt.alloc(), rt.reader())?.lines(rt.alloc()) {
        let line = line?;
        let told = told(rt.alloc(), means, line.as_str())?;
        println!(rt; "{told}")?;
    }
    Ok(())
}
