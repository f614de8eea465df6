//! What is wanted of a file by a start, and what is told where a script isn't run on a file that isn't one of it.

use crate::stderr::command_line::front;
use crate::stderr::file_name::shell_word;
use analyser::Start;
use hints::{Said, ToldLine, start_conditions, start_words};
use std::alloc::{AllocError, Global};

/// How long a sentence on a start is at most; of a longer one each condition has its own line.
const MOST_OF_A_SENTENCE: usize = 160;

/// A start in words: in one sentence, or its conditions in a line each, after one that says so.
pub fn start_lines(alloc: Global, start: &Start) -> Result<Vec<String>, AllocError> {
    let mut lines = Vec::new(alloc);
    let words = start_words(alloc, start)?;
    let conditions = start_conditions(alloc, start)?;
    match &start.path {
        Some(path) if words.len() > MOST_OF_A_SENTENCE && conditions.len() > 1 => {
            let name = front(alloc, path.as_slice())?;
            let name = name.as_str();
            lines.push(format!(in alloc; "any {name} of which each of these is so")?)?;
            for condition in &conditions {
                let condition = condition.as_str();
                lines.push(format!(in alloc; "  {condition}")?)?;
            }
        }
        _ => lines.push(words)?,
    }
    Ok(lines)
}

/// The start over which a script is to be run alone, in words.
#[derive(Drop)]
pub struct Wanted {
    /// What is wanted of a file.
    lines: Vec<String>,
    /// How the script is run on the file all the same, where there is one.
    next: Option<String>,
}

impl Wanted {
    pub fn of(alloc: Global, start: &Start) -> Result<Self, AllocError> {
        let lines = start_lines(alloc, start)?;
        let next = match &start.path {
            Some(path) => {
                let word = shell_word(alloc, path.as_slice())?;
                let word = word.as_str();
                Some(format!(in alloc; "edv edit --whole {word} runs it all or not at all")?)
            }
            None => None,
        };
        Ok(Wanted { lines, next })
    }

    /// The same beside what the file has.
    pub fn told(self, alloc: Global, found: String) -> Result<ToldLine, AllocError> {
        let Wanted { lines, next } = self;
        let mut more = Vec::new(alloc);
        for line in lines {
            let is_first = more.is_empty();
            let line = line.as_str();
            let before = if is_first {
                "not run: the script is vouched for over "
            } else {
                ""
            };
            more.push(Said::Error(format!(in alloc; "{before}{line}")?))?;
        }
        more.push(Said::Known(found))?;
        if let Some(next) = next {
            more.push(Said::Hint(next))?;
        }
        Ok(ToldLine {
            line: 1,
            failure: None,
            more,
        })
    }
}
