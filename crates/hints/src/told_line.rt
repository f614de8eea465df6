//! What a person is told of a script, in parts: which line it is about, what fails there, and what is said beside it.

use ed_base::Fault;
use std::alloc::{AllocError, Global};

/// What is told of one line of a script.
#[derive(Debug, Drop)]
pub struct ToldLine {
    /// The line's number, which counts from 1; where the end of the script fails, how many lines it has.
    pub line: usize,
    pub failure: Option<Failure>,
    /// What is said beside that, or alone.
    pub more: Vec<Said>,
}

/// What fails on a line.
#[derive(Debug, Drop)]
pub struct Failure {
    /// The command that fails; for the end of the script the last one, where it has one.
    pub command: Option<ShownCommand>,
    pub at_end: bool,
    pub fault: Fault,
    /// Why it may fail, in a few words, where that is known.
    pub reason: Option<String>,
}

/// A command as a line shows it.
#[derive(Debug, Drop)]
pub struct ShownCommand {
    /// Its number, or that and its number in its list, where it is told.
    pub number: Option<String>,
    pub text: String,
}

/// What is said in one line.
#[derive(Debug, Drop)]
pub enum Said {
    /// What is wrong, but with no command of the script.
    Error(String),
    /// What is known before the command that fails.
    Known(String),
    /// What to write.
    Hint(String),
    Note(String),
    /// The start that a script is vouched for over.
    VouchedFor(String),
}

impl ToldLine {
    /// That so much is said of a line.
    pub fn of_said(alloc: Global, line: usize, said: Said) -> Result<Self, AllocError> {
        let mut more = Vec::new(alloc);
        more.push(said)?;
        Ok(ToldLine {
            line,
            failure: None,
            more,
        })
    }

    /// That a line fails, and no more.
    pub fn of_failure(alloc: Global, line: usize, failure: Failure) -> Self {
        ToldLine {
            line,
            failure: Some(failure),
            more: Vec::new(alloc),
        }
    }
}
