//! What a person is told of a script that is typed, of an empty one, and of a job without a file. No clause speaks of these lines.

use crate::job::Job;
use crate::stderr::usage::{EDIT_USAGE, VOUCH_USAGE};
use crate::wanted::Wanted;
use ed_base::Bytes;
use ed_calls::{is_named_as_script, quoted_word, show_missing, shown_lines};
use std::alloc::{AllocError, Global};
use std::fs;
use std::io::ErrorKind;
use std::rt::Files;

/// Shows that the script of a job comes from a terminal, where it does: else nobody would know what the program waits for.
pub fn show_terminal(rt: &impl Eprint, job: &Job, is_terminal: bool) {
    if is_terminal && job.wants_input() && !job.is_quiet() {
        let _ = rt.eprint("note: reading the script from the terminal, to its end\n");
    }
}

/// Shows that the script of a job is empty, where it wants one. Where none is named, and FILE may be the script that was meant, it is shown how
/// that is given.
pub fn show_empty(alloc: Global, rt: &impl Eprint, script: &[u8], job: &Job) {
    if !script.is_empty() || matches!(job, Job::Judge { .. } | Job::Fits { .. }) {
        return;
    }
    let _ = rt.eprint("note: the script is empty\n");
    if job.script().is_some() {
        return;
    }
    if let Some(file) = file_of(job) {
        if is_named_as_script(file) {
            if let Ok(hint) = script_text(alloc, job, file) {
                let _ = rt.eprint(hint);
            }
        }
    }
}

/// Shows that the script is empty that was to be judged for a file, and that this may be the one that was meant.
pub fn show_mistaken(alloc: Global, rt: &impl Eprint, job: &Job) {
    if job.is_quiet() {
        return;
    }
    if let Some(file) = file_of(job) {
        if let Ok(wrong) = mistaken_text(alloc, file) {
            let _ = rt.eprint(wrong);
        }
    }
    let _ = rt.eprint(match job {
        Job::Edit { .. } => EDIT_USAGE,
        _ => VOUCH_USAGE,
    });
}

fn mistaken_text(alloc: Global, file: &[u8]) -> Result<String, AllocError> {
    let file = quoted_word(alloc, file)?;
    let file = file.as_str();
    let wrong = format!(in alloc; "error: the script is empty; did you mean -f {file}?")?;
    shown_lines(alloc, wrong.as_str())
}

/// Shows that a script is judged over an empty buffer, where no file is named and nothing else is given of one.
pub fn show_no_file(rt: &impl Eprint, job: &Job) {
    let wanted = match job {
        Job::Edit {
            judged: Some(wanted),
            ..
        } => wanted,
        Job::Vouch { wanted, .. } => wanted,
        _ => return,
    };
    if let Wanted::Stated(starts, _) = wanted {
        if starts.are_empty() {
            let _ = rt.eprint("note: no FILE: over an empty buffer; give a name\n");
        }
    }
}

/// Shows that there is no file at a path, where there is a path.
pub fn show_if_missing<R: Files + Eprint + AllocGlobal>(rt: &R, path: &Option<Bytes>) {
    let Some(path) = path else {
        return;
    };
    let Ok(name) = str::from_utf8(path.as_slice()) else {
        return;
    };
    if let Err(error) = fs::metadata(rt, name) {
        if error.kind() == ErrorKind::NotFound {
            show_missing(rt.alloc(), rt, path.as_slice());
        }
    }
}

/// The name of the file that a job with a script starts with.
fn file_of(job: &Job) -> Option<&[u8]> {
    let path = match job {
        Job::Edit { options, .. } | Job::Run { options, .. } => &options.path,
        Job::Vouch { wanted, .. } | Job::Judge { wanted, .. } => wanted.path(),
        Job::Explain { .. } | Job::ExplainBy { .. } | Job::Check { .. } | Job::Fits { .. } => {
            return None;
        }
    };
    match path {
        Some(path) => Some(path.as_slice()),
        None => None,
    }
}

/// How the file of this name is given as the script of a job.
fn script_text(alloc: Global, job: &Job, file: &[u8]) -> Result<String, AllocError> {
    let words = match job {
        Job::Run { .. } => "edv run CERT FILE",
        _ => "edv edit FILE",
    };
    let file = quoted_word(alloc, file)?;
    let file = file.as_str();
    let hint = format!(in alloc; "hint: to run a script: {words} <{file}")?;
    shown_lines(alloc, hint.as_str())
}
