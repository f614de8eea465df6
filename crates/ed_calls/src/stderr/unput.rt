//! Why files weren't replaced when a run had ended, as a person reads it. No clause speaks of these lines.

use crate::stderr::file_name::quoted_name;
use crate::stderr::refusals::show_unwritten;
use crate::stderr::shown::shown_lines;
use ed_base::Bytes;
use std::alloc::{AllocError, Global};
use std::io;
use whole::Outcome;

/// Shows which path couldn't be replaced, with the system's reason, and in one line each the paths that were replaced before it.
pub fn show_unput(
    alloc: Global,
    rt: &impl Eprint,
    paths: &[Bytes],
    outcome: Outcome,
    reason: Option<io::Error>,
) {
    let (place, replaced) = match outcome {
        Outcome::Unready(place) => (place, 0),
        Outcome::Stopped(place) => (place, place),
        Outcome::Put | Outcome::Discarded => return,
    };
    if let Some(path) = paths.get(place) {
        show_unwritten(alloc, rt, path.as_slice(), reason);
    }
    for path in paths.iter().take(replaced) {
        if let Ok(line) = replaced_text(alloc, path.as_slice()) {
            let _ = rt.eprint(line);
        }
    }
}

fn replaced_text(alloc: Global, path: &[u8]) -> Result<String, AllocError> {
    let name = quoted_name(alloc, path)?;
    let name = name.as_str();
    let line = format!(in alloc; "note: {name} was replaced before that")?;
    shown_lines(alloc, line.as_str())
}
