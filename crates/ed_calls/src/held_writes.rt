//! What a rehearsal held back, as a person reads it. No clause speaks of these lines.

use crate::stderr::file_name::quoted_name;
use crate::stderr::shown::shown_lines;
use rehearsal::HeldWrite;
use std::alloc::{AllocError, Global};

/// Shows in one line a write that would have been made, or that would have left its file as it is, where `stays` is true. Bytes that would
/// end the line, or aren't text, are escaped. Where there is no memory for the line, it is left out.
pub fn show_held(alloc: Global, rt: &impl Eprint, write: &HeldWrite, stays: bool) {
    if let Ok(line) = held_text(alloc, write, stays) {
        let _ = rt.eprint(line);
    }
}

fn held_text(alloc: Global, write: &HeldWrite, stays: bool) -> Result<String, AllocError> {
    let name = quoted_name(alloc, write.path.as_slice())?;
    let name = name.as_str();
    let (lines, bytes) = (write.lines, write.bytes);
    let (of_lines, of_bytes) = (plural(lines), plural(bytes));
    let (verb, so) = if stays {
        ("leave", " as it is")
    } else {
        ("write", "")
    };
    let line = format!(in alloc;
        "would {verb} {name}{so}: {lines} line{of_lines}, {bytes} byte{of_bytes}"
    )?;
    shown_lines(alloc, line.as_str())
}

/// What a noun ends in after this number.
fn plural(number: usize) -> &'static str {
    if number == 1 { "" } else { "s" }
}
