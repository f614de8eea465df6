//! The first line of a part of a file that a pattern matches.

ghost use Rattle.std.specs.Prelude.{◌≡◌, ◌≤◌, ◌<◌, ◌-◌, ℕ, [], drop, length, slice_index_or, IfOk, MatchOption};
ghost use Rattle.bre_parse.specs.Bre.{bre_tree};
ghost use Rattle.ed_base.specs.Lines.{lines_of};
ghost use Rattle.ed_syntax.specs.meaning.Values.{matches};
ghost use Rattle.landmarks.specs.Places.{line_of, NonePasses, NoneMatches};
ghost use Rattle.landmarks.specs.Looking.{finds, IsFirstPassing};

use bre_match::Searcher;
use bre_parse::Bre;
use bre_parse::fault::BreFault;
use ed_base::next_line;
use std::alloc::{AllocError, Global};

/// The bytes after so many lines of a file.
fn after_lines(file: &[u8], count: usize) -> &[u8]
    ensures value { lines_of result.now ≡ drop count (lines_of file.now) }
{
    let mut left = file;
    for _passed in 0..count {
        match next_line(left) {
            Some((_, rest)) => left = rest,
            None => return left,
        }
    }
    left
}

/// The line of a number, counted from 1; no bytes where there is none.
pub fn line_at(file: &[u8], number: usize) -> &[u8]
    requires from { 1 ≤ number }
    requires within { number ≤ length (lines_of file.now) }
    ensures value { result.now ≡ line_of (lines_of file.now) number }
{
    match next_line(after_lines(file, number - 1)) {
        Some((line, _)) => line,
        None => &[],
    }
}

/// Whether a line matches the pattern of a text; a text that is no pattern matches none.
pub fn line_matches(alloc: Global, pattern: &[u8], line: &[u8]) -> Result<bool, AllocError>
    ensures value { IfOk result (λ is_matched. is_matched ≡ matches pattern.now line.now) }
{
    match Bre::read(alloc, pattern) {
        Ok(bre) => bre_match::matches(alloc, &bre, line),
        Err(BreFault::Memory) => Err(AllocError),
        Err(_) => Ok(false),
    }
}

/// The first line after the `after`-th, up to the `through`-th, that matches the pattern of a text. Each of them is looked at once.
pub fn first_match(
    alloc: Global,
    pattern: &[u8],
    file: &[u8],
    after: usize,
    through: usize,
) -> Result<Option<usize>, AllocError>
    requires within { through ≤ length (lines_of file.now) }
    ensures value { IfOk result (λ found. MatchOption found (NoneMatches (lines_of file.now) after through pattern.now)
        (IsFirstPassing (matches pattern.now) (lines_of file.now) after through)) }
{
    match Bre::read(alloc, pattern) {
        Ok(bre) => first_found(alloc, &bre, file, after, through),
        Err(BreFault::Memory) => Err(AllocError),
        Err(_) => Ok(None),
    }
}

/// The same of a pattern that was read. One searcher looks through all lines.
fn first_found(
    alloc: Global,
    pattern: &Bre,
    file: &[u8],
    after: usize,
    through: usize,
) -> Result<Option<usize>, AllocError>
    requires within { through ≤ length (lines_of file.now) }
    ensures value { IfOk result (λ found. MatchOption found (NonePasses (finds (bre_tree pattern.now)) (lines_of file.now) after through)
        (IsFirstPassing (finds (bre_tree pattern.now)) (lines_of file.now) after through)) }
{
    let mut searcher = Searcher::new(alloc, pattern);
    let mut left = after_lines(file, after);
    for number in after..through {
        match next_line(left) {
            Some((line, rest)) => {
                if searcher.matches(line)? {
                    return Ok(Some(number + 1));
                }
                left = rest;
            }
            None => return Ok(None),
        }
    }
    Ok(None)
}
