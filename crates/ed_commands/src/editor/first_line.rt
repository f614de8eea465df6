//! The first of many lines that may match a pattern, where they stand in one text.
ghost use Rattle.std.specs.Prelude.{◌≡◌, ◌++◌, ◌≤◌, drop, take, length, IfNone, IfSome};
ghost use Rattle.bre_parse.specs.Tree.{Tree};
ghost use Rattle.bre_match.specs.Passing.{needed_by, NeedsWord};
ghost use Rattle.ed_base.specs.Lines.{bytes_of, lines_of};
ghost use Rattle.ed_commands.specs.Courses.{NoneMatches, StopsAt};

use bre_match::Candidates;
use ed_base::{count_lines, next_line};
use memchr::memrchr;

/// A line of a text.
#[derive(Drop)]
pub struct LineFound<'a> {
    /// How many lines stand before it.
    pub before: usize,
    pub line: &'a [u8],
    /// The bytes after its newline.
    pub rest: &'a [u8],
}

/// Where the line begins in which a place lies, or that ends there.
fn line_start(text: &[u8], place: usize) -> usize
    requires place { place ≤ length text.now }
    ensures within { result ≤ place }
    ensures cut { lines_of text.now ≡ lines_of (take result text.now) ++ lines_of (drop result text.now) }
    ensures written { bytes_of (lines_of (take result text.now)) ≡ take result text.now }
{
    match memrchr(b'\n', &text[..place]) {
        Some(at) => at + 1,
        None => 0,
    }
}

/// The first line of a text that may match: none of the lines before it does. None where no line matches. It takes no memory.
fn first_line<'a>(candidates: &Candidates<'_>, text: &'a [u8]) -> Option<LineFound<'a>>
    ensures none { (tree : Tree) → NeedsWord tree (needed_by candidates.now) → IfNone result (NoneMatches tree (lines_of text.now)) }
    ensures stops { IfSome result (StopsAt text.now) }
    ensures passed { (tree : Tree) → NeedsWord tree (needed_by candidates.now) →
        IfSome result (λ found. NoneMatches tree (take found.before (lines_of text.now))) }
{
    let place = candidates.first(text)?;
    let start = line_start(text, place);
    let before = count_lines(&text[..start]);
    let (line, rest) = next_line(&text[start..])?;
    Some(LineFound { before, line, rest })
}

// To look for a line costs as much as to look at two or three.
const NEAR: usize = 16;

/// The same. After a line that no other stood before, some lines come one by one: `near` counts them.
pub fn likely_line<'a>(
    near: &mut usize,
    candidates: &Candidates<'_>,
    text: &'a [u8],
) -> Option<LineFound<'a>>
    ensures none { (tree : Tree) → NeedsWord tree (needed_by candidates.now) → IfNone result (NoneMatches tree (lines_of text.now)) }
    ensures stops { IfSome result (StopsAt text.now) }
    ensures passed { (tree : Tree) → NeedsWord tree (needed_by candidates.now) →
        IfSome result (λ found. NoneMatches tree (take found.before (lines_of text.now))) }
{
    if *near > 0 {
        *near -= 1;
        let (line, rest) = next_line(text)?;
        return Some(LineFound {
            before: 0,
            line,
            rest,
        });
    }
    let found = first_line(candidates, text)?;
    if found.before == 0 {
        *near = NEAR;
    }
    Some(found)
}
