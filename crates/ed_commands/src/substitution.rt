//! Substitution on one line (XCU ed, "Substitute Command").
ghost use Rattle.std.specs.Prelude.{ℕ, List, ◌≡◌, ◌<◌, ◌≤◌, ◌-◌, ◌^◌, ◌++◌, length, flat_map, option_map, IfOk, IfSome, IfNone, IsTrue, OnOk, Option, Some, None};
ghost use Rattle.bre_parse.specs.Tree.{Tree};
ghost use Rattle.bre_parse.specs.Bre.{bre_tree};
ghost use Rattle.bre_parse.specs.Ways.{bytes_of};
ghost use Rattle.bre_match.specs.Answer.{spans, LiesWithin};
ghost use Rattle.bre_match.specs.Searchers.{searched};
ghost use Rattle.ed_syntax.specs.declared.replacement.Part.TheVariants as part;
ghost use Rattle.ed_syntax.specs.meaning.Substitution.{taken, taken_first, expanded, picked, replaced_in, split_at_newlines, substituted};
ghost use Rattle.ed_base.specs.Lines.{IsLine};
ghost use Rattle.ed_commands.specs.Scans.{left, left_from, scan_after, passed_over, Goes, nth_of, alone};

use bre_match::{Match, Searcher};
use bre_parse::{Bre, matches_lie_within};
use ed_base::{Bytes, Text, next_line};
use ed_syntax::{Part, Replacement, Which};
use std::alloc::{AllocError, Global};

/// What becomes of a line where the matches of a pattern are replaced: its lines, of which each split makes one more. `None` where
/// no match is replaced. Matches are taken from the left; an empty one right after a full one isn't taken (our choice).
pub fn substitute(
    alloc: Global,
    pattern: &Bre,
    replacement: &Replacement,
    which: Which,
    line: &[u8],
) -> Result<Option<Text>, AllocError>
    ensures value { IfOk result (λ lines. lines ≡ substituted (bre_tree pattern.now) replacement.now which line.now) }
{
    let mut searcher = Searcher::new(alloc, pattern);
    match rewritten(alloc, &mut searcher, replacement, &which, line)? {
        Some(text) => Ok(Some(split(alloc, text)?)),
        None => Ok(None),
    }
}

/// The line with its matches replaced, where a newline stands for each split. `None` where no match is replaced.
pub(crate) fn rewritten(
    alloc: Global,
    searcher: &mut Searcher<'_>,
    replacement: &Replacement,
    which: &Which,
    line: &[u8],
) -> Result<Option<Bytes>, AllocError>
    ensures value { IfOk result (λ text.
        text ≡ replaced_in replacement.now line.now (picked which.now (taken (searched searcher.old) line.now))) }
    ensures pattern { searched searcher.new ≡ searched searcher.old }
{
    match which {
        Which::First => replace_one(alloc, searcher, replacement, 0, line),
        Which::Nth(number) => replace_one(alloc, searcher, replacement, number.before(), line),
        Which::All => replace_all(alloc, searcher, replacement, line),
    }
}

/// The line with the match after so many replaced, if there is one.
fn replace_one(
    alloc: Global,
    searcher: &mut Searcher<'_>,
    replacement: &Replacement,
    passed_over: u32,
    line: &[u8],
) -> Result<Option<Bytes>, AllocError>
    ensures value { IfOk result (λ text.
        text ≡ replaced_in replacement.now line.now (nth_of passed_over (taken (searched searcher.old) line.now))) }
    ensures pattern { searched searcher.new ≡ searched searcher.old }
{
    let Some(found) = nth_taken(searcher, line, passed_over)? else {
        return Ok(None);
    };
    let mut text = Bytes::new(alloc);
    text.reserve(size_with(replacement, line, &found))?;
    replace(&mut text, replacement, line, 0, &found)?;
    text.extend_from_slice(&line[found.end..])?;
    Ok(Some(text))
}

/// The line with each match replaced, if there is one.
fn replace_all(
    alloc: Global,
    searcher: &mut Searcher<'_>,
    replacement: &Replacement,
    line: &[u8],
) -> Result<Option<Bytes>, AllocError>
    ensures value { IfOk result (λ text. text ≡ replaced_in replacement.now line.now (taken (searched searcher.old) line.now)) }
    ensures pattern { searched searcher.new ≡ searched searcher.old }
{
    let mut scan = beginning();
    let Some(first) = next_taken(searcher, line, &mut scan)? else {
        return Ok(None);
    };
    let mut text = Bytes::new(alloc);
    // A first guess: further matches may make more of it, or less.
    text.reserve(size_with(replacement, line, &first))?;
    replace(&mut text, replacement, line, 0, &first)?;
    let mut copied = first.end;
    while let Some(found) = next_taken(searcher, line, &mut scan)? {
        replace(&mut text, replacement, line, copied, &found)?;
        copied = found.end;
    }
    text.extend_from_slice(&line[copied..])?;
    Ok(Some(text))
}

/// The lines of a text that was split at its newlines.
fn split(alloc: Global, mut text: Bytes) -> Result<Text, AllocError>
    ensures value { IfOk result (λ lines. lines ≡ split_at_newlines text) }
{
    text.push(b'\n')?;
    Text::of_file(alloc, text)
}

/// No newline stands in the text.
pub(crate) fn is_one_line(text: &[u8]) -> bool
    ensures line { IsTrue result → IsLine text.now }
{
    match next_line(text) {
        Some((line, _)) => line.len() == text.len(),
        None => true,
    }
}

/// Appends the bytes that are kept before a match, and what comes in its place.
fn replace(
    text: &mut Bytes,
    replacement: &Replacement,
    line: &[u8],
    copied: usize,
    found: &Match,
) -> Result<(), AllocError>
    requires order { copied ≤ found.now.start }
    requires within { found.now.start ≤ length line.now }
    ensures appended { OnOk result (text.new ≡
        text.old ++ (bytes_of line.now (copied, found.now.start) ++ flat_map (expanded line.now (spans found.now)) replacement.now)) }
{
    text.extend_from_slice(&line[copied..found.start])?;
    for part in replacement.parts() {
        append_part(text, *part, line, found)?;
    }
    Ok(())
}

/// Appends what a part of the replacement stands for.
fn append_part(text: &mut Bytes, part: Part, line: &[u8], found: &Match) -> Result<(), AllocError>
    ensures appended { OnOk result (text.new ≡ text.old ++ expanded line.now (spans found.now) part) }
{
    match part {
        Part::Literal(byte) => text.push(byte),
        Part::Match => text.extend_from_slice(within(line, found.start, found.end)),
        Part::Group(group) => text.extend_from_slice(group_bytes(group, line, found)),
        Part::Split => text.push(b'\n'),
    }
}

/// The bytes of a group, none where it isn't set.
fn group_bytes<'a>(group: u8, line: &'a [u8], found: &Match) -> &'a [u8]
    ensures value { result.now ≡ expanded line.now (spans found.now) (part.Group group) }
{
    match found.groups.get(group as usize) {
        Some(Some((start, end))) => within(line, *start, *end),
        _ => within(line, 0, 0),
    }
}

/// How many bytes the line has with this match replaced, or the greatest `usize` where that is more. No clause speaks of room.
fn size_with(replacement: &Replacement, line: &[u8], found: &Match) -> usize {
    let mut size = found
        .start
        .saturating_add(line.len().saturating_sub(found.end));
    for part in replacement.parts() {
        size = size.saturating_add(part_size(*part, line, found));
    }
    size
}

/// How many bytes a part of the replacement stands for.
fn part_size(part: Part, line: &[u8], found: &Match) -> usize
    ensures value { result ≡ length (expanded line.now (spans found.now) part) }
{
    match part {
        Part::Literal(_) | Part::Split => 1,
        Part::Match => within(line, found.start, found.end).len(),
        Part::Group(group) => group_bytes(group, line, found).len(),
    }
}

/// The bytes from one place up to another, as far as the line has them.
fn within(line: &[u8], start: usize, end: usize) -> &[u8]
    ensures value { result.now ≡ bytes_of line.now (start, end) }
{
    let end = end.min(line.len());
    let start = start.min(end);
    &line[start..end]
}

// How far a line was searched: where the next match is looked for, and whether a full one ended there.
#[derive(Clone, Copy)]
struct Scan {
    place: usize,
    after_full: bool,
}

/// Before the first match.
fn beginning() -> Scan
    ensures place { result.place ≡ 0 }
    ensures all { (tree : Tree) (text : List ℕ) → left tree text result ≡ taken tree text }
{
    Scan {
        place: 0,
        after_full: false,
    }
}

/// The first match at the scan's place or after it.
fn found_from(
    searcher: &mut Searcher<'_>,
    line: &[u8],
    scan: Scan,
) -> Result<Option<Match>, AllocError>
    ensures value { IfOk result (λ found. left (searched searcher.old) line.now scan
        ≡ taken_first (left_from (searched searcher.old) line.now) scan.place scan.after_full (option_map spans found)) }
    ensures within { IfOk result (λ found. IfSome found (LiesWithin scan.place (length line.now))) }
    ensures pattern { searched searcher.new ≡ searched searcher.old }
{
    matches_lie_within();
    if scan.place > line.len() {
        return Ok(None);
    }
    searcher.find(line, scan.place)
}

/// Where the search goes on after a match that was taken: after an empty one a byte is kept.
fn after(found: &Match) -> Scan
    requires room { found.now.end < 2 ^ 64 - 1 }
    ensures value { result ≡ scan_after (spans found.now) }
{
    if found.start == found.end {
        Scan {
            place: found.end + 1,
            after_full: false,
        }
    } else {
        Scan {
            place: found.end,
            after_full: true,
        }
    }
}

/// An empty match right at the end of the full one before it.
fn is_passed_over(found: &Match, scan: Scan) -> bool
    ensures value { result ≡ passed_over scan (spans found.now) }
{
    scan.after_full && found.start == scan.place && found.start == found.end
}

/// The match that is taken after so many.
fn nth_taken(
    searcher: &mut Searcher<'_>,
    line: &[u8],
    passed_over: u32,
) -> Result<Option<Match>, AllocError>
    ensures value { IfOk result (λ found. alone found ≡ nth_of passed_over (taken (searched searcher.old) line.now)) }
    ensures within { IfOk result (λ found. IfSome found (LiesWithin 0 (length line.now))) }
    ensures pattern { searched searcher.new ≡ searched searcher.old }
{
    let mut scan = beginning();
    let mut still = passed_over;
    while still > 0 {
        if next_taken(searcher, line, &mut scan)?.is_none() {
            return Ok(None);
        }
        still -= 1;
    }
    next_taken(searcher, line, &mut scan)
}

/// The next match that is taken, and the scan after it.
fn next_taken(
    searcher: &mut Searcher<'_>,
    line: &[u8],
    scan: &mut Scan,
) -> Result<Option<Match>, AllocError>
    ensures value { IfOk result (λ found. Goes (searched searcher.old) line.now scan.old found scan.new) }
    ensures pattern { searched searcher.new ≡ searched searcher.old }
{
    let found = match found_from(searcher, line, *scan)? {
        Some(found) if is_passed_over(&found, *scan) => {
            let further = Scan {
                place: scan.place + 1,
                after_full: false,
            };
            found_from(searcher, line, further)?
        }
        found => found,
    };
    if let Some(found) = &found {
        *scan = after(found);
    }
    Ok(found)
}
