//! Hints and remarks on a need that fails.

ghost use Rattle.std.specs.Prelude.{◌≡◌, ◌∷◌, ◌++◌, ◌≤◌, ℕ, List, [], map, All, Any, Some, IfOk, IfSome, IsSomeAnd, MatchOption, OnOk};
ghost use Rattle.ed_syntax.specs.reading.Reading.{script_of};
ghost use Rattle.ed_rules.specs.LineBounds.{most_lines, IsAtMost};
ghost use Rattle.cert_check.specs.Certificates.{note_value};
ghost use Rattle.hints.specs.Passing.{MoreLinesHelp};
ghost use Rattle.hints.specs.Sought.{GetsPastAll, StatingHelps};
ghost use Rattle.hints.specs.Hints.{IsTried, AsksForMore, States, IsStated};

use crate::changing::{change_of, unchanged_at};
use crate::commands::line_at;
use crate::drafts::Draft;
use crate::further::{with_more_lines, with_needed_lines};
use crate::hint::{Advice, Change, Hint};
use crate::marked::with_landmark;
use crate::nowhere::is_nowhere;
use crate::numbering::Numbering;
use crate::passing::gets_past_all;
use crate::rewritings::drafts_at;
use crate::sought::{is_of_search, unmatched_at};
use crate::starts::{copy_of, greatest_start, least_start, top_of, with_bounds};
use crate::stating::with_stated;
use analyser::Start;
use cert_check::{Note, Place};
use ed_base::{Bytes, Fault, count_lines};
use ed_rules::Texts;
use std::alloc::{AllocError, Global};

/// The line at a place, or the last one at the end, by its number in the script that was given; lines count from 1.
pub(crate) fn number_at(
    alloc: Global,
    script: &[u8],
    place: Place,
    numbering: &Numbering,
) -> Result<usize, AllocError> {
    let line = match line_at(alloc, script, place)? {
        Some(span) => span.line,
        None => count_lines(script),
    };
    Ok(numbering.line(line))
}

/// The hint to take a draft, where its script gets past as many commands from a place on as it has to, and is the given one but for commands
/// there. No other script than the given one becomes a hint but here.
pub(crate) fn past_by(
    alloc: Global,
    script: &[u8],
    start: &Start,
    place: Place,
    line: usize,
    draft: Draft,
) -> Result<Option<Hint>, AllocError>
    requires ordered { IsAtMost start.now.min start.now.max }
    requires low { start.now.min ≤ most_lines }
    requires high { IfSome start.now.max (λ most. most ≤ most_lines) }
    ensures tried { IfOk result (λ found. IfSome found (IsTried script.now start.now place)) }
    ensures given { IfOk result (λ found. draft.script ≡ Some script.now → draft.past ≡ 1 →
        GetsPastAll (script_of script.now) start.now place → IsSomeAnd found (λ hint. (hint.script ≡ script.now) × (hint.start ≡ start.now))) }
{
    let Draft {
        advice,
        text,
        script: new,
        removed,
        written,
        past,
    } = draft;
    let Some(new) = new else {
        return Ok(None);
    };
    if !gets_past_all(alloc, new.as_slice(), start, place, past)? {
        return Ok(None);
    }
    let given = Change {
        kept: place.command.saturating_sub(1),
        removed,
        written,
    };
    let Some(change) = change_of(alloc, script, new.as_slice(), place, past, given)? else {
        return Ok(None);
    };
    Ok(Some(Hint {
        advice,
        line,
        text,
        script: new,
        start: copy_of(start)?,
        past,
        change,
    }))
}

/// The first of these drafts that gets past a place.
pub(crate) fn first_past(
    alloc: Global,
    script: &[u8],
    start: &Start,
    place: Place,
    line: usize,
    drafts: Vec<Draft>,
) -> Result<Option<Hint>, AllocError>
    requires ordered { IsAtMost start.now.min start.now.max }
    requires low { start.now.min ≤ most_lines }
    requires high { IfSome start.now.max (λ most. most ≤ most_lines) }
    ensures tried { IfOk result (λ found. IfSome found (IsTried script.now start.now place)) }
{
    for draft in drafts {
        let found = past_by(alloc, script, start, place, line, draft)?;
        if found.is_some() {
            return Ok(found);
        }
    }
    Ok(None)
}

/// The least number of lines under which the script is vouched for, beside what more is told.
pub(crate) fn at_least(
    alloc: Global,
    script: &[u8],
    start: &Start,
    place: Place,
    line: usize,
    more: &str,
) -> Result<Option<Hint>, AllocError>
    requires ordered { IsAtMost start.now.min start.now.max }
    requires low { start.now.min ≤ most_lines }
    requires high { IfSome start.now.max (λ most. most ≤ most_lines) }
    ensures tried { IfOk result (λ found. IfSome found (IsTried script.now start.now place)) }
    ensures asks { IfOk result (λ found. MatchOption found (¬ MoreLinesHelp (script_of script.now) start.now) (AsksForMore script.now start.now)) }
{
    let Some(min) = least_start(alloc, script, start)? else {
        return Ok(None);
    };
    Ok(Some(Hint {
        advice: Advice::AtLeast,
        line,
        text: format!(in alloc; "vouched for with --min {min}{more}")?,
        script: Bytes::from_slice(alloc, script)?,
        start: with_bounds(start, min, start.max)?,
        past: 1,
        change: unchanged_at(place),
    }))
}

/// Whether a file of so many lines has one for each pattern that is stated, and one at all.
fn has_room(start: &Start, most: u64) -> bool {
    match &start.has {
        Some(has) => most > 0 && u64::try_from(has.members().len()).unwrap_or(u64::MAX) <= most,
        None => most > 0,
    }
}

/// The greatest number of lines under which the script is vouched for. One that no file is likely to have helps nobody, nor one with which none
/// has the landmarks.
fn at_most(
    alloc: Global,
    script: &[u8],
    start: &Start,
    place: Place,
    line: usize,
) -> Result<Option<Hint>, AllocError>
    requires ordered { IsAtMost start.now.min start.now.max }
    requires low { start.now.min ≤ most_lines }
    requires high { IfSome start.now.max (λ most. most ≤ most_lines) }
    ensures tried { IfOk result (λ found. IfSome found (IsTried script.now start.now place)) }
{
    let Some(most) = greatest_start(alloc, script, start)? else {
        return Ok(None);
    };
    if !has_room(start, most) {
        return Ok(None);
    }
    let fewer = with_bounds(start, start.min, Some(most))?;
    if is_nowhere(alloc, &fewer)? {
        return Ok(None);
    }
    let same = Bytes::from_slice(alloc, script)?;
    Ok(Some(Hint {
        advice: Advice::AtMost,
        line,
        text: format!(in alloc; "vouched for with --max {most}")?,
        script: same,
        start: fewer,
        past: 1,
        change: unchanged_at(place),
    }))
}

/// Puts a hint after those that were found.
fn push_hint(
    found: &mut Vec<Hint>,
    script: &[u8],
    start: &Start,
    place: Place,
    hint: Option<Hint>,
) -> Result<(), AllocError>
    requires found { All (IsTried script.now start.now place) found.old.items }
    requires hint { IfSome hint (IsTried script.now start.now place) }
    ensures tried { OnOk result (All (IsTried script.now start.now place) found.new.items) }
    ensures pushed { OnOk result (MatchOption hint (found.new.items ≡ found.old.items) (λ more. found.new.items ≡ found.old.items ++ more ∷ [])) }
{
    if let Some(hint) = hint {
        found.push(hint)?;
    }
    Ok(())
}

/// The hints that were found, or the one that asks for more lines, by which the script only gets further.
fn or_further(
    alloc: Global,
    script: &[u8],
    start: &Start,
    place: Place,
    line: usize,
    why: Fault,
    found: Vec<Hint>,
) -> Result<Vec<Hint>, AllocError>
    requires high { IfSome start.now.max (λ most. most ≤ most_lines) }
    requires found { All (IsTried script.now start.now place) found.items }
    ensures tried { IfOk result (λ found. All (IsTried script.now start.now place) found.items) }
    ensures kept { IfOk result (λ all. Any (AsksForMore script.now start.now) found.items → Any (AsksForMore script.now start.now) all.items) }
    ensures also { IfOk result (λ all. (patterns : List (List ℕ)) →
        Any (States script.now start.now patterns) found.items → Any (States script.now start.now patterns) all.items) }
{
    if !found.is_empty() || why != Fault::Address {
        return Ok(found);
    }
    let mut found = found;
    let more = with_more_lines(alloc, script, start, place, line, "")?;
    push_hint(&mut found, script, start, place, more)?;
    Ok(found)
}

/// The hints that were found, or one to write another script that needs more lines too.
fn or_both(
    alloc: Global,
    script: &[u8],
    start: &Start,
    place: Place,
    line: usize,
    why: Fault,
    notes: &[Note],
    numbering: &Numbering,
    found: Vec<Hint>,
) -> Result<Vec<Hint>, AllocError>
    requires high { IfSome start.now.max (λ most. most ≤ most_lines) }
    requires found { All (IsTried script.now start.now place) found.items }
    ensures tried { IfOk result (λ found. All (IsTried script.now start.now place) found.items) }
    ensures kept { IfOk result (λ all. Any (AsksForMore script.now start.now) found.items → Any (AsksForMore script.now start.now) all.items) }
    ensures also { IfOk result (λ all. (patterns : List (List ℕ)) →
        Any (States script.now start.now patterns) found.items → Any (States script.now start.now patterns) all.items) }
{
    if !found.is_empty() || why != Fault::Address {
        return Ok(found);
    }
    let mut found = found;
    let drafts = drafts_at(alloc, script, path_of(start), place, why, notes, numbering)?;
    let both = with_needed_lines(alloc, script, start, place, line, drafts)?;
    push_hint(&mut found, script, start, place, both)?;
    Ok(found)
}

/// The hints that were found, and one to state landmarks where a search or an `s` fails, or a line may be moved to where it is.
fn and_marked(
    alloc: Global,
    script: &[u8],
    start: &Start,
    place: Place,
    line: usize,
    why: Fault,
    found: Vec<Hint>,
) -> Result<Vec<Hint>, AllocError>
    requires ordered { IsAtMost start.now.min start.now.max }
    requires low { start.now.min ≤ most_lines }
    requires high { IfSome start.now.max (λ most. most ≤ most_lines) }
    requires found { All (IsTried script.now start.now place) found.items }
    ensures tried { IfOk result (λ found. All (IsTried script.now start.now place) found.items) }
    ensures kept { IfOk result (λ all. Any (AsksForMore script.now start.now) found.items → Any (AsksForMore script.now start.now) all.items) }
    ensures also { IfOk result (λ all. (patterns : List (List ℕ)) →
        Any (States script.now start.now patterns) found.items → Any (States script.now start.now patterns) all.items) }
{
    if !is_of_search(why) && why != Fault::Destination {
        return Ok(found);
    }
    let mut found = found;
    let marked = with_landmark(alloc, script, start, place, line)?;
    push_hint(&mut found, script, start, place, marked)?;
    Ok(found)
}

/// The path of a start.
fn path_of(start: &Start) -> Option<&[u8]> {
    match &start.path {
        Some(path) => Some(path.as_slice()),
        None => None,
    }
}

/// The hints that were found, and the one to state these patterns, which are those that are looked for at the place.
fn and_stated(
    alloc: Global,
    script: &[u8],
    start: &Start,
    place: Place,
    line: usize,
    patterns: &Texts,
    found: Vec<Hint>,
) -> Result<Vec<Hint>, AllocError>
    requires ordered { IsAtMost start.now.min start.now.max }
    requires low { start.now.min ≤ most_lines }
    requires high { IfSome start.now.max (λ most. most ≤ most_lines) }
    requires found { All (IsTried script.now start.now place) found.items }
    ensures tried { IfOk result (λ found. All (IsTried script.now start.now place) found.items) }
    ensures kept { IfOk result (λ all. Any (AsksForMore script.now start.now) found.items → Any (AsksForMore script.now start.now) all.items) }
    ensures states { IfOk result (λ all. StatingHelps (script_of script.now) start.now place patterns.now → Any (States script.now start.now patterns.now) all.items) }
{
    if patterns.members().is_empty() {
        return Ok(found);
    }
    // Where there may be no line, none matches.
    if top_of(start.max) == 0 {
        return Ok(found);
    }
    let mut found = found;
    let alone = found.is_empty();
    let stated = with_stated(alloc, script, start, place, line, patterns, alone)?;
    push_hint(&mut found, script, start, place, stated)?;
    Ok(found)
}

/// All hints on a need that fails: those that keep the script as it is come first.
pub(crate) fn all_hints(
    alloc: Global,
    script: &[u8],
    start: &Start,
    place: Place,
    why: Fault,
    notes: &[Note],
    numbering: &Numbering,
) -> Result<Vec<Hint>, AllocError>
    requires ordered { IsAtMost start.now.min start.now.max }
    requires low { start.now.min ≤ most_lines }
    requires high { IfSome start.now.max (λ most. most ≤ most_lines) }
    ensures tried { IfOk result (λ found. All (IsTried script.now start.now place) found.items) }
    ensures asks { IfOk result (λ found. MoreLinesHelp (script_of script.now) start.now → Any (AsksForMore script.now start.now) found.items) }
    ensures states { IfOk result (λ found. IsStated script.now start.now place why (map note_value notes.now) found.items) }
{
    let line = number_at(alloc, script, place, numbering)?;
    let mut found = Vec::new(alloc);
    let fewest = at_least(alloc, script, start, place, line, "")?;
    push_hint(&mut found, script, start, place, fewest)?;
    let most = at_most(alloc, script, start, place, line)?;
    push_hint(&mut found, script, start, place, most)?;
    let patterns = unmatched_at(alloc, script, place, why, notes)?;
    let found = and_stated(alloc, script, start, place, line, &patterns, found)?;
    let found = and_marked(alloc, script, start, place, line, why, found)?;
    let mut found = or_further(alloc, script, start, place, line, why, found)?;
    let drafts = drafts_at(alloc, script, path_of(start), place, why, notes, numbering)?;
    let written = first_past(alloc, script, start, place, line, drafts)?;
    push_hint(&mut found, script, start, place, written)?;
    or_both(
        alloc, script, start, place, line, why, notes, numbering, found,
    )
}
