//! Hints and remarks on a need that fails, of which each allows the file at hand.

ghost use Rattle.std.specs.Prelude.{◌≡◌, ◌≤◌, map, All, Any, None, IfOk, IfSome, OnOk};
ghost use Rattle.std.specs.Option.{option_copied};
ghost use Rattle.ed_base.specs.Lines.{lines_of};
ghost use Rattle.ed_syntax.specs.reading.Reading.{script_of};
ghost use Rattle.ed_rules.specs.LineBounds.{most_lines, IsAtMost};
ghost use Rattle.cert_check.specs.Certificates.{note_value};
ghost use Rattle.hints.specs.Passing.{MoreLinesHelp};
ghost use Rattle.hints.specs.Allowing.{AllowsFile, StaysSuited};
ghost use Rattle.hints.specs.Hints.{IsTried, AsksForMore, IsStated};

use crate::advising::{all_hints, number_at};
use crate::allowing::allows_file;
use crate::drafts::Draft;
use crate::hint::{Hint, Remark};
use crate::numbering::Numbering;
use crate::rewritings::drafts_at;
use analyser::Start;
use cert_check::{Note, Place};
use ed_base::{Bytes, Fault};
use std::alloc::{AllocError, Global};

/// Puts a hint after others, where its start allows a file.
fn push_if_suited(
    alloc: Global,
    script: &[u8],
    start: &Start,
    place: Place,
    file: &[u8],
    suited: &mut Vec<Hint>,
    hint: Hint,
) -> Result<(), AllocError>
    requires tried { All (IsTried script.now start.now place) suited.old.items }
    requires suited { All (λ one. AllowsFile one.start (lines_of file.now)) suited.old.items }
    requires hint { IsTried script.now start.now place hint }
    ensures tried { OnOk result (All (IsTried script.now start.now place) suited.new.items) }
    ensures suited { OnOk result (All (λ one. AllowsFile one.start (lines_of file.now)) suited.new.items) }
{
    if allows_file(alloc, &hint.start, file)? {
        suited.push(hint)?;
    }
    Ok(())
}

/// Those of some hints whose start allows a file.
fn suited_by(
    alloc: Global,
    script: &[u8],
    start: &Start,
    place: Place,
    file: &[u8],
    found: Vec<Hint>,
) -> Result<Vec<Hint>, AllocError>
    requires found { All (IsTried script.now start.now place) found.items }
    ensures tried { IfOk result (λ suited. All (IsTried script.now start.now place) suited.items) }
    ensures suited { IfOk result (λ suited. All (λ one. AllowsFile one.start (lines_of file.now)) suited.items) }
{
    let mut suited = Vec::new(alloc);
    'hints: for hint in found {
        push_if_suited(alloc, script, start, place, file, &mut suited, hint)?;
    }
    Ok(suited)
}

/// Those of some hints whose start allows the file at hand, where the given one does.
fn suited(
    alloc: Global,
    script: &[u8],
    start: &Start,
    place: Place,
    file: Option<&Bytes>,
    found: Vec<Hint>,
) -> Result<Vec<Hint>, AllocError>
    requires found { All (IsTried script.now start.now place) found.items }
    ensures tried { IfOk result (λ suited. All (IsTried script.now start.now place) suited.items) }
    ensures suited { IfOk result (λ suited. All (λ hint. StaysSuited (option_copied file.entry) start.now hint.start) suited.items) }
    ensures all { IfOk result (λ suited. option_copied file.entry ≡ None → suited.items ≡ found.items) }
{
    let Some(bytes) = file else {
        return Ok(found);
    };
    if !allows_file(alloc, start, bytes.as_slice())? {
        return Ok(found);
    }
    suited_by(alloc, script, start, place, bytes.as_slice(), found)
}

/// The hints, with the lines by their numbers in the script that was given.
pub(crate) fn numbered_hints(
    alloc: Global,
    script: &[u8],
    start: &Start,
    place: Place,
    why: Fault,
    notes: &[Note],
    file: Option<&Bytes>,
    numbering: &Numbering,
) -> Result<Vec<Hint>, AllocError>
    requires ordered { IsAtMost start.now.min start.now.max }
    requires low { start.now.min ≤ most_lines }
    requires high { IfSome start.now.max (λ most. most ≤ most_lines) }
    ensures tried { IfOk result (λ found. All (IsTried script.now start.now place) found.items) }
    ensures suited { IfOk result (λ found. All (λ hint. StaysSuited (option_copied file.entry) start.now hint.start) found.items) }
    ensures asks { IfOk result (λ found. option_copied file.entry ≡ None → MoreLinesHelp (script_of script.now) start.now →
        Any (AsksForMore script.now start.now) found.items) }
    ensures states { IfOk result (λ found. option_copied file.entry ≡ None → IsStated script.now start.now place why (map note_value notes.now) found.items) }
{
    let found = all_hints(alloc, script, start, place, why, notes, numbering)?;
    suited(alloc, script, start, place, file, found)
}

/// What to write where a need of a script fails at a place by a fault, before which this is known: the best hint first. Each gets past
/// as many commands from the place on as it tells. Where the script is vouched for with more lines, one hint asks for them. Where searches there fail for want of a line that
/// matches, and it helps to state their patterns, one hint states them. Where a file is at hand, none of these hints asks for what it lacks, unless
/// the given start does.
pub fn hints(
    alloc: Global,
    script: &[u8],
    start: &Start,
    place: Place,
    why: Fault,
    notes: &[Note],
    file: Option<&Bytes>,
) -> Result<Vec<Hint>, AllocError>
    requires ordered { IsAtMost start.now.min start.now.max }
    requires low { start.now.min ≤ most_lines }
    requires high { IfSome start.now.max (λ most. most ≤ most_lines) }
    ensures tried { IfOk result (λ found. All (IsTried script.now start.now place) found.items) }

    // Where a file is at hand that the start allows, the start of each hint allows it too.
    ensures suited { IfOk result (λ found. All (λ hint. StaysSuited (option_copied file.entry) start.now hint.start) found.items) }

    // Where more lines help the script, one of the hints asks for them.
    ensures asks { IfOk result (λ found. option_copied file.entry ≡ None → MoreLinesHelp (script_of script.now) start.now →
        Any (AsksForMore script.now start.now) found.items) }

    // Where it helps to state the patterns that are looked for at the place, one of the hints does.
    ensures states { IfOk result (λ found. option_copied file.entry ≡ None → IsStated script.now start.now place why (map note_value notes.now) found.items) }
{
    let same = Numbering::same();
    numbered_hints(alloc, script, start, place, why, notes, file, &same)
}

/// What may be told beside hints of a need that fails at a place by a fault, with the lines by their numbers in the script that was given.
pub(crate) fn numbered_remarks(
    alloc: Global,
    script: &[u8],
    place: Place,
    why: Fault,
    numbering: &Numbering,
) -> Result<Vec<Remark>, AllocError> {
    let line = number_at(alloc, script, place, numbering)?;
    let mut found = Vec::new(alloc);
    for draft in drafts_at(alloc, script, None, place, why, &[], numbering)? {
        let Draft { text, script, .. } = draft;
        if script.is_none() {
            found.push(Remark { line, text })?;
        }
    }
    Ok(found)
}

/// What may be told beside hints of a need that fails at a place by a fault.
pub fn remarks(
    alloc: Global,
    script: &[u8],
    place: Place,
    why: Fault,
) -> Result<Vec<Remark>, AllocError> {
    let same = Numbering::same();
    numbered_remarks(alloc, script, place, why, &same)
}
