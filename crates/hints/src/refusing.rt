//! All refusals of a script, each found with the earlier ones mended.

ghost use Rattle.std.specs.Prelude.{◌≡◌, ◌∷◌, ◌≤◌, [], List, length, IfOk, IfSome, MatchOption};
ghost use Rattle.std.specs.Option.{option_copied};
ghost use Rattle.ed_syntax.specs.reading.Reading.{script_of};
ghost use Rattle.ed_rules.specs.LineBounds.{most_lines, IsAtMost};
ghost use Rattle.hints.specs.declared.hint.Hint.{Hint};
ghost use Rattle.hints.specs.Passing.{IsVouched};
ghost use Rattle.hints.specs.Refusals.{most_refusals, IsRefusal, GoesOnWith, AreRefusals};

use crate::commands::span_of;
use crate::hint::{Hint, Remark};
use crate::numbering::Numbering;
use crate::passing_over::passed_over;
use crate::starts::copy_of;
use crate::suiting::{numbered_hints, numbered_remarks};
use analyser::{Analysis, Start, analyse};
use cert_check::{Note, Place};
use ed_base::{Bytes, Fault};
use ed_syntax::read_script;
use std::alloc::{AllocError, Global};

/// How many refusals are told at most.
const MOST_REFUSALS: usize = 10;

/// What comes after the refusals that are told of a script.
#[derive(Clone, Copy, Debug, PartialEq, Eq)]
pub enum Rest {
    /// What is looked at after them is vouched for.
    Vouched,
    /// It isn't looked at: the last one has no hint, and its command isn't passed over.
    Unmended,
    /// It isn't looked at, since they are as many as are told.
    Cut,
}

/// The first need that fails of a script over a start, and what may be written.
#[derive(Debug, Drop)]
pub struct Refusal {
    /// A counted command's number, which counts from 1, or the number after the last one for the end.
    pub place: Place,
    pub why: Fault,
    /// What is known before each command up to that place.
    pub notes: Vec<Note>,
    /// The script and the start that are refused.
    pub script: Bytes,
    pub start: Start,
    /// The best first.
    pub hints: Vec<Hint>,
    pub remarks: Vec<Remark>,
    /// The numbers of the lines in the script that was given.
    pub(crate) numbering: Numbering,
}

impl Refusal {
    /// The script and the start as the first hint has them.
    fn hinted(&self) -> Result<Option<(Bytes, Start)>, AllocError>
        ensures value { IfOk result (λ found. MatchOption found (self.now.hints.items ≡ [])
            (λ (script, start). (h : Hint) × (hs : List Hint) × (self.now.hints.items ≡ h ∷ hs) × (script ≡ h.script) × (start ≡ h.start))) }
    {
        match self.hints.as_slice() {
            [hint, ..] => Ok(Some((hint.script.try_copy()?, copy_of(&hint.start)?))),
            [] => Ok(None),
        }
    }

    /// The script and the start that are looked at after this refusal: as the first hint has them, or, where there is none, the script without
    /// the command at the place. None where that can't be said.
    fn mended(&self, alloc: Global) -> Result<Option<(Bytes, Start)>, AllocError>
        ensures value { IfOk result (λ found. MatchOption found (self.now.hints.items ≡ []) (λ (script, start). GoesOnWith self.now script start)) }
    {
        if let Some(hinted) = self.hinted()? {
            return Ok(Some(hinted));
        }
        match passed_over(alloc, self.script.as_slice(), self.place)? {
            Some(script) => Ok(Some((script, copy_of(&self.start)?))),
            None => Ok(None),
        }
    }

    /// The lines and commands of the script that is looked at after this refusal, by their numbers in the script that was given.
    fn numbering_of(&self, alloc: Global, mended: &[u8]) -> Result<Numbering, AllocError> {
        let script = self.script.as_slice();
        let line = match span_of(alloc, script, self.place.command)? {
            Some(span) => span.line,
            None => usize::MAX,
        };
        let is_passed = self.hints.is_empty();
        self.numbering
            .changed(alloc, script, mended, line, is_passed)
    }
}

/// The refusal of a script over a start, with its hints; none where it is vouched for. Lines are told by their numbers in the script that was given.
fn refusal_of(
    alloc: Global,
    script: &[u8],
    start: &Start,
    file: Option<&Bytes>,
    numbering: Numbering,
) -> Result<Option<Refusal>, AllocError>
    requires ordered { IsAtMost start.now.min start.now.max }
    requires low { start.now.min ≤ most_lines }
    requires high { IfSome start.now.max (λ most. most ≤ most_lines) }
    ensures exact { IfOk result (λ found. MatchOption found (IsVouched (script_of script.now) start.now)
        (λ r. IsRefusal (option_copied file.entry) r × (r.script ≡ script.now) × (r.start ≡ start.now))) }
{
    let read = read_script(alloc, script)?;
    match analyse(&read, copy_of(start)?)? {
        Analysis::Vouched(_) => Ok(None),
        Analysis::Cannot { place, why, notes } => {
            let hints = numbered_hints(
                alloc,
                script,
                start,
                place,
                why,
                notes.as_slice(),
                file,
                &numbering,
            )?;
            let remarks = numbered_remarks(alloc, script, place, why, &numbering)?;
            Ok(Some(Refusal {
                place,
                why,
                notes,
                script: Bytes::from_slice(alloc, script)?,
                start: copy_of(start)?,
                hints,
                remarks,
                numbering,
            }))
        }
    }
}

/// The refusal of a script over a start, with its hints; none where it is vouched for. Where a file is at hand that the start allows, the start of
/// each hint allows it too.
pub fn first_refusal(
    alloc: Global,
    script: &[u8],
    start: &Start,
    file: Option<&Bytes>,
) -> Result<Option<Refusal>, AllocError>
    requires ordered { IsAtMost start.now.min start.now.max }
    requires low { start.now.min ≤ most_lines }
    requires high { IfSome start.now.max (λ most. most ≤ most_lines) }
    ensures exact { IfOk result (λ found. MatchOption found (IsVouched (script_of script.now) start.now)
        (λ r. IsRefusal (option_copied file.entry) r × (r.script ≡ script.now) × (r.start ≡ start.now))) }
{
    refusal_of(alloc, script, start, file, Numbering::same())
}

/// The refusals of a script over a start, at most ten, and what comes after them: each later one is found with the earlier ones mended, as the
/// first hint of each says. Where that states more of the start, the next one is over that start. The command of a refusal without a hint is
/// passed over; where that can't be, the refusal is the last one. Where a file is at hand that the start allows, the start of each hint allows it
/// too. Lines are told by their numbers in the script that was given.
pub fn refusals(
    alloc: Global,
    script: &[u8],
    start: &Start,
    file: Option<&Bytes>,
) -> Result<(Vec<Refusal>, Rest), AllocError>
    requires ordered { IsAtMost start.now.min start.now.max }
    requires low { start.now.min ≤ most_lines }
    requires high { IfSome start.now.max (λ most. most ≤ most_lines) }
    ensures each { IfOk result (λ (found, rest). AreRefusals (option_copied file.entry) script.now start.now found.items rest) }
    ensures none { IfOk result (λ (found, rest). found.items ≡ [] → IsVouched (script_of script.now) start.now) }
    ensures few { IfOk result (λ (found, rest). length found.items ≤ most_refusals) }
{
    let mut found = Vec::new(alloc);
    let mut current = Bytes::from_slice(alloc, script)?;
    let mut opened = copy_of(start)?;
    let mut numbering = Numbering::same();
    'turns: for turn in 0..MOST_REFUSALS {
        let Some(refusal) = refusal_of(alloc, current.as_slice(), &opened, file, numbering)? else {
            return Ok((found, Rest::Vouched));
        };
        match refusal.mended(alloc)? {
            None => {
                found.push(refusal)?;
                return Ok((found, Rest::Unmended));
            }
            Some((mended, bounded)) => {
                numbering = refusal.numbering_of(alloc, mended.as_slice())?;
                found.push(refusal)?;
                current = mended;
                opened = bounded;
            }
        }
    }
    Ok((found, Rest::Cut))
}
