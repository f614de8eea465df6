//! The start that is found for a script of what is given of it.

ghost use Rattle.std.specs.Prelude.{◌≡◌, ◌↔◌, ◌-◌, ◌<◌, ◌≤◌, ℕ, List, Option, IfOk, IfSome, IfNone, IsSome};
ghost use Rattle.ed_syntax.specs.PublicScript.{script_value};
ghost use Rattle.ed_syntax.specs.reading.Reading.{script_of};
ghost use Rattle.ed_rules.specs.LineBounds.{most_lines, IsAtMost};
ghost use Rattle.hints.specs.Passing.{IsAllowed, IsVouched, with_min};
ghost use Rattle.hints.specs.Widest.{start_with, fullest_min, fullest, IsWidest};
ghost use Rattle.hints.specs.Narrowing.{AreEnough, IsNarrowed};

use crate::given::Given;
use crate::narrowing::{as_given, fewer_at_once, fewer_of, is_vouched_beside, start_beside};
use crate::passing::is_vouched;
use crate::searched::addable;
use crate::starts::{is_vouched_within, least_between, top_of};
use analyser::Start;
use ed_base::Bytes;
use ed_syntax::{Script, read_script};
use std::alloc::{AllocError, Global};

/// The fewest lines with which a script is vouched for with the patterns of a start over which it is: none, or such that it isn't with one
/// line less. Where the fewest are given, they stay.
fn fewest_lines(script: &Script, given: &Given, start: &Start) -> Result<u64, AllocError>
    requires allowed { IsAllowed start.now }
    requires vouched { IsVouched (script_value script.now) start.now }
    ensures vouched { IfOk result (λ min. IsVouched (script_value script.now) (with_min start.now min)) }
    ensures least { IfOk result (λ min. IfNone given.now.min (0 < min → ¬ IsVouched (script_value script.now) (with_min start.now (min - 1)))) }
    ensures kept { IfOk result (λ min. IsSome given.now.min → min ≡ start.now.min) }
    ensures below { IfOk result (λ min. min ≤ start.now.min) }
{
    if given.min.is_some() || start.min == 0 {
        return Ok(start.min);
    }
    if is_vouched_within(script, start, 0, start.max)? {
        return Ok(0);
    }
    least_between(script, start, 0, start.min)
}

/// The start with just the patterns that are given, with which the script is vouched for under so many lines, and the fewest lines.
fn widest_as_given(script: &Script, given: &Given, min: u64) -> Result<Start, AllocError>
    requires given_least { IfSome given.now.min (λ least. min ≡ least) }
    requires allowed { IsAllowed (start_with given.now min given.now.has) }
    requires vouched { IsVouched (script_value script.now) (start_with given.now min given.now.has) }
    ensures widest { IfOk result (IsWidest (script_value script.now) given.now) }
    ensures narrowed { (patterns : List (List ℕ)) → IfOk result (IsNarrowed given.now min patterns) }
{
    let start = as_given(given, min)?;
    let fewest = fewest_lines(script, given, &start)?;
    as_given(given, fewest)
}

/// The start with the fewest lines and, of some patterns that are enough, those that are needed. Where one is left out, the others are
/// tried again, since the script may need fewer lines then, and others of them.
fn widest_beside(
    alloc: Global,
    script: &Script,
    given: &Given,
    min: u64,
    added: Vec<Bytes>,
) -> Result<Start, AllocError>
    requires enough { AreEnough (script_value script.now) given.now min added.items }
    ensures widest { IfOk result (IsWidest (script_value script.now) given.now) }
    ensures narrowed { IfOk result (IsNarrowed given.now min added.items) }
{
    let mut most = min;
    let mut left = added;
    'fewer: loop {
        let start = start_beside(alloc, given, most, left.as_slice())?;
        let fewest = fewest_lines(script, given, &start)?;
        if is_vouched(script, as_given(given, fewest)?)? {
            return widest_as_given(script, given, fewest);
        }
        let Some(fewer) = fewer_of(alloc, script, given, fewest, left.as_slice())? else {
            return start_beside(alloc, given, fewest, left.as_slice());
        };
        most = fewest;
        left = fewer;
    }
}

/// The widest start, where the script is vouched for with so many lines and all of these patterns. It has at most so many, and states none but
/// these beside those that are given.
pub(crate) fn widest_of(
    alloc: Global,
    script: &Script,
    given: &Given,
    min: u64,
    added: &[Bytes],
) -> Result<Start, AllocError>
    requires enough { AreEnough (script_value script.now) given.now min added.now }
    ensures widest { IfOk result (IsWidest (script_value script.now) given.now) }
    ensures narrowed { IfOk result (IsNarrowed given.now min added.now) }
{
    if is_vouched(script, as_given(given, min)?)? {
        return widest_as_given(script, given, min);
    }
    let fewer = fewer_at_once(alloc, script, given, min, added)?;
    widest_beside(alloc, script, given, min, fewer)
}

/// The fewest lines that are given, or else as many as there may be.
pub(crate) fn fullest_min(given: &Given) -> u64
    requires ordered { IfSome given.now.min (λ min. IsAtMost min given.now.max) }
    requires low { IfSome given.now.min (λ min. min ≤ most_lines) }
    requires high { IfSome given.now.max (λ most. most ≤ most_lines) }
    ensures value { result ≡ fullest_min given.now }
    ensures allowed { (has : Option (List (List ℕ))) → IsAllowed (start_with given.now result has) }
    ensures given_least { IfSome given.now.min (λ least. result ≡ least) }
{
    match given.min {
        Some(min) => min,
        None => top_of(given.max),
    }
}

/// The start with which a script is vouched for and that allows the most files, as far as was tried: what isn't given of it is found. It
/// has the fewest lines, so that the script isn't vouched for with one line less, and beside the patterns that are given just those that
/// are needed, of those that the script's searches are given. It states such patterns only where there may be a line. None just where the
/// script isn't vouched for with as many lines as there may be and all patterns that may be stated.
///
/// That another start with fewer lines or other patterns would do isn't ruled out. The script is analysed once for each pattern that its
/// searches are given, up to its first need that fails, once more for each where some of them aren't needed, and some 40 times beside that.
pub fn widest_start(
    alloc: Global,
    script: &[u8],
    given: &Given,
) -> Result<Option<Start>, AllocError>
    requires ordered { IfSome given.now.min (λ min. IsAtMost min given.now.max) }
    requires low { IfSome given.now.min (λ min. min ≤ most_lines) }
    requires high { IfSome given.now.max (λ most. most ≤ most_lines) }
    ensures exact { IfOk result (λ found. IsSome found ↔ IsVouched (script_of script.now) (fullest (script_of script.now) given.now)) }
    ensures widest { IfOk result (λ found. IfSome found (IsWidest (script_of script.now) given.now)) }
{
    let read = read_script(alloc, script)?;
    let min = fullest_min(given);
    let patterns = addable(alloc, &read, given.max)?;
    if !is_vouched_beside(alloc, &read, given, min, patterns.members())? {
        return Ok(None);
    }
    Ok(Some(widest_of(alloc, &read, given, min, patterns.members())?))
}

/// The start over which a script is judged where no start of what is given is found: with as many lines at least as there may be, or as
/// are given, and beside the patterns that are given all those that the script's searches are given, if there may be a line.
pub fn fullest_start(alloc: Global, script: &[u8], given: &Given) -> Result<Start, AllocError>
    requires ordered { IfSome given.now.min (λ min. IsAtMost min given.now.max) }
    requires low { IfSome given.now.min (λ min. min ≤ most_lines) }
    requires high { IfSome given.now.max (λ most. most ≤ most_lines) }
    ensures value { IfOk result (λ start. start ≡ fullest (script_of script.now) given.now) }
    ensures allowed { IfOk result IsAllowed }
{
    let read = read_script(alloc, script)?;
    let patterns = addable(alloc, &read, given.max)?;
    start_beside(alloc, given, fullest_min(given), patterns.members())
}
