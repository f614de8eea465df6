//! Goes over the commands of a script once, and remarks what they show.

ghost use Rattle.std.specs.Prelude.{◌≡◌, ◌+◌, ◌-◌, ◌||◌, ◌⊎◌, true, false, slice_get, take, drop, map, None, IfOk, IfSome, OnOk};
ghost use Rattle.std.specs.List.{list_any};
ghost use Rattle.ed_syntax.specs.PublicScript.{script_value};
ghost use Rattle.ed_syntax.specs.PublicTypes.{command_value, step_value};
ghost use Rattle.ed_syntax.specs.reading.Reading.{script_of};
ghost use Rattle.remarks.specs.declared.slip.Slip.{Slip};
ghost use Rattle.remarks.specs.Parts.{has_high};
ghost use Rattle.remarks.specs.Shown.{command_shows, step_shows, insert_shows, steps_show, whole_shows, script_shows, is_open, is_unread, is_by_bytes};
ghost use Rattle.remarks.specs.Told.{tells, IsOnce};
ghost use Rattle.remarks.specs.Adding.{Adds};

use crate::cutting::begins_with_cut;
use crate::diffs::diff_of;
use crate::emptied::{inserts_at_first, may_leave_none};
use crate::finding::{tell, tell_if};
use crate::parts::has_high;
use crate::shown::{Spot, tell_of_command};
use crate::unwritten::{before_end, writes_nothing};
use crate::{Remarked, Slip};
use ed_syntax::{Command, Script, Span, list_places, places, read_script};
use std::alloc::{AllocError, Global};

/// The bytes from a place on, or none.
fn bytes_from(bytes: &[u8], low: usize) -> &[u8]
    ensures value { result.now ≡ drop low bytes.now }
{
    match bytes.get(low..) {
        Some(rest) => rest,
        None => &[],
    }
}

/// So many bytes in front, or all.
fn bytes_before(bytes: &[u8], len: usize) -> &[u8]
    ensures value { result.now ≡ take len bytes.now }
{
    match bytes.get(..len) {
        Some(front) => front,
        None => bytes,
    }
}

/// The bytes of a span.
fn bytes_at(script: &[u8], span: Span) -> &[u8]
    ensures value { result.now ≡ take (span.high - span.low) (drop span.low script.now) }
{
    bytes_before(
        bytes_from(script, span.low),
        span.high.saturating_sub(span.low),
    )
}

/// The place of the command of this number, counted from 0. There is one for each, so the other answer is never asked for.
fn span_at(spans: &[Span], index: usize) -> Span
    ensures value { IfSome (slice_get spans.now index) (λ span. result ≡ span) }
{
    match spans.get(index) {
        Some(span) => *span,
        None => Span {
            line: 1,
            low: 0,
            high: 0,
        },
    }
}

/// Remarks what the commands of a list show, whose places in the bytes of the global command these are.
fn tell_of_listed(
    found: &mut Vec<Remarked>,
    spot: Spot<'_>,
    list: &[Command],
    spans: &[Span],
) -> Result<(), AllocError>
    ensures told { OnOk result ((kind : Slip) → is_open kind ≡ false → tells kind found.new.items ≡
        (list_any (command_shows spot.entry.is_high kind) (map command_value list.now) || tells kind found.old.items)) }
    ensures appended { OnOk result (Adds found.old.items found.new.items) }
{
    for (index, command) in list.iter().enumerate() {
        tell_of_command(found, listed_spot(spot, spans, index), command)?;
    }
    Ok(())
}

/// Where the command of this number, counted from 0, stands in the list of the one that stands here.
fn listed_spot<'a>(spot: Spot<'a>, spans: &[Span], index: usize) -> Spot<'a>
    ensures high { result.is_high ≡ spot.entry.is_high }
{
    match spans.get(index) {
        Some(span) => Spot {
            line: listed_line(spot.line, span.line),
            bytes: bytes_at(spot.bytes, *span),
            ..spot
        },
        None => Spot { bytes: &[], ..spot },
    }
}

/// The line of a script that is this one of a command that begins on that line. Where the numbers are too great it is that line.
fn listed_line(line: usize, own: usize) -> usize
    ensures placed { (result ≡ line) ⊎ (result ≡ line + (own - 1)) }
{
    match line.checked_add(own.saturating_sub(1)) {
        Some(sum) => sum,
        None => line,
    }
}

/// Remarks what the list of a command shows.
fn tell_of_list(
    found: &mut Vec<Remarked>,
    spot: Spot<'_>,
    command: &Command,
) -> Result<(), AllocError>
    ensures told { OnOk result ((kind : Slip) → is_open kind ≡ false → tells kind found.new.items ≡
        (list_any (command_shows spot.entry.is_high kind) (step_value command.now).list || tells kind found.old.items)) }
    ensures appended { OnOk result (Adds found.old.items found.new.items) }
{
    let spans = list_places(spot.alloc, spot.bytes)?;
    tell_of_listed(found, spot, command.list(), spans.as_slice())
}

/// Remarks what a command of the script shows, with its list, where no line may be left before it or some surely are.
#[tactic(auto, using(crate::proofs::OrLemmas::or_three, crate::proofs::KindLemmas::insert_kinds))]
fn tell_of_step(
    found: &mut Vec<Remarked>,
    spot: Spot<'_>,
    command: &Command,
    is_emptied: bool,
) -> Result<(), AllocError>
    ensures told { OnOk result ((kind : Slip) → is_open kind ≡ false → tells kind found.new.items ≡
        ((step_shows spot.entry.is_high kind (step_value command.now) || insert_shows is_emptied kind (step_value command.now))
        || tells kind found.old.items)) }
    ensures appended { OnOk result (Adds found.old.items found.new.items) }
{
    tell_of_command(found, spot, command)?;
    tell_of_list(found, spot, command)?;
    let is_shown = is_emptied && inserts_at_first(command);
    tell_if(found, is_shown, Slip::InsertBeforeNoLine, spot.line)
}

/// Remarks what the commands of a script show, by their places in its bytes.
fn tell_of_steps(
    alloc: Global,
    found: &mut Vec<Remarked>,
    script: &[u8],
    commands: &[Command],
    spans: &[Span],
) -> Result<(), AllocError>
    ensures told { OnOk result ((kind : Slip) → is_open kind ≡ false → tells kind found.new.items ≡
        (steps_show (has_high script.now) false kind (map step_value commands.now) || tells kind found.old.items)) }
    ensures appended { OnOk result (Adds found.old.items found.new.items) }
{
    let is_high = has_high(script);
    let mut is_emptied = false;
    for (index, command) in commands.iter().enumerate() {
        let span = span_at(spans, index);
        let bytes = bytes_at(script, span);
        let line = span.line;
        tell_of_step(
            found,
            Spot {
                alloc,
                is_high,
                line,
                bytes,
            },
            command,
            is_emptied,
        )?;
        is_emptied = may_leave_none(is_emptied, command);
    }
    Ok(())
}

/// Remarks what a script shows as a whole.
#[tactic(auto, using(crate::proofs::KindLemmas::whole_kinds, crate::proofs::KindLemmas::whole_none))]
fn tell_of_whole(
    found: &mut Vec<Remarked>,
    script: &[u8],
    read: &Script,
    spans: &[Span],
) -> Result<(), AllocError>
    ensures told { OnOk result ((kind : Slip) → tells kind found.new.items ≡
        (whole_shows kind (script_value read.now) || tells kind found.old.items)) }
    ensures appended { OnOk result (Adds found.old.items found.new.items) }
{
    let commands = read.commands.as_slice();
    if commands.is_empty() {
        return Ok(());
    }
    // The command that ends the run, or the last one.
    let last = before_end(commands).len().min(commands.len() - 1);
    tell_if(
        found,
        writes_nothing(read),
        Slip::NothingWritten,
        span_at(spans, last).line,
    )
}

/// What a script shows where it can't be read further, with the bytes from there on.
fn unread_slip(
    alloc: Global,
    script: &[u8],
    line: usize,
    rest: &[u8],
) -> Result<Option<Slip>, AllocError>
    ensures unread { IfOk result (λ found. IfSome found (λ kind. is_unread kind ≡ true)) }
{
    if begins_with_cut(alloc, rest)? {
        return Ok(Some(Slip::CutLines));
    }
    if line > 1 {
        return Ok(None);
    }
    Ok(diff_of(script))
}

/// Remarks what a script shows where it can't be read further.
fn tell_of_unread(
    alloc: Global,
    found: &mut Vec<Remarked>,
    script: &[u8],
    spans: &[Span],
    fault: Option<usize>,
) -> Result<(), AllocError>
    ensures told { OnOk result ((kind : Slip) → is_unread kind ≡ false → tells kind found.new.items ≡ tells kind found.old.items) }
    ensures read { fault ≡ None → OnOk result ((kind : Slip) → tells kind found.new.items ≡ tells kind found.old.items) }
    ensures appended { OnOk result (Adds found.old.items found.new.items) }
{
    let Some(line) = fault else {
        return Ok(());
    };
    let Some(span) = spans.last() else {
        return Ok(());
    };
    match unread_slip(alloc, script, line, bytes_at(script, *span))? {
        Some(slip) => tell(found, slip, line),
        None => Ok(()),
    }
}

/// What a script shows that people hardly mean: each kind once, at its first place.
#[tactic(auto, using(crate::proofs::OrLemmas::or_none, crate::proofs::OrLemmas::neither))]
pub fn remarks(alloc: Global, script: &[u8]) -> Result<Vec<Remarked>, AllocError>
    // Of a kind for which the commands alone are looked at there is a remark exactly where the script shows it.
    ensures exact { IfOk result (λ found. (kind : Slip) → is_by_bytes kind ≡ false →
        tells kind found.items ≡ script_shows (has_high script.now) kind (script_of script.now)) }
    // What is told of a script that can't be read to its end is told of no other.
    ensures unread { IfOk result (λ found. (kind : Slip) → is_unread kind ≡ true → (script_of script.now).fault ≡ None →
        tells kind found.items ≡ false) }
    ensures once { IfOk result (λ found. IsOnce found.items) }
{
    let read = read_script(alloc, script)?;
    let spans = places(alloc, script)?;
    let mut found = Vec::new(alloc);
    tell_of_steps(
        alloc,
        &mut found,
        script,
        read.commands.as_slice(),
        spans.as_slice(),
    )?;
    tell_of_whole(&mut found, script, &read, spans.as_slice())?;
    tell_of_unread(alloc, &mut found, script, spans.as_slice(), read.fault)?;
    Ok(found)
}
