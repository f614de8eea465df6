//! Hunks, made of changes that stand close together and of the lines around them.
ghost use Rattle.std.specs.Prelude.{◌≡◌, ◌≤◌, ◌<◌, ◌+◌, ◌-◌, ◌++◌, min, length, OnOk};
ghost use Rattle.unified_diff.specs.DiffText.{line_texts, hunk_head};
ghost use Rattle.unified_diff.specs.Edits.{seen, Edits, shown_lines, TellsHunks, next_start, next_new};

use crate::change::Change;
use crate::sign::Sign;
use crate::writing::{push_hunk_head, push_lines};
use ed_base::Bytes;
use std::alloc::AllocError;

/// How many lines are shown on either side of what is changed.
const CONTEXT: usize = 3;

/// Where a hunk begins and ends in the old lines and in the new ones.
#[derive(Clone, Copy)]
struct Extent {
    old_start: usize,
    old_end: usize,
    new_start: usize,
    new_end: usize,
}

/// Appends the hunks of these changes.
pub(crate) fn push_hunks(
    text: &mut Bytes,
    colours: bool,
    old: &[&[u8]],
    new: &[&[u8]],
    changes: &[Change],
) -> Result<(), AllocError>
    requires changes { Edits 0 0 changes.now (length (seen old.now)) (length (seen new.now)) (seen old.now) (seen new.now) }
    ensures told { OnOk result (TellsHunks colours text.old text.new (seen old.now) (seen new.now)) }
{
    let mut left = changes;
    let mut old_at = 0;
    let mut new_at = 0;
    'hunks: while !left.is_empty() {
        let (group, rest) = left.split_at(group_len(left));
        let next_old = next_old_start(rest, old.len());
        let next_new = next_new_start(rest, new.len());
        let extent = extent_of(
            old_at,
            &group[0],
            &group[group.len() - 1],
            next_old,
            next_new,
        );
        push_hunk(text, colours, old, new, group, extent)?;
        left = rest;
        old_at = extent.old_end;
        new_at = extent.new_end;
    }
    Ok(())
}

/// How many of the changes one hunk shows: so many that between two of them stand at most as many lines as context on both sides.
fn group_len(changes: &[Change]) -> usize
    requires some { 0 < length changes.now }
    ensures some { 0 < result }
    ensures within { result ≤ length changes.now }
{
    let mut last = changes[0];
    for (len, change) in changes.iter().enumerate() {
        if change.old_start.saturating_sub(last.old_end) > 2 * CONTEXT {
            return len.max(1);
        }
        last = *change;
    }
    changes.len()
}

/// Where the next change begins in the old lines, or their end.
fn next_old_start(rest: &[Change], old_len: usize) -> usize
    ensures value { result ≡ next_start rest.now old_len }
{
    match rest {
        [next, ..] => next.old_start,
        [] => old_len,
    }
}

/// Where the next change begins in the new lines, or their end.
fn next_new_start(rest: &[Change], new_len: usize) -> usize
    ensures value { result ≡ next_new rest.now new_len }
{
    match rest {
        [next, ..] => next.new_start,
        [] => new_len,
    }
}

/// The lines that a hunk shows, with up to three before its first change, but none before `old_at`, and up to three after its last one,
/// but none of the next change, which begins at these places.
fn extent_of(
    old_at: usize,
    first: &Change,
    last: &Change,
    next_old: usize,
    next_new: usize,
) -> Extent
    requires before { old_at ≤ first.now.old_start }
    requires new_before { first.now.old_start - old_at ≤ first.now.new_start }
    requires after { last.now.old_end ≤ next_old }
    requires new_after { last.now.new_end + (next_old - last.now.old_end) ≡ next_new }
    ensures old_start { result.old_start ≡ first.now.old_start - min 3 (first.now.old_start - old_at) }
    ensures new_start { result.new_start ≡ first.now.new_start - min 3 (first.now.old_start - old_at) }
    ensures old_end { result.old_end ≡ last.now.old_end + min 3 (next_old - last.now.old_end) }
    ensures new_end { result.new_end ≡ last.now.new_end + min 3 (next_old - last.now.old_end) }
{
    let lead = CONTEXT.min(first.old_start - old_at);
    let between = next_old - last.old_end;
    let left_out = between - CONTEXT.min(between);
    Extent {
        old_start: first.old_start - lead,
        old_end: next_old - left_out,
        new_start: first.new_start - lead,
        new_end: next_new - left_out,
    }
}

/// Appends the hunk that shows these changes.
fn push_hunk(
    text: &mut Bytes,
    colours: bool,
    old: &[&[u8]],
    new: &[&[u8]],
    group: &[Change],
    extent: Extent,
) -> Result<(), AllocError>
    requires edits { Edits extent.old_start extent.new_start group.now extent.old_end extent.new_end (seen old.now) (seen new.now) }
    ensures appended { OnOk result (text.new ≡ text.old
        ++ hunk_head colours extent.old_start (extent.old_end - extent.old_start) extent.new_start (extent.new_end - extent.new_start)
        ++ line_texts colours (shown_lines extent.old_start group.now extent.old_end (seen old.now) (seen new.now))) }
{
    let old_count = extent.old_end - extent.old_start;
    let new_count = extent.new_end - extent.new_start;
    push_hunk_head(
        text,
        colours,
        extent.old_start,
        old_count,
        extent.new_start,
        new_count,
    )?;
    push_changes(text, colours, old, new, group, extent)
}

/// Appends the lines of a hunk.
fn push_changes(
    text: &mut Bytes,
    colours: bool,
    old: &[&[u8]],
    new: &[&[u8]],
    group: &[Change],
    extent: Extent,
) -> Result<(), AllocError>
    requires edits { Edits extent.old_start extent.new_start group.now extent.old_end extent.new_end (seen old.now) (seen new.now) }
    ensures appended { OnOk result (text.new ≡ text.old
        ++ line_texts colours (shown_lines extent.old_start group.now extent.old_end (seen old.now) (seen new.now))) }
{
    let mut old_at = extent.old_start;
    for change in group {
        push_lines(text, colours, Sign::Kept, old, old_at, change.old_start)?;
        push_lines(
            text,
            colours,
            Sign::Removed,
            old,
            change.old_start,
            change.old_end,
        )?;
        push_lines(
            text,
            colours,
            Sign::Added,
            new,
            change.new_start,
            change.new_end,
        )?;
        old_at = change.old_end;
    }
    push_lines(text, colours, Sign::Kept, old, old_at, extent.old_end)
}
