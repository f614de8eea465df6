//! Reads what is known at one point of a script.

ghost use Rattle.std.specs.Prelude.{◌≡◌};
ghost use Rattle.cert_check.specs.text.HasText.{StateHasText};
ghost use Rattle.cert_check.specs.text.Pieces.{Reads, same, buffer_value, BufferIsFormed, keys_of, AreAlone, undo_lines, UndoIsFormed};
ghost use Rattle.cert_check.specs.text.Text.{own_keys, earlier_keys, buffer_lines, state_lines};

use crate::certificate::Version;
use crate::text::cursor::Cursor;
use crate::text::fact_lines::read_facts;
use crate::text::fault::Unread;
use crate::text::has_text::does_follow;
use crate::text::readers::{
    read_changed, read_choices, read_found, read_marks, read_matched, read_replacements, read_zone,
};
use crate::text::wanted::LineKind;
use ed_rules::{KeptOld, KeptState, KeptUndo, LineFacts, Marks, Matches, Texts};
use std::alloc::Global;
use zones::KeptZone;

/// The kinds of the lines on a buffer.
#[derive(Clone, Copy, PartialEq, Eq, Debug)]
pub(crate) struct BufferKinds {
    pub zone: LineKind,
    pub marks: LineKind,
    pub has: LineKind,
    pub lines: LineKind,
    pub clear: LineKind,
}

/// What is known of a buffer.
#[derive(Drop)]
pub(crate) struct Buffer {
    pub zone: KeptZone,
    pub marks: Marks,
    /// The patterns that some line matches.
    pub has: Texts,
    pub facts: LineFacts,
}

fn read_buffer(
    alloc: Global,
    version: Version,
    kinds: BufferKinds,
    cursor: &mut Cursor<'_>,
) -> Result<Buffer, Unread>
    requires alone { AreAlone kinds }
    ensures exact { Reads buffer_value (buffer_lines version (keys_of kinds)) (BufferIsFormed version) cursor.old cursor.new result }
{
    let zone = read_zone(alloc, kinds.zone, cursor)?;
    let marks = read_marks(kinds.marks, &zone, cursor)?;
    let has = read_matched(alloc, version, kinds.has, cursor)?;
    let facts = read_facts(alloc, version, kinds.lines, kinds.clear, &marks, cursor)?;
    Ok(Buffer {
        zone,
        marks,
        has,
        facts,
    })
}

/// What is known of the buffer of a state.
fn read_own(alloc: Global, version: Version, cursor: &mut Cursor<'_>) -> Result<Buffer, Unread>
    ensures exact { Reads buffer_value (buffer_lines version own_keys) (BufferIsFormed version) cursor.old cursor.new result }
{
    let kinds = BufferKinds {
        zone: LineKind::Zone,
        marks: LineKind::Marks,
        has: LineKind::Has,
        lines: LineKind::Lines,
        clear: LineKind::Clear,
    };
    read_buffer(alloc, version, kinds, cursor)
}

/// What is known of an earlier one.
fn read_earlier(alloc: Global, version: Version, cursor: &mut Cursor<'_>) -> Result<Buffer, Unread>
    ensures exact { Reads buffer_value (buffer_lines version earlier_keys) (BufferIsFormed version) cursor.old cursor.new result }
{
    let kinds = BufferKinds {
        zone: LineKind::OldZone,
        marks: LineKind::OldMarks,
        has: LineKind::OldHas,
        lines: LineKind::OldLines,
        clear: LineKind::OldClear,
    };
    read_buffer(alloc, version, kinds, cursor)
}

/// What undo may find, with what an earlier buffer was and what some line of it matches.
fn read_undo(
    alloc: Global,
    version: Version,
    cursor: &mut Cursor<'_>,
) -> Result<(KeptUndo, Texts), Unread>
    ensures exact { Reads same (undo_lines version) (UndoIsFormed version) cursor.old cursor.new result }
{
    let found = read_found(cursor)?;
    if !found.was {
        let undo = KeptUndo::new(found.nothing, found.same, None);
        return Ok((undo, Texts::none(alloc)));
    }
    let old = read_earlier(alloc, version, cursor)?;
    let was = KeptOld::new(old.zone, old.marks, old.facts);
    let undo = KeptUndo::new(found.nothing, found.same, Some(was));
    Ok((undo, old.has))
}

/// What is known at one point of a script.
pub(crate) fn read_state(
    alloc: Global,
    version: Version,
    cursor: &mut Cursor<'_>,
) -> Result<KeptState, Unread>
    ensures exact { Reads same (state_lines version) (StateHasText version) cursor.old cursor.new result }
{
    let buffer = read_own(alloc, version, cursor)?;
    let patterns = read_choices(alloc, LineKind::Patterns, cursor)?;
    let replacements = read_replacements(cursor)?;
    let names = read_choices(alloc, LineKind::Names, cursor)?;
    let changed = read_changed(cursor)?;
    let (undo, old_has) = read_undo(alloc, version, cursor)?;
    let has = buffer.has;
    Ok(KeptState::new(
        buffer.zone,
        buffer.marks,
        patterns,
        replacements,
        names,
        changed,
        undo,
        Matches { has, old_has },
        does_follow(version),
        buffer.facts,
    ))
}
