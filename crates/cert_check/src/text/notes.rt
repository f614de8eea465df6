//! Reads what is known before each command.

ghost use Rattle.std.specs.Prelude.{All, map};
ghost use Rattle.cert_check.specs.Certificates.{boxed_value, note_value};
ghost use Rattle.cert_check.specs.text.HasText.{StateHasText, NoteHasText};
ghost use Rattle.cert_check.specs.text.Pieces.{Reads, inner_lines, list_lines, ListIsFormed, noted_lines, noted_value, NotedIsFormed, notes_lines};

use crate::certificate::{Looped, Note, Version};
use crate::text::cursor::{Cursor, Head};
use crate::text::fault::Unread;
use crate::text::readers::{read_either, read_head};
use crate::text::states::read_state;
use crate::text::wanted::LineKind;
use ed_rules::KeptState;
use std::alloc::Global;

/// The states before the commands of a list, up to its end.
fn read_inner(
    alloc: Global,
    version: Version,
    cursor: &mut Cursor<'_>,
) -> Result<Vec<KeptState>, Unread>
    ensures exact { Reads (λ v. v.items) (inner_lines version) (All (StateHasText version)) cursor.old cursor.new result }
{
    let mut states = Vec::new(alloc);
    'states: while read_either(LineKind::InnerOrDone, b"done", cursor)? {
        states.push(read_state(alloc, version, cursor)?)?;
    }
    Ok(states)
}

/// What is known of a list, after its head.
fn read_list(
    alloc: Global,
    version: Version,
    cursor: &mut Cursor<'_>,
) -> Result<Box<Looped>, Unread>
    ensures exact { Reads boxed_value (list_lines version) (ListIsFormed version) cursor.old cursor.new result }
{
    let invariant = read_state(alloc, version, cursor)?;
    let inner = read_inner(alloc, version, cursor)?;
    Ok(Box::new(alloc, Looped { invariant, inner })?)
}

/// A note after its head, and whether another follows.
fn read_note(
    alloc: Global,
    version: Version,
    cursor: &mut Cursor<'_>,
) -> Result<(Note, bool), Unread>
    ensures exact { Reads noted_value (noted_lines version) (NotedIsFormed version) cursor.old cursor.new result }
{
    let state = read_state(alloc, version, cursor)?;
    match read_head(cursor)? {
        Head::AnotherNote => Ok((
            Note {
                state,
                looped: None,
            },
            true,
        )),
        Head::End => Ok((
            Note {
                state,
                looped: None,
            },
            false,
        )),
        Head::Loop => {
            let looped = read_list(alloc, version, cursor)?;
            let another = read_either(LineKind::NoteOrEnd, b"end", cursor)?;
            Ok((
                Note {
                    state,
                    looped: Some(looped),
                },
                another,
            ))
        }
    }
}

/// The notes, up to the head of what is known at the end.
pub(crate) fn read_notes(
    alloc: Global,
    version: Version,
    cursor: &mut Cursor<'_>,
) -> Result<Vec<Note>, Unread>
    ensures exact { Reads (λ notes. map note_value notes.items) (notes_lines version) (All (NoteHasText version)) cursor.old cursor.new result }
{
    let mut notes = Vec::new(alloc);
    let mut another = read_either(LineKind::NoteOrEnd, b"end", cursor)?;
    'notes: while another {
        let (note, follows) = read_note(alloc, version, cursor)?;
        notes.push(note)?;
        another = follows;
    }
    Ok(notes)
}
