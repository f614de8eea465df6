//! Reads the lines of facts, each at its place.

ghost use Rattle.std.specs.Prelude.{◌≡◌, []};
ghost use Rattle.cert_check.specs.text.FactsText.{known_line, clear_line, KnownAreFormed, ClearAreFormed, FactsAreFormed, AreToldIn};
ghost use Rattle.cert_check.specs.text.Pieces.{Reads, same, alone, both_lines};
ghost use Rattle.cert_check.specs.text.Text.{told_lines};
ghost use Rattle.cert_check.specs.text.Wanted.{key, other_keys};

use crate::certificate::Version;
use crate::text::cursor::Cursor;
use crate::text::fact_reading::{clear_in, known_in};
use crate::text::fault::Unread;
use crate::text::wanted::LineKind;
use ed_rules::{ClearStretch, KnownLine, LineFacts, Marks};
use std::alloc::Global;

/// What single lines match.
fn read_known(
    alloc: Global,
    kind: LineKind,
    marks: &Marks,
    cursor: &mut Cursor<'_>,
) -> Result<Vec<KnownLine>, Unread>
    requires alone { other_keys kind ≡ [] }
    ensures exact { Reads (λ v. v.items) (alone (known_line (key kind))) (KnownAreFormed marks.now) cursor.old cursor.new result }
{
    let line = cursor.line()?;
    cursor.read_as(kind, known_in(alloc, kind.key(), marks, line)?)
}

/// Between which lines none matches.
fn read_clear(
    alloc: Global,
    kind: LineKind,
    marks: &Marks,
    cursor: &mut Cursor<'_>,
) -> Result<Vec<ClearStretch>, Unread>
    requires alone { other_keys kind ≡ [] }
    ensures exact { Reads (λ v. v.items) (alone (clear_line (key kind))) (ClearAreFormed marks.now) cursor.old cursor.new result }
{
    let line = cursor.line()?;
    cursor.read_as(kind, clear_in(alloc, kind.key(), marks, line)?)
}

/// The two lines of facts.
fn read_both(
    alloc: Global,
    lines_kind: LineKind,
    clear_kind: LineKind,
    marks: &Marks,
    cursor: &mut Cursor<'_>,
) -> Result<LineFacts, Unread>
    requires lines_alone { other_keys lines_kind ≡ [] }
    requires clear_alone { other_keys clear_kind ≡ [] }
    ensures exact { Reads same (both_lines (key lines_kind) (key clear_kind)) (FactsAreFormed marks.now) cursor.old cursor.new result }
{
    let lines = read_known(alloc, lines_kind, marks, cursor)?;
    let clear = read_clear(alloc, clear_kind, marks, cursor)?;
    Ok(LineFacts { lines, clear })
}

/// What is known of single lines, where the version has lines of that.
pub(crate) fn read_facts(
    alloc: Global,
    version: Version,
    lines_kind: LineKind,
    clear_kind: LineKind,
    marks: &Marks,
    cursor: &mut Cursor<'_>,
) -> Result<LineFacts, Unread>
    requires lines_alone { other_keys lines_kind ≡ [] }
    requires clear_alone { other_keys clear_kind ≡ [] }
    ensures exact { Reads same (told_lines version (key lines_kind) (key clear_kind)) (AreToldIn version marks.now) cursor.old cursor.new result }
{
    match version {
        Version::One => Ok(LineFacts::none(alloc)),
        Version::Two => Ok(LineFacts::none(alloc)),
        Version::Three => read_both(alloc, lines_kind, clear_kind, marks, cursor),
    }
}
