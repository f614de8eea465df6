//! Reads the lines of a certificate, each at its place.

ghost use Rattle.std.specs.Prelude.{◌≡◌, ◌∷◌, [], codes, All};
ghost use Rattle.ed_rules.specs.Formed.{ChoiceIsBytes, SetIsFormed, TextsAreFormed, ZoneIsFormed};
ghost use Rattle.cert_check.specs.text.HasText.{IsSaidIn, ChainHasText, ChainsHaveText};
ghost use Rattle.cert_check.specs.text.Pieces.{Reads, same, alone, limits_line, AreLimits, AreStartLimits, IsSomeReplacement, IsSomeChange, IsFound, either_line, found_line, head_line};
ghost use Rattle.cert_check.specs.text.Reading.{ReadsAs, all_marks};
ghost use Rattle.cert_check.specs.text.Wanted.{key, other_keys};
ghost use Rattle.cert_check.specs.text.Text.{path_line, texts_line, matched_lines, chains_line, chains_lines, zone_line, marks_line, choices_line, replacements_line, changed_line};

use crate::certificate::Version;
use crate::text::cursor::{Cursor, Head};
use crate::text::fault::Unread;
use crate::text::lines::{
    Found, chains_in, changed_in, choices_in, final_in, path_in, replacements_in, set_in, start_in,
    undo_in, writes_in,
};
use crate::text::wanted::LineKind;
use crate::text::zone_lines::marks_in;
use ed_base::Bytes;
use ed_rules::{Changed, Choices, Marks, Replacements, Texts};
use landmarks::LandmarkChain;
use std::alloc::Global;
use zones::KeptZone;

/// The path of the start file.
pub(crate) fn read_path(alloc: Global, cursor: &mut Cursor<'_>) -> Result<Option<Bytes>, Unread>
    ensures exact { Reads same (alone path_line) ChoiceIsBytes cursor.old cursor.new result }
{
    let line = cursor.line()?;
    cursor.read_as(LineKind::Path, path_in(alloc, line)?)
}

/// How many lines the start has.
pub(crate) fn read_start(cursor: &mut Cursor<'_>) -> Result<(u64, Option<u64>), Unread>
    ensures exact { Reads same (alone (limits_line (codes "start"))) AreStartLimits cursor.old cursor.new result }
{
    let line = cursor.line()?;
    cursor.read_as(LineKind::Start, start_in(line))
}

/// How many lines the end has.
pub(crate) fn read_final(cursor: &mut Cursor<'_>) -> Result<(u64, Option<u64>), Unread>
    ensures exact { Reads same (alone (limits_line (codes "final"))) AreLimits cursor.old cursor.new result }
{
    let line = cursor.line()?;
    cursor.read_as(LineKind::Final, final_in(line))
}

/// The paths that may be written.
pub(crate) fn read_writes(alloc: Global, cursor: &mut Cursor<'_>) -> Result<Vec<Bytes>, Unread>
    ensures exact { Reads (λ v. v.items) (alone (texts_line (codes "writes"))) TextsAreFormed cursor.old cursor.new result }
{
    let line = cursor.line()?;
    cursor.read_as(LineKind::Writes, writes_in(alloc, line)?)
}

fn read_set(alloc: Global, kind: LineKind, cursor: &mut Cursor<'_>) -> Result<Texts, Unread>
    requires alone { other_keys kind ≡ [] }
    ensures exact { Reads same (alone (texts_line (key kind))) TextsAreFormed cursor.old cursor.new result }
{
    let line = cursor.line()?;
    cursor.read_as(kind, set_in(alloc, kind.key(), line)?)
}

/// The patterns that some line matches, where the version has a line of them.
pub(crate) fn read_matched(
    alloc: Global,
    version: Version,
    kind: LineKind,
    cursor: &mut Cursor<'_>,
) -> Result<Texts, Unread>
    requires alone { other_keys kind ≡ [] }
    ensures exact { Reads same (matched_lines version (key kind)) (IsSaidIn version) cursor.old cursor.new result }
{
    match version {
        Version::One => Ok(Texts::none(alloc)),
        Version::Two => read_set(alloc, kind, cursor),
        Version::Three => read_set(alloc, kind, cursor),
    }
}

/// The line of the chains of landmarks.
fn read_at(alloc: Global, cursor: &mut Cursor<'_>) -> Result<Vec<LandmarkChain>, Unread>
    ensures exact { Reads (λ v. v.items) (alone chains_line) (All ChainHasText) cursor.old cursor.new result }
{
    let line = cursor.line()?;
    cursor.read_as(LineKind::At, chains_in(alloc, line)?)
}

/// The chains of landmarks of the start, where the version has a line of them.
pub(crate) fn read_chains(
    alloc: Global,
    version: Version,
    cursor: &mut Cursor<'_>,
) -> Result<Vec<LandmarkChain>, Unread>
    ensures exact { Reads (λ v. v.items) (chains_lines version) (ChainsHaveText version) cursor.old cursor.new result }
{
    match version {
        Version::One => Ok(Vec::new(alloc)),
        Version::Two => Ok(Vec::new(alloc)),
        Version::Three => read_at(alloc, cursor),
    }
}

/// A zone, which may speak of each letter.
pub(crate) fn read_zone(
    alloc: Global,
    kind: LineKind,
    cursor: &mut Cursor<'_>,
) -> Result<KeptZone, Unread>
    requires alone { other_keys kind ≡ [] }
    ensures exact { Reads same (alone (zone_line (key kind))) (ZoneIsFormed all_marks) cursor.old cursor.new result }
{
    let line = cursor.line()?;
    let zone = cursor.zone_in(alloc, kind.key(), line)?;
    cursor.read_as(kind, zone)
}

/// The marks beside a zone.
pub(crate) fn read_marks(
    kind: LineKind,
    zone: &KeptZone,
    cursor: &mut Cursor<'_>,
) -> Result<Marks, Unread>
    requires alone { other_keys kind ≡ [] }
    requires formed { ZoneIsFormed all_marks zone.now }
    ensures exact { Reads same (alone (marks_line (key kind))) (λ marks. ZoneIsFormed marks zone.now) cursor.old cursor.new result }
{
    let line = cursor.line()?;
    cursor.read_as(kind, marks_in(kind.key(), line, zone))
}

/// A set of patterns or names.
pub(crate) fn read_choices(
    alloc: Global,
    kind: LineKind,
    cursor: &mut Cursor<'_>,
) -> Result<Choices, Unread>
    requires alone { other_keys kind ≡ [] }
    ensures exact { Reads same (alone (choices_line (key kind))) SetIsFormed cursor.old cursor.new result }
{
    let line = cursor.line()?;
    cursor.read_as(kind, choices_in(alloc, kind.key(), line)?)
}

/// The replacements that are possible.
pub(crate) fn read_replacements(cursor: &mut Cursor<'_>) -> Result<Replacements, Unread>
    ensures exact { Reads same (alone replacements_line) IsSomeReplacement cursor.old cursor.new result }
{
    let line = cursor.line()?;
    cursor.read_as(LineKind::Replacements, replacements_in(line))
}

/// Whether the buffer may be changed.
pub(crate) fn read_changed(cursor: &mut Cursor<'_>) -> Result<Changed, Unread>
    ensures exact { Reads same (alone changed_line) IsSomeChange cursor.old cursor.new result }
{
    let line = cursor.line()?;
    cursor.read_as(LineKind::Changed, changed_in(line))
}

/// What undo may find.
pub(crate) fn read_found(cursor: &mut Cursor<'_>) -> Result<Found, Unread>
    ensures exact { Reads same (alone found_line) IsFound cursor.old cursor.new result }
{
    let line = cursor.line()?;
    cursor.read_as(LineKind::Undo, undo_in(line))
}

fn either_in(one: &[u8], other: &[u8], line: &[u8]) -> Option<bool>
    ensures exact { ReadsAs (either_line one.now other.now) (λ _. Unit {0}) line.now result }
{
    if line == one {
        return Some(true);
    }
    if line == other {
        return Some(false);
    }
    None
}

/// Whether the next line is the word of the kind, and not the other one.
pub(crate) fn read_either(
    kind: LineKind,
    other: &[u8],
    cursor: &mut Cursor<'_>,
) -> Result<bool, Unread>
    requires other { other_keys kind ≡ other.now ∷ [] }
    ensures exact { Reads same (alone (either_line (key kind) other.now)) (λ _. Unit {0}) cursor.old cursor.new result }
{
    let line = cursor.line()?;
    cursor.read_as(kind, either_in(kind.key(), other, line))
}

fn head_in(line: &[u8]) -> Option<Head>
    ensures exact { ReadsAs head_line (λ _. Unit {0}) line.now result }
{
    if line == b"note".as_slice() {
        return Some(Head::AnotherNote);
    }
    if line == b"loop".as_slice() {
        return Some(Head::Loop);
    }
    if line == b"end".as_slice() {
        return Some(Head::End);
    }
    None
}

/// What follows the state of a note.
pub(crate) fn read_head(cursor: &mut Cursor<'_>) -> Result<Head, Unread>
    ensures exact { Reads same (alone head_line) (λ _. Unit {0}) cursor.old cursor.new result }
{
    let line = cursor.line()?;
    cursor.read_as(LineKind::NoteLoopOrEnd, head_in(line))
}
