//! Which line is wanted in place of one that may not stand where it stands.

ghost use Rattle.std.specs.Prelude.{◌≡◌};
ghost use Rattle.cert_check.specs.text.Wanted.{key, keys, told_words};

/// The kinds of lines, by where they stand in a certificate.
#[derive(Debug, Drop, Clone, Copy, PartialEq, Eq)]
pub enum LineKind {
    Path,
    Start,
    /// The patterns that some line matches, of the start or of a state.
    Has,
    /// The chains of landmarks of the start.
    At,
    /// A first note, or the end.
    NoteOrEnd,
    Zone,
    Marks,
    /// What single lines match.
    Lines,
    /// Between which lines none matches.
    Clear,
    Patterns,
    Replacements,
    Names,
    Changed,
    Undo,
    OldZone,
    OldMarks,
    OldHas,
    OldLines,
    OldClear,
    /// After the state of a note another one, what is known of its list, or the end.
    NoteLoopOrEnd,
    /// The state before one more command of a list, or the end of the list.
    InnerOrDone,
    Final,
    Writes,
}

impl LineKind {
    /// The word with which a line of the kind begins, or the first of them.
    pub fn key(self) -> &'static [u8]
        ensures value { result.now ≡ key self }
    {
        match self {
            LineKind::Path => b"path",
            LineKind::Start => b"start",
            LineKind::Has => b"has",
            LineKind::At => b"at",
            LineKind::NoteOrEnd => b"note",
            LineKind::Zone => b"zone",
            LineKind::Marks => b"marks",
            LineKind::Lines => b"lines",
            LineKind::Clear => b"clear",
            LineKind::Patterns => b"patterns",
            LineKind::Replacements => b"replacements",
            LineKind::Names => b"names",
            LineKind::Changed => b"changed",
            LineKind::Undo => b"undo",
            LineKind::OldZone => b"old-zone",
            LineKind::OldMarks => b"old-marks",
            LineKind::OldHas => b"old-has",
            LineKind::OldLines => b"old-lines",
            LineKind::OldClear => b"old-clear",
            LineKind::NoteLoopOrEnd => b"note",
            LineKind::InnerOrDone => b"inner",
            LineKind::Final => b"final",
            LineKind::Writes => b"writes",
        }
    }

    /// The words with which its lines begin, for people.
    pub fn name(self) -> &'static [u8]
        ensures value { result.now ≡ told_words (keys self) }
    {
        match self {
            LineKind::Path => b"path",
            LineKind::Start => b"start",
            LineKind::Has => b"has",
            LineKind::At => b"at",
            LineKind::NoteOrEnd => b"note or end",
            LineKind::Zone => b"zone",
            LineKind::Marks => b"marks",
            LineKind::Lines => b"lines",
            LineKind::Clear => b"clear",
            LineKind::Patterns => b"patterns",
            LineKind::Replacements => b"replacements",
            LineKind::Names => b"names",
            LineKind::Changed => b"changed",
            LineKind::Undo => b"undo",
            LineKind::OldZone => b"old-zone",
            LineKind::OldMarks => b"old-marks",
            LineKind::OldHas => b"old-has",
            LineKind::OldLines => b"old-lines",
            LineKind::OldClear => b"old-clear",
            LineKind::NoteLoopOrEnd => b"note, loop or end",
            LineKind::InnerOrDone => b"inner or done",
            LineKind::Final => b"final",
            LineKind::Writes => b"writes",
        }
    }
}

/// The first line that may not stand where it stands, and the kind of which a line could.
#[derive(Debug, Drop, Clone, Copy, PartialEq, Eq)]
pub struct Wanted {
    /// Its number, which counts from 1.
    pub line: usize,
    pub kind: LineKind,
}
