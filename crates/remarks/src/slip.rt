//! What is remarked: the kinds, and their words.

use std::fmt;

/// What people write and hardly mean.
#[derive(Clone, Copy, Debug, PartialEq, Eq)]
pub enum Slip {
    /// A bracket expression with bytes above 127.
    BracketOfBytes,
    /// A `.` that isn't repeated by `*`, in a script with bytes above 127.
    DotOfBytes,
    /// A `+` after what an extended expression would repeat.
    Plus,
    /// A `?` after what an extended expression would repeat.
    QuestionMark,
    /// A `|` between alternatives.
    Bar,
    /// `(` and `)` about a whole pattern, or a `)` that would be repeated.
    Parentheses,
    /// `{2}`, `{2,}` or `{2,3}`.
    Braces,
    /// `,/RE/`, whose first address is left out.
    RangeFromLineOne,
    /// The same in the list of a global command.
    ListedRangeFromLineOne,
    /// A second address that is counted on from the current line, after a `,` and a first one that isn't.
    CountedFromCurrentLine,
    /// Two numbers of lines, the greater one first.
    BackwardRange,
    /// `1i` where a global command may have deleted all lines.
    InsertBeforeNoLine,
    /// Changes that neither a file nor the output shows.
    NothingWritten,
    /// GNU's `x`.
    CutLines,
    /// What `diff` writes without options.
    NormalDiff,
    /// What `diff -u` writes.
    UnifiedDiff,
    /// What `diff -f` writes.
    ForwardDiff,
}

/// A remark, and where it belongs.
#[derive(Clone, Copy, Debug, PartialEq, Eq)]
pub struct Remarked {
    /// The line of the script on which the command begins, counted from 1.
    pub line: usize,
    pub slip: Slip,
}

impl Slip {
    /// What a person is told of it, in one line.
    pub fn words(self) -> &'static str {
        match self {
            Slip::BracketOfBytes => {
                "a bracket expression matches one byte, and a character beyond ASCII is several: write a command for each such character"
            }
            Slip::DotOfBytes => "`.` matches one byte, and a character beyond ASCII is several",
            Slip::Plus => "`+` is an ordinary byte in a pattern; one or more is `\\{1,\\}`",
            Slip::QuestionMark =>
                "`?` is an ordinary byte in a pattern; none or one is `\\{0,1\\}`",
            Slip::Bar => {
                "`|` is an ordinary byte in a pattern, and nothing there means \"or\": write a command for each alternative"
            }
            Slip::Parentheses => {
                "`(` and `)` are ordinary bytes in a pattern; a group is `\\(..\\)`"
            }
            Slip::Braces => {
                "`{` and `}` are ordinary bytes in a pattern; an interval is `\\{..\\}`"
            }
            Slip::RangeFromLineOne => {
                "`,/RE/` begins at line 1; `.,/RE/` begins at the current line"
            }
            Slip::ListedRangeFromLineOne => {
                "`,/RE/` begins at line 1, in a list too; `.,/RE/` begins at the line that `g` takes"
            }
            Slip::CountedFromCurrentLine => {
                "after a `,` the second address is counted from the current line as it was before; after a `;` from the first address"
            }
            Slip::BackwardRange => {
                "the first line of the range comes after its last one: that fails over every file"
            }
            Slip::InsertBeforeNoLine => {
                "`1i` fails where the global command before it left no line; `0a` puts the text there too"
            }
            Slip::NothingWritten => {
                "the script changes lines, and writes them neither to a file nor to standard output: `w` writes the file"
            }
            Slip::CutLines => {
                "GNU's `x` puts the lines that were cut last: `m` moves lines, and `t` copies them"
            }
            Slip::NormalDiff => {
                "this is what `diff` writes, and no script: `patch` applies it, and `diff -e` writes a script"
            }
            Slip::UnifiedDiff => {
                "this is what `diff -u` writes, and no script: `patch` applies it, and `diff -e` writes a script"
            }
            Slip::ForwardDiff => {
                "this is what `diff -f` writes, which nothing applies: `diff -e` writes a script"
            }
        }
    }
}

impl fmt::Display for Slip {
    fn fmt<W: fmt::Write>(&self, f: &mut fmt::Formatter<W>) -> fmt::Result {
        self.words().fmt(f)
    }
}
