//! Hints and remarks.

ghost use Rattle.std.specs.Prelude.{◌≡◌};
ghost use Rattle.std.specs.String.{string_bytes};

use analyser::Start;
use ed_base::Bytes;

/// What a hint advises.
#[derive(Clone, Copy, Debug, PartialEq, Eq)]
pub enum Advice {
    /// To write the command as a `g`.
    Global,
    /// To ask for more lines at least, by `--min`, maybe with patterns to state too.
    AtLeast,
    /// To ask for fewer lines at most, by `--max`.
    AtMost,
    /// To state by `--has` that some line matches a pattern.
    State,
    /// To state by `--at` which lines the start has.
    Landmark,
    /// To write the changes before they would be lost.
    Save,
    /// To close the text of a command by its `.`.
    Period,
    /// To spell in POSIX what GNU's `ed` or `ex` spells otherwise.
    Spelling,
    /// To leave out a line that is no command, or goes on to the next line.
    LeaveOut,
    /// To begin the second search where the first one has ended, by a `;`.
    Semicolon,
}

/// Which commands a hint changes: after those that are the same in both scripts, it takes some away and has others in their stead.
#[derive(Clone, Copy, Debug, PartialEq, Eq)]
pub struct Change {
    /// How many commands in front are the same.
    pub kept: usize,
    /// How many after them are taken away.
    pub removed: usize,
    /// How many stand in their stead; where the first script can't be read at the place, or the place is its end, all that follow.
    pub written: usize,
}

/// What to write where a script isn't vouched for: a script, mostly with another command, or a start with other bounds or with
/// more patterns that some line matches, or landmarks. It is made only where that was tried.
#[derive(Debug, Drop)]
pub struct Hint {
    pub(crate) advice: Advice,
    pub(crate) line: usize,
    pub(crate) text: String,
    pub(crate) script: Bytes,
    pub(crate) start: Start,
    /// How many commands of its script are got past, of which the first stands at the place: those that come in the place of one, or none
    /// where a line is left out, or where only its spelling is mended.
    pub(crate) past: usize,
    pub(crate) change: Change,
}

impl Hint {
    /// What it advises.
    pub fn advice(&self) -> Advice
        ensures value { result ≡ self.now.advice }
    {
        self.advice
    }

    /// The line of the script that it is about, counted from 1.
    pub fn line(&self) -> usize
        ensures value { result ≡ self.now.line }
    {
        self.line
    }

    /// What it tells a person, in one line.
    pub fn text(&self) -> &str
        ensures value { result.now ≡ string_bytes self.now.text }
    {
        self.text.as_str()
    }

    /// The script as it reads by this hint.
    pub fn script(&self) -> &Bytes
        ensures value { result.now ≡ self.now.script }
    {
        &self.script
    }

    /// The start by this hint.
    pub fn start(&self) -> &Start
        ensures value { result.now ≡ self.now.start }
    {
        &self.start
    }

    /// Which commands of the script it changes.
    pub fn change(&self) -> Change
        ensures value { result ≡ self.now.change }
    {
        self.change
    }
}

/// What is told beside hints. It claims nothing.
#[derive(Debug, Drop)]
pub struct Remark {
    pub(crate) line: usize,
    pub(crate) text: String,
}

impl Remark {
    /// The line of the script that it is about, counted from 1.
    pub fn line(&self) -> usize
        ensures value { result ≡ self.now.line }
    {
        self.line
    }

    /// What it tells a person, in one line.
    pub fn text(&self) -> &str
        ensures value { result.now ≡ string_bytes self.now.text }
    {
        self.text.as_str()
    }
}
