//! What may help where a need fails, before it is tried, and the spot where it fails.

ghost use Rattle.std.specs.Prelude.{◌≡◌, Some};

use crate::bytes::{before, from, joined, replaced};
use crate::following::{on_text, other_text};
use crate::globals::{Reach, global_of};
use crate::hint::Advice;
use crate::numbering::Numbering;
use crate::patterns::addresses_len;
use crate::words::quoted;
use cert_check::Place;
use ed_base::Bytes;
use ed_syntax::{Script, Span, read_script};
use std::alloc::{AllocError, Global};

/// A script that may get past a place. It isn't tried yet.
#[derive(Drop)]
pub(crate) struct Draft {
    pub advice: Advice,
    pub text: String,
    /// None where nobody knows what to write: then the text is a remark.
    pub script: Option<Bytes>,
    /// How many commands it takes away at the place, and how many it has in their stead.
    pub removed: usize,
    pub written: usize,
    /// How many commands from the place on it has to get past.
    pub past: usize,
}

/// A draft with this script, which has so many commands in the stead of so many others, and has to get past all of them.
pub(crate) fn drafted(
    advice: Advice,
    text: String,
    script: Bytes,
    removed: usize,
    written: usize,
) -> Draft
    ensures script { (result.script ≡ Some script) × (result.past ≡ written) }
{
    Draft {
        advice,
        text,
        script: Some(script),
        removed,
        written,
        past: written,
    }
}

/// Where a need fails, and what a rewriting asks about it.
#[derive(Drop)]
pub(crate) struct Spot<'a> {
    pub alloc: Global,
    pub script: &'a [u8],
    /// The commands of the script, and where each of them stands.
    pub read: &'a Script,
    pub spans: &'a [Span],
    pub place: Place,
    /// Where the command stands at the place: only its line where it can't be read, no bytes at the end.
    pub span: Span,
    /// The bytes there without the newline after them, and without a colon in front where they can't be read.
    pub command: &'a [u8],
    /// The lines that a global command takes in the stead of the command, where it is known that its search comes to these alone.
    pub reach: Option<Reach>,
    /// The path of the start.
    pub path: Option<&'a [u8]>,
    /// The numbers of the lines in the script that was given.
    pub numbering: &'a Numbering,
}

/// Whether a rewriting applies at a spot. If so, it has put its drafts after the others.
pub(crate) type Applies = Result<bool, AllocError>;

impl Spot<'_> {
    /// The script with these bytes in the place of the command.
    pub fn with(&self, bytes: &[u8]) -> Result<Bytes, AllocError> {
        replaced(
            self.alloc,
            self.script,
            self.span.low,
            self.span.high,
            bytes,
        )
    }

    /// The numbers that the lines of a script, which has others in the place of the command, have in the one that was given.
    pub fn numbering_of(&self, new: &[u8]) -> Result<Numbering, AllocError> {
        self.numbering
            .changed(self.alloc, self.script, new, self.span.line, false)
    }

    /// The addresses of the command, with the blanks after them, and what comes then.
    pub fn parts(&self) -> Result<(&[u8], &[u8]), AllocError> {
        let len = addresses_len(self.alloc, self.command)?;
        Ok((before(self.command, len), from(self.command, len)))
    }

    /// Puts in a draft with this script, which has so many commands in the stead of so many others.
    pub fn push(
        &self,
        drafts: &mut Vec<Draft>,
        advice: Advice,
        text: &str,
        script: Bytes,
        removed: usize,
        written: usize,
    ) -> Applies {
        let text = String::from_str(self.alloc, text)?;
        drafts.push(drafted(advice, text, script, removed, written))?;
        Ok(true)
    }

    /// Puts in a remark, which has no script.
    pub fn remark(&self, drafts: &mut Vec<Draft>, text: &str) -> Applies {
        drafts.push(Draft {
            advice: Advice::Spelling,
            text: String::from_str(self.alloc, text)?,
            script: None,
            removed: 0,
            written: 0,
            past: 0,
        })?;
        Ok(true)
    }

    /// Puts in a line in the place of the command. Where that gets past too little, a second draft has it as a global command.
    pub fn push_line(&self, drafts: &mut Vec<Draft>, text: &str, line: &[u8]) -> Applies {
        let (alloc, number) = (self.alloc, self.place.command);
        let mended = self.with(joined(alloc, &[line, b"\n"])?.as_slice())?;
        self.push(drafts, Advice::Spelling, text, mended, 1, 1)?;
        let Some(global) = global_of(alloc, line, Reach::All, false)? else {
            return Ok(true);
        };
        let shown = quoted(alloc, global.as_slice())?;
        let other = self.with(joined(alloc, &[global.as_slice(), b"\n"])?.as_slice())?;
        let read = read_script(alloc, other.as_slice())?;
        let on = on_text(&read, number, 1, self.path);
        let lines = self.numbering_of(other.as_slice())?;
        let later = other_text(alloc, other.as_slice(), &read, &lines, number, true, true)?;
        let both = format!(in alloc;
            "{text}; {shown} can't fail: it changes every line that matches, none if none does{on}{later}"
        )?;
        self.push(drafts, Advice::Spelling, both.as_str(), other, 1, 1)
    }

    /// Puts in a line in the place of the command, where POSIX spells by these bytes what is foreign to it.
    pub fn push_spelled(
        &self,
        drafts: &mut Vec<Draft>,
        foreign: &str,
        posix: &[u8],
        line: &[u8],
    ) -> Applies {
        let shown = quoted(self.alloc, posix)?;
        let text = format!(in self.alloc; "POSIX has no {foreign}: write {shown}")?;
        self.push_line(drafts, text.as_str(), line)
    }
}
