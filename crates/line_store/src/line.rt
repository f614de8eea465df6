//! One line of the buffer.
ghost use Rattle.std.specs.Prelude.{◌≡◌, IfOk};
ghost use Rattle.ed_base.specs.Lines.{IsLine};
ghost use Rattle.ed_base.specs.Buffer.{plain_line, no_letters};

use crate::marks::LETTERS;
use crate::shared::BareLine;
use ed_base::Bytes;
use std::alloc::{AllocError, Global};
use std::marker::Model;

/// A line: any bytes but a newline, the letters that mark it, and the flag that a global command sets.
#[derive(Drop)]
pub struct Line {
    pub(crate) bare: BareLine,
    pub(crate) letters: [bool; LETTERS],
}

impl Model for Line {
    ghost use Rattle.std.specs.Prelude.{◌≡◌, length};
    ghost use Rattle.ed_base.specs.Buffer.{Line};

    ghost Value = { Line };

    ghost view = { λ l. record l.bare { letters = l.letters } };

    ghost invariant = { λ l. length l.letters ≡ 26 };
}

impl Line {
    /// The line of these bytes, without letters or flag.
    pub fn new(alloc: Global, bytes: &[u8]) -> Result<Line, AllocError>
        requires line { IsLine bytes.now }
        ensures value { IfOk result (λ line. line ≡ plain_line bytes.now) }
    {
        Line::from_bytes(alloc, Bytes::from_slice(alloc, bytes)?)
    }

    /// The line of these bytes, without letters or flag. It doesn't copy them.
    pub fn from_bytes(alloc: Global, bytes: Bytes) -> Result<Line, AllocError>
        requires line { IsLine bytes }
        ensures value { IfOk result (λ line. line ≡ plain_line bytes) }
    {
        Ok(Line::of(BareLine::new(alloc, bytes)?))
    }

    /// The line that no letter marks.
    pub(crate) fn of(bare: BareLine) -> Line
        ensures value { result ≡ record bare { letters = no_letters } }
    {
        Line {
            bare,
            letters: [false; LETTERS],
        }
    }

    /// The line without the letters that mark it, and without the flag.
    pub(crate) fn into_bare(self) -> BareLine
        ensures value { result ≡ plain_line self.bytes }
    {
        let Line {
            bare,
            letters: _letters,
        } = self;
        bare.plain()
    }

    /// Its bytes, without the newline.
    pub fn bytes(&self) -> &[u8]
        ensures value { result.now ≡ self.now.bytes }
        ensures line { IsLine result.now }
    {
        self.bare.as_slice()
    }

    /// A line of the same bytes, which both share, without letters or flag. An `Err` comes only where more lines share the bytes
    /// than can be counted.
    pub fn plain_copy(&self) -> Result<Line, AllocError>
        ensures value { IfOk result (λ copy. copy ≡ plain_line self.now.bytes) }
    {
        Ok(Line::of(self.bare.plain_copy()?))
    }

    /// The line without the letters that mark it.
    pub fn unmarked(mut self) -> Line
        ensures value { result ≡ record self { letters = no_letters } }
    {
        self.letters = [false; LETTERS];
        self
    }
}
