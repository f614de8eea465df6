//! Where a reader of a certificate stands.

ghost use Rattle.std.specs.Prelude.{◌≡◌, ◌↔◌, [], Ok, Err, IsTrue, MatchOption, IfOk, IfErr};
ghost use Rattle.ed_base.specs.Lines.{IsLine};
ghost use Rattle.cert_check.specs.declared.text.fault.Unread.TheVariants.{Line, Size};
ghost use Rattle.ed_rules.specs.Formed.{ZoneIsFormed};
ghost use Rattle.cert_check.specs.text.Text.{zone_line};
ghost use Rattle.cert_check.specs.text.Reading.{ReadsAs, all_marks};
ghost use Rattle.cert_check.specs.text.Pieces.{IsNext};

use crate::text::fault::Unread;
use crate::text::said_zones::SaidZones;
use crate::text::wanted::{LineKind, Wanted};
use crate::text::zone_lines::zone_in;
use memchr::memchr;
use std::alloc::{AllocError, Global};
use std::marker::Model;
use zones::KeptZone;

/// What may follow the state of a note: another note, what is known of its list, or the end.
#[derive(Clone, Copy, PartialEq, Eq, Debug)]
pub(crate) enum Head {
    AnotherNote,
    Loop,
    End,
}

/// The bytes that are left to read, which begin with a line.
#[derive(Drop)]
pub(crate) struct Cursor<'a> {
    rest: &'a [u8],
    // How many lines were read.
    above: usize,
    zones: SaidZones<'a>,
}

impl<'a> Model for Cursor<'a> {
    ghost use Rattle.std.specs.Prelude.{◌+◌, ◌<◌, ◌^◌, length};
    ghost use Rattle.cert_check.specs.text.Pieces.{Left};

    ghost Value = { Left };

    ghost view = { λ c. record { bytes = c.rest.now; above = c.above } };

    ghost invariant = { λ c. c.above + length c.rest.now < 2 ^ 64 };
}

impl<'a> Cursor<'a> {
    pub(crate) fn new(bytes: &'a [u8]) -> Self
        ensures bytes { result.bytes ≡ bytes.now }
        ensures above { result.above ≡ 0 }
    {
        Cursor {
            rest: bytes,
            above: 0,
            zones: SaidZones::none(),
        }
    }

    /// Whether all is read.
    pub(crate) fn is_at_end(&self) -> bool
        ensures value { IsTrue result ↔ (self.now.bytes ≡ []) }
    {
        self.rest.is_empty()
    }

    /// The next line, without its newline, where it has one.
    pub(crate) fn next(&mut self) -> Option<&'a [u8]>
        ensures exact { MatchOption result (IsLine self.old.bytes) (λ line. IsNext line.now self.old self.new) }
    {
        let end = memchr(b'\n', self.rest)?;
        let line = &self.rest[..end];
        self.rest = &self.rest[end + 1..];
        self.above += 1;
        Some(line)
    }

    /// The next line; where there is none, the bytes are too short.
    pub(crate) fn line(&mut self) -> Result<&'a [u8], Unread>
        ensures next { IfOk result (λ line. IsNext line.now self.old self.new) }
        ensures none { IfErr result (λ unread. (unread ≡ Size) × IsLine self.old.bytes) }
    {
        self.next().ok_or(Unread::Size)
    }

    /// The zone of a line that was read, whatever letters it speaks of.
    pub(crate) fn zone_in(
        &mut self,
        alloc: Global,
        key: &[u8],
        line: &'a [u8],
    ) -> Result<Option<KeptZone>, AllocError>
        ensures exact { IfOk result (λ zone. ReadsAs (zone_line key.now) (ZoneIsFormed all_marks) line.now zone) }
        ensures same { self.new ≡ self.old }
    {
        zone_in(alloc, key, line, &mut self.zones)
    }

    /// What the last line was read as. One that was read as nothing isn't of the kind that is wanted there.
    pub(crate) fn read_as<T>(&self, kind: LineKind, read: Option<T>) -> Result<T, Unread>
        ensures exact { MatchOption read (result ≡ Err (Line (record { line = self.now.above; kind = kind })))
            (λ value. result ≡ Ok value) }
    {
        match read {
            Some(value) => Ok(value),
            None => Err(Unread::Line(Wanted {
                line: self.above,
                kind,
            })),
        }
    }
}
