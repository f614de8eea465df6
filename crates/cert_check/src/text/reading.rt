//! Reads a certificate.

ghost use Rattle.cert_check.specs.Certificates.{certificate_value};
ghost use Rattle.std.specs.Prelude.{◌≡◌, ℕ, MatchOption, IfOk};
ghost use Rattle.cert_check.specs.text.Faults.{IsLineFault, IsReading};
ghost use Rattle.cert_check.specs.text.Pieces.{Reads, IsReadAs, rest_lines, HasTextIn};
ghost use Rattle.cert_check.specs.text.Reading.{ReadsAs};
ghost use Rattle.cert_check.specs.text.Text.{version_line};
ghost use Rattle.cert_check.specs.text.Wanted.{IsWanted};

use crate::certificate::{Certificate, Version};
use crate::text::cursor::Cursor;
use crate::text::fault::{CertFault, Unread};
use crate::text::notes::read_notes;
use crate::text::readers::{
    read_chains, read_final, read_matched, read_path, read_start, read_writes,
};
use crate::text::states::read_state;
use crate::text::wanted::{LineKind, Wanted};
use std::alloc::{AllocError, Global};

/// The version that a first line says.
fn version_in(line: &[u8]) -> Option<Version>
    ensures exact { ReadsAs version_line (λ _. Unit {0}) line.now result }
{
    if line == b"ed-certificate 1".as_slice() {
        return Some(Version::One);
    }
    if line == b"ed-certificate 2".as_slice() {
        return Some(Version::Two);
    }
    if line == b"ed-certificate 3".as_slice() {
        return Some(Version::Three);
    }
    None
}

/// A certificate of a version, from its second line to its last.
fn read_rest(
    alloc: Global,
    version: Version,
    cursor: &mut Cursor<'_>,
) -> Result<Certificate, Unread>
    ensures exact { Reads certificate_value rest_lines (HasTextIn version) cursor.old cursor.new result }
{
    let path = read_path(alloc, cursor)?;
    let (min, max) = read_start(cursor)?;
    let has = read_matched(alloc, version, LineKind::Has, cursor)?;
    let landmarks = read_chains(alloc, version, cursor)?;
    let notes = read_notes(alloc, version, cursor)?;
    let last = read_state(alloc, version, cursor)?;
    let (low, high) = read_final(cursor)?;
    let writes = read_writes(alloc, cursor)?;
    Ok(Certificate {
        version,
        path,
        min,
        max,
        has,
        landmarks,
        notes,
        last,
        low,
        high,
        writes,
    })
}

/// All of it, and nothing else.
fn read_all(alloc: Global, bytes: &[u8]) -> Result<Certificate, Unread>
    ensures exact { IsReadAs bytes.now result }
{
    let mut cursor = Cursor::new(bytes);
    let Some(line) = cursor.next() else {
        return Err(Unread::Version);
    };
    let Some(version) = version_in(line) else {
        return Err(Unread::Version);
    };
    let certificate = read_rest(alloc, version, &mut cursor)?;
    if !cursor.is_at_end() {
        return Err(Unread::Size);
    }
    Ok(certificate)
}

impl Certificate {
    /// The certificate whose text the bytes are, or why there is none: the fault of the first line that may not stand where it
    /// stands. What `write` gave is read as the same certificate. It goes through the bytes once.
    pub fn read(alloc: Global, bytes: &[u8]) -> Result<Certificate, CertFault>
        ensures exact { IsReading bytes.now result }
    {
        Ok(read_all(alloc, bytes)?)
    }
}

/// The line of a [`CertFault::Line`], and which kind of line could stand there; `None` for bytes that have no such fault. It reads
/// them once more, so it is called only where people are told of a fault.
pub fn wanted(alloc: Global, bytes: &[u8]) -> Result<Option<Wanted>, AllocError>
    ensures exact { IfOk result (λ wanted. MatchOption wanted ((number : ℕ) → IsLineFault number bytes.now → ⊥)
        (λ wanted. IsWanted wanted bytes.now)) }
{
    let Some(unread) = read_all(alloc, bytes).err() else {
        return Ok(None);
    };
    match unread {
        Unread::Version => Ok(None),
        Unread::Line(wanted) => Ok(Some(wanted)),
        Unread::Size => Ok(None),
        Unread::Memory => Err(AllocError),
    }
}
