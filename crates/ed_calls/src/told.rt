//! What the program tells beside a run's own output: at most one line or a certificate, and the status that it ends with.
ghost use Rattle.std.specs.Prelude.{◌≡◌, ◌<◌, ◌-◌, ◌^◌, ◌++◌, ℕ, List, Ok, Err, IfOk, OnOk};
ghost use Rattle.cert_check.specs.text.Faults.{IsReading};
ghost use Rattle.ed_session.specs.Sinks.{change};
ghost use Rattle.ed_calls.specs.Told.{IsUnread, Says, line_told, place_text, verdict_told, cannot_told, outside_told};

use cert_check::{CertFault, Place, Verdict};
use ed_base::{Bytes, Fault, push_number};
use ed_session::{Sink, give};
use std::alloc::{AllocError, Global};

/// The status of a start that its certificate doesn't allow.
const OUTSIDE_STATUS: u8 = 4;

/// The same where the certificate was made for the run, and nothing is told but to a person.
pub const UNFIT_STATUS: u8 = 5;

/// Where the certificate of a run comes from.
#[derive(Clone, Copy, Debug, PartialEq, Eq)]
pub enum Origin {
    /// It was given.
    Given,
    /// It was made for the run, and nobody has seen it.
    Made,
}

/// What is told, and the status that goes with it.
#[derive(Debug, PartialEq, Eq, Drop)]
pub struct Told {
    pub output: Bytes,
    pub status: u8,
}

/// Gives what is told to a sink, and says which status the program ends with. Without memory nothing is told.
pub fn tell<W: Sink>(told: Result<Told, AllocError>, sink: &mut W) -> u8
    requires count { (W.state sink.old).failures < 2 ^ 64 - 1 }
    ensures says { Says (λ one. told ≡ Ok one) (change (W.state sink.old) (W.state sink.new)) result }
{
    match told {
        Ok(told) => {
            if give(sink, told.output.as_slice()) {
                told.status
            } else {
                Fault::Output.status()
            }
        }
        Err(AllocError) => Fault::Memory.status(),
    }
}

/// A line.
fn line_told(text: Bytes, status: u8) -> Result<Told, AllocError>
    ensures value { IfOk result (λ told. told ≡ line_told text status) }
{
    let mut output = text;
    output.push(b'\n')?;
    Ok(Told { output, status })
}

fn push_place(out: &mut Bytes, place: Place) -> Result<(), AllocError>
    ensures appended { OnOk result (out.new ≡ out.old ++ place_text place) }
{
    push_number(out, place.command as u64)?;
    match place.inner {
        Some(inner) => {
            out.push(b'.')?;
            push_number(out, inner as u64)
        }
        None => Ok(()),
    }
}

fn text_told(alloc: Global, text: &[u8], status: u8) -> Result<Told, AllocError>
    ensures value { IfOk result (λ told. told ≡ line_told text.now status) }
{
    line_told(Bytes::from_slice(alloc, text)?, status)
}

/// What is told of a verdict.
pub fn verdict_told(alloc: Global, verdict: Verdict) -> Result<Told, AllocError>
    ensures value { IfOk result (λ told. told ≡ verdict_told verdict) }
{
    match verdict {
        Verdict::Accepted => text_told(alloc, b"accepted", 0),
        Verdict::Refused(place) => {
            let mut text = Bytes::from_slice(alloc, b"refused: command ")?;
            push_place(&mut text, place)?;
            line_told(text, 1)
        }
    }
}

/// What is told of a need that fails.
pub fn cannot_told(alloc: Global, place: Place, why: Fault) -> Result<Told, AllocError>
    ensures value { IfOk result (λ told. told ≡ cannot_told place why) }
{
    let mut text = Bytes::from_slice(alloc, b"cannot: command ")?;
    push_place(&mut text, place)?;
    text.extend_from_slice(b": ")?;
    text.extend_from_slice(why.text().as_bytes())?;
    line_told(text, 1)
}

/// What is told of a start that the certificate doesn't allow.
pub fn outside_told(alloc: Global) -> Result<Told, AllocError>
    ensures value { IfOk result (λ told. told ≡ outside_told) }
{
    text_told(alloc, b"start outside the certificate", OUTSIDE_STATUS)
}

/// What is told of bytes that are the text of no certificate.
pub fn unread_told(alloc: Global, fault: CertFault) -> Result<Told, AllocError>
    ensures value { IfOk result (λ told. (bytes : List ℕ) → IsReading bytes (Err fault) → IsUnread bytes told) }
{
    match fault {
        CertFault::Version => text_told(alloc, b"certificate: version", 1),
        CertFault::Line(number) => {
            let mut text = Bytes::from_slice(alloc, b"certificate: line ")?;
            push_number(&mut text, number as u64)?;
            line_told(text, 1)
        }
        CertFault::Size => text_told(alloc, b"certificate: size", 1),
        CertFault::Memory => Err(AllocError),
    }
}
