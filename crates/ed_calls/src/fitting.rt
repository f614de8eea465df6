//! Whether a start is one that a certificate allows, by the test that a run makes.
ghost use Rattle.std.specs.Prelude.{◌≡◌, ◌<◌, ◌≤◌, ◌-◌, ◌^◌, ◌++◌, IfOk, OnErr};
ghost use Rattle.ed_session.specs.Drives.{added};
ghost use Rattle.ed_session.specs.Sinks.{change};
ghost use Rattle.cert_check.specs.Certificates.{certificate_value};
ghost use Rattle.ed_calls.specs.Fits.{Fits, status_of_lines};
ghost use Rattle.ed_calls.specs.RunOver.{lines_told};
ghost use Rattle.ed_calls.specs.StartTest.{IsTested, IsUntested};

use crate::running::{is_path, lies_outside, read_start};
use crate::stderr::aside::Aside;
use crate::told::{outside_told, tell, unread_told};
use cert_check::Certificate;
use ed_base::{Bytes, Fault};
use ed_session::{Outside, Sink};
use ed_syntax::Answer;
use std::alloc::{AllocError, Global};

/// Tells a sink where the start at a path isn't one that the certificate allows whose text the bytes are, and gives the exit status.
/// Of a start that is one nothing is told. A person is told why it isn't.
pub fn fit<O: Outside, W: Sink>(
    alloc: Global,
    certificate: &[u8],
    path: &Option<Bytes>,
    outside: &mut O,
    sink: &mut W,
    aside: &mut Aside<'_>,
) -> u8
    requires count { (W.state sink.old).failures < 2 ^ 64 - 1 }
    ensures log { O.log outside.new ≡ O.log outside.old ++ added (O.log outside.old) (O.log outside.new) }
    ensures came { Fits certificate.now path.now (added (O.log outside.old) (O.log outside.new))
        (change (W.state sink.old) (W.state sink.new)) result }
    ensures status { result ≤ 4 }
{
    let certificate = match Certificate::read(alloc, certificate) {
        Ok(certificate) => certificate,
        Err(fault) => {
            aside.unread(certificate, fault);
            return tell(unread_told(alloc, fault), sink);
        }
    };
    match allowed_start(alloc, &certificate, path, outside, aside) {
        Ok(Some(start)) => status_of_start(&start),
        Ok(None) => tell(outside_told(alloc), sink),
        Err(AllocError) => Fault::Memory.status(),
    }
}

/// The answer to the read of a start that the certificate allows.
fn allowed_start<O: Outside>(
    alloc: Global,
    certificate: &Certificate,
    path: &Option<Bytes>,
    outside: &mut O,
    aside: &mut Aside<'_>,
) -> Result<Option<Answer>, AllocError>
    ensures log { O.log outside.new ≡ O.log outside.old ++ added (O.log outside.old) (O.log outside.new) }
    ensures tested { IfOk result (IsTested (certificate_value certificate.now) path.now
        (added (O.log outside.old) (O.log outside.new))) }
    ensures untested { OnErr result (IsUntested (certificate_value certificate.now) path.now
        (added (O.log outside.old) (O.log outside.new))) }
{
    if !is_path(path, &certificate.path) {
        aside.other_path(certificate, path);
        return Ok(None);
    }
    let start = read_start(path, outside)?;
    let is_other = lies_outside(alloc, certificate, path, &start, aside)?;
    if is_other {
        return Ok(None);
    }
    Ok(Some(start))
}

/// The status of a start that isn't known to lie outside: it may have been refused.
fn status_of_start(start: &Answer) -> u8
    ensures value { result ≡ status_of_lines (lines_told start.now) }
    ensures status { result ≤ 4 }
{
    match start {
        Answer::Bytes(_) | Answer::Missing => 0,
        Answer::Refused | Answer::Done => Fault::File.status(),
    }
}
