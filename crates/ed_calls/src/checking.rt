//! The check of a certificate for a script.
ghost use Rattle.std.specs.Prelude.{◌≡◌, ◌<◌, ◌≤◌, ◌-◌, ◌^◌, IfOk};
ghost use Rattle.ed_session.specs.Sinks.{change};
ghost use Rattle.ed_calls.specs.Check.{Checks};
ghost use Rattle.ed_calls.specs.Told.{Says};

use crate::stderr::aside::Aside;
use crate::told::{Told, tell, unread_told, verdict_told};
use cert_check::{Certificate, check};
use ed_session::Sink;
use ed_syntax::{read_script, scripts_are_read_as_spelled};
use std::alloc::{AllocError, Global};

/// Tells a sink whether these bytes are the text of a certificate that the checker accepts for the script that the others spell,
/// and gives the exit status. A person is told why they aren't.
pub fn check_text<W: Sink>(
    alloc: Global,
    script: &[u8],
    certificate: &[u8],
    sink: &mut W,
    aside: &mut Aside<'_>,
) -> u8
    requires count { (W.state sink.old).failures < 2 ^ 64 - 1 }
    ensures says { Says (Checks script.now certificate.now) (change (W.state sink.old) (W.state sink.new)) result }
    ensures status { result ≤ 4 }
{
    tell(checked(alloc, script, certificate, aside), sink)
}

fn checked(
    alloc: Global,
    script: &[u8],
    certificate: &[u8],
    aside: &mut Aside<'_>,
) -> Result<Told, AllocError>
    ensures value { IfOk result (Checks script.now certificate.now) }
{
    scripts_are_read_as_spelled();
    match Certificate::read(alloc, certificate) {
        Ok(certificate) => {
            let script = read_script(alloc, script)?;
            let verdict = check(&script, &certificate)?;
            aside.verdict(&certificate, &verdict);
            verdict_told(alloc, verdict)
        }
        Err(fault) => {
            aside.unread(certificate, fault);
            unread_told(alloc, fault)
        }
    }
}
