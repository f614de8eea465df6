//! A script's commands told one by one, each with what is known before it.
ghost use Rattle.std.specs.Prelude.{◌≡◌, ◌<◌, ◌≤◌, ◌-◌, ◌^◌, [], map, IfOk};
ghost use Rattle.cert_check.specs.Certificates.{note_value};
ghost use Rattle.ed_session.specs.Sinks.{change};
ghost use Rattle.ed_calls.specs.Explains.{Explains, ExplainsBy, IsExplained, IsExplainedBy};
ghost use Rattle.ed_calls.specs.Starts.{AreAllowed};
ghost use Rattle.ed_calls.specs.Told.{Says};

mod commands;
mod lines;
mod words;

use crate::judging::{Finding, judge};
use crate::starts::Starts;
use crate::stderr::aside::Aside;
use crate::told::{Told, tell, unread_told, verdict_told};
use crate::vouching::{CANNOT_STATUS, VOUCHED_STATUS};
use analyser::Analysis;
use cert_check::{Certificate, Note, Verdict, check};
use commands::{explain_commands, last_before};
use ed_base::{Bytes, Fault};
use ed_session::Sink;
use ed_syntax::{read_script, scripts_are_read_as_spelled};
use lines::explain_text;
use std::alloc::{AllocError, Global};

/// Tells a sink a line for each command of the script that these bytes spell, with what is known before it over the start that is given or
/// found, and gives the exit status. Where a need fails, there are lines for the last three commands before it at most, and a person is told
/// of it as `vouch_text` tells, whose status it is.
pub fn explain_script<W: Sink>(
    alloc: Global,
    script: &[u8],
    starts: Starts,
    sink: &mut W,
    aside: &mut Aside<'_>,
) -> u8
    requires count { (W.state sink.old).failures < 2 ^ 64 - 1 }
    requires allowed { AreAllowed starts }
    ensures says { Says (Explains script.now starts) (change (W.state sink.old) (W.state sink.new)) result }
    ensures status { result ≤ 4 }
{
    let (are_sought, least_sought) = (starts.are_sought(), starts.least_sought());
    let unbounded = starts.are_unbounded();
    match judge(alloc, script, &starts) {
        Ok(Finding::Unusable(place)) => {
            aside.unusable(place);
            tell(Ok(nothing_told(alloc)), sink)
        }
        Ok(Finding::Judged(one)) => {
            let status = tell(answer_told(alloc, script, &one.analysis), sink);
            match status {
                VOUCHED_STATUS if are_sought => aside.found(&one.script, &one.start, unbounded),
                CANNOT_STATUS => {
                    aside.cannot(
                        &one.start,
                        &one.analysis,
                        starts.file(),
                        least_sought,
                        false,
                    )
                }
                _ => {}
            }
            status
        }
        Err(AllocError) => Fault::Memory.status(),
    }
}

/// The same by the certificate whose text the other bytes are, if the checker accepts it for the script. Else what `check_text` tells.
pub fn explain_certificate<W: Sink>(
    alloc: Global,
    script: &[u8],
    certificate: &[u8],
    sink: &mut W,
    aside: &mut Aside<'_>,
) -> u8
    requires count { (W.state sink.old).failures < 2 ^ 64 - 1 }
    ensures says { Says (ExplainsBy script.now certificate.now) (change (W.state sink.old) (W.state sink.new)) result }
    ensures status { result ≤ 4 }
{
    tell(certificate_told(alloc, script, certificate, aside), sink)
}

/// Nothing, of a script that isn't vouched for.
fn nothing_told(alloc: Global) -> Told
    ensures value { result ≡ record { output = []; status = 1 } }
{
    Told {
        output: Bytes::new(alloc),
        status: CANNOT_STATUS,
    }
}

/// What is told by the analyser's answer.
fn answer_told(alloc: Global, script: &[u8], analysis: &Analysis) -> Result<Told, AllocError>
    ensures value { IfOk result (IsExplainedBy analysis.now) }
{
    match analysis {
        Analysis::Vouched(certificate) => notes_told(alloc, script, certificate.notes.as_slice()),
        Analysis::Cannot { place, notes, .. } => {
            let commands = explain_commands(alloc, notes.as_slice())?;
            let before = last_before(commands.as_slice(), *place);
            let output = explain_text(alloc, script, before)?;
            Ok(Told {
                output,
                status: CANNOT_STATUS,
            })
        }
    }
}

/// What is told by the notes of a certificate.
fn notes_told(alloc: Global, script: &[u8], notes: &[Note]) -> Result<Told, AllocError>
    ensures value { IfOk result (IsExplained (map note_value notes.now)) }
{
    let commands = explain_commands(alloc, notes)?;
    let output = explain_text(alloc, script, commands.as_slice())?;
    Ok(Told {
        output,
        status: VOUCHED_STATUS,
    })
}

fn certificate_told(
    alloc: Global,
    script: &[u8],
    certificate: &[u8],
    aside: &mut Aside<'_>,
) -> Result<Told, AllocError>
    ensures value { IfOk result (ExplainsBy script.now certificate.now) }
{
    scripts_are_read_as_spelled();
    match Certificate::read(alloc, certificate) {
        Ok(certificate) => {
            let read = read_script(alloc, script)?;
            let verdict = check(&read, &certificate)?;
            aside.verdict(&certificate, &verdict);
            match verdict {
                Verdict::Accepted => notes_told(alloc, script, certificate.notes.as_slice()),
                Verdict::Refused(_) => verdict_told(alloc, verdict),
            }
        }
        Err(fault) => {
            aside.unread(certificate, fault);
            unread_told(alloc, fault)
        }
    }
}
