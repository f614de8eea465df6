//! The certificate of a script, or the need that fails.
ghost use Rattle.std.specs.Prelude.{◌<◌, ◌≤◌, ◌-◌, ◌^◌, ℕ, List};
ghost use Rattle.analyser.specs.Analysis.{HasTextIfVouched};
ghost use Rattle.ed_session.specs.Sinks.{change};
ghost use Rattle.ed_calls.specs.Finding.{IsUnusable};
ghost use Rattle.ed_calls.specs.Starts.{AreAllowed};
ghost use Rattle.ed_calls.specs.Told.{Says};
ghost use Rattle.ed_calls.specs.Vouch.{IsToldOf, Vouches};
ghost use Rattle.ed_calls.specs.Vouched.{IsRefused};

use crate::gathered::give_certificate;
use crate::judging::{Finding, judge};
use crate::starts::Starts;
use crate::stderr::aside::Aside;
use crate::told::{cannot_told, tell};
use analyser::Analysis;
use cert_check::Place;
use ed_base::Fault;
use ed_session::Sink;
use std::alloc::{AllocError, Global};

/// The status of a script that is vouched for.
pub(crate) const VOUCHED_STATUS: u8 = 0;

/// The status of a script that isn't.
pub(crate) const CANNOT_STATUS: u8 = 1;

/// Tells a sink the certificate of the script that these bytes spell, for the start that is given or found, or the need that fails, and
/// gives the exit status. A person is told the start that was found, or where the script fails, what is known there, and what to write;
/// where `all` is true, also where it fails with that written, and so on.
pub fn vouch_text<W: Sink>(
    alloc: Global,
    script: &[u8],
    starts: Starts,
    all: bool,
    sink: &mut W,
    aside: &mut Aside<'_>,
) -> u8
    requires count { (W.state sink.old).failures < 2 ^ 64 - 1 }
    requires allowed { AreAllowed starts }
    ensures says { Says (Vouches script.now starts) (change (W.state sink.old) (W.state sink.new)) result }
    ensures status { result ≤ 4 }
{
    let (are_sought, least_sought) = (starts.are_sought(), starts.least_sought());
    let unbounded = starts.are_unbounded();
    aside.remark();
    match judge(alloc, script, &starts) {
        Ok(Finding::Unusable(place)) => refuse_name(alloc, place, sink, aside),
        Ok(Finding::Judged(one)) => {
            let status = tell_answer(alloc, &one.analysis, sink);
            match status {
                VOUCHED_STATUS if are_sought => aside.found(&one.script, &one.start, unbounded),
                CANNOT_STATUS => {
                    aside.cannot(&one.start, &one.analysis, starts.file(), least_sought, all)
                }
                _ => {}
            }
            status
        }
        Err(AllocError) => Fault::Memory.status(),
    }
}

/// Tells a sink that a command asks for a file that none can be, by the fault that a run would end with. A person is told the command.
pub(crate) fn refuse_name<W: Sink>(
    alloc: Global,
    place: Place,
    sink: &mut W,
    aside: &mut Aside<'_>,
) -> u8
    requires count { (W.state sink.old).failures < 2 ^ 64 - 1 }
    ensures says { (script : List ℕ) (starts : Starts) → IsUnusable script starts place →
        Says (IsRefused script starts) (change (W.state sink.old) (W.state sink.new)) result }
    ensures status { result ≤ 4 }
{
    aside.unusable(place);
    tell(cannot_told(alloc, place, Fault::File), sink)
}

/// Tells a sink the certificate, as its text is made, or the need that fails, and says which status goes with it.
fn tell_answer<W: Sink>(alloc: Global, analysis: &Analysis, sink: &mut W) -> u8
    requires count { (W.state sink.old).failures < 2 ^ 64 - 1 }
    requires texts { HasTextIfVouched analysis.now }
    ensures says { Says (IsToldOf analysis.now) (change (W.state sink.old) (W.state sink.new)) result }
{
    match analysis {
        Analysis::Vouched(certificate) => {
            if give_certificate(alloc, sink, certificate) {
                VOUCHED_STATUS
            } else {
                Fault::Output.status()
            }
        }
        Analysis::Cannot { place, why, .. } => tell(cannot_told(alloc, *place, *why), sink),
    }
}
