//! A script that is run only if it is vouched for.
ghost use Rattle.std.specs.Prelude.{◌≡◌, ◌<◌, ◌≤◌, ◌-◌, ◌^◌, ◌++◌};
ghost use Rattle.ed_session.specs.Drives.{added};
ghost use Rattle.ed_session.specs.Sinks.{change};
ghost use Rattle.ed_calls.specs.Headline.{MayFail};
ghost use Rattle.ed_calls.specs.Starts.{AreAllowed};
ghost use Rattle.ed_calls.specs.Vouched.{RunsVouched};

use crate::judging::{Finding, Judged, judge};
use crate::running::run_by;
use crate::starts::Starts;
use crate::stderr::aside::Aside;
use crate::told::{Origin, cannot_told, tell};
use crate::vouching::{CANNOT_STATUS, refuse_name};
use analyser::Analysis;
use ed_base::Fault;
use ed_session::{Outside, Sink};
use ed_syntax::{Options, scripts_are_read_as_spelled};
use std::alloc::{AllocError, Global};

/// Runs the script that these bytes spell if it is vouched for, and gives the exit status. The start that it is judged over is given or
/// found, the certificate is checked, the start file is tested, and only then the script is run, as `run` does it.
///
/// Where it isn't vouched for, the need that fails is told as `vouch_text` tells it, and no file is asked for. Where the start file isn't one of
/// the certificate's nothing is told but to a person, who has no certificate, and the status is one of its own. What keeps it from being run
/// else, and where it stopped by a fault, is told as `run` tells it.
pub fn edit_vouched<O: Outside, W: Sink>(
    alloc: Global,
    script: &[u8],
    starts: Starts,
    options: Options,
    outside: &mut O,
    sink: &mut W,
    aside: &mut Aside<'_>,
) -> u8
    requires count { (W.state sink.old).failures < 2 ^ 64 - 1 }
    requires allowed { AreAllowed starts }
    ensures log { O.log outside.new ≡ O.log outside.old ++ added (O.log outside.old) (O.log outside.new) }
    ensures came { let log = added (O.log outside.old) (O.log outside.new) in
        let sink = change (W.state sink.old) (W.state sink.new) in
        RunsVouched script.now starts options log
        (MayFail options.path log (O.failures outside.old) (O.failures outside.new) sink) sink result }
    ensures status { result ≤ 5 }
{
    scripts_are_read_as_spelled();
    let (least_sought, unbounded) = (starts.least_sought(), starts.are_unbounded());
    aside.remark();
    match judge(alloc, script, &starts) {
        Ok(Finding::Unusable(place)) => refuse_name(alloc, place, sink, aside),
        Ok(
            Finding::Judged(
                Judged {
                    script: read,
                    start,
                    analysis,
                },
            ),
        ) => match &analysis {
            Analysis::Vouched(certificate) => {
                aside.to_be_run(&read, &start, unbounded);
                run_by(
                    alloc,
                    Origin::Made,
                    read,
                    certificate,
                    options,
                    outside,
                    sink,
                    aside,
                )
            }
            Analysis::Cannot { place, why, .. } => {
                let status = tell(cannot_told(alloc, *place, *why), sink);
                if status == CANNOT_STATUS {
                    aside.cannot(&start, &analysis, starts.file(), least_sought, false);
                }
                status
            }
        },
        Err(AllocError) => Fault::Memory.status(),
    }
}
