//! A script that is run only over a start that its certificate allows, and only where the checker accepts it.
ghost use Rattle.std.specs.Prelude.{◌≡◌, ◌≢◌, ◌<◌, ◌≤◌, ◌-◌, ◌^◌, ◌++◌, ◌⊎◌, ◌↔◌, IsTrue, IsFalse, None, Err, length, IfSome, IsSomeAnd, IfOk, OnErr};
ghost use Rattle.ed_syntax.specs.meaning.Laws.{starts};
ghost use Rattle.ed_syntax.specs.PublicScript.{script_value};
ghost use Rattle.ed_session.specs.Drives.{added, EndsMissing};
ghost use Rattle.ed_session.specs.Sinks.{change, Failed};
ghost use Rattle.ed_rules.specs.LineBounds.{IsWithin};
ghost use Rattle.cert_check.specs.Certificates.{certificate_value};
ghost use Rattle.cert_check.specs.checker.Beginning.{chains_of};
ghost use Rattle.cert_check.specs.checker.Sound.{IsAllowed, HaveLandmarks};
ghost use Rattle.ed_calls.specs.Headline.{Headline, MayFail};
ghost use Rattle.ed_calls.specs.Run.{CheckedRun, LiesOutside, Runs, RunsBy, reading, told_of};
ghost use Rattle.ed_calls.specs.RunOver.{RunsOver, lines_told};
ghost use Rattle.ed_calls.specs.Told.{outside_of};

use crate::placed::first_missed;
use crate::stated::unmatched;
use crate::stderr::aside::Aside;
use crate::told::{Origin, UNFIT_STATUS, outside_told, tell, unread_told, verdict_told};
use cert_check::{Certificate, Place, Verdict, check};
use ed_base::{Bytes, Fault, count_lines};
use ed_rules::LineBounds;
use ed_session::{Outside, Session, Sink, drive};
use ed_syntax::{
    Answer, Ending, Options, Script, cut_runs_write_a_front, read_script, runs_end_for_a_cause,
    scripts_are_read_as_spelled,
};
use line_store::{ChunkStore, LineStore};
use std::alloc::{AllocError, Global};

/// Runs the script that these bytes spell where its certificate, whose text the others are, allows it, and gives the exit status.
/// What keeps it from being run is told to the sink, and to a person in more words, as is where it stopped by a fault.
pub fn run<O: Outside, W: Sink>(
    alloc: Global,
    script: &[u8],
    certificate: &[u8],
    options: Options,
    outside: &mut O,
    sink: &mut W,
    aside: &mut Aside<'_>,
) -> u8
    requires count { (W.state sink.old).failures < 2 ^ 64 - 1 }
    ensures log { O.log outside.new ≡ O.log outside.old ++ added (O.log outside.old) (O.log outside.new) }
    ensures came { let log = added (O.log outside.old) (O.log outside.new) in
        let sink = change (W.state sink.old) (W.state sink.new) in
        Runs script.now certificate.now options log
        (MayFail options.path log (O.failures outside.old) (O.failures outside.new) sink) sink result }
    ensures status { result ≤ 4 }
{
    scripts_are_read_as_spelled();
    let certificate = match Certificate::read(alloc, certificate) {
        Ok(certificate) => certificate,
        Err(fault) => {
            aside.unread(certificate, fault);
            return tell(unread_told(alloc, fault), sink);
        }
    };
    let Ok(script) = read_script(alloc, script) else {
        return Fault::Memory.status();
    };
    run_by(
        alloc,
        Origin::Given,
        script,
        &certificate,
        options,
        outside,
        sink,
        aside,
    )
}

/// Runs a script where its certificate, which comes from there, allows it, tells the sink what keeps it from being run, and gives the exit
/// status.
pub(crate) fn run_by<O: Outside, W: Sink>(
    alloc: Global,
    origin: Origin,
    script: Script,
    certificate: &Certificate,
    options: Options,
    outside: &mut O,
    sink: &mut W,
    aside: &mut Aside<'_>,
) -> u8
    requires count { (W.state sink.old).failures < 2 ^ 64 - 1 }
    ensures log { O.log outside.new ≡ O.log outside.old ++ added (O.log outside.old) (O.log outside.new) }
    ensures came { let log = added (O.log outside.old) (O.log outside.new) in
        let sink = change (W.state sink.old) (W.state sink.new) in
        RunsBy origin (script_value script) (certificate_value certificate.now) options log
        (MayFail options.path log (O.failures outside.old) (O.failures outside.new) sink) sink result }
    ensures status { result ≤ (outside_of origin).status }
{
    match run_checked::<ChunkStore, O, W>(
        alloc,
        script,
        certificate,
        options,
        outside,
        sink,
        aside,
    ) {
        Ok(Ran::Refused(place)) => tell(verdict_told(alloc, Verdict::Refused(place)), sink),
        Ok(Ran::StartOutside) => match origin {
            Origin::Given => tell(outside_told(alloc), sink),
            Origin::Made => UNFIT_STATUS,
        },
        Ok(Ran::Done(_)) => 0,
        Err(fault) => fault.status(),
    }
}

/// What came of a script with its certificate.
#[derive(Clone, Copy, Debug, PartialEq, Eq)]
pub enum Ran {
    /// The checker refuses the certificate, at this place. Nothing was asked or written.
    Refused(Place),
    /// The start has another path than the certificate's, a number of lines that it doesn't allow, no line that matches a pattern which it
    /// states, or not the landmarks that it states. Nothing was written.
    StartOutside,
    /// The script was run to its end.
    Done(Ending),
}

/// Runs a script over its start file if the checker accepts its certificate, and the file is the certificate's, has as many lines as
/// that allows, a matching line for each pattern that it states, and its landmarks.
///
/// The file is read once, and the run edits the bytes that were read; with no path nothing is read, and the buffer is empty. A
/// missing file has no lines. One that is refused goes on to the run, which ends by `Fault::File`. Nothing is written before
/// the run. `Fault::Memory` may come at any point. A person is told why it isn't run, or where it stopped.
pub fn run_checked<S: LineStore, O: Outside, W: Sink>(
    alloc: Global,
    script: Script,
    certificate: &Certificate,
    options: Options,
    outside: &mut O,
    sink: &mut W,
    aside: &mut Aside<'_>,
) -> Result<Ran, Fault>
    requires count { (W.state sink.old).failures < 2 ^ 64 - 1 }

    // What was asked is added to the log.
    ensures log { O.log outside.new ≡ O.log outside.old ++ added (O.log outside.old) (O.log outside.new) }

    // It is told which of these came, and in a run each request, all output and the end are those that the script's run has.
    ensures came { CheckedRun (script_value script) (certificate_value certificate.now) options
        (added (O.log outside.old) (O.log outside.new)) (change (W.state sink.old) (W.state sink.new)) result }

    // An accepted script can't fail.
    ensures headline { let log = added (O.log outside.old) (O.log outside.new) in
        Headline (script_value script) (certificate_value certificate.now) options log
        (MayFail options.path log (O.failures outside.old) (O.failures outside.new) (change (W.state sink.old) (W.state sink.new))) result }
{
    if let Verdict::Refused(place) = check(&script, certificate)? {
        aside.verdict(certificate, &Verdict::Refused(place));
        return Ok(Ran::Refused(place));
    }
    if !is_path(&options.path, &certificate.path) {
        aside.other_path(certificate, &options.path);
        return Ok(Ran::StartOutside);
    }
    let start = read_start(&options.path, outside)?;
    let is_other = lies_outside(alloc, certificate, &options.path, &start, aside)?;
    if is_other {
        return Ok(Ran::StartOutside);
    }
    outcome(run_over::<S, O, W>(alloc, script, options, start, outside, sink, aside))
}

/// Whether a path is the one that is wanted.
pub(crate) fn is_path(path: &Option<Bytes>, wanted: &Option<Bytes>) -> bool
    ensures exact { IsTrue result ↔ (path.now ≡ wanted.now) }
{
    match (path, wanted) {
        (Some(path), Some(wanted)) => path == wanted,
        (None, None) => true,
        _ => false,
    }
}

/// The answer to the one read of the start file. Without a path nothing is asked, and there is no file.
pub(crate) fn read_start<O: Outside>(
    path: &Option<Bytes>,
    outside: &mut O,
) -> Result<Answer, AllocError>
    ensures asked { IfOk result (λ a. O.log outside.new ≡ O.log outside.old ++ reading path.now a) }
    ensures missing { path.now ≡ None → IfOk result (λ a. a ≡ Answer.Missing) }
    ensures unchanged { OnErr result (O.log outside.new ≡ O.log outside.old) }
    ensures not_done { IfOk result (λ a. a ≢ Answer.Done) }

    // The outside's count of failures doesn't fall, and rises where it refuses.
    ensures rises { O.failures outside.old ≤ O.failures outside.new }
    ensures refused { IfOk result (λ a. a ≡ Answer.Refused → O.failures outside.old < O.failures outside.new) }
{
    match path {
        Some(path) => outside.read(path.as_slice()),
        None => Ok(Answer::Missing),
    }
}

/// Whether the lines of a start aren't such as a certificate allows: they are too few or too many, a pattern that it states is matched
/// by none of them, or a landmark isn't where it should be. Those of a refused one aren't known. A person is told why.
pub(crate) fn lies_outside(
    alloc: Global,
    certificate: &Certificate,
    path: &Option<Bytes>,
    start: &Answer,
    aside: &mut Aside<'_>,
) -> Result<bool, AllocError>
    ensures outside { IfOk result (λ outside. IsTrue outside →
        LiesOutside (certificate_value certificate.now) (lines_told start.now)) }
    ensures inside { IfOk result (λ outside. IsFalse outside →
        IfSome (lines_told start.now) (IsAllowed (certificate_value certificate.now))) }
{
    if has_other_size(certificate, start) {
        aside.other_size(certificate, path, start);
        return Ok(true);
    }
    let found = unmatched(alloc, certificate, start)?;
    match found {
        Some(pattern) => {
            aside.unmatched(path, pattern);
            Ok(true)
        }
        None => misses_landmark(alloc, certificate, path, start, aside),
    }
}

/// Whether a start doesn't have the landmarks that a certificate states. A person is told which is missing.
fn misses_landmark(
    alloc: Global,
    certificate: &Certificate,
    path: &Option<Bytes>,
    start: &Answer,
    aside: &mut Aside<'_>,
) -> Result<bool, AllocError>
    ensures missed { IfOk result (λ outside. IsTrue outside →
        IsSomeAnd (lines_told start.now) (λ lines. HaveLandmarks lines (chains_of (certificate_value certificate.now)) → ⊥)) }
    ensures placed { IfOk result (λ outside. IsFalse outside →
        IfSome (lines_told start.now) (λ lines. HaveLandmarks lines (chains_of (certificate_value certificate.now)))) }
{
    let found = first_missed(alloc, certificate, start)?;
    match found {
        Some(missed) => {
            aside.missed(path, &missed);
            Ok(true)
        }
        None => Ok(false),
    }
}

/// Whether a start has too few or too many lines.
fn has_other_size(certificate: &Certificate, start: &Answer) -> bool
    ensures other { IsTrue result → IsSomeAnd (lines_told start.now) (λ lines.
        IsWithin certificate.now.min certificate.now.max (length lines) → ⊥) }
    ensures within { IsFalse result → IfSome (lines_told start.now) (λ lines.
        IsWithin certificate.now.min certificate.now.max (length lines)) }
{
    let bounds = LineBounds {
        min: certificate.min,
        max: certificate.max,
    };
    match start {
        Answer::Bytes(lines) => !bounds.has(count_lines(lines.as_slice()) as u64),
        Answer::Missing => !bounds.has(0),
        Answer::Refused | Answer::Done => false,
    }
}

/// Runs a script over its start, with the answer that was given to the start's read.
fn run_over<S: LineStore, O: Outside, W: Sink>(
    alloc: Global,
    script: Script,
    options: Options,
    start: Answer,
    outside: &mut O,
    sink: &mut W,
    aside: &mut Aside<'_>,
) -> Result<Ending, Fault>
    requires count { (W.state sink.old).failures < 2 ^ 64 - 1 }
    ensures log { O.log outside.new ≡ O.log outside.old ++ added (O.log outside.old) (O.log outside.new) }
    ensures ran { RunsOver (script_value script) options start
        (added (O.log outside.old) (O.log outside.new)) (change (W.state sink.old) (W.state sink.new)) result }
    ensures rises { O.failures outside.old ≤ O.failures outside.new }
    ensures file_refused { result ≡ Err Fault.File → IsFalse (starts start) ⊎
        ((O.failures outside.old < O.failures outside.new) ⊎ EndsMissing (added (O.log outside.old) (O.log outside.new))) }
    ensures output_refused { result ≡ Err Fault.Output → Failed (change (W.state sink.old) (W.state sink.new)) }
{
    cut_runs_write_a_front();
    runs_end_for_a_cause();
    let commands = script.commands.len();
    let mut session = Session::<S>::new(alloc, script, options)?;
    session.start(start);
    let end = drive(&mut session, outside, sink);
    aside.ended(commands, &session, &end);
    end
}

fn outcome(ended: Result<Ending, Fault>) -> Result<Ran, Fault>
    ensures value { result ≡ told_of ended }
{
    match ended {
        Ok(ending) => Ok(Ran::Done(ending)),
        Err(fault) => Err(fault),
    }
}
