//! The job of `explain`.
ghost use Rattle.std.specs.Prelude.{◌≡◌, ◌≢◌, Some, None, IfOk, IfErr};
ghost use Rattle.clap.specs.Words.{found_of, rows_of};
ghost use Rattle.ed_main.specs.Words as meaning;
ghost use Rattle.ed_main.specs.Words.{AreHadIn, IsAsked};
ghost use Rattle.ed_main.specs.Job.{IsGiven};

use crate::job::Job;
use crate::stderr::usage::{BESIDE_CERTIFICATE, EXPLAIN_USAGE, NO_CERTIFICATE, NO_SCRIPT};
use crate::words::starts::{states_start, wanted_in};
use crate::words::texts::{bytes_of, has_text, is_given, is_path, text_of};
use crate::words::{ANY_FILE, WordsFault};
use clap::ArgMatches;
use ed_base::Bytes;
use std::alloc::Global;

/// The job of `explain`.
pub fn explain_job(alloc: Global, given: &ArgMatches<'_>) -> Result<Job, WordsFault>
    ensures value { IfOk result (λ job. meaning.explain_job (rows_of (found_of given.now)) ≡ Some job) }
    ensures only_if_refused { IfErr result (λ fault. fault ≢ WordsFault.Memory → AreHadIn (rows_of (found_of given.now)) →
        meaning.explain_job (rows_of (found_of given.now)) ≡ None) }
    ensures unasked { IfErr result (λ fault. ¬ IsAsked fault) }
    ensures given { IfOk result IsGiven }
{
    if !is_path(text_of(given, "script")) {
        return Err(WordsFault::of(alloc, NO_SCRIPT, EXPLAIN_USAGE));
    }
    match text_of(given, "certificate") {
        Some(path) => explain_by(alloc, given, path),
        None => explain_over(alloc, given),
    }
}

/// The job with the certificate of this name.
fn explain_by(alloc: Global, given: &ArgMatches<'_>, path: &str) -> Result<Job, WordsFault>
    ensures value { IfOk result (λ job. meaning.explaining_by path.now (rows_of (found_of given.now)) ≡ Some job) }
    ensures only_if_refused { IfErr result (λ fault. fault ≢ WordsFault.Memory → AreHadIn (rows_of (found_of given.now)) →
        meaning.explaining_by path.now (rows_of (found_of given.now)) ≡ None) }
    ensures unasked { IfErr result (λ fault. ¬ IsAsked fault) }
    ensures given { IfOk result IsGiven }
{
    if !is_path(Some(path)) {
        return Err(WordsFault::of(alloc, NO_CERTIFICATE, EXPLAIN_USAGE));
    }
    if gives_start(given) {
        return Err(WordsFault::of(alloc, BESIDE_CERTIFICATE, EXPLAIN_USAGE));
    }
    Ok(Job::ExplainBy {
        certificate: Bytes::from_slice(alloc, path.as_bytes())?,
        script: bytes_of(alloc, text_of(given, "script"))?,
    })
}

/// The job with the start that is asked for.
fn explain_over(alloc: Global, given: &ArgMatches<'_>) -> Result<Job, WordsFault>
    ensures value { IfOk result (λ job. meaning.explaining None (rows_of (found_of given.now)) ≡ Some job) }
    ensures only_if_refused { IfErr result (λ fault. fault ≢ WordsFault.Memory → AreHadIn (rows_of (found_of given.now)) →
        meaning.explaining None (rows_of (found_of given.now)) ≡ None) }
    ensures unasked { IfErr result (λ fault. ¬ IsAsked fault) }
    ensures given { IfOk result IsGiven }
{
    let wanted = wanted_in(alloc, given, Some(ANY_FILE), EXPLAIN_USAGE)?;
    Ok(Job::Explain {
        wanted,
        script: bytes_of(alloc, text_of(given, "script"))?,
    })
}

/// Whether something is given of a start.
fn gives_start(given: &ArgMatches<'_>) -> bool
    ensures value { result ≡ meaning.gives_start (rows_of (found_of given.now)) }
{
    has_text(given, "like") || is_given(text_of(given, "patterns")) || states_start(given)
}
