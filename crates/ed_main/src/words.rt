//! The words that the program is given, and the job that they give.
ghost use Rattle.std.specs.Prelude.{◌≡◌, ◌≢◌, Some, None, map, string_bytes, IfOk, IfErr};
ghost use Rattle.clap.specs.Words.{found_of, rows_of, subcommand_rows_of};
ghost use Rattle.ed_main.specs.Words as meaning;
ghost use Rattle.ed_main.specs.Words.{AreHadBy, AreHadIn, IsAsked, MayAsk, MayBeHad, OnlyAsk, job_of, job_named};
ghost use Rattle.ed_main.specs.Job.{IsGiven};

mod editing;
mod explaining;
mod keeping;
mod several;
mod starts;
mod texts;

use crate::job::Job;
use crate::stderr::usage::{
    CHECK_USAGE, FITS_USAGE, NO_CERTIFICATE, NO_FILE, NO_SCRIPT, RUN_USAGE, USAGE, VOUCH_USAGE,
    refused,
};
use crate::subcommands::program;
use clap::ArgMatches;
use ed_base::Bytes;
use ed_syntax::Options;
use editing::edit_job;
use explaining::explain_job;
use keeping::writing_in;
use several::{are_paths, file_for, vouching};
use starts::wanted_in;
use std::alloc::{AllocError, AllocFailed, Global};
use texts::{bytes_of, is_given, is_path, text_of};
use thiserror::Error;

/// The name of the file that is meant where any is.
const ANY_FILE: &str = "FILE";

/// Why no job was read.
#[derive(Debug, Drop, Error)]
pub enum WordsFault {
    /// The words aren't as the program is used: what is to be shown.
    #[error("{0}")]
    Usage(String),
    /// The words ask for help or the version: what is to be shown.
    #[error("{0}")]
    Asked(String),
    /// An allocation was refused.
    #[error("out of memory")]
    Memory,
}

impl From<AllocError> for WordsFault {
    ghost use Rattle.ed_main.specs.declared.words.WordsFault.TheVariants.{Memory};

    ghost from_gives = { λ _ fault. fault ≡ Memory };

    fn from(_refusal: AllocError) -> WordsFault {
        WordsFault::Memory
    }
}

impl<T: Drop> From<AllocFailed<T>> for WordsFault {
    ghost use Rattle.ed_main.specs.declared.words.WordsFault.TheVariants.{Memory};

    ghost from_gives = { λ _ fault. fault ≡ Memory };

    fn from(_refusal: AllocFailed<T>) -> WordsFault {
        WordsFault::Memory
    }
}

impl WordsFault {
    /// What is wrong with the words, and how the program is used.
    pub fn of(alloc: Global, wrong: &str, usage: &str) -> WordsFault
        ensures unasked { ¬ IsAsked result }
    {
        match format!(in alloc; "{wrong}\n{usage}") {
            Ok(text) => WordsFault::Usage(text),
            Err(_) => WordsFault::Memory,
        }
    }
}

/// The job that these words give, of which the first is the program's own name.
pub fn read_words(alloc: Global, words: &[&str]) -> Result<Job, WordsFault>
    ensures value { IfOk result (λ job. job_of (map (λ w. w.now) words.entry.now) ≡ Some job) }

    // Words that give a job are refused only where they ask for landmarks that no file has, or by texts that spell none.
    ensures only_if_refused { IfErr result (λ fault. fault ≢ WordsFault.Memory → MayBeHad (map (λ w. w.now) words.entry.now) →
        job_of (map (λ w. w.now) words.entry.now) ≡ None) }

    // Help or the version is shown just where the words ask for it.
    ensures asked { IfErr result (λ fault. IsAsked fault → MayAsk (map (λ w. w.now) words.entry.now)) }
    ensures shown { IfErr result (λ fault. fault ≢ WordsFault.Memory →
        OnlyAsk (map (λ w. w.now) words.entry.now) → IsAsked fault) }

    ensures given { IfOk result IsGiven }
{
    match program(alloc)?.try_get_matches_from(words) {
        Ok(matches) => job_of_matches(alloc, &matches),
        Err(error) => Err(refused(alloc, &error, words)),
    }
}

/// The job that these words give, as `read_words` reads them.
pub fn job_of_words(alloc: Global, words: &[String]) -> Result<Job, WordsFault>
    ensures value { IfOk result (λ job. job_of (map (λ word. string_bytes word) words.now) ≡ Some job) }
    ensures only_if_refused { IfErr result (λ fault. fault ≢ WordsFault.Memory → MayBeHad (map (λ word. string_bytes word) words.now) →
        job_of (map (λ word. string_bytes word) words.now) ≡ None) }
    ensures asked { IfErr result (λ fault. IsAsked fault → MayAsk (map (λ word. string_bytes word) words.now)) }
    ensures shown { IfErr result (λ fault. fault ≢ WordsFault.Memory →
        OnlyAsk (map (λ word. string_bytes word) words.now) → IsAsked fault) }
    ensures given { IfOk result IsGiven }
{
    let mut texts = Vec::new(alloc);
    'words: for word in words {
        texts.push(word.as_str()).map_err(AllocError::from)?;
    }
    read_words(alloc, texts.as_slice())
}

fn job_of_matches(alloc: Global, matches: &ArgMatches<'_>) -> Result<Job, WordsFault>
    ensures value { IfOk result (λ job. job_named (subcommand_rows_of matches.now) ≡ Some job) }
    ensures only_if_refused { IfErr result (λ fault. fault ≢ WordsFault.Memory → AreHadBy (subcommand_rows_of matches.now) →
        job_named (subcommand_rows_of matches.now) ≡ None) }
    ensures unasked { IfErr result (λ fault. ¬ IsAsked fault) }
    ensures given { IfOk result IsGiven }
{
    match matches.subcommand() {
        Some((name, given)) => job_by_name(alloc, name, given),
        None => Err(WordsFault::of(alloc, "error: no subcommand", USAGE)),
    }
}

fn job_by_name(alloc: Global, name: &str, given: &ArgMatches<'_>) -> Result<Job, WordsFault>
    ensures value { IfOk result (λ job. meaning.job_by_name name.now (rows_of (found_of given.now)) ≡ Some job) }
    ensures only_if_refused { IfErr result (λ fault. fault ≢ WordsFault.Memory →
        AreHadIn (rows_of (found_of given.now)) → meaning.job_by_name name.now (rows_of (found_of given.now)) ≡ None) }
    ensures unasked { IfErr result (λ fault. ¬ IsAsked fault) }
    ensures given { IfOk result IsGiven }
{
    match name {
        "edit" => edit_job(alloc, given),
        "vouch" => vouch_job(alloc, given),
        "explain" => explain_job(alloc, given),
        "check" => check_job(alloc, given),
        "run" => run_job(alloc, given),
        "fits" => fits_job(alloc, given),
        _ => Err(WordsFault::of(alloc, "error: no subcommand", USAGE)),
    }
}

fn vouch_job(alloc: Global, given: &ArgMatches<'_>) -> Result<Job, WordsFault>
    ensures value { IfOk result (λ job. meaning.vouch_job (rows_of (found_of given.now)) ≡ Some job) }
    ensures only_if_refused { IfErr result (λ fault. fault ≢ WordsFault.Memory → AreHadIn (rows_of (found_of given.now)) →
        meaning.vouch_job (rows_of (found_of given.now)) ≡ None) }
    ensures unasked { IfErr result (λ fault. ¬ IsAsked fault) }
    ensures given { IfOk result IsGiven }
{
    match given.get_strs("script") {
        Some(scripts) => vouch_job_of(alloc, given, scripts),
        None => vouch_job_of(alloc, given, &[]),
    }
}

/// The job of `vouch` with these scripts.
fn vouch_job_of(alloc: Global, given: &ArgMatches<'_>, scripts: &[&str]) -> Result<Job, WordsFault>
    ensures value { IfOk result (λ job. meaning.vouch_job_of (rows_of (found_of given.now)) (map (λ text. text.now) scripts.now) ≡ Some job) }
    ensures only_if_refused { IfErr result (λ fault. fault ≢ WordsFault.Memory → AreHadIn (rows_of (found_of given.now)) →
        meaning.vouch_job_of (rows_of (found_of given.now)) (map (λ text. text.now) scripts.now) ≡ None) }
    ensures unasked { IfErr result (λ fault. ¬ IsAsked fault) }
    ensures given { IfOk result IsGiven }
{
    let path = text_of(given, "file");
    if !is_path(path) {
        return Err(WordsFault::of(alloc, NO_FILE, VOUCH_USAGE));
    }
    if !are_paths(scripts) {
        return Err(WordsFault::of(alloc, NO_SCRIPT, VOUCH_USAGE));
    }
    let wanted = wanted_in(alloc, given, file_for(path, scripts), VOUCH_USAGE)?;
    let all = is_given(text_of(given, "all"));
    let quiet = is_given(text_of(given, "quiet"));
    Ok(vouching(alloc, wanted, scripts, all, quiet)?)
}

fn check_job(alloc: Global, given: &ArgMatches<'_>) -> Result<Job, WordsFault>
    ensures value { IfOk result (λ job. meaning.check_job (rows_of (found_of given.now)) ≡ Some job) }
    ensures only_if_refused { IfErr result (λ fault. fault ≢ WordsFault.Memory →
        meaning.check_job (rows_of (found_of given.now)) ≡ None) }
    ensures unasked { IfErr result (λ fault. ¬ IsAsked fault) }
    ensures given { IfOk result IsGiven }
{
    let script = text_of(given, "script");
    let certificate = match text_of(given, "certificate") {
        Some(path) if is_path(Some(path)) => Bytes::from_slice(alloc, path.as_bytes())?,
        _ => return Err(WordsFault::of(alloc, NO_CERTIFICATE, CHECK_USAGE)),
    };
    if !is_path(script) {
        return Err(WordsFault::of(alloc, NO_SCRIPT, CHECK_USAGE));
    }
    Ok(Job::Check {
        certificate,
        script: bytes_of(alloc, script)?,
    })
}

fn run_job(alloc: Global, given: &ArgMatches<'_>) -> Result<Job, WordsFault>
    ensures value { IfOk result (λ job. meaning.run_job (rows_of (found_of given.now)) ≡ Some job) }
    ensures only_if_refused { IfErr result (λ fault. fault ≢ WordsFault.Memory →
        meaning.run_job (rows_of (found_of given.now)) ≡ None) }
    ensures unasked { IfErr result (λ fault. ¬ IsAsked fault) }
    ensures given { IfOk result IsGiven }
{
    let path = text_of(given, "file");
    let script = text_of(given, "script");
    let certificate = match text_of(given, "certificate") {
        Some(path) if is_path(Some(path)) => Bytes::from_slice(alloc, path.as_bytes())?,
        _ => return Err(WordsFault::of(alloc, NO_CERTIFICATE, RUN_USAGE)),
    };
    if !is_path(path) {
        return Err(WordsFault::of(alloc, NO_FILE, RUN_USAGE));
    }
    if !is_path(script) {
        return Err(WordsFault::of(alloc, NO_SCRIPT, RUN_USAGE));
    }
    let writing = writing_in(alloc, given, RUN_USAGE)?;
    let options = Options {
        silent: is_given(text_of(given, "silent")),
        prompt: None,
        path: bytes_of(alloc, path)?,
    };
    Ok(Job::Run {
        certificate,
        options,
        script: bytes_of(alloc, script)?,
        writing,
    })
}

fn fits_job(alloc: Global, given: &ArgMatches<'_>) -> Result<Job, WordsFault>
    ensures value { IfOk result (λ job. meaning.fits_job (rows_of (found_of given.now)) ≡ Some job) }
    ensures only_if_refused { IfErr result (λ fault. fault ≢ WordsFault.Memory →
        meaning.fits_job (rows_of (found_of given.now)) ≡ None) }
    ensures unasked { IfErr result (λ fault. ¬ IsAsked fault) }
    ensures given { IfOk result IsGiven }
{
    let path = text_of(given, "file");
    let certificate = match text_of(given, "certificate") {
        Some(path) if is_path(Some(path)) => Bytes::from_slice(alloc, path.as_bytes())?,
        _ => return Err(WordsFault::of(alloc, NO_CERTIFICATE, FITS_USAGE)),
    };
    if !is_path(path) {
        return Err(WordsFault::of(alloc, NO_FILE, FITS_USAGE));
    }
    Ok(Job::Fits {
        certificate,
        path: bytes_of(alloc, path)?,
    })
}
