//! The job of `edit`.
ghost use Rattle.std.specs.Prelude.{◌≡◌, ◌≢◌, true, Some, None, map, option_map, IfErr, IfOk, IfSome};
ghost use Rattle.clap.specs.Words.{found_of, rows_of};
ghost use Rattle.ed_main.specs.Chains.{AreHad};
ghost use Rattle.ed_main.specs.Words as meaning;
ghost use Rattle.ed_main.specs.Words.{AreHadIn, IsAsked};
ghost use Rattle.ed_main.specs.Job.{IsGiven};
ghost use Rattle.ed_main.specs.Wanted.{IsWanted};

use crate::any_start::any_start;
use crate::chains::Chains;
use crate::job::Job;
use crate::stderr::usage::{
    AT_ALONE, AT_UNVOUCHED, EDIT_USAGE, LIKE_BESIDE_AT, LIKE_UNVOUCHED, NO_FILE, NO_SCRIPT,
};
use crate::wanted::Wanted;
use crate::words::WordsFault;
use crate::words::keeping::writing_in;
use crate::words::starts::wrong_proposal;
use crate::words::texts::{bytes_of, is_given, is_path, is_prompt, may_judge, text_of};
use clap::ArgMatches;
use ed_base::Bytes;
use ed_syntax::Options;
use std::alloc::Global;

pub fn edit_job(alloc: Global, given: &ArgMatches<'_>) -> Result<Job, WordsFault>
    ensures value { IfOk result (λ job. meaning.edit_job (rows_of (found_of given.now)) ≡ Some job) }
    ensures only_if_refused { IfErr result (λ fault. fault ≢ WordsFault.Memory → AreHadIn (rows_of (found_of given.now)) →
        meaning.edit_job (rows_of (found_of given.now)) ≡ None) }
    ensures unasked { IfErr result (λ fault. ¬ IsAsked fault) }
    ensures given { IfOk result IsGiven }
{
    let prompt = text_of(given, "prompt");
    let path = text_of(given, "file");
    let script = text_of(given, "script");
    if !is_prompt(prompt) {
        let wrong = "error: a prompt that begins with a hyphen";
        return Err(WordsFault::of(alloc, wrong, EDIT_USAGE));
    }
    if !is_path(path) {
        return Err(WordsFault::of(alloc, NO_FILE, EDIT_USAGE));
    }
    if !is_path(script) {
        return Err(WordsFault::of(alloc, NO_SCRIPT, EDIT_USAGE));
    }
    let judged = judged_in(alloc, given, path)?;
    let writing = writing_in(alloc, given, EDIT_USAGE)?;
    let options = Options {
        silent: is_given(text_of(given, "silent")),
        prompt: bytes_of(alloc, prompt)?,
        path: bytes_of(alloc, path)?,
    };
    Ok(Job::Edit {
        options,
        script: bytes_of(alloc, script)?,
        writing,
        judged,
    })
}

/// The start over which a script is judged on the file at this path, where that is asked for.
fn judged_in(
    alloc: Global,
    given: &ArgMatches<'_>,
    path: Option<&str>,
) -> Result<Option<Wanted>, WordsFault>
    requires named { meaning.is_path (option_map (λ text. text.now) path) ≡ true }
    ensures value { IfOk result (λ judged. meaning.judged_in (option_map (λ text. text.now) path.entry) (rows_of (found_of given.now)) ≡ Some judged) }
    ensures only_if_refused { IfErr result (λ fault. fault ≢ WordsFault.Memory → AreHadIn (rows_of (found_of given.now)) →
        meaning.judged_in (option_map (λ text. text.now) path.entry) (rows_of (found_of given.now)) ≡ None) }
    ensures unasked { IfErr result (λ fault. ¬ IsAsked fault) }
    ensures given { IfOk result (λ judged. IfSome judged IsWanted) }
{
    match given.get_strs("at") {
        Some(at) => judged_with(alloc, given, path, at),
        None => judged_with(alloc, given, path, &[]),
    }
}

/// The same with these landmarks.
fn judged_with(
    alloc: Global,
    given: &ArgMatches<'_>,
    path: Option<&str>,
    at: &[&str],
) -> Result<Option<Wanted>, WordsFault>
    requires named { meaning.is_path (option_map (λ text. text.now) path) ≡ true }
    ensures value { IfOk result (λ judged. meaning.judged_with (option_map (λ text. text.now) path.entry) (map (λ text. text.now) at.now) (rows_of (found_of given.now)) ≡ Some judged) }
    ensures only_if_refused { IfErr result (λ fault. fault ≢ WordsFault.Memory → AreHad None (map (λ text. text.now) at.now) →
        meaning.judged_with (option_map (λ text. text.now) path.entry) (map (λ text. text.now) at.now) (rows_of (found_of given.now)) ≡ None) }
    ensures unasked { IfErr result (λ fault. ¬ IsAsked fault) }
    ensures given { IfOk result (λ judged. IfSome judged IsWanted) }
{
    let vouched = is_given(text_of(given, "vouched"));
    let like = text_of(given, "like");
    if !may_judge(vouched, path, like, at) {
        let wrong = wrong_judgement(vouched, path, at);
        return Err(WordsFault::of(alloc, wrong, EDIT_USAGE));
    }
    judged_if(alloc, vouched, path, like, at)
}

/// What is wrong where landmarks may not be given of a start, or no file to propose it from.
fn wrong_judgement(vouched: bool, path: Option<&str>, at: &[&str]) -> &'static str {
    if at.is_empty() {
        wrong_proposal(vouched, LIKE_UNVOUCHED, path)
    } else if !vouched {
        AT_UNVOUCHED
    } else if path.is_none() {
        AT_ALONE
    } else {
        LIKE_BESIDE_AT
    }
}

/// The start over which a script is judged on the file at this path, if it is: any with it and these landmarks, or one that is proposed from
/// another file.
fn judged_if(
    alloc: Global,
    vouched: bool,
    path: Option<&str>,
    like: Option<&str>,
    at: &[&str],
) -> Result<Option<Wanted>, WordsFault>
    requires named { meaning.is_path (option_map (λ text. text.now) path) ≡ true }
    ensures value { IfOk result (λ judged. judged ≡ meaning.judged_if vouched (option_map (λ text. text.now) path.entry) (option_map (λ text. text.now) like.entry) (map (λ text. text.now) at.now)) }
    ensures only_if_refused { IfErr result (λ fault. fault ≢ WordsFault.Memory → ¬ AreHad None (map (λ text. text.now) at.now)) }
    ensures unasked { IfErr result (λ fault. ¬ IsAsked fault) }
    ensures given { IfOk result (λ judged. IfSome judged IsWanted) }
{
    if !vouched {
        return Ok(None);
    }
    let path = bytes_of(alloc, path)?;
    match like {
        Some(like) => Ok(Some(Wanted::Like {
            path,
            patterns: true,
            like: Bytes::from_slice(alloc, like.as_bytes())?,
        })),
        None => {
            let at = Chains::read(alloc, at, None, EDIT_USAGE)?;
            Ok(Some(Wanted::Stated(any_start(path, None), at)))
        }
    }
}
