//! When the writes of a run are to be made, and what is kept of the files, as the words of `edit` and `run` have it.
ghost use Rattle.std.specs.Prelude.{◌≡◌, ◌≢◌, Some, None, option_map, IfErr, IfOk};
ghost use Rattle.clap.specs.Words.{found_of, rows_of};
ghost use Rattle.ed_main.specs.Words as meaning;
ghost use Rattle.ed_main.specs.Words.{IsAsked};

use crate::stderr::usage::{BACKUP_ALONE, DIFF_ALONE, NO_SUFFIX};
use crate::suffix::Suffix;
use crate::words::WordsFault;
use crate::words::texts::{is_given, text_of};
use crate::writing::Writing;
use clap::ArgMatches;
use std::alloc::{AllocError, Global};

/// When the writes of a run are to be made, by the words of a subcommand that is used so.
pub fn writing_in(alloc: Global, given: &ArgMatches<'_>, usage: &str) -> Result<Writing, WordsFault>
    ensures value { IfOk result (λ writing. meaning.writing_in (rows_of (found_of given.now)) ≡ Some writing) }
    ensures only_if_refused { IfErr result (λ fault. fault ≢ WordsFault.Memory →
        meaning.writing_in (rows_of (found_of given.now)) ≡ None) }
    ensures unasked { IfErr result (λ fault. ¬ IsAsked fault) }
{
    let rehearsed = is_given(text_of(given, "rehearsed"));
    let whole = is_given(text_of(given, "whole"));
    let spares = is_given(text_of(given, "unchanged"));
    let shows = is_given(text_of(given, "diff"));
    let suffix = text_of(given, "backup");
    if !may_show(rehearsed, shows) {
        return Err(WordsFault::of(alloc, DIFF_ALONE, usage));
    }
    if !may_keep(whole, suffix) {
        let wrong = if whole { NO_SUFFIX } else { BACKUP_ALONE };
        return Err(WordsFault::of(alloc, wrong, usage));
    }
    let suffix = suffix_of(alloc, suffix)?;
    Ok(Writing::of(rehearsed, whole, spares, shows, suffix))
}

/// Whether what would change may be shown, if that is asked for: where a run is rehearsed.
fn may_show(rehearsed: bool, shows: bool) -> bool
    ensures value { result ≡ meaning.may_show rehearsed shows }
{
    rehearsed || !shows
}

/// Whether old files may be kept, if a suffix is given for them: where files are replaced whole, by one that leads to a name beside theirs.
fn may_keep(whole: bool, suffix: Option<&str>) -> bool
    ensures value { result ≡ meaning.may_keep whole (option_map (λ text. text.now) suffix.entry) }
{
    match suffix {
        Some(suffix) => whole && is_suffix(suffix),
        None => true,
    }
}

fn is_suffix(text: &str) -> bool
    ensures value { result ≡ meaning.is_suffix text.now }
{
    !text.is_empty() && !text.as_bytes().contains(&b'/')
}

fn suffix_of(alloc: Global, text: Option<&str>) -> Result<Option<Suffix>, AllocError>
    ensures value { IfOk result (λ suffix. suffix ≡ option_map (λ text. text.now) text.entry) }
{
    match text {
        Some(text) => Ok(Some(Suffix::of(alloc, text)?)),
        None => Ok(None),
    }
}
