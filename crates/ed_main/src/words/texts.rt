//! What the text of an argument is: whether it may be a prompt or a name, and its bytes.
ghost use Rattle.std.specs.Prelude.{◌≡◌, is_some, map, IfOk, option_map};
ghost use Rattle.clap.specs.Words.{found_of, first_of, rows_of};
ghost use Rattle.ed_main.specs.Words as meaning;

use clap::ArgMatches;
use ed_base::Bytes;
use std::alloc::{AllocError, Global};

/// The first value of an argument.
pub fn text_of<'a>(given: &ArgMatches<'a>, id: &str) -> Option<&'a str>
    ensures value { option_map (λ text. text.now) result ≡ first_of id.now (rows_of (found_of given.now)) }
{
    given.get_str(id)
}

/// Whether an argument is given.
pub fn has_text(given: &ArgMatches<'_>, id: &str) -> bool
    ensures value { result ≡ is_some (first_of id.now (rows_of (found_of given.now))) }
{
    match text_of(given, id) {
        Some(_) => true,
        None => false,
    }
}

pub fn is_prompt(text: Option<&str>) -> bool
    ensures value { result ≡ meaning.is_prompt (option_map (λ text. text.now) text.entry) }
{
    match text {
        Some(text) => !matches!(text.as_bytes(), [b'-', ..]),
        None => true,
    }
}

pub fn is_path(text: Option<&str>) -> bool
    ensures value { result ≡ meaning.is_path (option_map (λ text. text.now) text.entry) }
{
    match text {
        Some(text) => !matches!(text.as_bytes(), [] | [b'-']),
        None => true,
    }
}

/// Whether a start may be proposed from a file, if one is named for that: where it is sought, for a file that is named.
pub fn may_propose(sought: bool, path: Option<&str>, like: Option<&str>) -> bool
    ensures value { result ≡ meaning.may_propose sought (option_map (λ text. text.now) path.entry) (option_map (λ text. text.now) like.entry) }
{
    match (like, path) {
        (Some(_), Some(_)) => sought && is_path(like),
        (Some(_), None) => false,
        (None, _) => true,
    }
}

/// Whether landmarks may be given of the file at this path, if some are: where there is one.
pub fn may_have(path: Option<&str>, chains: &[&str]) -> bool
    ensures value { result ≡ meaning.may_have (option_map (λ text. text.now) path.entry) (map (λ text. text.now) chains.now) }
{
    match chains {
        [] => true,
        _ => path.is_some(),
    }
}

/// Whether patterns may be given that some line of the file at this path matches, if some are: where there is one, and it may have a line.
pub fn may_match(path: Option<&str>, most: Option<Option<u64>>, patterns: &[&str]) -> bool
    ensures value { result ≡ meaning.may_match (option_map (λ text. text.now) path.entry) most (map (λ text. text.now) patterns.now) }
{
    match patterns {
        [] => true,
        _ => path.is_some() && has_room(most),
    }
}

/// Whether this limit leaves room for a line.
fn has_room(most: Option<Option<u64>>) -> bool
    ensures value { result ≡ meaning.has_room most }
{
    match most {
        Some(Some(most)) => most > 0,
        _ => true,
    }
}

/// Whether these may be given of a start over which `edit` judges a script, if it is asked to: a file that it is proposed from, or landmarks.
pub fn may_judge(vouched: bool, path: Option<&str>, like: Option<&str>, chains: &[&str]) -> bool
    ensures value { result ≡ meaning.may_judge vouched (option_map (λ text. text.now) path.entry) (option_map (λ text. text.now) like.entry) (map (λ text. text.now) chains.now) }
{
    match chains {
        [] => may_propose(vouched, path, like),
        _ => vouched && path.is_some() && like.is_none(),
    }
}

pub fn is_given(text: Option<&str>) -> bool
    ensures value { result ≡ meaning.is_given (option_map (λ text. text.now) text.entry) }
{
    match text {
        Some(text) => text == "true",
        None => false,
    }
}

pub fn bytes_of(alloc: Global, text: Option<&str>) -> Result<Option<Bytes>, AllocError>
    ensures value { IfOk result (λ bytes. bytes ≡ option_map (λ text. text.now) text.entry) }
{
    match text {
        Some(text) => Ok(Some(Bytes::from_slice(alloc, text.as_bytes())?)),
        None => Ok(None),
    }
}
