//! What is shown of words that aren't understood: what is wrong, and how the program is used.
ghost use Rattle.std.specs.Prelude.{◌≡◌, ◌≢◌};
ghost use Rattle.clap.specs.Words.{kind_of};
ghost use Rattle.ed_main.specs.Words.{IsAsked, IsRequest};

use crate::words::WordsFault;
use clap::error::ErrorKind;
use ed_calls::shown_lines;
use std::alloc::{AllocError, Global};

/// How the program is used.
pub const USAGE: &str = "\
usage: edv edit [--vouched] [--like FILE] [--at CHAIN] [--whole] [--backup SUFFIX] [--unchanged] [-n] [--diff] [-s] [-p STRING] [-f SCRIPT] [FILE] <SCRIPT
       edv vouch [--like FILE] [--min N] [--max M] [--all] [-q] [--patterns] [--has RE] [--at CHAIN] [-f SCRIPT] [FILE] <SCRIPT
       edv explain [--like FILE] [--min N] [--max M] [--patterns] [--has RE] [--at CHAIN] [-f SCRIPT] [CERT] <SCRIPT
       edv check [-f SCRIPT] CERT <SCRIPT
       edv run [--whole] [--backup SUFFIX] [-n] [--diff] [-s] [-f SCRIPT] CERT [FILE] <SCRIPT
       edv fits CERT [FILE]
";

pub const EDIT_USAGE: &str =
    "usage: edv edit [--vouched] [--like FILE] [--at CHAIN] [--whole] [--backup SUFFIX] [--unchanged] [-n] [--diff] [-s] [-p STRING] [-f SCRIPT] [FILE] <SCRIPT\n";

pub const VOUCH_USAGE: &str =
    "usage: edv vouch [--like FILE] [--min N] [--max M] [--all] [-q] [--patterns] [--has RE] [--at CHAIN] [-f SCRIPT] [FILE] <SCRIPT\n";

pub const EXPLAIN_USAGE: &str =
    "usage: edv explain [--like FILE] [--min N] [--max M] [--patterns] [--has RE] [--at CHAIN] [-f SCRIPT] [CERT] <SCRIPT\n";

pub const CHECK_USAGE: &str = "usage: edv check [-f SCRIPT] CERT <SCRIPT\n";

pub const RUN_USAGE: &str =
    "usage: edv run [--whole] [--backup SUFFIX] [-n] [--diff] [-s] [-f SCRIPT] CERT [FILE] <SCRIPT\n";

pub const FITS_USAGE: &str = "usage: edv fits CERT [FILE]\n";

pub const NO_FILE: &str = "error: a file without a name, or named -";

pub const NO_SCRIPT: &str = "error: a script without a name, or named -";

pub const NO_CERTIFICATE: &str = "error: a certificate without a name, or named -";

pub const BESIDE_CERTIFICATE: &str = "error: a start beside a certificate, which states its own";

pub const LIKE_BESIDE: &str = "error: --like beside --min, --max, --has or --at";

pub const LIKE_BESIDE_AT: &str = "error: --like beside --at";

pub const LIKE_UNVOUCHED: &str = "error: --like without --vouched";

pub const LIKE_ALONE: &str = "error: --like without the file that is edited";

pub const AT_UNVOUCHED: &str = "error: --at without --vouched";

pub const AT_ALONE: &str = "error: --at without the file whose lines it names";

pub const HAS_ALONE: &str = "error: --has without the file whose lines are to match";

pub const HAS_NOWHERE: &str =
    "error: --has beside --max 0: a file of no lines has none that matches";

pub const BACKUP_ALONE: &str = "error: --backup without --whole";

pub const DIFF_ALONE: &str = "error: --diff without -n";

pub const NO_SUFFIX: &str = "error: --backup with a suffix that is empty or has a slash";

pub const NO_MIN: &str = "error: --min isn't a number of lines up to 10^12";

pub const NO_MAX: &str = "error: --max is neither a number of lines up to 10^12 nor any";

/// What is shown of words that `clap` refuses, or the help that they ask for.
pub fn refused(alloc: Global, error: &clap::Error, words: &[&str]) -> WordsFault
    ensures memory { kind_of error.now ≡ ErrorKind.OutOfMemory → result ≡ WordsFault.Memory }
    ensures asked { IsAsked result → IsRequest (kind_of error.now) }
    ensures shown { IsRequest (kind_of error.now) → result ≢ WordsFault.Memory → IsAsked result }
{
    if error.kind() == ErrorKind::OutOfMemory {
        return WordsFault::Memory;
    }
    if !error.use_stderr() {
        return match error.to_string(alloc) {
            Ok(text) => WordsFault::Asked(text),
            Err(_) => WordsFault::Memory,
        };
    }
    match shown(alloc, error, words) {
        Ok(text) => WordsFault::Usage(text),
        Err(AllocError) => WordsFault::Memory,
    }
}

/// What is shown of a mistake in the words: what is wrong, the word that may be meant, and how the program is used.
fn shown(alloc: Global, error: &clap::Error, words: &[&str]) -> Result<String, AllocError> {
    let text = error.to_string(alloc)?;
    let usage = usage_of(words);
    if error.kind() == ErrorKind::UnknownArgument {
        if let Some(wrong) = bound_below_zero(words) {
            return Ok(format!(in alloc; "{wrong}\n{usage}")?);
        }
    }
    let wrong = first_sentence(alloc, text.as_str())?;
    let wrong = match meant(text.as_str()) {
        Some(word) => {
            let wrong = wrong.as_str();
            format!(in alloc; "{wrong}; did you mean {word}?")?
        }
        None => wrong,
    };
    let wrong = shown_lines(alloc, wrong.as_str())?;
    Ok(format!(in alloc; "{wrong}{usage}")?)
}

/// The word that `clap` takes to be meant, as it quotes it in its tip. Of several the last one is closest.
fn meant(text: &str) -> Option<&str> {
    let (_, tip) = text.split_once("  tip: ")?;
    let (tip, _) = tip.split_once('\n')?;
    if !tip.contains("similar") {
        return None;
    }
    let (tip, _) = tip.rsplit_once('\'')?;
    let (_, word) = tip.rsplit_once('\'')?;
    Some(word)
}

/// What is wrong where the first word that `clap` doesn't know is a number below 0 and stands where a bound does.
fn bound_below_zero(words: &[&str]) -> Option<&'static str> {
    let [_, "vouch" | "explain", given @ ..] = words else {
        return None;
    };
    let mut bound = None;
    for &word in given {
        match word.as_bytes() {
            [b'-', b'0'..=b'9', ..] => return bound,
            b"--min" => bound = Some(NO_MIN),
            b"--max" => bound = Some(NO_MAX),
            [b'-', ..] if !has_bound(word) => return None,
            _ => bound = None,
        }
    }
    None
}

/// Whether a word names a bound and gives it.
fn has_bound(word: &str) -> bool {
    word.starts_with("--min=") || word.starts_with("--max=")
}

/// How the subcommand that the words begin with is used.
fn usage_of(words: &[&str]) -> &'static str {
    match words {
        [_, "edit", ..] => EDIT_USAGE,
        [_, "vouch", ..] => VOUCH_USAGE,
        [_, "explain", ..] => EXPLAIN_USAGE,
        [_, "check", ..] => CHECK_USAGE,
        [_, "run", ..] => RUN_USAGE,
        [_, "fits", ..] => FITS_USAGE,
        _ => USAGE,
    }
}

/// The first line of a text, and where it ends in a colon what the lines below it list.
fn first_sentence(alloc: Global, text: &str) -> Result<String, AllocError> {
    let mut lines = text.lines();
    let mut sentence = String::from_str(alloc, lines.next().unwrap_or(""))?;
    if sentence.as_str().ends_with(':') {
        for line in lines.take_while(|line| !line.is_empty()) {
            let is_first = sentence.as_str().ends_with(':');
            sentence.push_str(if is_first { " " } else { ", " })?;
            sentence.push_str(line.trim_start())?;
        }
    }
    Ok(sentence)
}
