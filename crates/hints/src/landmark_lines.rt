//! Which line a landmark is, as a person reads it.

ghost use Rattle.std.specs.Prelude.{◌≡◌, Bool, string_bytes, IfOk};
ghost use Rattle.landmarks.specs.declared.which.Which.TheVariants.{First, Only, Numbered};
ghost use Rattle.hints.specs.StartWords.{below_words, line_words, place_words};

use crate::words::quoted;
use landmarks::Which;
use std::alloc::{AllocError, Global};

/// Beneath the line of the landmark before it.
fn below_text(is_below: bool) -> &'static str
    ensures value { result.now ≡ below_words is_below }
{
    if is_below { " below it" } else { "" }
}

/// Which line it is, where no more is said of it. Where any line that matches will do, that there is one.
pub(crate) fn place_text(
    alloc: Global,
    which: &Which,
    is_below: bool,
    is_any: bool,
) -> Result<String, AllocError>
    ensures value { IfOk result (λ words. string_bytes words ≡ place_words is_below is_any which.now) }
{
    match which {
        Which::First(pattern) => first_text(alloc, pattern.as_slice(), is_below, is_any),
        Which::Only(pattern) => only_text(alloc, pattern.as_slice(), is_below),
        Which::Numbered(number) => numbered_text(alloc, *number, is_below),
    }
}

/// That there is a first line that matches, of which no more is said.
fn first_text(
    alloc: Global,
    pattern: &[u8],
    is_below: bool,
    is_any: bool,
) -> Result<String, AllocError>
    ensures value { IfOk result (λ words. string_bytes words ≡ place_words is_below is_any (First pattern.now)) }
{
    let below = below_text(is_below);
    let pattern = quoted(alloc, pattern)?;
    let pattern = pattern.as_str();
    if is_any {
        Ok(format!(in alloc; "a line{below} matches {pattern}")?)
    } else {
        Ok(format!(in alloc; "there is a first line{below} that matches {pattern}")?)
    }
}

/// That only one line matches, of which no more is said.
fn only_text(alloc: Global, pattern: &[u8], is_below: bool) -> Result<String, AllocError>
    ensures value { IfOk result (λ words. (any : Bool) → string_bytes words ≡ place_words is_below any (Only pattern.now)) }
{
    let pattern = quoted(alloc, pattern)?;
    let pattern = pattern.as_str();
    if is_below {
        Ok(format!(in alloc; "the only line that matches {pattern} is below it")?)
    } else {
        Ok(format!(in alloc; "just one line matches {pattern}")?)
    }
}

/// That there is a line of a number, of which no more is said.
fn numbered_text(alloc: Global, number: u32, is_below: bool) -> Result<String, AllocError>
    ensures value { IfOk result (λ words. (any : Bool) → string_bytes words ≡ place_words is_below any (Numbered number)) }
{
    if is_below {
        Ok(format!(in alloc; "line {number} is below it")?)
    } else {
        Ok(format!(in alloc; "there is a line {number}")?)
    }
}

/// Which line it is of which more is said.
pub(crate) fn line_text(alloc: Global, which: &Which, is_below: bool) -> Result<String, AllocError>
    ensures value { IfOk result (λ words. string_bytes words ≡ line_words is_below which.now) }
{
    match which {
        Which::First(pattern) => {
            let below = below_text(is_below);
            let pattern = quoted(alloc, pattern.as_slice())?;
            Ok(format!(in alloc; "the first line{below} that matches {}", pattern.as_str())?)
        }
        Which::Only(pattern) => {
            let pattern = quoted(alloc, pattern.as_slice())?;
            Ok(format!(in alloc; "the only line that matches {}", pattern.as_str())?)
        }
        Which::Numbered(number) => Ok(format!(in alloc; "line {number}")?),
    }
}
