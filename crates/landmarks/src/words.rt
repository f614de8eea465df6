//! The words of a chain of landmarks.

ghost use Rattle.std.specs.Prelude.{◌≡◌, ◌≢◌, ◌∷◌, ◌≤◌, ◌<◌, length, Some, MatchOption, MatchResult, IfOk, IfErr, IfSome, IsTrue, IsFalse, nat_eq};
ghost use Rattle.ed_syntax.specs.spelling.Characters.{is_digit, is_letter, begins, after_blanks};
ghost use Rattle.landmarks.specs.Words.{is_key_delimiter, SpellsKey, SpellsWord, SpellsCount, NoKey, NoWord, NoCount};
ghost use Rattle.landmarks.specs.Stops.{IsEnd, IsWrongIn, StopsIn, Unless};

use crate::chain_fault::{ChainWrong, Stop};
use crate::key_text::quoted;
use bre_parse::Bre;
use bre_parse::fault::BreFault;
use ed_base::Bytes;
use ed_syntax::{after_blanks, number};
use std::alloc::{AllocError, Global};

/// The bytes after a word, if it stands in front after blanks.
pub fn after_word<'a>(text: &'a [u8], word: &[u8]) -> Option<&'a [u8]>
    ensures spelled { MatchOption result (NoWord word.now text.now) (λ rest. SpellsWord word.now text.now rest.now) }
    ensures end { IfSome result (λ rest. IsEnd text.now rest.now) }
    ensures shorter { IfSome result (λ rest. length rest.now ≤ length text.now) }
{
    match after_blanks(text).strip_prefix(word) {
        Some(rest) => if begins_with_letter(rest) {
            None
        } else {
            Some(rest)
        },
        None => None,
    }
}

/// Whether a letter stands in front.
fn begins_with_letter(text: &[u8]) -> bool
    ensures value { result ≡ begins is_letter text.now }
{
    match text {
        [byte, ..] => matches!(*byte, b'A'..=b'Z' | b'a'..=b'z'),
        [] => false,
    }
}

/// The bytes after a sign, if it stands in front after blanks.
#[tactic(auto, using(crate::proofs::WordReads::sign_read, crate::proofs::WordReads::no_sign, crate::proofs::WordReads::no_sign_over))]
pub fn after_sign(text: &[u8], sign: u8) -> Option<&[u8]>
    ensures value { MatchOption result (IsFalse (begins (nat_eq sign) (after_blanks text.now)))
        (λ more. after_blanks text.now ≡ sign ∷ more.now) }
    ensures shorter { IfSome result (λ more. length more.now < length text.now) }
{
    match after_blanks(text) {
        [byte, more @ ..] => if *byte == sign { Some(more) } else { None },
        [] => None,
    }
}

/// Whether a digit stands in front, after blanks.
pub fn begins_with_digit(text: &[u8]) -> bool
    ensures value { result ≡ begins is_digit (after_blanks text.now) }
{
    match after_blanks(text) {
        [byte, ..] => matches!(*byte, b'0'..=b'9'),
        [] => false,
    }
}

/// A number from 1 to 999999999, after blanks.
pub fn count(text: &[u8]) -> Result<(u32, &[u8]), Stop>
    ensures spelled { MatchResult result (λ (n, rest). SpellsCount text.now rest.now n) (Unless (NoCount text.now)) }
    ensures told { IfErr result (StopsIn text.now) }
    ensures end { IfOk result (λ (n, rest). IsEnd text.now rest.now) }
{
    let here = after_blanks(text);
    let Some((n, rest)) = number(here) else {
        return Err(Stop::Wrong(ChainWrong::Number, here.len()));
    };
    if n == 0 {
        return Err(Stop::Wrong(ChainWrong::Number, here.len()));
    }
    Ok((n, rest))
}

/// A pattern between its delimiters, after blanks.
pub fn key(alloc: Global, text: &[u8]) -> Result<(Bytes, &[u8]), Stop>
    ensures spelled { MatchResult result (λ (pattern, rest). SpellsKey text.now rest.now pattern) (Unless (NoKey text.now)) }
    ensures told { IfErr result (StopsIn text.now) }
    ensures end { IfOk result (λ (pattern, rest). IsEnd text.now rest.now) }
    ensures shorter { IfOk result (λ (pattern, rest). length rest.now < length text.now) }
{
    let here = after_blanks(text);
    if !begins_with_delimiter(here) {
        return Err(Stop::Wrong(ChainWrong::Key, here.len()));
    }
    match here {
        [delimiter, more @ ..] => opened_key(alloc, text, *delimiter, more),
        [] => Err(Stop::Wrong(ChainWrong::Key, 0)),
    }
}

/// Whether a pattern's delimiter stands in front.
fn begins_with_delimiter(text: &[u8]) -> bool
    ensures value { result ≡ begins is_key_delimiter text.now }
{
    match text {
        [byte, ..] => matches!(*byte, b'/' | b'|'),
        [] => false,
    }
}

/// The same after its first delimiter.
fn opened_key<'a>(
    alloc: Global,
    text: &[u8],
    delimiter: u8,
    more: &'a [u8],
) -> Result<(Bytes, &'a [u8]), Stop>
    requires opened { after_blanks text.now ≡ delimiter ∷ more.now }
    requires delimits { IsTrue (is_key_delimiter delimiter) }
    ensures spelled { MatchResult result (λ (pattern, rest). SpellsKey text.now rest.now pattern) (Unless (NoKey text.now)) }
    ensures told { IfErr result (StopsIn text.now) }
    ensures end { IfOk result (λ (pattern, rest). IsEnd text.now rest.now) }
    ensures shorter { IfOk result (λ (pattern, rest). length rest.now < length text.now) }
{
    let left = after_blanks(text).len();
    let Some((pattern, closing)) = quoted(alloc, delimiter, more)? else {
        return Err(Stop::Wrong(wrong_in(alloc, more)?, left));
    };
    let [_, rest @ ..] = closing else {
        return Err(Stop::Wrong(ChainWrong::Unclosed, left));
    };
    if pattern.is_empty() {
        return Err(Stop::Wrong(ChainWrong::Empty, left));
    }
    match Bre::read(alloc, pattern.as_slice()) {
        Ok(_) => Ok((pattern, rest)),
        Err(BreFault::Memory) => Err(Stop::Memory),
        Err(reason) => Err(Stop::Wrong(ChainWrong::Pattern(reason), left)),
    }
}

/// What is wrong with a pattern in which a bracket expression or an escape isn't whole: it isn't closed, unless there is another reason.
fn wrong_in(alloc: Global, more: &[u8]) -> Result<ChainWrong, AllocError>
    ensures value { IfOk result (IsWrongIn more.now) }
{
    match Bre::read(alloc, more) {
        Err(BreFault::Memory) => Err(AllocError),
        Err(BreFault::Bracket) => Ok(ChainWrong::Unclosed),
        Err(BreFault::Escape) => Ok(ChainWrong::Unclosed),
        Err(reason) => Ok(ChainWrong::Pattern(reason)),
        Ok(_) => Ok(ChainWrong::Unclosed),
    }
}
