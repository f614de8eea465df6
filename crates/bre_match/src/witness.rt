//! Patterns that are to answer of one text as is said: a text that does, or that there is none.

ghost use Rattle.std.specs.Prelude.{◌≡◌, ◌≤◌, false, true, IfOk, IfSome, length};
ghost use Rattle.std.specs.List.{All};
ghost use Rattle.bre_parse.specs.Bre.{bre_tree};
ghost use Rattle.bre_parse.specs.Groups.{refers};
ghost use Rattle.bre_parse.specs.WellFormed.{repeats_in_order};
ghost use Rattle.bre_match.specs.ByteKinds.{reaches_top, StandForBytes};
ghost use Rattle.bre_match.specs.Watches.{IsPlain};
ghost use Rattle.bre_match.specs.Witness.{IsAnswered, NoneAnswers, witness_text};
ghost use Rattle.bre_match.specs.declared.witness.Witness.TheVariants.{NoText};

mod byte_kinds;
mod closure;
mod known;
mod watches;

use crate::matches;
use crate::row::has_wide_states;
use crate::witness::byte_kinds::{Kinds, reaches_top};
use crate::witness::closure::{Outcome, search};
use bre_parse::Bre;
use std::alloc::{AllocError, Global};

/// A pattern, and whether a text is to have a match of it.
#[derive(Clone, Copy)]
pub struct Answer<'a> {
    pub pattern: &'a Bre,
    pub matches: bool,
}

/// What is told of the texts of which some patterns answer as is said.
#[derive(Drop)]
pub enum Witness {
    /// This is one.
    Text(Vec<u8>),
    /// There is none.
    NoText,
    /// Neither was found out.
    Unknown,
}

/// Whether the pattern has no back-reference, not too many byte sets, and no range up to the last byte.
fn is_plain(pattern: &Bre) -> bool
    ensures free { result ≡ true → refers (bre_tree pattern.now) ≡ false }
    ensures in_order { repeats_in_order (bre_tree pattern.now) ≡ true }
    ensures top { result ≡ true → reaches_top (bre_tree pattern.now) ≡ false }
{
    let items = pattern.items();
    !pattern.refers() && !reaches_top(items) && !has_wide_states(items)
}

/// Whether each of the patterns is such a one.
fn are_plain(answers: &[Answer<'_>]) -> bool
    ensures plain { result ≡ true → All IsPlain answers.now }
{
    for answer in answers {
        if !is_plain(answer.pattern) {
            return false;
        }
    }
    true
}

/// Whether the text answers as is said.
fn are_answered(alloc: Global, answers: &[Answer<'_>], text: &[u8]) -> Result<bool, AllocError>
    ensures sound { IfOk result (λ answered. answered ≡ true → All (IsAnswered text.now) answers.now) }
{
    for answer in answers {
        let found = matches(alloc, answer.pattern, text)?;
        if found != answer.matches {
            return Ok(false);
        }
    }
    Ok(true)
}

/// The text, if it answers as is said.
fn tested(alloc: Global, answers: &[Answer<'_>], text: Vec<u8>) -> Result<Witness, AllocError>
    ensures other { IfOk result (λ witness. witness ≡ NoText → ⊥) }
    ensures witness { IfOk result (λ witness. IfSome (witness_text witness) (λ text. All (IsAnswered text) answers.now)) }
{
    if are_answered(alloc, answers, &text)? {
        Ok(Witness::Text(text))
    } else {
        Ok(Witness::Unknown)
    }
}

/// A text of printable bytes that answers as is said, if one is found.
fn printable_text(
    alloc: Global,
    answers: &[Answer<'_>],
    kinds: &Kinds,
) -> Result<Option<Vec<u8>>, AllocError>
    requires printable { kinds.now.printable ≤ length kinds.now.bytes.items }
{
    if kinds.printable == kinds.bytes.len() {
        return Ok(None);
    }
    match search(alloc, answers, &kinds.bytes[..kinds.printable])? {
        Outcome::Text(text) => Ok(Some(text)),
        Outcome::Closed | Outcome::TooMany => Ok(None),
    }
}

/// A text of which each of the patterns answers as is said there, or that there is none. It is one of the shortest printable texts, or else
/// one of the shortest; letters and digits stand in it rather than other bytes.
///
/// Neither is found out of patterns with back-references, with a range up to the last byte or with more than 256 byte sets (the turns of
/// counted repeats written out), nor where more than 256 sets of states would be looked at.
pub fn find_witness(alloc: Global, answers: &[Answer<'_>]) -> Result<Witness, AllocError>
    ensures sound { IfOk result (λ witness. witness ≡ NoText → NoneAnswers answers.now) }
    ensures witness { IfOk result (λ witness. IfSome (witness_text witness) (λ text. All (IsAnswered text) answers.now)) }
{
    if !are_plain(answers) {
        return Ok(Witness::Unknown);
    }
    let kinds = Kinds::of(alloc, answers)?;
    if let Some(text) = printable_text(alloc, answers, &kinds)? {
        return tested(alloc, answers, text);
    }
    let outcome = search(alloc, answers, &kinds.bytes)?;
    match outcome {
        Outcome::Text(text) => tested(alloc, answers, text),
        Outcome::Closed => Ok(Witness::NoText),
        Outcome::TooMany => Ok(Witness::Unknown),
    }
}
