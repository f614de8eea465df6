//! The lines of a certificate's text, as they are read.

ghost use Rattle.std.specs.Prelude.{◌≡◌, ◌&&◌, ◌||◌, true, Some, All, map, option_map, IfOk, codes};
ghost use Rattle.ed_rules.specs.Formed.{ChoiceIsBytes, SetIsFormed, TextsAreFormed};
ghost use Rattle.ed_rules.specs.LineBounds.{is_few, is_limit, is_within};
ghost use Rattle.cert_check.specs.text.Text.{spaced, choice_word, replacements_line, changed_line, bounds_line, path_line, choices_line, texts_line, chains_line};
ghost use Rattle.cert_check.specs.text.HasText.{ChainHasText};
ghost use Rattle.cert_check.specs.text.Reading.{ReadsAs, WordReadsAs, AreChains, undo_words_line};

use crate::text::has_text::{choices_are_bytes, some_changed, some_replacement, texts_are_bytes};
use crate::text::words_in::{
    after_key, choice_in, limit_in, next_word, number_in, path_word_in, possible_in,
};
use ed_base::{Bytes, do_rise};
use ed_rules::{Changed, Choices, LineBounds, Replacements, Texts};
use landmarks::{ChainFault, LandmarkChain};
use std::alloc::{AllocError, Global};

/// What undo may find: nothing, the buffer as it is, an earlier one.
#[derive(Clone, Copy, PartialEq, Eq, Debug)]
pub(crate) struct Found {
    pub nothing: bool,
    pub same: bool,
    pub was: bool,
}

/// Which replacements may be remembered.
pub(crate) fn replacements_in(line: &[u8]) -> Option<Replacements>
    ensures exact { ReadsAs replacements_line (λ r. (r.none || r.plain || r.split) ≡ true) line.now result }
{
    let Some(left) = after_key(b"replacements", line) else {
        return None;
    };
    let (none, left) = possible_in(b" none", left);
    let (plain, left) = possible_in(b" plain", left);
    let (split, left) = possible_in(b" split", left);
    let replacements = Replacements { none, plain, split };
    if !left.is_empty() {
        return None;
    }
    if !some_replacement(replacements) {
        return None;
    }
    Some(replacements)
}

/// Whether the buffer may be unchanged, and changed.
pub(crate) fn changed_in(line: &[u8]) -> Option<Changed>
    ensures exact { ReadsAs changed_line (λ c. (c.no || c.yes) ≡ true) line.now result }
{
    let left = after_key(b"changed", line)?;
    let (no, left) = possible_in(b" no", left);
    let (yes, left) = possible_in(b" yes", left);
    let changed = Changed { no, yes };
    if !left.is_empty() {
        return None;
    }
    if !some_changed(changed) {
        return None;
    }
    Some(changed)
}

fn some_found(found: Found) -> bool
    ensures value { result ≡ (found.nothing || found.same || found.was) }
{
    found.nothing || found.same || found.was
}

/// What undo may find.
pub(crate) fn undo_in(line: &[u8]) -> Option<Found>
    ensures exact { ReadsAs (λ f. undo_words_line f.nothing f.same f.was)
        (λ f. (f.nothing || f.same || f.was) ≡ true) line.now result }
{
    let left = after_key(b"undo", line)?;
    let (nothing, left) = possible_in(b" nothing", left);
    let (same, left) = possible_in(b" same", left);
    let (was, left) = possible_in(b" was", left);
    let found = Found { nothing, same, was };
    if !left.is_empty() {
        return None;
    }
    if !some_found(found) {
        return None;
    }
    Some(found)
}

/// The bounds of a number of lines, after a key.
fn bounds_in(key: &[u8], line: &[u8]) -> Option<(u64, Option<u64>)>
    ensures exact { ReadsAs (λ (low, high). bounds_line key.now low high)
        (λ (low, high). (is_few low && is_limit high) ≡ true) line.now result }
{
    let Some(left) = after_key(key, line) else {
        return None;
    };
    let Some((low, left)) = next_word(left) else {
        return None;
    };
    let Some((high, left)) = next_word(left) else {
        return None;
    };
    let Some(low) = number_in(low) else {
        return None;
    };
    let Some(high) = limit_in(high) else {
        return None;
    };
    if !left.is_empty() {
        return None;
    }
    let bounds = LineBounds {
        min: low,
        max: high,
    };
    if !bounds.are_few() {
        return None;
    }
    Some((low, high))
}

/// How many lines the start may have.
pub(crate) fn start_in(line: &[u8]) -> Option<(u64, Option<u64>)>
    ensures exact { ReadsAs (λ (low, high). bounds_line (codes "start") low high)
        (λ (low, high). (is_few low && is_limit high && is_within low high) ≡ true) line.now result }
{
    let (low, high) = bounds_in(b"start", line)?;
    let bounds = LineBounds {
        min: low,
        max: high,
    };
    if !bounds.in_order() {
        return None;
    }
    Some((low, high))
}

/// How many lines there may be at the end.
pub(crate) fn final_in(line: &[u8]) -> Option<(u64, Option<u64>)>
    ensures exact { ReadsAs (λ (low, high). bounds_line (codes "final") low high)
        (λ (low, high). (is_few low && is_limit high) ≡ true) line.now result }
{
    bounds_in(b"final", line)
}

/// The path of the start file.
pub(crate) fn path_in(alloc: Global, line: &[u8]) -> Result<Option<Option<Bytes>>, AllocError>
    ensures exact { IfOk result (λ path. ReadsAs path_line ChoiceIsBytes line.now path) }
{
    let Some(left) = after_key(b"path", line) else {
        return Ok(None);
    };
    let Some((word, left)) = next_word(left) else {
        return Ok(None);
    };
    if !left.is_empty() {
        return Ok(None);
    }
    choice_in(alloc, word)
}

/// The choices that stand in a text, each after a space.
fn members_in(alloc: Global, text: &[u8]) -> Result<Option<Vec<Option<Bytes>>>, AllocError>
    ensures exact { IfOk result (λ set. WordReadsAs (λ set. spaced (map choice_word set)) (All ChoiceIsBytes)
        text.now (option_map (λ set. set.items) set)) }
{
    // Most sets have one member.
    let mut members = Vec::with_capacity(alloc, 1)?;
    let mut left = text;
    while let Some((word, later)) = next_word(left) {
        let Some(choice) = choice_in(alloc, word)? else {
            return Ok(None);
        };
        members.push(choice)?;
        left = later;
    }
    if !left.is_empty() {
        return Ok(None);
    }
    choices_are_bytes(members.as_slice());
    Ok(Some(members))
}

/// The texts or paths that may be remembered.
pub(crate) fn choices_in(
    alloc: Global,
    key: &[u8],
    line: &[u8],
) -> Result<Option<Choices>, AllocError>
    ensures exact { IfOk result (λ set. ReadsAs (choices_line key.now) SetIsFormed line.now set) }
{
    let Some(left) = after_key(key, line) else {
        return Ok(None);
    };
    let Some(members) = members_in(alloc, left)? else {
        return Ok(None);
    };
    Ok(Choices::from_rising(members))
}

/// The texts or paths that stand in a text, each after a space.
fn texts_in(alloc: Global, text: &[u8]) -> Result<Option<Vec<Bytes>>, AllocError>
    ensures exact { IfOk result (λ texts. WordReadsAs (λ texts. spaced (map choice_word (map Some texts)))
        (λ texts. All ChoiceIsBytes (map Some texts)) text.now (option_map (λ texts. texts.items) texts)) }
{
    let mut texts = Vec::new(alloc);
    let mut left = text;
    while let Some((word, later)) = next_word(left) {
        let Some(member) = path_word_in(alloc, word)? else {
            return Ok(None);
        };
        texts.push(member)?;
        left = later;
    }
    if !left.is_empty() {
        return Ok(None);
    }
    texts_are_bytes(texts.as_slice());
    Ok(Some(texts))
}

/// The texts or paths of a line, in whatever order they stand there.
fn texts_of(alloc: Global, key: &[u8], line: &[u8]) -> Result<Option<Vec<Bytes>>, AllocError>
    ensures exact { IfOk result (λ texts. ReadsAs (texts_line key.now) (λ texts. All ChoiceIsBytes (map Some texts))
        line.now (option_map (λ texts. texts.items) texts)) }
{
    let Some(left) = after_key(key, line) else {
        return Ok(None);
    };
    texts_in(alloc, left)
}

/// The paths that the script may write.
pub(crate) fn writes_in(alloc: Global, line: &[u8]) -> Result<Option<Vec<Bytes>>, AllocError>
    ensures exact { IfOk result (λ writes. ReadsAs (texts_line (codes "writes")) TextsAreFormed
        line.now (option_map (λ writes. writes.items) writes)) }
{
    let Some(paths) = texts_of(alloc, b"writes", line)? else {
        return Ok(None);
    };
    if !do_rise(paths.as_slice()) {
        return Ok(None);
    }
    Ok(Some(paths))
}

/// A set of texts.
pub(crate) fn set_in(alloc: Global, key: &[u8], line: &[u8]) -> Result<Option<Texts>, AllocError>
    ensures exact { IfOk result (λ set. ReadsAs (texts_line key.now) TextsAreFormed line.now set) }
{
    let Some(texts) = texts_of(alloc, key, line)? else {
        return Ok(None);
    };
    Ok(Texts::from_rising(texts))
}

/// The chains that these texts spell; `None` where one of them spells none.
fn chains_of(alloc: Global, texts: &[Bytes]) -> Result<Option<Vec<LandmarkChain>>, AllocError>
    ensures exact { IfOk result (λ chains. AreChains texts.now (option_map (λ chains. chains.items) chains)) }
{
    let mut chains = Vec::new(alloc);
    for text in texts {
        let text = text.try_copy()?;
        match LandmarkChain::read(alloc, text) {
            Ok(chain) => chains.push(chain)?,
            Err(ChainFault::Memory) => return Err(AllocError),
            Err(ChainFault::Wrong(_, _)) => return Ok(None),
        }
    }
    Ok(Some(chains))
}

/// The chains of landmarks of a line.
pub(crate) fn chains_in(
    alloc: Global,
    line: &[u8],
) -> Result<Option<Vec<LandmarkChain>>, AllocError>
    ensures exact { IfOk result (λ chains. ReadsAs chains_line (All ChainHasText)
        line.now (option_map (λ chains. chains.items) chains)) }
{
    let Some(texts) = texts_of(alloc, b"at", line)? else {
        return Ok(None);
    };
    chains_of(alloc, texts.as_slice())
}
