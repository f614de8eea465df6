//! What is known of the line that a substitution makes of one line.

ghost use Rattle.std.specs.Prelude.{◌≡◌, Some, IfOk};
ghost use Rattle.std.specs.List.{list_any};
ghost use Rattle.bre_parse.specs.Bre.{bre_tree};
ghost use Rattle.bre_parse.specs.TextHeads.{untouched, head_matches, head_clashes};
ghost use Rattle.ed_rules.specs.facts.Facts.{same_text};
ghost use Rattle.ed_rules.specs.facts.RewrittenLine.{asked_head, heads_left, told_by_heads, told_by_word, or_else, left_if};
ghost use Rattle.ed_rules.specs.facts.NewLines.{fresh_left, fresh_if};

use bre_parse::Bre;
use bre_parse::fault::BreFault;
use ed_base::Bytes;
use std::alloc::{AllocError, Global};

/// The pattern whose matches are replaced, the heads that no match touches, and the patterns that the old line is known to match.
#[derive(Drop)]
pub(crate) struct RewrittenLine {
    replaced: Bre,
    heads: Vec<Bytes>,
    matched: Vec<Bytes>,
}

/// The bytes with which each line begins that the pattern of this text matches; a text that is no pattern matches none.
fn asked_head(alloc: Global, text: &[u8]) -> Result<Vec<u8>, AllocError>
    ensures value { IfOk result (λ head. head.items ≡ asked_head text.now) }
{
    match Bre::read(alloc, text) {
        Ok(bre) => bre.head_asked(),
        Err(BreFault::Memory) => Err(AllocError),
        Err(_) => Ok(Vec::new(alloc)),
    }
}

/// What no match touches of the head that a pattern asks for.
fn head_left(alloc: Global, replaced: &Bre, text: &[u8]) -> Result<Bytes, AllocError>
    ensures value { IfOk result (λ head. head ≡ untouched (bre_tree replaced.now) (asked_head text.now)) }
{
    let asked = asked_head(alloc, text)?;
    Bytes::from_slice(alloc, replaced.untouched(&asked))
}

/// With these the new line begins.
fn heads_left(alloc: Global, replaced: &Bre, matched: &[Bytes]) -> Result<Vec<Bytes>, AllocError>
    ensures value { IfOk result (λ heads. heads.items ≡ heads_left (bre_tree replaced.now) matched.now) }
{
    let mut heads = Vec::new(alloc);
    for pattern in matched {
        heads.push(head_left(alloc, replaced, pattern.as_slice())?)?;
    }
    Ok(heads)
}

/// Whether a line with one of these heads surely matches the pattern.
fn any_matches(heads: &[Bytes], bre: &Bre) -> bool
    ensures value { result ≡ list_any (λ head. head_matches head (bre_tree bre.now)) heads.now }
{
    for head in heads {
        if bre.matches_head(head.as_slice()) {
            return true;
        }
    }
    false
}

/// Whether a line with one of these heads surely doesn't.
fn any_clashes(heads: &[Bytes], bre: &Bre) -> bool
    ensures value { result ≡ list_any (λ head. head_clashes head (bre_tree bre.now)) heads.now }
{
    for head in heads {
        if bre.clashes_with_head(head.as_slice()) {
            return true;
        }
    }
    false
}

/// Whether a line with these heads matches the pattern, where they tell it.
fn told_by_heads(heads: &[Bytes], bre: &Bre) -> Option<bool>
    ensures value { result ≡ told_by_heads heads.now (bre_tree bre.now) }
{
    if any_matches(heads, bre) {
        Some(true)
    } else if any_clashes(heads, bre) {
        Some(false)
    } else {
        None
    }
}

/// Whether one of these texts is this one.
fn has_text(texts: &[Bytes], text: &[u8]) -> bool
    ensures value { result ≡ list_any (λ q. same_text q text.now) texts.now }
{
    for other in texts {
        if other.as_slice() == text {
            return true;
        }
    }
    false
}

/// Whether the pattern is a word that the old line had, and that shares no byte with what is replaced.
fn told_by_word(
    replaced: &Bre,
    matched: &[Bytes],
    text: &[u8],
    bre: &Bre,
) -> Result<Option<bool>, AllocError>
    ensures value { IfOk result (λ told. told ≡ told_by_word (bre_tree replaced.now) matched.now text.now (bre_tree bre.now)) }
{
    if has_text(matched, text) && bre.keeps_word(replaced)? {
        Ok(Some(true))
    } else {
        Ok(None)
    }
}

impl RewrittenLine {
    /// What is known by the pattern of this text, and those that the old line is known to match; nothing if the text is no pattern.
    pub(crate) fn of(
        alloc: Global,
        sought: &[u8],
        matched: Vec<Bytes>,
    ) -> Result<Option<RewrittenLine>, AllocError>
        ensures value { IfOk result (λ line. fresh_if line ≡ left_if (Some sought.now) matched.items) }
    {
        match Bre::read(alloc, sought) {
            Ok(replaced) => {
                let heads = heads_left(alloc, &replaced, &matched)?;
                Ok(Some(RewrittenLine {
                    replaced,
                    heads,
                    matched,
                }))
            }
            Err(BreFault::Memory) => Err(AllocError),
            Err(_) => Ok(None),
        }
    }

    /// The same of a pattern that was read.
    fn told_of(&self, text: &[u8], bre: &Bre) -> Result<Option<bool>, AllocError>
        ensures value { IfOk result (λ told. told ≡ or_else (told_by_heads self.now.heads.items (bre_tree bre.now))
            (told_by_word (bre_tree self.now.replaced) self.now.matched.items text.now (bre_tree bre.now))) }
    {
        match told_by_heads(&self.heads, bre) {
            Some(answer) => Ok(Some(answer)),
            None => told_by_word(&self.replaced, &self.matched, text, bre),
        }
    }

    /// Whether it matches a pattern, where that is known.
    pub(crate) fn told(&self, alloc: Global, pattern: &[u8]) -> Result<Option<bool>, AllocError>
        ensures value { IfOk result (λ told. told ≡ fresh_left self.now pattern.now) }
    {
        match Bre::read(alloc, pattern) {
            Ok(bre) => self.told_of(pattern, &bre),
            Err(BreFault::Memory) => Err(AllocError),
            Err(_) => Ok(None),
        }
    }
}
