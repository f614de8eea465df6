//! What is known of lines that take the place of others, pattern by pattern.

ghost use Rattle.std.specs.Prelude.{◌≡◌, ◌∷◌, [], false, Some, map, IfOk};
ghost use Rattle.bre_parse.specs.Bre.{bre_tree};
ghost use Rattle.bre_parse.specs.Match.{match_from};
ghost use Rattle.ed_base.specs.Lines.{lines_of};
ghost use Rattle.std.specs.Option.{is_some};
ghost use Rattle.ed_rules.specs.facts.EditedFacts.{entered_line};
ghost use Rattle.ed_rules.specs.facts.NewLines.{fresh_of, is_yes, tested, tested_by};

use crate::line_facts::rewritten::RewrittenLine;
use crate::state::Old;
use bre_match::Searcher;
use bre_parse::Bre;
use bre_parse::fault::BreFault;
use ed_base::{Text, next_line};
use std::alloc::{AllocError, Global};
use zones::Name;

/// The lines that take the place of others.
#[derive(Clone, Copy)]
pub(crate) enum NewLines<'a> {
    /// None.
    Gone,
    /// Those that are entered.
    Entered(&'a Text),
    /// One like the line of the second address.
    Copied(&'a Old),
    /// The one that `s` makes of another.
    Rewritten(&'a RewrittenLine),
    /// One, of which nothing is known.
    One,
    /// Any number of them, of which nothing is known.
    Any,
}

/// What is known of a pattern in them.
#[derive(Drop)]
pub(crate) struct Tested {
    /// None of them matches.
    pub(crate) free: bool,
    /// None but the last may match.
    pub(crate) free_before_last: bool,
    /// Whether the last one matches, where it is known.
    pub(crate) last: Option<bool>,
}

fn is_yes(answer: Option<bool>) -> bool
    ensures value { result ≡ is_yes answer }
{
    match answer {
        Some(true) => true,
        _ => false,
    }
}

/// Of lines none of which matches.
fn test_none(text: &[u8]) -> Tested
    ensures value { result ≡ tested_by (map (λ line. false) (lines_of text.now)) }
{
    let last = match next_line(text) {
        Some(_) => Some(false),
        None => None,
    };
    Tested {
        free: true,
        free_before_last: true,
        last,
    }
}

/// Of one line, of which this is known.
fn test_line(answer: Option<bool>) -> Tested
    ensures value { result ≡ tested [] (Some ((λ pattern. answer) ∷ [])) }
{
    let free = match answer {
        Some(false) => true,
        _ => false,
    };
    Tested {
        free,
        free_before_last: true,
        last: answer,
    }
}

/// Of the lines of these bytes. One searcher looks through all of them.
fn test_each(alloc: Global, pattern: &Bre, text: &[u8]) -> Result<Tested, AllocError>
    ensures value { IfOk result (λ tested. tested ≡
        tested_by (map (λ line. is_some (match_from (bre_tree pattern.now) line 0)) (lines_of text.now))) }
{
    let mut searcher = Searcher::new(alloc, pattern);
    let mut left = text;
    let mut before = false;
    let mut last = None;
    while let Some((line, rest)) = next_line(left) {
        before = before || is_yes(last);
        last = Some(searcher.matches(line)?);
        left = rest;
    }
    Ok(Tested {
        free: !before && !is_yes(last),
        free_before_last: !before,
        last,
    })
}

/// Of the lines of these bytes; a text that is no pattern matches none.
fn test_lines(alloc: Global, pattern: &[u8], text: &[u8]) -> Result<Tested, AllocError>
    ensures value { IfOk result (λ known. known ≡ tested pattern.now (Some (map entered_line (lines_of text.now)))) }
{
    match Bre::read(alloc, pattern) {
        Ok(bre) => test_each(alloc, &bre, text),
        Err(fault) => match fault {
            BreFault::Memory => Err(AllocError),
            _ => Ok(test_none(text)),
        },
    }
}

impl NewLines<'_> {
    /// What is known of a pattern in these lines.
    pub(crate) fn test(self, alloc: Global, pattern: &[u8]) -> Result<Tested, AllocError>
        ensures value { IfOk result (λ known. known ≡ tested pattern.now (fresh_of self.entry)) }
    {
        match self {
            NewLines::Gone => Ok(Tested {
                free: true,
                free_before_last: true,
                last: None,
            }),
            NewLines::Entered(text) => test_lines(alloc, pattern, text.as_bytes()),
            NewLines::Copied(old) => Ok(test_line(
                old.facts.told(&old.zone, Name::SECOND_ADDRESS, pattern),
            )),
            NewLines::Rewritten(line) => Ok(test_line(line.told(alloc, pattern)?)),
            NewLines::One => Ok(test_line(None)),
            NewLines::Any => Ok(Tested {
                free: false,
                free_before_last: false,
                last: None,
            }),
        }
    }
}
