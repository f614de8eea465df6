//! `s`: matches are replaced, line by line (XCU ed, "Substitute Command").
ghost use Rattle.std.specs.Prelude.{◌≡◌, ◌≢◌, ◌≤◌, length, Some, IfOk, IsTrue, IsOkAnd, MatchResult, OnErr};
ghost use Rattle.std.specs.List.{list_any};
ghost use Rattle.ed_base.specs.declared.fault.Fault.TheVariants.{Memory};
ghost use Rattle.ed_syntax.specs.PublicTypes.{suffix_value};
ghost use Rattle.ed_syntax.specs.meaning.States.{last};
ghost use Rattle.ed_syntax.specs.meaning.Verbs.{is_split};
ghost use Rattle.ed_syntax.specs.meaning.SubstitutedLines.{flag_written, substitute};
ghost use Rattle.ed_commands.specs.Editors.{Tells, left_by, span_value};
ghost use Rattle.ed_commands.specs.Rewriting.{remembering};

use crate::editor::Editor;
use crate::editor::addressing::Span;
use crate::editor::lines::write_lines;
use crate::editor::past::Before;
use crate::editor::rewriting::rewrite_lines;
use ed_base::{Fault, Pieces};
use ed_syntax::{Form, Part, Pattern, Replacement, Which};
use line_store::LineStore;
use std::alloc::{AllocError, Global};

/// Whether a line may be split by the replacement.
fn splits(replacement: &Replacement) -> bool
    ensures value { result ≡ list_any is_split replacement.now }
{
    for part in replacement.parts() {
        if is_a_split(*part) {
            return true;
        }
    }
    false
}

fn is_a_split(part: Part) -> bool
    ensures value { result ≡ is_split part }
{
    matches!(part, Part::Split)
}

/// Whether two parts are the same.
fn is_same(part: Part, other: Part) -> bool
    ensures same { IsTrue result → part ≡ other }
{
    match (part, other) {
        (Part::Literal(byte), Part::Literal(another)) => byte == another,
        (Part::Group(group), Part::Group(another)) => group == another,
        (Part::Match, Part::Match) | (Part::Split, Part::Split) => true,
        _ => false,
    }
}

/// Whether two replacements have the same parts.
fn have_same_parts(parts: &[Part], others: &[Part]) -> bool
    ensures same { IsTrue result → parts.now ≡ others.now }
{
    if parts.len() != others.len() {
        return false;
    }
    for i in 0..parts.len() {
        if !is_same(parts[i], others[i]) {
            return false;
        }
    }
    true
}

/// Whether this replacement is the one that is remembered.
fn is_remembered(remembered: &Option<Replacement>, own: &Replacement) -> bool
    ensures same { IsTrue result → remembered.now ≡ Some own.now }
{
    match remembered {
        Some(remembered) => have_same_parts(remembered.parts(), own.parts()),
        None => false,
    }
}

/// What the flag writes of the line of this number.
fn flag_written<S: LineStore>(
    alloc: Global,
    flag: Option<Form>,
    number: usize,
    store: &S,
) -> Result<Pieces, AllocError>
    requires first { 1 ≤ number }
    requires last { number ≤ length (S.lines store.now) }
    ensures value { IfOk result (λ output. output ≡ flag_written (suffix_value flag) number (S.lines store.now)) }
{
    let mut output = Pieces::new(alloc);
    if let Some(form) = flag {
        let here = Span {
            first: number,
            last: number,
        };
        write_lines(alloc, &mut output, form, here, store)?;
    }
    Ok(output)
}

impl<S: LineStore> Editor<S> {
    /// `s`: the last line that came of it is current, and is written in the form of the flag. In a list it isn't a fault that no
    /// line matched (our choice).
    pub(crate) fn substitute(
        &mut self,
        pattern: &Option<Pattern>,
        replacement: &Option<Replacement>,
        which: &Which,
        flag: Option<Form>,
        span: Span,
        before: Before,
    ) -> Result<Pieces, Fault>
        requires first { 1 ≤ span.first }
        requires order { span.first ≤ span.last }
        requires last { span.last ≤ last self.old.state }
        ensures exact { let expected = substitute before.listed pattern.now replacement.now which.now (suffix_value flag) (span_value span) self.old.state in
            MatchResult result (λ output. IsOkAnd expected (λ o. (self.new.state ≡ left_by before self.old.state o) × (output ≡ o.output)))
            (λ fault. fault ≢ Memory → expected ≡ Err fault) }
        ensures failed { self.new.failed ≡ self.old.failed }
    {
        self.remember_both(pattern, replacement, before.listed)?;
        let Some(replacement) = &self.replacement else {
            unreachable!()
        };
        let Some(pattern) = &mut self.pattern else {
            unreachable!()
        };
        let made = rewrite_lines(
            self.alloc,
            pattern,
            replacement,
            which,
            span,
            before,
            &mut self.store,
            &mut self.past,
        )?;
        let Some(line) = made else {
            if before.listed {
                return Ok(Pieces::new(self.alloc));
            }
            return Err(Fault::NoMatch);
        };
        self.current = line;
        self.changed = true;
        Ok(flag_written(self.alloc, flag, line, &self.store)?)
    }

    /// The command's own pattern and replacement are remembered, once it is known that there are both to use.
    fn remember_both(
        &mut self,
        pattern: &Option<Pattern>,
        replacement: &Option<Replacement>,
        listed: bool,
    ) -> Result<(), Fault>
        ensures remembered { Tells (λ _. self.new.state) (remembering listed pattern.now replacement.now self.old.state) result }
        ensures unchanged { OnErr result (self.new ≡ self.old) }
        ensures failed { self.new.failed ≡ self.old.failed }
    {
        if replacement.is_none() {
            match &self.replacement {
                Some(remembered) if !(listed && splits(remembered)) => {}
                _ => return Err(Fault::Replacement),
            }
        }
        if pattern.is_none() && self.pattern.is_none() {
            return Err(Fault::Pattern);
        }
        // In a list it is mostly the one that is remembered already, since the line before.
        let replacement = match replacement {
            Some(own) if !is_remembered(&self.replacement, own) => Some(own.try_copy()?),
            _ => None,
        };
        self.remember(pattern)?;
        if replacement.is_some() {
            self.replacement = replacement;
        }
        Ok(())
    }
}
