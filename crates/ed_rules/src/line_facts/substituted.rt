//! What is known of lines where those that match are changed, each into one.

ghost use Rattle.std.specs.Prelude.{◌≡◌, ◌≤ℤ◌, ◌<◌, ◌&&◌, ◌||◌, ◌++◌, ◌==◌, [], All, map, nat_eq, pos, negsuc, not, false, IfOk, OnOk};
ghost use Rattle.std.specs.List.{list_all, list_any, filter};
ghost use Rattle.zones.specs.Name as name;
ghost use Rattle.zones.specs.Name.{mark};
ghost use Rattle.ed_rules.specs.Choices.{texts_of};
ghost use Rattle.ed_rules.specs.facts.Facts.{at, point, point_at, le, may_hold_lines, is_clear, tells};
ghost use Rattle.ed_rules.specs.facts.EditedFacts.{reading};
ghost use Rattle.ed_rules.specs.facts.NewLines.{is_clear_of, spared_by};
ghost use Rattle.ed_rules.specs.facts.SubstitutedFacts.{is_spared, substituted_facts};
ghost use Rattle.ed_rules.specs.FactsAfter.{letters_that_stay};

use crate::choices::Choices;
use crate::line_facts::edited::{Edited, Gap, Kind, Look, is_among, looks_at};
use crate::line_facts::known::{is_at_most, may_hold_lines, name_of, plus_of};
use crate::line_facts::new_lines::NewLines;
use crate::line_facts::{ClearStretch, KnownLine, LineFacts, edge_of};
use crate::marks::Marks;
use crate::state::Old;
use ed_base::{Bytes, Texts};
use std::alloc::{AllocError, Global};
use zones::{Name, Zone};

/// The texts among these choices.
fn texts_of(alloc: Global, choices: &Choices) -> Result<Vec<Bytes>, AllocError>
    ensures value { IfOk result (λ texts. texts.items ≡ texts_of choices.now) }
{
    let mut texts = Vec::new(alloc);
    for choice in choices.members() {
        if let Some(text) = choice {
            texts.push(text.try_copy()?)?;
        }
    }
    Ok(texts)
}

impl LineFacts {
    /// Whether none of these patterns is known to have a match between two places.
    fn are_clear_of_each(
        &self,
        zone: &Zone,
        x: Name,
        i: i64,
        y: Name,
        j: i64,
        possible: &[Bytes],
    ) -> bool
        requires small_first { (negsuc 9 ≤ℤ i) × (i ≤ℤ pos 9) }
        requires small_second { (negsuc 9 ≤ℤ j) × (j ≤ℤ pos 9) }
        ensures value { result ≡ list_all (λ q. is_clear zone.now self.now (point_at x i) (point_at y j) q) possible.now }
    {
        for pattern in possible {
            if !self.are_clear(zone, x, i, y, j, pattern.as_slice()) {
                return false;
            }
        }
        true
    }

    /// Whether the line x is known to match none of these patterns.
    fn match_none(&self, zone: &Zone, x: Name, possible: &[Bytes]) -> bool
        ensures value { result ≡ list_all (λ q. tells zone.now self.now x q false) possible.now }
    {
        for pattern in possible {
            if !self.tell(zone, x, pattern.as_slice(), false) {
                return false;
            }
        }
        true
    }

    /// Whether the line x surely stays: it isn't addressed, or matches none of the patterns that may be looked for.
    fn spare_line(&self, zone: &Zone, x: Name, possible: &[Bytes]) -> bool
        ensures value { result ≡ is_spared zone.now self.now possible.now x }
    {
        is_at_most(zone, x, 0, Name::FIRST_ADDRESS, 0, -1)
            || is_at_most(zone, Name::SECOND_ADDRESS, 0, x, 0, -1)
            || self.match_none(zone, x, possible)
    }

    /// The facts of some names and of the last line, if their lines surely stay.
    fn spared_lines(
        &self,
        alloc: Global,
        zone: &Zone,
        possible: &[Bytes],
        kept: &[u8],
    ) -> Result<Vec<KnownLine>, AllocError>
        ensures value { IfOk result (λ lines. lines.items ≡ filter
            (λ f. (list_any (nat_eq f.name) kept.now || f.name == name.last_line) && is_spared zone.now self.now possible.now f.name)
            self.now.lines) }
    {
        let mut lines = Vec::new(alloc);
        for fact in &self.lines {
            let edge = edge_of(fact.name);
            if (is_among(edge, kept) || edge == edge_of(Name::LAST_LINE))
                && self.spare_line(zone, fact.name, possible)
            {
                lines.push(fact.try_copy()?)?;
            }
        }
        Ok(lines)
    }
}

/// Whether a stretch was clear of its pattern, and each of its lines surely stays.
pub(super) fn is_spared(
    zone: &Zone,
    facts: &LineFacts,
    edited: &Edited,
    look: &Look,
    after: u8,
    before: u8,
) -> bool
    requires after_in_range { after < 33 }
    requires before_in_range { before < 33 }
    ensures value { result ≡ (may_hold_lines zone.now (point after) (point before) && (is_clear_of zone.now look.now (point after) (point before) &&
        (le zone.now (point before) (at name.first_address) (pos 0) || (le zone.now (at name.second_address) (point after) (pos 0) ||
        list_all (λ q. is_clear zone.now facts.now (point after) (point before) q) edited.now.same.items)))) }
{
    let (x, i) = (name_of(after), plus_of(after));
    let (y, j) = (name_of(before), plus_of(before));
    may_hold_lines(zone, x, i, y, j)
        && look.is_clear(zone, x, i, y, j)
        && (is_at_most(zone, y, j, Name::FIRST_ADDRESS, 0, 0)
            || is_at_most(zone, Name::SECOND_ADDRESS, 0, x, i, 0)
            || facts.are_clear_of_each(zone, x, i, y, j, edited.same.as_slice()))
}

impl Old {
    /// The facts after those of the addressed lines that match are changed, each into one line, of the letters that are sure and the last line;
    /// `possible` are the patterns that may be looked for, and `patterns` are looked at.
    pub(crate) fn substituted(
        &self,
        alloc: Global,
        possible: &Choices,
        after: &Marks,
        patterns: &Texts,
    ) -> Result<LineFacts, AllocError>
        ensures value { IfOk result (λ facts. facts ≡ substituted_facts self.now.zone self.now.facts (texts_of possible.now) []
            (map (λ letter. mark letter) (letters_that_stay reading self.now after.now)) patterns.now) }
    {
        let kept = self.letters_that_stay(alloc, &Gap::after(Name::FIRST_ADDRESS), after)?;
        let looks = looks_at(alloc, &self.facts, NewLines::Gone, patterns)?;
        let (gap, same) = (Gap::addressed(), texts_of(alloc, possible)?);
        self.spared_by(alloc, &Edited { gap, same, looks }, kept)
    }

    /// The same by what is at hand.
    fn spared_by(
        &self,
        alloc: Global,
        edited: &Edited,
        kept: Vec<u8>,
    ) -> Result<LineFacts, AllocError>
        requires in_range { All (λ x. x < 32) kept.items }
        ensures value { IfOk result (λ facts. facts ≡
            spared_by self.now.zone self.now.facts edited.now.gap edited.now.same.items kept.items edited.now.looks.items) }
    {
        let possible = edited.same.as_slice();
        let lines = self
            .facts
            .spared_lines(alloc, &self.zone, possible, kept.as_slice())?;
        let clear = self.stretches_between(alloc, edited, Kind::Spared, kept)?;
        Ok(LineFacts { lines, clear })
    }
}
