//! What is known of lines where some are carried elsewhere.

ghost use Rattle.std.specs.Prelude.{◌≡◌, ◌≤ℤ◌, ◌<◌, ◌&&◌, ◌||◌, ◌++◌, ◌∷◌, All, map, flat_map, pos, negsuc, IfOk, OnOk};
ghost use Rattle.zones.specs.Name as name;
ghost use Rattle.zones.specs.Name.{mark};
ghost use Rattle.ed_rules.specs.facts.Facts.{at, point_at, end, le, below};
ghost use Rattle.ed_rules.specs.facts.CarriedFacts.{stretch_carried, carried_facts};
ghost use Rattle.ed_rules.specs.facts.EditedFacts.{reading};
ghost use Rattle.ed_rules.specs.facts.NewLines.{left_of, last_aside, carried_by};
ghost use Rattle.ed_rules.specs.FactsAfter.{letters_that_stay};

use crate::line_facts::edited::{Edited, Gap, Kind, Look, add_told, looks_at};
use crate::line_facts::known::{is_at_most, may_hold_lines, name_of, plus_of};
use crate::line_facts::new_lines::NewLines;
use crate::line_facts::{ClearStretch, KnownLine, LineFacts, edge_of};
use crate::marks::Marks;
use crate::state::Old;
use ed_base::Texts;
use std::alloc::{AllocError, Global};
use zones::{Name, Zone};

/// Whether all between two places is before the lines that are carried and the place that they come to, or after both.
fn is_aside(zone: &Zone, x: Name, i: i64, y: Name, j: i64) -> bool
    requires small_first { (negsuc 9 ≤ℤ i) × (i ≤ℤ pos 9) }
    requires small_second { (negsuc 9 ≤ℤ j) × (j ≤ℤ pos 9) }
    ensures value { result ≡
        ((below zone.now (point_at y j) (at name.first_address) && le zone.now (point_at y j) (at name.target_address) (pos 0)) ||
        (below zone.now (at name.second_address) (point_at x i) && below zone.now (at name.target_address) (point_at x i))) }
{
    (is_at_most(zone, y, j, Name::FIRST_ADDRESS, 0, -1)
        && is_at_most(zone, y, j, Name::TARGET_ADDRESS, 0, 0))
        || (is_at_most(zone, Name::SECOND_ADDRESS, 0, x, i, -1)
            && is_at_most(zone, Name::TARGET_ADDRESS, 0, x, i, -1))
}

/// Whether it is known that a stretch is clear of a pattern then.
pub(super) fn is_carried(zone: &Zone, look: &Look, after: u8, before: u8) -> bool
    requires after_in_range { after < 33 }
    requires before_in_range { before < 33 }
    ensures value { result ≡
        stretch_carried zone.now look.now.own (record { after = after; before = before; pattern = look.now.pattern }) }
{
    let (x, i) = (name_of(after), plus_of(after));
    let (y, j) = (name_of(before), plus_of(before));
    may_hold_lines(zone, x, i, y, j)
        && (look.is_clear(zone, Name::ZERO, 0, Name::LAST_LINE, 1)
            || (look.is_clear(zone, x, i, y, j) && is_aside(zone, x, i, y, j)))
}

impl Old {
    /// Adds the facts of the last line, if it is after all that is carried, and after the place that this comes to.
    fn add_last_aside(&self, lines: &mut Vec<KnownLine>) -> Result<(), AllocError>
        ensures value { OnOk result (lines.new.items ≡ lines.old.items ++ last_aside self.now.zone self.now.facts) }
    {
        let last = Name::LAST_LINE;
        if is_at_most(&self.zone, Name::SECOND_ADDRESS, 0, last, 0, -1)
            && is_at_most(&self.zone, Name::TARGET_ADDRESS, 0, last, 0, -1)
        {
            self.facts.add_kept(&[edge_of(last)], lines)
        } else {
            Ok(())
        }
    }

    /// The stretches of one kind that are left between the letters, 0 and the end.
    pub(super) fn stretches_between(
        &self,
        alloc: Global,
        edited: &Edited,
        kind: Kind,
        kept: Vec<u8>,
    ) -> Result<Vec<ClearStretch>, AllocError>
        requires in_range { All (λ x. x < 32) kept.items }
        ensures value { IfOk result (λ clear. clear.items ≡
            flat_map (left_of kind self.now.zone self.now.facts edited.now.gap edited.now.same.items (name.zero ∷ kept.items) (end ∷ kept.items))
            edited.now.looks.items) }
    {
        let mut afters = kept.clone()?;
        afters.insert(0, edge_of(Name::ZERO))?;
        let mut befores = kept;
        befores.insert(0, ClearStretch::END)?;
        let mut clear = Vec::new(alloc);
        let (afters, befores) = (afters.as_slice(), befores.as_slice());
        self.add_left(edited, kind, afters, befores, &mut clear)?;
        Ok(clear)
    }

    /// The facts after the addressed lines are carried to the target, of the letters that are sure, the last line and the current one; these
    /// patterns are looked at.
    pub(crate) fn carried(
        &self,
        alloc: Global,
        after: &Marks,
        patterns: &Texts,
    ) -> Result<LineFacts, AllocError>
        ensures value { IfOk result (λ facts. facts ≡ carried_facts self.now.zone self.now.facts
            (map (λ letter. mark letter) (letters_that_stay reading self.now after.now)) patterns.now) }
    {
        let kept = self.letters_that_stay(alloc, &Gap::after(Name::FIRST_ADDRESS), after)?;
        let looks = looks_at(alloc, &self.facts, NewLines::Copied(self), patterns)?;
        let (gap, same) = (Gap::addressed(), Vec::new(alloc));
        self.carried_by(alloc, &Edited { gap, same, looks }, kept)
    }

    /// The same by what is at hand.
    fn carried_by(
        &self,
        alloc: Global,
        edited: &Edited,
        kept: Vec<u8>,
    ) -> Result<LineFacts, AllocError>
        requires in_range { All (λ x. x < 32) kept.items }
        ensures value { IfOk result (λ facts. facts ≡
            carried_by self.now.zone self.now.facts edited.now.gap edited.now.same.items kept.items edited.now.looks.items) }
    {
        let mut lines = Vec::new(alloc);
        self.facts.add_kept(kept.as_slice(), &mut lines)?;
        self.add_last_aside(&mut lines)?;
        add_told(Name::CURRENT_LINE, edited.looks.as_slice(), &mut lines)?;
        let clear = self.stretches_between(alloc, edited, Kind::Carried, kept)?;
        Ok(LineFacts { lines, clear })
    }
}
