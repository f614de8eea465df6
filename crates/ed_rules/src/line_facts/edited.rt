//! What is known of lines where some give way to new ones.

ghost use Rattle.std.specs.Prelude.{◌≡◌, ◌≤ℤ◌, ◌<◌, ◌++◌, [], None, All, map, flat_map, nat_eq, pos, negsuc, true, IfOk, OnOk};
ghost use Rattle.std.specs.List.{list_any, filter};
ghost use Rattle.zones.specs.Name as name;
ghost use Rattle.zones.specs.Name.{mark};
ghost use Rattle.ed_rules.specs.facts.Facts.{at, point_at, below, is_clear, told, are_opposite, differ};
ghost use Rattle.ed_rules.specs.facts.EditedFacts.{edit_of, puts_in, is_single, stays, told_fact, edited};
ghost use Rattle.ed_rules.specs.facts.RewrittenLine.{matched_at};
ghost use Rattle.ed_rules.specs.facts.NewLines.{fresh_of, clear_of, matched_in, look_at, is_clear_of, is_outside_by, is_joined_by, is_kept_by, is_left, left_from, left_of, last_left, all_left, edited_by};
ghost use Rattle.ed_rules.specs.FactsAfter.{stays_marked, letters_that_stay};

use crate::line_facts::carried::is_carried;
use crate::line_facts::known::{is_at_most, may_hold_lines, name_of, plus_of};
use crate::line_facts::new_lines::{NewLines, Tested};
use crate::line_facts::substituted::is_spared;
use crate::line_facts::{ClearStretch, KnownLine, LineFacts, edge_of};
use crate::marks::Marks;
use crate::state::Old;
use ed_base::{Bytes, Letter, Texts};
use std::alloc::{AllocError, Global};
use std::marker::Model;
use zones::{Name, Zone};

/// The lines that give way, from one place to another: a place is a name plus a number.
#[derive(Debug, Drop)]
pub(crate) struct Gap {
    from: Name,
    from_plus: i64,
    to: Name,
    to_plus: i64,
}

impl Model for Gap {
    ghost use Rattle.std.specs.Prelude.{◌≤ℤ◌, pos, negsuc};
    ghost use Rattle.ed_rules.specs.facts.Facts.{point_at};
    ghost use Rattle.ed_rules.specs.facts.EditedFacts.{Between};

    ghost Value = { Between };

    ghost view = { λ gap. record { from = point_at gap.from gap.from_plus; to = point_at gap.to gap.to_plus } };

    ghost invariant = { λ gap. (negsuc 0 ≤ℤ gap.from_plus) × (gap.from_plus ≤ℤ pos 1) × (negsuc 0 ≤ℤ gap.to_plus) × (gap.to_plus ≤ℤ pos 1) };
}

/// Which of its names a stretch has of the line that is current then: none, the second, the first; or none where lines are carried elsewhere,
/// or those that match are changed.
#[derive(Clone, Copy)]
pub(super) enum Kind {
    Staying,
    Before,
    After,
    Carried,
    Spared,
}

/// An edit: the lines that give way, the patterns that the line which gives way is known to match, or those that may be looked for, and what is
/// at hand of each pattern.
#[derive(Drop)]
pub(super) struct Edited {
    pub(super) gap: Gap,
    pub(super) same: Vec<Bytes>,
    pub(super) looks: Vec<Look>,
}

/// A pattern, its stretches, and what is known of it in the new lines.
#[derive(Drop)]
pub(super) struct Look {
    pattern: Bytes,
    own: LineFacts,
    tested: Tested,
}

impl Look {
    /// Whether it is known that no line between two places matches the pattern.
    pub(super) fn is_clear(&self, zone: &Zone, x: Name, i: i64, y: Name, j: i64) -> bool
        requires small_first { (negsuc 9 ≤ℤ i) × (i ≤ℤ pos 9) }
        requires small_second { (negsuc 9 ≤ℤ j) × (j ≤ℤ pos 9) }
        ensures value { result ≡ is_clear_of zone.now self.now (point_at x i) (point_at y j) }
    {
        self.own
            .are_clear(zone, x, i, y, j, self.pattern.as_slice())
    }
}

impl Gap {
    /// The addressed lines.
    pub(crate) fn addressed() -> Gap
        ensures value { result ≡ record { from = at name.first_address; to = at name.second_address } }
    {
        Gap {
            from: Name::FIRST_ADDRESS,
            from_plus: 0,
            to: Name::SECOND_ADDRESS,
            to_plus: 0,
        }
    }

    /// None, after the line x.
    pub(crate) fn after(x: Name) -> Gap
        ensures value { result ≡ record { from = point_at x (pos 1); to = at x } }
    {
        Gap {
            from: x,
            from_plus: 1,
            to: x,
            to_plus: 0,
        }
    }

    /// None, before the line x.
    pub(crate) fn before(x: Name) -> Gap
        ensures value { result ≡ record { from = at x; to = point_at x (negsuc 0) } }
    {
        Gap {
            from: x,
            from_plus: 0,
            to: x,
            to_plus: -1,
        }
    }

    /// Whether x + i is before all that give way.
    fn is_after(&self, zone: &Zone, x: Name, i: i64) -> bool
        requires small { (negsuc 9 ≤ℤ i) × (i ≤ℤ pos 9) }
        ensures value { result ≡ below zone.now (point_at x i) self.now.from }
    {
        is_at_most(zone, x, i, self.from, self.from_plus, -1)
    }

    /// Whether x + i is after all that give way.
    fn is_before(&self, zone: &Zone, x: Name, i: i64) -> bool
        requires small { (negsuc 9 ≤ℤ i) × (i ≤ℤ pos 9) }
        ensures value { result ≡ below zone.now self.now.to (point_at x i) }
    {
        is_at_most(zone, self.to, self.to_plus, x, i, -1)
    }

    /// Whether lines are put in, and none gives way.
    fn is_empty(&self) -> bool
        ensures value { result ≡ puts_in (edit_of self.now None) }
    {
        self.from.place() == self.to.place() && self.from_plus == self.to_plus + 1
    }

    /// Whether one line gives way.
    fn is_single(&self, zone: &Zone) -> bool
        ensures value { result ≡ is_single zone.now (edit_of self.now None) }
    {
        let (from, i, to, j) = (self.from, self.from_plus, self.to, self.to_plus);
        i == 0 && is_at_most(zone, from, i, to, j, 0) && is_at_most(zone, to, j, from, i, 0)
    }
}

fn are_opposite(one: Option<bool>, other: Option<bool>) -> bool
    ensures value { result ≡ are_opposite one other }
{
    match (one, other) {
        (Some(true), Some(false)) => true,
        (Some(false), Some(true)) => true,
        _ => false,
    }
}

impl LineFacts {
    /// Whether a pattern is known to match one of the lines x and y, and not the other.
    fn tell_apart(&self, zone: &Zone, x: Name, y: Name, pattern: &[u8]) -> bool
        ensures value { result ≡ are_opposite (told zone.now self.now x pattern.now) (told zone.now self.now y pattern.now) }
    {
        are_opposite(self.told(zone, x, pattern), self.told(zone, y, pattern))
    }

    /// Whether the lines x and y are known to be two.
    pub(crate) fn differ(&self, zone: &Zone, x: Name, y: Name) -> bool
        ensures value { result ≡ differ zone.now self.now x y }
    {
        self.lines_differ(zone, x, y) || self.stretches_differ(zone, x, y)
    }

    fn lines_differ(&self, zone: &Zone, x: Name, y: Name) -> bool
        ensures value { result ≡
            list_any (λ f. are_opposite (told zone.now self.now x f.pattern) (told zone.now self.now y f.pattern)) self.now.lines }
    {
        for fact in &self.lines {
            if self.tell_apart(zone, x, y, fact.pattern.as_slice()) {
                return true;
            }
        }
        false
    }

    fn stretches_differ(&self, zone: &Zone, x: Name, y: Name) -> bool
        ensures value { result ≡
            list_any (λ s. are_opposite (told zone.now self.now x s.pattern) (told zone.now self.now y s.pattern)) self.now.clear }
    {
        for stretch in &self.clear {
            if self.tell_apart(zone, x, y, stretch.pattern.as_slice()) {
                return true;
            }
        }
        false
    }

    /// The stretches of a pattern.
    fn clear_of(&self, alloc: Global, pattern: &[u8]) -> Result<LineFacts, AllocError>
        ensures value { IfOk result (λ own. own ≡ record { lines = []; clear = clear_of pattern.now self.now }) }
    {
        let mut clear = Vec::new(alloc);
        for stretch in &self.clear {
            if stretch.pattern.as_slice() == pattern {
                clear.push(stretch.try_copy()?)?;
            }
        }
        Ok(LineFacts {
            lines: Vec::new(alloc),
            clear,
        })
    }

    /// The patterns that the line x is known to match.
    pub(crate) fn matched_at(
        &self,
        alloc: Global,
        zone: &Zone,
        x: Name,
        patterns: &Texts,
    ) -> Result<Vec<Bytes>, AllocError>
        ensures value { IfOk result (λ same. same.items ≡ matched_at zone.now self.now x patterns.now) }
    {
        let mut same = Vec::new(alloc);
        for pattern in patterns.members() {
            if self.tell(zone, x, pattern.as_slice(), true) {
                same.push(pattern.try_copy()?)?;
            }
        }
        Ok(same)
    }

    /// The patterns that the line which gives way is known to match, if it is one.
    fn matched_in(
        &self,
        alloc: Global,
        zone: &Zone,
        gap: &Gap,
        patterns: &Texts,
    ) -> Result<Vec<Bytes>, AllocError>
        ensures value { IfOk result (λ same. same.items ≡ matched_in zone.now self.now gap.now patterns.now) }
    {
        if gap.is_single(zone) {
            self.matched_at(alloc, zone, gap.from, patterns)
        } else {
            Ok(Vec::new(alloc))
        }
    }

    /// Whether it is known that no line between two places matches one of these patterns.
    fn are_clear_of_any(
        &self,
        zone: &Zone,
        x: Name,
        i: i64,
        y: Name,
        j: i64,
        same: &[Bytes],
    ) -> bool
        requires small_first { (negsuc 9 ≤ℤ i) × (i ≤ℤ pos 9) }
        requires small_second { (negsuc 9 ≤ℤ j) × (j ≤ℤ pos 9) }
        ensures value { result ≡ list_any (λ q. is_clear zone.now self.now (point_at x i) (point_at y j) q) same.now }
    {
        for pattern in same {
            if self.are_clear(zone, x, i, y, j, pattern.as_slice()) {
                return true;
            }
        }
        false
    }
}

impl Old {
    /// Whether the line x surely isn't one of those that give way.
    fn stays(&self, gap: &Gap, x: Name) -> bool
        ensures value { result ≡ stays self.now.zone self.now.facts (edit_of gap.now None) x }
    {
        gap.is_empty()
            || gap.is_after(&self.zone, x, 0)
            || gap.is_before(&self.zone, x, 0)
            || (gap.is_single(&self.zone) && self.facts.differ(&self.zone, x, gap.from))
    }

    /// Whether a letter surely marks a line before and after, which isn't one of those that give way.
    fn stays_marked(&self, gap: &Gap, after: &Marks, letter: Letter) -> bool
        ensures value { result ≡ stays_marked (edit_of gap.now None) self.now after.now letter }
    {
        self.marks.is_sure(letter) && after.is_sure(letter) && self.stays(gap, Name::of(letter))
    }

    /// The letters that stay, by their names.
    pub(super) fn letters_that_stay(
        &self,
        alloc: Global,
        gap: &Gap,
        after: &Marks,
    ) -> Result<Vec<u8>, AllocError>
        ensures value { IfOk result (λ kept. kept.items ≡ map mark (letters_that_stay (edit_of gap.now None) self.now after.now)) }
        ensures in_range { IfOk result (λ kept. All (λ x. x < 32) kept.items) }
    {
        let mut kept = Vec::new(alloc);
        for place in 0..Letter::COUNT {
            let letter = Letter::at(place);
            if self.stays_marked(gap, after, letter) {
                kept.push(edge_of(Name::of(letter)))?;
            }
        }
        Ok(kept)
    }
}

/// Whether no line of a stretch gives way: they are on one side, or what gives way matches what none of them does.
fn is_outside(
    zone: &Zone,
    facts: &LineFacts,
    edited: &Edited,
    x: Name,
    i: i64,
    y: Name,
    j: i64,
) -> bool
    requires small_first { (negsuc 9 ≤ℤ i) × (i ≤ℤ pos 9) }
    requires small_second { (negsuc 9 ≤ℤ j) × (j ≤ℤ pos 9) }
    ensures value { result ≡
        is_outside_by zone.now facts.now edited.now.gap edited.now.same.items (point_at x i) (point_at y j) }
{
    edited.gap.is_before(zone, x, i)
        || edited.gap.is_after(zone, y, j)
        || facts.are_clear_of_any(zone, x, i, y, j, edited.same.as_slice())
}

/// Whether what is left on either side of lines that don't match was clear.
fn is_joined(zone: &Zone, edited: &Edited, look: &Look, x: Name, i: i64, y: Name, j: i64) -> bool
    requires small_first { (negsuc 9 ≤ℤ i) × (i ≤ℤ pos 9) }
    requires small_second { (negsuc 9 ≤ℤ j) × (j ≤ℤ pos 9) }
    ensures value { result ≡ is_joined_by zone.now edited.now.gap look.now (point_at x i) (point_at y j) }
{
    let gap = &edited.gap;
    look.tested.free
        && gap.is_after(zone, x, i)
        && gap.is_before(zone, y, j)
        && look.is_clear(zone, x, i, gap.from, gap.from_plus)
        && look.is_clear(zone, gap.to, gap.to_plus, y, j)
}

/// Whether a stretch was clear, and is as it was but for lines that don't match; or whether what is left on either side of such lines was
/// clear.
#[tactic(auto, unfolding(crate::specs::facts::NewLines::is_kept_by))]
fn is_kept(
    zone: &Zone,
    facts: &LineFacts,
    edited: &Edited,
    look: &Look,
    x: Name,
    i: i64,
    y: Name,
    j: i64,
) -> bool
    requires small_first { (negsuc 9 ≤ℤ i) × (i ≤ℤ pos 9) }
    requires small_second { (negsuc 9 ≤ℤ j) × (j ≤ℤ pos 9) }
    ensures value { result ≡
        is_kept_by zone.now facts.now edited.now.gap edited.now.same.items look.now (point_at x i) (point_at y j) }
{
    (look.is_clear(zone, x, i, y, j)
        && (look.tested.free || is_outside(zone, facts, edited, x, i, y, j)))
        || is_joined(zone, edited, look, x, i, y, j)
}

/// Whether a stretch is left.
fn is_left(
    zone: &Zone,
    facts: &LineFacts,
    edited: &Edited,
    look: &Look,
    kind: Kind,
    after: u8,
    before: u8,
) -> bool
    requires after_in_range { after < 33 }
    requires before_in_range { before < 33 }
    ensures value { result ≡
        is_left kind zone.now facts.now edited.now.gap edited.now.same.items look.now after before }
{
    let gap = &edited.gap;
    let (x, i) = (name_of(after), plus_of(after));
    let (y, j) = (name_of(before), plus_of(before));
    match kind {
        Kind::Staying => {
            may_hold_lines(zone, x, i, y, j) && is_kept(zone, facts, edited, look, x, i, y, j)
        }
        Kind::Before => {
            look.tested.free_before_last
                && gap.is_after(zone, x, i)
                && look.is_clear(zone, x, i, gap.from, gap.from_plus)
        }
        Kind::After => {
            gap.is_before(zone, y, j) && look.is_clear(zone, gap.to, gap.to_plus, y, j)
        }
        Kind::Carried => is_carried(zone, look, after, before),
        Kind::Spared => is_spared(zone, facts, edited, look, after, before),
    }
}

/// Adds the stretches of one pattern that are left from one name.
fn add_from(
    zone: &Zone,
    facts: &LineFacts,
    edited: &Edited,
    look: &Look,
    kind: Kind,
    after: u8,
    befores: &[u8],
    clear: &mut Vec<ClearStretch>,
) -> Result<(), AllocError>
    requires after_in_range { after < 33 }
    requires befores_in_range { All (λ y. y < 33) befores.now }
    ensures value { OnOk result (clear.new.items ≡ clear.old.items ++
        left_from kind zone.now facts.now edited.now.gap edited.now.same.items befores.now look.now after) }
{
    for before in befores {
        let before = *before;
        if is_left(zone, facts, edited, look, kind, after, before) {
            let pattern = look.pattern.try_copy()?;
            clear.push(ClearStretch {
                after,
                before,
                pattern,
            })?;
        }
    }
    Ok(())
}

/// Adds the stretches of one pattern that are left.
fn add_of(
    zone: &Zone,
    facts: &LineFacts,
    edited: &Edited,
    look: &Look,
    kind: Kind,
    afters: &[u8],
    befores: &[u8],
    clear: &mut Vec<ClearStretch>,
) -> Result<(), AllocError>
    requires afters_in_range { All (λ x. x < 33) afters.now }
    requires befores_in_range { All (λ y. y < 33) befores.now }
    ensures value { OnOk result (clear.new.items ≡ clear.old.items ++
        left_of kind zone.now facts.now edited.now.gap edited.now.same.items afters.now befores.now look.now) }
{
    for after in afters {
        add_from(zone, facts, edited, look, kind, *after, befores, clear)?;
    }
    Ok(())
}

/// What is at hand of each of these patterns.
pub(super) fn looks_at(
    alloc: Global,
    facts: &LineFacts,
    new: NewLines<'_>,
    patterns: &Texts,
) -> Result<Vec<Look>, AllocError>
    ensures value { IfOk result (λ looks. looks.items ≡ map (look_at facts.now (fresh_of new.entry)) patterns.now) }
{
    let mut looks = Vec::new(alloc);
    for pattern in patterns.members() {
        let tested = new.test(alloc, pattern.as_slice())?;
        let own = facts.clear_of(alloc, pattern.as_slice())?;
        let pattern = pattern.try_copy()?;
        looks.push(Look {
            pattern,
            own,
            tested,
        })?;
    }
    Ok(looks)
}

/// Adds what is known of the last new line, as facts of a name.
pub(super) fn add_told(
    name: Name,
    looks: &[Look],
    lines: &mut Vec<KnownLine>,
) -> Result<(), AllocError>
    ensures value { OnOk result (lines.new.items ≡ lines.old.items ++
        flat_map (λ look. told_fact name look.pattern look.tested.last) looks.now) }
{
    for look in looks {
        if let Some(matches) = look.tested.last {
            let pattern = look.pattern.try_copy()?;
            lines.push(KnownLine {
                name,
                pattern,
                matches,
            })?;
        }
    }
    Ok(())
}

/// Whether an edge is one of these.
pub(super) fn is_among(edge: u8, edges: &[u8]) -> bool
    ensures value { result ≡ list_any (nat_eq edge) edges.now }
{
    for other in edges {
        if edge == *other {
            return true;
        }
    }
    false
}

impl LineFacts {
    /// Adds the facts of some names.
    pub(super) fn add_kept(&self, kept: &[u8], lines: &mut Vec<KnownLine>) -> Result<(), AllocError>
        ensures value { OnOk result (lines.new.items ≡ lines.old.items ++ filter (λ f. list_any (nat_eq f.name) kept.now) self.now.lines) }
    {
        for fact in &self.lines {
            if is_among(edge_of(fact.name), kept) {
                lines.push(fact.try_copy()?)?;
            }
        }
        Ok(())
    }
}

impl Old {
    /// Adds the facts of the last line, which stays where it is after all that give way, and is the last new line where it isn't after them.
    fn add_last(&self, edited: &Edited, lines: &mut Vec<KnownLine>) -> Result<(), AllocError>
        ensures value { OnOk result (lines.new.items ≡ lines.old.items ++
            last_left self.now.zone self.now.facts edited.now.gap edited.now.looks.items) }
    {
        let gap = &edited.gap;
        if gap.is_before(&self.zone, Name::LAST_LINE, 0) {
            self.facts.add_kept(&[edge_of(Name::LAST_LINE)], lines)
        } else if is_at_most(&self.zone, Name::LAST_LINE, 0, gap.to, gap.to_plus, 0) {
            add_told(Name::LAST_LINE, edited.looks.as_slice(), lines)
        } else {
            Ok(())
        }
    }

    /// The facts after an edit, in which these lines give way to new ones, of the letters that stay, the last line and the current one; these
    /// patterns are looked at.
    pub(crate) fn edited(
        &self,
        alloc: Global,
        gap: Gap,
        new: NewLines<'_>,
        after: &Marks,
        patterns: &Texts,
    ) -> Result<LineFacts, AllocError>
        ensures value { IfOk result (λ facts. facts ≡ edited self.now.zone self.now.facts (edit_of gap (fresh_of new.entry))
            (map (λ letter. mark letter) (letters_that_stay (edit_of gap (fresh_of new.entry)) self.now after.now)) patterns.now) }
    {
        let kept = self.letters_that_stay(alloc, &gap, after)?;
        let same = self.facts.matched_in(alloc, &self.zone, &gap, patterns)?;
        let looks = looks_at(alloc, &self.facts, new, patterns)?;
        self.edited_by(alloc, &Edited { gap, same, looks }, kept)
    }

    /// The same by what is at hand.
    fn edited_by(
        &self,
        alloc: Global,
        edited: &Edited,
        kept: Vec<u8>,
    ) -> Result<LineFacts, AllocError>
        requires in_range { All (λ x. x < 32) kept.items }
        ensures value { IfOk result (λ facts. facts ≡
            edited_by self.now.zone self.now.facts edited.now.gap edited.now.same.items kept.items edited.now.looks.items) }
    {
        let mut lines = Vec::new(alloc);
        self.facts.add_kept(kept.as_slice(), &mut lines)?;
        self.add_last(edited, &mut lines)?;
        add_told(Name::CURRENT_LINE, edited.looks.as_slice(), &mut lines)?;
        let clear = self.stretches_left(alloc, edited, kept)?;
        Ok(LineFacts { lines, clear })
    }

    /// Adds the stretches of one kind that are left from one of these names to one of those.
    pub(super) fn add_left(
        &self,
        edited: &Edited,
        kind: Kind,
        afters: &[u8],
        befores: &[u8],
        clear: &mut Vec<ClearStretch>,
    ) -> Result<(), AllocError>
        requires afters_in_range { All (λ x. x < 33) afters.now }
        requires befores_in_range { All (λ y. y < 33) befores.now }
        ensures value { OnOk result (clear.new.items ≡ clear.old.items ++
            flat_map (left_of kind self.now.zone self.now.facts edited.now.gap edited.now.same.items afters.now befores.now) edited.now.looks.items) }
    {
        for look in &edited.looks {
            add_of(
                &self.zone,
                &self.facts,
                edited,
                look,
                kind,
                afters,
                befores,
                clear,
            )?;
        }
        Ok(())
    }

    /// The stretches between the names that stay, 0, the current line and the end.
    fn stretches_left(
        &self,
        alloc: Global,
        edited: &Edited,
        kept: Vec<u8>,
    ) -> Result<Vec<ClearStretch>, AllocError>
        requires in_range { All (λ x. x < 32) kept.items }
        ensures value { IfOk result (λ clear. clear.items ≡
            all_left self.now.zone self.now.facts edited.now.gap edited.now.same.items kept.items edited.now.looks.items) }
    {
        let current = [edge_of(Name::CURRENT_LINE)];
        let mut afters = kept.clone()?;
        afters.insert(0, edge_of(Name::ZERO))?;
        let mut befores = kept;
        befores.insert(0, ClearStretch::END)?;
        let (afters, befores) = (afters.as_slice(), befores.as_slice());
        let mut clear = Vec::new(alloc);
        self.add_left(edited, Kind::Staying, afters, befores, &mut clear)?;
        self.add_left(edited, Kind::Before, afters, &current, &mut clear)?;
        self.add_left(edited, Kind::After, &current, befores, &mut clear)?;
        Ok(clear)
    }
}
