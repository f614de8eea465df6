//! What is known of lines where a name becomes another one's line, or moves by a number.

ghost use Rattle.std.specs.Prelude.{◌≡◌, ◌≤ℤ◌, ◌++◌, ◌==◌, ◌&&◌, not, map, filter, find, flat_map, pos, negsuc, ℕ, List, IfOk, OnOk};
ghost use Rattle.zones.specs.Zone.{Bounds};
ghost use Rattle.ed_rules.specs.facts.Facts.{Stretch, told};
ghost use Rattle.ed_rules.specs.facts.FoundLines.{known_as};
ghost use Rattle.ed_rules.specs.facts.EditedFacts.{told_fact};
ghost use Rattle.ed_rules.specs.facts.AssignedFacts.{told_as, from_as, to_as, is_heir, handed_on, assigned, moved, shortened};

use crate::line_facts::known::{are_same, is_line};
use crate::line_facts::{ClearStretch, KnownLine, LineFacts, edge_of};
use ed_base::{Bytes, Texts};
use std::alloc::{AllocError, Global};
use zones::{Name, Zone};

impl LineFacts {
    /// Whether the line x matches the pattern, where that is known.
    pub fn told(&self, zone: &Zone, x: Name, pattern: &[u8]) -> Option<bool>
        ensures value { result ≡ told zone.now self.now x pattern.now }
    {
        if self.tell(zone, x, pattern, true) {
            Some(true)
        } else if self.tell(zone, x, pattern, false) {
            Some(false)
        } else {
            None
        }
    }

    /// What is told of the line y, as facts of x.
    fn told_as(
        &self,
        alloc: Global,
        zone: &Zone,
        x: Name,
        y: Name,
        patterns: &Texts,
    ) -> Result<Vec<KnownLine>, AllocError>
        ensures value { IfOk result (λ lines. lines.items ≡ told_as zone.now self.now x y patterns.now) }
    {
        let mut lines = Vec::new(alloc);
        if !is_line(zone, y) {
            return Ok(lines);
        }
        for pattern in patterns.members() {
            if let Some(matches) = self.told(zone, y, pattern.as_slice()) {
                let pattern = pattern.try_copy()?;
                lines.push(KnownLine {
                    name: x,
                    pattern,
                    matches,
                })?;
            }
        }
        Ok(lines)
    }

    /// The stretches from y, as those from x.
    fn from_as(&self, alloc: Global, x: Name, y: Name) -> Result<Vec<ClearStretch>, AllocError>
        ensures value { IfOk result (λ clear. clear.items ≡ from_as x y self.now.clear) }
    {
        let mut clear = Vec::new(alloc);
        let (after, old) = (edge_of(x), edge_of(y));
        for stretch in &self.clear {
            if stretch.after == old && stretch.before != after {
                let before = stretch.before;
                let pattern = stretch.pattern.try_copy()?;
                clear.push(ClearStretch {
                    after,
                    before,
                    pattern,
                })?;
            }
        }
        Ok(clear)
    }

    /// The stretches up to y, as those up to x.
    fn to_as(&self, alloc: Global, x: Name, y: Name) -> Result<Vec<ClearStretch>, AllocError>
        ensures value { IfOk result (λ clear. clear.items ≡ to_as x y self.now.clear) }
    {
        let mut clear = Vec::new(alloc);
        let (before, old) = (edge_of(x), edge_of(y));
        for stretch in &self.clear {
            if stretch.before == old && stretch.after != before {
                let after = stretch.after;
                let pattern = stretch.pattern.try_copy()?;
                clear.push(ClearStretch {
                    after,
                    before,
                    pattern,
                })?;
            }
        }
        Ok(clear)
    }

    /// Another name of the line x of which something is told.
    fn heir(&self, zone: &Zone, x: Name) -> Option<Name>
        ensures value { result ≡ find (is_heir zone.now x) (map (λ f. f.name) self.now.lines) }
    {
        for fact in &self.lines {
            if fact.name.place() != x.place() && are_same(zone, fact.name, x) {
                return Some(fact.name);
            }
        }
        None
    }

    /// What is told of the stretches from x and up to it is told by another name of its line too, if one is known. After an `Err` some of it
    /// may be done.
    fn hand_on(&mut self, alloc: Global, zone: &Zone, x: Name) -> Result<(), AllocError>
        ensures value { OnOk result (self.new ≡ handed_on x zone.now self.old) }
    {
        let Some(heir) = self.heir(zone, x) else {
            return Ok(());
        };
        let mut clear = self.from_as(alloc, heir, x)?;
        let mut to = self.to_as(alloc, heir, x)?;
        to.append(&mut self.clear)?;
        clear.append(&mut to)?;
        self.clear = clear;
        Ok(())
    }

    /// x becomes the line y: of these patterns it is told what y is told, and what was told by x of its old line another name of it tells. After
    /// an `Err` some of it may be done.
    pub(crate) fn assign(
        &mut self,
        alloc: Global,
        zone: &Zone,
        x: Name,
        y: Name,
        patterns: &Texts,
    ) -> Result<(), AllocError>
        ensures value { OnOk result (self.new ≡ (assigned x y patterns.now zone.now self.old).facts) }
    {
        self.hand_on(alloc, zone, x)?;
        let mut lines = self.told_as(alloc, zone, x, y, patterns)?;
        let mut clear = self.from_as(alloc, x, y)?;
        let mut to = self.to_as(alloc, x, y)?;
        self.forget(x);
        lines.append(&mut self.lines)?;
        to.append(&mut self.clear)?;
        clear.append(&mut to)?;
        self.lines = lines;
        self.clear = clear;
        Ok(())
    }

    /// x moves by so many lines: nothing is told of its line any more, and the stretches go that end after it if it goes down, and those
    /// that begin before it if it goes up.
    pub(crate) fn move_by(&mut self, x: Name, by: i128)
        ensures value { (zone : Bounds) → self.new ≡ (moved x by (known_as zone self.old)).facts }
    {
        if by == 0 {
            return;
        }
        let edge = edge_of(x);
        self.lines.retain(|fact| edge_of(fact.name) != edge);
        if by > 0 {
            self.clear.retain(|stretch| stretch.before != edge);
        } else {
            self.clear.retain(|stretch| stretch.after != edge);
        }
    }
}

/// x becomes the line y, in the zone and in the facts at once; of these patterns x is told what y is told. After an `Err` some of it may be done.
pub fn assign(
    alloc: Global,
    zone: &mut Zone,
    facts: &mut LineFacts,
    x: Name,
    y: Name,
    patterns: &Texts,
) -> Result<(), AllocError>
    ensures exact { OnOk result (known_as zone.new facts.new ≡ assigned x y patterns.now zone.old facts.old) }
{
    facts.assign(alloc, zone, x, y, patterns)?;
    zone.set(x, y, 0);
    Ok(())
}

/// x moves by so many lines: nothing is told of its line any more, and the stretches go that end after it if it goes down, and those that begin
/// before it if it goes up.
pub fn move_by(zone: &mut Zone, facts: &mut LineFacts, x: Name, by: i128)
    ensures exact { known_as zone.new facts.new ≡ moved x by (known_as zone.old facts.old) }
{
    if by == 0 {
        return;
    }
    zone.shift_wide(x, Some(by), Some(by));
    facts.move_by(x, by);
}
