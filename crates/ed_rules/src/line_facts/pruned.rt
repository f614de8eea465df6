//! Facts that say nothing more than the zone or others do, or nothing that helps, are left out.

ghost use Rattle.std.specs.Prelude.{◌≡◌, [], IfOk, OnOk};
ghost use Rattle.std.specs.List.{list_any};
ghost use Rattle.ed_rules.specs.facts.Facts.{same_text};
ghost use Rattle.ed_rules.specs.facts.PrunedFacts.{is_said, with_unsaid, is_spoken_of, is_idle, busy_lines, pruned};

use crate::line_facts::known::{name_of, plus_of};
use crate::line_facts::{ClearStretch, KnownLine, LineFacts, is_witnessed};
use std::alloc::{AllocError, Global};
use zones::{Name, Zone};

/// Of these stretches each that neither the zone nor those kept before it say, the last one first.
fn unsaid(alloc: Global, zone: &Zone, clear: &[ClearStretch]) -> Result<LineFacts, AllocError>
    ensures value { IfOk result (λ kept. kept.clear ≡ with_unsaid zone.now [] clear.now) }
{
    let mut kept = LineFacts::none(alloc);
    for stretch in clear {
        if !kept.say(zone, stretch) {
            kept.add_stretch(stretch.after, stretch.before, stretch.pattern.as_slice())?;
        }
    }
    Ok(kept)
}

impl LineFacts {
    /// Whether the zone alone says that no line of a stretch matches its pattern, or one of these stretches says it.
    fn say(&self, zone: &Zone, stretch: &ClearStretch) -> bool
        ensures value { result ≡ is_said zone.now self.now.clear stretch.now }
    {
        let (after, before) = (stretch.after, stretch.before);
        self.are_clear(
            zone,
            name_of(after),
            plus_of(after),
            name_of(before),
            plus_of(before),
            stretch.pattern.as_slice(),
        )
    }

    /// Whether a stretch is known to be clear of the pattern.
    fn has_stretch_of(&self, pattern: &[u8]) -> bool
        ensures value { result ≡ list_any (λ s. same_text s.pattern pattern.now) self.now.clear }
    {
        for stretch in &self.clear {
            if stretch.pattern.as_slice() == pattern {
                return true;
            }
        }
        false
    }

    /// Whether a line is known to match the pattern, or a stretch to be clear of it.
    fn is_spoken_of(&self, pattern: &[u8]) -> bool
        ensures value { result ≡ is_spoken_of self.now pattern.now }
    {
        is_witnessed(self, pattern) || self.has_stretch_of(pattern)
    }

    /// Whether a fact says that a line doesn't match a pattern, and a stretch says it too, or nothing else is said of the pattern and the
    /// line is the current one or the last.
    #[tactic(auto, unfolding(crate::specs::facts::PrunedFacts::is_idle))]
    fn is_idle(&self, zone: &Zone, fact: &KnownLine) -> bool
        ensures value { result ≡ is_idle zone.now self.now fact.now }
    {
        let pattern = fact.pattern.as_slice();
        let place = fact.name.place();
        !fact.matches
            && (self.are_around(zone, fact.name, pattern)
                || ((place == Name::CURRENT_LINE.place() || place == Name::LAST_LINE.place())
                    && !self.is_spoken_of(pattern)))
    }

    /// The other facts of lines.
    fn busy_lines(&self, alloc: Global, zone: &Zone) -> Result<Vec<KnownLine>, AllocError>
        ensures value { IfOk result (λ lines. lines.items ≡ busy_lines zone.now self.now) }
    {
        let mut lines = Vec::new(alloc);
        for fact in &self.lines {
            if !self.is_idle(zone, fact) {
                lines.push(fact.try_copy()?)?;
            }
        }
        Ok(lines)
    }

    /// Leaves out the stretches that the zone alone says, or another one that stays, and then the facts of lines that are idle. After an
    /// `Err` some of it may be done.
    pub(crate) fn prune(&mut self, zone: &Zone) -> Result<(), AllocError>
        ensures value { OnOk result (self.new ≡ pruned zone.now self.old) }
    {
        let alloc = *self.clear.allocator();
        let backward = unsaid(alloc, zone, self.clear.as_slice())?;
        let forward = unsaid(alloc, zone, backward.clear.as_slice())?;
        self.clear = forward.clear;
        self.lines = self.busy_lines(alloc, zone)?;
        Ok(())
    }
}
