//! Joining, widening and comparing states.

ghost use Rattle.std.specs.Prelude.{◌≡◌, IfOk, IsTrue, ◌↔◌};
ghost use Rattle.ed_syntax.specs.meaning.States as editor;
ghost use Rattle.ed_rules.specs.StandsFor.{StandsFor};
ghost use Rattle.ed_rules.specs.Order.{facts_of_both, old_of_both, changed_of_both, replacements_of_both, undo_of_both, united, join, widen, Allows, CoversOld, Covers};

use crate::laws::joined_states_are_covered;
use crate::line_facts::LineFacts;
use crate::marks::Marks;
use crate::state::{Changed, Old, Replacements, State, Undo, copied_old};
use std::alloc::AllocError;
use zones::Zone;

impl State {
    /// What both states say.
    #[tactic(auto, unfolding(crate::specs::Order::join))]
    pub fn join(&self, other: &State) -> Result<State, AllocError>
        ensures value { IfOk result (λ joined. joined ≡ join self.now other.now) }

        // It stands for all that either stands for.
        ensures sound { IfOk result (λ joined. (e : editor.State) → StandsFor self.now e →
            StandsFor joined e) }
        ensures sound_of_other { IfOk result (λ joined. (e : editor.State) → StandsFor other.now e →
            StandsFor joined e) }

        // What it says both say.
        ensures covers { IfOk result (λ joined. Covers joined self.now) }
        ensures covers_other { IfOk result (λ joined. Covers joined other.now) }
    {
        joined_states_are_covered();
        let mut zone = self.zone;
        zone.join(&other.zone);
        self.united(other, zone)
    }

    /// What both states say, but each bound of this one that rose in the newer is given up.
    #[tactic(auto, unfolding(crate::specs::Order::widen))]
    pub fn widen(&self, new: &State) -> Result<State, AllocError>
        ensures value { IfOk result (λ widened. widened ≡ widen self.now new.now) }

        // It stands for all that either stands for.
        ensures sound { IfOk result (λ widened. (e : editor.State) → StandsFor self.now e →
            StandsFor widened e) }
        ensures sound_of_other { IfOk result (λ widened. (e : editor.State) → StandsFor new.now e →
            StandsFor widened e) }

        // What it says both say.
        ensures covers { IfOk result (λ widened. Covers widened self.now) }
        ensures covers_other { IfOk result (λ widened. Covers widened new.now) }
    {
        joined_states_are_covered();
        let mut zone = self.zone;
        zone.widen(&new.zone);
        self.united(new, zone)
    }

    /// What both states allow, over a zone. Of one run both follow single lines or neither does, so it goes on as the first does.
    fn united(&self, other: &State, zone: Zone) -> Result<State, AllocError>
        ensures value { IfOk result (λ both. both ≡ united self.now other.now zone) }
    {
        let marks = self.marks.both(&other.marks);
        let facts = facts_of_both(&marks, &self.facts, &other.zone, &other.facts)?;
        Ok(State {
            zone,
            marks,
            patterns: self.patterns.union(&other.patterns)?,
            replacements: replacements_of_both(&self.replacements, &other.replacements),
            names: self.names.union(&other.names)?,
            changed: changed_of_both(&self.changed, &other.changed),
            undo: undo_of_both(&self.undo, &other.undo)?,
            matches: self
                .matches
                .both(&self.undo.was, &other.matches, &other.undo.was)?,
            follows: self.follows,
            facts,
        })
    }

    /// Whether this state is the weaker: the other one says all that it says. It takes no memory.
    pub fn covers(&self, other: &State) -> bool
        ensures exact { IsTrue result ↔ Covers self.now other.now }
    {
        self.zone.covers(&other.zone)
            && self.marks.are_among(&other.marks)
            && other.patterns.are_among(&self.patterns)
            && allows(self.replacements.none, other.replacements.none)
            && allows(self.replacements.plain, other.replacements.plain)
            && allows(self.replacements.split, other.replacements.split)
            && other.names.are_among(&self.names)
            && allows(self.changed.no, other.changed.no)
            && allows(self.changed.yes, other.changed.yes)
            && allows(self.undo.nothing, other.undo.nothing)
            && allows(self.undo.same, other.undo.same)
            && old_covers(&self.undo.was, &other.undo.was)
            && self.matches.covers(&other.matches, &other.undo.was)
            && self.facts.are_covered(&other.zone, &other.facts)
    }
}

/// Whether the weak side allows what the strong one does.
pub(crate) fn allows(weak: bool, strong: bool) -> bool
    ensures exact { IsTrue result ↔ Allows weak strong }
{
    weak || !strong
}

fn old_covers(weak: &Option<Old>, strong: &Option<Old>) -> bool
    ensures exact { IsTrue result ↔ CoversOld weak.now strong.now }
{
    match (weak, strong) {
        (_, None) => true,
        (None, Some(_)) => false,
        (Some(weak), Some(strong)) => {
            weak.zone.covers(&strong.zone)
                && weak.marks.are_among(&strong.marks)
                && weak.facts.are_covered(&strong.zone, &strong.facts)
        }
    }
}

pub(crate) fn changed_of_both(one: &Changed, other: &Changed) -> Changed
    ensures value { result ≡ changed_of_both one.now other.now }
{
    Changed {
        no: one.no || other.no,
        yes: one.yes || other.yes,
    }
}

fn replacements_of_both(one: &Replacements, other: &Replacements) -> Replacements
    ensures value { result ≡ replacements_of_both one.now other.now }
{
    Replacements {
        none: one.none || other.none,
        plain: one.plain || other.plain,
        split: one.split || other.split,
    }
}

pub(crate) fn undo_of_both(one: &Undo, other: &Undo) -> Result<Undo, AllocError>
    ensures value { IfOk result (λ both. both ≡ undo_of_both one.now other.now) }
{
    Ok(Undo {
        nothing: one.nothing || other.nothing,
        same: one.same || other.same,
        was: old_of_both(&one.was, &other.was)?,
    })
}

/// Of the facts of one side those that the other side says too, of letters that are sure on both.
pub(crate) fn facts_of_both(
    marks: &Marks,
    one: &LineFacts,
    zone: &Zone,
    other: &LineFacts,
) -> Result<LineFacts, AllocError>
    ensures value { IfOk result (λ both. both ≡ facts_of_both marks.now one.now zone.now other.now) }
{
    let mut facts = one.try_copy()?;
    facts.keep_both(zone, other);
    facts.keep_spoken(marks);
    Ok(facts)
}

fn old_of_both(one: &Option<Old>, other: &Option<Old>) -> Result<Option<Old>, AllocError>
    ensures value { IfOk result (λ both. both ≡ old_of_both one.now other.now) }
{
    match (one, other) {
        (Some(one), Some(other)) => {
            let mut zone = one.zone;
            zone.join(&other.zone);
            let marks = one.marks.both(&other.marks);
            let facts = facts_of_both(&marks, &one.facts, &other.zone, &other.facts)?;
            Ok(Some(Old { zone, marks, facts }))
        }
        (Some(one), None) => Ok(Some(one.try_copy()?)),
        (None, other) => copied_old(other),
    }
}
