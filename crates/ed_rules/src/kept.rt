//! What is known of an editor's state, as it is kept between commands.

ghost use Rattle.std.specs.Prelude.{◌≡◌, ◌↔◌, IsTrue, IfOk, OnOk};
ghost use Rattle.ed_rules.specs.Order.{Covers};

use crate::choices::Choices;
use crate::kept_undo::{KeptUndo, kept_old_covers};
use crate::known_matches::Matches;
use crate::line_facts::LineFacts;
use crate::marks::Marks;
use crate::order::allows;
use crate::state::{Changed, Replacements, State};
use std::alloc::AllocError;
use std::marker::Model;
use zones::{KeptZone, Zone};

/// A state as it is kept between commands: its zones take memory only for what is known. A contract sees the state that was
/// kept.
#[derive(Debug, Drop)]
pub struct KeptState {
    zone: KeptZone,
    marks: Marks,
    patterns: Choices,
    replacements: Replacements,
    names: Choices,
    changed: Changed,
    undo: KeptUndo,
    matches: Matches,
    follows: bool,
    facts: LineFacts,
}

impl Model for KeptState {
    ghost use Rattle.ed_rules.specs.declared.state.State.{State};

    ghost Value = { State };

    ghost view = { λ kept. record {
      zone = kept.zone;
      marks = kept.marks;
      patterns = kept.patterns;
      replacements = kept.replacements;
      names = kept.names;
      changed = kept.changed;
      undo = kept.undo;
      matches = kept.matches;
      follows = kept.follows;
      facts = kept.facts;
    } };
}

impl State {
    /// The state as it is kept, with equal sets by the same allocators.
    pub fn try_keep(&self) -> Result<KeptState, AllocError>
        ensures value { IfOk result (λ kept. kept ≡ self.now) }
    {
        let alloc = self.patterns.allocator();
        Ok(KeptState {
            zone: self.zone.try_keep(alloc)?,
            marks: self.marks,
            patterns: self.patterns.try_copy()?,
            replacements: self.replacements,
            names: self.names.try_copy()?,
            changed: self.changed,
            undo: KeptUndo::of(&self.undo, alloc)?,
            matches: self.matches.try_copy()?,
            follows: self.follows,
            facts: self.facts.try_copy()?,
        })
    }
}

impl KeptState {
    /// The state with these parts. It takes no memory.
    pub fn new(
        zone: KeptZone,
        marks: Marks,
        patterns: Choices,
        replacements: Replacements,
        names: Choices,
        changed: Changed,
        undo: KeptUndo,
        matches: Matches,
        follows: bool,
        facts: LineFacts,
    ) -> KeptState
        ensures value { result ≡ record {
          zone = zone;
          marks = marks;
          patterns = patterns;
          replacements = replacements;
          names = names;
          changed = changed;
          undo = undo;
          matches = matches;
          follows = follows;
          facts = facts;
        } }
    {
        KeptState {
            zone,
            marks,
            patterns,
            replacements,
            names,
            changed,
            undo,
            matches,
            follows,
            facts,
        }
    }

    /// The state that was kept, with equal sets by the same allocator.
    pub fn state(&self) -> Result<State, AllocError>
        ensures value { IfOk result (λ state. state ≡ self.now) }
    {
        Ok(State {
            zone: self.zone.zone(),
            marks: self.marks,
            patterns: self.patterns.try_copy()?,
            replacements: self.replacements,
            names: self.names.try_copy()?,
            changed: self.changed,
            undo: self.undo.undo()?,
            matches: self.matches.try_copy()?,
            follows: self.follows,
            facts: self.facts.try_copy()?,
        })
    }

    /// Has a state become the one that is kept, in place, and asks for memory only where a set differs and where single lines are
    /// known. After an `Err` it is some state.
    pub fn restore(&self, state: &mut State) -> Result<(), AllocError>
        ensures value { OnOk result (state.new ≡ self.now) }
    {
        state.patterns.try_copy_from(&self.patterns)?;
        state.names.try_copy_from(&self.names)?;
        state.matches.try_copy_from(&self.matches)?;
        state.facts.try_copy_from(&self.facts)?;
        self.zone.restore(&mut state.zone);
        state.marks = self.marks;
        state.replacements = self.replacements;
        state.changed = self.changed;
        state.follows = self.follows;
        self.undo.restore(&mut state.undo)
    }

    /// Whether the state that is kept is the weaker: the other one says all that it says. It takes no memory.
    pub fn covers(&self, other: &State) -> bool
        ensures exact { IsTrue result ↔ Covers self.now other.now }
    {
        self.zone.covers(&other.zone)
            && self.marks.are_among(&other.marks)
            && other.patterns.are_among(&self.patterns)
            && allows(self.replacements.none, other.replacements.none)
            && allows(self.replacements.plain, other.replacements.plain)
            && allows(self.replacements.split, other.replacements.split)
            && other.names.are_among(&self.names)
            && allows(self.changed.no, other.changed.no)
            && allows(self.changed.yes, other.changed.yes)
            && allows(self.undo.nothing(), other.undo.nothing)
            && allows(self.undo.same(), other.undo.same)
            && kept_old_covers(self.undo.was(), &other.undo.was)
            && self.matches.covers(&other.matches, &other.undo.was)
            && self.facts.are_covered(&other.zone, &other.facts)
    }

    /// The bounds on lines. Like each part that is asked for alone, they take no memory.
    pub fn zone(&self) -> Zone
        ensures value { result ≡ self.now.zone }
    {
        self.zone.zone()
    }

    /// The bounds on lines, as they are kept.
    pub fn kept_zone(&self) -> &KeptZone
        ensures value { result.now ≡ self.now.zone }
    {
        &self.zone
    }

    /// The letters that surely mark a line.
    pub fn marks(&self) -> &Marks
        ensures value { result.now ≡ self.now.marks }
    {
        &self.marks
    }

    /// The patterns that may be remembered.
    pub fn patterns(&self) -> &Choices
        ensures value { result.now ≡ self.now.patterns }
    {
        &self.patterns
    }

    /// Which replacements may be remembered.
    pub fn replacements(&self) -> Replacements
        ensures value { result ≡ self.now.replacements }
    {
        self.replacements
    }

    /// The paths that may be remembered.
    pub fn names(&self) -> &Choices
        ensures value { result.now ≡ self.now.names }
    {
        &self.names
    }

    /// Whether the buffer may be saved, and whether it may be changed.
    pub fn changed(&self) -> Changed
        ensures value { result ≡ self.now.changed }
    {
        self.changed
    }

    /// What is known of matches.
    pub fn matches(&self) -> &Matches
        ensures value { result.now ≡ self.now.matches }
    {
        &self.matches
    }

    /// Whether the run follows what is known of single lines.
    pub fn follows(&self) -> bool
        ensures value { result ≡ self.now.follows }
    {
        self.follows
    }

    /// What is known of single lines.
    pub fn facts(&self) -> &LineFacts
        ensures value { result.now ≡ self.now.facts }
    {
        &self.facts
    }

    /// What undo may find, as it is kept.
    pub fn kept_undo(&self) -> &KeptUndo
        ensures value { result.now ≡ self.now.undo }
    {
        &self.undo
    }
}
