//! What is known of an editor's state.

ghost use Rattle.std.specs.Prelude.{◌≡◌, pos, neg_ℤ, None, IfOk, OnOk};
ghost use Rattle.zones.specs.Name as name;
ghost use Rattle.zones.specs.Steps.{any_zone, after_guard, after_set};
ghost use Rattle.ed_rules.specs.KnownMatches.{no_matches};
ghost use Rattle.ed_rules.specs.States.{old_of, unchanged, changed, no_replacement, nothing_to_undo, without_facts, limited, start};
ghost use Rattle.ed_rules.specs.declared.state.State.{State};
ghost use Rattle.ed_rules.specs.facts.Facts.{no_facts};

use crate::choices::Choices;
use crate::known_matches::Matches;
use crate::line_facts::LineFacts;
use crate::marks::Marks;
use ed_base::{Bytes, Texts};
use std::alloc::{AllocError, Global};
use zones::{Name, Zone};

/// What is known of an earlier buffer, which undo may bring back.
#[derive(Debug, Drop)]
pub struct Old {
    pub zone: Zone,
    pub marks: Marks,
    /// What is known of single lines.
    pub facts: LineFacts,
}

/// Whether the buffer may be as it was last written or read, and whether it may be changed.
#[derive(Clone, Copy, PartialEq, Eq, Debug)]
pub struct Changed {
    pub no: bool,
    pub yes: bool,
}

/// Which replacements may be remembered: none, one without a split, one with a split.
#[derive(Clone, Copy, PartialEq, Eq, Debug)]
pub struct Replacements {
    pub none: bool,
    pub plain: bool,
    pub split: bool,
}

/// What undo may find: nothing, the buffer as it is, an earlier one.
#[derive(Debug, Drop)]
pub struct Undo {
    pub nothing: bool,
    pub same: bool,
    pub was: Option<Old>,
}

/// What is known of an editor's state at one point of a script: bounds on lines, the letters that surely mark one, and all that
/// may be remembered. It stands for each state of which all this is true.
#[derive(Debug, Drop)]
pub struct State {
    pub zone: Zone,
    pub marks: Marks,
    /// The patterns that may be remembered.
    pub patterns: Choices,
    pub replacements: Replacements,
    /// The paths that may be remembered.
    pub names: Choices,
    pub changed: Changed,
    pub undo: Undo,
    pub matches: Matches,
    /// Whether the run follows what is known of single lines. With a certificate of version 1 or 2 it never does. No rule changes it.
    pub follows: bool,
    /// What is known of single lines.
    pub facts: LineFacts,
}

impl Old {
    /// An equal one, made by the same allocators.
    pub(crate) fn try_copy(&self) -> Result<Old, AllocError>
        ensures value { IfOk result (λ copy. copy ≡ self.now) }
    {
        let facts = self.facts.try_copy()?;
        Ok(Old {
            zone: self.zone,
            marks: self.marks,
            facts,
        })
    }

    /// Becomes an equal one, in place. After an `Err` it is as it was.
    fn copy_from(&mut self, zone: &Zone, marks: &Marks, facts: &LineFacts) -> Result<(), AllocError>
        ensures value { OnOk result (self.new ≡ record { zone = zone.now; marks = marks.now; facts = facts.now }) }
    {
        self.facts.try_copy_from(facts)?;
        self.zone.copy_from(zone);
        self.marks = *marks;
        Ok(())
    }
}

/// What undo finds becomes a buffer with these bounds, sure marks and facts, where it may be that it finds none yet. It has a function
/// of its own since a function clears the room of its locals, here that of a whole zone, at each call.
#[inline(never)]
fn find_new_old(
    found: &mut Option<Old>,
    zone: &Zone,
    marks: &Marks,
    facts: &LineFacts,
) -> Result<(), AllocError>
    ensures value { OnOk result (found.new ≡ Some (record { zone = zone.now; marks = marks.now; facts = facts.now })) }
{
    let facts = facts.try_copy()?;
    *found = Some(Old {
        zone: *zone,
        marks: *marks,
        facts,
    });
    Ok(())
}

/// What undo finds becomes a buffer with these bounds, sure marks and facts, in place where it finds an earlier one already. After an
/// `Err` it is some buffer.
pub(crate) fn find_old(
    found: &mut Option<Old>,
    zone: &Zone,
    marks: &Marks,
    facts: &LineFacts,
) -> Result<(), AllocError>
    ensures value { OnOk result (found.new ≡ Some (record { zone = zone.now; marks = marks.now; facts = facts.now })) }
{
    match found {
        Some(old) => old.copy_from(zone, marks, facts),
        None => find_new_old(found, zone, marks, facts),
    }
}

/// What undo finds becomes no earlier buffer. Where it is none already, nothing is written: that would clear the room of a whole zone.
pub(crate) fn find_no_old(found: &mut Option<Old>)
    ensures value { found.new ≡ None }
{
    if found.is_some() {
        *found = None;
    }
}

fn copy_found(found: &mut Option<Old>, other: &Option<Old>) -> Result<(), AllocError>
    ensures value { OnOk result (found.new ≡ other.now) }
{
    match other {
        Some(old) => find_old(found, &old.zone, &old.marks, &old.facts),
        None => {
            find_no_old(found);
            Ok(())
        }
    }
}

/// What undo finds, once more.
pub(crate) fn copied_old(found: &Option<Old>) -> Result<Option<Old>, AllocError>
    ensures value { IfOk result (λ copy. copy ≡ found.now) }
{
    match found {
        Some(old) => Ok(Some(old.try_copy()?)),
        None => Ok(None),
    }
}

impl Undo {
    /// An equal one, made by the same allocators.
    pub(crate) fn try_copy(&self) -> Result<Undo, AllocError>
        ensures value { IfOk result (λ copy. copy ≡ self.now) }
    {
        Ok(Undo {
            nothing: self.nothing,
            same: self.same,
            was: copied_old(&self.was)?,
        })
    }
}

impl Changed {
    pub const NO: Changed = Changed {
        no: true,
        yes: false,
    };

    pub const YES: Changed = Changed {
        no: false,
        yes: true,
    };
}

/// The bounds at the start of a run: `min` to `max` lines, the last one current. Without a `max` there is no limit.
fn zone_at_start(min: u64, max: Option<u64>) -> Zone
    ensures value { result ≡
        after_set (limited max (after_guard any_zone name.zero name.last_line (neg_ℤ (pos min))))
        name.current_line name.last_line (pos 0) }
{
    let mut zone = Zone::any();
    zone.guard_wide(Name::ZERO, Name::LAST_LINE, -i128::from(min));
    if let Some(max) = max {
        zone.guard_wide(Name::LAST_LINE, Name::ZERO, i128::from(max));
    }
    zone.set(Name::CURRENT_LINE, Name::LAST_LINE, 0);
    zone
}

impl State {
    /// The start of a run: a file of `min` to `max` lines, of which some match these patterns, the last one current, and nothing
    /// remembered but a path. Without a `max` the file has any number of lines.
    #[tactic(auto, unfolding(crate::specs::States::start))]
    pub fn start(
        alloc: Global,
        path: &Option<Bytes>,
        min: u64,
        max: Option<u64>,
        has: &Texts,
    ) -> Result<State, AllocError>
        ensures value { IfOk result (λ state. state ≡ start path.now min max has.now) }
    {
        Ok(State {
            zone: zone_at_start(min, max),
            marks: Marks::none(),
            patterns: Choices::only(alloc, &None)?,
            replacements: Replacements {
                none: true,
                plain: false,
                split: false,
            },
            names: Choices::only(alloc, path)?,
            changed: Changed::NO,
            undo: Undo {
                nothing: true,
                same: false,
                was: None,
            },
            matches: Matches {
                has: has.try_copy()?,
                old_has: Texts::none(alloc),
            },
            follows: false,
            facts: LineFacts::none(alloc),
        })
    }

    /// The bounds, the sure marks and what is known of single lines, as undo keeps them.
    pub(crate) fn old(&self) -> Result<Old, AllocError>
        ensures value { IfOk result (λ old. old ≡ old_of self.now) }
    {
        let facts = self.facts.try_copy()?;
        Ok(Old {
            zone: self.zone,
            marks: self.marks,
            facts,
        })
    }

    /// What is known of matches is given up. It takes no memory.
    pub fn forget_matches(&mut self)
        ensures value { self.new ≡ record self.old { matches = no_matches } }
    {
        self.matches = Matches::none(self.patterns.allocator());
    }

    /// What is known of the single lines that are there is given up. It takes no memory.
    pub(crate) fn forget_lines(&mut self)
        ensures value { self.new ≡ record self.old { facts = no_facts } }
    {
        self.facts = LineFacts::none(self.patterns.allocator());
    }

    /// What is known of single lines is given up, and of the earlier ones too, and they aren't followed any more. It takes no memory.
    pub fn forget_facts(&mut self)
        ensures value { self.new ≡ without_facts self.old }
    {
        self.follows = false;
        self.forget_lines();
        if let Some(old) = &mut self.undo.was {
            old.facts = LineFacts::none(self.patterns.allocator());
        }
    }

    /// An equal state, made by the same allocator.
    pub fn try_copy(&self) -> Result<State, AllocError>
        ensures value { IfOk result (λ copy. copy ≡ self.now) }
    {
        Ok(State {
            zone: self.zone,
            marks: self.marks,
            patterns: self.patterns.try_copy()?,
            replacements: self.replacements,
            names: self.names.try_copy()?,
            changed: self.changed,
            undo: self.undo.try_copy()?,
            matches: self.matches.try_copy()?,
            follows: self.follows,
            facts: self.facts.try_copy()?,
        })
    }

    /// Becomes an equal state, in place, and asks for memory only where a set differs and where single lines are known. After an `Err`
    /// it is some state.
    pub fn try_copy_from(&mut self, other: &State) -> Result<(), AllocError>
        ensures value { OnOk result (self.new ≡ other.now) }
    {
        self.patterns.try_copy_from(&other.patterns)?;
        self.names.try_copy_from(&other.names)?;
        self.matches.try_copy_from(&other.matches)?;
        self.facts.try_copy_from(&other.facts)?;
        self.zone.copy_from(&other.zone);
        self.marks = other.marks;
        self.replacements = other.replacements;
        self.changed = other.changed;
        self.follows = other.follows;
        self.undo.nothing = other.undo.nothing;
        self.undo.same = other.undo.same;
        copy_found(&mut self.undo.was, &other.undo.was)
    }
}
