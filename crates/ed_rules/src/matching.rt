//! The rules of what some line matches.

ghost use Rattle.std.specs.Prelude.{◌≡◌, Some, IfOk};
ghost use Rattle.ed_syntax.specs.PublicTypes.{addresses_value, alteration_value};
ghost use Rattle.ed_rules.specs.Matching.{entering, joining, joining_given, how_surely, matched_after, old_matched_unless, matches_after};
ghost use Rattle.ed_rules.specs.KnownMatches.{old_has_of_both};

use crate::known_matches::Matches;
use crate::state::State;
use crate::watch::Watch;
use ed_base::{Text, Texts};
use ed_syntax::{Addresses, Alteration};
use std::alloc::AllocError;
use zones::{Name, Zone};

/// Whether a command surely leaves the lines as they are, may change them, or surely does.
#[derive(Clone, Copy)]
pub(crate) enum Certainty {
    Never,
    Maybe,
    Surely,
}

fn entering(text: &Text) -> Certainty
    ensures value { result ≡ entering text.now }
{
    if text.is_empty() {
        Certainty::Never
    } else {
        Certainty::Surely
    }
}

fn joining(zone: &Zone) -> Certainty
    ensures value { result ≡ joining zone.now }
{
    if zone.is_known(Name::SECOND_ADDRESS, Name::FIRST_ADDRESS, 0) {
        Certainty::Never
    } else if zone.is_known(Name::FIRST_ADDRESS, Name::SECOND_ADDRESS, -1) {
        Certainty::Surely
    } else {
        Certainty::Maybe
    }
}

pub(crate) fn joining_given(given: &Addresses, zone: &Zone) -> Certainty
    ensures value { result ≡ joining_given (addresses_value given.now) zone.now }
{
    match given {
        Addresses::One(_) => Certainty::Never,
        _ => joining(zone),
    }
}

/// Outside lists, and not of `u`, `e` and `E`.
fn how_surely(given: &Addresses, lines: Alteration<'_>, zone: &Zone) -> Certainty
    ensures value { result ≡ how_surely (addresses_value given.now) (alteration_value lines.entry) zone.now }
{
    match lines {
        Alteration::Enters(text) => entering(text),
        Alteration::Joins => joining_given(given, zone),
        Alteration::Reads => Certainty::Maybe,
        Alteration::Replaces(_) | Alteration::Deletes => Certainty::Surely,
        Alteration::Carries | Alteration::Rewrites => Certainty::Surely,
        Alteration::Never | Alteration::Loads | Alteration::BringsBack => Certainty::Never,
    }
}

impl State {
    /// What some line matches after a command whose lines are taken, and which does this to the lines of the buffer. It isn't asked of
    /// `u`, `e` and `E`.
    fn matched_after(
        &self,
        watch: &Watch,
        given: &Addresses,
        lines: Alteration<'_>,
    ) -> Result<Texts, AllocError>
        ensures value { IfOk result (λ known. known ≡
            matched_after watch.now (addresses_value given.now) (alteration_value lines.entry) self.now) }
    {
        match lines {
            Alteration::Enters(text) => self.matches.has.with_all(&watch.gained(text)?),
            Alteration::Replaces(text) => watch.gained(text),
            Alteration::Deletes | Alteration::Rewrites => {
                Ok(Texts::none(self.patterns.allocator()))
            }
            Alteration::Joins => match joining_given(given, &self.zone) {
                Certainty::Never => self.matches.has.try_copy(),
                _ => Ok(Texts::none(self.patterns.allocator())),
            },
            _ => self.matches.has.try_copy(),
        }
    }

    /// What a line of those that undo would bring back matches, where the command began with `start`. In a list undo stays as it is.
    fn old_matched_unless(
        &self,
        listed: bool,
        altered: Certainty,
        start: &State,
    ) -> Result<Texts, AllocError>
        ensures value { IfOk result (λ known. known ≡ old_matched_unless listed altered start.now self.now) }
    {
        match altered {
            _ if listed => self.matches.old_has.try_copy(),
            Certainty::Never => self.matches.old_has.try_copy(),
            Certainty::Surely => start.matches.has.try_copy(),
            Certainty::Maybe => {
                if self.undo.was.is_some() {
                    self.matches.old_has.both(&start.matches.has)
                } else {
                    start.matches.has.try_copy()
                }
            }
        }
    }

    /// What is known of matches after a command that began with `start`, whose lines are taken, and which does this to the lines of
    /// the buffer.
    pub(crate) fn matches_after(
        &self,
        watch: &Watch,
        listed: bool,
        given: &Addresses,
        lines: Alteration<'_>,
        start: &State,
    ) -> Result<Matches, AllocError>
        ensures value { IfOk result (λ known. known ≡
            matches_after watch.now listed (addresses_value given.now) (alteration_value lines.entry) start.now self.now) }
    {
        match lines {
            Alteration::Loads => Ok(Matches::none(self.patterns.allocator())),
            Alteration::BringsBack => self.matches.by_undo(&self.undo),
            _ => Ok(Matches {
                has: self.matched_after(watch, given, lines)?,
                old_has: self.old_matched_unless(
                    listed,
                    how_surely(given, lines, &self.zone),
                    start,
                )?,
            }),
        }
    }
}
