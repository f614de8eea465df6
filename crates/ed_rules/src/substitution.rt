//! The rule of `s` (XCU ed, "Substitute Command").

ghost use Rattle.std.specs.Prelude.{◌≡◌, pos, None, Some, IfOk, OnOk};
ghost use Rattle.std.specs.List.{list_all, list_any};
ghost use Rattle.zones.specs.Name.{last_line};
ghost use Rattle.zones.specs.Steps.{after_shift};
ghost use Rattle.ed_rules.specs.StandsFor.{ends_line};
ghost use Rattle.ed_rules.specs.Substituting.{kind_of, replacement_used, pattern_used, takes_first, is_known_line, matches_each, is_sure_to_match, takes_all, is_match_among, is_matched_among, matches_some, is_sure_of_some, current_split, current_within, surely_substituted, partly_substituted, substituted};
ghost use Rattle.ed_rules.specs.Reaching.{Reaches};

use crate::addresses::choice_matches_always;
use crate::choices::Choices;
use crate::line_facts::{KnownLine, LineFacts, is_at_most, matches_it};
use crate::pieces::{guard_by, wide};
use crate::state::{Replacements, State};
use ed_base::{Bytes, Fault};
use ed_syntax::{Part, Pattern, Replacement, Which};
use std::alloc::AllocError;
use zones::{Name, Zone};

/// Whether a part ends a line where it comes.
fn ends_line(part: Part) -> bool
    ensures value { result ≡ ends_line part }
{
    match part {
        Part::Literal(byte) => byte == b'\n',
        Part::Split => true,
        Part::Match | Part::Group(_) => false,
    }
}

/// Whether a part of a replacement ends a line.
fn splits(replacement: &Replacement) -> bool
    ensures value { result ≡ list_any ends_line replacement.now }
{
    for part in replacement.parts() {
        if ends_line(*part) {
            return true;
        }
    }
    false
}

/// The kind of a replacement.
fn kind_of(replacement: &Replacement) -> Replacements
    ensures value { result ≡ kind_of replacement.now }
{
    let split = splits(replacement);
    Replacements {
        none: false,
        plain: !split,
        split,
    }
}

/// The first of the matches on a line is replaced, or all.
fn takes_first(which: &Which) -> bool
    ensures value { result ≡ takes_first which.now }
{
    match which {
        Which::First | Which::All => true,
        Which::Nth(number) => number.before() == 0,
    }
}

/// Lines may be split: there may be more of them.
fn allow_more_lines(zone: &mut Zone)
    ensures exact { zone.new ≡ after_shift zone.old last_line (Some (pos 0)) None }
{
    zone.shift(Name::LAST_LINE, Some(0), None);
}

/// Lines may be split, and each is substituted in: the current line is as far from the last one as the second address was.
/// So the second address less the last line was at most `below`, and the last line less the second address at most `above`.
#[tactic(auto, unfolding(crate::specs::Substituting::current_split))]
fn set_current_split(zone: &mut Zone, below: Option<i64>, above: Option<i64>)
    ensures exact { zone.new ≡ current_split below above zone.old }
{
    allow_more_lines(zone);
    zone.forget(Name::CURRENT_LINE);
    zone.guard(Name::SECOND_ADDRESS, Name::CURRENT_LINE, 0);
    guard_by(zone, Name::CURRENT_LINE, Name::LAST_LINE, wide(below));
    guard_by(zone, Name::LAST_LINE, Name::CURRENT_LINE, wide(above));
}

/// Lines may be split or not, and some are substituted in: the current line is one of those that are then in their place.
#[tactic(auto, unfolding(crate::specs::Substituting::current_within))]
fn set_current_within(zone: &mut Zone, splits: bool)
    ensures exact { zone.new ≡ current_within splits zone.old }
{
    if splits {
        allow_more_lines(zone);
    }
    zone.forget(Name::CURRENT_LINE);
    zone.guard(Name::FIRST_ADDRESS, Name::CURRENT_LINE, 0);
    if splits {
        zone.guard(Name::CURRENT_LINE, Name::LAST_LINE, 0);
    } else {
        zone.guard(Name::CURRENT_LINE, Name::SECOND_ADDRESS, 0);
    }
}

/// Whether all lines are addressed.
fn takes_all(zone: &Zone) -> bool
    ensures value { result ≡ takes_all zone.now }
{
    zone.is_known(Name::FIRST_ADDRESS, Name::ZERO, 1)
        && zone.is_known(Name::LAST_LINE, Name::SECOND_ADDRESS, 0)
}

/// Whether the fact says that one of the addressed lines matches the pattern.
fn is_match_among(zone: &Zone, pattern: &[u8], fact: &KnownLine) -> bool
    ensures value { result ≡ is_match_among zone.now pattern.now fact.now }
{
    matches_it(pattern, fact)
        && is_at_most(zone, Name::FIRST_ADDRESS, 0, fact.name, 0, 0)
        && is_at_most(zone, fact.name, 0, Name::SECOND_ADDRESS, 0, 0)
}

/// Whether a fact says so.
fn some_match_among(zone: &Zone, pattern: &[u8], facts: &LineFacts) -> bool
    ensures value { result ≡ list_any (is_match_among zone.now pattern.now) facts.now.lines }
{
    for fact in &facts.lines {
        if is_match_among(zone, pattern, fact) {
            return true;
        }
    }
    false
}

impl State {
    /// The replacements that the command may use are the possible ones: its own, or those that may be remembered. In a list none
    /// may split a line.
    fn use_replacement(&mut self, listed: bool, own: &Option<Replacement>) -> Result<(), Fault>
        ensures exact { Reaches result self.new (replacement_used listed own.now self.old) }
    {
        if let Some(own) = own {
            self.replacements = kind_of(own);
        }
        if self.replacements.none || (listed && self.replacements.split) {
            Err(Fault::Replacement)
        } else {
            Ok(())
        }
    }

    /// The patterns that the command may look for are the possible ones.
    pub(crate) fn use_pattern(&mut self, own: &Option<Pattern>) -> Result<(), Fault>
        ensures exact { Reaches result self.new (pattern_used own.now self.old) }
    {
        if let Some(own) = own {
            self.patterns = Choices::only_text(self.patterns.allocator(), own.text())?;
        } else if self.patterns.has(&None) {
            return Err(Fault::Pattern);
        }
        Ok(())
    }

    /// Whether single lines are followed, and the addressed lines are one that is known to match a pattern.
    fn is_known_line(&self, pattern: &[u8]) -> bool
        ensures value { result ≡ is_known_line self.now pattern.now }
    {
        self.follows
            && self
                .zone
                .is_known(Name::SECOND_ADDRESS, Name::FIRST_ADDRESS, 0)
            && self
                .facts
                .tell(&self.zone, Name::FIRST_ADDRESS, pattern, true)
    }

    /// Whether a pattern that may be looked for has a match in each of the addressed lines.
    fn matches_each(&self, choice: &Option<Bytes>) -> Result<bool, AllocError>
        ensures value { IfOk result (λ each. each ≡ matches_each self.now choice.now) }
    {
        let Some(text) = choice else {
            return Ok(false);
        };
        if self.is_known_line(text.as_slice()) {
            return Ok(true);
        }
        choice_matches_always(self.patterns.allocator(), choice)
    }

    /// The same of each of them.
    fn all_match_each(&self) -> Result<bool, AllocError>
        ensures value { IfOk result (λ each. each ≡ list_all (matches_each self.now) self.now.patterns) }
    {
        for choice in self.patterns.members() {
            if !self.matches_each(choice)? {
                return Ok(false);
            }
        }
        Ok(true)
    }

    /// Whether something is replaced in each of the addressed lines.
    fn is_sure_to_match(&self, which: &Which) -> Result<bool, AllocError>
        ensures value { IfOk result (λ sure. sure ≡ is_sure_to_match self.now which.now) }
    {
        let each = self.all_match_each()?;
        Ok(each && takes_first(which))
    }

    /// Whether one of the addressed lines is known to match a pattern; or all lines are addressed, and some line is known to match it.
    fn is_matched_among(&self, pattern: &[u8]) -> bool
        ensures value { result ≡ is_matched_among self.now pattern.now }
    {
        some_match_among(&self.zone, pattern, &self.facts)
            || (takes_all(&self.zone) && self.matches.has.has(pattern))
    }

    /// Whether a pattern that may be looked for has a match in some addressed line.
    fn matches_some(&self, choice: &Option<Bytes>) -> Result<bool, AllocError>
        ensures value { IfOk result (λ some. some ≡ matches_some self.now choice.now) }
    {
        let Some(text) = choice else {
            return Ok(false);
        };
        if self.is_matched_among(text.as_slice()) {
            return Ok(true);
        }
        choice_matches_always(self.patterns.allocator(), choice)
    }

    /// The same of each of them.
    fn all_match_some(&self) -> Result<bool, AllocError>
        ensures value { IfOk result (λ some. some ≡ list_all (matches_some self.now) self.now.patterns) }
    {
        for choice in self.patterns.members() {
            if !self.matches_some(choice)? {
                return Ok(false);
            }
        }
        Ok(true)
    }

    /// Whether single lines are followed, and something is replaced in some addressed line.
    fn is_sure_of_some(&self, which: &Which) -> Result<bool, AllocError>
        ensures value { IfOk result (λ sure. sure ≡ is_sure_of_some self.now which.now) }
    {
        if !self.follows {
            return Ok(false);
        }
        let some = self.all_match_some()?;
        Ok(some && takes_first(which))
    }

    /// A substitution in each of the lines.
    #[tactic(auto, unfolding(crate::specs::Substituting::surely_substituted))]
    fn substitute_surely(&mut self, listed: bool, start: &State) -> Result<(), AllocError>
        ensures exact { OnOk result (self.new ≡ surely_substituted listed start.now self.old) }
    {
        let splits = self.replacements.split;
        let below = self.zone.bound(Name::SECOND_ADDRESS, Name::LAST_LINE);
        let above = self.zone.bound(Name::LAST_LINE, Name::SECOND_ADDRESS);
        self.substitute_marks(splits);
        if splits {
            set_current_split(&mut self.zone, below, above);
        } else {
            self.zone.set(Name::CURRENT_LINE, Name::SECOND_ADDRESS, 0);
        }
        self.modify(listed, start)
    }

    /// A substitution in some of the lines at least.
    #[tactic(auto, unfolding(crate::specs::Substituting::partly_substituted))]
    fn substitute_partly(&mut self, listed: bool, before: &State) -> Result<(), AllocError>
        ensures exact { OnOk result (self.new ≡ partly_substituted listed before.now self.old) }
    {
        let split = self.replacements.split;
        self.substitute_marks(split);
        set_current_within(&mut self.zone, split);
        self.modify(listed, before)
    }

    /// `s`
    pub(crate) fn substitute(
        &mut self,
        listed: bool,
        pattern: &Option<Pattern>,
        replacement: &Option<Replacement>,
        which: Which,
        before: &State,
    ) -> Result<(), Fault>
        ensures exact { Reaches result self.new
            (substituted listed pattern.now replacement.now which before.now self.old) }
    {
        self.use_replacement(listed, replacement)?;
        self.use_pattern(pattern)?;
        if self.is_sure_to_match(&which)? {
            self.substitute_surely(listed, before)?;
        } else if self.is_sure_of_some(&which)? {
            self.substitute_partly(listed, before)?;
        } else if listed {
            // In a list it may be that no line matches.
            let mut some = self.try_copy()?;
            some.substitute_partly(listed, before)?;
            *self = self.join(&some)?;
        } else {
            return Err(Fault::NoMatch);
        }
        Ok(())
    }
}
