//! What `s` leaves of letters.

ghost use Rattle.std.specs.Prelude.{◌≡◌};
ghost use Rattle.std.specs.List.{list_all};
ghost use Rattle.ed_rules.specs.Marks.{for_each_sure};
ghost use Rattle.ed_rules.specs.Substituting.{is_told_not_to_match, is_left_alone, mark_kept, mark_substituted, marks_substituted};

use crate::line_facts::LineFacts;
use crate::marks::Marks;
use crate::state::State;
use ed_base::{Bytes, Letter};
use zones::{Name, Zone};

/// Whether a pattern is known not to match the line of a letter.
fn is_told_not_to_match(
    before: &Zone,
    facts: &LineFacts,
    letter: Letter,
    choice: &Option<Bytes>,
) -> bool
    ensures value { result ≡ is_told_not_to_match before.now facts.now letter choice.now }
{
    match choice {
        Some(text) => facts.tell(before, Name::of(letter), text.as_slice(), false),
        None => false,
    }
}

impl State {
    /// Whether each pattern that may be looked for is known not to match the line of a letter.
    fn none_matches(&self, before: &Zone, letter: Letter) -> bool
        ensures value { result ≡ list_all (is_told_not_to_match before.now self.now.facts letter) self.now.patterns }
    {
        for choice in self.patterns.members() {
            if !is_told_not_to_match(before, &self.facts, letter, choice) {
                return false;
            }
        }
        true
    }

    /// Whether the line of a letter surely isn't changed.
    fn is_left_alone(&self, before: &Zone, letter: Letter) -> bool
        ensures value { result ≡ is_left_alone before.now letter self.now }
    {
        self.is_told_apart(before, letter) || (self.follows && self.none_matches(before, letter))
    }

    /// A mark stays, or goes down by what splits may add.
    fn keep_mark(&mut self, splits: bool, letter: Letter)
        ensures exact { self.new ≡ mark_kept splits letter self.old }
    {
        if splits {
            self.zone.shift(Name::of(letter), Some(0), None);
        }
    }

    #[tactic(auto, unfolding(crate::specs::Substituting::mark_substituted))]
    fn substitute_mark(&mut self, before: &Zone, splits: bool, letter: Letter)
        ensures exact { self.new ≡ mark_substituted before.now splits letter self.old }
    {
        let mark = Name::of(letter);
        if self.zone.is_known(Name::SECOND_ADDRESS, mark, -1) {
            self.keep_mark(splits, letter);
        } else if !self.zone.is_known(mark, Name::FIRST_ADDRESS, -1) {
            if self.is_left_alone(before, letter) {
                self.keep_mark(splits, letter);
            } else {
                self.lose_mark(letter);
            }
        }
    }

    /// Each sure mark, by the zone before the first of them is moved.
    fn substitute_sure_marks(&mut self, before: &Zone, splits: bool, marks: &Marks)
        ensures exact { self.new ≡ for_each_sure (mark_substituted before.now splits) marks.now 26 self.old }
    {
        for place in 0..Letter::COUNT {
            let letter = Letter::at(place);
            if marks.is_sure(letter) {
                self.substitute_mark(before, splits, letter);
            }
        }
    }

    /// Where no letter is sure there is nothing to be told apart, and the zone isn't copied.
    pub(crate) fn substitute_marks(&mut self, splits: bool)
        ensures exact { self.new ≡ marks_substituted splits self.old }
    {
        if self.marks.are_none() {
            return;
        }
        let before = self.zone;
        let marks = self.marks;
        self.substitute_sure_marks(&before, splits, &marks);
    }
}
