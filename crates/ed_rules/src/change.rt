//! What rules do to a whole state when the buffer changes: the change itself, and the replacement of lines.

ghost use Rattle.std.specs.Prelude.{◌≡◌, OnOk};
ghost use Rattle.ed_rules.specs.Marks.{for_each_sure};
ghost use Rattle.ed_rules.specs.Pieces.{modified, is_told_apart, mark_moved, mark_lost, mark_replaced, replaced};

use crate::marks::Marks;
use crate::pieces::{Distances, move_mark, move_mark_beside, set_current_replaced, set_left_over};
use crate::state::{Changed, State, find_old};
use ed_base::Letter;
use std::alloc::AllocError;
use zones::{Name, Zone};

impl State {
    /// The buffer was changed by a command that began with `before`.
    pub(crate) fn modify(&mut self, listed: bool, before: &State) -> Result<(), AllocError>
        ensures exact { OnOk result (self.new ≡ modified listed before.now self.old) }
    {
        self.changed = Changed::YES;
        if !listed {
            self.undo.nothing = false;
            self.undo.same = false;
            find_old(
                &mut self.undo.was,
                &before.zone,
                &before.marks,
                &before.facts,
            )?;
        }
        Ok(())
    }

    /// Whether single lines are followed, one line is addressed, and it is told from that of a letter. Facts go by the zone with which the rule
    /// began.
    pub(crate) fn is_told_apart(&self, before: &Zone, letter: Letter) -> bool
        ensures value { result ≡ is_told_apart before.now letter self.now }
    {
        let (first, last) = (Name::FIRST_ADDRESS, Name::SECOND_ADDRESS);
        self.follows
            && before.is_known(last, first, 0)
            && self.facts.differ(before, Name::of(letter), first)
    }

    #[tactic(auto, unfolding(crate::specs::Pieces::mark_lost))]
    pub(crate) fn lose_mark(&mut self, letter: Letter)
        ensures exact { self.new ≡ mark_lost letter self.old }
    {
        self.zone.forget(Name::of(letter));
        self.marks.remove(letter);
    }

    #[tactic(auto, unfolding(crate::specs::Pieces::mark_replaced, crate::specs::Pieces::mark_moved))]
    fn replace_mark(&mut self, before: &Zone, count: usize, letter: Letter)
        ensures exact { self.new ≡ mark_replaced before.now count letter self.old }
    {
        let mark = Name::of(letter);
        if !self.zone.is_known(mark, Name::FIRST_ADDRESS, -1) {
            if self.zone.is_known(Name::SECOND_ADDRESS, mark, -1) {
                move_mark(&mut self.zone, count, letter);
            } else if self.is_told_apart(before, letter) {
                move_mark_beside(&mut self.zone, count, letter);
            } else {
                self.lose_mark(letter);
            }
        }
    }

    /// Each sure mark, by the zone before the first of them is moved.
    fn replace_sure_marks(&mut self, before: &Zone, count: usize, marks: &Marks)
        ensures exact { self.new ≡ for_each_sure (mark_replaced before.now count) marks.now 26 self.old }
    {
        for place in 0..Letter::COUNT {
            let letter = Letter::at(place);
            if marks.is_sure(letter) {
                self.replace_mark(before, count, letter);
            }
        }
    }

    /// Where no letter is sure there is nothing to be told apart, and the zone isn't copied.
    fn replace_marks(&mut self, count: usize)
        ensures exact { self.new ≡ for_each_sure (mark_replaced self.old.zone count) self.old.marks 26 self.old }
    {
        if self.marks.are_none() {
            return;
        }
        let before = self.zone;
        let marks = self.marks;
        self.replace_sure_marks(&before, count, &marks);
    }

    /// The addressed lines give way to `count` lines.
    #[tactic(auto, unfolding(crate::specs::Pieces::replaced, crate::specs::Pieces::left_over))]
    pub(crate) fn replace(&mut self, count: usize)
        ensures exact { self.new ≡ replaced count self.old }
    {
        let distances = Distances::of(&self.zone);
        self.replace_marks(count);
        set_left_over(&mut self.zone, distances);
        set_current_replaced(&mut self.zone, count);
        self.zone
            .set_wide(Name::LAST_LINE, Name::TARGET_ADDRESS, count as i128);
    }
}
