//! The rule of `m`.

ghost use Rattle.std.specs.Prelude.{◌≡◌, ◌+ℤ◌, ◌≤ℤ◌, ◌^◌, pos};
ghost use Rattle.ed_rules.specs.Marks.{for_each_sure};
ghost use Rattle.ed_rules.specs.Move.{less, mark_moved_up, mark_moved_down, mark_moved, moved_up, moved_down, moved_either, is_target_told_apart, moved_lines};
ghost use Rattle.ed_rules.specs.Reaching.{Reaches};

use crate::line_facts::are_same;
use crate::marks::Marks;
use crate::pieces::plus;
use crate::state::State;
use ed_base::{Fault, Letter};
use zones::{Name, Zone};

/// A number less a bound.
fn less(number: i128, bound: Option<i64>) -> Option<i128>
    requires small { (number ≤ℤ pos (2 ^ 65)) × (pos 0 ≤ℤ (number +ℤ pos (2 ^ 65))) }
    ensures value { result ≡ less number bound }
{
    match bound {
        Some(bound) => Some(-i128::from(bound) + number),
        None => None,
    }
}

/// One mark of a move up. All tests ask the zone before.
#[tactic(auto, unfolding(crate::specs::Move::mark_moved_up))]
fn move_mark_up(zone: &mut Zone, before: &Zone, letter: Letter)
    ensures exact { zone.new ≡ mark_moved_up before.now letter zone.old }
{
    let x = Name::of(letter);
    if before.is_known(x, Name::TARGET_ADDRESS, 0) || before.is_known(Name::SECOND_ADDRESS, x, -1) {
        return;
    }
    if before.is_known(Name::TARGET_ADDRESS, x, -1) && before.is_known(x, Name::FIRST_ADDRESS, -1) {
        let low = before.least(Name::SECOND_ADDRESS, Name::FIRST_ADDRESS);
        let high = before.bound(Name::SECOND_ADDRESS, Name::FIRST_ADDRESS);
        zone.shift_wide(x, plus(low, 1), plus(high, 1));
    } else if before.is_known(Name::FIRST_ADDRESS, x, 0)
        && before.is_known(x, Name::SECOND_ADDRESS, 0)
    {
        let low = before.least(Name::FIRST_ADDRESS, Name::TARGET_ADDRESS);
        let high = before.bound(Name::FIRST_ADDRESS, Name::TARGET_ADDRESS);
        zone.shift_wide(x, less(1, high), less(1, low));
    } else {
        zone.forget(x);
    }
}

/// One mark of a move down. All tests ask the zone before.
#[tactic(auto, unfolding(crate::specs::Move::mark_moved_down))]
fn move_mark_down(zone: &mut Zone, before: &Zone, letter: Letter)
    ensures exact { zone.new ≡ mark_moved_down before.now letter zone.old }
{
    let x = Name::of(letter);
    if before.is_known(x, Name::FIRST_ADDRESS, -1) || before.is_known(Name::TARGET_ADDRESS, x, -1) {
        return;
    }
    if before.is_known(Name::SECOND_ADDRESS, x, -1) && before.is_known(x, Name::TARGET_ADDRESS, 0) {
        let low = before.least(Name::SECOND_ADDRESS, Name::FIRST_ADDRESS);
        let high = before.bound(Name::SECOND_ADDRESS, Name::FIRST_ADDRESS);
        zone.shift_wide(x, less(-1, high), less(-1, low));
    } else if before.is_known(Name::FIRST_ADDRESS, x, 0)
        && before.is_known(x, Name::SECOND_ADDRESS, 0)
    {
        let low = before.least(Name::TARGET_ADDRESS, Name::SECOND_ADDRESS);
        let high = before.bound(Name::TARGET_ADDRESS, Name::SECOND_ADDRESS);
        zone.shift(x, low, high);
    } else {
        zone.forget(x);
    }
}

/// Where the target of a move is: above the lines, or after them.
#[derive(Clone, Copy)]
pub(crate) enum Way {
    Up,
    Down,
}

fn move_mark(zone: &mut Zone, before: &Zone, way: Way, letter: Letter)
    ensures exact { zone.new ≡ mark_moved way before.now letter zone.old }
{
    match way {
        Way::Up => move_mark_up(zone, before, letter),
        Way::Down => move_mark_down(zone, before, letter),
    }
}

fn move_marks(zone: &mut Zone, before: &Zone, way: Way, marks: &Marks)
    ensures exact { zone.new ≡ for_each_sure (mark_moved way before.now) marks.now 26 zone.old }
{
    for place in 0..Letter::COUNT {
        let letter = Letter::at(place);
        if marks.is_sure(letter) {
            move_mark(zone, before, way, letter);
        }
    }
}

/// The target is above the lines.
#[tactic(auto, unfolding(crate::specs::Move::moved_up))]
fn move_up(before: &Zone, marks: &Marks) -> Zone
    ensures exact { result ≡ moved_up marks.now before.now }
{
    let mut zone = *before;
    zone.set(Name::CURRENT_LINE, Name::TARGET_ADDRESS, 1);
    zone.shift(
        Name::CURRENT_LINE,
        before.least(Name::SECOND_ADDRESS, Name::FIRST_ADDRESS),
        before.bound(Name::SECOND_ADDRESS, Name::FIRST_ADDRESS),
    );
    move_marks(&mut zone, before, Way::Up, marks);
    zone
}

/// The target is after the lines.
#[tactic(auto, unfolding(crate::specs::Move::moved_down))]
fn move_down(before: &Zone, marks: &Marks) -> Zone
    ensures exact { result ≡ moved_down marks.now before.now }
{
    let mut zone = *before;
    zone.set(Name::CURRENT_LINE, Name::TARGET_ADDRESS, 0);
    move_marks(&mut zone, before, Way::Down, marks);
    zone
}

/// The target is above the lines or after them.
#[tactic(auto, unfolding(crate::specs::Move::moved_either))]
fn move_either(before: &Zone, marks: &Marks) -> Zone
    ensures exact { result ≡ moved_either marks.now before.now }
{
    let mut guarded = *before;
    guarded.guard(Name::TARGET_ADDRESS, Name::FIRST_ADDRESS, -1);
    let mut zone = move_up(&guarded, marks);
    guarded.copy_from(before);
    guarded.guard(Name::SECOND_ADDRESS, Name::TARGET_ADDRESS, -1);
    zone.join(&move_down(&guarded, marks));
    zone
}

impl State {
    /// Whether single lines are followed, one line is moved, and it is told from the target's line.
    fn is_target_told_apart(&self) -> bool
        ensures value { result ≡ is_target_told_apart self.now }
    {
        let (first, last) = (Name::FIRST_ADDRESS, Name::SECOND_ADDRESS);
        let target = Name::TARGET_ADDRESS;
        self.follows
            && self.zone.is_known(last, first, 0)
            && !are_same(&self.zone, target, first)
            && self.facts.differ(&self.zone, target, first)
    }

    /// `m`
    pub(crate) fn move_lines(&mut self, listed: bool, before: &State) -> Result<(), Fault>
        ensures exact { Reaches result self.new (moved_lines listed before.now self.old) }
    {
        if self
            .zone
            .is_known(Name::TARGET_ADDRESS, Name::FIRST_ADDRESS, -1)
        {
            self.zone = move_up(&self.zone, &self.marks);
        } else if self
            .zone
            .is_known(Name::SECOND_ADDRESS, Name::TARGET_ADDRESS, -1)
        {
            self.zone = move_down(&self.zone, &self.marks);
        } else if self.is_target_told_apart() {
            self.zone = move_either(&self.zone, &self.marks);
        } else {
            return Err(Fault::Destination);
        }
        self.modify(listed, before)?;
        Ok(())
    }
}
