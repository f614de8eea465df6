//! The pieces that rules share, on a zone: the end of a rule, insertion, line 0 as 1.

ghost use Rattle.std.specs.Prelude.{◌≡◌, ◌+ℤ◌, ◌-ℤ◌, ◌≤ℤ◌, ◌^◌, pos, Some};
ghost use Rattle.zones.specs.Name.{last_line, first_address, second_address, mark};
ghost use Rattle.zones.specs.Bound.{sum_of};
ghost use Rattle.zones.specs.Zone.{bound};
ghost use Rattle.zones.specs.Known.{least, greatest};
ghost use Rattle.zones.specs.Steps.{after_shift};
ghost use Rattle.ed_rules.specs.Marks.{for_each_sure};
ghost use Rattle.ed_rules.specs.Pieces.{guarded_by, without_addresses, mark_bounded, ended, mark_pushed, inserted, lifted, moved_beside, left_by, current_left, current_replaced};

use crate::marks::Marks;
use ed_base::Letter;
use zones::{Name, Zone};

/// A bound as a wide number.
pub(crate) fn wide(bound: Option<i64>) -> Option<i128>
    ensures value { result ≡ bound }
{
    match bound {
        Some(number) => Some(i128::from(number)),
        None => None,
    }
}

/// A bound plus a number.
pub(crate) fn plus(bound: Option<i64>, number: i128) -> Option<i128>
    requires small { (number ≤ℤ pos (2 ^ 65)) × (pos 0 ≤ℤ (number +ℤ pos (2 ^ 65))) }
    ensures value { result ≡ sum_of bound (Some number) }
{
    match bound {
        Some(bound) => Some(i128::from(bound) + number),
        None => None,
    }
}

/// A guard, left out where its number is unbounded.
pub(crate) fn guard_by(zone: &mut Zone, x: Name, y: Name, c: Option<i128>)
    ensures exact { zone.new ≡ guarded_by zone.old x y c }
{
    if let Some(c) = c {
        zone.guard_wide(x, y, c);
    }
}

#[tactic(auto, unfolding(crate::specs::Pieces::mark_bounded))]
fn bound_mark(zone: &mut Zone, letter: Letter)
    ensures exact { zone.new ≡ mark_bounded letter zone.old }
{
    zone.guard(Name::ZERO, Name::of(letter), -1);
    zone.guard(Name::of(letter), Name::LAST_LINE, 0);
}

fn bound_marks(zone: &mut Zone, marks: &Marks)
    ensures exact { zone.new ≡ for_each_sure mark_bounded marks.now 26 zone.old }
{
    for place in 0..Letter::COUNT {
        let letter = Letter::at(place);
        if marks.is_sure(letter) {
            bound_mark(zone, letter);
        }
    }
}

/// The addresses are forgotten.
pub(crate) fn forget_addresses(zone: &mut Zone)
    ensures exact { zone.new ≡ without_addresses zone.old }
{
    zone.forget(Name::FIRST_ADDRESS);
    zone.forget(Name::SECOND_ADDRESS);
    zone.forget(Name::TARGET_ADDRESS);
}

/// The end of each rule: the addresses are forgotten, and what all buffers have is taken up.
#[tactic(auto, unfolding(crate::specs::Pieces::ended))]
pub(crate) fn end(zone: &mut Zone, marks: &Marks)
    ensures exact { zone.new ≡ ended marks.now zone.old }
{
    forget_addresses(zone);
    zone.guard(Name::ZERO, Name::CURRENT_LINE, 0);
    zone.guard(Name::CURRENT_LINE, Name::LAST_LINE, 0);
    bound_marks(zone, marks);
}

/// One mark, where `low` to `high` lines come after `x + c`.
#[tactic(auto, unfolding(crate::specs::Pieces::mark_pushed))]
fn push_mark(
    zone: &mut Zone,
    x: Name,
    c: i64,
    low: Option<i128>,
    high: Option<i128>,
    letter: Letter,
)
    requires small { (pos 0 ≤ℤ (c +ℤ pos 1)) × (c ≤ℤ pos 0) }
    ensures exact { zone.new ≡ mark_pushed x c low high letter zone.old }
{
    let mark = Name::of(letter);
    if !zone.is_known(mark, x, c) {
        if zone.is_known(x, mark, -1 - c) {
            zone.shift_wide(mark, low, high);
        } else {
            zone.shift_wide(mark, Some(0), high);
        }
    }
}

fn push_marks(
    zone: &mut Zone,
    x: Name,
    c: i64,
    low: Option<i128>,
    high: Option<i128>,
    marks: &Marks,
)
    requires small { (pos 0 ≤ℤ (c +ℤ pos 1)) × (c ≤ℤ pos 0) }
    ensures exact { zone.new ≡ for_each_sure (mark_pushed x c low high) marks.now 26 zone.old }
{
    for place in 0..Letter::COUNT {
        let letter = Letter::at(place);
        if marks.is_sure(letter) {
            push_mark(zone, x, c, low, high, letter);
        }
    }
}

/// From `low` to `high` lines come after `x + c`.
#[tactic(auto, unfolding(crate::specs::Pieces::inserted))]
pub(crate) fn insert(
    zone: &mut Zone,
    x: Name,
    c: i64,
    low: Option<i128>,
    high: Option<i128>,
    marks: &Marks,
)
    requires small { (pos 0 ≤ℤ (c +ℤ pos 1)) × (c ≤ℤ pos 0) }
    ensures exact { zone.new ≡ inserted x c low high marks.now zone.old }
{
    push_marks(zone, x, c, low, high, marks);
    zone.shift_wide(Name::LAST_LINE, low, high);
}

/// Line 0 stands for line 1.
#[tactic(auto, unfolding(crate::specs::Pieces::lifted))]
pub(crate) fn lift(zone: &mut Zone, x: Name)
    ensures exact { zone.new ≡ lifted x zone.old }
{
    if zone.is_known(x, Name::ZERO, 0) {
        zone.set(x, Name::ZERO, 1);
    } else if !zone.is_known(Name::ZERO, x, -1) {
        zone.shift(x, Some(0), Some(1));
        zone.guard(Name::ZERO, x, -1);
        if zone.is_known(Name::ZERO, Name::LAST_LINE, -1) {
            zone.guard(x, Name::LAST_LINE, 0);
        }
    }
}

/// A mark after the replaced lines moves as they become `count` lines.
pub(crate) fn move_mark(zone: &mut Zone, count: usize, letter: Letter)
    ensures exact { zone.new ≡ after_shift zone.old (mark letter)
        (sum_of (least zone.old 3 4) (Some (pos count -ℤ pos 1)))
        (sum_of (greatest zone.old 3 4) (Some (pos count -ℤ pos 1))) }
{
    let low = zone.least(Name::FIRST_ADDRESS, Name::SECOND_ADDRESS);
    let high = zone.bound(Name::FIRST_ADDRESS, Name::SECOND_ADDRESS);
    let growth = count as i128 - 1;
    zone.shift_wide(Name::of(letter), plus(low, growth), plus(high, growth));
}

/// A mark beside the one line that becomes `count` lines, before or after it.
#[tactic(auto, unfolding(crate::specs::Pieces::moved_beside))]
pub(crate) fn move_mark_beside(zone: &mut Zone, count: usize, letter: Letter)
    ensures exact { zone.new ≡ moved_beside count (mark letter) zone.old }
{
    let mark = Name::of(letter);
    if count == 0 {
        zone.shift(mark, Some(-1), Some(0));
    } else {
        zone.shift_wide(mark, Some(0), Some((count - 1) as i128));
    }
}

/// How far the addresses and the last line lie from each other, where a zone says it.
#[derive(Clone, Copy)]
pub(crate) struct Distances {
    /// The first address less the second is at least this.
    low: Option<i64>,
    /// The first address less the second is at most this.
    high: Option<i64>,
    /// The last line less the second address is at most this.
    above: Option<i64>,
    /// The second address less the last line is at most this.
    below: Option<i64>,
}

impl Distances {
    pub(crate) fn of(zone: &Zone) -> Self
        ensures value { result ≡ record {
          low = least zone.now first_address second_address;
          high = greatest zone.now first_address second_address;
          above = greatest zone.now last_line second_address;
          below = greatest zone.now second_address last_line;
        } }
    {
        Distances {
            low: zone.least(Name::FIRST_ADDRESS, Name::SECOND_ADDRESS),
            high: zone.bound(Name::FIRST_ADDRESS, Name::SECOND_ADDRESS),
            above: zone.bound(Name::LAST_LINE, Name::SECOND_ADDRESS),
            below: zone.bound(Name::SECOND_ADDRESS, Name::LAST_LINE),
        }
    }
}

/// The target becomes the number of lines that are left, by the distances before.
pub(crate) fn set_left_over(zone: &mut Zone, before: Distances)
    ensures exact { zone.new ≡ left_by before.low before.high before.above before.below zone.old }
{
    zone.set(Name::TARGET_ADDRESS, Name::LAST_LINE, -1);
    zone.shift(Name::TARGET_ADDRESS, before.low, before.high);
    guard_by(
        zone,
        Name::TARGET_ADDRESS,
        Name::FIRST_ADDRESS,
        plus(before.above, -1),
    );
    guard_by(
        zone,
        Name::FIRST_ADDRESS,
        Name::TARGET_ADDRESS,
        plus(before.below, 1),
    );
}

#[tactic(auto, unfolding(crate::specs::Pieces::current_left))]
fn set_current_left(zone: &mut Zone)
    ensures exact { zone.new ≡ current_left zone.old }
{
    if zone.is_known(Name::FIRST_ADDRESS, Name::TARGET_ADDRESS, 0) {
        zone.set(Name::CURRENT_LINE, Name::FIRST_ADDRESS, 0);
    } else if zone.is_known(Name::TARGET_ADDRESS, Name::FIRST_ADDRESS, -1) {
        zone.set(Name::CURRENT_LINE, Name::TARGET_ADDRESS, 0);
    } else {
        zone.forget(Name::CURRENT_LINE);
        zone.guard(Name::FIRST_ADDRESS, Name::CURRENT_LINE, 1);
        zone.guard(Name::CURRENT_LINE, Name::FIRST_ADDRESS, 0);
        zone.guard(Name::CURRENT_LINE, Name::TARGET_ADDRESS, 0);
    }
}

/// The current line after `count` lines took the place of the addressed ones.
#[tactic(auto, unfolding(crate::specs::Pieces::current_replaced))]
pub(crate) fn set_current_replaced(zone: &mut Zone, count: usize)
    ensures exact { zone.new ≡ current_replaced count zone.old }
{
    if count == 0 {
        set_current_left(zone);
    } else {
        zone.set_wide(Name::CURRENT_LINE, Name::FIRST_ADDRESS, (count - 1) as i128);
    }
}
