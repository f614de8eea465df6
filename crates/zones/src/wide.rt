//! Steps by offsets of 128 bits, and questions about what a zone knows.

ghost use Rattle.std.specs.Prelude.{◌≡◌, ◌+ℤ◌, ◌-ℤ◌, ◌≤ℤ◌};
ghost use Rattle.zones.specs.Bound.{Obeys, negative_of};
ghost use Rattle.zones.specs.Zone.{Numbers, Holds, ChangesOnly};
ghost use Rattle.zones.specs.Steps.{after_guard, after_set, after_shift};
ghost use Rattle.zones.specs.Known.{known, least};

use crate::laws::{offsets_may_be_clamped, steps_are_sound};
use crate::name::Name;
use crate::number::{clamped, clamped_side};
use crate::zone::Zone;

impl Zone {
    /// Whether it is known that `x` is at most `y + c`.
    #[tactic(auto, unfolding(crate::specs::Known::known))]
    pub fn is_known(&self, x: Name, y: Name, c: i64) -> bool
        ensures value { result ≡ known self.now x y c }
    {
        match self.bound(x, y) {
            Some(bound) => bound <= c,
            None => false,
        }
    }

    /// The number that `x - y` is at least, if there is one.
    pub fn least(&self, x: Name, y: Name) -> Option<i64>
        ensures value { result ≡ least self.now x y }
    {
        match self.bound(y, x) {
            Some(bound) => Some(-bound),
            None => None,
        }
    }

    /// Adds that `x - y` is at most `c`.
    pub fn guard_wide(&mut self, x: Name, y: Name, c: i128)
        ensures exact { self.new ≡ after_guard self.old x y c }
        ensures sound { (number : Numbers) → Holds self.old number → (number x -ℤ number y) ≤ℤ c →
            Holds self.new number }
    {
        offsets_may_be_clamped();
        steps_are_sound();
        let _well_formed = self.bound(x, y);
        self.guard(x, y, clamped(c));
    }

    /// Sets `x` to `y + c`.
    pub fn set_wide(&mut self, x: Name, y: Name, c: i128)
        ensures exact { self.new ≡ after_set self.old x y c }
        ensures sound { (before after : Numbers) → Holds self.old before →
            ChangesOnly x before after → after x ≡ before y +ℤ c → Holds self.new after }
    {
        offsets_may_be_clamped();
        steps_are_sound();
        let _well_formed = self.bound(x, y);
        self.set(x, y, clamped(c));
    }

    /// Lets `x` grow by some number from `low` to `high`; a side that is `None` has no limit.
    pub fn shift_wide(&mut self, x: Name, low: Option<i128>, high: Option<i128>)
        ensures exact { self.new ≡ after_shift self.old x low high }
        ensures sound { (before after : Numbers) → Holds self.old before →
            ChangesOnly x before after → Obeys (after x -ℤ before x) high →
            Obeys (before x -ℤ after x) (negative_of low) → Holds self.new after }
    {
        offsets_may_be_clamped();
        steps_are_sound();
        let _well_formed = self.bound(x, x);
        self.shift(x, clamped_side(low), clamped_side(high));
    }
}
