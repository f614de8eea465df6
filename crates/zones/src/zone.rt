//! A zone and its steps.

ghost use Rattle.std.specs.Prelude.{◌≡◌, ◌+ℤ◌, ◌-ℤ◌, ◌≤ℤ◌, IsTrue, ◌↔◌};
ghost use Rattle.zones.specs.Bound.{Obeys, IsKept, negative_of};
ghost use Rattle.zones.specs.Zone.{Numbers, bound, Holds, ChangesOnly, Covers};
ghost use Rattle.zones.specs.Steps.{any_zone, after_guard, after_set, after_shift, after_forget, join_of, widening_of, after_put};
ghost use Rattle.zones.specs.Limits.{IsZone};
ghost use Rattle.zones.specs.Merging.{merged};

use crate::name::Name;
use crate::reach::{reach_with, reach_within};
use crate::table::{
    Table, any_table, forget_table, guard_table, put_table, set_table, shift_table,
};
use crate::two_tables::{Merge, copy_table, merge_table, table_covers};
use std::marker::Model;

/// To each ordered pair (x, y) of names a number c, meaning that x - y is at most c, or any.
///
/// Of two zones the old one comes before the new (`old.widen(&new)`), and the weaker before the
/// stronger (`weak.covers(&strong)`). A result above [`LIMIT`](crate::LIMIT) becomes any, one below
/// `-LIMIT` becomes `-LIMIT`: always the weaker side. A zone may contradict itself, and then holds
/// of no numbers; no step looks for that.
#[derive(Clone, Copy, Debug)]
pub struct Zone {
    pub(crate) table: Table,
    /// Nothing is known of the names from this place on, which are passed over.
    pub(crate) reach: usize,
}

impl Model for Zone {
    ghost use Rattle.zones.specs.Zone.{Bounds};
    ghost use Rattle.zones.specs.Reach.{IsZoneOfReach, reach_of};
    ghost use Rattle.std.proofs.Common.{sym};

    ghost Value = { Bounds };

    ghost view = { λ zone. zone.table };

    ghost invariant = { λ zone. IsZoneOfReach zone.table zone.reach };

    ghost inverse = { λ bounds. record { table = bounds; reach = reach_of bounds } };

    ghost inverse_ok = { λ zone h i. record { table = zone.table; reach = sym h.known i } };
}

// What is said of `==` is said of the bounds alone, from which it follows how far they reach.
impl PartialEq for Zone {
    ghost use Rattle.std.specs.Option.{option_eq};
    ghost use Rattle.std.specs.Ordering.{int_eq};
    ghost use Rattle.std.specs.Cmp.{partial_equiv_from_equiv, int_eq_equiv};
    ghost use Rattle.std.specs.Cmp.Lexicographic.{pointwise, options_equiv, lists_per};

    ghost eq = { pointwise (option_eq int_eq) };

    ghost laws = { lists_per (partial_equiv_from_equiv (options_equiv int_eq_equiv)) };

    fn eq(&self, other: &Zone) -> bool {
        self.table == other.table
    }
}

impl Eq for Zone {
    ghost use Rattle.std.specs.Cmp.{int_eq_equiv};
    ghost use Rattle.std.specs.Cmp.Lexicographic.{options_equiv, lists_equiv};

    ghost laws = { lists_equiv (options_equiv int_eq_equiv) };
}

impl Zone {
    /// The zone in which nothing is known but that each number is itself.
    pub fn any() -> Self
        ensures exact { result ≡ any_zone }

        // It holds of all numbers.
        ensures sound { (number : Numbers) → Holds result number }
    {
        Zone {
            table: any_table(),
            reach: 0,
        }
    }

    /// Becomes an equal zone, in place. It is quicker than a copy where little is known.
    pub fn copy_from(&mut self, other: &Zone)
        ensures value { self.new ≡ other.now }
    {
        copy_table(&mut self.table, &other.table, self.reach.max(other.reach));
        self.reach = other.reach;
    }

    /// The number that `x - y` is at most, if there is one.
    pub fn bound(&self, x: Name, y: Name) -> Option<i64>
        ensures value { result ≡ bound self.now x y }

        // The difference of numbers that the zone holds of obeys it.
        ensures sound { (number : Numbers) → Holds self.now number →
            Obeys (number x -ℤ number y) result }

        // A number lies between `-LIMIT` and `LIMIT`.
        ensures kept { IsKept result }
        ensures well_formed { IsZone self.now }
    {
        self.table[32 * x.place() + y.place()].get()
    }

    /// Adds that `x - y` is at most `c`.
    pub fn guard(&mut self, x: Name, y: Name, c: i64)
        ensures exact { self.new ≡ after_guard self.old x y c }
        ensures sound { (number : Numbers) → Holds self.old number → (number x -ℤ number y) ≤ℤ c →
            Holds self.new number }
    {
        let p = x.place();
        let q = y.place();
        let most = reach_with(self.reach, p, q);
        guard_table(&mut self.table, most, p, q, c);
        self.reach = reach_within(&self.table, most);
    }

    /// Sets `x` to `y + c`. A name that is set from itself moves by `c`.
    pub fn set(&mut self, x: Name, y: Name, c: i64)
        ensures exact { self.new ≡ after_set self.old x y c }
        ensures sound { (before after : Numbers) → Holds self.old before →
            ChangesOnly x before after → after x ≡ before y +ℤ c → Holds self.new after }
    {
        let p = x.place();
        let q = y.place();
        let most = reach_with(self.reach, p, q);
        set_table(&mut self.table, most, p, q, c);
        self.reach = reach_within(&self.table, most);
    }

    /// Lets `x` grow by some number from `low` to `high`; a side that is `None` has no limit.
    pub fn shift(&mut self, x: Name, low: Option<i64>, high: Option<i64>)
        ensures exact { self.new ≡ after_shift self.old x low high }
        ensures sound { (before after : Numbers) → Holds self.old before →
            ChangesOnly x before after → Obeys (after x -ℤ before x) high →
            Obeys (before x -ℤ after x) (negative_of low) → Holds self.new after }
    {
        let p = x.place();
        let most = reach_with(self.reach, p, p);
        shift_table(&mut self.table, most, p, low, high);
        self.reach = reach_within(&self.table, most);
    }

    /// Lets `x` become any number.
    pub fn forget(&mut self, x: Name)
        ensures exact { self.new ≡ after_forget self.old x }
        ensures sound { (before after : Numbers) → Holds self.old before →
            ChangesOnly x before after → Holds self.new after }
    {
        let p = x.place();
        let most = reach_with(self.reach, p, p);
        forget_table(&mut self.table, most, p);
        self.reach = reach_within(&self.table, most);
    }

    /// Keeps what both zones say.
    pub fn join(&mut self, other: &Zone)
        ensures exact { self.new ≡ join_of self.old other.now }
        ensures sound { (number : Numbers) → Holds self.old number → Holds self.new number }
        ensures sound_of_other { (number : Numbers) → Holds other.now number →
            Holds self.new number }
        ensures covers { Covers self.new self.old }
        ensures covers_other { Covers self.new other.now }
    {
        self.merge(other, Merge::Join);
    }

    /// Keeps what of this zone did not rise in a newer one.
    pub fn widen(&mut self, new: &Zone)
        ensures exact { self.new ≡ widening_of self.old new.now }
        ensures sound { (number : Numbers) → Holds self.old number → Holds self.new number }
        ensures sound_of_other { (number : Numbers) → Holds new.now number → Holds self.new number }
        ensures covers { Covers self.new self.old }
        ensures covers_other { Covers self.new new.now }
    {
        self.merge(new, Merge::Widen);
    }

    fn merge(&mut self, other: &Zone, merge: Merge)
        ensures exact { self.new ≡ merged merge self.old other.now }
    {
        let most = self.reach.max(other.reach);
        merge_table(&mut self.table, &other.table, merge, most);
        self.reach = reach_within(&self.table, most);
    }

    /// Whether this zone is the weaker: no bound of it is less than the other's.
    pub fn covers(&self, other: &Zone) -> bool
        ensures exact { IsTrue result ↔ Covers self.now other.now }
        ensures sound { IsTrue result → (number : Numbers) → Holds other.now number →
            Holds self.now number }
        ensures well_formed { IsZone self.now × IsZone other.now }
    {
        table_covers(&self.table, &other.table, self.reach.max(other.reach))
    }

    /// Replaces the bound of `x - y`, clipped as always. This builds a zone and isn't a step: the
    /// caller answers for what it claims.
    pub fn put(&mut self, x: Name, y: Name, number: Option<i64>)
        ensures exact { self.new ≡ after_put self.old x y number }
        ensures sound { (numbers : Numbers) → Holds self.old numbers →
            Obeys (numbers x -ℤ numbers y) number → Holds self.new numbers }
    {
        let p = x.place();
        let q = y.place();
        let most = reach_with(self.reach, p, q);
        put_table(&mut self.table, p, q, number);
        self.reach = reach_within(&self.table, most);
    }
}
