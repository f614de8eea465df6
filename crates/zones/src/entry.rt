//! A bound in 8 bytes: half of what an `Option<i64>` takes, so that a zone takes half as well.

ghost use Rattle.std.specs.Prelude.{◌≡◌, ◌↔◌, None, IsTrue};
ghost use Rattle.zones.specs.Bound.{IsKept, lesser_of, greater_of, widen_bound, widen_diagonal, covers_bound};

use std::fmt;
use std::marker::Model;

/// Stands for any. It lies above the limit, so no number that a zone keeps is this one.
const ANY_NUMBER: i64 = i64::MAX;

/// A bound that a zone may keep: a number from `-LIMIT` to `LIMIT`, or any.
#[derive(Clone, Copy)]
pub(crate) struct Entry {
    number: i64,
}

impl Model for Entry {
    ghost use Rattle.std.specs.Prelude.{ℤ, Option};
    ghost use Rattle.zones.specs.Bound.{IsKept};
    ghost use Rattle.zones.specs.Entry.{bound_of, number_of, number_of-bound_of};

    ghost Value = { Option ℤ };

    ghost view = { λ entry. bound_of entry.number };

    ghost invariant = { λ entry. IsKept (bound_of entry.number) };

    ghost inverse = { λ bound. record { number = number_of bound } };

    ghost inverse_ok = { λ entry kept i. record { number = number_of-bound_of entry.number i } };
}

impl Entry {
    /// No number.
    pub(crate) fn any() -> Entry
        ensures value { result ≡ None }
    {
        Entry { number: ANY_NUMBER }
    }

    /// The entry of a bound, which has to be one that a zone keeps.
    pub(crate) fn of(bound: Option<i64>) -> Entry
        requires kept { IsKept bound }
        ensures value { result ≡ bound }
    {
        match bound {
            Some(number) => Entry { number },
            None => Entry::any(),
        }
    }

    /// The bound.
    pub(crate) fn get(self) -> Option<i64>
        ensures value { result ≡ self }
        ensures kept { IsKept result }
    {
        if self.number == ANY_NUMBER {
            None
        } else {
            Some(self.number)
        }
    }

    /// Whether both are one bound. It reads the numbers alone, which is quicker than `==`.
    pub(crate) fn is(self, other: Entry) -> bool
        ensures exact { IsTrue result ↔ (self ≡ other) }
    {
        self.number == other.number
    }
}

// Any is kept as the greatest number, so that which of two bounds is the weaker is read off the numbers alone.

/// The stronger of two bounds.
pub(crate) fn lesser(one: Entry, other: Entry) -> Entry
    ensures value { result ≡ lesser_of one other }
{
    if other.number < one.number {
        other
    } else {
        one
    }
}

/// The weaker of two bounds.
pub(crate) fn greater(one: Entry, other: Entry) -> Entry
    ensures value { result ≡ greater_of one other }
{
    if one.number < other.number {
        other
    } else {
        one
    }
}

/// The old bound where the new one is not greater, else any.
pub(crate) fn widen_bound(old: Entry, new: Entry) -> Entry
    ensures value { result ≡ widen_bound old new }
{
    if old.number < new.number {
        Entry::any()
    } else {
        old
    }
}

/// The old bound of a diagonal where the new one is not greater, else the greater of 0 and the new one.
pub(crate) fn widen_diagonal(old: Entry, new: Entry) -> Entry
    ensures value { result ≡ widen_diagonal old new }
{
    if old.number < new.number {
        greater(Entry { number: 0 }, new)
    } else {
        old
    }
}

/// Whether the first bound is no less than the second.
pub(crate) fn covers_bound(weak: Entry, strong: Entry) -> bool
    ensures value { result ≡ covers_bound weak strong }
{
    strong.number <= weak.number
}

// What is said of `==` on zones is said of their bounds, and not of the numbers that stand for them.
impl PartialEq for Entry {
    ghost use Rattle.std.specs.Option.{option_eq};
    ghost use Rattle.std.specs.Ordering.{int_eq};
    ghost use Rattle.std.specs.Cmp.{partial_equiv_from_equiv, int_eq_equiv};
    ghost use Rattle.std.specs.Cmp.Lexicographic.{options_equiv};

    ghost eq = { option_eq int_eq };

    ghost laws = { partial_equiv_from_equiv (options_equiv int_eq_equiv) };

    fn eq(&self, other: &Entry) -> bool {
        self.get() == other.get()
    }
}

impl Eq for Entry {
    ghost use Rattle.std.specs.Cmp.{int_eq_equiv};
    ghost use Rattle.std.specs.Cmp.Lexicographic.{options_equiv};

    ghost laws = { options_equiv int_eq_equiv };
}

impl fmt::Debug for Entry {
    fn fmt<W: fmt::Write>(&self, f: &mut fmt::Formatter<W>) -> fmt::Result {
        self.get().fmt(f)
    }
}
