//! The known bounds of a zone, one by one.

ghost use Rattle.std.specs.Prelude.{◌≡◌, ◌<◌, ◌+◌, ◌*◌, ◌/◌, ◌%◌};
ghost use Rattle.zones.specs.Bound.{IsKept, clip_bound};

use crate::entry::Entry;
use crate::name::Name;
use crate::number::clip_bound;
use std::marker::Model;

/// A bound with its place in a zone. It takes 16 bytes.
///
/// Contracts see the bound and its place: that of `x - y` is 32 times the place of `x` plus that of `y`.
#[derive(Clone, Copy, Debug)]
pub struct KeptEntry {
    place: u16,
    entry: Entry,
}

impl Model for KeptEntry {
    ghost use Rattle.std.specs.Prelude.{◌<◌};
    ghost use Rattle.zones.specs.KnownBounds.{PlacedBound};

    ghost Value = { PlacedBound };

    ghost view = { λ kept. record { place = kept.place; bound = kept.entry } };

    ghost invariant = { λ kept. kept.place < 1024 };

    ghost inverse = { λ b. record { place = b.place; entry = b.bound } };
}

impl KeptEntry {
    /// The bound of `x - y`, clipped as always.
    pub fn new(x: Name, y: Name, bound: Option<i64>) -> Self
        ensures value { result ≡ record { place = 32 * x + y; bound = clip_bound bound } }
    {
        KeptEntry::at(32 * x.place() + y.place(), clip_bound(bound))
    }

    /// The bound at a place of a table.
    pub(crate) fn at(place: usize, entry: Entry) -> Self
        requires in_table { place < 1024 }
        ensures value { result ≡ record { place = place; bound = entry } }
    {
        KeptEntry {
            place: place as u16,
            entry,
        }
    }

    /// The place in a table.
    pub(crate) fn place(self) -> usize
        ensures value { result ≡ self.place }
        ensures in_table { result < 1024 }
    {
        usize::from(self.place)
    }

    pub(crate) fn entry(self) -> Entry
        ensures value { result ≡ self.bound }
    {
        self.entry
    }

    /// The first of the names whose difference is bounded.
    pub fn x(self) -> Name
        ensures value { result ≡ self.place / 32 }
    {
        Name::from_place(self.place() / 32)
    }

    /// The name that is subtracted.
    pub fn y(self) -> Name
        ensures value { result ≡ self.place % 32 }
    {
        Name::from_place(self.place() % 32)
    }

    /// The number that `x - y` is at most, if there is one. Among the known bounds of a zone it is missing only for a name with
    /// itself, if the zone says less of that than the zone in which nothing is known.
    pub fn bound(self) -> Option<i64>
        ensures value { result ≡ self.bound }
        ensures kept { IsKept result }
    {
        self.entry.get()
    }
}
