//! Zones as they are kept, in a form that takes memory only for what is known.

ghost use Rattle.std.specs.Prelude.{◌≡◌, ◌≢◌, ◌↔◌, ◌≤◌, length, ⊤, IfOk, IsTrue, MatchOption, All, Any};
ghost use Rattle.zones.specs.Bound.{IsKept};
ghost use Rattle.zones.specs.Zone.{Bounds, Numbers, Holds, Covers};
ghost use Rattle.zones.specs.Steps.{any_zone};
ghost use Rattle.zones.specs.Limits.{IsZone};
ghost use Rattle.zones.specs.KnownBounds.{known_bounds};
ghost use Rattle.zones.specs.Reach.{AreUnknown};
ghost use Rattle.zones.specs.Written.{written, IsWithin, AreKnownBounds};

use crate::entry::{Entry, covers_bound};
use crate::kept_entry::KeptEntry;
use crate::known_entries::known_entries;
use crate::reach::{any_of, reach_with, reach_within};
use crate::table::{Table, clear_table};
use crate::zone::Zone;
use std::alloc::{AllocError, Global};
use std::marker::Model;

/// A zone as it is kept: its known bounds alone, which are those that aren't the bounds of the zone in which nothing is known. A
/// contract sees the zone.
#[derive(Debug, Drop)]
pub struct KeptZone {
    /// In rising places.
    entries: Vec<KeptEntry>,
}

impl Model for KeptZone {
    ghost use Rattle.zones.specs.Zone.{Bounds};
    ghost use Rattle.zones.specs.Steps.{any_zone};
    ghost use Rattle.zones.specs.Written.{written, IsKeptZone};

    ghost Value = { Bounds };

    ghost view = { λ kept. written kept.entries.items any_zone };

    ghost invariant = { λ kept. IsKeptZone kept.entries.items };
}

/// Writes bounds into a table, each at its place, and tells how far their names reach.
fn write_entries(table: &mut Table, entries: &[KeptEntry]) -> usize
    ensures exact { table.new ≡ written entries.now table.old }
    ensures in_range { result ≤ 32 }
    ensures within { All (IsWithin result) entries.now }
{
    let mut reach = 0;
    for kept in entries {
        let place = kept.place();
        table[place] = kept.entry();
        reach = reach_with(reach, place / 32, place % 32);
    }
    reach
}

/// Whether one of these bounds stands at a place.
fn has_place(entries: &[KeptEntry], place: usize) -> bool
    ensures exact { IsTrue result ↔ Any (λ kept. kept.place ≡ place) entries.now }
{
    entries.iter().any(|kept| kept.place() == place)
}

/// Whether the zone with these known bounds is the weaker. Of the other's names from `reach` on nothing is known.
fn entries_cover(entries: &[KeptEntry], strong: &Table, reach: usize) -> bool
    requires reach { reach ≤ 32 }
    requires unknown { AreUnknown strong.now reach }
    ensures exact { (weak : Bounds) → length weak ≡ 1024 → known_bounds weak ≡ entries.now →
        (IsTrue result ↔ Covers weak strong.now) }
{
    for kept in entries {
        if !covers_bound(kept.entry(), strong[kept.place()]) {
            return false;
        }
    }
    // Elsewhere nothing is known but that each number is itself.
    let itself = Entry::of(Some(0));
    for p in 0..reach {
        let place = 33 * p;
        if !covers_bound(itself, strong[place]) && !has_place(entries, place) {
            return false;
        }
    }
    true
}

/// Whether these are the known bounds of a zone: their places rise, and none is the bound of the zone in which nothing is known.
fn are_known(entries: &[KeptEntry]) -> bool
    ensures exact { IsTrue result ↔ AreKnownBounds entries.now }
    ensures kept { IsTrue result → All (λ kept. IsKept kept.bound) entries.now }
{
    let mut from = 0;
    for kept in entries {
        let place = kept.place();
        let _kept = kept.bound();
        if place < from || kept.entry().is(any_of(place / 32, place % 32)) {
            return false;
        }
        from = place + 1;
    }
    true
}

impl Zone {
    /// The zone in a form that takes memory only for what is known.
    pub fn try_keep(&self, alloc: Global) -> Result<KeptZone, AllocError>
        ensures value { IfOk result (λ kept. kept ≡ self.now) }
    {
        Ok(KeptZone {
            entries: known_entries(alloc, &self.table, self.reach)?,
        })
    }
}

impl KeptZone {
    /// The zone that is kept. It takes no memory.
    pub fn zone(&self) -> Zone
        ensures value { result ≡ self.now }
    {
        let mut zone = Zone::any();
        self.restore(&mut zone);
        zone
    }

    /// Makes a zone the one that is kept. It takes no memory.
    pub fn restore(&self, zone: &mut Zone)
        ensures value { zone.new ≡ self.now }
    {
        clear_table(&mut zone.table, zone.reach);
        let most = write_entries(&mut zone.table, self.entries.as_slice());
        zone.reach = reach_within(&zone.table, most);
    }

    /// Whether the zone that is kept is the weaker: no bound of it is less than the other's.
    pub fn covers(&self, other: &Zone) -> bool
        ensures exact { IsTrue result ↔ Covers self.now other.now }
        ensures sound { IsTrue result → (number : Numbers) → Holds other.now number →
            Holds self.now number }
        ensures well_formed { IsZone self.now × IsZone other.now }
    {
        entries_cover(self.entries.as_slice(), &other.table, other.reach)
    }

    /// The zone of which these are the known bounds, where there is one: their places have to rise, and none may be the bound of
    /// the zone in which nothing is known. It takes no memory.
    pub fn from_entries(entries: Vec<KeptEntry>) -> Option<KeptZone>
        ensures exact { MatchOption result
            ((zone : Bounds) → length zone ≡ 1024 → known_bounds zone ≢ entries.items)
            (λ kept. known_bounds kept ≡ entries.items) }
        ensures well_formed { MatchOption result ⊤ (λ kept. IsZone kept) }
    {
        if !are_known(entries.as_slice()) {
            return None;
        }
        Some(KeptZone { entries })
    }

    /// The known bounds, in rising places.
    pub fn entries(&self) -> &[KeptEntry]
        ensures value { result.now ≡ known_bounds self.now }
        ensures well_formed { IsZone self.now }
    {
        self.entries.as_slice()
    }

    /// An equal one, made by the same allocator.
    pub fn try_copy(&self) -> Result<KeptZone, AllocError>
        ensures value { IfOk result (λ copy. copy ≡ self.now) }
    {
        Ok(KeptZone {
            entries: Vec::from_slice(*self.entries.allocator(), self.entries.as_slice())?,
        })
    }
}
