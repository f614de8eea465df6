//! The known bounds of a table, one by one.

ghost use Rattle.std.specs.Prelude.{◌≡◌, ◌<◌, ◌≤◌, ◌+◌, ◌*◌, ◌++◌, IfOk, OnOk};
ghost use Rattle.zones.specs.KnownBounds.{known_bounds};
ghost use Rattle.zones.specs.Reach.{AreUnknown};
ghost use Rattle.zones.specs.Written.{any_at, known_after};

use crate::entry::Entry;
use crate::kept_entry::KeptEntry;
use crate::table::Table;
use std::alloc::{AllocError, Global};

/// How many bounds are known of three names, where all are. Most zones speak of three names alone: 0, the current line and the
/// last one.
pub const BOUNDS_OF_THREE_NAMES: usize = 6;

/// Takes up the bound at a place, if it isn't that of the table in which nothing is known.
fn look_at(
    entries: &mut Vec<KeptEntry>,
    table: &Table,
    place: usize,
    any: Entry,
) -> Result<(), AllocError>
    requires place { place < 1024 }
    requires any { any ≡ any_at place }
    ensures value { OnOk result
        (entries.new.items ++ known_after (place + 1) table.now ≡ entries.old.items ++ known_after place table.now) }
{
    let entry = table[place];
    if !entry.is(any) {
        entries.push(KeptEntry::at(place, entry))?;
    }
    Ok(())
}

/// Takes up the known bounds of a row, which ends before `reach`.
fn look_at_row(
    entries: &mut Vec<KeptEntry>,
    table: &Table,
    reach: usize,
    p: usize,
) -> Result<(), AllocError>
    requires reach { reach ≤ 32 }
    requires row { p < reach }
    requires unknown { AreUnknown table.now reach }
    ensures value { OnOk result
        (entries.new.items ++ known_after (32 * p + 32) table.now ≡ entries.old.items ++ known_after (32 * p) table.now) }
{
    for place in 32 * p..33 * p {
        look_at(entries, table, place, Entry::any())?;
    }
    look_at(entries, table, 33 * p, Entry::of(Some(0)))?;
    for place in 33 * p + 1..32 * p + reach {
        look_at(entries, table, place, Entry::any())?;
    }
    Ok(())
}

/// The known bounds of a table, in rising places. They get exactly the room that they need.
pub(crate) fn known_entries(
    alloc: Global,
    table: &Table,
    reach: usize,
) -> Result<Vec<KeptEntry>, AllocError>
    requires reach { reach ≤ 32 }
    requires unknown { AreUnknown table.now reach }
    ensures value { IfOk result (λ entries. entries.items ≡ known_bounds table.now) }
{
    let mut entries = Vec::with_capacity(alloc, BOUNDS_OF_THREE_NAMES)?;
    for p in 0..reach {
        look_at_row(&mut entries, table, reach, p)?;
    }
    entries.shrink_to_fit();
    Ok(entries)
}
