//! Zones that are kept and given back. To be run with each allocation refused in turn (`rt try --test --fail-alloc N`): the answer
//! is the zone, or want of memory.

use ed_base::Letter;
use std::alloc::{AllocError, Global};
use zones::{KeptEntry, KeptZone, LIMIT, Name, Zone};

/// The line that the last letter marks.
fn mark_z() -> Name {
    Name::of(Letter::at(25))
}

/// Whether a zone is given back as it was, also by a copy of what is kept of it, and into another zone.
fn is_given_back(alloc: Global, zone: &Zone) -> Result<bool, AllocError> {
    let kept = zone.try_keep(alloc)?;
    let copy = kept.try_copy()?;
    let mut restored = Zone::any();
    restored.guard(Name::CURRENT_LINE, Name::of(Letter::at(16)), -7);
    kept.restore(&mut restored);
    Ok(kept.zone() == *zone && copy.zone() == *zone && restored == *zone)
}

#[test]
fn a_zone_in_which_nothing_is_known_is_given_back(rt: HostRuntime) -> Result<(), AllocError> {
    assert!(rt; is_given_back(rt.alloc(), &Zone::any())?);
    Ok(())
}

#[test]
fn marks_are_given_back(rt: HostRuntime) -> Result<(), AllocError> {
    let mut zone = Zone::any();
    zone.guard(Name::LAST_LINE, Name::ZERO, 100);
    for place in 0..Letter::COUNT {
        let mark = Name::of(Letter::at(place));
        zone.guard(Name::ZERO, mark, -1);
        zone.guard(mark, Name::LAST_LINE, 0);
    }
    let kept = zone.try_keep(rt.alloc())?;
    let back = kept.zone();
    assert_eq!(rt; back.bound(mark_z(), Name::ZERO), Some(100));
    assert_eq!(rt; back.bound(mark_z(), Name::LAST_LINE), Some(0));
    assert_eq!(rt; back.bound(Name::LAST_LINE, mark_z()), Some(99));
    assert!(rt; is_given_back(rt.alloc(), &zone)?);
    Ok(())
}

#[test]
fn a_zone_that_contradicts_itself_is_given_back(rt: HostRuntime) -> Result<(), AllocError> {
    let mut zone = Zone::any();
    zone.guard(Name::CURRENT_LINE, Name::ZERO, 1);
    zone.guard(Name::ZERO, Name::CURRENT_LINE, -2);
    assert_eq!(rt; zone.bound(Name::ZERO, Name::ZERO), Some(-1));
    assert!(rt; is_given_back(rt.alloc(), &zone)?);
    // Nothing is known of a name with itself.
    zone.put(mark_z(), mark_z(), None);
    assert!(rt; is_given_back(rt.alloc(), &zone)?);
    Ok(())
}

#[test]
fn bounds_at_the_limit_are_given_back(rt: HostRuntime) -> Result<(), AllocError> {
    let mut zone = Zone::any();
    zone.put(Name::LAST_LINE, Name::ZERO, Some(LIMIT));
    zone.put(Name::ZERO, mark_z(), Some(-LIMIT));
    zone.put(mark_z(), Name::ZERO, Some(0));
    assert!(rt; is_given_back(rt.alloc(), &zone)?);
    Ok(())
}

#[test]
fn a_kept_zone_covers_what_the_zone_does(rt: HostRuntime) -> Result<(), AllocError> {
    let mut weak = Zone::any();
    weak.guard(Name::LAST_LINE, Name::ZERO, 5);
    let mut strong = Zone::any();
    strong.guard(Name::LAST_LINE, Name::ZERO, 4);
    let kept = weak.try_keep(rt.alloc())?;
    assert!(rt; kept.covers(&weak) && kept.covers(&strong));
    assert!(rt; !strong.try_keep(rt.alloc())?.covers(&weak));
    // Of a name with itself it is kept that the difference is at most 0, where nothing else is said.
    strong.put(mark_z(), mark_z(), Some(1));
    assert!(rt; !kept.covers(&strong));
    weak.put(mark_z(), mark_z(), None);
    assert!(rt; weak.try_keep(rt.alloc())?.covers(&strong));
    Ok(())
}

#[test]
fn known_bounds_stand_in_rising_places(rt: HostRuntime) -> Result<(), AllocError> {
    let known = KeptEntry::new(Name::LAST_LINE, Name::ZERO, Some(5));
    let later = KeptEntry::new(mark_z(), Name::ZERO, Some(3));
    let unknown = KeptEntry::new(Name::CURRENT_LINE, Name::CURRENT_LINE, Some(0));
    let alloc = rt.alloc();
    assert!(rt; KeptZone::from_entries(vec![in alloc; later, known]?).is_none());
    assert!(rt; KeptZone::from_entries(vec![in alloc; known, known]?).is_none());
    assert!(rt; KeptZone::from_entries(vec![in alloc; known, unknown]?).is_none());
    let Some(kept) = KeptZone::from_entries(vec![in alloc; known, later]?) else {
        return Err(AllocError);
    };
    let mut zone = Zone::any();
    zone.put(Name::LAST_LINE, Name::ZERO, Some(5));
    zone.put(mark_z(), Name::ZERO, Some(3));
    assert!(rt; kept.zone() == zone);
    assert_eq!(rt; kept.entries().len(), 2);
    assert_eq!(rt; kept.entries()[1].x(), mark_z());
    assert_eq!(rt; kept.entries()[1].y(), Name::ZERO);
    assert_eq!(rt; kept.entries()[1].bound(), Some(3));
    Ok(())
}
