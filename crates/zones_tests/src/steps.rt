//! Worked rows of the steps, and of the names.

use ed_base::Letter;
use zones::{LIMIT, Name, Zone};

/// From 1 to 3 lines, of which the last is current.
fn short_buffer() -> Zone {
    let mut zone = Zone::any();
    zone.guard(Name::ZERO, Name::LAST_LINE, -1);
    zone.guard(Name::LAST_LINE, Name::ZERO, 3);
    zone.set(Name::CURRENT_LINE, Name::LAST_LINE, 0);
    zone
}

#[test]
fn a_name_that_is_set_takes_the_bounds_of_the_other(rt: HostRuntime) {
    let zone = short_buffer();
    assert_eq!(rt; zone.bound(Name::CURRENT_LINE, Name::ZERO), Some(3));
    assert_eq!(rt; zone.bound(Name::ZERO, Name::CURRENT_LINE), Some(-1));
    assert_eq!(rt; zone.bound(Name::LAST_LINE, Name::CURRENT_LINE), Some(0));
}

#[test]
fn a_name_that_is_shifted_moves_against_all_others(rt: HostRuntime) {
    let mut zone = short_buffer();
    zone.shift(Name::LAST_LINE, Some(-1), Some(-1));
    assert_eq!(rt; zone.bound(Name::LAST_LINE, Name::ZERO), Some(2));
    assert_eq!(rt; zone.bound(Name::ZERO, Name::LAST_LINE), Some(0));
    assert_eq!(rt; zone.bound(Name::CURRENT_LINE, Name::LAST_LINE), Some(1));
    assert_eq!(rt; zone.bound(Name::LAST_LINE, Name::CURRENT_LINE), Some(-1));
    zone.shift(Name::LAST_LINE, None, Some(4));
    assert_eq!(rt; zone.bound(Name::LAST_LINE, Name::ZERO), Some(6));
    assert_eq!(rt; zone.bound(Name::ZERO, Name::LAST_LINE), None);
}

#[test]
fn a_forgotten_name_keeps_no_bound(rt: HostRuntime) {
    let mut zone = short_buffer();
    zone.forget(Name::LAST_LINE);
    assert_eq!(rt; zone.bound(Name::LAST_LINE, Name::ZERO), None);
    assert_eq!(rt; zone.bound(Name::ZERO, Name::LAST_LINE), None);
    assert_eq!(rt; zone.bound(Name::LAST_LINE, Name::LAST_LINE), Some(0));
    assert_eq!(rt; zone.bound(Name::CURRENT_LINE, Name::ZERO), Some(3));
}

/// The last line is at most `guard`, and then grows by `growth`.
struct ClipRow {
    guard: i64,
    growth: i64,
    guarded: Option<i64>,
    grown: Option<i64>,
}

#[test]
fn numbers_are_clipped_to_the_weaker_side(rt: HostRuntime) {
    #[rattlefmt::skip]
    static ROWS: [ClipRow; 8] = [
        ClipRow { guard: LIMIT,     growth: 1,        guarded: Some(LIMIT),     grown: None },
        ClipRow { guard: LIMIT,     growth: 0,        guarded: Some(LIMIT),     grown: Some(LIMIT) },
        ClipRow { guard: LIMIT - 1, growth: 1,        guarded: Some(LIMIT - 1), grown: Some(LIMIT) },
        ClipRow { guard: -LIMIT,    growth: -1,       guarded: Some(-LIMIT),    grown: Some(-LIMIT) },
        ClipRow { guard: i64::MAX,  growth: i64::MIN, guarded: None,            grown: None },
        ClipRow { guard: i64::MIN,  growth: 1,        guarded: Some(-LIMIT),    grown: Some(1 - LIMIT) },
        ClipRow { guard: 0,         growth: i64::MAX, guarded: Some(0),         grown: None },
        ClipRow { guard: 0,         growth: i64::MIN, guarded: Some(0),         grown: Some(-LIMIT) },
    ];
    for row in &ROWS {
        let mut zone = Zone::any();
        zone.guard(Name::LAST_LINE, Name::ZERO, row.guard);
        let guarded = zone.bound(Name::LAST_LINE, Name::ZERO);
        assert_eq!(rt; guarded, row.guarded, "after guard {}", row.guard);
        zone.shift(Name::LAST_LINE, Some(row.growth), Some(row.growth));
        let grown = zone.bound(Name::LAST_LINE, Name::ZERO);
        assert_eq!(rt;
            grown,
            row.grown,
            "after guard {} and shift {}",
            row.guard, row.growth
        );
    }
}

/// The line that the letter `a` marks.
fn mark_a() -> Name {
    Name::of(Letter::at(0))
}

/// The line that is marked `a` is at most `number`.
fn mark_up_to(number: i64) -> Zone {
    let mut zone = Zone::any();
    zone.put(mark_a(), Name::ZERO, Some(number));
    zone
}

#[test]
fn a_bound_that_rises_is_joined_and_widened(rt: HostRuntime) {
    let mark = mark_a();
    let mut joined = mark_up_to(3);
    joined.join(&mark_up_to(4));
    assert_eq!(rt; joined.bound(mark, Name::ZERO), Some(4));
    let mut widened = mark_up_to(3);
    widened.widen(&mark_up_to(4));
    assert_eq!(rt; widened.bound(mark, Name::ZERO), None);
    let mut kept = mark_up_to(3);
    kept.widen(&mark_up_to(2));
    assert_eq!(rt; kept.bound(mark, Name::ZERO), Some(3));
}

#[test]
fn the_weaker_zone_covers_the_stronger(rt: HostRuntime) {
    assert!(rt; mark_up_to(4).covers(&mark_up_to(3)));
    assert!(rt; mark_up_to(3).covers(&mark_up_to(3)));
    assert!(rt; !mark_up_to(3).covers(&mark_up_to(4)));
    assert!(rt; Zone::any().covers(&mark_up_to(3)));
    assert!(rt; !mark_up_to(3).covers(&Zone::any()));
}

#[test]
fn a_diagonal_bound_that_rises_is_widened_to_zero(rt: HostRuntime) {
    let mut low = Zone::any();
    low.put(Name::ZERO, Name::ZERO, Some(-2));
    let mut less_low = Zone::any();
    less_low.put(Name::ZERO, Name::ZERO, Some(-1));
    let mut risen = low;
    risen.widen(&less_low);
    assert_eq!(rt; risen.bound(Name::ZERO, Name::ZERO), Some(0));
    less_low.widen(&low);
    assert_eq!(rt; less_low.bound(Name::ZERO, Name::ZERO), Some(-1));
}

#[test]
fn names_go_in_their_order(rt: HostRuntime) {
    #[rattlefmt::skip]
    const FIRST: [Name; 6] = [
        Name::ZERO, Name::CURRENT_LINE, Name::LAST_LINE,
        Name::FIRST_ADDRESS, Name::SECOND_ADDRESS, Name::TARGET_ADDRESS,
    ];
    for (place, name) in FIRST.iter().enumerate() {
        assert_eq!(rt; name.place(), place);
        assert_eq!(rt; name.letter(), None, "place {place}");
    }
    assert_eq!(rt; mark_a().place(), 6);
    for place in 0..Letter::COUNT {
        let letter = Letter::at(place);
        assert_eq!(rt; Name::of(letter), Name::from_place(6 + place));
        assert_eq!(rt; Name::of(letter).letter(), Some(letter));
    }
}
