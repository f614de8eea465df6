//! Facts of lines: what is known of the line that a search finds, once a name is another's line, and after a join.

ghost use Rattle.std.specs.Prelude.{◌<◌};

use ed_base::{Bytes, Letter};
use ed_rules::{
    ClearStretch, KnownLine, LineFacts, Texts, assign, is_witnessed, move_by, search_backward,
    search_forward,
};
use std::alloc::{AllocError, Global};
use std::test::Fail;
use zones::{Name, Zone};

const CURRENT: Name = Name::CURRENT_LINE;

const FOUND: Name = Name::FIRST_ADDRESS;

const LAST: Name = Name::LAST_LINE;

const ZERO: Name = Name::ZERO;

/// The line that is marked `a`.
fn a() -> Name {
    Name::of(Letter::at(0))
}

/// The line that is marked `b`.
fn b() -> Name {
    Name::of(Letter::at(1))
}

/// `a` is a line, `b` one further down, and the current line is one of the buffer's, or 0.
fn lines() -> Zone {
    let mut zone = Zone::any();
    zone.guard(ZERO, a(), -1);
    zone.guard(a(), b(), -1);
    zone.guard(b(), LAST, 0);
    zone.guard(ZERO, CURRENT, 0);
    zone.guard(CURRENT, LAST, 0);
    zone
}

/// The same with the current line last.
fn at_the_end() -> Zone {
    let mut zone = lines();
    zone.set(CURRENT, LAST, 0);
    zone
}

fn add_line(facts: &mut LineFacts, name: Name, matches: bool) -> Result<(), AllocError> {
    let pattern = Bytes::from_slice(*facts.lines.allocator(), b"x")?;
    facts.lines.push(KnownLine {
        name,
        pattern,
        matches,
    })?;
    Ok(())
}

/// The place of a name among those of a stretch; without one that of the end.
fn edge(name: Option<Name>) -> u8
    ensures in_range { result < 33 }
{
    match name {
        Some(name) => name.place() as u8,
        None => ClearStretch::END,
    }
}

/// No line between the first name and the second, or the end, matches.
fn add_clear(facts: &mut LineFacts, after: Name, before: Option<Name>) -> Result<(), AllocError> {
    let pattern = Bytes::from_slice(*facts.clear.allocator(), b"x")?;
    let after = edge(Some(after));
    let before = edge(before);
    facts.clear.push(ClearStretch {
        after,
        before,
        pattern,
    })?;
    Ok(())
}

/// The line `a` matches.
fn a_matches(alloc: Global) -> Result<LineFacts, AllocError> {
    let mut facts = LineFacts::none(alloc);
    add_line(&mut facts, a(), true)?;
    Ok(facts)
}

/// The line `b` matches.
fn b_matches(alloc: Global) -> Result<LineFacts, AllocError> {
    let mut facts = LineFacts::none(alloc);
    add_line(&mut facts, b(), true)?;
    Ok(facts)
}

/// The line `a` matches, and no line before it.
fn a_is_first(alloc: Global) -> Result<LineFacts, AllocError> {
    let mut facts = a_matches(alloc)?;
    add_clear(&mut facts, ZERO, Some(a()))?;
    Ok(facts)
}

/// Only the line `a` matches.
fn only_a(alloc: Global) -> Result<LineFacts, AllocError> {
    let mut facts = a_is_first(alloc)?;
    add_clear(&mut facts, a(), None)?;
    Ok(facts)
}

fn is_at(zone: &Zone, x: Name, y: Name) -> bool {
    zone.is_known(x, y, 0) && zone.is_known(y, x, 0)
}

fn is_before(zone: &Zone, x: Name, y: Name) -> bool {
    zone.is_known(x, y, -1)
}

/// The line x matches, as far as is known.
fn is_told(facts: &LineFacts, zone: &Zone, x: Name) -> bool {
    facts.told(zone, x, b"x") == Some(true)
}

fn forward_finds_the_only_line(alloc: Global) -> Result<bool, AllocError> {
    let mut zone = lines();
    let mut facts = only_a(alloc)?;
    search_forward(alloc, &mut zone, &mut facts, FOUND, b"x")?;
    Ok(is_at(&zone, FOUND, a()) && is_told(&facts, &zone, FOUND))
}

fn backward_finds_the_only_line(alloc: Global) -> Result<bool, AllocError> {
    let mut zone = lines();
    let mut facts = only_a(alloc)?;
    search_backward(alloc, &mut zone, &mut facts, FOUND, b"x")?;
    Ok(is_at(&zone, FOUND, a()))
}

/// Where others may match, the line that is found is open.
fn others_leave_it_open(alloc: Global) -> Result<bool, AllocError> {
    let mut zone = lines();
    let mut facts = a_is_first(alloc)?;
    search_forward(alloc, &mut zone, &mut facts, FOUND, b"x")?;
    Ok(!is_at(&zone, FOUND, a()) && is_before(&zone, ZERO, FOUND) && is_told(&facts, &zone, FOUND))
}

/// The last line may match too where a stretch ends before it.
fn the_last_line_leaves_it_open(alloc: Global) -> Result<bool, AllocError> {
    let mut zone = lines();
    let mut facts = a_is_first(alloc)?;
    add_clear(&mut facts, a(), Some(LAST))?;
    search_forward(alloc, &mut zone, &mut facts, FOUND, b"x")?;
    Ok(!is_at(&zone, FOUND, a()) && is_told(&facts, &zone, FOUND))
}

/// From the last line a search goes on at the first.
fn the_end_leads_to_the_first(alloc: Global) -> Result<bool, AllocError> {
    let mut zone = at_the_end();
    let mut facts = a_is_first(alloc)?;
    search_forward(alloc, &mut zone, &mut facts, FOUND, b"x")?;
    Ok(is_at(&zone, FOUND, a()))
}

fn the_end_leads_no_further(alloc: Global) -> Result<bool, AllocError> {
    let mut zone = at_the_end();
    let mut facts = a_matches(alloc)?;
    search_forward(alloc, &mut zone, &mut facts, FOUND, b"x")?;
    Ok(!is_at(&zone, FOUND, a()) && zone.is_known(FOUND, a(), 0))
}

/// A search goes no further than the next line that matches.
fn forward_stops_at_the_next(alloc: Global) -> Result<bool, AllocError> {
    let mut zone = lines();
    zone.guard(CURRENT, a(), -1);
    let mut facts = a_matches(alloc)?;
    search_forward(alloc, &mut zone, &mut facts, FOUND, b"x")?;
    Ok(
        is_before(&zone, CURRENT, FOUND)
            && zone.is_known(FOUND, a(), 0)
            && facts.are_clear(&zone, CURRENT, 0, FOUND, 0, b"x")
            && !facts.are_clear(&zone, CURRENT, 0, b(), 0, b"x"),
    )
}

fn backward_stops_at_the_one_before(alloc: Global) -> Result<bool, AllocError> {
    let mut zone = at_the_end();
    let mut facts = a_matches(alloc)?;
    search_backward(alloc, &mut zone, &mut facts, FOUND, b"x")?;
    Ok(
        is_before(&zone, FOUND, CURRENT)
            && zone.is_known(a(), FOUND, 0)
            && facts.are_clear(&zone, FOUND, 0, CURRENT, 0, b"x"),
    )
}

/// A search forgets what was known of its name.
fn the_name_is_forgotten(alloc: Global) -> Result<bool, AllocError> {
    let mut zone = lines();
    let mut facts = a_matches(alloc)?;
    add_line(&mut facts, FOUND, false)?;
    search_forward(alloc, &mut zone, &mut facts, FOUND, b"x")?;
    Ok(is_told(&facts, &zone, FOUND) && !facts.tell(&zone, FOUND, b"x", false))
}

/// The first search that finds something else.
fn search_otherwise(alloc: Global) -> Result<Option<&'static str>, AllocError> {
    Ok(if !forward_finds_the_only_line(alloc)? {
        Some("the only line, forward")
    } else if !backward_finds_the_only_line(alloc)? {
        Some("the only line, backward")
    } else if !others_leave_it_open(alloc)? {
        Some("where others may match")
    } else if !the_last_line_leaves_it_open(alloc)? {
        Some("where the last line may match")
    } else if !the_end_leads_to_the_first(alloc)? {
        Some("from the last line")
    } else if !the_end_leads_no_further(alloc)? {
        Some("from the last line, where an earlier one may match")
    } else if !forward_stops_at_the_next(alloc)? {
        Some("the next line that matches")
    } else if !backward_stops_at_the_one_before(alloc)? {
        Some("the line before that matches")
    } else if !the_name_is_forgotten(alloc)? {
        Some("what was known of the name")
    } else {
        None
    })
}

#[test]
fn a_search_finds_the_line_that_is_known(rt: HostRuntime) -> Result<(), Fail> {
    assert_eq!(rt; search_otherwise(rt.alloc())?, None);
    Ok(())
}

fn a_mismatch_is_no_witness(alloc: Global) -> Result<bool, AllocError> {
    let mut facts = LineFacts::none(alloc);
    add_line(&mut facts, a(), false)?;
    Ok(!is_witnessed(&facts, b"x"))
}

fn a_match_is_a_witness(alloc: Global) -> Result<bool, AllocError> {
    let facts = a_matches(alloc)?;
    Ok(is_witnessed(&facts, b"x") && !is_witnessed(&facts, b"y"))
}

#[test]
fn a_search_needs_a_line_that_matches(rt: HostRuntime) -> Result<(), Fail> {
    let with = a_match_is_a_witness(rt.alloc())?;
    let without = a_mismatch_is_no_witness(rt.alloc())?;
    assert!(rt; with && without);
    Ok(())
}

/// A line within a clear stretch doesn't match.
fn the_line_between_does_not_match(alloc: Global) -> Result<bool, AllocError> {
    let zone = lines();
    let facts = only_a(alloc)?;
    Ok(
        facts.tell(&zone, b(), b"x", false)
            && facts.told(&zone, b(), b"x") == Some(false)
            && facts.told(&zone, CURRENT, b"x").is_none()
            && !facts.tell(&zone, a(), b"x", false)
            && !facts.tell(&zone, CURRENT, b"x", false),
    )
}

fn only_x(alloc: Global) -> Result<Texts, AllocError> {
    let mut patterns = Texts::none(alloc);
    patterns.add(b"x")?;
    Ok(patterns)
}

/// A name that becomes a line is told what that is told.
fn the_name_is_told_the_same(alloc: Global) -> Result<bool, AllocError> {
    let patterns = only_x(alloc)?;
    let mut zone = lines();
    let mut facts = only_a(alloc)?;
    assign(alloc, &mut zone, &mut facts, CURRENT, a(), &patterns)?;
    Ok(
        is_at(&zone, CURRENT, a())
            && facts.are_telling(&zone, CURRENT, b"x", true)
            && facts.are_clear(&zone, CURRENT, 0, LAST, 1, b"x"),
    )
}

/// A name that moves down keeps the stretch after it alone.
fn the_stretch_after_stays(alloc: Global) -> Result<bool, AllocError> {
    let mut zone = lines();
    let mut facts = only_a(alloc)?;
    move_by(&mut zone, &mut facts, a(), 1);
    Ok(
        facts.lines.is_empty()
            && facts.are_clear(&zone, a(), 0, LAST, 1, b"x")
            && !facts.are_clear(&zone, ZERO, 0, a(), 0, b"x"),
    )
}

/// One that moves up doesn't keep it.
fn the_stretch_after_goes(alloc: Global) -> Result<bool, AllocError> {
    let mut zone = lines();
    let mut facts = only_a(alloc)?;
    move_by(&mut zone, &mut facts, a(), -1);
    Ok(!facts.are_clear(&zone, a(), 0, LAST, 1, b"x"))
}

fn a_name_that_stays_keeps_all(alloc: Global) -> Result<bool, AllocError> {
    let mut zone = lines();
    let mut facts = only_a(alloc)?;
    move_by(&mut zone, &mut facts, a(), 0);
    Ok(facts.are_telling(&zone, a(), b"x", true))
}

/// What is known otherwise of a name.
fn name_otherwise(alloc: Global) -> Result<Option<&'static str>, AllocError> {
    Ok(if !the_line_between_does_not_match(alloc)? {
        Some("within a clear stretch")
    } else if !the_name_is_told_the_same(alloc)? {
        Some("as another line")
    } else if !the_stretch_after_stays(alloc)? {
        Some("moved down")
    } else if !the_stretch_after_goes(alloc)? {
        Some("moved up")
    } else if !a_name_that_stays_keeps_all(alloc)? {
        Some("not moved")
    } else {
        None
    })
}

#[test]
fn names_are_told_by_where_their_lines_are(rt: HostRuntime) -> Result<(), Fail> {
    assert_eq!(rt; name_otherwise(rt.alloc())?, None);
    Ok(())
}

/// What is kept of two facts: that `a` is the first line that matches, of what both say.
fn both_say_the_first(facts: &mut LineFacts, other: &LineFacts) -> bool {
    let zone = lines();
    facts.keep_both(&zone, other);
    facts.are_telling(&zone, a(), b"x", true)
        && facts.are_clear(&zone, ZERO, 0, a(), 0, b"x")
        && !facts.are_clear(&zone, a(), 0, LAST, 1, b"x")
}

/// Whether nothing is left that both say.
fn both_say_nothing(facts: &mut LineFacts, other: &LineFacts) -> bool {
    facts.keep_both(&lines(), other);
    facts.lines.is_empty() && facts.clear.is_empty()
}

fn a_join_keeps_the_first(alloc: Global) -> Result<bool, AllocError> {
    let first = a_is_first(alloc)?;
    let mut facts = only_a(alloc)?;
    let none = LineFacts::none(alloc);
    Ok(both_say_the_first(&mut facts, &first) && both_say_nothing(&mut facts, &none))
}

/// A join keeps no fact of another line.
fn a_join_tells_lines_apart(alloc: Global) -> Result<bool, AllocError> {
    let other = b_matches(alloc)?;
    let mut facts = a_matches(alloc)?;
    Ok(both_say_nothing(&mut facts, &other))
}

#[test]
fn a_join_keeps_what_both_sides_say(rt: HostRuntime) -> Result<(), Fail> {
    let kept = a_join_keeps_the_first(rt.alloc())?;
    let apart = a_join_tells_lines_apart(rt.alloc())?;
    assert!(rt; kept && apart);
    Ok(())
}

/// Facts are covered by those that say each of them.
fn more_facts_cover(alloc: Global) -> Result<bool, AllocError> {
    let zone = lines();
    let first = a_is_first(alloc)?;
    let only = only_a(alloc)?;
    Ok(LineFacts::none(alloc).are_covered(&zone, &first) && first.are_covered(&zone, &only))
}

fn fewer_facts_do_not_cover(alloc: Global) -> Result<bool, AllocError> {
    let zone = lines();
    let first = a_is_first(alloc)?;
    let matching = a_matches(alloc)?;
    Ok(!first.are_covered(&zone, &matching) && !first.are_covered(&zone, &LineFacts::none(alloc)))
}

fn facts_of_another_line_do_not_cover(alloc: Global) -> Result<bool, AllocError> {
    let one = a_matches(alloc)?;
    let other = b_matches(alloc)?;
    Ok(!one.are_covered(&lines(), &other))
}

#[test]
fn facts_are_covered_by_those_that_say_each_of_them(rt: HostRuntime) -> Result<(), Fail> {
    let more = more_facts_cover(rt.alloc())?;
    let fewer = fewer_facts_do_not_cover(rt.alloc())?;
    let other = facts_of_another_line_do_not_cover(rt.alloc())?;
    assert!(rt; more && fewer && other);
    Ok(())
}
