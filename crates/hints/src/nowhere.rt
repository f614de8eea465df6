//! Landmarks that no file has.

ghost use Rattle.std.specs.Prelude.{◌≡◌, ◌↔◌, ◌≤◌, true, map, IfOk, IfSome, IsTrue};
ghost use Rattle.std.specs.List.{list_any};
ghost use Rattle.zones.specs.Name.{mark};
ghost use Rattle.zones.specs.Zone.{Numbers, Holds};
ghost use Rattle.ed_rules.specs.LineBounds.{most_lines};
ghost use Rattle.ed_rules.specs.facts.FoundLines.{known_as};
ghost use Rattle.hints.specs.Nowhere.{SomeFileHas, IsSeenNowhere, IsNowhere, EndsWithin, letters_down, zone_within, contradicts, is_absurd};

use analyser::Start;
use cert_check::landmarks_in;
use ed_base::Letter;
use ed_rules::{KnownLine, LineFacts, what_facts_say_is_true};
use landmarks::{LandmarkChain, know_landmarks, landmarks_are_where_they_are_said};
use std::alloc::{AllocError, Global};
use zones::{Name, Zone, known_bounds_are_true};

/// Whether it is seen that no file of so many lines at most has the landmarks of some chains: their distances contradict each other, or a line
/// has to match a pattern that no line there may match. Where it isn't seen, there may be none all the same.
pub fn no_file_has(
    alloc: Global,
    chains: &[LandmarkChain],
    most: Option<u64>,
) -> Result<bool, AllocError>
    requires few { IfSome most (λ lines. lines ≤ most_lines) }
    ensures exact { IfOk result (λ none. IsTrue none ↔ IsSeenNowhere most chains.now) }
    ensures sound { IfOk result (λ none. none ≡ true → ¬ SomeFileHas most chains.now) }
{
    landmarks_are_where_they_are_said();
    what_facts_say_is_true();
    known_bounds_are_true();
    let count = landmarks_in(chains);
    if count > Letter::COUNT {
        return Ok(false);
    }
    let names = names_of(alloc, count)?;
    let mut zone = within(most);
    let facts = know_landmarks(alloc, &mut zone, names.as_slice(), chains)?;
    Ok(is_absurd(&zone, &facts))
}

/// Whether it is seen that no file has the landmarks of a start with as many lines as it may have.
pub(crate) fn is_nowhere(alloc: Global, start: &Start) -> Result<bool, AllocError>
    requires high { IfSome start.now.max (λ most. most ≤ most_lines) }
    ensures exact { IfOk result (λ none. IsTrue none ↔ IsNowhere start.now) }
{
    match &start.landmarks {
        Some(landmarks) => no_file_has(alloc, landmarks.as_slice(), start.max),
        None => no_file_has(alloc, &[], start.max),
    }
}

/// What is known of a file of so many lines at most.
fn within(most: Option<u64>) -> Zone
    requires few { IfSome most (λ lines. lines ≤ most_lines) }
    ensures exact { result ≡ zone_within most }
    ensures sound { (number : Numbers) → EndsWithin number most → Holds result number }
{
    let mut zone = Zone::any();
    if let Some(most) = most {
        zone.guard(Name::LAST_LINE, Name::ZERO, most as i64);
    }
    zone
}

/// The names of the lines that so many letters mark, from the last of them down.
fn names_of(alloc: Global, count: usize) -> Result<Vec<Name>, AllocError>
    requires few { count ≤ 26 }
    ensures value { IfOk result (λ names. names.items ≡ map mark (letters_down count)) }
{
    let mut names = Vec::new(alloc);
    let mut below = count;
    while below > 0 {
        below -= 1;
        names.push(Name::of(Letter::at(below)))?;
    }
    Ok(names)
}

/// Whether what is known can't be.
fn is_absurd(zone: &Zone, facts: &LineFacts) -> bool
    ensures value { result ≡ is_absurd (known_as zone.now facts.now) }
{
    zone.is_known(Name::ZERO, Name::ZERO, -1) || contradict(zone, facts)
}

/// Whether some line has to match a pattern that no line there may match.
fn contradict(zone: &Zone, facts: &LineFacts) -> bool
    ensures value { result ≡ list_any (contradicts zone.now facts.now) facts.now.lines }
{
    for fact in &facts.lines {
        if contradicts(zone, facts, fact) {
            return true;
        }
    }
    false
}

/// Whether a line has to match a pattern that no line there may match.
fn contradicts(zone: &Zone, facts: &LineFacts, fact: &KnownLine) -> bool
    ensures value { result ≡ contradicts zone.now facts.now fact.now }
{
    let pattern = fact.pattern.as_slice();
    fact.matches && facts.are_clear(zone, fact.name, -1, fact.name, 1, pattern)
}
