//! What is known where landmarks are as it is said. To be run with each allocation refused in turn (`rt try --test --fail-alloc N`): the answer
//! is what is known, or want of memory.

use crate::written::{Mark, Named, chain_of, mark};
use ed_base::Bytes;
use ed_rules::LineFacts;
use landmarks::{LandmarkChain, Placing, find_places, know_landmarks, write_chain};
use std::alloc::{AllocError, Global};
use std::test::Fail;
use zones::{Name, Zone};

// Names by their places: those that landmarks take are the marks z, y, x and w.
const ZERO: u8 = 0;

const LAST: u8 = 2;

const W: u8 = 28;

const X: u8 = 29;

const Y: u8 = 30;

const Z: u8 = 31;

const END: u8 = 32;

/// The names that are looked at.
static NAMES: [u8; 6] = [ZERO, LAST, W, X, Y, Z];

/// The first name less the second one is at most so much.
#[derive(Clone, Copy, Drop)]
struct Most(u8, u8, i64);

/// The line of a name matches, or doesn't.
#[derive(Drop)]
struct Told(u8, &'static [u8], bool);

/// No line between two matches.
#[derive(Drop)]
struct Clear(u8, u8, &'static [u8]);

/// Chains whose landmarks are called z, y and x, and all that is known of them then.
#[derive(Drop)]
struct Row {
    chains: &'static [&'static [Mark]],
    bounds: &'static [Most],
    lines: &'static [Told],
    clear: &'static [Clear],
}

#[rattlefmt::skip]
static ROWS: [Row; 8] = [
    // The first line that matches: it is a line, and no line above it matches.
    Row {
        chains: &[&[mark!(Named::First(b"^Port"))]],
        bounds: &[Most(ZERO, Z, -1), Most(Z, LAST, 0), Most(ZERO, LAST, -1)],
        lines: &[Told(Z, b"^Port", true)],
        clear: &[Clear(ZERO, Z, b"^Port")],
    },
    // The only one, at least three lines down: none below it matches either.
    Row {
        chains: &[&[mark!(Named::Only(b"a"), gap 3, tail 0)]],
        bounds: &[Most(ZERO, Z, -3), Most(Z, LAST, 0), Most(ZERO, LAST, -3)],
        lines: &[Told(Z, b"a", true)],
        clear: &[Clear(ZERO, Z, b"a"), Clear(ZERO, Z, b"a"), Clear(Z, END, b"a")],
    },
    // Two, with a pattern that no line between them matches.
    Row {
        chains: &[&[mark!(Named::First(b"a")), mark!(Named::First(b"c"), none &[b"b"])]],
        bounds: &[
            Most(ZERO, Z, -1), Most(ZERO, Y, -2), Most(Z, Y, -1),
            Most(Z, LAST, -1), Most(Y, LAST, 0), Most(ZERO, LAST, -2),
        ],
        lines: &[Told(Z, b"a", true), Told(Y, b"c", true)],
        clear: &[Clear(ZERO, Z, b"a"), Clear(Z, Y, b"c"), Clear(Z, Y, b"b")],
    },
    // The only one below another: no line of the file matches but that one.
    Row {
        chains: &[&[mark!(Named::First(b"a")), mark!(Named::Only(b"b"), gap 2, tail 0)]],
        bounds: &[
            Most(ZERO, Z, -1), Most(ZERO, Y, -3), Most(Z, Y, -2),
            Most(Z, LAST, -2), Most(Y, LAST, 0), Most(ZERO, LAST, -3),
        ],
        lines: &[Told(Z, b"a", true), Told(Y, b"b", true)],
        clear: &[Clear(ZERO, Z, b"a"), Clear(Z, Y, b"b"), Clear(ZERO, Y, b"b"), Clear(Y, END, b"b")],
    },
    // By its number.
    Row {
        chains: &[&[mark!(Named::Numbered(5), also &[b"b"], lacks &[])]],
        bounds: &[Most(ZERO, Z, -5), Most(Z, ZERO, 5), Most(Z, LAST, 0), Most(ZERO, LAST, -5)],
        lines: &[Told(Z, b"b", true)],
        clear: &[],
    },
    // Two lines come after it, and it doesn't match another pattern.
    Row {
        chains: &[&[mark!(Named::First(b"a"), none &[], gap 1, tail 2, also &[], lacks &[b"b"])]],
        bounds: &[Most(ZERO, Z, -1), Most(Z, LAST, -2), Most(ZERO, LAST, -3)],
        lines: &[Told(Z, b"a", true), Told(Z, b"b", false)],
        clear: &[Clear(ZERO, Z, b"a")],
    },
    // Two chains: nothing is said of how the landmarks of one are to those of the other, but by what each says of line 0.
    Row {
        chains: &[
            &[mark!(Named::First(b"a")), mark!(Named::First(b"b"), gap 1, tail 1)],
            &[mark!(Named::Numbered(2), also &[b"a", b"c"], lacks &[b"d"])],
        ],
        bounds: &[
            Most(ZERO, Z, -1), Most(ZERO, Y, -2), Most(Z, Y, -1), Most(Z, LAST, -2), Most(Y, LAST, -1), Most(ZERO, LAST, -3),
            Most(ZERO, X, -2), Most(X, ZERO, 2), Most(X, LAST, -1), Most(X, Z, 1), Most(X, Y, 0),
        ],
        lines: &[
            Told(Z, b"a", true), Told(Y, b"b", true), Told(X, b"a", true), Told(X, b"c", true), Told(X, b"d", false),
        ],
        clear: &[Clear(ZERO, Z, b"a"), Clear(Z, Y, b"b")],
    },
    // Of landmarks for which no name is left nothing is said.
    Row {
        chains: &[
            &[mark!(Named::Numbered(1)), mark!(Named::Numbered(2))],
            &[mark!(Named::Numbered(1)), mark!(Named::First(b"a"))],
            &[mark!(Named::First(b"b"))],
        ],
        bounds: &[
            Most(ZERO, Z, -1), Most(Z, ZERO, 1), Most(ZERO, Y, -2), Most(Y, ZERO, 2), Most(ZERO, X, -1), Most(X, ZERO, 1),
            Most(Z, Y, -1), Most(Y, Z, 1), Most(Z, X, 0), Most(X, Z, 0), Most(X, Y, -1), Most(Y, X, 1),
            Most(Z, LAST, -1), Most(Y, LAST, 0), Most(X, LAST, -1), Most(ZERO, LAST, -2),
        ],
        lines: &[],
        clear: &[],
    },
];

fn name_of(place: u8) -> Name {
    Name::from_place(usize::from(place).min(31))
}

fn chains_of(alloc: Global, rows: &[&[Mark]]) -> Result<Vec<LandmarkChain>, AllocError> {
    let mut chains = Vec::new(alloc);
    for row in rows {
        let marks = chain_of(alloc, row)?;
        let text = write_chain(alloc, marks.as_slice())?.unwrap_or(Bytes::new(alloc));
        let Ok(chain) = LandmarkChain::read(alloc, text) else {
            return Err(AllocError);
        };
        chains.push(chain)?;
    }
    Ok(chains)
}

/// What a row says of a difference; none where it is any number.
fn most_of(bounds: &[Most], x: u8, y: u8) -> Option<i64> {
    for Most(one, other, most) in bounds {
        if *one == x && *other == y {
            return Some(*most);
        }
    }
    None
}

/// Whether the zone knows what a row says of each difference, and no more.
fn are_bounds(zone: &Zone, bounds: &[Most]) -> bool {
    for x in &NAMES {
        for y in &NAMES {
            if x != y && zone.bound(name_of(*x), name_of(*y)) != most_of(bounds, *x, *y) {
                return false;
            }
        }
    }
    true
}

/// Whether facts of single lines are those of a row.
fn are_lines(facts: &LineFacts, lines: &[Told]) -> bool {
    for (fact, Told(name, pattern, matches)) in facts.lines.iter().zip(lines.iter()) {
        let is_same = fact.name == name_of(*name) && fact.matches == *matches;
        if !is_same || fact.pattern.as_slice() != *pattern {
            return false;
        }
    }
    facts.lines.len() == lines.len()
}

/// Whether facts of stretches are those of a row.
fn are_clear(facts: &LineFacts, clear: &[Clear]) -> bool {
    for (stretch, Clear(after, before, pattern)) in facts.clear.iter().zip(clear.iter()) {
        let is_same = stretch.after == *after && stretch.before == *before;
        if !is_same || stretch.pattern.as_slice() != *pattern {
            return false;
        }
    }
    facts.clear.len() == clear.len()
}

#[test]
fn what_chains_say_is_known(rt: HostRuntime) -> Result<(), Fail> {
    let names = [name_of(Z), name_of(Y), name_of(X)];
    for row in &ROWS {
        let chains = chains_of(rt.alloc(), row.chains)?;
        let mut zone = Zone::any();
        let facts = know_landmarks(rt.alloc(), &mut zone, &names, chains.as_slice())?;
        assert!(rt; are_bounds(&zone, row.bounds), "{zone:?}");
        assert!(rt; are_lines(&facts, row.lines), "{facts:?}");
        assert!(rt; are_clear(&facts, row.clear), "{facts:?}");
    }
    Ok(())
}

// A FILE

static FILE: [&[u8]; 6] = [b"top", b"a", b"b", b"a c", b"d b", b"end"];

const BYTES: &[u8] = b"top\na\nb\na c\nd b\nend\n";

/// Chains of patterns without special characters, whose landmarks are called z, y, x and w, and their lines in the file.
#[rattlefmt::skip]
static CHAINS: [&[Mark]; 2] = [
    &[
        mark!(Named::First(b"a"), none &[b"b", b"c"], gap 2, tail 4, also &[], lacks &[b"c", b"d"]),
        mark!(Named::Only(b"c"), none &[b"d", b"end"], gap 2, tail 2, also &[b"a"], lacks &[b"b"]),
        mark!(Named::Numbered(6), none &[b"a"], gap 2, tail 0, also &[b"e", b"nd"], lacks &[b"a"]),
    ],
    &[mark!(Named::Only(b"top"), gap 1, tail 5)],
];

/// The numbers of the names that are looked at, in their order.
static NUMBERS: [i64; 6] = [0, 6, 1, 6, 4, 2];

/// The number of a name of the file.
fn number_of(place: u8) -> i64 {
    for (name, number) in NAMES.iter().zip(NUMBERS.iter()) {
        if *name == place {
            return *number;
        }
    }
    7
}

/// Whether a text stands in a line.
fn stands_in(line: &[u8], text: &[u8]) -> bool {
    for start in 0..line.len() {
        if line[start..].starts_with(text) {
            return true;
        }
    }
    false
}

/// Whether each bound is true of the numbers.
fn are_true(zone: &Zone) -> bool {
    for x in &NAMES {
        for y in &NAMES {
            if let Some(most) = zone.bound(name_of(*x), name_of(*y)) {
                if number_of(*x).saturating_sub(number_of(*y)) > most {
                    return false;
                }
            }
        }
    }
    true
}

/// Whether the line of a number matches the text, or doesn't, as it is said; where there is no such line it isn't so.
fn is_line(number: i64, text: &[u8], matches: bool) -> bool {
    for (line, bytes) in (1i64..7).zip(FILE.iter()) {
        if line == number {
            return stands_in(bytes, text) == matches;
        }
    }
    false
}

/// Whether no line between two matches the text.
fn is_clear(after: i64, before: i64, text: &[u8]) -> bool {
    for (line, bytes) in (1i64..7).zip(FILE.iter()) {
        if after < line && line < before && stands_in(bytes, text) {
            return false;
        }
    }
    true
}

#[test]
fn landmarks_of_the_file_are_found(rt: HostRuntime) -> Result<(), Fail> {
    let chains = chains_of(rt.alloc(), &CHAINS)?;
    let wanted: [&[usize]; 2] = [&[2, 4, 6], &[1]];
    for (chain, places) in chains.iter().zip(wanted.iter()) {
        match find_places(rt.alloc(), chain.landmarks(), BYTES)? {
            Placing::Placed(found) => assert_eq!(rt; found.as_slice(), *places),
            Placing::Wrong(wrong) => {
                assert!(rt; false, "{wrong:?}");
            }
        }
    }
    Ok(())
}

#[test]
fn what_is_known_is_true_where_they_are(rt: HostRuntime) -> Result<(), Fail> {
    let names = [name_of(Z), name_of(Y), name_of(X), name_of(W)];
    let chains = chains_of(rt.alloc(), &CHAINS)?;
    let mut zone = Zone::any();
    let facts = know_landmarks(rt.alloc(), &mut zone, &names, chains.as_slice())?;
    assert!(rt; are_true(&zone), "{zone:?}");
    for fact in &facts.lines {
        let number = number_of(fact.name.place() as u8);
        assert!(rt;
            is_line(number, fact.pattern.as_slice(), fact.matches),
            "{fact:?}"
        );
    }
    for stretch in &facts.clear {
        let (after, before) = (number_of(stretch.after), number_of(stretch.before));
        assert!(rt;
            is_clear(after, before, stretch.pattern.as_slice()),
            "{stretch:?}"
        );
    }
    Ok(())
}
