//! The first start of which a match comes, after others of which nothing does: patterns with a back-reference, and an item whose ways are
//! listed.

use crate::matching::{line_of, pattern};
use bre_match::{find, matches};
use std::test::Fail;

struct Row {
    pattern: &'static [u8],
    text: &'static [u8],
    spans: Option<(usize, usize)>,
    first: Option<(usize, usize)>,
    second: Option<(usize, usize)>,
}

// Worked out by hand from the definition of a match.
#[rattlefmt::skip]
static ROWS: [Row; 17] = [
    // What stands before the comma stands at the end again.
    Row { pattern: b"\\([^,]*\\),\\(.*,\\)*\\1$", text: b"ab,cd,ab", spans: Some((0, 8)), first: Some((0, 2)), second: Some((3, 6)) },
    Row { pattern: b"\\([^,]*\\),\\(.*,\\)*\\1$", text: b"x,ab,cd,ab", spans: Some((2, 10)), first: Some((2, 4)), second: Some((5, 8)) },
    Row { pattern: b"\\([^,]*\\),\\(.*,\\)*\\1$", text: b"ab,cd,ef", spans: None, first: None, second: None },
    // Repeats of repeats before a byte that has to come twice.
    Row { pattern: b"a***\\(b\\)\\1c", text: b"aaabaabbc", spans: Some((4, 9)), first: Some((6, 7)), second: None },
    Row { pattern: b"a***\\(b\\)\\1c", text: b"aaabaabcb", spans: None, first: None, second: None },
    // A turn unsets the group inside it: after `b` alone there is nothing to repeat.
    Row { pattern: b"\\(\\(a\\)*b\\)*\\2c", text: b"bbabac", spans: Some((0, 6)), first: Some((2, 4)), second: Some((2, 3)) },
    Row { pattern: b"\\(\\(a\\)*b\\)*\\2c", text: b"babbac", spans: None, first: None, second: None },
    // Turns that are counted, of which the last one is repeated.
    Row { pattern: b"\\(a\\{1,2\\}\\)\\{2,3\\}b\\1c", text: b"baaabaac", spans: Some((1, 8)), first: Some((2, 4)), second: None },
    Row { pattern: b"\\(a\\{1,2\\}\\)\\{2,3\\}b\\1c", text: b"aabaac", spans: None, first: None, second: None },
    // Two ways that end at one place and differ in the group: only the later one leads on.
    Row { pattern: b"b\\(a*\\)\\(a\\)*c\\1$", text: b"baacbaaca", spans: Some((4, 9)), first: Some((5, 6)), second: Some((6, 7)) },
    Row { pattern: b"\\(\\(a*\\)a*\\)*b\\2c", text: b"aacaabac", spans: Some((3, 8)), first: Some((3, 5)), second: Some((3, 4)) },
    // Rows of one byte, one after another: of the ways that meet in a row the first keeps its groups.
    Row { pattern: b"\\(a*\\)a*a*\\(b\\)\\2", text: b"aaabb", spans: Some((0, 5)), first: Some((0, 3)), second: Some((3, 4)) },
    Row { pattern: b"\\(a*\\)a*ab\\(b\\)\\2", text: b"aaabbb", spans: Some((0, 6)), first: Some((0, 2)), second: Some((4, 5)) },
    Row { pattern: b"a*\\(a*\\)a*a*b\\1c", text: b"aaabac", spans: Some((0, 6)), first: Some((2, 3)), second: None },
    Row { pattern: b"[ab]*\\(a*\\)a*b*c\\1$", text: b"abaabcaa", spans: Some((0, 8)), first: Some((2, 4)), second: None },
    // The first start at once, and the last one, at the end of the text.
    Row { pattern: b"\\(ab\\)*c\\(x*\\)\\2$", text: b"abababc", spans: Some((0, 7)), first: Some((4, 6)), second: Some((7, 7)) },
    Row { pattern: b"\\(ab\\)*\\(x*\\)\\2$", text: b"abac", spans: Some((4, 4)), first: None, second: Some((4, 4)) },
];

#[test]
fn the_first_start_that_leads_on_has_the_match(rt: HostRuntime) -> Result<(), Fail> {
    for row in ROWS.as_slice() {
        let pattern = pattern(rt.alloc(), row.pattern)?;
        match find(rt.alloc(), &pattern, row.text, 0)? {
            Some(found) => {
                let groups = found.groups;
                let spans = Some((found.start, found.end));
                assert_eq!(rt; spans, row.spans, "{:?} on {:?}", row.pattern, row.text);
                assert_eq!(rt; groups[0], row.first, "{:?} on {:?}", row.pattern, row.text);
                assert_eq!(rt;
                    groups[1],
                    row.second,
                    "{:?} on {:?}",
                    row.pattern, row.text
                );
            }
            None => assert!(rt; row.spans.is_none(), "{:?} on {:?}", row.pattern, row.text),
        }
    }
    Ok(())
}

#[test]
fn many_hopeless_starts_end_soon(rt: HostRuntime) -> Result<(), Fail> {
    #[rattlefmt::skip]
    let patterns: [&[u8]; 4] = [
        b"a****\\(b\\)\\1bb",
        b"\\(\\(a*\\)*\\)*\\2bb",
        b"\\(a\\)*\\(a\\)*\\(a\\)*\\(a\\)*b\\1bb",
        b"\\(\\(a*a*\\)\\(a*a*\\)\\)*b\\1bb",
    ];
    let line = line_of(rt.alloc(), 60, b"b")?;
    for bytes in patterns.as_slice() {
        let pattern = pattern(rt.alloc(), bytes)?;
        assert!(rt; !matches(rt.alloc(), &pattern, &line)?, "{:?}", bytes);
    }
    Ok(())
}

// Where rows follow a group that is referred to, no place of a row is followed twice with the same span of the group.
#[test]
fn rows_after_a_group_that_is_referred_to_end_soon(rt: HostRuntime) -> Result<(), Fail> {
    #[rattlefmt::skip]
    let patterns: [&[u8]; 2] = [
        b"a*\\(a*\\)a*a*\\1bbb",
        b"\\(a*\\)a*a*a*a*\\1bbb",
    ];
    let line = line_of(rt.alloc(), 60, b"bb")?;
    for bytes in patterns.as_slice() {
        let pattern = pattern(rt.alloc(), bytes)?;
        assert!(rt; !matches(rt.alloc(), &pattern, &line)?, "{:?}", bytes);
    }
    Ok(())
}

// Repeats 64 deep, each of which is gone through at least twice for each turn of the one around it: these starts are asked of one by one.
#[test]
fn deep_repeats_before_a_back_reference_end_soon(rt: HostRuntime) -> Result<(), Fail> {
    let mut bytes = Vec::new(rt.alloc());
    bytes.push(b'a')?;
    for _ in 0..64 {
        bytes.push(b'*')?;
    }
    bytes.extend_from_slice(b"\\(b\\)\\1c")?;
    let pattern = pattern(rt.alloc(), &bytes)?;
    let found = find(rt.alloc(), &pattern, b"abcabbc", 0)?.ok_or("no match")?;
    assert_eq!(rt; (found.start, found.end), (3, 7));
    let groups = found.groups;
    assert_eq!(rt; groups[0], Some((4, 5)));
    Ok(())
}
