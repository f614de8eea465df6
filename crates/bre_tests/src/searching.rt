//! Many texts by one searcher: in any order, with states that are forgotten, and after a refused allocation.

use crate::matching::{pattern, pattern_unless_refused};
use bre_match::Searcher;
use std::alloc::{AllocError, Global};
use std::test::Fail;

// A text, the place to begin at, and where the match lies, found by hand.
pub(crate) struct Text {
    pub(crate) bytes: &'static [u8],
    pub(crate) from: usize,
    pub(crate) spans: Option<(usize, usize)>,
}

pub(crate) struct Row {
    pub(crate) pattern: &'static [u8],
    pub(crate) texts: &'static [Text],
}

#[rattlefmt::skip]
pub(crate) static ROWS: [Row; 7] = [
    Row { pattern: b"x.*y.*z", texts: &[
        Text { bytes: b"axbyczd", from: 0, spans: Some((1, 6)) },
        Text { bytes: b"zyx", from: 0, spans: None },
        Text { bytes: b"xyzxyz", from: 1, spans: Some((3, 6)) },
        Text { bytes: b"", from: 0, spans: None },
    ] },
    Row { pattern: b"\\(ab*\\)*c[0-9]", texts: &[
        Text { bytes: b"abbac1", from: 0, spans: Some((0, 6)) },
        Text { bytes: b"c", from: 0, spans: None },
        Text { bytes: b"abcabc9", from: 0, spans: Some((3, 7)) },
        Text { bytes: b"c5c6", from: 1, spans: Some((2, 4)) },
    ] },
    Row { pattern: b"^a*\\(b\\)*$", texts: &[
        Text { bytes: b"aabb", from: 0, spans: Some((0, 4)) },
        Text { bytes: b"aabbc", from: 0, spans: None },
        Text { bytes: b"", from: 0, spans: Some((0, 0)) },
        Text { bytes: b"ab", from: 1, spans: None },
    ] },
    Row { pattern: b"\\(x\\)*[yz]$", texts: &[
        Text { bytes: b"xxy", from: 0, spans: Some((0, 3)) },
        Text { bytes: b"xyx", from: 0, spans: None },
        Text { bytes: b"yz", from: 1, spans: Some((1, 2)) },
        Text { bytes: b"xxzz", from: 0, spans: Some((3, 4)) },
    ] },
    Row { pattern: b"\\(\x80\\)*\xff[^a]", texts: &[
        Text { bytes: b"a\x80\x80\xff\0", from: 0, spans: Some((1, 5)) },
        Text { bytes: b"\xffa", from: 0, spans: None },
        Text { bytes: b"\0\xff\xff\xff", from: 0, spans: Some((1, 3)) },
        Text { bytes: b"\x7f\x80\xff", from: 0, spans: None },
    ] },
    // The first start that is tried leads on past the match's start, but has no way.
    Row { pattern: b"aba*\\(c\\)", texts: &[
        Text { bytes: b"ababac", from: 0, spans: Some((2, 6)) },
        Text { bytes: b"abab", from: 0, spans: None },
        Text { bytes: b"ababac", from: 1, spans: Some((2, 6)) },
        Text { bytes: b"abaabcabc", from: 0, spans: Some((3, 6)) },
    ] },
    // So do nine of them, and the longest way ends after others.
    Row { pattern: b"a\\{3\\}b.*\\(c\\)*c", texts: &[
        Text { bytes: b"aaaaaaaaaaaabxcyc-", from: 0, spans: Some((9, 17)) },
        Text { bytes: b"aaab", from: 0, spans: None },
        Text { bytes: b"aaaaabcaaabcc-", from: 0, spans: Some((2, 13)) },
        Text { bytes: b"aaaaabcaaabcc-", from: 3, spans: Some((7, 13)) },
    ] },
];

/// Whether a searcher finds the match where it lies, and none where there is none.
fn finds(searcher: &mut Searcher<'_>, text: &Text) -> Result<bool, AllocError> {
    if text.from > text.bytes.len() {
        return Ok(false);
    }
    let spans = match searcher.find(text.bytes, text.from)? {
        Some(found) => Some((found.start, found.end)),
        None => None,
    };
    Ok(spans == text.spans)
}

/// So many bytes that no pattern of these tests takes: an automaton is made only once some hundred were searched.
pub(crate) fn filler(alloc: Global) -> Result<Vec<u8>, AllocError> {
    Vec::from_elem(alloc, b'-', 300)
}

#[test]
fn a_searcher_finds_what_lies_in_each_text(rt: HostRuntime) -> Result<(), Fail> {
    let filler = filler(rt.alloc())?;
    for row in ROWS.as_slice() {
        let pattern = pattern(rt.alloc(), row.pattern)?;
        let mut searcher = Searcher::new(rt.alloc(), &pattern);
        assert!(rt; !searcher.matches(&filler)?, "{:?}", row.pattern);
        for text in row.texts {
            assert!(rt;
                finds(&mut searcher, text)?,
                "{:?} on {:?}",
                row.pattern,
                text.bytes
            );
        }
        for text in row.texts.iter().rev() {
            assert!(rt;
                finds(&mut searcher, text)?,
                "{:?} on {:?}",
                row.pattern,
                text.bytes
            );
        }
    }
    Ok(())
}

/// The numbers below 256 by nine letters each, `a` for 1 and `c` for 0: an automaton for `a.\{8\}b` has a state for each of them.
pub(crate) fn numbers(alloc: Global) -> Result<Vec<u8>, AllocError> {
    let mut text = Vec::new(alloc);
    for number in 0..256u32 {
        for place in 0..9u32 {
            let letter = if (number >> place) & 1 == 1 {
                b'a'
            } else {
                b'c'
            };
            text.push(letter)?;
        }
    }
    Ok(text)
}

/// The first round forgets states, and in the later ones too many steps would have to be worked out.
#[test]
fn forgotten_states_are_met_again(rt: HostRuntime) -> Result<(), Fail> {
    let pattern = pattern(rt.alloc(), b"a.\\{8\\}b")?;
    let mut searcher = Searcher::new(rt.alloc(), &pattern);
    for round in 0..3u32 {
        let mut text = numbers(rt.alloc())?;
        assert!(rt; !searcher.matches(&text)?, "round {}", round);
        text.extend_from_slice(b"accccccccb")?;
        let found = searcher.find(&text, 0)?.ok_or("no match")?;
        assert_eq!(rt; (found.start, found.end), (2304, 2314), "round {}", round);
    }
    Ok(())
}

// A pattern, what stands after the filler, and where the match lies.
pub(crate) struct Refused {
    pub(crate) pattern: &'static [u8],
    pub(crate) end: &'static [u8],
    pub(crate) spans: (usize, usize),
}

#[rattlefmt::skip]
pub(crate) static REFUSED: [Refused; 5] = [
    Refused { pattern: b"x.*y.*z", end: b"xayz", spans: (300, 304) },
    Refused { pattern: b"\\(ab*\\)*c[0-9]", end: b"abac7", spans: (300, 305) },
    Refused { pattern: b"\\(x\\)*[yz]$", end: b"xy", spans: (300, 302) },
    Refused { pattern: b"[ab]\\{2,3\\}c", end: b"aabc", spans: (300, 304) },
    Refused { pattern: b"\\(a\\)*\\(bc\\)*d", end: b"aabcd", spans: (300, 305) },
];

pub(crate) fn refused_text(alloc: Global, row: &Refused) -> Result<Vec<u8>, AllocError> {
    let mut text = filler(alloc)?;
    text.extend_from_slice(row.end)?;
    Ok(text)
}

/// To be run with each allocation refused in turn (`rt try --test --fail-alloc N`): a searcher that ran out of memory finds the match when
/// it is asked again.
#[test]
fn a_refused_allocation_leaves_a_searcher_as_it_was(rt: HostRuntime) -> Result<(), Fail> {
    for row in REFUSED.as_slice() {
        let Some(pattern) = pattern_unless_refused(rt.alloc(), row.pattern)? else {
            continue;
        };
        let Ok(text) = refused_text(rt.alloc(), row) else {
            continue;
        };
        let mut searcher = Searcher::new(rt.alloc(), &pattern);
        let found = match searcher.find(&text, 0) {
            Ok(found) => found,
            Err(AllocError { .. }) => searcher.find(&text, 0)?,
        };
        let found = found.ok_or("no match")?;
        assert_eq!(rt; (found.start, found.end), row.spans, "{:?}", row.pattern);
    }
    Ok(())
}
