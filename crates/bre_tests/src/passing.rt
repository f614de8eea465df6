//! Texts of which the front is passed over, since no part of it can match.

use crate::matching::pattern;
use bre_match::{Candidates, Searcher};
use std::test::Fail;

struct Row {
    pattern: &'static [u8],
    text: &'static [u8],
    /// Before which place no part ends that may match, as the word tells that each match has; none where the text hasn't the word.
    place: Option<usize>,
}

// The word is the longest one of bytes next to each other, or a single byte where no two stand so, the one that is rarer in texts; of two
// words as good as each other, the first. Without such a byte nothing is passed over.
#[rattlefmt::skip]
static ROWS: [Row; 20] = [
    Row { pattern: b"abc", text: b"ab abc abc", place: Some(6) },
    Row { pattern: b"abc", text: b"ab bc", place: None },
    Row { pattern: b"", text: b"abc", place: Some(0) },
    Row { pattern: b"x", text: b"axbx", place: Some(2) },
    Row { pattern: b"x", text: b"", place: None },
    Row { pattern: b"^ab$", text: b"b ab", place: Some(4) },
    Row { pattern: b"a.*ba", text: b"a aba", place: Some(5) },
    Row { pattern: b"ab[0-9]cd", text: b"abcd ab1cd", place: Some(2) },
    Row { pattern: b"[0-9]ab[0-9]cde", text: b"1ab1cd 1ab1cde", place: Some(14) },
    Row { pattern: b"[xy]", text: b"y", place: Some(0) },
    Row { pattern: b"[xy]e", text: b"ye", place: Some(2) },
    Row { pattern: b"[^x]", text: b"y", place: Some(0) },
    Row { pattern: b"[x]", text: b"yx", place: Some(2) },
    Row { pattern: b"e[0-9]z", text: b"eee z1 e1z", place: Some(5) },
    Row { pattern: b"a*", text: b"ba", place: Some(0) },
    Row { pattern: b"ab*", text: b"bba", place: Some(3) },
    Row { pattern: b"\\(ab\\)c", text: b"abab c", place: Some(6) },
    Row { pattern: b"a\\{2\\}z", text: b"a z", place: Some(3) },
    Row { pattern: b"abcdefghijklmnopqr", text: b"abcdefghijklmno abcdefghijklmnop", place: Some(32) },
    Row { pattern: b"\\(a\\)b\\1", text: b"aab", place: Some(3) },
];

#[test]
fn the_front_is_passed_over_up_to_the_needed_word(rt: HostRuntime) -> Result<(), Fail> {
    for row in ROWS.as_slice() {
        let pattern = pattern(rt.alloc(), row.pattern)?;
        let searcher = Searcher::new(rt.alloc(), &pattern);
        let word = searcher.needed_word();
        let place = Candidates::of(&word).first(row.text);
        assert_eq!(rt; place, row.place, "{:?} on {:?}", row.pattern, row.text);
    }
    Ok(())
}
