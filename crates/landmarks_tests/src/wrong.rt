//! Landmarks that aren't where they should be.

use crate::written::{Mark, Named, chain_of, mark};
use ed_base::Bytes;
use landmarks::{Misfit, Misplaced, Placing, find_places};
use std::alloc::{AllocError, Global};
use std::test::Fail;

/// Why, as rows write it.
#[derive(Clone, Copy, Drop)]
enum Why {
    Missing,
    Beyond(usize),
    Near(usize),
    Late(usize),
    Repeated(usize, usize),
    Unmatched(usize, &'static [u8]),
    Matched(usize, &'static [u8]),
    Between(usize, usize, &'static [u8]),
}

/// The landmarks of a chain over the file below, which of them isn't where it should be, the line of the one before it, and why.
#[derive(Drop)]
struct Row {
    chain: &'static [Mark],
    index: usize,
    before: usize,
    why: Why,
}

const FILE: &[u8] = b"one\ntwo\nthree\ntwo\nfive\nsix\n";

#[rattlefmt::skip]
static ROWS: [Row; 24] = [
    Row { chain: &[mark!(Named::First(b"four"))], index: 0, before: 0, why: Why::Missing },
    Row { chain: &[mark!(Named::First(b"two")), mark!(Named::First(b"one"))], index: 1, before: 2, why: Why::Missing },
    Row { chain: &[mark!(Named::First(b"six")), mark!(Named::First(b"six"))], index: 1, before: 6, why: Why::Missing },
    Row { chain: &[mark!(Named::Only(b"four"))], index: 0, before: 0, why: Why::Missing },
    // A text that is no pattern matches no line.
    Row { chain: &[mark!(Named::First(b"\\("))], index: 0, before: 0, why: Why::Missing },
    Row { chain: &[mark!(Named::Numbered(7))], index: 0, before: 0, why: Why::Beyond(7) },
    Row { chain: &[mark!(Named::First(b"two")), mark!(Named::Numbered(999999999))], index: 1, before: 2, why: Why::Beyond(999999999) },
    // It isn't below the one before, or not so far.
    Row { chain: &[mark!(Named::Numbered(5)), mark!(Named::Numbered(3))], index: 1, before: 5, why: Why::Near(3) },
    Row { chain: &[mark!(Named::Numbered(5)), mark!(Named::Numbered(5))], index: 1, before: 5, why: Why::Near(5) },
    Row { chain: &[mark!(Named::First(b"two"), gap 3, tail 0)], index: 0, before: 0, why: Why::Near(2) },
    Row { chain: &[mark!(Named::First(b"two")), mark!(Named::First(b"five"), gap 4, tail 0)], index: 1, before: 2, why: Why::Near(5) },
    Row { chain: &[mark!(Named::Numbered(0))], index: 0, before: 0, why: Why::Near(0) },
    // Too few lines come after it.
    Row { chain: &[mark!(Named::First(b"five"), gap 1, tail 2)], index: 0, before: 0, why: Why::Late(5) },
    Row { chain: &[mark!(Named::Numbered(6), gap 1, tail 1)], index: 0, before: 0, why: Why::Late(6) },
    // Another line matches too, below or above.
    Row { chain: &[mark!(Named::Only(b"two"))], index: 0, before: 0, why: Why::Repeated(2, 4) },
    Row { chain: &[mark!(Named::First(b"three")), mark!(Named::Only(b"two"))], index: 1, before: 3, why: Why::Repeated(4, 2) },
    Row { chain: &[mark!(Named::Only(b"e$"))], index: 0, before: 0, why: Why::Repeated(1, 3) },
    // It doesn't match another pattern, the first in their order, or it matches one.
    Row { chain: &[mark!(Named::First(b"^t"), also &[b"z", b"o", b"y"], lacks &[b"w"])], index: 0, before: 0, why: Why::Unmatched(2, b"y") },
    Row { chain: &[mark!(Named::First(b"^t"), also &[b"o"], lacks &[b"x", b"o$", b"w"])], index: 0, before: 0, why: Why::Matched(2, b"o$") },
    Row { chain: &[mark!(Named::First(b"two")), mark!(Named::First(b"i"), also &[], lacks &[b"five"])], index: 1, before: 2, why: Why::Matched(5, b"five") },
    // A line between matches.
    Row { chain: &[mark!(Named::First(b"six"), none &[b"two"])], index: 0, before: 0, why: Why::Between(6, 2, b"two") },
    Row { chain: &[mark!(Named::First(b"two")), mark!(Named::First(b"six"), none &[b"two"])], index: 1, before: 2, why: Why::Between(6, 4, b"two") },
    Row { chain: &[mark!(Named::First(b"six"), none &[b"five", b"one"])], index: 0, before: 0, why: Why::Between(6, 5, b"five") },
    Row { chain: &[mark!(Named::Numbered(2), none &[b"x*"])], index: 0, before: 0, why: Why::Between(2, 1, b"x*") },
];

fn misfit_of(alloc: Global, why: Why) -> Result<Misfit, AllocError> {
    match why {
        Why::Missing => Ok(Misfit::Missing),
        Why::Beyond(number) => Ok(Misfit::Beyond(number)),
        Why::Near(place) => Ok(Misfit::Near(place)),
        Why::Late(place) => Ok(Misfit::Late(place)),
        Why::Repeated(place, other) => Ok(Misfit::Repeated(place, other)),
        Why::Unmatched(place, pattern) => Ok(Misfit::Unmatched(
            place,
            Bytes::from_slice(alloc, pattern)?,
        )),
        Why::Matched(place, pattern) => Ok(Misfit::Matched(
            place,
            Bytes::from_slice(alloc, pattern)?,
        )),
        Why::Between(place, line, pattern) => {
            Ok(Misfit::Between(place, line, Bytes::from_slice(alloc, pattern)?))
        }
    }
}

#[test]
fn the_first_that_is_wrong_is_told(rt: HostRuntime) -> Result<(), Fail> {
    for row in &ROWS {
        let chain = chain_of(rt.alloc(), row.chain)?;
        let wanted = Misplaced {
            index: row.index,
            before: row.before,
            why: misfit_of(rt.alloc(), row.why)?,
        };
        match find_places(rt.alloc(), chain.as_slice(), FILE)? {
            Placing::Placed(places) => {
                assert!(rt; false, "{places:?} and not {wanted:?}");
            }
            Placing::Wrong(wrong) => assert_eq!(rt; wrong, wanted),
        }
    }
    Ok(())
}
