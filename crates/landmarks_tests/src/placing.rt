//! Where landmarks are found. To be run with each allocation refused in turn (`rt try --test --fail-alloc N`): the answer is the places, or
//! want of memory.

use crate::written::{Mark, Named, chain_of, mark};
use landmarks::{Placing, find_places};
use std::alloc::AllocError;
use std::test::Fail;

/// A file, the landmarks of a chain, and their lines.
#[derive(Drop)]
struct Row {
    file: &'static [u8],
    chain: &'static [Mark],
    places: &'static [usize],
}

const HOSTS: &[u8] =
    b"# hosts\n127.0.0.1 here\n# begin acme\n10.0.0.1 a\n10.0.0.2 b\n# end acme\n\n# end\n";

#[rattlefmt::skip]
static ROWS: [Row; 22] = [
    // The first line that matches.
    Row { file: HOSTS, chain: &[mark!(Named::First(b"^#"))], places: &[1] },
    Row { file: HOSTS, chain: &[mark!(Named::First(b"^10"))], places: &[4] },
    Row { file: HOSTS, chain: &[mark!(Named::First(b"end$"))], places: &[8] },
    // The first one below the landmark before it, never that line itself.
    Row { file: HOSTS, chain: &[mark!(Named::First(b"begin")), mark!(Named::First(b"end"))], places: &[3, 6] },
    Row { file: HOSTS, chain: &[mark!(Named::First(b"^#")), mark!(Named::First(b"^#")), mark!(Named::First(b"^#"))], places: &[1, 3, 6] },
    Row { file: HOSTS, chain: &[mark!(Named::First(b"^10")), mark!(Named::First(b"^$")), mark!(Named::First(b"x*"))], places: &[4, 7, 8] },
    // The only one.
    Row { file: HOSTS, chain: &[mark!(Named::Only(b"^$"))], places: &[7] },
    Row { file: HOSTS, chain: &[mark!(Named::First(b"begin")), mark!(Named::Only(b"end$"))], places: &[3, 8] },
    // By numbers.
    Row { file: HOSTS, chain: &[mark!(Named::Numbered(1)), mark!(Named::Numbered(8))], places: &[1, 8] },
    Row { file: HOSTS, chain: &[mark!(Named::First(b"begin")), mark!(Named::Numbered(5))], places: &[3, 5] },
    // So far down, and so many lines after it.
    Row { file: HOSTS, chain: &[mark!(Named::First(b"begin"), gap 3, tail 5)], places: &[3] },
    Row { file: HOSTS, chain: &[mark!(Named::First(b"begin")), mark!(Named::First(b"end"), gap 3, tail 2)], places: &[3, 6] },
    Row { file: HOSTS, chain: &[mark!(Named::Numbered(8), gap 8, tail 0)], places: &[8] },
    // What it matches too, and what it doesn't match.
    Row { file: HOSTS, chain: &[mark!(Named::First(b"^#"), also &[b"hosts", b"s$"], lacks &[b"acme"])], places: &[1] },
    Row { file: HOSTS, chain: &[mark!(Named::Numbered(2), also &[b"here"], lacks &[b"^#"])], places: &[2] },
    // No line between matches.
    Row { file: HOSTS, chain: &[mark!(Named::First(b"begin")), mark!(Named::First(b"end"), none &[b"^#", b"^$"])], places: &[3, 6] },
    Row { file: HOSTS, chain: &[mark!(Named::First(b"^#"), none &[b"x*"])], places: &[1] },
    Row { file: HOSTS, chain: &[mark!(Named::First(b"^10"), none &[b"^10"])], places: &[4] },
    // A last line may lack its newline, and an empty line is one.
    Row { file: b"a\nb", chain: &[mark!(Named::Numbered(2))], places: &[2] },
    Row { file: b"\n", chain: &[mark!(Named::Only(b"^$"))], places: &[1] },
    // No landmark holds of any file.
    Row { file: b"", chain: &[], places: &[] },
    Row { file: HOSTS, chain: &[], places: &[] },
];

#[test]
fn landmarks_are_where_they_are_said(rt: HostRuntime) -> Result<(), Fail> {
    for row in &ROWS {
        let chain = chain_of(rt.alloc(), row.chain)?;
        match find_places(rt.alloc(), chain.as_slice(), row.file)? {
            Placing::Placed(places) => assert_eq!(rt; places.as_slice(), row.places),
            Placing::Wrong(wrong) => {
                assert_eq!(rt; wrong.index, row.places.len(), "{wrong:?}");
                assert!(rt; false, "{wrong:?}");
            }
        }
    }
    Ok(())
}
