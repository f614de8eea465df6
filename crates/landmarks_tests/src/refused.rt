//! Texts that spell no chain. To be run with each allocation refused in turn (`rt try --test --fail-alloc N`): the answer is the fault, or
//! want of memory.

use bre_parse::fault::BreFault;
use ed_base::Bytes;
use landmarks::{ChainFault, ChainWrong, Never, read_chain};
use std::alloc::{AllocError, Global};
use std::test::Fail;

/// What is wrong, as rows write it.
#[derive(Clone, Copy, Drop)]
enum What {
    Newline,
    Unclosed,
    Empty,
    Pattern(BreFault),
    Number,
    Key,
    End,
    Both(&'static [u8]),
    Always(&'static [u8]),
    RightBelow(&'static [u8]),
}

/// A text, the place of its fault, and what is wrong there.
#[derive(Drop)]
struct Row {
    text: &'static [u8],
    place: usize,
    what: What,
}

#[rattlefmt::skip]
static ROWS: [Row; 66] = [
    // A pattern ends with the delimiter that it began with.
    Row { text: b"/a\\/", place: 0, what: What::Unclosed },
    Row { text: b"/[/", place: 0, what: What::Unclosed },
    Row { text: b"/a", place: 0, what: What::Unclosed },
    Row { text: b"/", place: 0, what: What::Unclosed },
    Row { text: b"/a\\", place: 0, what: What::Unclosed },
    Row { text: b"  |a/", place: 2, what: What::Unclosed },
    Row { text: b"/a/; only /b", place: 10, what: What::Unclosed },
    // An empty pattern is none.
    Row { text: b"//", place: 0, what: What::Empty },
    Row { text: b"||", place: 0, what: What::Empty },
    Row { text: b"/a/; no //", place: 8, what: What::Empty },
    // Some texts are no patterns.
    Row { text: b"/\\(/", place: 0, what: What::Pattern(BreFault::Group) },
    Row { text: b"/a/ & /\\1/", place: 6, what: What::Pattern(BreFault::BackRef) },
    Row { text: b"/a\\{2/", place: 0, what: What::Pattern(BreFault::Interval) },
    Row { text: b"/a\\q/", place: 0, what: What::Pattern(BreFault::Escape) },
    Row { text: b"/[z-a]/", place: 0, what: What::Pattern(BreFault::Range) },
    Row { text: b"/[[:no:]]/", place: 0, what: What::Pattern(BreFault::Class) },
    // Numbers go from 1 to 999999999.
    Row { text: b"0", place: 0, what: What::Number },
    Row { text: b" 000", place: 1, what: What::Number },
    Row { text: b"1234567890", place: 0, what: What::Number },
    Row { text: b"/a/ gap 0", place: 8, what: What::Number },
    Row { text: b"/a/ gap", place: 7, what: What::Number },
    Row { text: b"/a/ tail 0", place: 9, what: What::Number },
    Row { text: b"/a/ tail x", place: 9, what: What::Number },
    Row { text: b"/a/ gap 1234567890", place: 8, what: What::Number },
    // A pattern is wanted.
    Row { text: b"", place: 0, what: What::Key },
    Row { text: b" \t", place: 2, what: What::Key },
    Row { text: b"only 3", place: 5, what: What::Key },
    Row { text: b"no /R/", place: 6, what: What::Key },
    Row { text: b"no", place: 2, what: What::Key },
    Row { text: b"; /a/", place: 0, what: What::Key },
    Row { text: b"/a/;", place: 4, what: What::Key },
    Row { text: b"/a/;; /b/", place: 4, what: What::Key },
    Row { text: b"/a/ &", place: 5, what: What::Key },
    Row { text: b"/a/ & not", place: 9, what: What::Key },
    Row { text: b"/a/ & 3", place: 6, what: What::Key },
    Row { text: b"/a/ & not not /b/", place: 10, what: What::Key },
    Row { text: b"?a?", place: 0, what: What::Key },
    Row { text: b"nothing /a/", place: 0, what: What::Key },
    Row { text: b"onlyx/a/", place: 0, what: What::Key },
    Row { text: b"Only /a/", place: 0, what: What::Key },
    Row { text: b"-3", place: 0, what: What::Key },
    Row { text: b"only no /a/ /b/", place: 5, what: What::Key },
    // A landmark has ended, or goes on with `gap`, `tail` and `&`, in this order.
    Row { text: b"/a/!", place: 3, what: What::End },
    Row { text: b"/a/+2", place: 3, what: What::End },
    Row { text: b"/a/-2", place: 3, what: What::End },
    Row { text: b"/a/ /b/", place: 4, what: What::End },
    Row { text: b"/a/ ?b?", place: 4, what: What::End },
    Row { text: b"1 2", place: 2, what: What::End },
    Row { text: b"/a/ no /b/", place: 4, what: What::End },
    Row { text: b"/a/ gapx 2", place: 4, what: What::End },
    Row { text: b"/a/ tail 1 gap 2", place: 11, what: What::End },
    Row { text: b"/a/ gap 2 gap 3", place: 10, what: What::End },
    Row { text: b"/a/ & /b/ tail 1", place: 10, what: What::End },
    // No line can be it.
    Row { text: b"/a/ & not /a/", place: 0, what: What::Both(b"a") },
    Row { text: b"2; 3 & not /b/ & /b/", place: 2, what: What::Both(b"b") },
    Row { text: b"only /b/ & not /x*/", place: 0, what: What::Always(b"x*") },
    // It would lie right below the one before it, where each line matches what the lines between don't.
    Row { text: b"/x*/ gap 2", place: 0, what: What::RightBelow(b"x*") },
    Row { text: b"1; only /^/ gap 2", place: 2, what: What::RightBelow(b"^") },
    Row { text: b"no /b/ no /x*/ 3 gap 2", place: 0, what: What::RightBelow(b"x*") },
    Row { text: b"no /$/ /a/ gap 999999999", place: 0, what: What::RightBelow(b"$") },
    Row { text: b"no /.*/ /x*/ gap 2", place: 0, what: What::RightBelow(b"x*") },
    Row { text: b"no /.*/ no /^/ /a/ gap 2", place: 0, what: What::RightBelow(b".*") },
    Row { text: b"/x*/ gap 2 & not /a*/", place: 0, what: What::Always(b"a*") },
    // The first fault is told, and a newline before all others.
    Row { text: b"/a/ & not /a/; //", place: 0, what: What::Both(b"a") },
    Row { text: b"/a\n/", place: 2, what: What::Newline },
    Row { text: b"0\n", place: 1, what: What::Newline },
];

fn wrong_of(alloc: Global, what: What) -> Result<ChainWrong, AllocError> {
    match what {
        What::Newline => Ok(ChainWrong::Newline),
        What::Unclosed => Ok(ChainWrong::Unclosed),
        What::Empty => Ok(ChainWrong::Empty),
        What::Pattern(reason) => Ok(ChainWrong::Pattern(reason)),
        What::Number => Ok(ChainWrong::Number),
        What::Key => Ok(ChainWrong::Key),
        What::End => Ok(ChainWrong::End),
        What::Both(pattern) => Ok(ChainWrong::Never(Never::Both(Bytes::from_slice(
            alloc, pattern,
        )?))),
        What::Always(pattern) => {
            Ok(ChainWrong::Never(Never::Always(Bytes::from_slice(alloc, pattern)?)))
        }
        What::RightBelow(pattern) => Ok(ChainWrong::Never(Never::RightBelow(Bytes::from_slice(
            alloc, pattern,
        )?))),
    }
}

#[test]
fn the_first_fault_of_a_chain_is_told(rt: HostRuntime) -> Result<(), Fail> {
    for row in &ROWS {
        let wanted = ChainFault::Wrong(row.place, wrong_of(rt.alloc(), row.what)?);
        match read_chain(rt.alloc(), row.text) {
            Ok(chain) => {
                assert!(rt; false, "{:?}: {chain:?}", row.text);
            }
            Err(ChainFault::Memory) => return Err(Fail::from(AllocError)),
            Err(fault) => assert_eq!(rt; fault, wanted, "{:?}", row.text),
        }
    }
    Ok(())
}
