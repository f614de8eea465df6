//! How `l` folds a line: no row is longer than 71 bytes, and none ends within an escape (XCU ed, "List Command").
use crate::asserting::same;
use crate::driving::{Case, UNREFUSED, run};
use ed_base::Bytes;
use line_store::{ChunkStore, GapStore, LineStore, PlainStore};
use std::alloc::Global;
use std::process::Abort;

// A line of so many letters and a tail, and each row that it is folded into: how many letters, and what stands after them.
struct Folding {
    letters: usize,
    tail: &'static [u8],
    rows: &'static [(usize, &'static [u8])],
}

#[rattlefmt::skip]
static FOLDINGS: [Folding; 8] = [
    Folding { letters: 71, tail: b"", rows: &[(71, b"$\n")] },
    Folding { letters: 72, tail: b"", rows: &[(71, b"\\\n"), (1, b"$\n")] },
    Folding { letters: 80, tail: b"", rows: &[(71, b"\\\n"), (9, b"$\n")] },
    Folding { letters: 143, tail: b"", rows: &[(71, b"\\\n"), (71, b"\\\n"), (1, b"$\n")] },
    Folding { letters: 69, tail: b"\t", rows: &[(69, b"\\t$\n")] },
    Folding { letters: 70, tail: b"\t", rows: &[(70, b"\\\n"), (0, b"\\t$\n")] },
    Folding { letters: 67, tail: b"\xc3", rows: &[(67, b"\\303$\n")] },
    Folding { letters: 68, tail: b"\xc3", rows: &[(68, b"\\\n"), (0, b"\\303$\n")] },
];

fn push_letters(rt: &impl Abort, bytes: &mut Bytes, letters: usize, tail: &[u8]) {
    for _ in 0..letters {
        bytes.push(b'a').expect(rt, "memory");
    }
    bytes.extend_from_slice(tail).expect(rt, "memory");
}

fn file(rt: &impl Abort, alloc: Global, folding: &Folding) -> Bytes {
    let mut file = Bytes::new(alloc);
    push_letters(rt, &mut file, folding.letters, folding.tail);
    file.push(b'\n').expect(rt, "memory");
    file
}

fn folded(rt: &impl Abort, alloc: Global, folding: &Folding) -> Bytes {
    let mut folded = Bytes::new(alloc);
    for (letters, end) in folding.rows {
        push_letters(rt, &mut folded, *letters, end);
    }
    folded
}

fn check<S: LineStore>(rt: &impl Abort, alloc: Global, folding: &Folding) {
    let file = file(rt, alloc, folding);
    let case = Case {
        script: b"l\n",
        file: Some(file.as_slice()),
        ..UNREFUSED
    };
    let outcome = run::<S>(alloc, case).expect(rt, "memory");
    let expected = folded(rt, alloc, folding);
    let at = (folding.letters, folding.tail);
    same(rt, outcome.sink.taken(), expected.as_slice(), at);
}

#[test]
fn a_long_line_is_folded_between_two_bytes(rt: HostRuntime) {
    for folding in &FOLDINGS {
        check::<PlainStore>(&rt, rt.alloc(), folding);
        check::<GapStore>(&rt, rt.alloc(), folding);
        check::<ChunkStore>(&rt, rt.alloc(), folding);
    }
}
