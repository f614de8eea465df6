//! What is told to explain scripts: a line for each command, with what is known before it.
use crate::asserting::same;
use crate::calling::{Came, output};
use crate::certificates::{DELETED, DELETING};
use crate::vouching::{Bounds, set_of};
use analyser::Start;
use ed_base::Bytes;
use ed_calls::{Aside, Starts, explain_certificate, explain_script};
use hints::Given;
use std::alloc::{AllocError, Global};
use std::process::Abort;

/// A certificate tells of at most 10^12 lines.
const MOST_LINES: u64 = 1_000_000_000_000;

/// What is told of a script over such a start at the file `F`; None where the bounds are none.
fn explained(
    alloc: Global,
    script: &[u8],
    bounds: Bounds,
    refused_write: u64,
) -> Result<Option<Came>, AllocError> {
    let (min, max) = (bounds.min, bounds.max);
    let ordered = match max {
        Some(max) => min <= max && max <= MOST_LINES,
        None => min <= MOST_LINES,
    };
    if !ordered {
        return Ok(None);
    }
    let has = set_of(alloc, bounds.has)?;
    let path = Some(Bytes::from_slice(alloc, b"F")?);
    let mut sink = output(alloc, refused_write)?;
    let start = Start {
        path,
        min,
        max,
        has,
        landmarks: None,
    };
    let mut aside = Aside::new(alloc, script, b"");
    let starts = Starts::Given(start);
    let status = explain_script(alloc, script, starts, &mut sink, &mut aside);
    Ok(Some(Came { status, sink }))
}

struct Row {
    script: &'static [u8],
    bounds: Bounds,
    status: u8,
    output: &'static [u8],
}

const FROM_ONE: Bounds = Bounds {
    min: 1,
    max: None,
    has: None,
};

const WITH_PORT: Bounds = Bounds {
    has: Some(b"^port="),
    ..FROM_ONE
};

const FROM_TWO: Bounds = Bounds { min: 2, ..FROM_ONE };

const FROM_FOUR: Bounds = Bounds { min: 4, ..FROM_ONE };

const ONE_TO_THREE: Bounds = Bounds {
    max: Some(3),
    ..FROM_ONE
};

const ADDING: &[u8] = b"/^port=/a\nhost=a\n.\n1d\nw\n";

const ADDED: &[u8] = b"\
1: 1 or more lines, at the last one, one matches `^port=` | /^port=/a
4: 2 or more lines, at line 2 or later, changed, one matches `^port=` | 1d
5: 1 or more lines, at line 1, changed | w
";

const DELETION: &[u8] = b"\
1: 1 to 3 lines, at the last one | 1d
2: 0 to 2 lines, at line 0 to 1, changed | w
3: 0 to 2 lines, at line 0 to 1 | q
";

const LISTED: &[u8] = b"\
1: 2 or more lines, at the last one | g/b/p
1.1: 2 or more lines | p
2: 2 or more lines | w
3: 2 or more lines | q
";

// The last three commands before the one that may fail, which is the fifth.
const BEFORE: &[u8] = b"\
2: 4 or more lines, at line 1 | 2p
3: 4 or more lines, at line 2 | 3p
4: 4 or more lines, at line 3 | 4p
";

#[rattlefmt::skip]
static ROWS: [Row; 7] = [
    Row { script: ADDING, bounds: WITH_PORT, status: 0, output: ADDED },
    Row { script: DELETING, bounds: ONE_TO_THREE, status: 0, output: DELETION },
    Row { script: b"g/b/p\nw\nq\n", bounds: FROM_TWO, status: 0, output: LISTED },
    Row { script: b"1p\n2p\n3p\n4p\n/x/d\nw\nq\n", bounds: FROM_FOUR, status: 1, output: BEFORE },
    Row { script: b"g/x/-1d\nQ\n", bounds: FROM_ONE, status: 1, output: b"1: 1 or more lines, at the last one | g/x/-1d\n" },
    Row { script: b"s/x/y/\nw\nq\n", bounds: FROM_ONE, status: 1, output: b"" },
    Row { script: b"1p\nw \xff\nq\n", bounds: FROM_ONE, status: 1, output: b"" },
];

fn check(rt: &impl Abort, alloc: Global, row: &Row) {
    let came = explained(alloc, row.script, row.bounds, 0).expect(rt, "memory");
    let came = came.expect(rt, "bounds");
    same(rt, came.status, row.status, row.script);
    same(rt, came.sink.taken(), row.output, row.script);
}

#[test]
fn each_command_is_told_with_what_is_known_before_it(rt: HostRuntime) {
    for row in &ROWS {
        check(&rt, rt.alloc(), row);
    }
}

#[test]
fn lines_that_the_output_refuses_end_by_that(rt: HostRuntime) {
    let came = explained(rt.alloc(), ADDING, WITH_PORT, 2).expect(&rt, "memory");
    let came = came.expect(&rt, "bounds");
    same(&rt, came.status, 3, ADDING);
    same(&rt, ADDED.starts_with(came.sink.taken()), true, ADDING);
}

/// What is told of a script over the start at the file `F` that is found where nothing is given of its lines.
struct Found {
    script: &'static [u8],
    output: &'static [u8],
}

// The lines that a script looks for, and one that it enters, go through with what they match.
const MATCHED: &[u8] = b"\
1: 2 or more lines, at the last one | /A/;/B/p
2: 2 or more lines, at line 2 or later, which matches `B` | Q
";

const ENTERED: &[u8] = b"\
1: 1 or more lines, at the last one | $a
4: 2 or more lines, at the last one, which matches `b`, changed | 1d
5: 1 or more lines, at line 1, the last one matches `b`, changed | /b/p
6: 1 or more lines, at a line that matches `b`, the last one matches `b`, changed | Q
";

#[rattlefmt::skip]
static FOUND: [Found; 2] = [
    Found { script: b"/A/;/B/p\nQ\n", output: MATCHED },
    Found { script: b"$a\nb\n.\n1d\n/b/p\nQ\n", output: ENTERED },
];

fn explained_as_found(alloc: Global, row: &Found) -> Result<Came, AllocError> {
    let mut sink = output(alloc, 0)?;
    let mut aside = Aside::new(alloc, row.script, b"");
    let starts = Starts::Widest(Given {
        path: Some(Bytes::from_slice(alloc, b"F")?),
        min: None,
        max: None,
        has: None,
        landmarks: None,
    });
    let status = explain_script(alloc, row.script, starts, &mut sink, &mut aside);
    Ok(Came { status, sink })
}

fn check_found(rt: &impl Abort, alloc: Global, row: &Found) {
    let came = explained_as_found(alloc, row).expect(rt, "memory");
    same(rt, came.status, 0, row.script);
    same(rt, came.sink.taken(), row.output, row.script);
}

#[test]
fn what_single_lines_match_is_told(rt: HostRuntime) {
    for row in &FOUND {
        check_found(&rt, rt.alloc(), row);
    }
}

struct By {
    script: &'static [u8],
    certificate: &'static str,
    status: u8,
    output: &'static [u8],
}

#[rattlefmt::skip]
static BY: [By; 3] = [
    By { script: DELETING, certificate: DELETED, status: 0, output: DELETION },
    By { script: b"1d\nw\n", certificate: DELETED, status: 1, output: b"refused: command 0\n" },
    By { script: DELETING, certificate: "x\n", status: 1, output: b"certificate: version\n" },
];

fn explained_by(alloc: Global, row: &By) -> Result<Came, AllocError> {
    let mut sink = output(alloc, 0)?;
    let mut aside = Aside::new(alloc, row.script, b"CERT");
    let status = explain_certificate(
        alloc,
        row.script,
        row.certificate.as_bytes(),
        &mut sink,
        &mut aside,
    );
    Ok(Came { status, sink })
}

fn check_by(rt: &impl Abort, alloc: Global, row: &By) {
    let came = explained_by(alloc, row).expect(rt, "memory");
    same(rt, came.status, row.status, row.script);
    same(rt, came.sink.taken(), row.output, row.script);
}

#[test]
fn a_certificate_that_is_accepted_is_told_by_its_notes(rt: HostRuntime) {
    for row in &BY {
        check_by(&rt, rt.alloc(), row);
    }
}
