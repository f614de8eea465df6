//! What `vouch_text` tells of scripts: their certificate, or the need that fails.
use crate::asserting::same;
use crate::calling::{Came, output};
use crate::certificates::{DELETED, DELETING};
use analyser::Start;
use ed_base::Bytes;
use ed_calls::{Aside, Starts, vouch_text};
use ed_rules::Texts;
use std::alloc::{AllocError, Global};
use std::process::Abort;

/// A certificate tells of at most 10^12 lines.
const MOST_LINES: u64 = 1_000_000_000_000;

/// The bounds of a start at the file `F`, and the pattern that it states, where it states any.
#[derive(Clone, Copy)]
pub(crate) struct Bounds {
    pub min: u64,
    pub max: Option<u64>,
    pub has: Option<&'static [u8]>,
}

/// The set of this pattern alone, where there is one.
pub(crate) fn set_of(alloc: Global, pattern: Option<&[u8]>) -> Result<Option<Texts>, AllocError> {
    match pattern {
        Some(pattern) => {
            let mut set = Texts::none(alloc);
            set.add(pattern)?;
            Ok(Some(set))
        }
        None => Ok(None),
    }
}

/// What is told of a script over such a start, all refusals being shown or the first one; None where the bounds are none.
pub(crate) fn vouched(
    alloc: Global,
    script: &[u8],
    bounds: Bounds,
    all: bool,
    refused_write: u64,
) -> Result<Option<Came>, AllocError> {
    let (min, max) = (bounds.min, bounds.max);
    let ordered = match max {
        Some(max) => min <= max && max <= MOST_LINES,
        None => min <= MOST_LINES,
    };
    if !ordered {
        return Ok(None);
    }
    let has = set_of(alloc, bounds.has)?;
    let path = Some(Bytes::from_slice(alloc, b"F")?);
    let mut sink = output(alloc, refused_write)?;
    let start = Start {
        path,
        min,
        max,
        has,
        landmarks: None,
    };
    let mut aside = Aside::new(alloc, script, b"");
    let starts = Starts::Given(start);
    let status = vouch_text(alloc, script, starts, all, &mut sink, &mut aside);
    Ok(Some(Came { status, sink }))
}

struct Row {
    script: &'static [u8],
    min: u64,
    max: Option<u64>,
    output: &'static [u8],
}

#[rattlefmt::skip]
static CANNOT: [Row; 15] = [
    Row { script: DELETING, min: 0, max: Some(3), output: b"cannot: command 1: invalid address\n" },
    Row { script: b"2ka\n1,2d\n'ap\nQ\n", min: 2, max: None, output: b"cannot: command 3: mark not set\n" },
    Row { script: b"s/x/y/\nw\nq\n", min: 1, max: None, output: b"cannot: command 1: no match\n" },
    Row { script: b"1m$\nw\nq\n", min: 1, max: None, output: b"cannot: command 1: invalid destination\n" },
    Row { script: b"1d\n", min: 1, max: None, output: b"cannot: command 2: buffer modified\n" },
    Row { script: b"g/x/-1d\nQ\n", min: 1, max: None, output: b"cannot: command 1.1: invalid address\n" },
    Row { script: b"2d\n$p\n3p\nQ\n", min: 3, max: Some(3), output: b"cannot: command 3: invalid address\n" },
    Row { script: b"/x*/,p\nQ\n", min: 1, max: None, output: b"cannot: command 1: invalid address\n" },
    Row { script: b"w !x\n", min: 1, max: None, output: b"cannot: command 1: invalid command\n" },
    Row { script: b"1p\nw \xff\nq\n", min: 1, max: None, output: b"cannot: command 2: file refused\n" },
    Row { script: b"g/x/w \xff\nq\n", min: 1, max: None, output: b"cannot: command 1.1: file refused\n" },
    Row { script: b"g/x/p\\\n-1p\\\nw \xff\nq\n", min: 1, max: None, output: b"cannot: command 1.2: invalid address\n" },
    Row { script: b"1d\nw \xff\nq\n", min: 0, max: None, output: b"cannot: command 1: invalid address\n" },
    Row { script: b"f \xff\n1p\nw\nq\n", min: 1, max: None, output: b"cannot: command 3: file refused\n" },
    Row { script: b"g/x/f \xff\nr\nq\n", min: 1, max: None, output: b"cannot: command 2: file refused\n" },
];

fn check_cannot(rt: &impl Abort, alloc: Global, row: &Row, all: bool) {
    let bounds = Bounds {
        min: row.min,
        max: row.max,
        has: None,
    };
    let came = vouched(alloc, row.script, bounds, all, 0).expect(rt, "memory");
    let came = came.expect(rt, "bounds");
    same(rt, came.status, 1, row.script);
    same(rt, came.sink.taken(), row.output, row.script);
}

#[test]
fn the_first_need_that_fails_is_told(rt: HostRuntime) {
    for row in &CANNOT {
        check_cannot(&rt, rt.alloc(), row, false);
        check_cannot(&rt, rt.alloc(), row, true);
    }
}

const ONE_TO_THREE: Bounds = Bounds {
    min: 1,
    max: Some(3),
    has: None,
};

#[test]
fn a_certificate_is_told(rt: HostRuntime) {
    let came = vouched(rt.alloc(), DELETING, ONE_TO_THREE, false, 0).expect(&rt, "memory");
    let came = came.expect(&rt, "bounds");
    same(&rt, came.status, 0, DELETING);
    same(&rt, came.sink.taken(), DELETED.as_bytes(), DELETING);
}

#[test]
fn a_certificate_that_the_output_refuses_ends_by_that(rt: HostRuntime) {
    let came = vouched(rt.alloc(), DELETING, ONE_TO_THREE, false, 2).expect(&rt, "memory");
    let came = came.expect(&rt, "bounds");
    same(&rt, came.status, 3, DELETING);
    same(
        &rt,
        DELETED.as_bytes().starts_with(came.sink.taken()),
        true,
        DELETING,
    );
}
