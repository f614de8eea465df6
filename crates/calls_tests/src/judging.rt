//! The statuses of scripts that `judge_text` judges, without their certificates.
use crate::asserting::same;
use crate::found::{F_ALONE, Part, sought};
use ed_calls::{Aside, Detail, judge_text};
use std::alloc::{AllocError, Global};
use std::process::Abort;

struct Row {
    script: &'static [u8],
    part: Part,
    status: u8,
}

const VOUCHED: Row = Row {
    script: b"1d\nw\nq\n",
    part: F_ALONE,
    status: 0,
};

const REFUSED: Row = Row {
    status: 1,
    ..VOUCHED
};

#[rattlefmt::skip]
static ROWS: [Row; 10] = [
    VOUCHED,
    Row { script: b"/^b/d\nw\nq\n", ..VOUCHED },
    Row { script: b"", ..VOUCHED },
    Row { script: b"$a\nx\n.\n/x/p\nw\nq\n", part: Part { path: None, max: Some(0), ..F_ALONE }, ..REFUSED },
    Row { part: Part { min: Some(0), ..F_ALONE }, ..REFUSED },
    Row { script: b"9d\nw\nq\n", part: Part { max: Some(6), ..F_ALONE }, ..REFUSED },
    Row { script: b"s/x/y/\nw\nq\n", ..REFUSED },
    Row { script: b"1p\nw \xff\nq\n", ..REFUSED },
    Row { script: b"1p\nx\n", ..REFUSED },
    Row { script: b"1d\n", ..REFUSED },
];

/// The status of the row's script; None where its bounds are none. A copy of the starts is judged.
fn judged(alloc: Global, row: &Row, detail: Detail) -> Result<Option<u8>, AllocError> {
    let Some(starts) = sought(alloc, row.part)? else {
        return Ok(None);
    };
    let mut aside = Aside::new(alloc, row.script, b"");
    let copy = starts.try_copy()?;
    Ok(Some(judge_text(alloc, row.script, copy, detail, &mut aside)))
}

fn check(rt: &impl Abort, alloc: Global, row: &Row, detail: Detail) {
    let status = judged(alloc, row, detail)
        .expect(rt, "memory")
        .expect(rt, "bounds");
    same(rt, status, row.status, row.script);
}

#[test]
fn scripts_are_judged_by_their_status(rt: HostRuntime) {
    for row in &ROWS {
        check(&rt, rt.alloc(), row, Detail::Nothing);
        check(&rt, rt.alloc(), row, Detail::First);
        check(&rt, rt.alloc(), row, Detail::Each);
    }
}
