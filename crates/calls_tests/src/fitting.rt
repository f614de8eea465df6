//! Tests of starts by `fit`: their status, and what is told.
use crate::asserting::same;
use crate::calling::{Came, Case, ON_F, files_of, fitted};
use crate::certificates::{AS_IT_IS, Change, changed};
use ed_session::MemFiles;
use std::alloc::{AllocError, Global};

/// A test by the certificate for a file F of 1 to 3 lines, as it is or changed.
struct Row {
    change: Change,
    case: Case,
    status: u8,
    output: &'static [u8],
}

const INSIDE: Row = Row {
    change: AS_IT_IS,
    case: ON_F,
    status: 0,
    output: b"",
};

const OUTSIDE: Row = Row {
    status: 4,
    output: b"start outside the certificate\n",
    ..INSIDE
};

#[rattlefmt::skip]
static ROWS: [Row; 12] = [
    INSIDE,
    Row { case: Case { f: Some(b"a"), ..ON_F }, ..INSIDE },
    Row { case: Case { refused_call: 1, ..ON_F }, status: 3, ..INSIDE },
    Row { case: Case { f: Some(b"a\nb\nc\nd"), ..ON_F }, ..OUTSIDE },
    Row { case: Case { f: Some(b""), ..ON_F }, ..OUTSIDE },
    Row { case: Case { f: None, ..ON_F }, ..OUTSIDE },
    Row { case: Case { start: Some(b"G"), g: Some(b"a\n"), ..ON_F }, ..OUTSIDE },
    Row { case: Case { start: None, ..ON_F }, ..OUTSIDE },
    Row { change: Change { old: "ed-certificate 1", new: "1d" }, status: 1, output: b"certificate: version\n", ..INSIDE },
    Row { change: Change { old: "start 1 3", new: "start 3 1" }, status: 1, output: b"certificate: line 3\n", ..INSIDE },
    Row { change: Change { old: "writes =F\n", new: "" }, status: 1, output: b"certificate: size\n", ..INSIDE },
    Row { case: Case { f: None, refused_write: 1, ..ON_F }, status: 3, ..INSIDE },
];

fn came_of(alloc: Global, files: &mut MemFiles, row: &Row) -> Result<Came, AllocError> {
    let certificate = changed(alloc, row.change)?;
    fitted(alloc, files, &row.case, certificate.as_slice())
}

#[test]
fn a_start_is_tested_as_a_run_tests_it(rt: HostRuntime) {
    for row in &ROWS {
        let mut files = files_of(rt.alloc(), &row.case).expect(&rt, "memory");
        let came = came_of(rt.alloc(), &mut files, row).expect(&rt, "memory");
        let at = (row.change.new, row.case.f);
        same(&rt, came.status, row.status, at);
        same(&rt, came.sink.taken(), row.output, at);
        same(&rt, files.file(b"F"), row.case.f, at);
    }
}
