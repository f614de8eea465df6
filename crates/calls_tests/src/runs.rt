//! Runs by `run`, which a certificate has to allow: their status, what they write or tell, and what the file `F` holds after them.
use crate::asserting::same;
use crate::calling::{ABC, Came, Case, ON_F, OUTSIDE, files_of, ran};
use crate::certificates::{AS_IT_IS, Change, DELETING, changed};
use crate::vouching::{Bounds, vouched};
use ed_session::MemFiles;
use std::alloc::{AllocError, Global};
use std::process::Abort;

/// A run of the script `1d`, `w`, `q` with its certificate for a file F of 1 to 3 lines, as it is or changed.
struct Row {
    change: Change,
    case: Case,
    status: u8,
    output: &'static [u8],
    after: Option<&'static [u8]>,
}

const DONE: Row = Row {
    change: AS_IT_IS,
    case: ON_F,
    status: 0,
    output: b"",
    after: Some(b"b\nc\n"),
};

const STRANGE: Row = Row {
    status: 4,
    output: OUTSIDE,
    after: ABC,
    ..DONE
};

const REFUSED: Row = Row {
    status: 1,
    after: ABC,
    ..DONE
};

#[rattlefmt::skip]
static ROWS: [Row; 14] = [
    DONE,
    Row { case: Case { silent: false, ..ON_F }, output: b"6\n4\n", ..DONE },
    Row { case: Case { f: Some(b"a"), silent: false, ..ON_F }, output: b"1\n0\n", after: Some(b""), ..DONE },
    Row { case: Case { refused_call: 1, ..ON_F }, status: 3, output: b"?\n", after: ABC, ..DONE },
    Row { case: Case { refused_call: 2, ..ON_F }, status: 3, output: b"?\n", after: ABC, ..DONE },
    Row { change: Change { old: "final 0 2", new: "final 0 1" }, output: b"refused: command 4\n", ..REFUSED },
    Row { change: Change { old: "ed-certificate 1", new: "1d" }, output: b"certificate: version\n", ..REFUSED },
    Row { change: Change { old: "start 1 3", new: "start 3 1" }, output: b"certificate: line 3\n", ..REFUSED },
    Row { change: Change { old: "writes =F\n", new: "" }, output: b"certificate: size\n", ..REFUSED },
    Row { case: Case { start: Some(b"G"), g: Some(b"a\n"), ..ON_F }, ..STRANGE },
    Row { case: Case { start: None, ..ON_F }, ..STRANGE },
    Row { case: Case { f: Some(b"a\nb\nc\nd\n"), ..ON_F }, after: Some(b"a\nb\nc\nd\n"), ..STRANGE },
    Row { case: Case { f: Some(b""), ..ON_F }, after: Some(b""), ..STRANGE },
    Row { case: Case { f: None, ..ON_F }, after: None, ..STRANGE },
];

/// What comes of the row over these files.
fn came_of(alloc: Global, files: &mut MemFiles, row: &Row) -> Result<Came, AllocError> {
    let certificate = changed(alloc, row.change)?;
    ran(alloc, files, &row.case, DELETING, certificate.as_slice())
}

#[test]
fn a_script_is_run_only_where_its_certificate_allows_it(rt: HostRuntime) {
    for row in &ROWS {
        let mut files = files_of(rt.alloc(), &row.case).expect(&rt, "memory");
        let came = came_of(rt.alloc(), &mut files, row).expect(&rt, "memory");
        let at = (row.change.new, row.case.f);
        same(&rt, came.status, row.status, at);
        same(&rt, came.sink.taken(), row.output, at);
        same(&rt, files.file(b"F"), row.after, at);
    }
}

/// A silent run with the certificate that the script gets for a file of these bounds.
struct VouchedRow {
    script: &'static [u8],
    bounds: Bounds,
    f: Option<&'static [u8]>,
    status: u8,
    output: &'static [u8],
    after: Option<&'static [u8]>,
}

const PORT: VouchedRow = VouchedRow {
    script: b"/^port=/c\nport=8080\n.\nw\nq\n",
    bounds: Bounds {
        min: 1,
        max: None,
        has: Some(b"^port="),
    },
    f: Some(b"x\nport=80\n"),
    status: 0,
    output: b"",
    after: Some(b"x\nport=8080\n"),
};

const APPENDED: VouchedRow = VouchedRow {
    script: b"$a\nx\n.\nw\nq\n",
    bounds: Bounds {
        min: 0,
        max: None,
        has: None,
    },
    f: None,
    status: 0,
    output: b"",
    after: Some(b"x\n"),
};

#[rattlefmt::skip]
static VOUCHED: [VouchedRow; 6] = [
    PORT,
    VouchedRow { f: Some(b"x\n port=80\n"), status: 4, output: OUTSIDE, after: Some(b"x\n port=80\n"), ..PORT },
    VouchedRow { f: Some(b""), status: 4, output: OUTSIDE, after: Some(b""), ..PORT },
    VouchedRow { f: None, status: 4, output: OUTSIDE, after: None, ..PORT },
    APPENDED,
    VouchedRow { f: Some(b"a"), after: Some(b"a\nx\n"), ..APPENDED },
];

/// What comes of the row over these files; None where the script isn't vouched for.
fn vouched_and_run(
    alloc: Global,
    files: &mut MemFiles,
    case: &Case,
    row: &VouchedRow,
) -> Result<Option<Came>, AllocError> {
    match vouched(alloc, row.script, row.bounds, false, 0)? {
        Some(told) if told.status == 0 => {
            Ok(Some(ran(alloc, files, case, row.script, told.sink.taken())?))
        }
        _ => Ok(None),
    }
}

fn check_vouched(rt: &impl Abort, alloc: Global, row: &VouchedRow) {
    let case = Case { f: row.f, ..ON_F };
    let mut files = files_of(alloc, &case).expect(rt, "memory");
    let came = vouched_and_run(alloc, &mut files, &case, row).expect(rt, "memory");
    let came = came.expect(rt, "a certificate");
    same(rt, came.status, row.status, row.f);
    same(rt, came.sink.taken(), row.output, row.f);
    same(rt, files.file(b"F"), row.after, row.f);
}

#[test]
fn a_start_is_tested_for_what_was_stated(rt: HostRuntime) {
    for row in &VOUCHED {
        check_vouched(&rt, rt.alloc(), row);
    }
}
