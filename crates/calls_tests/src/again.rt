//! Calls one after another over the same files, the later ones where an earlier one wrote.
use crate::asserting::same;
use crate::calling::{Case, ON_F, OUTSIDE, edited, files_of, fitted, ran};
use crate::certificates::{DELETED, DELETING};
use ed_session::MemFiles;
use std::alloc::Global;
use std::process::Abort;

/// A call with the certificate for a file F of 1 to 3 lines, or without it.
#[derive(Clone, Copy, Debug)]
enum Call {
    Edit(&'static [u8]),
    Run,
    Fit,
}

struct Row {
    call: Call,
    status: u8,
    output: &'static [u8],
    after: Option<&'static [u8]>,
}

// Not silent: the counts tell what each call found.
const COUNTED: Case = Case {
    silent: false,
    ..ON_F
};

#[rattlefmt::skip]
static ROWS: [Row; 10] = [
    Row { call: Call::Edit(b"$a\nd\n.\nw\nq\n"), status: 0, output: b"6\n8\n", after: Some(b"a\nb\nc\nd\n") },
    Row { call: Call::Fit, status: 4, output: OUTSIDE, after: Some(b"a\nb\nc\nd\n") },
    Row { call: Call::Run, status: 4, output: OUTSIDE, after: Some(b"a\nb\nc\nd\n") },
    Row { call: Call::Edit(b"3,4d\nw\n1d\n"), status: 1, output: b"8\n4\n?\n", after: Some(b"a\nb\n") },
    Row { call: Call::Fit, status: 0, output: b"", after: Some(b"a\nb\n") },
    Row { call: Call::Run, status: 0, output: b"4\n2\n", after: Some(b"b\n") },
    Row { call: Call::Run, status: 0, output: b"2\n0\n", after: Some(b"") },
    Row { call: Call::Run, status: 4, output: OUTSIDE, after: Some(b"") },
    Row { call: Call::Edit(b"a\nx\n.\nw\nq\n"), status: 0, output: b"0\n2\n", after: Some(b"x\n") },
    Row { call: Call::Run, status: 0, output: b"2\n0\n", after: Some(b"") },
];

fn check(rt: &impl Abort, alloc: Global, files: &mut MemFiles, row: &Row) {
    let certificate = DELETED.as_bytes();
    let came = match row.call {
        Call::Edit(script) => edited(alloc, files, &COUNTED, script),
        Call::Run => ran(alloc, files, &COUNTED, DELETING, certificate),
        Call::Fit => fitted(alloc, files, &COUNTED, certificate),
    };
    let came = came.expect(rt, "memory");
    same(rt, came.status, row.status, row.call);
    same(rt, came.sink.taken(), row.output, row.call);
    same(rt, files.file(b"F"), row.after, row.call);
}

#[test]
fn a_later_call_finds_what_an_earlier_one_wrote(rt: HostRuntime) {
    let mut files = files_of(rt.alloc(), &COUNTED).expect(&rt, "memory");
    for row in &ROWS {
        check(&rt, rt.alloc(), &mut files, row);
    }
}
