//! Runs of scripts by `edit`: their status, what they write, and what the file `F` holds after them.
use crate::asserting::same;
use crate::calling::{ABC, Case, ON_F, edited, files_of};
use std::alloc::Global;
use std::process::Abort;

struct Row {
    script: &'static [u8],
    case: Case,
    status: u8,
    output: &'static [u8],
    after: Option<&'static [u8]>,
}

// The bytes that are read and written are counted.
const COUNTED: Case = Case {
    silent: false,
    ..ON_F
};

// XCU ed, "Stdout", "Exit Status"; the status of each fault is our choice.
#[rattlefmt::skip]
static ENDED: [Row; 6] = [
    Row { script: b"2d\n,p\nQ\n", case: ON_F, status: 0, output: b"a\nc\n", after: ABC },
    Row { script: b"$a\nd\n.\nw\nq\n", case: COUNTED, status: 0, output: b"6\n8\n", after: Some(b"a\nb\nc\nd\n") },
    Row { script: b"g/x/p\nw\nq\n", case: Case { f: Some(b""), ..ON_F }, status: 0, output: b"", after: Some(b"") },
    Row { script: b"a\nx\n.\nw\nq\n", case: Case { f: None, ..COUNTED }, status: 0, output: b"2\n", after: Some(b"x\n") },
    Row { script: b"1r G\n,p\nQ\n", case: Case { f: Some(b"a\nb\n"), g: Some(b"x"), ..COUNTED }, status: 0, output: b"4\n1\na\nx\nb\n", after: Some(b"a\nb\n") },
    Row { script: b"", case: Case { f: None, start: None, ..ON_F }, status: 0, output: b"", after: None },
];

// XCU ed, "Consequences of Errors": what was written before the fault stays.
#[rattlefmt::skip]
static FAULTY: [Row; 8] = [
    Row { script: b",p\n", case: Case { f: Some(b""), ..ON_F }, status: 1, output: b"?\n", after: Some(b"") },
    Row { script: b"2d\n1w\nq\n", case: ON_F, status: 1, output: b"?\n", after: Some(b"a\n") },
    Row { script: b"/z/\n", case: ON_F, status: 1, output: b"?\n", after: ABC },
    Row { script: b"1n\nH\nx\n", case: Case { f: Some(b"a\nb\n"), prompt: Some(b"> "), ..ON_F }, status: 1, output: b"> 1\ta\n> > ?\ninvalid command\n", after: Some(b"a\nb\n") },
    Row { script: b"w\n", case: Case { start: None, ..ON_F }, status: 1, output: b"?\n", after: ABC },
    Row { script: b"p\n", case: Case { refused_call: 1, ..ON_F }, status: 3, output: b"?\n", after: ABC },
    Row { script: b"w\nq\n", case: Case { f: Some(b"a\n"), refused_call: 2, ..ON_F }, status: 3, output: b"?\n", after: Some(b"a\n") },
    Row { script: b"1p\nw\nq\n", case: Case { refused_write: 1, ..ON_F }, status: 3, output: b"", after: ABC },
];

fn check_each(rt: &impl Abort, alloc: Global, rows: &[Row]) {
    for row in rows {
        let mut files = files_of(alloc, &row.case).expect(rt, "memory");
        let came = edited(alloc, &mut files, &row.case, row.script).expect(rt, "memory");
        same(rt, came.status, row.status, row.script);
        same(rt, came.sink.taken(), row.output, row.script);
        same(rt, files.file(b"F"), row.after, row.script);
    }
}

#[test]
fn a_script_is_run_to_its_end(rt: HostRuntime) {
    check_each(&rt, rt.alloc(), &ENDED);
}

#[test]
fn a_run_ends_at_its_first_fault(rt: HostRuntime) {
    check_each(&rt, rt.alloc(), &FAULTY);
}
