//! Each file and each write of a run refused in turn, over each store.
use crate::asserting::same;
use crate::driving::{ABC, Case, UNREFUSED, run};
use ed_base::Fault;
use line_store::{ChunkStore, GapStore, LineStore, PlainStore};
use std::alloc::Global;
use std::process::Abort;

// Runs that tell counts of bytes: one appends a line and writes, one reads another file, one writes a file that isn't there yet.
const COUNTED: Case<'static> = Case {
    silent: false,
    ..UNREFUSED
};

const APPENDED: Case<'static> = Case {
    script: b"$a\nd\n.\nw\nq\n",
    file: ABC,
    ..COUNTED
};

const READ: Case<'static> = Case {
    script: b"1r G\n,p\nQ\n",
    file: Some(b"a\nb\n"),
    other: Some(b"x"),
    ..COUNTED
};

const MADE: Case<'static> = Case {
    script: b"a\nx\n.\nw\nq\n",
    ..COUNTED
};

struct FileRow {
    case: Case<'static>,
    refused_call: u64,
    output: &'static [u8],
}

#[rattlefmt::skip]
static FILES: [FileRow; 6] = [
    FileRow { case: APPENDED, refused_call: 1, output: b"?\n" },
    FileRow { case: APPENDED, refused_call: 2, output: b"6\n?\n" },
    FileRow { case: READ, refused_call: 1, output: b"?\n" },
    FileRow { case: READ, refused_call: 2, output: b"4\n?\n" },
    FileRow { case: MADE, refused_call: 1, output: b"?\n" },
    FileRow { case: MADE, refused_call: 2, output: b"?\n" },
];

fn check_files<S: LineStore>(rt: &impl Abort, alloc: Global) {
    for row in &FILES {
        let case = Case {
            refused_call: row.refused_call,
            ..row.case
        };
        let outcome = run::<S>(alloc, case).expect(rt, "memory");
        let at = (case.script, row.refused_call);
        same(rt, outcome.sink.taken(), row.output, at);
        same(rt, outcome.ends, Err(Fault::File), at);
    }
}

#[test]
fn each_refused_file_ends_the_run_with_its_report(rt: HostRuntime) {
    check_files::<PlainStore>(&rt, rt.alloc());
    check_files::<GapStore>(&rt, rt.alloc());
    check_files::<ChunkStore>(&rt, rt.alloc());
}

struct SinkRow {
    refused_write: u64,
    room: usize,
    piece: usize,
    output: &'static [u8],
    ends: Result<usize, Fault>,
}

#[rattlefmt::skip]
static SINKS: [SinkRow; 4] = [
    SinkRow { refused_write: 1, room: 256, piece: 64, output: b"", ends: Err(Fault::Output) },
    SinkRow { refused_write: 2, room: 256, piece: 64, output: b"6\n", ends: Err(Fault::Output) },
    SinkRow { refused_write: 0, room: 256, piece: 1, output: b"6\n8\n", ends: Ok(4) },
    SinkRow { refused_write: 0, room: 0, piece: 64, output: b"", ends: Err(Fault::Output) },
];

fn check_sinks<S: LineStore>(rt: &impl Abort, alloc: Global) {
    for row in &SINKS {
        let case = Case {
            refused_write: row.refused_write,
            room: row.room,
            piece: row.piece,
            ..APPENDED
        };
        let outcome = run::<S>(alloc, case).expect(rt, "memory");
        let at = (row.refused_write, row.room, row.piece);
        same(rt, outcome.sink.taken(), row.output, at);
        same(rt, outcome.ends, row.ends, at);
    }
}

#[test]
fn each_refused_write_ends_the_run(rt: HostRuntime) {
    check_sinks::<PlainStore>(&rt, rt.alloc());
    check_sinks::<GapStore>(&rt, rt.alloc());
    check_sinks::<ChunkStore>(&rt, rt.alloc());
}
