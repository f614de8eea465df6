//! What a run writes where files, output or memory are refused, and how it ends then.
use crate::asserting::same;
use crate::driving::{ABC, ARROW, Case, UNREFUSED, files, lines, run_plain, session};
use ed_base::Fault;
use ed_session::{Out, drive};
use line_store::PlainStore;
use std::alloc::Global;
use std::process::Abort;

// A run that writes two lines.
const TWO_LINES: Case<'static> = Case {
    script: b"2d\n,p\nQ\n",
    file: ABC,
    ..UNREFUSED
};

struct FileRow {
    refused_call: u64,
    prompt: Option<&'static [u8]>,
    output: &'static [u8],
    ends: Result<usize, Fault>,
}

#[rattlefmt::skip]
static REFUSED_FILES: [FileRow; 3] = [
    FileRow { refused_call: 1, prompt: None, output: b"?\n", ends: Err(Fault::File) },
    FileRow { refused_call: 1, prompt: ARROW, output: b"?\n", ends: Err(Fault::File) },
    FileRow { refused_call: 2, prompt: None, output: b"a\nc\n", ends: Ok(2) },
];

fn check_file(rt: &impl Abort, alloc: Global, row: &FileRow) {
    let case = Case {
        refused_call: row.refused_call,
        prompt: row.prompt,
        ..TWO_LINES
    };
    let outcome = run_plain(alloc, case).expect(rt, "memory");
    same(rt, outcome.sink.taken(), row.output, row.refused_call);
    same(rt, outcome.ends, row.ends, row.refused_call);
}

#[test]
fn a_refused_start_file_is_reported_and_ends_the_run(rt: HostRuntime) {
    for row in &REFUSED_FILES {
        check_file(&rt, rt.alloc(), row);
    }
}

// A run that prompts, numbers a line, and has its help written.
const HELPED: Case<'static> = Case {
    script: b"1n\nH\nx\n",
    file: ABC,
    prompt: ARROW,
    ..UNREFUSED
};

/// The case ends by the refusal of its output, of which so many bytes were taken.
fn check_output(rt: &impl Abort, alloc: Global, case: Case<'_>, whole: &[u8], taken: usize) {
    let outcome = run_plain(alloc, case).expect(rt, "memory");
    let at = (case.script, taken);
    same(rt, outcome.ends, Err(Fault::Output), at);
    same(rt, outcome.sink.taken().len(), taken, at);
    assert!(rt; whole.starts_with(outcome.sink.taken()), "{at:?}");
}

/// Each byte of the output is refused in turn, once by its write and once for want of room.
fn check_outputs(rt: &impl Abort, alloc: Global, case: Case<'_>) {
    let outcome = run_plain(alloc, case).expect(rt, "memory");
    let whole = outcome.sink.taken();
    for (room, refused_write) in (0..whole.len()).zip(1..) {
        let refused = Case {
            piece: 1,
            refused_write,
            ..case
        };
        check_output(rt, alloc, refused, whole, room);
        check_output(rt, alloc, Case { room, ..case }, whole, room);
    }
}

#[test]
fn each_refused_write_and_each_full_room_ends_the_run(rt: HostRuntime) {
    check_outputs(&rt, rt.alloc(), TWO_LINES);
    check_outputs(&rt, rt.alloc(), HELPED);
}

#[test]
fn a_writer_takes_the_output_till_it_is_full(rt: HostRuntime) {
    let mut files = files(rt.alloc(), TWO_LINES).expect(&rt, "memory");
    let mut session = session::<PlainStore>(rt.alloc(), TWO_LINES).expect(&rt, "memory");
    let mut room = [0u8; 3];
    let mut sink = Out::new(room.as_mut_slice());
    let end = drive(&mut session, &mut files, &mut sink);
    drop(session);
    same(&rt, lines(end), Err(Fault::Output), "the end");
    drop(sink);
    same(&rt, room.as_slice(), b"a\nc".as_slice(), "the room");
}
