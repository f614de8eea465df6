//! Runs of the commands on files: what they read and write, what the files hold after them, and how they end.
use crate::asserting::same;
use crate::driving::{ABC, Case, UNREFUSED, run};
use ed_base::Fault;
use line_store::{ChunkStore, GapStore, LineStore, PlainStore};
use std::alloc::Global;
use std::process::Abort;

/// A run: the bytes of the files `F` and `G`, where they are there, the file that is edited, whether it is silent, which of its calls
/// for a file is refused (0: none), its output, what one file holds after it, and its end.
#[derive(Clone, Copy)]
struct Row {
    script: &'static [u8],
    f: Option<&'static [u8]>,
    g: Option<&'static [u8]>,
    edited: Option<&'static [u8]>,
    silent: bool,
    refused: u64,
    output: &'static [u8],
    after: (&'static [u8], Option<&'static [u8]>),
    ends: Result<usize, Fault>,
}

const F: &[u8] = b"F";

const G: &[u8] = b"G";

const H: &[u8] = b"H";

const G_AND_A_BLANK: &[u8] = b"G ";

const AB: Option<&[u8]> = Some(b"a\nb\n");

const A: Option<&[u8]> = Some(b"a\n");

const X: Option<&[u8]> = Some(b"x\n");

// A silent run on `F`, which has three lines, of which nothing is refused.
const ON_F: Row = Row {
    script: b"",
    f: ABC,
    g: None,
    edited: Some(F),
    silent: true,
    refused: 0,
    output: b"",
    after: (F, ABC),
    ends: Ok(3),
};

// The same, where the bytes that are read and written are counted.
const COUNTED: Row = Row {
    silent: false,
    ..ON_F
};

// XCU ed, "Read Command", "Write Command".
#[rattlefmt::skip]
static READ_AND_WRITTEN: [Row; 16] = [
    Row { script: b"3c\n..\n.\ns/.//\n1d\nw\nq\n", after: (F, Some(b"b\n.\n")), ends: Ok(2), ..ON_F },
    Row { script: b"2d\n1w\nq\n", output: b"?\n", after: (F, A), ends: Err(Fault::Unsaved), ..ON_F },
    Row { script: b"0r G\n.=\n,p\nQ\n", f: AB, g: Some(b"x\ny\n"), output: b"2\nx\ny\na\nb\n", after: (F, AB), ends: Ok(4), ..ON_F },
    Row { script: b"1\n$r G\n.=\nQ\n", f: AB, g: X, output: b"a\n3\n", after: (G, X), ends: Ok(3), ..ON_F },
    Row { script: b"1r G\n.=\nq\n", g: Some(b""), output: b"6\n0\n1\n", ..COUNTED },
    Row { script: b"a\nx\n.\nw\nq\n", f: None, output: b"2\n", after: (F, X), ends: Ok(1), ..COUNTED },
    Row { script: b"w\nq\n", f: None, output: b"0\n", after: (F, Some(b"")), ends: Ok(0), ..COUNTED },
    Row { script: b",w\n", f: None, output: b"?\n", after: (F, None), ends: Err(Fault::Address), ..ON_F },
    Row { script: b"1d\nw H\nq\n", f: AB, after: (H, Some(b"b\n")), ends: Ok(1), ..ON_F },
    Row { script: b"1d\nw H\nf\nq\n", f: AB, output: b"F\n", after: (F, AB), ends: Ok(1), ..ON_F },
    Row { script: b"2,3w G\n.=\nq\n", g: X, output: b"6\n4\n3\n", after: (G, Some(b"b\nc\n")), ..COUNTED },
    Row { script: b"/b/w G\n//p\nQ\n", output: b"b\n", after: (G, Some(b"b\n")), ..ON_F },
    Row { script: b"w G\nq\n", f: Some(b"a\nb\nc"), after: (G, ABC), ..ON_F },
    Row { script: b"w  G \nq\n", after: (G_AND_A_BLANK, ABC), ..ON_F },
    Row { script: b"w !x\n", output: b"?\n", ends: Err(Fault::Syntax), ..ON_F },
    Row { script: b"wp\n", output: b"?\n", ends: Err(Fault::Syntax), ..ON_F },
];

// XCU ed, "Edit Command", "Filename Command", "Quit Command".
#[rattlefmt::skip]
static EDITED_AND_LEFT: [Row; 15] = [
    Row { script: b"1d\ne G\n", g: X, output: b"?\n", ends: Err(Fault::Unsaved), ..ON_F },
    Row { script: b"1d\nE G\n,p\nQ\n", g: X, output: b"x\n", ends: Ok(1), ..ON_F },
    Row { script: b"1d\nw\ne\n,p\nq\n", output: b"b\nc\n", after: (F, Some(b"b\nc\n")), ends: Ok(2), ..ON_F },
    Row { script: b"2ka\ne\n'ap\n", output: b"?\n", ends: Err(Fault::Mark), ..ON_F },
    Row { script: b"/b/p\nE G\n//p\nQ\n", g: Some(b"x\nb\n"), output: b"b\nb\n", ends: Ok(2), ..ON_F },
    Row { script: b"e G\n", output: b"?\n", ends: Err(Fault::File), ..ON_F },
    Row { script: b"1e\n", output: b"?\n", ends: Err(Fault::Syntax), ..ON_F },
    Row { script: b"f\n", edited: None, output: b"?\n", ends: Err(Fault::Name), ..ON_F },
    Row { script: b"f G\nf\nQ\n", edited: None, output: b"G\nG\n", ends: Ok(0), ..ON_F },
    Row { script: b"f G\nr\n,p\nq\n", edited: None, g: X, output: b"G\nx\n?\n", ends: Err(Fault::Unsaved), ..ON_F },
    Row { script: b"r G\nf\nQ\n", edited: None, g: X, output: b"G\n", ends: Ok(1), ..ON_F },
    Row { script: b"a\nx\n.\nw G\nf\nq\n", edited: None, output: b"G\n", after: (G, X), ends: Ok(1), ..ON_F },
    Row { script: b"w\n", edited: None, output: b"?\n", ends: Err(Fault::Name), ..ON_F },
    Row { script: b"1d\nq\n", output: b"?\n", ends: Err(Fault::Unsaved), ..ON_F },
    Row { script: b"q\n1d\n", ..ON_F },
];

// A list of `g` and `v` may read, write and name files.
#[rattlefmt::skip]
static LISTED: [Row; 10] = [
    Row { script: b"g/x/p\nw\nq\n", f: Some(b""), after: (F, Some(b"")), ends: Ok(0), ..ON_F },
    Row { script: b"g/b/.r G\n,p\nQ\n", g: X, output: b"a\nb\nx\nc\n", after: (G, X), ends: Ok(4), ..ON_F },
    Row { script: b"g/./r G\nQ\n", f: AB, g: X, output: b"4\n2\n2\n", after: (F, AB), ends: Ok(4), ..COUNTED },
    Row { script: b"g/[bc]/.w G\nq\n", output: b"6\n2\n2\n", after: (G, Some(b"c\n")), ..COUNTED },
    Row { script: b"g/b/w G\nq\n", after: (G, ABC), ..ON_F },
    Row { script: b"g/a/r G\\\n.w H\nQ\n", f: AB, g: X, after: (H, X), ends: Ok(3), ..ON_F },
    Row { script: b"g/a/f H\nf\nQ\n", output: b"H\nH\n", ..ON_F },
    Row { script: b"g/a/r H\n", output: b"?\n", ends: Err(Fault::File), ..ON_F },
    Row { script: b"g/./.w G\nq\n", refused: 3, output: b"?\n", after: (G, A), ends: Err(Fault::File), ..ON_F },
    Row { script: b"g/./n\\\n.r G\\\nH\n", f: AB, g: X, refused: 3, output: b"1\ta\n3\tb\n?\nfile refused\n", after: (F, AB), ends: Err(Fault::File), ..ON_F },
];

// A file is refused in the first call, which reads it, or in the second.
#[rattlefmt::skip]
static REFUSED: [Row; 6] = [
    Row { script: b"p\n", refused: 1, output: b"?\n", ends: Err(Fault::File), ..ON_F },
    Row { script: b"w\nq\n", refused: 2, output: b"?\n", ends: Err(Fault::File), ..ON_F },
    Row { script: b"1d\nH\nw\nq\n", refused: 2, output: b"6\n?\nfile refused\n", ends: Err(Fault::File), ..COUNTED },
    Row { script: b"r G\n", g: X, refused: 2, output: b"?\n", ends: Err(Fault::File), ..ON_F },
    Row { script: b"r G\n", output: b"?\n", ends: Err(Fault::File), ..ON_F },
    Row { script: b"E G\n", g: X, refused: 2, output: b"?\n", ends: Err(Fault::File), ..ON_F },
];

// Rows that are also run with each allocation refused in turn.
#[rattlefmt::skip]
static SHORT_OF_MEMORY: [Row; 4] = [
    Row { script: b"$a\nd\n.\nw\nq\n", output: b"6\n8\n", after: (F, Some(b"a\nb\nc\nd\n")), ends: Ok(4), ..COUNTED },
    Row { script: b"1r G\n,p\nQ\n", f: AB, g: Some(b"x"), output: b"4\n1\na\nx\nb\n", after: (F, AB), ends: Ok(3), ..COUNTED },
    Row { script: b"1d\nE G\nf\nq\n", g: X, output: b"6\n2\nG\n", ends: Ok(1), ..COUNTED },
    Row { script: b"g/./.r G\\\nn\nQ\n", f: AB, g: X, output: b"2\tx\n4\tx\n", after: (F, AB), ends: Ok(4), ..ON_F },
];

impl Row {
    fn case(&self) -> Case<'static> {
        Case {
            script: self.script,
            file: self.f,
            other: self.g,
            edited: self.edited,
            silent: self.silent,
            refused_call: self.refused,
            ..UNREFUSED
        }
    }
}

fn check_over<S: LineStore>(rt: &impl Abort, alloc: Global, row: &Row) {
    let outcome = run::<S>(alloc, row.case()).expect(rt, "memory");
    same(rt, outcome.sink.taken(), row.output, row.script);
    let (path, bytes) = row.after;
    same(rt, outcome.files.file(path), bytes, row.script);
    same(rt, outcome.ends, row.ends, row.script);
}

fn check_each(rt: &impl Abort, alloc: Global, rows: &[Row]) {
    for row in rows {
        check_over::<PlainStore>(rt, alloc, row);
        check_over::<GapStore>(rt, alloc, row);
        check_over::<ChunkStore>(rt, alloc, row);
    }
}

#[test]
fn files_are_read_and_written_as_the_standard_says(rt: HostRuntime) {
    check_each(&rt, rt.alloc(), &READ_AND_WRITTEN);
    check_each(&rt, rt.alloc(), &SHORT_OF_MEMORY);
}

#[test]
fn files_are_edited_and_left_as_the_standard_says(rt: HostRuntime) {
    check_each(&rt, rt.alloc(), &EDITED_AND_LEFT);
}

#[test]
fn lists_read_write_and_name_files(rt: HostRuntime) {
    check_each(&rt, rt.alloc(), &LISTED);
}

#[test]
fn a_refused_file_ends_the_run_and_stays(rt: HostRuntime) {
    check_each(&rt, rt.alloc(), &REFUSED);
}

/// The run ends as it should or by being out of memory, and a file has its old bytes or those that were to be written.
fn ends_as_it_may(alloc: Global, row: &Row) -> bool {
    let (path, bytes) = row.after;
    match &run::<GapStore>(alloc, row.case()) {
        Ok(outcome) => {
            let now = outcome.files.file(path);
            (outcome.ends == Err(Fault::Memory) || outcome.ends == row.ends)
                && (now == bytes || now == row.f)
        }
        Err(_) => true,
    }
}

/// To be run with each allocation refused in turn, too (`rt try --test --fail-alloc N`).
#[test]
fn a_run_on_files_that_is_out_of_memory_ends_by_no_other_fault(rt: HostRuntime) {
    for row in &SHORT_OF_MEMORY {
        assert!(rt; ends_as_it_may(rt.alloc(), row), "{:?}", row.script);
    }
}
