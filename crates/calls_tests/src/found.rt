//! Scripts whose start is found: what is told of them, and what a run comes to that they are vouched for first.
ghost use Rattle.std.specs.Prelude.{IfOk, IfSome};
ghost use Rattle.ed_calls.specs.Starts.{AreAllowed};

use crate::asserting::same;
use crate::calling::{ABC, Came, Case, ON_F, bytes_of, files_of, options_of, output};
use crate::vouching::set_of;
use ed_calls::{Aside, Starts, edit_vouched, vouch_text};
use ed_session::MemFiles;
use hints::Given;
use std::alloc::{AllocError, Global};
use std::process::Abort;

/// A certificate tells of at most 10^12 lines.
const MOST_LINES: u64 = 1_000_000_000_000;

/// What is given of a start.
#[derive(Clone, Copy)]
pub(crate) struct Part {
    pub path: Option<&'static [u8]>,
    pub min: Option<u64>,
    pub max: Option<u64>,
    pub has: Option<&'static [u8]>,
}

pub(crate) const F_ALONE: Part = Part {
    path: Some(b"F"),
    min: None,
    max: None,
    has: None,
};

/// The start that is found of this part, which has at most so many lines; None where its bounds are none.
pub(crate) fn sought(alloc: Global, part: Part) -> Result<Option<Starts>, AllocError>
    ensures allowed { IfOk result (λ found. IfSome found AreAllowed) }
{
    let (min, max) = (part.min, part.max);
    if min.unwrap_or(0) > max.unwrap_or(MOST_LINES) || max.unwrap_or(0) > MOST_LINES {
        return Ok(None);
    }
    let path = bytes_of(alloc, part.path)?;
    let has = set_of(alloc, part.has)?;
    Ok(Some(Starts::Widest(Given {
        path,
        min,
        max,
        has,
        landmarks: None,
    })))
}

/// What is told of a script over the start that is found.
struct Told {
    script: &'static [u8],
    part: Part,
    status: u8,
    // The first lines of what is told.
    begins: &'static [u8],
}

const DELETED: Told = Told {
    script: b"1d\nw\nq\n",
    part: F_ALONE,
    status: 0,
    begins: b"ed-certificate 1\npath =F\nstart 1 any\nnote\n",
};

#[rattlefmt::skip]
static TOLD: [Told; 11] = [
    DELETED,
    Told { script: b"7,9m0\nw\nq\n", begins: b"ed-certificate 1\npath =F\nstart 9 any\n", ..DELETED },
    Told { script: b"$a\nx\n.\nw\nq\n", begins: b"ed-certificate 1\npath =F\nstart 0 any\n", ..DELETED },
    Told { script: b"/^b/d\nw\nq\n", begins: b"ed-certificate 2\npath =F\nstart 0 any\nhas =^b\n", ..DELETED },
    Told { script: b"g/^b/d\nw\nq\n", begins: b"ed-certificate 1\npath =F\nstart 0 any\n", ..DELETED },
    Told { part: Part { min: Some(4), ..F_ALONE }, begins: b"ed-certificate 1\npath =F\nstart 4 any\n", ..DELETED },
    Told { part: Part { max: Some(6), ..F_ALONE }, begins: b"ed-certificate 1\npath =F\nstart 1 6\n", ..DELETED },
    Told { part: Part { has: Some(b"x"), ..F_ALONE }, begins: b"ed-certificate 2\npath =F\nstart 1 any\nhas =x\n", ..DELETED },
    Told { script: b"s/x/y/\nw\nq\n", status: 1, begins: b"cannot: command 1: no match\n", ..DELETED },
    Told { script: b"9d\nw\nq\n", part: Part { max: Some(6), ..F_ALONE }, status: 1, begins: b"cannot: command 1: invalid address\n", ..DELETED },
    Told { script: b"1p\nw \xff\nq\n", status: 1, begins: b"cannot: command 2: file refused\n", ..DELETED },
];

/// What is told of the row's script; None where its bounds are none.
fn told_of(alloc: Global, row: &Told) -> Result<Option<Came>, AllocError> {
    let mut sink = output(alloc, 0)?;
    let mut aside = Aside::new(alloc, row.script, b"");
    let Some(starts) = sought(alloc, row.part)? else {
        return Ok(None);
    };
    let status = vouch_text(alloc, row.script, starts, false, &mut sink, &mut aside);
    Ok(Some(Came { status, sink }))
}

fn check_told(rt: &impl Abort, alloc: Global, row: &Told) {
    let came = told_of(alloc, row)
        .expect(rt, "memory")
        .expect(rt, "bounds");
    let taken = came.sink.taken();
    let front = &taken[..taken.len().min(row.begins.len())];
    same(rt, came.status, row.status, row.script);
    same(rt, front, row.begins, row.script);
}

#[test]
fn the_start_that_is_found_is_certified(rt: HostRuntime) {
    for row in &TOLD {
        check_told(&rt, rt.alloc(), row);
    }
}

/// A run of a script only if it is vouched for, over the file F.
struct Row {
    script: &'static [u8],
    part: Part,
    case: Case,
    status: u8,
    output: &'static [u8],
    after: Option<&'static [u8]>,
}

const DONE: Row = Row {
    script: b"1d\nw\nq\n",
    part: F_ALONE,
    case: ON_F,
    status: 0,
    output: b"",
    after: Some(b"b\nc\n"),
};

const STRANGE: Row = Row {
    status: 5,
    after: ABC,
    ..DONE
};

const REFUSED: Row = Row {
    status: 1,
    after: ABC,
    ..DONE
};

const NO_FILE: Part = Part {
    path: None,
    max: Some(0),
    ..F_ALONE
};

#[rattlefmt::skip]
static ROWS: [Row; 16] = [
    DONE,
    Row { script: b"/^b/d\nw\nq\n", after: Some(b"a\nc\n"), ..DONE },
    Row { case: Case { silent: false, ..ON_F }, output: b"6\n4\n", ..DONE },
    Row { script: b"a\nx\n.\nw\nq\n", case: Case { f: None, ..ON_F }, after: Some(b"x\n"), ..DONE },
    Row { script: b"a\nx\n.\nw F\nq\n", part: NO_FILE, case: Case { f: None, start: None, ..ON_F }, after: Some(b"x\n"), ..DONE },
    Row { script: b"5d\nw\nq\n", ..STRANGE },
    Row { script: b"/^x/d\nw\nq\n", ..STRANGE },
    Row { case: Case { f: None, ..ON_F }, after: None, ..STRANGE },
    Row { case: Case { start: None, ..ON_F }, ..STRANGE },
    Row { script: b"1d\nw\ns/x/y/\nw\nq\n", output: b"cannot: command 3: no match\n", ..REFUSED },
    Row { script: b"1d\nw\nw \xff\nq\n", output: b"cannot: command 3: file refused\n", ..REFUSED },
    Row { script: b"f \xff\n1d\nw F\nq\nw \xff\n", output: b"\xff\n", after: Some(b"b\nc\n"), ..DONE },
    Row { script: b"1d\nw\nw !x\n", output: b"cannot: command 3: invalid command\n", ..REFUSED },
    Row { script: b"1d\nw\n2d\n", output: b"cannot: command 4: buffer modified\n", ..REFUSED },
    Row { case: Case { refused_call: 1, ..ON_F }, status: 3, output: b"?\n", after: ABC, ..DONE },
    Row { case: Case { refused_call: 2, ..ON_F }, status: 3, output: b"?\n", after: ABC, ..DONE },
];

/// What comes of the row over these files; None where its bounds are none.
fn came_of(alloc: Global, files: &mut MemFiles, row: &Row) -> Result<Option<Came>, AllocError> {
    let options = options_of(alloc, &row.case)?;
    let mut sink = output(alloc, row.case.refused_write)?;
    let mut aside = Aside::new(alloc, row.script, b"");
    let Some(starts) = sought(alloc, row.part)? else {
        return Ok(None);
    };
    let status = edit_vouched(
        alloc, row.script, starts, options, files, &mut sink, &mut aside,
    );
    Ok(Some(Came { status, sink }))
}

fn check(rt: &impl Abort, alloc: Global, row: &Row) {
    let mut files = files_of(alloc, &row.case).expect(rt, "memory");
    let came = came_of(alloc, &mut files, row).expect(rt, "memory");
    let came = came.expect(rt, "bounds");
    same(rt, came.status, row.status, row.script);
    same(rt, came.sink.taken(), row.output, row.script);
    same(rt, files.file(b"F"), row.after, row.script);
}

#[test]
fn a_script_is_run_only_where_it_is_vouched_for(rt: HostRuntime) {
    for row in &ROWS {
        check(&rt, rt.alloc(), row);
    }
}
