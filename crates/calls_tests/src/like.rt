//! Scripts whose start is proposed from a file: what is told of them, and what a run comes to that they are vouched for first.
ghost use Rattle.std.specs.Prelude.{IfOk, IfSome};
ghost use Rattle.ed_calls.specs.Starts.{AreAllowed};

use crate::asserting::same;
use crate::calling::{ABC, Came, ON_F, files_of, options_of, output};
use ed_base::{Bytes, count_lines};
use ed_calls::{Aside, Starts, edit_vouched, vouch_text};
use ed_session::MemFiles;
use hints::Like;
use std::alloc::{AllocError, Global};
use std::process::Abort;

/// A certificate tells of at most 10^12 lines.
const MOST_LINES: usize = 1_000_000_000_000;

/// The start at `F` that is proposed from a file; None where that has too many lines.
fn proposed(alloc: Global, patterns: bool, file: &[u8]) -> Result<Option<Starts>, AllocError>
    ensures allowed { IfOk result (λ found. IfSome found AreAllowed) }
{
    if count_lines(file) > MOST_LINES {
        return Ok(None);
    }
    let path = Some(Bytes::from_slice(alloc, b"F")?);
    let file = Bytes::from_slice(alloc, file)?;
    Ok(Some(Starts::Like(Like {
        path,
        patterns,
        file,
    })))
}

/// What is told of a script over the start that is proposed from a file.
struct Told {
    script: &'static [u8],
    patterns: bool,
    file: &'static [u8],
    status: u8,
    // The first lines of what is told.
    begins: &'static [u8],
}

const DELETED: Told = Told {
    script: b"1d\nw\nq\n",
    patterns: false,
    file: b"a\nb\nc\n",
    status: 0,
    begins: b"ed-certificate 1\npath =F\nstart 3 3\nnote\n",
};

/// The lines from one that begins with `a` to one below it that begins with `c`.
const BLOCK: &[u8] = b"/^a/;/^c/d\nw\nq\n";

/// A line by its number, which has to match.
const SECOND: &[u8] = b"2s/b/x/\nw\nq\n";

#[rattlefmt::skip]
static TOLD: [Told; 14] = [
    DELETED,
    Told { script: b"2d\nw\nq\n", begins: b"ed-certificate 1\npath =F\nstart 3 3\nnote\n", ..DELETED },
    Told { script: b"2d\nw\nq\n", patterns: true, begins: b"ed-certificate 2\npath =F\nstart 3 3\nhas\n", ..DELETED },
    Told { script: b"/^b/d\nw\nq\n", begins: b"ed-certificate 2\npath =F\nstart 0 any\nhas =^b\n", ..DELETED },
    Told { script: b"/^b/d\n2d\nw\nq\n", begins: b"ed-certificate 2\npath =F\nstart 3 any\nhas =^b\n", ..DELETED },
    Told { script: b"/^x/d\nw\nq\n", status: 1, begins: b"cannot: command 1: no match\n", ..DELETED },
    Told { script: b"5d\nw\nq\n", status: 1, begins: b"cannot: command 1: invalid address\n", ..DELETED },
    Told { file: b"", status: 1, begins: b"cannot: command 1: invalid address\n", ..DELETED },
    // Landmarks, where nothing else is enough and the file has them.
    Told { script: BLOCK, begins: b"ed-certificate 3\npath =F\nstart 0 any\nhas\nat =/^a/;%20/^c/\nnote\n", ..DELETED },
    Told { script: BLOCK, file: b"c\na\nb\n", status: 1, begins: b"cannot: command 1: invalid address\n", ..DELETED },
    Told { script: BLOCK, file: b"b\nc\n", status: 1, begins: b"cannot: command 1: no match\n", ..DELETED },
    // Lines by their numbers are still those of a file of just so many.
    Told { script: SECOND, begins: b"ed-certificate 3\npath =F\nstart 3 3\nhas\nat =2%20&%20/b/\nnote\n", ..DELETED },
    Told { script: SECOND, file: b"b\na\n", status: 1, begins: b"cannot: command 1: no match\n", ..DELETED },
    Told { script: b"2c\n..\n.\ns/.//\nw\nq\n", begins: b"ed-certificate 3\npath =F\nstart 3 3\nhas\nat\nnote\n", ..DELETED },
];

/// What is told of the row's script; None where its file has too many lines.
fn told_of(alloc: Global, row: &Told) -> Result<Option<Came>, AllocError> {
    let mut sink = output(alloc, 0)?;
    let mut aside = Aside::new(alloc, row.script, b"");
    let Some(starts) = proposed(alloc, row.patterns, row.file)? else {
        return Ok(None);
    };
    let status = vouch_text(alloc, row.script, starts, false, &mut sink, &mut aside);
    Ok(Some(Came { status, sink }))
}

fn check_told(rt: &impl Abort, alloc: Global, row: &Told) {
    let came = told_of(alloc, row)
        .expect(rt, "memory")
        .expect(rt, "few lines");
    let taken = came.sink.taken();
    let front = &taken[..taken.len().min(row.begins.len())];
    same(rt, came.status, row.status, row.script);
    same(rt, front, row.begins, row.script);
}

#[test]
fn the_start_that_is_proposed_is_certified(rt: HostRuntime) {
    for row in &TOLD {
        check_told(&rt, rt.alloc(), row);
    }
}

/// A run over the file F, of a script that is vouched for over a start which is proposed from a file.
struct Row {
    script: &'static [u8],
    file: &'static [u8],
    status: u8,
    output: &'static [u8],
    after: Option<&'static [u8]>,
}

const DONE: Row = Row {
    script: b"2d\nw\nq\n",
    file: b"x\ny\nz\n",
    status: 0,
    output: b"",
    after: Some(b"a\nc\n"),
};

#[rattlefmt::skip]
static ROWS: [Row; 7] = [
    DONE,
    Row { script: b"/^b/d\nw\nq\n", file: b"b\n", ..DONE },
    Row { file: b"x\ny\n", status: 5, after: ABC, ..DONE },
    Row { script: b"/^b/d\nw\nq\n", status: 1, output: b"cannot: command 1: no match\n", after: ABC, ..DONE },
    Row { script: BLOCK, file: b"x\na\nc\n", after: Some(b""), ..DONE },
    Row { script: SECOND, file: b"b\nb\nb\n", after: Some(b"a\nx\nc\n"), ..DONE },
    Row { script: SECOND, file: b"b\nb\n", status: 5, after: ABC, ..DONE },
];

/// What comes of the row over these files; None where its file has too many lines.
fn came_of(alloc: Global, files: &mut MemFiles, row: &Row) -> Result<Option<Came>, AllocError> {
    let options = options_of(alloc, &ON_F)?;
    let mut sink = output(alloc, 0)?;
    let mut aside = Aside::new(alloc, row.script, b"");
    let Some(starts) = proposed(alloc, true, row.file)? else {
        return Ok(None);
    };
    let status = edit_vouched(
        alloc, row.script, starts, options, files, &mut sink, &mut aside,
    );
    Ok(Some(Came { status, sink }))
}

fn check(rt: &impl Abort, alloc: Global, row: &Row) {
    let mut files = files_of(alloc, &ON_F).expect(rt, "memory");
    let came = came_of(alloc, &mut files, row).expect(rt, "memory");
    let came = came.expect(rt, "few lines");
    same(rt, came.status, row.status, row.script);
    same(rt, came.sink.taken(), row.output, row.script);
    same(rt, files.file(b"F"), row.after, row.script);
}

#[test]
fn a_script_is_run_only_over_files_like_that_one(rt: HostRuntime) {
    for row in &ROWS {
        check(&rt, rt.alloc(), row);
    }
}
