//! Drives a script over files and a sink in memory, which refuse what a test asks them to.
use crate::asserting::same;
use ed_base::{Bytes, Fault};
use ed_session::{MemFiles, MemSink, Session, drive};
use ed_syntax::{Ending, Options, read_script};
use line_store::{ChunkStore, GapStore, LineStore, PlainStore};
use std::alloc::{AllocError, Global};
use std::process::Abort;

/// A run: its script, the bytes of the files `F` and `G`, where they are there, the file that is edited, its prompt, and how files and
/// output are refused (0: not at all).
#[derive(Clone, Copy)]
pub(crate) struct Case<'a> {
    pub script: &'a [u8],
    pub file: Option<&'a [u8]>,
    pub other: Option<&'a [u8]>,
    pub edited: Option<&'a [u8]>,
    pub silent: bool,
    pub prompt: Option<&'a [u8]>,
    pub refused_call: u64,
    pub room: usize,
    pub piece: usize,
    pub refused_write: u64,
}

/// A run on the file `F` in which nothing is refused, and whose output is taken in pieces of up to 64 bytes.
pub(crate) const UNREFUSED: Case<'static> = Case {
    script: b"",
    file: None,
    other: None,
    edited: Some(b"F"),
    silent: true,
    prompt: None,
    refused_call: 0,
    room: 256,
    piece: 64,
    refused_write: 0,
};

pub(crate) const ABC: Option<&[u8]> = Some(b"a\nb\nc\n");

pub(crate) const ABA: Option<&[u8]> = Some(b"a\nb\na\n");

pub(crate) const ARROW: Option<&[u8]> = Some(b"> ");

fn bytes_of(alloc: Global, bytes: Option<&[u8]>) -> Result<Option<Bytes>, AllocError> {
    match bytes {
        Some(bytes) => Bytes::from_slice(alloc, bytes).map(Some),
        None => Ok(None),
    }
}

/// A file that isn't there isn't added.
fn add(
    alloc: Global,
    files: &mut MemFiles,
    path: &[u8],
    bytes: Option<&[u8]>,
) -> Result<(), AllocError> {
    match bytes_of(alloc, bytes)? {
        Some(bytes) => files.add(path, bytes),
        None => Ok(()),
    }
}

pub(crate) fn files(alloc: Global, case: Case<'_>) -> Result<MemFiles, AllocError> {
    let mut files = MemFiles::new(alloc);
    files.refuse(case.refused_call);
    add(alloc, &mut files, b"F", case.file)?;
    add(alloc, &mut files, b"G", case.other)?;
    Ok(files)
}

fn options(alloc: Global, case: Case<'_>) -> Result<Options, AllocError> {
    let (prompt, path) = both(bytes_of(alloc, case.prompt), bytes_of(alloc, case.edited))?;
    Ok(Options {
        silent: case.silent,
        prompt,
        path,
    })
}

pub(crate) fn session<S: LineStore>(
    alloc: Global,
    case: Case<'_>,
) -> Result<Session<S>, AllocError> {
    let (script, options) = both(read_script(alloc, case.script), options(alloc, case))?;
    Session::new(alloc, script, options)
}

/// Both values. Where one is missing the other is dropped, which is proved here for all types, and not at each `?` for each type.
fn both<A: Drop, B: Drop>(
    first: Result<A, AllocError>,
    second: Result<B, AllocError>,
) -> Result<(A, B), AllocError> {
    let first = first?;
    Ok((first, second?))
}

/// How many lines the buffer had where the run ended well.
pub(crate) fn lines(end: Result<Ending, Fault>) -> Result<usize, Fault> {
    end.map(|ending| ending.lines)
}

/// How a run ended, what its files then hold, and what its sink took.
#[derive(Drop)]
pub(crate) struct Outcome {
    pub ends: Result<usize, Fault>,
    pub files: MemFiles,
    pub sink: MemSink,
}

/// What comes of the case over a store.
pub(crate) fn run<S: LineStore>(alloc: Global, case: Case<'_>) -> Result<Outcome, AllocError> {
    let mut sink = MemSink::new(alloc, case.room, case.piece)?;
    sink.refuse(case.refused_write);
    let (mut session, mut files) = both(session::<S>(alloc, case), files(alloc, case))?;
    let end = drive(&mut session, &mut files, &mut sink);
    drop(session); // By a call: where it goes out of scope its parts are dropped one by one, which is dear to prove.
    Ok(Outcome {
        ends: lines(end),
        files,
        sink,
    })
}

/// What comes of it over the plainest store.
pub(crate) fn run_plain(alloc: Global, case: Case<'_>) -> Result<Outcome, AllocError> {
    run::<PlainStore>(alloc, case)
}

fn check_over<S: LineStore>(
    rt: &impl Abort,
    alloc: Global,
    case: Case<'_>,
    output: &[u8],
    ends: Result<usize, Fault>,
) {
    let outcome = run::<S>(alloc, case).expect(rt, "memory");
    let at = (case.script, case.piece);
    same(rt, outcome.sink.taken(), output, at);
    same(rt, outcome.ends, ends, at);
}

fn check_in_pieces(
    rt: &impl Abort,
    alloc: Global,
    case: Case<'_>,
    output: &[u8],
    ends: Result<usize, Fault>,
) {
    check_over::<PlainStore>(rt, alloc, case, output, ends);
    check_over::<GapStore>(rt, alloc, case, output, ends);
    check_over::<ChunkStore>(rt, alloc, case, output, ends);
}

/// Over each store, the case writes this output and ends so, whether much of it is taken at once or little.
pub(crate) fn check(
    rt: &impl Abort,
    alloc: Global,
    case: Case<'_>,
    output: &[u8],
    ends: Result<usize, Fault>,
) {
    check_in_pieces(rt, alloc, Case { piece: 64, ..case }, output, ends);
    check_in_pieces(rt, alloc, Case { piece: 1, ..case }, output, ends);
}

/// A silent run on the file `F` without a prompt: its script, the file's bytes, what it writes and how it ends.
pub(crate) struct Row {
    pub script: &'static [u8],
    pub file: Option<&'static [u8]>,
    pub output: &'static [u8],
    pub ends: Result<usize, Fault>,
}

impl Row {
    pub(crate) fn case(&self) -> Case<'static> {
        Case {
            script: self.script,
            file: self.file,
            ..UNREFUSED
        }
    }
}

/// Each row's run writes and ends as the row says.
pub(crate) fn check_each(rt: &impl Abort, alloc: Global, rows: &[Row]) {
    for row in rows {
        check(rt, alloc, row.case(), row.output, row.ends);
    }
}

/// Whether the row's run ends as the row says or by being out of memory.
fn ends_as_it_may(alloc: Global, row: &Row) -> bool {
    match &run::<GapStore>(alloc, row.case()) {
        Ok(outcome) => {
            outcome.ends == Err(Fault::Memory)
                || (outcome.ends == row.ends && outcome.sink.taken() == row.output)
        }
        Err(_) => true,
    }
}

/// Each row's run ends as the row says or by being out of memory.
pub(crate) fn check_memory(rt: &impl Abort, alloc: Global, rows: &[Row]) {
    for row in rows {
        assert!(rt; ends_as_it_may(alloc, row), "{:?}", row.script);
    }
}
