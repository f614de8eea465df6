//! Runs over files and drafts in memory: what their ends leave.
use crate::asserting::{bytes, reads, same, writes};
use ed_session::MemFiles;
use ed_syntax::Answer;
use std::alloc::Global;
use std::process::Abort;
use whole::{Finished, MemDrafts, Outcome, Stage, Whole};

/// Files `F` and `G`, each with one line.
fn two_files(rt: &impl Abort, alloc: Global) -> MemFiles {
    let mut files = MemFiles::new(alloc);
    files
        .add(b"F", bytes(rt, alloc, b"f\n"))
        .expect(rt, "memory");
    files
        .add(b"G", bytes(rt, alloc, b"g\n"))
        .expect(rt, "memory");
    files
}

/// A run over two files, where this is refused at `F`, or nothing is.
fn started(rt: &impl Abort, alloc: Global, refused: Option<Stage>) -> Whole<MemDrafts> {
    let mut drafts = MemDrafts::new(alloc, two_files(rt, alloc));
    let Some(stage) = refused else {
        return Whole::new(alloc, drafts);
    };
    drafts.refuse(stage, bytes(rt, alloc, b"F"));
    Whole::new(alloc, drafts)
}

/// A run over two files, in which `G` is written, then `F`, then `G` once more.
fn written(rt: &impl Abort, alloc: Global, refused: Option<Stage>) -> Whole<MemDrafts> {
    let mut files = started(rt, alloc, refused);
    writes(rt, alloc, &mut files, b"G", b"1\n", Answer::Done);
    writes(rt, alloc, &mut files, b"F", b"2\n", Answer::Done);
    writes(rt, alloc, &mut files, b"G", b"3\n", Answer::Done);
    files
}

/// A run has ended so, with these bytes in `F` and `G`, and no draft is left.
fn ended(
    rt: &impl Abort,
    end: &Finished<MemDrafts>,
    outcome: Outcome,
    first: &[u8],
    second: &[u8],
) {
    same(rt, end.outcome, outcome, "the outcome");
    same(rt, end.drafts.left().len(), 0, "drafts that are left");
    let files = end.drafts.files();
    same(rt, files.file(b"F").unwrap_or(b""), first, "F");
    same(rt, files.file(b"G").unwrap_or(b""), second, "G");
}

#[test]
fn each_path_that_was_written_has_its_last_bytes(rt: HostRuntime) {
    let alloc = rt.alloc();
    let files = written(&rt, alloc, None);
    let end = files.finish(true);
    ended(&rt, &end, Outcome::Put, b"2\n", b"3\n");
}

#[test]
fn paths_are_told_once_in_the_order_of_their_first_writes(rt: HostRuntime) {
    let alloc = rt.alloc();
    let files = written(&rt, alloc, None);
    let end = files.finish(true);
    same(&rt, end.paths.len(), 2, "paths");
    let expected: [&[u8]; 2] = [b"G", b"F"];
    for (path, expected) in end.paths.iter().zip(&expected) {
        same(&rt, path.as_slice(), *expected, "a path");
    }
}

#[test]
fn a_read_after_a_write_gives_what_is_held(rt: HostRuntime) {
    let alloc = rt.alloc();
    let mut files = started(&rt, alloc, None);
    reads(&rt, alloc, &mut files, b"F", b"f\n");
    writes(&rt, alloc, &mut files, b"F", b"1\n", Answer::Done);
    reads(&rt, alloc, &mut files, b"F", b"1\n");
    writes(&rt, alloc, &mut files, b"F", b"2\n3", Answer::Done);
    reads(&rt, alloc, &mut files, b"F", b"2\n3");
    reads(&rt, alloc, &mut files, b"G", b"g\n");
    let held = files.drafts().files().file(b"F");
    same(&rt, held.unwrap_or(b""), b"f\n", "F before the end");
}

#[test]
fn a_run_that_ends_by_a_fault_leaves_all_files(rt: HostRuntime) {
    let alloc = rt.alloc();
    let files = written(&rt, alloc, None);
    let end = files.finish(false);
    ended(&rt, &end, Outcome::Discarded, b"f\n", b"g\n");
}

#[test]
fn a_write_that_is_refused_leaves_all_files(rt: HostRuntime) {
    let alloc = rt.alloc();
    let mut files = started(&rt, alloc, Some(Stage::Draft));
    writes(&rt, alloc, &mut files, b"G", b"1\n", Answer::Done);
    writes(&rt, alloc, &mut files, b"F", b"2\n", Answer::Refused);
    let end = files.finish(true);
    ended(&rt, &end, Outcome::Discarded, b"f\n", b"g\n");
}

#[test]
fn a_draft_that_cant_be_made_ready_leaves_all_files(rt: HostRuntime) {
    let alloc = rt.alloc();
    let files = written(&rt, alloc, Some(Stage::Ready));
    let end = files.finish(true);
    ended(&rt, &end, Outcome::Unready(1), b"f\n", b"g\n");
}

#[test]
fn a_draft_that_cant_be_put_is_discarded_with_those_after_it(rt: HostRuntime) {
    let alloc = rt.alloc();
    let files = written(&rt, alloc, Some(Stage::Put));
    let end = files.finish(true);
    ended(&rt, &end, Outcome::Stopped(1), b"f\n", b"3\n");
}

#[test]
fn a_run_that_writes_nothing_ends_well(rt: HostRuntime) {
    let alloc = rt.alloc();
    let mut files = started(&rt, alloc, None);
    reads(&rt, alloc, &mut files, b"F", b"f\n");
    let end = files.finish(true);
    ended(&rt, &end, Outcome::Put, b"f\n", b"g\n");
}
