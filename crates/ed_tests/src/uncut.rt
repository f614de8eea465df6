//! Lines of a file of which some are touched, in any order and in each store: that they change, and all others are as in the file.
use crate::applying::{apply, loaded};
use crate::asserting::same;
use crate::expected::pattern;
use crate::undoing::global;
use crate::written::{change, check_all, check_part, repeated, store_of};
use ed_base::{Bytes, next_line};
use ed_commands::Editor;
use ed_syntax::Sense;
use line_store::{ChunkStore, GapStore, LineStore, PlainStore};
use std::alloc::{AllocError, Global};
use std::process::Abort;

/// A file that has so many times a line, and a last one of its own.
struct TouchedRow {
    count: usize,
    line: &'static [u8],
    last: &'static [u8],
    /// These lines change one after another.
    touched: &'static [usize],
}

// A store cuts chunks of 1,024 lines: one line of each is touched, from the first chunk on and from the last. Then many lines, a last
// line without its newline that is touched and one that isn't, empty lines, and a file of one line.
#[rattlefmt::skip]
static TOUCHED: [TouchedRow; 7] = [
    TouchedRow { count: 4000, line: b"ab\n", last: b"", touched: &[500, 1500, 2500, 3500] },
    TouchedRow { count: 4000, line: b"ab\n", last: b"", touched: &[3500, 2500, 1500, 500] },
    TouchedRow { count: 100_000, line: b"a\n", last: b"", touched: &[99_999] },
    TouchedRow { count: 3000, line: b"a\n", last: b"b", touched: &[3000, 0] },
    TouchedRow { count: 3000, line: b"a\n", last: b"b", touched: &[1023, 1024] },
    TouchedRow { count: 3000, line: b"\n", last: b"", touched: &[2048, 0, 2999] },
    TouchedRow { count: 0, line: b"", last: b"a", touched: &[0] },
];

/// The bytes of the file, where some of these lines have changed.
fn changed(alloc: Global, row: &TouchedRow, touched: &[usize]) -> Result<Bytes, AllocError> {
    let mut all = Bytes::new(alloc);
    for place in 0..row.count {
        let is_touched = touched.iter().any(|other| *other == place);
        all.extend_from_slice(if is_touched { b"x\n" } else { row.line })?;
    }
    if row.last.len() > 0 {
        let is_touched = touched.iter().any(|other| *other == row.count);
        all.extend_from_slice(if is_touched { b"x" } else { row.last })?;
        all.push(b'\n')?;
    }
    Ok(all)
}

/// The lines that are told one by one are those of these bytes.
fn check_each<S: LineStore>(rt: &impl Abort, store: &mut S, expected: &[u8]) {
    store.open(store.len()).expect(rt, "memory");
    let mut rest = expected;
    for place in 0..store.len() {
        let (line, after) = next_line(rest).expect(rt, "one more line");
        assert!(rt; place < store.len());
        same(rt, store.text(place), line, place);
        rest = after;
    }
    assert!(rt; rest.is_empty());
}

fn check_touched<S: LineStore>(rt: &impl Abort, alloc: Global) {
    for row in &TOUCHED {
        let mut file = repeated(alloc, row.count, row.line).expect(rt, "memory");
        file.extend_from_slice(row.last).expect(rt, "memory");
        let mut store = store_of::<S>(alloc, file.as_slice()).expect(rt, "memory");
        for many in 0..row.touched.len() {
            assert!(rt; many < row.touched.len());
            assert!(rt; change(alloc, &mut store, row.touched[many], b"x"));
            let now = changed(alloc, row, &row.touched[..many + 1]).expect(rt, "memory");
            check_all(rt, alloc, &store, now.as_slice());
        }
        let now = changed(alloc, row, row.touched).expect(rt, "memory");
        check_each(rt, &mut store, now.as_slice());
    }
}

#[test]
fn lines_of_a_file_in_a_vector_are_touched(rt: HostRuntime) {
    check_touched::<PlainStore>(&rt, rt.alloc());
}

#[test]
fn lines_of_a_file_about_a_gap_are_touched(rt: HostRuntime) {
    check_touched::<GapStore>(&rt, rt.alloc());
}

#[test]
fn lines_of_a_file_in_chunks_are_touched(rt: HostRuntime) {
    check_touched::<ChunkStore>(&rt, rt.alloc());
}

/// A command of an editor that has just loaded 100,000 lines: which line is current after it, and how many there are.
struct ManyRow {
    script: &'static [u8],
    current: usize,
    count: usize,
}

// Each looks at all lines, of which only the last is `b`: none of them may count lines for each line anew.
#[rattlefmt::skip]
static LOOKING: [ManyRow; 4] = [
    ManyRow { script: b"/b/p\n", current: 100_000, count: 100_000 },
    ManyRow { script: b"1;?b?p\n", current: 100_000, count: 100_000 },
    ManyRow { script: b"1,$n\n", current: 100_000, count: 100_000 },
    ManyRow { script: b"1,$l\n", current: 100_000, count: 100_000 },
];

#[rattlefmt::skip]
static CHANGING: [ManyRow; 4] = [
    ManyRow { script: b"1,$s/b/c/\n", current: 100_000, count: 100_000 },
    ManyRow { script: b"1,$t$\n", current: 200_000, count: 200_000 },
    ManyRow { script: b"1,$j\n", current: 1, count: 1 },
    ManyRow { script: b"1,50000m$\n", current: 100_000, count: 100_000 },
];

/// An editor of 100,000 lines, of which the last is `b`, and the others are `a`.
fn many_lines(rt: &impl Abort, alloc: Global) -> Editor<ChunkStore> {
    let mut file = repeated(alloc, 99_999, b"a\n").expect(rt, "memory");
    file.extend_from_slice(b"b\n").expect(rt, "memory");
    loaded(rt, alloc, file.as_slice())
}

fn check_many(rt: &impl Abort, alloc: Global, rows: &[ManyRow]) {
    for row in rows {
        let mut editor = many_lines(rt, alloc);
        apply(rt, alloc, &mut editor, row.script);
        let found = (editor.current(), editor.lines().len());
        same(rt, found, (row.current, row.count), row.script);
    }
}

#[test]
fn a_command_that_looks_at_many_lines_looks_at_each_once(rt: HostRuntime) {
    check_many(&rt, rt.alloc(), &LOOKING);
}

#[test]
fn a_command_that_changes_many_lines_looks_at_each_once(rt: HostRuntime) {
    check_many(&rt, rt.alloc(), &CHANGING);
}

// Each writes the last line, as a suffix, in one of the forms, or into a file.
static WRITING: [&[u8]; 4] = [b"kap\n", b"$p\n", b"$l\n", b"$w F\n"];

#[test]
fn the_lines_before_one_that_is_written_are_passed_once(rt: HostRuntime) {
    let alloc = rt.alloc();
    for command in &WRITING {
        let mut editor = many_lines(&rt, alloc);
        let commands = repeated(alloc, 1000, command).expect(&rt, "memory");
        apply(&rt, alloc, &mut editor, commands.as_slice());
        same(&rt, editor.current(), 100_000, command);
    }
}

#[test]
fn a_global_command_looks_at_each_of_many_lines_once(rt: HostRuntime) {
    let alloc = rt.alloc();
    let mut editor = many_lines(&rt, alloc);
    let global = global(alloc, Sense::Matching, pattern(&rt, alloc, b"b"));
    let begun = editor.begin_global(&global).expect(&rt, "begun");
    drop(global);
    same(&rt, begun.lines, 1, "the lines that it takes");
}

/// A script, which line is current after it, how many there are, and how these lines read then, counted from 1.
struct ThousandRow {
    script: &'static [u8],
    current: usize,
    count: usize,
    lines: &'static [usize],
    text: &'static [u8],
}

// Of 5,000 lines each thousandth is `needle`, and the others are `ab`. A script begins at the last line, and what it touches is cut with all
// lines before it: none, some of the chunks, one line of each, or all. Searches go from there on and round to the line where they began.
#[rattlefmt::skip]
static THOUSANDS: [ThousandRow; 17] = [
    ThousandRow { script: b"/needle/p\n", current: 1000, count: 5000, lines: &[1000], text: b"needle\n" },
    ThousandRow { script: b"2500s/a/x/\n/needle/p\n", current: 3000, count: 5000, lines: &[2500], text: b"xb\n" },
    ThousandRow { script: b"2500s/a/x/\n/x/p\n", current: 2500, count: 5000, lines: &[2500], text: b"xb\n" },
    ThousandRow { script: b"2500s/a/x/\n2499\n/x/p\n", current: 2500, count: 5000, lines: &[2500], text: b"xb\n" },
    ThousandRow { script: b"2500s/a/x/\n4900\n/x/p\n", current: 2500, count: 5000, lines: &[2500], text: b"xb\n" },
    ThousandRow { script: b"2500s/a/x/\n3072\n/needle/p\n", current: 4000, count: 5000, lines: &[3072, 3073], text: b"ab\n" },
    ThousandRow { script: b"2500s/a/x/\n2999\n/needle/p\n", current: 3000, count: 5000, lines: &[2999, 3001], text: b"ab\n" },
    ThousandRow { script: b"4000\n/needle/p\n/needle/p\n", current: 1000, count: 5000, lines: &[5000], text: b"needle\n" },
    ThousandRow { script: b"3000\n?needle?p\n", current: 2000, count: 5000, lines: &[2000], text: b"needle\n" },
    ThousandRow { script: b"1,$s/needle/y/\n", current: 5000, count: 5000, lines: &[1000, 2000, 3000, 4000, 5000], text: b"y\n" },
    ThousandRow { script: b"1500s/a/x/\n1,$s/e/y/2\n", current: 5000, count: 5000, lines: &[1000, 2000, 3000, 4000, 5000], text: b"neydle\n" },
    ThousandRow { script: b"1500s/b/x/\n3500s/b/x/\n1001,$s/b/y/\n", current: 4999, count: 5000, lines: &[1001, 1999, 3001, 4999], text: b"ay\n" },
    ThousandRow { script: b"1500s/b/x/\n1000,3000s/needle/y/\n", current: 3000, count: 5000, lines: &[1000, 2000, 3000], text: b"y\n" },
    ThousandRow { script: b"1,$s/needle/y\\\nz/\n", current: 5005, count: 5005, lines: &[1000, 2001, 3002, 4003, 5004], text: b"y\n" },
    ThousandRow { script: b"1500s/b/x/\n1,$s/[b-m]l/b/\n", current: 5000, count: 5000, lines: &[1000, 2000, 3000, 4000, 5000], text: b"neebe\n" },
    ThousandRow { script: b"500s/a/x/\n1500s/a/x/\n2500s/a/x/\n3500s/a/x/\n4500s/a/x/\n1,$s/x/y/\n", current: 4500, count: 5000, lines: &[500, 1500, 2500, 3500, 4500], text: b"yb\n" },
    ThousandRow { script: b"1,$s/c*/x/\n", current: 5000, count: 5000, lines: &[1, 1024, 1025, 4999], text: b"xab\n" },
];

fn thousands<S: LineStore>(rt: &impl Abort, alloc: Global) -> Editor<S> {
    let mut thousand = repeated(alloc, 999, b"ab\n").expect(rt, "memory");
    thousand.extend_from_slice(b"needle\n").expect(rt, "memory");
    let file = repeated(alloc, 5, thousand.as_slice()).expect(rt, "memory");
    loaded(rt, alloc, file.as_slice())
}

fn check_thousands<S: LineStore>(rt: &impl Abort, alloc: Global) {
    for row in &THOUSANDS {
        let mut editor = thousands::<S>(rt, alloc);
        apply(rt, alloc, &mut editor, row.script);
        let found = (editor.current(), editor.lines().len());
        same(rt, found, (row.current, row.count), row.script);
        for line in row.lines {
            assert!(rt; *line > 0);
            check_part(rt, alloc, editor.lines(), *line - 1, *line, row.text);
        }
    }
}

#[test]
fn searches_and_substitutions_pass_over_lines_in_a_vector(rt: HostRuntime) {
    check_thousands::<PlainStore>(&rt, rt.alloc());
}

#[test]
fn searches_and_substitutions_pass_over_lines_about_a_gap(rt: HostRuntime) {
    check_thousands::<GapStore>(&rt, rt.alloc());
}

#[test]
fn searches_and_substitutions_pass_over_lines_in_chunks(rt: HostRuntime) {
    check_thousands::<ChunkStore>(&rt, rt.alloc());
}

// Empty lines stand before those that match, after 3,000 others.
static EMPTY_LINES: &[u8] = b"\n\nneedle\n\nneedle\n";

fn check_after_empty_lines<S: LineStore>(rt: &impl Abort, alloc: Global) {
    let mut file = repeated(alloc, 3000, b"ab\n").expect(rt, "memory");
    file.extend_from_slice(EMPTY_LINES).expect(rt, "memory");
    let mut editor: Editor<S> = loaded(rt, alloc, file.as_slice());
    apply(rt, alloc, &mut editor, b"/needle/p\n");
    same(rt, editor.current(), 3003, EMPTY_LINES);
    let mut other: Editor<S> = loaded(rt, alloc, file.as_slice());
    apply(rt, alloc, &mut other, b"1,$s/needle/x/\n");
    let count = other.lines().len();
    same(rt, (other.current(), count), (3005, 3005), EMPTY_LINES);
    assert!(rt; count == 3005);
    check_part(rt, alloc, other.lines(), 3000, count, b"\n\nx\n\nx\n");
}

#[test]
fn lines_after_empty_ones_are_found_in_a_vector(rt: HostRuntime) {
    check_after_empty_lines::<PlainStore>(&rt, rt.alloc());
}

#[test]
fn lines_after_empty_ones_are_found_about_a_gap(rt: HostRuntime) {
    check_after_empty_lines::<GapStore>(&rt, rt.alloc());
}

#[test]
fn lines_after_empty_ones_are_found_in_chunks(rt: HostRuntime) {
    check_after_empty_lines::<ChunkStore>(&rt, rt.alloc());
}

/// A script, the pattern of a global command after it, and how many lines that takes and which come first.
struct TakenRow {
    script: &'static [u8],
    sense: Sense,
    pattern: &'static [u8],
    count: usize,
    lines: &'static [usize],
}

#[rattlefmt::skip]
static TAKEN: [TakenRow; 8] = [
    TakenRow { script: b"", sense: Sense::Matching, pattern: b"needle", count: 5, lines: &[1000, 2000, 3000, 4000, 5000] },
    TakenRow { script: b"1500s/a/x/\n", sense: Sense::Matching, pattern: b"needle", count: 5, lines: &[1000, 2000, 3000, 4000, 5000] },
    TakenRow { script: b"1,$s/b$/c/\n", sense: Sense::Matching, pattern: b"needle", count: 5, lines: &[1000, 2000, 3000, 4000, 5000] },
    TakenRow { script: b"1500s/a/x/\n3500s/a/x/\n", sense: Sense::Matching, pattern: b"x", count: 2, lines: &[1500, 3500] },
    TakenRow { script: b"1500s/a/x/\n", sense: Sense::Others, pattern: b"b", count: 5, lines: &[1000, 2000, 3000, 4000, 5000] },
    TakenRow { script: b"1500s/a/x/\n", sense: Sense::Matching, pattern: b"^[ax]", count: 4995, lines: &[1, 2, 3] },
    TakenRow { script: b"1500s/a/x/\n", sense: Sense::Matching, pattern: b"q", count: 0, lines: &[] },
    TakenRow { script: b"1500s/a/x/\n", sense: Sense::Matching, pattern: b"n.*[d-e]l", count: 5, lines: &[1000, 2000, 3000, 4000, 5000] },
];

fn check_taken<S: LineStore>(rt: &impl Abort, alloc: Global) {
    for row in &TAKEN {
        let mut editor = thousands::<S>(rt, alloc);
        apply(rt, alloc, &mut editor, row.script);
        let global = global(alloc, row.sense, pattern(rt, alloc, row.pattern));
        let begun = editor.begin_global(&global).expect(rt, "begun");
        drop(global);
        same(rt, begun.lines, row.count, row.pattern);
        drop(begun);
        for line in row.lines {
            assert!(rt; editor.next_global());
            same(rt, editor.current(), *line, row.pattern);
        }
    }
}

#[test]
fn a_global_command_passes_over_lines_in_a_vector(rt: HostRuntime) {
    check_taken::<PlainStore>(&rt, rt.alloc());
}

#[test]
fn a_global_command_passes_over_lines_about_a_gap(rt: HostRuntime) {
    check_taken::<GapStore>(&rt, rt.alloc());
}

#[test]
fn a_global_command_passes_over_lines_in_chunks(rt: HostRuntime) {
    check_taken::<ChunkStore>(&rt, rt.alloc());
}
