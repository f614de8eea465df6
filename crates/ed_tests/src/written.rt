//! What is written of lines that came in with a file, before and after some of them change.
ghost use Rattle.ed_base.specs.Lines.{IsLine};

use crate::asserting::same;
use ed_base::{Bytes, Pieces};
use line_store::{Block, ChunkStore, FileLines, GapStore, Line, LineStore, PlainStore};
use std::alloc::{AllocError, Global};
use std::process::Abort;

/// A store of the lines of a file of these bytes.
pub(crate) fn store_of<S: LineStore>(alloc: Global, file: &[u8]) -> Result<S, AllocError> {
    let file = FileLines::new(alloc, Bytes::from_slice(alloc, file)?)?;
    let mut store = S::empty(alloc)?;
    match store.exchange_block(0, 0, Block::of_file(file)?) {
        Ok(_none) => Ok(store),
        Err(_refused) => Err(AllocError),
    }
}

/// What is written of the lines from place `from` up to `to` is this.
pub(crate) fn check_part<S: LineStore>(
    rt: &impl Abort,
    alloc: Global,
    store: &S,
    from: usize,
    to: usize,
    expected: &[u8],
) {
    assert!(rt; from <= to && to <= store.len());
    let mut output = Pieces::new(alloc);
    store.push_lines(from, to, &mut output).expect(rt, "memory");
    let written = output.to_bytes(alloc).expect(rt, "memory");
    same(rt, written.as_slice(), expected, (from, to));
}

/// What is written of all lines is this.
pub(crate) fn check_all<S: LineStore>(rt: &impl Abort, alloc: Global, store: &S, expected: &[u8]) {
    check_part(rt, alloc, store, 0, store.len(), expected);
}

/// So often these bytes.
pub(crate) fn repeated(alloc: Global, count: usize, of: &[u8]) -> Result<Bytes, AllocError> {
    let mut all = Bytes::new(alloc);
    for _ in 0..count {
        all.extend_from_slice(of)?;
    }
    Ok(all)
}

/// A file of so many lines with `of` each and a last line of its own is written, with a newline at its end.
fn check_file<S: LineStore>(rt: &impl Abort, alloc: Global, count: usize, of: &[u8], last: &[u8]) {
    let mut file = repeated(alloc, count, of).expect(rt, "memory");
    file.extend_from_slice(last).expect(rt, "memory");
    let store = store_of::<S>(alloc, file.as_slice()).expect(rt, "memory");
    if last.len() > 0 && last[last.len() - 1] != b'\n' {
        file.push(b'\n').expect(rt, "memory");
    }
    check_all(rt, alloc, &store, file.as_slice());
}

fn check_files<S: LineStore>(rt: &impl Abort, alloc: Global) {
    check_file::<S>(rt, alloc, 0, b"", b"");
    check_file::<S>(rt, alloc, 0, b"", b"a");
    check_file::<S>(rt, alloc, 1023, b"a\n", b"b");
    check_file::<S>(rt, alloc, 1024, b"a\n", b"");
    check_file::<S>(rt, alloc, 1024, b"a\n", b"b");
    check_file::<S>(rt, alloc, 2047, b"ab\n", b"\n");
    // Empty lines, a long line, and a long last line.
    check_file::<S>(rt, alloc, 5000, b"\n", b"\n");
    check_file::<S>(rt, alloc, 50_000, b"a", b"\n");
    check_file::<S>(rt, alloc, 1500, b"\n", b"one without its newline");
}

#[test]
fn a_file_is_written_as_it_was_with_a_newline_at_its_end(rt: HostRuntime) {
    check_files::<PlainStore>(&rt, rt.alloc());
    check_files::<GapStore>(&rt, rt.alloc());
    check_files::<ChunkStore>(&rt, rt.alloc());
}

/// Of 3000 lines, each of which is `a`, any from one to another are written.
#[test]
fn some_lines_of_a_chunk_are_written_without_the_others(rt: HostRuntime) {
    let alloc = rt.alloc();
    let file = repeated(alloc, 3000, b"a\n").expect(&rt, "memory");
    let store = store_of::<ChunkStore>(alloc, file.as_slice()).expect(&rt, "memory");
    for (from, to) in [
        (0, 0),
        (0, 1),
        (0, 1023),
        (1, 1024),
        (1023, 2049),
        (1024, 2048),
        (2999, 3000),
    ] {
        assert!(rt; from <= to && to <= 3000 && 2 * to <= file.len());
        check_part(
            &rt,
            alloc,
            &store,
            from,
            to,
            &file.as_slice()[2 * from..2 * to],
        );
    }
}

/// Puts a line of these bytes in place of another, or the store is as before.
pub(crate) fn change<S: LineStore>(alloc: Global, store: &mut S, place: usize, text: &[u8]) -> bool
    requires line { IsLine text.now }
{
    if place >= store.len() {
        return false;
    }
    let Ok(line) = Line::new(alloc, text) else {
        return false;
    };
    store
        .exchange_block(place, place + 1, Block::of(line))
        .is_ok()
}

/// One line in each chunk changes, and is written as it is then.
#[test]
fn a_line_that_changed_is_written_as_it_is_then(rt: HostRuntime) {
    let alloc = rt.alloc();
    let mut file = repeated(alloc, 3000, b"a\n")
        .expect(&rt, "memory")
        .into_vec();
    let mut store = store_of::<ChunkStore>(alloc, file.as_slice()).expect(&rt, "memory");
    for place in [2999, 0, 1500] {
        let changed = change(alloc, &mut store, place, b"x");
        assert!(rt; changed && 2 * place < file.len());
        file[2 * place] = b'x';
        check_all(&rt, alloc, &store, file.as_slice());
    }
}

/// A line comes in before a place and goes out again, and what is written follows.
fn check_in_and_out(rt: &impl Abort, alloc: Global, place: usize) {
    let file = repeated(alloc, 3000, b"a\n").expect(rt, "memory");
    assert!(rt; place <= 3000 && 2 * place <= file.len());
    let (before, after) = file.as_slice().split_at(2 * place);
    let mut longer = Bytes::from_slice(alloc, before).expect(rt, "memory");
    longer.extend_from_slice(b"x\n").expect(rt, "memory");
    longer.extend_from_slice(after).expect(rt, "memory");
    let mut store = store_of::<ChunkStore>(alloc, file.as_slice()).expect(rt, "memory");
    let line = Line::new(alloc, b"x").expect(rt, "memory");
    assert!(rt; place <= store.len());
    assert!(rt; store.exchange_block(place, place, Block::of(line)).is_ok());
    check_all(rt, alloc, &store, longer.as_slice());
    assert!(rt; place < store.len());
    assert!(rt;
        store
            .exchange_block(place, place + 1, Block::new(alloc))
            .is_ok()
    );
    check_all(rt, alloc, &store, file.as_slice());
}

#[test]
fn a_line_that_comes_in_is_written_till_it_goes_out(rt: HostRuntime) {
    for place in [0, 1, 1023, 1024, 1500, 3000] {
        check_in_and_out(&rt, rt.alloc(), place);
    }
}

#[test]
fn a_flag_and_a_copy_change_nothing_of_what_is_written(rt: HostRuntime) {
    let alloc = rt.alloc();
    let file = repeated(alloc, 3000, b"a\n").expect(&rt, "memory");
    let mut store = store_of::<ChunkStore>(alloc, file.as_slice()).expect(&rt, "memory");
    assert!(rt; 1500 < store.len());
    store.flag(1500).expect(&rt, "memory");
    check_all(&rt, alloc, &store, file.as_slice());
    let copy = store.try_copy().expect(&rt, "memory");
    assert!(rt; change(alloc, &mut store, 1500, b"x"));
    check_all(&rt, alloc, &copy, file.as_slice());
}
