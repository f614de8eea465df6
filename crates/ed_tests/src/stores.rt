//! Lines of a file, lines of their own bytes, lines that come into stores, and copies of stores: that calls succeed.
ghost use Rattle.ed_base.specs.Lines.{IsLine};

use crate::applying::{apply, check_texts, loaded};
use crate::asserting::same;
use crate::expected::{bytes, letter};
use ed_base::Bytes;
use ed_commands::Editor;
use line_store::{Block, ChunkStore, FileLines, GapStore, Line, LineStore, PlainStore};
use std::alloc::{AllocError, Global};
use std::process::Abort;

fn next(rt: &impl Abort, file: &mut FileLines) -> Line {
    let next = file.next_line().expect(rt, "memory");
    next.expect(rt, "one more line")
}

/// No line comes, however often one is asked for.
fn check_end(rt: &impl Abort, file: &mut FileLines) {
    for _ in 0..2 {
        let next = file.next_line().expect(rt, "memory");
        assert!(rt; next.is_none());
    }
}

fn check_line(rt: &impl Abort, line: &Line, expected: &[u8]) {
    same(rt, line.bytes(), expected, "a line");
}

#[test]
fn the_lines_of_a_file_come_in_order_and_outlive_it(rt: HostRuntime) {
    let alloc = rt.alloc();
    let bytes = bytes(&rt, alloc, b"a\r\n\n\xff\0b");
    let mut file = FileLines::new(alloc, bytes).expect(&rt, "memory");
    let first = next(&rt, &mut file);
    let second = next(&rt, &mut file);
    let last = next(&rt, &mut file);
    check_end(&rt, &mut file);
    drop(file);
    check_line(&rt, &first, b"a\r");
    check_line(&rt, &second, b"");
    drop(first);
    drop(second);
    check_line(&rt, &last, b"\xff\0b");
}

#[test]
fn a_file_without_bytes_has_no_line(rt: HostRuntime) {
    let mut file = FileLines::new(rt.alloc(), Bytes::new(rt.alloc())).expect(&rt, "memory");
    check_end(&rt, &mut file);
}

#[test]
fn a_line_takes_bytes_as_its_own(rt: HostRuntime) {
    let alloc = rt.alloc();
    let taken = Line::from_bytes(alloc, Bytes::new(alloc)).expect(&rt, "memory");
    check_line(&rt, &taken, b"");
    let copied = Line::new(alloc, b"").expect(&rt, "memory");
    check_line(&rt, &copied, b"");
}

/// A copy of the store whose second line is marked, after which the first line goes.
fn copied<S: LineStore>(rt: &impl Abort, alloc: Global, editor: &mut Editor<S>) -> S {
    apply(rt, alloc, editor, b"2kx\n");
    let copy = editor.lines().try_copy().expect(rt, "memory");
    apply(rt, alloc, editor, b"1d\n");
    copy
}

/// A copy has the lines and the letters of the store, and goes its own way from then on.
fn check_copy<S: LineStore>(rt: &impl Abort, alloc: Global) {
    let mut editor = loaded::<S>(rt, alloc, b"a\nb\nc\n");
    let copy = copied(rt, alloc, &mut editor);
    check_texts(rt, alloc, &copy, b"a\nb\nc\n", "the copy");
    check_texts(rt, alloc, editor.lines(), b"b\nc\n", "the store");
    let letter = letter(rt, b'x');
    let marked = (copy.marked(letter), editor.lines().marked(letter));
    same(rt, marked, (Some(1), Some(0)), "the marked lines");
}

#[test]
fn a_copy_of_a_store_keeps_its_lines_and_letters(rt: HostRuntime) {
    check_copy::<PlainStore>(&rt, rt.alloc());
    check_copy::<GapStore>(&rt, rt.alloc());
    check_copy::<ChunkStore>(&rt, rt.alloc());
}

/// Puts a new line of these bytes before a place.
fn put<S: LineStore>(rt: &impl Abort, alloc: Global, store: &mut S, place: usize, bytes: &[u8])
    requires line { IsLine bytes.now }
{
    assert!(rt; place <= store.len());
    let line = Line::new(alloc, bytes).expect(rt, "memory");
    let taken = store.exchange_block(place, place, Block::of(line));
    assert!(rt; taken.is_ok(), "the line was handed back");
}

/// A block of a single line of these bytes went out.
fn check_taken(rt: &impl Abort, taken: Result<Block, Block>, bytes: &[u8]) {
    let line = taken.ok().expect(rt, "taken").into_line();
    check_line(rt, &line.ok().expect(rt, "a single line"), bytes);
}

/// Lines come in before the first line, after the last and between, and the first one goes.
fn check_places<S: LineStore>(rt: &impl Abort, alloc: Global) {
    let mut store = S::empty(alloc).expect(rt, "memory");
    put(rt, alloc, &mut store, 0, b"a");
    put(rt, alloc, &mut store, 1, b"b");
    put(rt, alloc, &mut store, 2, b"c");
    put(rt, alloc, &mut store, 0, b"x");
    put(rt, alloc, &mut store, 4, b"y");
    put(rt, alloc, &mut store, 2, b"z");
    check_texts(rt, alloc, &store, b"x\na\nz\nb\nc\ny\n", "six lines");
    assert!(rt; store.len() > 0);
    let taken = store.exchange_block(0, 1, Block::new(alloc));
    check_taken(rt, taken, b"x");
    check_texts(rt, alloc, &store, b"a\nz\nb\nc\ny\n", "five lines");
}

#[test]
fn lines_come_in_at_either_end_and_between(rt: HostRuntime) {
    check_places::<PlainStore>(&rt, rt.alloc());
    check_places::<GapStore>(&rt, rt.alloc());
    check_places::<ChunkStore>(&rt, rt.alloc());
}

/// A block of the lines of a file of these bytes.
fn file_block(alloc: Global, bytes: &[u8]) -> Result<Block, AllocError> {
    Block::of_file(FileLines::new(alloc, Bytes::from_slice(alloc, bytes)?)?)
}

/// So many lines, each of which is `a`, with their newlines.
fn many(alloc: Global, count: usize) -> Result<Bytes, AllocError> {
    let mut lines = Bytes::new(alloc);
    for _ in 0..count {
        lines.extend_from_slice(b"a\n")?;
    }
    Ok(lines)
}

/// The lines of `new` come in place of some of `count`, and no others; or the store is as before, and they are handed back.
fn check_exchange<S: LineStore>(
    rt: &impl Abort,
    alloc: Global,
    count: usize,
    new: &[u8],
) -> Result<(), AllocError> {
    let earlier = many(alloc, count)?;
    let mut store = S::empty(alloc)?;
    let filled = store.exchange_block(0, 0, file_block(alloc, earlier.as_slice())?);
    if filled.is_err() {
        return Ok(());
    }
    let entering = file_block(alloc, new)?;
    assert!(rt; store.len() == count && count > 2);
    // One of the lines that go out has the flag, and one of those that stay.
    if store.flag(1).is_err() || store.flag(count - 1).is_err() {
        return Ok(());
    }
    let (texts, flags, what) = match store.exchange_block(1, count - 1, entering) {
        Ok(taken) => {
            let mut texts = bytes(rt, alloc, b"a\n");
            texts.extend_from_slice(new).expect(rt, "memory");
            texts.extend_from_slice(b"a\n").expect(rt, "memory");
            drop(taken);
            (texts, 1, "exchanged")
        }
        Err(back) => {
            let mut other = S::empty(alloc).expect(rt, "memory");
            assert!(rt; other.exchange_block(0, 0, back).is_ok());
            check_texts(rt, alloc, &other, new, "handed back");
            (earlier, 2, "as before")
        }
    };
    same(rt, store.flag_count(), flags, what);
    check_texts(rt, alloc, &store, texts.as_slice(), what);
    Ok(())
}

/// Few lines for few, few for many, many for few and many for many.
fn check_exchanges<S: LineStore>(rt: &impl Abort, alloc: Global) -> Result<(), AllocError> {
    let block = many(alloc, 1500)?;
    for count in [4, 2000] {
        check_exchange::<S>(rt, alloc, count, b"x\n")?;
        check_exchange::<S>(rt, alloc, count, b"x\ny\nz\n")?;
        check_exchange::<S>(rt, alloc, count, block.as_slice())?;
    }
    Ok(())
}

#[test]
fn blocks_are_exchanged_or_the_store_is_as_before(rt: HostRuntime) {
    let alloc = rt.alloc();
    // Where one allocation is refused, what was to be tried may lack memory itself.
    let _ = check_exchanges::<PlainStore>(&rt, alloc);
    let _ = check_exchanges::<GapStore>(&rt, alloc);
    let _ = check_exchanges::<ChunkStore>(&rt, alloc);
}
