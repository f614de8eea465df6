//! Lines of bytes, letters, numbers and faults: that calls succeed, and that the definitions are the standard's.
use crate::asserting::same;
use crate::expected::{are_lines, bytes};
use ed_base::{Bytes, Fault, Letter, Text, count_lines, join_lines, push_number, split_lines};
use std::alloc::{AllocError, Global};
use std::process::Abort;
use std::rc::Rc;

struct Row {
    bytes: &'static [u8],
    lines: &'static [&'static [u8]],
    written: &'static [u8],
}

#[rattlefmt::skip]
static ROWS: [Row; 8] = [
    Row { bytes: b"", lines: &[], written: b"" },
    Row { bytes: b"\n", lines: &[b""], written: b"\n" },
    Row { bytes: b"a", lines: &[b"a"], written: b"a\n" },
    Row { bytes: b"a\n", lines: &[b"a"], written: b"a\n" },
    Row { bytes: b"a\nb", lines: &[b"a", b"b"], written: b"a\nb\n" },
    Row { bytes: b"a\nb\n", lines: &[b"a", b"b"], written: b"a\nb\n" },
    Row { bytes: b"\n\na\n\n", lines: &[b"", b"", b"a", b""], written: b"\n\na\n\n" },
    Row { bytes: b"\0\r\n\xff\x80", lines: &[b"\0\r", b"\xff\x80"], written: b"\0\r\n\xff\x80\n" },
];

fn check(rt: &impl Abort, alloc: Global, row: &Row) {
    let lines = split_lines(alloc, row.bytes).expect(rt, "memory");
    assert!(rt;
        are_lines(&lines, row.lines),
        "{:?}: {:?}",
        row.bytes,
        lines
    );
    same(rt, count_lines(row.bytes), row.lines.len(), row.bytes);
    let written = join_lines(alloc, &lines).expect(rt, "memory");
    same(rt, written.as_slice(), row.written, row.bytes);
    let text = Text::of_file(alloc, bytes(rt, alloc, row.bytes)).expect(rt, "memory");
    same(rt, text.as_bytes(), row.written, row.bytes);
}

#[test]
fn a_last_line_without_its_newline_is_a_line_and_gets_one_when_written(rt: HostRuntime) {
    for row in &ROWS {
        check(&rt, rt.alloc(), row);
    }
}

/// Bytes so often, and how many lines they are.
struct CountRow {
    again: &'static [u8],
    times: usize,
    lines: usize,
}

// Bytes are counted in blocks of 64, and fewer one by one.
#[rattlefmt::skip]
static COUNTS: [CountRow; 9] = [
    CountRow { again: b"\n", times: 63, lines: 63 },
    CountRow { again: b"\n", times: 64, lines: 64 },
    CountRow { again: b"\n", times: 65, lines: 65 },
    CountRow { again: b"\n", times: 66, lines: 66 },
    CountRow { again: b"\n", times: 129, lines: 129 },
    CountRow { again: b"a", times: 200, lines: 1 },
    CountRow { again: b"a\n", times: 33, lines: 33 },
    CountRow { again: b"abcdefghijklmnopqrstuvwxyzabcdefghijklmnopqrstuvwxyz012345678\n", times: 10, lines: 10 },
    CountRow { again: b"\xff\x8a\x0b\t\n\0", times: 100, lines: 101 },
];

#[test]
fn newlines_are_counted_wherever_they_stand_in_a_block(rt: HostRuntime) {
    for row in &COUNTS {
        let mut bytes = Bytes::new(rt.alloc());
        for _ in 0..row.times {
            bytes.extend_from_slice(row.again).expect(&rt, "memory");
        }
        same(&rt, count_lines(bytes.as_slice()), row.lines, row.again);
    }
}

/// Bytes that were pushed and appended.
fn built(rt: &impl Abort, alloc: Global) -> Bytes {
    let mut built = bytes(rt, alloc, b"a");
    built.reserve(2).expect(rt, "memory");
    built.push(b'b').expect(rt, "memory");
    built.extend_from_slice(b"\xff\0").expect(rt, "memory");
    built
}

#[test]
fn bytes_are_built_copied_and_compared(rt: HostRuntime) {
    let mut built = built(&rt, rt.alloc());
    same(&rt, built.as_slice(), b"ab\xff\0".as_slice(), "built");
    same(&rt, built.len(), 4, "their number");
    let copy = built.try_copy().expect(&rt, "memory");
    assert!(rt; copy == built);
    built.clear();
    assert!(rt; built.is_empty());
    assert!(rt; copy != built);
    let items = copy.into_vec();
    same(&rt, items.as_slice(), b"ab\xff\0".as_slice(), "copied");
    let again = Bytes::from_vec(items);
    same(&rt, again.as_slice(), b"ab\xff\0".as_slice(), "taken over");
}

#[test]
fn lists_of_lines_are_made_copied_and_compared(rt: HostRuntime) {
    let none = Text::new();
    assert!(rt; none.is_empty());
    assert!(rt; none.block().is_none());
    let lines = Text::of_file(rt.alloc(), bytes(&rt, rt.alloc(), b"\n\n")).expect(&rt, "memory");
    assert!(rt; lines.len() == 2);
    assert!(rt; lines != none);
    let copy = lines.try_copy().expect(&rt, "memory");
    assert!(rt; copy == lines);
    let owners = lines.block().map(Rc::strong_count);
    same(&rt, owners, Some(2), "those that share the block");
}

static NUMBERS: [u64; 3] = [0, 10, 18_446_744_073_709_551_615];

#[test]
fn numbers_are_written_in_decimal_digits(rt: HostRuntime) {
    let mut written = Bytes::new(rt.alloc());
    for number in &NUMBERS {
        push_number(&mut written, *number).expect(&rt, "memory");
        written.push(b'\n').expect(&rt, "memory");
    }
    same(
        &rt,
        written.as_slice(),
        b"0\n10\n18446744073709551615\n".as_slice(),
        "the numbers",
    );
}

#[test]
fn small_letters_mark_lines_and_nothing_else_does(rt: HostRuntime) {
    for (byte, place) in (b'a'..=b'z').zip(0..) {
        same(&rt, Letter::new(byte).map(Letter::place), Some(place), byte);
    }
    for byte in b"`{AZ0 \n\xe1" {
        same(&rt, Letter::new(*byte), None, *byte);
    }
}

#[test]
fn a_refused_file_and_want_of_memory_have_their_own_statuses(rt: HostRuntime) {
    same(&rt, Fault::Syntax.text(), "invalid command", "text");
    same(&rt, Fault::Syntax.status(), 1, "the script's own");
    same(&rt, Fault::File.status(), 3, "a refused file");
    same(&rt, Fault::Memory.status(), 2, "memory");
    same(
        &rt,
        Fault::from(AllocError),
        Fault::Memory,
        "a refused allocation",
    );
}
