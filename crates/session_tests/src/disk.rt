//! Files on a disk. What the system answers, no clause says.
use crate::asserting::same;
use ed_base::{Bytes, Pieces};
use ed_session::{DiskFiles, Outside};
use ed_syntax::Answer;
use std::alloc::Global;
use std::io::ErrorKind;
use std::process::Abort;
use std::rc::Rc;
use std::{env, fs, io};

fn bytes(rt: &impl Abort, alloc: Global, of: &[u8]) -> Bytes {
    Bytes::from_slice(alloc, of).expect(rt, "memory")
}

fn check_write<O: Outside>(
    rt: &impl Abort,
    files: &mut O,
    path: &[u8],
    lines: &Pieces,
    expected: Answer,
) {
    let answer = files.write(path, lines).expect(rt, "memory");
    same(rt, answer, expected, path);
}

fn check_read<O: Outside>(rt: &impl Abort, files: &mut O, path: &[u8], expected: Answer) {
    let answer = files.read(path).expect(rt, "memory");
    same(rt, answer, expected, path);
}

static TEXTS: [&[u8]; 4] = [b"a\nlonger\nfile\n", b"short\0\xff", b"", b"a\n"];

#[test]
fn a_file_that_was_written_is_read_again(rt: HostRuntime) {
    let alloc = rt.alloc();
    let folder = env::temp_dir(&rt).expect(&rt, "a folder");
    let written = folder
        .join(alloc, "session_tests_written")
        .expect(&rt, "memory");
    let path = written.as_str().as_bytes();
    let mut files = DiskFiles::new(alloc, &rt);
    for text in &TEXTS {
        let lines = Pieces::from_bytes(alloc, bytes(&rt, alloc, text));
        check_write(&rt, &mut files, path, &lines, Answer::Done);
        check_read(
            &rt,
            &mut files,
            path,
            Answer::Bytes(bytes(&rt, alloc, text)),
        );
    }
    fs::remove_file(&rt, written.as_str()).expect(&rt, "removed");
    check_read(&rt, &mut files, path, Answer::Missing);
}

static SIZES: [usize; 6] = [100, 70_000, 65_000, 300, 65_536, 100];

/// Short pieces and long ones in turn, some of which fill the room where they are gathered and some of which are longer than it.
fn mixed(rt: &impl Abort, alloc: Global) -> Pieces {
    let block = Rc::new(alloc, bytes(rt, alloc, &[b'x'; 70_000])).expect(rt, "memory");
    let mut mixed = Pieces::new(alloc);
    for size in &SIZES {
        mixed.extend_from_slice(b"line\n").expect(rt, "memory");
        let end = block.len().min(*size);
        mixed.extend_from_block(&block, 0, end).expect(rt, "memory");
    }
    mixed
}

#[test]
fn pieces_are_written_one_after_another(rt: HostRuntime) {
    let alloc = rt.alloc();
    let folder = env::temp_dir(&rt).expect(&rt, "a folder");
    let written = folder
        .join(alloc, "session_tests_pieces")
        .expect(&rt, "memory");
    let path = written.as_str().as_bytes();
    let mut files = DiskFiles::new(alloc, &rt);
    let mixed = mixed(&rt, alloc);
    assert!(rt; mixed.len() == 201_066);
    check_write(&rt, &mut files, path, &mixed, Answer::Done);
    let read = files.read(path).expect(&rt, "memory");
    fs::remove_file(&rt, written.as_str()).expect(&rt, "removed");
    assert!(rt; read == Answer::Bytes(mixed.to_bytes(alloc).expect(&rt, "memory")));
}

/// A path that can't be written, and whether a read finds no file there; else it is refused.
struct Row {
    path: &'static [u8],
    missing: bool,
}

#[rattlefmt::skip]
static ROWS: [Row; 5] = [
    Row { path: b".", missing: false },
    Row { path: b"session_tests_absent/file", missing: true },
    Row { path: b"/dev/null/file", missing: false },
    Row { path: b"session_tests\0absent", missing: false },
    Row { path: b"session_tests_\xff", missing: false },
];

#[test]
fn a_refusal_has_a_reason_until_the_next_call(rt: HostRuntime) {
    let alloc = rt.alloc();
    let mut files = DiskFiles::new(alloc, &rt);
    let line = Pieces::from_bytes(alloc, bytes(&rt, alloc, b"a\n"));
    assert!(rt; files.reason().is_none());
    check_read(&rt, &mut files, b".", Answer::Refused);
    assert!(rt; is_for(files.reason(), ErrorKind::IsADirectory));
    check_read(&rt, &mut files, b"session_tests_absent", Answer::Missing);
    assert!(rt; files.reason().is_none());
    check_write(
        &rt,
        &mut files,
        b"session_tests_absent/file",
        &line,
        Answer::Refused,
    );
    assert!(rt; is_for(files.reason(), ErrorKind::NotFound));
    check_read(&rt, &mut files, b"session_tests_\xff", Answer::Refused);
    assert!(rt; is_for(files.reason(), ErrorKind::InvalidInput));
}

fn is_for(reason: Option<io::Error>, kind: ErrorKind) -> bool {
    match reason {
        Some(error) => error.kind() == kind,
        None => false,
    }
}

fn check_refused<O: Outside>(rt: &impl Abort, files: &mut O, row: &Row, line: &Pieces) {
    let read = if row.missing {
        Answer::Missing
    } else {
        Answer::Refused
    };
    check_read(rt, files, row.path, read);
    check_write(rt, files, row.path, line, Answer::Refused);
}

#[test]
fn what_is_no_file_is_missing_or_refused(rt: HostRuntime) {
    let alloc = rt.alloc();
    let mut files = DiskFiles::new(alloc, &rt);
    let line = Pieces::from_bytes(alloc, bytes(&rt, alloc, b"a\n"));
    for row in &ROWS {
        check_refused(&rt, &mut files, row, &line);
    }
    // A device that is always full.
    check_write(&rt, &mut files, b"/dev/full", &line, Answer::Refused);
}
