//! Tests of rehearsals over files in memory, with all the memory that they want.
use crate::{HeldWrite, Rehearsal};
use ed_base::{Bytes, Pieces};
use ed_session::{MemFiles, Outside};
use ed_syntax::Answer;
use std::alloc::Global;
use std::process::Abort;

fn bytes(rt: &impl Abort, alloc: Global, of: &[u8]) -> Bytes {
    Bytes::from_slice(alloc, of).expect(rt, "memory")
}

fn read(rt: &impl Abort, files: &mut Rehearsal<MemFiles>, path: &[u8], expected: Answer) {
    let answer = files.read(path).expect(rt, "memory");
    assert!(rt; answer == expected, "{path:?}");
}

fn tells(rt: &impl Abort, told: Option<&HeldWrite>, path: &[u8], lines: usize, bytes: usize) {
    let as_expected = match told {
        Some(told) => { told.path.as_slice() == path && told.lines == lines && told.bytes == bytes }
        None => false,
    };
    assert!(rt; as_expected, "{path:?}");
}

#[test]
fn what_was_written_is_read_and_told(rt: HostRuntime) {
    let alloc = rt.alloc();
    let mut real = MemFiles::new(alloc);
    real.add(b"F", bytes(&rt, alloc, b"a\n"))
        .expect(&rt, "memory");
    let mut files = Rehearsal::new(alloc, real);
    read(
        &rt,
        &mut files,
        b"F",
        Answer::Bytes(bytes(&rt, alloc, b"a\n")),
    );
    let lines = Pieces::from_bytes(alloc, bytes(&rt, alloc, b"b\nc"));
    let answer = files.write(b"F", &lines).expect(&rt, "memory");
    assert!(&rt; answer == Answer::Done);
    read(
        &rt,
        &mut files,
        b"F",
        Answer::Bytes(bytes(&rt, alloc, b"b\nc")),
    );
    read(&rt, &mut files, b"G", Answer::Missing);
    assert!(&rt; files.writes().len() == 1);
    tells(&rt, files.writes().first(), b"F", 2, 3);
}

#[test]
fn a_file_that_is_refused_stays_refused_and_others_are_read(rt: HostRuntime) {
    let alloc = rt.alloc();
    let mut real = MemFiles::new(alloc);
    real.add(b"F", bytes(&rt, alloc, b"a\n"))
        .expect(&rt, "memory");
    real.refuse(1);
    let mut files = Rehearsal::new(alloc, real);
    read(&rt, &mut files, b"F", Answer::Refused);
    read(
        &rt,
        &mut files,
        b"F",
        Answer::Bytes(bytes(&rt, alloc, b"a\n")),
    );
    assert!(&rt; files.writes().is_empty());
}
