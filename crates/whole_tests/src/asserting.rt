//! Assertions as functions: a macro is proved at each place where it stands, and these are proved once.
use ed_base::{Bytes, Pieces};
use ed_session::Outside;
use ed_syntax::Answer;
use std::alloc::Global;
use std::fmt::Debug;
use std::process::Abort;

/// What was found is what was expected.
pub(crate) fn same<T: PartialEq + Debug + Drop, P: Debug + Copy>(
    rt: &impl Abort,
    found: T,
    expected: T,
    at: P,
) {
    assert!(rt;
        found == expected,
        "{at:?}: {found:?} in place of {expected:?}"
    );
}

pub(crate) fn bytes(rt: &impl Abort, alloc: Global, of: &[u8]) -> Bytes {
    Bytes::from_slice(alloc, of).expect(rt, "memory")
}

/// A write of these bytes is answered so.
pub(crate) fn writes<O: Outside>(
    rt: &impl Abort,
    alloc: Global,
    files: &mut O,
    path: &[u8],
    text: &[u8],
    expected: Answer,
) {
    let text = Pieces::from_bytes(alloc, bytes(rt, alloc, text));
    let answer = files.write(path, &text).expect(rt, "memory");
    same(rt, answer, expected, path);
}

/// A read gives these bytes.
pub(crate) fn reads<O: Outside>(
    rt: &impl Abort,
    alloc: Global,
    files: &mut O,
    path: &[u8],
    text: &[u8],
) {
    let answer = files.read(path).expect(rt, "memory");
    same(rt, answer, Answer::Bytes(bytes(rt, alloc, text)), path);
}

/// A read is answered so.
pub(crate) fn answers<O: Outside>(rt: &impl Abort, files: &mut O, path: &[u8], expected: Answer) {
    let answer = files.read(path).expect(rt, "memory");
    same(rt, answer, expected, path);
}
